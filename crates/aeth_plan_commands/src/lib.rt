//! The commands on accepted plans: the tables of their use cases, chains over their channels, and the
//! audit of what links carried.
#![tactic(auto)]

mod accepted;
mod audit;
mod chain;
mod command;
mod planned_uses;
mod route_tables;
mod tables;

pub use audit::AuditFiles;
pub use chain::ChainFiles;
pub use command::PlanCommand;
pub use planned_uses::UseFiles;
