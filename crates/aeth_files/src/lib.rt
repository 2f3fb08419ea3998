//! The files of designs and plans, read and judged one after the other: chips, applications and accepted plans.
#![tactic(auto)]

mod designs;
mod files;
mod plans;
mod uses;

pub use designs::read_design;
pub use files::{app_in, chip_in, read_chip_file};
pub use plans::{push_side_of, read_accepted};
pub use uses::named_use;
