//! A network of interfaces, routers and stages does what its private servers do, through switches.
#![tactic(auto)]

pub mod laws;
