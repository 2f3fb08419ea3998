//! Plans of reservations: their text, read and printed.
#![tactic(auto)]

mod design;
mod fault;
mod known;
mod laws;
mod layout;
mod lines;
mod making;
mod ordered;
mod plan;
mod printing;
mod read;
mod reading;
mod starts;
mod text;
mod unit_grants;

pub use design::{Design, Planned};
pub use fault::PlanFault;
pub use laws::{
    made_plan_is_for_chip, plan_has_text, plan_is_for_chip, plan_is_made_once, text_is_read,
};
pub use layout::{FIRST_SEAT_LINE, first_grant_line};
pub use plan::Plan;
pub use printing::print;
pub use read::read_plan;
pub use unit_grants::{is_before, is_for};
