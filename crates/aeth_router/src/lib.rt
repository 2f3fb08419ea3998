//! Routers that read headers or look a table up, each of which sends a flit on by one hop in a cycle,
//! and the stages of links with a delay; and what all of these pass on of the flits on their wires.
#![tactic(auto)]

mod entries;
mod forwarding;
mod onward;
mod part;
mod router;
mod router_row;
mod row_order;
mod stage;
mod table_router;
mod traffic;

pub use forwarding::Forwarding;
pub use onward::Onward;
pub use part::Part;
pub use router::Router;
pub use router_row::RouterRow;
pub use row_order::are_by_router;
pub use stage::Stage;
pub use table_router::TableRouter;
