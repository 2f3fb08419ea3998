//! Tests of chips and components: ports, wires and distances, orders, network interfaces, routers, and all of a network
//! together.
#![tactic(auto)]

#[cfg(test)]
mod chips;
#[cfg(test)]
mod clocked;
#[cfg(test)]
mod distances;
#[cfg(test)]
mod interface;
#[cfg(test)]
mod network;
#[cfg(test)]
mod pair;
#[cfg(test)]
mod resting;
#[cfg(test)]
mod router;
#[cfg(test)]
mod table_router;
