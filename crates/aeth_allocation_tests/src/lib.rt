//! Tests of applications, groups, books, first paths, allocations, certificates, plans and the spans of switches, above the
//! libraries that have them.
#![tactic(auto)]

#[cfg(test)]
mod allocations;
#[cfg(test)]
mod apps;
#[cfg(test)]
mod books;
#[cfg(test)]
mod certificates;
#[cfg(test)]
mod chips;
mod costs;
#[cfg(test)]
mod grants;
#[cfg(test)]
mod outcomes;
#[cfg(test)]
mod parts;
#[cfg(test)]
mod paths;
#[cfg(test)]
mod plans;
#[cfg(test)]
mod refusals;
#[cfg(test)]
mod searches;
#[cfg(test)]
mod setups;
#[cfg(test)]
mod spans;
#[cfg(test)]
mod texts;
#[cfg(test)]
mod told;
