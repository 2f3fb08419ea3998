//! Tests of numbers, names, readers of files, sinks and shelves, slot sets, servers and headers, above the libraries
//! that have them.
#![tactic(auto)]

#[cfg(test)]
mod choice;
#[cfg(test)]
mod documents;
#[cfg(test)]
mod enumeration;
#[cfg(test)]
mod header;
#[cfg(test)]
mod host;
#[cfg(test)]
mod landings;
#[cfg(test)]
mod latency;
#[cfg(test)]
mod name_places;
mod names;
#[cfg(test)]
mod numbers;
#[cfg(test)]
mod paths;
#[cfg(test)]
mod server;
#[cfg(test)]
mod shelves;
#[cfg(test)]
mod sinks;
#[cfg(test)]
mod slot_set;
mod word_file;
