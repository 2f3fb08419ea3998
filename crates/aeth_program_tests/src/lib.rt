//! Tests of the program's commands that no row of `aeth_transcripts` can be: faults, and the files
//! of `demo`; and of the cycles in which a network is busy, above the library that finds them.
#![tactic(auto)]

#[cfg(test)]
mod busy_files;
#[cfg(test)]
mod busy_tests;
#[cfg(test)]
mod demo_tests;
#[cfg(test)]
mod designs;
#[cfg(test)]
mod playing;
#[cfg(test)]
mod read_tests;
#[cfg(test)]
mod runs;
#[cfg(test)]
mod write_tests;
