// Why a word is no header.

use std::error::Error;
use std::fmt;

/// The word's payload count is 3, and a flit carries two words at most.
#[derive(Clone, Copy, Debug, PartialEq)]
pub struct HeaderFault;

impl fmt::Display for HeaderFault {
    fn fmt<W: fmt::Write>(&self, f: &mut fmt::Formatter<W>) -> fmt::Result {
        f.write_str("the header has a payload count of 3")
    }
}

impl Error for HeaderFault {}
