//! A transcript of the program: for each row of standard input, the command that its words are,
//! what it writes over the files of this folder, and the status with which it ends.
#![tactic(auto)]

mod files;
mod rows;

use crate::rows::transcript;
use aeth_io::HostShelf;
use std::io;
use std::io::Write;

fn main(rt: HostRuntime) -> io::Result<()> {
    let mut shelf = HostShelf::new(rt.clone()?);
    let mut out = rt.stdout();
    for row in rt.lines(rt.alloc()) {
        let lines = transcript(rt.alloc(), row?.as_str(), &mut shelf)?;
        out.write_all(&lines)?;
    }
    Ok(())
}
