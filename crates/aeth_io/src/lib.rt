//! Where bytes are read and written, with the faults of each place counted.
#![tactic(auto)]

mod host_shelf;
mod host_sink;
mod mem_shelf;
mod mem_sink;
mod shelf;
mod sink;

pub use host_shelf::HostShelf;
pub use host_sink::HostSink;
pub use mem_shelf::MemShelf;
pub use mem_sink::MemSink;
pub use shelf::{MAX_FILE_BYTES, ReadFail, Shelf, read_all};
pub use sink::{Failed, Sink, write_all};
