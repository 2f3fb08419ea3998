// Sinks: what reaches a writer below one, and how much one in memory takes.
use aeth_io::{Failed, HostSink, MemSink, write_all};
use std::alloc::Global;
use std::io;
use std::io::Write;
use std::test::Fail;

/// A writer that takes two bytes a call; its third call fails, and its fourth takes nothing.
#[derive(Drop)]
struct Flaky<'a> {
    to: &'a mut Vec<u8>,
    calls: u8,
}

impl Write for Flaky<'_> {
    fn write(&mut self, piece: &[u8]) -> io::Result<usize> {
        self.calls = self.calls.saturating_add(1);
        if self.calls == 3 {
            return Err(io::Error::from(io::ErrorKind::BrokenPipe));
        }
        if self.calls == 4 {
            return Ok(0);
        }
        let taken = piece.len().min(2);
        self.to.extend_from_slice(&piece[..taken])?;
        Ok(taken)
    }

    fn flush(&mut self) -> io::Result<()> {
        Ok(())
    }
}

/// What three writes give, to a sink above such a writer.
fn flaky_writes(bytes: &mut Vec<u8>) -> [Result<(), Failed>; 3] {
    let mut sink = HostSink::new(Flaky {
        to: bytes,
        calls: 0,
    });
    [
        write_all(&mut sink, b"flits"),
        write_all(&mut sink, b"s"),
        write_all(&mut sink, b" go"),
    ]
}

#[test]
fn a_host_sink_writes_and_fails(rt: HostRuntime) -> Result<(), Fail> {
    let mut bytes = Vec::new(rt.alloc());
    let writes = flaky_writes(&mut bytes);
    assert!(rt; writes == [Err(Failed), Err(Failed), Ok(())]);
    assert!(rt; bytes.as_slice() == b"flit go".as_slice());
    Ok(())
}

/// The list of the call that fails, if there is one.
pub(crate) fn failing_calls(alloc: Global, fail: Option<u64>) -> Result<Vec<u64>, Fail> {
    let mut calls = Vec::new(alloc);
    if let Some(call) = fail {
        calls.push(call)?;
    }
    Ok(calls)
}

/// Room, the most bytes a call, the call that fails, whether all is written, and what is.
type Writing = (usize, usize, Option<u64>, bool, &'static str);

static WRITINGS: [Writing; 7] = [
    (64, 64, None, true, "0,4"),
    (64, 2, None, true, "0,4"),
    (64, 2, Some(1), false, "0,"),
    (64, 64, Some(0), false, ""),
    (64, 64, Some(1), true, "0,4"),
    (3, 64, None, true, "0,4"),
    (2, 64, None, false, "0,"),
];

/// Whether `0,4` is so written to a sink of such room.
fn is_writing(alloc: Global, writing: Writing) -> Result<bool, Fail> {
    let (room, most, fail, whole, text) = writing;
    let mut sink = MemSink::new(alloc, room, most.max(1), failing_calls(alloc, fail)?)?;
    let all = write_all(&mut sink, b"0,4").is_ok();
    Ok(all == whole && sink.bytes() == text.as_bytes())
}

/// The place of the first writing that is otherwise.
fn first_other_writing(alloc: Global) -> Result<Option<usize>, Fail> {
    for place in 0..WRITINGS.len() {
        if !is_writing(alloc, WRITINGS[place])? {
            return Ok(Some(place));
        }
    }
    Ok(None)
}

#[test]
fn a_sink_in_memory_takes_what_it_should(rt: HostRuntime) -> Result<(), Fail> {
    let other = first_other_writing(rt.alloc())?;
    assert_eq!(rt; other, None);
    Ok(())
}
