use std::alloc::Global;
use std::io;
use std::io::Write;
use sync_io::{MemorySink, Sink, SinkRefusal, StdSink, write_all};

/// A writer of the host that takes at most so many bytes at a time. Its calls, flushes among them, are counted from 1, and one
/// of them fails.
#[derive(Drop)]
struct Hose<'a> {
    taken: &'a mut Vec<u8>,
    flushes: &'a mut u64,
    most: usize,
    calls: u64,
    failing: u64,
}

impl Hose<'_> {
    fn call(&mut self) -> io::Result<()> {
        self.calls = self.calls.saturating_add(1);
        if self.calls == self.failing {
            return Err(io::ErrorKind::BrokenPipe.into());
        }
        Ok(())
    }
}

impl Write for Hose<'_> {
    fn write(&mut self, bytes: &[u8]) -> io::Result<usize> {
        self.call()?;
        let count = bytes.len().min(self.most);
        self.taken.extend_from_slice(&bytes[..count])?;
        Ok(count)
    }

    fn flush(&mut self) -> io::Result<()> {
        self.call()?;
        *self.flushes = self.flushes.saturating_add(1);
        Ok(())
    }
}

/// Writes all bytes and flushes.
fn written<K: Sink>(sink: &mut K, bytes: &[u8]) -> Result<(), SinkRefusal> {
    write_all(sink, bytes)?;
    sink.flush()
}

fn hose_into<'a>(
    taken: &'a mut Vec<u8>,
    flushes: &'a mut u64,
    most: usize,
    failing: u64,
) -> StdSink<Hose<'a>> {
    StdSink::new(Hose {
        taken,
        flushes,
        most,
        calls: 0,
        failing,
    })
}

/// Whether a writer of which that call fails takes so many of three bytes. Two at a time they are two writes, and then comes the
/// flush.
fn takes(alloc: Global, failing: u64, want: usize) -> bool {
    let mut taken = Vec::new(alloc);
    let mut flushes = 0;
    let mut sink = hose_into(&mut taken, &mut flushes, 2, failing);
    let done = written(&mut sink, b"abc");
    let fails = failing >= 1 && failing <= 3;
    let ended = if fails {
        done == Err(SinkRefusal::Failed)
    } else {
        done == Ok(())
    };
    ended && b"abc".starts_with(&taken) && taken.len() == want && flushes == !fails as u64
}

pub(crate) fn a_writer_that_fails_is_a_sink_that_fails(alloc: Global) -> bool {
    let mut all = true;
    for (failing, want) in [(0, 3), (1, 0), (2, 2), (3, 3), (4, 3)] {
        all &= takes(alloc, failing, want);
    }
    all
}

fn fails_where_nothing_is_taken<K: Sink>(sink: &mut K) -> bool {
    sink.write(b"abc") == Err(SinkRefusal::Failed)
        && sink.write(b"") == Ok(0)
        && write_all(sink, b"abc") == Err(SinkRefusal::Failed)
}

pub(crate) fn a_writer_that_takes_nothing_is_a_sink_that_fails(alloc: Global) -> bool {
    let mut taken = Vec::new(alloc);
    let mut flushes = 0;
    let mut sink = hose_into(&mut taken, &mut flushes, 0, 0);
    fails_where_nothing_is_taken(&mut sink)
}

/// Whether the second write and the second flush of a sink fail, which are its calls 2 and 4.
fn fails_in_turn(sink: &mut MemorySink) -> bool {
    write_all(sink, b"ab") == Ok(())
        && write_all(sink, b"cd") == Err(SinkRefusal::Failed)
        && write_all(sink, b"") == Ok(())
        && sink.flush() == Ok(())
        && sink.flush() == Err(SinkRefusal::Failed)
        && sink.bytes() == b"ab".as_slice()
}

pub(crate) fn each_call_of_a_sink_fails_in_turn(alloc: Global) -> bool {
    match Vec::from_slice(alloc, &[2, 4]) {
        Ok(failing) => fails_in_turn(&mut MemorySink::new(alloc, failing)),
        Err(_) => false,
    }
}
