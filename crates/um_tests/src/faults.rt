// Readers and writers of std that fail, and runs over a source and a sink that never do.
use crate::run::{Tally, report_try};
use std::alloc::Global;
use std::io;
use std::io::{ErrorKind, Read, Write};
use std::test::Fail;
use um_tool::{Status, Words, serve, status_of};
use um_wire::{MemSink, ReadStop, StdSink, StdSource, read_text, write_all};

/// Tries what a table of texts can't show, and prints how it came out.
pub fn report_faults<R: Print + AllocGlobal>(rt: &R, total: &mut Tally) -> Result<(), Fail> {
    let alloc = rt.alloc();
    let mut words = Words::new(alloc);
    words.push(alloc, "types")?;
    for (title, agrees) in [
        (
            "a failed read of std: it is told",
            failed_read_is_told(alloc),
        ),
        (
            "a failed read of std: the answer",
            failed_read_is_answered(alloc, &words),
        ),
        ("writes of std: each is flushed", writes_are_flushed()),
        (
            "a source and a sink that never fail",
            quiet_runs_agree(alloc, &words),
        ),
    ] {
        report_try(rt, title, agrees, total)?;
    }
    Ok(())
}

// A reader of "abc", a byte a read, whose second read fails and takes nothing.
#[derive(Drop)]
struct Stumbling {
    calls: u8,
}

impl Read for Stumbling {
    fn read(&mut self, buf: &mut [u8]) -> io::Result<usize> {
        self.calls = self.calls.saturating_add(1);
        let byte = match self.calls {
            1 => b'a',
            2 => return Err(ErrorKind::Interrupted.into()),
            3 => b'b',
            4 => b'c',
            _ => return Ok(0),
        };
        if buf.is_empty() {
            return Ok(0);
        }
        buf[0] = byte;
        Ok(1)
    }
}

// A read that fails is told, and the next one goes on.
fn failed_read_is_told(alloc: Global) -> bool {
    let mut source = StdSource::new(Stumbling { calls: 0 });
    let first = read_text(alloc, &mut source, 7);
    let failed = matches!(&first, Err(ReadStop::Failed));
    drop(first);
    match read_text(alloc, &mut source, 7) {
        Ok(rest) => failed && rest.as_slice() == b"bc".as_slice(),
        Err(_) => false,
    }
}

fn failed_read_is_answered(alloc: Global, words: &Words) -> bool {
    let mut source = StdSource::new(Stumbling { calls: 0 });
    let Ok(mut sink) = MemSink::new(alloc, 100, 100, Vec::new(alloc)) else {
        return false;
    };
    let status = serve(alloc, words, &mut source, &mut sink);
    status == Status::ReadFault && sink.bytes() == b"error 15: read\n".as_slice()
}

// A writer that takes at most `most` bytes at a time, and whose flush may fail.
#[derive(Drop)]
struct Slow {
    most: usize,
    is_flushable: bool,
    waiting: usize,
    flushed: usize,
}

impl Write for Slow {
    fn write(&mut self, buf: &[u8]) -> io::Result<usize> {
        self.waiting = buf.len().min(self.most);
        Ok(self.waiting)
    }

    fn flush(&mut self) -> io::Result<()> {
        if !self.is_flushable {
            return Err(ErrorKind::Other.into());
        }
        self.flushed = self.flushed.saturating_add(self.waiting);
        self.waiting = 0;
        Ok(())
    }
}

fn writes_are_flushed() -> bool {
    for (most, is_flushable, flushed) in [(3, true, 7), (3, false, 0), (0, true, 0)] {
        let mut slow = Slow {
            most,
            is_flushable,
            waiting: 0,
            flushed: 0,
        };
        let is_written = write_words(&mut slow);
        if is_written != (flushed == 7) || slow.flushed != flushed {
            return false;
        }
    }
    true
}

// Whether all bytes were written.
fn write_words(slow: &mut Slow) -> bool {
    let mut sink = StdSink::new(slow);
    write_all(&mut sink, b"one two").is_ok()
}

fn quiet_runs_agree(alloc: Global, words: &Words) -> bool {
    for (text, want) in [
        ("let f (x: num) = x", Status::Done),
        ("let f (x: num) = y", Status::Names),
        ("let f (x: num) = x + true", Status::Shape),
        (
            "let f<[<Measure>] 'u> (x: num<'u>) = x + 1",
            Status::NotGeneral,
        ),
        ("let", Status::Syntax),
    ] {
        let Ok(bytes) = text.as_bytes().to_vec(alloc) else {
            return false;
        };
        if status_of(alloc, words, bytes) != want {
            return false;
        }
    }
    true
}
