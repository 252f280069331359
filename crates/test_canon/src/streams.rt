//! Readers and writers that are slow, interrupted or failing, and that count the calls that reach them.

use std::alloc::Global;
use std::io;
use std::io::{ErrorKind, Read, Write};

/// What calls are to answer, by the number of calls before them.
#[derive(Clone, Copy, Drop)]
pub struct Plan {
    /// How many calls there were that were not interrupted.
    pub count: u32,
    // So many bytes at most a call takes or gives.
    most: usize,
    // The first and the last call that fail, from 1.
    first_bad: u32,
    last_bad: u32,
    // So many calls are interrupted before each one that is not, and so many were.
    interruptions: u32,
    interrupted: u32,
}

impl Plan {
    /// At most so many bytes a call, and no fault.
    pub fn by(most: usize) -> Plan {
        Plan {
            count: 0,
            most,
            first_bad: 0,
            last_bad: 0,
            interruptions: 0,
            interrupted: 0,
        }
    }

    /// One byte a call, each after so many interruptions.
    pub fn interrupted(interruptions: u32) -> Plan {
        Plan {
            interruptions,
            ..Plan::by(1)
        }
    }

    /// One byte a call, and a failure from that call on.
    pub fn failing_from(bad: u32) -> Plan {
        Plan {
            first_bad: bad,
            last_bad: u32::MAX,
            ..Plan::by(1)
        }
    }

    /// At most so many bytes a call. That call fails, and those behind it are good again; with 0 none fails.
    pub fn failing_at(bad: u32, most: usize) -> Plan {
        Plan {
            first_bad: bad,
            last_bad: bad,
            ..Plan::by(most)
        }
    }

    // The next call's most bytes, or its error.
    fn turn(&mut self) -> io::Result<usize> {
        if self.interrupted < self.interruptions {
            self.interrupted += 1;
            return Err(io::Error::from(ErrorKind::Interrupted));
        }
        self.interrupted = 0;
        self.count = self.count.saturating_add(1);
        if self.first_bad <= self.count && self.count <= self.last_bad {
            return Err(io::Error::from(ErrorKind::BrokenPipe));
        }
        Ok(self.most)
    }
}

/// Gives bytes by a plan.
#[derive(Drop)]
pub struct Source<'a> {
    bytes: &'a [u8],
    /// The reads.
    pub reads: Plan,
}

impl<'a> Source<'a> {
    /// Gives these bytes.
    pub fn new(bytes: &'a [u8], reads: Plan) -> Source<'a> {
        Source { bytes, reads }
    }
}

impl Read for Source<'_> {
    fn read(&mut self, buf: &mut [u8]) -> io::Result<usize> {
        let count = self.reads.turn()?.min(buf.len()).min(self.bytes.len());
        let (front, rest) = self.bytes.split_at(count);
        buf[..count].copy_from_slice(front);
        self.bytes = rest;
        Ok(count)
    }
}

/// Takes bytes by a plan.
#[derive(Drop)]
pub struct Sink {
    /// The bytes that were taken.
    pub taken: Vec<u8>,
    /// How many of them the last flush saw.
    pub flushed: usize,
    /// The writes.
    pub writes: Plan,
    /// The flushes.
    pub flushes: Plan,
}

impl Sink {
    /// Has taken nothing. Its flushes are all good.
    pub fn new(alloc: Global, writes: Plan) -> Sink {
        Sink::flushing(alloc, writes, Plan::by(0))
    }

    /// Has taken nothing. Its flushes go by a plan of their own.
    pub fn flushing(alloc: Global, writes: Plan, flushes: Plan) -> Sink {
        Sink {
            taken: Vec::new(alloc),
            flushed: 0,
            writes,
            flushes,
        }
    }
}

impl Write for Sink {
    fn write(&mut self, buf: &[u8]) -> io::Result<usize> {
        let count = self.writes.turn()?.min(buf.len());
        self.taken.extend_from_slice(&buf[..count])?;
        Ok(count)
    }

    fn flush(&mut self) -> io::Result<()> {
        self.flushes.turn()?;
        self.flushed = self.taken.len();
        Ok(())
    }
}
