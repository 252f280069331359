//! A run over streams that go by plans, and what it comes to.

use crate::streams::{Plan, Sink, Source};
use canon::{Fault, Watched, run, run_limited, run_outline, status};
use std::alloc::Global;

/// What runs.
#[derive(Clone, Copy)]
pub enum Call {
    /// `run`.
    Run,
    /// `run_outline`.
    Outline,
    /// `run_limited`, with a limit of so many bytes.
    Limited(u16),
}

/// A run: of which text, and by which plans that is read, and what is written is taken and flushed.
#[derive(Clone, Copy)]
pub struct Ran<'a> {
    /// What runs.
    pub call: Call,
    /// The text.
    pub text: &'a [u8],
    /// The plan by which it is read.
    pub reads: Plan,
    /// The plan by which what is written is taken.
    pub writes: Plan,
    /// The plan by which that is flushed.
    pub flushes: Plan,
}

impl<'a> Ran<'a> {
    /// A run of `run`, with plans. Its flushes are all good.
    pub fn by(text: &'a [u8], reads: Plan, writes: Plan) -> Ran<'a> {
        Ran {
            call: Call::Run,
            text,
            reads,
            writes,
            flushes: Plan::by(0),
        }
    }
}

/// What a run has come to.
#[derive(Drop)]
pub struct Ended {
    /// A word for how it ended.
    pub word: &'static str,
    /// The status of that.
    pub status: u8,
    /// Whether its reader failed.
    pub has_reader_failed: bool,
    /// Whether its writer did.
    pub has_writer_failed: bool,
    /// How many reads there were.
    pub reads: u32,
    /// What was written, and how.
    pub sink: Sink,
}

/// What a run comes to.
pub fn end_of(alloc: Global, ran: Ran<'_>) -> Ended {
    let mut reader = Watched::new(Source::new(ran.text, ran.reads));
    let mut writer = Watched::new(Sink::flushing(alloc, ran.writes, ran.flushes));
    let outcome = match ran.call {
        Call::Run => run(alloc, &mut reader, &mut writer),
        Call::Outline => run_outline(alloc, &mut reader, &mut writer),
        Call::Limited(limit) => run_limited(alloc, limit as usize, &mut reader, &mut writer),
    };
    Ended {
        word: word(&outcome),
        status: status(&outcome),
        has_reader_failed: reader.failed(),
        has_writer_failed: writer.failed(),
        reads: reader.get_ref().reads.count,
        sink: writer.into_inner(),
    }
}

/// A word for how a run ends.
pub fn word(outcome: &Result<(), Fault>) -> &'static str {
    match outcome {
        Ok(()) => "done",
        Err(Fault::NotUtf8) => "no text",
        Err(Fault::Lexical(_)) => "lexical",
        Err(Fault::Syntax { place: None, .. }) => "syntax at the end",
        Err(Fault::Syntax { .. }) => "syntax",
        Err(Fault::NotFirst(_)) => "not first",
        Err(Fault::MapFull) => "map full",
        Err(Fault::Memory) => "memory",
        Err(Fault::Reading) => "reading",
        Err(Fault::Writing) => "writing",
    }
}
