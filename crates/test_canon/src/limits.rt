//! What `run_limited` takes, and what it refuses as too long.

use crate::ran::{Call, Ended, Ran, end_of, word};
use crate::streams::{Plan, Sink};
use canon::{Watched, run_limited};
use std::alloc::Global;
use std::io;
use std::io::Read;
use test_support::Unanswered;

const TEXT: &[u8] = b"struct S;";

const PAGE: &[u8] = b"struct S ;\n";

/// Whether what has that name holds.
pub fn holds(alloc: Global, name: &str) -> Result<bool, Unanswered> {
    match name {
        "as many bytes as the limit are taken" => Ok(are_as_many_taken(alloc)),
        "one byte more is too long" => Ok(is_one_more_too_long(alloc)),
        "limit 0 takes the empty text alone" => Ok(is_empty_text_alone_taken(alloc)),
        "a reader that never ends is too long" => Ok(is_endless_too_long(alloc)),
        "what is too long is no other fault" => Ok(is_no_other_fault(alloc)),
        _ => Err(Unanswered::NoRow),
    }
}

// What a run with a limit comes to, which reads so many bytes at a time and writes one.
fn limited(alloc: Global, limit: u16, text: &[u8], most: usize) -> Ended {
    let ran = Ran::by(text, Plan::by(most), Plan::by(1));
    let call = Call::Limited(limit);
    end_of(alloc, Ran { call, ..ran })
}

// Whether a run ended well, and has written that.
fn has_written(ended: &Ended, page: &[u8]) -> bool {
    ended.word == "done" && ended.status == 0 && ended.sink.taken.as_slice() == page
}

// Whether a run was refused as too long, and has written nothing.
fn is_too_long(ended: &Ended) -> bool {
    ended.word == "map full"
        && ended.status == 3
        && !ended.has_reader_failed
        && !ended.has_writer_failed
        && ended.sink.writes.count == 0
        && ended.sink.flushes.count == 0
}

fn are_as_many_taken(alloc: Global) -> bool {
    has_written(&limited(alloc, 9, TEXT, usize::MAX), PAGE)
        && has_written(&limited(alloc, 9, TEXT, 1), PAGE)
        && has_written(&limited(alloc, u16::MAX, TEXT, usize::MAX), PAGE)
}

// The ninth byte shows that the text is too long, and no other is read.
fn is_one_more_too_long(alloc: Global) -> bool {
    let slow = limited(alloc, 8, TEXT, 1);
    is_too_long(&slow) && slow.reads == 9 && is_too_long(&limited(alloc, 8, TEXT, usize::MAX))
}

fn is_empty_text_alone_taken(alloc: Global) -> bool {
    has_written(&limited(alloc, 0, b"", usize::MAX), b"\n")
        && is_too_long(&limited(alloc, 0, b" ", usize::MAX))
}

// A text that is too long is not looked at.
fn is_no_other_fault(alloc: Global) -> bool {
    is_too_long(&limited(alloc, 3, b"\xff}}}", usize::MAX))
        && limited(alloc, 4, b"\xff}}}", usize::MAX).word == "no text"
        && limited(alloc, 4, b"a}}}", usize::MAX).word == "lexical"
}

// A reader that never ends, and how many bytes it gave.
#[derive(Drop)]
struct Endless {
    given: usize,
}

impl Read for Endless {
    fn read(&mut self, buf: &mut [u8]) -> io::Result<usize> {
        buf.fill(b' ');
        self.given = self.given.saturating_add(buf.len());
        Ok(buf.len())
    }
}

fn is_endless_too_long(alloc: Global) -> bool {
    let mut reader = Watched::new(Endless { given: 0 });
    let mut writer = Watched::new(Sink::new(alloc, Plan::by(1)));
    let outcome = run_limited(alloc, 100, &mut reader, &mut writer);
    word(&outcome) == "map full"
        && reader.get_ref().given == 101
        && !reader.failed()
        && writer.get_ref().writes.count == 0
}
