//! What is passed on to the streams within, and how often: no contract can say what an inner stream answered.

use crate::ran::{Ended, Ran, end_of};
use crate::streams::{Plan, Sink, Source};
use canon::Watched;
use std::alloc::{AllocError, Global};
use std::io;
use std::io::{ErrorKind, Read, Write};
use test_support::Unanswered;

/// So many bytes at once.
const LARGE: usize = 65_536;

const TEXT: &[u8] = b"struct  S ;m!{a+-b}";

const PAGE: &[u8] = b"struct S ; m ! { a +- b }\n";

/// Whether what has that name holds.
pub fn holds(alloc: Global, name: &str) -> Result<bool, Unanswered> {
    match name {
        "each call is passed on once and whole" => Ok(is_each_passed_on(alloc)?),
        "one failure is given back and not forgotten" => Ok(is_one_failed(alloc)),
        "a run reads no more behind a failed read" => Ok(stops_at_each_read(alloc)),
        "a run writes no more behind a failed write" => Ok(stops_at_each_write(alloc)),
        "a run flushes all and says where that fails" => Ok(is_each_flushed(alloc)),
        "a large text takes few calls" => Ok(are_calls_few(alloc)?),
        _ => Err(Unanswered::NoRow),
    }
}

// Whether a call had that answer.
fn is_answer<T: PartialEq + Copy>(answer: io::Result<T>, wanted: Result<T, ErrorKind>) -> bool {
    match (answer, wanted) {
        (Ok(value), Ok(other)) => value == other,
        (Err(error), Err(kind)) => error.kind() == kind,
        _ => false,
    }
}

// Whether bytes are read by one call, and then nothing is left.
fn is_read_at_once(bytes: &[u8], buf: &mut Vec<u8>) -> bool {
    let mut reader = Watched::new(Source::new(bytes, Plan::by(usize::MAX)));
    is_answer(reader.read(buf.as_mut_slice()), Ok(bytes.len()))
        && reader.get_ref().reads.count == 1
        && buf.as_slice() == bytes
        && is_answer(reader.read(buf.as_mut_slice()), Ok(0))
        && !reader.failed()
}

// Whether bytes are written by one call, and flushed by one.
fn is_written_at_once(alloc: Global, bytes: &[u8]) -> bool {
    let mut writer = Watched::new(Sink::new(alloc, Plan::by(usize::MAX)));
    is_answer(writer.write(bytes), Ok(bytes.len()))
        && writer.get_ref().writes.count == 1
        && writer.get_ref().taken.as_slice() == bytes
        && writer.flush().is_ok()
        && writer.get_ref().flushes.count == 1
        && writer.get_ref().flushed == bytes.len()
        && writer.flushed()
        && !writer.failed()
}

fn is_each_passed_on(alloc: Global) -> Result<bool, AllocError> {
    let bytes = vec![in alloc; 7u8; LARGE]?;
    let mut buf = vec![in alloc; 0u8; LARGE]?;
    let is_read = is_read_at_once(bytes.as_slice(), &mut buf);
    Ok(is_read && is_written_at_once(alloc, bytes.as_slice()))
}

// Whether a read of four bytes has that answer, and a call has failed by then or not.
fn is_read(
    reader: &mut Watched<Source<'_>>,
    wanted: Result<usize, ErrorKind>,
    has_failed: bool,
) -> bool {
    let mut buf = [0u8; 4];
    is_answer(reader.read(&mut buf), wanted) && reader.failed() == has_failed
}

// Whether the second of three reads fails.
fn is_one_read_failed() -> bool {
    let mut reader = Watched::new(Source::new(TEXT, Plan::failing_at(2, 4)));
    is_read(&mut reader, Ok(4), false)
        && is_read(&mut reader, Err(ErrorKind::BrokenPipe), true)
        && is_read(&mut reader, Ok(4), true)
        && reader.get_ref().reads.count == 3
}

// The same of a write.
fn is_write(
    writer: &mut Watched<Sink>,
    wanted: Result<usize, ErrorKind>,
    has_failed: bool,
) -> bool {
    is_answer(writer.write(b"abcd"), wanted) && writer.failed() == has_failed
}

fn is_one_write_failed(alloc: Global) -> bool {
    let mut writer = Watched::new(Sink::new(alloc, Plan::failing_at(2, 4)));
    is_write(&mut writer, Ok(4), false)
        && is_write(&mut writer, Err(ErrorKind::BrokenPipe), true)
        && is_write(&mut writer, Ok(4), true)
        && writer.get_ref().writes.count == 3
}

// The same of a flush, which is the last good one or not.
fn is_flush(writer: &mut Watched<Sink>, wanted: Result<(), ErrorKind>, has_failed: bool) -> bool {
    is_answer(writer.flush(), wanted)
        && writer.failed() == has_failed
        && writer.flushed() == wanted.is_ok()
}

fn is_one_flush_failed(alloc: Global) -> bool {
    let sink = Sink::flushing(alloc, Plan::by(4), Plan::failing_at(2, 0));
    let mut writer = Watched::new(sink);
    is_flush(&mut writer, Ok(()), false)
        && is_flush(&mut writer, Err(ErrorKind::BrokenPipe), true)
        && is_flush(&mut writer, Ok(()), true)
        && writer.get_ref().flushes.count == 3
}

fn is_one_failed(alloc: Global) -> bool {
    is_one_read_failed() && is_one_write_failed(alloc) && is_one_flush_failed(alloc)
}

// Whether a run of which that read fails reads no more, and writes and flushes nothing.
fn stops_at_read(alloc: Global, bad: u32) -> bool {
    let ran = Ran::by(TEXT, Plan::failing_at(bad, 1), Plan::by(1));
    is_reading(&end_of(alloc, ran), bad)
}

fn is_reading(ended: &Ended, reads: u32) -> bool {
    ended.word == "reading"
        && ended.reads == reads
        && ended.sink.writes.count == 0
        && ended.sink.flushes.count == 0
}

fn stops_at_each_read(alloc: Global) -> bool {
    let mut all = true;
    for bad in 1..21u32 {
        all &= stops_at_read(alloc, bad);
    }
    all
}

// Whether a run failed at that write: a byte of the page was taken by each one before, and nothing was flushed.
fn is_front(ended: &Ended, bad: u32) -> bool {
    let sink = &ended.sink;
    let taken = sink.taken.as_slice();
    ended.word == "writing"
        && sink.writes.count == bad
        && taken.len() as u64 + 1 == bad as u64
        && PAGE.starts_with(taken)
        && sink.flushes.count == 0
}

// Whether a run of which that write fails writes no more.
fn stops_at_write(alloc: Global, bad: u32) -> bool {
    let ran = Ran::by(TEXT, Plan::by(usize::MAX), Plan::failing_at(bad, 1));
    is_front(&end_of(alloc, ran), bad)
}

fn stops_at_each_write(alloc: Global) -> bool {
    let mut all = true;
    for bad in 1..27u32 {
        all &= stops_at_write(alloc, bad);
    }
    all
}

// Whether a run ended so, its page was taken by one write, and one flush saw so many bytes.
fn has_page(ended: &Ended, word: &str, flushed: usize) -> bool {
    let sink = &ended.sink;
    ended.word == word
        && sink.taken.as_slice() == PAGE
        && sink.writes.count == 1
        && sink.flushes.count == 1
        && sink.flushed == flushed
}

// Whether a run of which that flush fails, or none where it is 0, has written all and says so.
fn is_flushed(alloc: Global, bad: u32, word: &str, flushed: usize) -> bool {
    let ran = Ran {
        flushes: Plan::failing_at(bad, 0),
        ..Ran::by(TEXT, Plan::by(usize::MAX), Plan::by(usize::MAX))
    };
    has_page(&end_of(alloc, ran), word, flushed)
}

fn is_each_flushed(alloc: Global) -> bool {
    is_flushed(alloc, 0, "done", PAGE.len()) && is_flushed(alloc, 1, "writing", 0)
}

fn many_items(alloc: Global) -> Result<Vec<u8>, AllocError> {
    let mut text = Vec::new(alloc);
    for _ in 0..10_000 {
        text.extend_from_slice(b"struct S;\n")?;
    }
    Ok(text)
}

// Whether a run has taken at most 64 reads and two writes, and written so many bytes.
fn took_few_calls(ended: &Ended, written: usize) -> bool {
    ended.word == "done"
        && ended.sink.taken.len() == written
        && ended.reads <= 64
        && ended.sink.writes.count == 2
}

fn are_calls_few(alloc: Global) -> Result<bool, AllocError> {
    let text = many_items(alloc)?;
    let ran = Ran::by(text.as_slice(), Plan::by(LARGE), Plan::by(LARGE));
    Ok(took_few_calls(&end_of(alloc, ran), 110_000))
}
