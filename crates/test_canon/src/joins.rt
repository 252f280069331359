//! Joined texts: what `run_joined` writes and says of them, what `canonical_joined` leaves of the map, and where there
//! is no room.

ghost use Rattle.std.specs.Prelude.{◌<◌, ◌≤◌};

use crate::ran::word;
use crate::streams::{Plan, Sink};
use canon::{Fault, Watched, canonical, canonical_joined, run_joined, status, write_fault};
use rust_map::{LineColumn, SourceMap};
use std::alloc::{AllocError, Global};
use test_support::{Page, Row, Unanswered};

/// The status that `run_joined` comes to, what it writes, and what is said of its fault. A U+001F stands between two
/// texts of a row; of `joined none` there is no text.
pub fn joined(row: Row, page: &mut Page) -> Result<(), Unanswered> {
    let texts = if row.call == "joined none" {
        Vec::new(page.alloc())
    } else {
        parts_of(page.alloc(), row.text)?
    };
    put_run(texts.as_slice(), page);
    Ok(())
}

fn parts_of(alloc: Global, text: &str) -> Result<Vec<&[u8]>, AllocError> {
    let mut parts = Vec::new(alloc);
    for part in text.split('\u{1f}') {
        parts.push(part.as_bytes())?;
    }
    Ok(parts)
}

fn put_run(texts: &[&[u8]], page: &mut Page) {
    let mut writer = Watched::new(Vec::new(page.alloc()));
    let outcome = run_joined(page.alloc(), texts, &mut writer);
    let status = status(&outcome);
    write!(page, "status {status}, writes ");
    put_text(writer.get_ref().as_slice(), page);
    page.put(", says ");
    put_text(said(page.alloc(), &outcome).as_slice(), page);
}

// What is said of an outcome.
fn said(alloc: Global, outcome: &Result<(), Fault>) -> Vec<u8> {
    let mut messages = Vec::new(alloc);
    if let Err(fault) = outcome {
        let _ = write_fault(fault, &mut messages);
    }
    messages
}

// Puts a text as it is written in rows.
fn put_text(bytes: &[u8], page: &mut Page) {
    match str::from_utf8(bytes) {
        Ok(text) => page.quote(text),
        Err(_) => page.cut(),
    }
}

/// Whether what has that name holds.
pub fn holds(alloc: Global, name: &str) -> Result<bool, Unanswered> {
    match name {
        "bytes that are no text are refused wherever they stand" => Ok(are_no_text(alloc)),
        "each single write fails in turn" => Ok(each_write_fails(alloc)),
        "there is room for two texts and for what they are joined to" => Ok(has_room_for_two(
            alloc,
        )),
        "a text at fault decides before one that has no room" => Ok(decides_before_room(alloc)),
        "one that has no room decides before one at fault" => Ok(room_decides_before(alloc)),
        "faults have their place in their own text" => Ok(has_its_place(alloc)),
        "the texts before the one that decides stay" => Ok(stay_before(alloc)),
        _ => Err(Unanswered::NoRow),
    }
}

// What a run to a writer by a plan comes to, and what was written.
fn ran(alloc: Global, texts: &[&[u8]], writes: Plan) -> (&'static str, Sink) {
    let mut writer = Watched::new(Sink::new(alloc, writes));
    let outcome = run_joined(alloc, texts, &mut writer);
    (word(&outcome), writer.into_inner())
}

fn is_no_text(alloc: Global, texts: &[&[u8]]) -> bool {
    let (word, sink) = ran(alloc, texts, Plan::by(1));
    word == "no text" && sink.writes.count == 0
}

// Also behind a text that is at fault.
fn are_no_text(alloc: Global) -> bool {
    is_no_text(alloc, &[b"\xff"])
        && is_no_text(alloc, &[b"struct S;", b"\xff"])
        && is_no_text(alloc, &[b"fn f(", b"#![a]", b"\xff"])
}

const PAGE: &[u8] = b"struct S ; fn f () { }\n";

// Whether a run ends so where the write of that number fails, one byte being taken at a time: those before it are.
fn write_fails(alloc: Global, bad: u32) -> bool {
    let (word, sink) = ran(
        alloc,
        &[b"struct S;", b"fn f(){}"],
        Plan::failing_at(bad, 1),
    );
    let front = PAGE.get(..(bad as usize).saturating_sub(1));
    word == "writing" && Some(sink.taken.as_slice()) == front
}

// 23 bytes take 23 writes.
fn each_write_fails(alloc: Global) -> bool {
    let (word, sink) = ran(alloc, &[b"struct S;", b"fn f(){}"], Plan::failing_at(24, 1));
    (1..24u32).all(|bad| write_fails(alloc, bad)) && word == "done" && sink.taken.as_slice() == PAGE
}

// What is answered where the first text begins at a position.
fn answer_at(alloc: Global, position: u32, texts: &[&str]) -> Result<String, Fault>
    requires { 1 ≤ position }
{
    canonical_joined(alloc, texts, &mut SourceMap::starting_at(alloc, position))
}

fn is_output(answer: Result<String, Fault>, output: &str) -> bool {
    match answer {
        Ok(answer) => answer.as_str() == output,
        Err(_) => false,
    }
}

fn is_full(answer: &Result<String, Fault>) -> bool {
    matches!(answer, Err(Fault::MapFull))
}

// Two texts of 9 characters take 20 positions, and the 19 of what they are joined to one more. The last is 4294967295.
fn has_room_for_two(alloc: Global) -> bool {
    let two = ["struct S;", "struct S;"];
    is_output(answer_at(alloc, 4294967256, &two), "struct S ; struct S ;")
        && is_full(&answer_at(alloc, 4294967257, &two))
        && is_full(&answer_at(alloc, 4294967277, &two))
        && is_full(&answer_at(alloc, 4294967287, &two))
        && is_output(answer_at(alloc, 4294967295, &[]), "")
        && is_full(&answer_at(alloc, 4294967295, &[""]))
}

// The text behind the one that is at fault has no room.
fn decides_before_room(alloc: Global) -> bool {
    let lexical = answer_at(alloc, 4294967294, &["}", "fn f(){}"]);
    let syntax = answer_at(alloc, 4294967286, &["struct 9;", "fn f(){}"]);
    let not_first = answer_at(alloc, 4294967280, &["struct S;", "#![a]", "fn f(){}"]);
    matches!(lexical, Err(Fault::Lexical(_)))
        && matches!(syntax, Err(Fault::Syntax { .. }))
        && matches!(not_first, Err(Fault::NotFirst(1)))
}

// The text that is at fault has no room itself, or one before it has none.
fn room_decides_before(alloc: Global) -> bool {
    is_full(&answer_at(alloc, 4294967295, &["}"]))
        && is_full(&answer_at(alloc, 4294967282, &["struct S;", "#![a]"]))
        && is_full(&answer_at(alloc, 4294967287, &["struct S;", "}"]))
}

// The second text is at fault, at its own line.
fn has_its_place(alloc: Global) -> bool {
    let mut map = SourceMap::new(alloc);
    let place = LineColumn { line: 2, column: 8 };
    match canonical_joined(alloc, &["struct S;", "m!{}\n struct 9;"], &mut map) {
        Err(Fault::Syntax { place: found, .. }) => found == Some(place),
        _ => false,
    }
}

// So many characters stay of a map behind which an empty text has the last position that there is.
fn leaves(alloc: Global, texts: &[&str], count: u32) -> bool
    requires { count < 4294967295 }
{
    let first = 4294967295 - count;
    let mut map = SourceMap::starting_at(alloc, first);
    canonical_joined(alloc, texts, &mut map).is_err()
        && canonical(alloc, "", &mut map).is_ok()
        && matches!(canonical(alloc, "", &mut map), Err(Fault::MapFull))
}

// Each text takes a position more than it has characters. One at a lexical fault isn't put in, others are.
fn stay_before(alloc: Global) -> bool {
    leaves(alloc, &["struct S;", "}"], 10)
        && leaves(alloc, &["struct S;", "struct 9;"], 20)
        && leaves(alloc, &["struct S;", "#![a]"], 16)
}
