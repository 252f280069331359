//! Texts, and what `run` and `run_outline` read and write.

use crate::ran::{Call, Ended, Ran, end_of, word};
use crate::streams::{Plan, Sink, Source};
use canon::{Watched, run};
use std::alloc::Global;
use test_support::Unanswered;

const TEXT: &[u8] = b"fn f(){}";

const PAGE: &[u8] = b"fn f () { }\n";

const NAMES: &[u8] = b"struct S;\nfn go(){}";

const ROWS: &[u8] = b"struct S 1:7\nfn go 2:3\n";

/// Whether what has that name holds.
pub fn holds(alloc: Global, name: &str) -> Result<bool, Unanswered> {
    match name {
        "whole streams and slow ones write the page" => Ok(all_write_the_page(alloc)),
        "a thousand interruptions are a failure" => Ok(a_thousand_are_a_failure(alloc)),
        "each single read of a run fails in turn" => Ok(each_read_fails(alloc)),
        "each single write of a run fails in turn" => Ok(each_write_fails(alloc)),
        "five bytes are a front" => Ok(five_are_a_front(alloc)),
        "a write that takes no byte is a failure" => Ok(no_byte_is_a_failure(alloc)),
        "refused texts write nothing" => Ok(are_refused(alloc)),
        "bytes that are no text and texts that end too early say so" => Ok(both_end(alloc)),
        "an outline is a line for each row" => Ok(is_a_line_for_each_row(alloc)),
        "a range with attributes is put in parentheses and has an outline" => Ok(is_put(alloc)),
        _ => Err(Unanswered::NoRow),
    }
}

// What a run comes to: how it ends, with which status, and what it has written.
#[derive(Clone, Copy)]
struct End<'a> {
    word: &'a str,
    status: u8,
    written: &'a [u8],
}

impl<'a> End<'a> {
    fn done(written: &'a [u8]) -> End<'a> {
        End {
            word: "done",
            status: 0,
            written,
        }
    }

    fn writing(written: &'a [u8]) -> End<'a> {
        End {
            word: "writing",
            status: 3,
            written,
        }
    }
}

// A run of a text that is read at once, and of whose page one byte is taken at a time.
fn at_once(text: &[u8]) -> Ran<'_> {
    Ran::by(text, Plan::by(usize::MAX), Plan::by(1))
}

// Whether a run came to that. Its streams failed where it says so.
fn is_end(ended: &Ended, end: End<'_>) -> bool {
    ended.word == end.word
        && ended.status == end.status
        && ended.has_reader_failed == (end.word == "reading")
        && ended.has_writer_failed == (end.word == "writing")
        && ended.sink.taken.as_slice() == end.written
}

// Whether `run` comes to that.
fn runs(alloc: Global, ran: Ran<'_>, end: End<'_>) -> bool {
    is_end(&end_of(alloc, ran), end)
}

// Whether `run_outline` does.
fn outlines(alloc: Global, ran: Ran<'_>, end: End<'_>) -> bool {
    let call = Call::Outline;
    is_end(&end_of(alloc, Ran { call, ..ran }), end)
}

// Whether the text is written as its page where both streams go by a plan.
fn writes_by(alloc: Global, plan: Plan) -> bool {
    runs(alloc, Ran::by(TEXT, plan, plan), End::done(PAGE))
}

fn all_write_the_page(alloc: Global) -> bool {
    writes_by(alloc, Plan::by(usize::MAX))
        && writes_by(alloc, Plan::by(1))
        && writes_by(alloc, Plan::by(2))
        && writes_by(alloc, Plan::interrupted(999))
}

// Whether a run ends so where the read of that number fails, one byte being read at a time.
fn read_fails(alloc: Global, bad: u32) -> bool {
    let reading = End {
        word: "reading",
        status: 3,
        written: b"",
    };
    runs(
        alloc,
        Ran::by(TEXT, Plan::failing_at(bad, 1), Plan::by(1)),
        reading,
    )
}

// Eight bytes take eight reads, and one more tells the end. A tenth read there is none.
fn each_read_fails(alloc: Global) -> bool {
    let ran = Ran::by(TEXT, Plan::failing_at(10, 1), Plan::by(1));
    (1..10u32).all(|bad| read_fails(alloc, bad)) && runs(alloc, ran, End::done(PAGE))
}

// Whether a run ends so where the write of that number fails, one byte being taken at a time: those before it are.
fn write_fails(alloc: Global, bad: u32) -> bool {
    let ran = Ran::by(TEXT, Plan::by(usize::MAX), Plan::failing_at(bad, 1));
    match PAGE.get(..(bad as usize).saturating_sub(1)) {
        Some(front) => runs(alloc, ran, End::writing(front)),
        None => false,
    }
}

// Twelve bytes take twelve writes.
fn each_write_fails(alloc: Global) -> bool {
    let ran = Ran::by(TEXT, Plan::by(usize::MAX), Plan::failing_at(13, 1));
    (1..13u32).all(|bad| write_fails(alloc, bad)) && runs(alloc, ran, End::done(PAGE))
}

fn a_thousand_are_a_failure(alloc: Global) -> bool {
    let read = Ran::by(TEXT, Plan::interrupted(1000), Plan::by(1));
    let written = Ran::by(TEXT, Plan::by(1), Plan::interrupted(1000));
    let reading = End {
        word: "reading",
        status: 3,
        written: b"",
    };
    runs(alloc, read, reading) && runs(alloc, written, End::writing(b""))
}

fn five_are_a_front(alloc: Global) -> bool {
    let ran = Ran::by(TEXT, Plan::by(usize::MAX), Plan::failing_from(6));
    runs(alloc, ran, End::writing(b"fn f "))
}

fn no_byte_is_a_failure(alloc: Global) -> bool {
    let ran = Ran::by(TEXT, Plan::by(usize::MAX), Plan::by(0));
    runs(alloc, ran, End::writing(b""))
}

// Whether a text is refused so, with nothing written.
fn is_refused(alloc: Global, text: &[u8], word: &str) -> bool {
    let end = End {
        word,
        status: 1,
        written: b"",
    };
    runs(alloc, at_once(text), end)
}

fn are_refused(alloc: Global) -> bool {
    is_refused(alloc, b"\xff", "no text")
        && is_refused(alloc, b"m!{", "lexical")
        && is_refused(alloc, b"struct S;struct", "syntax at the end")
        && is_refused(alloc, b"fn f()", "syntax at the end")
}

// Whether a run of a text, which is read byte by byte, ends so where its writer has not failed before.
fn ends(alloc: Global, text: &[u8], writer: &mut Watched<Sink>, end: &str) -> bool {
    if writer.failed() {
        return false;
    }
    let mut reader = Watched::new(Source::new(text, Plan::by(1)));
    let outcome = run(alloc, &mut reader, writer);
    word(&outcome) == end
}

// Whether both runs to one writer end as their texts are refused.
fn both_end(alloc: Global) -> bool {
    let mut writer = Watched::new(Sink::new(alloc, Plan::by(1)));
    ends(alloc, b"\xff", &mut writer, "no text")
        && ends(alloc, b"struct S;struct", &mut writer, "syntax at the end")
}

// Whether the rows are written where both streams go by a plan.
fn outlines_by(alloc: Global, plan: Plan) -> bool {
    outlines(alloc, Ran::by(NAMES, plan, plan), End::done(ROWS))
}

fn is_a_line_for_each_row(alloc: Global) -> bool {
    let ran = Ran::by(NAMES, Plan::by(1), Plan::failing_from(6));
    outlines_by(alloc, Plan::by(usize::MAX))
        && outlines_by(alloc, Plan::by(1))
        && outlines_by(alloc, Plan::interrupted(999))
        && outlines(alloc, ran, End::writing(b"struc"))
}

fn is_put(alloc: Global) -> bool {
    let ran = at_once(b"fn f(){#[a] ..2;}");
    runs(alloc, ran, End::done(b"fn f () { # [a] (.. 2) ; }\n"))
        && outlines(alloc, ran, End::done(b"fn f 1:3\n"))
}
