//! What the program says of each fault.

use crate::streams::{Plan, Sink};
use canon::{Error, Fault, write_fault};
use rust_map::{LineColumn, Span};
use std::alloc::{AllocError, Global};
use test_support::Unanswered;

/// Whether what has that name holds.
pub fn holds(alloc: Global, name: &str) -> Result<bool, Unanswered> {
    match name {
        "each fault has its line" => Ok(each_has_its_line(alloc)),
        "the first message of more is said" => Ok(first_is_said(alloc)),
        _ => Err(Unanswered::NoRow),
    }
}

fn each_has_its_line(alloc: Global) -> bool {
    is_line(alloc, Fault::NotUtf8, "canon: not UTF-8\n")
        && is_line(alloc, Fault::NotFirst(1), "canon: text 2 must come first\n")
        && is_line(
            alloc,
            Fault::NotFirst(usize::MAX),
            "canon: text 18446744073709551616 must come first\n",
        )
        && is_line(alloc, Fault::MapFull, "canon: source map full\n")
        && is_line(alloc, Fault::Memory, "canon: out of memory\n")
        && is_line(alloc, Fault::Reading, "canon: reading failed\n")
        && is_line(alloc, Fault::Writing, "canon: writing failed\n")
        && each_has_its_place(alloc)
}

// The same of the faults that have a place.
fn each_has_its_place(alloc: Global) -> bool {
    let place = LineColumn {
        line: 12,
        column: 7,
    };
    let lexical = "canon: lexical fault at 12:7\n";
    let syntax = "canon: syntax fault at 12:7: expected `;`\n";
    let at_the_end = "canon: syntax fault at end of input: expected `;`\n";
    is_line(alloc, Fault::Lexical(place), lexical)
        && is_syntax_line(alloc, expected(alloc, "expected `;`"), Some(place), syntax)
        && is_syntax_line(alloc, expected(alloc, "expected `;`"), None, at_the_end)
}

fn first_is_said(alloc: Global) -> bool {
    let line = "canon: syntax fault at end of input: expected `!`\n";
    is_syntax_line(alloc, two_errors(alloc), None, line)
}

// Whether that is the line that is said of a fault.
fn is_line(alloc: Global, fault: Fault, line: &str) -> bool {
    let mut writer = Sink::new(alloc, Plan::by(usize::MAX));
    write_fault(&fault, &mut writer).is_ok() && writer.taken.as_slice() == line.as_bytes()
}

// Whether that is the line that is said of a syntax fault with an error that was made.
fn is_syntax_line(
    alloc: Global,
    made: Result<Error, AllocError>,
    place: Option<LineColumn>,
    line: &str,
) -> bool {
    match made {
        Ok(error) => is_line(alloc, Fault::Syntax { error, place }, line),
        Err(_) => false,
    }
}

fn expected(alloc: Global, words: &str) -> Result<Error, AllocError> {
    Error::new(alloc, Span::call_site(), words)
}

fn two_errors(alloc: Global) -> Result<Error, AllocError> {
    let mut error = expected(alloc, "expected `!`")?;
    error.combine(expected(alloc, "expected `;`")?)?;
    Ok(error)
}
