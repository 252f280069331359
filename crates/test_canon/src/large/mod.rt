//! One large text: some 100,000 characters, groups 200 deep, 3,000 trees side by side, and tokens, comments and docs of
//! 1,000 characters. It is made beside its output, token by token, by the rule of printing alone, and each call that
//! reads or writes a text has to agree with that. So no call gives up past a size.
//!
//! - `texts`: a text and its output, made side by side.
//! - `calls`: what the calls answer.
//! - `values`: leaves of large texts, and their values.
//! - `shown`: whether a value is shown as a text.

mod calls;
mod shown;
mod texts;
mod values;

use calls::{canonical_is, is_copied, is_lexed, is_placed, is_printed, runs_to};
use std::alloc::Global;
use test_support::Unanswered;

/// Whether what has that name holds.
pub fn holds(alloc: Global, name: &str) -> Result<bool, Unanswered> {
    match name {
        "literals and values" => values::are_read_back(alloc),
        "identifiers and numbers" => values::are_taken(alloc),
        _ => of_text(alloc, name),
    }
}

// The same of what the calls answer of the text.
fn of_text(alloc: Global, name: &str) -> Result<bool, Unanswered> {
    let texts = texts::large(alloc);
    match (texts.source.whole(), texts.wanted.whole()) {
        (Ok(source), Ok(wanted)) => of_calls(alloc, name, source, wanted),
        _ => Err(Unanswered::Cut),
    }
}

fn of_calls(alloc: Global, name: &str, source: &str, wanted: &str) -> Result<bool, Unanswered> {
    match name {
        "100,000 characters" => Ok(source.len() >= 100_000),
        "from_str and Display" => is_lexed(alloc, source, wanted),
        "its print again" => is_lexed(alloc, wanted, wanted),
        "copies" => is_copied(alloc, source, wanted),
        "trees one by one" => is_printed(alloc, source, wanted),
        "source texts of spans" => is_placed(alloc, source),
        "canonical" => Ok(canonical_is(alloc, source, wanted)),
        "its output again" => Ok(canonical_is(alloc, wanted, wanted)),
        "run" => Ok(runs_to(alloc, source, wanted)),
        _ => Err(Unanswered::NoRow),
    }
}
