//! Forms of the written grammar and trees of the syntax tree's types: texts that are read, written, built, compared and
//! printed, one behind the other, and whether each call left what it had to where its growth was refused.
//! `tests/refused.sh` runs it once for each allocation, refusing that one. Trees that are made of types are asked by
//! `test_made`.
//!
//! - `asked`: texts, and what is asked of their tokens.
//! - `texts`: texts that are read by the written grammar, and what is written of them behind older tokens (`pieces`).
//! - `built`: expressions that are built by hand, what stands for one, and the members of fields.
//! - `reading`: forms and tokens that are read one behind the other, and tokens as a stream.
//! - `streams`: forms that are read from a stream of tokens; `standing`: forms of a stream that may be missing, or are
//!   one of several of a kind.
//! - `modifiers`: what is said of modifiers where none may stand.
//! - `calls`: calls that read one text: as a type (`typed`), a form that may be missing (`optional`), or a literal
//!   with its value (`values`).
//! - `compared`: types and items that are compared; `long`: a long expression.
//! - `single`: texts that are read as an item of one kind, a member, or a form that is one of several of a kind, in
//!   three ways, which have to agree (`alone`).
//! - `held`: the items of traits, impls and extern blocks, as the enums that hold their form.
//! - `words`: words that a reader reads where they stand; `whole`: texts that are read in one call.
#![tactic(auto)]

mod alone;
mod asked;
mod built;
mod calls;
mod compared;
mod held;
mod long;
mod modifiers;
mod optional;
mod pieces;
mod reading;
mod single;
mod standing;
mod streams;
mod texts;
mod typed;
mod values;
mod whole;
mod words;

use crate::asked::{Question, ask_all};
use std::process::ExitCode;
use test_support::{Page, Stop, ended, told};

// Puts the answers of several tables.
fn ask_tables(tables: &[&[(Question, &str)]], page: &mut Page) -> Result<(), Stop> {
    for table in tables {
        ask_all(table, page)?;
    }
    Ok(())
}

// Puts what is said of all texts.
fn put_answers(page: &mut Page) -> Result<(), Stop> {
    ask_tables(&[&texts::TEXTS, &built::BUILT, &reading::TEXTS], page)?;
    streams::put_answers(page)?;
    modifiers::put_answers(page)?;
    ask_tables(
        &[
            &calls::CALLS,
            &compared::PAIRS,
            &long::LONG,
            &single::ITEMS,
            &single::SINGLES,
            &standing::FORMS,
            &words::WORDS,
            &held::HELD,
        ],
        page,
    )?;
    whole::put_answers(page)
}

fn run(rt: &HostRuntime) -> Result<(), Stop> {
    let mut page = Page::new(rt.alloc());
    put_answers(&mut page)?;
    match told(rt, &page) {
        Ok(()) => Ok(()),
        Err(_) => Err(Stop::Elsewhere),
    }
}

/// Ends as `stops` says.
fn main(rt: HostRuntime) -> ExitCode {
    ended(run(&rt))
}
