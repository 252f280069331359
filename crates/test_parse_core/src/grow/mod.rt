//! Calls that grow, one behind the other, and whether each left what it had to where its growth was refused.
//! `tests/refused.sh` runs them once for each allocation, refusing that one.
//!
//! - `given`: what the calls are given.
//! - `grown`: what came of a growth.
//! - `shown`: how values are shown on pages of their own, and whether as before.
//! - `asked`: texts, and what is asked of their tokens.
//! - `parse`: what is read and printed of syntax.
//! - `lists`: lists that grow, are copied and are read, and errors that are put together.
//! - `leaf`: literals and operators.

mod asked;
mod given;
mod grown;
mod leaf;
mod lists;
mod parse;
mod shown;

use asked::{Question, ask};
use leaf::{tokens, values};
use lists::{built, errors, groups};
use parse::{printing, reading};
use test_support::{Page, Stop};

/// Puts what all of them answer.
pub(crate) fn put(page: &mut Page) -> Result<(), Stop> {
    put_syntax(page)?;
    put_lists(page)?;
    put_leaves(page)
}

// What is read and printed of syntax.
fn put_syntax(page: &mut Page) -> Result<(), Stop> {
    reading::buffer(page)?;
    ask("x", Question::Expected, page)?;
    ask("a (b,[c]) ;", Question::Rest, page)?;
    reading::text(page)?;
    printing::list(page)?;
    printing::errors(page)
}

// Lists that grow, are copied and are read, and errors that are put together.
fn put_lists(page: &mut Page) -> Result<(), Stop> {
    built::put_behind(page)?;
    built::inserted(page)?;
    built::extended(page)?;
    built::extended_by_pairs(page)?;
    built::collected(page)?;
    built::copied(page)?;
    ask("a, b, c", Question::Lists, page)?;
    ask("fn r#fn a_name_longer_than_that", Question::Names, page)?;
    errors::made(page)?;
    errors::extended(page)?;
    errors::copied(page)?;
    groups::printed(page)
}

// Literals and operators.
fn put_leaves(page: &mut Page) -> Result<(), Stop> {
    values::values(page)?;
    values::copy(page)?;
    tokens::printed(page)?;
    ask(
        ">>= 0x1F \"a text of more than 16 bytes\"",
        Question::Leaves,
        page,
    )?;
    ask("= a", Question::NoOperator, page)
}
