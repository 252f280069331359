//! Calls of the lexer, of token streams and of leaves that no row can ask: with ample memory they succeed, and this is
//! what they give, line by line. Where a growth is refused, what was there is as before: `tests/refused.sh` runs them
//! once for each allocation, refusing that one.
//!
//! - `lines`: lines of a page.
//! - `shown`: how values are shown on pages of their own, and whether they are as before.
//! - `leaves`: how leaves are shown, and what is said of their faults.
//! - `names`: equality, order and hashing of names.
//! - `parts`: the spans of parts of literals, by each form of a range.
//! - `streams`: streams that are built by hand; `built`: streams that grow.
//! - `words`: how streams are shown, and what is said of lexical faults.
//! - `behind`: texts behind an older one; `lexed`: their tokens; `literals`: their literals, and the values of these.

mod behind;
mod built;
mod leaves;
pub(crate) mod lexed;
mod lines;
mod literals;
mod names;
mod parts;
mod shown;
mod streams;
mod words;

use test_support::{Page, Stop};

/// Puts what each of the calls gives.
pub(crate) fn put(page: &mut Page) -> Result<(), Stop> {
    put_calls(page);
    built::built(page)?;
    literals::literals(page)
}

fn put_calls(page: &mut Page) {
    leaves::shown(page);
    leaves::faults(page);
    names::compared(page);
    names::raw(page);
    parts::parts(page);
    streams::minus(page);
    streams::groups(page);
    streams::changed_copy(page);
    streams::read_again(page);
    words::groups(page);
    words::left(page);
    words::maps(page);
    words::faults(page);
}
