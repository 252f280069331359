//! What reading and printing syntax answers: kinds of tokens, lists, errors, names, streams that are read, and leaves.
//! What is wanted comes from the rules, and stands in `stdout`: first line by line what is asked by hand, and then each
//! row of standard input with its answer. The rows ask of literals and operators, by the calls of `syn_leaf`.
//!
//! With an argument it is asked what grows alone, for `tests/refused.sh`.
//!
//! - `grow`: what grows, and whether it left what it had to where that was refused.
//! - `texts`: streams and identifiers of texts, and what was read or is printed, as it is put onto a page.
//! - `kinds`: each kind by its name: how a message shows it, and its text when it is printed.
//! - `lists`: what is put in, taken out and gone over; `ends`: gone over from behind, and counted; `changed`: what is
//!   written through lent values, taken out by a function, and made of pairs.
//! - `compared`: lifetimes, members, operators, kinds and lists that are compared.
//! - `errors`: messages put together, gone over, and as tokens.
//! - `asked`: texts, and what is asked of their tokens.
//! - `lookahead`: what is said where kinds that are looked for do not stand, and lists that are read with separators.
//! - `names`: identifiers that are read where keywords stand too, and without `r#`; lists of names that are read back.
//! - `whole`: values that are read whole, and those that aren't; `trees`: token trees, groups and streams among them.
//! - `peeks`: what is looked for in a stream.
//! - `groups`: groups that are closed, forks, and invisible groups.
//! - `places`: places compared, and what stands before them.
//! - `literals`: which literal a text is, its value and its suffix, and what is printed for it.
//! - `leaves`: which leaf is read from a text, and which stands first in it; `following`: with what is left behind it.
#![tactic(auto)]

mod asked;
mod changed;
mod compared;
mod ends;
mod errors;
mod following;
mod groups;
mod grow;
mod kinds;
mod leaves;
mod lists;
mod literals;
mod lookahead;
mod names;
mod peeks;
mod places;
mod texts;
mod trees;
mod whole;

use asked::{Question, ask};
use std::env;
use std::process::ExitCode;
use test_support::{Page, Row, Stop, Table, Unanswered, answer_lines, ended, told};

struct Calls;

impl Table for Calls {
    fn answer(&self, row: Row, page: &mut Page) -> Result<(), Unanswered> {
        match row.call.split_once('_') {
            Some(("peek", kind)) => leaves::peek_kind(kind, row.text, page),
            Some(("compare", kind)) => compared::compare(kind, row.text, page),
            Some(("read", kind)) => leaves::read_kind(kind, row.text, page),
            None if row.call == "equal" => literals::equal(row.text, page),
            _ => literals::answer(row.call, row.text, page),
        }
    }
}

// What is asked of kinds, lists, errors and names.
fn put_syntax(page: &mut Page) {
    kinds::kinds(page);
    lists::taken_out(page);
    lists::put_in(page);
    lists::gone_over(page);
    ends::counted(page);
    ends::from_behind(page);
    lists::collected(page);
    changed::written(page);
    changed::retained(page);
    changed::paired(page);
    errors::errors(page);
    asked::read_lists(page);
    asked::read_names(page);
    asked::read_lifetimes(page);
    names::of_tokens(page);
}

// What is asked of streams that are read.
fn put_streams(page: &mut Page) {
    whole::values(page);
    whole::faults(page);
    whole::of_texts(page);
    ask("'fn ( a:: b ) ;c", Question::Shown, page);
    peeks::peeks(page);
    groups::closed(page);
    groups::forked(page);
    groups::entered(page);
    groups::passed(page);
    places::compared(page);
    places::before(page);
    places::at_the_end(page);
    trees::trees(page);
    trees::invisible(page);
}

/// Ends as `stops` says. A row that can't be answered is a failure elsewhere.
fn main(rt: HostRuntime) -> ExitCode {
    ended(run(&rt))
}

fn run(rt: &HostRuntime) -> Result<(), Stop> {
    let mut page = Page::new(rt.alloc());
    grow::put(&mut page)?;
    if !has_argument(rt)? {
        answered(put_others(rt, &mut page))?;
    }
    answered(told(rt, &page))
}

fn has_argument(rt: &HostRuntime) -> Result<bool, Stop> {
    match env::args(rt) {
        Ok(args) => Ok(args.count() > 1),
        Err(_) => Err(Stop::Elsewhere),
    }
}

fn put_others(rt: &HostRuntime, page: &mut Page) -> Result<(), Unanswered> {
    page.put("# What is asked by hand.\n");
    put_syntax(page);
    put_streams(page);
    let lines = test_support::asked(rt)?;
    answer_lines(&Calls, lines.as_str(), page)
}

fn answered(answer: Result<(), Unanswered>) -> Result<(), Stop> {
    match answer {
        Ok(()) => Ok(()),
        Err(_) => Err(Stop::Elsewhere),
    }
}
