//! Answers two tables of texts. What is wanted comes from the rules, and stands beside the questions in `stdout`.
//!
//! A row with a kind of the grammar is answered by the form of that kind: the printed normal form, with what is left
//! behind it, or that the text is refused. A copy of each form is written too, and equals it; of the normal form that
//! is made as a tree the print is read again, with the same normal form; and first the rows are listed that begin with
//! the same form as the row above: of the same kind, with the same tokens, each spaced alike.
//!
//! A row with a position is an expression that is built by hand, in which an operand that was put there stands between
//! `‹` and `›`: it is printed, read again, and is up to parentheses the one that was built. Before the rows stands
//! what is answered for the table of forms, of which each is put into each.
//!
//! A row with `Stream` is a file: answered are the tokens of the stream that it is written as, each with `@` and the
//! column (from 0) in which it begins behind it, if it stands in the text. With `Normal` they are those of the tree
//! that is its normal form, and with `error` those by which the compiler says the word `said` of the row's tokens.
//!
//! A row with `fault` and a kind is answered by what is said where no form of the kind stands, and the column of the
//! token of which it is said; or by the print of the form. That is asked of the whole text, then of a reader and of a
//! stream, which read what stands first: what these answer otherwise stands behind it. A row with `single` and a form
//! of which several are one kind is answered so too, and one with `enter` and a delimiter.
//!
//! In a row with `among` and a kind an invisible group stands between `‹` and `›`, and `$` is an apostrophe that is
//! joint. It is answered as one with `fault`. A row with `all` is written so too: answered are the kinds, and the forms
//! of which several are one kind, as which all of it is read.
//!
//! A row with `Chain` is an expression of 100,000 turns (what stands first, a turn, what stands last, and that with
//! other spaces, with `…` between them): answered is whether it is written as it stands, in its normal form and as it
//! was read, and how it compares with its copy, with one that has a turn less, and with one that ends with those other
//! spaces.
//!
//! - `kinds`: the kinds that rows name.
//! - `reading`: texts that are read as forms, and what is printed of these.
//! - `neighbours`: each row's form compared with that of the row above.
//! - `built`: expressions that are built by hand.
//! - `written`: how a tree is written.
//! - `streams`: where the tokens stand of the stream that a file is written as, and of an error.
//! - `faults`: what is said where a form is wanted; `wanted`: where one form of several is, or a group.
//! - `hidden`: streams with invisible groups.
//! - `chains`: chains that are long.
#![tactic(auto)]

mod built;
mod chains;
mod faults;
mod hidden;
mod kinds;
mod neighbours;
mod reading;
mod streams;
mod wanted;
mod written;

use crate::built::position_of;
use crate::kinds::kind_of;
use crate::neighbours::put_again;
use crate::reading::{Found, Part, read};
use crate::streams::Written;
use std::alloc::Global;
use syn::Kind;
use test_support::{Page, Row, Table, Unanswered, answer_lines, asked, told};

struct Rows;

impl Table for Rows {
    fn answer(&self, row: Row, page: &mut Page) -> Result<(), Unanswered> {
        match row.call {
            "Stream" => streams::put_row(Written::Read, row.text, page),
            "Normal" => streams::put_row(Written::Normal, row.text, page),
            "error" => streams::put_error(row.text, page),
            "all" => hidden::put_all(row.text, page),
            "Chain" => chains::put_row(row.text, page),
            _ => put_asked(row, page),
        }
    }
}

// Puts what is answered for a row whose call has two words, or for another one.
fn put_asked(row: Row, page: &mut Page) -> Result<(), Unanswered> {
    match row.call.split_once(' ') {
        Some(("fault", kind)) => faults::put_row(named(kind)?, row.text, page),
        Some(("among", kind)) => hidden::put_row(named(kind)?, row.text, page),
        Some(("single", form)) => wanted::put_row(form, row.text, page),
        Some(("enter", delimiter)) => wanted::put_enter(delimiter, row.text, page),
        _ => put_called(row, page),
    }
}

// The kind that a row has to name.
fn named(name: &str) -> Result<Kind, Unanswered> {
    match kind_of(name) {
        Some(kind) => Ok(kind),
        None => Err(Unanswered::NoRow),
    }
}

// Puts what is answered for a row with a position or a kind.
fn put_called(row: Row, page: &mut Page) -> Result<(), Unanswered> {
    match (position_of(row.call), kind_of(row.call)) {
        (Some(position), _) => built::put_row(position, row.text, page),
        (None, Some(kind)) => put_form(kind, row.text, page),
        (None, None) => Err(Unanswered::NoRow),
    }
}

// Puts what is said of the form that a text begins with, or that it is refused.
fn put_form(kind: Kind, text: &str, page: &mut Page) -> Result<(), Unanswered> {
    let mut written = Page::new(page.alloc());
    let found = read(kind, text, Part::Written, &mut written)?;
    put_found(found, kind, text, written.whole()?, page)
}

// The same of a form that was found, and is written so.
fn put_found(
    found: Found,
    kind: Kind,
    text: &str,
    written: &str,
    page: &mut Page,
) -> Result<(), Unanswered> {
    match found {
        Found::Nothing => {
            page.put("refused");
            Ok(())
        }
        Found::Front => put_front(kind, text, written, page),
        Found::All => put_all(kind, text, written, page),
    }
}

// Puts the print of a form, and what is left behind it.
fn put_front(kind: Kind, text: &str, written: &str, page: &mut Page) -> Result<(), Unanswered> {
    let mut left = Page::new(page.alloc());
    read(kind, text, Part::Left, &mut left)?;
    page.quote(written);
    page.put(" // ");
    page.quote(left.whole()?);
    Ok(())
}

// Puts the print of a form that is all of a text: it is its own normal form, and the one that is made of the tree has
// the same.
fn put_all(kind: Kind, text: &str, written: &str, page: &mut Page) -> Result<(), Unanswered> {
    if !is_written(page.alloc(), kind, written, written)? {
        page.put("not its own");
        return Ok(());
    }
    let mut made = Page::new(page.alloc());
    read(kind, text, Part::Made, &mut made)?;
    put_as_made(kind, written, made.whole()?, page)
}

// Puts the print of a form, if the one that is made of the tree has the same normal form.
fn put_as_made(kind: Kind, written: &str, made: &str, page: &mut Page) -> Result<(), Unanswered> {
    if is_written(page.alloc(), kind, made, written)? {
        page.quote(written);
    } else {
        write!(page, "made otherwise: {made}");
    }
    Ok(())
}

// Whether all of a text is read as a form of a kind, with that normal form.
fn is_written(alloc: Global, kind: Kind, text: &str, written: &str) -> Result<bool, Unanswered> {
    let mut again = Page::new(alloc);
    match read(kind, text, Part::Written, &mut again)? {
        Found::All => Ok(again.whole()? == written),
        Found::Front | Found::Nothing => Ok(false),
    }
}

// Puts what is answered for the table of forms, and for the rows.
fn put_answers(lines: &str, page: &mut Page) -> Result<(), Unanswered> {
    put_again(lines, page)?;
    built::tables::put(page)?;
    page.put("\n");
    answer_lines(&Rows, lines, page)
}

fn main(rt: HostRuntime) -> Result<(), Unanswered> {
    let lines = asked(&rt)?;
    let mut page = Page::new(rt.alloc());
    put_answers(lines.as_str(), &mut page)?;
    told(&rt, &page)
}
