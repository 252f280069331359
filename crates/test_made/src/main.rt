//! Trees that are made of the syntax tree's types: whether each call answers the tree that the value is, or `None`
//! where its fields contradict each other, and leaves all as it was where a growth was refused. `tests/refused.sh`
//! runs it once for each allocation, refusing that one.
//!
//! A row names a kind of the grammar and a change, and its text is a form of that kind. The form is read, the value of
//! its type is changed, and the answer is what is written of the tree that the value is then, or `none`.
//!
//! - `row`: what is answered for a row; `asked`: what rows may ask for; `change`: how a changed value becomes a tree,
//!   and `mark` and `word`, which some changes put; `forms`: the forms that are changed as they stand in a tree.
//! - `types`, `patterns`, `expressions`, `statements`: changes of these.
//! - `data`: of fields, variants and what is derived for; `functions`: of functions and parameters.
//! - `items`: of the other items, and of the items of traits, impls and extern blocks; `among`: where these stand.
//! - `attributes`: of attributes, visibilities and parameters of generics.
#![tactic(auto)]

mod among;
mod asked;
mod attributes;
mod change;
mod data;
mod expressions;
mod forms;
mod functions;
mod items;
mod patterns;
mod row;
mod statements;
mod types;

use std::process::ExitCode;
use test_support::{Page, Stop, asked, ended, parts, told};

// Puts the answer of a row behind it, and nothing behind another line.
fn put_row(line: &str, page: &mut Page) -> Result<(), Stop> {
    match parts(line) {
        Ok(Some((call, text))) => {
            page.put(" = ");
            row::answer(call, text, page)
        }
        Ok(None) => Ok(()),
        Err(_) => Err(Stop::Changed),
    }
}

// Puts the lines of a table, each row with its answer.
fn put_rows(lines: &str, page: &mut Page) -> Result<(), Stop> {
    for line in lines.lines() {
        page.put(line);
        put_row(line, page)?;
        page.put("\n");
    }
    Ok(())
}

fn run(rt: &HostRuntime) -> Result<(), Stop> {
    let Ok(lines) = asked(rt) else {
        return Err(Stop::Elsewhere);
    };
    let mut page = Page::new(rt.alloc());
    put_rows(lines.as_str(), &mut page)?;
    match told(rt, &page) {
        Ok(()) => Ok(()),
        Err(_) => Err(Stop::Elsewhere),
    }
}

/// Ends as `stops` says.
fn main(rt: HostRuntime) -> ExitCode {
    ended(run(&rt))
}
