//! What the calls of the lexer, of token streams and of leaves give, and after that tables of texts: the edges of the
//! lexical rules, what is printed, and the calls of leaves and of escapes. What is wanted comes from the rules, and
//! stands in `stdout`: first line by line what is asked by hand, and then each row of standard input with its answer.
//! `tests/refused.sh` runs it with no rows, once for each allocation, refusing that one.
//!
//! With an argument a text of standard input is lexed.
//!
//! - `by_hand`: what is asked by hand, and the text that is lexed.
//! - `trees`: how many trees a text has, what they are, where they stand, and how they are printed.
//! - `literals`: which texts are literals, and their values.
//! - `made`: what the constructors of leaves write; `numbers`: those of numbers.
//! - `copies`: copies of streams, of their parts and of values of std.
//! - `deep`: streams whose groups lie deep in one another; `files`: texts whose first line may be a shebang.
//! - `escapes`: what the escape calls say of the insides of literals.
#![tactic(auto)]

mod by_hand;
mod copies;
mod deep;
mod escapes;
mod files;
mod literals;
mod made;
mod numbers;
mod trees;

use std::env;
use std::process::ExitCode;
use test_support::{Page, Row, Stop, Table, Unanswered, answer_lines, asked, ended, told};

struct Calls;

impl Table for Calls {
    fn answer(&self, row: Row, page: &mut Page) -> Result<(), Unanswered> {
        match row.call {
            "count" => trees::count(row.text, page),
            "print" => trees::print(row.text, page),
            "trees" => trees::tell(row.text, page),
            "show" => trees::show(row.text, page),
            "places" => trees::place(row.text, page),
            "literal" => literals::judge(row.text, page),
            "values" => literals::values(row.text, page),
            "string" => made::string(row.text, page),
            "ident" => made::ident(row.text, page),
            "raw_ident" => made::raw_ident(row.text, page),
            "file" => files::file(row.text, page),
            call => return answer_more(call, row.text, page),
        }
        Ok(())
    }
}

// What may be asked of a text that it can't be.
fn answer_more(call: &str, text: &str, page: &mut Page) -> Result<(), Unanswered> {
    match call {
        "byte_string" => made::byte_string(text, page),
        "c_string" => made::c_string(text, page),
        "character" => made::character(text, page),
        "byte_character" => made::byte_character(text, page),
        "copies" => copies::alike(text, page),
        "copies of std" => copies::of_std(text, page),
        "nested" => deep::nested(text, page),
        "opened" => deep::opened(text, page),
        "doubled" => deep::doubled(text, page),
        _ if call.ends_with("suffixed") => numbers::number(call, text, page),
        _ => escapes::inside(call, text, page),
    }
}

/// Ends as `stops` says. A row that can't be answered is a failure elsewhere.
fn main(rt: HostRuntime) -> ExitCode {
    ended(run(&rt))
}

fn run(rt: &HostRuntime) -> Result<(), Stop> {
    let mut page = Page::new(rt.alloc());
    put(rt, &mut page)?;
    answered(told(rt, &page))
}

fn put(rt: &HostRuntime, page: &mut Page) -> Result<(), Stop> {
    let is_text = has_argument(rt)?;
    match asked(rt) {
        Ok(lines) => put_asked(is_text, lines.as_str(), page),
        Err(_) => Err(Stop::Elsewhere),
    }
}

fn has_argument(rt: &HostRuntime) -> Result<bool, Stop> {
    match env::args(rt) {
        Ok(args) => Ok(args.count() > 1),
        Err(_) => Err(Stop::Elsewhere),
    }
}

fn put_asked(is_text: bool, asked: &str, page: &mut Page) -> Result<(), Stop> {
    if is_text {
        return by_hand::lexed::lexed(asked, page);
    }
    by_hand::put(page)?;
    answered(answer_lines(&Calls, asked, page))
}

fn answered(answer: Result<(), Unanswered>) -> Result<(), Stop> {
    match answer {
        Ok(()) => Ok(()),
        Err(_) => Err(Stop::Elsewhere),
    }
}
