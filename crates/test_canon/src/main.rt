//! Answers a table of texts by `canonical` and `outline`, and sees that `run` and `run_outline` answer alike; says what
//! the program does by its arguments; and says what holds of one large text, of maps, of streams, and of what is said.
//! What is wanted comes from the rules, and stands beside the questions in `stdout`.
//!
//! - `outputs`: the output of a text, or its fault.
//! - `outlines`: the rows of its outline.
//! - `programs`: what the program writes and says of it.
//! - `joins`: what `run_joined` writes and says of texts, and what `canonical_joined` does with the map.
//!
//! A row of the others names what is asked, which no text can ask; what is asked answers whether all is as it is to be.
//!
//! - `deep`: the outlines of chains of 100,000 turns.
//! - `large`: what each call that reads or writes a text does with a large one, which no row writes.
//! - `limits`: `run_limited`.
//! - `maps`: what becomes of the map, by `canonical` and `outline`.
//! - `messages`: what is said of each fault.
//! - `passed_on`: what reaches the streams within, and how often.
//! - `runs`: `run` and `run_outline` over readers and writers that are slow, interrupted or failing.
//! - `streams`: those readers and writers; `ran`: what a run over them comes to.
//! - `sweep`: all short texts, and one item many times over.
#![tactic(auto)]

mod deep;
mod joins;
mod large;
mod limits;
mod maps;
mod messages;
mod outlines;
mod outputs;
mod passed_on;
mod programs;
mod ran;
mod runs;
mod streams;
mod sweep;

use std::alloc::Global;
use test_support::{Page, Row, Table, Unanswered, answer_asked};

struct Calls;

impl Table for Calls {
    fn answer(&self, row: Row, page: &mut Page) -> Result<(), Unanswered> {
        match row.call {
            "canonical" => outputs::canonical(row.text, page),
            "file" => outputs::of_file(row.text, page),
            "outline" => outlines::outline(row.text, page),
            _ if row.call.starts_with("joined") => joins::joined(row, page),
            _ if row.call.starts_with("program") => programs::program(row, page),
            _ => put_whether(row, page),
        }
    }
}

// Puts whether what the row names holds.
fn put_whether(row: Row, page: &mut Page) -> Result<(), Unanswered> {
    let holds = holds(page.alloc(), row)?;
    write!(page, "{holds}");
    Ok(())
}

fn holds(alloc: Global, row: Row) -> Result<bool, Unanswered> {
    match row.call {
        "deep" => deep::holds(alloc, row.text),
        "joins" => joins::holds(alloc, row.text),
        "large" => large::holds(alloc, row.text),
        "limits" => limits::holds(alloc, row.text),
        "maps" => maps::holds(alloc, row.text),
        "messages" => messages::holds(alloc, row.text),
        "passed on" => passed_on::holds(alloc, row.text),
        "runs" => runs::holds(alloc, row.text),
        "sweep" => sweep::holds(alloc, row.text),
        _ => Err(Unanswered::NoRow),
    }
}

fn main(rt: HostRuntime) -> Result<(), Unanswered> {
    answer_asked(&rt, &Calls)
}
