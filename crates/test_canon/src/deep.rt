//! The outlines of texts whose trees are as deep as the texts are long: an item of 100,000 turns, and one behind it,
//! whose place tells whether all tokens were counted.

use canon::{Row, outline};
use rust_map::SourceMap;
use std::alloc::{AllocError, Global};
use test_support::Unanswered;

const TURNS: usize = 100_000;

// A text: what stands in front of the turns, a turn, and what stands behind them; and then the item behind it.
#[derive(Clone, Copy)]
struct Chain {
    front: &'static str,
    turn: &'static str,
    back: &'static str,
}

// The chain of that name.
fn chain_of(name: &str) -> Option<Chain> {
    let (front, turn, back) = match name {
        "functions that give functions" => ("type A=", "F()->", "T;"),
        "references" => ("type A=", "&", "T;"),
        "imported paths" => ("use ", "a::", "a;"),
        "paths" => ("fn f(){", "a::", "a}"),
        "bindings" => ("fn f(){let ", "a@", "a=b;}"),
        "sums of ranges with attributes" => ("fn f(){a", "+#[a]..", "}"),
        _ => return None,
    };
    Some(Chain { front, turn, back })
}

// The text of a chain, with `struct S;` behind it.
fn text(alloc: Global, chain: Chain) -> Result<String, AllocError> {
    let mut text = String::from_str(alloc, chain.front)?;
    for _ in 0..TURNS {
        text.push_str(chain.turn)?;
    }
    text.push_str(chain.back)?;
    text.push_str("struct S;")?;
    Ok(text)
}

// Whether that is the row of the struct behind a chain, which is one line.
fn is_behind(row: &Row, text: &str) -> bool {
    row.kind == "struct"
        && row.name.as_str() == "S"
        && row.place.line == 1
        && text.len().checked_sub(2) == Some(row.place.column)
}

// Whether the last row is that of the struct.
fn is_listed(rows: &[Row], text: &str) -> bool {
    match rows.last() {
        Some(row) => is_behind(row, text),
        None => false,
    }
}

/// Whether the outline of the chain of that name lists what stands behind it.
pub fn holds(alloc: Global, name: &str) -> Result<bool, Unanswered> {
    let Some(chain) = chain_of(name) else {
        return Err(Unanswered::NoRow);
    };
    let text = text(alloc, chain)?;
    Ok(
        match outline(alloc, text.as_str(), &mut SourceMap::new(alloc)) {
            Ok(rows) => is_listed(rows.as_slice(), text.as_str()),
            Err(_) => false,
        },
    )
}
