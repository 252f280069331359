//! What becomes of the map, by `canonical` and `outline`.

use canon::{Error, Fault, Row, canonical, outline};
use rust_map::{LineColumn, SourceMap};
use std::alloc::Global;
use test_support::Unanswered;

const TWO: &str = "struct A;\nstruct B;";

/// Whether what has that name holds.
pub fn holds(alloc: Global, name: &str) -> Result<bool, Unanswered> {
    match name {
        "the last positions are for so many characters" => Ok(positions_are_for_so_many(alloc)),
        "faults have their place in their own text" => Ok(has_its_place_twice(alloc)),
        "names have their place in their own text" => Ok(names_have_their_places_twice(alloc)),
        _ => Err(Unanswered::NoRow),
    }
}

fn positions_are_for_so_many(alloc: Global) -> bool {
    are_for_one(alloc) && are_too_few(alloc)
}

// Whether that is the output of a text that is put into a map.
fn is_output(alloc: Global, text: &str, map: &mut SourceMap, output: &str) -> bool {
    match canonical(alloc, text, map) {
        Ok(answer) => answer.as_str() == output,
        Err(_) => false,
    }
}

// Whether a map has no positions left for a text.
fn is_full(alloc: Global, text: &str, map: &mut SourceMap) -> bool {
    matches!(canonical(alloc, text, map), Err(Fault::MapFull))
}

// Whether the last positions are for one text, and then for no other.
fn are_for_one(alloc: Global) -> bool {
    let mut map = SourceMap::starting_at(alloc, 4294967286);
    is_output(alloc, "struct S;", &mut map, "struct S ;")
        && is_full(alloc, "", &mut map)
        && is_full(alloc, "}", &mut map)
        && is_full(alloc, "struct S;", &mut map)
}

// Whether one position fewer is too few for that text.
fn are_too_few(alloc: Global) -> bool {
    let mut map = SourceMap::starting_at(alloc, 4294967287);
    is_full(alloc, "struct S;", &mut map)
}

// Whether an error says those words.
fn says(alloc: Global, error: &Error, words: &str) -> bool {
    match error.to_string(alloc) {
        Ok(said) => said.as_str() == words,
        Err(_) => false,
    }
}

// Whether a text that is put into a map has its fault at its own place.
fn has_its_place(alloc: Global, map: &mut SourceMap) -> bool {
    match canonical(alloc, "m!{}\n struct 9;", map) {
        Err(Fault::Syntax { error, place }) => {
            place == Some(LineColumn { line: 2, column: 8 })
                && says(alloc, &error, "expected identifier")
        }
        _ => false,
    }
}

// Whether it has it twice, behind another text.
fn has_its_place_twice(alloc: Global) -> bool {
    let mut map = SourceMap::new(alloc);
    canonical(alloc, TWO, &mut map).is_ok()
        && has_its_place(alloc, &mut map)
        && has_its_place(alloc, &mut map)
}

// Whether those are the rows of the outline of the text below.
fn are_both(rows: &[Row]) -> bool {
    match rows {
        [first, second] => {
            first.place == LineColumn { line: 1, column: 7 }
                && second.name.as_str() == "go"
                && second.place == LineColumn { line: 2, column: 3 }
        }
        _ => false,
    }
}

// Whether the names of a text that is put into a map have their own places.
fn names_have_their_places(alloc: Global, map: &mut SourceMap) -> bool {
    match outline(alloc, "struct S;\nfn go(){}", map) {
        Ok(rows) => are_both(rows.as_slice()),
        Err(_) => false,
    }
}

// Whether they have them twice, behind another text.
fn names_have_their_places_twice(alloc: Global) -> bool {
    let mut map = SourceMap::new(alloc);
    canonical(alloc, TWO, &mut map).is_ok()
        && names_have_their_places(alloc, &mut map)
        && names_have_their_places(alloc, &mut map)
}
