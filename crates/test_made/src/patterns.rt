//! Changes of patterns.

use crate::change::{By, Change, Unmade, limits, some_of, tried};
use syn::{Arena, Pat, PatRange, PatReference, PatSlice, RangeEnd, Tree};
use syn_wrapped::patterns::pattern;

// A range without its end, or with its end in it.
fn changed_range<'t, 'a>(change: &str, found: PatRange<'t, 'a>) -> PatRange<'t, 'a> {
    match change {
        "open" => PatRange { end: None, ..found },
        _ => PatRange {
            limits: limits(change),
            ..found
        },
    }
}

// A reference without its `mut`, a range with another end, or some of a slice's patterns.
impl<'a> Change<'a> for Pat<'a, 'a> {
    fn changed(by: By<'_, 'a>, tree: &'a Tree<'a>) -> Option<Pat<'a, 'a>> {
        match Pat::of(tree)? {
            Pat::Reference(found) => Some(Pat::Reference(PatReference {
                mutability: None,
                ..found
            })),
            Pat::Range(found) => Some(Pat::Range(changed_range(by.change, found))),
            Pat::Slice(found) => Some(Pat::Slice(PatSlice {
                elems: some_of(by.change, found.elems),
                ..found
            })),
            _ => None,
        }
    }
}

/// A pattern, changed so.
pub(crate) fn put_pattern<'a>(
    arena: &'a Arena,
    by: By<'_, 'a>,
    tree: &'a Tree<'a>,
) -> Result<Option<Tree<'a>>, Unmade> {
    match Pat::changed(by, tree) {
        Some(form) => tried(pattern(arena, &form)),
        None => Err(Unmade::NoRow),
    }
}

// What stands behind the start of a range: without an end, or with its end in it.
impl<'a> Change<'a> for RangeEnd<'a, 'a> {
    fn changed(by: By<'_, 'a>, tree: &'a Tree<'a>) -> Option<RangeEnd<'a, 'a>> {
        let found = RangeEnd::of(tree)?;
        Some(match by.change {
            "endless" => RangeEnd { end: None, ..found },
            change => RangeEnd {
                limits: limits(change),
                ..found
            },
        })
    }
}
