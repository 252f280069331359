//! Walks through a buffer.

ghost use Rattle.std.specs.Prelude.{◌<◌, IfSome, length};
ghost use Rattle.syn_buffer.specs.Position.{rest};

use crate::counts::Counts;
use proc_macro2::{Delimiter, Ident};
use syn_buffer::Cursor;
use syn_kinds::token;
use syn_peek::Token;

// Looks for a keyword, for a name, and for punctuations of one mark, two and three.
fn look(at: Cursor<'_>, counts: &mut Counts) {
    let found = token::Fn::peek(at)
        || Ident::peek(at)
        || token::Comma::peek(at)
        || token::PathSep::peek(at)
        || token::DotDotEq::peek(at);
    if found {
        counts.kinds = counts.kinds.wrapping_add(1);
    }
}

// Past the token that stands there, if no group opens there.
#[tactic(auto, using(crate::proofs::Shorter::takes_shorter, crate::proofs::Shorter::lifetime_shorter))]
fn past_leaf<'a>(at: Cursor<'a>, counts: &mut Counts) -> Option<Cursor<'a>>
    ensures { IfSome result (λ r. length (rest r) < length (rest at.entry)) }
{
    if let Some((_, behind)) = at.ident() {
        counts.idents = counts.idents.wrapping_add(1);
        return Some(behind);
    }
    if let Some((_, _, behind)) = at.lifetime_parts() {
        counts.lifetimes = counts.lifetimes.wrapping_add(1);
        return Some(behind);
    }
    if let Some((_, behind)) = at.punct() {
        counts.marks = counts.marks.wrapping_add(1);
        return Some(behind);
    }
    if let Some((_, behind)) = at.literal() {
        counts.literals = counts.literals.wrapping_add(1);
        return Some(behind);
    }
    None
}

// The inside of the group that stands there, and the place behind it.
#[tactic(auto, using(crate::proofs::Shorter::enters_shorter))]
fn opened<'a>(at: Cursor<'a>) -> Option<(Cursor<'a>, Cursor<'a>)>
    ensures inside { IfSome result (λ r. length (rest r.0) < length (rest at.entry)) }
    ensures behind { IfSome result (λ r. length (rest r.1) < length (rest at.entry)) }
{
    for delimiter in [Delimiter::Parenthesis, Delimiter::Brace, Delimiter::Bracket] {
        if let Some((inside, _, behind)) = at.group(delimiter) {
            return Some((inside, behind));
        }
    }
    None
}

// Past the group that stands there, which is walked.
#[cycle(walking)]
fn past_group<'a>(at: Cursor<'a>, by_kinds: bool, counts: &mut Counts) -> Option<Cursor<'a>>
    ensures { IfSome result (λ r. length (rest r) < length (rest at.entry)) }
{
    let (inside, behind) = opened(at)?;
    counts.groups = counts.groups.wrapping_add(1);
    walk(inside, by_kinds, counts);
    Some(behind)
}

/// Walks from the place to the end of its list, into each group, and counts what it meets; if it is to go by kinds, it
/// looks at each place for kinds too.
#[cycle(walking)]
pub fn walk(begin: Cursor<'_>, by_kinds: bool, counts: &mut Counts) {
    let mut at = begin;
    while !at.eof() {
        if by_kinds {
            look(at, counts);
        }
        let behind = match past_leaf(at, counts) {
            Some(behind) => Some(behind),
            None => past_group(at, by_kinds, counts),
        };
        let Some(behind) = behind else {
            return;
        };
        at = behind;
    }
}
