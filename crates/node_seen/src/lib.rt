//! What is seen from a place on, as entries of its own: among these no mark of an invisible group stands, since such a
//! group is passed through.
#![tactic(auto)]

ghost use Rattle.node_seen.specs.Trees.{IsTree};
ghost use Rattle.node_shapes.specs.Streams.{are_trees};
ghost use Rattle.proc_macro2.specs.Flat.{spanned};
ghost use Rattle.proc_macro2.specs.Token.{Closes, Opens};
ghost use Rattle.std.specs.Prelude.{[], ◌∷◌, ◌++◌, ◌-◌, ◌≡◌, ◌<◌, ◌≤◌, IfOk, IsTrue, OnOk, drop, length};
ghost use Rattle.std.specs.Prelude.{List, map, slice_set, take, true, ℕ};
ghost use Rattle.syn_buffer.specs.Behind.{Passes};
ghost use Rattle.syn_buffer.specs.Entries.{entry_token, is_whole, spanned_entries};
ghost use Rattle.syn_buffer.specs.Position.{rest};
ghost use Rattle.syn_buffer.specs.Puts.{Puts};
ghost use Rattle.syn_buffer.specs.declared.entry.Entry.TheVariants as marks;
ghost use Rattle.syn_buffer.specs.declared.entry.Entry.{Entry as GivenEntry};

use proc_macro2::delimiter::Delimiter;
use rust_map::span::Span;
use std::alloc::{AllocError, Global};
use syn_buffer::laws::one_group;
use syn_buffer::{Cursor, Entry, Next};

// Puts what is seen from the place on behind the others.
#[cycle(walking)]
fn put_seen<'a>(entries: &mut Vec<Entry<'a>>, from: Cursor<'a>) -> Result<(), AllocError>
    ensures { OnOk result (Puts entries.old.items entries.new.items (rest from.entry)) }
{
    let mut at = from;
    loop {
        at = match at.next() {
            Next::End => return Ok(()),
            Next::Ident(ident, behind) => {
                entries.push(Entry::Ident(ident))?;
                behind
            }
            Next::Punct(punct, behind) => {
                entries.push(Entry::Punct(punct))?;
                behind
            }
            Next::Literal(literal, behind) => {
                entries.push(Entry::Literal(literal))?;
                behind
            }
            Next::Group(delimiter, span, inside, behind) => {
                put_group(entries, delimiter, span, inside)?;
                behind
            }
        };
    }
}

// Puts a group behind the others, of which the inside begins at the place.
#[cycle(walking)]
fn put_group<'a>(
    entries: &mut Vec<Entry<'a>>,
    delimiter: Delimiter,
    span: Span,
    inside: Cursor<'a>,
) -> Result<(), AllocError>
    ensures { OnOk result (Puts entries.old.items entries.new.items
        (spanned (Opens delimiter) span ∷ rest inside.entry ++ spanned (Closes delimiter) span ∷ [])) }
{
    let at = entries.len();
    entries.push(Entry::Open(delimiter, span, 0))?;
    put_seen(entries, inside)?;
    close(entries, at, delimiter, span)
}

// Closes the group that opens at that index: writes there how many entries stand inside, and puts the closing mark.
fn close(
    entries: &mut Vec<Entry<'_>>,
    at: usize,
    delimiter: Delimiter,
    span: Span,
) -> Result<(), AllocError>
    requires { at < length entries.old.items }
    ensures { OnOk result (entries.new.items
        ≡ slice_set entries.old.items at (marks.Open delimiter span (length entries.old.items - at - 1))
        ++ marks.Close delimiter span ∷ []) }
{
    let inside = entries.len() - at - 1;
    entries[at] = Entry::Open(delimiter, span, inside);
    entries.push(Entry::Close(delimiter, span))?;
    Ok(())
}

/// Entries that are whole trees are tokens of trees.
#[tactic(auto, using(crate::proofs::Standing::whole_are_trees))]
pub fn whole_are_trees()
    ensures { (es : List GivenEntry) → is_whole es ≡ true → are_trees (map entry_token es) ≡ true }
{}

/// What is seen from the place to the end of its list, as entries. They are whole trees.
///
/// # Errors
///
/// Where there is no memory for them.
pub fn seen_entries<'a>(alloc: Global, from: Cursor<'a>) -> Result<Vec<Entry<'a>>, AllocError>
    ensures tokens { IfOk result (λ es. spanned_entries es.items ≡ rest from.entry) }
    ensures whole { IfOk result (λ es. IsTrue (is_whole es.items)) }
{
    let mut entries = Vec::new(alloc);
    put_seen(&mut entries, from)?;
    Ok(entries)
}

// How many of the entries the first tree takes.
fn tree_length(entries: &[Entry<'_>]) -> usize
    requires some { 0 < length entries.now }
    requires whole { IsTrue (is_whole entries.now) }
    ensures { IsTree entries.now result }
{
    match &entries[0] {
        Entry::Open(_, _, count) => *count + 2,
        _ => 1,
    }
}

// The place behind the first tree, of which the entries are what is seen.
fn behind_tree<'a>(from: Cursor<'a>, entries: &[Entry<'_>]) -> Cursor<'a>
    requires some { 0 < length entries.now }
    requires seen { spanned_entries entries.now ≡ rest from }
    requires whole { IsTrue (is_whole entries.now) }
    ensures { (n : ℕ) → IsTree entries.now n → Passes from.entry (take n (rest from.entry)) result }
{
    one_group();
    match from.next() {
        Next::End => unreachable!(),
        Next::Ident(_, behind) => behind,
        Next::Punct(_, behind) => behind,
        Next::Literal(_, behind) => behind,
        Next::Group(_, _, _, behind) => behind,
    }
}

/// The place behind so many of the entries that are seen from a place on (`seen_entries`). What stands behind them must
/// be whole trees.
pub fn behind_seen<'a>(from: Cursor<'a>, entries: &[Entry<'_>], count: usize) -> Cursor<'a>
    requires seen { spanned_entries entries.now ≡ rest from }
    requires whole { IsTrue (is_whole entries.now) }
    requires within { count ≤ length entries.now }
    requires ends { IsTrue (is_whole (drop count entries.now)) }
    ensures { Passes from.entry (take count (rest from.entry)) result }
{
    let mut at = from;
    let mut passed = 0usize;
    while passed < count {
        let left = &entries[passed..];
        at = behind_tree(at, left);
        passed += tree_length(left);
    }
    at
}
