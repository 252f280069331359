//! Where the tokens of a text stand of which errors speak.

ghost use Rattle.canon.specs.Places.{begins_with, span_place};
ghost use Rattle.proc_macro2.specs.Flat.{group_tokens, tree_tokens, trees_tokens};
ghost use Rattle.rust_map.specs.Spans.{first_of};
ghost use Rattle.std.specs.List.{list_any};
ghost use Rattle.std.specs.Prelude.{◌≡◌, ◌==◌, ◌&&◌, IfOk};
ghost use Rattle.syn_buffer.specs.Entries.{same_span};
ghost use Rattle.syn_error.specs.Notes.{place_of};

use proc_macro2::{Group, TokenStream, TokenTree};
use reader_rust::said::error;
use reader_steps::refusal::Wrong;
use rust_map::{LineColumn, SourceMap, Span};
use std::alloc::{AllocError, Global};
use syn_error::Error;

/// What is said of a stream that is no file, and where the token stands of which that speaks.
///
/// # Errors
///
/// Where memory for the words is refused.
pub(crate) fn placed_error(
    alloc: Global,
    map: &SourceMap,
    stream: &TokenStream,
    wrong: Wrong,
) -> Result<(Error, Option<LineColumn>), AllocError>
    ensures { IfOk result (λ said. said.1 ≡ span_place map.now (place_of said.0) stream.now) }
{
    let error = error(alloc, wrong)?;
    let place = span_place(map, stream, error.span());
    Ok((error, place))
}

// Where the span starts in the map, if one of the stream's tokens begins there.
fn span_place(map: &SourceMap, stream: &TokenStream, span: Span) -> Option<LineColumn>
    ensures { result ≡ span_place map.now span stream.now }
{
    let first = span.first_character();
    if map.holds(first) && is_any_begun(stream.trees(), first) {
        return Some(first.start(map));
    }
    None
}

// Whether the span's first character is that one.
fn begins(span: Span, first: Span) -> bool
    ensures { result ≡ same_span (first_of span) first }
{
    span.first_character().eq(&first)
}

// Whether one of the trees' tokens begins with that character.
#[cycle(walking)]
fn is_any_begun(trees: &[TokenTree], first: Span) -> bool
    ensures { result ≡ list_any (λ tree. list_any (begins_with first) (tree_tokens tree)) trees.now }
{
    for tree in trees {
        if is_begun(tree, first) {
            return true;
        }
    }
    false
}

// Whether one of the tree's tokens begins with that character.
#[cycle(walking)]
fn is_begun(tree: &TokenTree, first: Span) -> bool
    ensures { result ≡ list_any (begins_with first) (tree_tokens tree.now) }
{
    match tree {
        TokenTree::Group(group) => is_group_begun(group, first),
        TokenTree::Ident(ident) => begins(ident.span(), first),
        TokenTree::Punct(punct) => begins(punct.span(), first),
        TokenTree::Literal(literal) => begins(literal.span(), first),
    }
}

// Whether one of the group's tokens begins with that character.
#[cycle(walking)]
fn is_group_begun(group: &Group, first: Span) -> bool
    ensures { result ≡ list_any (begins_with first) (group_tokens group.now) }
{
    if begins(group.span_open(), first) || begins(group.span_close(), first) {
        return true;
    }
    is_any_begun(group.stream_ref().trees(), first)
}
