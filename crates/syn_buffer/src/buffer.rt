//! The tokens of a stream as one flat list, lent.

ghost use Rattle.proc_macro2.specs.Flat.{group_tokens, tree_tokens, trees_tokens};
ghost use Rattle.std.specs.Prelude.{[], ◌∷◌, ◌++◌, ◌-◌, ◌≡◌, ◌<◌, ◌≤◌, IfOk, IsTrue, OnOk, length, slice_set};
ghost use Rattle.syn_buffer.specs.Entries.{is_whole, spanned_entries};
ghost use Rattle.syn_buffer.specs.Puts.{Puts};
ghost use Rattle.syn_buffer.specs.Seen.{all_seen};
ghost use Rattle.syn_buffer.specs.Unsigned.{are_unsigned};
ghost use Rattle.syn_buffer.specs.declared.entry.Entry.TheVariants as marks;

use crate::entry::{Entry, is_visible};
use proc_macro2::delimiter::Delimiter;
use proc_macro2::laws::each_stream;
use proc_macro2::tree::{Group, TokenStream, TokenTree};
use rust_map::span::Span;
use std::alloc::{AllocError, Global};

/// The tokens of a stream, lent, in one flat list in which each opening mark knows how many stand inside.
#[derive(Drop)]
pub struct TokenBuffer<'a> {
    pub(crate) entries: Vec<Entry<'a>>,
    pub(crate) number: usize,
    // whether no group is invisible
    pub(crate) all_visible: bool,
    ghost is_whole: { IsTrue (is_whole entries.items) },
    ghost is_numbered: { 1 ≤ number },
    ghost is_noted: { all_visible ≡ all_seen (spanned_entries entries.items) },
}

// Puts the tokens of the trees behind the others. The answer is whether no group among them is invisible.
#[tactic(auto, using(crate::proofs::Putting::put_none, crate::proofs::Putting::put_more))]
#[cycle(walking)]
fn put_trees<'a>(entries: &mut Vec<Entry<'a>>, trees: &'a [TokenTree]) -> Result<bool, AllocError>
    requires { IsTrue (are_unsigned (trees_tokens trees.now)) }
    ensures puts { OnOk result (Puts entries.old.items entries.new.items (trees_tokens trees.now)) }
    ensures visible { IfOk result (λ all. all ≡ all_seen (trees_tokens trees.now)) }
{
    let mut all_visible = true;
    for tree in trees {
        all_visible &= put_tree(entries, tree)?;
    }
    Ok(all_visible)
}

// Puts the tokens of the tree behind the others. The answer is whether no group among them is invisible.
#[tactic(auto, using(crate::proofs::Putting::put_one))]
#[cycle(walking)]
fn put_tree<'a>(entries: &mut Vec<Entry<'a>>, tree: &'a TokenTree) -> Result<bool, AllocError>
    requires { IsTrue (are_unsigned (tree_tokens tree.now)) }
    ensures puts { OnOk result (Puts entries.old.items entries.new.items (tree_tokens tree.now)) }
    ensures visible { IfOk result (λ all. all ≡ all_seen (tree_tokens tree.now)) }
{
    match tree {
        TokenTree::Group(group) => return put_group(entries, group),
        TokenTree::Ident(ident) => entries.push(Entry::Ident(ident))?,
        TokenTree::Punct(punct) => entries.push(Entry::Punct(punct))?,
        TokenTree::Literal(literal) => entries.push(Entry::Literal(literal))?,
    }
    Ok(true)
}

// Closes the group that opens at that index: writes there how many tokens stand inside, and puts the
// closing mark.
fn close(
    entries: &mut Vec<Entry<'_>>,
    at: usize,
    delimiter: Delimiter,
    span: Span,
) -> Result<(), AllocError>
    requires { at < length entries.old.items }
    ensures { OnOk result (entries.new.items
        ≡ slice_set entries.old.items at (marks.Open delimiter span (length entries.old.items - at - 1))
        ++ marks.Close delimiter span ∷ []) }
{
    let inside = entries.len() - at - 1;
    entries[at] = Entry::Open(delimiter, span, inside);
    entries.push(Entry::Close(delimiter, span))?;
    Ok(())
}

// Puts the tokens of the group behind the others. The answer is whether neither it nor a group in it is invisible.
#[cycle(walking)]
fn put_group<'a>(entries: &mut Vec<Entry<'a>>, group: &'a Group) -> Result<bool, AllocError>
    requires { IsTrue (are_unsigned (group_tokens group.now)) }
    ensures puts { OnOk result (Puts entries.old.items entries.new.items (group_tokens group.now)) }
    ensures visible { IfOk result (λ all. all ≡ all_seen (group_tokens group.now)) }
{
    let at = entries.len();
    entries.push(Entry::Open(group.delimiter(), group.span(), 0))?;
    let all_visible = put_trees(entries, group.stream_ref().trees())?;
    close(entries, at, group.delimiter(), group.span())?;
    Ok(is_visible(group.delimiter()) & all_visible)
}

impl<'a> TokenBuffer<'a> {
    /// The tokens of the stream, in a buffer with that number, by which its places are told from those of others. The
    /// number must be at least 1: that of no buffer is 0.
    ///
    /// The error is that memory for the buffer was refused.
    #[tactic(auto, using(crate::proofs::Unsigned::leaves_unsigned))]
    pub fn new2(
        alloc: Global,
        stream: &'a TokenStream,
        number: usize,
    ) -> Result<TokenBuffer<'a>, AllocError>
        requires { 1 ≤ number }
        ensures tokens { IfOk result (λ buffer. spanned_entries buffer.entries.items ≡ stream.now) }
        ensures number { IfOk result (λ buffer. buffer.number ≡ number) }
        ensures visible { IfOk result (λ buffer. buffer.all_visible ≡ all_seen stream.now) }
    {
        each_stream(stream);
        let mut entries = Vec::new(alloc);
        let all_visible = put_trees(&mut entries, stream.trees())?;
        Ok(TokenBuffer {
            entries,
            number,
            all_visible,
        })
    }

    /// All of its tokens as one flat list; the groups among them are whole.
    pub fn entries(&self) -> &[Entry<'a>]
        ensures tokens { result.now ≡ self.now.entries.items }
        ensures whole { IsTrue (is_whole result.now) }
    {
        self.entries.as_slice()
    }
}
