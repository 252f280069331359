//! The trees at a place.

ghost use Rattle.std.specs.Prelude.{[], ◌≡◌, IfNone, IfOk, IfSome, IsTrue};
ghost use Rattle.syn_buffer.specs.Entries.{is_laid};
ghost use Rattle.syn_buffer.specs.Position.{TakesTree, rest, tree_end, trees_left};
ghost use Rattle.syn_buffer.specs.Seen.{seen};
ghost use Rattle.syn_buffer.specs.Standing.{FirstTree, NoTree, trees_of};

use crate::entry::Entry;
use crate::position::Cursor;
use proc_macro2::tree::{Group, TokenStream, TokenTree};
use rust_map::span::Span;
use std::alloc::{AllocError, Global};
use try_clone::TryClone;

// The stream of the entries' trees.
#[tactic(auto, using(crate::proofs::Standing::tree_more, crate::proofs::Standing::laid_more))]
#[cycle(building)]
fn stream_of(alloc: Global, entries: &[Entry<'_>]) -> Result<TokenStream, AllocError>
    requires { IsTrue (is_laid entries.now) }
    ensures { IfOk result (λ s. s ≡ trees_of entries.now) }
{
    let mut stream = TokenStream::new(alloc);
    let mut at = 0usize;
    while let Some((tree, count)) = first_tree(alloc, &entries[at..])? {
        stream.push_tree(tree)?;
        at += count;
    }
    Ok(stream)
}

// The first tree of the entries, and how many of them it takes.
#[tactic(auto, using(crate::proofs::Standing::first_trees))]
#[cycle(building)]
fn first_tree(
    alloc: Global,
    entries: &[Entry<'_>],
) -> Result<Option<(TokenTree, usize)>, AllocError>
    requires { IsTrue (is_laid entries.now) }
    ensures some { IfOk result (λ o. IfSome o (λ r. FirstTree entries.now r.0 r.1)) }
    ensures none { IfOk result (λ o. IfNone o (NoTree entries.now)) }
{
    let Some((first, behind)) = entries.split_first() else {
        return Ok(None);
    };
    match first {
        Entry::Open(delimiter, span, count) => {
            let mut group = Group::new(*delimiter, stream_of(alloc, &behind[..*count])?);
            group.set_span(*span);
            Ok(Some((TokenTree::Group(group), *count + 2)))
        }
        Entry::Close(_, _) => match first_tree(alloc, behind)? {
            Some((tree, count)) => Ok(Some((tree, count + 1))),
            None => Ok(None),
        },
        Entry::Ident(ident) => Ok(Some((TokenTree::Ident(ident.try_clone()?), 1))),
        Entry::Punct(punct) => Ok(Some((TokenTree::Punct(**punct), 1))),
        Entry::Literal(literal) => Ok(Some((TokenTree::Literal(literal.try_clone()?), 1))),
    }
}

// Where a tree ends: a group at its closing mark.
fn end_of(tree: &TokenTree) -> Span
    ensures { result ≡ tree_end tree.now }
{
    match tree {
        TokenTree::Group(group) => group.span().last_character(),
        TokenTree::Ident(ident) => ident.span(),
        TokenTree::Punct(punct) => punct.span(),
        TokenTree::Literal(literal) => literal.span(),
    }
}

impl<'a> Cursor<'a> {
    /// The trees that are left of the list, invisible groups among them. At the beginning of a buffer they are
    /// the stream that the buffer was made from. Of an invisible group that has been entered it is what is left
    /// of its inside.
    ///
    /// The error is that memory for the copy was refused.
    #[tactic(auto, using(crate::proofs::Standing::seen_trees))]
    pub fn token_stream(self, alloc: Global) -> Result<TokenStream, AllocError>
        ensures trees { IfOk result (λ s. s ≡ trees_left self.entry) }
        ensures seen { IfOk result (λ s. seen s ≡ rest self.entry) }
    {
        stream_of(alloc, self.entries)
    }

    /// The tree that stands there, which may be an invisible group, and the place behind it. There is none where no
    /// tree is left.
    ///
    /// The error is that memory for the copy was refused.
    pub fn token_tree(self, alloc: Global) -> Result<Option<(TokenTree, Cursor<'a>)>, AllocError>
        ensures some { IfOk result (λ o. IfSome o (λ r. TakesTree self.entry r.0 r.1)) }
        ensures none { IfOk result (λ o. IfNone o (trees_left self.entry ≡ [])) }
        ensures end { IfOk result (λ o. IfNone o (rest self.entry ≡ [])) }
    {
        match first_tree(alloc, self.entries)? {
            Some((tree, count)) => {
                let end = end_of(&tree);
                Ok(Some((tree, self.past(&self.entries[count..], end))))
            }
            None => Ok(None),
        }
    }
}
