//! Copies of streams and trees. Each shows what was copied, spans included. The copy of a stream shares its list,
//! and so takes no memory; a change of the one leaves the other.

ghost use Rattle.proc_macro2.specs.Flat.{tree_tokens, trees_tokens};
ghost use Rattle.std.specs.Prelude.{◌≡◌, IfOk, List, Ok};

use crate::delimiter::Delimiter;
use crate::group::DelimSpan;
use crate::tree::{Group, TokenStream, TokenTree};
use std::alloc::{AllocError, Global};
use try_clone::TryClone;

// A copy of a list of trees.
#[tactic(auto, using(crate::proofs::Views::trees_more))]
pub(crate) fn copied_trees(alloc: Global, trees: &[TokenTree]) -> Result<Vec<TokenTree>, AllocError>
    ensures { IfOk result (λ copies. trees_tokens copies.items ≡ trees_tokens trees.now) }
{
    let mut copies = Vec::with_capacity(alloc, trees.len())?;
    for tree in trees {
        copies.push(copied_tree(tree)?)?;
    }
    Ok(copies)
}

// A copy of a stream, which shares its list.
pub(crate) fn copied_stream(stream: &TokenStream) -> Result<TokenStream, AllocError>
    ensures { IfOk result (λ s. s ≡ stream.now) }
{
    let shared = match &stream.shared {
        Some(shared) => Some(shared.clone()?),
        None => None,
    };
    Ok(TokenStream {
        alloc: stream.alloc,
        shared,
    })
}

// A copy of a tree. That of a group shares the list of its stream.
pub(crate) fn copied_tree(tree: &TokenTree) -> Result<TokenTree, AllocError>
    ensures { IfOk result (λ t. tree_tokens t ≡ tree_tokens tree.now) }
{
    match tree {
        TokenTree::Group(group) => Ok(TokenTree::Group(copied_group(group)?)),
        TokenTree::Ident(ident) => Ok(TokenTree::Ident(ident.try_clone()?)),
        TokenTree::Punct(punct) => Ok(TokenTree::Punct(*punct)),
        TokenTree::Literal(literal) => Ok(TokenTree::Literal(literal.try_clone()?)),
    }
}

// A copy of a group, which shares the list of its stream.
fn copied_group(group: &Group) -> Result<Group, AllocError>
    ensures { IfOk result (λ g. g ≡ group.now) }
{
    Ok(Group {
        delimiter: group.delimiter,
        stream: copied_stream(&group.stream)?,
        span: group.span,
    })
}

/// A copy shares the list of the stream, and takes no memory. `AllocError` if more copies share it than can be counted.
impl TryClone for TokenStream {
    ghost use Rattle.proc_macro2.specs.Token.{Spanned};

    ghost Shown = { List Spanned };

    ghost shown = { λ stream. stream };

    fn try_clone(&self) -> Result<TokenStream, AllocError> {
        copied_stream(self)
    }
}

/// A copy of a group is as that of `Group`, and that of a token as its own. `AllocError` as there.
impl TryClone for TokenTree {
    ghost use Rattle.proc_macro2.specs.Token.{Spanned};

    ghost Shown = { List Spanned };

    ghost shown = { tree_tokens };

    fn try_clone(&self) -> Result<TokenTree, AllocError> {
        copied_tree(self)
    }
}

/// A copy shares the list of the group's stream, and takes no memory. `AllocError` if more copies share it than can be
/// counted.
impl TryClone for Group {
    ghost use Rattle.proc_macro2.specs.declared.tree.Group.{Group};

    ghost Shown = { Group };

    ghost shown = { λ group. group };

    fn try_clone(&self) -> Result<Group, AllocError> {
        copied_group(self)
    }
}

impl TryClone for Delimiter {
    ghost use Rattle.proc_macro2.specs.declared.delimiter.Delimiter.{Delimiter};

    ghost Shown = { Delimiter };

    ghost shown = { λ delimiter. delimiter };

    fn try_clone(&self) -> Result<Delimiter, AllocError>
        ensures { result ≡ Ok self.now }
    {
        Ok(*self)
    }
}

impl TryClone for DelimSpan {
    ghost use Rattle.proc_macro2.specs.declared.group.DelimSpan.{DelimSpan};

    ghost Shown = { DelimSpan };

    ghost shown = { λ spans. spans };

    fn try_clone(&self) -> Result<DelimSpan, AllocError>
        ensures { result ≡ Ok self.now }
    {
        Ok(*self)
    }
}
