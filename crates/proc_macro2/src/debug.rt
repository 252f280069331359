//! Streams, groups and trees as `{:?}` shows them, without their spans. The words are no promise.

use crate::tree::{Group, TokenStream, TokenTree};
use std::fmt;
use std::fmt::Debug;

/// As `TokenStream [Ident(a), Punct(;, Alone)]`.
impl Debug for TokenStream {
    fn fmt<W: fmt::Write>(&self, f: &mut fmt::Formatter<W>) -> fmt::Result {
        show_stream(self, f)
    }
}

/// As `Group(Brace, TokenStream [Ident(a)])`.
impl Debug for Group {
    fn fmt<W: fmt::Write>(&self, f: &mut fmt::Formatter<W>) -> fmt::Result {
        show_group(self, f)
    }
}

/// As the group or the leaf that the tree is.
impl Debug for TokenTree {
    fn fmt<W: fmt::Write>(&self, f: &mut fmt::Formatter<W>) -> fmt::Result {
        show_tree(self, f)
    }
}

#[cycle(showing)]
fn show_tree<W: fmt::Write>(tree: &TokenTree, f: &mut fmt::Formatter<W>) -> fmt::Result {
    match tree {
        TokenTree::Group(group) => show_group(group, f),
        TokenTree::Ident(ident) => ident.fmt(f),
        TokenTree::Punct(punct) => punct.fmt(f),
        TokenTree::Literal(literal) => literal.fmt(f),
    }
}

#[cycle(showing)]
fn show_group<W: fmt::Write>(group: &Group, f: &mut fmt::Formatter<W>) -> fmt::Result {
    let delimiter = group.delimiter;
    write!(f, "Group({delimiter:?}, ")?;
    show_stream(&group.stream, f)?;
    f.write_str(")")
}

#[cycle(showing)]
fn show_stream<W: fmt::Write>(stream: &TokenStream, f: &mut fmt::Formatter<W>) -> fmt::Result {
    f.write_str("TokenStream [")?;
    let mut is_first = true;
    for tree in stream.trees() {
        if !is_first {
            f.write_str(", ")?;
        }
        show_tree(tree, f)?;
        is_first = false;
    }
    f.write_str("]")
}
