//! The printed text of streams, groups and trees.
//!
//! Trees stand one space apart, except behind a joint mark. A group is `(x)`, `[x]`, `{ x }`, or
//! `{ }` where it is empty; of an invisible group the inside alone is printed.

ghost use Rattle.proc_macro2.specs.Flat.{group_tokens, tree_tokens};
ghost use Rattle.proc_macro2.specs.Printed.{printed, space, text};
ghost use Rattle.proc_macro2.specs.Shown.{back, empty, front, hugs_last};
ghost use Rattle.proc_macro2.specs.Token.{plain};
ghost use Rattle.std.specs.Fmt.{WritesOnOk};
ghost use Rattle.std.specs.Prelude.{◌++◌, ◌≡◌, Some, encode_utf8_all, not};

use crate::delimiter::Delimiter;
use crate::tree::{Group, TokenStream, TokenTree};
use rust_leaf::punct::Spacing;
use std::fmt;
use std::fmt::Display;

impl Display for TokenStream {
    ghost output = { λ s. Some (printed s) };

    fn fmt<W: fmt::Write>(&self, f: &mut fmt::Formatter<W>) -> fmt::Result {
        write_stream(self, f)
    }
}

impl Display for Group {
    ghost output = { λ g. Some (printed (group_tokens g)) };

    fn fmt<W: fmt::Write>(&self, f: &mut fmt::Formatter<W>) -> fmt::Result {
        write_group(self, f)
    }
}

impl Display for TokenTree {
    ghost output = { λ t. Some (printed (tree_tokens t)) };

    fn fmt<W: fmt::Write>(&self, f: &mut fmt::Formatter<W>) -> fmt::Result {
        write_tree(self, f)
    }
}

// What stands before the inside of a group that has trees.
fn front(delimiter: Delimiter) -> &'static str
    ensures { result.now ≡ front delimiter }
{
    match delimiter {
        Delimiter::Parenthesis => "(",
        Delimiter::Brace => "{ ",
        Delimiter::Bracket => "[",
        Delimiter::None => "",
    }
}

// What stands behind the inside of a group that has trees.
fn back(delimiter: Delimiter) -> &'static str
    ensures { result.now ≡ back delimiter }
{
    match delimiter {
        Delimiter::Parenthesis => ")",
        Delimiter::Brace => " }",
        Delimiter::Bracket => "]",
        Delimiter::None => "",
    }
}

// A group without trees.
fn empty(delimiter: Delimiter) -> &'static str
    ensures { result.now ≡ empty delimiter }
{
    match delimiter {
        Delimiter::Parenthesis => "()",
        Delimiter::Brace => "{ }",
        Delimiter::Bracket => "[]",
        Delimiter::None => "",
    }
}

#[cycle(printing)]
fn write_tree<W: fmt::Write>(tree: &TokenTree, f: &mut fmt::Formatter<W>) -> fmt::Result
    ensures { WritesOnOk W.write_str_gives f.old result (printed (tree_tokens tree.now)) f.new }
{
    match tree {
        TokenTree::Group(group) => write_group(group, f),
        TokenTree::Ident(ident) => ident.fmt(f),
        TokenTree::Punct(punct) => punct.fmt(f),
        TokenTree::Literal(literal) => literal.fmt(f),
    }
}

#[cycle(printing)]
fn write_group<W: fmt::Write>(group: &Group, f: &mut fmt::Formatter<W>) -> fmt::Result
    ensures { WritesOnOk W.write_str_gives f.old result (printed (group_tokens group.now)) f.new }
{
    if group.stream.trees().is_empty() {
        return f.write_str(empty(group.delimiter));
    }
    f.write_str(front(group.delimiter))?;
    write_stream(&group.stream, f)?;
    f.write_str(back(group.delimiter))
}

// The trees, one space apart except behind a joint mark.
#[cycle(printing)]
fn write_stream<W: fmt::Write>(stream: &TokenStream, f: &mut fmt::Formatter<W>) -> fmt::Result
    ensures { WritesOnOk W.write_str_gives f.old result (printed stream.now) f.new }
{
    let mut close = true;
    for tree in stream.trees() {
        write_next(tree, close, f)?;
        close = is_joint(tree);
    }
    Ok(())
}

// A tree, close to what stands before it or a space apart.
#[cycle(printing)]
fn write_next<W: fmt::Write>(
    tree: &TokenTree,
    close: bool,
    f: &mut fmt::Formatter<W>,
) -> fmt::Result
    ensures { WritesOnOk W.write_str_gives f.old result
        (encode_utf8_all (space (not close) ++ text (plain (tree_tokens tree.now)))) f.new }
{
    if !close {
        f.write_str(" ")?;
    }
    write_tree(tree, f)
}

// Whether what follows stands close to the tree: it is a joint mark.
fn is_joint(tree: &TokenTree) -> bool
    ensures { result ≡ hugs_last (plain (tree_tokens tree.now)) }
{
    match tree {
        TokenTree::Group(_) => false,
        TokenTree::Ident(_) => false,
        TokenTree::Punct(punct) => punct.spacing() == Spacing::Joint,
        TokenTree::Literal(_) => false,
    }
}
