//! Streams compared by their tokens, wherever these stand.
#![tactic(auto)]

ghost use Rattle.proc_macro2.specs.Flat.{tree_tokens, trees_tokens};
ghost use Rattle.proc_macro2.specs.Token.{plain};
ghost use Rattle.rust_leaf.specs.Leaf.{ident_text, literal_text, punct_char, punct_spacing};
ghost use Rattle.std.specs.Prelude.{◌≡◌, ◌↔◌, IsTrue};
ghost use Rattle.stream_equal.specs.Matched.{IsMatchedTree};

use proc_macro2::laws::each_stream;
use proc_macro2::tree::{TokenStream, TokenTree};
use rust_leaf::ident::Ident;
use rust_leaf::literal::Literal;
use rust_leaf::punct::Punct;

// Each group in the group is closed by its own mark.
fn known(tree: &TokenTree)
    ensures { IsMatchedTree tree.now }
{
    if let TokenTree::Group(group) = tree {
        each_stream(group.stream_ref());
    }
}

// Two words are one.
fn same_word(a: &Ident, b: &Ident) -> bool
    ensures { IsTrue result ↔ (ident_text a.now ≡ ident_text b.now) }
{
    a == b
}

// Two marks are one, and are spaced alike.
fn same_mark(a: &Punct, b: &Punct) -> bool
    ensures { IsTrue result ↔ ((punct_char a.now ≡ punct_char b.now) × (punct_spacing a.now ≡ punct_spacing b.now)) }
{
    a.as_char() == b.as_char() && a.spacing() == b.spacing()
}

// Two literals are one.
fn same_literal(a: &Literal, b: &Literal) -> bool
    ensures { IsTrue result ↔ (literal_text a.now ≡ literal_text b.now) }
{
    a.as_str() == b.as_str()
}

// Two trees have the same tokens.
#[cycle(comparing)]
fn same_tree(a: &TokenTree, b: &TokenTree) -> bool
    ensures { IsTrue result ↔ (plain (tree_tokens a.now) ≡ plain (tree_tokens b.now)) }
{
    match a {
        TokenTree::Group(a) => match b {
            TokenTree::Group(b) => {
                each_stream(a.stream_ref());
                each_stream(b.stream_ref());
                a.delimiter() == b.delimiter() && same_tokens(a.stream_ref(), b.stream_ref())
            }
            TokenTree::Ident(_) | TokenTree::Punct(_) | TokenTree::Literal(_) => false,
        },
        TokenTree::Ident(a) => match b {
            TokenTree::Ident(b) => same_word(a, b),
            TokenTree::Group(_) | TokenTree::Punct(_) | TokenTree::Literal(_) => false,
        },
        TokenTree::Punct(a) => match b {
            TokenTree::Punct(b) => same_mark(a, b),
            TokenTree::Group(_) | TokenTree::Ident(_) | TokenTree::Literal(_) => false,
        },
        TokenTree::Literal(a) => match b {
            TokenTree::Literal(b) => same_literal(a, b),
            TokenTree::Group(_) | TokenTree::Ident(_) | TokenTree::Punct(_) => false,
        },
    }
}

// Trees have the same tokens.
#[cycle(comparing)]
fn same_trees(a: &[TokenTree], b: &[TokenTree]) -> bool
    ensures { IsTrue result ↔ (plain (trees_tokens a.now) ≡ plain (trees_tokens b.now)) }
{
    let mut at = 0usize;
    while at < a.len() && at < b.len() {
        let (one, other) = (&a[at], &b[at]);
        known(one);
        known(other);
        if !same_tree(one, other) {
            return false;
        }
        at += 1;
    }
    a.len() == b.len()
}

/// Whether both streams have the same tokens, wherever they stand. Punctuation is the same if it is spaced alike. It
/// takes no memory; a group in a group takes a call.
#[cycle(comparing)]
pub fn same_tokens(a: &TokenStream, b: &TokenStream) -> bool
    ensures { IsTrue result ↔ (plain a.now ≡ plain b.now) }
{
    same_trees(a.trees(), b.trees())
}
