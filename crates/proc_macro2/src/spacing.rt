//! The test for well spaced streams: those that are read back from their text.
//!
//! A tree is tested with the one behind it: whether a mark may stand is told by what follows it.

ghost use Rattle.proc_macro2.specs.Flat.{group_tokens, tree_tokens};
ghost use Rattle.proc_macro2.specs.Spacing.{IsWellSpaced, begin_comment, follows_mark, follows_quote, is_character};
ghost use Rattle.proc_macro2.specs.Spacing.{is_prefixed_string, is_visible, may_stand};
ghost use Rattle.proc_macro2.specs.Stands.{all_stand, tokens_behind};
ghost use Rattle.proc_macro2.specs.Token.{Joint, plain};
ghost use Rattle.proc_macro2.specs.Token as token;
ghost use Rattle.rust_leaf.specs.Leaf.{punct_char, punct_spacing};
ghost use Rattle.std.specs.List.{starts_with};
ghost use Rattle.std.specs.Prelude.{[], ◌≡◌, ◌↔◌, IsTrue, nat_eq};
ghost use Rattle.std.specs.Str.{IsAscii, chars};

use crate::delimiter::Delimiter;
use crate::tree::{Group, TokenStream, TokenTree};
use rust_leaf::punct::{Punct, Spacing};

impl TokenStream {
    /// Whether the stream is well spaced. No group in it is invisible. Each `'` is joint and stands
    /// before an identifier, or before a string with a prefix and without `#`. Each other joint mark
    /// stands before a mark with which it begins no comment, or before a character literal.
    ///
    /// It is so exactly if lexing its printed text gives the same tokens.
    pub fn is_well_spaced(&self) -> bool
        ensures { IsTrue result ↔ IsWellSpaced (plain self.now) }
    {
        stream_stands(self)
    }
}

// Whether each token of a stream may stand, the end behind it.
#[cycle(spacing)]
fn stream_stands(stream: &TokenStream) -> bool
    ensures { result ≡ all_stand (plain stream.now) [] }
{
    let mut behind = 0usize;
    let trees = stream.trees();
    for tree in trees {
        behind += 1;
        if !tree_stands(tree, trees.get(behind)) {
            return false;
        }
    }
    true
}

// Whether each token of a tree may stand, the next tree behind it, or the end.
#[cycle(spacing)]
fn tree_stands(tree: &TokenTree, next: Option<&TokenTree>) -> bool
    ensures { result ≡ all_stand (plain (tree_tokens tree.now)) (tokens_behind next.entry) }
{
    match tree {
        TokenTree::Group(group) => group_stands(group),
        TokenTree::Ident(_) => true,
        TokenTree::Punct(punct) => mark_stands(punct, next),
        TokenTree::Literal(_) => true,
    }
}

// Whether each token of a group may stand, whatever is behind it.
#[cycle(spacing)]
fn group_stands(group: &Group) -> bool
    ensures { result ≡ all_stand (plain (group_tokens group.now)) [] }
{
    is_visible(group.delimiter) && stream_stands(&group.stream)
}

// Whether a delimiter is printed.
fn is_visible(delimiter: Delimiter) -> bool
    ensures { result ≡ is_visible delimiter }
{
    match delimiter {
        Delimiter::Parenthesis => true,
        Delimiter::Brace => true,
        Delimiter::Bracket => true,
        Delimiter::None => false,
    }
}

// Whether a mark may stand, the next tree behind it, or the end.
fn mark_stands(punct: &Punct, next: Option<&TokenTree>) -> bool
    ensures { result ≡ may_stand (token.Punct (punct_char punct.now) (punct_spacing punct.now))
        (tokens_behind next.entry) }
{
    match punct.spacing() {
        Spacing::Alone => punct.as_char() != '\'',
        Spacing::Joint => joint_mark_stands(punct.as_char(), next),
    }
}

// Whether a joint mark may stand, the next tree behind it, or the end.
fn joint_mark_stands(mark: char, next: Option<&TokenTree>) -> bool
    ensures { result ≡ may_stand (token.Punct mark Joint) (tokens_behind next.entry) }
{
    match next {
        Some(tree) if mark == '\'' => follows_quote(tree),
        Some(tree) => follows_mark(mark, tree),
        None => false,
    }
}

// Whether a ' may stand before the tree.
fn follows_quote(tree: &TokenTree) -> bool
    ensures { result ≡ follows_quote (plain (tree_tokens tree.now)) }
{
    match tree {
        TokenTree::Group(_) => false,
        TokenTree::Ident(_) => true,
        TokenTree::Punct(_) => false,
        TokenTree::Literal(literal) => is_prefixed_string(literal.as_str()),
    }
}

// Whether another joint mark may stand before the tree.
fn follows_mark(mark: char, tree: &TokenTree) -> bool
    ensures { result ≡ follows_mark mark (plain (tree_tokens tree.now)) }
{
    match tree {
        TokenTree::Group(_) => false,
        TokenTree::Ident(_) => false,
        TokenTree::Punct(punct) => !begin_comment(mark, punct.as_char()),
        TokenTree::Literal(literal) => is_character(literal.as_str()),
    }
}

// Whether two marks begin a comment.
fn begin_comment(first: char, second: char) -> bool
    ensures { result ≡ begin_comment first second }
{
    first == '/' && (second == '/' || second == '*')
}

// Whether the text is a string's with a prefix and without #.
fn is_prefixed_string(text: &str) -> bool
    ensures { result ≡ is_prefixed_string (chars text.now) }
{
    begins_with(text, "b\"")
        || begins_with(text, "c\"")
        || begins_with(text, "r\"")
        || begins_with(text, "br\"")
        || begins_with(text, "cr\"")
}

// Whether a text begins with the characters of an ASCII one.
fn begins_with(text: &str, start: &str) -> bool
    requires { IsAscii start.now }
    ensures { result ≡ starts_with nat_eq (chars text.now) start.now }
{
    text.starts_with(start)
}

// Whether the text is a character literal's.
fn is_character(text: &str) -> bool
    ensures { result ≡ is_character (chars text.now) }
{
    begins_with(text, "'")
}
