//! Marks, words and tokens that are one.

ghost use Rattle.reader_table.specs.Ops.{separator_of};
ghost use Rattle.reader_table.specs.Words.{sign_text};
ghost use Rattle.rust_leaf.specs.Leaf.{ident_text, literal_text, punct_char, punct_spacing};
ghost use Rattle.std.specs.Prelude.{◌≡◌, ◌↔◌, IsTrue, map};
ghost use Rattle.syn_buffer.specs.Entries.{entry_token};

use proc_macro2::delimiter::Delimiter;
use reader_table::op::Separator;
use reader_table::word::Sign;
use rust_leaf::ident::Ident;
use rust_leaf::literal::Literal;
use rust_leaf::punct::{Punct, Spacing};
use syn_buffer::entry::Entry;

/// Two punctuations are one.
#[tactic(auto, using(crate::proofs::Texts::texts))]
pub(crate) fn same_sign(a: Sign, b: Sign) -> bool
    ensures { IsTrue result ↔ (sign_text a ≡ sign_text b) }
{
    a.text() == b.text()
}

/// Two separators are one.
pub(crate) fn same_separator(a: Separator, b: Separator) -> bool
    ensures { IsTrue result ↔ (separator_of a ≡ separator_of b) }
{
    match a {
        Separator::Comma => matches!(b, Separator::Comma),
        Separator::Plus => matches!(b, Separator::Plus),
    }
}

/// Two delimiters are one.
pub(crate) fn same_delimiter(a: Delimiter, b: Delimiter) -> bool
    ensures { IsTrue result ↔ (a ≡ b) }
{
    a == b
}

/// Two marks are spaced alike.
pub(crate) fn same_spacing(a: Spacing, b: Spacing) -> bool
    ensures { IsTrue result ↔ (a ≡ b) }
{
    a == b
}

/// Two words are one.
pub(crate) fn same_word(a: &Ident, b: &Ident) -> bool
    ensures { IsTrue result ↔ (ident_text a.now ≡ ident_text b.now) }
{
    a == b
}

/// Two literals are one.
pub(crate) fn same_literal(a: &Literal, b: &Literal) -> bool
    ensures { IsTrue result ↔ (literal_text a.now ≡ literal_text b.now) }
{
    a.as_str() == b.as_str()
}

// Two punctuation marks are one.
fn same_mark(a: &Punct, b: &Punct) -> bool
    ensures { IsTrue result ↔ ((punct_char a.now ≡ punct_char b.now) × (punct_spacing a.now ≡ punct_spacing b.now)) }
{
    a.as_char() == b.as_char() && same_spacing(a.spacing(), b.spacing())
}

// Two tokens are one.
fn same_token(a: &Entry<'_>, b: &Entry<'_>) -> bool
    ensures { IsTrue result ↔ (entry_token a.now ≡ entry_token b.now) }
{
    match a {
        Entry::Open(one, _, _) => match b {
            Entry::Open(other, _, _) => same_delimiter(*one, *other),
            _ => false,
        },
        Entry::Close(one, _) => match b {
            Entry::Close(other, _) => same_delimiter(*one, *other),
            _ => false,
        },
        Entry::Ident(one) => match b {
            Entry::Ident(other) => same_word(one, other),
            _ => false,
        },
        Entry::Punct(one) => match b {
            Entry::Punct(other) => same_mark(one, other),
            _ => false,
        },
        Entry::Literal(one) => match b {
            Entry::Literal(other) => same_literal(one, other),
            _ => false,
        },
    }
}

/// The same tokens, in the same order.
pub(crate) fn same_tokens(a: &[Entry<'_>], b: &[Entry<'_>]) -> bool
    ensures { IsTrue result ↔ (map entry_token a.now ≡ map entry_token b.now) }
{
    if a.len() != b.len() {
        return false;
    }
    for (index, token) in a.iter().enumerate() {
        if !same_token(token, &b[index]) {
            return false;
        }
    }
    true
}
