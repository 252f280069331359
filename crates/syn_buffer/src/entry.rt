//! One token of a buffer.

ghost use Rattle.std.specs.Prelude.{◌≡◌};
ghost use Rattle.syn_buffer.specs.Entries.{entry_end, entry_span, entry_token};
ghost use Rattle.syn_buffer.specs.Seen.{is_seen, is_visible};

use proc_macro2::delimiter::Delimiter;
use rust_leaf::ident::Ident;
use rust_leaf::literal::Literal;
use rust_leaf::punct::Punct;
use rust_map::span::Span;

/// One token of a stream, lent. A group has two, where it opens and where it closes.
#[derive(Clone, Copy)]
pub enum Entry<'a> {
    /// A group opens; the span is that of all of it, and so many tokens stand inside.
    Open(Delimiter, Span, usize),
    /// A group closes; the span is that of all of it.
    Close(Delimiter, Span),
    /// An identifier or a keyword.
    Ident(&'a Ident),
    /// A punctuation mark.
    Punct(&'a Punct),
    /// A literal.
    Literal(&'a Literal),
}

// Whether marks of such a group are seen.
pub(crate) fn is_visible(delimiter: Delimiter) -> bool
    ensures { result ≡ is_visible delimiter }
{
    match delimiter {
        Delimiter::Parenthesis => true,
        Delimiter::Brace => true,
        Delimiter::Bracket => true,
        Delimiter::None => false,
    }
}

impl Entry<'_> {
    /// Where the token stands; both tokens of a group have the span of all of it.
    pub fn span(&self) -> Span
        ensures { result ≡ entry_span self.now }
    {
        match self {
            Entry::Open(_, span, _) => *span,
            Entry::Close(_, span) => *span,
            Entry::Ident(ident) => ident.span(),
            Entry::Punct(punct) => punct.span(),
            Entry::Literal(literal) => literal.span(),
        }
    }

    // Where the token ends: a mark that closes a group is the last character of that.
    pub(crate) fn end(&self) -> Span
        ensures { result ≡ entry_end self.now }
    {
        match self {
            Entry::Open(_, span, _) => *span,
            Entry::Close(_, span) => span.last_character(),
            Entry::Ident(ident) => ident.span(),
            Entry::Punct(punct) => punct.span(),
            Entry::Literal(literal) => literal.span(),
        }
    }

    // Whether the token is seen: a mark of an invisible group is not.
    pub(crate) fn is_seen(&self) -> bool
        ensures { result ≡ is_seen (entry_token self.now) }
    {
        match self {
            Entry::Open(delimiter, _, _) => is_visible(*delimiter),
            Entry::Close(delimiter, _) => is_visible(*delimiter),
            Entry::Ident(_) => true,
            Entry::Punct(_) => true,
            Entry::Literal(_) => true,
        }
    }
}
