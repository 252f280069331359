//! Tokens that are to be written.

ghost use Rattle.writer_print.specs.Pieces.{piece_span, piece_token, read_span};
ghost use Rattle.std.specs.Prelude.{◌≡◌};
ghost use Rattle.syn_buffer.specs.Entries.{entry_token};

use proc_macro2::delimiter::Delimiter;
use rust_leaf::ident::Ident;
use rust_leaf::literal::Literal;
use rust_leaf::punct::Spacing;
use rust_map::span::Span;
use syn_buffer::entry::Entry;

/// A token that is to be written: one that was read, lent, or one that a normal form adds.
#[derive(Clone, Copy)]
pub enum Piece<'a> {
    /// An identifier or a keyword.
    Ident(&'a Ident),
    /// A literal.
    Literal(&'a Literal),
    /// A punctuation mark, how it is spaced, and where it stands.
    Mark(char, Spacing, Span),
    /// A group opens, and where the group stands.
    Open(Delimiter, Span),
    /// A group closes.
    Close(Delimiter),
    /// The word `_`.
    Underscore,
    /// An index, in plain decimal, and where the number stands that it is written for.
    Index(u32, Span),
}

impl<'a> Piece<'a> {
    /// A token that was read, to be written again, where it stands. What closes a group keeps no place: the group has
    /// one where it opens.
    pub fn of(entry: &Entry<'a>) -> Piece<'a>
        ensures token { piece_token result ≡ entry_token entry.now }
        ensures place { piece_span result ≡ read_span entry.now }
    {
        match entry {
            Entry::Open(delimiter, span, _) => Piece::Open(*delimiter, *span),
            Entry::Close(delimiter, _) => Piece::Close(*delimiter),
            Entry::Ident(ident) => Piece::Ident(ident),
            Entry::Punct(punct) => Piece::Mark(punct.as_char(), punct.spacing(), punct.span()),
            Entry::Literal(literal) => Piece::Literal(literal),
        }
    }
}
