//! What is seen of a token: what it is, and not where it stands.

ghost use Rattle.writer_built.specs.Heads.{seen_token};
ghost use Rattle.writer_print.specs.Pieces.{piece_token};
ghost use Rattle.std.specs.Prelude.{◌≡◌};

use proc_macro2::delimiter::Delimiter;
use rust_leaf::ident::Ident;
use rust_leaf::literal::Literal;
use rust_leaf::punct::Spacing;
use writer_print::piece::Piece;

/// What is seen of a token that is to be written.
#[derive(Clone, Copy)]
pub enum Seen<'a> {
    /// An identifier or a keyword.
    Ident(&'a Ident),
    /// A literal.
    Literal(&'a Literal),
    /// A punctuation mark, and how it is spaced.
    Mark(char, Spacing),
    /// A group opens.
    Open(Delimiter),
    /// A group closes.
    Close(Delimiter),
    /// The word `_`.
    Underscore,
    /// An index, in plain decimal.
    Index(u32),
}

impl<'a> Seen<'a> {
    /// What is seen of that token.
    pub fn of(piece: Piece<'a>) -> Seen<'a>
        ensures { seen_token result ≡ piece_token piece.entry }
    {
        match piece {
            Piece::Ident(ident) => Seen::Ident(ident),
            Piece::Literal(literal) => Seen::Literal(literal),
            Piece::Mark(mark, spacing, _) => Seen::Mark(mark, spacing),
            Piece::Open(delimiter, _) => Seen::Open(delimiter),
            Piece::Close(delimiter) => Seen::Close(delimiter),
            Piece::Underscore => Seen::Underscore,
            Piece::Index(index, _) => Seen::Index(index),
        }
    }
}
