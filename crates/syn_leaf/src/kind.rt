//! Which literal a text is.

ghost use Rattle.rust_leaf.specs.Parse.{literal_of};
ghost use Rattle.rust_lex.specs.declared.piece.LiteralKind.{LiteralKind};
ghost use Rattle.std.specs.Prelude.{◌↔◌, ◌≡◌, Some};
ghost use Rattle.std.specs.Str.{chars};
ghost use Rattle.syn_leaf.specs.Kinds.{IsKind};

use rust_lex::piece::{LiteralKind, PieceKind};
use rust_lex::scan::next_piece;

// Which literal a piece is, if it is one.
fn literal_of(piece: PieceKind) -> Option<LiteralKind>
    ensures { result ≡ literal_of piece }
{
    match piece {
        PieceKind::Literal(kind) => Some(kind),
        _ => None,
    }
}

/// Which literal all of the text is, if it is one: by the lexical rules, so that a number with a fraction or an
/// exponent is a float, and any other an integer, whatever its suffix is.
pub(crate) fn kind_of(text: &str) -> Option<LiteralKind>
    ensures { (kind : LiteralKind) → (result ≡ Some kind) ↔ IsKind kind (chars text.now) }
{
    let (piece, end) = next_piece(text, 0)?;
    if end == text.len() {
        literal_of(piece)
    } else {
        None
    }
}
