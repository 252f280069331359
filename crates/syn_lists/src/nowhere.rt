//! A kind that stands nowhere.

use syn_buffer::position::Cursor;
use syn_peek::Token;

/// The end of a list that has no end of its own.
pub struct Nowhere;

impl Token for Nowhere {
    ghost use Rattle.std.specs.Prelude.{false};

    ghost stands = { λ _. false };

    fn peek(_cursor: Cursor<'_>) -> bool {
        false
    }

    fn display() -> &'static str {
        "nothing"
    }
}
