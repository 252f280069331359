//! Kinds of tokens that can be looked for.

ghost use Rattle.proc_macro2.specs.Token.{Token};
ghost use Rattle.std.specs.Prelude.{◌≡◌, Bool, List};
ghost use Rattle.syn_buffer.specs.Position.{left};

use syn_buffer::position::Cursor;

/// A kind of tokens.
pub trait Token {
    /// Whether one of the kind stands first among tokens.
    ghost stands: { List Token → Bool };

    /// Whether a token of the kind stands at the place.
    fn peek(cursor: Cursor<'_>) -> bool
        ensures { result ≡ stands (left cursor.entry) };

    /// What messages call the kind.
    fn display() -> &'static str;
}

/// What can be looked for: each kind of tokens.
pub trait Peek: Token {}

impl<T: Token> Peek for T {}
