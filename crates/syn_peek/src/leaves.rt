//! Names, literals and lifetimes: looking for them.

use crate::token::Token;
use rust_leaf::ident::Ident;
use rust_leaf::literal::Literal;
use syn_buffer::position::Cursor;
use syn_kinds::Lifetime;
use syn_kinds::table::is_reserved;

impl Token for Ident {
    ghost use Rattle.syn_kinds.specs.Stands.{ident_stands};

    ghost stands = { ident_stands };

    fn peek(cursor: Cursor<'_>) -> bool {
        match cursor.ident() {
            Some((ident, _)) => !is_reserved(ident),
            None => false,
        }
    }

    fn display() -> &'static str {
        "identifier"
    }
}

impl Token for Literal {
    ghost use Rattle.syn_kinds.specs.Stands.{literal_stands};

    ghost stands = { literal_stands };

    fn peek(cursor: Cursor<'_>) -> bool {
        cursor.literal().is_some()
    }

    fn display() -> &'static str {
        "literal"
    }
}

impl Token for Lifetime {
    ghost use Rattle.syn_kinds.specs.Stands.{lifetime_stands};

    ghost stands = { lifetime_stands };

    fn peek(cursor: Cursor<'_>) -> bool {
        cursor.lifetime_parts().is_some()
    }

    fn display() -> &'static str {
        "lifetime"
    }
}
