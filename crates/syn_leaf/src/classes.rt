//! The classes of literals.

ghost use Rattle.rust_lex.specs.declared.piece.LiteralKind.TheVariants as kinds;

use crate::literal::LitClass;
use crate::{float, integer, quoted};
use rust_lex::piece::LiteralKind;

/// The class of a string, `".."` or `r".."`.
#[derive(Clone, Copy, Debug)]
pub struct IsStr;

impl LitClass for IsStr {
    ghost kind = { kinds.Str };

    fn kind() -> LiteralKind {
        LiteralKind::Str
    }

    fn display() -> &'static str {
        "string literal"
    }

    fn suffix_of(text: &str) -> &str {
        quoted::suffix(LiteralKind::Str, text)
    }
}

/// The class of a byte string, `b".."` or `br".."`.
#[derive(Clone, Copy, Debug)]
pub struct IsByteStr;

impl LitClass for IsByteStr {
    ghost kind = { kinds.ByteStr };

    fn kind() -> LiteralKind {
        LiteralKind::ByteStr
    }

    fn display() -> &'static str {
        "byte string literal"
    }

    fn suffix_of(text: &str) -> &str {
        quoted::suffix(LiteralKind::ByteStr, text)
    }
}

/// The class of a C string, `c".."` or `cr".."`.
#[derive(Clone, Copy, Debug)]
pub struct IsCStr;

impl LitClass for IsCStr {
    ghost kind = { kinds.CStr };

    fn kind() -> LiteralKind {
        LiteralKind::CStr
    }

    fn display() -> &'static str {
        "C string literal"
    }

    fn suffix_of(text: &str) -> &str {
        quoted::suffix(LiteralKind::CStr, text)
    }
}

/// The class of a byte, `b'.'`.
#[derive(Clone, Copy, Debug)]
pub struct IsByte;

impl LitClass for IsByte {
    ghost kind = { kinds.Byte };

    fn kind() -> LiteralKind {
        LiteralKind::Byte
    }

    fn display() -> &'static str {
        "byte literal"
    }

    fn suffix_of(text: &str) -> &str {
        quoted::suffix(LiteralKind::Byte, text)
    }
}

/// The class of a character, `'.'`.
#[derive(Clone, Copy, Debug)]
pub struct IsChar;

impl LitClass for IsChar {
    ghost kind = { kinds.Char };

    fn kind() -> LiteralKind {
        LiteralKind::Char
    }

    fn display() -> &'static str {
        "character literal"
    }

    fn suffix_of(text: &str) -> &str {
        quoted::suffix(LiteralKind::Char, text)
    }
}

/// The class of an integer: a number without a fraction and without an exponent, whatever its suffix is.
#[derive(Clone, Copy, Debug)]
pub struct IsInt;

#[tactic(auto, using(crate::proofs::Suffixes::int_suffixed))]
impl LitClass for IsInt {
    ghost kind = { kinds.Int };

    fn kind() -> LiteralKind {
        LiteralKind::Int
    }

    fn display() -> &'static str {
        "integer literal"
    }

    fn suffix_of(text: &str) -> &str {
        integer::suffix(text)
    }
}

/// The class of a number with a fraction or an exponent.
#[derive(Clone, Copy, Debug)]
pub struct IsFloat;

#[tactic(auto, using(crate::proofs::Suffixes::float_suffixed))]
impl LitClass for IsFloat {
    ghost kind = { kinds.Float };

    fn kind() -> LiteralKind {
        LiteralKind::Float
    }

    fn display() -> &'static str {
        "floating point literal"
    }

    fn suffix_of(text: &str) -> &str {
        float::suffix(text)
    }
}
