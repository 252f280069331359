//! The values of a C string's units: characters, and bytes that are no text by themselves.

ghost use Rattle.rust_escape.specs.declared.error.EscapeError.TheVariants.{NulInCStr};
ghost use Rattle.std.specs.Prelude.{◌≡◌, ◌<◌, ◌↔◌, IsSome, IfSome, MatchResult};

use crate::error::EscapeError;
use std::marker::Model;
use std::num::NonZero;

/// A character that isn't zero.
#[derive(Clone, Copy, Debug, PartialEq, Eq)]
pub struct NonZeroChar {
    value: char,
}

impl Model for NonZeroChar {
    ghost use Rattle.std.specs.Prelude.{ℕ, ◌<◌};

    ghost Value = { ℕ };

    ghost view = { λ c. c.value };

    ghost invariant = { λ c. 0 < c.value };

    ghost inverse = { λ n. record { value = n } };
}

impl NonZeroChar {
    /// The character, or None where it is zero.
    pub fn new(ch: char) -> Option<NonZeroChar>
        ensures some { IsSome result ↔ (0 < ch) }
        ensures value { IfSome result (λ c. c ≡ ch) }
    {
        if ch == '\0' {
            None
        } else {
            Some(NonZeroChar { value: ch })
        }
    }

    /// The character.
    pub fn get(self) -> char
        ensures value { result ≡ self }
        ensures nonzero { 0 < result }
    {
        self.value
    }
}

/// The value of a C string's unit.
#[derive(Clone, Copy, Debug, PartialEq, Eq)]
pub enum MixedUnit {
    /// A character, as each ASCII byte is too.
    Char(NonZeroChar),
    /// A byte from 80 to FF.
    HighByte(NonZero<u8>),
}

impl From<NonZeroChar> for MixedUnit {
    ghost use Rattle.rust_escape.specs.declared.mixed_unit.MixedUnit.TheVariants.{Char};

    ghost from_gives = { λ c u. u ≡ Char c };

    fn from(c: NonZeroChar) -> MixedUnit {
        MixedUnit::Char(c)
    }
}

impl From<NonZero<u8>> for MixedUnit {
    ghost use Rattle.rust_escape.specs.Value.{mixed_of_byte};

    ghost from_gives = { λ b u. u ≡ mixed_of_byte b };

    fn from(b: NonZero<u8>) -> MixedUnit {
        if b.get() < 128 {
            MixedUnit::Char(NonZeroChar {
                value: char::from(b.get()),
            })
        } else {
            MixedUnit::HighByte(b)
        }
    }
}

impl TryFrom<char> for MixedUnit {
    ghost use Rattle.rust_escape.specs.declared.mixed_unit.MixedUnit.TheVariants.{Char};

    type Error = EscapeError;

    // A zero alone is refused.
    ghost try_from_gives = { λ c r. MatchResult r (λ u. (0 < c) × (u ≡ Char c)) (λ e. (c ≡ 0) × (e ≡ NulInCStr)) };

    fn try_from(c: char) -> Result<MixedUnit, EscapeError> {
        match NonZeroChar::new(c) {
            Some(c) => Ok(MixedUnit::Char(c)),
            None => Err(EscapeError::NulInCStr),
        }
    }
}

impl TryFrom<u8> for MixedUnit {
    type Error = EscapeError;

    ghost use Rattle.rust_escape.specs.Value.{byte_value, mixed_value};

    // A zero alone is refused.
    ghost try_from_gives = { λ n r. MatchResult r (λ u. (0 < n) × (mixed_value u ≡ byte_value n))
        (λ e. (n ≡ 0) × (e ≡ NulInCStr)) };

    fn try_from(n: u8) -> Result<MixedUnit, EscapeError> {
        match NonZero::<u8>::new(n) {
            Some(b) => Ok(MixedUnit::from(b)),
            None => Err(EscapeError::NulInCStr),
        }
    }
}
