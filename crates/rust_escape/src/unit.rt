//! The units that the escape calls hand out.

use crate::mixed_unit::{MixedUnit, NonZeroChar};
use crate::value::Value;
use std::num::NonZero;

// What a callback gets for a unit that spells a value.
pub(crate) trait Unit: Sized {
    ghost use Rattle.rust_escape.specs.Value.{Value};
    ghost use Rattle.std.specs.Prelude.{◌≡◌};

    // The value that it stands for.
    ghost spelled: { Self → Value };

    // The values that have one.
    ghost takes: { Value → Type 0 };

    fn of(value: Value) -> Self
        requires { takes value }
        ensures { spelled result ≡ value };
}

impl Unit for char {
    ghost use Rattle.rust_escape.specs.Value.{Character, IsCharacter};

    ghost spelled = { Character };

    ghost takes = { IsCharacter };

    fn of(value: Value) -> char {
        match value {
            Value::Character(c) => c,
            Value::HighByte(_) => unreachable!(),
        }
    }
}

impl Unit for u8 {
    ghost use Rattle.rust_escape.specs.Value.{byte_value, IsByte};

    ghost spelled = { byte_value };

    ghost takes = { IsByte };

    fn of(value: Value) -> u8 {
        match value {
            Value::Character(c) => c as u8,
            Value::HighByte(byte) => byte,
        }
    }
}

impl Unit for NonZeroChar {
    ghost use Rattle.rust_escape.specs.Value.{Character, IsNonZeroCharacter};

    ghost spelled = { Character };

    ghost takes = { IsNonZeroCharacter };

    fn of(value: Value) -> NonZeroChar {
        match value {
            Value::Character(c) => match NonZeroChar::new(c) {
                Some(c) => c,
                None => unreachable!(),
            },
            Value::HighByte(_) => unreachable!(),
        }
    }
}

impl Unit for MixedUnit {
    ghost use Rattle.rust_escape.specs.Value.{mixed_value, IsMixed};

    ghost spelled = { mixed_value };

    ghost takes = { IsMixed };

    fn of(value: Value) -> MixedUnit {
        match value {
            Value::Character(c) => match NonZeroChar::new(c) {
                Some(c) => MixedUnit::Char(c),
                None => unreachable!(),
            },
            Value::HighByte(byte) => match NonZero::<u8>::new(byte) {
                Some(byte) => MixedUnit::HighByte(byte),
                None => unreachable!(),
            },
        }
    }
}
