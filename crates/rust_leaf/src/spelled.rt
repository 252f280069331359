//! What the units of an inside spell, one behind the other.

ghost use Rattle.rust_escape.specs.Error.{is_fatal};
ghost use Rattle.rust_escape.specs.Places.{IsPlace};
ghost use Rattle.rust_escape.specs.Reads.{ReadsUnit};
ghost use Rattle.rust_escape.specs.Unit.{IsInside};
ghost use Rattle.rust_escape.specs.declared.value.Value.{Value};
ghost use Rattle.rust_escape.specs.declared.error.EscapeError.{EscapeError};
ghost use Rattle.rust_leaf.specs.Value.{TakesValues, value_rule};
ghost use Rattle.rust_leaf.specs.declared.value.ConversionErrorKind.TheVariants.{FailedToUnescape, InvalidLiteralKind};
ghost use Rattle.std.specs.Prelude.{[], ◌<◌, ◌≡◌, Err, IfOk, length, List, true};
ghost use Rattle.std.specs.Str.{chars};

use crate::escape::push_bare;
use crate::value::ConversionErrorKind;
use rust_escape::lexical::lexical_unit;
use rust_escape::mode::Mode;
use rust_escape::read::{Reading, unit};
use rust_escape::value::Value;
use std::alloc::{AllocError, Global};

/// What values are put into, one behind the other.
pub(crate) trait Spelling: Sized + Drop {
    ghost use Rattle.rust_escape.specs.declared.value.Value.{Value};
    ghost use Rattle.std.specs.Prelude.{[], ◌++◌, ◌∷◌, IfOk, List, OnOk};

    // It holds these values.
    ghost holds: { Self → List Value → Type 0 };

    // The values that it can hold.
    ghost takes: { Value → Type 0 };

    /// Holds nothing, with room for some bytes.
    fn with_room(alloc: Global, room: usize) -> Result<Self, AllocError>
        ensures { IfOk result (λ out. holds out []) };

    /// Puts a value behind the others.
    fn put(&mut self, value: Value) -> Result<(), AllocError>
        requires { takes value }
        ensures { (values : List Value) → holds self.old values → OnOk result (holds self.new (values ++ value ∷ [])) };
}

impl Spelling for String {
    ghost use Rattle.rust_escape.specs.Value.{IsCharacter};
    ghost use Rattle.rust_escape.specs.declared.value.Value.TheVariants.{Character};
    ghost use Rattle.rust_leaf.specs.Leaf.{text_of};
    ghost use Rattle.std.specs.Prelude.{◌≡◌, map};

    ghost holds = { λ out values. values ≡ map Character (text_of out) };

    ghost takes = { IsCharacter };

    #[tactic(auto, using(crate::proofs::Pushed::no_word))]
    fn with_room(alloc: Global, room: usize) -> Result<String, AllocError> {
        String::with_capacity(alloc, room)
    }

    fn put(&mut self, value: Value) -> Result<(), AllocError> {
        match value {
            Value::Character(c) => push_bare(self, c),
            Value::HighByte(_) => unreachable!(),
        }
    }
}

impl Spelling for Vec<u8> {
    ghost use Rattle.rust_leaf.specs.Value.{value_bytes};
    ghost use Rattle.std.specs.List.{flat_map};
    ghost use Rattle.std.specs.Prelude.{◌≡◌};

    ghost holds = { λ out values. out.items ≡ flat_map value_bytes values };

    ghost takes = { λ _. Unit {0} };

    fn with_room(alloc: Global, room: usize) -> Result<Vec<u8>, AllocError> {
        Vec::with_capacity(alloc, room)
    }

    fn put(&mut self, value: Value) -> Result<(), AllocError> {
        match value {
            Value::Character(c) => self.extend_from_slice(c.encode_utf8(&mut [0u8; 4]).as_bytes()),
            Value::HighByte(byte) => Ok(self.push(byte)?),
        }
    }
}

// The unit at a place of an inside, or what is wrong there.
fn value_unit(mode: Mode, inside: &str, at: usize) -> Reading
    requires place { IsPlace inside.now at }
    requires more { at < length inside.now }
    ensures { ReadsUnit (value_rule mode) mode inside.now at result }
{
    match mode {
        Mode::RawStr | Mode::RawByteStr | Mode::RawCStr => lexical_unit(mode, inside, at),
        Mode::Char | Mode::Byte | Mode::Str | Mode::ByteStr | Mode::CStr => {
            unit(mode, inside, at)
        }
    }
}

/// What the units of an inside spell, by the rule of its mode.
///
/// FailedToUnescape: the first unit that is malformed.
pub(crate) fn spelled<S: Spelling>(
    alloc: Global,
    mode: Mode,
    inside: &str,
) -> Result<S, ConversionErrorKind>
    requires { TakesValues S.takes mode }
    ensures value { IfOk result
        (λ out. (values : List Value) × IsInside (value_rule mode) mode (chars inside.now) [] values
        × S.holds out values) }
    ensures kind { result ≡ Err InvalidLiteralKind → ⊥ }
    ensures malformed { (error : EscapeError) → result ≡ Err (FailedToUnescape error) → (values : List Value)
        → IsInside (value_rule mode) mode (chars inside.now) [] values → ⊥ }
    ensures fatal { (error : EscapeError) → result ≡ Err (FailedToUnescape error) → is_fatal error ≡ true }
{
    let mut out = S::with_room(alloc, inside.len())?;
    let mut at = 0usize;
    while at < inside.len() {
        let reading = value_unit(mode, inside, at);
        if let Some(value) = reading.value? {
            out.put(value)?;
        }
        at = reading.end;
    }
    Ok(out)
}
