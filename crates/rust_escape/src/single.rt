//! The insides of character and byte literals.

ghost use Rattle.rust_escape.specs.Error.{is_fatal};
ghost use Rattle.rust_escape.specs.Mode.{Byte, Char, in_double_quotes};
ghost use Rattle.rust_escape.specs.Places.{IsPlace};
ghost use Rattle.rust_escape.specs.Unit.{IsOnlyUnit, IsUnit, Strict};
ghost use Rattle.rust_escape.specs.Value.{Character, Value, byte_value};
ghost use Rattle.rust_escape.specs.declared.error.EscapeError.TheVariants.{MoreThanOneChar, ZeroChars};
ghost use Rattle.std.specs.Prelude.{◌++◌, ◌≡◌, ◌<◌, ◌≤◌, ℕ, List, [], IfErr, IfOk, Some, false, length, true};
ghost use Rattle.std.specs.Str.{chars};

use crate::error::EscapeError;
use crate::mode::Mode;
use crate::read::scanned_unit;
use crate::unit::Unit;
use crate::value::Value;
use text_chars::char_at;

/// What an inside that should be one unit holds, or what is wrong, and how much was read.
#[derive(Clone, Copy, Debug)]
pub(crate) struct SingleReading {
    /// The unit's value.
    pub(crate) value: Result<Value, EscapeError>,
    /// The place behind what was read, in bytes from 0.
    pub(crate) end: usize,
}

// The one unit of an inside.
pub(crate) fn single(mode: Mode, src: &str) -> SingleReading
    requires { in_double_quotes mode ≡ false }
    ensures value { IfOk result.value (IsOnlyUnit mode (chars src.now)) }
    ensures malformed { IfErr result.value (λ e. (v : Value) → IsOnlyUnit mode (chars src.now) v → ⊥) }
    ensures fatal { IfErr result.value (λ e. is_fatal e ≡ true) }
    ensures empty { src.now ≡ [] → result.value ≡ Err ZeroChars }
    ensures more { (cs rest : List ℕ) (v : Value) → chars src.now ≡ cs ++ rest → IsUnit Strict mode cs rest (Some v)
        → 0 < length rest → result.value ≡ Err MoreThanOneChar }
    ensures end { result.«end» ≤ length src.now }
{
    if src.is_empty() {
        return SingleReading {
            value: Err(EscapeError::ZeroChars),
            end: 0,
        };
    }
    let reading = scanned_unit(mode, src, 0);
    match reading.value {
        Err(error) => SingleReading {
            value: Err(error),
            end: reading.end,
        },
        Ok(Some(value)) => only(src, value, reading.end),
        Ok(None) => unreachable!(),
    }
}

// The value of a unit that ends at a place, if the inside ends there too.
fn only(src: &str, value: Value, end: usize) -> SingleReading
    requires { IsPlace src.now end }
    ensures whole { length src.now ≤ end → result.value ≡ Ok value }
    ensures more { end < length src.now → result.value ≡ Err MoreThanOneChar }
    ensures end { result.«end» ≤ length src.now }
{
    if end >= src.len() {
        return SingleReading {
            value: Ok(value),
            end,
        };
    }
    let (_, next) = char_at(src, end);
    SingleReading {
        value: Err(EscapeError::MoreThanOneChar),
        end: next,
    }
}

/// The value of a character literal's inside.
///
/// # Errors
///
/// `ZeroChars` where the inside is empty; `MoreThanOneChar` where a unit stands at its front, and more behind it; any
/// other where no unit stands at its front. Each is fatal.
#[tactic(auto, using(crate::proofs::Values::takes_texts))]
pub fn unescape_char(src: &str) -> Result<char, EscapeError>
    ensures value { IfOk result (λ c. IsOnlyUnit Char (chars src.now) (Character c)) }
    ensures malformed { IfErr result (λ e. (v : Value) → IsOnlyUnit Char (chars src.now) v → ⊥) }
    ensures fatal { IfErr result (λ e. is_fatal e ≡ true) }
    ensures empty { src.now ≡ [] → result ≡ Err ZeroChars }
    ensures more { (cs rest : List ℕ) (v : Value) → chars src.now ≡ cs ++ rest → IsUnit Strict Char cs rest (Some v)
        → 0 < length rest → result ≡ Err MoreThanOneChar }
{
    let read = single(Mode::Char, src);
    match read.value {
        Ok(value) => Ok(char::of(value)),
        Err(error) => Err(error),
    }
}

/// The value of a byte literal's inside.
///
/// # Errors
///
/// `ZeroChars` where the inside is empty; `MoreThanOneChar` where a unit stands at its front, and more behind it; any
/// other where no unit stands at its front. Each is fatal.
#[tactic(auto, using(crate::proofs::Values::takes_bytes))]
pub fn unescape_byte(src: &str) -> Result<u8, EscapeError>
    ensures value { IfOk result (λ b. IsOnlyUnit Byte (chars src.now) (byte_value b)) }
    ensures malformed { IfErr result (λ e. (v : Value) → IsOnlyUnit Byte (chars src.now) v → ⊥) }
    ensures fatal { IfErr result (λ e. is_fatal e ≡ true) }
    ensures empty { src.now ≡ [] → result ≡ Err ZeroChars }
    ensures more { (cs rest : List ℕ) (v : Value) → chars src.now ≡ cs ++ rest → IsUnit Strict Byte cs rest (Some v)
        → 0 < length rest → result ≡ Err MoreThanOneChar }
{
    let read = single(Mode::Byte, src);
    match read.value {
        Ok(value) => Ok(u8::of(value)),
        Err(error) => Err(error),
    }
}
