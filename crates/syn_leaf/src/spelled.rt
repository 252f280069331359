//! What the units of an inside spell, by the lexical rule.

ghost use Rattle.rust_escape.specs.Unit.{IsInside, IsUnit, Lexical};
ghost use Rattle.rust_escape.specs.declared.value.Value.{Value};
ghost use Rattle.rust_leaf.specs.Leaf.{text_of};
ghost use Rattle.std.specs.Prelude.{[], ◌++◌, ◌∷◌, ◌≡◌, IfOk, List, OnOk, Some};
ghost use Rattle.std.specs.Str.{chars};
ghost use Rattle.syn_leaf.specs.Quoted.{TakesUnits};

use rust_escape::lexical::lexical_unit;
use rust_escape::mode::Mode;
use rust_escape::value::Value;
use std::alloc::{AllocError, Global};

// Appends a character.
#[tactic(auto, using(rust_leaf::proofs::Pushed::char_pushed))]
fn push_character(out: &mut String, c: char) -> Result<(), AllocError>
    ensures { OnOk result (text_of out.new ≡ text_of out.old ++ c ∷ []) }
{
    out.push(c)
}

/// What values are put into, one behind the other.
pub(crate) trait Spelling: Sized + Drop {
    // It holds these values.
    ghost holds: { Self → List Value → Type 0 };

    // The values that it can hold.
    ghost takes: { Value → Type 0 };

    /// Holds nothing, with room for some bytes.
    fn with_room(alloc: Global, room: usize) -> Result<Self, AllocError>
        ensures { IfOk result (λ out. holds out []) };

    /// Puts a value behind the others.
    fn put(&mut self, value: Value) -> Result<(), AllocError>
        requires { takes value }
        ensures { (values : List Value) → holds self.old values → OnOk result (holds self.new (values ++ value ∷ [])) };
}

impl Spelling for String {
    ghost use Rattle.rust_escape.specs.Value.{IsCharacter};
    ghost use Rattle.rust_escape.specs.declared.value.Value.TheVariants.{Character};
    ghost use Rattle.std.specs.Prelude.{map};

    ghost holds = { λ out values. values ≡ map Character (text_of out) };

    ghost takes = { IsCharacter };

    #[tactic(auto, using(crate::proofs::Spellings::no_word))]
    fn with_room(alloc: Global, room: usize) -> Result<String, AllocError> {
        String::with_capacity(alloc, room)
    }

    fn put(&mut self, value: Value) -> Result<(), AllocError> {
        match value {
            Value::Character(c) => push_character(self, c),
            Value::HighByte(_) => unreachable!(),
        }
    }
}

impl Spelling for Vec<u8> {
    ghost use Rattle.rust_leaf.specs.Value.{value_bytes};
    ghost use Rattle.std.specs.List.{flat_map};

    ghost holds = { λ out values. out.items ≡ flat_map value_bytes values };

    ghost takes = { λ _. Unit {0} };

    fn with_room(alloc: Global, room: usize) -> Result<Vec<u8>, AllocError> {
        Vec::with_capacity(alloc, room)
    }

    fn put(&mut self, value: Value) -> Result<(), AllocError> {
        match value {
            Value::Character(c) => self.extend_from_slice(c.encode_utf8(&mut [0u8; 4]).as_bytes()),
            Value::HighByte(byte) => Ok(self.push(byte)?),
        }
    }
}

/// What the units of an inside spell.
pub(crate) fn spelled<S: Spelling>(alloc: Global, mode: Mode, inside: &str) -> Result<S, AllocError>
    requires takes { TakesUnits S.takes mode }
    requires there { (values : List Value) × IsInside Lexical mode (chars inside.now) [] values }
    ensures { IfOk result (λ out. (values : List Value) × IsInside Lexical mode (chars inside.now) [] values
        × S.holds out values) }
{
    let mut out = S::with_room(alloc, inside.len())?;
    let mut at = 0usize;
    while at < inside.len() {
        let reading = lexical_unit(mode, inside, at);
        let Ok(spelled) = reading.value else {
            unreachable!();
        };
        if let Some(value) = spelled {
            out.put(value)?;
        }
        at = reading.end;
    }
    Ok(out)
}

/// What the one unit of an inside spells.
#[tactic(auto, using(crate::proofs::Spellings::unit_is))]
pub(crate) fn only_value(mode: Mode, inside: &str) -> Value
    requires { (value : Value) × IsUnit Lexical mode (chars inside.now) [] (Some value) }
    ensures { IsUnit Lexical mode (chars inside.now) [] (Some result) }
{
    let Ok(spelled) = lexical_unit(mode, inside, 0).value else {
        unreachable!();
    };
    let Some(value) = spelled else {
        unreachable!();
    };
    value
}
