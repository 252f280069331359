//! The values of literals in quotes.

ghost use Rattle.rust_escape.specs.Value.{byte_value};
ghost use Rattle.rust_escape.specs.declared.value.Value.TheVariants.{Character};
ghost use Rattle.rust_leaf.specs.Leaf.{literal_text, text_of};
ghost use Rattle.rust_lex.specs.declared.piece.LiteralKind.TheVariants as kinds;
ghost use Rattle.std.specs.Prelude.{[], ◌++◌, ◌∷◌, ◌≡◌, IfOk, map, true};
ghost use Rattle.std.specs.Str.{chars};
ghost use Rattle.syn_leaf.specs.Kinds.{IsKind};
ghost use Rattle.syn_leaf.specs.Quoted.{IsTakenApart, Spells, SpellsBytes, SpellsCBytes, is_quoted};

use crate::classes::{IsByte, IsByteStr, IsCStr, IsChar, IsStr};
use crate::literal::{LitClass, LitToken};
use crate::quoted::{Quoted, taken_apart};
use crate::spelled::{only_value, spelled};
use rust_escape::value::Value;
use std::alloc::{AllocError, Global};

// A literal of a class in quotes, taken apart.
fn apart<C: LitClass>(literal: &LitToken<C>) -> Quoted<'_>
    requires { is_quoted C.kind ≡ true }
    ensures kind { IsKind C.kind (literal_text literal.now.token) }
    ensures apart { IsTakenApart C.kind (literal_text literal.now.token) result.mode (chars result.inside.now)
        (chars result.closing.now) }
{
    taken_apart(C::kind(), literal.token().as_str())
}

impl LitToken<IsStr> {
    /// The characters that its units spell, by the lexical rules: of a raw one its inside as it stands, else with its
    /// escapes replaced. A carriage return before a line feed stands for nothing in one that is not raw. The suffix
    /// says nothing.
    ///
    /// The error is that memory was refused.
    pub fn value(&self, alloc: Global) -> Result<String, AllocError>
        ensures { IfOk result
            (λ value. Spells kinds.Str (literal_text self.now.token) (map Character (text_of value))) }
    {
        let quoted = apart(self);
        spelled::<String>(alloc, quoted.mode, quoted.inside)
    }
}

impl LitToken<IsByteStr> {
    /// The bytes that its units spell, as `LitStr::value` says.
    ///
    /// The error is that memory was refused.
    pub fn value(&self, alloc: Global) -> Result<Vec<u8>, AllocError>
        ensures { IfOk result (λ bytes. SpellsBytes kinds.ByteStr (literal_text self.now.token) bytes.items) }
    {
        let quoted = apart(self);
        spelled::<Vec<u8>>(alloc, quoted.mode, quoted.inside)
    }
}

impl LitToken<IsCStr> {
    /// The bytes that its units spell, a character's in UTF-8, as `LitStr::value` says, and behind them one zero.
    ///
    /// The error is that memory was refused.
    pub fn value(&self, alloc: Global) -> Result<Vec<u8>, AllocError>
        ensures { IfOk result (λ bytes. SpellsCBytes (literal_text self.now.token) bytes.items) }
    {
        let quoted = apart(self);
        let mut bytes = spelled::<Vec<u8>>(alloc, quoted.mode, quoted.inside)?;
        bytes.push(0)?;
        Ok(bytes)
    }
}

impl LitToken<IsChar> {
    /// The character that its one unit spells. It takes no memory.
    pub fn value(&self) -> char
        ensures { Spells kinds.Char (literal_text self.now.token) (Character result ∷ []) }
    {
        let quoted = apart(self);
        match only_value(quoted.mode, quoted.inside) {
            Value::Character(c) => c,
            Value::HighByte(_) => unreachable!(),
        }
    }
}

impl LitToken<IsByte> {
    /// The byte that its one unit spells. It takes no memory.
    pub fn value(&self) -> u8
        ensures { Spells kinds.Byte (literal_text self.now.token) (byte_value result ∷ []) }
    {
        let quoted = apart(self);
        match only_value(quoted.mode, quoted.inside) {
            Value::Character(c) => c as u8,
            Value::HighByte(byte) => byte,
        }
    }
}
