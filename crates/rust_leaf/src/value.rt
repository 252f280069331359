//! The values of literals in quotes.

ghost use Rattle.rust_escape.specs.Error.{is_fatal};
ghost use Rattle.rust_escape.specs.declared.value.Value.{Value};
ghost use Rattle.rust_escape.specs.declared.error.EscapeError.{EscapeError};
ghost use Rattle.rust_leaf.specs.Leaf.{literal_text, text_of};
ghost use Rattle.rust_leaf.specs.Quoted.{IsLiteralOf, cooked, raw};
ghost use Rattle.rust_leaf.specs.Value.{HasValues, IsByteLiteral, IsByteStr, IsByteStrValue, IsByteValue, IsCStr};
ghost use Rattle.rust_leaf.specs.Value.{IsCStrValue};
ghost use Rattle.rust_leaf.specs.Value.{IsCharLiteral, IsCharValue, IsMalformed, IsMalformedByte, IsMalformedByteStr};
ghost use Rattle.rust_leaf.specs.Value.{IsMalformedCStr, IsMalformedChar, IsMalformedStr, IsStr, IsStrValue};
ghost use Rattle.rust_leaf.specs.Value.{TakesValues};
ghost use Rattle.rust_leaf.specs.declared.quoted.Content.TheVariants.{Bytes, CText, Text};
ghost use Rattle.rust_leaf.specs.declared.value.ConversionErrorKind.TheVariants.{FailedToUnescape};
ghost use Rattle.rust_leaf.specs.declared.value.ConversionErrorKind.TheVariants.{InvalidLiteralKind, Memory};
ghost use Rattle.std.specs.Prelude.{◌≡◌, ◌≢◌, ◌↔◌, Err, IfOk, List, true};
ghost use Rattle.std.specs.Str.{chars};

use crate::literal::Literal;
use crate::quoted::{Content, byte_quoted, quoted, single_quoted};
use crate::spelled::{Spelling, spelled};
use rust_escape::error::EscapeError;
use rust_escape::single::{unescape_byte, unescape_char};
use rust_escape::value::Value;
use std::alloc::{AllocError, Global};

/// Why a literal has no such value.
#[derive(Clone, Copy, Debug, PartialEq, Eq)]
pub enum ConversionErrorKind {
    /// The literal is of the kind, and a unit of its inside is malformed: what is wrong with the first of these.
    FailedToUnescape(EscapeError),
    /// The literal is of another kind, or has a suffix.
    InvalidLiteralKind,
    /// The literal is of the kind, and memory for its value was refused.
    Memory,
}

impl From<AllocError> for ConversionErrorKind {
    ghost from_gives = { λ _ kind. kind ≡ Memory };

    fn from(_: AllocError) -> ConversionErrorKind {
        ConversionErrorKind::Memory
    }
}

impl From<EscapeError> for ConversionErrorKind {
    ghost from_gives = { λ error kind. kind ≡ FailedToUnescape error };

    fn from(error: EscapeError) -> ConversionErrorKind {
        ConversionErrorKind::FailedToUnescape(error)
    }
}

// The value of a literal that holds such content.
fn value_of<S: Spelling>(
    alloc: Global,
    text: &str,
    content: Content,
) -> Result<S, ConversionErrorKind>
    requires cooked { TakesValues S.takes (cooked content) }
    requires raw { TakesValues S.takes (raw content) }
    ensures value { IfOk result
        (λ out. (values : List Value) × HasValues content (chars text.now) values × S.holds out values) }
    ensures kind { result ≡ Err InvalidLiteralKind ↔ (IsLiteralOf content (chars text.now) → ⊥) }
    ensures malformed { (error : EscapeError) → result ≡ Err (FailedToUnescape error)
        → IsMalformed content (chars text.now) }
    ensures fatal { (error : EscapeError) → result ≡ Err (FailedToUnescape error) → is_fatal error ≡ true }
{
    match quoted(text, content) {
        Some(inside) => spelled::<S>(alloc, inside.mode, inside.text),
        None => Err(ConversionErrorKind::InvalidLiteralKind),
    }
}

/// The value of the text of a string literal, `"..."` or `r#"..."#`: the characters that its units spell.
///
/// In a raw literal each character stands for itself, also a carriage return before a line feed.
///
/// InvalidLiteralKind: it is no string literal, or has a suffix. FailedToUnescape: a unit is malformed, as any other
/// carriage return is that no escape spells or skips. Memory: memory was refused.
#[tactic(auto, using(crate::proofs::Values::texts))]
pub fn str_value(alloc: Global, text: &str) -> Result<String, ConversionErrorKind>
    ensures value { IfOk result (λ value. IsStrValue (chars text.now) (text_of value)) }
    ensures kind { result ≡ Err InvalidLiteralKind ↔ (IsStr (chars text.now) → ⊥) }
    ensures malformed { (error : EscapeError) → result ≡ Err (FailedToUnescape error)
        → IsMalformedStr (chars text.now) }
    ensures fatal { (error : EscapeError) → result ≡ Err (FailedToUnescape error) → is_fatal error ≡ true }
{
    value_of::<String>(alloc, text, Content::Text)
}

/// The value of the text of a byte string literal, `b"..."` or `br#"..."#`: the bytes that its units spell.
///
/// In a raw literal each character stands for itself, also a carriage return before a line feed.
///
/// InvalidLiteralKind: it is no byte string literal, or has a suffix. FailedToUnescape: a unit is malformed, as any
/// other carriage return is that no escape spells or skips. Memory: memory was refused.
#[tactic(auto, using(crate::proofs::Values::byte_values))]
pub fn byte_str_value(alloc: Global, text: &str) -> Result<Vec<u8>, ConversionErrorKind>
    ensures value { IfOk result (λ bytes. IsByteStrValue (chars text.now) bytes.items) }
    ensures kind { result ≡ Err InvalidLiteralKind ↔ (IsByteStr (chars text.now) → ⊥) }
    ensures malformed { (error : EscapeError) → result ≡ Err (FailedToUnescape error)
        → IsMalformedByteStr (chars text.now) }
    ensures fatal { (error : EscapeError) → result ≡ Err (FailedToUnescape error) → is_fatal error ≡ true }
{
    value_of::<Vec<u8>>(alloc, text, Content::Bytes)
}

/// The value of the text of a C string literal, `c"..."` or `cr#"..."#`: the bytes that its units spell, a character's
/// in UTF-8, and behind them one zero.
///
/// In a raw literal each character stands for itself, also a carriage return before a line feed.
///
/// InvalidLiteralKind: it is no C string literal, or has a suffix. FailedToUnescape: a unit is malformed, as any other
/// carriage return is that no escape spells or skips, and a zero. Memory: memory was refused.
pub fn cstr_value(alloc: Global, text: &str) -> Result<Vec<u8>, ConversionErrorKind>
    ensures value { IfOk result (λ bytes. IsCStrValue (chars text.now) bytes.items) }
    ensures kind { result ≡ Err InvalidLiteralKind ↔ (IsCStr (chars text.now) → ⊥) }
    ensures malformed { (error : EscapeError) → result ≡ Err (FailedToUnescape error)
        → IsMalformedCStr (chars text.now) }
    ensures fatal { (error : EscapeError) → result ≡ Err (FailedToUnescape error) → is_fatal error ≡ true }
{
    let mut bytes = value_of::<Vec<u8>>(alloc, text, Content::CText)?;
    bytes.put(Value::Character('\0'))?;
    Ok(bytes)
}

/// The value of the text of a character literal, `'a'`: the character that its one unit spells.
///
/// InvalidLiteralKind: it is no character literal, or has a suffix. FailedToUnescape: its inside is not one unit, as a
/// carriage return, a line feed and a tab are none. It takes no memory.
pub fn char_value(text: &str) -> Result<char, ConversionErrorKind>
    ensures value { IfOk result (IsCharValue (chars text.now)) }
    ensures kind { result ≡ Err InvalidLiteralKind ↔ (IsCharLiteral (chars text.now) → ⊥) }
    ensures malformed { (error : EscapeError) → result ≡ Err (FailedToUnescape error)
        → IsMalformedChar (chars text.now) }
    ensures fatal { (error : EscapeError) → result ≡ Err (FailedToUnescape error) → is_fatal error ≡ true }
    ensures memory { result ≢ Err Memory }
{
    let Some(inside) = single_quoted(text) else {
        return Err(ConversionErrorKind::InvalidLiteralKind);
    };
    match unescape_char(inside) {
        Ok(character) => Ok(character),
        Err(error) => Err(ConversionErrorKind::FailedToUnescape(error)),
    }
}

/// The value of the text of a byte literal, `b'a'`: the byte that its one unit spells.
///
/// InvalidLiteralKind: it is no byte literal, or has a suffix. FailedToUnescape: its inside is not one unit, as a
/// carriage return, a line feed and a tab are none. It takes no memory.
pub fn byte_value(text: &str) -> Result<u8, ConversionErrorKind>
    ensures value { IfOk result (IsByteValue (chars text.now)) }
    ensures kind { result ≡ Err InvalidLiteralKind ↔ (IsByteLiteral (chars text.now) → ⊥) }
    ensures malformed { (error : EscapeError) → result ≡ Err (FailedToUnescape error)
        → IsMalformedByte (chars text.now) }
    ensures fatal { (error : EscapeError) → result ≡ Err (FailedToUnescape error) → is_fatal error ≡ true }
    ensures memory { result ≢ Err Memory }
{
    let Some(inside) = byte_quoted(text) else {
        return Err(ConversionErrorKind::InvalidLiteralKind);
    };
    match unescape_byte(inside) {
        Ok(byte) => Ok(byte),
        Err(error) => Err(ConversionErrorKind::FailedToUnescape(error)),
    }
}

impl Literal {
    /// The value of a string literal, as `str_value` gives it of the printed text.
    ///
    /// InvalidLiteralKind: it is no string literal, or has a suffix. FailedToUnescape: a unit is malformed.
    /// Memory: memory was refused.
    pub fn str_value(&self, alloc: Global) -> Result<String, ConversionErrorKind>
        ensures value { IfOk result (λ text. IsStrValue (literal_text self.now) (text_of text)) }
        ensures kind { result ≡ Err InvalidLiteralKind ↔ (IsStr (literal_text self.now) → ⊥) }
        ensures malformed { (error : EscapeError) → result ≡ Err (FailedToUnescape error)
            → IsMalformedStr (literal_text self.now) }
        ensures fatal { (error : EscapeError) → result ≡ Err (FailedToUnescape error) → is_fatal error ≡ true }
    {
        str_value(alloc, self.as_str())
    }

    /// The value of a byte string literal, as `byte_str_value` gives it of the printed text.
    ///
    /// InvalidLiteralKind: it is no byte string literal, or has a suffix. FailedToUnescape: a unit is malformed.
    /// Memory: memory was refused.
    pub fn byte_str_value(&self, alloc: Global) -> Result<Vec<u8>, ConversionErrorKind>
        ensures value { IfOk result (λ bytes. IsByteStrValue (literal_text self.now) bytes.items) }
        ensures kind { result ≡ Err InvalidLiteralKind ↔ (IsByteStr (literal_text self.now) → ⊥) }
        ensures malformed { (error : EscapeError) → result ≡ Err (FailedToUnescape error)
            → IsMalformedByteStr (literal_text self.now) }
        ensures fatal { (error : EscapeError) → result ≡ Err (FailedToUnescape error) → is_fatal error ≡ true }
    {
        byte_str_value(alloc, self.as_str())
    }

    /// The value of a C string literal, as `cstr_value` gives it of the printed text.
    ///
    /// InvalidLiteralKind: it is no C string literal, or has a suffix. FailedToUnescape: a unit is malformed, or a
    /// zero. Memory: memory was refused.
    pub fn cstr_value(&self, alloc: Global) -> Result<Vec<u8>, ConversionErrorKind>
        ensures value { IfOk result (λ bytes. IsCStrValue (literal_text self.now) bytes.items) }
        ensures kind { result ≡ Err InvalidLiteralKind ↔ (IsCStr (literal_text self.now) → ⊥) }
        ensures malformed { (error : EscapeError) → result ≡ Err (FailedToUnescape error)
            → IsMalformedCStr (literal_text self.now) }
        ensures fatal { (error : EscapeError) → result ≡ Err (FailedToUnescape error) → is_fatal error ≡ true }
    {
        cstr_value(alloc, self.as_str())
    }
}
