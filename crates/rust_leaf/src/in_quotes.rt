//! Literals in quotes, by their values.

ghost use Rattle.rust_leaf.specs.CString.{IsCString, has_zero};
ghost use Rattle.rust_leaf.specs.Escaped.{byte_character_text, byte_string_text, character_text, string_text};
ghost use Rattle.rust_leaf.specs.Leaf.{literal_span, literal_text, text_of};
ghost use Rattle.rust_leaf.specs.Parse.{IsLiteralText};
ghost use Rattle.rust_map.specs.Spans.{call_site};
ghost use Rattle.std.specs.Prelude.{[], ◌++◌, ◌∷◌, ◌≡◌, IfOk, IsFalse};
ghost use Rattle.std.specs.Str.{chars};

use crate::escape::{push_bare, push_byte, push_bytes, push_c_bytes, push_char, push_text};
use crate::literal::Literal;
use crate::text_table::TextTable;
use rust_map::span::Span;
use std::alloc::{AllocError, Global};

// An opening quote with what stands before it, and room for some bytes and a closing quote.
#[tactic(auto, using(crate::proofs::Pushed::first_pushed))]
fn opened(alloc: Global, len: usize, opening: &str) -> Result<String, AllocError>
    ensures { IfOk result (λ out. text_of out ≡ chars opening.now) }
{
    let room = len.saturating_add(opening.len()).saturating_add(1);
    let mut out = String::with_capacity(alloc, room)?;
    out.push_str(opening)?;
    Ok(out)
}

// The literal of a text and its closing quote.
fn closed(text: String, quote: char) -> Result<Literal, AllocError>
    requires { IsLiteralText (text_of text ++ quote ∷ []) }
    ensures text_is { IfOk result (λ literal. literal_text literal ≡ text_of text ++ quote ∷ []) }
    ensures span_is { IfOk result (λ literal. literal_span literal ≡ call_site) }
{
    let mut out = text;
    push_bare(&mut out, quote)?;
    Literal::of(out)
}

// The string literal of a text, as it is printed.
#[tactic(auto, using(crate::proofs::Pushed::opening_words, std::proofs::lemmas::Grind::common_steps))]
fn written_string(alloc: Global, text: &str) -> Result<String, AllocError>
    ensures text_is { IfOk result (λ out. text_of out ≡ string_text (chars text.now)) }
    ensures is_literal { IfOk result (λ out. IsLiteralText (text_of out)) }
{
    let mut out = opened(alloc, text.len(), "\"")?;
    push_text(&mut out, text)?;
    push_bare(&mut out, '"')?;
    Ok(out)
}

impl Literal {
    /// The string literal of a text.
    ///
    /// Between the quotes stand `\t \r \n \" \\`; a zero is `\0`, or `\x00` before a digit 0 to 7;
    /// other ASCII controls are `\u{..}` by their number in hex, and past ASCII so are the characters
    /// of the categories Cc, Cf, Cn, Co, Mn, Me, Zl, Zp and Zs. Any other character stands for itself.
    ///
    /// `AllocError`: memory for its text was refused.
    pub fn string(alloc: Global, text: &str) -> Result<Literal, AllocError>
        ensures text_is { IfOk result (λ literal. literal_text literal ≡ string_text (chars text.now)) }
        ensures span_is { IfOk result (λ literal. literal_span literal ≡ call_site) }
    {
        Literal::of(written_string(alloc, text)?)
    }

    /// The same, which shares its text with the leaves of the table that are printed alike.
    ///
    /// `AllocError`: memory for its text, or for the text's place in the table, was refused; what the table keeps
    /// stays.
    pub fn string_in(table: &mut TextTable, text: &str) -> Result<Literal, AllocError>
        ensures text_is { IfOk result (λ literal. literal_text literal ≡ string_text (chars text.now)) }
        ensures span_is { IfOk result (λ literal. literal_span literal ≡ call_site) }
    {
        let written = written_string(table.allocator(), text)?;
        Literal::from_text_in(table, written.as_str(), Span::call_site())
    }

    /// The character literal of a character, which is escaped as in `string`, but for `\'` and a bare `"`.
    ///
    /// `AllocError`: memory for its text was refused.
    #[tactic(auto, using(crate::proofs::Pushed::opening_words, std::proofs::lemmas::Grind::common_steps))]
    pub fn character(alloc: Global, ch: char) -> Result<Literal, AllocError>
        ensures text_is { IfOk result (λ literal. literal_text literal ≡ character_text ch) }
        ensures span_is { IfOk result (λ literal. literal_span literal ≡ call_site) }
    {
        let mut out = opened(alloc, ch.len_utf8(), "'")?;
        push_char(&mut out, '\'', ch, "")?;
        closed(out, '\'')
    }

    /// The byte literal of a byte.
    ///
    /// It stands for itself from the space to `~`, but for `\'` and `\\`; else it is `\t`, `\r`, `\n`,
    /// `\0`, or `\x` and two hex digits, upper case.
    ///
    /// `AllocError`: memory for its text was refused.
    #[tactic(auto, using(crate::proofs::Pushed::opening_words, std::proofs::lemmas::Grind::common_steps))]
    pub fn byte_character(alloc: Global, byte: u8) -> Result<Literal, AllocError>
        ensures text_is { IfOk result (λ literal. literal_text literal ≡ byte_character_text byte) }
        ensures span_is { IfOk result (λ literal. literal_span literal ≡ call_site) }
    {
        let mut out = opened(alloc, 4, "b'")?;
        push_byte(&mut out, b'\'', byte, &[])?;
        closed(out, '\'')
    }

    /// The byte string literal of bytes, each as in `byte_character`, but for `\"` and a bare `'`. A zero
    /// before a digit 0 to 7 is `\x00`.
    ///
    /// `AllocError`: memory for its text was refused.
    #[tactic(auto, using(crate::proofs::Pushed::opening_words, std::proofs::lemmas::Grind::common_steps))]
    pub fn byte_string(alloc: Global, bytes: &[u8]) -> Result<Literal, AllocError>
        ensures text_is { IfOk result (λ literal. literal_text literal ≡ byte_string_text bytes.now) }
        ensures span_is { IfOk result (λ literal. literal_span literal ≡ call_site) }
    {
        let mut out = opened(alloc, bytes.len(), "b\"")?;
        push_bytes(&mut out, b'"', bytes)?;
        closed(out, '"')
    }

    /// The C string literal of bytes, without the zero that ends it. `!bytes.contains(&0)` is the test of
    /// its condition.
    ///
    /// A character of UTF-8 is written as in `string`, and any other byte as `\x` and two hex digits,
    /// upper case.
    ///
    /// `AllocError`: memory for its text was refused.
    #[tactic(auto, using(crate::proofs::Pushed::opening_words, std::proofs::lemmas::Grind::common_steps))]
    pub fn c_string(alloc: Global, bytes: &[u8]) -> Result<Literal, AllocError>
        requires { IsFalse (has_zero bytes.now) }
        ensures text_is { IfOk result (λ literal. IsCString bytes.now (literal_text literal)) }
        ensures span_is { IfOk result (λ literal. literal_span literal ≡ call_site) }
    {
        let mut out = opened(alloc, bytes.len(), "c\"")?;
        push_c_bytes(&mut out, bytes)?;
        closed(out, '"')
    }
}
