//! How characters and bytes are written inside quotes.

ghost use Rattle.rust_leaf.specs.CString.{AreWritten};
ghost use Rattle.rust_leaf.specs.Escaped.{begins_octal, by_byte, by_number, escaped, escaped_all, escaped_byte};
ghost use Rattle.rust_leaf.specs.Escaped.{escaped_bytes, is_bare, is_hidden_category, zero_before};
ghost use Rattle.rust_leaf.specs.Leaf.{text_of};
ghost use Rattle.std.specs.Fmt.{digit_glyph, digits};
ghost use Rattle.std.specs.Prelude.{false, true, ◌<◌, ◌≡◌, ◌++◌, ◌∷◌, [], OnOk};
ghost use Rattle.std.specs.Char.{IsScalar, encode_utf8};
ghost use Rattle.std.specs.Prelude.{IfNone, IfSome, List, ℕ};
ghost use Rattle.std.specs.Str.{StartsWithNoChar, chars};

use rust_escape::lexical::Common;
use std::alloc::AllocError;
use text_chars::{char_at, past_many};
use ucd_category::GeneralCategory;

// Whether characters of a category are written by their number.
fn is_hidden_category(category: GeneralCategory) -> bool
    ensures { result ≡ is_hidden_category category }
{
    match category {
        GeneralCategory::Control
        | GeneralCategory::Format
        | GeneralCategory::Unassigned
        | GeneralCategory::PrivateUse
        | GeneralCategory::NonspacingMark
        | GeneralCategory::EnclosingMark
        | GeneralCategory::LineSeparator
        | GeneralCategory::ParagraphSeparator
        | GeneralCategory::SpaceSeparator => true,
        _ => false,
    }
}

// Whether a character stands for itself.
#[tactic(auto, unfolding(crate::specs::Escaped::is_bare))]
fn is_bare(c: char) -> bool
    ensures { result ≡ is_bare c }
{
    if c.is_ascii() {
        !c.is_ascii_control()
    } else {
        !is_hidden_category(GeneralCategory::for_char(c))
    }
}

// Whether a text begins with a digit 0 to 7.
fn begins_octal(text: &str) -> bool
    ensures { result ≡ begins_octal (chars text.now) }
{
    match text.chars().next() {
        Some(c) => ('0' <= c) & (c <= '7'),
        None => false,
    }
}

// Appends a text.
#[tactic(auto, using(crate::proofs::Pushed::word_pushed))]
pub(crate) fn push_word(out: &mut String, word: &str) -> Result<(), AllocError>
    ensures { OnOk result (text_of out.new ≡ text_of out.old ++ chars word.now) }
{
    out.push_str(word)
}

// Appends a character.
#[tactic(auto, using(crate::proofs::Pushed::char_pushed))]
pub(crate) fn push_bare(out: &mut String, c: char) -> Result<(), AllocError>
    ensures { OnOk result (text_of out.new ≡ text_of out.old ++ c ∷ []) }
{
    out.push(c)
}

// Appends a backslash and a letter.
fn push_escape(out: &mut String, letter: char) -> Result<(), AllocError>
    ensures { OnOk result (text_of out.new ≡ text_of out.old ++ 92 ∷ letter ∷ []) }
{
    push_bare(out, '\\')?;
    push_bare(out, letter)
}

// Appends a zero, which stands before a text.
#[tactic(auto, using(crate::proofs::Pushed::zero_words))]
fn push_zero(out: &mut String, octal: bool) -> Result<(), AllocError>
    ensures { OnOk result (text_of out.new ≡ text_of out.old ++ zero_before octal) }
{
    if octal {
        push_word(out, "\\x00")
    } else {
        push_word(out, "\\0")
    }
}

// Appends a number in hex, lower case, without leading zeros.
#[tactic(auto, using(crate::proofs::Pushed::hex_pushed))]
fn push_hex(out: &mut String, n: u32) -> Result<(), AllocError>
    ensures { OnOk result (text_of out.new ≡ text_of out.old ++ digits 16 false n) }
{
    write!(out, "{n:x}")
}

// Appends a character by its number.
#[tactic(auto, unfolding(crate::specs::Escaped::by_number))]
fn push_number(out: &mut String, c: char) -> Result<(), AllocError>
    ensures { OnOk result (text_of out.new ≡ text_of out.old ++ by_number c) }
{
    push_escape(out, 'u')?;
    push_bare(out, '{')?;
    push_hex(out, c as u32)?;
    push_bare(out, '}')
}

// A hex digit, upper case.
fn hex_digit(digit: u8) -> char
    requires { digit < 16 }
    ensures { result ≡ digit_glyph true digit }
{
    if digit < 10 {
        (b'0' + digit) as char
    } else {
        (b'A' + (digit - 10)) as char
    }
}

// Appends a byte by its number.
#[tactic(auto, unfolding(crate::specs::Escaped::by_byte))]
fn push_byte_number(out: &mut String, byte: u8) -> Result<(), AllocError>
    ensures { OnOk result (text_of out.new ≡ text_of out.old ++ by_byte byte) }
{
    push_escape(out, 'x')?;
    push_bare(out, hex_digit(byte / 16))?;
    push_bare(out, hex_digit(byte % 16))
}

// Whether bytes begin with a digit 0 to 7.
fn begins_octal_byte(bytes: &[u8]) -> bool
    ensures { result ≡ begins_octal bytes.now }
{
    match bytes.first() {
        Some(byte) => (b'0' <= *byte) & (*byte <= b'7'),
        None => false,
    }
}

// Appends a byte, which stands before others.
#[tactic(auto, unfolding(crate::specs::Escaped::escaped_byte))]
pub(crate) fn push_byte(
    out: &mut String,
    quote: u8,
    byte: u8,
    next: &[u8],
) -> Result<(), AllocError>
    requires { quote < 128 }
    ensures { OnOk result (text_of out.new ≡ text_of out.old ++ escaped_byte quote byte next.now) }
{
    match byte {
        b'\t' => push_escape(out, 't'),
        b'\n' => push_escape(out, 'n'),
        b'\r' => push_escape(out, 'r'),
        b'\\' => push_escape(out, '\\'),
        _ if byte == quote => push_escape(out, quote as char),
        0 => push_zero(out, begins_octal_byte(next)),
        b' '..=b'~' => push_bare(out, byte as char),
        _ => push_byte_number(out, byte),
    }
}

// Appends a character, which stands before a text.
#[tactic(auto, unfolding(crate::specs::Escaped::escaped))]
pub(crate) fn push_char(
    out: &mut String,
    quote: char,
    c: char,
    next: &str,
) -> Result<(), AllocError>
    ensures { OnOk result (text_of out.new ≡ text_of out.old ++ escaped quote c (chars next.now)) }
{
    match c {
        '\t' => push_escape(out, 't'),
        '\n' => push_escape(out, 'n'),
        '\r' => push_escape(out, 'r'),
        '\\' => push_escape(out, '\\'),
        _ if c == quote => push_escape(out, quote),
        '\0' => push_zero(out, begins_octal(next)),
        _ if is_bare(c) => push_bare(out, c),
        _ => push_number(out, c),
    }
}

/// Appends the characters of a text as they are written between double quotes. Runs of ASCII that stand for themselves
/// are appended at once.
pub(crate) fn push_text(out: &mut String, text: &str) -> Result<(), AllocError>
    ensures { OnOk result (text_of out.new ≡ text_of out.old ++ escaped_all 34 (chars text.now)) }
{
    let mut at = 0usize;
    while at < text.len() {
        let end = past_many::<Common>(text, at);
        if at < end {
            push_word(out, &text[at..end])?;
            at = end;
        } else {
            let (c, next) = char_at(text, at);
            push_char(out, '"', c, &text[next..])?;
            at = next;
        }
    }
    Ok(())
}

/// Appends bytes as they are written between quotes.
pub(crate) fn push_bytes(out: &mut String, quote: u8, bytes: &[u8]) -> Result<(), AllocError>
    requires { quote < 128 }
    ensures { OnOk result (text_of out.new ≡ text_of out.old ++ escaped_bytes quote bytes.now) }
{
    let mut rest = bytes;
    while let Some((byte, next)) = rest.split_first() {
        push_byte(out, quote, *byte, next)?;
        rest = next;
    }
    Ok(())
}

// The character of UTF-8 that begins bytes, and what follows it.
fn first_char(bytes: &[u8]) -> Option<(char, &[u8])>
    ensures scalar { IfSome result (λ first. IsScalar first.0) }
    ensures value { IfSome result (λ first. bytes.now ≡ encode_utf8 first.0 ++ first.1.now) }
    ensures none { IfNone result (StartsWithNoChar bytes.now) }
{
    let most = bytes.len().min(4);
    for len in 1..most + 1 {
        if let Ok(text) = str::from_utf8(&bytes[..len]) {
            let mut chars = text.chars();
            if let Some(c) = chars.next() {
                return Some((c, &bytes[c.len_utf8()..]));
            }
        }
    }
    None
}

/// Appends the bytes of a C string as they are written between quotes.
pub(crate) fn push_c_bytes(out: &mut String, bytes: &[u8]) -> Result<(), AllocError>
    ensures { OnOk result ((inside : List ℕ) × AreWritten bytes.now inside
        × (text_of out.new ≡ text_of out.old ++ inside)) }
{
    let mut rest = bytes;
    while let Some((byte, next)) = rest.split_first() {
        match first_char(rest) {
            Some((c, behind)) => {
                push_char(out, '"', c, "")?;
                rest = behind;
            }
            None => {
                push_byte_number(out, *byte)?;
                rest = next;
            }
        }
    }
    Ok(())
}
