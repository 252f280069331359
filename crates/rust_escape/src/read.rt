//! Reads one unit at a place of an inside.

ghost use Rattle.rust_escape.specs.Chars.{hex_value, is_among, is_blank, is_hex_digit, past};
ghost use Rattle.rust_escape.specs.Escape.{may_hold, may_hold_byte, simple_value};
ghost use Rattle.rust_escape.specs.Error.{is_fatal};
ghost use Rattle.rust_escape.specs.Mode.{holds_bytes, holds_c, in_double_quotes, is_raw};
ghost use Rattle.rust_escape.specs.Places.{IsPlace, IsRead, IsScanned, rest_at};
ghost use Rattle.rust_escape.specs.Reads.{ReadsUnit};
ghost use Rattle.rust_escape.specs.Scan as scan;
ghost use Rattle.rust_escape.specs.Unit.{Strict, barred, is_plain};
ghost use Rattle.rust_escape.specs.Value.{byte_value};
ghost use Rattle.rust_escape.specs.Wrong.{past_byte, past_digits, past_escape, past_unicode, past_wrong};
ghost use Rattle.std.specs.Prelude.{◌∷◌, ◌≡◌, ◌<◌, ◌≤◌, ℕ, List, length, true, false, IfErr, MatchOption, MatchResult};

use crate::error::EscapeError;
use crate::mode::Mode;
use crate::value::Value;
use text_chars::{char_at, next_char};

/// What stands at a place: a unit's value, if it has one, or what is wrong, and the place behind.
#[derive(Clone, Copy, Debug)]
pub struct Reading {
    /// The value of the unit. None: the unit skips.
    pub value: Result<Option<Value>, EscapeError>,
    /// The place behind it, in bytes from 0.
    pub end: usize,
}

// A space, a tab, a line feed, a carriage return.
const BLANKS: [char; 4] = [' ', '\t', '\n', '\r'];

pub(crate) fn refused(error: EscapeError, end: usize) -> Reading
    ensures { result ≡ record { value = Err error; «end» = end } }
{
    Reading {
        value: Err(error),
        end,
    }
}

pub(crate) fn is_bytes(mode: Mode) -> bool
    ensures { result ≡ holds_bytes mode }
{
    matches!(mode, Mode::Byte | Mode::ByteStr | Mode::RawByteStr)
}

pub(crate) fn is_raw(mode: Mode) -> bool
    ensures { result ≡ is_raw mode }
{
    matches!(mode, Mode::RawStr | Mode::RawByteStr | Mode::RawCStr)
}

pub(crate) fn is_c(mode: Mode) -> bool
    ensures { result ≡ holds_c mode }
{
    matches!(mode, Mode::CStr | Mode::RawCStr)
}

// The number that a hexadecimal digit stands for.
#[tactic(auto, unfolding(crate::specs::Chars::is_hex_digit, crate::specs::Chars::hex_value))]
fn hex_value(c: char) -> Option<u32>
    ensures digit { MatchOption result (is_hex_digit c ≡ false) (λ d. (is_hex_digit c ≡ true) × (d ≡ hex_value c)) }
    ensures small { MatchOption result (0 ≤ 0) (λ d. d < 16) }
{
    c.to_digit(16)
}

// The character that stands for a simple escape.
#[tactic(auto, unfolding(crate::specs::Escape::simple_value))]
fn simple_value(c: char) -> Option<char>
    ensures { result ≡ simple_value c }
{
    match c {
        'n' => Some('\n'),
        'r' => Some('\r'),
        't' => Some('\t'),
        '\\' => Some('\\'),
        '0' => Some('\0'),
        '\'' => Some('\''),
        '"' => Some('"'),
        _ => None,
    }
}

// A byte by its number.
fn numbered(mode: Mode, number: u32) -> Result<Option<Value>, EscapeError>
    requires { number < 256 }
    ensures { (rest : List ℕ) → IsRead result rest (scan.numbered mode number rest) }
{
    if is_c(mode) & (number == 0) {
        Err(EscapeError::NulInCStr)
    } else if number < 128 {
        Ok(Some(Value::Character(char::from(number as u8))))
    } else if is_bytes(mode) | is_c(mode) {
        Ok(Some(Value::HighByte(number as u8)))
    } else {
        Err(EscapeError::OutOfRangeHexEscape)
    }
}

// A character by its number.
fn named(mode: Mode, number: u32) -> Result<Option<Value>, EscapeError>
    ensures { (rest : List ℕ) → IsRead result rest (scan.named mode number rest) }
{
    if is_bytes(mode) {
        return Err(EscapeError::UnicodeEscapeInByte);
    }
    match char::from_u32(number) {
        None if number < 0x11_0000 => Err(EscapeError::LoneSurrogateUnicodeEscape),
        None => Err(EscapeError::OutOfRangeUnicodeEscape),
        Some('\0') if is_c(mode) => Err(EscapeError::NulInCStr),
        Some(c) => Ok(Some(Value::Character(c))),
    }
}

// The escape with the one character.
fn simple(mode: Mode, c: char) -> Result<Option<Value>, EscapeError>
    ensures { (rest : List ℕ) → IsRead result rest (scan.simple mode (simple_value c) rest) }
{
    match simple_value(c) {
        None => Err(EscapeError::InvalidEscape),
        Some('\0') if is_c(mode) => Err(EscapeError::NulInCStr),
        Some(d) => Ok(Some(Value::Character(d))),
    }
}

// The escape whose two digits begin at a place.
#[tactic(auto, using(crate::proofs::Steps::bytes))]
fn byte_escape(mode: Mode, text: &str, start: usize) -> Reading
    requires { IsPlace text.now start }
    ensures scanned { IsScanned text.now start result (scan.byte_escape mode (rest_at text.now start)) }
    ensures over { rest_at text.now result.«end» ≡ past_byte (rest_at text.now start) }
{
    let Some((c, next)) = next_char(text, start) else {
        return refused(EscapeError::TooShortHexEscape, start);
    };
    let Some(high) = hex_value(c) else {
        return refused(EscapeError::InvalidCharInHexEscape, next);
    };
    let Some((d, end)) = next_char(text, next) else {
        return refused(EscapeError::TooShortHexEscape, next);
    };
    let Some(low) = hex_value(d) else {
        return refused(EscapeError::InvalidCharInHexEscape, end);
    };
    Reading {
        value: numbered(mode, 16 * high + low),
        end,
    }
}

// What is wrong with more than six digits, the next of which is at a place.
#[tactic(auto, using(crate::proofs::Steps::overs))]
fn overlong(text: &str, start: usize) -> Reading
    requires { IsPlace text.now start }
    ensures scanned { IsScanned text.now start result scan.Malformed }
    ensures over { rest_at text.now result.«end» ≡ past_digits (rest_at text.now start) }
{
    let mut at = start;
    while at < text.len() {
        let (c, next) = char_at(text, at);
        if c == '}' {
            return refused(EscapeError::OverlongUnicodeEscape, next);
        }
        if (c != '_') & hex_value(c).is_none() {
            return refused(EscapeError::InvalidCharInUnicodeEscape, next);
        }
        at = next;
    }
    refused(EscapeError::UnclosedUnicodeEscape, at)
}

// The escape whose digits begin at a place, up to the closing brace.
#[tactic(auto, using(crate::proofs::Steps::spelled))]
fn digits(mode: Mode, text: &str, start: usize) -> Reading
    requires { IsPlace text.now start }
    ensures scanned { IsScanned text.now start result (scan.digits mode 0 0 (rest_at text.now start)) }
    ensures over { rest_at text.now result.«end» ≡ past_digits (rest_at text.now start) }
{
    let mut at = start;
    let mut count = 0u32;
    let mut number = 0u32;
    while at < text.len() {
        let (c, next) = char_at(text, at);
        if c == '}' {
            return Reading {
                value: named(mode, number),
                end: next,
            };
        }
        at = next;
        if c == '_' {
            continue;
        }
        let Some(digit) = hex_value(c) else {
            return refused(EscapeError::InvalidCharInUnicodeEscape, next);
        };
        if count >= 6 {
            return overlong(text, next);
        }
        number = 16 * number + digit;
        count += 1;
    }
    refused(EscapeError::UnclosedUnicodeEscape, at)
}

// The escape whose brace stands at a place.
#[tactic(auto, using(crate::proofs::Steps::unicodes))]
fn unicode_escape(mode: Mode, text: &str, start: usize) -> Reading
    requires { IsPlace text.now start }
    ensures scanned { IsScanned text.now start result (scan.unicode_escape mode (rest_at text.now start)) }
    ensures over { rest_at text.now result.«end» ≡ past_unicode (rest_at text.now start) }
{
    let Some((brace, first)) = next_char(text, start) else {
        return refused(EscapeError::NoBraceInUnicodeEscape, start);
    };
    if brace != '{' {
        return refused(EscapeError::NoBraceInUnicodeEscape, first);
    }
    let Some((c, next)) = next_char(text, first) else {
        return refused(EscapeError::UnclosedUnicodeEscape, first);
    };
    if hex_value(c).is_some() {
        return digits(mode, text, first);
    }
    match c {
        '_' => refused(EscapeError::LeadingUnderscoreUnicodeEscape, next),
        '}' => refused(EscapeError::EmptyUnicodeEscape, next),
        _ => refused(EscapeError::InvalidCharInUnicodeEscape, next),
    }
}

// The escape that stands behind a backslash.
#[tactic(auto, using(crate::proofs::Steps::escapes))]
pub(crate) fn escape(mode: Mode, text: &str, start: usize) -> Reading
    requires { IsPlace text.now start }
    ensures scanned { IsScanned text.now start result (scan.escape mode (rest_at text.now start)) }
    ensures over { rest_at text.now result.«end» ≡ past_escape (rest_at text.now start) }
{
    let Some((c, next)) = next_char(text, start) else {
        return refused(EscapeError::LoneSlash, start);
    };
    match c {
        'x' => byte_escape(mode, text, next),
        'u' => unicode_escape(mode, text, next),
        _ => Reading {
            value: simple(mode, c),
            end: next,
        },
    }
}

pub(crate) fn is_blank(c: char) -> bool
    ensures { result ≡ is_blank c }
{
    BLANKS.contains(&c)
}

// The place behind the blanks.
#[tactic(auto, using(crate::proofs::PlacesLemmas::rest_end))]
fn past_blanks(text: &str, start: usize) -> usize
    requires { IsPlace text.now start }
    ensures rest { rest_at text.now result ≡ past is_blank (rest_at text.now start) }
    ensures place { IsPlace text.now result }
    ensures on { start ≤ result }
{
    let mut at = start;
    while at < text.len() {
        let (c, next) = char_at(text, at);
        if !is_blank(c) {
            return at;
        }
        at = next;
    }
    at
}

// What stands behind a backslash: an escape or a skip.
#[tactic(auto, using(crate::proofs::Steps::slashes))]
fn slash(mode: Mode, text: &str, start: usize) -> Reading
    requires { IsPlace text.now start }
    ensures scanned { IsScanned text.now start result (scan.slash mode (rest_at text.now start)) }
    ensures over { IfErr result.value (λ error. rest_at text.now result.«end» ≡ past_escape (rest_at text.now start)) }
{
    if let Some((c, next)) = next_char(text, start) {
        if (c == '\n') & mode.in_double_quotes() {
            return Reading {
                value: Ok(None),
                end: past_blanks(text, next),
            };
        }
    }
    escape(mode, text, start)
}

// What is wrong with a character that doesn't stand for itself.
fn barred(mode: Mode, c: char) -> Option<EscapeError>
    ensures { MatchOption result (is_among (barred Strict mode) c ≡ false)
        (λ e. (is_among (barred Strict mode) c ≡ true) × (is_fatal e ≡ true)) }
{
    match mode {
        Mode::RawStr | Mode::RawByteStr | Mode::RawCStr => match c {
            '\r' => Some(EscapeError::BareCarriageReturnInRawString),
            _ => None,
        },
        Mode::Char | Mode::Byte => match c {
            '\r' => Some(EscapeError::BareCarriageReturn),
            '\t' | '\n' | '\'' => Some(EscapeError::EscapeOnlyChar),
            '\\' => Some(EscapeError::LoneSlash),
            _ => None,
        },
        Mode::Str | Mode::ByteStr | Mode::CStr => match c {
            '\r' => Some(EscapeError::BareCarriageReturn),
            '"' => Some(EscapeError::EscapeOnlyChar),
            '\\' => Some(EscapeError::LoneSlash),
            _ => None,
        },
    }
}

// One character that may stand for itself.
fn plain(mode: Mode, c: char) -> Result<Option<Value>, EscapeError>
    ensures { (rest : List ℕ) → IsRead result rest (scan.one mode c rest) }
{
    if let Some(error) = barred(mode, c) {
        return Err(error);
    }
    if is_c(mode) & (c == '\0') {
        Err(EscapeError::NulInCStr)
    } else if is_bytes(mode) & (c >= '\u{80}') {
        Err(EscapeError::NonAsciiCharInByte)
    } else {
        Ok(Some(Value::Character(c)))
    }
}

// The unit at a place of an inside.
pub(crate) fn scanned_unit(mode: Mode, text: &str, start: usize) -> Reading
    requires place { IsPlace text.now start }
    requires more { start < length text.now }
    ensures scanned { IsScanned text.now start result (scan.scan mode (rest_at text.now start)) }
    ensures over { IfErr result.value
        (λ error. rest_at text.now result.«end» ≡ past_wrong mode (rest_at text.now start)) }
    ensures behind { start < result.«end» }
{
    let (c, next) = char_at(text, start);
    if (c == '\\') & !is_raw(mode) {
        return slash(mode, text, next);
    }
    Reading {
        value: plain(mode, c),
        end: next,
    }
}

/// The unit that stands at a place of an inside, or what is wrong there, by the rule of the calls.
///
/// The place is in bytes from 0, before the text's end.
#[tactic(auto, using(crate::proofs::ReadsLemmas::reads_unit))]
pub fn unit(mode: Mode, text: &str, start: usize) -> Reading
    requires place { IsPlace text.now start }
    requires more { start < length text.now }
    ensures { ReadsUnit Strict mode text.now start result }
{
    scanned_unit(mode, text, start)
}
