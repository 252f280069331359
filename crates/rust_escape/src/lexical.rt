//! Reads the units of an inside by the lexer's rule.

ghost use Rattle.rust_escape.specs.Chars.{begins, is_blank, is_line_feed};
ghost use Rattle.rust_escape.specs.Error.{is_fatal};
ghost use Rattle.rust_escape.specs.LexicalScan.{
  begins_line_end,
  is_common,
  lexical_one,
  lexical_scan,
  lexical_slash,
  past_lines,
};
ghost use Rattle.rust_escape.specs.Mode.{in_double_quotes, is_raw};
ghost use Rattle.rust_escape.specs.Places.{IsPlace, IsScanned, rest_at};
ghost use Rattle.rust_escape.specs.Reads.{IsClosedAt, IsPast, ReadsUnit};
ghost use Rattle.rust_escape.specs.Unit.{Lexical, is_plain, return_value};
ghost use Rattle.std.specs.Prelude.{◌≡◌, ◌<◌, ◌≤◌, false, length, true};

use crate::error::EscapeError;
use crate::mode::Mode;
use crate::read::{Reading, escape, is_blank, is_bytes, is_c, is_raw, refused};
use crate::value::Value;
use text_chars::{Test, char_at, next_char, past_blocks};

#[tactic(auto, using(crate::proofs::PlacesLemmas::rest_end))]
fn begins_line_feed(text: &str, at: usize) -> bool
    requires { IsPlace text.now at }
    ensures { result ≡ begins is_line_feed (rest_at text.now at) }
{
    let Some((c, _)) = next_char(text, at) else {
        return false;
    };
    c == '\n'
}

#[tactic(auto, using(crate::proofs::PlacesLemmas::rest_end))]
fn begins_line_end(text: &str, at: usize) -> bool
    requires { IsPlace text.now at }
    ensures { result ≡ begins_line_end (rest_at text.now at) }
{
    let Some((c, _)) = next_char(text, at) else {
        return false;
    };
    (c == '\n') | (c == '\r')
}

// The place behind spaces, tabs and line ends, if each carriage return stands before a line feed.
#[tactic(auto, using(crate::proofs::LexicalSteps::lines))]
fn past_lines(text: &str, start: usize) -> Option<usize>
    requires { IsPlace text.now start }
    ensures { IsPast text.now start result (past_lines (rest_at text.now start)) }
{
    let mut at = start;
    while at < text.len() {
        let (c, next) = char_at(text, at);
        if !is_blank(c) {
            return Some(at);
        }
        at = next;
        if c != '\r' {
            continue;
        }
        if !begins_line_feed(text, next) {
            return None;
        }
    }
    Some(at)
}

// What stands behind a backslash: an escape or a skip.
#[tactic(auto, using(crate::proofs::LexicalSteps::slashes))]
fn slash(mode: Mode, text: &str, start: usize) -> Reading
    requires { IsPlace text.now start }
    ensures { IsScanned text.now start result (lexical_slash mode (rest_at text.now start)) }
{
    if !mode.in_double_quotes() {
        return escape(mode, text, start);
    }
    if !begins_line_end(text, start) {
        return escape(mode, text, start);
    }
    match past_lines(text, start) {
        Some(end) => Reading {
            value: Ok(None),
            end,
        },
        None => refused(EscapeError::BareCarriageReturn, start),
    }
}

// Whether a character stands for itself in every literal: the printable ones of ASCII, but for the double
// quote and the backslash.
#[inline(always)]
fn is_common(c: char) -> bool
    ensures { result ≡ is_common c }
{
    if (c < ' ') | (c > '~') {
        return false;
    }
    (c != '"') & (c != '\\')
}

/// The characters that stand for themselves in every literal, as a test.
pub struct Common;

impl Test for Common {
    ghost test = { is_common };

    #[inline(always)]
    fn passes(c: char) -> bool {
        is_common(c)
    }

    #[inline(always)]
    fn passes_byte(byte: u8) -> bool {
        ((b' ' <= byte) & (byte <= b'~')) & ((byte != b'"') & (byte != b'\\'))
    }
}

/// Whether a character may stand for itself in an inside, by the rule of the lexer.
#[tactic(auto, using(crate::proofs::Commons::commons))]
#[inline(always)]
pub fn is_plain(mode: Mode, c: char) -> bool
    ensures { result ≡ is_plain Lexical mode c }
{
    if is_common(c) {
        return true;
    }
    match mode {
        Mode::Char => c != '\\',
        Mode::Byte => (c != '\\') & (c < '\u{80}'),
        Mode::Str => (c != '\\') & (c != '"') & (c != '\r'),
        Mode::ByteStr => (c != '\\') & (c != '"') & (c != '\r') & (c < '\u{80}'),
        Mode::CStr => (c != '\\') & (c != '"') & (c != '\r') & (c != '\0'),
        Mode::RawStr => c != '\r',
        Mode::RawByteStr => (c != '\r') & (c < '\u{80}'),
        Mode::RawCStr => (c != '\r') & (c != '\0'),
    }
}

// The value of a carriage return before a line feed.
fn return_value(mode: Mode) -> Option<Value>
    ensures { result ≡ return_value mode }
{
    if is_raw(mode) {
        Some(Value::Character('\r'))
    } else {
        None
    }
}

// What is wrong with a character that can't stand for itself.
fn fault_of(mode: Mode, c: char) -> EscapeError
    ensures { is_fatal result ≡ true }
{
    match c {
        '\r' if is_raw(mode) => EscapeError::BareCarriageReturnInRawString,
        '\r' => EscapeError::BareCarriageReturn,
        '\\' | '"' => EscapeError::EscapeOnlyChar,
        '\0' => EscapeError::NulInCStr,
        _ => EscapeError::NonAsciiCharInByte,
    }
}

// One character, behind which `next` is.
fn one(mode: Mode, text: &str, c: char, next: usize) -> Reading
    requires { IsPlace text.now next }
    ensures { IsScanned text.now next result (lexical_one mode c (rest_at text.now next)) }
{
    if is_plain(mode, c) {
        return Reading {
            value: Ok(Some(Value::Character(c))),
            end: next,
        };
    }
    if (c == '\r') & (mode.in_double_quotes() & begins_line_feed(text, next)) {
        return Reading {
            value: Ok(return_value(mode)),
            end: next,
        };
    }
    refused(fault_of(mode, c), next)
}

// The unit at a place of an inside.
fn scanned_unit(mode: Mode, text: &str, start: usize) -> Reading
    requires place { IsPlace text.now start }
    requires more { start < length text.now }
    ensures scanned { IsScanned text.now start result (lexical_scan mode (rest_at text.now start)) }
    ensures behind { start < result.«end» }
{
    let (c, next) = char_at(text, start);
    if (c == '\\') & !is_raw(mode) {
        return slash(mode, text, next);
    }
    one(mode, text, c, next)
}

/// The unit that stands at a place of an inside, or what is wrong there, by the rule of the lexer.
///
/// The place is in bytes from 0, before the text's end. Which error a malformed unit gives isn't
/// promised.
#[tactic(auto, using(crate::proofs::ReadsLemmas::reads_lexical))]
pub fn lexical_unit(mode: Mode, text: &str, start: usize) -> Reading
    requires place { IsPlace text.now start }
    requires more { start < length text.now }
    ensures { ReadsUnit Lexical mode text.now start result }
{
    scanned_unit(mode, text, start)
}

/// The place of the quote that closes the inside of a literal in double quotes, not a raw one, that
/// begins at a place. None: there is no such quote, or something malformed stands before it.
///
/// Both places are in bytes from 0.
pub fn inside_end(mode: Mode, text: &str, start: usize) -> Option<usize>
    requires { IsPlace text.now start }
    ensures { IsClosedAt mode text.now start result }
{
    let mut at = past_blocks::<Common>(text, start);
    while at < text.len() {
        let (c, next) = char_at(text, at);
        if c == '"' {
            return Some(at);
        }
        if is_plain(mode, c) {
            at = next;
            continue;
        }
        let reading = lexical_unit(mode, text, at);
        match reading.value {
            Ok(_) => at = past_blocks::<Common>(text, reading.end),
            Err(_) => return None,
        }
    }
    None
}
