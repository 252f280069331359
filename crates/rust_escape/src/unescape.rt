//! Hands the units of an inside to a callback.

ghost use Rattle.rust_escape.specs.Calls.{Reports, TakesUnits, lines_warning, warnings, white_warning};
ghost use Rattle.rust_escape.specs.Chars.{is_line_feed, is_white};
ghost use Rattle.rust_escape.specs.Mode.{ByteStr, CStr, RawByteStr, RawCStr, RawStr, Str};
ghost use Rattle.rust_escape.specs.Places.{IsPlace, between_places, rest_at};
ghost use Rattle.rust_escape.specs.Value.{Character, byte_value, mixed_value};
ghost use Rattle.std.specs.List.{FoldsTo};
ghost use Rattle.std.specs.Prelude.{◌≡◌, ◌<◌, ◌≤◌, [], Err, count_by, nat_lt, length};
ghost use Rattle.std.specs.Str.{chars};

use crate::error::EscapeError;
use crate::mixed_unit::{MixedUnit, NonZeroChar};
use crate::mode::Mode;
use crate::read::scanned_unit;
use crate::unit::Unit;
use std::ops::Range;
use text_chars::char_at;

// The number of line feeds.
fn line_feeds(part: &str) -> usize
    ensures { result ≡ count_by is_line_feed (chars part.now) }
{
    part.chars().filter(|c| *c == '\n').count()
}

#[tactic(auto, unfolding(crate::specs::Chars::is_white))]
fn is_white(c: char) -> bool
    ensures { result ≡ is_white c }
{
    c.is_whitespace()
}

// The text between two places.
fn part(text: &str, start: usize, end: usize) -> &str
    requires start { IsPlace text.now start }
    requires end { IsPlace text.now end }
    requires order { start ≤ end }
    ensures { chars result.now ≡ between_places text.now start end }
{
    &text[start..end]
}

// What a callback is told of a fault.
pub(crate) trait Told: Sized {
    ghost use Rattle.rust_escape.specs.declared.error.EscapeError.{EscapeError};

    ghost told: { EscapeError → Self };

    fn told(error: EscapeError) -> Self
        ensures { result ≡ told error };
}

impl Told for EscapeError {
    ghost told = { λ e. e };

    fn told(error: EscapeError) -> EscapeError {
        error
    }
}

impl<T> Told for Result<T, EscapeError> {
    ghost told = { λ e. Err e };

    fn told(error: EscapeError) -> Result<T, EscapeError> {
        Err(error)
    }
}

// Says of a skip between two places that it passes more than one line feed.
fn warn_of_lines<R: Told, F: FnMut(Range<usize>, R)>(
    text: &str,
    start: usize,
    end: usize,
    callback: &mut F,
)
    requires callable { F.IsAlwaysCallable callback.old }
    requires start { IsPlace text.now start }
    requires end { IsPlace text.now end }
    requires order { start ≤ end }
    ensures callable { F.IsAlwaysCallable callback.new }
    ensures told { FoldsTo (λ f call g. F.step f call.range (R.told call.error) tt g) callback.old
        (lines_warning start end (between_places text.now start end)) callback.new }
{
    if line_feeds(part(text, start, end)) > 1 {
        callback(
            start..end,
            R::told(EscapeError::MultipleSkippedLinesWarning),
        );
    }
}

// Says of a skip between two places that white space follows it.
#[tactic(auto, using(crate::proofs::Telling::whites))]
fn warn_of_white<R: Told, F: FnMut(Range<usize>, R)>(
    text: &str,
    start: usize,
    end: usize,
    callback: &mut F,
)
    requires callable { F.IsAlwaysCallable callback.old }
    requires end { IsPlace text.now end }
    ensures callable { F.IsAlwaysCallable callback.new }
    ensures told { FoldsTo (λ f call g. F.step f call.range (R.told call.error) tt g) callback.old
        (white_warning start end (rest_at text.now end)) callback.new }
{
    if end < text.len() {
        let (c, next) = char_at(text, end);
        if is_white(c) {
            callback(
                start..next,
                R::told(EscapeError::UnskippedWhitespaceWarning),
            );
        }
    }
}

// Says of a skip between two places what it warns of.
#[tactic(auto, using(crate::proofs::Telling::folds_on))]
pub(crate) fn warn<R: Told, F: FnMut(Range<usize>, R)>(
    text: &str,
    start: usize,
    end: usize,
    callback: &mut F,
)
    requires callable { F.IsAlwaysCallable callback.old }
    requires start { IsPlace text.now start }
    requires end { IsPlace text.now end }
    requires order { start ≤ end }
    ensures callable { F.IsAlwaysCallable callback.new }
    ensures told { FoldsTo (λ f call g. F.step f call.range (R.told call.error) tt g) callback.old
        (warnings start end (between_places text.now start end) (rest_at text.now end)) callback.new }
{
    warn_of_lines::<R, F>(text, start, end, callback);
    warn_of_white::<R, F>(text, start, end, callback);
}

// Hands the value of each unit, each warning and what is wrong with a malformed unit to the callback.
fn each_unit<T: Unit, F: FnMut(Range<usize>, Result<T, EscapeError>)>(
    text: &str,
    mode: Mode,
    mut callback: F,
)
    requires callable { F.IsAlwaysCallable callback }
    requires takes { TakesUnits T.takes mode }
    ensures { Reports (λ f range said g. F.step f range said tt g) T.spelled mode 0 (chars text.now) callback }
{
    let mut at = 0;
    while at < text.len() {
        let reading = scanned_unit(mode, text, at);
        match reading.value {
            Ok(Some(value)) => callback(at..reading.end, Ok(T::of(value))),
            Ok(None) => warn::<Result<T, EscapeError>, F>(text, at, reading.end, &mut callback),
            Err(error) => callback(at..reading.end, Err(error)),
        }
        at = reading.end;
    }
}

/// Hands each character of a raw string's inside to the callback, with its range in bytes from 0.
///
/// A carriage return is malformed: BareCarriageReturnInRawString.
///
/// The callback has to accept every call; it is called in order. A malformed unit is one character, or a backslash and
/// as much of an escape as stands behind it, with the first character that doesn't go on with it; behind that the calls
/// go on.
#[tactic(auto, using(crate::proofs::Values::takes_texts))]
pub fn check_raw_str<F: FnMut(Range<usize>, Result<char, EscapeError>)>(src: &str, callback: F)
    requires { F.IsAlwaysCallable callback }
    ensures { Reports (λ f range said g. F.step f range said tt g) Character RawStr 0 (chars src.now) callback }
{
    each_unit::<char, F>(src, Mode::RawStr, callback);
}

/// Hands each byte of a raw byte string's inside to the callback, with its range in bytes from 0.
///
/// Malformed are a carriage return (BareCarriageReturnInRawString) and a character that isn't ASCII
/// (NonAsciiCharInByte).
///
/// The callback has to accept every call; it is called in order. A malformed unit is one character, or a backslash and
/// as much of an escape as stands behind it, with the first character that doesn't go on with it; behind that the calls
/// go on.
#[tactic(auto, using(crate::proofs::Values::takes_bytes))]
pub fn check_raw_byte_str<F: FnMut(Range<usize>, Result<u8, EscapeError>)>(src: &str, callback: F)
    requires { F.IsAlwaysCallable callback }
    ensures { Reports (λ f range said g. F.step f range said tt g) byte_value RawByteStr 0 (chars src.now) callback }
{
    each_unit::<u8, F>(src, Mode::RawByteStr, callback);
}

/// Hands each character of a raw C string's inside to the callback, with its range in bytes from 0.
///
/// Malformed are a carriage return (BareCarriageReturnInRawString) and a zero (NulInCStr).
///
/// The callback has to accept every call; it is called in order. A malformed unit is one character, or a backslash and
/// as much of an escape as stands behind it, with the first character that doesn't go on with it; behind that the calls
/// go on.
#[tactic(auto, using(crate::proofs::Values::takes_raw_c))]
pub fn check_raw_c_str<F: FnMut(Range<usize>, Result<NonZeroChar, EscapeError>)>(
    src: &str,
    callback: F,
)
    requires { F.IsAlwaysCallable callback }
    ensures { Reports (λ f range said g. F.step f range said tt g) Character RawCStr 0 (chars src.now) callback }
{
    each_unit::<NonZeroChar, F>(src, Mode::RawCStr, callback);
}

/// Hands the value of each unit of a string's inside to the callback, with its range in bytes from 0.
///
/// A skip has no value, and up to two warnings. Malformed are the quote, a carriage return and what
/// is no escape.
///
/// The callback has to accept every call; it is called in order. A malformed unit is one character, or a backslash and
/// as much of an escape as stands behind it, with the first character that doesn't go on with it; behind that the calls
/// go on.
#[tactic(auto, using(crate::proofs::Values::takes_texts))]
pub fn unescape_str<F: FnMut(Range<usize>, Result<char, EscapeError>)>(src: &str, callback: F)
    requires { F.IsAlwaysCallable callback }
    ensures { Reports (λ f range said g. F.step f range said tt g) Character Str 0 (chars src.now) callback }
{
    each_unit::<char, F>(src, Mode::Str, callback);
}

/// Hands the value of each unit of a byte string's inside to the callback, with its range in bytes
/// from 0.
///
/// A skip has no value, and up to two warnings. Malformed are the quote, a carriage return, what is
/// no escape, and a character that isn't ASCII.
///
/// The callback has to accept every call; it is called in order. A malformed unit is one character, or a backslash and
/// as much of an escape as stands behind it, with the first character that doesn't go on with it; behind that the calls
/// go on.
#[tactic(auto, using(crate::proofs::Values::takes_bytes))]
pub fn unescape_byte_str<F: FnMut(Range<usize>, Result<u8, EscapeError>)>(src: &str, callback: F)
    requires { F.IsAlwaysCallable callback }
    ensures { Reports (λ f range said g. F.step f range said tt g) byte_value ByteStr 0 (chars src.now) callback }
{
    each_unit::<u8, F>(src, Mode::ByteStr, callback);
}

/// Hands the value of each unit of a C string's inside to the callback, with its range in bytes
/// from 0.
///
/// A skip has no value, and up to two warnings. Malformed are the quote, a carriage return, what is
/// no escape, and a zero.
///
/// The callback has to accept every call; it is called in order. A malformed unit is one character, or a backslash and
/// as much of an escape as stands behind it, with the first character that doesn't go on with it; behind that the calls
/// go on.
#[tactic(auto, using(crate::proofs::Values::takes_c))]
pub fn unescape_c_str<F: FnMut(Range<usize>, Result<MixedUnit, EscapeError>)>(
    src: &str,
    callback: F,
)
    requires { F.IsAlwaysCallable callback }
    ensures { Reports (λ f range said g. F.step f range said tt g) mixed_value CStr 0 (chars src.now) callback }
{
    each_unit::<MixedUnit, F>(src, Mode::CStr, callback);
}
