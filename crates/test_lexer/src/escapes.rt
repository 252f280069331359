//! What the escape calls say of the insides of literals: what the callbacks hear, in order, to the inside's end.

use rust_escape::lexical::inside_end;
use rust_escape::{
    EscapeError, MixedUnit, Mode, NonZeroChar, check_for_errors, check_raw_byte_str,
    check_raw_c_str, check_raw_str, unescape_byte, unescape_byte_str, unescape_c_str,
    unescape_char, unescape_str,
};
use std::ops::Range;
use test_support::{Page, Unanswered};

// A unit's value that a callback hears.
trait Value {
    // A character or a byte by its number, and whether it is a byte that is no character.
    fn number(self) -> (u32, bool);
}

impl Value for char {
    fn number(self) -> (u32, bool) {
        (self as u32, false)
    }
}

impl Value for u8 {
    fn number(self) -> (u32, bool) {
        (u32::from(self), false)
    }
}

impl Value for NonZeroChar {
    fn number(self) -> (u32, bool) {
        (self.get() as u32, false)
    }
}

impl Value for MixedUnit {
    fn number(self) -> (u32, bool) {
        match self {
            MixedUnit::Char(c) => (c.get() as u32, false),
            MixedUnit::HighByte(byte) => (u32::from(byte.get()), true),
        }
    }
}

/// What an escape call, by its name and a mode's where it takes one, says of an inside.
pub fn inside(call: &str, text: &str, page: &mut Page) -> Result<(), Unanswered> {
    match call.split_once(' ') {
        Some((call, mode)) => judge(call, mode, text, page),
        None => hear(call, text, page),
    }
}

// What a call of a mode says of an inside.
fn judge(call: &str, mode: &str, text: &str, page: &mut Page) -> Result<(), Unanswered> {
    let Some(mode) = mode_named(mode) else {
        return Err(Unanswered::NoRow);
    };
    match call {
        "check_for_errors" => put_errors(text, mode, page),
        "inside_end" if mode.in_double_quotes() => put_end(text, mode, page),
        "first_words" => put_first_words(text, mode, page),
        _ => return Err(Unanswered::NoRow),
    }
    Ok(())
}

fn mode_named(name: &str) -> Option<Mode> {
    Some(match name {
        "Char" => Mode::Char,
        "Byte" => Mode::Byte,
        "Str" => Mode::Str,
        "RawStr" => Mode::RawStr,
        "ByteStr" => Mode::ByteStr,
        "RawByteStr" => Mode::RawByteStr,
        "CStr" => Mode::CStr,
        "RawCStr" => Mode::RawCStr,
        _ => return None,
    })
}

// Puts what a callback hears; a space stands before it, if it isn't the first.
fn put_heard<T: Value>(
    is_first: &mut bool,
    range: Range<usize>,
    said: Result<T, EscapeError>,
    page: &mut Page,
) {
    let (start, end) = (range.start, range.end);
    page.put(if *is_first { "" } else { " " });
    write!(page, "{start}..{end} ");
    *is_first = false;
    match said {
        Ok(value) => put_value(value.number(), page),
        Err(error) => page.debug(&error),
    }
}

fn put_value(value: (u32, bool), page: &mut Page) {
    let (number, is_byte) = value;
    if is_byte {
        page.put("byte ");
    }
    write!(page, "{number:X}");
}

// What the callback of a call hears.
fn hear(call: &str, text: &str, page: &mut Page) -> Result<(), Unanswered> {
    let mut first = true;
    let whole = 0..text.len();
    match call {
        "unescape_char" => put_heard(&mut first, whole, unescape_char(text), page),
        "unescape_byte" => put_heard(&mut first, whole, unescape_byte(text), page),
        "unescape_str" => unescape_str(text, |at, said| put_heard(&mut first, at, said, page)),
        "unescape_byte_str" => {
            unescape_byte_str(text, |at, said| put_heard(&mut first, at, said, page));
        }
        "unescape_c_str" => unescape_c_str(text, |at, said| put_heard(&mut first, at, said, page)),
        "check_raw_str" => check_raw_str(text, |at, said| put_heard(&mut first, at, said, page)),
        "check_raw_byte_str" => {
            check_raw_byte_str(text, |at, said| put_heard(&mut first, at, said, page));
        }
        "check_raw_c_str" => {
            check_raw_c_str(text, |at, said| put_heard(&mut first, at, said, page));
        }
        _ => return Err(Unanswered::NoRow),
    }
    Ok(())
}

fn put_errors(text: &str, mode: Mode, page: &mut Page) {
    let mut first = true;
    check_for_errors(text, mode, |at, error| {
        put_heard::<char>(&mut first, at, Err(error), page);
    });
}

// Where the inside that begins a text ends to the lexer.
fn put_end(text: &str, mode: Mode, page: &mut Page) {
    match inside_end(mode, text, 0) {
        Some(end) => page.show(&end),
        None => page.put("none"),
    }
}

// What is said of the first thing that is wrong, and whether it is fatal.
fn put_first_words(text: &str, mode: Mode, page: &mut Page) {
    let mut first = None;
    check_for_errors(text, mode, |_, error| {
        if first.is_none() {
            first = Some(error);
        }
    });
    match first {
        Some(error) if error.is_fatal() => page.show(&error),
        Some(error) => write!(page, "warning: {error}"),
        None => page.put("nothing"),
    }
}
