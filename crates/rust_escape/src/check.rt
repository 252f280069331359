//! Hands what is wrong with an inside to a callback.

ghost use Rattle.rust_escape.specs.Calls.{ChecksOne, Reports, on_faults};
ghost use Rattle.rust_escape.specs.Mode.{in_double_quotes};
ghost use Rattle.std.specs.Prelude.{◌≡◌, false, true};
ghost use Rattle.std.specs.Str.{chars};

use crate::error::EscapeError;
use crate::mode::Mode;
use crate::read::scanned_unit;
use crate::single::single;
use crate::unescape::warn;
use std::ops::Range;

// Hands each warning and what is wrong with a malformed unit to the callback.
fn each_fault<F: FnMut(Range<usize>, EscapeError)>(text: &str, mode: Mode, mut callback: F)
    requires { F.IsAlwaysCallable callback }
    ensures { Reports (on_faults (λ f range error g. F.step f range error tt g)) (λ v. v) mode 0 (chars text.now)
        callback }
{
    let mut at = 0;
    while at < text.len() {
        let reading = scanned_unit(mode, text, at);
        match reading.value {
            Ok(Some(_)) => {}
            Ok(None) => warn::<EscapeError, F>(text, at, reading.end, &mut callback),
            Err(error) => callback(at..reading.end, error),
        }
        at = reading.end;
    }
}

// Hands what is wrong to the callback where the inside isn't one unit.
fn one_fault<F: FnMut(Range<usize>, EscapeError)>(text: &str, mode: Mode, mut callback: F)
    requires callable { F.IsAlwaysCallable callback }
    requires alone { in_double_quotes mode ≡ false }
    ensures { (last : F)
        × ChecksOne (λ f range error g. F.step f range error tt g) mode (chars text.now) callback last }
{
    let read = single(mode, text);
    match read.value {
        Ok(_) => {}
        Err(error) => callback(0..read.end, error),
    }
}

/// Hands what is wrong with an inside of the kind to the callback, with its range in bytes from 0. The callback has to
/// accept every call.
///
/// In double quotes the callback hears each warning and what is wrong with each malformed unit, in
/// order: one character, or a backslash and as much of an escape as stands behind it, with the first
/// character that doesn't go on with it. Of a character or a byte it hears nothing where the inside is
/// one unit, and else once what is wrong.
pub fn check_for_errors<F: FnMut(Range<usize>, EscapeError)>(
    src: &str,
    mode: Mode,
    error_callback: F,
)
    requires { F.IsAlwaysCallable error_callback }
    ensures quoted { in_double_quotes mode ≡ true
        → Reports (on_faults (λ f range error g. F.step f range error tt g)) (λ v. v) mode 0 (chars src.now)
        error_callback }
    ensures alone { in_double_quotes mode ≡ false
        → (last : F)
        × ChecksOne (λ f range error g. F.step f range error tt g) mode (chars src.now) error_callback last }
{
    if mode.in_double_quotes() {
        each_fault(src, mode, error_callback);
    } else {
        one_fault(src, mode, error_callback);
    }
}
