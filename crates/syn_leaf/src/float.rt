//! The suffixes of floats: what stands behind their digits, their fraction and their exponent.

ghost use Rattle.rust_lex.specs.Chars as chars;
ghost use Rattle.rust_lex.specs.Number as number;
ghost use Rattle.std.specs.Prelude.{◌≡◌};
ghost use Rattle.std.specs.Str.{chars as characters};
ghost use Rattle.text_chars.specs.Places.{IsFrom, IsPlace, rest_at};

use crate::places::from_place;
use text_chars::{Test, begins, next_char, past};
use unicode_ident::is_xid_start;

struct Digit;

impl Test for Digit {
    ghost test = { chars.is_digit };

    #[tactic(auto, unfolding(rust_lex::specs::Chars::is_digit))]
    fn passes(c: char) -> bool {
        c.is_ascii_digit()
    }
}

struct Line;

impl Test for Line {
    ghost test = { chars.is_underscore };

    fn passes(c: char) -> bool {
        c == '_'
    }
}

struct DigitOrLine;

impl Test for DigitOrLine {
    ghost test = { number.is_digit_or_line };

    fn passes(c: char) -> bool {
        Digit::passes(c) | (c == '_')
    }
}

// What makes the dot before it none of a number.
struct DotOrFirst;

impl Test for DotOrFirst {
    ghost test = { number.is_dot_or_first };

    #[tactic(auto, unfolding(rust_lex::specs::Chars::is_first))]
    fn passes(c: char) -> bool {
        (c == '.') | (is_xid_start(c) | (c == '_'))
    }
}

// The place behind a fraction, if one stands there.
#[tactic(auto, using(text_chars::proofs::Steps::rest_end))]
fn behind_fraction(text: &str, at: usize) -> usize
    requires { IsPlace text.now at }
    ensures rest { rest_at text.now result ≡ number.past_fraction (rest_at text.now at) }
    ensures from { IsFrom text.now at result }
{
    match next_char(text, at) {
        Some(('.', next)) if !begins::<DotOrFirst>(text, next) => past::<DigitOrLine>(text, next),
        _ => at,
    }
}

// The place behind at most one sign.
#[tactic(auto, using(text_chars::proofs::Steps::rest_end))]
fn behind_sign(text: &str, at: usize) -> usize
    requires { IsPlace text.now at }
    ensures rest { rest_at text.now result ≡ number.past_sign (rest_at text.now at) }
    ensures from { IsFrom text.now at result }
{
    match next_char(text, at) {
        Some(('+' | '-', next)) => next,
        _ => at,
    }
}

// The place behind an exponent, if one stands there: its letter, underscores and a sign, and its digits.
#[tactic(auto, using(text_chars::proofs::Steps::rest_end))]
fn behind_exponent(text: &str, at: usize) -> usize
    requires { IsPlace text.now at }
    ensures rest { rest_at text.now result ≡ number.past_exponent (rest_at text.now at) }
    ensures from { IsFrom text.now at result }
{
    let Some(('e' | 'E', next)) = next_char(text, at) else {
        return at;
    };
    let signed = behind_sign(text, past::<Line>(text, next));
    let digits = past::<Line>(text, signed);
    if begins::<Digit>(text, digits) {
        past::<DigitOrLine>(text, digits)
    } else {
        at
    }
}

/// What stands behind a number in decimal, a float or not.
#[tactic(auto, using(text_chars::proofs::Steps::first_place))]
pub(crate) fn suffix(text: &str) -> &str
    ensures { characters result.now ≡ number.past_decimal (characters text.now) }
{
    let fraction = behind_fraction(text, past::<DigitOrLine>(text, 0));
    from_place(text, behind_exponent(text, fraction))
}
