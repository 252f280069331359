//! Where numbers end.

ghost use Rattle.rust_lex.specs.Chars as chars;
ghost use Rattle.rust_lex.specs.Number as number;
ghost use Rattle.rust_lex.specs.Ended.{IsEnd, IsFrom, IsNumberEnd};
ghost use Rattle.rust_lex.specs.Places.{IsPlace, rest_at};
ghost use Rattle.std.specs.Prelude.{◌≡◌, ◌≤◌, ◌||◌};

use crate::piece::LiteralKind;
use crate::walk::{Digit, DigitOrLine, DotOrFirst, Underscore, begins, past, past_long};
use text_chars::{char_at, next_char};

// The place behind at most one sign.
#[tactic(auto, using(crate::proofs::PlacesLemmas::rest_end))]
fn sign_end(text: &str, at: usize) -> usize
    requires { IsPlace text.now at }
    ensures rest { rest_at text.now result ≡ number.past_sign (rest_at text.now at) }
    ensures from { IsFrom text.now at result }
{
    let Some((c, next)) = next_char(text, at) else {
        return at;
    };
    if (c == '+') | (c == '-') { next } else { at }
}

// The place behind what may stand between the letter and the first digit of an exponent.
fn lead_end(text: &str, at: usize) -> usize
    requires { IsPlace text.now at }
    ensures rest { rest_at text.now result ≡ number.past_lead (rest_at text.now at) }
    ensures from { IsFrom text.now at result }
{
    let signed = past::<Underscore>(text, at);
    let unsigned = sign_end(text, signed);
    past::<Underscore>(text, unsigned)
}

#[tactic(auto, using(crate::proofs::PlacesLemmas::rest_end))]
fn begins_fraction(text: &str, at: usize) -> bool
    requires { IsPlace text.now at }
    ensures { result ≡ number.begins_fraction (rest_at text.now at) }
{
    let Some((c, next)) = next_char(text, at) else {
        return false;
    };
    (c == '.') & !begins::<DotOrFirst>(text, next)
}

#[tactic(auto, using(crate::proofs::PlacesLemmas::rest_end))]
fn begins_exponent(text: &str, at: usize) -> bool
    requires { IsPlace text.now at }
    ensures { result ≡ number.begins_exponent (rest_at text.now at) }
{
    let Some((c, next)) = next_char(text, at) else {
        return false;
    };
    if !((c == 'e') | (c == 'E')) {
        return false;
    }
    let lead = lead_end(text, next);
    begins::<Digit>(text, lead)
}

// The place behind a fraction, if one stands there.
#[tactic(auto, using(crate::proofs::PlacesLemmas::rest_end))]
fn fraction_end(text: &str, at: usize) -> usize
    requires { IsPlace text.now at }
    ensures rest { rest_at text.now result ≡ number.past_fraction (rest_at text.now at) }
    ensures from { IsFrom text.now at result }
{
    let Some((c, next)) = next_char(text, at) else {
        return at;
    };
    if (c == '.') & !begins::<DotOrFirst>(text, next) {
        past_long::<DigitOrLine>(text, next)
    } else {
        at
    }
}

// The place behind an exponent, if one stands there.
#[tactic(auto, using(crate::proofs::PlacesLemmas::rest_end))]
fn exponent_end(text: &str, at: usize) -> usize
    requires { IsPlace text.now at }
    ensures rest { rest_at text.now result ≡ number.past_exponent (rest_at text.now at) }
    ensures from { IsFrom text.now at result }
{
    let Some((c, next)) = next_char(text, at) else {
        return at;
    };
    if !((c == 'e') | (c == 'E')) {
        return at;
    }
    let lead = lead_end(text, next);
    if begins::<Digit>(text, lead) {
        past_long::<DigitOrLine>(text, lead)
    } else {
        at
    }
}

// Whether a number without a prefix is a float, and the place behind it.
fn decimal(text: &str, at: usize) -> (bool, usize)
    requires { IsPlace text.now at }
    ensures float { result.0 ≡ number.is_split (rest_at text.now at) }
    ensures rest { rest_at text.now result.1 ≡ number.past_decimal (rest_at text.now at) }
    ensures from { IsFrom text.now at result.1 }
{
    let digits = past_long::<DigitOrLine>(text, at);
    let float = begins_fraction(text, digits) | begins_exponent(text, digits);
    let fraction = fraction_end(text, digits);
    (float, exponent_end(text, fraction))
}

#[tactic(auto, using(crate::proofs::PlacesLemmas::rest_end))]
fn begins_digit(text: &str, at: usize, base: u32) -> bool
    requires place { IsPlace text.now at }
    requires low { 2 ≤ base }
    requires high { base ≤ 16 }
    ensures { result ≡ chars.begins (number.is_digit_of base) (rest_at text.now at) }
{
    let Some((c, _)) = next_char(text, at) else {
        return false;
    };
    c.is_digit(base)
}

// The place behind the digits of a base and underscores.
#[tactic(auto, using(crate::proofs::PlacesLemmas::rest_end))]
fn digits_end(text: &str, start: usize, base: u32) -> usize
    requires place { IsPlace text.now start }
    requires low { 2 ≤ base }
    requires high { base ≤ 16 }
    ensures rest { rest_at text.now result ≡ chars.past (number.is_digit_of_or_line base) (rest_at text.now start) }
    ensures from { IsFrom text.now start result }
{
    let mut at = start;
    while at < text.len() {
        let (c, next) = char_at(text, at);
        if !(c.is_digit(base) | (c == '_')) {
            return at;
        }
        at = next;
    }
    at
}

// The place behind the digits of an integer, its prefix having been read.
fn based_end(text: &str, at: usize, base: u32) -> Option<usize>
    requires place { IsPlace text.now at }
    requires low { 2 ≤ base }
    requires high { base ≤ 16 }
    ensures { IsEnd text.now at result (number.past_based base (rest_at text.now at)) }
{
    let first = past::<Underscore>(text, at);
    let end = digits_end(text, at, base);
    if begins_digit(text, first, base) & !begins::<Digit>(text, end) {
        Some(end)
    } else {
        None
    }
}

// The base of a prefix, or 0.
fn base_of(c: char, d: char) -> u32
    ensures value { result ≡ number.base_by c d }
    ensures low { (result ≡ 0 → ⊥) → 2 ≤ result }
    ensures high { result ≤ 16 }
{
    if c != '0' {
        return 0;
    }
    match d {
        'x' => 16,
        'o' => 8,
        'b' => 2,
        _ => 0,
    }
}

fn decimal_end(text: &str, at: usize) -> (LiteralKind, usize)
    requires { IsPlace text.now at }
    ensures kind { result.0 ≡ number.decimal_kind (rest_at text.now at) }
    ensures rest { rest_at text.now result.1 ≡ number.past_decimal (rest_at text.now at) }
    ensures from { IsFrom text.now at result.1 }
{
    let (float, end) = decimal(text, at);
    if float {
        (LiteralKind::Float, end)
    } else {
        (LiteralKind::Int, end)
    }
}

// What a number is, and the place behind it.
#[tactic(auto, using(crate::proofs::Steps::numbers))]
pub(crate) fn number_end(text: &str, at: usize) -> Option<(LiteralKind, usize)>
    requires { IsPlace text.now at }
    ensures { IsNumberEnd text.now at result }
{
    let Some((c, next)) = next_char(text, at) else {
        return Some(decimal_end(text, at));
    };
    let Some((d, after)) = next_char(text, next) else {
        return Some(decimal_end(text, at));
    };
    let base = base_of(c, d);
    if base == 0 {
        return Some(decimal_end(text, at));
    }
    let Some(end) = based_end(text, after, base) else {
        return None;
    };
    Some((LiteralKind::Int, end))
}
