//! The numbers that integer literals write.

ghost use Rattle.rust_leaf.specs.Leaf.{literal_text};
ghost use Rattle.rust_lex.specs.Chars.{past};
ghost use Rattle.rust_lex.specs.Number.{base_by, is_digit_of_or_line};
ghost use Rattle.std.specs.Prelude.{◌*◌, ◌+◌, ◌<◌, ◌^◌, ◌≡◌, ◌≤◌, ◌∷◌, ℕ, List, MatchOption};
ghost use Rattle.std.specs.Str.{chars};
ghost use Rattle.syn_leaf.specs.Integers.{int_base, int_digits, int_suffix, int_value, number_from};

use crate::classes::IsInt;
use crate::literal::LitToken;

// A number with one more digit. None: it is past the largest u128.
fn with_digit(number: u128, base: u32, digit: u32) -> Option<u128>
    ensures { MatchOption result (2 ^ 128 ≤ number * base + digit) (λ more. more ≡ number * base + digit) }
{
    number.checked_mul(base as u128)?.checked_add(digit as u128)
}

// The number that digits write, up to what is no digit. None: it is past the largest u128.
fn number(digits: &str, base: u32) -> Option<u128>
    requires low { 2 ≤ base }
    requires high { base ≤ 16 }
    ensures { MatchOption result (2 ^ 128 ≤ number_from base 0 (chars digits.now))
        (λ number. number ≡ number_from base 0 (chars digits.now)) }
{
    let mut number = 0u128;
    let mut rest = digits.chars();
    while let Some(c) = rest.next() {
        if c == '_' {
            continue;
        }
        let Some(digit) = c.to_digit(base) else {
            return Some(number);
        };
        number = with_digit(number, base, digit)?;
    }
    Some(number)
}

// The base of a number that begins with these characters: 0 where they are no prefix.
fn base_by(first: char, second: char) -> u32
    ensures value { result ≡ base_by first second }
    ensures low { (result ≡ 0 → ⊥) → 2 ≤ result }
    ensures high { result ≤ 16 }
{
    if first != '0' {
        return 0;
    }
    match second {
        'x' => 16,
        'o' => 8,
        'b' => 2,
        _ => 0,
    }
}

// The base of a number, and what stands behind its prefix.
#[tactic(auto, using(crate::proofs::Digits::splits))]
fn split(text: &str) -> (u32, &str)
    ensures base { result.0 ≡ int_base (chars text.now) }
    ensures digits { chars result.1.now ≡ int_digits (chars text.now) }
    ensures low { 2 ≤ result.0 }
    ensures high { result.0 ≤ 16 }
{
    let mut rest = text.chars();
    let Some(first) = rest.next() else {
        return (10, text);
    };
    let Some(second) = rest.next() else {
        return (10, text);
    };
    let base = base_by(first, second);
    if base == 0 {
        return (10, text);
    }
    (base, rest.as_str())
}

// What stands behind digits and underscores.
fn behind_digits(digits: &str, base: u32) -> &str
    requires low { 2 ≤ base }
    requires high { base ≤ 16 }
    ensures { chars result.now ≡ past (is_digit_of_or_line base) (chars digits.now) }
{
    let mut left = digits;
    let mut rest = digits.chars();
    while let Some(c) = rest.next() {
        if !(c.is_digit(base) | (c == '_')) {
            return left;
        }
        left = rest.as_str();
    }
    left
}

/// What stands behind the digits of an integer.
#[tactic(auto, unfolding(crate::specs::Integers::int_suffix))]
pub(crate) fn suffix(text: &str) -> &str
    ensures { chars result.now ≡ int_suffix (chars text.now) }
{
    let (base, digits) = split(text);
    behind_digits(digits, base)
}

#[tactic(auto, unfolding(crate::specs::Integers::int_value))]
impl LitToken<IsInt> {
    /// The number that its digits write in their base: 16, 8 or 2 behind `0x`, `0o` or `0b`, else 10. None: it is
    /// past the largest `u128`. The suffix says nothing.
    pub fn value(&self) -> Option<u128>
        ensures { MatchOption result (2 ^ 128 ≤ int_value (literal_text self.now.token))
            (λ number. number ≡ int_value (literal_text self.now.token)) }
    {
        let (base, digits) = split(self.token().as_str());
        number(digits, base)
    }

    // What stands behind its digits.
    pub(crate) fn behind_digits(&self) -> &str
        ensures { chars result.now ≡ int_suffix (literal_text self.now.token) }
    {
        suffix(self.token().as_str())
    }
}
