//! Numbers: those that integer literals without suffix write, and what is computed of them.

ghost use Rattle.std.specs.Prelude.{◌≤◌};

use syn::Sign;

// What digits are counted by.
#[derive(Clone, Copy)]
enum Base {
    // `0b11`
    Binary,
    // `0o17`
    Octal,
    // `19`
    Decimal,
    // `0x1F`
    Hexadecimal,
}

// How many digits a base has.
fn radix(base: Base) -> u32
    ensures least { 2 ≤ result }
    ensures most { result ≤ 36 }
{
    match base {
        Base::Binary => 2,
        Base::Octal => 8,
        Base::Decimal => 10,
        Base::Hexadecimal => 16,
    }
}

// A number with a digit of a base behind it. None where it is no digit, or it overflows.
fn with_digit(number: i128, digit: char, base: Base) -> Option<i128> {
    let radix = radix(base);
    let digit = digit.to_digit(radix)?;
    number
        .checked_mul(i128::from(radix))?
        .checked_add(i128::from(digit))
}

// The number that digits of a base write, underscores among them. None where one is no digit, or it overflows.
fn digits(text: &str, base: Base) -> Option<i128> {
    let mut number = 0i128;
    for c in text.chars() {
        if c != '_' {
            number = with_digit(number, c, base)?;
        }
    }
    Some(number)
}

/// The number that a literal writes, if it is an integer without suffix.
pub(crate) fn written(text: &str) -> Option<i128> {
    if let Some(hexadecimal) = text.strip_prefix("0x") {
        digits(hexadecimal, Base::Hexadecimal)
    } else if let Some(octal) = text.strip_prefix("0o") {
        digits(octal, Base::Octal)
    } else if let Some(binary) = text.strip_prefix("0b") {
        digits(binary, Base::Binary)
    } else {
        digits(text, Base::Decimal)
    }
}

/// What an operator makes of two numbers. None where it is none of `+`, `-`, `*`, `/` and `%`, where it would divide by
/// zero, or where it overflows.
pub(crate) fn computed(left: i128, operator: Sign, right: i128) -> Option<i128> {
    match operator {
        Sign::Plus => left.checked_add(right),
        Sign::Minus => left.checked_sub(right),
        Sign::Star => left.checked_mul(right),
        Sign::Slash => left.checked_div(right),
        Sign::Percent => left.checked_rem(right),
        _ => None,
    }
}
