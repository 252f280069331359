//! Texts of literals.

ghost use Rattle.std.specs.Prelude.{◌*◌, ◌+◌, ◌<◌, ◌≡◌, ◌≤◌, ◌∷◌, ◌⊎◌, [], IfNone, IfSome, false, length, nat_lt};
ghost use Rattle.std.specs.Prelude.{option_map, true};
ghost use Rattle.reader_tokens.specs.Texts.{Reads};
ghost use Rattle.std.specs.Str.{chars};
ghost use Rattle.syn_grammar.specs.Words.{are_indices, based_number, before_dot, behind_dots, digit, ends_in_dot};
ghost use Rattle.syn_grammar.specs.Words.{indices_to_dot, integer};
ghost use Rattle.syn_grammar.specs.Words.{is_below, is_digit, is_index, is_number, is_string, last_is_dot};
ghost use Rattle.syn_grammar.specs.Words.{number_behind};

/// The first character of a text, and what is left behind it; none of no text.
#[tactic(auto, using(crate::proofs::Characters::first_so, crate::proofs::Characters::none_left))]
pub fn first_char(text: &str) -> Option<(char, &str)>
    ensures some { IfSome result (λ r. chars text.now ≡ r.0 ∷ chars r.1.now) }
    ensures shorter { IfSome result (λ r. length r.1.now < length text.now) }
    ensures none { IfNone result (chars text.now ≡ []) }
{
    let mut rest = text.chars();
    let first = rest.next()?;
    Some((first, rest.as_str()))
}

/// Whether it is a number.
#[tactic(auto, unfolding(syn_grammar::specs::Words::is_number))]
pub(crate) fn is_number(text: &str) -> bool
    ensures { result ≡ is_number (chars text.now) }
{
    match first_char(text) {
        Some((first, _)) => '0' <= first && first <= '9',
        None => false,
    }
}

/// Whether it is a string literal.
#[tactic(auto, unfolding(syn_grammar::specs::Words::is_string))]
pub(crate) fn is_string(text: &str) -> bool
    ensures { result ≡ is_string (chars text.now) }
{
    match first_char(text) {
        Some((first, _)) => first == '"' || first == 'r',
        None => false,
    }
}

// The digit that a character is; 16 for none.
fn digit(character: char) -> u32
    ensures { result ≡ digit character }
{
    if '0' <= character && character <= '9' {
        character as u32 - 48
    } else if 'a' <= character && character <= 'f' {
        character as u32 - 87
    } else if 'A' <= character && character <= 'F' {
        character as u32 - 55
    } else {
        16
    }
}

// A number with one more digit: none where the character is no digit of the base, or the number is too large.
fn with_digit(number: u32, base: u32, character: char) -> Option<u32>
    ensures some { IfSome result (λ more. nat_lt (digit character) base ≡ true) }
    ensures value { IfSome result (λ more. more ≡ number * base + digit character) }
    ensures none { IfNone result ((nat_lt (digit character) base ≡ false)
        ⊎ (4294967296 ≤ number * base + digit character)) }
{
    let digit = digit(character);
    if digit < base {
        number.checked_mul(base)?.checked_add(digit)
    } else {
        None
    }
}

// The number that digits of a base write, underscores among them, up to a dot, and what is left from there: none where
// one is no digit, or the number is too large.
#[tactic(auto, using(crate::proofs::Dots::number_laws))]
fn number(digits: &str, base: u32) -> Option<(u32, &str)>
    requires { 1 ≤ base }
    ensures reads { Reads (number_behind base 0 (before_dot (chars digits.now))) (chars digits.now)
        (option_map (λ r. (r.0, chars r.1.now)) result) }
    ensures shorter { IfSome result (λ r. length r.1.now ≤ length digits.now) }
{
    let mut number = 0u32;
    let mut rest = digits;
    while let Some((character, behind)) = first_char(rest) {
        if character == '.' {
            return Some((number, rest));
        }
        if character != '_' {
            number = with_digit(number, base, character)?;
        }
        rest = behind;
    }
    Some((number, rest))
}

// The same behind the digit 0.
#[tactic(auto, using(crate::proofs::Dots::based_laws))]
fn based(rest: &str) -> Option<(u32, &str)>
    ensures reads { Reads (based_number (before_dot (chars rest.now))) (chars rest.now)
        (option_map (λ r. (r.0, chars r.1.now)) result) }
    ensures shorter { IfSome result (λ r. length r.1.now ≤ length rest.now) }
{
    let Some((first, behind)) = first_char(rest) else {
        return Some((0, rest));
    };
    match first {
        'x' => number(behind, 16),
        'o' => number(behind, 8),
        'b' => number(behind, 2),
        '.' => Some((0, rest)),
        _ => number(rest, 10),
    }
}

/// The number that an unsuffixed integer below 2 ^ 32 writes, up to a dot, and what is left from there: none where the
/// text up to there is no such integer.
#[tactic(auto, using(crate::proofs::Dots::integer_laws))]
pub fn integer(text: &str) -> Option<(u32, &str)>
    ensures reads { Reads (integer (before_dot (chars text.now))) (chars text.now)
        (option_map (λ r. (r.0, chars r.1.now)) result) }
    ensures shorter { IfSome result (λ r. length r.1.now ≤ length text.now) }
{
    let (first, behind) = first_char(text)?;
    if first == '.' {
        None
    } else if first == '0' {
        based(behind)
    } else if digit(first) < 10 {
        number(text, 10)
    } else {
        None
    }
}

/// Whether it is an index.
#[tactic(auto, using(crate::proofs::Dots::no_index, crate::proofs::Dots::index_ended, crate::proofs::Dots::index_left))]
pub(crate) fn is_index(text: &str) -> bool
    ensures { result ≡ is_index (chars text.now) }
{
    let Some((_, left)) = integer(text) else {
        return false;
    };
    match first_char(left) {
        Some(_) => false,
        None => true,
    }
}

// Whether the texts behind dots are indices each, but the last one may be empty; a dot stands first, if one does.
#[tactic(auto, using(crate::proofs::Dots::are_behind_laws))]
fn are_behind(left: &str) -> bool
    requires { before_dot (chars left.now) ≡ [] }
    ensures { result ≡ indices_to_dot (behind_dots (chars left.now)) }
{
    let Some((_, behind)) = first_char(left) else {
        return true;
    };
    match first_char(behind) {
        None => true,
        Some(_) => match integer(behind) {
            Some((_, more)) => are_behind(more),
            None => false,
        },
    }
}

/// Whether it is indices with dots between them, and perhaps one behind them.
#[tactic(auto, unfolding(syn_grammar::specs::Words::are_indices), using(crate::proofs::Dots::are_indices_laws))]
pub(crate) fn are_indices(text: &str) -> bool
    ensures { result ≡ are_indices (chars text.now) }
{
    match integer(text) {
        Some((_, left)) => are_behind(left),
        None => false,
    }
}

/// Whether it ends in a dot.
#[tactic(auto, unfolding(syn_grammar::specs::Words::ends_in_dot), using(crate::proofs::Dots::ends_in_dot_laws))]
pub(crate) fn ends_in_dot(text: &str) -> bool
    ensures { result ≡ ends_in_dot (chars text.now) }
{
    let mut is_dot = false;
    let mut rest = text;
    while let Some((character, behind)) = first_char(rest) {
        is_dot = character == '.';
        rest = behind;
    }
    is_dot
}
