//! The character at a place of a text.

ghost use Rattle.std.specs.Char.{len_utf8};
ghost use Rattle.std.specs.Prelude.{◌∷◌, ◌≡◌, ◌+◌, ◌<◌, length};
ghost use Rattle.text_chars.specs.Places.{IsBehind, IsNext, IsPlace, rest_at};

/// The character at a place of a text, and the place behind it, both in bytes from 0. The place has to lie before the
/// text's end.
#[inline(always)]
pub fn char_at(text: &str, at: usize) -> (char, usize)
    requires place { IsPlace text.now at }
    requires more { at < length text.now }
    ensures rest { rest_at text.now at ≡ result.0 ∷ rest_at text.now result.1 }
    ensures behind { IsBehind text.now at result.1 }
    ensures next { result.1 ≡ at + len_utf8 result.0 }
{
    let byte = text.as_bytes()[at];
    if byte < 128 {
        (char::from(byte), at + 1)
    } else {
        wide_at(text, at)
    }
}

fn wide_at(text: &str, at: usize) -> (char, usize)
    requires place { IsPlace text.now at }
    requires more { at < length text.now }
    ensures rest { rest_at text.now at ≡ result.0 ∷ rest_at text.now result.1 }
    ensures behind { IsBehind text.now at result.1 }
    ensures next { result.1 ≡ at + len_utf8 result.0 }
{
    let rest = &text[at..];
    match rest.chars().next() {
        Some(c) => (c, at + c.len_utf8()),
        None => unreachable!(),
    }
}

/// The character at a place of a text, and the place behind it, both in bytes from 0. None: the text ends there.
#[tactic(auto, using(crate::proofs::Steps::rest_end))]
#[inline(always)]
pub fn next_char(text: &str, at: usize) -> Option<(char, usize)>
    requires { IsPlace text.now at }
    ensures { IsNext text.now at result }
{
    if at >= text.len() {
        return None;
    }
    Some(char_at(text, at))
}
