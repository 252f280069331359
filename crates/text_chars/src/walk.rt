//! On from a place of a text behind the characters that pass a test.

ghost use Rattle.std.specs.List.{list_all};
ghost use Rattle.std.specs.Prelude.{◌≡◌, ◌<◌};
ghost use Rattle.text_chars.specs.Chars as chars;
ghost use Rattle.text_chars.specs.Chars.{narrow, or_wide};
ghost use Rattle.text_chars.specs.Places.{IsFrom, IsPassed, IsPlace, rest_at};

use crate::place::{char_at, next_char};

// So many bytes are looked at together.
const BLOCK: usize = 16;

/// A test on characters.
pub trait Test {
    ghost use Rattle.std.specs.Prelude.{ℕ, Bool};

    ghost test: { ℕ → Bool };

    /// Whether a character passes.
    fn passes(c: char) -> bool
        ensures { result ≡ test c };

    /// The same of a byte of ASCII; of another byte it says nothing. Where `passes` looks into tables, one that
    /// only compares lets many bytes be seen at once.
    #[inline(always)]
    fn passes_byte(byte: u8) -> bool
        ensures { byte < 128 → result ≡ test byte }
    {
        Self::passes(char::from(byte))
    }
}

/// Whether a character that passes stands at a place; none does at the text's end.
#[inline(always)]
pub fn begins<T: Test>(text: &str, at: usize) -> bool
    requires { IsPlace text.now at }
    ensures { result ≡ chars.begins T.test (rest_at text.now at) }
{
    let Some((c, _)) = next_char(text, at) else {
        return false;
    };
    T::passes(c)
}

/// The place behind the characters that pass, from a place on: that place where none does.
#[inline(always)]
pub fn past<T: Test>(text: &str, start: usize) -> usize
    requires { IsPlace text.now start }
    ensures rest { rest_at text.now result ≡ chars.past T.test (rest_at text.now start) }
    ensures from { IsFrom text.now start result }
{
    past_by::<T>(text, start, false)
}

/// The same where there may be very many: by blocks behind the first of them, so that it costs nothing more where there
/// are few.
#[inline(always)]
pub fn past_long<T: Test>(text: &str, start: usize) -> usize
    requires { IsPlace text.now start }
    ensures rest { rest_at text.now result ≡ chars.past T.test (rest_at text.now start) }
    ensures from { IsFrom text.now start result }
{
    past_by::<T>(text, start, true)
}

// The loop of both: one character after the other, and whole blocks behind the first where it is told so.
#[tactic(auto, using(crate::proofs::Steps::rest_end, crate::proofs::Blocks::past_behind))]
#[inline(always)]
fn past_by<T: Test>(text: &str, start: usize, by_blocks: bool) -> usize
    requires { IsPlace text.now start }
    ensures rest { rest_at text.now result ≡ chars.past T.test (rest_at text.now start) }
    ensures from { IsFrom text.now start result }
{
    let mut at = start;
    while at < text.len() {
        let (c, next) = char_at(text, at);
        if !T::passes(c) {
            return at;
        }
        at = next;
        if by_blocks && at - start == BLOCK {
            at = past_blocks::<T>(text, at);
        }
    }
    at
}

// Whether a byte is a character of ASCII that passes.
#[tactic(auto, using(crate::proofs::Blocks::narrow_is))]
#[inline(always)]
fn passes_narrow<T: Test>(byte: u8) -> bool
    ensures { result ≡ narrow T.test byte }
{
    byte < 128 && T::passes(char::from(byte))
}

/// The place behind the characters of ASCII that pass, from a place on: that place where none does. Each of them is one
/// byte.
#[tactic(auto, using(crate::proofs::Steps::rest_end, crate::proofs::Blocks::past_stopped))]
#[inline(always)]
pub fn past_narrow<T: Test>(text: &str, start: usize) -> usize
    requires { IsPlace text.now start }
    ensures rest { rest_at text.now result ≡ chars.past (narrow T.test) (rest_at text.now start) }
    ensures from { IsFrom text.now start result }
{
    let bytes = text.as_bytes();
    let mut at = start;
    while at < bytes.len() && passes_narrow::<T>(bytes[at]) {
        at += 1;
    }
    at
}

/// Whether bytes are all characters of ASCII that pass. It looks at each of them, so that many are seen at once.
#[tactic(auto, using(crate::proofs::Blocks::narrow_is))]
#[inline(always)]
pub fn all_pass<T: Test>(bytes: &[u8]) -> bool
    ensures { result ≡ list_all (narrow T.test) bytes.now }
{
    let mut all = true;
    for byte in bytes {
        all &= (*byte < 128) & T::passes_byte(*byte);
    }
    all
}

/// A place behind characters of ASCII that pass, as long as whole blocks of them stand there: many at once.
pub fn past_blocks<T: Test>(text: &str, start: usize) -> usize
    requires { IsPlace text.now start }
    ensures { IsPassed (narrow T.test) text.now start result }
{
    let bytes = text.as_bytes();
    let mut at = start;
    while bytes.len() - at >= BLOCK && all_pass::<T>(&bytes[at..at + BLOCK]) {
        at += BLOCK;
    }
    at
}

/// The place behind the characters that pass, where there are many as a rule: by blocks from the first on.
#[tactic(auto, using(crate::proofs::Blocks::past_behind))]
#[inline(always)]
pub fn past_many<T: Test>(text: &str, start: usize) -> usize
    requires { IsPlace text.now start }
    ensures rest { rest_at text.now result ≡ chars.past T.test (rest_at text.now start) }
    ensures from { IsFrom text.now start result }
{
    let at = past_blocks::<T>(text, start);
    past::<T>(text, at)
}

// Whether a byte is no character of ASCII, or one that passes.
#[inline(always)]
fn passes_or_wide<T: Test>(byte: u8) -> bool
    ensures { result ≡ or_wide T.test byte }
{
    (byte >= 128) | T::passes_byte(byte)
}

// Whether bytes are all so. It looks at each of them, so that many are seen at once.
#[inline(always)]
fn all_pass_or_wide<T: Test>(bytes: &[u8]) -> bool
    ensures { result ≡ list_all (or_wide T.test) bytes.now }
{
    let mut all = true;
    for byte in bytes {
        all &= passes_or_wide::<T>(*byte);
    }
    all
}

/// The place behind the characters that pass or aren't of ASCII, from a place on: that place where none does. It looks
/// at bytes alone, as a byte of ASCII is a character wherever it stands.
pub fn past_bytes<T: Test>(text: &str, start: usize) -> usize
    requires { IsPlace text.now start }
    ensures rest { rest_at text.now result ≡ chars.past (or_wide T.test) (rest_at text.now start) }
    ensures from { IsFrom text.now start result }
{
    let bytes = text.as_bytes();
    let mut at = start;
    while bytes.len() - at >= BLOCK && all_pass_or_wide::<T>(&bytes[at..at + BLOCK]) {
        at += BLOCK;
    }
    while at < bytes.len() && passes_or_wide::<T>(bytes[at]) {
        at += 1;
    }
    at
}
