//! Identifiers, and what literals with a prefix begin with.

ghost use Rattle.rust_lex.specs.Ended.{IsOpener, IsRawMark};
ghost use Rattle.rust_lex.specs.Places.{IsPlace, rest_at};
ghost use Rattle.rust_lex.specs.Word as word;
ghost use Rattle.std.specs.Prelude.{◌≡◌};

use crate::walk::{First, Next, QuoteOrHash, Tick, TickOrHash, begins, past};
use rust_escape::Mode;
use text_chars::next_char;

// Whether the identifier at a place is this word.
#[tactic(auto, using(crate::proofs::Steps::words))]
fn begins_word(text: &str, start: usize, name: &[char]) -> bool
    requires { IsPlace text.now start }
    ensures { result ≡ word.begins_word name.now (rest_at text.now start) }
{
    let mut at = start;
    let mut index = 0usize;
    while index < name.len() {
        let Some((c, next)) = next_char(text, at) else {
            return false;
        };
        if c != name[index] {
            return false;
        }
        index += 1;
        at = next;
    }
    !begins::<Next>(text, at)
}

const LINE: [char; 1] = ['_'];

const SUPER: [char; 5] = ['s', 'u', 'p', 'e', 'r'];

const SELF: [char; 4] = ['s', 'e', 'l', 'f'];

const SELF_TYPE: [char; 4] = ['S', 'e', 'l', 'f'];

const CRATE: [char; 5] = ['c', 'r', 'a', 't', 'e'];

// Whether the identifier at a place is never raw.
#[tactic(auto, unfolding(crate::specs::Word::begins_never_raw))]
fn begins_never_raw(text: &str, at: usize) -> bool
    requires { IsPlace text.now at }
    ensures { result ≡ word.begins_never_raw (rest_at text.now at) }
{
    let line = begins_word(text, at, &LINE);
    let upper = begins_word(text, at, &SUPER);
    let this = begins_word(text, at, &SELF);
    let this_type = begins_word(text, at, &SELF_TYPE);
    let root = begins_word(text, at, &CRATE);
    line | (upper | (this | (this_type | root)))
}

// The place behind the mark of a raw identifier.
#[tactic(auto, using(crate::proofs::PlacesLemmas::rest_end))]
#[inline(always)]
pub(crate) fn raw_mark_end(text: &str, at: usize) -> Option<usize>
    requires { IsPlace text.now at }
    ensures { IsRawMark text.now at result }
{
    let Some((c, next)) = next_char(text, at) else {
        return None;
    };
    if c != 'r' {
        return None;
    }
    let Some((d, after)) = next_char(text, next) else {
        return None;
    };
    if d == '#' { Some(after) } else { None }
}

// Whether the name of a raw identifier stands at a place.
pub(crate) fn begins_raw_name(text: &str, at: usize) -> bool
    requires { IsPlace text.now at }
    ensures { result ≡ word.begins_raw_name (rest_at text.now at) }
{
    if begins::<First>(text, at) {
        !begins_never_raw(text, at)
    } else {
        false
    }
}

// Whether a quote that ends at a place is a mark.
#[tactic(auto, unfolding(crate::specs::Word::begins_lifetime))]
pub(crate) fn begins_lifetime(text: &str, at: usize) -> bool
    requires { IsPlace text.now at }
    ensures { result ≡ word.begins_lifetime (rest_at text.now at) }
{
    match raw_mark_end(text, at) {
        Some(name) => {
            let end = past::<Next>(text, name);
            begins_raw_name(text, name) & !begins::<Tick>(text, end)
        }
        None => {
            let end = past::<Next>(text, at);
            begins::<First>(text, at) & !begins::<TickOrHash>(text, end)
        }
    }
}

// The opening of a literal with a prefix, and the place behind it.
#[tactic(auto, using(crate::proofs::Steps::openers))]
#[inline(always)]
pub(crate) fn opener_end(text: &str, at: usize) -> Option<(Mode, usize)>
    requires { IsPlace text.now at }
    ensures { IsOpener text.now at result }
{
    let Some((c, next)) = next_char(text, at) else {
        return None;
    };
    if !((c == 'b') | (c == 'c') | (c == 'r')) {
        return None;
    }
    let Some((d, after)) = next_char(text, next) else {
        return None;
    };
    if c == 'r' {
        return if (d == '"') | (d == '#') {
            Some((Mode::RawStr, next))
        } else {
            None
        };
    }
    let raw = (d == 'r') & begins::<QuoteOrHash>(text, after);
    match c {
        'b' if raw => Some((Mode::RawByteStr, after)),
        'c' if raw => Some((Mode::RawCStr, after)),
        'b' if d == '"' => Some((Mode::ByteStr, after)),
        'c' if d == '"' => Some((Mode::CStr, after)),
        'b' if d == '\'' => Some((Mode::Byte, after)),
        _ => None,
    }
}
