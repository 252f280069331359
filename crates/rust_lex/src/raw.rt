//! Where raw strings end.

ghost use Rattle.rust_lex.specs.Ended.{IsEnd};
ghost use Rattle.rust_lex.specs.Places.{IsPlace, rest_at};
ghost use Rattle.rust_lex.specs.QuotedScan as quoted;
ghost use Rattle.std.specs.Prelude.{◌≡◌};

use crate::walk::{Feed, begins};
use rust_escape::Mode;
use rust_escape::lexical::{Common, is_plain};
use text_chars::{char_at, next_char, past_blocks};

// Whether a character may stand in a raw string before a place.
#[inline(always)]
fn stands(text: &str, c: char, next: usize, mode: Mode) -> bool
    requires { IsPlace text.now next }
    ensures { result ≡ quoted.stands mode c (rest_at text.now next) }
{
    if is_plain(mode, c) {
        return true;
    }
    (c == '\r') & begins::<Feed>(text, next)
}

// The place behind as many `#`.
#[tactic(auto, using(crate::proofs::Steps::marks))]
fn marks_end(text: &str, start: usize, count: usize) -> Option<usize>
    requires { IsPlace text.now start }
    ensures { IsEnd text.now start result (quoted.past_marks count (rest_at text.now start)) }
{
    let mut at = start;
    let mut left = count;
    while left > 0 {
        let Some((c, next)) = next_char(text, at) else {
            return None;
        };
        if c != '#' {
            return None;
        }
        left -= 1;
        at = next;
    }
    Some(at)
}

// The place behind the end of a raw string, its opening quote having been read.
#[tactic(auto, using(crate::proofs::Steps::raws, crate::proofs::Quiet::raw_behind))]
fn raw_end(text: &str, start: usize, mode: Mode, count: usize) -> Option<usize>
    requires { IsPlace text.now start }
    ensures { IsEnd text.now start result (quoted.past_raw mode count (rest_at text.now start)) }
{
    let mut at = past_blocks::<Common>(text, start);
    while at < text.len() {
        let (c, next) = char_at(text, at);
        if c == '"' {
            if let Some(end) = marks_end(text, next, count) {
                return Some(end);
            }
        }
        if !stands(text, c, next, mode) {
            return None;
        }
        at = next;
        if c == '\n' {
            at = past_blocks::<Common>(text, at);
        }
    }
    None
}

// The place behind a raw string, its `r` having been read.
#[tactic(auto, using(crate::proofs::Steps::hashes))]
pub(crate) fn hashes_end(text: &str, start: usize, mode: Mode) -> Option<usize>
    requires { IsPlace text.now start }
    ensures { IsEnd text.now start result (quoted.past_hashes mode 0 (rest_at text.now start)) }
{
    let mut at = start;
    let mut count = 0usize;
    while at < text.len() {
        let (c, next) = char_at(text, at);
        if c != '#' {
            if !((c == '"') & (count <= 255)) {
                return None;
            }
            let end = raw_end(text, next, mode, count)?;
            return Some(end);
        }
        count += 1;
        at = next;
    }
    None
}
