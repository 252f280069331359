//! Where strings, characters and bytes with escapes end.

ghost use Rattle.rust_escape.specs.Mode.{in_double_quotes, is_raw};
ghost use Rattle.rust_lex.specs.Ended.{IsEnd};
ghost use Rattle.rust_lex.specs.Ends as ends;
ghost use Rattle.rust_lex.specs.Places.{IsPlace, rest_at};
ghost use Rattle.rust_lex.specs.QuotedScan as quoted;
ghost use Rattle.std.specs.Prelude.{◌≡◌, false, true};

use rust_escape::Mode;
use rust_escape::lexical::{inside_end, is_plain, lexical_unit};
use text_chars::{char_at, next_char};

// The place behind a string, its opening quote having been read.
#[tactic(auto, using(crate::proofs::Closed::strings))]
pub(crate) fn string_end(text: &str, start: usize, mode: Mode) -> Option<usize>
    requires place { IsPlace text.now start }
    requires quotes { in_double_quotes mode ≡ true }
    requires cooked { is_raw mode ≡ false }
    ensures { IsEnd text.now start result (quoted.past_units mode 0 (rest_at text.now start)) }
{
    let Some(quote) = inside_end(mode, text, start) else {
        return None;
    };
    let (_, next) = char_at(text, quote);
    Some(next)
}

// The place behind one character, if it stands there.
#[tactic(auto, using(crate::proofs::PlacesLemmas::rest_end))]
#[inline(always)]
fn one_end(text: &str, start: usize, sought: char) -> Option<usize>
    requires { IsPlace text.now start }
    ensures { IsEnd text.now start result (ends.past_one sought (rest_at text.now start)) }
{
    let Some((c, next)) = next_char(text, start) else {
        return None;
    };
    if c == sought { Some(next) } else { None }
}

// The place behind one unit.
#[tactic(auto, using(crate::proofs::Closed::units))]
fn unit_end(text: &str, start: usize, mode: Mode) -> Option<usize>
    requires { IsPlace text.now start }
    ensures { IsEnd text.now start result (quoted.past_unit mode (rest_at text.now start)) }
{
    let Some((c, next)) = next_char(text, start) else {
        return None;
    };
    if is_plain(mode, c) {
        return Some(next);
    }
    let unit = lexical_unit(mode, text, start);
    match unit.value {
        Ok(_) => Some(unit.end),
        Err(_) => None,
    }
}

// The place behind a character or a byte, its opening quote having been read.
#[tactic(auto, using(crate::proofs::Closed::characters))]
pub(crate) fn char_end(text: &str, start: usize, mode: Mode) -> Option<usize>
    requires { IsPlace text.now start }
    ensures { IsEnd text.now start result (quoted.past_char mode (rest_at text.now start)) }
{
    let Some(after) = unit_end(text, start, mode) else {
        return None;
    };
    let Some(end) = one_end(text, after, '\'') else {
        return None;
    };
    Some(end)
}
