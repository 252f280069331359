//! Tests on characters, behind which `text_chars` goes on from a place, and where suffixes end.

ghost use Rattle.rust_lex.specs.Chars as chars;
ghost use Rattle.rust_lex.specs.Comment as comment;
ghost use Rattle.rust_lex.specs.Ends as ends;
ghost use Rattle.rust_lex.specs.Number as number;
ghost use Rattle.rust_lex.specs.Ended.{IsFrom};
ghost use Rattle.rust_lex.specs.Places.{IsPlace, rest_at};
ghost use Rattle.std.specs.Prelude.{◌≡◌};

use text_chars::Test;
pub(crate) use text_chars::{begins, past, past_long, past_many, past_narrow};
use unicode_ident::{is_xid_continue, is_xid_start};

#[tactic(auto, unfolding(crate::specs::Chars::is_first))]
#[inline(always)]
fn is_first(c: char) -> bool
    ensures { result ≡ chars.is_first c }
{
    is_xid_start(c) | (c == '_')
}

// Each character of ASCII that an identifier goes on with stands at its own place, and a dot at every other place.
static NEXTS: [u8; 128] = *b"\
    ................................\
    ................0123456789......\
    .ABCDEFGHIJKLMNOPQRSTUVWXYZ...._\
    .abcdefghijklmnopqrstuvwxyz.....";

#[tactic(auto, using(crate::proofs::Tables::table_next), unfolding(crate::specs::Chars::is_next))]
#[inline(always)]
fn is_next(c: char) -> bool
    ensures { result ≡ chars.is_next c }
{
    if c < '\u{80}' {
        NEXTS[c as usize] != b'.'
    } else {
        is_xid_continue(c)
    }
}

// What an identifier begins with.
pub(crate) struct First;

impl Test for First {
    ghost test = { chars.is_first };

    #[inline(always)]
    fn passes(c: char) -> bool {
        is_first(c)
    }
}

// What an identifier goes on with.
pub(crate) struct Next;

impl Test for Next {
    ghost test = { chars.is_next };

    #[inline(always)]
    fn passes(c: char) -> bool {
        is_next(c)
    }

    #[tactic(auto, using(crate::proofs::Fronts::next_ascii))]
    #[inline(always)]
    fn passes_byte(byte: u8) -> bool {
        let digit = (b'0' <= byte) & (byte <= b'9');
        let upper = (b'A' <= byte) & (byte <= b'Z');
        let lower = (b'a' <= byte) & (byte <= b'z');
        ((digit | upper) | lower) | (byte == b'_')
    }
}

// A character that isn't of ASCII.
pub(crate) struct Wide;

impl Test for Wide {
    ghost test = { chars.is_wide };

    #[inline(always)]
    fn passes(c: char) -> bool {
        c >= '\u{80}'
    }
}

pub(crate) struct NotFeed;

impl Test for NotFeed {
    ghost test = { chars.is_not_feed };

    #[inline(always)]
    fn passes(c: char) -> bool {
        c != '\n'
    }
}

// Neither a line feed nor a carriage return.
pub(crate) struct WithinLine;

impl Test for WithinLine {
    ghost test = { comment.is_within_line };

    #[inline(always)]
    fn passes(c: char) -> bool {
        !((c == '\n') | (c == '\r'))
    }
}

pub(crate) struct Feed;

impl Test for Feed {
    ghost test = { chars.is_line_feed };

    #[inline(always)]
    fn passes(c: char) -> bool {
        c == '\n'
    }
}

pub(crate) struct SlashOrStar;

impl Test for SlashOrStar {
    ghost test = { chars.is_slash_or_star };

    #[inline(always)]
    fn passes(c: char) -> bool {
        (c == '/') | (c == '*')
    }
}

pub(crate) struct QuoteOrHash;

impl Test for QuoteOrHash {
    ghost test = { chars.is_quote_or_hash };

    #[inline(always)]
    fn passes(c: char) -> bool {
        (c == '"') | (c == '#')
    }
}

// What may stand behind the first letter of a prefix of literals, or of the mark of a raw identifier.
pub(crate) struct BehindPrefix;

impl Test for BehindPrefix {
    ghost test = { chars.is_behind_prefix };

    #[inline(always)]
    fn passes(c: char) -> bool {
        ((c == '"') | (c == '#')) | ((c == '\'') | (c == 'r'))
    }
}

pub(crate) struct Tick;

impl Test for Tick {
    ghost test = { chars.is_tick };

    #[inline(always)]
    fn passes(c: char) -> bool {
        c == '\''
    }
}

pub(crate) struct TickOrHash;

impl Test for TickOrHash {
    ghost test = { chars.is_tick_or_hash };

    #[inline(always)]
    fn passes(c: char) -> bool {
        (c == '\'') | (c == '#')
    }
}

pub(crate) struct Digit;

impl Test for Digit {
    ghost test = { chars.is_digit };

    #[tactic(auto, unfolding(crate::specs::Chars::is_digit))]
    #[inline(always)]
    fn passes(c: char) -> bool {
        c.is_ascii_digit()
    }
}

pub(crate) struct Underscore;

impl Test for Underscore {
    ghost test = { chars.is_underscore };

    #[inline(always)]
    fn passes(c: char) -> bool {
        c == '_'
    }
}

pub(crate) struct DigitOrLine;

impl Test for DigitOrLine {
    ghost test = { number.is_digit_or_line };

    #[tactic(auto, unfolding(crate::specs::Chars::is_digit))]
    #[inline(always)]
    fn passes(c: char) -> bool {
        c.is_ascii_digit() | (c == '_')
    }

    #[tactic(auto, unfolding(crate::specs::Chars::is_digit))]
    #[inline(always)]
    fn passes_byte(byte: u8) -> bool {
        ((b'0' <= byte) & (byte <= b'9')) | (byte == b'_')
    }
}

pub(crate) struct DotOrFirst;

impl Test for DotOrFirst {
    ghost test = { number.is_dot_or_first };

    #[inline(always)]
    fn passes(c: char) -> bool {
        (c == '.') | is_first(c)
    }
}

pub(crate) struct Sign;

impl Test for Sign {
    ghost test = { number.is_sign };

    #[inline(always)]
    fn passes(c: char) -> bool {
        (c == '+') | (c == '-')
    }
}

// The place behind the suffix, if there is one.
#[tactic(auto, using(crate::proofs::PlacesLemmas::rest_end))]
pub(crate) fn suffix_end(text: &str, start: usize) -> usize
    requires { IsPlace text.now start }
    ensures rest { rest_at text.now result ≡ ends.past_suffix (rest_at text.now start) }
    ensures from { IsFrom text.now start result }
{
    if begins::<First>(text, start) {
        past_long::<Next>(text, start)
    } else {
        start
    }
}
