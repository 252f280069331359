//! The piece at a place of a text.

ghost use Rattle.rust_lex.specs.Chars as chars;
ghost use Rattle.rust_lex.specs.Number as number;
ghost use Rattle.rust_lex.specs.Piece.{IsJoint};
ghost use Rattle.rust_lex.specs.Ended.{IsEnd, IsScanned};
ghost use Rattle.rust_lex.specs.Places.{IsBehind, IsNarrowAt, IsPieceAt, IsPlace, IsWhiteAt, rest_at};
ghost use Rattle.rust_lex.specs.Quoted as quoted;
ghost use Rattle.rust_lex.specs.QuotedScan as tails;
ghost use Rattle.rust_lex.specs.Scan as scan;
ghost use Rattle.std.specs.Prelude.{◌∷◌, ◌≡◌, ◌<◌, ◌↔◌, ◌&&◌, ◌==◌, IfSome, IsTrue, is_some, not, true};

use crate::comment::slash;
use crate::cooked::{char_end, string_end};
use crate::front::{Front, front_of, is_narrow_white};
use crate::number::number_end;
use crate::piece::{LiteralKind, NarrowPiece, PieceKind};
use crate::raw::hashes_end;
use crate::walk::{BehindPrefix, Next, SlashOrStar, Wide, begins, past, past_narrow, suffix_end};
use crate::word::{begins_lifetime, begins_raw_name, opener_end, raw_mark_end};
use rust_escape::Mode;
use text_chars::{char_at, next_char};

// The place behind a literal in quotes, whose opening has been read.
fn tail_end(text: &str, start: usize, mode: Mode) -> Option<usize>
    requires { IsPlace text.now start }
    ensures { IsEnd text.now start result (tails.past_tail mode (rest_at text.now start)) }
{
    match mode {
        Mode::Char | Mode::Byte => char_end(text, start, mode),
        Mode::Str | Mode::ByteStr | Mode::CStr => string_end(text, start, mode),
        Mode::RawStr | Mode::RawByteStr | Mode::RawCStr => hashes_end(text, start, mode),
    }
}

fn literal_kind(mode: Mode) -> LiteralKind
    ensures { result ≡ quoted.literal_kind mode }
{
    match mode {
        Mode::Str | Mode::RawStr => LiteralKind::Str,
        Mode::ByteStr | Mode::RawByteStr => LiteralKind::ByteStr,
        Mode::CStr | Mode::RawCStr => LiteralKind::CStr,
        Mode::Byte => LiteralKind::Byte,
        Mode::Char => LiteralKind::Char,
    }
}

// A literal in quotes, whose opening ends at a place.
#[inline(never)]
fn quoted(text: &str, start: usize, at: usize, mode: Mode) -> Option<(PieceKind, usize)>
    requires { IsBehind text.now start at }
    ensures { IsScanned text.now start result
        (scan.suffixed (quoted.literal_kind mode) (tails.past_tail mode (rest_at text.now at))) }
{
    let Some(end) = tail_end(text, at, mode) else {
        return None;
    };
    Some((
        PieceKind::Literal(literal_kind(mode)),
        suffix_end(text, end),
    ))
}

// What a quote begins, which ends at a place.
#[tactic(auto, using(crate::proofs::Scans::ticks))]
#[inline(never)]
fn ticked(text: &str, start: usize, at: usize) -> Option<(PieceKind, usize)>
    requires { IsBehind text.now start at }
    ensures { IsScanned text.now start result (scan.ticked (rest_at text.now at)) }
{
    if let Some(end) = char_end(text, at, Mode::Char) {
        return Some((PieceKind::Literal(LiteralKind::Char), suffix_end(text, end)));
    }
    if begins_lifetime(text, at) {
        return Some((PieceKind::Mark, at));
    }
    None
}

// What `b`, `c` or `r` begins.
#[tactic(auto, using(crate::proofs::Scans::words))]
#[inline(never)]
fn prefixed(text: &str, at: usize, next: usize) -> Option<(PieceKind, usize)>
    requires place { IsPlace text.now at }
    requires behind { IsBehind text.now at next }
    requires first { chars.past chars.is_next (rest_at text.now at) ≡ chars.past chars.is_next (rest_at text.now next) }
    ensures { IsScanned text.now at result (scan.word (rest_at text.now at)) }
{
    if let Some(name) = raw_mark_end(text, at) {
        if begins_raw_name(text, name) {
            return Some((PieceKind::Ident, past::<Next>(text, name)));
        }
    }
    match opener_end(text, at) {
        Some((mode, tail)) => quoted(text, at, tail, mode),
        None => Some((PieceKind::Ident, past::<Next>(text, next))),
    }
}

// Whether a prefix of literals begins with a character.
#[inline(always)]
fn begins_prefix(c: char) -> bool
    ensures { result ≡ chars.begins_prefix c }
{
    (c == 'b') | ((c == 'c') | (c == 'r'))
}

// What a letter or an underscore begins, which ends at a place.
#[inline(always)]
fn word(text: &str, at: usize, c: char, next: usize) -> Option<(PieceKind, usize)>
    requires place { IsPlace text.now at }
    requires is { rest_at text.now at ≡ c ∷ rest_at text.now next }
    requires behind { IsBehind text.now at next }
    requires first { chars.past chars.is_next (rest_at text.now at) ≡ chars.past chars.is_next (rest_at text.now next) }
    ensures { IsScanned text.now at result (scan.word (rest_at text.now at)) }
{
    if begins_prefix(c) {
        return prefixed(text, at, next);
    }
    Some((PieceKind::Ident, past::<Next>(text, next)))
}

// A number, whose first digit stands at a place.
#[tactic(auto, using(crate::proofs::Scans::numbers))]
#[inline(never)]
fn number(text: &str, at: usize) -> Option<(PieceKind, usize)>
    requires place { IsPlace text.now at }
    requires digit { chars.begins chars.is_digit (rest_at text.now at) ≡ true }
    ensures { IsScanned text.now at result
        (scan.suffixed (number.number_kind (rest_at text.now at)) (number.past_number (rest_at text.now at))) }
{
    let Some((kind, end)) = number_end(text, at) else {
        return None;
    };
    Some((PieceKind::Literal(kind), suffix_end(text, end)))
}

// The piece at a place within a text, and the place behind it.
#[tactic(auto, using(crate::proofs::Scans::scans))]
#[inline(always)]
fn scan(text: &str, at: usize) -> Option<(PieceKind, usize)>
    requires { IsPlace text.now at }
    ensures { IsScanned text.now at result (scan.scan (rest_at text.now at)) }
{
    let Some((c, next)) = next_char(text, at) else {
        return None;
    };
    match front_of(c) {
        Front::White => Some((PieceKind::White, next)),
        Front::Opens(delimiter) => Some((PieceKind::Open(delimiter), next)),
        Front::Closes(delimiter) => Some((PieceKind::Close(delimiter), next)),
        Front::Quote => quoted(text, at, next, Mode::Str),
        Front::Tick => ticked(text, at, next),
        Front::Digit => number(text, at),
        Front::First => word(text, at, c, next),
        Front::Mark => {
            if c == '/' {
                slash(text, at, next)
            } else {
                Some((PieceKind::Mark, next))
            }
        }
        Front::Other => None,
    }
}

// The same at any place, the front of the text included.
#[tactic(auto, using(crate::proofs::Scans::fronts))]
#[inline(always)]
fn scan_at(text: &str, at: usize) -> Option<(PieceKind, usize)>
    requires { IsPlace text.now at }
    ensures { IsScanned text.now at result (scan.scan_at at (rest_at text.now at)) }
{
    if at == 0 {
        if text.is_empty() {
            return None;
        }
        let (c, next) = char_at(text, at);
        if c == '\u{feff}' {
            return Some((PieceKind::FrontMark, next));
        }
    }
    scan(text, at)
}

/// The piece of a text at a place, and the place behind it, both in bytes from 0. None: no piece begins there, as at
/// the text's end. A character has to begin there, or the text to end.
pub fn next_piece(text: &str, at: usize) -> Option<(PieceKind, usize)>
    requires { IsPlace text.now at }
    ensures { IsPieceAt text.now at result }
{
    scan_at(text, at)
}

/// The place behind a white character of ASCII that stands at a place of a text, both in bytes from 0:
/// a short way to the commonest pieces. None: no such character stands there. A character has to begin there, or the
/// text to end.
#[tactic(auto, using(crate::proofs::PlacesLemmas::rest_end, crate::proofs::Pieces::white_piece))]
#[inline(always)]
pub fn white_end(text: &str, at: usize) -> Option<usize>
    requires { IsPlace text.now at }
    ensures { IsWhiteAt text.now at result }
{
    let Some((c, next)) = next_char(text, at) else {
        return None;
    };
    if is_narrow_white(c) { Some(next) } else { None }
}

// Whether a mark other than `'` begins with a character, before a place.
#[tactic(auto, using(crate::proofs::Fronts::marking))]
#[inline(always)]
fn begins_mark_but_tick(text: &str, c: char, next: usize) -> bool
    requires { IsPlace text.now next }
    ensures { result ≡ (chars.is_mark_but_tick c
        && not (c == 47 && chars.begins chars.is_slash_or_star (rest_at text.now next))) }
{
    match front_of(c) {
        Front::Mark => (c != '/') | !begins::<SlashOrStar>(text, next),
        _ => false,
    }
}

// Whether a quote that ends at a place is a mark, or begins a character literal.
#[inline(never)]
fn is_mark_or_opening(text: &str, at: usize) -> bool
    requires { IsPlace text.now at }
    ensures { result ≡ scan.is_mark_or_opening (rest_at text.now at) }
{
    begins_lifetime(text, at) || char_end(text, at, Mode::Char).is_some()
}

// Whether a mark other than `'` is joint, which ends at a place.
#[tactic(auto, using(crate::proofs::Scans::joints))]
#[inline(always)]
fn is_joined(text: &str, at: usize) -> bool
    requires { IsPlace text.now at }
    ensures { result ≡ scan.is_joined (rest_at text.now at) }
{
    let Some((c, next)) = next_char(text, at) else {
        return false;
    };
    if c == '\'' {
        return is_mark_or_opening(text, next);
    }
    begins_mark_but_tick(text, c, next)
}

// Whether the mark that stands at a place is joint.
#[tactic(auto, using(crate::proofs::PlacesLemmas::rest_end))]
fn joint(text: &str, at: usize) -> bool
    requires { IsPlace text.now at }
    ensures { result ≡ scan.is_joint (rest_at text.now at) }
{
    let Some((c, next)) = next_char(text, at) else {
        return false;
    };
    (c == '\'') || is_joined(text, next)
}

/// Whether the mark that stands at a place is joint: a `'` always is, another where a mark or a
/// character literal follows it at once. The place is in bytes from 0. A character has to begin there, or the text to
/// end.
pub fn is_joint(text: &str, at: usize) -> bool
    requires { IsPlace text.now at }
    ensures { IsTrue result ↔ IsJoint (rest_at text.now at) }
{
    joint(text, at)
}

// Whether a literal with a prefix or a raw identifier may begin with a character, which ends at a place.
#[inline(always)]
fn may_open(text: &str, c: char, next: usize) -> bool
    requires { IsPlace text.now next }
    ensures { result ≡ scan.may_open c (rest_at text.now next) }
{
    begins_prefix(c) && begins::<BehindPrefix>(text, next)
}

// An identifier of ASCII that begins with a character, unless a literal or a raw identifier may begin so.
#[inline(always)]
fn narrow_word(text: &str, at: usize, c: char, next: usize) -> Option<NarrowPiece>
    requires place { IsPlace text.now at }
    requires is { rest_at text.now at ≡ c ∷ rest_at text.now next }
    requires behind { IsBehind text.now at next }
    requires narrow { c < 128 }
    requires first { scan.front_of c ≡ scan.first }
    ensures found { is_some result ≡ scan.is_common scan.first c (rest_at text.now next) }
    ensures piece { IfSome result (IsNarrowAt text.now at) }
{
    if may_open(text, c, next) {
        return None;
    }
    let end = past_narrow::<Next>(text, next);
    if begins::<Wide>(text, end) {
        return None;
    }
    Some(NarrowPiece::of(PieceKind::Ident, end))
}

/// The piece at a place of a text, which is in bytes from 0, if it is one of the commonest, of ASCII: the mark of a
/// group, a mark other than `'` and `/`, or an identifier that doesn't begin as a literal or a raw identifier may. A
/// character has to begin there, or the text to end.
#[tactic(auto, using(crate::proofs::PlacesLemmas::rest_end))]
#[inline(always)]
pub fn narrow_piece(text: &str, at: usize) -> Option<NarrowPiece>
    requires { IsPlace text.now at }
    ensures found { is_some result ≡ scan.begins_common (rest_at text.now at) }
    ensures piece { IfSome result (IsNarrowAt text.now at) }
{
    let Some((c, next)) = next_char(text, at) else {
        return None;
    };
    if c >= '\u{80}' {
        return None;
    }
    match front_of(c) {
        Front::Opens(marks) => Some(NarrowPiece::of(PieceKind::Open(marks), next)),
        Front::Closes(marks) => Some(NarrowPiece::of(PieceKind::Close(marks), next)),
        Front::First => narrow_word(text, at, c, next),
        Front::Mark if c != '/' => Some(NarrowPiece {
            kind: PieceKind::Mark,
            end: next,
            is_joint: is_joined(text, next),
        }),
        _ => None,
    }
}
