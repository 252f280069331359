//! Literals in quotes, taken apart.

ghost use Rattle.rust_lex.specs.Chars.{is_hash, past};
ghost use Rattle.std.specs.Prelude.{◌++◌, ◌<◌, ◌∷◌, ◌≡◌, IsTrue, List, MatchOption, false, true, ℕ};
ghost use Rattle.std.specs.Str.{chars};
ghost use Rattle.syn_leaf.specs.Kinds.{IsKind};
ghost use Rattle.syn_leaf.specs.Quoted.{HasSuffix, IsFenced, IsTakenApart, has, is_quoted, mode_of, quote_of};

use crate::places::from_place;
use rust_escape::mode::Mode;
use rust_lex::piece::LiteralKind;
use text_chars::{Test, past};

// The text before the first quote, and the text behind it.
fn at_first(text: &str, quote: char) -> Option<(&str, &str)>
    requires { quote < 128 }
    ensures { MatchOption result (has quote (chars text.now) ≡ false)
        (λ r. (chars text.now ≡ chars r.0.now ++ quote ∷ chars r.1.now) × (has quote (chars r.0.now) ≡ false)) }
{
    text.split_once(quote)
}

// The text before the last quote, and the text behind it.
fn at_last(text: &str, quote: char) -> Option<(&str, &str)>
    requires { quote < 128 }
    ensures { MatchOption result (has quote (chars text.now) ≡ false)
        (λ r. (chars text.now ≡ chars r.0.now ++ quote ∷ chars r.1.now) × (has quote (chars r.1.now) ≡ false)) }
{
    text.rsplit_once(quote)
}

// A text up to its first quote, between this and its last one, and behind that.
#[derive(Clone, Copy, Debug)]
struct Fenced<'a> {
    opening: &'a str,
    inside: &'a str,
    closing: &'a str,
}

// The text by its first quote and its last one, of which there are two.
fn between_quotes(text: &str, quote: char) -> Fenced<'_>
    requires ascii { quote < 128 }
    requires there { (opening : List ℕ) × (inside : List ℕ) × (closing : List ℕ)
        × IsFenced quote (chars text.now) opening inside closing }
    ensures { IsFenced quote (chars text.now) (chars result.opening.now) (chars result.inside.now)
        (chars result.closing.now) }
{
    let Some((opening, rest)) = at_first(text, quote) else {
        unreachable!();
    };
    let Some((inside, closing)) = at_last(rest, quote) else {
        unreachable!();
    };
    Fenced {
        opening,
        inside,
        closing,
    }
}

// The quote of a kind.
fn quote_of(kind: LiteralKind) -> char
    ensures quote { result ≡ quote_of kind }
    ensures ascii { result < 128 }
{
    match kind {
        LiteralKind::Byte | LiteralKind::Char => '\'',
        _ => '"',
    }
}

// The mode of a kind, raw or not.
fn mode_of(kind: LiteralKind, raw: bool) -> Mode
    ensures { result ≡ mode_of kind raw }
{
    match (kind, raw) {
        (LiteralKind::Char, _) => Mode::Char,
        (LiteralKind::Byte, _) => Mode::Byte,
        (LiteralKind::ByteStr, true) => Mode::RawByteStr,
        (LiteralKind::ByteStr, false) => Mode::ByteStr,
        (LiteralKind::CStr, true) => Mode::RawCStr,
        (LiteralKind::CStr, false) => Mode::CStr,
        (_, true) => Mode::RawStr,
        (_, false) => Mode::Str,
    }
}

/// A literal in quotes: its mode, its inside, and what stands behind its last quote.
#[derive(Clone, Copy, Debug)]
pub(crate) struct Quoted<'a> {
    pub(crate) mode: Mode,
    pub(crate) inside: &'a str,
    pub(crate) closing: &'a str,
}

/// A literal of a kind in quotes, taken apart.
pub(crate) fn taken_apart(kind: LiteralKind, text: &str) -> Quoted<'_>
    requires quoted { is_quoted kind ≡ true }
    requires there { IsKind kind (chars text.now) }
    ensures { IsTakenApart kind (chars text.now) result.mode (chars result.inside.now) (chars result.closing.now) }
{
    let parts = between_quotes(text, quote_of(kind));
    let raw = at_first(parts.opening, 'r').is_some();
    Quoted {
        mode: mode_of(kind, raw),
        inside: parts.inside,
        closing: parts.closing,
    }
}

// Hashes.
struct Hash;

impl Test for Hash {
    ghost test = { is_hash };

    fn passes(c: char) -> bool {
        c == '#'
    }
}

// A text behind the hashes at its front.
#[tactic(auto, using(text_chars::proofs::Steps::first_place))]
fn behind_hashes(text: &str) -> &str
    ensures { chars result.now ≡ past is_hash (chars text.now) }
{
    from_place(text, past::<Hash>(text, 0))
}

/// The suffix of a literal of a kind in quotes: what stands behind its last quote and the hashes there.
pub(crate) fn suffix(kind: LiteralKind, text: &str) -> &str
    requires quoted { is_quoted kind ≡ true }
    requires there { IsKind kind (chars text.now) }
    ensures { HasSuffix kind (chars text.now) (chars result.now) }
{
    behind_hashes(taken_apart(kind, text).closing)
}
