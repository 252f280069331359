//! Literals in quotes, and where their insides stand.

ghost use Rattle.rust_escape.specs.Mode.{prefix_noraw};
ghost use Rattle.rust_leaf.specs.Quoted.{IsLiteralOf, IsQuoted, cooked, fenced, in_byte_quotes, in_single_quotes, raw};
ghost use Rattle.std.specs.Prelude.{[], ◌++◌, ◌<◌, ◌∷◌, ◌≡◌, ℕ, List, MatchOption};
ghost use Rattle.std.specs.Str.{chars};

use rust_escape::mode::Mode;

/// What a literal in double quotes holds.
#[derive(Clone, Copy, Debug, PartialEq, Eq)]
pub(crate) enum Content {
    /// `"a"`, `r"a"`.
    Text,
    /// `b"a"`, `br"a"`.
    Bytes,
    /// `c"a"`, `cr"a"`.
    CText,
}

impl Content {
    // The mode of the literal that has escapes.
    fn cooked(self) -> Mode
        ensures { result ≡ cooked self }
    {
        match self {
            Content::Text => Mode::Str,
            Content::Bytes => Mode::ByteStr,
            Content::CText => Mode::CStr,
        }
    }

    // The mode of the raw literal.
    fn raw(self) -> Mode
        ensures { result ≡ raw self }
    {
        match self {
            Content::Text => Mode::RawStr,
            Content::Bytes => Mode::RawByteStr,
            Content::CText => Mode::RawCStr,
        }
    }
}

/// The inside of a literal in double quotes, and the literal's mode.
#[derive(Clone, Copy, Debug)]
pub(crate) struct Inside<'a> {
    pub(crate) mode: Mode,
    pub(crate) text: &'a str,
}

// The text behind a character at its front.
fn behind(text: &str, first: char) -> Option<&str>
    requires { first < 128 }
    ensures { MatchOption result ((rest : List ℕ) → chars text.now ≡ first ∷ rest → ⊥)
        (λ rest. chars text.now ≡ first ∷ chars rest.now) }
{
    text.strip_prefix(first)
}

// The text before a character at its end.
fn before(text: &str, last: char) -> Option<&str>
    requires { last < 128 }
    ensures { MatchOption result ((front : List ℕ) → chars text.now ≡ front ++ last ∷ [] → ⊥)
        (λ front. chars text.now ≡ chars front.now ++ last ∷ []) }
{
    text.strip_suffix(last)
}

// The text behind what stands before the quotes of a literal that isn't raw.
fn past_prefix(text: &str, content: Content) -> Option<&str>
    ensures { MatchOption result ((rest : List ℕ) → chars text.now ≡ prefix_noraw (cooked content) ++ rest → ⊥)
        (λ rest. chars text.now ≡ prefix_noraw (cooked content) ++ chars rest.now) }
{
    match content {
        Content::Text => Some(text),
        Content::Bytes => behind(text, 'b'),
        Content::CText => behind(text, 'c'),
    }
}

// The inside of quotes.
fn unquoted(text: &str) -> Option<&str>
    ensures { MatchOption result ((inside : List ℕ) → chars text.now ≡ fenced 0 inside → ⊥)
        (λ inside. chars text.now ≡ fenced 0 (chars inside.now)) }
{
    before(behind(text, '"')?, '"')
}

// The inside of quotes that stand between as many hashes on either side.
fn unfenced(text: &str) -> Option<&str>
    ensures { MatchOption result ((n : ℕ) (inside : List ℕ) → chars text.now ≡ fenced n inside → ⊥)
        (λ inside. (n : ℕ) × (chars text.now ≡ fenced n (chars inside.now))) }
{
    let mut inner = text;
    while let Some(rest) = behind(inner, '#') {
        inner = before(rest, '#')?;
    }
    unquoted(inner)
}

/// The mode and the inside of a literal that holds such content. None: the text is none, or has a suffix.
pub(crate) fn quoted(text: &str, content: Content) -> Option<Inside<'_>>
    ensures { MatchOption result (IsLiteralOf content (chars text.now) → ⊥)
        (λ inside. IsQuoted content inside.mode (chars text.now) (chars inside.text.now)) }
{
    let rest = past_prefix(text, content)?;
    match behind(rest, 'r') {
        Some(rest) => Some(Inside {
            mode: content.raw(),
            text: unfenced(rest)?,
        }),
        None => Some(Inside {
            mode: content.cooked(),
            text: unquoted(rest)?,
        }),
    }
}

/// The inside of a character literal. None: the text is none, or has a suffix.
pub(crate) fn single_quoted(text: &str) -> Option<&str>
    ensures { MatchOption result ((inside : List ℕ) → chars text.now ≡ in_single_quotes inside → ⊥)
        (λ inside. chars text.now ≡ in_single_quotes (chars inside.now)) }
{
    before(behind(text, '\'')?, '\'')
}

/// The inside of a byte literal. None: the text is none, or has a suffix.
pub(crate) fn byte_quoted(text: &str) -> Option<&str>
    ensures { MatchOption result ((inside : List ℕ) → chars text.now ≡ in_byte_quotes inside → ⊥)
        (λ inside. chars text.now ≡ in_byte_quotes (chars inside.now)) }
{
    single_quoted(behind(text, 'b')?)
}
