//! Punctuation marks.

ghost use Rattle.rust_leaf.specs.Mark.{is_mark};
ghost use Rattle.rust_map.specs.Spans.{call_site};
ghost use Rattle.std.specs.Prelude.{◌≡◌, IsTrue, Ok, Some, encode_utf8};

use rust_map::span::Span;
use std::alloc::AllocError;
use std::fmt;
use try_clone::TryClone;

/// Whether another mark follows a mark at once.
#[derive(Clone, Copy, Debug, PartialEq, Eq)]
pub enum Spacing {
    /// Something else follows.
    Alone,
    /// A mark follows at once.
    Joint,
}

/// The marks.
const MARKS: [char; 22] = [
    '~', '!', '@', '#', '$', '%', '^', '&', '*', '-', '=', '+', '|', ';', ':', ',', '<', '.', '>',
    '/', '?', '\'',
];

/// A punctuation mark: one character, whether another mark follows it at once, and its span.
#[derive(Clone, Copy, Drop)]
pub struct Punct {
    pub(crate) mark: char,
    pub(crate) spacing: Spacing,
    pub(crate) span: Span,
    ghost is_one: { IsTrue (is_mark mark) },
}

impl Punct {
    ghost use Rattle.rust_leaf.specs.Leaf.{punct_char, punct_spacing, punct_span};

    /// Whether a character is one of the 22 marks.
    #[tactic(auto, unfolding(crate::specs::Mark::is_mark))]
    pub fn is_mark(ch: char) -> bool
        ensures { result ≡ is_mark ch }
    {
        MARKS.contains(&ch)
    }

    /// The mark `ch`, at no place of a text. `is_mark` is the test of its condition.
    #[inline(always)]
    pub fn new(ch: char, spacing: Spacing) -> Punct
        requires { IsTrue (is_mark ch) }
        ensures char_is { punct_char result ≡ ch }
        ensures spacing_is { punct_spacing result ≡ spacing }
        ensures span_is { punct_span result ≡ call_site }
    {
        Punct {
            mark: ch,
            spacing,
            span: Span::call_site(),
        }
    }

    /// The mark's character.
    pub fn as_char(&self) -> char
        ensures { result ≡ punct_char self.now }
    {
        self.mark
    }

    /// Whether another mark follows at once.
    pub fn spacing(&self) -> Spacing
        ensures { result ≡ punct_spacing self.now }
    {
        self.spacing
    }

    /// Where the mark stands.
    pub fn span(&self) -> Span
        ensures { result ≡ punct_span self.now }
    {
        self.span
    }

    /// Sets where the mark stands, and nothing else.
    #[inline(always)]
    pub fn set_span(&mut self, span: Span)
        ensures span_is { punct_span self.new ≡ span }
        ensures char_stays { punct_char self.new ≡ punct_char self.old }
        ensures spacing_stays { punct_spacing self.new ≡ punct_spacing self.old }
    {
        self.span = span;
    }
}

impl fmt::Display for Punct {
    ghost use Rattle.rust_leaf.specs.Leaf.{punct_char};

    ghost output = { λ p. Some (encode_utf8 (punct_char p)) };

    fn fmt<W: fmt::Write>(&self, f: &mut fmt::Formatter<W>) -> fmt::Result {
        f.write_char(self.mark)
    }
}

impl TryClone for Spacing {
    ghost use Rattle.rust_leaf.specs.declared.punct.Spacing.{Spacing};

    ghost Shown = { Spacing };

    ghost shown = { λ spacing. spacing };

    /// A copy, which takes no memory.
    fn try_clone(&self) -> Result<Spacing, AllocError>
        ensures { result ≡ Ok self.now }
    {
        Ok(*self)
    }
}

impl TryClone for Punct {
    ghost use Rattle.rust_leaf.specs.declared.punct.Punct.{Punct};

    ghost Shown = { Punct };

    ghost shown = { λ punct. punct };

    /// A copy, which takes no memory.
    fn try_clone(&self) -> Result<Punct, AllocError>
        ensures { result ≡ Ok self.now }
    {
        Ok(*self)
    }
}
