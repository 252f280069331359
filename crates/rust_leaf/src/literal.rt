//! Literals.

ghost use Rattle.rust_leaf.specs.LeafText.{leaf_bytes};
ghost use Rattle.rust_leaf.specs.Parse.{IsLiteralText};
ghost use Rattle.rust_map.specs.Spans.{call_site};
ghost use Rattle.std.specs.Prelude.{◌≡◌, IfOk, Some, encode_utf8_all};
ghost use Rattle.std.specs.Str.{chars};

use crate::leaf_text::LeafText;
use crate::text_table::TextTable;
use rust_map::span::Span;
use std::alloc::{AllocError, Global};
use std::fmt;
use try_clone::TryClone;

/// A literal, by its printed text. The text is always that of a literal, or a `-` directly before that of
/// a number.
#[derive(Drop)]
pub struct Literal {
    text: LeafText,
    pub(crate) span: Span,
    ghost is_literal: { ∥ IsLiteralText (chars (leaf_bytes text)) ∥₁ },
}

impl Literal {
    ghost use Rattle.rust_leaf.specs.Leaf.{literal_span, literal_text, text_of};

    /// The printed text.
    pub fn as_str(&self) -> &str
        ensures { chars result.now ≡ literal_text self.now }
    {
        self.text.as_str()
    }

    /// The literal that is printed as `text`. `is_text` is the test of its condition.
    ///
    /// `AllocError`: memory for the text was refused. None is taken for a text of at most 16 bytes.
    pub fn from_text(alloc: Global, text: &str, span: Span) -> Result<Literal, AllocError>
        requires { IsLiteralText (chars text.now) }
        ensures text_is { IfOk result (λ literal. literal_text literal ≡ chars text.now) }
        ensures span_is { IfOk result (λ literal. literal_span literal ≡ span) }
    {
        Ok(Literal {
            text: LeafText::new(alloc, text)?,
            span,
        })
    }

    /// The same, which shares its text with the leaves of the table that are printed alike.
    ///
    /// `AllocError`: memory for the text or its place in the table was refused; what the table keeps stays. None is
    /// taken for a text of at most 16 bytes, or one that the table keeps.
    #[inline(always)]
    pub fn from_text_in(
        table: &mut TextTable,
        text: &str,
        span: Span,
    ) -> Result<Literal, AllocError>
        requires { IsLiteralText (chars text.now) }
        ensures text_is { IfOk result (λ literal. literal_text literal ≡ chars text.now) }
        ensures span_is { IfOk result (λ literal. literal_span literal ≡ span) }
    {
        Ok(Literal {
            text: LeafText::new_in(table, text)?,
            span,
        })
    }

    // The literal of a text, at no place of a text.
    pub(crate) fn of(text: String) -> Result<Literal, AllocError>
        requires { IsLiteralText (text_of text) }
        ensures text_is { IfOk result (λ literal. literal_text literal ≡ text_of text) }
        ensures span_is { IfOk result (λ literal. literal_span literal ≡ call_site) }
    {
        Ok(Literal {
            text: LeafText::of(text)?,
            span: Span::call_site(),
        })
    }

    /// Where the literal stands.
    pub fn span(&self) -> Span
        ensures { result ≡ literal_span self.now }
    {
        self.span
    }

    /// Sets where the literal stands, and nothing else.
    pub fn set_span(&mut self, span: Span)
        ensures span_is { literal_span self.new ≡ span }
        ensures text_stays { literal_text self.new ≡ literal_text self.old }
    {
        self.span = span;
    }
}

impl fmt::Display for Literal {
    ghost use Rattle.rust_leaf.specs.Leaf.{literal_text};

    ghost output = { λ literal. Some (encode_utf8_all (literal_text literal)) };

    #[tactic(auto, using(crate::proofs::Texts::printed_leaf))]
    fn fmt<W: fmt::Write>(&self, f: &mut fmt::Formatter<W>) -> fmt::Result {
        f.write_str(self.text.as_str())
    }
}

impl TryClone for Literal {
    ghost use Rattle.rust_leaf.specs.Leaf.{literal_span, literal_text};
    ghost use Rattle.std.specs.Prelude.{List, ℕ};
    ghost use Rattle.rust_map.specs.declared.span.Span.{Span};

    ghost Shown = { List ℕ × Span };

    ghost shown = { λ literal. (literal_text literal, literal_span literal) };

    /// A copy, which takes no memory and shares its text. Nothing but the count of those that share it can refuse it.
    fn try_clone(&self) -> Result<Literal, AllocError> {
        Ok(Literal {
            text: self.text.copy()?,
            span: self.span,
        })
    }
}
