//! Of a mark behind an element how it is spaced, and where it stands.

ghost use Rattle.std.specs.Prelude.{◌≡◌};

use rust_leaf::punct::Spacing;
use rust_map::span::Span;
use std::marker::Model;

/// How a mark is spaced, and where it stands. To a contract it is the spacing: a place is no part of what was read.
#[derive(Drop)]
pub struct PlacedSpacing {
    spacing: Spacing,
    span: Span,
}

impl Model for PlacedSpacing {
    ghost use Rattle.rust_leaf.specs.declared.punct.Spacing.{Spacing};

    ghost Value = { Spacing };

    ghost view = { λ s. s.spacing };
}

impl PlacedSpacing {
    /// Of a mark that is so spaced and stands there.
    #[inline(always)]
    pub fn new(spacing: Spacing, span: Span) -> PlacedSpacing
        ensures { result ≡ spacing }
    {
        PlacedSpacing { spacing, span }
    }

    /// How the mark is spaced.
    #[inline(always)]
    pub fn spacing(&self) -> Spacing
        ensures { result ≡ self.now }
    {
        self.spacing
    }

    /// Where the mark stands.
    #[inline(always)]
    pub fn span(&self) -> Span {
        self.span
    }

    /// Of the mark once more.
    #[inline(always)]
    pub fn copy(&self) -> PlacedSpacing
        ensures { result ≡ self.now }
    {
        PlacedSpacing::new(self.spacing, self.span)
    }
}
