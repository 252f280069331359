//! Places between tokens.

ghost use Rattle.rust_map.specs.declared.span.Span.{Span};
ghost use Rattle.std.specs.Prelude.{◌≡◌};

use rust_map::span::Span;

/// A place between tokens. A range of two of them is what an error can speak of.
pub trait ErrorPlace {
    ghost span: { Self → Span };

    ghost prev_span: { Self → Span };

    /// The span of the token behind the place.
    fn span(&self) -> Span
        ensures { result ≡ span self.now };

    /// The span of the token before the place.
    fn prev_span(&self) -> Span
        ensures { result ≡ prev_span self.now };
}
