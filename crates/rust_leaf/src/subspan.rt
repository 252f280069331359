//! Parts of a literal.

ghost use Rattle.rust_leaf.specs.Leaf.{literal_span};
ghost use Rattle.rust_map.specs.Sources.{LiesAsPart};
ghost use Rattle.rust_map.specs.Spans.{part_within, span_length};
ghost use Rattle.std.specs.Prelude.{◌≡◌, IfSome};
ghost use Rattle.std.specs.Range.Bound.{end_index, start_index};

use crate::literal::Literal;
use rust_map::span::Span;
use std::ops::{Bound, RangeBounds};

impl Literal {
    /// The span of a part of the literal, which is a range of characters, counted from 0 at the front of
    /// its span; `None` if the range ends before it starts, or behind the end of the span.
    ///
    /// Any range of `std` is taken but a `RangeInclusive` that was iterated to its end. At the call site, a
    /// literal has no characters, and no part but the empty one.
    pub fn subspan<R: RangeBounds<usize>>(&self, range: R) -> Option<Span>
        requires known { R.has_bounds range }
        ensures part { result ≡ part_within (literal_span self.now) (start_index (R.start_bound range))
            (end_index (R.end_bound range) (span_length (literal_span self.now))) }
        ensures lies { IfSome result (LiesAsPart (literal_span self.now) (start_index (R.start_bound range))
            (end_index (R.end_bound range) (span_length (literal_span self.now)))) }
    {
        let length = self.span.characters() as usize;
        let from = match range.start_bound() {
            Bound::Included(first) => *first,
            Bound::Excluded(before) => before.checked_add(1)?,
            Bound::Unbounded => 0,
        };
        let to = match range.end_bound() {
            Bound::Included(last) => last.checked_add(1)?,
            Bound::Excluded(behind) => *behind,
            Bound::Unbounded => length,
        };
        self.span.checked_part(from, to)
    }
}
