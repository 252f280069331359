//! Places compared, and as what errors speak of.

ghost use Rattle.std.specs.Prelude.{◌≡◌};
ghost use Rattle.syn_buffer.specs.Position.{index};

use crate::position::Cursor;
use rust_map::span::Span;
use std::cmp::Ordering;
use syn_error::place::ErrorPlace;

impl Cursor<'_> {
    // The index of the next entry in the buffer.
    fn index(&self) -> usize
        ensures { result ≡ index self.now }
    {
        self.end - self.entries.len()
    }
}

// Places are one where their buffers' numbers and their indices are.
impl PartialEq for Cursor<'_> {
    ghost use Rattle.syn_buffer.specs.Places.{same_place, same_place_per};

    ghost eq = { same_place };

    ghost laws = { same_place_per };

    fn eq(&self, other: &Cursor<'_>) -> bool {
        self.number == other.number && self.index() == other.index()
    }
}

impl Eq for Cursor<'_> {
    ghost use Rattle.syn_buffer.specs.Places.{same_place_equiv};

    ghost laws = { same_place_equiv };
}

// In one buffer places are ordered by their indices; of places in two nothing is said.
impl PartialOrd for Cursor<'_> {
    ghost use Rattle.syn_buffer.specs.Places.{order, order_po};

    ghost partial_cmp = { order };

    ghost laws = { order_po };

    fn partial_cmp(&self, other: &Cursor<'_>) -> Option<Ordering> {
        if self.number != other.number {
            return None;
        }
        Some(self.index().cmp(&other.index()))
    }
}

impl ErrorPlace for Cursor<'_> {
    ghost use Rattle.syn_buffer.specs.Position.{next_span, rest};

    ghost span = { λ c. next_span c.closing (rest c) };

    ghost prev_span = { λ c. c.before };

    fn span(&self) -> Span {
        (*self).span()
    }

    fn prev_span(&self) -> Span {
        self.before
    }
}
