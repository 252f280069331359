//! A span as one number.

ghost use Rattle.rust_map.specs.Packed.{unpacked};
ghost use Rattle.std.specs.Prelude.{◌≡◌};

use crate::span::Span;

/// A span as one number, for what is copied often: it is moved at once, as a reference is.
#[derive(Clone, Copy, Debug)]
pub struct PackedSpan {
    /// The position at which it starts, and `SIZE` times the one at which it ends.
    both: u64,
}

// So many positions there are: a position has 32 bits.
const SIZE: u64 = 1 << 32;

impl PackedSpan {
    /// The span as one number.
    #[inline(always)]
    pub fn of(span: Span) -> PackedSpan
        ensures { unpacked result ≡ span }
    {
        PackedSpan {
            both: span.end as u64 * SIZE + span.start as u64,
        }
    }

    /// The span.
    #[inline(always)]
    pub fn span(&self) -> Span
        ensures { result ≡ unpacked self.now }
    {
        Span {
            start: (self.both % SIZE) as u32,
            end: (self.both / SIZE) as u32,
        }
    }
}
