//! Copies of values whose memory may be refused.
//!
//! - `TryClone`: the trait, in place of `Clone` wherever a copy takes memory.
//! - `leaves`: its blocks for numbers, characters and texts.
//! - `parts`: its blocks for options, boxes, vectors and pairs of values that have it.
#![tactic(auto)]

pub mod leaves;
pub mod parts;

ghost use Rattle.std.specs.Prelude.{◌≡◌, IfOk};

use std::alloc::AllocError;

/// A value of which a copy can be made.
///
/// `Shown` is what a value of the type shows: all that tells two values apart, spans included, and
/// nothing of where they lie in memory. `shown` gives it, and a copy shows what was copied.
pub trait TryClone: Drop {
    ghost Shown: { Type 0 };

    ghost shown: { Self → Shown };

    /// A copy. It is refused only where memory is; the value stays as it was.
    fn try_clone(&self) -> Result<Self, AllocError>
        ensures copy { IfOk result (λ copy. shown copy ≡ shown self.now) };
}
