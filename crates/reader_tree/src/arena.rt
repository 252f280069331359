//! Where trees stand.

ghost use Rattle.std.specs.Prelude.{◌≡◌, IfOk};

use bumpalo::Bump;
use bumpalo::collections::into_bump_slice;
use std::alloc::{AllocError, Global};

// The bytes of an arena's first chunk: what the trees of a few hundred tokens take.
const ROOM: usize = 24_000;

/// Where trees stand. They are let go of all at once, with it.
#[derive(Drop)]
pub struct Arena {
    alloc: Global,
    bump: Bump,
}

impl Arena {
    /// An arena that takes its memory from there, with room for the trees of a few hundred tokens, if there is memory
    /// for that much at once.
    pub fn new(alloc: Global) -> Arena {
        let bump = match Bump::try_with_capacity(alloc, ROOM) {
            Ok(bump) => bump,
            Err(_) => Bump::new(alloc),
        };
        Arena { alloc, bump }
    }

    /// Where its memory is taken from.
    pub fn alloc(&self) -> Global {
        self.alloc
    }

    /// The value, which stands there from then on. It is not dropped with the arena: what it owns elsewhere is not
    /// given back.
    ///
    /// # Errors
    ///
    /// Where there is no memory for it.
    pub fn put<'a, T: Drop>(&'a self, value: T) -> Result<&'a T, AllocError>
        ensures { IfOk result (λ x. x.now ≡ value) }
    {
        Ok(self.bump.try_alloc(value)?)
    }

    /// The values, one behind the other, which stand there from then on, as one that is put there alone.
    ///
    /// # Errors
    ///
    /// Where there is no memory for them.
    pub fn put_all<'a, T: Drop>(&'a self, values: Vec<T>) -> Result<&'a [T], AllocError>
        ensures { IfOk result (λ xs. xs.now ≡ values.items) }
    {
        let kept = values.into_iter().collect::<Vec<T, &'a Bump>>(&self.bump)?;
        Ok(into_bump_slice(kept))
    }
}
