//! Values that hold other ones.

ghost use Rattle.std.specs.Prelude.{List, Option, map};
ghost use Rattle.std.specs.Option.{option_map};

use crate::TryClone;
use std::alloc::AllocError;

impl<T: TryClone> TryClone for Option<T> {
    ghost Shown = { Option T.Shown };

    ghost shown = { option_map T.shown };

    fn try_clone(&self) -> Result<Option<T>, AllocError> {
        match self {
            None => Ok(None),
            Some(value) => Ok(Some(value.try_clone()?)),
        }
    }
}

impl<T: TryClone> TryClone for Box<T> {
    ghost Shown = { T.Shown };

    ghost shown = { λ held. T.shown held.value };

    fn try_clone(&self) -> Result<Box<T>, AllocError> {
        let value = (**self).try_clone()?;
        Ok(Box::new(*Box::allocator(self), value)?)
    }
}

impl<T: TryClone> TryClone for Vec<T> {
    ghost Shown = { List T.Shown };

    ghost shown = { λ values. map T.shown values.items };

    fn try_clone(&self) -> Result<Vec<T>, AllocError> {
        let mut copies = Vec::with_capacity(*self.allocator(), self.len())?;
        for value in self {
            copies.push(value.try_clone()?)?;
        }
        Ok(copies)
    }
}

impl<A: TryClone, B: TryClone> TryClone for (A, B) {
    ghost Shown = { A.Shown × B.Shown };

    ghost shown = { λ pair. (A.shown pair.0, B.shown pair.1) };

    fn try_clone(&self) -> Result<(A, B), AllocError> {
        let first = self.0.try_clone()?;
        let second = self.1.try_clone()?;
        Ok((first, second))
    }
}
