//! Values that hold no other ones.

ghost use Rattle.std.specs.Prelude.{◌≡◌, List, ℕ, Ok, string_bytes};

use crate::TryClone;
use std::alloc::AllocError;

impl TryClone for bool {
    ghost use Rattle.std.specs.Prelude.{Bool};

    ghost Shown = { Bool };

    ghost shown = { λ value. value };

    /// A copy, which takes no memory.
    fn try_clone(&self) -> Result<bool, AllocError>
        ensures { result ≡ Ok self.now }
    {
        Ok(*self)
    }
}

impl TryClone for char {
    ghost Shown = { ℕ };

    ghost shown = { λ value. value };

    /// A copy, which takes no memory.
    fn try_clone(&self) -> Result<char, AllocError>
        ensures { result ≡ Ok self.now }
    {
        Ok(*self)
    }
}

impl TryClone for String {
    ghost Shown = { List ℕ };

    ghost shown = { string_bytes };

    fn try_clone(&self) -> Result<String, AllocError> {
        self.clone()
    }
}

impl TryClone for u8 {
    ghost Shown = { ℕ };

    ghost shown = { λ value. value };

    /// A copy, which takes no memory.
    fn try_clone(&self) -> Result<u8, AllocError>
        ensures { result ≡ Ok self.now }
    {
        Ok(*self)
    }
}

impl TryClone for u16 {
    ghost Shown = { ℕ };

    ghost shown = { λ value. value };

    /// A copy, which takes no memory.
    fn try_clone(&self) -> Result<u16, AllocError>
        ensures { result ≡ Ok self.now }
    {
        Ok(*self)
    }
}

impl TryClone for u32 {
    ghost Shown = { ℕ };

    ghost shown = { λ value. value };

    /// A copy, which takes no memory.
    fn try_clone(&self) -> Result<u32, AllocError>
        ensures { result ≡ Ok self.now }
    {
        Ok(*self)
    }
}

impl TryClone for u64 {
    ghost Shown = { ℕ };

    ghost shown = { λ value. value };

    /// A copy, which takes no memory.
    fn try_clone(&self) -> Result<u64, AllocError>
        ensures { result ≡ Ok self.now }
    {
        Ok(*self)
    }
}

impl TryClone for u128 {
    ghost Shown = { ℕ };

    ghost shown = { λ value. value };

    /// A copy, which takes no memory.
    fn try_clone(&self) -> Result<u128, AllocError>
        ensures { result ≡ Ok self.now }
    {
        Ok(*self)
    }
}

impl TryClone for usize {
    ghost Shown = { ℕ };

    ghost shown = { λ value. value };

    /// A copy, which takes no memory.
    fn try_clone(&self) -> Result<usize, AllocError>
        ensures { result ≡ Ok self.now }
    {
        Ok(*self)
    }
}
