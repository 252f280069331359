//! What may stand beside the parts of a closure, a block or a `let`. So far nothing may: none of them has an option,
//! and who asks whether one is set is ready for those that come.

ghost use Rattle.std.specs.Prelude.{◌≡◌, Ok};

use syn_error::Result;

/// What stands beside the parts of a closure.
#[derive(Clone, Copy, Default)]
pub struct ClosureModifiers {}

impl ClosureModifiers {
    /// Asks that none is set, as is so of every closure.
    ///
    /// # Errors
    ///
    /// None, as no option is there that could be set.
    pub fn require_empty(&self) -> Result<()>
        ensures { result ≡ Ok tt }
    {
        Ok(())
    }
}

/// What stands beside the parts of a block.
#[derive(Clone, Copy, Default)]
pub struct BlockModifiers {}

impl BlockModifiers {
    /// Asks that none is set, as is so of every block.
    ///
    /// # Errors
    ///
    /// None, as no option is there that could be set.
    pub fn require_empty(&self) -> Result<()>
        ensures { result ≡ Ok tt }
    {
        Ok(())
    }
}

/// What stands beside the parts of a `let`.
#[derive(Clone, Copy, Default)]
pub struct LocalModifiers {}

impl LocalModifiers {
    /// Asks that none is set, as is so of every `let`.
    ///
    /// # Errors
    ///
    /// None, as no option is there that could be set.
    pub fn require_empty(&self) -> Result<()>
        ensures { result ≡ Ok tt }
    {
        Ok(())
    }
}
