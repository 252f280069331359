//! Why there is no normal form.

use std::alloc::{AllocError, AllocFailed};

/// Why there is no normal form.
#[derive(Clone, Copy, Debug, Drop)]
pub enum Fault {
    /// Memory ran out.
    Memory,
    /// No tree is the normal form: in a list of parameters or arguments with `+` between them, which none that was read
    /// has, a lifetime would stand before others with a comma behind it, and no tree holds a list with both.
    Separators,
}

impl From<AllocError> for Fault {
    ghost use Rattle.writer_normal.specs.declared.fault.Fault.TheVariants.{Memory};
    ghost use Rattle.std.specs.Prelude.{◌≡◌};

    ghost from_gives = { λ _ fault. fault ≡ Memory };

    fn from(_: AllocError) -> Fault {
        Fault::Memory
    }
}

impl<T: Drop> From<AllocFailed<T>> for Fault {
    ghost use Rattle.writer_normal.specs.declared.fault.Fault.TheVariants.{Memory};
    ghost use Rattle.std.specs.Prelude.{◌≡◌};

    ghost from_gives = { λ _ fault. fault ≡ Memory };

    fn from(_: AllocFailed<T>) -> Fault {
        Fault::Memory
    }
}
