//! Faults of the parts of a run, as faults of the run.

ghost use Rattle.canon.specs.Causes.{lex_fault, read_fault};
ghost use Rattle.canon.specs.declared.fault.Fault.TheVariants.{Memory, Writing};
ghost use Rattle.std.specs.Prelude.{◌≡◌};

use crate::fault::Fault;
use canon_io::reading::ReadFault;
use canon_io::writing::WriteFailed;
use rust_map::fault::LexFault;
use std::alloc::AllocError;

impl From<AllocError> for Fault {
    ghost from_gives = { λ _ fault. fault ≡ Memory };

    fn from(_: AllocError) -> Fault {
        Fault::Memory
    }
}

impl From<LexFault> for Fault {
    ghost from_gives = { λ cause fault. fault ≡ lex_fault cause };

    fn from(cause: LexFault) -> Fault {
        match cause {
            LexFault::Lex(error) => Fault::Lexical(error.place()),
            LexFault::MapFull => Fault::MapFull,
            LexFault::Memory => Fault::Memory,
        }
    }
}

impl From<ReadFault> for Fault {
    ghost from_gives = { λ cause fault. fault ≡ read_fault cause };

    fn from(cause: ReadFault) -> Fault {
        match cause {
            ReadFault::Memory => Fault::Memory,
            ReadFault::Failed => Fault::Reading,
            ReadFault::TooLong => Fault::MapFull,
        }
    }
}

impl From<WriteFailed> for Fault {
    ghost from_gives = { λ _ fault. fault ≡ Writing };

    fn from(_: WriteFailed) -> Fault {
        Fault::Writing
    }
}
