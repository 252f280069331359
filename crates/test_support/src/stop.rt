//! Why a program that `tests/refused.sh` runs has no answer, and the status with which it ends.
use std::alloc::{AllocError, AllocFailed};
use std::process::ExitCode;

/// Why a run has no answer.
#[derive(Clone, Copy)]
pub enum Stop {
    /// Memory was refused to a call that is looked at, and what was there is as before.
    Refused,
    /// Memory was refused to another call, or a stream failed.
    Elsewhere,
    /// A call changed what it had to leave, or answered what it can't.
    Changed,
}

impl From<AllocError> for Stop {
    fn from(_: AllocError) -> Stop {
        Stop::Elsewhere
    }
}

impl<T: Drop> From<AllocFailed<T>> for Stop {
    fn from(_: AllocFailed<T>) -> Stop {
        Stop::Elsewhere
    }
}

/// The answer of a call that is looked at, which takes nothing that is used again.
pub fn looked_at<T>(answer: Result<T, AllocError>) -> Result<T, Stop> {
    answer.map_err(|_| Stop::Refused)
}

/// What a refused call answers, by whether what was there is as before.
pub fn refused<T: Drop>(is_as_before: bool) -> Result<T, Stop> {
    if is_as_before {
        Err(Stop::Refused)
    } else {
        Err(Stop::Changed)
    }
}

/// 0 where the answer was written; 3 where memory was refused to a call that is looked at, and 4 where anything
/// else failed, each with nothing written; and 5 where a call changed what it had to leave.
pub fn ended(outcome: Result<(), Stop>) -> ExitCode {
    match outcome {
        Ok(()) => ExitCode::SUCCESS,
        Err(Stop::Refused) => ExitCode::from(3),
        Err(Stop::Elsewhere) => ExitCode::from(4),
        Err(Stop::Changed) => ExitCode::from(5),
    }
}
