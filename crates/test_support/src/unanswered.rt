//! Why a table has no answers.

use std::alloc::{AllocError, AllocFailed};
use std::error::Error;
use std::fmt;

/// Why a table has no answers.
#[derive(Clone, Copy, Debug)]
pub enum Unanswered {
    /// A row is none, or asks for what is none.
    NoRow,
    /// Memory was refused, or standard input or output failed.
    Cut,
}

impl fmt::Display for Unanswered {
    fn fmt<W: fmt::Write>(&self, f: &mut fmt::Formatter<W>) -> fmt::Result {
        f.write_str(match self {
            Unanswered::NoRow => "a row that asks for nothing",
            Unanswered::Cut => "out of memory, or of input or output",
        })
    }
}

impl Error for Unanswered {}

impl From<AllocError> for Unanswered {
    fn from(_: AllocError) -> Unanswered {
        Unanswered::Cut
    }
}

impl<T: Drop> From<AllocFailed<T>> for Unanswered {
    fn from(_: AllocFailed<T>) -> Unanswered {
        Unanswered::Cut
    }
}
