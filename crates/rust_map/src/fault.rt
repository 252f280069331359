//! Why a text was refused.

ghost use Rattle.rust_map.specs.Faults.{error_message, fault_message};
ghost use Rattle.rust_map.specs.declared.fault.LexFault.TheVariants as lex_fault;
ghost use Rattle.std.specs.Prelude.{◌≡◌, Some};

use crate::place::LineColumn;
use crate::span::Span;
use std::alloc::AllocError;
use std::error::Error;
use std::fmt;

/// The lexical fault of a text, which isn't what it was read as: a place, by the rule of the call that
/// answers it.
#[derive(Clone, Copy, Debug)]
pub struct LexError {
    span: Span,
    place: LineColumn,
}

impl LexError {
    /// The fault at a place, with the empty span at its position.
    pub fn new(span: Span, place: LineColumn) -> LexError
        ensures { result ≡ record { span = span; place = place } }
    {
        LexError { span, place }
    }

    /// The empty span at the position of the fault. The refused text is in no map, so no map holds it.
    pub fn span(&self) -> Span
        ensures { result ≡ self.now.span }
    {
        self.span
    }

    /// The place of the fault: line from 1, column in characters from 0.
    pub fn place(&self) -> LineColumn
        ensures { result ≡ self.now.place }
    {
        self.place
    }
}

impl fmt::Display for LexError {
    ghost output = { λ error. Some (error_message error) };

    fn fmt<W: fmt::Write>(&self, f: &mut fmt::Formatter<W>) -> fmt::Result {
        let line = self.place.line;
        let column = self.place.column;
        write!(f, "lexical fault at {line}:{column}")
    }
}

impl Error for LexError {}

/// Why a text was refused.
#[derive(Clone, Copy, Debug)]
pub enum LexFault {
    /// The text has a lexical fault.
    Lex(LexError),
    /// The map has no positions left for a text of this length. It says nothing of the text.
    MapFull,
    /// Memory was refused. It says nothing of the text.
    Memory,
}

impl fmt::Display for LexFault {
    ghost output = { λ fault. Some (fault_message fault) };

    fn fmt<W: fmt::Write>(&self, f: &mut fmt::Formatter<W>) -> fmt::Result {
        match self {
            LexFault::Lex(error) => write!(f, "{error}"),
            LexFault::MapFull => write!(f, "source map full"),
            LexFault::Memory => write!(f, "out of memory"),
        }
    }
}

impl Error for LexFault {}

impl From<AllocError> for LexFault {
    ghost from_gives = { λ _ fault. fault ≡ lex_fault.Memory };

    fn from(_: AllocError) -> LexFault {
        LexFault::Memory
    }
}
