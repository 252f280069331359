//! Why tokens, or a text, are not read.

ghost use Rattle.std.specs.Prelude.{◌≡◌};

use crate::error::Error;
use proc_macro2::{LexError, LexFault};
use std::alloc::{AllocError, AllocFailed};
use std::fmt;

/// Why tokens are not read as what they were to be.
#[derive(Debug, Drop)]
pub enum ParseFault {
    /// They are no such syntax.
    Syntax(Error),
    /// Memory was refused. It says nothing of the tokens.
    Memory,
}

impl From<AllocError> for ParseFault {
    ghost use Rattle.syn_error.specs.declared.fault.ParseFault.TheVariants.{Memory};

    ghost from_gives = { λ _ fault. fault ≡ Memory };

    fn from(_: AllocError) -> ParseFault {
        ParseFault::Memory
    }
}

impl<T: Drop> From<AllocFailed<T>> for ParseFault {
    ghost use Rattle.syn_error.specs.declared.fault.ParseFault.TheVariants.{Memory};

    ghost from_gives = { λ _ fault. fault ≡ Memory };

    fn from(_: AllocFailed<T>) -> ParseFault {
        ParseFault::Memory
    }
}

impl From<Error> for ParseFault {
    ghost use Rattle.syn_error.specs.declared.fault.ParseFault.TheVariants.{Syntax};

    ghost from_gives = { λ error fault. fault ≡ Syntax error };

    fn from(error: Error) -> ParseFault {
        ParseFault::Syntax(error)
    }
}

impl fmt::Display for ParseFault {
    ghost use Rattle.std.specs.Prelude.{Some};
    ghost use Rattle.syn_error.specs.Faults.{parse_fault_words};

    ghost output = { λ fault. Some (parse_fault_words fault) };

    fn fmt<W: fmt::Write>(&self, f: &mut fmt::Formatter<W>) -> fmt::Result {
        match self {
            ParseFault::Syntax(error) => write!(f, "{error}"),
            ParseFault::Memory => write!(f, "out of memory"),
        }
    }
}

impl std::error::Error for ParseFault {}

/// Why a text is not read as what it was to be.
#[derive(Debug, Drop)]
pub enum TextFault {
    /// The text has a lexical fault.
    Lexical(LexError),
    /// Its tokens are no such syntax.
    Syntax(Error),
    /// The map has no positions left for a text of this length. It says nothing of the text.
    MapFull,
    /// Memory was refused. It says nothing of the text.
    Memory,
}

impl From<AllocError> for TextFault {
    ghost use Rattle.syn_error.specs.declared.fault.TextFault.TheVariants.{Memory};

    ghost from_gives = { λ _ fault. fault ≡ Memory };

    fn from(_: AllocError) -> TextFault {
        TextFault::Memory
    }
}

impl From<Error> for TextFault {
    ghost use Rattle.syn_error.specs.declared.fault.TextFault.TheVariants.{Syntax};

    ghost from_gives = { λ error fault. fault ≡ Syntax error };

    fn from(error: Error) -> TextFault {
        TextFault::Syntax(error)
    }
}

impl From<LexFault> for TextFault {
    ghost use Rattle.syn_error.specs.Faults.{of_lexing};

    ghost from_gives = { λ refused fault. fault ≡ of_lexing refused };

    fn from(refused: LexFault) -> TextFault {
        match refused {
            LexFault::Lex(error) => TextFault::Lexical(error),
            LexFault::MapFull => TextFault::MapFull,
            LexFault::Memory => TextFault::Memory,
        }
    }
}

impl From<ParseFault> for TextFault {
    ghost use Rattle.syn_error.specs.Faults.{of_parsing};

    ghost from_gives = { λ refused fault. fault ≡ of_parsing refused };

    fn from(refused: ParseFault) -> TextFault {
        match refused {
            ParseFault::Syntax(error) => TextFault::Syntax(error),
            ParseFault::Memory => TextFault::Memory,
        }
    }
}

impl fmt::Display for TextFault {
    ghost use Rattle.std.specs.Prelude.{Some};
    ghost use Rattle.syn_error.specs.Faults.{text_fault_words};

    ghost output = { λ fault. Some (text_fault_words fault) };

    fn fmt<W: fmt::Write>(&self, f: &mut fmt::Formatter<W>) -> fmt::Result {
        match self {
            TextFault::Lexical(error) => write!(f, "{error}"),
            TextFault::Syntax(error) => write!(f, "{error}"),
            TextFault::MapFull => write!(f, "source map full"),
            TextFault::Memory => write!(f, "out of memory"),
        }
    }
}

impl std::error::Error for TextFault {}
