//! What is said of the faults of identifiers and of literals' values. The words are no promise.

use crate::ident::IdentFault;
use crate::value::ConversionErrorKind;
use std::error::Error;
use std::fmt;

impl fmt::Display for IdentFault {
    fn fmt<W: fmt::Write>(&self, f: &mut fmt::Formatter<W>) -> fmt::Result {
        match self {
            IdentFault::Empty => write!(f, "empty identifier"),
            IdentFault::Number => write!(f, "number in place of an identifier"),
            IdentFault::Invalid => write!(f, "character that no identifier has there"),
            IdentFault::Reserved => write!(f, "word that is no raw identifier"),
            IdentFault::Memory => write!(f, "out of memory"),
        }
    }
}

impl Error for IdentFault {}

impl fmt::Display for ConversionErrorKind {
    fn fmt<W: fmt::Write>(&self, f: &mut fmt::Formatter<W>) -> fmt::Result {
        match self {
            ConversionErrorKind::FailedToUnescape(error) => write!(f, "malformed literal: {error}"),
            ConversionErrorKind::InvalidLiteralKind => write!(f, "literal of another kind"),
            ConversionErrorKind::Memory => write!(f, "out of memory"),
        }
    }
}

impl Error for ConversionErrorKind {}
