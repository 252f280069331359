//! Leaves as `{:?}` shows them: by what is printed, without their spans. The words are no promise.

use crate::ident::Ident;
use crate::literal::Literal;
use crate::punct::{Punct, Spacing};
use std::fmt;

/// `Ident(x)`.
impl fmt::Debug for Ident {
    fn fmt<W: fmt::Write>(&self, f: &mut fmt::Formatter<W>) -> fmt::Result {
        write!(f, "Ident({self})")
    }
}

/// `Literal(1u8)`.
impl fmt::Debug for Literal {
    fn fmt<W: fmt::Write>(&self, f: &mut fmt::Formatter<W>) -> fmt::Result {
        write!(f, "Literal({self})")
    }
}

/// `Punct(+, Joint)`.
impl fmt::Debug for Punct {
    fn fmt<W: fmt::Write>(&self, f: &mut fmt::Formatter<W>) -> fmt::Result {
        match self.spacing {
            Spacing::Alone => write!(f, "Punct({self}, Alone)"),
            Spacing::Joint => write!(f, "Punct({self}, Joint)"),
        }
    }
}
