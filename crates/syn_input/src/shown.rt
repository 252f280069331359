//! What is left of a stream, shown as streams are.

use crate::input::ParseBuffer;
use std::fmt;
use std::fmt::{Debug, Display};

/// The trees that are left of the list, as a stream prints them. Where memory for a copy of them is refused it is an
/// error, and nothing is written.
impl Display for ParseBuffer<'_> {
    ghost use Rattle.proc_macro2.specs.Printed.{printed};
    ghost use Rattle.std.specs.Prelude.{Some};
    ghost use Rattle.syn_buffer.specs.Position.{trees_left};

    ghost output = { λ input. Some (printed (trees_left input.cursor)) };

    fn fmt<W: fmt::Write>(&self, f: &mut fmt::Formatter<W>) -> fmt::Result {
        match self.cursor.token_stream(self.alloc) {
            Ok(stream) => Display::fmt(&stream, f),
            Err(_) => Err(fmt::Error),
        }
    }
}

/// The same trees, as a stream shows them to programmers.
impl Debug for ParseBuffer<'_> {
    fn fmt<W: fmt::Write>(&self, f: &mut fmt::Formatter<W>) -> fmt::Result {
        match self.cursor.token_stream(self.alloc) {
            Ok(stream) => Debug::fmt(&stream, f),
            Err(_) => Err(fmt::Error),
        }
    }
}
