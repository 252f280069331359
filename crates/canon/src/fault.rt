//! Why a text has no canonical form, and what the program says then.

ghost use Rattle.canon.specs.Message.{message, status_of};
ghost use Rattle.std.specs.Io.KnownBytes.{Appends};
ghost use Rattle.std.specs.Prelude.{◌≡◌, ◌++◌, ◌∷◌, [], OnOk, Some, codes};

use rust_map::LineColumn;
use std::io::Write;
use std::{fmt, io};
use syn_error::Error;

/// Why there is no answer.
#[derive(Debug, Drop)]
pub enum Fault {
    /// The bytes that were read aren't UTF-8.
    NotUtf8,
    /// The text has no forest: there no piece begins, a closing mark closes nothing, or a group is
    /// opened that nothing closes.
    Lexical(LineColumn),
    /// The text has a forest and is no program.
    Syntax {
        /// What is said of it.
        error: Error,
        /// Where the first message's part of the text starts, if a token of the text begins there:
        /// at the text's end none does.
        place: Option<LineColumn>,
    },
    /// The text of this number, counted from 0, may only be the first of those that are joined: it begins with a byte
    /// order mark, a shebang, or an attribute or doc comment of the file itself.
    NotFirst(usize),
    /// The map has no positions left for the text, or more bytes were read than a run takes.
    MapFull,
    /// A growth was refused.
    Memory,
    /// The reader failed.
    Reading,
    /// The writer failed.
    Writing,
}

impl fmt::Display for Fault {
    ghost output = { λ f. Some (message f) };

    fn fmt<W: fmt::Write>(&self, f: &mut fmt::Formatter<W>) -> fmt::Result {
        match self {
            Fault::NotUtf8 => write!(f, "not UTF-8"),
            Fault::Lexical(place) => {
                let line = place.line;
                let column = place.column;
                write!(f, "lexical fault at {line}:{column}")
            }
            Fault::Syntax { error, place: None } => {
                write!(f, "syntax fault at end of input: {error}")
            }
            Fault::Syntax {
                error,
                place: Some(place),
            } => {
                let line = place.line;
                let column = place.column;
                write!(f, "syntax fault at {line}:{column}: {error}")
            }
            Fault::NotFirst(index) => {
                let number = *index as u128 + 1;
                write!(f, "text {number} must come first")
            }
            Fault::MapFull => write!(f, "source map full"),
            Fault::Memory => write!(f, "out of memory"),
            Fault::Reading => write!(f, "reading failed"),
            Fault::Writing => write!(f, "writing failed"),
        }
    }
}

/// The status with which the program ends: 0 where the text was written, 1 where it is at fault,
/// 3 where something else failed. Takes no memory.
pub fn status(outcome: &Result<(), Fault>) -> u8
    ensures { result ≡ status_of outcome.now }
{
    match outcome {
        Ok(()) => 0,
        Err(Fault::NotUtf8 | Fault::Lexical(_) | Fault::Syntax { .. } | Fault::NotFirst(_)) => 1,
        Err(Fault::MapFull | Fault::Memory | Fault::Reading | Fault::Writing) => 3,
    }
}

/// Writes the line that the program says of a fault, with `canon: ` in front and a line feed
/// behind. The error is the writer's own.
pub fn write_fault<W: Write>(fault: &Fault, writer: &mut W) -> io::Result<()>
    ensures { OnOk result (Appends (W.contents writer.old) (W.contents writer.new)
        (codes "canon: " ++ message fault.now ++ 10 ∷ [])) }
{
    writeln!(writer, "canon: {fault}")
}
