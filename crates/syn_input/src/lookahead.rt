//! Looking for several kinds at one place, and the error that none of them stands there.

ghost use Rattle.std.specs.Prelude.{◌+◌, ◌≡◌, IfOk, OnErr, false, true};
ghost use Rattle.syn_buffer.specs.Position.{left, next_span, rest};

use crate::input::ParseBuffer;
use std::alloc::{AllocError, Global};
use std::fmt;
use syn_buffer::position::Cursor;
use syn_error::error::Error;
use syn_error::fault::ParseFault;
use syn_peek::token::Peek;

/// A place at which kinds are looked for. It notes those that do not stand there.
#[derive(Drop)]
pub struct Lookahead1<'a> {
    pub(crate) cursor: Cursor<'a>,
    pub(crate) shown: Vec<&'static str>,
    pub(crate) alloc: Global,
}

// What was expected: nothing that is known, or one of some kinds.
#[derive(Drop)]
struct Kinds<'b> {
    at_end: bool,
    shown: &'b [&'static str],
}

impl fmt::Display for Kinds<'_> {
    fn fmt<W: fmt::Write>(&self, f: &mut fmt::Formatter<W>) -> fmt::Result {
        match self.shown {
            [] if self.at_end => return f.write_str("unexpected end of input"),
            [] => return f.write_str("unexpected token"),
            _ if self.at_end => f.write_str("unexpected end of input, ")?,
            _ => {}
        }
        f.write_str("expected ")?;
        match self.shown {
            [first, second] => {
                f.write_str(first)?;
                f.write_str(" or ")?;
                f.write_str(second)
            }
            shown => write_all(f, shown),
        }
    }
}

// One kind, or more of them with commas between.
fn write_all<W: fmt::Write>(f: &mut fmt::Formatter<W>, shown: &[&'static str]) -> fmt::Result {
    if 1 < shown.len() {
        f.write_str("one of: ")?;
    }
    let mut is_first = true;
    for kind in shown {
        if !is_first {
            f.write_str(", ")?;
        }
        f.write_str(kind)?;
        is_first = false;
    }
    Ok(())
}

impl<'a> ParseBuffer<'a> {
    ghost use Rattle.syn_input.specs.Lookaheads.{missed};

    /// Looks for kinds at the place from which is read next. It does not move.
    pub fn lookahead1(&self) -> Lookahead1<'a>
        ensures cursor { result.cursor ≡ self.now.cursor }
        ensures missed { missed result ≡ 0 }
    {
        Lookahead1 {
            cursor: self.cursor,
            shown: Vec::new(self.alloc),
            alloc: self.alloc,
        }
    }
}

impl<'a> Lookahead1<'a> {
    ghost use Rattle.syn_input.specs.Lookaheads.{IsAt, looked_at, missed};

    /// Whether a token of that kind stands there. One that does not is noted.
    ///
    /// The error is that memory for the note was refused: no such token stands there, and nothing is noted.
    pub fn peek<T: Peek>(&mut self) -> Result<bool, AllocError>
        ensures answer { IfOk result (λ found. found ≡ T.stands (looked_at self.old)) }
        ensures found { IfOk result (λ found. found ≡ true → self.new ≡ self.old) }
        ensures noted { IfOk result (λ found. found ≡ false → missed self.new ≡ missed self.old + 1) }
        ensures absent { OnErr result (T.stands (looked_at self.old) ≡ false) }
        ensures err { OnErr result (missed self.new ≡ missed self.old) }
        ensures cursor { self.new.cursor ≡ self.old.cursor }
    {
        if T::peek(self.cursor) {
            return Ok(true);
        }
        self.shown.push(T::display())?;
        Ok(false)
    }

    /// The fault that none of the kinds that were looked for stands there: it says so of the next token, or at an
    /// end of what closes the list. Where memory for the words is refused it is that.
    pub fn error(self) -> ParseFault
        ensures { IsAt (next_span self.entry.cursor.closing (rest self.entry.cursor)) result }
    {
        let message = Kinds {
            at_end: self.cursor.eof(),
            shown: self.shown.as_slice(),
        };
        match Error::new(self.alloc, self.cursor.span(), message) {
            Ok(error) => ParseFault::Syntax(error),
            Err(_) => ParseFault::Memory,
        }
    }
}
