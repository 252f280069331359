//! What is said of tokens that can't be read.

ghost use Rattle.std.specs.Prelude.{◌≡◌, IfErr, IfOk, Some, codes, false};
ghost use Rattle.syn_buffer.specs.Position.{left, next_span, rest};
ghost use Rattle.syn_buffer.specs.Stands.{end_stands};
ghost use Rattle.syn_error.specs.Notes.{Says};
ghost use Rattle.syn_input.specs.Input as input;
ghost use Rattle.syn_input.specs.Words.{SaysAt, expected_words, unexpected_words};
ghost use Rattle.syn_input.specs.declared.fault.Expected.{Expected};

use crate::input::{Leftover, ParseBuffer};
use proc_macro2::delimiter::Delimiter;
use std::alloc::AllocError;
use std::fmt;
use syn_error::error::Error;
use syn_error::fault::ParseFault;

// What was expected, and whether it was at an end.
#[derive(Clone, Copy)]
struct Expected {
    at_end: bool,
    what: &'static str,
}

impl fmt::Display for Expected {
    ghost use Rattle.std.specs.Prelude.{Some};
    ghost use Rattle.syn_input.specs.Words.{expected_words};

    ghost output = { λ e. Some (expected_words e.at_end e.what.now) };

    fn fmt<W: fmt::Write>(&self, f: &mut fmt::Formatter<W>) -> fmt::Result {
        if self.at_end {
            f.write_str("unexpected end of input, ")?;
        }
        f.write_str("expected ")?;
        f.write_str(self.what)
    }
}

// What is said of a token that is left over in a list that is closed so.
fn unexpected_words(closer: Delimiter) -> &'static str
    ensures { result.now ≡ unexpected_words closer }
{
    match closer {
        Delimiter::Parenthesis => "unexpected token, expected `)`",
        Delimiter::Brace => "unexpected token, expected `}`",
        Delimiter::Bracket => "unexpected token, expected `]`",
        Delimiter::None => "unexpected token",
    }
}

impl<'a> ParseBuffer<'a> {
    /// The fault that such a thing does not stand there: it says so of the next token, or at an end that the
    /// end was not expected, of what closes the list. Where memory for the words is refused it is that.
    pub fn expected(&self, what: &'static str) -> ParseFault
        ensures { let at_end = end_stands (input.left self.now) in
            SaysAt (expected_words at_end what.now) (input.next_place self.now) result }
    {
        self.missing(Expected {
            at_end: self.is_empty(),
            what,
        })
    }

    /// The fault that such a punctuation does not stand there: it says so of the next token, or at an end of what
    /// closes the list, in the same words. Where memory for the words is refused it is that.
    pub fn expected_mark(&self, what: &'static str) -> ParseFault
        ensures { SaysAt (expected_words false what.now) (input.next_place self.now) result }
    {
        self.missing(Expected {
            at_end: false,
            what,
        })
    }

    // The fault of that message, of the next token, or of what closes the list.
    fn missing(&self, message: Expected) -> ParseFault
        ensures { SaysAt (expected_words message.at_end message.what.now) (input.next_place self.now) result }
    {
        match Error::new(self.alloc, self.cursor.span(), message) {
            Ok(error) => ParseFault::Syntax(error),
            Err(_) => ParseFault::Memory,
        }
    }

    // The fault that a token was left over.
    pub(crate) fn left_over(&self, token: Leftover) -> ParseFault
        ensures { SaysAt (unexpected_words token.closer) token.span result }
    {
        match Error::new(self.alloc, token.span, unexpected_words(token.closer)) {
            Ok(error) => ParseFault::Syntax(error),
            Err(_) => ParseFault::Memory,
        }
    }

    /// The fault that the next token is not expected: it says so of that token, or at an end of what closes the list.
    /// Where memory for the words is refused it is that.
    pub fn unexpected(&self) -> ParseFault
        ensures { SaysAt (unexpected_words self.now.cursor.closer) (input.next_place self.now) result }
    {
        self.left_over(Leftover {
            span: self.cursor.span(),
            closer: self.cursor.closer(),
        })
    }

    /// An error that says the message of the next token, or at an end of what closes the list.
    ///
    /// The error of the call is that there was no memory for the message's text.
    pub fn error<M: fmt::Display + Drop>(&self, message: M) -> Result<Error, AllocError>
        ensures { IfOk result (λ e. let span = input.next_place self.now in Says (M.output message) span span e) }
    {
        Error::new(self.alloc, self.cursor.span(), message)
    }
}
