//! Syntax errors.

ghost use Rattle.std.specs.Prelude.{[], ◌++◌, ◌∷◌, ◌≡◌, IfOk, List, OnErr, OnOk, Some, string_bytes};
ghost use Rattle.proc_macro2.specs.Token.{Spanned};
ghost use Rattle.rust_map.specs.Faults.{error_message};
ghost use Rattle.syn_error.specs.Notes.{Says, first_place, last_place, place_of, words_of};

use crate::place::ErrorPlace;
use crate::to_tokens::ToTokens;
use proc_macro2::tree::TokenStream;
use rust_map::fault::LexError;
use rust_map::span::Span;
use std::alloc::{AllocError, Global};
use std::fmt;
use std::marker::Model;
use std::ops::Range;

/// What an error says of a part of a text.
#[derive(Debug, Drop)]
pub(crate) struct Message {
    /// Where the part's first token stands.
    pub(crate) start: Span,
    /// Where its last token stands.
    pub(crate) end: Span,
    /// What is said.
    pub(crate) words: String,
}

/// Why tokens can't be read: one or more messages, each with the part of the text that it speaks of. To a
/// contract it is their list.
#[derive(Debug, Drop)]
pub struct Error {
    pub(crate) first: Message,
    pub(crate) others: Vec<Message>,
}

impl Model for Error {
    ghost use Rattle.std.specs.Prelude.{List};
    ghost use Rattle.syn_error.specs.Notes.{Note};

    ghost Value = { List Note };

    ghost use Rattle.syn_error.specs.Messages.{notes};

    ghost view = { notes };
}

// Where the first and the last of the stream's trees stand.
fn ends(stream: &TokenStream) -> (Span, Span)
    ensures first { result.0 ≡ first_place stream.now }
    ensures last { result.1 ≡ last_place stream.now }
{
    match stream.trees() {
        [] => (Span::call_site(), Span::call_site()),
        [one] => (one.span(), one.span()),
        [first, .., last] => (first.span(), last.span()),
    }
}

impl Error {
    /// An error that says the message of the span.
    ///
    /// The error of the call is that there was no memory for the message's text.
    pub fn new<M: fmt::Display + Drop>(
        alloc: Global,
        span: Span,
        message: M,
    ) -> Result<Error, AllocError>
        ensures { IfOk result (λ e. Says (M.output message) span span e) }
    {
        let words = message.to_string(alloc)?;
        Ok(Error::one(alloc, span, span, words))
    }

    /// An error that says the message of the tokens that are printed for a value: from the first to the last of
    /// them, or of the call site where there is none.
    ///
    /// The error of the call is that there was no memory for the tokens or the message's text.
    pub fn new_spanned<T: ToTokens, M: fmt::Display + Drop>(
        alloc: Global,
        tokens: &T,
        message: M,
    ) -> Result<Error, AllocError>
        ensures { IfOk result (λ e. (printed : List Spanned) × T.puts tokens.now [] printed
            × Says (M.output message) (first_place printed) (last_place printed) e) }
    {
        let stream = tokens.to_token_stream(alloc)?;
        let words = message.to_string(alloc)?;
        let (start, end) = ends(&stream);
        Ok(Error::one(alloc, start, end, words))
    }

    /// An error that says the message of what lies between two places.
    ///
    /// The error of the call is that there was no memory for the message's text.
    pub fn new_range<P: ErrorPlace + Drop, M: fmt::Display + Drop>(
        alloc: Global,
        range: Range<P>,
        message: M,
    ) -> Result<Error, AllocError>
        ensures { IfOk result (λ e. Says (M.output message) (P.span range.start) (P.prev_span range.end) e) }
    {
        let words = message.to_string(alloc)?;
        Ok(Error::one(alloc, range.start.span(), range.end.prev_span(), words))
    }

    /// The error that says what a lexical fault says, of its span. The error of the call is that memory was refused.
    pub fn from_lex(alloc: Global, fault: LexError) -> Result<Error, AllocError>
        ensures { IfOk result (λ e. Says (Some (error_message fault)) fault.span fault.span e) }
    {
        Error::new(alloc, fault.span(), fault)
    }

    // An error of one message.
    fn one(alloc: Global, start: Span, end: Span, said: String) -> Error
        ensures { result ≡ record { start = start; end = end; text = string_bytes said } ∷ [] }
    {
        Error {
            first: Message {
                start,
                end,
                words: said,
            },
            others: Vec::new(alloc),
        }
    }

    /// Where the first message's part of the text starts.
    pub fn span(&self) -> Span
        ensures { result ≡ place_of self.now }
    {
        self.first.start
    }

    /// Puts the messages of the other error behind those of this one. If memory is refused, this one is as before.
    pub fn combine(&mut self, another: Error) -> Result<(), AllocError>
        ensures ok { OnOk result (self.new ≡ self.old ++ another) }
        ensures err { OnErr result (self.new ≡ self.old) }
    {
        let Error { first, others } = another;
        let mut added = others;
        added.insert(0, first)?;
        self.others.append(&mut added)?;
        Ok(())
    }
}

impl fmt::Display for Error {
    ghost output = { λ error. Some (words_of error) };

    fn fmt<W: fmt::Write>(&self, f: &mut fmt::Formatter<W>) -> fmt::Result {
        f.write_str(self.first.words.as_str())
    }
}
