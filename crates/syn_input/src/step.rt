//! Reading by functions that go from place to place, and by functions that read from a stream.

ghost use Rattle.std.specs.Fn.{FnOnceReturnsAtMut};
ghost use Rattle.std.specs.Prelude.{◌≡◌, Err, IfErr, IfOk, Ok};
ghost use Rattle.syn_buffer.specs.Position.{IsPast, next_span, rest};
ghost use Rattle.syn_error.specs.Notes.{Says};
ghost use Rattle.syn_input.specs.Steps.{step_from};

use crate::input::ParseBuffer;
use std::alloc::{AllocError, Global};
use std::fmt;
use std::ops::Deref;
use syn_buffer::position::Cursor;
use syn_error::error::Error;
use syn_error::fault::ParseFault;

/// The place from which a step begins. It is used as a `Cursor`, and makes errors that speak of it.
#[derive(Clone, Copy)]
pub struct StepCursor<'a> {
    pub(crate) cursor: Cursor<'a>,
    pub(crate) alloc: Global,
}

impl<'a> Deref for StepCursor<'a> {
    type Target = Cursor<'a>;

    ghost use Rattle.std.specs.Prelude.{◌≡◌};

    fn deref(&self) -> &Cursor<'a>
        ensures { result.now ≡ self.now.cursor }
    {
        &self.cursor
    }
}

impl<'a> StepCursor<'a> {
    /// The place.
    pub fn cursor(self) -> Cursor<'a>
        ensures { result ≡ self.entry.cursor }
    {
        self.cursor
    }

    /// An error that says the message of the next token, or at an end of what closes the list.
    ///
    /// The error of the call is that there was no memory for the message's text.
    pub fn error<M: fmt::Display + Drop>(self, message: M) -> Result<Error, AllocError>
        ensures { IfOk result (λ e. let span = next_span self.entry.cursor.closing (rest self.entry.cursor) in
            Says (M.output message) span span e) }
    {
        Error::new(self.alloc, self.cursor.span(), message)
    }
}

impl<'a> ParseBuffer<'a> {
    /// Goes on as the function says: it answers a value and the place from which is read next. It must be one that may
    /// be called there, and that place must be of the same list, where this one is or past it.
    ///
    /// The fault is the function's own, and the place is then as before.
    pub fn step<R, F: FnOnce(StepCursor<'a>) -> Result<(R, Cursor<'a>), ParseFault>>(
        &mut self,
        function: F,
    ) -> Result<R, ParseFault>
        requires callable { F.pre function (step_from self.old) }
        requires onward { (r : _) → F.post function (step_from self.old) (Ok r) → IsPast self.old.cursor r.1 }
        ensures stepped { IfOk result (λ r. F.post function (step_from self.old) (Ok (r, self.new.cursor))) }
        ensures onward { IsPast self.old.cursor self.new.cursor }
        ensures failed { IfErr result (λ e. F.post function (step_from self.old) (Err e) × (self.new ≡ self.old)) }
        ensures noted { self.new.noted ≡ self.old.noted }
    {
        let from = StepCursor {
            cursor: self.cursor,
            alloc: self.alloc,
        };
        let (value, cursor) = function(from)?;
        self.cursor = cursor;
        Ok(value)
    }

    /// Reads by the function, which must be one that may be called on any stream.
    ///
    /// The fault is the function's own, and the stream then stands where the function left it.
    pub fn call<T, F: FnOnce(&mut ParseBuffer<'a>) -> Result<T, ParseFault>>(
        &mut self,
        function: F,
    ) -> Result<T, ParseFault>
        requires { F.IsAlwaysCallable function }
        ensures { FnOnceReturnsAtMut F.FnOnce function self.old result self.new }
    {
        function(self)
    }
}
