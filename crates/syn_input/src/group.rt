//! Groups in a stream: how their insides are read, and what becomes of what is left over in them.

ghost use Rattle.proc_macro2.specs.Trees.{delim_span_of};
ghost use Rattle.proc_macro2.specs.declared.delimiter.Delimiter.TheVariants as delimiter;
ghost use Rattle.std.specs.Prelude.{None, ◌≡◌, IfErr, IfOk, OnErr, OnOk, false, true};
ghost use Rattle.syn_error.specs.Faults.{IsSyntax};
ghost use Rattle.syn_buffer.specs.Groups.{Enters};
ghost use Rattle.syn_input.specs.Input.{first_of_two, left, leftover, rest};
ghost use Rattle.syn_buffer.specs.Position.{IsPast};
ghost use Rattle.syn_kinds.specs.Stands.{group_stands};
ghost use Rattle.syn_buffer.specs.Stands.{end_stands};

use crate::input::{Leftover, ParseBuffer};
use proc_macro2::delimiter::Delimiter;
use proc_macro2::group::DelimSpan;
use syn_error::fault::ParseFault;

/// What messages call a group with the delimiter.
fn called(delimiter: Delimiter) -> &'static str {
    match delimiter {
        Delimiter::Parenthesis => "parentheses",
        Delimiter::Brace => "curly braces",
        Delimiter::Bracket => "square brackets",
        Delimiter::None => "group",
    }
}

impl<'a> ParseBuffer<'a> {
    /// The visible group with that delimiter that stands there: its spans, and its inside as a stream of its
    /// own. The place is then behind the group.
    ///
    /// The fault is that no such group stands there.
    pub fn parse_group(
        &mut self,
        delimiter: Delimiter,
    ) -> Result<(DelimSpan, ParseBuffer<'a>), ParseFault>
        ensures found { IfOk result (λ r. Enters self.old.cursor delimiter r.0.join r.1.cursor self.new.cursor) }
        ensures spans { IfOk result (λ r. r.0 ≡ delim_span_of r.0.join) }
        ensures fresh { IfOk result (λ r. r.1.noted ≡ None) }
        ensures none { IfErr result (λ e. IsSyntax e → group_stands delimiter (left self.old) ≡ false) }
        ensures noted { self.new.noted ≡ self.old.noted }
        ensures stays { OnErr result (self.new ≡ self.old) }
    {
        match self.cursor.group(delimiter) {
            Some((inside, span, behind)) => {
                self.cursor = behind;
                Ok((span, ParseBuffer::new(self.alloc, inside)))
            }
            None => Err(self.expected(called(delimiter))),
        }
    }

    // The first thing that is left over when the list is closed here.
    pub(crate) fn leftover(&self) -> Option<Leftover>
        ensures { result ≡ leftover self.now }
    {
        if self.noted.is_some() {
            return self.noted;
        }
        if self.cursor.eof() {
            return None;
        }
        Some(Leftover {
            span: self.cursor.span(),
            closer: self.cursor.closer(),
        })
    }

    /// Closes a group that has been read. What is left over in it is no fault here: the first such token is
    /// refused at the end of the whole parse.
    pub fn close(&mut self, content: ParseBuffer<'a>)
        ensures noted { self.new.noted ≡ first_of_two self.old.noted (leftover content.entry) }
        ensures stays { self.new.cursor ≡ self.old.cursor }
    {
        if self.noted.is_none() {
            self.noted = content.leftover();
        }
    }

    /// Lets a fork go, and all that was read from it.
    pub fn discard(&self, fork: ParseBuffer<'a>) {
        let ParseBuffer {
            cursor: _,
            noted: _,
            alloc: _,
        } = fork;
    }

    /// Goes on where a fork stands, which must be one of this stream and not behind it: of the same list, at this place
    /// or past it. What was left over in groups that the fork has closed is left over here.
    pub fn advance_to(&mut self, fork: ParseBuffer<'a>)
        requires { IsPast self.old.cursor fork.cursor }
        ensures noted { self.new.noted ≡ first_of_two self.old.noted fork.entry.noted }
        ensures cursor { self.new.cursor ≡ fork.entry.cursor }
    {
        self.cursor = fork.cursor;
        if self.noted.is_none() {
            self.noted = fork.noted;
        }
    }

    /// Nothing may be left of the list.
    ///
    /// The fault is that a token is left.
    pub fn require_end(&self) -> Result<(), ParseFault>
        ensures ok { OnOk result (end_stands (left self.now) ≡ true) }
        ensures err { OnErr result (end_stands (left self.now) ≡ false) }
    {
        if self.is_empty() {
            return Ok(());
        }
        Err(self.unexpected())
    }
}
