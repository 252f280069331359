//! Groups that are entered by their kind of delimiters.

ghost use Rattle.std.specs.Prelude.{None, ◌≡◌, IfErr, IfOk, OnErr, false};
ghost use Rattle.syn_buffer.specs.Groups.{Enters};
ghost use Rattle.syn_error.specs.Faults.{IsSyntax};
ghost use Rattle.syn_input.specs.Input.{left};
ghost use Rattle.syn_kinds.specs.Stands.{group_stands};
ghost use Rattle.syn_kinds.specs.Values.{delimiter_of};

use crate::input::ParseBuffer;
use syn_error::fault::ParseFault;
use syn_kinds::delimiters::Delimiters;

/// A group that has been entered: its delimiters, and its inside as a stream of its own.
#[derive(Drop)]
pub struct Delimited<'a, const D: usize> {
    /// Where the group and its delimiters stand.
    pub token: Delimiters<D>,
    /// What stands inside.
    pub content: ParseBuffer<'a>,
}

/// A group in parentheses.
pub type Parens<'a> = Delimited<'a, 0>;

/// A group in braces.
pub type Braces<'a> = Delimited<'a, 1>;

/// A group in brackets.
pub type Brackets<'a> = Delimited<'a, 2>;

impl<'a> ParseBuffer<'a> {
    // Enters the group with these delimiters that stands there.
    fn parse_delimited<const D: usize>(&mut self) -> Result<Delimited<'a, D>, ParseFault>
        ensures found { IfOk result (λ r.
            Enters self.old.cursor (delimiter_of D) r.token.span.join r.content.cursor self.new.cursor) }
        ensures fresh { IfOk result (λ r. r.content.noted ≡ None) }
        ensures none { IfErr result (λ e. IsSyntax e → group_stands (delimiter_of D) (left self.old) ≡ false) }
        ensures noted { self.new.noted ≡ self.old.noted }
        ensures stays { OnErr result (self.new ≡ self.old) }
    {
        match self.parse_group(Delimiters::<D>::delimiter()) {
            Ok((span, content)) => Ok(Delimited {
                token: Delimiters { span },
                content,
            }),
            Err(fault) => Err(fault),
        }
    }

    /// The group in parentheses that stands there. The place is then behind it.
    ///
    /// The fault is that no such group stands there, and the place is then as before.
    pub fn parse_parens(&mut self) -> Result<Parens<'a>, ParseFault>
        ensures found { IfOk result (λ r.
            Enters self.old.cursor (delimiter_of 0) r.token.span.join r.content.cursor self.new.cursor) }
        ensures fresh { IfOk result (λ r. r.content.noted ≡ None) }
        ensures none { IfErr result (λ e. IsSyntax e → group_stands (delimiter_of 0) (left self.old) ≡ false) }
        ensures noted { self.new.noted ≡ self.old.noted }
        ensures stays { OnErr result (self.new ≡ self.old) }
    {
        self.parse_delimited::<0>()
    }

    /// The group in braces that stands there. The place is then behind it.
    ///
    /// The fault is that no such group stands there, and the place is then as before.
    pub fn parse_braces(&mut self) -> Result<Braces<'a>, ParseFault>
        ensures found { IfOk result (λ r.
            Enters self.old.cursor (delimiter_of 1) r.token.span.join r.content.cursor self.new.cursor) }
        ensures fresh { IfOk result (λ r. r.content.noted ≡ None) }
        ensures none { IfErr result (λ e. IsSyntax e → group_stands (delimiter_of 1) (left self.old) ≡ false) }
        ensures noted { self.new.noted ≡ self.old.noted }
        ensures stays { OnErr result (self.new ≡ self.old) }
    {
        self.parse_delimited::<1>()
    }

    /// The group in brackets that stands there. The place is then behind it.
    ///
    /// The fault is that no such group stands there, and the place is then as before.
    pub fn parse_brackets(&mut self) -> Result<Brackets<'a>, ParseFault>
        ensures found { IfOk result (λ r.
            Enters self.old.cursor (delimiter_of 2) r.token.span.join r.content.cursor self.new.cursor) }
        ensures fresh { IfOk result (λ r. r.content.noted ≡ None) }
        ensures none { IfErr result (λ e. IsSyntax e → group_stands (delimiter_of 2) (left self.old) ≡ false) }
        ensures noted { self.new.noted ≡ self.old.noted }
        ensures stays { OnErr result (self.new ≡ self.old) }
    {
        self.parse_delimited::<2>()
    }
}
