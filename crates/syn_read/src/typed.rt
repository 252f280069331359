//! Forms that are read as the types of the syntax tree.

ghost use Rattle.reader_steps.specs.Answers.{tokens};
ghost use Rattle.std.specs.Prelude.{◌≡◌, IfErr, IfOk, OnErr};
ghost use Rattle.syn_read.specs.Parsed.{IsAll, IsNone};
ghost use Rattle.syn_read.specs.Reading.{IsOnward, left};
ghost use Rattle.syn_error.specs.Faults.{IsSyntax};
ghost use Rattle.syn_grammar.specs.Read.{IsDerived, NoneRead};
ghost use Rattle.syn_grammar.specs.Tree.{Tree as GivenTree};

use crate::parse::parse_as;
use crate::reader::Reader;
use reader_tree::arena::Arena;
use syn_buffer::TokenBuffer;
use syn_error::ParseFault;
pub use syn_typed::Parse;

/// All tokens of the buffer as a form of the type, as `parse2::<DeriveInput>(&arena, &buffer)`. Its tree stands in the
/// arena.
///
/// # Errors
///
/// Those of `parse_as`.
pub fn parse2<'a, T: Parse<'a>>(
    arena: &'a Arena,
    buffer: &'a TokenBuffer<'a>,
) -> Result<T, ParseFault>
    ensures read { IfOk result (λ x. (tree : GivenTree)
        × IsAll T.kind (tokens buffer.now.entries.items) tree × T.says x tree) }
    ensures refused { IfErr result (λ e. IsSyntax e → IsNone T.kind (tokens buffer.now.entries.items)) }
{
    let tree = parse_as(arena, T::kind(), buffer)?;
    let tree = arena.put(tree)?;
    match T::view(tree) {
        Some(form) => Ok(form),
        None => unreachable!(),
    }
}

impl<'a> Reader<'a> {
    /// Reads the form of the type that stands there, as `input.form::<Type>()`.
    ///
    /// # Errors
    ///
    /// Those of `parse`. The reader then stands where it stood.
    pub fn form<T: Parse<'a>>(&mut self) -> Result<T, ParseFault>
        ensures read { IfOk result (λ x. (tree : GivenTree)
            × IsDerived T.kind (left self.old) tree (left self.new) × T.says x tree) }
        ensures refused { IfErr result (λ e. IsSyntax e → NoneRead T.kind (left self.old)) }
        ensures stays { OnErr result (self.new ≡ self.old) }
        ensures onward { IsOnward self.old self.new }
    {
        let mut ahead = *self;
        let tree = ahead.parse(T::kind())?;
        let tree = self.arena.put(tree)?;
        match T::view(tree) {
            Some(form) => {
                *self = ahead;
                Ok(form)
            }
            None => unreachable!(),
        }
    }
}
