//! Forms that are one of several of a kind, read by themselves.

ghost use Rattle.reader_steps.specs.Answers.{tokens};
ghost use Rattle.proc_macro2.specs.Token.{Token};
ghost use Rattle.std.specs.Prelude.{◌≡◌, IfErr, IfOk, IsErrAnd, IsFalse, IsTrue, List, OnErr, OnOk};
ghost use Rattle.syn_read.specs.Parsed.{IsAll, first_place};
ghost use Rattle.syn_read.specs.Reading as reading;
ghost use Rattle.syn_read.specs.Single.{IsNoneMeant, NoneMeant, StandsAt};
ghost use Rattle.syn_read.specs.Streams.{IsPassed, invisible_words};
ghost use Rattle.syn_error.specs.Faults.{IsSyntax};
ghost use Rattle.syn_grammar.specs.Read.{IsDerived};
ghost use Rattle.syn_grammar.specs.Tree.{Tree as GivenTree};
ghost use Rattle.syn_input.specs.Input.{IsOnward, left, next_place};
ghost use Rattle.syn_input.specs.Words.{SaysAt};

use crate::parse::parse_as;
use crate::reader::Reader;
use crate::stream::ParseForms;
use reader_tree::arena::Arena;
use syn_buffer::TokenBuffer;
use syn_error::ParseFault;
use syn_input::ParseBuffer;
pub use syn_single::ParseSingle;

/// All tokens of the buffer as the single form, as `parse2_single::<ExprCall>(&arena, &buffer)`. Its tree stands in the
/// arena.
///
/// # Errors
///
/// `Syntax` exactly where they are no form of the kind, which the error says as that of `parse_as` does, or where they
/// are another form: the error then says what was wanted, at the first token. `Memory` only where a growth was
/// refused.
pub fn parse2_single<'a, T: ParseSingle<'a>>(
    arena: &'a Arena,
    buffer: &'a TokenBuffer<'a>,
) -> Result<T, ParseFault>
    ensures read { IfOk result (λ x. (tree : GivenTree)
        × IsAll T.kind (tokens buffer.now.entries.items) tree × T.is_meant tree × T.says x tree) }
    ensures refused { IfErr result (λ e. IsSyntax e
        → IsNoneMeant T.kind T.is_meant (tokens buffer.now.entries.items)) }
    ensures placed { (tree : GivenTree) → IsAll T.kind (tokens buffer.now.entries.items) tree
        → IfErr result (StandsAt (first_place buffer.now)) }
{
    let tree = parse_as(arena, T::kind(), buffer)?;
    let tree = arena.put(tree)?;
    match T::view(tree) {
        Some(form) => Ok(form),
        None => Err(Reader::new(arena, buffer).other(T::refusal())),
    }
}

impl<'a> Reader<'a> {
    // The fault that another form stands there.
    fn other(&self, refusal: &str) -> ParseFault
        ensures { StandsAt (reading.standing self.now) result }
    {
        match self.error(refusal) {
            Ok(error) => ParseFault::Syntax(error),
            Err(_) => ParseFault::Memory,
        }
    }

    /// Reads the single form that stands there, as `input.single::<ExprCall>()`.
    ///
    /// # Errors
    ///
    /// `Syntax` exactly where no form of the kind stands, as `parse` says it, or where another one stands: the error
    /// then says what was wanted, at the next token. `Memory` only where a growth was refused. The reader then stands
    /// where it stood.
    pub fn single<T: ParseSingle<'a>>(&mut self) -> Result<T, ParseFault>
        ensures read { IfOk result (λ x. (tree : GivenTree)
            × IsDerived T.kind (reading.left self.old) tree (reading.left self.new)
            × T.is_meant tree × T.says x tree) }
        ensures refused { IfErr result (λ e. IsSyntax e → NoneMeant T.kind T.is_meant (reading.left self.old)) }
        ensures placed { (tree : GivenTree) (rest : List Token) → IsDerived T.kind (reading.left self.old) tree rest
            → IfErr result (StandsAt (reading.standing self.old)) }
        ensures stays { OnErr result (self.new ≡ self.old) }
        ensures onward { reading.IsOnward self.old self.new }
    {
        let mut ahead = *self;
        let tree = ahead.parse(T::kind())?;
        let tree = self.arena.put(tree)?;
        match T::view(tree) {
            Some(form) => {
                *self = ahead;
                Ok(form)
            }
            None => Err(self.other(T::refusal())),
        }
    }
}

/// Forms of the syntax tree that are one of several of a kind, read from a stream, as
/// `let call: ExprCall = input.single(&arena)?`.
pub trait ParseSingleForm<'a, T: ParseSingle<'a>> {
    /// Reads the single form that stands there. Its tree stands in the arena.
    ///
    /// # Errors
    ///
    /// Those of `ParseForms::parse_as`; and `Syntax` where another form of the kind stands: the error says what was
    /// wanted, at the next token. The stream then stands where it stood.
    fn single(&mut self, arena: &'a Arena) -> Result<T, ParseFault>;
}

// The fault that another form stands there.
fn other(input: &ParseBuffer<'_>, refusal: &str) -> ParseFault
    ensures { StandsAt (next_place input.now) result }
{
    match input.error(refusal) {
        Ok(error) => ParseFault::Syntax(error),
        Err(_) => ParseFault::Memory,
    }
}

impl<'a, T: ParseSingle<'a>> ParseSingleForm<'a, T> for ParseBuffer<'a> {
    fn single(&mut self, arena: &'a Arena) -> Result<T, ParseFault>
        ensures read { IfOk result (λ x. (tree : GivenTree)
            × IsDerived T.kind (left self.old) tree (left self.new) × T.is_meant tree × T.says x tree) }
        ensures passed { OnOk result (IsPassed self.old self.new) }
        ensures refused { IfErr result (λ e. IsSyntax e → IsTrue self.old.cursor.all_visible
            → NoneMeant T.kind T.is_meant (left self.old)) }
        ensures placed { IsTrue self.old.cursor.all_visible → (tree : GivenTree) (rest : List Token)
            → IsDerived T.kind (left self.old) tree rest → IfErr result (StandsAt (next_place self.old)) }
        ensures invisible { IsFalse self.old.cursor.all_visible
            → IsErrAnd result (SaysAt invisible_words (next_place self.old)) }
        ensures stays { OnErr result (self.new ≡ self.old) }
        ensures noted { self.new.noted ≡ self.old.noted }
        ensures onward { IsOnward self.old self.new }
    {
        let mut ahead = self.fork();
        let tree = ahead.parse_as(arena, T::kind())?;
        let tree = arena.put(tree)?;
        match T::view(tree) {
            Some(form) => {
                self.advance_to(ahead);
                Ok(form)
            }
            None => Err(other(self, T::refusal())),
        }
    }
}
