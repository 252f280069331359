//! Forms that are read from a stream, among tokens that are read one by one.

ghost use Rattle.reader_table.specs.Kinds.{kind_of};
ghost use Rattle.reader_table.specs.Looks.{look_of};
ghost use Rattle.std.specs.Prelude.{◌≡◌, ◌&&◌, IfErr, IfNone, IfOk, IfSome, IsErrAnd, IsFalse, IsTrue};
ghost use Rattle.std.specs.Prelude.{MatchOption, OnErr};
ghost use Rattle.std.specs.Prelude.{OnOk, false, true};
ghost use Rattle.syn_read.specs.Streams.{IsPassed, invisible_words};
ghost use Rattle.syn_error.specs.Faults.{IsSyntax};
ghost use Rattle.syn_grammar.specs.Forms.{operand_stands};
ghost use Rattle.syn_grammar.specs.Look.{sees};
ghost use Rattle.syn_grammar.specs.Read.{IsDerived, NoneRead};
ghost use Rattle.syn_grammar.specs.Tree.{Tree as GivenTree};
ghost use Rattle.syn_input.specs.Input.{IsOnward, left, next_place};
ghost use Rattle.syn_input.specs.Words.{SaysAt};

use crate::optional::ParseOptional;
use crate::peek::operand_stands;
use reader_rust::grammar::Grammar;
use reader_rust::said::error;
use reader_steps::read::read;
use reader_steps::refusal::{Refusal, Wrong};
use reader_steps::rules::Rules;
use reader_table::kind::Kind;
use reader_table::op::{Look, Test};
use reader_tree::arena::Arena;
use reader_tree::tree::Tree;
use syn_error::ParseFault;
use syn_input::ParseBuffer;
use syn_typed::Parse;

/// Forms of the syntax tree, read as trees from a stream that tokens are read from too.
///
/// They are read from tokens in whose buffer no invisible group stands (`TokenBuffer::has_invisible_groups`).
pub trait ParseForms<'a> {
    /// Reads the form of the kind that stands there, as a tree in the arena.
    ///
    /// # Errors
    ///
    /// `Syntax` exactly where none does: the error says what was wanted, at the token that stands in its place; and
    /// where an invisible group stands in the buffer, which it then says. `Memory` only where a growth was refused.
    /// The stream then stands where it stood.
    fn parse_as(&mut self, arena: &'a Arena, kind: Kind) -> Result<Tree<'a>, ParseFault>;

    /// Whether an expression begins there, by the first tokens alone, as `Expr::peek` of syn says it. Where an
    /// invisible group stands in the buffer none does.
    fn begins_expression(&self) -> bool;
}

/// Forms of the syntax tree, read as a type of it, as `let ty: Type = input.form(&arena)?`.
pub trait ParseForm<'a, T: Parse<'a>> {
    /// Reads the form of the type that stands there. Its tree stands in the arena.
    ///
    /// # Errors
    ///
    /// Those of `ParseForms::parse_as`.
    fn form(&mut self, arena: &'a Arena) -> Result<T, ParseFault>;
}

/// Forms of the syntax tree that may be missing, as `let clause: Option<WhereClause> = input.parse_optional(&arena)?`.
pub trait ParseOptionalForm<'a, T: ParseOptional<'a>> {
    /// Reads the form of the type that stands there; `None`, and nothing is read, exactly where the grammar sees none
    /// begin.
    ///
    /// # Errors
    ///
    /// Those of `ParseForms::parse_as`.
    fn parse_optional(&mut self, arena: &'a Arena) -> Result<Option<T>, ParseFault>;
}

// What is said of a form that was not read: where the list ends, it stands at what closes that.
fn refused(input: &ParseBuffer<'_>, wrong: Wrong) -> ParseFault {
    let placed = Wrong {
        span: Some(wrong.span.unwrap_or(input.cursor().at_end().span())),
        is_end: wrong.is_end,
        wanted: wrong.wanted,
    };
    match error(input.allocator(), placed) {
        Ok(error) => ParseFault::Syntax(error),
        Err(_) => ParseFault::Memory,
    }
}

// The fault that an invisible group stands in the buffer.
fn invisible(input: &ParseBuffer<'_>) -> ParseFault
    ensures { SaysAt invisible_words (next_place input.now) result }
{
    match input.error("forms are not read among invisible groups") {
        Ok(error) => ParseFault::Syntax(error),
        Err(_) => ParseFault::Memory,
    }
}

// Whether the look sees there what it looks for; nothing where an invisible group stands in the buffer.
fn sees_there(input: &ParseBuffer<'_>, look: Look) -> Option<bool>
    ensures { MatchOption result (IsFalse input.now.cursor.all_visible)
        (λ seen. IsTrue input.now.cursor.all_visible × (seen ≡ sees (look_of look) (left input.now))) }
{
    match input.cursor().entries() {
        Some(entries) => Some(Grammar.passes(Test::Sees(look), entries)),
        None => None,
    }
}

impl<'a> ParseForms<'a> for ParseBuffer<'a> {
    fn parse_as(&mut self, arena: &'a Arena, kind: Kind) -> Result<Tree<'a>, ParseFault>
        ensures read { IfOk result (λ x. IsDerived (kind_of kind) (left self.old) x (left self.new)) }
        ensures passed { OnOk result (IsPassed self.old self.new) }
        ensures refused { IfErr result (λ e. IsSyntax e → IsTrue self.old.cursor.all_visible
            → NoneRead (kind_of kind) (left self.old)) }
        ensures invisible { IsFalse self.old.cursor.all_visible
            → IsErrAnd result (SaysAt invisible_words (next_place self.old)) }
        ensures stays { OnErr result (self.new ≡ self.old) }
        ensures noted { self.new.noted ≡ self.old.noted }
        ensures onward { IsOnward self.old self.new }
    {
        let from = self.cursor();
        let Some(entries) = from.entries() else {
            return Err(invisible(self));
        };
        match read(&Grammar, arena, kind, entries) {
            Ok((tree, rest)) => {
                let behind = from.behind(entries.len() - rest.len());
                self.advance_to(ParseBuffer::new(self.allocator(), behind));
                Ok(tree)
            }
            Err(Refusal::Syntax(wrong)) => Err(refused(self, wrong)),
            Err(Refusal::Memory) => Err(ParseFault::Memory),
            Err(Refusal::Late) => unreachable!(),
        }
    }

    fn begins_expression(&self) -> bool
        ensures { result ≡ (self.now.cursor.all_visible && sees operand_stands (left self.now)) }
    {
        match self.cursor().entries() {
            Some(entries) => operand_stands(entries),
            None => false,
        }
    }
}

impl<'a, T: Parse<'a>> ParseForm<'a, T> for ParseBuffer<'a> {
    fn form(&mut self, arena: &'a Arena) -> Result<T, ParseFault>
        ensures read { IfOk result (λ x. (tree : GivenTree)
            × IsDerived T.kind (left self.old) tree (left self.new) × T.says x tree) }
        ensures passed { OnOk result (IsPassed self.old self.new) }
        ensures refused { IfErr result (λ e. IsSyntax e → IsTrue self.old.cursor.all_visible
            → NoneRead T.kind (left self.old)) }
        ensures invisible { IsFalse self.old.cursor.all_visible
            → IsErrAnd result (SaysAt invisible_words (next_place self.old)) }
        ensures stays { OnErr result (self.new ≡ self.old) }
        ensures noted { self.new.noted ≡ self.old.noted }
        ensures onward { IsOnward self.old self.new }
    {
        let mut ahead = self.fork();
        let tree = ahead.parse_as(arena, T::kind())?;
        let tree = arena.put(tree)?;
        match T::view(tree) {
            Some(form) => {
                self.advance_to(ahead);
                Ok(form)
            }
            None => unreachable!(),
        }
    }
}

impl<'a, T: ParseOptional<'a>> ParseOptionalForm<'a, T> for ParseBuffer<'a> {
    fn parse_optional(&mut self, arena: &'a Arena) -> Result<Option<T>, ParseFault>
        ensures missing { IfOk result (λ o. IfNone o
            ((sees T.stands (left self.old) ≡ false) × (self.new ≡ self.old))) }
        ensures read { IfOk result (λ o. IfSome o (λ x. (sees T.stands (left self.old) ≡ true) × ((tree : GivenTree)
            × IsDerived T.kind (left self.old) tree (left self.new) × T.says x tree))) }
        ensures passed { IfOk result (λ o. IfSome o (λ _. IsPassed self.old self.new)) }
        ensures refused { IfErr result (λ e. IsSyntax e → IsTrue self.old.cursor.all_visible
            → (sees T.stands (left self.old) ≡ true) × NoneRead T.kind (left self.old)) }
        ensures invisible { IsFalse self.old.cursor.all_visible
            → IsErrAnd result (SaysAt invisible_words (next_place self.old)) }
        ensures stays { OnErr result (self.new ≡ self.old) }
        ensures noted { self.new.noted ≡ self.old.noted }
        ensures onward { IsOnward self.old self.new }
    {
        match sees_there(self, T::look()) {
            None => Err(invisible(self)),
            Some(false) => Ok(None),
            Some(true) => {
                let form: T = self.form(arena)?;
                Ok(Some(form))
            }
        }
    }
}
