//! Values that are read from a stream, by the tree that the grammar derives of its tokens.
#![tactic(auto)]

ghost use Rattle.node_shapes.specs.Shape.{IsShaped};
ghost use Rattle.reader_steps.specs.Answers.{IsSyntax as IsWrong, tokens};
ghost use Rattle.reader_steps.specs.declared.refusal.Refusal.TheVariants.{Late};
ghost use Rattle.reader_table.specs.Kinds.{kind_of};
ghost use Rattle.std.specs.Prelude.{◌-◌, ◌≡◌, ◌≤◌, IfErr, IfOk, IsTrue, OnOk, drop, length};
ghost use Rattle.syn_buffer.specs.Entries.{is_whole, spanned_entries};
ghost use Rattle.syn_buffer.specs.Position.{rest as rest_of};
ghost use Rattle.syn_error.specs.Faults.{IsSyntax};
ghost use Rattle.syn_grammar.specs.Gram.{ref};
ghost use Rattle.syn_grammar.specs.Kept.{kept};
ghost use Rattle.syn_grammar.specs.Kind.{Kind as GivenKind};
ghost use Rattle.syn_grammar.specs.Read.{IsRead, NoneRead};
ghost use Rattle.syn_grammar.specs.Tree.{Tree as GivenTree};
ghost use Rattle.syn_input.specs.Input.{IsOnward, left};

use node_seen::{behind_seen, seen_entries, whole_are_trees};
use node_shapes::laws::read_are_shaped;
use reader_rust::grammar::Grammar;
use reader_rust::said::error;
use reader_steps::read::read as read_tree;
use reader_steps::refusal::{Refusal, Wrong};
use reader_table::kind::Kind;
use reader_tree::arena::Arena;
use reader_tree::tree::Tree;
use std::alloc::{AllocError, Global};
use syn_buffer::entry::Entry;
use syn_error::ParseFault;
use syn_input::ParseBuffer;

/// What makes a value of a tree of one kind.
pub trait Makes<T> {
    /// That kind.
    ghost kind: { GivenKind };

    /// What a value is as a tree that a syntax tree holds.
    ghost view: { T → GivenTree };

    /// That kind.
    fn kind() -> Kind
        ensures { kind_of result ≡ kind };

    /// The value that a tree is.
    ///
    /// # Errors
    ///
    /// Where there is no memory for it.
    fn make(alloc: Global, tree: &Tree<'_>) -> Result<T, AllocError>
        requires { IsShaped tree.now (ref kind) }
        ensures { IfOk result (λ x. view x ≡ kept tree.now) };
}

// The value of the form with which the entries begin, and how many are left behind it.
fn made_in<'a, T: Drop, M: Makes<T>>(
    arena: &'a Arena,
    alloc: Global,
    entries: &'a [Entry<'a>],
) -> Result<(T, usize), Refusal>
    requires { IsTrue (is_whole entries.now) }
    ensures found { IfOk result (λ r. IsRead M.kind (tokens entries.now) (M.view r.0)
        (tokens (drop (length entries.now - r.1) entries.now))) }
    ensures within { IfOk result (λ r. r.1 ≤ length entries.now) }
    ensures whole { IfOk result (λ r. IsTrue (is_whole (drop (length entries.now - r.1) entries.now))) }
    ensures none { IfErr result (λ e. IsWrong e → NoneRead M.kind (tokens entries.now)) }
    ensures ended { IfErr result (λ e. e ≡ Late → ⊥) }
{
    whole_are_trees();
    read_are_shaped();
    let (tree, rest) = read_tree(&Grammar, arena, M::kind(), entries)?;
    match M::make(alloc, &tree) {
        Ok(value) => Ok((value, rest.len())),
        Err(AllocError) => Err(Refusal::Memory),
    }
}

// What is said of a form that was not read: where the list ends, it stands at what closes that.
fn refused(input: &ParseBuffer<'_>, wrong: Wrong) -> ParseFault {
    let placed = Wrong {
        span: Some(wrong.span.unwrap_or(input.cursor().at_end().span())),
        is_end: wrong.is_end,
        wanted: wrong.wanted,
    };
    match error(input.allocator(), placed) {
        Ok(error) => ParseFault::Syntax(error),
        Err(_) => ParseFault::Memory,
    }
}

// The value of the form that stands there, of which the entries are what is seen.
fn made<T: Drop, M: Makes<T>>(
    input: &mut ParseBuffer<'_>,
    entries: &[Entry<'_>],
) -> Result<T, ParseFault>
    requires seen { spanned_entries entries.now ≡ rest_of input.old.cursor }
    requires whole { IsTrue (is_whole entries.now) }
    ensures found { IfOk result (λ x. IsRead M.kind (left input.old) (M.view x) (left input.new)) }
    ensures none { IfErr result (λ e. IsSyntax e → NoneRead M.kind (left input.old)) }
    ensures noted { OnOk result (input.new.noted ≡ input.old.noted) }
    ensures onward { IsOnward input.old input.new }
{
    let alloc = input.allocator();
    let arena = Arena::new(alloc);
    match made_in::<T, M>(&arena, alloc, &*entries) {
        Ok((value, left)) => {
            let behind = behind_seen(input.cursor(), entries, entries.len() - left);
            input.advance_to(ParseBuffer::new(alloc, behind));
            Ok(value)
        }
        Err(Refusal::Syntax(wrong)) => Err(refused(input, wrong)),
        Err(Refusal::Memory) => Err(ParseFault::Memory),
        Err(Refusal::Late) => unreachable!(),
    }
}

/// Reads the value that stands there, and leaves the stream behind it. Invisible groups are passed through.
///
/// # Errors
///
/// `Syntax` exactly where the grammar derives none of what stands there: the error says what was wanted, at the token
/// that stands in its place. `Memory` only where a growth was refused. The stream then stands where it stood.
pub fn read<T: Drop, M: Makes<T>>(input: &mut ParseBuffer<'_>) -> Result<T, ParseFault>
    ensures found { IfOk result (λ x. IsRead M.kind (left input.old) (M.view x) (left input.new)) }
    ensures none { IfErr result (λ e. IsSyntax e → NoneRead M.kind (left input.old)) }
    ensures noted { OnOk result (input.new.noted ≡ input.old.noted) }
    ensures onward { IsOnward input.old input.new }
{
    let from = input.cursor();
    match from.entries() {
        Some(entries) => made::<T, M>(input, entries),
        None => {
            let seen = seen_entries(input.allocator(), from)?;
            made::<T, M>(input, seen.as_slice())
        }
    }
}
