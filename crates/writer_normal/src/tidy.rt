//! What is made of a kind's parts.

ghost use Rattle.writer_normal.specs.Changes.{arguments_first, change_of, emptied, ordered};
ghost use Rattle.writer_normal.specs.Separators.{IsFault};
ghost use Rattle.reader_table.specs.Kinds.{kind_of};
ghost use Rattle.reader_table.specs.Parts.{part_of};
ghost use Rattle.std.specs.Prelude.{◌≡◌, IfOk, MatchResult, cond};
ghost use Rattle.syn_grammar.specs.Name as name;
ghost use Rattle.syn_grammar.specs.Name.{number, same_part};
ghost use Rattle.syn_grammar.specs.Part.{changed};
ghost use Rattle.syn_grammar.specs.Tidy.{is_absent, moved, tidy_impl, without_generics};
ghost use Rattle.syn_grammar.specs.Tree as t;

use crate::fault::Fault;
use crate::forget::{constant_default, not_last};
use crate::lifetime::{Which, lifetimes_first};
use crate::{fault_steps, steps};
use reader_table::kind::Kind;
use reader_table::part::Part;
use reader_tree::arena::Arena;
use reader_tree::made;
use reader_tree::tree::{Form, Tree};
use std::alloc::AllocError;
use writer_rules::seen::{is_bare_colon, is_bare_generics, is_bare_where, keeps_generics};

// Nothing in the place of a part, where it is removed.
fn removed_if<'a>(arena: &'a Arena, removed: bool, tree: Tree<'a>) -> Result<Tree<'a>, AllocError>
    ensures { IfOk result (λ x. x ≡ cond removed (t.Second t.Nil) tree.entry) }
{
    if removed {
        made::second(arena, made::nil())
    } else {
        Ok(tree)
    }
}

// Whether what stands in a part is a where clause that is not there.
#[tactic(auto, using(crate::proofs::Tidying::clauses))]
fn is_absent_clause(tree: &Tree<'_>) -> bool
    ensures { (n : name.Part) → result ≡ is_absent (t.Called n tree.now) }
{
    match tree.node() {
        Some((kind, clause)) => match kind {
            Kind::Where => clause.is_second(),
            _ => false,
        },
        None => false,
    }
}

// Whether it is a part in which such a clause stands.
#[tactic(auto, using(crate::proofs::Tidying::absents))]
fn is_absent(tree: &Tree<'_>) -> bool
    ensures { result ≡ is_absent tree.now }
{
    match &tree.form {
        Form::Called(_, inner) => is_absent_clause(inner),
        _ => false,
    }
}

// A where clause before a definition, which stands behind it where it is not there.
#[tactic(auto, using(crate::proofs::Tidying::moves))]
fn moved<'a>(arena: &'a Arena, tree: &Tree<'a>) -> Result<Tree<'a>, AllocError>
    ensures { IfOk result (λ x. x ≡ moved tree.now) }
{
    let Some(both) = tree.first() else {
        return Ok(tree.copy());
    };
    let Some((clause, definition)) = both.pair() else {
        return Ok(tree.copy());
    };
    if !is_absent(clause) {
        return Ok(tree.copy());
    }
    let turned = made::pair(arena, definition.copy(), clause.copy())?;
    made::second(arena, turned)
}

// The generics of an impl, without those that have no parameter.
#[tactic(auto, using(crate::proofs::Tidying::generics))]
fn without_generics<'a>(arena: &'a Arena, tree: &Tree<'a>) -> Result<Tree<'a>, AllocError>
    ensures { IfOk result (λ x. x ≡ without_generics tree.now) }
{
    match tree.node() {
        Some((kind, inner)) => match kind {
            Kind::ImplGenerics => {
                let kept = removed_if(arena, is_bare_generics(inner), inner.copy())?;
                made::node(arena, Kind::ImplGenerics, kept)
            }
            _ => Ok(tree.copy()),
        },
        None => Ok(tree.copy()),
    }
}

/// What is made of a part.
#[derive(Clone, Copy)]
pub(crate) enum Change {
    /// A where clause that is not there stands behind the definition.
    Moved,
    /// Generics without parameters are not written.
    Generics,
    /// Whether an arm without a comma is the last is not held.
    Last,
    /// The default of a constant parameter is an expression.
    Default,
}

// A part, changed so.
fn changed_part<'a>(
    arena: &'a Arena,
    change: Change,
    tree: &Tree<'a>,
) -> Result<Tree<'a>, AllocError>
    ensures { IfOk result (λ x. x ≡ change_of change tree.now) }
{
    match change {
        Change::Moved => moved(arena, tree),
        Change::Generics => without_generics(arena, tree),
        Change::Last => not_last(arena, tree),
        Change::Default => constant_default(arena, tree),
    }
}

// The number of a name.
fn number(part: Part) -> u8
    ensures { result ≡ number (part_of part) }
{
    part as u8
}

// Two names are one.
#[tactic(auto, unfolding(syn_grammar::specs::Name::same_part))]
fn is_same(one: Part, other: Part) -> bool
    ensures { result ≡ same_part (part_of one) (part_of other) }
{
    number(one) == number(other)
}

/// A tree with its part of that name changed so.
///
/// # Errors
///
/// Where there is no memory for it.
#[tactic(auto, using(crate::proofs::Tidying::changes))]
pub(crate) fn changed<'a>(
    arena: &'a Arena,
    part: Part,
    change: Change,
    tree: &Tree<'a>,
) -> Result<Tree<'a>, AllocError>
    ensures { IfOk result (λ x. x ≡ changed (part_of part) (change_of change) tree.now) }
{
    match &tree.form {
        Form::Called(name, inner) => {
            if is_same(*name, part) {
                steps::called(arena, *name, changed_part(arena, change, inner))
            } else {
                Ok(tree.copy())
            }
        }
        Form::Pair(two) => {
            let front = changed(arena, part, change, &two.front);
            steps::pair(arena, front, changed(arena, part, change, &two.back))
        }
        Form::First(depth, inner) => {
            let inner = changed(arena, part, change, inner);
            steps::first_behind(arena, *depth as usize, inner)
        }
        Form::Second(depth, inner) => {
            steps::second_behind(arena, *depth, changed(arena, part, change, inner))
        }
        Form::Group(delimiter, group) => {
            let inner = changed(arena, part, change, &group.inside);
            steps::group(arena, *delimiter, group.span, inner)
        }
        _ => Ok(tree.copy()),
    }
}

// A tree with its arguments changed so that lifetimes come first.
#[tactic(auto, using(crate::proofs::Tidying::changes, crate::proofs::Mixing::places))]
fn arguments_first<'a>(arena: &'a Arena, tree: &Tree<'a>) -> Result<Tree<'a>, Fault>
    ensures { MatchResult result (λ x. x ≡ arguments_first tree.now)
        (λ fault. IsFault fault (arguments_first tree.now)) }
{
    match &tree.form {
        Form::Called(name, inner) => {
            if is_same(*name, Part::Arguments) {
                let inner = lifetimes_first(arena, Which::Arguments, inner);
                fault_steps::called(arena, *name, inner)
            } else {
                Ok(tree.copy())
            }
        }
        Form::Pair(two) => {
            let front = arguments_first(arena, &two.front);
            fault_steps::pair(arena, front, arguments_first(arena, &two.back))
        }
        Form::First(depth, inner) => {
            fault_steps::first_behind(arena, *depth as usize, arguments_first(arena, inner))
        }
        Form::Second(depth, inner) => {
            fault_steps::second_behind(arena, *depth, arguments_first(arena, inner))
        }
        Form::Group(delimiter, group) => {
            let inner = arguments_first(arena, &group.inside);
            fault_steps::group(arena, *delimiter, group.span, inner)
        }
        _ => Ok(tree.copy()),
    }
}

// The parts of an impl.
fn tidy_impl<'a>(arena: &'a Arena, inner: &Tree<'a>) -> Result<Tree<'a>, AllocError>
    ensures { IfOk result (λ x. x ≡ tidy_impl inner.now) }
{
    if keeps_generics(inner) {
        Ok(inner.copy())
    } else {
        changed(arena, Part::Generics, Change::Generics, inner)
    }
}

/// What is left of a kind's parts before they are made their normal form: nothing empty is written.
///
/// # Errors
///
/// Where there is no memory for it.
pub(crate) fn emptied<'a>(
    arena: &'a Arena,
    kind: Kind,
    inner: &Tree<'a>,
) -> Result<Tree<'a>, AllocError>
    ensures { IfOk result (λ x. x ≡ emptied (kind_of kind) inner.now) }
{
    match kind {
        Kind::Where => removed_if(arena, is_bare_where(inner), inner.copy()),
        Kind::Generics => removed_if(arena, is_bare_generics(inner), inner.copy()),
        Kind::BoundsColon => removed_if(arena, is_bare_colon(inner), inner.copy()),
        Kind::LifetimeColon => removed_if(arena, is_bare_colon(inner), inner.copy()),
        Kind::AnImpl => tidy_impl(arena, inner),
        _ => Ok(inner.copy()),
    }
}

/// What is made of the normal form of a kind's parts: lifetimes come first, and a where clause that is not there stands
/// behind the definition.
///
/// # Errors
///
/// Where there is no memory for it, or where no tree is it.
pub(crate) fn ordered<'a>(arena: &'a Arena, kind: Kind, inner: &Tree<'a>) -> Result<Tree<'a>, Fault>
    ensures { MatchResult result (λ x. x ≡ ordered (kind_of kind) inner.now)
        (λ fault. IsFault fault (ordered (kind_of kind) inner.now)) }
{
    match kind {
        Kind::GenericParams => lifetimes_first(arena, Which::Params, inner),
        Kind::Arguments => arguments_first(arena, inner),
        Kind::ATypeAlias(_) => Ok(changed(arena, Part::Value, Change::Moved, inner)?),
        _ => Ok(inner.copy()),
    }
}
