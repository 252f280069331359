//! Steps as those of `steps`, on trees of which there may be none that is in normal form: a step answers why the tree
//! that it is to be made of isn't made.

ghost use Rattle.writer_normal.specs.Separators.{IsFault};
ghost use Rattle.reader_table.specs.Parts.{part_of};
ghost use Rattle.reader_tree.specs.Forms.{seconds};
ghost use Rattle.std.specs.Prelude.{◌≡◌, IfOk, MatchResult};
ghost use Rattle.syn_grammar.specs.Tree as t;

use crate::fault::Fault;
use proc_macro2::delimiter::Delimiter;
use reader_table::part::Part;
use reader_tree::arena::Arena;
use reader_tree::made;
use reader_tree::tree::{Form, Tree};
use rust_map::span::Span;
use std::alloc::AllocError;

/// A tree that may not have been made.
///
/// # Errors
///
/// Where there was no memory for it.
pub(crate) fn or_fault<'a>(tree: Result<Tree<'a>, AllocError>) -> Result<Tree<'a>, Fault>
    ensures { (x : t.Tree) → IfOk tree.entry (λ z. z ≡ x)
        → MatchResult result (λ z. z ≡ x) (λ fault. IsFault fault x) }
{
    Ok(tree?)
}

/// A tree, and one behind it.
///
/// # Errors
///
/// Where there is no memory for it, or why one of them isn't made.
#[tactic(auto, using(crate::proofs::Mixing::places))]
pub(crate) fn pair<'a>(
    arena: &'a Arena,
    front: Result<Tree<'a>, Fault>,
    back: Result<Tree<'a>, Fault>,
) -> Result<Tree<'a>, Fault>
    ensures { (x y : t.Tree) → MatchResult front.entry (λ z. z ≡ x) (λ fault. IsFault fault x)
        → MatchResult back.entry (λ z. z ≡ y) (λ fault. IsFault fault y)
        → MatchResult result (λ z. z ≡ t.Pair x y) (λ fault. IsFault fault (t.Pair x y)) }
{
    or_fault(made::pair(arena, front?, back?))
}

/// Of choices, each the second of the one before it, so many times the second, and then the first.
///
/// # Errors
///
/// Where there is no memory for it, or why its inside isn't made.
#[tactic(auto, using(crate::proofs::Mixing::places))]
pub(crate) fn first_behind<'a>(
    arena: &'a Arena,
    count: usize,
    inner: Result<Tree<'a>, Fault>,
) -> Result<Tree<'a>, Fault>
    ensures { (x : t.Tree) → MatchResult inner.entry (λ z. z ≡ x) (λ fault. IsFault fault x)
        → MatchResult result (λ z. z ≡ seconds count (t.First x)) (λ fault. IsFault fault (seconds count (t.First x))) }
{
    or_fault(made::first_behind(arena, count, inner?))
}

/// Of choices, each the second of the one before it, the second, and so many times the second.
///
/// # Errors
///
/// Where there is no memory for it, or why its inside isn't made.
#[tactic(auto, using(crate::proofs::Mixing::places))]
pub(crate) fn second_behind<'a>(
    arena: &'a Arena,
    depth: u32,
    inner: Result<Tree<'a>, Fault>,
) -> Result<Tree<'a>, Fault>
    ensures { (x : t.Tree) → MatchResult inner.entry (λ z. z ≡ x) (λ fault. IsFault fault x)
        → MatchResult result (λ z. z ≡ t.Second (seconds depth x))
        (λ fault. IsFault fault (t.Second (seconds depth x))) }
{
    Ok(Tree {
        form: Form::Second(depth, arena.put(inner?)?),
    })
}

/// A group, its span, and its inside.
///
/// # Errors
///
/// Where there is no memory for it, or why its inside isn't made.
pub(crate) fn group<'a>(
    arena: &'a Arena,
    delimiter: Delimiter,
    span: Span,
    inside: Result<Tree<'a>, Fault>,
) -> Result<Tree<'a>, Fault>
    ensures { (x : t.Tree) → MatchResult inside.entry (λ z. z ≡ x) (λ fault. IsFault fault x)
        → MatchResult result (λ z. z ≡ t.Group delimiter x) (λ fault. IsFault fault (t.Group delimiter x)) }
{
    or_fault(made::group(arena, delimiter, span, inside?))
}

/// A part, by its name.
///
/// # Errors
///
/// Where there is no memory for it, or why its inside isn't made.
pub(crate) fn called<'a>(
    arena: &'a Arena,
    part: Part,
    inner: Result<Tree<'a>, Fault>,
) -> Result<Tree<'a>, Fault>
    ensures { (x : t.Tree) → MatchResult inner.entry (λ z. z ≡ x) (λ fault. IsFault fault x)
        → MatchResult result (λ z. z ≡ t.Called (part_of part) x) (λ fault. IsFault fault (t.Called (part_of part) x)) }
{
    or_fault(made::called(arena, part, inner?))
}
