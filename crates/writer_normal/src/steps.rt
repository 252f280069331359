//! Trees made of trees that may not have been made: a step makes its tree where there is what it is to be made of, and
//! answers want of memory otherwise. So a tree of several steps is asked for once, behind the last of them; what stands
//! beside a part for which there was no memory is made nevertheless.

ghost use Rattle.reader_table.specs.Kinds.{kind_of};
ghost use Rattle.reader_table.specs.Parts.{part_of};
ghost use Rattle.reader_tree.specs.Forms.{seconds};
ghost use Rattle.std.specs.Prelude.{◌≡◌, IfOk};
ghost use Rattle.syn_grammar.specs.Tree as t;

use proc_macro2::delimiter::Delimiter;
use reader_table::kind::Kind;
use reader_table::part::Part;
use reader_tree::arena::Arena;
use reader_tree::made;
use reader_tree::tree::{Form, Tree};
use rust_map::span::Span;
use std::alloc::AllocError;

/// A tree, and one behind it.
///
/// # Errors
///
/// Where there is no memory for it, or was none for one of them.
pub(crate) fn pair<'a>(
    arena: &'a Arena,
    front: Result<Tree<'a>, AllocError>,
    back: Result<Tree<'a>, AllocError>,
) -> Result<Tree<'a>, AllocError>
    ensures { (x y : t.Tree) → IfOk front.entry (λ z. z ≡ x) → IfOk back.entry (λ z. z ≡ y)
        → IfOk result (λ z. z ≡ t.Pair x y) }
{
    made::pair(arena, front?, back?)
}

/// Of choices, each the second of the one before it, so many times the second, and then the first.
///
/// # Errors
///
/// Where there is no memory for it, or was none for its inside.
pub(crate) fn first_behind<'a>(
    arena: &'a Arena,
    count: usize,
    inner: Result<Tree<'a>, AllocError>,
) -> Result<Tree<'a>, AllocError>
    ensures { (x : t.Tree) → IfOk inner.entry (λ z. z ≡ x) → IfOk result (λ z. z ≡ seconds count (t.First x)) }
{
    made::first_behind(arena, count, inner?)
}

/// Of choices, each the second of the one before it, the second, and so many times the second.
///
/// # Errors
///
/// Where there is no memory for it, or was none for its inside.
pub(crate) fn second_behind<'a>(
    arena: &'a Arena,
    depth: u32,
    inner: Result<Tree<'a>, AllocError>,
) -> Result<Tree<'a>, AllocError>
    ensures { (x : t.Tree) → IfOk inner.entry (λ z. z ≡ x) → IfOk result (λ z. z ≡ t.Second (seconds depth x)) }
{
    Ok(Tree {
        form: Form::Second(depth, arena.put(inner?)?),
    })
}

/// Of so many choices, each the second of the one before it, the second of the last one.
///
/// # Errors
///
/// Where there is no memory for it, or was none for its inside.
pub(crate) fn seconds<'a>(
    arena: &'a Arena,
    count: usize,
    inner: Result<Tree<'a>, AllocError>,
) -> Result<Tree<'a>, AllocError>
    ensures { (x : t.Tree) → IfOk inner.entry (λ z. z ≡ x) → IfOk result (λ z. z ≡ seconds count x) }
{
    made::seconds(arena, count, inner?)
}

/// A group, its span, and its inside.
///
/// # Errors
///
/// Where there is no memory for it, or was none for its inside.
pub(crate) fn group<'a>(
    arena: &'a Arena,
    delimiter: Delimiter,
    span: Span,
    inside: Result<Tree<'a>, AllocError>,
) -> Result<Tree<'a>, AllocError>
    ensures { (x : t.Tree) → IfOk inside.entry (λ z. z ≡ x) → IfOk result (λ z. z ≡ t.Group delimiter x) }
{
    made::group(arena, delimiter, span, inside?)
}

/// A part, by its name.
///
/// # Errors
///
/// Where there is no memory for it, or was none for its inside.
pub(crate) fn called<'a>(
    arena: &'a Arena,
    part: Part,
    inner: Result<Tree<'a>, AllocError>,
) -> Result<Tree<'a>, AllocError>
    ensures { (x : t.Tree) → IfOk inner.entry (λ z. z ≡ x) → IfOk result (λ z. z ≡ t.Called (part_of part) x) }
{
    made::called(arena, part, inner?)
}

/// A node of a kind.
///
/// # Errors
///
/// Where there is no memory for it, or was none for its inside.
pub(crate) fn node<'a>(
    arena: &'a Arena,
    kind: Kind,
    inner: Result<Tree<'a>, AllocError>,
) -> Result<Tree<'a>, AllocError>
    ensures { (x : t.Tree) → IfOk inner.entry (λ z. z ≡ x) → IfOk result (λ z. z ≡ t.Node (kind_of kind) x) }
{
    made::node(arena, kind, inner?)
}

/// An expression.
///
/// # Errors
///
/// Where there is no memory for it, or was none for its form.
pub(crate) fn whole<'a>(
    arena: &'a Arena,
    form: Result<Tree<'a>, AllocError>,
) -> Result<Tree<'a>, AllocError>
    ensures { (x : t.Tree) → IfOk form.entry (λ z. z ≡ x) → IfOk result (λ z. z ≡ t.Whole x) }
{
    made::whole(arena, form?)
}

/// A form without operands: its own part.
///
/// # Errors
///
/// Where there is no memory for it, or was none for its own part.
pub(crate) fn alone<'a>(
    arena: &'a Arena,
    kind: Kind,
    own: Result<Tree<'a>, AllocError>,
) -> Result<Tree<'a>, AllocError>
    ensures { (x : t.Tree) → IfOk own.entry (λ z. z ≡ x) → IfOk result (λ z. z ≡ t.Alone (kind_of kind) x) }
{
    made::alone(arena, kind, own?)
}

/// A form with an operand behind it: its own part, and that.
///
/// # Errors
///
/// Where there is no memory for it, or was none for its own part or its operand.
pub(crate) fn front<'a>(
    arena: &'a Arena,
    kind: Kind,
    own: Result<Tree<'a>, AllocError>,
    right: Result<Tree<'a>, AllocError>,
) -> Result<Tree<'a>, AllocError>
    ensures { (x y : t.Tree) → IfOk own.entry (λ z. z ≡ x) → IfOk right.entry (λ z. z ≡ y)
        → IfOk result (λ z. z ≡ t.Front (kind_of kind) x y) }
{
    made::front(arena, kind, own?, right?)
}

/// A form with an operand before it: that, and its own part.
///
/// # Errors
///
/// Where there is no memory for it, or was none for its own part.
pub(crate) fn back<'a>(
    arena: &'a Arena,
    left: Tree<'a>,
    kind: Kind,
    own: Result<Tree<'a>, AllocError>,
) -> Result<Tree<'a>, AllocError>
    ensures { (x y : t.Tree) → left.entry ≡ x → IfOk own.entry (λ z. z ≡ y)
        → IfOk result (λ z. z ≡ t.Back x (kind_of kind) y) }
{
    made::back(arena, left, kind, own?)
}

/// A form with an operand on either side.
///
/// # Errors
///
/// Where there is no memory for it, or was none for its own part or an operand.
pub(crate) fn infix<'a>(
    arena: &'a Arena,
    left: Result<Tree<'a>, AllocError>,
    kind: Kind,
    own: Result<Tree<'a>, AllocError>,
    right: Result<Tree<'a>, AllocError>,
) -> Result<Tree<'a>, AllocError>
    ensures { (x y z : t.Tree) → IfOk left.entry (λ w. w ≡ x) → IfOk own.entry (λ w. w ≡ y)
        → IfOk right.entry (λ w. w ≡ z) → IfOk result (λ w. w ≡ t.Infix x (kind_of kind) y z) }
{
    made::infix(arena, left?, kind, own?, right?)
}
