//! What a syntax tree holds of a tree.

ghost use Rattle.writer_normal.specs.Frames.{framed, IsBegun, IsHeldWithin};
ghost use Rattle.writer_normal.specs.Held.{element_held};
ghost use Rattle.reader_table.specs.Kinds.{kind_of};
ghost use Rattle.reader_table.specs.Ops.{separator_of};
ghost use Rattle.reader_tree.specs.Forms.{elements, ending, turns};
ghost use Rattle.std.specs.Prelude.{◌++◌, ◌≡◌, IfOk, OnOk, map};
ghost use Rattle.syn_grammar.specs.Kept as k;
ghost use Rattle.syn_grammar.specs.Tree as t;

use crate::fields::dotted;
use crate::forget::{forget, held};
use crate::frame::{Begun, Frame};
use crate::steps;
use crate::verbatim::verbatim;
use reader_table::kind::Kind;
use reader_tree::arena::Arena;
use reader_tree::made;
use reader_tree::placed_spacing::PlacedSpacing;
use reader_tree::tree::{Element, Form, Separated, Tree};
use rust_leaf::punct::Spacing;
use std::alloc::AllocError;

// A place in a tree, for a loop that goes on to another: such a loop sets it as a whole.
#[derive(Clone, Copy)]
struct Place<'t, 'a> {
    // The tree that stands there.
    tree: &'t Tree<'a>,
}

// Puts what is held of each of some trees.
#[cycle(kept)]
fn put_each<'t, 'a>(
    arena: &'a Arena,
    trees: &'t [Tree<'a>],
    frames: &mut Vec<Frame<'t, 'a>>,
    out: &mut Vec<Tree<'a>>,
) -> Result<(), AllocError>
    ensures put { OnOk result (out.new.items ≡ out.old.items ++ map k.kept trees.now) }
    ensures frames { OnOk result (frames.new.items ≡ frames.old.items) }
{
    for tree in trees {
        out.push(kept_in(arena, tree, frames)?)?;
    }
    Ok(())
}

// Puts what is held of each of the elements that a mark follows.
#[cycle(kept)]
fn put_elements<'t, 'a>(
    arena: &'a Arena,
    before: &'t [Element<'a>],
    frames: &mut Vec<Frame<'t, 'a>>,
    out: &mut Vec<Element<'a>>,
) -> Result<(), AllocError>
    ensures put { OnOk result (out.new.items ≡ out.old.items ++ map element_held before.now) }
    ensures frames { OnOk result (frames.new.items ≡ frames.old.items) }
{
    for element in before {
        out.push(Element {
            tree: kept_in(arena, &element.tree, frames)?,
            spacing: PlacedSpacing::new(Spacing::Alone, element.spacing.span()),
        })?;
    }
    Ok(())
}

// A list.
#[cycle(kept)]
fn list<'t, 'a>(
    arena: &'a Arena,
    list: &'t Separated<'a>,
    frames: &mut Vec<Frame<'t, 'a>>,
) -> Result<Tree<'a>, AllocError>
    ensures held { IfOk result (λ x. x ≡ k.kept
        (elements (separator_of list.now.separator) list.now.before.now (ending (λ y. y.now) list.now.last))) }
    ensures frames { OnOk result (frames.new.items ≡ frames.old.items) }
{
    let mut before = Vec::new(arena.alloc());
    put_elements(arena, list.before, frames, &mut before)?;
    match list.last {
        Some(last) => {
            let ended = kept_in(arena, last, frames)?;
            made::elements(arena, list.separator, before, Some(ended))
        }
        None => made::elements(arena, list.separator, before, None),
    }
}

// Turns.
#[cycle(kept)]
#[tactic(auto, using(crate::proofs::Holding::each))]
fn turns<'t, 'a>(
    arena: &'a Arena,
    trees: &'t [Tree<'a>],
    frames: &mut Vec<Frame<'t, 'a>>,
) -> Result<Tree<'a>, AllocError>
    ensures held { IfOk result (λ x. x ≡ k.kept (turns trees.now)) }
    ensures frames { OnOk result (frames.new.items ≡ frames.old.items) }
{
    let mut each = Vec::new(arena.alloc());
    put_each(arena, trees, frames, &mut each)?;
    made::turns(arena, each)
}

// A tree's frame, and what it goes on with; or what is held of it, where it goes on with nothing.
#[cycle(kept)]
#[tactic(auto, using(crate::proofs::Holding::forms))]
fn begun<'t, 'a>(
    arena: &'a Arena,
    tree: &'t Tree<'a>,
    frames: &mut Vec<Frame<'t, 'a>>,
) -> Result<Begun<'t, 'a>, AllocError>
    ensures begun { IfOk result (IsBegun tree.now) }
    ensures frames { OnOk result (frames.new.items ≡ frames.old.items) }
{
    match &tree.form {
        Form::Pair(two) => Ok(Begun::Within(Frame::Pair(&two.front), &two.back)),
        Form::First(depth, inner) => Ok(Begun::Within(Frame::First(*depth), inner)),
        Form::Second(depth, inner) => Ok(Begun::Within(Frame::Second(*depth), inner)),
        Form::Group(delimiter, group) => {
            Ok(Begun::Within(Frame::Group(*delimiter, group.span), &group.inside))
        }
        Form::Called(part, inner) => Ok(Begun::Within(Frame::Called(*part), inner)),
        Form::Node(kind, inner) => Ok(Begun::Within(Frame::Node(*kind), inner)),
        Form::Whole(inner) => Ok(Begun::Within(Frame::Whole, inner)),
        Form::Alone(kind, own) => Ok(Begun::Within(Frame::Alone(*kind), own)),
        Form::Front(kind, two) => Ok(Begun::Within(Frame::Front(*kind, &two.front), &two.back)),
        Form::Back(kind, two) => Ok(Begun::Within(Frame::Back(*kind, &two.back), &two.front)),
        Form::Infix(kind, three) => {
            let frame = Frame::Infix(*kind, &three.own, &three.right);
            Ok(Begun::Within(frame, &three.left))
        }
        Form::Turns(trees) => Ok(Begun::Held(turns(arena, trees.each, frames)?)),
        Form::Elements(elements) => Ok(Begun::Held(list(arena, elements, frames)?)),
        Form::Verbatim(inner) => Ok(Begun::Held(verbatim(arena, inner)?)),
        Form::Mark(sign, _, span) => Ok(Begun::Held(made::mark(
            *sign,
            Spacing::Alone,
            span.span(),
        ))),
        Form::End => Ok(Begun::Held(made::no_turns())),
        Form::Dropped(_) => Ok(Begun::Held(made::nil())),
        _ => Ok(Begun::Held(tree.copy())),
    }
}

// A node, of what is held of its inside.
fn node<'a>(arena: &'a Arena, kind: Kind, inner: &Tree<'a>) -> Result<Tree<'a>, AllocError>
    ensures { (x : t.Tree) → inner.now ≡ k.kept x → IfOk result (λ y. y ≡ k.kept (t.Node (kind_of kind) x)) }
{
    steps::node(arena, held(kind), forget(arena, kind, inner))
}

// Goes into a tree as far as it goes on, and puts each frame behind the others. What is held of the innermost tree.
#[cycle(kept)]
fn innermost<'t, 'a>(
    arena: &'a Arena,
    tree: &'t Tree<'a>,
    frames: &mut Vec<Frame<'t, 'a>>,
) -> Result<Tree<'a>, AllocError>
    ensures { IfOk result (λ made. IsHeldWithin frames.old.items frames.new.items made tree.now) }
{
    let mut place = Place { tree };
    'into: loop {
        match begun(arena, place.tree, frames)? {
            Begun::Held(made) => return Ok(made),
            Begun::Within(frame, inner) => {
                frames.push(frame)?;
                place = Place { tree: inner };
            }
        }
    }
}

// What is held of a frame round a tree, of what is held of this.
#[cycle(kept)]
#[tactic(auto, using(crate::proofs::Holding::kept_seconds))]
fn around<'t, 'a>(
    arena: &'a Arena,
    frame: Frame<'t, 'a>,
    inner: Tree<'a>,
    frames: &mut Vec<Frame<'t, 'a>>,
) -> Result<Tree<'a>, AllocError>
    ensures held { (x : t.Tree) → inner.entry ≡ k.kept x → IfOk result (λ y. y ≡ k.kept (framed frame.entry x)) }
    ensures frames { OnOk result (frames.new.items ≡ frames.old.items) }
{
    match frame {
        Frame::Pair(front) => {
            let front = kept_in(arena, front, frames)?;
            made::pair(arena, front, inner)
        }
        Frame::First(depth) => made::first_behind(arena, depth as usize, inner),
        Frame::Second(depth) => steps::second_behind(arena, depth, Ok(inner)),
        Frame::Group(delimiter, span) => made::group(arena, delimiter, span, inner),
        Frame::Called(part) => made::called(arena, part, inner),
        Frame::Node(kind) => node(arena, kind, &inner),
        Frame::Whole => made::whole(arena, inner),
        Frame::Alone(kind) => made::alone(arena, kind, inner),
        Frame::Front(kind, own) => {
            let own = kept_in(arena, own, frames)?;
            made::front(arena, kind, own, inner)
        }
        Frame::Back(kind, own) => {
            let own = kept_in(arena, own, frames)?;
            dotted(arena, inner, kind, own)
        }
        Frame::Infix(kind, own, right) => {
            let own = kept_in(arena, own, frames)?;
            let right = kept_in(arena, right, frames)?;
            made::infix(arena, inner, kind, own, right)
        }
    }
}

// What is held of a tree. Frames are put behind those that are there, and, where it succeeds, taken away again.
#[cycle(kept)]
fn kept_in<'t, 'a>(
    arena: &'a Arena,
    tree: &'t Tree<'a>,
    frames: &mut Vec<Frame<'t, 'a>>,
) -> Result<Tree<'a>, AllocError>
    ensures held { IfOk result (λ x. x ≡ k.kept tree.now) }
    ensures frames { OnOk result (frames.new.items ≡ frames.old.items) }
{
    let outer = frames.len();
    let mut made = innermost(arena, tree, frames)?;
    'out: while outer < frames.len() {
        if let Some(frame) = frames.pop() {
            made = around(arena, frame, made, frames)?;
        }
    }
    Ok(made)
}

/// What a syntax tree holds of a tree. Calls go as deep as turns, elements, right operands and parts in front stand in
/// one another, and not along a chain, but where attributes in front of a statement are given to the first operand of
/// one.
///
/// Of what is held as tokens it is not said how many stand in a group.
///
/// # Errors
///
/// Where there is no memory for it, or for its frames while it is made. What was made till then stays in the arena.
pub fn kept<'a>(arena: &'a Arena, tree: &Tree<'a>) -> Result<Tree<'a>, AllocError>
    ensures { IfOk result (λ x. x ≡ k.kept tree.now) }
{
    let mut frames = Vec::new(arena.alloc());
    kept_in(arena, tree, &mut frames)
}
