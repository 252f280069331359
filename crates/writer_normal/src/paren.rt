//! Forms of operands in normal form, which are put in parentheses where they need them.

ghost use Rattle.writer_built.specs.Begins.{front3};
ghost use Rattle.writer_built.specs.Heads.{head_tokens};
ghost use Rattle.reader_table.specs.Kinds.{kind_of, position_of};
ghost use Rattle.proc_macro2.specs.Token.{Token};
ghost use Rattle.std.specs.Prelude.{◌≡◌, IfOk, List};
ghost use Rattle.syn_grammar.specs.Parens as p;

use crate::stays::{stays_left, stays_right};
use crate::steps;
use proc_macro2::delimiter::Delimiter;
use reader_table::kind::{Kind, Position};
use reader_table::op::Separator;
use reader_tree::arena::Arena;
use reader_tree::made;
use reader_tree::tree::Tree;
use rust_map::span::Span;
use std::alloc::AllocError;
use writer_built::head::Head;
use writer_built::sight::takes_what_follows;
use writer_built::stays::{begins_in, stands_in};

// An expression in parentheses.
fn in_parens<'a>(arena: &'a Arena, inner: Tree<'a>) -> Result<Tree<'a>, AllocError>
    ensures { IfOk result (λ x. x ≡ p.in_parens inner.entry) }
{
    let form = made::whole(arena, inner);
    let expression = steps::node(arena, Kind::Expression(Position::Plain), form)?;
    let list = made::elements(
        arena,
        Separator::Comma,
        Vec::new(arena.alloc()),
        Some(expression),
    );
    let own = steps::group(arena, Delimiter::Parenthesis, Span::call_site(), list);
    steps::alone(arena, Kind::ExprParen, own)
}

// It, or it in parentheses.
fn in_parens_unless<'a>(
    arena: &'a Arena,
    stays: bool,
    inner: Tree<'a>,
) -> Result<Tree<'a>, AllocError>
    ensures { IfOk result (λ x. x ≡ p.parens_unless stays inner.entry) }
{
    if stays {
        Ok(inner)
    } else {
        in_parens(arena, inner)
    }
}

/// A form without operands, before what begins so.
pub(crate) fn alone<'a>(
    arena: &'a Arena,
    position: Position,
    behind: Head<'a>,
    kind: Kind,
    own: Tree<'a>,
) -> Result<Tree<'a>, AllocError>
    ensures { IfOk result (λ x. (ts : List Token) → head_tokens behind.entry ≡ front3 ts
        → x ≡ p.alone (position_of position) ts (kind_of kind) own.entry) }
{
    let stays = !takes_what_follows(position, kind, behind);
    let form = made::alone(arena, kind, own)?;
    in_parens_unless(arena, stays, form)
}

// An operand behind a form.
fn right_of<'a>(
    arena: &'a Arena,
    position: Position,
    kind: Kind,
    own: &Tree<'a>,
    operand: Tree<'a>,
) -> Result<Tree<'a>, AllocError>
    ensures { IfOk result (λ x. x ≡ p.with_right (position_of position) (kind_of kind) own.now operand.entry) }
{
    let stays = stays_right(position, kind, own, &operand);
    in_parens_unless(arena, stays, operand)
}

// An operand before a form.
fn left_of<'a>(
    arena: &'a Arena,
    position: Position,
    kind: Kind,
    own: &Tree<'a>,
    operand: Tree<'a>,
) -> Result<Tree<'a>, AllocError>
    ensures { IfOk result (λ x. x ≡ p.with_left (position_of position) (kind_of kind) own.now operand.entry) }
{
    let stays = stays_left(arena.alloc(), position, kind, own, &operand)?;
    in_parens_unless(arena, stays, operand)
}

/// A form with an operand behind it.
pub(crate) fn front<'a>(
    arena: &'a Arena,
    position: Position,
    kind: Kind,
    own: Tree<'a>,
    operand: Tree<'a>,
) -> Result<Tree<'a>, AllocError>
    ensures { IfOk result (λ x. x
        ≡ p.front_form (position_of position) (kind_of kind) own.entry operand.entry) }
{
    let right = right_of(arena, position, kind, &own, operand);
    let form = steps::front(arena, kind, Ok(own), right)?;
    in_parens_unless(arena, begins_in(position, kind), form)
}

/// A form with an operand before it, before what begins so.
pub(crate) fn back<'a>(
    arena: &'a Arena,
    place: (Position, Head<'a>),
    operand: Tree<'a>,
    kind: Kind,
    own: Tree<'a>,
) -> Result<Tree<'a>, AllocError>
    ensures { IfOk result (λ x. (ts : List Token) → head_tokens place.entry.1 ≡ front3 ts
        → x ≡ p.back_form (position_of place.entry.0) ts operand.entry (kind_of kind) own.entry) }
{
    let (position, behind) = place;
    let stays = stands_in(position, kind) && !takes_what_follows(position, kind, behind);
    let left = left_of(arena, position, kind, &own, operand)?;
    let form = made::back(arena, left, kind, own)?;
    in_parens_unless(arena, stays, form)
}

/// A form with both.
pub(crate) fn infix<'a>(
    arena: &'a Arena,
    position: Position,
    left: Tree<'a>,
    form: (Kind, Tree<'a>),
    right: Tree<'a>,
) -> Result<Tree<'a>, AllocError>
    ensures { IfOk result (λ x. x ≡ p.infix_form (position_of position) left.entry (kind_of form.entry.0) form.entry.1
        right.entry) }
{
    let (kind, own) = form;
    let left = left_of(arena, position, kind, &own, left);
    let right = right_of(arena, position, kind, &own, right);
    steps::infix(arena, left, kind, Ok(own), right)
}
