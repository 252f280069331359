//! Attributes in front of a statement's expression, which belong to its leftmost operand, and statements that are
//! macros.

ghost use Rattle.writer_normal.specs.Peeled.{expressed, stated_macro};
ghost use Rattle.reader_table.specs.Kinds.{position_of};
ghost use Rattle.std.specs.Prelude.{◌≡◌, IfOk};
ghost use Rattle.syn_grammar.specs.Kept as k;
ghost use Rattle.syn_grammar.specs.Kind.{ExprAttributed, Expression, OuterAttributes};
ghost use Rattle.syn_grammar.specs.Tree as t;

use crate::peel::{attributes, macro_of};
use crate::steps;
use reader_table::kind::{Kind, Position};
use reader_table::part::Part;
use reader_tree::arena::Arena;
use reader_tree::made;
use reader_tree::tree::{Form, Tree};
use reader_verdicts::level::level;
use std::alloc::AllocError;
use writer_rules::operand::{before, expression, pair_behind};

// A form with attributes in front of it.
fn with_attributes<'a>(
    arena: &'a Arena,
    attributes: &Tree<'a>,
    form: &Tree<'a>,
) -> Result<Tree<'a>, AllocError>
    ensures { IfOk result (λ x. x ≡ t.Front ExprAttributed attributes.now form.now) }
{
    made::front(arena, Kind::ExprAttributed, attributes.copy(), form.copy())
}

// The attributes in front of an expression, given to its leftmost operand, through assignments, infix forms and casts;
// a range keeps them.
#[tactic(auto, using(crate::proofs::Giving::attributeds))]
fn attributed<'a>(
    arena: &'a Arena,
    attributes: &Tree<'a>,
    tree: &Tree<'a>,
) -> Result<Tree<'a>, AllocError>
    ensures { IfOk result (λ x. x ≡ k.attributed attributes.now tree.now) }
{
    match &tree.form {
        Form::Infix(kind, three) => {
            if level(*kind) == 3 {
                return with_attributes(arena, attributes, tree);
            }
            let left = attributed(arena, attributes, &three.left)?;
            made::infix(arena, left, *kind, three.own.copy(), three.right.copy())
        }
        Form::Back(kind, two) => {
            if level(*kind) != 14 {
                return with_attributes(arena, attributes, tree);
            }
            let operand = attributed(arena, attributes, &two.front)?;
            made::back(arena, operand, *kind, two.back.copy())
        }
        _ => with_attributes(arena, attributes, tree),
    }
}

// An expression of a form, with the attributes given to that.
fn attributed_whole<'a>(
    arena: &'a Arena,
    position: Position,
    attributes: &Tree<'a>,
    form: &Tree<'a>,
) -> Result<Tree<'a>, AllocError>
    ensures { IfOk result (λ x. x
        ≡ t.Node (Expression (position_of position)) (t.Whole (k.attributed attributes.now form.now))) }
{
    let given = steps::whole(arena, attributed(arena, attributes, form));
    steps::node(arena, Kind::Expression(position), given)
}

// The same of a node that is an expression.
#[tactic(auto, using(crate::proofs::Giving::ins))]
fn attributed_in<'a>(
    arena: &'a Arena,
    attributes: &Tree<'a>,
    tree: &Tree<'a>,
) -> Result<Tree<'a>, AllocError>
    ensures { IfOk result (λ x. x ≡ k.attributed_in attributes.now tree.now) }
{
    match tree.node() {
        Some((kind, inner)) => match kind {
            Kind::Expression(position) => match inner.whole() {
                Some(form) => attributed_whole(arena, position, attributes, form),
                None => Ok(tree.copy()),
            },
            _ => Ok(tree.copy()),
        },
        None => Ok(tree.copy()),
    }
}

// An expression with attributes in front of it, of which there is a first.
fn given_all<'a>(
    arena: &'a Arena,
    first: Tree<'a>,
    others: Tree<'a>,
    tree: &Tree<'a>,
) -> Result<Tree<'a>, AllocError>
    ensures { IfOk result (λ x. x
        ≡ k.attributed_in (t.Pair first.entry (t.Node OuterAttributes others.entry)) tree.now) }
{
    let behind = made::node(arena, Kind::OuterAttributes, others);
    let all = steps::pair(arena, Ok(first), behind)?;
    attributed_in(arena, &all, tree)
}

// An expression with the attributes in front of it.
#[tactic(auto, using(crate::proofs::Giving::givens))]
fn given<'a>(arena: &'a Arena, front: &Tree<'a>, tree: &Tree<'a>) -> Result<Tree<'a>, AllocError>
    ensures { IfOk result (λ x. x ≡ k.given front.now tree.now) }
{
    match attributes(arena, front)? {
        Some((first, others)) => given_all(arena, first, others, tree),
        None => Ok(tree.copy()),
    }
}

// What of attributes is left in front of an expression.
#[tactic(auto, using(crate::proofs::Giving::lefts))]
fn left_in_front<'a>(arena: &'a Arena, front: &Tree<'a>) -> Result<Tree<'a>, AllocError>
    ensures { IfOk result (λ x. x ≡ k.left_in_front front.now) }
{
    match attributes(arena, front)? {
        Some(_) => made::node(arena, Kind::OuterAttributes, made::no_turns()),
        None => Ok(front.copy()),
    }
}

// A statement that is an expression, with the attributes in front of it given to that.
fn expressed<'a>(
    arena: &'a Arena,
    front: &Tree<'a>,
    tree: &Tree<'a>,
    behind: &Tree<'a>,
) -> Result<Tree<'a>, AllocError>
    ensures { IfOk result (λ x. x ≡ expressed front.now tree.now behind.now) }
{
    let left = steps::called(arena, Part::Attributes, left_in_front(arena, front));
    let stated = steps::called(arena, Part::Expression, given(arena, front, tree));
    let rest = steps::pair(arena, stated, Ok(behind.copy()));
    let all = steps::pair(arena, left, rest);
    steps::seconds(arena, 4, all)
}

// A statement that is a macro.
fn stated_macro<'a>(
    arena: &'a Arena,
    front: &Tree<'a>,
    own: Tree<'a>,
    behind: &Tree<'a>,
) -> Result<Tree<'a>, AllocError>
    ensures { IfOk result (λ x. x ≡ stated_macro front.now own.entry behind.now) }
{
    let rest = made::pair(arena, own, behind.copy());
    let all = steps::pair(arena, Ok(front.copy()), rest);
    steps::first_behind(arena, 1, all)
}

// A statement that is an expression: a macro statement, where it is a macro with `;` behind it.
#[tactic(auto, using(crate::proofs::Giving::statements))]
fn expression_statement<'a>(
    arena: &'a Arena,
    front: &Tree<'a>,
    tree: &Tree<'a>,
    behind: &Tree<'a>,
) -> Result<Tree<'a>, AllocError>
    ensures { IfOk result (λ x. x ≡ k.expression_statement front.now tree.now behind.now) }
{
    let Some(own) = macro_of(tree) else {
        return expressed(arena, front, tree, behind);
    };
    match behind.first() {
        Some(_) => stated_macro(arena, front, own, behind),
        None => expressed(arena, front, tree, behind),
    }
}

/// What a statement holds of what was read.
///
/// # Errors
///
/// Where there is no memory for it.
#[tactic(auto, using(crate::proofs::Giving::stateds))]
pub(crate) fn as_statement<'a>(arena: &'a Arena, tree: &Tree<'a>) -> Result<Tree<'a>, AllocError>
    ensures { IfOk result (λ x. x ≡ k.as_statement tree.now) }
{
    let Some((attributes, rest)) = pair_behind(tree, 4) else {
        return Ok(tree.copy());
    };
    let Some(front) = before(attributes) else {
        return Ok(tree.copy());
    };
    let Some((named, behind)) = rest.pair() else {
        return Ok(tree.copy());
    };
    match expression(named) {
        Some(inner) => expression_statement(arena, front, inner, behind),
        None => Ok(tree.copy()),
    }
}
