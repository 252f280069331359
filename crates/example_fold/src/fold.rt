//! An expression with its constant arithmetic computed.

ghost use Rattle.reader_tree.specs.Size.{node_count};
ghost use Rattle.std.specs.Prelude.{◌≤◌, IfSome};

use crate::number::{computed, written};
use anyhow::Result;
use syn::{Arena, Form, Kind, Literal, Sign, Spacing, Span, Three, Tree, Two, made};

// The punctuation that an own part is.
fn sign_of(own: &Tree<'_>) -> Option<Sign> {
    match &own.choice().form {
        Form::Mark(sign, _, _) => Some(*sign),
        _ => None,
    }
}

// Whether an own part is `-`.
fn is_minus(own: &Tree<'_>) -> bool {
    matches!(sign_of(own), Some(Sign::Minus))
}

// The number that an atom is.
fn atom(tree: &Tree<'_>) -> Option<i128> {
    let Form::Alone(Kind::ExprLit, own) = &tree.form else {
        return None;
    };
    match &own.choice().form {
        Form::Literal(literal) => written(literal.as_str()),
        _ => None,
    }
}

// The number that a form is: an atom, or one behind `-`.
fn number(tree: &Tree<'_>) -> Option<i128> {
    match &tree.form {
        Form::Front(Kind::ExprUnary, two) if is_minus(&two.front) => atom(&two.back)?.checked_neg(),
        _ => atom(tree),
    }
}

// The atom of a number that is not below zero.
fn atom_of<'a>(arena: &'a Arena, number: u128) -> Result<Tree<'a>> {
    let literal = arena.put(Literal::u128_unsuffixed(arena.alloc(), number)?)?;
    let own = made::first(arena, made::literal(literal))?;
    Ok(made::alone(arena, Kind::ExprLit, own)?)
}

// The form of a number: an atom, behind `-` where it is below zero.
fn form_of<'a>(arena: &'a Arena, number: i128) -> Result<Tree<'a>> {
    let size = atom_of(arena, number.unsigned_abs())?;
    if number >= 0 {
        return Ok(size);
    }
    let minus = made::mark(Sign::Minus, Spacing::Alone, Span::call_site());
    let own = made::first_behind(arena, 2, minus)?;
    Ok(made::front(arena, Kind::ExprUnary, own, size)?)
}

// The form of the expression that stands alone in parentheses, without a comma: else they are a tuple's.
fn inside<'t, 'a>(own: &'t Tree<'a>) -> Option<&'t Tree<'a>>
    ensures { IfSome result (λ form. node_count form.now ≤ node_count own.now) }
{
    let Form::Group(_, group) = &own.form else {
        return None;
    };
    let Form::Elements(list) = &group.inside.form else {
        return None;
    };
    if !list.before.is_empty() {
        return None;
    }
    let Form::Node(_, node) = &list.last?.form else {
        return None;
    };
    match &node.form {
        Form::Whole(form) => Some(form),
        _ => None,
    }
}

// What a number behind a sign is, if it is one: of one below zero, which would stand behind two.
fn negated(kind: Kind, own: &Tree<'_>, right: &Tree<'_>) -> Option<i128> {
    if !matches!(kind, Kind::ExprUnary) || !is_minus(own) {
        return None;
    }
    let value = number(right)?;
    if value < 0 { value.checked_neg() } else { None }
}

// A form with an operand behind it.
#[cycle(folded)]
fn front<'a>(arena: &'a Arena, kind: Kind, two: &Two<'a>) -> Result<Tree<'a>> {
    let right = folded(arena, &two.back)?;
    match negated(kind, &two.front, &right) {
        Some(value) => form_of(arena, value),
        None => Ok(made::front(arena, kind, two.front.copy(), right)?),
    }
}

// A form with an operand in front of it.
#[cycle(folded)]
fn back<'a>(arena: &'a Arena, kind: Kind, two: &Two<'a>) -> Result<Tree<'a>> {
    let left = folded(arena, &two.front)?;
    Ok(made::back(arena, left, kind, two.back.copy())?)
}

// What a form between numbers is.
fn value(left: &Tree<'_>, kind: Kind, own: &Tree<'_>, right: &Tree<'_>) -> Option<i128> {
    if !matches!(kind, Kind::ExprSum | Kind::ExprProduct) {
        return None;
    }
    computed(number(left)?, sign_of(own)?, number(right)?)
}

// A form between operands, computed where both are numbers.
#[cycle(folded)]
fn infix<'a>(arena: &'a Arena, kind: Kind, three: &Three<'a>) -> Result<Tree<'a>> {
    let left = folded(arena, &three.left)?;
    let right = folded(arena, &three.right)?;
    match value(&left, kind, &three.own, &right) {
        Some(value) => form_of(arena, value),
        None => Ok(made::infix(arena, left, kind, three.own.copy(), right)?),
    }
}

/// An expression with its constant arithmetic computed, and none of its operands in parentheses: as its place decides
/// later which ones it needs. A tuple stays.
///
/// # Errors
///
/// Where there is no memory for it.
#[cycle(folded)]
pub(crate) fn folded<'a>(arena: &'a Arena, tree: &Tree<'a>) -> Result<Tree<'a>> {
    match &tree.form {
        Form::Alone(Kind::ExprParen, own) => match inside(own) {
            Some(form) => folded(arena, form),
            None => Ok(tree.copy()),
        },
        Form::Front(kind, two) => front(arena, *kind, two),
        Form::Back(kind, two) => back(arena, *kind, two),
        Form::Infix(kind, three) => infix(arena, *kind, three),
        _ => Ok(tree.copy()),
    }
}
