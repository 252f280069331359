//! Whether an operand stays as it is: what is asked of the forms on its edges, and of its first tokens.

ghost use Rattle.reader_table.specs.Kinds.{kind_of, position_of};
ghost use Rattle.proc_macro2.specs.Token.{Token};
ghost use Rattle.std.specs.Prelude.{◌&&◌, ◌≡◌, IfOk, List};
ghost use Rattle.syn_grammar.specs.Kind as k;
ghost use Rattle.syn_grammar.specs.Forms.{may_be_left, takes, within};
ghost use Rattle.syn_grammar.specs.Forms as forms;
ghost use Rattle.syn_grammar.specs.Parens as p;
ghost use Rattle.syn_grammar.specs.Parens.{ends_in_name};
ghost use Rattle.syn_grammar.specs.Tree.{flat};

use crate::first::first;
use reader_table::kind::{Kind, Position};
use reader_table::part::Part;
use reader_tree::tree::{Form, Tree};
use reader_verdicts::left::{chains, is_range, may_be_left, stands_left};
use reader_verdicts::level::{level, takes};
use std::alloc::{AllocError, Global};
use writer_built::sight::{begins_lesser, is_taken};
use writer_built::stays::{ends_in_name, is_struct};
use writer_read::as_read::put_as_read;

// Whether an operator of the level takes the forms on the left edge of its right operand.
#[tactic(auto, using(crate::proofs::Edges::lefts))]
fn within(level: usize, tree: &Tree<'_>) -> bool
    ensures { result ≡ within level tree.now }
{
    match &tree.form {
        Form::Back(kind, two) => takes(level, reader_verdicts::level::level(*kind))
            && within(level, &two.front),
        Form::Infix(kind, three) => takes(level, reader_verdicts::level::level(*kind))
            && within(level, &three.left),
        _ => true,
    }
}

// Whether a form of the kind is attributes, and a range stands behind them.
fn is_attributed_range(kind: Kind, operand: &Tree<'_>) -> bool
    ensures { result ≡ p.is_attributed_range (kind_of kind) operand.now }
{
    match kind {
        Kind::ExprAttributed => is_range(operand),
        _ => false,
    }
}

/// Whether an operand behind a form stays as it is.
pub(crate) fn stays_right(
    position: Position,
    kind: Kind,
    own: &Tree<'_>,
    operand: &Tree<'_>,
) -> bool
    ensures { result ≡ p.stays_right (position_of position) (kind_of kind) own.now operand.now }
{
    within(level(kind), operand)
        && (is_taken(position, kind, own.has(Part::Label), first(operand))
            && !is_attributed_range(kind, operand))
}

// Whether a type ends in a name that takes arguments.
fn takes_arguments(alloc: Global, tree: &Tree<'_>) -> Result<bool, AllocError>
    ensures { IfOk result (λ b. b ≡ ends_in_name (flat tree.now)) }
{
    let mut pieces = Vec::new(alloc);
    put_as_read(tree, &mut pieces)?;
    Ok(ends_in_name(pieces.as_slice()))
}

// Whether a cast to a type may stand before a form of the kind, with that own part.
fn ends_cast(
    alloc: Global,
    kind: Kind,
    own: &Tree<'_>,
    given: &Tree<'_>,
) -> Result<bool, AllocError>
    ensures { IfOk result (λ b. b ≡ p.ends_before (kind_of kind) (flat own.now) k.ExprCast given.now) }
{
    if level(kind) == 16 {
        return Ok(false);
    }
    if !begins_lesser(first(own)) {
        return Ok(true);
    }
    Ok(!takes_arguments(alloc, given)?)
}

// Whether a field may: not one with a name before a call.
fn ends_field(kind: Kind, field: &Tree<'_>) -> bool
    ensures { (ts : List Token) → result ≡ p.ends_before (kind_of kind) ts k.ExprField field.now }
{
    match kind {
        Kind::ExprCall => !field.has(Part::Name),
        _ => true,
    }
}

// Whether what ends with the own part of a form with an operand before it may.
fn ends_before(
    alloc: Global,
    kind: Kind,
    own: &Tree<'_>,
    last: Kind,
    part: &Tree<'_>,
) -> Result<bool, AllocError>
    ensures { IfOk result (λ b. b ≡ p.ends_before (kind_of kind) (flat own.now) (kind_of last) part.now) }
{
    match last {
        Kind::ExprCast => ends_cast(alloc, kind, own, part),
        Kind::ExprField => Ok(ends_field(kind, part)),
        _ => Ok(true),
    }
}

// Whether the operand behind a form would be left of the form of the kind behind both.
fn goes_on(kind: Kind, form: Kind, operand: &Tree<'_>) -> bool
    ensures { result ≡ (takes (forms.level (kind_of form)) (forms.level (kind_of kind))
        && may_be_left (kind_of kind) operand.now) }
{
    takes(level(form), level(kind)) && may_be_left(kind, operand)
}

// Whether no operand on the right edge goes on with a form of the kind, with that own part.
#[tactic(auto, using(crate::proofs::Edges::rights))]
fn is_ended(alloc: Global, kind: Kind, own: &Tree<'_>, tree: &Tree<'_>) -> Result<bool, AllocError>
    ensures { IfOk result (λ b. b ≡ p.is_ended (kind_of kind) (flat own.now) tree.now) }
{
    match &tree.form {
        Form::Front(form, two) => {
            if goes_on(kind, *form, &two.back) {
                Ok(false)
            } else {
                is_ended(alloc, kind, own, &two.back)
            }
        }
        Form::Infix(form, three) => {
            if goes_on(kind, *form, &three.right) {
                Ok(false)
            } else {
                is_ended(alloc, kind, own, &three.right)
            }
        }
        Form::Back(form, two) => ends_before(alloc, kind, own, *form, &two.back),
        _ => Ok(true),
    }
}

/// Whether an operand before a form stays as it is.
///
/// # Errors
///
/// Where there is no memory for the tokens of a type.
pub(crate) fn stays_left(
    alloc: Global,
    position: Position,
    kind: Kind,
    own: &Tree<'_>,
    operand: &Tree<'_>,
) -> Result<bool, AllocError>
    ensures { IfOk result (λ b. b ≡ p.stays_left (position_of position) (kind_of kind) own.now operand.now) }
{
    if is_struct(kind) {
        return Ok(true);
    }
    if !stands_left(position, operand, kind) {
        return Ok(false);
    }
    if chains(operand, kind) {
        return Ok(false);
    }
    is_ended(alloc, kind, own, operand)
}
