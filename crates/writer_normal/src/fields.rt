//! Forms behind a dot, as they are held: a number behind it is split at its dots, each index a field by itself.

ghost use Rattle.reader_table.specs.Kinds.{kind_of};
ghost use Rattle.reader_tree.specs.Forms.{turns};
ghost use Rattle.std.specs.Prelude.{◌≡◌, IfOk};
ghost use Rattle.syn_grammar.specs.Kept as k;

use crate::numbers::{index_fields, lone_field};
use reader_table::kind::Kind;
use reader_tree::arena::Arena;
use reader_tree::made;
use reader_tree::tree::{Form, Tree};
use std::alloc::AllocError;
use writer_rules::seen::literal;
use writer_rules::way::{Behind, dotted as behind_dot, is_dotted, last_number};

// The fields by the numbers that stand in front, up to one that is no number, of an operand.
#[tactic(auto, using(crate::proofs::Fielding::fronts))]
fn fields_of<'a>(
    arena: &'a Arena,
    left: Tree<'a>,
    numbers: &[Tree<'a>],
) -> Result<Tree<'a>, AllocError>
    ensures { IfOk result (λ x. x ≡ k.fields_in_front left.entry (turns numbers.now)) }
{
    let Some((first, others)) = numbers.split_first() else {
        return Ok(left);
    };
    match literal(first) {
        Some(number) => {
            let field = index_fields(arena, left, number.as_str())?;
            fields_of(arena, field, others)
        }
        None => Ok(left),
    }
}

// The fields by the numbers that end in a dot, which stand in front, of an operand.
#[tactic(auto, using(crate::proofs::Fielding::fronts))]
fn fields_in_front<'a>(
    arena: &'a Arena,
    left: Tree<'a>,
    numbers: &Tree<'a>,
) -> Result<Tree<'a>, AllocError>
    ensures { IfOk result (λ x. x ≡ k.fields_in_front left.entry numbers.now) }
{
    match &numbers.form {
        Form::Turns(turns) => fields_of(arena, left, turns.each),
        _ => Ok(left),
    }
}

// The last form behind a dot, of an operand.
#[tactic(auto, using(crate::proofs::Fielding::lasts))]
fn last_fields<'a>(
    arena: &'a Arena,
    left: Tree<'a>,
    kind: Kind,
    dot: &Tree<'a>,
    behind: &Tree<'a>,
) -> Result<Tree<'a>, AllocError>
    ensures { IfOk result (λ x. x ≡ k.last_fields left.entry (kind_of kind) dot.now behind.now) }
{
    match last_number(kind, behind) {
        Some(number) => index_fields(arena, left, number.as_str()),
        None => lone_field(arena, left, kind, dot.copy(), Ok(behind.copy())),
    }
}

// A form behind a dot, and the fields in front of it.
fn all_fields<'a>(
    arena: &'a Arena,
    left: Tree<'a>,
    kind: Kind,
    parts: Behind<'_, 'a>,
) -> Result<Tree<'a>, AllocError>
    ensures { IfOk result (λ x. x ≡ k.last_fields (k.fields_in_front left.entry parts.entry.numbers.now)
        (kind_of kind) parts.entry.dot.now parts.entry.behind.now) }
{
    let field = fields_in_front(arena, left, parts.numbers)?;
    last_fields(arena, field, kind, parts.dot, parts.behind)
}

/// A form with an operand before it, as it is held.
///
/// # Errors
///
/// Where there is no memory for it.
#[tactic(auto, using(crate::proofs::Fielding::forms))]
pub(crate) fn dotted<'a>(
    arena: &'a Arena,
    left: Tree<'a>,
    kind: Kind,
    own: Tree<'a>,
) -> Result<Tree<'a>, AllocError>
    ensures { IfOk result (λ x. x ≡ k.dotted left.entry (kind_of kind) own.entry) }
{
    if !is_dotted(kind) {
        return made::back(arena, left, kind, own);
    }
    match behind_dot(&own) {
        Some(parts) => all_fields(arena, left, kind, parts),
        None => made::back(arena, left, kind, own),
    }
}
