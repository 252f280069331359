//! Numbers as they are held: in plain decimal, and behind a dot split at their dots.

ghost use Rattle.reader_table.specs.Kinds.{kind_of};
ghost use Rattle.std.specs.Fmt.{decimal};
ghost use Rattle.std.specs.Prelude.{◌≡◌, IfOk};
ghost use Rattle.std.specs.Str.{chars};
ghost use Rattle.syn_grammar.specs.Kept.{index_fields, lone_dot};
ghost use Rattle.syn_grammar.specs.Kind.{ExprField};
ghost use Rattle.syn_grammar.specs.Name.{the_indices, the_value};
ghost use Rattle.syn_grammar.specs.Tree as t;
ghost use Rattle.syn_grammar.specs.Words.{indices, plain_decimal};

use crate::steps;
use reader_table::kind::Kind;
use reader_table::part::Part;
use reader_table::word::Sign;
use reader_tokens::text::first_char;
use reader_tree::arena::Arena;
use reader_tree::made;
use reader_tree::tree::Tree;
use rust_leaf::literal::Literal;
use rust_leaf::punct::Spacing;
use rust_map::span::Span;
use std::alloc::AllocError;
use writer_rules::fields::{index, whole_index};

// A number, in plain decimal.
fn number<'a>(arena: &'a Arena, value: u32) -> Result<Tree<'a>, AllocError>
    ensures { IfOk result (λ x. x ≡ t.ALiteral (decimal value)) }
{
    let literal = Literal::u32_unsuffixed(arena.alloc(), value)?;
    Ok(made::literal(arena.put(literal)?))
}

/// The number that a text writes, in plain decimal; 0 where it is none below 2 ^ 32.
///
/// # Errors
///
/// Where there is no memory for it.
#[tactic(auto, unfolding(syn_grammar::specs::Words::plain_decimal))]
pub(crate) fn plain_number<'a>(arena: &'a Arena, text: &str) -> Result<Tree<'a>, AllocError>
    ensures { IfOk result (λ x. x ≡ t.ALiteral (plain_decimal (chars text.now))) }
{
    number(arena, whole_index(text))
}

/// A form behind a dot, with no number in front of it, of an operand.
///
/// # Errors
///
/// Where there is no memory for it, or was none for what stands behind the dot.
pub(crate) fn lone_field<'a>(
    arena: &'a Arena,
    left: Tree<'a>,
    kind: Kind,
    dot: Tree<'a>,
    behind: Result<Tree<'a>, AllocError>,
) -> Result<Tree<'a>, AllocError>
    ensures { (y : t.Tree) → IfOk behind.entry (λ z. z ≡ y) → IfOk result (λ x. x ≡ t.Back left.entry (kind_of kind)
        (t.Pair (t.Pair dot.entry (t.Called the_indices t.End)) y)) }
{
    let none = made::called(arena, Part::Indices, made::no_turns());
    let front = steps::pair(arena, Ok(dot), none);
    let own = steps::pair(arena, front, behind);
    steps::back(arena, left, kind, own)
}

// A field by a number, of an operand.
fn index_field<'a>(arena: &'a Arena, left: Tree<'a>, value: u32) -> Result<Tree<'a>, AllocError>
    ensures { IfOk result (λ x. x ≡ t.Back left.entry ExprField
        (t.Pair (t.Pair lone_dot (t.Called the_indices t.End))
        (t.Second (t.Called the_value (t.ALiteral (decimal value)))))) }
{
    let dot = made::mark(Sign::Dot, Spacing::Alone, Span::call_site());
    let named = steps::called(arena, Part::Value, number(arena, value));
    let behind = steps::seconds(arena, 1, named);
    lone_field(arena, left, Kind::ExprField, dot, behind)
}

/// The fields by the indices that a number behind a dot writes, of an operand.
///
/// # Errors
///
/// Where there is no memory for them.
#[tactic(auto, unfolding(syn_grammar::specs::Words::plain_decimal), using(crate::proofs::Numbering::all_fields))]
pub(crate) fn index_fields<'a>(
    arena: &'a Arena,
    left: Tree<'a>,
    text: &str,
) -> Result<Tree<'a>, AllocError>
    ensures { IfOk result (λ x. x ≡ index_fields left.entry (indices (chars text.now))) }
{
    let (value, rest) = index(text);
    let field = index_field(arena, left, value)?;
    let Some((_, behind)) = first_char(rest) else {
        return Ok(field);
    };
    match first_char(behind) {
        None => Ok(field),
        Some(_) => index_fields(arena, field, behind),
    }
}
