//! Raw items among statements, whose last mark is set apart.

ghost use Rattle.writer_normal.specs.Parted.{parted, raw_item, stated_turn};
ghost use Rattle.reader_tree.specs.Forms.{turns};
ghost use Rattle.rust_leaf.specs.Leaf.{punct_char, punct_spacing};
ghost use Rattle.rust_leaf.specs.declared.punct.Spacing.TheVariants.{Alone as Apart};
ghost use Rattle.std.specs.Prelude.{◌++◌, ◌≡◌, IfOk, OnOk, map, option_map};
ghost use Rattle.syn_buffer.specs.Entries.{entry_token};
ghost use Rattle.syn_grammar.specs.Kind.{AStatement, AnItem};
ghost use Rattle.syn_grammar.specs.Normal.{apart, apart_alternative, apart_if, apart_raw, is_enclosed};
ghost use Rattle.syn_grammar.specs.Tree as t;

use crate::first::first_turns;
use crate::sight::begins_parenthesis;
use crate::steps;
use reader_table::kind::Kind;
use reader_tree::arena::Arena;
use reader_tree::made;
use reader_tree::tree::{Form, Tree};
use rust_leaf::laws::printed_as_mark;
use rust_leaf::punct::{Punct, Spacing};
use std::alloc::AllocError;
use syn_buffer::entry::Entry;
use writer_rules::operand::statement;

// Tokens that are kept as they are.
#[tactic(auto, using(crate::proofs::Apartness::raws))]
fn raw<'a>(tree: &Tree<'a>) -> Option<&'a [Entry<'a>]>
    ensures { option_map (λ es. map entry_token es.now) result ≡ raw_item (t.Node AnItem tree.now) }
{
    match &tree.form {
        Form::Raw(kept) => Some(kept.entries),
        _ => None,
    }
}

// The tokens of a raw item.
fn raw_item<'a>(tree: &Tree<'a>) -> Option<&'a [Entry<'a>]>
    ensures { option_map (λ es. map entry_token es.now) result ≡ raw_item tree.now }
{
    match tree.node() {
        Some((kind, inner)) => match kind {
            Kind::AnItem => raw(inner),
            _ => None,
        },
        None => None,
    }
}

// A mark, and nothing behind it.
fn alone(punct: &Punct) -> Punct
    ensures mark { punct_char result ≡ punct_char punct.now }
    ensures apart { punct_spacing result ≡ Apart }
{
    printed_as_mark(punct);
    let mut mark = Punct::new(punct.as_char(), Spacing::Alone);
    mark.set_span(punct.span());
    mark
}

// Tokens, of which the last is set apart, if it is a mark.
fn apart<'a>(arena: &'a Arena, entries: &'a [Entry<'a>]) -> Result<&'a [Entry<'a>], AllocError>
    ensures { IfOk result (λ es. map entry_token es.now ≡ apart (map entry_token entries.now)) }
{
    let Some((last, before)) = entries.split_last() else {
        return Ok(entries);
    };
    let Entry::Punct(punct) = last else {
        return Ok(entries);
    };
    let mut all = Vec::new(arena.alloc());
    all.extend_from_slice(before)?;
    let mark = arena.put(alone(punct))?;
    all.push(Entry::Punct(mark))?;
    arena.put_all(all)
}

// A raw item, whose last mark is set apart; any other tree as it is.
fn apart_raw<'a>(arena: &'a Arena, item: &Tree<'a>) -> Result<Tree<'a>, AllocError>
    ensures { IfOk result (λ x. x ≡ apart_raw item.now) }
{
    let Some(entries) = raw_item(item) else {
        return Ok(item.copy());
    };
    let entries = apart(arena, entries)?;
    steps::node(arena, Kind::AnItem, made::raw(arena, entries))
}

// So a statement's alternative, whichever it is.
#[tactic(auto, using(crate::proofs::Apartness::alternatives))]
fn apart_alternative<'a>(arena: &'a Arena, choice: &Tree<'a>) -> Result<Tree<'a>, AllocError>
    ensures { IfOk result (λ x. x ≡ apart_alternative choice.now) }
{
    match &choice.form {
        Form::First(depth, item) => {
            steps::first_behind(arena, *depth as usize, apart_raw(arena, item))
        }
        Form::Second(depth, behind) => {
            steps::second_behind(arena, *depth, apart_alternative(arena, behind))
        }
        _ => Ok(choice.copy()),
    }
}

// Of a turn among statements what stands in the statement.
fn stated_turn<'t, 'a>(turn: &'t Tree<'a>) -> Option<&'t Tree<'a>>
    ensures { option_map (λ x. x.now) result ≡ stated_turn turn.now }
{
    match turn.last() {
        Some(chosen) => statement(chosen),
        None => None,
    }
}

// The turn in whose statement this stands.
fn turn_of<'a>(
    arena: &'a Arena,
    inner: Result<Tree<'a>, AllocError>,
) -> Result<Tree<'a>, AllocError>
    ensures { (x : t.Tree) → IfOk inner.entry (λ z. z ≡ x)
        → IfOk result (λ z. z ≡ t.Second (t.Node AStatement x)) }
{
    steps::seconds(arena, 1, steps::node(arena, Kind::AStatement, inner))
}

// Whether a parenthesis stands in front of turns where none stood before.
fn is_enclosed(before: &[Tree<'_>], after: &[Tree<'_>]) -> bool
    ensures { result ≡ is_enclosed (turns before.now) (turns after.now) }
{
    begins_parenthesis(first_turns(after)) && !begins_parenthesis(first_turns(before))
}

// A turn before others, as they were and as they are.
fn part<'a>(
    arena: &'a Arena,
    turn: &Tree<'a>,
    before: &[Tree<'a>],
    after: &[Tree<'a>],
) -> Result<Tree<'a>, AllocError>
    ensures { IfOk result (λ x. x ≡ apart_if (is_enclosed (turns before.now) (turns after.now)) turn.now) }
{
    let Some(inner) = stated_turn(turn) else {
        return Ok(turn.copy());
    };
    if !is_enclosed(before, after) {
        return Ok(turn.copy());
    }
    turn_of(arena, apart_alternative(arena, inner))
}

/// Puts turns in normal form, of which it is said what they were: a raw item's last mark is set apart where a
/// parenthesis was added in front of what stands behind it.
///
/// # Errors
///
/// Where there is no memory for them.
#[tactic(auto, using(crate::proofs::Apartness::puts))]
pub(crate) fn put_parted<'a>(
    arena: &'a Arena,
    before: &[Tree<'a>],
    after: &[Tree<'a>],
    out: &mut Vec<Tree<'a>>,
) -> Result<(), AllocError>
    ensures { OnOk result (out.new.items ≡ out.old.items ++ parted before.now after.now) }
{
    let Some((_, behind)) = before.split_first() else {
        return Ok(());
    };
    let Some((turn, others)) = after.split_first() else {
        return Ok(());
    };
    out.push(part(arena, turn, behind, others)?)?;
    put_parted(arena, behind, others, out)
}
