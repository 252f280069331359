//! Writing what was read as it was read.

ghost use Rattle.writer_print.specs.Pieces.{piece_token};
ghost use Rattle.reader_table.specs.Ops.{separator_of};
ghost use Rattle.reader_tree.specs.Forms.{elements, turns};
ghost use Rattle.reader_tree.specs.declared.tree.Tree.TheDeep.{size-Tree};
ghost use Rattle.writer_rules.specs.Front.{Keeps};
ghost use Rattle.writer_read.specs.Chains.{behind_lefts_read, behind_read};
ghost use Rattle.proc_macro2.specs.Token as token;
ghost use Rattle.std.specs.Prelude.{[], ◌++◌, ◌∷◌, ◌≡◌, ◌≤◌, IfOk, OnOk, map, max};
ghost use Rattle.syn_grammar.specs.Tree as t;
ghost use Rattle.syn_grammar.specs.Tree.{flat};
ghost use denote.Param.Weighed.{most};

use crate::chain::left_of;
use crate::place::Place;
use proc_macro2::delimiter::Delimiter;
use reader_table::op::Separator;
use reader_tree::tree::{Element, Form, Three, Tree};
use rust_map::span::Span;
use std::alloc::AllocError;
use writer_print::piece::Piece;
use writer_rules::operand::{back, infix};
use writer_rules::put::{closing, entries, ident, lifetime, literal, opening, separator, sign};

/// Puts the tokens of a tree, as they were read, behind those that are to be written. What stands last in a tree, and
/// operands that stand one left of the other, are put without a call for each.
///
/// # Errors
///
/// Where there is no memory for more tokens, or for the forms in which an operand stands. Those that stood there stand
/// in front then too, perhaps with some of the tree's behind them.
#[cycle(as_read)]
#[tactic(auto, using(crate::proofs::Flat::forms, writer_rules::proofs::Fronts::kept))]
pub fn put_as_read<'a>(tree: &Tree<'a>, out: &mut Vec<Piece<'a>>) -> Result<(), AllocError>
    ensures put { OnOk result (map piece_token out.new.items ≡ map piece_token out.old.items ++ flat tree.now) }
    ensures keeps { Keeps out.old.items out.new.items }
{
    let mut left = Place { tree };
    'tails: loop {
        let here = left.tree;
        left = match &here.form {
            Form::Word(word) => return ident(word, out),
            Form::Literal(text) => return literal(text, out),
            Form::Mark(marks, spacing, span) => return sign(*marks, *spacing, span.span(), out),
            Form::Lifetime(held) => return lifetime(held.span, held.ident, out),
            Form::Raw(kept) => return entries(kept.entries, out),
            Form::Nil | Form::End => return Ok(()),
            Form::Turns(turns) => return put_turns(turns.each, out),
            Form::Group(delimiter, group) => {
                return put_group(*delimiter, group.span, &group.inside, out);
            }
            Form::Pair(two) | Form::Front(_, two) => {
                put_as_read(&two.front, out)?;
                Place { tree: &two.back }
            }
            Form::Back(_, two) => {
                put_left(&two.front, out)?;
                Place { tree: &two.back }
            }
            Form::Infix(_, three) => {
                put_before_right(three, out)?;
                Place { tree: &three.right }
            }
            Form::Elements(list) => {
                put_elements(list.separator, list.before, out)?;
                let Some(last) = list.last else {
                    return Ok(());
                };
                Place { tree: last }
            }
            Form::First(_, inner) | Form::Second(_, inner) | Form::Dropped(inner) => Place {
                tree: inner,
            },
            Form::Called(_, inner) | Form::Verbatim(inner) | Form::Node(_, inner) => Place {
                tree: inner,
            },
            Form::Whole(inner) | Form::Alone(_, inner) => Place { tree: inner },
        };
    }
}

// A group.
#[cycle(as_read)]
#[tactic(auto, using(writer_rules::proofs::Pushing::puts, writer_rules::proofs::Fronts::kept))]
fn put_group<'a>(
    delimiter: Delimiter,
    span: Span,
    inner: &Tree<'a>,
    out: &mut Vec<Piece<'a>>,
) -> Result<(), AllocError>
    ensures put { OnOk result (map piece_token out.new.items
        ≡ map piece_token out.old.items ++ (token.Opens delimiter ∷ flat inner.now ++ token.Closes delimiter ∷ [])) }
    ensures keeps { Keeps out.old.items out.new.items }
{
    opening(delimiter, span, out)?;
    put_as_read(inner, out)?;
    closing(delimiter, out)
}

// What stands before the right operand of an infix form.
#[cycle(as_read)]
#[tactic(auto, using(writer_rules::proofs::Pushing::puts, writer_rules::proofs::Fronts::kept))]
fn put_before_right<'a>(three: &Three<'a>, out: &mut Vec<Piece<'a>>) -> Result<(), AllocError>
    ensures put { OnOk result (map piece_token out.new.items
        ≡ map piece_token out.old.items ++ (flat three.now.left ++ flat three.now.own)) }
    ensures keeps { Keeps out.old.items out.new.items }
{
    put_left(&three.left, out)?;
    put_as_read(&three.own, out)
}

// Goes on from a form to its left operand, as often as there is one: each form is put behind others. The innermost
// operand.
fn leftmost<'t, 'a>(
    tree: &'t Tree<'a>,
    forms: &mut Vec<&'t Tree<'a>>,
) -> Result<&'t Tree<'a>, AllocError>
    ensures read { IfOk result (λ inner. flat inner.now ++ behind_lefts_read (map (λ x. x.now) forms.new.items)
        ≡ flat tree.now ++ behind_lefts_read (map (λ x. x.now) forms.old.items)) }
    ensures inside { IfOk result (λ inner. size-Tree inner.now ≤ size-Tree tree.now) }
    ensures outside { IfOk result (λ inner. most (λ x. size-Tree x.now) forms.new.items
        ≤ max (most (λ x. size-Tree x.now) forms.old.items) (size-Tree tree.now)) }
{
    let mut place = Place { tree };
    while let Some((_, left)) = left_of(place.tree) {
        forms.push(place.tree)?;
        place = Place { tree: left };
    }
    Ok(place.tree)
}

// What stands behind the left operand of a form.
#[cycle(as_read)]
#[tactic(auto, using(crate::proofs::Flat::behinds, writer_rules::proofs::Fronts::kept))]
fn put_behind<'a>(form: &Tree<'a>, out: &mut Vec<Piece<'a>>) -> Result<(), AllocError>
    ensures put { OnOk result (map piece_token out.new.items
        ≡ map piece_token out.old.items ++ behind_read form.now) }
    ensures keeps { Keeps out.old.items out.new.items }
{
    if let Some((_, three)) = infix(form) {
        put_as_read(&three.own, out)?;
        return put_as_read(&three.right, out);
    }
    match back(form) {
        Some((_, two)) => put_as_read(&two.back, out),
        None => Ok(()),
    }
}

// What stands behind the innermost of forms, each of which is the left operand of the one before it.
#[cycle(as_read)]
#[tactic(auto, using(writer_rules::proofs::Pushing::puts, writer_rules::proofs::Fronts::kept))]
fn put_behinds<'a>(forms: &[&Tree<'a>], out: &mut Vec<Piece<'a>>) -> Result<(), AllocError>
    ensures put { OnOk result (map piece_token out.new.items
        ≡ map piece_token out.old.items ++ behind_lefts_read (map (λ x. x.now) forms.now)) }
    ensures keeps { Keeps out.old.items out.new.items }
{
    let mut left = forms.len();
    while left > 0 {
        left -= 1;
        put_behind(forms[left], out)?;
    }
    Ok(())
}

// The tokens of a left operand.
#[cycle(as_read)]
#[tactic(auto, using(writer_rules::proofs::Pushing::puts, writer_rules::proofs::Fronts::kept))]
fn put_left<'a>(tree: &Tree<'a>, out: &mut Vec<Piece<'a>>) -> Result<(), AllocError>
    ensures put { OnOk result (map piece_token out.new.items ≡ map piece_token out.old.items ++ flat tree.now) }
    ensures keeps { Keeps out.old.items out.new.items }
{
    let mut forms = Vec::new(*out.allocator());
    let inner = leftmost(tree, &mut forms)?;
    put_as_read(inner, out)?;
    put_behinds(forms.as_slice(), out)
}

// The tokens of turns, one behind the other.
#[cycle(as_read)]
#[tactic(auto, using(writer_rules::proofs::Pushing::puts, writer_rules::proofs::Fronts::kept))]
fn put_turns<'a>(trees: &[Tree<'a>], out: &mut Vec<Piece<'a>>) -> Result<(), AllocError>
    ensures put { OnOk result (map piece_token out.new.items
        ≡ map piece_token out.old.items ++ flat (turns trees.now)) }
    ensures keeps { Keeps out.old.items out.new.items }
{
    for tree in trees {
        put_as_read(tree, out)?;
    }
    Ok(())
}

// The tokens of elements, and of the mark behind each.
#[cycle(as_read)]
#[tactic(auto, using(writer_rules::proofs::Pushing::puts, writer_rules::proofs::Fronts::kept))]
fn put_elements<'a>(
    mark: Separator,
    before: &[Element<'a>],
    out: &mut Vec<Piece<'a>>,
) -> Result<(), AllocError>
    ensures put { OnOk result (map piece_token out.new.items
        ≡ map piece_token out.old.items ++ flat (elements (separator_of mark) before.now t.End)) }
    ensures keeps { Keeps out.old.items out.new.items }
{
    for element in before {
        put_as_read(&element.tree, out)?;
        separator(mark, element.spacing.spacing(), element.spacing.span(), out)?;
    }
    Ok(())
}
