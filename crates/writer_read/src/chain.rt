//! Operands that stand one left of the other, which are written without a call for each in the one before it.

ghost use Rattle.writer_print.specs.Pieces.{piece_token};
ghost use Rattle.reader_table.specs.Kinds.{kind_of};
ghost use Rattle.reader_tree.specs.declared.tree.Tree.TheDeep.{size-Tree};
ghost use Rattle.writer_rules.specs.Front.{Keeps};
ghost use Rattle.writer_rules.specs.Laid.{given_laid, laid};
ghost use Rattle.writer_read.specs.Chains.{behind_left, behind_lefts, left_of, next_of, passed_laid};
ghost use Rattle.std.specs.Prelude.{◌++◌, ◌<◌, ◌≡◌, ◌≤◌, IfOk, None, OnOk, false, map, max, option_map, true};
ghost use denote.Param.Weighed.{most};

use crate::expressed::{put_if, put_operand, put_own};
use crate::laid::put_laid;
use crate::place::Place;
use proc_macro2::delimiter::Delimiter;
use reader_table::kind::Kind;
use reader_tree::tree::{Form, Tree};
use rust_map::span::Span;
use std::alloc::AllocError;
use writer_print::piece::Piece;
use writer_rules::operand::{back, giving, infix};
use writer_rules::shell::{goes_in, is_lone_range};
use writer_rules::within::Within;

// Which left operands are passed.
#[derive(Clone, Copy)]
enum Lefts<'t, 'a> {
    // Each.
    All,
    // Those that these attributes, which stand in front, are given to; contracts alone ask which attributes.
    Given(&'t Tree<'a>),
}

/// Of a form with an operand before it its kind and that operand.
#[tactic(auto, using(reader_tree::proofs::Shapes::singles))]
pub(crate) fn left_of<'t, 'a>(tree: &'t Tree<'a>) -> Option<(Kind, &'t Tree<'a>)>
    ensures { option_map (λ p. (kind_of p.0, p.1.now)) result ≡ left_of tree.now }
{
    match &tree.form {
        Form::Infix(kind, three) => Some((*kind, &three.left)),
        Form::Back(kind, two) => Some((*kind, &two.front)),
        _ => None,
    }
}

// Of a form its kind and its left operand, if that is passed.
fn next_of<'t, 'a>(lefts: Lefts<'t, 'a>, tree: &'t Tree<'a>) -> Option<(Kind, &'t Tree<'a>)>
    ensures { option_map (λ p. (kind_of p.0, p.1.now)) result ≡ next_of lefts.entry tree.now }
{
    match lefts {
        Lefts::All => left_of(tree),
        Lefts::Given(_) => giving(tree),
    }
}

// Goes on from a form to its left operand, if that is passed: the form is put behind others, and the parenthesis opens
// that the operand gets. Whether it is passed.
#[tactic(auto, using(writer_rules::proofs::Fronts::kept))]
fn step<'t, 'a>(
    lefts: Lefts<'t, 'a>,
    place: &mut Place<'t, 'a>,
    forms: &mut Vec<&'t Tree<'a>>,
    out: &mut Vec<Piece<'a>>,
) -> Result<bool, AllocError>
    ensures put { IfOk result (λ more. map piece_token out.new.items
        ++ (passed_laid lefts.entry place.new.tree.now ++ behind_lefts (map (λ x. x.now) forms.new.items))
        ≡ map piece_token out.old.items
        ++ (passed_laid lefts.entry place.old.tree.now ++ behind_lefts (map (λ x. x.now) forms.old.items))) }
    ensures keeps { Keeps out.old.items out.new.items }
    ensures inside { IfOk result (λ more. more ≡ true → size-Tree place.new.tree.now < size-Tree place.old.tree.now) }
    ensures stays { IfOk result (λ more. more ≡ false → place.new ≡ place.old) }
    ensures last { IfOk result (λ more. more ≡ false → next_of lefts.entry place.new.tree.now ≡ None) }
    ensures outside { IfOk result (λ more. most (λ x. size-Tree x.now) forms.new.items
        ≤ max (most (λ x. size-Tree x.now) forms.old.items) (size-Tree place.old.tree.now)) }
{
    let tree = place.tree;
    let Some((kind, left)) = next_of(lefts, tree) else {
        return Ok(false);
    };
    forms.push(tree)?;
    put_if(
        goes_in(kind, left),
        Piece::Open(Delimiter::Parenthesis, Span::call_site()),
        out,
    )?;
    *place = Place { tree: left };
    Ok(true)
}

// Goes on to the innermost left operand that is passed, which it answers.
#[tactic(auto, using(writer_rules::proofs::Fronts::kept))]
fn put_fronts<'t, 'a>(
    lefts: Lefts<'t, 'a>,
    tree: &'t Tree<'a>,
    forms: &mut Vec<&'t Tree<'a>>,
    out: &mut Vec<Piece<'a>>,
) -> Result<&'t Tree<'a>, AllocError>
    ensures put { IfOk result (λ inner. map piece_token out.new.items
        ++ (passed_laid lefts.entry inner.now ++ behind_lefts (map (λ x. x.now) forms.new.items))
        ≡ map piece_token out.old.items
        ++ (passed_laid lefts.entry tree.now ++ behind_lefts (map (λ x. x.now) forms.old.items))) }
    ensures keeps { Keeps out.old.items out.new.items }
    ensures inside { IfOk result (λ inner. size-Tree inner.now ≤ size-Tree tree.now) }
    ensures last { IfOk result (λ inner. next_of lefts.entry inner.now ≡ None) }
    ensures outside { IfOk result (λ inner. most (λ x. size-Tree x.now) forms.new.items
        ≤ max (most (λ x. size-Tree x.now) forms.old.items) (size-Tree tree.now)) }
{
    let mut place = Place { tree };
    while step(lefts, &mut place, forms, out)? {}
    Ok(place.tree)
}

// What stands behind the left operand of a form.
#[cycle(laid)]
#[tactic(auto, using(crate::proofs::Chains::behinds, writer_rules::proofs::Fronts::kept))]
fn put_behind<'a>(form: &Tree<'a>, out: &mut Vec<Piece<'a>>) -> Result<(), AllocError>
    ensures put { OnOk result (map piece_token out.new.items
        ≡ map piece_token out.old.items ++ behind_left form.now) }
    ensures keeps { Keeps out.old.items out.new.items }
{
    if let Some((kind, three)) = infix(form) {
        put_if(
            goes_in(kind, &three.left),
            Piece::Close(Delimiter::Parenthesis),
            out,
        )?;
        put_laid(Within::Anywhere, &three.own, out)?;
        return put_laid(Within::Anywhere, &three.right, out);
    }
    let Some((kind, two)) = back(form) else {
        return Ok(());
    };
    put_if(
        goes_in(kind, &two.front),
        Piece::Close(Delimiter::Parenthesis),
        out,
    )?;
    put_own(kind, &two.back, out)
}

// What stands behind the innermost of forms, each of which is the left operand of the one before it.
#[cycle(laid)]
#[tactic(auto, using(writer_rules::proofs::Pushing::puts, writer_rules::proofs::Fronts::kept))]
fn put_behinds<'a>(forms: &[&Tree<'a>], out: &mut Vec<Piece<'a>>) -> Result<(), AllocError>
    ensures put { OnOk result (map piece_token out.new.items
        ≡ map piece_token out.old.items ++ behind_lefts (map (λ x. x.now) forms.now)) }
    ensures keeps { Keeps out.old.items out.new.items }
{
    let mut left = forms.len();
    while left > 0 {
        left -= 1;
        put_behind(forms[left], out)?;
    }
    Ok(())
}

/// Puts the tokens of an operand, with no call for each operand that stands left in it.
///
/// # Errors
///
/// Where there is no memory for more tokens, or for the forms in which the innermost operand stands.
#[cycle(laid)]
#[tactic(auto, using(writer_rules::proofs::Pushing::puts, writer_rules::proofs::Fronts::kept))]
pub(crate) fn put_chain<'a>(tree: &Tree<'a>, out: &mut Vec<Piece<'a>>) -> Result<(), AllocError>
    ensures put { OnOk result (map piece_token out.new.items ≡ map piece_token out.old.items ++ laid tree.now) }
    ensures keeps { Keeps out.old.items out.new.items }
{
    let mut forms = Vec::new(*out.allocator());
    let inner = put_fronts(Lefts::All, tree, &mut forms, out)?;
    put_laid(Within::Anywhere, inner, out)?;
    put_behinds(forms.as_slice(), out)
}

/// Puts the tokens of an operand with attributes in front, which are given to the leftmost one in it; a range gets
/// parentheses behind them. There is no call for each operand that stands left in it.
///
/// # Errors
///
/// Where there is no memory for more tokens, or for the forms in which that operand stands.
#[cycle(laid)]
#[tactic(auto, using(writer_rules::proofs::Pushing::puts, writer_rules::proofs::Fronts::kept))]
pub(crate) fn put_given<'t, 'a>(
    attributes: &'t Tree<'a>,
    tree: &'t Tree<'a>,
    out: &mut Vec<Piece<'a>>,
) -> Result<(), AllocError>
    ensures put { OnOk result (map piece_token out.new.items
        ≡ map piece_token out.old.items ++ given_laid (laid attributes.now) (laid tree.now) tree.now) }
    ensures keeps { Keeps out.old.items out.new.items }
{
    let mut forms = Vec::new(*out.allocator());
    let inner = put_fronts(Lefts::Given(attributes), tree, &mut forms, out)?;
    put_laid(Within::Anywhere, attributes, out)?;
    put_operand(is_lone_range(inner), inner, out)?;
    put_behinds(forms.as_slice(), out)
}
