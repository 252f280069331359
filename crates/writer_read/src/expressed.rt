//! Forms of expressions and statements, with the parentheses that they get.

ghost use Rattle.writer_print.specs.Pieces.{piece_token};
ghost use Rattle.reader_table.specs.Kinds.{kind_of};
ghost use Rattle.writer_rules.specs.Front.{Keeps};
ghost use Rattle.writer_rules.specs.Laid.{behind_laid, given_laid, has_attributes, laid};
ghost use Rattle.proc_macro2.specs.Token as token;
ghost use Rattle.laws_ranges.specs.Shelled.{enclosed_if, goes_in};
ghost use Rattle.std.specs.Prelude.{[], ◌++◌, ◌∷◌, ◌≡◌, OnOk, cond, map};
ghost use Rattle.syn_grammar.specs.Kind.{AStatement};
ghost use Rattle.syn_grammar.specs.Tree as t;

use crate::chain::{put_chain, put_given};
use crate::laid::put_laid;
use proc_macro2::delimiter::Delimiter;
use reader_table::kind::Kind;
use reader_tree::tree::{Three, Tree, Two};
use rust_map::span::Span;
use std::alloc::AllocError;
use writer_print::piece::Piece;
use writer_rules::fields::{put_fields, put_front_fields};
use writer_rules::operand::{has_attributes, stated};
use writer_rules::put::one;
use writer_rules::shell::goes_in;
use writer_rules::way::{dotted, is_dotted, last_number};
use writer_rules::within::Within;

/// Puts a token, if it is to be put.
///
/// # Errors
///
/// Where there is no memory for it.
#[tactic(auto, using(writer_rules::proofs::Pushing::puts, writer_rules::proofs::Fronts::kept))]
pub(crate) fn put_if<'a>(
    wanted: bool,
    piece: Piece<'a>,
    out: &mut Vec<Piece<'a>>,
) -> Result<(), AllocError>
    ensures put { OnOk result (map piece_token out.new.items
        ≡ map piece_token out.old.items ++ cond wanted (piece_token piece.entry ∷ []) []) }
    ensures keeps { Keeps out.old.items out.new.items }
{
    if wanted { one(piece, out) } else { Ok(()) }
}

/// Puts the tokens of an operand, in parentheses or not.
///
/// # Errors
///
/// Where there is no memory for more tokens.
#[cycle(laid)]
#[tactic(auto, using(crate::proofs::Expressing::operands, writer_rules::proofs::Fronts::kept))]
pub(crate) fn put_operand<'a>(
    enclosed: bool,
    tree: &Tree<'a>,
    out: &mut Vec<Piece<'a>>,
) -> Result<(), AllocError>
    ensures put { OnOk result (map piece_token out.new.items
        ≡ map piece_token out.old.items ++ enclosed_if enclosed (laid tree.now)) }
    ensures keeps { Keeps out.old.items out.new.items }
{
    put_if(
        enclosed,
        Piece::Open(Delimiter::Parenthesis, Span::call_site()),
        out,
    )?;
    put_chain(tree, out)?;
    put_if(enclosed, Piece::Close(Delimiter::Parenthesis), out)
}

/// Puts the tokens of a form with an operand before it.
///
/// # Errors
///
/// Where there is no memory for more tokens.
#[cycle(laid)]
#[tactic(auto, using(writer_rules::proofs::Pushing::puts, writer_rules::proofs::Fronts::kept))]
pub(crate) fn put_back<'a>(
    kind: Kind,
    two: &Two<'a>,
    out: &mut Vec<Piece<'a>>,
) -> Result<(), AllocError>
    ensures put { OnOk result (map piece_token out.new.items ≡ map piece_token out.old.items
        ++ (enclosed_if (goes_in (kind_of kind) two.now.front) (laid two.now.front)
        ++ behind_laid (kind_of kind) two.now.back)) }
    ensures keeps { Keeps out.old.items out.new.items }
{
    put_operand(goes_in(kind, &two.front), &two.front, out)?;
    put_own(kind, &two.back, out)
}

// The own part of a form behind its left operand, whose numbers behind a dot are split.
#[cycle(laid)]
#[tactic(auto, using(crate::proofs::Laying::owns, writer_rules::proofs::Fronts::kept))]
pub(crate) fn put_own<'a>(
    kind: Kind,
    own: &Tree<'a>,
    out: &mut Vec<Piece<'a>>,
) -> Result<(), AllocError>
    ensures put { OnOk result (map piece_token out.new.items
        ≡ map piece_token out.old.items ++ behind_laid (kind_of kind) own.now) }
    ensures keeps { Keeps out.old.items out.new.items }
{
    if !is_dotted(kind) {
        return put_laid(Within::Anywhere, own, out);
    }
    let Some(parts) = dotted(own) else {
        return put_laid(Within::Anywhere, own, out);
    };
    put_front_fields(parts.numbers, out)?;
    if let Some(literal) = last_number(kind, parts.behind) {
        return put_fields(literal, out);
    }
    put_laid(Within::Anywhere, parts.dot, out)?;
    put_laid(Within::Anywhere, parts.behind, out)
}

/// Puts the tokens of an infix form up to its right operand.
///
/// # Errors
///
/// Where there is no memory for more tokens.
#[cycle(laid)]
#[tactic(auto, using(writer_rules::proofs::Pushing::puts, writer_rules::proofs::Fronts::kept))]
pub(crate) fn put_left<'a>(
    kind: Kind,
    three: &Three<'a>,
    out: &mut Vec<Piece<'a>>,
) -> Result<(), AllocError>
    ensures put { OnOk result (map piece_token out.new.items ≡ map piece_token out.old.items
        ++ (enclosed_if (goes_in (kind_of kind) three.now.left) (laid three.now.left) ++ laid three.now.own)) }
    ensures keeps { Keeps out.old.items out.new.items }
{
    put_operand(goes_in(kind, &three.left), &three.left, out)?;
    put_laid(Within::Anywhere, &three.own, out)
}

// An expression behind what stands before it in a statement.
#[cycle(laid)]
#[tactic(auto, using(writer_rules::proofs::Pushing::puts, writer_rules::proofs::Fronts::kept))]
fn put_before<'t, 'a>(
    before: &'t Tree<'a>,
    form: &'t Tree<'a>,
    out: &mut Vec<Piece<'a>>,
) -> Result<(), AllocError>
    ensures put { OnOk result (map piece_token out.new.items ≡ map piece_token out.old.items
        ++ cond (has_attributes before.now) (given_laid (laid before.now) (laid form.now) form.now)
        (laid before.now ++ laid form.now)) }
    ensures keeps { Keeps out.old.items out.new.items }
{
    if has_attributes(before) {
        return put_given(before, form, out);
    }
    put_laid(Within::Anywhere, before, out)?;
    put_laid(Within::Anywhere, form, out)
}

/// Puts the tokens of a statement, whose attributes are given to its expression.
///
/// # Errors
///
/// Where there is no memory for more tokens.
#[cycle(laid)]
#[tactic(auto, using(crate::proofs::Expressing::statements, writer_rules::proofs::Fronts::kept))]
pub(crate) fn put_statement<'a>(
    inner: &Tree<'a>,
    out: &mut Vec<Piece<'a>>,
) -> Result<(), AllocError>
    ensures put { OnOk result (map piece_token out.new.items
        ≡ map piece_token out.old.items ++ laid (t.Node AStatement inner.now)) }
    ensures keeps { Keeps out.old.items out.new.items }
{
    let Some(parts) = stated(inner) else {
        return put_laid(Within::Anywhere, inner, out);
    };
    put_before(parts.before, parts.form, out)?;
    put_laid(Within::Anywhere, parts.behind, out)
}
