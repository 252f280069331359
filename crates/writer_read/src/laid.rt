//! Writing what was read as its normal form has it.

ghost use Rattle.writer_print.specs.Pieces.{piece_token};
ghost use Rattle.reader_table.specs.Kinds.{kind_of};
ghost use Rattle.reader_table.specs.Ops.{separator_of};
ghost use Rattle.reader_table.specs.Parts.{part_of};
ghost use Rattle.reader_tree.specs.Forms.{elements};
ghost use Rattle.writer_rules.specs.Front.{Keeps};
ghost use Rattle.writer_rules.specs.Laid.{firsts_laid, laid, laid_in, others_laid, those_laid};
ghost use Rattle.writer_rules.specs.Way.{passes, way_laid};
ghost use Rattle.proc_macro2.specs.Token as token;
ghost use Rattle.std.specs.Prelude.{[], ◌++◌, ◌∷◌, ◌≡◌, OnOk, false, map};
ghost use Rattle.syn_grammar.specs.Kind.{Parameter};
ghost use Rattle.syn_grammar.specs.Tree as t;

use crate::as_read::put_as_read;
use crate::expressed::{put_back, put_left, put_operand, put_statement};
use crate::turn::put_turns;
use proc_macro2::delimiter::Delimiter;
use reader_table::kind::Kind;
use reader_table::op::Separator;
use reader_table::part::Part;
use reader_tree::tree::{Element, Form, Tree};
use rust_leaf::punct::Spacing;
use rust_map::span::Span;
use std::alloc::AllocError;
use writer_print::piece::Piece;
use writer_rules::fields::number;
use writer_rules::put::{
    closing, comma, entries, ident, lifetime, literal, one, opening, separator, sign,
};
use writer_rules::seen::{is_missing, type_alone};
use writer_rules::shell::is_shelled;
use writer_rules::way::{Firsts, Way, has_way, lacks_some, of_node, of_part, passes};
use writer_rules::within::Within;

/// What a tree ends with, which is left to be put.
#[derive(Clone, Copy)]
struct Tail<'t, 'a> {
    /// Where it stands.
    within: Within,
    /// The tree.
    tree: &'t Tree<'a>,
}

// What is left, as it stands within the parts of a kind.
#[inline(always)]
fn ending<'t, 'a>(within: Within, tree: &'t Tree<'a>) -> Tail<'t, 'a>
    ensures within { result.within ≡ within }
    ensures tree { result.tree.now ≡ tree.now }
{
    Tail { within, tree }
}

/// Puts the tokens of the normal form of a tree behind those that are to be written, as they stand within the parts of
/// a kind. What stands last in a tree is put without a call for it.
///
/// # Errors
///
/// Where there is no memory for more tokens.
#[cycle(laid)]
#[tactic(auto, using(crate::proofs::Laying::forms, writer_rules::proofs::Fronts::kept))]
pub(crate) fn put_laid<'a>(
    within: Within,
    tree: &Tree<'a>,
    out: &mut Vec<Piece<'a>>,
) -> Result<(), AllocError>
    ensures put { OnOk result (map piece_token out.new.items
        ≡ map piece_token out.old.items ++ laid_in within tree.now) }
    ensures keeps { Keeps out.old.items out.new.items }
{
    let mut left = ending(within, tree);
    'tails: loop {
        let here = left.tree;
        left = match &here.form {
            Form::Word(word) => return ident(word, out),
            Form::Literal(text) => return literal(text, out),
            Form::Mark(marks, _, span) => return sign(*marks, Spacing::Alone, span.span(), out),
            Form::Lifetime(held) => return lifetime(held.span, held.ident, out),
            Form::Raw(kept) => return entries(kept.entries, out),
            Form::Nil | Form::End | Form::Dropped(_) => return Ok(()),
            Form::Verbatim(inner) => return put_as_read(inner, out),
            Form::Back(kind, two) => return put_back(*kind, two, out),
            Form::Turns(turns) => return put_turns(turns.each, out),
            Form::Group(delimiter, group) => return put_group(
                left.within,
                *delimiter,
                group.span,
                &group.inside,
                out,
            ),
            Form::First(_, inner) | Form::Second(_, inner) => ending(left.within, inner),
            Form::Whole(inner) | Form::Alone(_, inner) => ending(Within::Anywhere, inner),
            Form::Pair(two) => {
                put_first(left.within, &two.front, out)?;
                ending(left.within, &two.back)
            }
            Form::Infix(kind, three) => {
                put_left(*kind, three, out)?;
                ending(Within::Anywhere, &three.right)
            }
            Form::Front(kind, two) => {
                put_laid(Within::Anywhere, &two.front, out)?;
                if is_shelled(*kind, &two.back) {
                    return put_operand(true, &two.back, out);
                }
                ending(Within::Anywhere, &two.back)
            }
            Form::Elements(list) => {
                put_elements(list.separator, list.before, out)?;
                let Some(last) = list.last else {
                    return Ok(());
                };
                ending(Within::Anywhere, last)
            }
            Form::Node(kind, inner) => {
                if has_way(*kind) {
                    return put_node(*kind, inner, out);
                }
                ending(Within::Anywhere, inner)
            }
            Form::Called(part, inner) => match left.within {
                Within::Anywhere => ending(Within::Anywhere, inner),
                _ => return put_part(left.within, *part, inner, out),
            },
        };
    }
}

// What stands first of two: it is mostly a token, or none, and takes no call then.
#[cycle(laid)]
#[tactic(auto, using(crate::proofs::Laying::forms, crate::proofs::Laying::missing, writer_rules::proofs::Fronts::kept))]
#[inline(always)]
fn put_first<'a>(
    within: Within,
    tree: &Tree<'a>,
    out: &mut Vec<Piece<'a>>,
) -> Result<(), AllocError>
    ensures put { OnOk result (map piece_token out.new.items
        ≡ map piece_token out.old.items ++ laid_in within tree.now) }
    ensures keeps { Keeps out.old.items out.new.items }
{
    match &tree.form {
        Form::Word(word) => ident(word, out),
        Form::Mark(marks, _, span) => sign(*marks, Spacing::Alone, span.span(), out),
        _ => {
            if is_missing(tree) {
                Ok(())
            } else {
                put_laid(within, tree, out)
            }
        }
    }
}

// A group.
#[cycle(laid)]
#[tactic(auto, using(writer_rules::proofs::Pushing::puts, writer_rules::proofs::Fronts::kept))]
fn put_group<'a>(
    within: Within,
    delimiter: Delimiter,
    span: Span,
    inner: &Tree<'a>,
    out: &mut Vec<Piece<'a>>,
) -> Result<(), AllocError>
    ensures put { OnOk result (map piece_token out.new.items
        ≡ map piece_token out.old.items
        ++ token.Opens delimiter ∷ laid_in within inner.now ++ token.Closes delimiter ∷ []) }
    ensures keeps { Keeps out.old.items out.new.items }
{
    opening(delimiter, span, out)?;
    put_laid(within, inner, out)?;
    closing(delimiter, out)
}

// The tokens of elements, and of the mark behind each.
#[cycle(laid)]
#[tactic(auto, using(writer_rules::proofs::Pushing::puts, writer_rules::proofs::Fronts::kept))]
fn put_elements<'a>(
    mark: Separator,
    before: &[Element<'a>],
    out: &mut Vec<Piece<'a>>,
) -> Result<(), AllocError>
    ensures put { OnOk result (map piece_token out.new.items
        ≡ map piece_token out.old.items ++ laid (elements (separator_of mark) before.now t.End)) }
    ensures keeps { Keeps out.old.items out.new.items }
{
    for element in before {
        put_laid(Within::Anywhere, &element.tree, out)?;
        separator(mark, Spacing::Alone, element.spacing.span(), out)?;
    }
    Ok(())
}

// A part.
#[cycle(laid)]
#[tactic(auto, using(writer_rules::proofs::Fronts::kept))]
#[inline(never)]
fn put_part<'a>(
    within: Within,
    part: Part,
    inner: &Tree<'a>,
    out: &mut Vec<Piece<'a>>,
) -> Result<(), AllocError>
    ensures put { OnOk result (map piece_token out.new.items
        ≡ map piece_token out.old.items ++ laid_in within (t.Called (part_of part) inner.now)) }
    ensures keeps { Keeps out.old.items out.new.items }
{
    put_so(of_part(within, part, inner), inner, out)
}

// A node: of an option that isn't there nothing is written.
#[cycle(laid)]
#[tactic(auto, using(crate::proofs::Laying::missing, writer_rules::proofs::Fronts::kept))]
#[inline(never)]
fn put_node<'a>(kind: Kind, inner: &Tree<'a>, out: &mut Vec<Piece<'a>>) -> Result<(), AllocError>
    ensures put { OnOk result (map piece_token out.new.items
        ≡ map piece_token out.old.items ++ laid (t.Node (kind_of kind) inner.now)) }
    ensures keeps { Keeps out.old.items out.new.items }
{
    if is_missing(inner) {
        return Ok(());
    }
    put_so(of_node(kind, inner), inner, out)
}

// The inside of a node or of a part, written in that way.
#[cycle(laid)]
#[tactic(auto, using(writer_rules::proofs::Pushing::puts, writer_rules::proofs::Fronts::kept))]
#[inline(always)]
fn put_so<'a>(way: Way<'a>, inner: &Tree<'a>, out: &mut Vec<Piece<'a>>) -> Result<(), AllocError>
    ensures put { OnOk result (map piece_token out.new.items
        ≡ map piece_token out.old.items ++ way_laid way.entry inner.now) }
    ensures keeps { Keeps out.old.items out.new.items }
{
    match way {
        Way::Nothing => Ok(()),
        Way::Number(literal) => number(literal, out),
        Way::Parameter => put_parameter(inner, out),
        Way::Statement => put_statement(inner, out),
        Way::Firsts(which) => put_firsts(which, inner, out),
        Way::Parts(within) => put_laid(within, inner, out),
    }
}

// A parameter, which gets the pattern `_` and a colon where it is a type alone.
#[cycle(laid)]
#[tactic(auto, using(crate::proofs::Laying::parameters, writer_rules::proofs::Fronts::kept))]
fn put_parameter<'a>(inner: &Tree<'a>, out: &mut Vec<Piece<'a>>) -> Result<(), AllocError>
    ensures put { OnOk result (map piece_token out.new.items
        ≡ map piece_token out.old.items ++ laid (t.Node Parameter inner.now)) }
    ensures keeps { Keeps out.old.items out.new.items }
{
    let Some((front, given)) = type_alone(inner) else {
        return put_laid(Within::Anywhere, inner, out);
    };
    put_laid(Within::Anywhere, front, out)?;
    one(Piece::Underscore, out)?;
    one(Piece::Mark(':', Spacing::Alone, Span::call_site()), out)?;
    put_laid(Within::Anywhere, given, out)
}

// A list: the elements that come first, and then the others. The last one gets a comma where others follow it.
#[cycle(laid)]
#[tactic(auto, using(crate::proofs::Laying::lists, writer_rules::proofs::Fronts::kept))]
fn put_firsts<'a>(
    which: Firsts,
    list: &Tree<'a>,
    out: &mut Vec<Piece<'a>>,
) -> Result<(), AllocError>
    ensures put { OnOk result (map piece_token out.new.items
        ≡ map piece_token out.old.items ++ firsts_laid (passes which) list.now) }
    ensures keeps { Keeps out.old.items out.new.items }
{
    let Form::Elements(elements) = &list.form else {
        return put_laid(Within::Anywhere, list, out);
    };
    put_those(which, elements.separator, elements.before, out)?;
    let Some(last) = elements.last else {
        return put_others(which, elements.separator, elements.before, out);
    };
    if passes(which, last) {
        put_laid(Within::Anywhere, last, out)?;
        comma(lacks_some(which, elements.before), out)?;
        put_others(which, elements.separator, elements.before, out)
    } else {
        put_others(which, elements.separator, elements.before, out)?;
        put_laid(Within::Anywhere, last, out)
    }
}

// The elements that come first, each with the mark behind it.
#[cycle(laid)]
#[tactic(auto, using(writer_rules::proofs::Pushing::puts, writer_rules::proofs::Fronts::kept))]
fn put_those<'a>(
    which: Firsts,
    mark: Separator,
    before: &[Element<'a>],
    out: &mut Vec<Piece<'a>>,
) -> Result<(), AllocError>
    ensures put { OnOk result (map piece_token out.new.items ≡ map piece_token out.old.items
        ++ those_laid (passes which) false (elements (separator_of mark) before.now t.End)) }
    ensures keeps { Keeps out.old.items out.new.items }
{
    for element in before {
        if passes(which, &element.tree) {
            put_laid(Within::Anywhere, &element.tree, out)?;
            separator(mark, Spacing::Alone, element.spacing.span(), out)?;
        }
    }
    Ok(())
}

// The other elements, each with the mark behind it.
#[cycle(laid)]
#[tactic(auto, using(crate::proofs::Laying::others, writer_rules::proofs::Fronts::kept))]
fn put_others<'a>(
    which: Firsts,
    mark: Separator,
    before: &[Element<'a>],
    out: &mut Vec<Piece<'a>>,
) -> Result<(), AllocError>
    ensures put { OnOk result (map piece_token out.new.items ≡ map piece_token out.old.items
        ++ others_laid (passes which) [] (elements (separator_of mark) before.now t.End)) }
    ensures keeps { Keeps out.old.items out.new.items }
{
    for element in before {
        if !passes(which, &element.tree) {
            put_laid(Within::Anywhere, &element.tree, out)?;
            separator(mark, Spacing::Alone, element.spacing.span(), out)?;
        }
    }
    Ok(())
}
