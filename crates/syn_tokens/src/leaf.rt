//! The leaves of what was read, in their order.

ghost use Rattle.reader_table.specs.Ops.{separator_of};
ghost use Rattle.reader_tree.specs.Forms.{elements, turns};
ghost use Rattle.writer_rules.specs.Front.{Keeps};
ghost use Rattle.std.specs.Prelude.{◌≡◌, ◌++◌, OnOk};
ghost use Rattle.syn_tokens.specs.Leaves.{leaf_tokens, leaves_tokens};
ghost use Rattle.syn_grammar.specs.Tree as t;
ghost use Rattle.syn_grammar.specs.Tree.{flat};

use proc_macro2::delimiter::Delimiter;
use reader_table::op::Separator;
use reader_table::word::Sign;
use reader_tree::tree::{Element, Form, Tree, Two};
use rust_leaf::ident::Ident;
use rust_leaf::literal::Literal;
use rust_leaf::punct::Spacing;
use rust_map::span::Span;
use std::alloc::AllocError;
use syn_buffer::entry::Entry;

/// A leaf: the token or tokens that stand there, lent, and where they stand.
#[derive(Clone, Copy)]
pub enum Leaf<'a> {
    /// An identifier or a keyword.
    Ident(&'a Ident),
    /// A literal.
    Literal(&'a Literal),
    /// A punctuation, how its last mark is spaced, and where its first mark stands.
    Punct(Sign, Spacing, Span),
    /// `'`, where it stands, and the word behind it.
    Lifetime(Span, &'a Ident),
    /// The mark behind an element of a list, and how it is spaced. Where it stands is not kept.
    Separator(Separator, Spacing),
    /// A group opens. The span is the whole group's.
    Open(Delimiter, Span),
    /// A group closes. The span is the whole group's.
    Close(Delimiter, Span),
    /// Tokens that are kept as they are.
    Raw(&'a [Entry<'a>]),
}

// One leaf more.
#[tactic(auto, using(crate::proofs::Leaves::one, writer_rules::proofs::Fronts::kept))]
fn put<'a>(leaf: Leaf<'a>, out: &mut Vec<Leaf<'a>>) -> Result<(), AllocError>
    ensures put { OnOk result (leaves_tokens out.new.items ≡ leaves_tokens out.old.items ++ leaf_tokens leaf.entry) }
    ensures keeps { Keeps out.old.items out.new.items }
{
    out.push(leaf)?;
    Ok(())
}

/// Puts the leaves of a tree, in their order, behind those that are given: all tokens that were read, those too that
/// are no part of the program.
///
/// # Errors
///
/// Where there is no memory for more leaves. Those that were given stand in front then too, perhaps with some of the
/// tree's behind them.
#[cycle(leaves)]
#[tactic(auto, using(crate::proofs::Leaves::forms, writer_rules::proofs::Fronts::kept))]
pub fn put_leaves<'a>(tree: &Tree<'a>, out: &mut Vec<Leaf<'a>>) -> Result<(), AllocError>
    ensures put { OnOk result (leaves_tokens out.new.items ≡ leaves_tokens out.old.items ++ flat tree.now) }
    ensures keeps { Keeps out.old.items out.new.items }
{
    match &tree.form {
        Form::Word(ident) => put(Leaf::Ident(ident), out),
        Form::Literal(literal) => put(Leaf::Literal(literal), out),
        Form::Mark(sign, spacing, span) => put(Leaf::Punct(*sign, *spacing, span.span()), out),
        Form::Lifetime(held) => put(Leaf::Lifetime(held.span, held.ident), out),
        Form::Raw(kept) => put(Leaf::Raw(kept.entries), out),
        Form::Nil | Form::End => Ok(()),
        Form::Pair(two) | Form::Front(_, two) | Form::Back(_, two) => put_two(two, out),
        Form::Turns(turns) => put_turns(turns.each, out),
        Form::Elements(list) => {
            put_elements(list.separator, list.before, out)?;
            match list.last {
                Some(last) => put_leaves(last, out),
                None => Ok(()),
            }
        }
        Form::Group(delimiter, group) => {
            put(Leaf::Open(*delimiter, group.span), out)?;
            put_leaves(&group.inside, out)?;
            put(Leaf::Close(*delimiter, group.span), out)
        }
        Form::Infix(_, three) => {
            put_leaves(&three.left, out)?;
            put_leaves(&three.own, out)?;
            put_leaves(&three.right, out)
        }
        Form::First(_, inner) | Form::Second(_, inner) | Form::Dropped(inner) => put_leaves(
            inner, out,
        ),
        Form::Called(_, inner) | Form::Verbatim(inner) | Form::Node(_, inner) => put_leaves(
            inner, out,
        ),
        Form::Whole(inner) | Form::Alone(_, inner) => put_leaves(inner, out),
    }
}

// The leaves of two trees.
#[cycle(leaves)]
#[tactic(auto, using(crate::proofs::Leaves::puts, writer_rules::proofs::Fronts::kept))]
fn put_two<'a>(two: &Two<'a>, out: &mut Vec<Leaf<'a>>) -> Result<(), AllocError>
    ensures put { OnOk result (leaves_tokens out.new.items
        ≡ leaves_tokens out.old.items ++ (flat two.now.front ++ flat two.now.back)) }
    ensures keeps { Keeps out.old.items out.new.items }
{
    put_leaves(&two.front, out)?;
    put_leaves(&two.back, out)
}

// The leaves of turns.
#[cycle(leaves)]
#[tactic(auto, using(crate::proofs::Leaves::puts, writer_rules::proofs::Fronts::kept))]
fn put_turns<'a>(trees: &[Tree<'a>], out: &mut Vec<Leaf<'a>>) -> Result<(), AllocError>
    ensures put { OnOk result (leaves_tokens out.new.items
        ≡ leaves_tokens out.old.items ++ flat (turns trees.now)) }
    ensures keeps { Keeps out.old.items out.new.items }
{
    for tree in trees {
        put_leaves(tree, out)?;
    }
    Ok(())
}

// The leaves of elements, and of the mark behind each.
#[cycle(leaves)]
#[tactic(auto, using(crate::proofs::Leaves::puts, writer_rules::proofs::Fronts::kept))]
fn put_elements<'a>(
    mark: Separator,
    before: &[Element<'a>],
    out: &mut Vec<Leaf<'a>>,
) -> Result<(), AllocError>
    ensures put { OnOk result (leaves_tokens out.new.items
        ≡ leaves_tokens out.old.items ++ flat (elements (separator_of mark) before.now t.End)) }
    ensures keeps { Keeps out.old.items out.new.items }
{
    for element in before {
        put_leaves(&element.tree, out)?;
        put(Leaf::Separator(mark, element.spacing.spacing()), out)?;
    }
    Ok(())
}
