//! The nodes of what was read, in their order.

ghost use Rattle.reader_tree.specs.Forms.{elements, turns};
ghost use Rattle.writer_rules.specs.Front.{Keeps};
ghost use Rattle.std.specs.Prelude.{◌≡◌, ◌++◌, ◌∷◌, [], OnOk, map};
ghost use Rattle.syn_tokens.specs.Nodes.{nodes};
ghost use Rattle.syn_grammar.specs.Tree as t;

use reader_tree::tree::{Element, Form, Tree, Two};
use std::alloc::AllocError;

// One more.
#[tactic(auto, using(crate::proofs::Nodes::one, writer_rules::proofs::Fronts::kept))]
fn put<'t, 'a>(tree: &'t Tree<'a>, out: &mut Vec<&'t Tree<'a>>) -> Result<(), AllocError>
    ensures put { OnOk result (map (λ x. x.now) out.new.items ≡ map (λ x. x.now) out.old.items ++ tree.now ∷ []) }
    ensures keeps { Keeps out.old.items out.new.items }
{
    out.push(tree)?;
    Ok(())
}

/// Puts the nodes of a tree and the forms of its expressions, at every depth, behind those that are given: each before
/// those that stand in it, in the order in which they stand in the text. So `tree.node()` tells of each what it is, and
/// of an expression's form `tree.kind()`.
///
/// # Errors
///
/// Where there is no memory for more of them. Those that are given stand in front then too, perhaps with some of the
/// tree's behind them.
#[cycle(nodes)]
#[tactic(auto, using(crate::proofs::Nodes::forms, writer_rules::proofs::Fronts::kept))]
pub fn put_nodes<'t, 'a>(tree: &'t Tree<'a>, out: &mut Vec<&'t Tree<'a>>) -> Result<(), AllocError>
    ensures put { OnOk result (map (λ x. x.now) out.new.items ≡ map (λ x. x.now) out.old.items ++ nodes tree.now) }
    ensures keeps { Keeps out.old.items out.new.items }
{
    match &tree.form {
        Form::Word(_) | Form::Literal(_) | Form::Mark(_, _, _) => Ok(()),
        Form::Lifetime(_) | Form::Raw(_) | Form::Nil | Form::End => Ok(()),
        Form::Pair(two) => put_two(two, out),
        Form::Front(_, two) | Form::Back(_, two) => {
            put(tree, out)?;
            put_two(two, out)
        }
        Form::Infix(_, three) => {
            put(tree, out)?;
            put_nodes(&three.left, out)?;
            put_nodes(&three.own, out)?;
            put_nodes(&three.right, out)
        }
        Form::Turns(turns) => put_turns(turns.each, out),
        Form::Elements(list) => {
            put_elements(list.before, out)?;
            match list.last {
                Some(last) => put_nodes(last, out),
                None => Ok(()),
            }
        }
        Form::Node(_, inner) | Form::Alone(_, inner) => {
            put(tree, out)?;
            put_nodes(inner, out)
        }
        Form::First(_, inner) | Form::Second(_, inner) | Form::Dropped(inner) => put_nodes(
            inner, out,
        ),
        Form::Called(_, inner) | Form::Verbatim(inner) | Form::Whole(inner) => put_nodes(
            inner, out,
        ),
        Form::Group(_, group) => put_nodes(&group.inside, out),
    }
}

// Those of two trees.
#[cycle(nodes)]
#[tactic(auto, using(crate::proofs::Nodes::puts, writer_rules::proofs::Fronts::kept))]
fn put_two<'t, 'a>(two: &'t Two<'a>, out: &mut Vec<&'t Tree<'a>>) -> Result<(), AllocError>
    ensures put { OnOk result (map (λ x. x.now) out.new.items
        ≡ map (λ x. x.now) out.old.items ++ (nodes two.now.front ++ nodes two.now.back)) }
    ensures keeps { Keeps out.old.items out.new.items }
{
    put_nodes(&two.front, out)?;
    put_nodes(&two.back, out)
}

// Those of turns.
#[cycle(nodes)]
#[tactic(auto, using(crate::proofs::Nodes::puts, writer_rules::proofs::Fronts::kept))]
fn put_turns<'t, 'a>(trees: &'t [Tree<'a>], out: &mut Vec<&'t Tree<'a>>) -> Result<(), AllocError>
    ensures put { OnOk result (map (λ x. x.now) out.new.items
        ≡ map (λ x. x.now) out.old.items ++ nodes (turns trees.now)) }
    ensures keeps { Keeps out.old.items out.new.items }
{
    for tree in trees {
        put_nodes(tree, out)?;
    }
    Ok(())
}

// Those of elements, whatever mark stands behind each.
#[cycle(nodes)]
#[tactic(auto, using(crate::proofs::Nodes::puts, writer_rules::proofs::Fronts::kept))]
fn put_elements<'t, 'a>(
    before: &'t [Element<'a>],
    out: &mut Vec<&'t Tree<'a>>,
) -> Result<(), AllocError>
    ensures put { OnOk result (map (λ x. x.now) out.new.items
        ≡ map (λ x. x.now) out.old.items ++ nodes (elements 0 before.now t.End)) }
    ensures keeps { Keeps out.old.items out.new.items }
{
    for element in before {
        put_nodes(&element.tree, out)?;
    }
    Ok(())
}
