//! What stands in a tree, taken out.

ghost use Rattle.writer_normal.specs.Peeled.{again_of, attributes_of, lone_type, macro_in, second_of};
ghost use Rattle.std.specs.Prelude.{◌≡◌, IfOk, option_map};
ghost use Rattle.syn_grammar.specs.Forms.{form_of};

use reader_table::kind::Kind;
use reader_tree::arena::Arena;
use reader_tree::tree::{Form, InTurn, Tree};
use std::alloc::AllocError;
use writer_rules::operand::first_behind;
use writer_rules::seen::unnamed;

/// Of a choice the second, where that was chosen.
#[tactic(auto, using(crate::proofs::Peeling::second_parts))]
pub(crate) fn second<'a>(tree: &Tree<'a>) -> Option<Tree<'a>>
    ensures { result ≡ second_of tree.now }
{
    match &tree.form {
        Form::First(depth, inner) => {
            if *depth == 0 {
                return None;
            }
            Some(Tree {
                form: Form::First(*depth - 1, inner),
            })
        }
        Form::Second(depth, inner) => {
            if *depth == 0 {
                return Some(inner.copy());
            }
            Some(Tree {
                form: Form::Second(*depth - 1, inner),
            })
        }
        _ => None,
    }
}

/// Behind what stands in front of a parameter, the type of one that is a type alone.
#[tactic(auto, using(crate::proofs::Peeling::lones))]
pub(crate) fn lone_type<'t, 'a>(back: &'t Tree<'a>) -> Option<&'t Tree<'a>>
    ensures { option_map (λ x. x.now) result ≡ lone_type back.now }
{
    match first_behind(back, 2) {
        Some(part) => unnamed(part),
        None => None,
    }
}

// Of an expression its form, of what is none itself.
#[tactic(auto, using(crate::proofs::Peeling::forms))]
fn form_of<'a>(tree: &Tree<'a>) -> Tree<'a>
    ensures { result ≡ form_of tree.now }
{
    match tree.node() {
        Some((kind, inner)) => match kind {
            Kind::Expression(_) => match inner.whole() {
                Some(form) => form.copy(),
                None => tree.copy(),
            },
            _ => tree.copy(),
        },
        None => tree.copy(),
    }
}

// Of a macro its own part.
#[tactic(auto, using(crate::proofs::Peeling::macros))]
fn macro_in<'a>(form: &Tree<'a>) -> Option<Tree<'a>>
    ensures { result ≡ macro_in form.now }
{
    match form.alone() {
        Some((kind, own)) => match kind {
            Kind::ExprMacro => Some(own.copy()),
            _ => None,
        },
        None => None,
    }
}

/// Of an expression that is a macro its own part.
pub(crate) fn macro_of<'a>(tree: &Tree<'a>) -> Option<Tree<'a>>
    ensures { result ≡ macro_in (form_of tree.now) }
{
    let form = form_of(tree);
    macro_in(&form)
}

// Of turns the first, and the others.
#[tactic(auto, using(crate::proofs::Peeling::agains))]
fn again<'a>(arena: &'a Arena, tree: &Tree<'a>) -> Result<Option<(Tree<'a>, Tree<'a>)>, AllocError>
    ensures { IfOk result (λ o. o ≡ again_of tree.now) }
{
    match &tree.form {
        Form::Turns(turns) => match turns.each.split_first() {
            Some((first, others)) => {
                let behind = Tree {
                    form: Form::Turns(arena.put(InTurn { each: others })?),
                };
                Ok(Some((first.copy(), behind)))
            }
            None => Ok(None),
        },
        _ => Ok(None),
    }
}

/// Of attributes the first, and the others.
///
/// # Errors
///
/// Where there is no memory for the others.
#[tactic(auto, using(crate::proofs::Peeling::attributes))]
pub(crate) fn attributes<'a>(
    arena: &'a Arena,
    tree: &Tree<'a>,
) -> Result<Option<(Tree<'a>, Tree<'a>)>, AllocError>
    ensures { IfOk result (λ o. o ≡ attributes_of tree.now) }
{
    match tree.node() {
        Some((kind, inner)) => match kind {
            Kind::OuterAttributes => again(arena, inner),
            _ => Ok(None),
        },
        None => Ok(None),
    }
}
