//! How many tokens what was read has.

ghost use Rattle.reader_table.specs.Ops.{separator_of};
ghost use Rattle.reader_table.specs.Words.{sign_text};
ghost use Rattle.reader_tree.specs.Forms.{elements, mark_of, turns};
ghost use Rattle.rust_leaf.specs.declared.punct.Spacing.{Spacing};
ghost use Rattle.std.specs.Prelude.{◌≡◌, ◌++◌, ◌+◌, ◌<◌, ◌^◌, length};
ghost use Rattle.syn_grammar.specs.Tree as t;
ghost use Rattle.syn_grammar.specs.Tree.{flat};

use crate::tree::{Element, Form, Tree, Two};
use reader_table::op::Separator;
use reader_table::word::Sign;

// So many tokens, and the marks of a punctuation.
#[tactic(auto, using(crate::proofs::Counted::marks_counted))]
fn past_sign(index: usize, sign: Sign) -> usize
    requires { index + length (sign_text sign) < 2 ^ 64 }
    ensures { result ≡ index + length (sign_text sign) }
{
    index + sign.text().len()
}

/// So many tokens, and those of a tree.
#[cycle(counting)]
#[tactic(auto, using(crate::proofs::Counted::forms))]
pub fn past(index: usize, tree: &Tree) -> usize
    requires { index + length (flat tree.now) < 2 ^ 64 }
    ensures { result ≡ index + length (flat tree.now) }
{
    match &tree.form {
        Form::Word(_) | Form::Literal(_) => index + 1,
        Form::Mark(sign, _, _) => past_sign(index, *sign),
        Form::Lifetime(_) => index + 2,
        Form::Raw(tokens) => index + tokens.entries.len(),
        Form::Nil | Form::End => index,
        Form::Pair(two) | Form::Front(_, two) | Form::Back(_, two) => past_two(index, two),
        Form::Turns(turns) => past_turns(index, turns.each),
        Form::Elements(list) => {
            let behind = past_elements(index, list.separator, list.before);
            match list.last {
                Some(last) => past(behind, last),
                None => behind,
            }
        }
        Form::Group(_, group) => past(index + 1, &group.inside) + 1,
        Form::Infix(_, three) => { past(past(past(index, &three.left), &three.own), &three.right) }
        Form::First(_, inner) | Form::Second(_, inner) | Form::Dropped(inner) => past(index, inner),
        Form::Called(_, inner) | Form::Verbatim(inner) | Form::Node(_, inner) => past(index, inner),
        Form::Whole(inner) | Form::Alone(_, inner) => past(index, inner),
    }
}

// So many tokens, and those of two trees.
#[cycle(counting)]
#[tactic(auto, using(crate::proofs::Counted::forms))]
fn past_two(index: usize, two: &Two) -> usize
    requires { index + length (flat two.now.front ++ flat two.now.back) < 2 ^ 64 }
    ensures { result ≡ index + length (flat two.now.front ++ flat two.now.back) }
{
    past(past(index, &two.front), &two.back)
}

// So many tokens, and those of turns.
#[cycle(counting)]
#[tactic(auto, using(crate::proofs::Counted::forms))]
fn past_turns(index: usize, trees: &[Tree]) -> usize
    requires { index + length (flat (turns trees.now)) < 2 ^ 64 }
    ensures { result ≡ index + length (flat (turns trees.now)) }
{
    let mut index = index;
    for tree in trees {
        index = past(index, tree);
    }
    index
}

// So many tokens, and those of elements, each with its mark.
#[cycle(counting)]
#[tactic(auto, using(crate::proofs::Counted::forms))]
fn past_elements(index: usize, mark: Separator, before: &[Element]) -> usize
    requires { index + length (flat (elements (separator_of mark) before.now t.End)) < 2 ^ 64 }
    ensures { result ≡ index + length (flat (elements (separator_of mark) before.now t.End)) }
{
    let mut index = index;
    for element in before {
        index = past(index, &element.tree) + 1;
    }
    index
}
