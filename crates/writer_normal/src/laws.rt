//! Laws of trees: what is true of every value. Each function walks a tree and answers nothing; its contract is the law.

ghost use Rattle.writer_normal.specs.Marks.{are_known};
ghost use Rattle.writer_normal.specs.Separators.{is_mixed};
ghost use Rattle.reader_table.specs.Ops.{separator_of};
ghost use Rattle.reader_tree.specs.Forms.{elements, ending, turns};
ghost use Rattle.std.specs.Prelude.{◌≡◌, false, map, true};
ghost use Rattle.syn_grammar.specs.Tree.{flat};

use reader_tree::tree::{Element, Form, Separated, Tree};

// Turns.
#[cycle(laws)]
#[tactic(auto, using(crate::proofs::Known::lefts))]
fn each_turn(trees: &[Tree<'_>])
    ensures one_separator { is_mixed (turns trees.now) ≡ false }
    ensures marks { are_known (flat (turns trees.now)) ≡ true }
{
    for tree in trees {
        each_tree(tree);
    }
}

// The elements that a mark follows.
#[cycle(laws)]
#[tactic(auto, using(crate::proofs::Known::lefts))]
fn each_element(before: &[Element<'_>])
    ensures one_separator { is_mixed (turns (map (λ e. e.tree) before.now)) ≡ false }
    ensures marks { are_known (flat (turns (map (λ e. e.tree) before.now))) ≡ true }
{
    for element in before {
        each_tree(&element.tree);
    }
}

// A list.
#[cycle(laws)]
#[tactic(auto, using(crate::proofs::Known::lists))]
fn each_list(list: &Separated<'_>)
    ensures one_separator { is_mixed (elements (separator_of list.now.separator) list.now.before.now
        (ending (λ y. y.now) list.now.last)) ≡ false }
    ensures marks { are_known (flat (elements (separator_of list.now.separator) list.now.before.now
        (ending (λ y. y.now) list.now.last))) ≡ true }
{
    each_element(list.before);
    match list.last {
        Some(last) => each_tree(last),
        None => {}
    }
}

/// In no tree does a list have two separators, and each mark of a tree's tokens is one of the 22.
#[cycle(laws)]
#[tactic(auto, using(crate::proofs::Known::forms))]
pub fn each_tree(tree: &Tree<'_>)
    ensures one_separator { is_mixed tree.now ≡ false }
    ensures marks { are_known (flat tree.now) ≡ true }
{
    match &tree.form {
        Form::Word(_) => {}
        Form::Literal(_) => {}
        Form::Mark(_, _, _) => {}
        Form::Lifetime(_) => {}
        Form::Raw(_) => {}
        Form::Nil => {}
        Form::Pair(two) => {
            each_tree(&two.front);
            each_tree(&two.back)
        }
        Form::First(_, inner) => each_tree(inner),
        Form::Second(_, inner) => each_tree(inner),
        Form::End => {}
        Form::Turns(trees) => each_turn(trees.each),
        Form::Elements(list) => each_list(list),
        Form::Group(_, group) => each_tree(&group.inside),
        Form::Dropped(inner) => each_tree(inner),
        Form::Called(_, inner) => each_tree(inner),
        Form::Verbatim(inner) => each_tree(inner),
        Form::Node(_, inner) => each_tree(inner),
        Form::Whole(inner) => each_tree(inner),
        Form::Alone(_, own) => each_tree(own),
        Form::Front(_, two) => {
            each_tree(&two.front);
            each_tree(&two.back)
        }
        Form::Back(_, two) => {
            each_tree(&two.front);
            each_tree(&two.back)
        }
        Form::Infix(_, three) => {
            each_tree(&three.left);
            each_tree(&three.own);
            each_tree(&three.right)
        }
    }
}
