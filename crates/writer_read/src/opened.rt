//! Whether an expression or a statement begins with a parenthesis that is added.

ghost use Rattle.reader_tree.specs.Forms.{turns};
ghost use Rattle.writer_rules.specs.Turns.{is_opened};
ghost use Rattle.laws_ranges.specs.Opens.{opens, opens_behind, opens_given, opens_statement, opens_turns};
ghost use Rattle.std.specs.Prelude.{◌≡◌};
ghost use Rattle.syn_grammar.specs.Tree as t;

use crate::begun::begins_enclosed;
use reader_tree::tree::Tree;
use writer_rules::operand::{back, giving, has_attributes, infix, stated, statement};
use writer_rules::shell::goes_in;

/// Whether some left operand on its left edge is put in parentheses.
#[tactic(auto, using(crate::proofs::Opening::opening))]
pub(crate) fn opens(tree: &Tree<'_>) -> bool
    ensures { result ≡ opens tree.now }
{
    match infix(tree) {
        Some((kind, three)) => goes_in(kind, &three.left) || opens(&three.left),
        None => match back(tree) {
            Some((kind, two)) => goes_in(kind, &two.front) || opens(&two.front),
            None => false,
        },
    }
}

/// The same with attributes that are given to the leftmost operand.
#[tactic(auto, using(crate::proofs::Opening::giving))]
pub(crate) fn opens_given(tree: &Tree<'_>) -> bool
    ensures { result ≡ opens_given tree.now }
{
    match giving(tree) {
        Some((kind, left)) => goes_in(kind, left) || opens_given(left),
        None => false,
    }
}

// The same behind what stands before a statement's expression.
#[tactic(auto, using(crate::proofs::Opening::behind))]
fn opens_behind(before: &Tree<'_>, form: &Tree<'_>) -> bool
    ensures { result ≡ opens_behind before.now form.now }
{
    if has_attributes(before) {
        opens_given(form)
    } else {
        opens(form)
    }
}

// Whether a statement begins so: an expression, behind attributes or none.
#[tactic(auto, using(crate::proofs::Opening::stating))]
fn opens_statement(inner: &Tree<'_>) -> bool
    ensures { result ≡ opens_statement inner.now }
{
    match stated(inner) {
        Some(stated) => opens_behind(stated.before, stated.form),
        None => false,
    }
}

// Whether a turn among statements begins so.
#[tactic(auto, using(crate::proofs::Opening::turning))]
fn opens_turn(turn: &Tree<'_>) -> bool
    ensures { result ≡ opens_turns (t.Again turn.now t.End) }
{
    let Some(chosen) = turn.last() else {
        return false;
    };
    match statement(chosen) {
        Some(inner) => opens_statement(inner),
        None => false,
    }
}

// Whether the first of some turns among statements begins so.
#[tactic(auto, using(crate::proofs::Opening::firsts))]
fn opens_turns(trees: &[Tree<'_>]) -> bool
    ensures { result ≡ opens_turns (turns trees.now) }
{
    match trees.split_first() {
        Some((turn, _)) => opens_turn(turn),
        None => false,
    }
}

/// Whether a parenthesis is added in front of turns which began with none.
pub(crate) fn is_opened(trees: &[Tree<'_>]) -> bool
    ensures { result ≡ is_opened (turns trees.now) }
{
    opens_turns(trees) && !begins_enclosed(trees)
}
