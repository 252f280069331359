//! What becomes of statements and arms.

ghost use Rattle.std.specs.List.{list_any};
ghost use Rattle.std.specs.Prelude.{◌≡◌, not};
ghost use Rattle.syn_grammar.specs.Expressions.{is_arm};
ghost use Rattle.syn_grammar.specs.Kind.{AStatement};
ghost use Rattle.syn_grammar.specs.Part.{choice, each_turn_but_last};
ghost use Rattle.syn_grammar.specs.Statements.{needs_semicolon};
ghost use Rattle.syn_grammar.specs.Tree.{Node};

use crate::left::expression_ends;
use reader_table::kind::{Kind, Position};
use reader_table::part::Part;
use reader_tree::tree::Tree;

/// Whether a statement needs a `;` that it has not.
pub fn needs_semicolon(tree: &Tree) -> bool
    ensures { result ≡ needs_semicolon tree.now }
{
    match tree.node() {
        Some((kind, inner)) => match kind {
            Kind::AStatement => lacks_semicolon(inner),
            _ => false,
        },
        None => false,
    }
}

// Whether an expression stands inside a statement, and needs a `;` that is not there.
fn lacks_semicolon(inner: &Tree) -> bool
    ensures { result ≡ needs_semicolon (Node AStatement inner.now) }
{
    match inner.the(Part::Expression) {
        Some(expression) => {
            !(inner.has(Part::Semicolon) || expression_ends(Position::InStatement, expression))
        }
        None => false,
    }
}

// Whether a turn is a statement that needs a `;`.
fn any_open(turns: &[Tree]) -> bool
    ensures { result ≡ list_any (λ x. needs_semicolon (choice x)) turns.now }
{
    for turn in turns {
        if needs_semicolon(turn.choice()) {
            return true;
        }
    }
    false
}

/// Whether each statement but the last has the `;` that it needs.
pub fn are_statements(tree: &Tree) -> bool
    ensures { result ≡ each_turn_but_last (λ x. not (needs_semicolon (choice x))) tree.now }
{
    match tree.turns() {
        Some(turns) => match turns.split_last() {
            Some((_, before)) => !any_open(before),
            None => true,
        },
        None => true,
    }
}

/// Whether an arm has the comma that it needs.
pub fn is_arm(tree: &Tree) -> bool
    ensures { result ≡ is_arm tree.now }
{
    let comma_lacks = match tree.the(Part::Comma) {
        Some(comma) => comma.is_third(),
        None => false,
    };
    let ends = match tree.the(Part::Body) {
        Some(body) => expression_ends(Position::InArm, body),
        None => false,
    };
    !comma_lacks || ends
}
