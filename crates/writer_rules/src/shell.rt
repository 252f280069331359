//! Which operands are put in parentheses: a range behind attributes, and what stands left of a form that would go on
//! with such a range.

ghost use Rattle.reader_table.specs.Kinds.{kind_of as named};
ghost use Rattle.writer_rules.specs.Operands.{is_attributed};
ghost use Rattle.laws_ranges.specs.Shelled.{goes_in, has_shell, is_lone_range, is_shelled};
ghost use Rattle.std.specs.Prelude.{◌&&◌, ◌≡◌};
ghost use Rattle.syn_grammar.specs.Forms.{level, takes};

use crate::operand::infix;
use reader_table::kind::Kind;
use reader_tree::tree::Tree;
use reader_verdicts::left::{is_range, kind_of};
use reader_verdicts::level::{level, takes};

/// Whether it is a range, in front of which no attributes stand.
pub fn is_lone_range(tree: &Tree<'_>) -> bool
    ensures { result ≡ is_lone_range tree.now }
{
    level(kind_of(tree)) == 3
}

// Whether these are attributes in front of an expression.
fn is_attributed(kind: Kind) -> bool
    ensures { result ≡ is_attributed (named kind) }
{
    match kind {
        Kind::ExprAttributed => true,
        _ => false,
    }
}

/// Whether the operand behind a form of the kind is put in parentheses: a range behind attributes.
#[tactic(auto, using(crate::proofs::Shells::shelled))]
pub fn is_shelled(kind: Kind, tree: &Tree<'_>) -> bool
    ensures { result ≡ is_shelled (named kind) tree.now }
{
    is_attributed(kind) && is_lone_range(tree)
}

// Whether these are attributes with a range behind them.
#[tactic(auto, using(crate::proofs::Shells::has_shells))]
fn has_shell(tree: &Tree<'_>) -> bool
    ensures { result ≡ has_shell tree.now }
{
    match tree.front() {
        Some((kind, operand)) => is_attributed(kind) && is_range(operand),
        None => false,
    }
}

// Whether a form of a kind would go on behind attributes with a range, which stand behind a form that takes it.
fn goes_behind(outer: Kind, kind: Kind, operand: &Tree<'_>) -> bool
    ensures { result ≡ (takes (level (named outer)) (level (named kind)) && has_shell operand.now) }
{
    takes(level(outer), level(kind)) && has_shell(operand)
}

/// Whether a form of a kind, that stands behind, would go on with what is put in parentheses on the right edge.
#[tactic(auto, using(crate::proofs::Shells::going_in))]
pub fn goes_in(kind: Kind, tree: &Tree<'_>) -> bool
    ensures { result ≡ goes_in (named kind) tree.now }
{
    match tree.front() {
        Some((outer, operand)) => {
            if is_shelled(outer, operand) {
                takes(level(outer), level(kind))
            } else {
                goes_behind(outer, kind, operand) || goes_in(kind, operand)
            }
        }
        None => match infix(tree) {
            Some((outer, three)) => {
                goes_behind(outer, kind, &three.right) || goes_in(kind, &three.right)
            }
            None => false,
        },
    }
}
