//! What goes on from a left operand.

ghost use Rattle.reader_steps.specs.Answers.{tokens};
ghost use Rattle.reader_steps.specs.Operands.{IsNext};
ghost use Rattle.reader_table.specs.Kinds.{position_of};
ghost use Rattle.std.specs.Prelude.{IsTrue};
ghost use Rattle.syn_buffer.specs.Entries.{is_whole};

use crate::rules::Rules;
use reader_table::kind::{Kind, Position};
use reader_tree::tree::Tree;
use reader_verdicts::left::{chains, stands_left};
use reader_verdicts::level::{level as level_of, takes};
use syn_buffer::entry::Entry;

/// What goes on from a left operand.
#[derive(Clone, Copy)]
pub(crate) enum Next {
    /// Nothing that is taken there.
    Nothing,
    /// An operator that is not chained with the one in the operand.
    Chained,
    /// A form of the kind.
    Form(Kind),
}

/// What goes on from a left operand, in an operand of an operator of the level.
#[tactic(auto, using(crate::proofs::Operands::over, crate::proofs::Operands::unfit, crate::proofs::Operands::fit))]
pub(crate) fn next_of<R: Rules>(
    rules: &R,
    position: Position,
    level: usize,
    left: &Tree<'_>,
    at: &[Entry<'_>],
) -> Next
    requires { IsTrue (is_whole at.now) }
    ensures { IsNext result (position_of position) level left.now (tokens at.now) }
{
    let Some(kind) = rules.back(position, at) else {
        return Next::Nothing;
    };
    if !takes(level, level_of(kind)) {
        return Next::Nothing;
    }
    if !stands_left(position, left, kind) {
        return Next::Nothing;
    }
    if chains(left, kind) {
        return Next::Chained;
    }
    Next::Form(kind)
}
