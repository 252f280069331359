//! Whether an expression begins there.

ghost use Rattle.reader_steps.specs.Answers.{tokens};
ghost use Rattle.std.specs.Prelude.{◌≡◌, IsTrue};
ghost use Rattle.syn_buffer.specs.Entries.{is_whole};
ghost use Rattle.syn_grammar.specs.Forms.{operand_stands};
ghost use Rattle.syn_grammar.specs.Look.{sees};

use reader_rust::grammar::Grammar;
use reader_steps::rules::Rules;
use reader_table::composite::Composite;
use reader_table::op::{Look, Test};
use syn_buffer::TokenBuffer;
use syn_buffer::entry::Entry;

/// Whether an expression begins with the first tokens of the buffer: where one does, `return` has an operand. It goes
/// by these tokens alone, as `Expr::peek` of syn does; what follows may still be no expression.
pub fn begins_expression(buffer: &TokenBuffer<'_>) -> bool
    ensures { result ≡ sees operand_stands (tokens buffer.now.entries.items) }
{
    operand_stands(buffer.entries())
}

// Whether an expression begins with the first of the entries.
pub(crate) fn operand_stands(entries: &[Entry<'_>]) -> bool
    requires { IsTrue (is_whole entries.now) }
    ensures { result ≡ sees operand_stands (tokens entries.now) }
{
    Grammar.passes(
        Test::Sees(Look::Composite(Composite::OperandStands)),
        entries,
    )
}
