//! Parts of entries, and which of them is read there.

ghost use Rattle.reader_steps.specs.Answers.{tokens};
ghost use Rattle.reader_steps.specs.Around.{around_of};
ghost use Rattle.reader_steps.specs.declared.around.Around.TheVariants as arounds;
ghost use Rattle.reader_table.specs.Ops.{gram_of};
ghost use Rattle.reader_table.specs.declared.op.Op.TheVariants as ops;
ghost use Rattle.proc_macro2.specs.Token.{Token};
ghost use Rattle.std.specs.Prelude.{◌≡◌, ◌≤◌, ◌∷◌, IfSome, IsTrue, List, MatchOption, length, true};
ghost use Rattle.syn_buffer.specs.Entries.{is_whole};
ghost use Rattle.syn_grammar.specs.Gram.{never, nothing, seq};
ghost use Rattle.syn_grammar.specs.Run.{Call, Out, Refused, interp, wrap};

use crate::rules::Rules;
use reader_table::op::{Op, Test};
use syn_buffer::entry::Entry;

/// The two parts of a sequence, of which the first takes so many steps.
pub(crate) fn halves(count: usize, parts: &'static [Op]) -> Option<(&'static [Op], &'static [Op])>
    ensures says { MatchOption result (gram_of (ops.Seq count ∷ parts.now) ≡ never)
        (λ x. gram_of (ops.Seq count ∷ parts.now) ≡ seq (gram_of x.0.now) (gram_of x.1.now)) }
    ensures front { IfSome result (λ x. length x.0.now ≤ length parts.now) }
    ensures back { IfSome result (λ x. length x.1.now ≤ length parts.now) }
{
    let (front, back) = parts.split_at_checked(count)?;
    Some((front, back))
}

/// A part that is chosen, and what it is of the choice.
#[derive(Clone, Copy)]
pub(crate) struct Choice {
    /// How many choices it is the second of, each the second of the one before it.
    pub(crate) seconds: usize,
    /// Whether it is the first of a choice in that.
    pub(crate) is_first: bool,
    /// What it says.
    pub(crate) parts: &'static [Op],
}

// Two parts, of which the first takes so many steps, and is chosen where the test passes.
#[derive(Clone, Copy)]
struct Either {
    test: Test,
    count: usize,
    parts: &'static [Op],
}

/// The part that is chosen there, of two of which the first takes so many steps; where the second is a choice itself,
/// the part that is chosen in that.
#[inline(always)]
pub(crate) fn chosen<R: Rules>(
    rules: &R,
    test: Test,
    count: usize,
    parts: &'static [Op],
    at: &[Entry<'_>],
) -> Option<Choice>
    requires { IsTrue (is_whole at.now) }
    ensures says { MatchOption result
        ((call : Call → List Token → Out) → interp call (gram_of (ops.Alt test count ∷ parts.now)) (tokens at.now)
        ≡ Refused)
        (λ x. (call : Call → List Token → Out) → interp call (gram_of (ops.Alt test count ∷ parts.now)) (tokens at.now)
        ≡ wrap (around_of (arounds.Chosen x.seconds x.is_first)) (interp call (gram_of x.parts.now) (tokens at.now))) }
    ensures shorter { IfSome result (λ x. length x.parts.now ≤ length parts.now) }
{
    let mut asked = Either { test, count, parts };
    let mut seconds = 0usize;
    'choices: loop {
        let (first, second) = asked.parts.split_at_checked(asked.count)?;
        if rules.passes(asked.test, at) {
            return Some(Choice {
                seconds,
                is_first: true,
                parts: first,
            });
        }
        seconds += 1;
        match second.split_first() {
            Some((Op::Alt(next, size), others)) => {
                asked = Either {
                    test: *next,
                    count: *size,
                    parts: others,
                };
            }
            _ => {
                return Some(Choice {
                    seconds,
                    is_first: false,
                    parts: second,
                });
            }
        }
    }
}

/// Whether the steps say that nothing is read.
#[inline(always)]
pub(crate) fn is_nothing(parts: &'static [Op]) -> bool
    ensures { result ≡ true → gram_of parts.now ≡ nothing }
{
    matches!(parts.first(), Some(Op::Nothing))
}
