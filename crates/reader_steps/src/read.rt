//! The public calls.

ghost use Rattle.reader_steps.specs.Answers.{IsSyntax, tokens};
ghost use Rattle.reader_steps.specs.declared.refusal.Refusal.TheVariants.{Late};
ghost use Rattle.reader_table.specs.Kinds.{kind_of};
ghost use Rattle.std.specs.Prelude.{◌≡◌, IfErr, IfOk, IsTrue};
ghost use Rattle.syn_buffer.specs.Entries.{is_whole};
ghost use Rattle.syn_grammar.specs.Read.{IsDerived, NoneRead};

use crate::pending::Work;
use crate::refusal::{Refusal, Wanted, refuse};
use crate::rules::Rules;
use crate::run::call;
use reader_table::kind::Kind;
use reader_tree::arena::Arena;
use reader_tree::tree::Tree;
use syn_buffer::entry::Entry;

/// The tree of the kind with which the entries begin, and what is left behind it. The entries are whole.
///
/// The refusal is that they begin with none, and what was wanted where, or that there is no memory for the tree.
pub fn read<'a, R: Rules>(
    rules: &R,
    arena: &'a Arena,
    kind: Kind,
    at: &'a [Entry<'a>],
) -> Result<(Tree<'a>, &'a [Entry<'a>]), Refusal>
    requires { IsTrue (is_whole at.now) }
    ensures found { IfOk result (λ x. IsDerived (kind_of kind) (tokens at.now) x.0 (tokens x.1.now)) }
    ensures none { IfErr result (λ e. IsSyntax e → NoneRead (kind_of kind) (tokens at.now)) }
    ensures ended { IfErr result (λ e. e ≡ Late → ⊥) }
    ensures whole { IfOk result (λ x. IsTrue (is_whole x.1.now)) }
{
    let mut work = Work::new(arena)?;
    read_with(rules, &mut work, kind, at)
}

/// The same as `read`, where more than one form is read into an arena: what a run works with is made once for all.
///
/// The refusal is that they begin with none, and what was wanted where, or that there is no memory for the tree.
pub fn read_with<'a, R: Rules>(
    rules: &R,
    work: &mut Work<'a>,
    kind: Kind,
    at: &'a [Entry<'a>],
) -> Result<(Tree<'a>, &'a [Entry<'a>]), Refusal>
    requires { IsTrue (is_whole at.now) }
    ensures found { IfOk result (λ x. IsDerived (kind_of kind) (tokens at.now) x.0 (tokens x.1.now)) }
    ensures none { IfErr result (λ e. IsSyntax e → NoneRead (kind_of kind) (tokens at.now)) }
    ensures ended { IfErr result (λ e. e ≡ Late → ⊥) }
    ensures whole { IfOk result (λ x. IsTrue (is_whole x.1.now)) }
{
    let fuel = at.len() * 10 + 10;
    match call(rules, work, kind, at, fuel) {
        Ok((tree, rest)) => Ok((tree, rest)),
        Err(Refusal::Syntax(wrong)) => Err(Refusal::Syntax(wrong)),
        Err(Refusal::Memory) => Err(Refusal::Memory),
        Err(Refusal::Late) => Err(refuse(Wanted::Nothing, at)),
    }
}
