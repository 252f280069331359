//! What is made of what was read, by what is pending.

ghost use Rattle.reader_steps.specs.Answers.{Fails, Gives, tokens};
ghost use Rattle.reader_steps.specs.Pending.{Makes, made_by};
ghost use Rattle.reader_steps.specs.Places.{closed_by};
ghost use Rattle.reader_steps.specs.declared.pending.Behind.{Behind};
ghost use Rattle.reader_steps.specs.declared.pending.Pending.{Pending as AnyPending};
ghost use Rattle.reader_steps.specs.declared.pending.Pending.TheVariants as pendings;
ghost use Rattle.proc_macro2.specs.declared.delimiter.Delimiter.{Delimiter};
ghost use Rattle.rust_map.specs.declared.span.Span.{Span};
ghost use Rattle.std.specs.Prelude.{◌≡◌, ◌≤◌, ◌∷◌, ◌++◌, [], IfOk, IsTrue, List, drop, length, take};
ghost use Rattle.syn_buffer.specs.Entries.{is_whole};
ghost use Rattle.syn_grammar.specs.Run.{Got, Out};

use crate::around::{judged, surrounded, with_rest};
use crate::group::{closed, grouped};
use crate::pending::{Pending, Work};
use crate::refusal::Refusal;
use crate::rules::Rules;
use crate::unfit::{behind, named};
use reader_tree::arena::Arena;
use reader_tree::made;
use reader_tree::tree::Tree;
use syn_buffer::entry::Entry;

// What one makes of what was read.
#[inline(always)]
fn made_of<'a, R: Rules>(
    rules: &R,
    arena: &'a Arena,
    last: Pending<'a>,
    tree: Tree<'a>,
    rest: &'a [Entry<'a>],
) -> Result<(Tree<'a>, &'a [Entry<'a>]), Refusal>
    requires { IsTrue (is_whole rest.now) }
    ensures answer { Gives (λ x. x.0) (λ x. x.1.now) result (made_by last.entry (Got tree.entry (tokens rest.now))) }
    ensures whole { IfOk result (λ x. IsTrue (is_whole x.1.now)) }
{
    match last {
        Pending::Front(front) => with_rest(made::pair(arena, front, tree), rest),
        Pending::Around(around) => with_rest(surrounded(arena, around, tree), rest),
        Pending::Node(kind, _) => with_rest(made::node(arena, kind, tree), rest),
        Pending::Inside(delimiter, span, behind) => {
            grouped(arena, delimiter, span, behind.entries, tree, rest)
        }
        Pending::Judged(verdicts) => judged(rules, arena, verdicts, tree, rest),
    }
}

// What was refused, as it is said of what was to be made.
fn said_of(last: Pending<'_>, refusal: Refusal) -> Refusal
    ensures fails { (o : Out) → Fails refusal o → Fails result o }
    ensures place { (d : Delimiter) (s : Span) (b : Behind) → last.entry ≡ pendings.Inside d s b
        → result ≡ closed_by s refusal }
{
    match last {
        Pending::Front(front) => behind(&front, refusal),
        Pending::Node(kind, at) => named(kind, at, refusal),
        Pending::Inside(_, span, _) => closed(refusal, span),
        Pending::Around(_) | Pending::Judged(_) => refusal,
    }
}

// What one makes of what was read, or what is said of it where that was refused.
#[inline(always)]
fn finished_by<'a, R: Rules>(
    rules: &R,
    arena: &'a Arena,
    last: Pending<'a>,
    read: Result<(Tree<'a>, &'a [Entry<'a>]), Refusal>,
) -> Result<(Tree<'a>, &'a [Entry<'a>]), Refusal>
    requires { IfOk read (λ x. IsTrue (is_whole x.1.now)) }
    ensures answer { (ws : List AnyPending) (o : Out)
        → Makes (λ x. Got x.0 (tokens x.1.now)) (ws ++ last.entry ∷ []) read.entry o
        → Makes (λ x. Got x.0 (tokens x.1.now)) ws result o }
    ensures whole { IfOk result (λ x. IsTrue (is_whole x.1.now)) }
{
    match read {
        Ok((tree, rest)) => made_of(rules, arena, last, tree, rest),
        Err(refusal) => Err(said_of(last, refusal)),
    }
}

/// What is made of what was read by all but the first so many of what is pending; no more is pending then.
pub(crate) fn finished<'a, R: Rules>(
    rules: &R,
    work: &mut Work<'a>,
    base: usize,
    inner: Result<(Tree<'a>, &'a [Entry<'a>]), Refusal>,
) -> Result<(Tree<'a>, &'a [Entry<'a>]), Refusal>
    requires base { base ≤ length work.old.pending.items }
    requires whole { IfOk inner (λ x. IsTrue (is_whole x.1.now)) }
    ensures kept { work.new.pending.items ≡ take base work.old.pending.items }
    ensures answer { (o : Out) → Makes (λ x. Got x.0 (tokens x.1.now)) (drop base work.old.pending.items) inner.entry o
        → Gives (λ x. x.0) (λ x. x.1.now) result o }
    ensures whole { IfOk result (λ x. IsTrue (is_whole x.1.now)) }
{
    let mut read = inner;
    'pending: while work.pending.len() > base {
        let last = work.pending.take_last();
        read = finished_by(rules, work.arena, last, read);
    }
    read
}
