//! What is made of a tree that was read.

ghost use Rattle.reader_steps.specs.Answers.{Gives, tokens};
ghost use Rattle.reader_steps.specs.Around.{around_of, judged_as};
ghost use Rattle.reader_steps.specs.declared.around.Around.TheVariants as arounds;
ghost use Rattle.std.specs.Prelude.{◌≡◌, IfOk, IsTrue};
ghost use Rattle.syn_buffer.specs.Entries.{is_whole};
ghost use Rattle.syn_grammar.specs.Run.{Got, Out, wrap};
ghost use Rattle.syn_grammar.specs.Tree.{Nil, Tree as AnyTree};

use crate::refusal::Refusal;
use crate::rules::{Rules, Verdict};
use crate::unfit::unfit;
use reader_table::op::Verdicts;
use reader_table::part::Part;
use reader_tree::arena::Arena;
use reader_tree::made;
use reader_tree::tree::{Form, Tree};
use std::alloc::AllocError;
use syn_buffer::entry::Entry;

/// What stands around a tree.
#[derive(Clone, Copy)]
pub(crate) enum Around {
    /// Of so many choices, each the second of the one before it, it is the second; and the first of a choice in that,
    /// where it says so.
    Chosen(usize, bool),
    /// It is forgotten.
    Dropped,
    /// It is a part, by its name.
    Called(Part),
    /// It is an expression.
    Whole,
}

/// The tree with that around it.
#[inline(always)]
pub(crate) fn surrounded<'a>(
    arena: &'a Arena,
    around: Around,
    tree: Tree<'a>,
) -> Result<Tree<'a>, AllocError>
    ensures { IfOk result (λ x. x ≡ around_of around tree.entry) }
{
    match around {
        Around::Chosen(count, true) => made::first_behind(arena, count, tree),
        Around::Chosen(count, false) => made::seconds(arena, count, tree),
        Around::Dropped => made::dropped(arena, tree),
        Around::Called(part) => made::called(arena, part, tree),
        Around::Whole => made::whole(arena, tree),
    }
}

/// The tree of no token, where it stands in the arena.
#[derive(Clone, Copy)]
pub(crate) struct NoToken<'a> {
    /// The tree.
    pub(crate) tree: &'a Tree<'a>,
    ghost is_nil: { tree.now ≡ Nil },
}

/// The tree of no token, which is what is chosen. It takes no place where 32 bits count the choices.
#[tactic(auto, using(reader_tree::proofs::Seconds::seconds_less))]
#[inline(always)]
pub(crate) fn absent<'a>(
    arena: &'a Arena,
    nil: NoToken<'a>,
    seconds: usize,
    is_first: bool,
) -> Result<Tree<'a>, AllocError>
    ensures { IfOk result (λ x. x ≡ around_of (arounds.Chosen seconds is_first) Nil) }
{
    if seconds > u32::MAX as usize {
        return surrounded(arena, Around::Chosen(seconds, is_first), made::nil());
    }
    if is_first {
        return Ok(Tree {
            form: Form::First(seconds as u32, nil.tree),
        });
    }
    if seconds == 0 {
        return Ok(made::nil());
    }
    Ok(Tree {
        form: Form::Second((seconds - 1) as u32, nil.tree),
    })
}

/// What was made, if there was memory for it, and what is left behind it.
#[inline(always)]
pub(crate) fn with_rest<'a>(
    made: Result<Tree<'a>, AllocError>,
    rest: &'a [Entry<'a>],
) -> Result<(Tree<'a>, &'a [Entry<'a>]), Refusal>
    requires { IsTrue (is_whole rest.now) }
    ensures answer { (x : AnyTree) → IfOk made.entry (λ y. y ≡ x)
        → Gives (λ y. y.0) (λ y. y.1.now) result (Got x (tokens rest.now)) }
    ensures whole { IfOk result (λ x. IsTrue (is_whole x.1.now)) }
{
    Ok((made?, rest))
}

/// What was read, with that around it.
#[inline(always)]
pub(crate) fn surround<'a>(
    arena: &'a Arena,
    around: Around,
    inner: Result<(Tree<'a>, &'a [Entry<'a>]), Refusal>,
) -> Result<(Tree<'a>, &'a [Entry<'a>]), Refusal>
    requires { IfOk inner (λ x. IsTrue (is_whole x.1.now)) }
    ensures answer { (o : Out) → Gives (λ x. x.0) (λ x. x.1.now) inner.entry o
        → Gives (λ x. x.0) (λ x. x.1.now) result (wrap (around_of around) o) }
    ensures whole { IfOk result (λ x. IsTrue (is_whole x.1.now)) }
{
    let (tree, rest) = inner?;
    with_rest(surrounded(arena, around, tree), rest)
}

/// What was read, as it is judged.
#[inline(never)]
pub(crate) fn judged<'a, R: Rules>(
    rules: &R,
    arena: &'a Arena,
    verdicts: Verdicts,
    tree: Tree<'a>,
    rest: &'a [Entry<'a>],
) -> Result<(Tree<'a>, &'a [Entry<'a>]), Refusal>
    requires { IsTrue (is_whole rest.now) }
    ensures answer { Gives (λ x. x.0) (λ x. x.1.now) result
        (judged_as verdicts (Got tree.entry (tokens rest.now))) }
    ensures whole { IfOk result (λ x. IsTrue (is_whole x.1.now)) }
{
    match rules.judge(verdicts, &tree) {
        Verdict::Keep => with_rest(made::first(arena, tree), rest),
        Verdict::AsRaw => with_rest(made::verbatim(arena, tree), rest),
        Verdict::Refuse => Err(unfit(verdicts, &tree, rest)),
    }
}
