//! The run: steps of entries, one after the other.
//!
//! Each function takes how many calls deep it may go, as a run of the grammar does, and answers what that run does.
//!
//! Tokens may stand deep in one another, and a program's stack is small. So what stands last in an entry is read in a
//! loop, `forward`: the second part of a sequence, the part that is chosen, and the inside of a group, of a node, of a
//! part, and of what is judged. What is to be made of it is held in one list for the whole run (`pending`), and is
//! made once the last step has been read (`finish`). Only first parts, turns, elements and operands take a call, and
//! of first parts none that is a word, a mark or absent (`front_of`). A node whose form is plain is read at once
//! (`reader_fast`), and no step of its entry is taken. The compiler is told to leave lists and what goes on from a
//! left operand out of that call, as it would need their room each time.

ghost use Rattle.reader_steps.specs.Answers.{Gives, tokens};
ghost use Rattle.reader_steps.specs.Around.{around_of, judged_as};
ghost use Rattle.reader_steps.specs.Operands.{made_of, own_of};
ghost use Rattle.reader_steps.specs.Pending.{Leads, made_by, says_at, weight};
ghost use Rattle.reader_steps.specs.declared.around.Around.TheVariants as arounds;
ghost use Rattle.reader_table.specs.Kinds.{kind_of, position_of};
ghost use Rattle.reader_table.specs.Looks.{test_of};
ghost use Rattle.reader_table.specs.Ops.{gram_of, separator_of};
ghost use Rattle.reader_table.specs.declared.op.Op.TheVariants as ops;
ghost use Rattle.std.specs.Prelude.{◌≡◌, ◌∷◌, ◌+◌, ◌<◌, IfOk, IfSome, IsTrue, length};
ghost use Rattle.syn_buffer.specs.Entries.{is_whole};
ghost use Rattle.syn_grammar.specs.Run.{Got, Out, climb as goes, interp as says, kind as of_kind, list};
ghost use Rattle.syn_grammar.specs.Run.{loop as again, run, tower as operand_of, wrap};
ghost use Rattle.syn_grammar.specs.Tree.{Nil, Tree as AnyTree};

use crate::around::{Around, NoToken, absent, surround, with_rest};
use crate::choice::{Choice, chosen, halves, is_nothing};
use crate::finish::finished;
use crate::form::{begun, extended};
use crate::group::enter;
use crate::leaf;
use crate::next::{Next, next_of};
use crate::pending::{Behind, Pending, Spot, Work};
use crate::refusal::{Refusal, Wanted, refuse};
use crate::rules::Rules;
use crate::unfit::{named, unclosed};
use proc_macro2::delimiter::Delimiter;
use reader_fast::read::{CALLS, may_be_plain};
use reader_table::entry::entry;
use reader_table::kind::{Kind, Position};
use reader_table::op::{Op, Separator, Test, Verdicts};
use reader_tree::arena::Arena;
use reader_tree::made;
use reader_tree::tree::{Element, Tree};
use reader_verdicts::level::{inside, level as level_of};
use std::alloc::AllocError;
use syn_buffer::entry::Entry;

/// A tree of the kind. What is pending stays so.
pub(crate) fn call<'a, R: Rules>(
    rules: &R,
    work: &mut Work<'a>,
    kind: Kind,
    at: &'a [Entry<'a>],
    fuel: usize,
) -> Result<(Tree<'a>, &'a [Entry<'a>]), Refusal>
    requires { IsTrue (is_whole at.now) }
    ensures answer { Gives (λ x. x.0) (λ x. x.1.now) result (run fuel (of_kind (kind_of kind)) (tokens at.now)) }
    ensures whole { IfOk result (λ x. IsTrue (is_whole x.1.now)) }
{
    if fuel == 0 {
        return Err(Refusal::Late);
    }
    match interp(rules, work, entry(kind), at, fuel - 1) {
        Ok((tree, rest)) => with_rest(made::node(work.arena, kind, tree), rest),
        Err(refusal) => Err(named(kind, at, refusal)),
    }
}

// What the steps say.
#[cycle(run)]
fn interp<'a, R: Rules>(
    rules: &R,
    work: &mut Work<'a>,
    steps: &'static [Op],
    at: &'a [Entry<'a>],
    fuel: usize,
) -> Result<(Tree<'a>, &'a [Entry<'a>]), Refusal>
    requires { IsTrue (is_whole at.now) }
    ensures kept { work.new.pending.items ≡ work.old.pending.items }
    ensures answer { Gives (λ x. x.0) (λ x. x.1.now) result (says (run fuel) (gram_of steps.now) (tokens at.now)) }
    ensures whole { IfOk result (λ x. IsTrue (is_whole x.1.now)) }
{
    let base = work.pending.len();
    let spot = Spot {
        steps,
        entries: at,
        fuel,
    };
    let inner = forward(rules, work, spot);
    finished(rules, work, base, inner)
}

// What the steps say, but for what is pending from then on.
#[cycle(run)]
fn forward<'a, R: Rules>(
    rules: &R,
    work: &mut Work<'a>,
    begin: Spot<'a>,
) -> Result<(Tree<'a>, &'a [Entry<'a>]), Refusal>
    requires { IsTrue (is_whole begin.entries.now) }
    ensures answer { Leads (λ x. Got x.0 (tokens x.1.now)) work.old.pending.items work.new.pending.items result
        (says_at begin.entry) }
    ensures whole { IfOk result (λ x. IsTrue (is_whole x.1.now)) }
{
    let mut step = Ok(begin);
    'steps: loop {
        let spot = step?;
        let Some((op, parts)) = spot.steps.split_first() else {
            return Err(refuse(Wanted::Nothing, spot.entries));
        };
        let (at, fuel) = (spot.entries, spot.fuel);
        match *op {
            Op::Word(words) => return leaf::word(words, at),
            Op::Literal(literals) => return leaf::literal(rules, literals, at),
            Op::Mark(sign) => return leaf::mark(rules, sign, at),
            Op::Lifetime => return leaf::lifetime(work.arena, at),
            Op::Raw => return leaf::raw(work.arena, at),
            Op::Nothing => return Ok((made::nil(), at)),
            Op::Never => return Err(refuse(Wanted::Nothing, at)),
            Op::Star(test) => return star(rules, work, test, parts, at, fuel),
            Op::Many(test, mark) => return many(rules, work, test, mark, parts, at, fuel),
            Op::Operand(place, level) => return operand(rules, work, place, level, at, fuel),
            Op::Seq(count) => step = seq(rules, work, count, parts, at, fuel),
            Op::Alt(test, count) => {
                let Some(choice) = chosen(rules, test, count, parts, at) else {
                    return Err(refuse(Wanted::Nothing, at));
                };
                if is_nothing(choice.parts) {
                    return none_chosen(work.arena, work.nil, choice, at);
                }
                let around = Around::Chosen(choice.seconds, choice.is_first);
                step = within(work, around, choice.parts, at, fuel);
            }
            Op::Group(delimiter) => step = group(work, delimiter, parts, at, fuel),
            Op::Judged(verdicts) => step = weighed(work, verdicts, parts, at, fuel),
            Op::Dropped => step = within(work, Around::Dropped, parts, at, fuel),
            Op::Called(part) => step = within(work, Around::Called(part), parts, at, fuel),
            Op::Ref(kind) => {
                if let Some(found) = plain(work.arena, kind, at, fuel)? {
                    return Ok(found);
                }
                step = node(work, kind, at, fuel);
            }
        }
    }
}

// The steps, of which that is to be made.
fn to_make<'a>(
    work: &mut Work<'a>,
    last: Pending<'a>,
    steps: &'static [Op],
    entries: &'a [Entry<'a>],
    fuel: usize,
) -> Result<Spot<'a>, Refusal>
    requires { IsTrue (is_whole entries.now) }
    ensures answer { (o : Out) → o ≡ made_by last.entry (says (run fuel) (gram_of steps.now) (tokens entries.now))
        → Leads says_at work.old.pending.items work.new.pending.items result o }
    ensures whole { IfOk result (λ s. IsTrue (is_whole s.entries.now)) }
    ensures lighter { IfOk result (λ s. weight s.fuel (length s.steps.now) ≡ weight fuel (length steps.now)) }
{
    work.pending.push(last)?;
    Ok(Spot {
        steps,
        entries,
        fuel,
    })
}

// The steps, with that around what they say.
fn within<'a>(
    work: &mut Work<'a>,
    around: Around,
    steps: &'static [Op],
    at: &'a [Entry<'a>],
    fuel: usize,
) -> Result<Spot<'a>, Refusal>
    requires { IsTrue (is_whole at.now) }
    ensures answer { Leads says_at work.old.pending.items work.new.pending.items result
        (wrap (around_of around) (says (run fuel) (gram_of steps.now) (tokens at.now))) }
    ensures whole { IfOk result (λ s. IsTrue (is_whole s.entries.now)) }
    ensures lighter { IfOk result (λ s. weight s.fuel (length s.steps.now) ≡ weight fuel (length steps.now)) }
{
    to_make(work, Pending::Around(around), steps, at, fuel)
}

// The steps; what they say is judged.
fn weighed<'a>(
    work: &mut Work<'a>,
    verdicts: Verdicts,
    steps: &'static [Op],
    at: &'a [Entry<'a>],
    fuel: usize,
) -> Result<Spot<'a>, Refusal>
    requires { IsTrue (is_whole at.now) }
    ensures answer { Leads says_at work.old.pending.items work.new.pending.items result
        (judged_as verdicts (says (run fuel) (gram_of steps.now) (tokens at.now))) }
    ensures whole { IfOk result (λ s. IsTrue (is_whole s.entries.now)) }
    ensures lighter { IfOk result (λ s. weight s.fuel (length s.steps.now) ≡ weight fuel (length steps.now)) }
{
    to_make(work, Pending::Judged(verdicts), steps, at, fuel)
}

// A node of the kind, where it is a plain one.
fn plain<'a>(
    arena: &'a Arena,
    kind: Kind,
    at: &'a [Entry<'a>],
    fuel: usize,
) -> Result<Option<(Tree<'a>, &'a [Entry<'a>])>, AllocError>
    requires { IsTrue (is_whole at.now) }
    ensures read { IfOk result (λ found. IfSome found (λ x.
        run fuel (of_kind (kind_of kind)) (tokens at.now) ≡ Got x.0 (tokens x.1.now))) }
    ensures whole { IfOk result (λ found. IfSome found (λ x. IsTrue (is_whole x.1.now))) }
{
    if fuel < CALLS || !may_be_plain(kind) {
        return Ok(None);
    }
    reader_fast::read::read(arena, kind, at)
}

// A node of the kind.
fn node<'a>(
    work: &mut Work<'a>,
    kind: Kind,
    at: &'a [Entry<'a>],
    fuel: usize,
) -> Result<Spot<'a>, Refusal>
    requires { IsTrue (is_whole at.now) }
    ensures answer { Leads says_at work.old.pending.items work.new.pending.items result
        (run fuel (of_kind (kind_of kind)) (tokens at.now)) }
    ensures whole { IfOk result (λ s. IsTrue (is_whole s.entries.now)) }
    ensures lighter { IfOk result (λ s. weight s.fuel (length s.steps.now) < weight fuel 0) }
{
    if fuel == 0 {
        return Err(Refusal::Late);
    }
    let steps = entry(kind);
    let _bounded = steps.len();
    to_make(work, Pending::Node(kind, at), steps, at, fuel - 1)
}

// The inside of a group.
fn group<'a>(
    work: &mut Work<'a>,
    delimiter: Delimiter,
    parts: &'static [Op],
    at: &'a [Entry<'a>],
    fuel: usize,
) -> Result<Spot<'a>, Refusal>
    requires { IsTrue (is_whole at.now) }
    ensures answer { Leads says_at work.old.pending.items work.new.pending.items result
        (says (run fuel) (gram_of (ops.Group delimiter ∷ parts.now)) (tokens at.now)) }
    ensures whole { IfOk result (λ s. IsTrue (is_whole s.entries.now)) }
    ensures lighter { IfOk result (λ s. weight s.fuel (length s.steps.now) < weight fuel (length parts.now + 1)) }
{
    let Some(opened) = enter(delimiter, at) else {
        return Err(refuse(Wanted::Group(delimiter), at));
    };
    let behind = Behind {
        entries: opened.behind,
    };
    let around = Pending::Inside(delimiter, opened.span, behind);
    to_make(work, around, parts, opened.inside, fuel)
}

// An expression that is an operand of an operator of the level.
#[cycle(run)]
fn operand<'a, R: Rules>(
    rules: &R,
    work: &mut Work<'a>,
    position: Position,
    level: usize,
    at: &'a [Entry<'a>],
    fuel: usize,
) -> Result<(Tree<'a>, &'a [Entry<'a>]), Refusal>
    requires { IsTrue (is_whole at.now) }
    ensures kept { work.new.pending.items ≡ work.old.pending.items }
    ensures answer { Gives (λ x. x.0) (λ x. x.1.now) result
        (wrap (around_of arounds.Whole) (run fuel (operand_of (position_of position) level) (tokens at.now))) }
    ensures whole { IfOk result (λ x. IsTrue (is_whole x.1.now)) }
{
    let inner = tower(rules, work, position, level, at, fuel);
    surround(work.arena, Around::Whole, inner)
}

// The tree of no token, where nothing is what is chosen.
#[inline(always)]
fn none_chosen<'a>(
    arena: &'a Arena,
    nil: NoToken<'a>,
    choice: Choice,
    at: &'a [Entry<'a>],
) -> Result<(Tree<'a>, &'a [Entry<'a>]), Refusal>
    requires { IsTrue (is_whole at.now) }
    ensures answer { Gives (λ x. x.0) (λ x. x.1.now) result
        (wrap (around_of (arounds.Chosen choice.seconds choice.is_first)) (Got Nil (tokens at.now))) }
    ensures whole { IfOk result (λ x. IsTrue (is_whole x.1.now)) }
{
    let tree = absent(arena, nil, choice.seconds, choice.is_first);
    with_rest(tree, at)
}

// A choice that stands first.
#[cycle(run)]
#[inline(always)]
fn optional<'a, R: Rules>(
    rules: &R,
    work: &mut Work<'a>,
    test: Test,
    count: usize,
    parts: &'static [Op],
    at: &'a [Entry<'a>],
    fuel: usize,
) -> Result<(Tree<'a>, &'a [Entry<'a>]), Refusal>
    requires { IsTrue (is_whole at.now) }
    ensures kept { work.new.pending.items ≡ work.old.pending.items }
    ensures answer { Gives (λ x. x.0) (λ x. x.1.now) result
        (says (run fuel) (gram_of (ops.Alt test count ∷ parts.now)) (tokens at.now)) }
    ensures whole { IfOk result (λ x. IsTrue (is_whole x.1.now)) }
{
    let Some(choice) = chosen(rules, test, count, parts, at) else {
        return Err(refuse(Wanted::Nothing, at));
    };
    if is_nothing(choice.parts) {
        return none_chosen(work.arena, work.nil, choice, at);
    }
    let inner = interp(rules, work, choice.parts, at, fuel);
    let around = Around::Chosen(choice.seconds, choice.is_first);
    surround(work.arena, around, inner)
}

// What the steps say, where others stand behind them: a token and an absent part are read without a call.
#[cycle(run)]
#[inline(always)]
fn front_of<'a, R: Rules>(
    rules: &R,
    work: &mut Work<'a>,
    steps: &'static [Op],
    at: &'a [Entry<'a>],
    fuel: usize,
) -> Result<(Tree<'a>, &'a [Entry<'a>]), Refusal>
    requires { IsTrue (is_whole at.now) }
    ensures kept { work.new.pending.items ≡ work.old.pending.items }
    ensures answer { Gives (λ x. x.0) (λ x. x.1.now) result (says (run fuel) (gram_of steps.now) (tokens at.now)) }
    ensures whole { IfOk result (λ x. IsTrue (is_whole x.1.now)) }
{
    let Some((op, parts)) = steps.split_first() else {
        return Err(refuse(Wanted::Nothing, at));
    };
    match *op {
        Op::Word(words) => leaf::word(words, at),
        Op::Mark(sign) => leaf::mark(rules, sign, at),
        Op::Alt(test, count) => optional(rules, work, test, count, parts, at, fuel),
        _ => interp(rules, work, steps, at, fuel),
    }
}

// A part, and then another.
#[cycle(run)]
fn seq<'a, R: Rules>(
    rules: &R,
    work: &mut Work<'a>,
    count: usize,
    parts: &'static [Op],
    at: &'a [Entry<'a>],
    fuel: usize,
) -> Result<Spot<'a>, Refusal>
    requires { IsTrue (is_whole at.now) }
    ensures answer { Leads says_at work.old.pending.items work.new.pending.items result
        (says (run fuel) (gram_of (ops.Seq count ∷ parts.now)) (tokens at.now)) }
    ensures whole { IfOk result (λ s. IsTrue (is_whole s.entries.now)) }
    ensures lighter { IfOk result (λ s. weight s.fuel (length s.steps.now) < weight fuel (length parts.now + 1)) }
{
    let Some((first, second)) = halves(count, parts) else {
        return Err(refuse(Wanted::Nothing, at));
    };
    let (front, behind) = front_of(rules, work, first, at, fuel)?;
    to_make(work, Pending::Front(front), second, behind, fuel)
}

// How far a list has been read.
#[derive(Clone, Copy)]
struct Place<'a> {
    entries: &'a [Entry<'a>],
}

// A turn behind others, as the steps say.
#[cycle(run)]
#[inline(always)]
fn turn<'a, R: Rules>(
    rules: &R,
    work: &mut Work<'a>,
    before: &[Tree<'a>],
    parts: &'static [Op],
    at: &'a [Entry<'a>],
    fuel: usize,
) -> Result<(Tree<'a>, &'a [Entry<'a>]), Refusal>
    requires { IsTrue (is_whole at.now) }
    ensures kept { work.new.pending.items ≡ work.old.pending.items }
    ensures answer { Gives (λ x. x.0) (λ x. x.1.now) result (says (run fuel) (gram_of parts.now) (tokens at.now)) }
    ensures whole { IfOk result (λ x. IsTrue (is_whole x.1.now)) }
{
    match interp(rules, work, parts, at, fuel) {
        Ok(read) => Ok(read),
        Err(refusal) => Err(unclosed(before, at, refusal)),
    }
}

// Turns, while the test passes.
#[cycle(run)]
#[inline(never)]
fn star<'a, R: Rules>(
    rules: &R,
    work: &mut Work<'a>,
    test: Test,
    parts: &'static [Op],
    begin: &'a [Entry<'a>],
    most: usize,
) -> Result<(Tree<'a>, &'a [Entry<'a>]), Refusal>
    requires { IsTrue (is_whole begin.now) }
    ensures kept { work.new.pending.items ≡ work.old.pending.items }
    ensures answer { Gives (λ x. x.0) (λ x. x.1.now) result
        (run most (again (test_of test) (gram_of parts.now)) (tokens begin.now)) }
    ensures whole { IfOk result (λ x. IsTrue (is_whole x.1.now)) }
{
    let mut turns = Vec::new(work.arena.alloc());
    let mut at = Place { entries: begin };
    let mut fuel = most;
    'turns: loop {
        if fuel == 0 {
            return Err(Refusal::Late);
        }
        fuel -= 1;
        if !rules.passes(test, at.entries) {
            break;
        }
        let (turn, rest) = turn(rules, work, turns.as_slice(), parts, at.entries, fuel)?;
        turns.push(turn)?;
        at = Place { entries: rest };
    }
    let tree = made::turns(work.arena, turns);
    with_rest(tree, at.entries)
}

// Elements with marks between them, until the test passes.
#[cycle(run)]
#[inline(never)]
fn many<'a, R: Rules>(
    rules: &R,
    work: &mut Work<'a>,
    test: Test,
    separator: Separator,
    parts: &'static [Op],
    begin: &'a [Entry<'a>],
    most: usize,
) -> Result<(Tree<'a>, &'a [Entry<'a>]), Refusal>
    requires { IsTrue (is_whole begin.now) }
    ensures kept { work.new.pending.items ≡ work.old.pending.items }
    ensures answer { Gives (λ x. x.0) (λ x. x.1.now) result
        (run most (list (test_of test) (separator_of separator) (gram_of parts.now)) (tokens begin.now)) }
    ensures whole { IfOk result (λ x. IsTrue (is_whole x.1.now)) }
{
    let mut before = Vec::new(work.arena.alloc());
    let mut at = Place { entries: begin };
    let mut fuel = most;
    'elements: loop {
        if fuel == 0 {
            return Err(Refusal::Late);
        }
        fuel -= 1;
        if rules.passes(test, at.entries) {
            break;
        }
        let (tree, rest) = interp(rules, work, parts, at.entries, fuel)?;
        let Some((spacing, behind)) = leaf::separator(separator, rest) else {
            let list = made::elements(work.arena, separator, before, Some(tree));
            return with_rest(list, rest);
        };
        before.push(Element { tree, spacing })?;
        at = Place { entries: behind };
    }
    let list = made::elements(work.arena, separator, before, None);
    with_rest(list, at.entries)
}

// A form's own part, the operand behind it, if it has one there, and what stands behind them.
#[derive(Drop)]
struct OwnPart<'a> {
    tree: Tree<'a>,
    right: Option<Tree<'a>>,
    rest: &'a [Entry<'a>],
}

// The own part of a form of the kind, and its operand.
#[cycle(run)]
#[inline(always)]
fn own<'a, R: Rules>(
    rules: &R,
    work: &mut Work<'a>,
    position: Position,
    kind: Kind,
    at: &'a [Entry<'a>],
    fuel: usize,
) -> Result<OwnPart<'a>, Refusal>
    requires { IsTrue (is_whole at.now) }
    ensures kept { work.new.pending.items ≡ work.old.pending.items }
    ensures answer { (alone : AnyTree → AnyTree) (both : AnyTree → AnyTree → AnyTree)
        → Gives (λ x. made_of alone both x.tree x.right) (λ x. x.rest.now) result
        (own_of (run fuel) alone both (position_of position) (kind_of kind) (tokens at.now)) }
    ensures whole { IfOk result (λ x. IsTrue (is_whole x.rest.now)) }
{
    let steps = entry(kind);
    let _bounded = steps.len();
    let (tree, behind) = interp(rules, work, steps, at, fuel)?;
    if !rules.has_right(position, kind, behind) {
        return Ok(OwnPart {
            tree,
            right: None,
            rest: behind,
        });
    }
    let place = inside(position, kind);
    let (right, rest) = tower(rules, work, place, level_of(kind), behind, fuel)?;
    Ok(OwnPart {
        tree,
        right: Some(right),
        rest,
    })
}

// An operand of an operator of the level.
#[cycle(run)]
fn tower<'a, R: Rules>(
    rules: &R,
    work: &mut Work<'a>,
    position: Position,
    level: usize,
    at: &'a [Entry<'a>],
    fuel: usize,
) -> Result<(Tree<'a>, &'a [Entry<'a>]), Refusal>
    requires { IsTrue (is_whole at.now) }
    ensures kept { work.new.pending.items ≡ work.old.pending.items }
    ensures answer { Gives (λ x. x.0) (λ x. x.1.now) result
        (run fuel (operand_of (position_of position) level) (tokens at.now)) }
    ensures whole { IfOk result (λ x. IsTrue (is_whole x.1.now)) }
{
    if fuel == 0 {
        return Err(Refusal::Late);
    }
    let Some(kind) = rules.front(position, at) else {
        return Err(refuse(Wanted::Expression, at));
    };
    let OwnPart { tree, right, rest } = own(rules, work, position, kind, at, fuel - 1)?;
    let left = begun(work.arena, kind, tree, right)?;
    climb(rules, work, position, level, left, rest, fuel - 1)
}

// What goes on from a left operand, as an operand of an operator of the level.
#[cycle(run)]
#[inline(never)]
fn climb<'a, R: Rules>(
    rules: &R,
    work: &mut Work<'a>,
    position: Position,
    level: usize,
    left: Tree<'a>,
    at: &'a [Entry<'a>],
    fuel: usize,
) -> Result<(Tree<'a>, &'a [Entry<'a>]), Refusal>
    requires { IsTrue (is_whole at.now) }
    ensures kept { work.new.pending.items ≡ work.old.pending.items }
    ensures answer { Gives (λ x. x.0) (λ x. x.1.now) result
        (run fuel (goes (position_of position) level left.entry) (tokens at.now)) }
    ensures whole { IfOk result (λ x. IsTrue (is_whole x.1.now)) }
{
    let mut form = left;
    let mut place = Place { entries: at };
    let mut most = fuel;
    'forms: loop {
        if most == 0 {
            return Err(Refusal::Late);
        }
        most -= 1;
        match next_of(rules, position, level, &form, place.entries) {
            Next::Nothing => return Ok((form, place.entries)),
            Next::Chained => return Err(refuse(Wanted::Unchained, place.entries)),
            Next::Form(kind) => {
                let OwnPart { tree, right, rest } = own(
                    rules,
                    work,
                    position,
                    kind,
                    place.entries,
                    most,
                )?;
                form = extended(work.arena, form, kind, tree, right)?;
                place = Place { entries: rest };
            }
        }
    }
}
