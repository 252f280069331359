//! The normal form of a tree.

ghost use Rattle.writer_built.specs.Begins.{front3};
ghost use Rattle.writer_built.specs.Heads.{head_tokens};
ghost use Rattle.writer_normal.specs.Parted.{element_in};
ghost use Rattle.writer_normal.specs.Separators.{IsFault};
ghost use Rattle.writer_print.specs.Pieces.{piece_token};
ghost use Rattle.reader_table.specs.Kinds.{kind_of, position_of};
ghost use Rattle.reader_table.specs.Ops.{separator_of};
ghost use Rattle.reader_table.specs.Parts.{part_of};
ghost use Rattle.reader_tree.specs.Forms.{elements, ending, turns};
ghost use Rattle.writer_rules.specs.Front.{Keeps};
ghost use Rattle.proc_macro2.specs.Token.{Token};
ghost use Rattle.std.specs.Prelude.{◌++◌, ◌≡◌, IfErr, IfOk, List, MatchResult, OnOk, map};
ghost use Rattle.syn_grammar.specs.Kept as k;
ghost use Rattle.syn_grammar.specs.Normal as n;
ghost use Rattle.syn_grammar.specs.Tree as t;
ghost use Rattle.syn_grammar.specs.Tree.{flat};

use crate::apart::put_parted;
use crate::fault::Fault;
use crate::fault_steps::or_fault;
use crate::first::first;
use crate::kept::kept;
use crate::tidy::{emptied, ordered};
use crate::{fault_steps, paren, steps};
use proc_macro2::delimiter::Delimiter;
use reader_table::kind::{Kind, Position};
use reader_table::part::Part;
use reader_tree::arena::Arena;
use reader_tree::made;
use reader_tree::placed_spacing::PlacedSpacing;
use reader_tree::tree::{Element, Form, Separated, Three, Tree, Two};
use reader_verdicts::level::inside;
use rust_leaf::punct::Spacing;
use std::alloc::AllocError;
use writer_built::head::Head;
use writer_built::seen::Seen;
use writer_built::sight::follow;
use writer_print::piece::Piece;
use writer_read::as_read::put_as_read;

// Where the expression of a part stands.
#[tactic(auto, unfolding(syn_grammar::specs::Normal::place_of))]
fn place_of(part: Part) -> Position
    ensures { position_of result ≡ n.place_of (part_of part) }
{
    match part {
        Part::Condition => Position::InCondition,
        Part::Body => Position::InArm,
        Part::Expression => Position::InStatement,
        _ => Position::Plain,
    }
}

// Where an expression in a node stands.
#[tactic(auto, unfolding(syn_grammar::specs::Normal::passed))]
fn passed(kind: Kind, position: Position) -> Position
    ensures { position_of result ≡ n.passed (kind_of kind) (position_of position) }
{
    match kind {
        Kind::Expression(_) => position,
        _ => Position::Plain,
    }
}

// What stands behind a whole expression: of a condition a brace.
#[tactic(auto, unfolding(syn_grammar::specs::Normal::stands_behind))]
fn behind_whole<'a>(position: Position) -> Head<'a>
    ensures { head_tokens result ≡ front3 (n.stands_behind (position_of position)) }
{
    match position {
        Position::InCondition => Head::One(Seen::Open(Delimiter::Brace)),
        Position::Plain => Head::Empty,
        Position::InArm => Head::Empty,
        Position::InStatement => Head::Empty,
    }
}

// No visibility, where one was dropped.
fn private<'a>(arena: &'a Arena) -> Result<Tree<'a>, AllocError>
    ensures { IfOk result (λ x. x ≡ n.private) }
{
    steps::node(arena, Kind::Visibility, made::second(arena, made::nil()))
}

// What was dropped, in normal form.
fn dropped<'a>(arena: &'a Arena) -> Result<Tree<'a>, Fault>
    ensures { MatchResult result (λ x. x ≡ t.Dropped n.private) (λ fault. IsFault fault (t.Dropped n.private)) }
{
    let none = private(arena)?;
    Ok(made::dropped(arena, none)?)
}

// Puts the normal form of each of some trees.
#[cycle(normal)]
#[tactic(auto, using(crate::proofs::Mixing::items))]
fn put_each<'a>(
    arena: &'a Arena,
    position: Position,
    trees: &[Tree<'a>],
    out: &mut Vec<Tree<'a>>,
) -> Result<(), Fault>
    ensures { MatchResult result
        (λ _. out.new.items ≡ out.old.items ++ map (n.normal_in (position_of position)) trees.now)
        (λ fault. IsFault fault (turns (map (n.normal_in (position_of position)) trees.now))) }
{
    for tree in trees {
        out.push(normal_in(arena, position, tree)?)?;
    }
    Ok(())
}

// Turns.
#[cycle(normal)]
fn turns<'a>(arena: &'a Arena, position: Position, trees: &[Tree<'a>]) -> Result<Tree<'a>, Fault>
    ensures { MatchResult result (λ x. x ≡ n.normal_in (position_of position) (turns trees.now))
        (λ fault. IsFault fault (n.normal_in (position_of position) (turns trees.now))) }
{
    let mut each = Vec::new(arena.alloc());
    put_each(arena, position, trees, &mut each)?;
    let mut parted = Vec::new(arena.alloc());
    put_parted(arena, trees, each.as_slice(), &mut parted)?;
    or_fault(made::turns(arena, parted))
}

// Puts the normal form of each of the elements that a mark follows.
#[cycle(normal)]
#[tactic(auto, using(crate::proofs::Mixing::items))]
fn put_elements<'a>(
    arena: &'a Arena,
    position: Position,
    before: &[Element<'a>],
    out: &mut Vec<Element<'a>>,
) -> Result<(), Fault>
    ensures { MatchResult result
        (λ _. out.new.items ≡ out.old.items ++ map (element_in (position_of position)) before.now)
        (λ fault. IsFault fault (turns (map (λ e. n.normal_in (position_of position) e.tree) before.now))) }
{
    for element in before {
        out.push(Element {
            tree: normal_in(arena, position, &element.tree)?,
            spacing: PlacedSpacing::new(Spacing::Alone, element.spacing.span()),
        })?;
    }
    Ok(())
}

// A list.
#[cycle(normal)]
fn list<'a>(arena: &'a Arena, position: Position, list: &Separated<'a>) -> Result<Tree<'a>, Fault>
    ensures { MatchResult result
        (λ x. x ≡ n.normal_in (position_of position)
        (elements (separator_of list.now.separator) list.now.before.now (ending (λ y. y.now) list.now.last)))
        (λ fault. IsFault fault (n.normal_in (position_of position)
        (elements (separator_of list.now.separator) list.now.before.now (ending (λ y. y.now) list.now.last)))) }
{
    let mut before = Vec::new(arena.alloc());
    put_elements(arena, position, list.before, &mut before)?;
    match list.last {
        Some(last) => {
            let ended = normal_in(arena, position, last)?;
            or_fault(made::elements(arena, list.separator, before, Some(ended)))
        }
        None => or_fault(made::elements(arena, list.separator, before, None)),
    }
}

// A form without operands, before what begins so.
#[cycle(normal)]
fn alone<'a>(
    arena: &'a Arena,
    position: Position,
    behind: Head<'a>,
    kind: Kind,
    own: &Tree<'a>,
) -> Result<Tree<'a>, Fault>
    ensures { MatchResult result
        (λ x. (ts : List Token) → head_tokens behind.entry ≡ front3 ts
        → x ≡ n.formed (position_of position) ts (t.Alone (kind_of kind) own.now))
        (λ fault. (ts : List Token) → head_tokens behind.entry ≡ front3 ts
        → IsFault fault (n.formed (position_of position) ts (t.Alone (kind_of kind) own.now))) }
{
    let own = normal_in(arena, Position::Plain, own)?;
    let form = paren::alone(arena, position, behind, kind, own)?;
    Ok(form)
}

// A form with an operand behind it, before what begins so.
#[cycle(normal)]
fn front<'a>(
    arena: &'a Arena,
    position: Position,
    behind: Head<'a>,
    kind: Kind,
    two: &Two<'a>,
) -> Result<Tree<'a>, Fault>
    ensures { MatchResult result
        (λ x. (ts : List Token) → head_tokens behind.entry ≡ front3 ts
        → x ≡ n.formed (position_of position) ts (t.Front (kind_of kind) two.now.front two.now.back))
        (λ fault. (ts : List Token) → head_tokens behind.entry ≡ front3 ts
        → IsFault fault (n.formed (position_of position) ts (t.Front (kind_of kind) two.now.front two.now.back))) }
{
    let own = normal_in(arena, Position::Plain, &two.front)?;
    let place = inside(position, kind);
    let operand = formed(arena, place, behind, &two.back)?;
    let form = paren::front(arena, position, kind, own, operand)?;
    Ok(form)
}

// A form with an operand before it, before what begins so.
#[cycle(normal)]
fn back<'a>(
    arena: &'a Arena,
    position: Position,
    behind: Head<'a>,
    kind: Kind,
    two: &Two<'a>,
) -> Result<Tree<'a>, Fault>
    ensures { MatchResult result
        (λ x. (ts : List Token) → head_tokens behind.entry ≡ front3 ts
        → x ≡ n.formed (position_of position) ts (t.Back two.now.front (kind_of kind) two.now.back))
        (λ fault. (ts : List Token) → head_tokens behind.entry ≡ front3 ts
        → IsFault fault (n.formed (position_of position) ts (t.Back two.now.front (kind_of kind) two.now.back))) }
{
    let own = normal_in(arena, Position::Plain, &two.back)?;
    let begun = first(&own);
    let next = follow(begun);
    let operand = formed(arena, position, next, &two.front)?;
    let form = paren::back(arena, (position, behind), operand, kind, own)?;
    Ok(form)
}

// A form with both, before what begins so.
#[cycle(normal)]
fn infix<'a>(
    arena: &'a Arena,
    position: Position,
    behind: Head<'a>,
    kind: Kind,
    three: &Three<'a>,
) -> Result<Tree<'a>, Fault>
    ensures { MatchResult result
        (λ x. (ts : List Token) → head_tokens behind.entry ≡ front3 ts
        → x ≡ n.formed (position_of position) ts
        (t.Infix three.now.left (kind_of kind) three.now.own three.now.right))
        (λ fault. (ts : List Token) → head_tokens behind.entry ≡ front3 ts
        → IsFault fault (n.formed (position_of position) ts
        (t.Infix three.now.left (kind_of kind) three.now.own three.now.right))) }
{
    let own = normal_in(arena, Position::Plain, &three.own)?;
    let begun = first(&own);
    let next = follow(begun);
    let left = formed(arena, position, next, &three.left)?;
    let place = inside(position, kind);
    let right = formed(arena, place, behind, &three.right)?;
    let form = paren::infix(arena, position, left, (kind, own), right)?;
    Ok(form)
}

// A form in a position, before what begins so.
#[cycle(normal)]
#[tactic(auto, using(crate::proofs::Forming::unformed))]
fn formed<'a>(
    arena: &'a Arena,
    position: Position,
    behind: Head<'a>,
    tree: &Tree<'a>,
) -> Result<Tree<'a>, Fault>
    ensures { MatchResult result
        (λ x. (ts : List Token) → head_tokens behind.entry ≡ front3 ts
        → x ≡ n.formed (position_of position) ts tree.now)
        (λ fault. (ts : List Token) → head_tokens behind.entry ≡ front3 ts
        → IsFault fault (n.formed (position_of position) ts tree.now)) }
{
    match &tree.form {
        Form::Alone(kind, own) => alone(arena, position, behind, *kind, own),
        Form::Front(kind, two) => front(arena, position, behind, *kind, two),
        Form::Back(kind, two) => back(arena, position, behind, *kind, two),
        Form::Infix(kind, three) => infix(arena, position, behind, *kind, three),
        _ => Ok(tree.copy()),
    }
}

// An expression.
#[cycle(normal)]
fn whole<'a>(arena: &'a Arena, position: Position, inner: &Tree<'a>) -> Result<Tree<'a>, Fault>
    ensures { MatchResult result (λ x. x ≡ n.normal_in (position_of position) (t.Whole inner.now))
        (λ fault. IsFault fault (n.normal_in (position_of position) (t.Whole inner.now))) }
{
    let form = formed(arena, position, behind_whole(position), inner)?;
    or_fault(made::whole(arena, form))
}

// A node.
#[cycle(normal)]
#[tactic(auto, using(crate::proofs::Emptying::nodes))]
fn node<'a>(
    arena: &'a Arena,
    position: Position,
    kind: Kind,
    inner: &Tree<'a>,
) -> Result<Tree<'a>, Fault>
    ensures { MatchResult result (λ x. x ≡ n.normal_in (position_of position) (t.Node (kind_of kind) inner.now))
        (λ fault. IsFault fault (n.normal_in (position_of position) (t.Node (kind_of kind) inner.now))) }
{
    let left = emptied(arena, kind, inner)?;
    let inside = normal_in(arena, passed(kind, position), &left)?;
    let tidied = ordered(arena, kind, &inside)?;
    or_fault(made::node(arena, kind, tidied))
}

/// The normal form of a tree, in a position: of every tree, read or put together by hand.
///
/// # Errors
///
/// Where there is no memory for it, or where no tree is it.
#[cycle(normal)]
#[tactic(auto, using(crate::proofs::Forming::forms, crate::proofs::Mixing::places))]
pub fn normal_in<'a>(
    arena: &'a Arena,
    position: Position,
    tree: &Tree<'a>,
) -> Result<Tree<'a>, Fault>
    ensures { MatchResult result (λ x. x ≡ n.normal_in (position_of position) tree.now)
        (λ fault. IsFault fault (n.normal_in (position_of position) tree.now)) }
{
    match &tree.form {
        Form::Mark(sign, _, span) => Ok(made::mark(*sign, Spacing::Alone, span.span())),
        Form::Pair(two) => {
            let front = normal_in(arena, position, &two.front);
            fault_steps::pair(arena, front, normal_in(arena, position, &two.back))
        }
        Form::First(depth, inner) => {
            let inner = normal_in(arena, position, inner);
            fault_steps::first_behind(arena, *depth as usize, inner)
        }
        Form::Second(depth, inner) => {
            fault_steps::second_behind(arena, *depth, normal_in(arena, position, inner))
        }
        Form::End => Ok(made::no_turns()),
        Form::Turns(trees) => turns(arena, position, trees.each),
        Form::Elements(elements) => list(arena, position, elements),
        Form::Group(delimiter, group) => {
            let inner = normal_in(arena, position, &group.inside);
            fault_steps::group(arena, *delimiter, group.span, inner)
        }
        Form::Dropped(_) => dropped(arena),
        Form::Called(part, inner) => {
            fault_steps::called(arena, *part, normal_in(arena, place_of(*part), inner))
        }
        Form::Node(kind, inner) => node(arena, position, *kind, inner),
        Form::Whole(inner) => whole(arena, position, inner),
        _ => Ok(tree.copy()),
    }
}

/// The normal form of a tree: of every tree, read or put together by hand, at whatever depth.
///
/// # Errors
///
/// Where there is no memory for it, or where no tree is it.
pub fn normal<'a>(arena: &'a Arena, tree: &Tree<'a>) -> Result<Tree<'a>, Fault>
    ensures { MatchResult result (λ x. x ≡ n.normal tree.now) (λ fault. IsFault fault (n.normal tree.now)) }
{
    normal_in(arena, Position::Plain, tree)
}

/// Puts the tokens of what a syntax tree holds of a tree, in normal form, behind those that are to be written: of a
/// tree that was read those that are written of the program, and of one that was put together by hand just the
/// parentheses that it needs, at whatever depth.
///
/// # Errors
///
/// Where there is no memory for the normal form or for more tokens, or where no tree is the normal form. Those that
/// stood there stand in front then too, perhaps with some of the tree's behind them.
#[tactic(auto, using(writer_rules::proofs::Fronts::kept))]
pub fn put_normal<'a>(
    arena: &'a Arena,
    tree: &Tree<'a>,
    out: &mut Vec<Piece<'a>>,
) -> Result<(), Fault>
    ensures put { OnOk result (map piece_token out.new.items
        ≡ map piece_token out.old.items ++ flat (n.normal (k.kept tree.now))) }
    ensures fault { IfErr result (λ fault. IsFault fault (n.normal (k.kept tree.now))) }
    ensures keeps { Keeps out.old.items out.new.items }
{
    let held = kept(arena, tree)?;
    let made = normal(arena, &held)?;
    put_as_read(&made, out)?;
    Ok(())
}
