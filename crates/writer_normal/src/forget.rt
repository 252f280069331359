//! What a kind's tree holds of what was read.

ghost use Rattle.writer_normal.specs.Peeled.{argued_block, argued_literal, default_behind, is_body};
ghost use Rattle.reader_table.specs.Kinds.{kind_of};
ghost use Rattle.std.specs.Prelude.{◌≡◌, IfOk};
ghost use Rattle.syn_grammar.specs.Kept as k;
ghost use Rattle.syn_grammar.specs.Kind.{AnyPath, AtType, ExprPath, SomeBounds};
ghost use Rattle.syn_grammar.specs.Name.{the_bounds, the_pattern, the_type};
ghost use Rattle.syn_grammar.specs.Tree as t;

use crate::numbers::plain_number;
use crate::peel::{lone_type, second};
use crate::stated::as_statement;
use crate::steps;
use crate::tidy::{Change, changed};
use crate::verbatim::underscore;
use reader_table::kind::{Kind, Place, Plus, Position, Style};
use reader_table::op::Separator;
use reader_table::part::Part;
use reader_table::word::Sign;
use reader_tree::arena::Arena;
use reader_tree::made;
use reader_tree::tree::Tree;
use rust_leaf::punct::Spacing;
use rust_map::span::Span;
use std::alloc::AllocError;
use writer_rules::operand::first_behind;
use writer_rules::seen::{is_choice, literal};

/// A kind, without the place, the position or the style in which it was read.
#[tactic(auto, unfolding(syn_grammar::specs::Kept::held))]
pub(crate) fn held(kind: Kind) -> Kind
    ensures { kind_of result ≡ k.held (kind_of kind) }
{
    match kind {
        Kind::Path(_) => Kind::Path(Style::AtType),
        Kind::Segments(_) => Kind::Segments(Style::AtType),
        Kind::Segment(_) => Kind::Segment(Style::AtType),
        Kind::QualifiedPath(_) => Kind::QualifiedPath(Style::AtType),
        Kind::AnyPath(_) => Kind::AnyPath(Style::AtType),
        Kind::AType(_) => Kind::AType(Plus::WithPlus),
        Kind::DynType(_) => Kind::DynType(Plus::WithPlus),
        Kind::ImplType(_) => Kind::ImplType(Plus::WithPlus),
        Kind::ReturnType(_) => Kind::ReturnType(Plus::WithPlus),
        Kind::Expression(_) => Kind::Expression(Position::Plain),
        Kind::Signature(_) => Kind::Signature(Place::InFile),
        _ => kind,
    }
}

// The pattern of any value.
fn wild<'a>(arena: &'a Arena) -> Result<Tree<'a>, AllocError>
    ensures { IfOk result (λ x. x ≡ k.wild) }
{
    let name = underscore(arena)?;
    let pattern = made::node(arena, Kind::WildPattern, made::word(name));
    let chosen = steps::first_behind(arena, 1, pattern);
    steps::node(arena, Kind::OnePattern, chosen)
}

// A parameter with a pattern and a colon before its type.
fn typed<'a>(arena: &'a Arena, front: &Tree<'a>, given: &Tree<'a>) -> Result<Tree<'a>, AllocError>
    ensures { IfOk result (λ x. x ≡ t.Pair front.now (t.Second (t.Second (t.Second (t.Pair (t.Called the_pattern k.wild)
        (t.Pair k.lone_colon (t.Second (t.Called the_type given.now)))))))) }
{
    let pattern = steps::called(arena, Part::Pattern, wild(arena));
    let colon = made::mark(Sign::Colon, Spacing::Alone, Span::call_site());
    let behind = steps::seconds(arena, 1, made::called(arena, Part::Type, given.copy()));
    let rest = steps::pair(arena, Ok(colon), behind);
    let both = steps::pair(arena, pattern, rest);
    let third = steps::seconds(arena, 3, both);
    steps::pair(arena, Ok(front.copy()), third)
}

// A parameter that is a type alone gets a pattern and a colon.
#[tactic(auto, using(crate::proofs::Forgetting::nameds))]
fn named<'a>(arena: &'a Arena, tree: &Tree<'a>) -> Result<Tree<'a>, AllocError>
    ensures { IfOk result (λ x. x ≡ k.named tree.now) }
{
    let Some((front, back)) = tree.pair() else {
        return Ok(tree.copy());
    };
    match lone_type(back) {
        Some(given) => typed(arena, front, given),
        None => Ok(tree.copy()),
    }
}

// A list of one bound, behind a word.
fn one_bound<'a>(arena: &'a Arena, word: &Tree<'a>, bound: Tree<'a>) -> Result<Tree<'a>, AllocError>
    ensures { IfOk result (λ x. x
        ≡ t.Pair word.now (t.Called the_bounds (t.Node SomeBounds (t.First (t.Final bound.entry))))) }
{
    let list = made::elements(arena, Separator::Plus, Vec::new(arena.alloc()), Some(bound));
    let bounds = steps::node(arena, Kind::SomeBounds, steps::first_behind(arena, 0, list));
    let part = steps::called(arena, Part::Bounds, bounds);
    steps::pair(arena, Ok(word.copy()), part)
}

// The one bound of a type without plus is a list of one.
#[tactic(auto, using(crate::proofs::Forgetting::bounds))]
fn listed_bound<'a>(arena: &'a Arena, tree: &Tree<'a>) -> Result<Tree<'a>, AllocError>
    ensures { IfOk result (λ x. x ≡ k.listed_bound tree.now) }
{
    let Some((word, behind)) = tree.pair() else {
        return Ok(tree.copy());
    };
    match second(behind) {
        Some(bound) => one_bound(arena, word, bound),
        None => Ok(tree.copy()),
    }
}

// A word as a path of one name.
fn as_path<'a>(arena: &'a Arena, word: Tree<'a>) -> Result<Tree<'a>, AllocError>
    ensures { IfOk result (λ x. x ≡ k.as_path word.entry) }
{
    let root = made::second(arena, made::nil());
    let bare = made::seconds(arena, 3, made::nil());
    let segment = steps::seconds(arena, 1, steps::pair(arena, Ok(word), bare));
    let segments = steps::node(arena, Kind::Segments(Style::AtType), segment);
    let path = steps::pair(arena, root, segments);
    steps::node(arena, Kind::Path(Style::AtType), path)
}

// A word as a path of one name, before something.
fn path_before<'a>(
    arena: &'a Arena,
    word: &Tree<'a>,
    back: &Tree<'a>,
) -> Result<Tree<'a>, AllocError>
    ensures { IfOk result (λ x. x ≡ t.Pair (t.Second (k.as_path word.now)) back.now) }
{
    let path = steps::seconds(arena, 1, as_path(arena, word.copy()));
    steps::pair(arena, path, Ok(back.copy()))
}

// `unsafe` alone, in an attribute, is a path of one name.
#[tactic(auto, using(crate::proofs::Forgetting::unsafes))]
fn unsafe_path<'a>(arena: &'a Arena, tree: &Tree<'a>) -> Result<Tree<'a>, AllocError>
    ensures { IfOk result (λ x. x ≡ k.unsafe_path tree.now) }
{
    let Some((front, back)) = tree.pair() else {
        return Ok(tree.copy());
    };
    match front.first() {
        Some(word) => path_before(arena, word, back),
        None => Ok(tree.copy()),
    }
}

// An expression that is one form alone.
fn atom<'a>(arena: &'a Arena, kind: Kind, own: Tree<'a>) -> Result<Tree<'a>, AllocError>
    ensures { IfOk result (λ x. x ≡ k.atom (kind_of kind) own.entry) }
{
    let form = steps::whole(arena, made::alone(arena, kind, own));
    steps::node(arena, Kind::Expression(Position::Plain), form)
}

// An expression that is a block.
fn block_atom<'a>(arena: &'a Arena, block: Tree<'a>) -> Result<Tree<'a>, AllocError>
    ensures { IfOk result (λ x. x ≡ k.block_atom block.entry) }
{
    let unlabelled = made::second(arena, made::nil())?;
    let own = made::pair(arena, unlabelled, block)?;
    atom(arena, Kind::ExprBlock, own)
}

// An expression that is a path of one name.
fn path_atom<'a>(arena: &'a Arena, name: Tree<'a>) -> Result<Tree<'a>, AllocError>
    ensures { IfOk result (λ x. x ≡ k.atom ExprPath (t.Node (AnyPath AtType) (t.Second (k.as_path name.entry)))) }
{
    let path = steps::seconds(arena, 1, as_path(arena, name));
    let any = steps::node(arena, Kind::AnyPath(Style::AtType), path)?;
    atom(arena, Kind::ExprPath, any)
}

// An argument that is a literal.
#[tactic(auto, using(crate::proofs::Forgetting::literals))]
fn argued_literal<'a>(arena: &'a Arena, literal: &Tree<'a>) -> Result<Tree<'a>, AllocError>
    ensures { IfOk result (λ x. x ≡ argued_literal literal.now) }
{
    if is_choice(literal) {
        let held = atom(arena, Kind::ExprLit, literal.copy())?;
        return made::first_behind(arena, 1, held);
    }
    made::first_behind(arena, 1, literal.copy())
}

// Whether it is a body.
#[tactic(auto, using(crate::proofs::Forgetting::bodies))]
fn is_body(tree: &Tree<'_>) -> bool
    ensures { result ≡ is_body tree.now }
{
    match tree.node() {
        Some((kind, _)) => match kind {
            Kind::Body => true,
            _ => false,
        },
        None => false,
    }
}

// An argument that is a block.
#[tactic(auto, using(crate::proofs::Forgetting::blocks))]
fn argued_block<'a>(arena: &'a Arena, block: &Tree<'a>) -> Result<Tree<'a>, AllocError>
    ensures { IfOk result (λ x. x ≡ argued_block block.now) }
{
    if is_body(block) {
        let held = block_atom(arena, block.copy())?;
        return made::first_behind(arena, 2, held);
    }
    made::first_behind(arena, 2, block.copy())
}

// A constant among arguments is an expression.
#[tactic(auto, using(crate::proofs::Forgetting::arguments))]
fn constant_argument<'a>(arena: &'a Arena, tree: &Tree<'a>) -> Result<Tree<'a>, AllocError>
    ensures { IfOk result (λ x. x ≡ k.constant_argument tree.now) }
{
    match first_behind(tree, 1) {
        Some(literal) => argued_literal(arena, literal),
        None => match first_behind(tree, 2) {
            Some(block) => argued_block(arena, block),
            None => Ok(tree.copy()),
        },
    }
}

// The default of a constant parameter that is no literal.
#[tactic(auto, using(crate::proofs::Forgetting::behinds))]
fn default_behind<'a>(arena: &'a Arena, tree: &Tree<'a>) -> Result<Tree<'a>, AllocError>
    ensures { IfOk result (λ x. x ≡ default_behind tree.now) }
{
    if let Some(block) = tree.first() {
        return block_atom(arena, block.copy());
    }
    match second(tree) {
        Some(name) => path_atom(arena, name),
        None => made::second(arena, tree.copy()),
    }
}

/// The default of a constant parameter is an expression.
///
/// # Errors
///
/// Where there is no memory for it.
#[tactic(auto, using(crate::proofs::Forgetting::defaults))]
pub(crate) fn constant_default<'a>(
    arena: &'a Arena,
    tree: &Tree<'a>,
) -> Result<Tree<'a>, AllocError>
    ensures { IfOk result (λ x. x ≡ k.constant_default tree.now) }
{
    if let Some(literal) = tree.first() {
        return atom(arena, Kind::ExprLit, literal.copy());
    }
    match second(tree) {
        Some(behind) => default_behind(arena, &behind),
        None => Ok(tree.copy()),
    }
}

/// Whether an arm without a comma is the last is not held.
///
/// # Errors
///
/// Where there is no memory for it.
#[tactic(auto, using(crate::proofs::Forgetting::lasts))]
pub(crate) fn not_last<'a>(arena: &'a Arena, tree: &Tree<'a>) -> Result<Tree<'a>, AllocError>
    ensures { IfOk result (λ x. x ≡ k.not_last tree.now) }
{
    match tree.first() {
        Some(inner) => made::seconds(arena, 2, inner.copy()),
        None => Ok(tree.copy()),
    }
}

// An index is held by its value, in plain decimal.
#[tactic(auto, using(crate::proofs::Forgetting::indices))]
fn plain_index<'a>(arena: &'a Arena, tree: &Tree<'a>) -> Result<Tree<'a>, AllocError>
    ensures { IfOk result (λ x. x ≡ k.plain_index tree.now) }
{
    match literal(tree) {
        Some(text) => plain_number(arena, text.as_str()),
        None => Ok(tree.copy()),
    }
}

// A member that is an index.
#[tactic(auto, using(crate::proofs::Forgetting::members))]
fn plain_member<'a>(arena: &'a Arena, tree: &Tree<'a>) -> Result<Tree<'a>, AllocError>
    ensures { IfOk result (λ x. x ≡ k.plain_member tree.now) }
{
    match second(tree) {
        Some(index) => {
            let plain = plain_index(arena, &index)?;
            made::second(arena, plain)
        }
        None => Ok(tree.copy()),
    }
}

/// What a kind's tree holds of what was read, of what its inside holds.
///
/// # Errors
///
/// Where there is no memory for it.
pub(crate) fn forget<'a>(
    arena: &'a Arena,
    kind: Kind,
    inner: &Tree<'a>,
) -> Result<Tree<'a>, AllocError>
    ensures { IfOk result (λ x. x ≡ k.forget (kind_of kind) inner.now) }
{
    match kind {
        Kind::Parameter => named(arena, inner),
        Kind::DynType(_) => listed_bound(arena, inner),
        Kind::ImplType(_) => listed_bound(arena, inner),
        Kind::Meta => unsafe_path(arena, inner),
        Kind::AStatement => as_statement(arena, inner),
        Kind::Member => plain_member(arena, inner),
        Kind::Index => plain_index(arena, inner),
        Kind::Arm => changed(arena, Part::Comma, Change::Last, inner),
        Kind::AnArgument => constant_argument(arena, inner),
        Kind::ConstParam => changed(arena, Part::Value, Change::Default, inner),
        _ => Ok(inner.copy()),
    }
}
