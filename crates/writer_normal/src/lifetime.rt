//! Lists in which lifetimes come first.

ghost use Rattle.writer_normal.specs.Changes.{others_in, passes, those_in};
ghost use Rattle.writer_normal.specs.Held.{apart_element};
ghost use Rattle.writer_normal.specs.Separators.{IsFault};
ghost use Rattle.reader_table.specs.Ops.{separator_of};
ghost use Rattle.reader_table.specs.declared.op.Separator.TheVariants.{Comma};
ghost use Rattle.reader_tree.specs.Forms.{elements, ending};
ghost use Rattle.std.specs.Prelude.{[], ◌++◌, ◌∷◌, ◌≡◌, IfOk, MatchResult, OnOk, true};
ghost use Rattle.syn_grammar.specs.Tidy.{is_lifetime_argument, lifetimes_first};
ghost use Rattle.syn_grammar.specs.Tree as t;

use crate::fault::Fault;
use reader_table::kind::Kind;
use reader_table::op::Separator;
use reader_table::part::Part;
use reader_tree::arena::Arena;
use reader_tree::made;
use reader_tree::placed_spacing::PlacedSpacing;
use reader_tree::tree::{Element, Form, Separated, Tree};
use rust_leaf::punct::Spacing;
use rust_map::span::Span;
use std::alloc::AllocError;
use writer_rules::seen::is_lifetime_param;

/// What the elements of a list are.
#[derive(Clone, Copy)]
pub(crate) enum Which {
    /// Generic parameters.
    Params,
    /// Arguments.
    Arguments,
}

// Whether an argument is a lifetime.
fn is_lifetime_argument(tree: &Tree<'_>) -> bool
    ensures { result ≡ is_lifetime_argument tree.now }
{
    match tree.node() {
        Some((kind, inner)) => match kind {
            Kind::AnArgument => inner.has(Part::Lifetime),
            _ => false,
        },
        None => false,
    }
}

// Whether an element is a lifetime.
fn passes(which: Which, tree: &Tree<'_>) -> bool
    ensures { result ≡ passes which tree.now }
{
    match which {
        Which::Params => is_lifetime_param(tree),
        Which::Arguments => is_lifetime_argument(tree),
    }
}

// An element once more.
fn copied<'a>(element: &Element<'a>) -> Element<'a>
    ensures { result ≡ element.now }
{
    Element {
        tree: element.tree.copy(),
        spacing: element.spacing.copy(),
    }
}

// Puts the lifetimes among the elements that a mark follows, in their order.
#[tactic(auto, using(crate::proofs::Lists::puts))]
fn put_those<'a>(
    which: Which,
    before: &[Element<'a>],
    out: &mut Vec<Element<'a>>,
) -> Result<(), AllocError>
    ensures { OnOk result (out.new.items ≡ out.old.items ++ those_in (passes which) before.now) }
{
    let Some((element, others)) = before.split_first() else {
        return Ok(());
    };
    if passes(which, &element.tree) {
        out.push(copied(element))?;
        return put_those(which, others, out);
    }
    put_those(which, others, out)
}

// Puts the others.
#[tactic(auto, using(crate::proofs::Lists::puts))]
fn put_others<'a>(
    which: Which,
    before: &[Element<'a>],
    out: &mut Vec<Element<'a>>,
) -> Result<(), AllocError>
    ensures { OnOk result (out.new.items ≡ out.old.items ++ others_in (passes which) before.now) }
{
    let Some((element, others)) = before.split_first() else {
        return Ok(());
    };
    if passes(which, &element.tree) {
        return put_others(which, others, out);
    }
    out.push(copied(element))?;
    put_others(which, others, out)
}

// A list of the lifetimes, of the others behind them, and of a last one that no mark follows, if there is one.
fn parted<'a>(
    arena: &'a Arena,
    which: Which,
    list: &Separated<'a>,
    last: Option<Tree<'a>>,
) -> Result<Tree<'a>, AllocError>
    ensures { IfOk result (λ x. x ≡ elements (separator_of list.now.separator)
        (those_in (passes which) list.now.before.now ++ others_in (passes which) list.now.before.now)
        (ending (λ y. y) last.entry)) }
{
    let mut parted = Vec::new(arena.alloc());
    put_those(which, list.before, &mut parted)?;
    put_others(which, list.before, &mut parted)?;
    made::elements(arena, list.separator, parted, last)
}

// A list of the lifetimes, of a last one with a comma behind it, and of the others.
fn before_others<'a>(
    arena: &'a Arena,
    which: Which,
    before: &[Element<'a>],
    last: &Tree<'a>,
    firsts: Vec<Element<'a>>,
) -> Result<Tree<'a>, AllocError>
    ensures { IfOk result (λ x. x ≡ elements (separator_of Comma)
        ((firsts.entry.items ++ apart_element last.now ∷ []) ++ others_in (passes which) before.now) t.End) }
{
    let mut all = firsts;
    all.push(Element {
        tree: last.copy(),
        spacing: PlacedSpacing::new(Spacing::Alone, Span::call_site()),
    })?;
    put_others(which, before, &mut all)?;
    made::elements(arena, Separator::Comma, all, None)
}

// A list whose last element, which no mark follows, is a lifetime, of the lifetimes before it and of the others. Where
// there are others it gets a comma.
fn last_with<'a>(
    arena: &'a Arena,
    which: Which,
    list: &Separated<'a>,
    last: &Tree<'a>,
    others: &[Element<'a>],
    firsts: Vec<Element<'a>>,
) -> Result<Tree<'a>, Fault>
    ensures { passes which last.now ≡ true → others.now ≡ others_in (passes which) list.now.before.now
        → firsts.entry.items ≡ those_in (passes which) list.now.before.now
        → MatchResult result
        (λ x. x ≡ lifetimes_first (passes which)
        (elements (separator_of list.now.separator) list.now.before.now (t.Final last.now)))
        (λ fault. IsFault fault (lifetimes_first (passes which)
        (elements (separator_of list.now.separator) list.now.before.now (t.Final last.now)))) }
{
    if others.is_empty() {
        let once = last.copy();
        let tree = made::elements(arena, list.separator, firsts, Some(once))?;
        return Ok(tree);
    }
    match list.separator {
        Separator::Plus => Err(Fault::Separators),
        Separator::Comma => {
            let turned = before_others(arena, which, list.before, last, firsts)?;
            Ok(turned)
        }
    }
}

// A list whose last element, which no mark follows, is a lifetime.
fn last_first<'a>(
    arena: &'a Arena,
    which: Which,
    list: &Separated<'a>,
    last: &Tree<'a>,
) -> Result<Tree<'a>, Fault>
    ensures { passes which last.now ≡ true → MatchResult result
        (λ x. x ≡ lifetimes_first (passes which)
        (elements (separator_of list.now.separator) list.now.before.now (t.Final last.now)))
        (λ fault. IsFault fault (lifetimes_first (passes which)
        (elements (separator_of list.now.separator) list.now.before.now (t.Final last.now)))) }
{
    let mut others = Vec::new(arena.alloc());
    put_others(which, list.before, &mut others)?;
    let mut firsts = Vec::new(arena.alloc());
    put_those(which, list.before, &mut firsts)?;
    last_with(arena, which, list, last, others.as_slice(), firsts)
}

// The same of a list.
#[tactic(auto, using(crate::proofs::Lists::firsts))]
fn parted_list<'a>(arena: &'a Arena, which: Which, list: &Separated<'a>) -> Result<Tree<'a>, Fault>
    ensures { MatchResult result
        (λ x. x ≡ lifetimes_first (passes which)
        (elements (separator_of list.now.separator) list.now.before.now (ending (λ y. y.now) list.now.last)))
        (λ fault. IsFault fault (lifetimes_first (passes which)
        (elements (separator_of list.now.separator) list.now.before.now (ending (λ y. y.now) list.now.last)))) }
{
    match list.last {
        Some(last) => {
            if passes(which, last) {
                return last_first(arena, which, list, last);
            }
            Ok(parted(arena, which, list, Some(last.copy()))?)
        }
        None => Ok(parted(arena, which, list, None)?),
    }
}

/// A list with its lifetimes in front; what is no list stays as it is.
///
/// # Errors
///
/// Where there is no memory for it, or where no tree is it.
#[tactic(auto, using(crate::proofs::Lists::unlisted))]
pub(crate) fn lifetimes_first<'a>(
    arena: &'a Arena,
    which: Which,
    tree: &Tree<'a>,
) -> Result<Tree<'a>, Fault>
    ensures { MatchResult result (λ x. x ≡ lifetimes_first (passes which) tree.now)
        (λ fault. IsFault fault (lifetimes_first (passes which) tree.now)) }
{
    match &tree.form {
        Form::Elements(list) => parted_list(arena, which, list),
        _ => Ok(tree.copy()),
    }
}
