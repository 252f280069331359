//! What is asked of the elements of lists.

ghost use Rattle.reader_verdicts.specs.Asked.{asked_of};
ghost use Rattle.reader_verdicts.specs.Last.{on_last};
ghost use Rattle.std.specs.List.{list_any};
ghost use Rattle.std.specs.Prelude.{◌||◌, ◌≡◌, not, option_map};
ghost use Rattle.syn_grammar.specs.Items.{are_parameters};
ghost use Rattle.syn_grammar.specs.Part.{each_but_first, each_but_last, each_separated, some};

use crate::asked::{Asked, is};
use reader_tree::tree::{Element, Tree};

// Whether an element that a mark follows is what is asked.
fn any(asked: Asked, elements: &[Element]) -> bool
    ensures { result ≡ list_any (λ e. asked_of asked e.tree) elements.now }
{
    for element in elements {
        if is(asked, &element.tree) {
            return true;
        }
    }
    false
}

// Whether the last element is what is asked.
fn last_is(asked: Asked, last: Option<&Tree>) -> bool
    ensures { result ≡ on_last (asked_of asked) (option_map (λ x. x.now) last.entry) }
{
    match last {
        Some(tree) => is(asked, tree),
        None => false,
    }
}

// Whether one of these elements, or the last one, is what is asked.
fn some_among(asked: Asked, before: &[Element], last: Option<&Tree>) -> bool
    ensures { result ≡ (list_any (λ e. asked_of asked e.tree) before.now
        || on_last (asked_of asked) (option_map (λ x. x.now) last.entry)) }
{
    any(asked, before) || last_is(asked, last)
}

/// Whether an element of a list is what is asked.
pub fn some(asked: Asked, tree: &Tree) -> bool
    ensures { result ≡ some (asked_of asked) tree.now }
{
    match tree.list() {
        Some((before, last)) => some_among(asked, before, last),
        None => false,
    }
}

/// Whether no element that a mark follows is what is asked.
pub fn none_separated(asked: Asked, tree: &Tree) -> bool
    ensures { result ≡ each_separated (λ x. not (asked_of asked x)) tree.now }
{
    match tree.list() {
        Some((before, _)) => !any(asked, before),
        None => true,
    }
}

// Whether no element but the first is what is asked.
fn none_but_first(asked: Asked, tree: &Tree) -> bool
    ensures { result ≡ each_but_first (λ x. not (asked_of asked x)) tree.now }
{
    match tree.list() {
        Some((before, last)) => match before.split_first() {
            Some((_, others)) => !some_among(asked, others, last),
            None => true,
        },
        None => true,
    }
}

// Whether no element but the last is what is asked.
fn none_but_last(asked: Asked, tree: &Tree) -> bool
    ensures { result ≡ each_but_last (λ x. not (asked_of asked x)) tree.now }
{
    match tree.list() {
        Some((before, Some(_))) => !any(asked, before),
        Some((before, None)) => match before.split_last() {
            Some((_, others)) => !any(asked, others),
            None => true,
        },
        None => true,
    }
}

/// Whether parameters stand as they may: a receiver at most in the first place, and `...` at most in the last.
pub fn are_parameters(tree: &Tree) -> bool
    ensures { result ≡ are_parameters tree.now }
{
    none_but_first(Asked::Receiver, tree) && none_but_last(Asked::Variadic, tree)
}
