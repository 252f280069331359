//! Trees compared.

ghost use Rattle.reader_tree.specs.Forms.{ending};
ghost use Rattle.std.specs.Prelude.{◌≡◌, ◌↔◌, IsTrue};

use crate::leaf::same_spacing;
use crate::rest::{Rest, left as rest_of};
use reader_tree::tree::{Element, Tree};

// Two trees that are compared.
#[derive(Clone, Copy)]
struct Places<'t, 'a> {
    one: &'t Tree<'a>,
    other: &'t Tree<'a>,
}

/// Whether two trees are one, wherever their tokens stand. It ends at the first difference, takes no memory, and goes
/// on to what may be as deep as a chain is long without a call.
#[cycle(equal)]
pub fn equal<'t, 'a>(a: &'t Tree<'a>, b: &'t Tree<'a>) -> bool
    ensures { IsTrue result ↔ (a.now ≡ b.now) }
{
    let mut left = Places { one: a, other: b };
    'tails: loop {
        left = match rest_of(left.one, left.other) {
            Rest::Told(same) => return same,
            Rest::One(one, other) => Places { one, other },
            Rest::Two(x, y, one, other) => {
                if !equal(x, y) {
                    return false;
                }
                Places { one, other }
            }
            Rest::Three(x, y, u, v, one, other) => {
                if !equal(x, y) || !equal(u, v) {
                    return false;
                }
                Places { one, other }
            }
            Rest::Turns(turns, others) => return equal_turns(turns, others),
            Rest::Elements(x, y) => {
                return equal_elements(x.before, y.before) && equal_last(x.last, y.last);
            }
        };
    }
}

// Turns are one.
#[cycle(equal)]
fn equal_turns<'t, 'a>(turns: &'t [Tree<'a>], others: &'t [Tree<'a>]) -> bool
    ensures { IsTrue result ↔ (turns.now ≡ others.now) }
{
    if turns.len() != others.len() {
        return false;
    }
    for (index, turn) in turns.iter().enumerate() {
        if !equal(turn, &others[index]) {
            return false;
        }
    }
    true
}

// Elements are one, and how the mark behind each is spaced.
#[cycle(equal)]
fn equal_elements<'t, 'a>(elements: &'t [Element<'a>], others: &'t [Element<'a>]) -> bool
    ensures { IsTrue result ↔ (elements.now ≡ others.now) }
{
    if elements.len() != others.len() {
        return false;
    }
    for (index, element) in elements.iter().enumerate() {
        let other = &others[index];
        if !same_spacing(element.spacing.spacing(), other.spacing.spacing())
            || !equal(&element.tree, &other.tree)
        {
            return false;
        }
    }
    true
}

// Last elements are one, if there are any.
#[cycle(equal)]
fn equal_last<'t, 'a>(last: Option<&'t Tree<'a>>, end: Option<&'t Tree<'a>>) -> bool
    ensures { IsTrue result ↔ (ending (λ x. x.now) last.entry ≡ ending (λ x. x.now) end.entry) }
{
    match last {
        Some(x) => match end {
            Some(y) => equal(x, y),
            None => false,
        },
        None => end.is_none(),
    }
}
