//! Whether a use has a tree in its braces that begins with `::`.

ghost use Rattle.std.specs.List.{list_any};
ghost use Rattle.std.specs.Prelude.{◌≡◌};
ghost use Rattle.syn_grammar.specs.Kind.{UseRooted, UseTop};
ghost use Rattle.syn_grammar.specs.Tree.{Node};
ghost use Rattle.syn_grammar.specs.Verdicts.{has_root, root_inside};

use reader_table::kind::Kind;
use reader_tree::tree::{Element, Form, Tree};

// Whether a tree in the braces of a use begins with `::`.
#[cycle(roots)]
#[tactic(auto, using(crate::proofs::UseRoots::roots))]
fn has_root(tree: &Tree<'_>) -> bool
    ensures { result ≡ has_root tree.now }
{
    match &tree.form {
        Form::Node(kind, inner) => match kind {
            Kind::UseTop => top_has_root(inner),
            Kind::UseRooted => rooted_has_root(inner),
            _ => false,
        },
        Form::Group(_, group) => has_root(&group.inside),
        Form::Elements(list) => match list.last {
            Some(last) => some_has_root(list.before) || has_root(last),
            None => some_has_root(list.before),
        },
        _ => false,
    }
}

// Whether a tree that may begin with `::` does, or has one in braces that does.
#[cycle(roots)]
#[tactic(auto, using(crate::proofs::UseRoots::tops))]
fn top_has_root(inner: &Tree<'_>) -> bool
    ensures { result ≡ has_root (Node UseTop inner.now) }
{
    match &inner.form {
        Form::First(depth, _) => *depth == 0,
        Form::Second(depth, others) => *depth == 0 && has_root(others),
        _ => false,
    }
}

// Whether one in braces that no path stands before does.
#[cycle(roots)]
#[tactic(auto, using(crate::proofs::UseRoots::braces))]
fn rooted_has_root(inner: &Tree<'_>) -> bool
    ensures { result ≡ has_root (Node UseRooted inner.now) }
{
    match &inner.form {
        Form::First(depth, group) => *depth == 0 && has_root(group),
        _ => false,
    }
}

// Whether one of these elements does.
#[cycle(roots)]
#[tactic(auto, using(crate::proofs::Elements::any_more, crate::proofs::Elements::any_here))]
fn some_has_root(before: &[Element<'_>]) -> bool
    ensures { result ≡ list_any (λ e. has_root e.tree) before.now }
{
    for element in before {
        if has_root(&element.tree) {
            return true;
        }
    }
    false
}

/// Whether behind a use's path a tree in braces begins with `::`.
pub fn root_inside(tree: &Tree<'_>) -> bool
    ensures { result ≡ root_inside tree.now }
{
    match tree.node() {
        Some((kind, inner)) => match kind {
            Kind::UseTop => second_has_root(inner),
            _ => false,
        },
        None => false,
    }
}

// Whether one does where none stands before it all.
#[tactic(auto, using(crate::proofs::UseRoots::seconds_roots))]
fn second_has_root(inner: &Tree<'_>) -> bool
    ensures { result ≡ root_inside (Node UseTop inner.now) }
{
    match &inner.form {
        Form::Second(depth, others) => *depth == 0 && has_root(others),
        _ => false,
    }
}
