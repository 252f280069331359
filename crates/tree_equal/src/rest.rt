//! What is left to be compared of two trees, once what they are made of has been looked at.

ghost use Rattle.tree_equal.specs.Rest.{Decides};
ghost use Rattle.tree_equal.specs.declared.rest.Rest.TheVariants as rest;
ghost use Rattle.reader_table.specs.Kinds.{kind_of};
ghost use Rattle.reader_table.specs.Ops.{separator_of};
ghost use Rattle.reader_table.specs.Parts.{part_of};
ghost use Rattle.reader_table.specs.Words.{sign_text};
ghost use Rattle.reader_tree.specs.Forms.{elements as listed, ending, mark_of, seconds, turns as in_turn};
ghost use Rattle.rust_leaf.specs.Leaf.{ident_text, literal_text};
ghost use Rattle.std.specs.Prelude.{◌≡◌, ◌↔◌, ◌⊎◌, IsTrue, [], cond, false, map};
ghost use Rattle.syn_buffer.specs.Entries.{entry_token};
ghost use Rattle.syn_grammar.specs.Tree as t;

use crate::leaf::{
    same_delimiter, same_literal, same_separator, same_sign, same_spacing, same_tokens, same_word,
};
use proc_macro2::delimiter::Delimiter;
use reader_table::kind::Kind;
use reader_table::part::Part;
use reader_table::same::{same_kind, same_part};
use reader_table::word::Sign;
use reader_tree::tree::{Form, Separated, Three, Tree, Two};
use rust_leaf::ident::Ident;
use rust_leaf::literal::Literal;
use rust_leaf::punct::Spacing;
use syn_buffer::entry::Entry;

/// What is left to be compared of two trees.
#[derive(Clone, Copy)]
pub(crate) enum Rest<'t, 'a> {
    /// Nothing: whether they are one.
    Told(bool),
    /// A tree of each.
    One(&'t Tree<'a>, &'t Tree<'a>),
    /// A tree of each, and another one of each, which may be as deep as a chain is long.
    Two(&'t Tree<'a>, &'t Tree<'a>, &'t Tree<'a>, &'t Tree<'a>),
    /// A tree of each, a second one, and a third, which may be as deep as a chain is long.
    Three(&'t Tree<'a>, &'t Tree<'a>, &'t Tree<'a>, &'t Tree<'a>, &'t Tree<'a>, &'t Tree<'a>),
    /// Turns.
    Turns(&'t [Tree<'a>], &'t [Tree<'a>]),
    /// Elements, and a last one.
    Elements(&'t Separated<'a>, &'t Separated<'a>),
}

// A tree of each is left, if what holds them is one.
fn one<'t, 'a>(same: bool, x: &'t Tree<'a>, y: &'t Tree<'a>) -> Rest<'t, 'a>
    ensures { result ≡ cond same (rest.One x.entry y.entry) (rest.Told false) }
{
    if same {
        Rest::One(x, y)
    } else {
        Rest::Told(false)
    }
}

// A word and a tree are one.
fn is_word(ident: &Ident, tree: &Tree<'_>) -> bool
    ensures { IsTrue result ↔ (t.AWord (ident_text ident.now) ≡ tree.now) }
{
    match &tree.form {
        Form::Word(other) => same_word(ident, other),
        _ => false,
    }
}

// A literal and a tree are one.
fn is_literal(literal: &Literal, tree: &Tree<'_>) -> bool
    ensures { IsTrue result ↔ (t.ALiteral (literal_text literal.now) ≡ tree.now) }
{
    match &tree.form {
        Form::Literal(other) => same_literal(literal, other),
        _ => false,
    }
}

// A punctuation and a tree are one.
fn is_mark(sign: Sign, spacing: Spacing, tree: &Tree<'_>) -> bool
    ensures { IsTrue result ↔ (mark_of (sign_text sign) spacing ≡ tree.now) }
{
    match &tree.form {
        Form::Mark(other, space, _) => same_sign(sign, *other) && same_spacing(spacing, *space),
        _ => false,
    }
}

// A lifetime and a tree are one.
fn is_lifetime(ident: &Ident, tree: &Tree<'_>) -> bool
    ensures { IsTrue result ↔ (t.ALifetime (ident_text ident.now) ≡ tree.now) }
{
    match &tree.form {
        Form::Lifetime(other) => same_word(ident, other.ident),
        _ => false,
    }
}

// Tokens that are kept as they are and a tree are one.
fn is_raw(entries: &[Entry<'_>], tree: &Tree<'_>) -> bool
    ensures { IsTrue result ↔ (t.Raw (map entry_token entries.now) ≡ tree.now) }
{
    match &tree.form {
        Form::Raw(others) => same_tokens(entries, others.entries),
        _ => false,
    }
}

// No token and a tree are one.
fn is_nil(tree: &Tree<'_>) -> bool
    ensures { IsTrue result ↔ (t.Nil ≡ tree.now) }
{
    match &tree.form {
        Form::Nil => true,
        _ => false,
    }
}

// Of a pair and a tree.
fn pair<'t, 'a>(two: &'t Two<'a>, tree: &'t Tree<'a>) -> Rest<'t, 'a>
    ensures { Decides (t.Pair two.now.front two.now.back) tree.now result }
{
    match &tree.form {
        Form::Pair(other) => Rest::Two(&two.front, &other.front, &two.back, &other.back),
        _ => Rest::Told(false),
    }
}

// Of a choice that is the first behind so many seconds, and a tree.
fn first<'t, 'a>(depth: u32, inner: &'t Tree<'a>, tree: &'t Tree<'a>) -> Rest<'t, 'a>
    ensures { Decides (seconds depth (t.First inner.now)) tree.now result }
{
    match &tree.form {
        Form::First(other, y) => {
            if depth == *other {
                Rest::One(inner, y)
            } else {
                Rest::Told(false)
            }
        }
        Form::Second(other, y) => {
            if *other < depth {
                first(depth - *other - 1, inner, y)
            } else {
                Rest::Told(false)
            }
        }
        _ => Rest::Told(false),
    }
}

// Of a choice that is the second, and behind it so many seconds, and a tree.
fn second<'t, 'a>(depth: u32, inner: &'t Tree<'a>, tree: &'t Tree<'a>) -> Rest<'t, 'a>
    ensures { Decides (t.Second (seconds depth inner.now)) tree.now result }
{
    match &tree.form {
        Form::First(other, y) => {
            if depth < *other {
                first(*other - depth - 1, y, inner)
            } else {
                Rest::Told(false)
            }
        }
        Form::Second(other, y) => {
            if depth == *other {
                Rest::One(inner, y)
            } else if depth < *other {
                second(*other - depth - 1, y, inner)
            } else {
                second(depth - *other - 1, inner, y)
            }
        }
        _ => Rest::Told(false),
    }
}

// There are neither turns nor elements.
fn are_none(turns: &[Tree<'_>], list: &Separated<'_>) -> bool
    ensures { IsTrue result
        ↔ ((turns.now ≡ []) × (list.now.before.now ≡ []) × (ending (λ x. x.now) list.now.last ≡ t.End)) }
{
    turns.is_empty() && list.before.is_empty() && list.last.is_none()
}

// No element stands before the last, or the marks behind them are the same.
fn are_alike(list: &Separated<'_>, other: &Separated<'_>) -> bool
    ensures { IsTrue result
        ↔ ((list.now.before.now ≡ []) ⊎ (separator_of list.now.separator ≡ separator_of other.now.separator)) }
{
    list.before.is_empty() || same_separator(list.separator, other.separator)
}

// No turn.
fn no_turn<'t, 'a>() -> &'t [Tree<'a>]
    ensures { result.now ≡ [] }
{
    &[]
}

// Of turns and a tree.
fn turns<'t, 'a>(turns: &'t [Tree<'a>], tree: &'t Tree<'a>) -> Rest<'t, 'a>
    ensures { Decides (in_turn turns.now) tree.now result }
{
    match &tree.form {
        Form::End => Rest::Turns(turns, no_turn()),
        Form::Turns(others) => Rest::Turns(turns, others.each),
        Form::Elements(list) => Rest::Told(are_none(turns, list)),
        _ => Rest::Told(false),
    }
}

// Of elements and a tree.
fn elements<'t, 'a>(list: &'t Separated<'a>, tree: &'t Tree<'a>) -> Rest<'t, 'a>
    ensures { Decides (listed (separator_of list.now.separator) list.now.before.now (ending (λ x. x.now) list.now.last))
        tree.now result }
{
    match &tree.form {
        Form::Elements(other) => {
            if are_alike(list, other) {
                Rest::Elements(list, other)
            } else {
                Rest::Told(false)
            }
        }
        Form::End => Rest::Told(are_none(no_turn(), list)),
        Form::Turns(turns) => Rest::Told(are_none(turns.each, list)),
        _ => Rest::Told(false),
    }
}

// Of a group and a tree.
fn group<'t, 'a>(delimiter: Delimiter, inner: &'t Tree<'a>, tree: &'t Tree<'a>) -> Rest<'t, 'a>
    ensures { Decides (t.Group delimiter inner.now) tree.now result }
{
    match &tree.form {
        Form::Group(other, group) => one(same_delimiter(delimiter, *other), inner, &group.inside),
        _ => Rest::Told(false),
    }
}

// Of what is no part of the program and a tree.
fn dropped<'t, 'a>(inner: &'t Tree<'a>, tree: &'t Tree<'a>) -> Rest<'t, 'a>
    ensures { Decides (t.Dropped inner.now) tree.now result }
{
    match &tree.form {
        Form::Dropped(y) => Rest::One(inner, y),
        _ => Rest::Told(false),
    }
}

// Of a part and a tree.
fn called<'t, 'a>(part: Part, inner: &'t Tree<'a>, tree: &'t Tree<'a>) -> Rest<'t, 'a>
    ensures { Decides (t.Called (part_of part) inner.now) tree.now result }
{
    match &tree.form {
        Form::Called(other, y) => one(same_part(part, *other), inner, y),
        _ => Rest::Told(false),
    }
}

// Of what is kept as tokens and a tree.
fn verbatim<'t, 'a>(inner: &'t Tree<'a>, tree: &'t Tree<'a>) -> Rest<'t, 'a>
    ensures { Decides (t.Verbatim inner.now) tree.now result }
{
    match &tree.form {
        Form::Verbatim(y) => Rest::One(inner, y),
        _ => Rest::Told(false),
    }
}

// Of a node and a tree.
fn node<'t, 'a>(kind: Kind, inner: &'t Tree<'a>, tree: &'t Tree<'a>) -> Rest<'t, 'a>
    ensures { Decides (t.Node (kind_of kind) inner.now) tree.now result }
{
    match &tree.form {
        Form::Node(other, y) => one(same_kind(kind, *other), inner, y),
        _ => Rest::Told(false),
    }
}

// Of an expression and a tree.
fn whole<'t, 'a>(inner: &'t Tree<'a>, tree: &'t Tree<'a>) -> Rest<'t, 'a>
    ensures { Decides (t.Whole inner.now) tree.now result }
{
    match &tree.form {
        Form::Whole(y) => Rest::One(inner, y),
        _ => Rest::Told(false),
    }
}

// Of a form without operands and a tree.
fn alone<'t, 'a>(kind: Kind, inner: &'t Tree<'a>, tree: &'t Tree<'a>) -> Rest<'t, 'a>
    ensures { Decides (t.Alone (kind_of kind) inner.now) tree.now result }
{
    match &tree.form {
        Form::Alone(other, y) => one(same_kind(kind, *other), inner, y),
        _ => Rest::Told(false),
    }
}

// Of a form with an operand behind it and a tree.
fn front<'t, 'a>(kind: Kind, two: &'t Two<'a>, tree: &'t Tree<'a>) -> Rest<'t, 'a>
    ensures { Decides (t.Front (kind_of kind) two.now.front two.now.back) tree.now result }
{
    match &tree.form {
        Form::Front(other, y) => {
            if same_kind(kind, *other) {
                Rest::Two(&two.front, &y.front, &two.back, &y.back)
            } else {
                Rest::Told(false)
            }
        }
        _ => Rest::Told(false),
    }
}

// Of a form with an operand before it and a tree.
fn back<'t, 'a>(kind: Kind, two: &'t Two<'a>, tree: &'t Tree<'a>) -> Rest<'t, 'a>
    ensures { Decides (t.Back two.now.front (kind_of kind) two.now.back) tree.now result }
{
    match &tree.form {
        Form::Back(other, y) => {
            if same_kind(kind, *other) {
                Rest::Two(&two.back, &y.back, &two.front, &y.front)
            } else {
                Rest::Told(false)
            }
        }
        _ => Rest::Told(false),
    }
}

// Of a form with an operand on either side and a tree.
fn infix<'t, 'a>(kind: Kind, three: &'t Three<'a>, tree: &'t Tree<'a>) -> Rest<'t, 'a>
    ensures { Decides (t.Infix three.now.left (kind_of kind) three.now.own three.now.right) tree.now result }
{
    match &tree.form {
        Form::Infix(other, y) => {
            if same_kind(kind, *other) {
                Rest::Three(
                    &three.own,
                    &y.own,
                    &three.right,
                    &y.right,
                    &three.left,
                    &y.left,
                )
            } else {
                Rest::Told(false)
            }
        }
        _ => Rest::Told(false),
    }
}

/// What is left to be compared of two trees.
pub(crate) fn left<'t, 'a>(a: &'t Tree<'a>, b: &'t Tree<'a>) -> Rest<'t, 'a>
    ensures { Decides a.now b.now result }
{
    match &a.form {
        Form::Word(ident) => Rest::Told(is_word(ident, b)),
        Form::Literal(literal) => Rest::Told(is_literal(literal, b)),
        Form::Mark(sign, spacing, _) => Rest::Told(is_mark(*sign, *spacing, b)),
        Form::Lifetime(lifetime) => Rest::Told(is_lifetime(lifetime.ident, b)),
        Form::Raw(kept) => Rest::Told(is_raw(kept.entries, b)),
        Form::Nil => Rest::Told(is_nil(b)),
        Form::Pair(two) => pair(two, b),
        Form::First(depth, inner) => first(*depth, inner, b),
        Form::Second(depth, inner) => second(*depth, inner, b),
        Form::End => turns(no_turn(), b),
        Form::Turns(trees) => turns(trees.each, b),
        Form::Elements(list) => elements(list, b),
        Form::Group(delimiter, enclosed) => group(*delimiter, &enclosed.inside, b),
        Form::Dropped(inner) => dropped(inner, b),
        Form::Called(part, inner) => called(*part, inner, b),
        Form::Verbatim(inner) => verbatim(inner, b),
        Form::Node(kind, inner) => node(*kind, inner, b),
        Form::Whole(inner) => whole(inner, b),
        Form::Alone(kind, inner) => alone(*kind, inner, b),
        Form::Front(kind, two) => front(*kind, two, b),
        Form::Back(kind, two) => back(*kind, two, b),
        Form::Infix(kind, three) => infix(*kind, three, b),
    }
}
