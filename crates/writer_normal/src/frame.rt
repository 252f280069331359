//! Frames: trees without what they go on with. A tree goes on with its left operand, if it has one, and else with the
//! last of its parts. So along operands that stand one left of the other, along names and along `else if`, what is held
//! is made without a call for each.

use proc_macro2::delimiter::Delimiter;
use reader_table::kind::Kind;
use reader_table::part::Part;
use reader_tree::tree::Tree;
use rust_map::span::Span;

/// A tree without what it goes on with.
#[derive(Clone, Copy)]
pub(crate) enum Frame<'t, 'a> {
    /// Of a pair the one that stands first.
    Pair(&'t Tree<'a>),
    /// Of choices, each the second of the one before it: so many times the second, and then the first.
    First(u32),
    /// The second, and so many times the second.
    Second(u32),
    /// A group: its delimiter, and where it stands.
    Group(Delimiter, Span),
    /// A part, by its name.
    Called(Part),
    /// A node of a kind.
    Node(Kind),
    /// An expression.
    Whole,
    /// A form without operands.
    Alone(Kind),
    /// A form with an operand behind it: its own part.
    Front(Kind, &'t Tree<'a>),
    /// A form with an operand before it: its own part.
    Back(Kind, &'t Tree<'a>),
    /// An infix form: its own part, and its right operand.
    Infix(Kind, &'t Tree<'a>, &'t Tree<'a>),
}

/// What has been begun of a tree.
pub(crate) enum Begun<'t, 'a> {
    /// It goes on with nothing: what is held of it.
    Held(Tree<'a>),
    /// The tree without what it goes on with, and that.
    Within(Frame<'t, 'a>, &'t Tree<'a>),
}
