//! Trees of what was read.

use crate::placed_spacing::PlacedSpacing;
use proc_macro2::delimiter::Delimiter;
use reader_table::kind::Kind;
use reader_table::op::Separator;
use reader_table::part::Part;
use reader_table::word::Sign;
use rust_leaf::ident::Ident;
use rust_leaf::literal::Literal;
use rust_leaf::punct::Spacing;
use rust_map::packed::PackedSpan;
use rust_map::span::Span;
use std::marker::Model;
use syn_buffer::entry::Entry;

/// What was read. To a contract it is the tree of the written grammar; spans are no part of that.
#[cycle(tree)]
#[derive(Drop)]
pub struct Tree<'a> {
    /// What it is made of.
    pub form: Form<'a>,
}

/// Of two the one that stands first, and the one behind it.
#[derive(Drop)]
pub struct Both<T> {
    /// The one that stands first.
    pub front: T,
    /// The one behind it.
    pub back: T,
}

/// Two trees.
pub type Two<'a> = Both<Tree<'a>>;

/// Of what has an operand on either side these, and what stands between them.
#[derive(Drop)]
pub struct Between<T> {
    /// The left operand.
    pub left: T,
    /// What stands between them.
    pub own: T,
    /// The right operand.
    pub right: T,
}

/// An infix form's left operand, its own part, and its right operand.
pub type Three<'a> = Between<Tree<'a>>;

/// An element of a list, and how the mark behind it is spaced, and where that stands.
#[cycle(tree)]
#[derive(Drop)]
pub struct Element<'a> {
    /// The element.
    pub tree: Tree<'a>,
    /// The spacing of the mark behind it, and its place.
    pub spacing: PlacedSpacing,
}

/// Elements with a mark behind each, and a last one that none follows.
#[cycle(tree)]
#[derive(Drop)]
pub struct Separated<'a> {
    /// What stands between them.
    pub separator: Separator,
    /// The elements that a mark follows.
    pub before: &'a [Element<'a>],
    /// The last one, if no mark follows it.
    pub last: Option<&'a Tree<'a>>,
}

/// A lifetime: its `'`, and the word behind it.
#[derive(Drop)]
pub struct Apostrophe<'a> {
    /// Where its `'` stands.
    pub span: Span,
    /// The word behind that.
    pub ident: &'a Ident,
}

/// Tokens that are kept as they are.
#[derive(Drop)]
pub struct Kept<'a> {
    /// Each of them.
    pub entries: &'a [Entry<'a>],
}

/// Turns, one behind the other.
#[cycle(tree)]
#[derive(Drop)]
pub struct InTurn<'a> {
    /// Each of them.
    pub each: &'a [Tree<'a>],
}

/// A group.
#[cycle(tree)]
#[derive(Drop)]
pub struct Enclosed<'a> {
    /// The span of all of it.
    pub span: Span,
    /// Its inside.
    pub inside: Tree<'a>,
}

/// What a tree is made of.
#[cycle(tree)]
#[derive(Drop)]
pub enum Form<'a> {
    /// An identifier or a keyword.
    Word(&'a Ident),
    /// A literal.
    Literal(&'a Literal),
    /// A punctuation, how its last mark is spaced, and where its first mark stands.
    Mark(Sign, Spacing, PackedSpan),
    /// `'` and a word.
    Lifetime(&'a Apostrophe<'a>),
    /// Tokens that are kept as they are.
    Raw(&'a Kept<'a>),
    /// No token.
    Nil,
    /// One, and then the other.
    Pair(&'a Two<'a>),
    /// Of choices, each the second of the one before it: so many times the second, and then the first.
    First(u32, &'a Tree<'a>),
    /// Of choices, each the second of the one before it: the second, and so many times the second.
    Second(u32, &'a Tree<'a>),
    /// No turn, and no element.
    End,
    /// Turns, one behind the other.
    Turns(&'a InTurn<'a>),
    /// Elements that a mark follows each, and a last one that none follows.
    Elements(&'a Separated<'a>),
    /// A group: its delimiter, and what it encloses.
    Group(Delimiter, &'a Enclosed<'a>),
    /// What was read, and is no part of the program.
    Dropped(&'a Tree<'a>),
    /// A part, by its name.
    Called(Part, &'a Tree<'a>),
    /// What was read so, and is kept as tokens.
    Verbatim(&'a Tree<'a>),
    /// A node of a kind.
    Node(Kind, &'a Tree<'a>),
    /// An expression.
    Whole(&'a Tree<'a>),
    /// A form without operands: its own part.
    Alone(Kind, &'a Tree<'a>),
    /// A form with an operand behind it: its own part, and that.
    Front(Kind, &'a Two<'a>),
    /// A form with an operand before it: that, and its own part.
    Back(Kind, &'a Two<'a>),
    /// A form with an operand on either side.
    Infix(Kind, &'a Three<'a>),
}

impl<'a> Model for Tree<'a> {
    ghost use Rattle.syn_grammar.specs.Tree.{Tree};

    ghost Value = { Tree };

    ghost use Prim.Native.Nat.{ℕ};
    ghost use Rattle.std.specs.Prelude.{List};
    ghost use Rattle.std.specs.Coded.{code_by, codes, coded_list};
    ghost use Rattle.reader_tree.specs.Pieces.{Piece, from_pieces, pieces, same_again};

    ghost coded = { code_by (List Piece) (Prim.hlevel codes) pieces from_pieces same_again };

    ghost use Rattle.reader_tree.specs.Forms.{tree_of};

    ghost view = { λ t. tree_of t.form };

    ghost use Rattle.reader_tree.specs.Size.{node_count};

    ghost size = { node_count };

    ghost use Rattle.reader_tree.specs.Falls.{falls};

    ghost size_decreases = { λ t h. falls t };
}
