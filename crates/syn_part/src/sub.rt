//! What stands in several types, with a mark or a word in front of it.

ghost use Rattle.proc_macro2.specs.Token.{Token};
ghost use Rattle.std.specs.Prelude.{◌≡◌, MatchOption, Bool, List, ℕ};
ghost use Rattle.syn_grammar.specs.Gram as g;
ghost use Rattle.syn_grammar.specs.Name as n;
ghost use Rattle.syn_part.specs.Leaves.{optional_tree};
ghost use Rattle.syn_part.specs.Shape.{IsShaped};
ghost use Rattle.syn_part.specs.Sub.{lit_tree, marked_bounds_tree, marked_tree, marked_type_tree, marked_value_tree};
ghost use Rattle.syn_part.specs.Sub.{worded_tree};

use crate::leaf::Mark;
use crate::take::{self, Choice};
use crate::{inside, joined};
use reader_table::part::Part;
use reader_tree::tree::Tree;
use rust_leaf::ident::Ident;
use rust_leaf::literal::Literal;

/// A part behind a mark.
#[derive(Clone, Copy)]
pub struct Marked<'t, 'a> {
    /// The mark.
    pub mark: Mark,
    /// The part.
    pub node: &'t Tree<'a>,
}

/// A part behind a mark, as both. `None` only of trees that have another shape.
#[tactic(auto, unfolding(syn_grammar::specs::Table::table))]
pub fn as_marked<'t, 'a>(tree: &'t Tree<'a>) -> Option<Marked<'t, 'a>>
    ensures { MatchOption result ((c1 : ℕ) (cs2 : List ℕ) (a3 : g.Gram) → IsShaped tree.now (g.seq (g.mark c1 cs2) a3)
        → ⊥) (λ x. tree.now ≡ marked_tree x) }
{
    let Some((mark, node)) = take::pair(tree) else {
        return None;
    };
    let Some(mark) = take::mark(mark) else {
        return None;
    };
    Some(Marked { mark, node })
}

/// A part behind a mark, where one stands; `Some(None)` where nothing does. `None` only of trees that have
/// another shape.
#[tactic(auto, unfolding(syn_grammar::specs::Table::table))]
pub fn optional_as_marked<'t, 'a>(tree: &'t Tree<'a>) -> Option<Option<Marked<'t, 'a>>>
    ensures { MatchOption result ((test : List Token → Bool) (c1 : ℕ) (cs2 : List ℕ) (a3 : g.Gram) → IsShaped tree.now
        (g.alt test (g.seq (g.mark c1 cs2) a3) g.nothing) → ⊥)
        (λ x. tree.now ≡ optional_tree marked_tree x) }
{
    match take::optional(tree) {
        None => None,
        Some(None) => Some(None),
        Some(Some(inner)) => match as_marked(inner) {
            Some(found) => Some(Some(found)),
            None => None,
        },
    }
}

/// A part behind a keyword.
#[derive(Clone, Copy)]
pub struct Worded<'t, 'a> {
    /// The keyword.
    pub word: &'a Ident,
    /// The part.
    pub node: &'t Tree<'a>,
}

/// A part behind a keyword, as both. `None` only of trees that have another shape.
#[tactic(auto, unfolding(syn_grammar::specs::Table::table))]
pub fn as_worded<'t, 'a>(tree: &'t Tree<'a>) -> Option<Worded<'t, 'a>>
    ensures { MatchOption result ((p1 : List ℕ → Bool) (a2 : g.Gram) → IsShaped tree.now (g.seq (g.word p1) a2) → ⊥)
        (λ x. tree.now ≡ worded_tree x) }
{
    let Some((word, node)) = take::pair(tree) else {
        return None;
    };
    let Some(word) = take::word(word) else {
        return None;
    };
    Some(Worded { word, node })
}

/// A part behind a keyword, where one stands; `Some(None)` where nothing does. `None` only of trees that have
/// another shape.
#[tactic(auto, unfolding(syn_grammar::specs::Table::table))]
pub fn optional_as_worded<'t, 'a>(tree: &'t Tree<'a>) -> Option<Option<Worded<'t, 'a>>>
    ensures { MatchOption result ((test : List Token → Bool) (p1 : List ℕ → Bool) (a2 : g.Gram) → IsShaped tree.now
        (g.alt test (g.seq (g.word p1) a2) g.nothing) → ⊥)
        (λ x. tree.now ≡ optional_tree worded_tree x) }
{
    match take::optional(tree) {
        None => None,
        Some(None) => Some(None),
        Some(Some(inner)) => match as_worded(inner) {
            Some(found) => Some(Some(found)),
            None => None,
        },
    }
}

/// A value behind a mark.
#[derive(Clone, Copy)]
pub struct MarkedValue<'t, 'a> {
    /// The mark.
    pub mark: Mark,
    /// The value.
    pub node: &'t Tree<'a>,
}

/// A value behind a mark, as both. `None` only of trees that have another shape.
#[tactic(auto, unfolding(syn_grammar::specs::Table::table))]
pub fn as_marked_value<'t, 'a>(tree: &'t Tree<'a>) -> Option<MarkedValue<'t, 'a>>
    ensures { MatchOption result ((c1 : ℕ) (cs2 : List ℕ) (a3 : g.Gram) → IsShaped tree.now (g.seq (g.mark c1 cs2)
        (g.called n.the_value a3)) → ⊥) (λ x. tree.now ≡ marked_value_tree x) }
{
    let Some((mark, node)) = take::pair(tree) else {
        return None;
    };
    let Some((mark, node)) = joined::two(take::mark(mark), inside::part(Part::Value, node)) else {
        return None;
    };
    Some(MarkedValue { mark, node })
}

/// A value behind a mark, where one stands; `Some(None)` where nothing does. `None` only of trees that have
/// another shape.
#[tactic(auto, unfolding(syn_grammar::specs::Table::table))]
pub fn optional_as_marked_value<'t, 'a>(tree: &'t Tree<'a>) -> Option<Option<MarkedValue<'t, 'a>>>
    ensures { MatchOption result ((test : List Token → Bool) (c1 : ℕ) (cs2 : List ℕ) (a3 : g.Gram) → IsShaped tree.now
        (g.alt test (g.seq (g.mark c1 cs2) (g.called n.the_value a3)) g.nothing) → ⊥)
        (λ x. tree.now ≡ optional_tree marked_value_tree x) }
{
    match take::optional(tree) {
        None => None,
        Some(None) => Some(None),
        Some(Some(inner)) => match as_marked_value(inner) {
            Some(found) => Some(Some(found)),
            None => None,
        },
    }
}

/// A type behind a mark.
#[derive(Clone, Copy)]
pub struct MarkedType<'t, 'a> {
    /// The mark.
    pub mark: Mark,
    /// The type.
    pub node: &'t Tree<'a>,
}

/// A type behind a mark, as both. `None` only of trees that have another shape.
#[tactic(auto, unfolding(syn_grammar::specs::Table::table))]
pub fn as_marked_type<'t, 'a>(tree: &'t Tree<'a>) -> Option<MarkedType<'t, 'a>>
    ensures { MatchOption result ((c1 : ℕ) (cs2 : List ℕ) (a3 : g.Gram) → IsShaped tree.now (g.seq (g.mark c1 cs2)
        (g.called n.the_type a3)) → ⊥) (λ x. tree.now ≡ marked_type_tree x) }
{
    let Some((mark, node)) = take::pair(tree) else {
        return None;
    };
    let Some((mark, node)) = joined::two(take::mark(mark), inside::part(Part::Type, node)) else {
        return None;
    };
    Some(MarkedType { mark, node })
}

/// A type behind a mark, where one stands; `Some(None)` where nothing does. `None` only of trees that have
/// another shape.
#[tactic(auto, unfolding(syn_grammar::specs::Table::table))]
pub fn optional_as_marked_type<'t, 'a>(tree: &'t Tree<'a>) -> Option<Option<MarkedType<'t, 'a>>>
    ensures { MatchOption result ((test : List Token → Bool) (c1 : ℕ) (cs2 : List ℕ) (a3 : g.Gram) → IsShaped tree.now
        (g.alt test (g.seq (g.mark c1 cs2) (g.called n.the_type a3)) g.nothing) → ⊥)
        (λ x. tree.now ≡ optional_tree marked_type_tree x) }
{
    match take::optional(tree) {
        None => None,
        Some(None) => Some(None),
        Some(Some(inner)) => match as_marked_type(inner) {
            Some(found) => Some(Some(found)),
            None => None,
        },
    }
}

/// Bounds behind a mark.
#[derive(Clone, Copy)]
pub struct MarkedBounds<'t, 'a> {
    /// The mark.
    pub mark: Mark,
    /// The bounds.
    pub node: &'t Tree<'a>,
}

/// Bounds behind a mark, as both. `None` only of trees that have another shape.
#[tactic(auto, unfolding(syn_grammar::specs::Table::table))]
pub fn as_marked_bounds<'t, 'a>(tree: &'t Tree<'a>) -> Option<MarkedBounds<'t, 'a>>
    ensures { MatchOption result ((c1 : ℕ) (cs2 : List ℕ) (a3 : g.Gram) → IsShaped tree.now (g.seq (g.mark c1 cs2)
        (g.called n.the_bounds a3)) → ⊥) (λ x. tree.now ≡ marked_bounds_tree x) }
{
    let Some((mark, node)) = take::pair(tree) else {
        return None;
    };
    let Some((mark, node)) = joined::two(take::mark(mark), inside::part(Part::Bounds, node)) else {
        return None;
    };
    Some(MarkedBounds { mark, node })
}

/// Bounds behind a mark, where they stand; `Some(None)` where nothing does. `None` only of trees that have
/// another shape.
#[tactic(auto, unfolding(syn_grammar::specs::Table::table))]
pub fn optional_as_marked_bounds<'t, 'a>(tree: &'t Tree<'a>) -> Option<Option<MarkedBounds<'t, 'a>>>
    ensures { MatchOption result ((test : List Token → Bool) (c1 : ℕ) (cs2 : List ℕ) (a3 : g.Gram) → IsShaped tree.now
        (g.alt test (g.seq (g.mark c1 cs2) (g.called n.the_bounds a3)) g.nothing) → ⊥)
        (λ x. tree.now ≡ optional_tree marked_bounds_tree x) }
{
    match take::optional(tree) {
        None => None,
        Some(None) => Some(None),
        Some(Some(inner)) => match as_marked_bounds(inner) {
            Some(found) => Some(Some(found)),
            None => None,
        },
    }
}

/// A literal, or a truth value.
#[derive(Clone, Copy)]
pub enum Lit<'a> {
    /// A literal that is one token: a number, a character or a string.
    Token(&'a Literal),
    /// `true` or `false`
    Bool(&'a Ident),
}

/// A literal, or a truth value. `None` only of trees that have another shape.
pub fn as_lit<'a>(tree: &Tree<'a>) -> Option<Lit<'a>>
    ensures { MatchOption result ((test : List Token → Bool) (p q : List ℕ → Bool)
        → IsShaped tree.now (g.alt test (g.literal p) (g.word q)) → ⊥)
        (λ l. tree.now ≡ lit_tree l) }
{
    let Some(which) = take::chosen(tree) else {
        return None;
    };
    match which {
        Choice::First(inner) => match take::literal(inner) {
            Some(literal) => Some(Lit::Token(literal)),
            None => None,
        },
        Choice::Second(inner) => match take::word(inner) {
            Some(word) => Some(Lit::Bool(word)),
            None => None,
        },
    }
}
