//! Names, of which a keyword may stand in the place.

ghost use Rattle.proc_macro2.specs.Token.{Token};
ghost use Rattle.std.specs.Prelude.{◌≡◌, MatchOption, Bool, List, ℕ};
ghost use Rattle.syn_grammar.specs.Gram as g;
ghost use Rattle.syn_part.specs.Leaves.{optional_tree, word_tree};
ghost use Rattle.syn_part.specs.Name.{name_tree, renamed_tree, word_of_name};
ghost use Rattle.syn_part.specs.Shape.{IsShaped};

use crate::joined;
use crate::take::{self, Choice};
use reader_tree::tree::Tree;
use rust_leaf::ident::Ident;

/// A name, or the keyword that may stand in its place.
#[derive(Clone, Copy)]
pub enum Name<'a> {
    /// The keyword.
    Keyword(&'a Ident),
    /// The name.
    Ident(&'a Ident),
}

impl<'a> Name<'a> {
    /// The word, whichever it is.
    pub fn word(self) -> &'a Ident
        ensures { word_tree result ≡ word_of_name self.entry }
    {
        match self {
            Name::Keyword(word) => word,
            Name::Ident(word) => word,
        }
    }
}

/// Which of both words stands there.
pub fn as_name<'a>(tree: &Tree<'a>) -> Option<Name<'a>>
    ensures { MatchOption result ((test : List Token → Bool) (p q : List ℕ → Bool)
        → IsShaped tree.now (g.alt test (g.word p) (g.word q)) → ⊥)
        (λ m. tree.now ≡ name_tree m) }
{
    let Some(which) = take::chosen(tree) else {
        return None;
    };
    match which {
        Choice::First(inner) => match take::word(inner) {
            Some(word) => Some(Name::Keyword(word)),
            None => None,
        },
        Choice::Second(inner) => match take::word(inner) {
            Some(word) => Some(Name::Ident(word)),
            None => None,
        },
    }
}

/// Another name: `as a`.
#[derive(Clone, Copy)]
pub struct Renamed<'a> {
    /// `as`
    pub as_token: &'a Ident,
    /// The name, or `_`.
    pub rename: Name<'a>,
}

/// `as` and another name, as its parts. `None` only of trees that have another shape.
#[tactic(auto, unfolding(syn_grammar::specs::Table::table))]
pub fn as_renamed<'a>(tree: &Tree<'a>) -> Option<Renamed<'a>>
    ensures { MatchOption result ((p1 : List ℕ → Bool) (t2 : List Token → Bool) (p3 : List ℕ → Bool) (q4 : List ℕ
        → Bool) → IsShaped tree.now (g.seq (g.word p1) (g.alt t2 (g.word p3) (g.word q4))) → ⊥)
        (λ x. tree.now ≡ renamed_tree x) }
{
    let Some((as_token, rename)) = take::pair(tree) else {
        return None;
    };
    let Some((as_token, rename)) = joined::two(take::word(as_token), as_name(rename)) else {
        return None;
    };
    Some(Renamed { as_token, rename })
}

/// Another name, where one stands; `Some(None)` where nothing does. `None` only of trees that have another
/// shape.
#[tactic(auto, unfolding(syn_grammar::specs::Table::table))]
pub fn optional_as_renamed<'a>(tree: &Tree<'a>) -> Option<Option<Renamed<'a>>>
    ensures { MatchOption result ((test : List Token → Bool) (p1 : List ℕ → Bool) (t2 : List Token → Bool)
        (p3 : List ℕ → Bool) (q4 : List ℕ → Bool) → IsShaped tree.now (g.alt test (g.seq (g.word p1) (g.alt t2
        (g.word p3) (g.word q4))) g.nothing) → ⊥)
        (λ x. tree.now ≡ optional_tree renamed_tree x) }
{
    match take::optional(tree) {
        None => None,
        Some(None) => Some(None),
        Some(Some(inner)) => match as_renamed(inner) {
            Some(found) => Some(Some(found)),
            None => None,
        },
    }
}
