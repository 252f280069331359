//! Visibilities.

ghost use Rattle.proc_macro2.specs.Token.{Token};
ghost use Rattle.proc_macro2.specs.declared.delimiter.Delimiter.{Delimiter as GivenDelimiter};
ghost use Rattle.std.specs.Prelude.{◌≡◌, MatchOption, Bool, List, ℕ};
ghost use Rattle.syn_ast.specs.Visibility.{restriction_tree, visibility};
ghost use Rattle.syn_grammar.specs.Gram as g;
ghost use Rattle.syn_grammar.specs.Kind as k;
ghost use Rattle.syn_grammar.specs.Name as n;
ghost use Rattle.syn_grammar.specs.Tree as t;
ghost use Rattle.syn_part.specs.Leaves.{optional_tree, word_tree};
ghost use Rattle.syn_part.specs.Shape.{IsShaped};

use reader_table::kind::Kind;
use reader_table::part::Part;
use reader_tree::tree::Tree;
use rust_leaf::ident::Ident;
use syn_part::inside;
use syn_part::leaf::Delimiters;
use syn_part::sub::{Worded, as_worded};
use syn_part::take::{self, Choice};

/// Where something is visible.
#[derive(Clone, Copy)]
pub enum RestrictedTo<'t, 'a> {
    /// In what `crate`, `self` or `super` is.
    Keyword(&'a Ident),
    /// `in` and a path, as a form of the kind `Path`.
    Path(Worded<'t, 'a>),
}

/// A restriction of a visibility: `(crate)`, `(in a::b)`.
#[derive(Clone, Copy)]
pub struct Restriction<'t, 'a> {
    /// The parentheses.
    pub paren_token: Delimiters,
    /// What stands in them.
    pub path: RestrictedTo<'t, 'a>,
}

// A restriction, as its parts.
fn as_restriction<'t, 'a>(tree: &'t Tree<'a>) -> Option<Restriction<'t, 'a>>
    ensures { MatchOption result ((test : List Token → Bool) (d e : GivenDelimiter) (p q : List ℕ → Bool) (a : g.Gram)
        → IsShaped tree.now (g.alt test (g.group d (g.seq (g.word p) a)) (g.group e (g.word q))) → ⊥)
        (λ x. tree.now ≡ restriction_tree x) }
{
    let Some(which) = take::chosen(tree) else {
        return None;
    };
    match which {
        Choice::First(inner) => {
            let Some((paren_token, inside)) = take::group(inner) else {
                return None;
            };
            let Some(found) = as_worded(inside) else {
                return None;
            };
            let path = RestrictedTo::Path(found);
            Some(Restriction { paren_token, path })
        }
        Choice::Second(inner) => {
            let Some((paren_token, inside)) = take::group(inner) else {
                return None;
            };
            let Some(word) = take::word(inside) else {
                return None;
            };
            let path = RestrictedTo::Keyword(word);
            Some(Restriction { paren_token, path })
        }
    }
}

// What stands there, if anything does.
fn optional_as_restriction<'t, 'a>(tree: &'t Tree<'a>) -> Option<Option<Restriction<'t, 'a>>>
    ensures { MatchOption result ((there test : List Token → Bool) (d e : GivenDelimiter) (p q : List ℕ → Bool)
        (a : g.Gram) → IsShaped tree.now (g.alt there (g.alt test (g.group d (g.seq (g.word p) a))
        (g.group e (g.word q))) g.nothing) → ⊥)
        (λ x. tree.now ≡ optional_tree restriction_tree x) }
{
    match take::optional(tree) {
        None => None,
        Some(None) => Some(None),
        Some(Some(inner)) => match as_restriction(inner) {
            Some(found) => Some(Some(found)),
            None => None,
        },
    }
}

/// A restricted visibility: `pub(crate)`.
#[derive(Clone, Copy)]
pub struct VisRestricted<'t, 'a> {
    /// `pub`
    pub pub_token: &'a Ident,
    /// The parentheses, and what stands in them.
    pub restriction: Restriction<'t, 'a>,
}

/// A visibility.
#[derive(Clone, Copy)]
pub enum Visibility<'t, 'a> {
    /// `pub`
    Public(&'a Ident),
    /// `pub(crate)`
    Restricted(VisRestricted<'t, 'a>),
    /// None is written.
    Inherited,
}

// pub, by its name as a part.
fn as_pub<'a>(tree: &Tree<'a>) -> Option<&'a Ident>
    ensures { MatchOption result ((p : List ℕ → Bool) → IsShaped tree.now (g.called n.the_pub (g.word p)) → ⊥)
        (λ i. tree.now ≡ t.Called n.the_pub (word_tree i)) }
{
    let Some(inner) = inside::part(Part::Pub, tree) else {
        return None;
    };
    take::word(inner)
}

impl<'t, 'a> Visibility<'t, 'a> {
    // One that is written.
    fn of_written(tree: &'t Tree<'a>) -> Option<Visibility<'t, 'a>>
        ensures { MatchOption result ((o : List ℕ → Bool) (there test : List Token → Bool) (d e : GivenDelimiter)
            (p q : List ℕ → Bool) (a : g.Gram) → IsShaped tree.now (g.seq (g.called n.the_pub (g.word o)) (g.alt there
            (g.alt test (g.group d (g.seq (g.word p) a)) (g.group e (g.word q))) g.nothing)) → ⊥)
            (λ x. t.Node k.Visibility (t.First tree.now) ≡ visibility x) }
    {
        let Some((pub_token, restriction)) = take::pair(tree) else {
            return None;
        };
        let Some(pub_token) = as_pub(pub_token) else {
            return None;
        };
        match optional_as_restriction(restriction) {
            Some(Some(restriction)) => Some(Visibility::Restricted(VisRestricted {
                pub_token,
                restriction,
            })),
            Some(None) => Some(Visibility::Public(pub_token)),
            None => None,
        }
    }

    /// A tree of the kind `Visibility`, as its parts. `None` only of trees that have another shape.
    #[tactic(auto, unfolding(syn_grammar::specs::Table::table))]
    pub fn of(tree: &'t Tree<'a>) -> Option<Visibility<'t, 'a>>
        ensures { MatchOption result (IsShaped tree.now (g.ref k.Visibility) → ⊥) (λ x. tree.now ≡ visibility x) }
    {
        let Some(inner) = inside::node(Kind::Visibility, tree) else {
            return None;
        };
        match take::optional(inner) {
            Some(Some(written)) => Visibility::of_written(written),
            Some(None) => Some(Visibility::Inherited),
            None => None,
        }
    }
}
