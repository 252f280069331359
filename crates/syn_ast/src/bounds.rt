//! Bounds.

ghost use Rattle.proc_macro2.specs.Token.{Token};
ghost use Rattle.std.specs.Prelude.{◌≡◌, MatchOption, Bool, List, ℕ};
ghost use Rattle.syn_ast.specs.TypeBounds.{some_bounds, trait_bound, trait_front, type_param_bound};
ghost use Rattle.syn_grammar.specs.Gram as g;
ghost use Rattle.syn_grammar.specs.Kind as k;
ghost use Rattle.syn_grammar.specs.Name as n;
ghost use Rattle.syn_grammar.specs.Tree as t;
ghost use Rattle.syn_part.specs.Kept.{IsKept};
ghost use Rattle.syn_part.specs.Shape.{IsShaped};

use reader_table::kind::Kind;
use reader_table::part::Part;
use reader_tree::tree::Tree;
use syn_part::inside;
use syn_part::leaf::{Lifetime, Mark};
use syn_part::list::Elements;
use syn_part::take::{self, Choice, Choice3};

/// A bound.
#[derive(Clone, Copy)]
pub enum TypeParamBound<'t, 'a> {
    /// A trait.
    Trait(TraitBound<'t, 'a>),
    /// A lifetime.
    Lifetime(Lifetime<'a>),
}

impl<'t, 'a> TypeParamBound<'t, 'a> {
    /// A tree of the kind `Bound`, as its parts. `None` only of trees that have another shape.
    #[tactic(auto, unfolding(syn_grammar::specs::Table::table))]
    pub fn of(tree: &'t Tree<'a>) -> Option<TypeParamBound<'t, 'a>>
        ensures { MatchOption result (IsShaped tree.now (g.ref k.Bound) → ⊥) (λ x. tree.now ≡ type_param_bound x) }
    {
        let Some(inner) = inside::node(Kind::Bound, tree) else {
            return None;
        };
        let Some(which) = take::chosen(inner) else {
            return None;
        };
        match which {
            Choice::First(inner) => match take::lifetime(inner) {
                Some(found) => Some(TypeParamBound::Lifetime(found)),
                None => None,
            },
            Choice::Second(inner) => match as_trait(inner) {
                Some(found) => Some(TypeParamBound::Trait(found)),
                None => None,
            },
        }
    }
}

// The trait that is a part of the bound.
fn as_trait<'t, 'a>(tree: &'t Tree<'a>) -> Option<TraitBound<'t, 'a>>
    ensures { MatchOption result (IsShaped tree.now (g.called n.the_path (g.ref k.TraitPath)) → ⊥)
        (λ x. tree.now ≡ t.Called n.the_path (trait_bound x)) }
{
    let Some(path) = inside::part(Part::Path, tree) else {
        return None;
    };
    TraitBound::of(path)
}

/// Whether a trait is wanted.
#[derive(Clone, Copy)]
pub enum TraitBoundModifier {
    /// It is.
    None,
    /// `?`: it may be missing.
    Maybe(Mark),
}

/// A trait as a bound: `?A`, `for<'a> A<'a>`.
#[derive(Clone, Copy)]
pub struct TraitBound<'t, 'a> {
    /// `?`
    pub modifier: TraitBoundModifier,
    /// `for<'a>`, as a form of the kind `BoundLifetimes`.
    pub lifetimes: Option<&'t Tree<'a>>,
    /// The trait, as a form of the kind `Path`.
    pub path: &'t Tree<'a>,
}

// What stands before the path.
fn as_trait_front<'t, 'a>(tree: &'t Tree<'a>) -> Option<(TraitBoundModifier, Option<&'t Tree<'a>>)>
    ensures { MatchOption result ((r s : List Token → Bool) (c : ℕ) (cs : List ℕ) (a : g.Gram) → IsShaped tree.now
        (g.alt r (g.mark c cs) (g.alt s a g.nothing)) → ⊥)
        (λ p. tree.now ≡ trait_front p.0 p.1) }
{
    let Some(which) = take::chosen3(tree) else {
        return None;
    };
    match which {
        Choice3::First(inner) => match take::mark(inner) {
            Some(mark) => Some((TraitBoundModifier::Maybe(mark), None)),
            None => None,
        },
        Choice3::Second(inner) => Some((TraitBoundModifier::None, Some(inner))),
        Choice3::Third(inner) => if take::is_nothing(inner) {
            Some((TraitBoundModifier::None, None))
        } else {
            None
        },
    }
}

impl<'t, 'a> TraitBound<'t, 'a> {
    /// A tree of the kind `TraitPath`, as its parts. `None` only of trees that have another shape.
    #[tactic(auto, unfolding(syn_grammar::specs::Table::table))]
    pub fn of(tree: &'t Tree<'a>) -> Option<TraitBound<'t, 'a>>
        ensures { MatchOption result (IsShaped tree.now (g.ref k.TraitPath) → ⊥) (λ x. tree.now ≡ trait_bound x) }
    {
        let Some((front, path)) = inside::pair(Kind::TraitPath, tree) else {
            return None;
        };
        let Some((modifier, lifetimes)) = as_trait_front(front) else {
            return None;
        };
        Some(TraitBound {
            modifier,
            lifetimes,
            path,
        })
    }
}

/// Bounds with `+` between them, of which one at least is a trait.
#[derive(Clone, Copy)]
pub struct SomeBounds<'t, 'a> {
    /// Each, as a form of the kind `Bound`.
    pub bounds: Elements<'t, 'a>,
}

impl<'t, 'a> SomeBounds<'t, 'a> {
    /// A tree of the kind `SomeBounds`, as its parts. `None` only of trees that have another shape, or are
    /// kept as tokens alone. Bounds that were read are never that.
    #[tactic(auto, unfolding(syn_grammar::specs::Table::table))]
    pub fn of(tree: &'t Tree<'a>) -> Option<SomeBounds<'t, 'a>>
        ensures { MatchOption result (IsKept tree.now → IsShaped tree.now (g.ref k.SomeBounds) → ⊥)
            (λ x. tree.now ≡ some_bounds x) }
    {
        let Some(inner) = inside::kept(Kind::SomeBounds, tree) else {
            return None;
        };
        let Some(bounds) = take::list(inner) else {
            return None;
        };
        Some(SomeBounds { bounds })
    }
}
