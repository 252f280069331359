//! Bounds as trees.

ghost use Rattle.std.specs.Prelude.{◌≡◌, IfOk, MatchOption};
ghost use Rattle.syn_ast.specs.TypeBounds.{some_bounds, trait_bound, trait_front, type_param_bound};
ghost use Rattle.syn_made.specs.MadeAst.{IsTraitFront, IsWholeBound};

use crate::forms::{Called, First, Second};
use crate::put::{node, some_node};
use crate::to_tree::ToTree;
use crate::try_to_tree::TryToTree;
use reader_table::kind::Kind;
use reader_table::part::Part;
use reader_tree::arena::Arena;
use reader_tree::tree::Tree;
use std::alloc::AllocError;
use syn_ast::bounds::{SomeBounds, TraitBound, TraitBoundModifier, TypeParamBound};

// What stands before a trait's path, if it is not both `?` and lifetimes.
fn trait_front<'a>(
    arena: &'a Arena,
    modifier: TraitBoundModifier,
    lifetimes: Option<&Tree<'a>>,
) -> Result<Option<Tree<'a>>, AllocError>
    ensures { IfOk result (λ o. MatchOption o (IsTraitFront modifier lifetimes.entry → ⊥)
        (λ x. IsTraitFront modifier lifetimes.entry × (x ≡ trait_front modifier lifetimes.entry))) }
{
    match (modifier, lifetimes) {
        (TraitBoundModifier::Maybe(mark), None) => First(mark).to_some_tree(arena),
        (TraitBoundModifier::Maybe(_), Some(_)) => Ok(None),
        (TraitBoundModifier::None, lifetimes) => Second(lifetimes).to_some_tree(arena),
    }
}

impl<'t, 'a> TryToTree<'a> for TraitBound<'t, 'a> {
    ghost says = { λ x tree. IsTraitFront x.modifier x.lifetimes × (tree ≡ trait_bound x) };

    fn try_to_tree(&self, arena: &'a Arena) -> Result<Option<Tree<'a>>, AllocError> {
        match trait_front(arena, self.modifier, self.lifetimes)? {
            Some(front) => some_node(arena, Kind::TraitPath, &(&front, self.path)),
            None => Ok(None),
        }
    }
}

impl<'t, 'a> TryToTree<'a> for TypeParamBound<'t, 'a> {
    ghost says = { λ x tree. IsWholeBound x × (tree ≡ type_param_bound x) };

    fn try_to_tree(&self, arena: &'a Arena) -> Result<Option<Tree<'a>>, AllocError> {
        match self {
            TypeParamBound::Lifetime(lifetime) => some_node(arena, Kind::Bound, &First(*lifetime)),
            TypeParamBound::Trait(found) => match found.try_to_tree(arena)? {
                Some(path) => { some_node(arena, Kind::Bound, &Second(Called(Part::Path, &path))) }
                None => Ok(None),
            },
        }
    }
}

impl<'t, 'a> ToTree<'a> for SomeBounds<'t, 'a> {
    ghost tree = { some_bounds };

    fn to_tree(&self, arena: &'a Arena) -> Result<Tree<'a>, AllocError> {
        node(arena, Kind::SomeBounds, &First(self.bounds))
    }
}
