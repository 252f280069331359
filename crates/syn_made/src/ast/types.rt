//! Types as trees.

ghost use Rattle.std.specs.Prelude.{◌≡◌, ◌↔◌, IsTrue};
ghost use Rattle.syn_ast.specs.Types.{abi, any_path, argument_name_tree, bound_lifetimes, fn_ptr_arg};
ghost use Rattle.syn_ast.specs.Types.{pointer_mutability, return_type, type_array, type_bounds, type_bracketed};
ghost use Rattle.syn_ast.specs.Types.{type_fn_ptr, type_impl_trait, type_infer, type_never, type_paren};
ghost use Rattle.syn_ast.specs.Types.{type_parenthesized, type_path, type_ptr, type_reference, type_slice};
ghost use Rattle.syn_ast.specs.Types.{type_trait_object, type_tree, type_tuple};
ghost use Rattle.syn_made.specs.MadeAst.{AreBounds, IsTuple, IsWholeType};

use crate::forms::{Called, First, Grouped, Second};
use crate::lists::Only;
use crate::put::{behind, node, nth, some_node};
use crate::to_tree::ToTree;
use crate::try_to_tree::TryToTree;
use reader_table::kind::{Kind, Plus};
use reader_table::part::Part;
use reader_tree::arena::Arena;
use reader_tree::tree::Tree;
use std::alloc::AllocError;
use syn_ast::types::{
    Abi, AnyPath, ArgumentName, BoundLifetimes, FnPtrArg, PointerMutability, ReturnType, Type,
    TypeArray, TypeBounds, TypeBracketed, TypeFnPtr, TypeImplTrait, TypeInfer, TypeNever,
    TypeParen, TypeParenthesized, TypePath, TypePtr, TypeReference, TypeSlice, TypeTraitObject,
    TypeTuple,
};

impl<'a> ToTree<'a> for PointerMutability<'a> {
    ghost tree = { pointer_mutability };

    fn to_tree(&self, arena: &'a Arena) -> Result<Tree<'a>, AllocError> {
        match *self {
            PointerMutability::Const(word) => nth(arena, 0, &word),
            PointerMutability::Mut(word) => behind(arena, 1, &word),
        }
    }
}

impl<'t, 'a> ToTree<'a> for TypeBounds<'t, 'a> {
    ghost tree = { type_bounds };

    fn to_tree(&self, arena: &'a Arena) -> Result<Tree<'a>, AllocError> {
        match *self {
            TypeBounds::Several(bounds) => Called(Part::Bounds, bounds).to_tree(arena),
            TypeBounds::One(bound) => behind(arena, 1, &bound),
        }
    }
}

impl<'t, 'a> ToTree<'a> for TypePtr<'t, 'a> {
    ghost tree = { type_ptr };

    fn to_tree(&self, arena: &'a Arena) -> Result<Tree<'a>, AllocError> {
        let inside = (self.star_token, self.mutability, self.elem);
        node(arena, Kind::PointerType, &inside)
    }
}

impl<'t, 'a> ToTree<'a> for TypeReference<'t, 'a> {
    ghost tree = { type_reference };

    fn to_tree(&self, arena: &'a Arena) -> Result<Tree<'a>, AllocError> {
        let inside = (self.and_token, self.lifetime, self.mutability, self.elem);
        node(arena, Kind::ReferenceType, &inside)
    }
}

impl<'a> ToTree<'a> for TypeNever {
    ghost tree = { type_never };

    fn to_tree(&self, arena: &'a Arena) -> Result<Tree<'a>, AllocError> {
        node(arena, Kind::NeverType, &self.bang_token)
    }
}

impl<'a> ToTree<'a> for TypeInfer<'a> {
    ghost tree = { type_infer };

    fn to_tree(&self, arena: &'a Arena) -> Result<Tree<'a>, AllocError> {
        node(arena, Kind::InferType, &self.underscore_token)
    }
}

impl<'t, 'a> ToTree<'a> for TypeFnPtr<'t, 'a> {
    ghost tree = { type_fn_ptr };

    fn to_tree(&self, arena: &'a Arena) -> Result<Tree<'a>, AllocError> {
        let inputs = Grouped(self.paren_token, self.inputs);
        let behind = (self.fn_token, inputs, self.output);
        let inside = (self.lifetimes, self.unsafety, self.abi, behind);
        node(arena, Kind::FnPtrType, &inside)
    }
}

impl<'a> ToTree<'a> for ArgumentName<'a> {
    ghost tree = { argument_name_tree };

    fn to_tree(&self, arena: &'a Arena) -> Result<Tree<'a>, AllocError> {
        (self.ident, self.colon_token).to_tree(arena)
    }
}

impl<'t, 'a> ToTree<'a> for FnPtrArg<'t, 'a> {
    ghost tree = { fn_ptr_arg };

    fn to_tree(&self, arena: &'a Arena) -> Result<Tree<'a>, AllocError> {
        node(arena, Kind::FnPtrArg, &(self.attrs, self.name, self.ty))
    }
}

impl<'a> ToTree<'a> for Abi<'a> {
    ghost tree = { abi };

    fn to_tree(&self, arena: &'a Arena) -> Result<Tree<'a>, AllocError> {
        node(arena, Kind::Abi, &(self.extern_token, self.name))
    }
}

impl<'t, 'a> ToTree<'a> for BoundLifetimes<'t, 'a> {
    ghost tree = { bound_lifetimes };

    fn to_tree(&self, arena: &'a Arena) -> Result<Tree<'a>, AllocError> {
        let inside = (self.for_token, self.lt_token, self.lifetimes, self.gt_token);
        node(arena, Kind::BoundLifetimes, &inside)
    }
}

impl<'t, 'a> ToTree<'a> for ReturnType<'t, 'a> {
    ghost tree = { return_type };

    fn to_tree(&self, arena: &'a Arena) -> Result<Tree<'a>, AllocError> {
        node(arena, Kind::ReturnType(self.plus), &self.ty)
    }
}

impl<'t, 'a> ToTree<'a> for TypeBracketed<'t, 'a> {
    ghost tree = { type_bracketed };

    fn to_tree(&self, arena: &'a Arena) -> Result<Tree<'a>, AllocError> {
        let inside = Grouped(self.bracket_token, (self.elem, self.len));
        node(arena, Kind::BracketType, &inside)
    }
}

impl<'t, 'a> ToTree<'a> for TypeParenthesized<'t, 'a> {
    ghost tree = { type_parenthesized };

    fn to_tree(&self, arena: &'a Arena) -> Result<Tree<'a>, AllocError> {
        node(
            arena,
            Kind::TupleType,
            &Grouped(self.paren_token, self.elems),
        )
    }
}

/// Whether bounds are several where a `+` may stand between them, and one elsewhere.
pub fn are_bounds(plus: Plus, bounds: TypeBounds<'_, '_>) -> bool
    ensures { IsTrue result ↔ AreBounds plus bounds.entry }
{
    match (plus, bounds) {
        (Plus::WithPlus, TypeBounds::Several(_)) => true,
        (Plus::WithPlus, TypeBounds::One(_)) => false,
        (Plus::WithoutPlus, TypeBounds::One(_)) => true,
        (Plus::WithoutPlus, TypeBounds::Several(_)) => false,
    }
}

impl<'t, 'a> TryToTree<'a> for TypeTraitObject<'t, 'a> {
    ghost says = { λ x tree. AreBounds x.plus x.bounds × (tree ≡ type_trait_object x) };

    fn try_to_tree(&self, arena: &'a Arena) -> Result<Option<Tree<'a>>, AllocError> {
        if are_bounds(self.plus, self.bounds) {
            let inside = (self.dyn_token, self.bounds);
            return some_node(arena, Kind::DynType(self.plus), &inside);
        }
        Ok(None)
    }
}

impl<'t, 'a> TryToTree<'a> for TypeImplTrait<'t, 'a> {
    ghost says = { λ x tree. AreBounds x.plus x.bounds × (tree ≡ type_impl_trait x) };

    fn try_to_tree(&self, arena: &'a Arena) -> Result<Option<Tree<'a>>, AllocError> {
        if are_bounds(self.plus, self.bounds) {
            let inside = (self.impl_token, self.bounds);
            return some_node(arena, Kind::ImplType(self.plus), &inside);
        }
        Ok(None)
    }
}

impl<'t, 'a> ToTree<'a> for AnyPath<'t, 'a> {
    ghost tree = { any_path };

    fn to_tree(&self, arena: &'a Arena) -> Result<Tree<'a>, AllocError> {
        match *self {
            AnyPath::Qualified(path) => nth(arena, 0, &path),
            AnyPath::Plain(path) => behind(arena, 1, &path),
        }
    }
}

impl<'t, 'a> ToTree<'a> for TypePath<'t, 'a> {
    ghost tree = { type_path };

    fn to_tree(&self, arena: &'a Arena) -> Result<Tree<'a>, AllocError> {
        node(arena, Kind::AnyPath(self.style), &self.path)
    }
}

impl<'t, 'a> ToTree<'a> for TypeSlice<'t, 'a> {
    ghost tree = { type_slice };

    fn to_tree(&self, arena: &'a Arena) -> Result<Tree<'a>, AllocError> {
        let inside = Grouped(self.bracket_token, (self.elem, Second(())));
        node(arena, Kind::BracketType, &inside)
    }
}

impl<'t, 'a> ToTree<'a> for TypeArray<'t, 'a> {
    ghost tree = { type_array };

    fn to_tree(&self, arena: &'a Arena) -> Result<Tree<'a>, AllocError> {
        let len = First((self.semi_token, Called(Part::Value, self.len)));
        let inside = Grouped(self.bracket_token, (self.elem, len));
        node(arena, Kind::BracketType, &inside)
    }
}

impl<'t, 'a> ToTree<'a> for TypeParen<'t, 'a> {
    ghost tree = { type_paren };

    fn to_tree(&self, arena: &'a Arena) -> Result<Tree<'a>, AllocError> {
        node(
            arena,
            Kind::TupleType,
            &Grouped(self.paren_token, Only(self.elem)),
        )
    }
}

// One type without a comma is in parentheses, and no tuple.
impl<'t, 'a> TryToTree<'a> for TypeTuple<'t, 'a> {
    ghost says = { λ x tree. IsTuple x.elems × (tree ≡ type_tuple x) };

    #[tactic(auto, using(crate::proofs::MadeLists::tuples))]
    fn try_to_tree(&self, arena: &'a Arena) -> Result<Option<Tree<'a>>, AllocError> {
        match self.elems.only() {
            Some(_) => Ok(None),
            None => {
                let inside = Grouped(self.paren_token, self.elems);
                some_node(arena, Kind::TupleType, &inside)
            }
        }
    }
}

impl<'t, 'a> TryToTree<'a> for Type<'t, 'a> {
    ghost says = { λ x tree. IsWholeType x × (tree ≡ type_tree x) };

    fn try_to_tree(&self, arena: &'a Arena) -> Result<Option<Tree<'a>>, AllocError> {
        match *self {
            Type::Array(found) => found.to_some_tree(arena),
            Type::FnPtr(found) => found.to_some_tree(arena),
            Type::ImplTrait(found) => found.try_to_tree(arena),
            Type::Infer(found) => found.to_some_tree(arena),
            Type::Never(found) => found.to_some_tree(arena),
            Type::Paren(found) => found.to_some_tree(arena),
            Type::Path(found) => found.to_some_tree(arena),
            Type::Ptr(found) => found.to_some_tree(arena),
            Type::Reference(found) => found.to_some_tree(arena),
            Type::Slice(found) => found.to_some_tree(arena),
            Type::TraitObject(found) => found.try_to_tree(arena),
            Type::Tuple(found) => found.try_to_tree(arena),
        }
    }
}
