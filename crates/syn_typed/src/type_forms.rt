//! Forms of types, and what stands in them, that are read by themselves.

ghost use Rattle.reader_table.specs.Kinds.{kind_of};
ghost use Rattle.std.specs.Prelude.{◌≡◌};
ghost use Rattle.syn_ast.specs.Types.{abi, bound_lifetimes, fn_ptr_arg, return_type, type_fn_ptr, type_impl_trait};
ghost use Rattle.syn_ast.specs.Types.{type_bracketed, type_infer, type_never, type_parenthesized, type_path, type_ptr};
ghost use Rattle.syn_ast.specs.Types.{type_reference, type_trait_object};
ghost use Rattle.syn_grammar.specs.Kind as k;

use crate::typed::Parse;
use reader_table::kind::{Kind, Plus, Style};
use reader_tree::tree::Tree;
use syn_ast::types::{
    Abi, BoundLifetimes, FnPtrArg, ReturnType, TypeBracketed, TypeFnPtr, TypeImplTrait, TypeInfer,
    TypeNever, TypeParenthesized, TypePath, TypePtr, TypeReference, TypeTraitObject,
};

impl<'a> Parse<'a> for TypeReference<'a, 'a> {
    ghost kind = { k.ReferenceType };

    ghost says = { λ x tree. tree ≡ type_reference x };

    fn kind() -> Kind
        ensures { kind_of result ≡ k.ReferenceType }
    {
        Kind::ReferenceType
    }

    #[tactic(auto, using(syn_part::proofs::Derived::shaped))]
    fn view(tree: &'a Tree<'a>) -> Option<TypeReference<'a, 'a>> {
        match TypeReference::of(tree) {
            Some(found) => Some(found),
            None => None,
        }
    }
}

impl<'a> Parse<'a> for TypePtr<'a, 'a> {
    ghost kind = { k.PointerType };

    ghost says = { λ x tree. tree ≡ type_ptr x };

    fn kind() -> Kind
        ensures { kind_of result ≡ k.PointerType }
    {
        Kind::PointerType
    }

    #[tactic(auto, using(syn_part::proofs::Derived::shaped))]
    fn view(tree: &'a Tree<'a>) -> Option<TypePtr<'a, 'a>> {
        match TypePtr::of(tree) {
            Some(found) => Some(found),
            None => None,
        }
    }
}

impl<'a> Parse<'a> for TypeNever {
    ghost kind = { k.NeverType };

    ghost says = { λ x tree. tree ≡ type_never x };

    fn kind() -> Kind
        ensures { kind_of result ≡ k.NeverType }
    {
        Kind::NeverType
    }

    #[tactic(auto, using(syn_part::proofs::Derived::shaped))]
    fn view(tree: &'a Tree<'a>) -> Option<TypeNever> {
        match TypeNever::of(tree) {
            Some(found) => Some(found),
            None => None,
        }
    }
}

impl<'a> Parse<'a> for TypeInfer<'a> {
    ghost kind = { k.InferType };

    ghost says = { λ x tree. tree ≡ type_infer x };

    fn kind() -> Kind
        ensures { kind_of result ≡ k.InferType }
    {
        Kind::InferType
    }

    #[tactic(auto, using(syn_part::proofs::Derived::shaped))]
    fn view(tree: &'a Tree<'a>) -> Option<TypeInfer<'a>> {
        match TypeInfer::of(tree) {
            Some(found) => Some(found),
            None => None,
        }
    }
}

impl<'a> Parse<'a> for TypeFnPtr<'a, 'a> {
    ghost kind = { k.FnPtrType };

    ghost says = { λ x tree. tree ≡ type_fn_ptr x };

    fn kind() -> Kind
        ensures { kind_of result ≡ k.FnPtrType }
    {
        Kind::FnPtrType
    }

    #[tactic(auto, using(syn_part::proofs::Derived::shaped))]
    fn view(tree: &'a Tree<'a>) -> Option<TypeFnPtr<'a, 'a>> {
        match TypeFnPtr::of(tree) {
            Some(found) => Some(found),
            None => None,
        }
    }
}

impl<'a> Parse<'a> for TypeTraitObject<'a, 'a> {
    ghost kind = { k.DynType k.WithPlus };

    ghost says = { λ x tree. tree ≡ type_trait_object x };

    fn kind() -> Kind
        ensures { kind_of result ≡ k.DynType k.WithPlus }
    {
        Kind::DynType(Plus::WithPlus)
    }

    #[tactic(auto, using(syn_part::proofs::Derived::shaped))]
    fn view(tree: &'a Tree<'a>) -> Option<TypeTraitObject<'a, 'a>> {
        match TypeTraitObject::of(tree) {
            Some(found) => Some(found),
            None => None,
        }
    }
}

impl<'a> Parse<'a> for TypeImplTrait<'a, 'a> {
    ghost kind = { k.ImplType k.WithPlus };

    ghost says = { λ x tree. tree ≡ type_impl_trait x };

    fn kind() -> Kind
        ensures { kind_of result ≡ k.ImplType k.WithPlus }
    {
        Kind::ImplType(Plus::WithPlus)
    }

    #[tactic(auto, using(syn_part::proofs::Derived::shaped))]
    fn view(tree: &'a Tree<'a>) -> Option<TypeImplTrait<'a, 'a>> {
        match TypeImplTrait::of(tree) {
            Some(found) => Some(found),
            None => None,
        }
    }
}

impl<'a> Parse<'a> for TypePath<'a, 'a> {
    ghost kind = { k.AnyPath k.InType };

    ghost says = { λ x tree. tree ≡ type_path x };

    fn kind() -> Kind
        ensures { kind_of result ≡ k.AnyPath k.InType }
    {
        Kind::AnyPath(Style::InType)
    }

    #[tactic(auto, using(syn_part::proofs::Derived::shaped))]
    fn view(tree: &'a Tree<'a>) -> Option<TypePath<'a, 'a>> {
        match TypePath::of(tree) {
            Some(found) => Some(found),
            None => None,
        }
    }
}

impl<'a> Parse<'a> for FnPtrArg<'a, 'a> {
    ghost kind = { k.FnPtrArg };

    ghost says = { λ x tree. tree ≡ fn_ptr_arg x };

    fn kind() -> Kind
        ensures { kind_of result ≡ k.FnPtrArg }
    {
        Kind::FnPtrArg
    }

    #[tactic(auto, using(syn_part::proofs::Derived::shaped))]
    fn view(tree: &'a Tree<'a>) -> Option<FnPtrArg<'a, 'a>> {
        match FnPtrArg::of(tree) {
            Some(found) => Some(found),
            None => None,
        }
    }
}

impl<'a> Parse<'a> for Abi<'a> {
    ghost kind = { k.Abi };

    ghost says = { λ x tree. tree ≡ abi x };

    fn kind() -> Kind
        ensures { kind_of result ≡ k.Abi }
    {
        Kind::Abi
    }

    #[tactic(auto, using(syn_part::proofs::Derived::shaped))]
    fn view(tree: &'a Tree<'a>) -> Option<Abi<'a>> {
        match Abi::of(tree) {
            Some(found) => Some(found),
            None => None,
        }
    }
}

impl<'a> Parse<'a> for BoundLifetimes<'a, 'a> {
    ghost kind = { k.BoundLifetimes };

    ghost says = { λ x tree. tree ≡ bound_lifetimes x };

    fn kind() -> Kind
        ensures { kind_of result ≡ k.BoundLifetimes }
    {
        Kind::BoundLifetimes
    }

    #[tactic(auto, using(syn_part::proofs::Derived::shaped))]
    fn view(tree: &'a Tree<'a>) -> Option<BoundLifetimes<'a, 'a>> {
        match BoundLifetimes::of(tree) {
            Some(found) => Some(found),
            None => None,
        }
    }
}

impl<'a> Parse<'a> for ReturnType<'a, 'a> {
    ghost kind = { k.ReturnType k.WithPlus };

    ghost says = { λ x tree. tree ≡ return_type x };

    fn kind() -> Kind
        ensures { kind_of result ≡ k.ReturnType k.WithPlus }
    {
        Kind::ReturnType(Plus::WithPlus)
    }

    #[tactic(auto, using(syn_part::proofs::Derived::shaped))]
    fn view(tree: &'a Tree<'a>) -> Option<ReturnType<'a, 'a>> {
        match ReturnType::of(tree) {
            Some(found) => Some(found),
            None => None,
        }
    }
}

impl<'a> Parse<'a> for TypeBracketed<'a, 'a> {
    ghost kind = { k.BracketType };

    ghost says = { λ x tree. tree ≡ type_bracketed x };

    fn kind() -> Kind
        ensures { kind_of result ≡ k.BracketType }
    {
        Kind::BracketType
    }

    #[tactic(auto, using(syn_part::proofs::Derived::shaped))]
    fn view(tree: &'a Tree<'a>) -> Option<TypeBracketed<'a, 'a>> {
        match TypeBracketed::of(tree) {
            Some(found) => Some(found),
            None => None,
        }
    }
}

impl<'a> Parse<'a> for TypeParenthesized<'a, 'a> {
    ghost kind = { k.TupleType };

    ghost says = { λ x tree. tree ≡ type_parenthesized x };

    fn kind() -> Kind
        ensures { kind_of result ≡ k.TupleType }
    {
        Kind::TupleType
    }

    #[tactic(auto, using(syn_part::proofs::Derived::shaped))]
    fn view(tree: &'a Tree<'a>) -> Option<TypeParenthesized<'a, 'a>> {
        match TypeParenthesized::of(tree) {
            Some(found) => Some(found),
            None => None,
        }
    }
}
