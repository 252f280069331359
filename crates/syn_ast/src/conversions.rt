//! Forms, as the enums that hold them.

ghost use Rattle.std.specs.Prelude.{◌≡◌};
ghost use Rattle.syn_ast.specs.declared.attributes.Meta.TheVariants as metas;
ghost use Rattle.syn_ast.specs.declared.bounds.TypeParamBound.TheVariants as bounds;
ghost use Rattle.syn_ast.specs.declared.generics.GenericParam.TheVariants as params;
ghost use Rattle.syn_ast.specs.declared.generics.WherePredicate.TheVariants as predicates;
ghost use Rattle.syn_ast.specs.declared.types.Type.TheVariants as types;

use crate::attributes::{Meta, MetaList, MetaNameValue, MetaPath};
use crate::bounds::{TraitBound, TypeParamBound};
use crate::generics::{
    ConstParam, GenericParam, LifetimeParam, PredicateLifetime, PredicateType, TypeParam,
    WherePredicate,
};
use crate::types::{
    Type, TypeArray, TypeFnPtr, TypeImplTrait, TypeInfer, TypeNever, TypeParen, TypePath, TypePtr,
    TypeReference, TypeSlice, TypeTraitObject, TypeTuple,
};
use syn_part::leaf::Lifetime;

impl<'t, 'a> From<MetaPath<'t, 'a>> for Meta<'t, 'a> {
    ghost from_gives = { λ form whole. whole ≡ metas.Path form };

    fn from(form: MetaPath<'t, 'a>) -> Meta<'t, 'a> {
        Meta::Path(form)
    }
}

impl<'t, 'a> From<MetaList<'t, 'a>> for Meta<'t, 'a> {
    ghost from_gives = { λ form whole. whole ≡ metas.List form };

    fn from(form: MetaList<'t, 'a>) -> Meta<'t, 'a> {
        Meta::List(form)
    }
}

impl<'t, 'a> From<MetaNameValue<'t, 'a>> for Meta<'t, 'a> {
    ghost from_gives = { λ form whole. whole ≡ metas.NameValue form };

    fn from(form: MetaNameValue<'t, 'a>) -> Meta<'t, 'a> {
        Meta::NameValue(form)
    }
}

impl<'t, 'a> From<TraitBound<'t, 'a>> for TypeParamBound<'t, 'a> {
    ghost from_gives = { λ form whole. whole ≡ bounds.Trait form };

    fn from(form: TraitBound<'t, 'a>) -> TypeParamBound<'t, 'a> {
        TypeParamBound::Trait(form)
    }
}

impl<'t, 'a> From<Lifetime<'a>> for TypeParamBound<'t, 'a> {
    ghost from_gives = { λ form whole. whole ≡ bounds.Lifetime form };

    fn from(form: Lifetime<'a>) -> TypeParamBound<'t, 'a> {
        TypeParamBound::Lifetime(form)
    }
}

impl<'t, 'a> From<LifetimeParam<'t, 'a>> for GenericParam<'t, 'a> {
    ghost from_gives = { λ form whole. whole ≡ params.Lifetime form };

    fn from(form: LifetimeParam<'t, 'a>) -> GenericParam<'t, 'a> {
        GenericParam::Lifetime(form)
    }
}

impl<'t, 'a> From<TypeParam<'t, 'a>> for GenericParam<'t, 'a> {
    ghost from_gives = { λ form whole. whole ≡ params.Type form };

    fn from(form: TypeParam<'t, 'a>) -> GenericParam<'t, 'a> {
        GenericParam::Type(form)
    }
}

impl<'t, 'a> From<ConstParam<'t, 'a>> for GenericParam<'t, 'a> {
    ghost from_gives = { λ form whole. whole ≡ params.Const form };

    fn from(form: ConstParam<'t, 'a>) -> GenericParam<'t, 'a> {
        GenericParam::Const(form)
    }
}

impl<'t, 'a> From<PredicateLifetime<'t, 'a>> for WherePredicate<'t, 'a> {
    ghost from_gives = { λ form whole. whole ≡ predicates.Lifetime form };

    fn from(form: PredicateLifetime<'t, 'a>) -> WherePredicate<'t, 'a> {
        WherePredicate::Lifetime(form)
    }
}

impl<'t, 'a> From<PredicateType<'t, 'a>> for WherePredicate<'t, 'a> {
    ghost from_gives = { λ form whole. whole ≡ predicates.Type form };

    fn from(form: PredicateType<'t, 'a>) -> WherePredicate<'t, 'a> {
        WherePredicate::Type(form)
    }
}

impl<'t, 'a> From<TypeArray<'t, 'a>> for Type<'t, 'a> {
    ghost from_gives = { λ form whole. whole ≡ types.Array form };

    fn from(form: TypeArray<'t, 'a>) -> Type<'t, 'a> {
        Type::Array(form)
    }
}

impl<'t, 'a> From<TypeFnPtr<'t, 'a>> for Type<'t, 'a> {
    ghost from_gives = { λ form whole. whole ≡ types.FnPtr form };

    fn from(form: TypeFnPtr<'t, 'a>) -> Type<'t, 'a> {
        Type::FnPtr(form)
    }
}

impl<'t, 'a> From<TypeImplTrait<'t, 'a>> for Type<'t, 'a> {
    ghost from_gives = { λ form whole. whole ≡ types.ImplTrait form };

    fn from(form: TypeImplTrait<'t, 'a>) -> Type<'t, 'a> {
        Type::ImplTrait(form)
    }
}

impl<'t, 'a> From<TypeInfer<'a>> for Type<'t, 'a> {
    ghost from_gives = { λ form whole. whole ≡ types.Infer form };

    fn from(form: TypeInfer<'a>) -> Type<'t, 'a> {
        Type::Infer(form)
    }
}

impl<'t, 'a> From<TypeNever> for Type<'t, 'a> {
    ghost from_gives = { λ form whole. whole ≡ types.Never form };

    fn from(form: TypeNever) -> Type<'t, 'a> {
        Type::Never(form)
    }
}

impl<'t, 'a> From<TypeParen<'t, 'a>> for Type<'t, 'a> {
    ghost from_gives = { λ form whole. whole ≡ types.Paren form };

    fn from(form: TypeParen<'t, 'a>) -> Type<'t, 'a> {
        Type::Paren(form)
    }
}

impl<'t, 'a> From<TypePath<'t, 'a>> for Type<'t, 'a> {
    ghost from_gives = { λ form whole. whole ≡ types.Path form };

    fn from(form: TypePath<'t, 'a>) -> Type<'t, 'a> {
        Type::Path(form)
    }
}

impl<'t, 'a> From<TypePtr<'t, 'a>> for Type<'t, 'a> {
    ghost from_gives = { λ form whole. whole ≡ types.Ptr form };

    fn from(form: TypePtr<'t, 'a>) -> Type<'t, 'a> {
        Type::Ptr(form)
    }
}

impl<'t, 'a> From<TypeReference<'t, 'a>> for Type<'t, 'a> {
    ghost from_gives = { λ form whole. whole ≡ types.Reference form };

    fn from(form: TypeReference<'t, 'a>) -> Type<'t, 'a> {
        Type::Reference(form)
    }
}

impl<'t, 'a> From<TypeSlice<'t, 'a>> for Type<'t, 'a> {
    ghost from_gives = { λ form whole. whole ≡ types.Slice form };

    fn from(form: TypeSlice<'t, 'a>) -> Type<'t, 'a> {
        Type::Slice(form)
    }
}

impl<'t, 'a> From<TypeTraitObject<'t, 'a>> for Type<'t, 'a> {
    ghost from_gives = { λ form whole. whole ≡ types.TraitObject form };

    fn from(form: TypeTraitObject<'t, 'a>) -> Type<'t, 'a> {
        Type::TraitObject(form)
    }
}

impl<'t, 'a> From<TypeTuple<'t, 'a>> for Type<'t, 'a> {
    ghost from_gives = { λ form whole. whole ≡ types.Tuple form };

    fn from(form: TypeTuple<'t, 'a>) -> Type<'t, 'a> {
        Type::Tuple(form)
    }
}
