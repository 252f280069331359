//! Structs as the enums that hold them.

ghost use Rattle.std.specs.Prelude.{◌≡◌};
ghost use Rattle.node_types.specs.declared.«Type».TheVariants as types;

use crate::Type;
use crate::function::TypeFnPtr;
use crate::kinds::{
    TypeArray, TypeImplTrait, TypeInfer, TypeNever, TypeParen, TypePath, TypePtr, TypeReference,
    TypeSlice, TypeTraitObject, TypeTuple,
};

impl<E> From<TypeArray<E>> for Type<E> {
    ghost from_gives = { λ node made. made ≡ types.Array node };

    /// The same as a type.
    fn from(node: TypeArray<E>) -> Type<E> {
        Type::Array(node)
    }
}

impl<E> From<TypeFnPtr<E>> for Type<E> {
    ghost from_gives = { λ node made. made ≡ types.FnPtr node };

    /// The same as a type.
    fn from(node: TypeFnPtr<E>) -> Type<E> {
        Type::FnPtr(node)
    }
}

impl<E> From<TypeImplTrait<E>> for Type<E> {
    ghost from_gives = { λ node made. made ≡ types.ImplTrait node };

    /// The same as a type.
    fn from(node: TypeImplTrait<E>) -> Type<E> {
        Type::ImplTrait(node)
    }
}

impl<E> From<TypeInfer> for Type<E> {
    ghost from_gives = { λ node made. made ≡ types.Infer node };

    /// The same as a type.
    fn from(node: TypeInfer) -> Type<E> {
        Type::Infer(node)
    }
}

impl<E> From<TypeNever> for Type<E> {
    ghost from_gives = { λ node made. made ≡ types.Never node };

    /// The same as a type.
    fn from(node: TypeNever) -> Type<E> {
        Type::Never(node)
    }
}

impl<E> From<TypeParen<E>> for Type<E> {
    ghost from_gives = { λ node made. made ≡ types.Paren node };

    /// The same as a type.
    fn from(node: TypeParen<E>) -> Type<E> {
        Type::Paren(node)
    }
}

impl<E> From<TypePath<E>> for Type<E> {
    ghost from_gives = { λ node made. made ≡ types.Path node };

    /// The same as a type.
    fn from(node: TypePath<E>) -> Type<E> {
        Type::Path(node)
    }
}

impl<E> From<TypePtr<E>> for Type<E> {
    ghost from_gives = { λ node made. made ≡ types.Ptr node };

    /// The same as a type.
    fn from(node: TypePtr<E>) -> Type<E> {
        Type::Ptr(node)
    }
}

impl<E> From<TypeReference<E>> for Type<E> {
    ghost from_gives = { λ node made. made ≡ types.Reference node };

    /// The same as a type.
    fn from(node: TypeReference<E>) -> Type<E> {
        Type::Reference(node)
    }
}

impl<E> From<TypeSlice<E>> for Type<E> {
    ghost from_gives = { λ node made. made ≡ types.Slice node };

    /// The same as a type.
    fn from(node: TypeSlice<E>) -> Type<E> {
        Type::Slice(node)
    }
}

impl<E> From<TypeTraitObject<E>> for Type<E> {
    ghost from_gives = { λ node made. made ≡ types.TraitObject node };

    /// The same as a type.
    fn from(node: TypeTraitObject<E>) -> Type<E> {
        Type::TraitObject(node)
    }
}

impl<E> From<TypeTuple<E>> for Type<E> {
    ghost from_gives = { λ node made. made ≡ types.Tuple node };

    /// The same as a type.
    fn from(node: TypeTuple<E>) -> Type<E> {
        Type::Tuple(node)
    }
}
