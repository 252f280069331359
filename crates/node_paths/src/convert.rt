//! Structs as the enums that hold them.

ghost use Rattle.std.specs.Prelude.{◌≡◌};
ghost use Rattle.node_paths.specs.declared.attribute.Meta.TheVariants as metas;
ghost use Rattle.node_paths.specs.declared.bound.TypeParamBound.TheVariants as bounds;

use crate::attribute::{Meta, MetaList, MetaNameValue};
use crate::bound::{TraitBound, TypeParamBound};
use crate::path::Path;
use syn_kinds::lifetime::Lifetime;

impl<E> From<Path<E>> for Meta<E> {
    ghost from_gives = { λ node made. made ≡ metas.Path node };

    /// The same as what an attribute holds.
    fn from(node: Path<E>) -> Meta<E> {
        Meta::Path(node)
    }
}

impl<E> From<MetaList<E>> for Meta<E> {
    ghost from_gives = { λ node made. made ≡ metas.List node };

    /// The same as what an attribute holds.
    fn from(node: MetaList<E>) -> Meta<E> {
        Meta::List(node)
    }
}

impl<E> From<MetaNameValue<E>> for Meta<E> {
    ghost from_gives = { λ node made. made ≡ metas.NameValue node };

    /// The same as what an attribute holds.
    fn from(node: MetaNameValue<E>) -> Meta<E> {
        Meta::NameValue(node)
    }
}

impl<E> From<TraitBound<E>> for TypeParamBound<E> {
    ghost from_gives = { λ node made. made ≡ bounds.Trait node };

    /// The same as a bound.
    fn from(node: TraitBound<E>) -> TypeParamBound<E> {
        TypeParamBound::Trait(node)
    }
}

impl<E> From<Lifetime> for TypeParamBound<E> {
    ghost from_gives = { λ node made. made ≡ bounds.Lifetime node };

    /// The same as a bound.
    fn from(node: Lifetime) -> TypeParamBound<E> {
        TypeParamBound::Lifetime(node)
    }
}
