//! Structs as the enums that hold them.

ghost use Rattle.std.specs.Prelude.{◌≡◌};
ghost use Rattle.node_generics.specs.declared.clause.WherePredicate.TheVariants as predicates;
ghost use Rattle.node_generics.specs.declared.param.GenericParam.TheVariants as params;

use crate::clause::{PredicateLifetime, PredicateType, WherePredicate};
use crate::param::{ConstParam, GenericParam, TypeParam};
use node_paths::bound::LifetimeParam;

impl<E> From<LifetimeParam<E>> for GenericParam<E> {
    ghost from_gives = { λ node made. made ≡ params.Lifetime node };

    /// The same as a parameter.
    fn from(node: LifetimeParam<E>) -> GenericParam<E> {
        GenericParam::Lifetime(node)
    }
}

impl<E> From<TypeParam<E>> for GenericParam<E> {
    ghost from_gives = { λ node made. made ≡ params.«Type» node };

    /// The same as a parameter.
    fn from(node: TypeParam<E>) -> GenericParam<E> {
        GenericParam::Type(node)
    }
}

impl<E> From<ConstParam<E>> for GenericParam<E> {
    ghost from_gives = { λ node made. made ≡ params.Const node };

    /// The same as a parameter.
    fn from(node: ConstParam<E>) -> GenericParam<E> {
        GenericParam::Const(node)
    }
}

impl<E> From<PredicateLifetime> for WherePredicate<E> {
    ghost from_gives = { λ node made. made ≡ predicates.Lifetime node };

    /// The same as a condition.
    fn from(node: PredicateLifetime) -> WherePredicate<E> {
        WherePredicate::Lifetime(node)
    }
}

impl<E> From<PredicateType<E>> for WherePredicate<E> {
    ghost from_gives = { λ node made. made ≡ predicates.«Type» node };

    /// The same as a condition.
    fn from(node: PredicateType<E>) -> WherePredicate<E> {
        WherePredicate::Type(node)
    }
}
