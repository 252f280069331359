//! Structs as the enums that hold them.

ghost use Rattle.std.specs.Prelude.{◌≡◌};
ghost use Rattle.node_patterns.specs.declared.Pat.TheVariants as pats;

use crate::Pat;
use crate::fields::{PatStruct, PatTupleStruct};
use crate::kinds::{
    PatIdent, PatLit, PatOr, PatParen, PatPath, PatRange, PatReference, PatRest, PatSlice,
    PatTuple, PatType, PatWild,
};

impl<E> From<PatIdent<E>> for Pat<E> {
    ghost from_gives = { λ node made. made ≡ pats.Ident node };

    /// The same as a pattern.
    fn from(node: PatIdent<E>) -> Pat<E> {
        Pat::Ident(node)
    }
}

impl<E> From<PatLit<E>> for Pat<E> {
    ghost from_gives = { λ node made. made ≡ pats.Lit node };

    /// The same as a pattern.
    fn from(node: PatLit<E>) -> Pat<E> {
        Pat::Lit(node)
    }
}

impl<E> From<PatOr<E>> for Pat<E> {
    ghost from_gives = { λ node made. made ≡ pats.Or node };

    /// The same as a pattern.
    fn from(node: PatOr<E>) -> Pat<E> {
        Pat::Or(node)
    }
}

impl<E> From<PatParen<E>> for Pat<E> {
    ghost from_gives = { λ node made. made ≡ pats.Paren node };

    /// The same as a pattern.
    fn from(node: PatParen<E>) -> Pat<E> {
        Pat::Paren(node)
    }
}

impl<E> From<PatPath<E>> for Pat<E> {
    ghost from_gives = { λ node made. made ≡ pats.Path node };

    /// The same as a pattern.
    fn from(node: PatPath<E>) -> Pat<E> {
        Pat::Path(node)
    }
}

impl<E> From<PatRange<E>> for Pat<E> {
    ghost from_gives = { λ node made. made ≡ pats.Range node };

    /// The same as a pattern.
    fn from(node: PatRange<E>) -> Pat<E> {
        Pat::Range(node)
    }
}

impl<E> From<PatReference<E>> for Pat<E> {
    ghost from_gives = { λ node made. made ≡ pats.Reference node };

    /// The same as a pattern.
    fn from(node: PatReference<E>) -> Pat<E> {
        Pat::Reference(node)
    }
}

impl<E> From<PatRest<E>> for Pat<E> {
    ghost from_gives = { λ node made. made ≡ pats.Rest node };

    /// The same as a pattern.
    fn from(node: PatRest<E>) -> Pat<E> {
        Pat::Rest(node)
    }
}

impl<E> From<PatSlice<E>> for Pat<E> {
    ghost from_gives = { λ node made. made ≡ pats.Slice node };

    /// The same as a pattern.
    fn from(node: PatSlice<E>) -> Pat<E> {
        Pat::Slice(node)
    }
}

impl<E> From<PatStruct<E>> for Pat<E> {
    ghost from_gives = { λ node made. made ≡ pats.Struct node };

    /// The same as a pattern.
    fn from(node: PatStruct<E>) -> Pat<E> {
        Pat::Struct(node)
    }
}

impl<E> From<PatTuple<E>> for Pat<E> {
    ghost from_gives = { λ node made. made ≡ pats.Tuple node };

    /// The same as a pattern.
    fn from(node: PatTuple<E>) -> Pat<E> {
        Pat::Tuple(node)
    }
}

impl<E> From<PatTupleStruct<E>> for Pat<E> {
    ghost from_gives = { λ node made. made ≡ pats.TupleStruct node };

    /// The same as a pattern.
    fn from(node: PatTupleStruct<E>) -> Pat<E> {
        Pat::TupleStruct(node)
    }
}

impl<E> From<PatType<E>> for Pat<E> {
    ghost from_gives = { λ node made. made ≡ pats.«Type» node };

    /// The same as a pattern.
    fn from(node: PatType<E>) -> Pat<E> {
        Pat::Type(node)
    }
}

impl<E> From<PatWild<E>> for Pat<E> {
    ghost from_gives = { λ node made. made ≡ pats.Wild node };

    /// The same as a pattern.
    fn from(node: PatWild<E>) -> Pat<E> {
        Pat::Wild(node)
    }
}
