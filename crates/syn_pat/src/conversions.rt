//! Forms of patterns, as the enum that holds them.

ghost use Rattle.std.specs.Prelude.{◌≡◌};
ghost use Rattle.syn_pat.specs.declared.pat.Pat.TheVariants as pats;

use crate::pat::{Pat, PatLit, PatParen, PatPath, PatRange, PatStruct, PatTuple, PatTupleStruct};
use crate::patterns::{PatIdent, PatOr, PatReference, PatRest, PatSlice, PatWild};

impl<'t, 'a> From<PatIdent<'t, 'a>> for Pat<'t, 'a> {
    ghost from_gives = { λ form whole. whole ≡ pats.Ident form };

    fn from(form: PatIdent<'t, 'a>) -> Pat<'t, 'a> {
        Pat::Ident(form)
    }
}

impl<'t, 'a> From<PatLit<'a>> for Pat<'t, 'a> {
    ghost from_gives = { λ form whole. whole ≡ pats.Lit form };

    fn from(form: PatLit<'a>) -> Pat<'t, 'a> {
        Pat::Lit(form)
    }
}

impl<'t, 'a> From<PatOr<'t, 'a>> for Pat<'t, 'a> {
    ghost from_gives = { λ form whole. whole ≡ pats.Or form };

    fn from(form: PatOr<'t, 'a>) -> Pat<'t, 'a> {
        Pat::Or(form)
    }
}

impl<'t, 'a> From<PatParen<'t, 'a>> for Pat<'t, 'a> {
    ghost from_gives = { λ form whole. whole ≡ pats.Paren form };

    fn from(form: PatParen<'t, 'a>) -> Pat<'t, 'a> {
        Pat::Paren(form)
    }
}

impl<'t, 'a> From<PatPath<'t, 'a>> for Pat<'t, 'a> {
    ghost from_gives = { λ form whole. whole ≡ pats.Path form };

    fn from(form: PatPath<'t, 'a>) -> Pat<'t, 'a> {
        Pat::Path(form)
    }
}

impl<'t, 'a> From<PatRange<'t, 'a>> for Pat<'t, 'a> {
    ghost from_gives = { λ form whole. whole ≡ pats.Range form };

    fn from(form: PatRange<'t, 'a>) -> Pat<'t, 'a> {
        Pat::Range(form)
    }
}

impl<'t, 'a> From<PatReference<'t, 'a>> for Pat<'t, 'a> {
    ghost from_gives = { λ form whole. whole ≡ pats.Reference form };

    fn from(form: PatReference<'t, 'a>) -> Pat<'t, 'a> {
        Pat::Reference(form)
    }
}

impl<'t, 'a> From<PatRest> for Pat<'t, 'a> {
    ghost from_gives = { λ form whole. whole ≡ pats.Rest form };

    fn from(form: PatRest) -> Pat<'t, 'a> {
        Pat::Rest(form)
    }
}

impl<'t, 'a> From<PatSlice<'t, 'a>> for Pat<'t, 'a> {
    ghost from_gives = { λ form whole. whole ≡ pats.Slice form };

    fn from(form: PatSlice<'t, 'a>) -> Pat<'t, 'a> {
        Pat::Slice(form)
    }
}

impl<'t, 'a> From<PatStruct<'t, 'a>> for Pat<'t, 'a> {
    ghost from_gives = { λ form whole. whole ≡ pats.Struct form };

    fn from(form: PatStruct<'t, 'a>) -> Pat<'t, 'a> {
        Pat::Struct(form)
    }
}

impl<'t, 'a> From<PatTuple<'t, 'a>> for Pat<'t, 'a> {
    ghost from_gives = { λ form whole. whole ≡ pats.Tuple form };

    fn from(form: PatTuple<'t, 'a>) -> Pat<'t, 'a> {
        Pat::Tuple(form)
    }
}

impl<'t, 'a> From<PatTupleStruct<'t, 'a>> for Pat<'t, 'a> {
    ghost from_gives = { λ form whole. whole ≡ pats.TupleStruct form };

    fn from(form: PatTupleStruct<'t, 'a>) -> Pat<'t, 'a> {
        Pat::TupleStruct(form)
    }
}

impl<'t, 'a> From<PatWild<'a>> for Pat<'t, 'a> {
    ghost from_gives = { λ form whole. whole ≡ pats.Wild form };

    fn from(form: PatWild<'a>) -> Pat<'t, 'a> {
        Pat::Wild(form)
    }
}
