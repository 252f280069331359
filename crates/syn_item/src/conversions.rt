//! Forms of uses and of arguments, as the enums that hold them.

ghost use Rattle.std.specs.Prelude.{◌≡◌};
ghost use Rattle.syn_item.specs.declared.function.FnArg.TheVariants as args;
ghost use Rattle.syn_item.specs.declared.uses.UseTree.TheVariants as uses;

use crate::function::{FnArg, Variadic};
use crate::uses::{UseGlob, UseGroup, UseName, UsePath, UseRename, UseTree};
use syn_pat::pat_type::PatType;

impl<'t, 'a> From<UsePath<'t, 'a>> for UseTree<'t, 'a> {
    ghost from_gives = { λ form whole. whole ≡ uses.Path form };

    fn from(form: UsePath<'t, 'a>) -> UseTree<'t, 'a> {
        UseTree::Path(form)
    }
}

impl<'t, 'a> From<UseName<'a>> for UseTree<'t, 'a> {
    ghost from_gives = { λ form whole. whole ≡ uses.Name form };

    fn from(form: UseName<'a>) -> UseTree<'t, 'a> {
        UseTree::Name(form)
    }
}

impl<'t, 'a> From<UseRename<'a>> for UseTree<'t, 'a> {
    ghost from_gives = { λ form whole. whole ≡ uses.Rename form };

    fn from(form: UseRename<'a>) -> UseTree<'t, 'a> {
        UseTree::Rename(form)
    }
}

impl<'t, 'a> From<UseGlob> for UseTree<'t, 'a> {
    ghost from_gives = { λ form whole. whole ≡ uses.Glob form };

    fn from(form: UseGlob) -> UseTree<'t, 'a> {
        UseTree::Glob(form)
    }
}

impl<'t, 'a> From<UseGroup<'t, 'a>> for UseTree<'t, 'a> {
    ghost from_gives = { λ form whole. whole ≡ uses.Group form };

    fn from(form: UseGroup<'t, 'a>) -> UseTree<'t, 'a> {
        UseTree::Group(form)
    }
}

impl<'t, 'a> From<PatType<'t, 'a>> for FnArg<'t, 'a> {
    ghost from_gives = { λ form whole. whole ≡ args.Typed form };

    fn from(form: PatType<'t, 'a>) -> FnArg<'t, 'a> {
        FnArg::Typed(form)
    }
}

impl<'t, 'a> From<Variadic<'t, 'a>> for FnArg<'t, 'a> {
    ghost from_gives = { λ form whole. whole ≡ args.Variadic form };

    fn from(form: Variadic<'t, 'a>) -> FnArg<'t, 'a> {
        FnArg::Variadic(form)
    }
}
