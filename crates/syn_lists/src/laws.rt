//! Laws of lists that are compared.
//!
//! Each function does nothing; its contract is the law.

ghost use Rattle.std.specs.Cmp.{IsEquivalence};
ghost use Rattle.std.specs.Prelude.{◌↔◌, IsTrue};
ghost use Rattle.syn_lists.specs.Alike.{AreAlike};
ghost use Rattle.syn_lists.specs.Lists.{separators, values};

use crate::punctuated::Punctuated;

/// Two lists are equal exactly if each value equals the one at its place in the other, and each separator too: so they
/// have as many of both.
pub fn equal_lists<T: PartialEq, P: PartialEq>(a: &Punctuated<T, P>, b: &Punctuated<T, P>)
    ensures { IsTrue (⟦<Punctuated<T, P> as PartialEq>⟧.eq a.now b.now)
        ↔ AreAlike T.eq (values a.now) (values b.now) × AreAlike P.eq (separators a.now) (separators b.now) }
{}

/// That is an equivalence where equality of values and of separators is.
pub fn equivalence_of_lists<T: Eq, P: Eq>()
    ensures { IsEquivalence ⟦<Punctuated<T, P> as PartialEq>⟧.eq }
{}
