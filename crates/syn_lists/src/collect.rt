//! Lists that are made of values or of pairs, and those that are put behind others: where a separator is missing
//! between two values, one by default stands there.

ghost use Rattle.std.specs.Prelude.{◌++◌, ◌<◌, ◌≡◌, ◌≤◌, ◌∷◌, OnErr, OnOk, [], length, map, option_to_list};
ghost use Rattle.syn_lists.specs.Added.{Extends, IsMadeOf, firsts, nothing, seconds};
ghost use Rattle.syn_lists.specs.Lists.{separators, values};
ghost use Rattle.syn_lists.specs.Pairs.{parts};

use crate::pair::Pair;
use crate::punctuated::Punctuated;
use std::alloc::{AllocError, Global};

impl<T, P: Default + Drop> Punctuated<T, P> {
    // Puts a pair behind the others, with a separator by default before it where one is missing.
    //
    // The error is that memory was refused. The list is as before.
    fn push_pair(&mut self, value: T, separator: Option<P>) -> Result<(), AllocError>
    where
        T: Drop,
        ensures values { OnOk result (values self.new ≡ values self.old ++ value ∷ []) }
        ensures kept { length (values self.old) ≤ length (separators self.old)
            → OnOk result (separators self.new ≡ separators self.old ++ option_to_list separator) }
        ensures missing { length (separators self.old) < length (values self.old) → OnOk result ((p : P)
            × P.is_default p × (separators self.new ≡ separators self.old ++ p ∷ option_to_list separator)) }
        ensures err { OnErr result ((values self.new ≡ values self.old) × (separators self.new ≡ separators self.old)) }
    {
        self.separators.reserve(2)?;
        self.values.reserve(1)?;
        if !self.empty_or_trailing() && self.separators.push(P::default()).is_err() {
            unreachable!();
        }
        if self.values.push(value).is_err() {
            unreachable!();
        }
        if let Some(separator) = separator {
            if self.separators.push(separator).is_err() {
                unreachable!();
            }
        }
        Ok(())
    }
}

impl<T: Drop, P: Default + Drop> Extend<T> for Punctuated<T, P> {
    ghost extend_gives = { λ old added new. Extends P.is_default (values old) (separators old) added (nothing added)
        (values new) (separators new) };

    /// Puts the values behind the others. Where memory is refused, the values before the refused one stay.
    fn extend<U: IntoIterator<Item = T>>(&mut self, added: U) -> Result<(), AllocError> {
        for value in added {
            self.push(value)?;
        }
        Ok(())
    }
}

impl<T: Drop, P: Default + Drop> FromIterator<T> for Punctuated<T, P> {
    type Alloc = Global;

    ghost from_iter_gives = { λ all list. IsMadeOf P.is_default all (nothing all) (values list) (separators list) };

    /// The list of the values. The error is that memory was refused.
    fn from_iter<U: IntoIterator<Item = T>>(
        alloc: Global,
        all: U,
    ) -> Result<Punctuated<T, P>, AllocError> {
        let mut list = Punctuated::new(alloc);
        match list.extend(all) {
            Ok(()) => Ok(list),
            Err(refused) => Err(refused),
        }
    }
}

impl<T: Drop, P: Default + Drop> Extend<Pair<T, P>> for Punctuated<T, P> {
    ghost extend_gives = { λ old added new. Extends P.is_default (values old) (separators old)
        (firsts (map parts added)) (seconds (map parts added)) (values new) (separators new) };

    /// Puts the pairs behind the others. Where memory is refused, the pairs before the refused one stay.
    fn extend<U: IntoIterator<Item = Pair<T, P>>>(&mut self, added: U) -> Result<(), AllocError> {
        for pair in added {
            let (value, separator) = pair.into_tuple();
            self.push_pair(value, separator)?;
        }
        Ok(())
    }
}

impl<T: Drop, P: Default + Drop> FromIterator<Pair<T, P>> for Punctuated<T, P> {
    type Alloc = Global;

    ghost from_iter_gives = { λ all list. IsMadeOf P.is_default (firsts (map parts all)) (seconds (map parts all))
        (values list) (separators list) };

    /// The list of the pairs. The error is that memory was refused.
    fn from_iter<U: IntoIterator<Item = Pair<T, P>>>(
        alloc: Global,
        all: U,
    ) -> Result<Punctuated<T, P>, AllocError> {
        let mut list = Punctuated::new(alloc);
        match list.extend(all) {
            Ok(()) => Ok(list),
            Err(refused) => Err(refused),
        }
    }
}
