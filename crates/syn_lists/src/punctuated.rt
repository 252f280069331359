//! Lists of values with separators.

ghost use Rattle.std.specs.Prelude.{[], ◌++◌, ◌∷◌, ◌-◌, ◌<◌, ◌≤◌, ◌≡◌, ◌↔◌, MatchOption, OnErr, OnOk, OnSome};
ghost use Rattle.std.specs.Prelude.{IfErr, IfSome, IsNone, IsSome, IsTrue};
ghost use Rattle.std.specs.Prelude.{drop, get_or, insert, length, min, take};
ghost use Rattle.std.specs.Borrow.{sem};
ghost use Rattle.syn_lists.specs.Lent.{lends_if, lends_last, lends_value};
ghost use Rattle.syn_lists.specs.Lists.{IsTrailing, StaysSeparated, separators, values};
ghost use Rattle.syn_lists.specs.Pairs.{IsLastPair};

use crate::pair::Pair;
use std::alloc::{AllocFailed, Global};
use std::ops::{Index, IndexMut};

/// A list of values with a separator between each two of them, and perhaps one behind the last.
///
/// To a contract it is a list of values and one of separators, which the calls keep equally long or one shorter.
#[derive(Debug, Drop, PartialEq, Eq)]
pub struct Punctuated<T, P> {
    pub(crate) values: Vec<T>,
    pub(crate) separators: Vec<P>,
}

impl<T, P> Punctuated<T, P> {
    /// The list of no values.
    pub fn new(alloc: Global) -> Punctuated<T, P>
        ensures values { values result ≡ [] }
        ensures separators { separators result ≡ [] }
    {
        Punctuated {
            values: Vec::new(alloc),
            separators: Vec::new(alloc),
        }
    }

    /// What the list takes its memory from.
    pub fn allocator(&self) -> Global {
        *self.values.allocator()
    }

    /// Whether there are no values.
    pub fn is_empty(&self) -> bool
        ensures { IsTrue result ↔ (values self.now ≡ []) }
    {
        self.values.is_empty()
    }

    /// How many values there are.
    pub fn len(&self) -> usize
        ensures { result ≡ length (values self.now) }
    {
        self.values.len()
    }

    /// The values, in order, lent.
    pub fn as_slice(&self) -> &[T]
        ensures { result.now ≡ values self.now }
    {
        self.values.as_slice()
    }

    /// The separators, in order, lent.
    pub fn separators(&self) -> &[P]
        ensures { result.now ≡ separators self.now }
    {
        self.separators.as_slice()
    }

    /// The first value, or `None` where there are no values.
    pub fn first(&self) -> Option<&T>
        ensures { MatchOption result (values self.now ≡ []) (λ x. x.now ∷ drop 1 (values self.now) ≡ values self.now) }
    {
        self.values.first()
    }

    /// Whether a separator stands behind the last value. It is false where there is no value.
    pub fn trailing_punct(&self) -> bool
        ensures { IsTrue result ↔ IsTrailing (values self.now) (separators self.now) }
    {
        !self.values.is_empty() && self.empty_or_trailing()
    }

    /// Whether there is no value, or a separator stands behind the last one: whether a value may follow.
    pub fn empty_or_trailing(&self) -> bool
        ensures { IsTrue result ↔ (length (values self.now) ≤ length (separators self.now)) }
    {
        self.values.len() <= self.separators.len()
    }

    /// Puts a value behind the others. `empty_or_trailing` is the test of its condition.
    ///
    /// The error is that memory was refused. It hands the value back, and the list is as before.
    pub fn push_value(&mut self, value: T) -> Result<(), AllocFailed<T>>
        requires { length (values self.old) ≤ length (separators self.old) }
        ensures ok { OnOk result (values self.new ≡ values self.old ++ value ∷ []) }
        ensures err { OnErr result (values self.new ≡ values self.old) }
        ensures handed_back { IfErr result (λ refused. refused.value ≡ value) }
        ensures separators { separators self.new ≡ separators self.old }
        ensures separated { StaysSeparated self.old self.new }
    {
        self.values.push(value)
    }

    /// Puts a separator behind the last value. That `empty_or_trailing` is false is its condition.
    ///
    /// The error is that memory was refused. It hands the separator back, and the list is as before.
    pub fn push_punct(&mut self, punctuation: P) -> Result<(), AllocFailed<P>>
        requires { length (separators self.old) < length (values self.old) }
        ensures ok { OnOk result (separators self.new ≡ separators self.old ++ punctuation ∷ []) }
        ensures err { OnErr result (separators self.new ≡ separators self.old) }
        ensures handed_back { IfErr result (λ refused. refused.value ≡ punctuation) }
        ensures values { values self.new ≡ values self.old }
        ensures separated { StaysSeparated self.old self.new }
    {
        self.separators.push(punctuation)
    }

    /// Takes the last value out, and the separator behind it, if there is one, too. It is `None` where there are no
    /// values.
    pub fn pop(&mut self) -> Option<T>
    where
        P: Drop,
        ensures value { MatchOption result ((values self.old ≡ []) × (values self.new ≡ []))
            (λ x. values self.old ≡ values self.new ++ x ∷ []) }
        ensures separators { separators self.new ≡ take (length (values self.new)) (separators self.old) }
        ensures separated { StaysSeparated self.old self.new }
    {
        let value = self.values.pop();
        self.separators.truncate(self.values.len());
        value
    }

    /// Takes the separator behind the last value out, or answers `None` where none stands there.
    pub fn pop_punct(&mut self) -> Option<P>
        ensures taken { IsSome result ↔ IsTrailing (values self.old) (separators self.old) }
        ensures separator { MatchOption result (separators self.new ≡ separators self.old)
            (λ p. separators self.old ≡ separators self.new ++ p ∷ []) }
        ensures values { values self.new ≡ values self.old }
        ensures separated { StaysSeparated self.old self.new }
    {
        if self.trailing_punct() {
            self.separators.pop()
        } else {
            None
        }
    }

    /// The last value, or `None` where there are no values.
    pub fn last(&self) -> Option<&T>
        ensures { MatchOption result (values self.now ≡ [])
            (λ x. take (length (values self.now) - 1) (values self.now) ++ x.now ∷ [] ≡ values self.now) }
    {
        self.values.last()
    }

    /// The value at an index, from 0, or `None` where the index is not below `len`.
    pub fn get(&self, index: usize) -> Option<&T>
        ensures inside { IsSome result ↔ (index < length (values self.now)) }
        ensures value { IfSome result (λ x. x.now ≡ get_or (values self.now) index x.now) }
    {
        self.values.get(index)
    }

    /// The first value, to be changed: the list then holds there what was written last. It is `None` where there are no
    /// values.
    pub fn first_mut(&mut self) -> Option<&mut T>
        ensures* writes_back { sem 𝓛 (lends_if T.row P.row self.entry 0 result) }
        ensures inside { IsSome result ↔ (0 < length (values self.old)) }
        ensures value { IfSome result (λ x. x.now ≡ get_or (values self.old) 0 x.now) }
    {
        self.values.first_mut()
    }

    /// The last value, to be changed: the list then holds there what was written last. It is `None` where there are no
    /// values.
    pub fn last_mut(&mut self) -> Option<&mut T>
        ensures* writes_back { sem 𝓛 (lends_last T.row P.row self.entry result) }
        ensures inside { IsSome result ↔ (0 < length (values self.old)) }
        ensures value { IfSome result (λ x. x.now ≡ get_or (values self.old) (length (values self.old) - 1) x.now) }
    {
        self.values.last_mut()
    }

    /// The value at an index, from 0, to be changed: the list then holds there what was written last. It is `None`
    /// where the index is not below `len`.
    pub fn get_mut(&mut self, index: usize) -> Option<&mut T>
        ensures* writes_back { sem 𝓛 (lends_if T.row P.row self.entry index result) }
        ensures inside { IsSome result ↔ (index < length (values self.old)) }
        ensures value { IfSome result (λ x. x.now ≡ get_or (values self.old) index x.now) }
    {
        self.values.get_mut(index)
    }

    /// Takes the last value out, with the separator behind it, if there is one. It is `None` where there are no values.
    pub fn pop_pair(&mut self) -> Option<Pair<T, P>>
    where
        P: Drop,
        ensures pair { MatchOption result ((values self.old ≡ []) × (values self.new ≡ []))
            (λ pair. IsLastPair pair (values self.old) (separators self.old) (values self.new)) }
        ensures some { OnSome result (separators self.new ≡ take (length (values self.new)) (separators self.old)) }
        ensures none { IsNone result → separators self.new ≡ separators self.old }
        ensures separated { StaysSeparated self.old self.new }
    {
        let value = self.values.pop()?;
        self.separators.truncate(self.values.len() + 1);
        if self.values.len() < self.separators.len() {
            match self.separators.pop() {
                Some(separator) => Some(Pair::Punctuated(value, separator)),
                None => Some(Pair::End(value)),
            }
        } else {
            Some(Pair::End(value))
        }
    }

    /// Takes all values and separators out.
    pub fn clear(&mut self)
    where
        T: Drop,
        P: Drop,
        ensures values { values self.new ≡ [] }
        ensures separators { separators self.new ≡ [] }
    {
        self.values.clear();
        self.separators.clear();
    }

    /// Puts a value behind the others, with a separator by default before it where one is missing.
    ///
    /// The error is that memory was refused. It hands the value back, and the list is as before.
    pub fn push(&mut self, value: T) -> Result<(), AllocFailed<T>>
    where
        P: Default + Drop,
        ensures values { OnOk result (values self.new ≡ values self.old ++ value ∷ []) }
        ensures kept { length (values self.old) ≤ length (separators self.old)
            → separators self.new ≡ separators self.old }
        ensures separator { length (separators self.old) < length (values self.old)
            → OnOk result ((p : P) × P.is_default p × (separators self.new ≡ separators self.old ++ p ∷ [])) }
        ensures err { OnErr result ((values self.new ≡ values self.old) × (separators self.new ≡ separators self.old)) }
        ensures handed_back { IfErr result (λ refused. refused.value ≡ value) }
        ensures separated { StaysSeparated self.old self.new }
    {
        if self.empty_or_trailing() {
            return self.push_value(value);
        }
        if self.separators.reserve(1).is_err() {
            return Err(AllocFailed { value });
        }
        self.values.push(value)?;
        match self.separators.push(P::default()) {
            Ok(()) => Ok(()),
            Err(_) => unreachable!(),
        }
    }

    /// Puts a value at an index, from 0, and a separator by default behind it, or before it where it comes last and
    /// one is missing there. The index is at most `len`.
    ///
    /// The error is that memory was refused. It hands the value back, and the list is as before.
    #[tactic(auto, using(crate::proofs::Inserts::inserted_last))]
    pub fn insert(&mut self, index: usize, value: T) -> Result<(), AllocFailed<T>>
    where
        P: Default + Drop,
        requires { index ≤ length (values self.old) }
        ensures values { OnOk result (values self.new ≡ insert (values self.old) index value) }
        ensures separator { index < length (values self.old) → OnOk result ((p : P) × P.is_default p
            × (separators self.new ≡ insert (separators self.old) (min index (length (separators self.old))) p)) }
        ensures err { OnErr result ((values self.new ≡ values self.old) × (separators self.new ≡ separators self.old)) }
        ensures handed_back { IfErr result (λ refused. refused.value ≡ value) }
        ensures separated { StaysSeparated self.old self.new }
    {
        if index == self.values.len() {
            return self.push(value);
        }
        if self.separators.reserve(1).is_err() {
            return Err(AllocFailed { value });
        }
        self.values.insert(index, value)?;
        let place = index.min(self.separators.len());
        match self.separators.insert(place, P::default()) {
            Ok(()) => Ok(()),
            Err(_) => unreachable!(),
        }
    }
}

impl<T, P> Index<usize> for Punctuated<T, P> {
    type Output = T;

    ghost use Rattle.std.specs.Prelude.{◌≡◌, ◌<◌, get_or, length};
    ghost use Rattle.syn_lists.specs.Lists.{values};

    ghost can_index = { λ list i. i < length (values list) };

    ghost index_gives = { λ list i x. x ≡ get_or (values list) i x };

    /// The value at an index, from 0, which must be below `len`.
    fn index(&self, index: usize) -> &T {
        &self.values[index]
    }
}

impl<T, P> IndexMut<usize> for Punctuated<T, P> {
    /// The value at an index, from 0, to be changed: the list then holds there what was written last. The index must be
    /// below `len`.
    fn index_mut(&mut self, index: usize) -> &mut T
        requires { index < length (values self.old) }
        ensures* writes_back { sem 𝓛 (lends_value T.row P.row self.entry index result) }
        ensures value { result.now ≡ get_or (values self.old) index result.now }
    {
        &mut self.values[index]
    }
}
