//! The values of a list with their separators, one by one, from both ends.

ghost use Rattle.std.specs.Iterator.{UpTo, YieldsFirstBy, YieldsLastBy, at_most, item_count};
ghost use Rattle.std.specs.Iterator.SizeHint.{IsExactHint, IsWithinCount};
ghost use Rattle.std.specs.Prelude.{◌≡◌, ◌≤◌, IfSome, length, take, vec_len};
ghost use Rattle.std.specs.Borrow.{sem};
ghost use Rattle.syn_lists.specs.Left.{iter_mut_left};
ghost use Rattle.syn_lists.specs.Lent.{lends_pairs};
ghost use Rattle.syn_lists.specs.Lists.{separators, values};
ghost use Rattle.syn_lists.specs.PairsLeft.{into_pairs_left, pairs_left, pairs_mut_left};
ghost use Rattle.syn_lists.specs.Pairs.{lent, lent_mut, pairs, parts};

use crate::iter::{IterMut, each_of};
use crate::pair::Pair;
use crate::punctuated::Punctuated;
use std::collections::VecDeque;

/// The values of a list with the separators behind them, in order, lent.
#[derive(Clone, Copy, Debug)]
pub struct Pairs<'a, T, P> {
    pub(crate) values: &'a [T],
    pub(crate) separators: &'a [P],
}

impl<T, P> Punctuated<T, P> {
    /// The values with the separators behind them, in order, lent.
    pub fn pairs(&self) -> Pairs<'_, T, P>
        ensures { pairs_left result ≡ pairs (values self.now) (separators self.now) }
    {
        Pairs {
            values: self.as_slice(),
            separators: self.separators(),
        }
    }
}

#[tactic(auto, using(crate::proofs::Behind::pairs_count))]
impl<'a, T, P> Iterator for Pairs<'a, T, P> {
    type Item = Pair<&'a T, &'a P>;

    ghost next_gives = { YieldsFirstBy lent pairs_left };

    ghost remaining = { item_count pairs_left };

    fn next(&mut self) -> Option<Pair<&'a T, &'a P>> {
        let (value, values) = self.values.split_first()?;
        self.values = values;
        match self.separators.split_first() {
            Some((separator, separators)) => {
                self.separators = separators;
                Some(Pair::Punctuated(value, separator))
            }
            None => Some(Pair::End(value)),
        }
    }

    fn size_hint(&self) -> (usize, Option<usize>)
        ensures lower { IsWithinCount result.0 (item_count pairs_left self.now) }
        ensures upper { IfSome result.1 (UpTo (item_count pairs_left self.now)) }
        ensures exact { IsExactHint result (length (pairs_left self.now)) }
    {
        let count = self.values.len();
        (count, Some(count))
    }
}

#[tactic(auto, using(crate::proofs::Behind::paired, crate::proofs::Behind::alone, crate::proofs::Behind::pairs_count))]
impl<'a, T, P> DoubleEndedIterator for Pairs<'a, T, P> {
    ghost next_back_gives = { YieldsLastBy lent pairs_left };

    fn next_back(&mut self) -> Option<Pair<&'a T, &'a P>> {
        let (value, values) = self.values.split_last()?;
        self.values = values;
        if values.len() < self.separators.len() {
            Some(Pair::Punctuated(value, &self.separators[values.len()]))
        } else {
            Some(Pair::End(value))
        }
    }
}

#[tactic(auto, using(crate::proofs::Behind::pairs_count))]
impl<'a, T, P> ExactSizeIterator for Pairs<'a, T, P> {
    fn len(&self) -> usize {
        self.values.len()
    }
}

/// The values of a list with the separators behind them, in order, to be changed.
#[derive(Drop)]
pub struct PairsMut<'a, T, P> {
    pub(crate) values: IterMut<'a, T>,
    pub(crate) separators: IterMut<'a, P>,
}

impl<T, P> Punctuated<T, P> {
    /// The values with the separators behind them, in order, to be changed: the list then holds what was written last
    /// through each of them.
    pub fn pairs_mut(&mut self) -> PairsMut<'_, T, P>
        ensures* writes_back { sem 𝓛 (lends_pairs T.row P.row self.entry result) }
        ensures pairs { pairs_mut_left result ≡ pairs (values self.old) (separators self.old) }
    {
        PairsMut {
            values: each_of(&mut self.values),
            separators: each_of(&mut self.separators),
        }
    }
}

#[tactic(auto, using(crate::proofs::Behind::pairs_count))]
impl<'a, T, P> Iterator for PairsMut<'a, T, P> {
    type Item = Pair<&'a mut T, &'a mut P>;

    ghost next_gives = { YieldsFirstBy lent_mut pairs_mut_left };

    ghost remaining = { item_count pairs_mut_left };

    fn next(&mut self) -> Option<Pair<&'a mut T, &'a mut P>> {
        let value = self.values.next()?;
        match self.separators.next() {
            Some(separator) => Some(Pair::Punctuated(value, separator)),
            None => Some(Pair::End(value)),
        }
    }

    fn size_hint(&self) -> (usize, Option<usize>)
        ensures lower { IsWithinCount result.0 (item_count pairs_mut_left self.now) }
        ensures upper { IfSome result.1 (UpTo (item_count pairs_mut_left self.now)) }
        ensures exact { IsExactHint result (length (pairs_mut_left self.now)) }
    {
        let count = self.values.len();
        (count, Some(count))
    }
}

// Leaves so many separators at most.
fn cut<P>(separators: &mut IterMut<'_, P>, count: usize)
    ensures { iter_mut_left separators.new ≡ take count (iter_mut_left separators.old) }
{
    while count < separators.len() {
        let _ = separators.next_back();
    }
}

#[tactic(auto, using(crate::proofs::Behind::behind, crate::proofs::Behind::bare, crate::proofs::Behind::pairs_count))]
impl<'a, T, P> DoubleEndedIterator for PairsMut<'a, T, P> {
    ghost next_back_gives = { YieldsLastBy lent_mut pairs_mut_left };

    fn next_back(&mut self) -> Option<Pair<&'a mut T, &'a mut P>> {
        let count = self.values.len();
        let value = self.values.next_back()?;
        cut(&mut self.separators, count);
        if self.separators.len() < count {
            return Some(Pair::End(value));
        }
        match self.separators.next_back() {
            Some(separator) => Some(Pair::Punctuated(value, separator)),
            None => unreachable!(),
        }
    }
}

#[tactic(auto, using(crate::proofs::Behind::pairs_count))]
impl<'a, T, P> ExactSizeIterator for PairsMut<'a, T, P> {
    fn len(&self) -> usize {
        self.values.len()
    }
}

/// The values of a list with the separators behind them, in order.
#[derive(Debug, Drop)]
pub struct IntoPairs<T, P> {
    pub(crate) values: VecDeque<T>,
    pub(crate) separators: VecDeque<P>,
}

impl<T, P> Punctuated<T, P> {
    /// The values with the separators behind them, in order.
    pub fn into_pairs(self) -> IntoPairs<T, P>
        ensures { into_pairs_left result ≡ pairs (values self) (separators self) }
    {
        let Punctuated { values, separators } = self;
        IntoPairs {
            values: VecDeque::from_vec(values),
            separators: VecDeque::from_vec(separators),
        }
    }
}

#[tactic(auto, using(crate::proofs::Behind::pairs_count))]
impl<T: Drop, P: Drop> Iterator for IntoPairs<T, P> {
    type Item = Pair<T, P>;

    ghost next_gives = { YieldsFirstBy parts into_pairs_left };

    ghost remaining = { item_count into_pairs_left };

    fn next(&mut self) -> Option<Pair<T, P>> {
        let value = self.values.pop_front()?;
        match self.separators.pop_front() {
            Some(separator) => Some(Pair::Punctuated(value, separator)),
            None => Some(Pair::End(value)),
        }
    }

    fn size_hint(&self) -> (usize, Option<usize>)
        ensures lower { IsWithinCount result.0 (item_count into_pairs_left self.now) }
        ensures upper { IfSome result.1 (UpTo (item_count into_pairs_left self.now)) }
        ensures exact { IsExactHint result (length (into_pairs_left self.now)) }
    {
        let count = self.values.len();
        (count, Some(count))
    }
}

#[tactic(auto, using(crate::proofs::Behind::behind, crate::proofs::Behind::bare, crate::proofs::Behind::pairs_count))]
impl<T: Drop, P: Drop> DoubleEndedIterator for IntoPairs<T, P> {
    ghost next_back_gives = { YieldsLastBy parts into_pairs_left };

    fn next_back(&mut self) -> Option<Pair<T, P>> {
        let value = self.values.pop_back()?;
        self.separators.truncate(self.values.len() + 1);
        if self.separators.len() <= self.values.len() {
            return Some(Pair::End(value));
        }
        match self.separators.pop_back() {
            Some(separator) => Some(Pair::Punctuated(value, separator)),
            None => unreachable!(),
        }
    }
}

#[tactic(auto, using(crate::proofs::Behind::pairs_count))]
impl<T: Drop, P: Drop> ExactSizeIterator for IntoPairs<T, P> {
    fn len(&self) -> usize {
        self.values.len()
    }
}
