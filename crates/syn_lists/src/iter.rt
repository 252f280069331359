//! The values of a list, one by one, from both ends.

ghost use Rattle.std.specs.Iterator.{UpTo, YieldsFirst, YieldsFirstMut, YieldsFirstRef, item_count};
ghost use Rattle.std.specs.Iterator.{YieldsLast, YieldsLastMut, YieldsLastRef};
ghost use Rattle.std.specs.Iterator.SizeHint.{IsExactHint, IsWithinCount};
ghost use Rattle.std.specs.Borrow.{sem};
ghost use Rattle.std.specs.Prelude.{[], ◌≡◌, IfSome, length};
ghost use Rattle.syn_lists.specs.Left.{into_iter_left, iter_left, iter_mut_left};
ghost use Rattle.syn_lists.specs.Lent.{lends_items, lends_values};
ghost use Rattle.syn_lists.specs.Lists.{values};

use crate::punctuated::Punctuated;
use std::alloc::Global;
use std::collections::VecDeque;
use std::slice;

/// The values of a list, in order, lent.
#[derive(Clone, Copy, Debug)]
pub struct Iter<'a, T> {
    pub(crate) rest: &'a [T],
}

impl<'a, T> Iter<'a, T> {
    /// The iterator of no value. It takes no memory.
    pub fn empty() -> Iter<'a, T>
        ensures { iter_left result ≡ [] }
    {
        Iter { rest: &[] }
    }
}

impl<T, P> Punctuated<T, P> {
    /// The values, in order, lent.
    pub fn iter(&self) -> Iter<'_, T>
        ensures { iter_left result ≡ values self.now }
    {
        Iter {
            rest: self.as_slice(),
        }
    }
}

impl<'a, T> Iterator for Iter<'a, T> {
    type Item = &'a T;

    ghost next_gives = { YieldsFirstRef iter_left };

    ghost remaining = { item_count iter_left };

    fn next(&mut self) -> Option<&'a T> {
        let (first, rest) = self.rest.split_first()?;
        self.rest = rest;
        Some(first)
    }

    fn size_hint(&self) -> (usize, Option<usize>)
        ensures lower { IsWithinCount result.0 (item_count iter_left self.now) }
        ensures upper { IfSome result.1 (UpTo (item_count iter_left self.now)) }
        ensures exact { IsExactHint result (length (iter_left self.now)) }
    {
        let count = self.rest.len();
        (count, Some(count))
    }
}

impl<'a, T> DoubleEndedIterator for Iter<'a, T> {
    ghost next_back_gives = { YieldsLastRef iter_left };

    fn next_back(&mut self) -> Option<&'a T> {
        let (last, rest) = self.rest.split_last()?;
        self.rest = rest;
        Some(last)
    }
}

impl<'a, T> ExactSizeIterator for Iter<'a, T> {
    fn len(&self) -> usize {
        self.rest.len()
    }
}

/// The values of a list, in order, to be changed.
#[derive(Drop)]
pub struct IterMut<'a, T> {
    pub(crate) rest: slice::IterMut<'a, T>,
}

impl<'a, T> IterMut<'a, T> {
    /// The iterator of no value. It takes no memory.
    pub fn empty() -> IterMut<'a, T>
        ensures { iter_mut_left result ≡ [] }
    {
        let none: &'a mut [T] = &mut [];
        IterMut {
            rest: none.iter_mut(),
        }
    }
}

impl<T, P> Punctuated<T, P> {
    /// The values, in order, to be changed: the list then holds what was written last through each of them.
    pub fn iter_mut(&mut self) -> IterMut<'_, T>
        ensures* writes_back { sem 𝓛 (lends_values T.row P.row self.entry result) }
        ensures values { iter_mut_left result ≡ values self.old }
    {
        each_of(&mut self.values)
    }
}

// The values of a vector, in order, to be changed: it then holds what was written last through each of them.
pub(crate) fn each_of<T>(items: &mut Vec<T>) -> IterMut<'_, T>
    ensures* writes_back { sem 𝓛 (lends_items T.row items.entry result) }
    ensures values { iter_mut_left result ≡ items.old.items }
{
    IterMut {
        rest: items.iter_mut(),
    }
}

impl<'a, T> Iterator for IterMut<'a, T> {
    type Item = &'a mut T;

    ghost next_gives = { YieldsFirstMut iter_mut_left };

    ghost remaining = { item_count iter_mut_left };

    fn next(&mut self) -> Option<&'a mut T> {
        self.rest.next()
    }

    fn size_hint(&self) -> (usize, Option<usize>)
        ensures lower { IsWithinCount result.0 (item_count iter_mut_left self.now) }
        ensures upper { IfSome result.1 (UpTo (item_count iter_mut_left self.now)) }
        ensures exact { IsExactHint result (length (iter_mut_left self.now)) }
    {
        let count = self.rest.len();
        (count, Some(count))
    }
}

impl<'a, T> DoubleEndedIterator for IterMut<'a, T> {
    ghost next_back_gives = { YieldsLastMut iter_mut_left };

    fn next_back(&mut self) -> Option<&'a mut T> {
        self.rest.next_back()
    }
}

impl<'a, T> ExactSizeIterator for IterMut<'a, T> {
    fn len(&self) -> usize {
        self.rest.len()
    }
}

/// The values of a list, in order.
#[derive(Debug, Drop)]
pub struct IntoIter<T> {
    pub(crate) rest: VecDeque<T>,
}

impl<T> IntoIter<T> {
    /// The iterator of no value. It takes no memory.
    pub fn empty(alloc: Global) -> IntoIter<T>
        ensures { into_iter_left result ≡ [] }
    {
        IntoIter {
            rest: VecDeque::new(alloc),
        }
    }
}

impl<T: Drop> Iterator for IntoIter<T> {
    type Item = T;

    ghost next_gives = { YieldsFirst into_iter_left };

    ghost remaining = { item_count into_iter_left };

    fn next(&mut self) -> Option<T> {
        self.rest.pop_front()
    }

    fn size_hint(&self) -> (usize, Option<usize>)
        ensures lower { IsWithinCount result.0 (item_count into_iter_left self.now) }
        ensures upper { IfSome result.1 (UpTo (item_count into_iter_left self.now)) }
        ensures exact { IsExactHint result (length (into_iter_left self.now)) }
    {
        let count = self.rest.len();
        (count, Some(count))
    }
}

impl<T: Drop> DoubleEndedIterator for IntoIter<T> {
    ghost next_back_gives = { YieldsLast into_iter_left };

    fn next_back(&mut self) -> Option<T> {
        self.rest.pop_back()
    }
}

impl<T: Drop> ExactSizeIterator for IntoIter<T> {
    fn len(&self) -> usize {
        self.rest.len()
    }
}

impl<T: Drop, P: Drop> IntoIterator for Punctuated<T, P> {
    type Item = T;

    type IntoIter = IntoIter<T>;

    ghost into_iter_gives = { λ list it. into_iter_left it ≡ values list };

    fn into_iter(self) -> IntoIter<T> {
        let Punctuated {
            values,
            separators: _,
        } = self;
        IntoIter {
            rest: VecDeque::from_vec(values),
        }
    }
}

impl<'a, T, P> IntoIterator for &'a Punctuated<T, P> {
    type Item = &'a T;

    type IntoIter = Iter<'a, T>;

    ghost into_iter_gives = { λ list it. iter_left it ≡ values list.now };

    fn into_iter(self) -> Iter<'a, T> {
        self.iter()
    }
}

impl<'a, T, P> IntoIterator for &'a mut Punctuated<T, P> {
    type Item = &'a mut T;

    type IntoIter = IterMut<'a, T>;

    ghost into_iter_gives = { λ list it. iter_mut_left it ≡ values list.now };

    fn into_iter(self) -> IterMut<'a, T>
        ensures* writes_back { sem 𝓛 (lends_values T.row P.row self.entry result) }
        ensures into_iter_gives { iter_mut_left result ≡ values self.old }
    {
        self.iter_mut()
    }
}
