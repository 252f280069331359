//! Taking out the values that a function rejects.

ghost use Rattle.std.specs.Fn.{CalledAtMut};
ghost use Rattle.std.specs.List.Retain.{RetainsInTurn};
ghost use Rattle.std.specs.Prelude.{◌<◌, ◌≡◌, ◌↔◌, ◌≤◌, length, swap, take};
ghost use Rattle.syn_lists.specs.Lists.{IsSeparated, IsTrailing, StaysSeparated, separators, values};
ghost use Rattle.syn_lists.specs.Retained.{KeepsInFront, RetainsPairs};

use crate::punctuated::Punctuated;

// Swaps the separators at two indices, if there is one at the second, which is not below the first.
fn swap_separators<P>(separators: &mut [P], to: usize, from: usize)
    requires { to ≤ from }
    ensures inside { from < length separators.old → separators.new ≡ swap separators.old to from }
    ensures past { length separators.old ≤ from → separators.new ≡ separators.old }
{
    if from < separators.len() {
        separators.swap(to, from);
    }
}

// Moves the values at which the function answers `true` to the front, in their order, each with the separator behind
// it, and counts them.
fn keep_in_front<T, P, F: FnMut(&mut T) -> bool>(
    values: &mut [T],
    separators: &mut [P],
    mut keeps: F,
) -> usize
    requires { F.IsAlwaysCallable keeps }
    ensures filtered { RetainsInTurn (CalledAtMut F.FnMut) keeps values.old (take result values.new) }
    ensures pairs { IsSeparated values.old separators.old → KeepsInFront (CalledAtMut F.FnMut) keeps values.old
        separators.old values.new separators.new result }
    ensures bound { result ≤ length values.old }
{
    let mut kept = 0;
    for index in 0..values.len() {
        if keeps(&mut values[index]) {
            values.swap(kept, index);
            swap_separators(separators, kept, index);
            kept += 1;
        }
    }
    kept
}

impl<T: Drop, P: Drop> Punctuated<T, P> {
    /// Keeps the values at which the function answers `true`, in their order, as it left them, each with the
    /// separator behind it. Behind the last one a separator stands exactly where one stood behind the last before. The
    /// function must be one that may be called on any value.
    pub fn retain<F: FnMut(&mut T) -> bool>(&mut self, keeps: F)
        requires { F.IsAlwaysCallable keeps }
        ensures filtered { RetainsInTurn (CalledAtMut F.FnMut) keeps (values self.old) (values self.new) }
        ensures pairs { IsSeparated (values self.old) (separators self.old) → RetainsPairs (CalledAtMut F.FnMut) keeps
            (values self.old) (separators self.old) (values self.new) (separators self.new) }
        ensures trailing { 0 < length (values self.new) → IsTrailing (values self.new) (separators self.new)
            ↔ IsTrailing (values self.old) (separators self.old) }
        ensures separated { StaysSeparated self.old self.new }
    {
        let trailing = self.empty_or_trailing();
        let kept = keep_in_front(
            self.values.as_mut_slice(),
            self.separators.as_mut_slice(),
            keeps,
        );
        self.values.truncate(kept);
        let separators = if trailing {
            kept
        } else {
            kept.saturating_sub(1)
        };
        self.separators.truncate(separators);
    }
}
