//! The elements of lists, one by one.

ghost use Rattle.std.specs.Iterator.{YieldsFirstRef, item_count};
ghost use Rattle.std.specs.Prelude.{◌≡◌};
ghost use Rattle.syn_part.specs.Iter.{iter_left, parts};
ghost use Rattle.syn_part.specs.Leaves.{list_tree};

use crate::list::Elements;
use reader_tree::tree::{Element, Tree};
use std::slice;

/// The elements of a list, in order, lent.
#[derive(Drop)]
pub struct Iter<'t, 'a> {
    pub(crate) before: slice::Iter<'t, Element<'a>>,
    pub(crate) last: Option<&'t Tree<'a>>,
}

impl<'t, 'a> Iterator for Iter<'t, 'a> {
    type Item = &'t Tree<'a>;

    ghost next_gives = { YieldsFirstRef iter_left };

    ghost remaining = { item_count iter_left };

    fn next(&mut self) -> Option<&'t Tree<'a>> {
        match self.before.next() {
            Some(element) => Some(&element.tree),
            None => self.last.take(),
        }
    }
}

impl<'t, 'a> Elements<'t, 'a> {
    /// The elements, in order, whether or not a mark follows the last.
    #[tactic(auto, using(crate::proofs::Lists::parts_listed))]
    pub fn iter(&self) -> Iter<'t, 'a>
        ensures { iter_left result ≡ parts (list_tree self.now) }
    {
        Iter {
            before: self.before.iter(),
            last: self.last,
        }
    }
}
