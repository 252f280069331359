//! Turns, one behind the other, each where it stands.

ghost use Rattle.reader_tree.specs.Forms.{turns};
ghost use Rattle.reader_tree.specs.Shapes.{is_turns};
ghost use Rattle.std.specs.Iterator.{YieldsFirstBy, item_count};
ghost use Rattle.std.specs.Prelude.{◌≡◌, IfSome, MatchOption, false, map};
ghost use Rattle.syn_buffer.specs.Entries.{entry_token};
ghost use Rattle.syn_grammar.specs.Tree.{flat};
ghost use Rattle.syn_placed.specs.Parted.{parted};

use crate::cut::cut;
use crate::placed::Placed;
use reader_tree::tree::Tree;
use syn_buffer::entry::Entry;

/// Turns that are left, and the entries that they were read from. Each token is passed once.
#[derive(Clone, Copy)]
pub struct Turns<'t, 'a> {
    pub(crate) trees: &'t [Tree<'a>],
    pub(crate) entries: &'t [Entry<'a>],
    ghost is_spelled: { map entry_token entries.now ≡ flat (turns trees.now) },
}

impl<'t, 'a> Iterator for Turns<'t, 'a> {
    type Item = Placed<'t, 'a>;

    ghost next_gives = { YieldsFirstBy (λ p. (p.tree.now, p.entries.now)) (λ s. parted s.trees.now s.entries.now) };

    ghost remaining = { item_count (λ s. parted s.trees.now s.entries.now) };

    fn next(&mut self) -> Option<Placed<'t, 'a>> {
        let (first, trees) = self.trees.split_first()?;
        let (placed, entries) = cut(first, self.entries);
        *self = Turns { trees, entries };
        Some(placed)
    }
}

impl<'t, 'a> Placed<'t, 'a> {
    /// Of turns each.
    pub fn turns(&self) -> Option<Turns<'t, 'a>>
        ensures tree { MatchOption result (is_turns self.now.tree.now ≡ false)
            (λ s. self.now.tree.now ≡ turns s.trees.now) }
        ensures entries { IfSome result (λ s. s.entries.now ≡ self.now.entries.now) }
    {
        let entries = self.entries;
        match self.tree.turns() {
            Some(trees) => Some(Turns { trees, entries }),
            None => None,
        }
    }
}
