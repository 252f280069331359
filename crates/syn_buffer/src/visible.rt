//! Buffers without invisible groups: the entries that are left at a place, and places behind some of them.

ghost use Rattle.std.specs.Prelude.{◌≡◌, ◌↔◌, ◌≤◌, IfSome, IsSome, IsTrue, drop, not, take};
ghost use Rattle.syn_buffer.specs.Behind.{Passes};
ghost use Rattle.syn_buffer.specs.Entries.{is_whole, spanned_entries};
ghost use Rattle.syn_buffer.specs.Position.{ahead, rest};
ghost use Rattle.syn_buffer.specs.Seen.{all_seen};

use crate::buffer::TokenBuffer;
use crate::cursor::end_of_last;
use crate::entry::Entry;
use crate::position::Cursor;

impl TokenBuffer<'_> {
    /// Whether an invisible group stands in the buffer.
    pub fn has_invisible_groups(&self) -> bool
        ensures { result ≡ not (all_seen (spanned_entries self.now.entries.items)) }
    {
        !self.all_visible
    }
}

impl<'a> Cursor<'a> {
    /// Whether an invisible group stands in the buffer, at the place or elsewhere.
    pub fn has_invisible_groups(self) -> bool
        ensures { result ≡ not self.entry.all_visible }
    {
        !self.all_visible
    }

    /// The entries that are left of the list, which are whole trees. There is no answer where an invisible group stands
    /// in the buffer: one that was entered before may close among them.
    #[tactic(auto, using(crate::proofs::AllSeen::whole_seen, crate::proofs::AllSeen::seen_all))]
    pub fn entries(self) -> Option<&'a [Entry<'a>]>
        ensures some { IfSome result (λ es. es.now ≡ self.entry.entries.now) }
        ensures tokens { IfSome result (λ es. spanned_entries es.now ≡ rest self.entry) }
        ensures whole { IfSome result (λ es. IsTrue (is_whole es.now)) }
        ensures there { IsSome result ↔ IsTrue self.entry.all_visible }
    {
        if self.all_visible {
            Some(self.entries)
        } else {
            None
        }
    }

    /// The place behind so many of the entries that are left. There must be as many, those behind them must be whole
    /// trees, and `has_invisible_groups` must be false.
    pub fn behind(self, count: usize) -> Cursor<'a>
        requires visible { IsTrue self.all_visible }
        requires within { count ≤ ahead self }
        requires whole { IsTrue (is_whole (drop count self.entries.now)) }
        ensures entries { result.entries.now ≡ drop count self.entry.entries.now }
        ensures passed { Passes self.entry (take count (rest self.entry)) result }
    {
        let before = end_of_last(self.before, &self.entries[..count]);
        self.past(&self.entries[count..], before)
    }
}
