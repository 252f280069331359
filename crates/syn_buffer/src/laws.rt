//! Laws of places. Each is the contract of a function that does nothing.

ghost use Rattle.proc_macro2.specs.Token.{Spanned};
ghost use Rattle.proc_macro2.specs.declared.delimiter.Delimiter.{Delimiter};
ghost use Rattle.rust_map.specs.declared.span.Span.{Span};
ghost use Rattle.std.specs.Prelude.{◌≡◌, ◌⊎◌, List, Some};
ghost use Rattle.std.specs.declared.cmp.Ordering.TheVariants.{Equal, Less};
ghost use Rattle.syn_buffer.specs.Behind.{behind_tree};
ghost use Rattle.syn_buffer.specs.Entries.{spanned_entries};
ghost use Rattle.syn_buffer.specs.Groups.{Enters, IsGroup};
ghost use Rattle.syn_buffer.specs.Places.{order};
ghost use Rattle.syn_buffer.specs.Position.{IsPast, left};
ghost use Rattle.syn_buffer.specs.Standing.{trees_of};
ghost use Rattle.syn_buffer.specs.declared.position.Cursor.{Cursor};

use crate::buffer::TokenBuffer;

/// The trees at the beginning of a buffer are the stream that it was made from, invisible groups among them.
#[tactic(auto, using(crate::proofs::Standing::whole_trees))]
pub fn stream_of_begin(buffer: &TokenBuffer<'_>)
    ensures { trees_of buffer.now.entries.items ≡ spanned_entries buffer.now.entries.items }
{
    let _ = &buffer.entries;
}

/// At most one group stands first among tokens: they tell what stands inside and what behind.
#[tactic(auto, using(crate::proofs::OneGroup::one_group))]
pub fn one_group()
    ensures { (ts : List Spanned) (d e : Delimiter) (s t : Span) (i j b c : List Spanned)
        → IsGroup ts d s i b → IsGroup ts e t j c → (i ≡ j) × (b ≡ c) }
{}

/// Passing a group leads where leaving it does: behind the tree that it is.
#[tactic(auto, using(crate::proofs::Skipping::behind_entered))]
pub fn group_is_passed()
    ensures { (before : Cursor) (d : Delimiter) (s : Span) (inside after : Cursor)
        → Enters before d s inside after → left after ≡ behind_tree (left before) }
{}

/// A place that is past one past a place is past that, and each is past itself.
#[tactic(auto, using(crate::proofs::Past::past_both, crate::proofs::Past::past_same))]
pub fn places_go_on()
    ensures same { (a : Cursor) → IsPast a a }
    ensures both { (a b c : Cursor) → IsPast a b → IsPast b c → IsPast a c }
{}

/// A place past another is not behind it in the order of places.
#[tactic(auto, using(crate::proofs::Past::past_ordered))]
pub fn past_is_ordered()
    ensures { (a b : Cursor) → IsPast a b → (order a b ≡ Some Less) ⊎ (order a b ≡ Some Equal) }
{}

/// The places of a group's inside are behind the place where the group stands, and before the one behind the group.
#[tactic(auto, using(crate::proofs::Past::between))]
pub fn inside_is_between()
    ensures { (before inside after x : Cursor) (d : Delimiter) (s : Span) → Enters before d s inside after
        → IsPast inside x → (order before x ≡ Some Less) × (order x after ≡ Some Less) }
{}
