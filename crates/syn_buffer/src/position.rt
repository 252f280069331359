//! Places in a buffer.

ghost use Rattle.std.specs.Prelude.{◌≤◌, IsTrue, length};
ghost use Rattle.syn_buffer.specs.Entries.{is_laid, spanned_entries};
ghost use Rattle.syn_buffer.specs.Seen.{all_seen};

use crate::entry::Entry;
use proc_macro2::delimiter::Delimiter;
use rust_map::span::Span;

/// A place in a buffer, in the list of the whole or of a group that has been entered. It is a few words,
/// and a copy of it is a fork.
///
/// To a contract it is the list of tokens that are left up to the end of its list. Of an invisible group
/// no marks are seen there.
#[derive(Clone, Copy)]
pub struct Cursor<'a> {
    // what is left of the list
    pub(crate) entries: &'a [Entry<'a>],
    // where the list ends, as an index of the buffer
    pub(crate) end: usize,
    // the buffer's number, and 0 for none
    pub(crate) number: usize,
    // the span of the token that was taken last
    pub(crate) before: Span,
    // what closes the list, and where; it is the call site where the whole ends
    pub(crate) closer: Delimiter,
    pub(crate) closing: Span,
    // whether no group in the buffer is invisible
    pub(crate) all_visible: bool,
    ghost is_laid: { IsTrue (is_laid entries.now) },
    ghost is_within: { length entries.now ≤ end },
    ghost is_visible: { IsTrue all_visible → IsTrue (all_seen (spanned_entries entries.now)) },
}
