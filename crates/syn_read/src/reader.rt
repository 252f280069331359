//! What reads forms and tokens one behind the other, and what it answers of tokens.

ghost use Rattle.std.specs.Prelude.{IsTrue};
ghost use Rattle.syn_buffer.specs.Entries.{is_whole};

use reader_tree::arena::Arena;
use rust_leaf::punct::Spacing;
use rust_map::span::Span;
use syn_buffer::entry::Entry;

/// A place among the tokens of a buffer, or of a group in it, from which forms and tokens are read one behind the
/// other. A copy of it is a fork: each goes on by itself.
///
/// To a contract it is the list of tokens that are left up to the end of the buffer or of the group, each with where
/// it stands, and where that list closes. Each group among them is whole, and invisible groups are tokens as all
/// others are.
#[derive(Clone, Copy)]
pub struct Reader<'a> {
    pub(crate) entries: &'a [Entry<'a>],
    // where the list closes; the call site where nothing closes it
    pub(crate) closing: Span,
    // where trees stand, and errors take memory from
    pub(crate) arena: &'a Arena,
    ghost is_whole: { IsTrue (is_whole entries.now) },
}

/// A group that was entered.
#[derive(Clone, Copy)]
pub struct Entered<'a> {
    /// What reads its inside. Whether all of that was read `finish` tells.
    pub inside: Reader<'a>,
    /// Where all of it stands.
    pub span: Span,
}

/// A punctuation that was read.
#[derive(Clone, Copy)]
pub struct ReadSign {
    /// How its last mark is spaced.
    pub spacing: Spacing,
    /// Where its first mark stands.
    pub span: Span,
}
