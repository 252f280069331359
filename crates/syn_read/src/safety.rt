//! Whether a function is safe to call, and whether a static may be written, read by themselves.

ghost use Rattle.syn_read.specs.Optional.{ReadsMutability, ReadsSafety, ReadsUnsafe};
ghost use Rattle.syn_read.specs.Reading.{IsOnward};

use crate::reader::Reader;
use reader_table::word::{Keyword, Words};
use syn_data::item::StaticMutability;
use syn_item::function::Safety;

impl<'a> Reader<'a> {
    /// Reads the `unsafe` that stands there, if one does, as in front of a function outside of extern blocks.
    pub fn parse_unsafe_only(&mut self) -> Safety<'a>
        ensures which { ReadsUnsafe result self.old self.new }
        ensures onward { IsOnward self.old self.new }
    {
        match self.optional_word(Words::Keyword(Keyword::Unsafe)) {
            Some(word) => Safety::Unsafe(word),
            None => Safety::Default,
        }
    }

    /// Reads the `safe` or the `unsafe` that stands there, if one does, as in front of an extern block's items.
    pub fn parse_safe_or_unsafe(&mut self) -> Safety<'a>
        ensures which { ReadsSafety result self.old self.new }
        ensures onward { IsOnward self.old self.new }
    {
        match self.optional_word(Words::Keyword(Keyword::Safe)) {
            Some(word) => Safety::Safe(word),
            None => self.parse_unsafe_only(),
        }
    }

    /// Reads the `mut` that stands there, if one does, as behind `static`.
    pub fn parse_static_mutability(&mut self) -> StaticMutability<'a>
        ensures which { ReadsMutability result self.old self.new }
        ensures onward { IsOnward self.old self.new }
    {
        match self.optional_word(Words::Keyword(Keyword::Mut)) {
            Some(word) => StaticMutability::Mut(word),
            None => StaticMutability::None,
        }
    }
}
