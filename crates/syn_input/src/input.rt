//! Streams that are read.

ghost use Rattle.std.specs.Prelude.{None, ◌≡◌};
ghost use Rattle.syn_input.specs.Input as input;
ghost use Rattle.syn_buffer.specs.Behind.{stands_behind};
ghost use Rattle.syn_buffer.specs.Stands.{end_stands};

use proc_macro2::delimiter::Delimiter;
use rust_map::span::Span;
use std::alloc::Global;
use syn_buffer::position::Cursor;
use syn_peek::token::Peek;

/// A token that was left over in a group that has been closed.
#[derive(Clone, Copy, Debug)]
pub(crate) struct Leftover {
    // where the token stands
    pub(crate) span: Span,
    // what closes the list in which it was left over
    pub(crate) closer: Delimiter,
}

/// A stream that is read: a place in a list of tokens, which moves on, and what was left over in the groups
/// that have been closed.
///
/// To a contract it is the list of tokens that are left, with where they stand. A fork is a copy that moves by
/// itself.
#[derive(Drop)]
pub struct ParseBuffer<'a> {
    pub(crate) cursor: Cursor<'a>,
    pub(crate) noted: Option<Leftover>,
    pub(crate) alloc: Global,
}

/// A stream as parsers take it.
pub type ParseStream<'s, 'a> = &'s mut ParseBuffer<'a>;

impl<'a> ParseBuffer<'a> {
    /// A stream that is read from that place on. What it makes takes memory from the allocator.
    pub fn new(alloc: Global, begin: Cursor<'a>) -> ParseBuffer<'a>
        ensures cursor { result.cursor ≡ begin.entry }
        ensures noted { result.noted ≡ None }
    {
        ParseBuffer {
            cursor: begin,
            noted: None,
            alloc,
        }
    }

    /// What memory is taken from.
    pub fn allocator(&self) -> Global {
        self.alloc
    }

    /// The place from which is read next.
    pub fn cursor(&self) -> Cursor<'a>
        ensures { result ≡ self.now.cursor }
    {
        self.cursor
    }

    /// Where the next token stands, of a group all of it, or at an end what closes the list.
    pub fn span(&self) -> Span
        ensures { result ≡ input.next_place self.now }
    {
        self.cursor.span()
    }

    /// Whether nothing is left of the list.
    pub fn is_empty(&self) -> bool
        ensures { result ≡ end_stands (input.left self.now) }
    {
        self.cursor.eof()
    }

    /// A stream of its own from the same place on, in which nothing is left over yet.
    pub fn fork(&self) -> ParseBuffer<'a>
        ensures cursor { result.cursor ≡ self.now.cursor }
        ensures noted { result.noted ≡ None }
    {
        ParseBuffer::new(self.alloc, self.cursor)
    }

    /// Whether a token of that kind stands there.
    pub fn peek<T: Peek>(&self) -> bool
        ensures { result ≡ T.stands (input.left self.now) }
    {
        T::peek(self.cursor)
    }

    /// Whether a token of that kind stands behind the tree that stands there. A lifetime is one tree, and so is a
    /// group.
    pub fn peek2<T: Peek>(&self) -> bool
        ensures { result ≡ stands_behind T.stands (input.left self.now) }
    {
        match self.cursor.skip() {
            Some(behind) => T::peek(behind),
            None => false,
        }
    }

    /// Whether a token of that kind stands behind the next two trees.
    pub fn peek3<T: Peek>(&self) -> bool
        ensures { result ≡ stands_behind (stands_behind T.stands) (input.left self.now) }
    {
        let Some(second) = self.cursor.skip() else {
            return false;
        };
        match second.skip() {
            Some(behind) => T::peek(behind),
            None => false,
        }
    }
}
