//! What is pending while something is read, and how far it is read.

ghost use Rattle.std.specs.Prelude.{IsTrue};
ghost use Rattle.syn_buffer.specs.Entries.{is_whole};

use crate::around::{Around, NoToken};
use proc_macro2::delimiter::Delimiter;
use reader_table::kind::Kind;
use reader_table::op::{Op, Verdicts};
use reader_tree::arena::Arena;
use reader_tree::made;
use reader_tree::tree::Tree;
use rust_map::span::Span;
use std::alloc::AllocError;
use syn_buffer::entry::Entry;

/// What stands behind a group.
#[derive(Clone, Copy)]
pub(crate) struct Behind<'a> {
    /// The entries, which are whole.
    pub(crate) entries: &'a [Entry<'a>],
    ghost whole: { IsTrue (is_whole entries.now) },
}

/// What is to be made of what is read.
#[derive(Drop)]
pub(crate) enum Pending<'a> {
    /// It stands behind that.
    Front(Tree<'a>),
    /// That stands around it.
    Around(Around),
    /// It is a node of a kind, and begins there.
    Node(Kind, &'a [Entry<'a>]),
    /// It is the inside of a group with that delimiter, which stands there, and before those.
    Inside(Delimiter, Span, Behind<'a>),
    /// It is judged.
    Judged(Verdicts),
}

/// What a run works with. One may be given to any number of runs, one after the other.
#[derive(Drop)]
pub struct Work<'a> {
    /// Where trees stand.
    pub(crate) arena: &'a Arena,
    /// What no token is.
    pub(crate) nil: NoToken<'a>,
    /// What is to be made of what is read, by the last one first.
    pub(crate) pending: Vec<Pending<'a>>,
}

// So many may be pending before the list grows.
const ROOM: usize = 64;

impl<'a> Work<'a> {
    /// What runs work with whose trees stand in the arena.
    ///
    /// # Errors
    ///
    /// Where there is no memory for it.
    pub fn new(arena: &'a Arena) -> Result<Work<'a>, AllocError> {
        let tree = arena.put(made::nil())?;
        Ok(Work {
            arena,
            nil: NoToken { tree },
            pending: Vec::with_capacity(arena.alloc(), ROOM)?,
        })
    }
}

/// Where steps are to be read, and how many calls deep that may go.
#[derive(Clone, Copy)]
pub(crate) struct Spot<'a> {
    /// The steps.
    pub(crate) steps: &'static [Op],
    /// The entries that they are read of.
    pub(crate) entries: &'a [Entry<'a>],
    /// How many calls deep.
    pub(crate) fuel: usize,
}
