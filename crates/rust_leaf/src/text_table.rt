//! The texts of leaves that share them.

ghost use Rattle.std.specs.Prelude.{◌≡◌, ◌<◌, ◌≤◌, IfOk, IfSome, length};
ghost use Rattle.std.specs.Rc.{rc_str_bytes};

use std::alloc::{AllocError, Global};
use std::collections::BTreeSet;
use std::hash::{FoldHasher, Hash, Hasher};
use std::rc::RcStr;

/// How many places stand open to a text.
const PLACES: usize = 8;

/// How many places the smallest table has.
const FEWEST: usize = 64;

// A text and its hash.
#[derive(Drop)]
struct Hashed {
    hash: u64,
    text: RcStr,
}

/// The long texts of the leaves that are made with it, each kept once.
///
/// A text of more than 16 bytes that leaves are made of is kept in memory that all of them share. The table can go
/// as soon as the last leaf is made: what leaves share stays as long as one of them has it.
///
/// A text stands at the first of the places from where its hash points to that was free, or, where too many texts
/// have hashes alike, in an ordered set. So the time of a look-up is bounded whatever the texts are.
#[derive(Drop)]
pub struct TextTable {
    alloc: Global,
    // The places, half of which stay free.
    places: Vec<Option<Hashed>>,
    // How many more are filled before there are twice as many.
    room: usize,
    // The texts whose places were taken by others.
    crowded: BTreeSet<RcStr>,
}

fn hash_of(text: &str) -> u64 {
    let mut hasher = FoldHasher::default();
    text.hash(&mut hasher);
    hasher.finish()
}

impl TextTable {
    /// A table that keeps no text. It takes no memory.
    pub fn new(alloc: Global) -> TextTable {
        TextTable {
            alloc,
            places: Vec::new(alloc),
            room: 0,
            crowded: BTreeSet::new(alloc),
        }
    }

    /// The allocator that its texts are kept by.
    pub fn allocator(&self) -> Global {
        self.alloc
    }

    /// The text, in memory that is shared with whatever else has it of this table.
    ///
    /// `AllocError`: memory for the text or its place was refused; the table then keeps what it kept.
    pub(crate) fn shared(&mut self, text: &str) -> Result<RcStr, AllocError>
        ensures { IfOk result (λ shared. rc_str_bytes shared ≡ text.now) }
    {
        let hash = hash_of(text);
        if let Some(kept) = self.kept(hash, text) {
            return kept.clone();
        }
        if self.room == 0 {
            self.grow()?;
        }
        let shared = RcStr::from_str(self.alloc, text)?;
        self.put(hash, shared.clone()?)?;
        Ok(shared)
    }

    // Where the places begin that stand open to a hash, and where they end.
    fn places_of(&self, hash: u64) -> (usize, usize)
        ensures first { result.0 ≤ result.1 }
        ensures within { result.1 ≤ length self.now.places.items }
    {
        let len = self.places.len();
        if len == 0 {
            return (0, 0);
        }
        let first = (hash % len as u64) as usize;
        (first, first.saturating_add(PLACES).min(len))
    }

    // The text, if it is kept.
    fn kept(&self, hash: u64, text: &str) -> Option<&RcStr>
        ensures { IfSome result (λ kept. rc_str_bytes kept.now ≡ text.now) }
    {
        let (first, end) = self.places_of(hash);
        for place in &self.places[first..end] {
            match place {
                Some(kept) if kept.hash == hash && kept.text.as_str() == text => {
                    return Some(&kept.text);
                }
                Some(_) => {}
                None => return None,
            }
        }
        self.in_order(text)
    }

    // The text, if it is one of those whose places were taken.
    fn in_order(&self, text: &str) -> Option<&RcStr>
        ensures { IfSome result (λ kept. rc_str_bytes kept.now ≡ text.now) }
    {
        self.crowded.get(text)
    }

    // The place for a text that isn't kept.
    fn free_place(&self, hash: u64) -> Option<usize>
        ensures { IfSome result (λ at. at < length self.now.places.items) }
    {
        let (first, end) = self.places_of(hash);
        for at in first..end {
            if self.places[at].is_none() {
                return Some(at);
            }
        }
        None
    }

    // Keeps a text that isn't kept yet.
    fn put(&mut self, hash: u64, text: RcStr) -> Result<(), AllocError> {
        match self.free_place(hash) {
            Some(at) => {
                self.places[at] = Some(Hashed { hash, text });
                self.room = self.room.saturating_sub(1);
            }
            None => {
                self.crowded.insert(text)?;
            }
        }
        Ok(())
    }

    // Makes twice as many places.
    fn grow(&mut self) -> Result<(), AllocError> {
        let mut grown = TextTable::new(self.alloc);
        let count = self.places.len().saturating_mul(2).max(FEWEST);
        grown.places.reserve(count)?;
        for _ in 0..count {
            grown.places.push(None)?;
        }
        grown.room = count / 2;
        for place in &self.places {
            if let Some(kept) = place {
                grown.put(kept.hash, kept.text.clone()?)?;
            }
        }
        for text in &self.crowded {
            grown.put(hash_of(text.as_str()), text.clone()?)?;
        }
        *self = grown;
        Ok(())
    }
}
