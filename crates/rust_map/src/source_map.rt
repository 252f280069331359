//! The texts of a map.

ghost use Rattle.rust_map.specs.Sources.{
  KeepsSpots,
  empty_from,
  is_held,
  next_position,
  next_span,
  next_spot,
  spot,
  with_text,
};
ghost use Rattle.std.specs.Prelude.{
  ◌≡◌,
  ◌+◌,
  ◌<◌,
  ◌≤◌,
  ◌^◌,
  ◌↔◌,
  length,
  IfOk,
  IfSome,
  IsOk,
  OnErr,
  OnOk,
  Some,
  option_map,
};
ghost use Rattle.rust_map.specs.declared.file.SourceFile.{SourceFile};
ghost use Rattle.std.specs.List.Sorted.{IsNonDecreasingBy, IsPartitionPoint};
ghost use Rattle.std.specs.Str.{chars};

use crate::file::SourceFile;
use crate::span::Span;
use std::alloc::{AllocError, Global};
use std::error::Error;
use std::fmt;
use std::marker::Model;

/// So many positions a map has, the position 0 of the call site among them.
const POSITIONS: u64 = 1 << 32;

/// The map has no positions left for a text of this length.
#[derive(Clone, Copy, Debug, PartialEq, Eq)]
pub struct MapFull;

impl fmt::Display for MapFull {
    ghost use Rattle.rust_map.specs.Faults.{fault_message};
    ghost use Rattle.rust_map.specs.declared.fault.LexFault.TheVariants as lex_fault;

    ghost output = { λ _. Some (fault_message lex_fault.MapFull) };

    fn fmt<W: fmt::Write>(&self, f: &mut fmt::Formatter<W>) -> fmt::Result {
        f.write_str("source map full")
    }
}

impl Error for MapFull {}

/// The texts that were read, in order, and the positions of their characters.
///
/// A look-up goes to the text by halving, and in the text by two tables, which are made when the text is
/// put in: of lines, with 4 bytes for each line, and of bytes, with 8 bytes for each 128 characters, and
/// none where the text is ASCII. So a text of lines of 32 bytes has 1/8 byte of tables for each byte, and
/// at most 1/16 more where it is not ASCII; a table may keep as much again in reserve. A place takes
/// one more halving, and a byte a walk over fewer than 128 characters.
#[derive(Drop)]
pub struct SourceMap {
    alloc: Global,
    /// The position at which the first text begins.
    first: u32,
    /// The position at which the next text begins, at most 2^32.
    next: u64,
    /// The texts with their tables, in order.
    files: Vec<SourceFile>,
}

impl Model for SourceMap {
    ghost use Rattle.rust_map.specs.Sources.{Sources};

    ghost Value = { Sources };

    ghost use Rattle.rust_map.specs.Files.{IsLaidOut, texts_of};

    ghost view = { λ m. record { start = m.first; texts = texts_of m.files.items } };

    ghost invariant = { λ m. IsLaidOut m.first m.next m.files.items };
}

/// Shows how many texts the map has. The words are no promise.
impl fmt::Debug for SourceMap {
    fn fmt<W: fmt::Write>(&self, f: &mut fmt::Formatter<W>) -> fmt::Result {
        f.debug_struct("SourceMap")
            .field("texts", &self.files.len())
            .finish()
    }
}

/// Where a span lies.
#[derive(Clone, Copy)]
pub(crate) struct Found<'a> {
    /// The number of the file, from 1.
    pub(crate) number: usize,
    /// The file.
    pub(crate) file: &'a SourceFile,
    /// So many characters of the file stand before the span.
    pub(crate) from: u32,
    /// So many characters of the file stand before its end.
    pub(crate) to: u32,
}

impl SourceMap {
    ghost use Rattle.rust_map.specs.Found.{IsWithin, spot_of};

    /// A map without texts, whose first text will begin at position 1.
    pub fn new(alloc: Global) -> SourceMap
        ensures { result ≡ empty_from 1 }
    {
        SourceMap::starting_at(alloc, 1)
    }

    /// A map without texts, whose first text will begin at this position, which has to be at least 1.
    pub fn starting_at(alloc: Global, position: u32) -> SourceMap
        requires { 1 ≤ position }
        ensures { result ≡ empty_from position }
    {
        SourceMap {
            alloc,
            first: position,
            next: position as u64,
            files: Vec::new(alloc),
        }
    }

    /// The position at which its first text begins.
    pub fn starting_position(&self) -> u32
        ensures position { result ≡ self.now.start }
        ensures positive { 1 ≤ result }
    {
        self.first
    }

    /// The position at which a text of so many characters would begin, which takes this position, one
    /// for each further character, and one for its end.
    ///
    /// An error says that it would go past the last position, 2^32 - 1.
    pub fn room(&self, characters: usize) -> Result<u32, MapFull>
        ensures fits { IsOk result ↔ (next_position self.now + characters < 2 ^ 32) }
        ensures position { IfOk result (λ position. position ≡ next_position self.now) }
    {
        if (characters as u64) < POSITIONS - self.next {
            Ok(self.next as u32)
        } else {
            Err(MapFull)
        }
    }

    /// Puts a copy of a text behind the others, and answers the span of all of it.
    ///
    /// There has to be room for its characters, as `room` tests. An error says that there was no memory,
    /// and leaves the map as it was.
    pub fn insert(&mut self, text: &str) -> Result<Span, AllocError>
        requires { next_position self.old + length (chars text.now) < 2 ^ 32 }
        ensures inserted { OnOk result (self.new ≡ with_text self.old (chars text.now)) }
        ensures span { IfOk result (λ span. span ≡ next_span self.old (chars text.now)) }
        ensures spot { IfOk result (λ span. spot self.new span ≡ Some (next_spot self.old (chars text.now))) }
        ensures kept { OnOk result (KeepsSpots self.old self.new) }
        ensures refused { OnErr result (self.new ≡ self.old) }
    {
        let base = self.next as u32;
        let file = SourceFile::new(self.alloc, base, text)?;
        let characters = file.characters;
        self.files.push(file)?;
        self.next = base as u64 + characters as u64 + 1;
        Ok(Span {
            start: base,
            end: base + characters,
        })
    }

    /// Whether the span is the call site or lies in one of the texts.
    pub fn holds(&self, span: Span) -> bool
        ensures { result ≡ is_held self.now span }
    {
        (span.start == 0 && span.end == 0) || self.find(&span).is_some()
    }

    /// Removes all texts: the next one begins where the first one did.
    pub fn invalidate(&mut self)
        ensures { self.new ≡ empty_from self.old.start }
    {
        self.files.clear();
        self.next = self.first as u64;
    }

    /// Where a span lies.
    pub(crate) fn find(&self, span: &Span) -> Option<Found<'_>>
        ensures found { option_map spot_of result ≡ spot self.now span.now }
        ensures within { IfSome result (λ found. IsWithin found) }
    {
        let begun = files_begun(&self.files, span.start);
        if begun == 0 {
            return None;
        }
        let file = &self.files[begun - 1];
        match file.counts(span) {
            Some((from, to)) => Some(Found {
                number: begun,
                file,
                from,
                to,
            }),
            None => None,
        }
    }
}

/// How many of the files, which lie one behind the other, begin up to a position.
fn files_begun(files: &[SourceFile], position: u32) -> usize
    requires { IsNonDecreasingBy (λ (file : SourceFile). file.base) files.now }
    ensures bound { result ≤ length files.now }
    ensures split { IsPartitionPoint (λ (file : SourceFile). file.base ≤ position) (λ file. position < file.base)
        files.now result }
{
    files.partition_point(|file| file.base <= position)
}
