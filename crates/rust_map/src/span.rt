//! Spans, and what a map says of them.

ghost use Rattle.rust_map.specs.Answers as answers;
ghost use Rattle.rust_map.specs.Sources.{LiesAsPart, is_held};
ghost use Rattle.rust_map.specs.Spans.{call_site, first_of, last_of, part_within, span_length, span_part};
ghost use Rattle.std.specs.Prelude.{
  ◌≡◌,
  ◌==◌,
  ◌&&◌,
  ◌+◌,
  ◌-◌,
  ◌<◌,
  ◌≤◌,
  ◌↔◌,
  IfOk,
  IfSome,
  IsNone,
  IsTrue,
  option_map,
  string_bytes,
  if◌then◌else◌,
};
ghost use Rattle.std.specs.Str.{chars};

use crate::place::LineColumn;
use crate::source_map::SourceMap;
use std::alloc::{AllocError, Global};
use std::ops::Range;
use std::path::PathBuf;

/// A part of a text of a map, or the call site, which lies in no text.
#[derive(Clone, Copy, Debug)]
pub struct Span {
    /// The position at which it starts.
    pub(crate) start: u32,
    /// The position at which it ends.
    pub(crate) end: u32,
}

impl Span {
    /// The span of what no text has: at line 1 and column 0 of no file.
    pub fn call_site() -> Span
        ensures { result ≡ call_site }
    {
        Span { start: 0, end: 0 }
    }

    /// The same as `call_site`.
    pub fn mixed_site() -> Span
        ensures { result ≡ call_site }
    {
        Span::call_site()
    }

    /// The same as `call_site`.
    pub fn def_site() -> Span
        ensures { result ≡ call_site }
    {
        Span::mixed_site()
    }

    /// This span, with names looked up as at the other one, which makes no difference here.
    pub fn resolved_at(&self, other: Span) -> Span
        ensures { result ≡ self.now }
    {
        other.located_at(*self)
    }

    /// The other span, with names looked up as at this one, which makes no difference here.
    pub fn located_at(&self, location: Span) -> Span
        ensures { result ≡ location }
    {
        location
    }

    /// Whether both are one pair of positions.
    pub fn eq(&self, other: &Span) -> bool
        ensures { IsTrue result ↔ (self.now ≡ other.now) }
    {
        self.start == other.start && self.end == other.end
    }

    /// How many characters it covers.
    pub fn characters(&self) -> u32
        ensures { result ≡ span_length self.now }
    {
        self.end.saturating_sub(self.start)
    }

    /// Its part between two counts of characters from its start, from 0. The first may not be past the
    /// second, nor the second past the span's end: `checked_part` tests both.
    #[inline(always)]
    pub fn part(&self, from: u32, to: u32) -> Span
        requires ordered { from ≤ to }
        requires within { self.now.start + to ≤ self.now.end }
        ensures part { result ≡ span_part self.now from to }
        ensures lies { LiesAsPart self.now from to result }
    {
        let span = *self;
        Span {
            start: span.start + from,
            end: span.start + to,
        }
    }

    /// Its part between two counts of characters from its start, from 0; `None` where the first is past
    /// the second, or this one past the span's end.
    pub fn checked_part(&self, from: usize, to: usize) -> Option<Span>
        ensures part { result ≡ part_within self.now from to }
        ensures lies { IfSome result (LiesAsPart self.now from to) }
    {
        let length = self.end.checked_sub(self.start)? as usize;
        if from <= to && to <= length {
            Some(self.part(from as u32, to as u32))
        } else {
            None
        }
    }

    /// Its first character, or the span itself where it is empty.
    pub fn first_character(&self) -> Span
        ensures { result ≡ first_of self.now }
    {
        if self.start < self.end {
            self.part(0, 1)
        } else {
            *self
        }
    }

    /// Its last character, or the span itself where it is empty.
    pub fn last_character(&self) -> Span
        ensures { result ≡ last_of self.now }
    {
        let count = self.characters();
        if 0 < count {
            self.part(count - 1, count)
        } else {
            *self
        }
    }

    /// The place of its first character: line from 1, column in characters from 0. That of the call site
    /// is line 1, column 0.
    ///
    /// The map has to hold the span, as `SourceMap::holds` tests.
    pub fn start(&self, map: &SourceMap) -> LineColumn
        requires { IsTrue (is_held map.now self.now) }
        ensures { result ≡ answers.start_place map.now self.now }
    {
        match map.find(self) {
            Some(found) => found.file.place(found.from),
            None => NO_PLACE,
        }
    }

    /// The place behind its last character: line from 1, column in characters from 0. That of the call
    /// site is line 1, column 0.
    ///
    /// The map has to hold the span, as `SourceMap::holds` tests.
    pub fn end(&self, map: &SourceMap) -> LineColumn
        requires { IsTrue (is_held map.now self.now) }
        ensures { result ≡ answers.end_place map.now self.now }
    {
        match map.find(self) {
            Some(found) => found.file.place(found.to),
            None => NO_PLACE,
        }
    }

    /// The bytes that it covers, counted from 0 at the front of its text; 0 to 0 for the call site.
    ///
    /// The map has to hold the span, as `SourceMap::holds` tests.
    pub fn byte_range(&self, map: &SourceMap) -> Range<usize>
        requires { IsTrue (is_held map.now self.now) }
        ensures start { result.start ≡ answers.start_byte map.now self.now }
        ensures end { result.end ≡ answers.end_byte map.now self.now }
    {
        match map.find(self) {
            Some(found) => found.file.byte(found.from)..found.file.byte(found.to),
            None => 0..0,
        }
    }

    /// A copy of the text that it covers; `None` for the call site.
    ///
    /// The map has to hold the span, as `SourceMap::holds` tests. An error says that there was no memory
    /// for the copy.
    pub fn source_text(&self, alloc: Global, map: &SourceMap) -> Result<Option<String>, AllocError>
        requires { IsTrue (is_held map.now self.now) }
        ensures { IfOk result (λ text. option_map (λ t. chars (string_bytes t)) text
            ≡ answers.source_of map.now self.now) }
    {
        match map.find(self) {
            Some(found) => Ok(Some(String::from_str(
                alloc,
                found.file.between(found.from, found.to),
            )?)),
            None => Ok(None),
        }
    }

    /// The name of its file: `<parsed string N>`, N counting the texts of the map from 1, or
    /// `<unspecified>` for the call site.
    ///
    /// The map has to hold the span, as `SourceMap::holds` tests. An error says that there was no memory
    /// for the name.
    pub fn file(&self, alloc: Global, map: &SourceMap) -> Result<String, AllocError>
        requires { IsTrue (is_held map.now self.now) }
        ensures { IfOk result (λ name. string_bytes name ≡ answers.file_name map.now self.now) }
    {
        match map.find(self) {
            Some(found) => format!(in alloc; "<parsed string {}>", found.number),
            None => String::from_str(alloc, "<unspecified>"),
        }
    }

    /// The path of its file in the file system: always `None`, as no span lies in one.
    ///
    /// The map has to hold the span, as `SourceMap::holds` tests.
    pub fn local_file(&self, map: &SourceMap) -> Option<PathBuf>
        requires { IsTrue (is_held map.now self.now) }
        ensures { IsNone result }
    {
        let _ = map;
        None
    }

    /// The least span that covers both; `None` if they lie in different files.
    ///
    /// The map has to hold both spans, as `SourceMap::holds` tests.
    pub fn join(&self, other: Span, map: &SourceMap) -> Option<Span>
        requires this { IsTrue (is_held map.now self.now) }
        requires other { IsTrue (is_held map.now other) }
        ensures { result ≡ answers.join_of map.now self.now other }
    {
        let joined = Span {
            start: self.start.min(other.start),
            end: self.end.max(other.end),
        };
        match (map.find(self), map.find(&other)) {
            (Some(a), Some(b)) if a.number == b.number => Some(joined),
            (None, None) => Some(joined),
            _ => None,
        }
    }
}

const NO_PLACE: LineColumn = LineColumn { line: 1, column: 0 };
