//! A text of the map, with its tables.

ghost use Rattle.rust_map.specs.Bytes.{between_counts, byte_count};
ghost use Rattle.rust_map.specs.Tables.{byte_steps_of, line_starts_of};
ghost use Rattle.rust_map.specs.Places.{place_of};
ghost use Rattle.std.specs.Prelude.{◌≡◌, ◌<◌, ◌≤◌, ◌^◌, length, IfOk};
ghost use Rattle.std.specs.Str.{chars};
ghost use Rattle.std.specs.String.{string_bytes};

use crate::place::LineColumn;
use crate::span::Span;
use crate::tables::{Lines, STEP, byte_steps, count_lines, lines_begun};
use crate::walk::byte_behind;
use std::alloc::{AllocError, Global};

/// A text of the map. Characters and bytes of it are counted from 0.
#[derive(Drop)]
pub(crate) struct SourceFile {
    /// The position of its first character.
    pub(crate) base: u32,
    /// The text.
    pub(crate) text: String,
    /// How many characters it has.
    pub(crate) characters: u32,
    /// Where its lines begin, in characters.
    line_starts: Vec<u32>,
    /// The bytes at which every 128th character begins; none where the text is ASCII.
    byte_steps: Vec<usize>,

    ghost counted: { characters ≡ length (chars (string_bytes text)) },
    ghost lines: { line_starts.items ≡ line_starts_of (chars (string_bytes text)) },
    ghost steps: { byte_steps.items ≡ byte_steps_of (chars (string_bytes text)) },
}

impl SourceFile {
    ghost use Rattle.rust_map.specs.Files.{text_of};
    ghost use Rattle.rust_map.specs.Sources.{counts_in};

    /// A copy of a text at a position.
    pub(crate) fn new(alloc: Global, base: u32, text: &str) -> Result<SourceFile, AllocError>
        requires { length (chars text.now) < 2 ^ 32 }
        ensures base { IfOk result (λ file. file.base ≡ base) }
        ensures text { IfOk result (λ file. text_of file ≡ chars text.now) }
    {
        let Lines { characters, starts } = count_lines(alloc, text)?;
        let byte_steps = byte_steps(alloc, text, characters as usize)?;
        let text = String::from_str(alloc, text)?;
        Ok(SourceFile {
            base,
            text,
            characters,
            line_starts: starts,
            byte_steps,
        })
    }

    /// The counts of characters between which a span lies in this file, if it does.
    pub(crate) fn counts(&self, span: &Span) -> Option<(u32, u32)>
        ensures { result ≡ counts_in self.now.base (text_of self.now) span.now }
    {
        if self.base <= span.start
            && span.start <= span.end
            && span.end - self.base <= self.characters
        {
            Some((span.start - self.base, span.end - self.base))
        } else {
            None
        }
    }

    /// The place after so many characters.
    pub(crate) fn place(&self, count: u32) -> LineColumn
        requires { count ≤ length (text_of self.now) }
        ensures { result ≡ place_of (text_of self.now) count }
    {
        let line = lines_begun(&self.line_starts, count);
        LineColumn {
            line,
            column: (count - self.line_starts[line - 1]) as usize,
        }
    }

    /// The byte behind so many characters.
    pub(crate) fn byte(&self, count: u32) -> usize
        requires { count ≤ length (text_of self.now) }
        ensures { result ≡ byte_count (text_of self.now) count }
    {
        let count = count as usize;
        let text = self.text.as_str();
        if text.len() == self.characters as usize {
            return count;
        }
        byte_behind(text, self.byte_steps[count / STEP], count % STEP)
    }

    /// The text between two counts of characters.
    pub(crate) fn between(&self, from: u32, to: u32) -> &str
        requires ordered { from ≤ to }
        requires there { to ≤ length (text_of self.now) }
        ensures { chars result.now ≡ between_counts (text_of self.now) from to }
    {
        let start = self.byte(from);
        let end = self.byte(to);
        &self.text.as_str()[start..end]
    }
}
