//! The tables of a text, made once.

ghost use Rattle.rust_map.specs.Bytes.{begins_character, begun, is_narrow};
ghost use Rattle.rust_map.specs.Places.{is_line_feed};
ghost use Rattle.rust_map.specs.Tables.{byte_steps_from, byte_steps_of, line_starts_of, starts_by};
ghost use Rattle.std.specs.List.Sorted.{IsNonDecreasing, IsPartitionPoint};
ghost use Rattle.std.specs.List.{list_all, list_any};
ghost use Rattle.std.specs.Prelude.{◌∷◌, ◌++◌, ◌≡◌, ◌+◌, ◌<◌, ◌≤◌, ◌^◌, length, IfOk, OnOk, true};
ghost use Rattle.std.specs.Str.{chars};
ghost use Rattle.text_chars.specs.Chars.{narrow};

use std::alloc::{AllocError, Global};
use text_chars::{Test, all_pass, char_at};

/// So many characters lie between two entries of the table of bytes.
pub(crate) const STEP: usize = 128;

/// So many bytes are counted together: few enough that a count of them is a byte.
const CHUNK: usize = 64;

/// So many bytes are looked at together for a line feed.
const SHORT_CHUNK: usize = 16;

/// The characters and the lines of a text.
#[derive(Drop)]
pub(crate) struct Lines {
    /// How many characters the text has.
    pub(crate) characters: u32,
    /// Where its lines begin, in characters from 0.
    pub(crate) starts: Vec<u32>,
}

/// Whether a byte of a text begins a character.
#[inline(always)]
fn begins_character(byte: u8) -> bool
    ensures { result ≡ begins_character byte }
{
    (byte < 128) | (192 <= byte)
}

/// How many characters begin in few bytes of a text. The count is a byte, so that many bytes are seen at once.
#[inline(always)]
fn begun_in_few(bytes: &[u8]) -> u8
    requires { length bytes.now < 256 }
    ensures { result ≡ begun bytes.now }
{
    let mut count = 0u8;
    for byte in bytes {
        count += begins_character(*byte) as u8;
    }
    count
}

/// How many characters begin in bytes of a text.
fn begun(bytes: &[u8]) -> usize
    ensures { result ≡ begun bytes.now }
{
    let mut count = 0usize;
    let mut rest = bytes;
    while rest.len() >= CHUNK {
        let (chunk, behind) = rest.split_at(CHUNK);
        count += begun_in_few(chunk) as usize;
        rest = behind;
    }
    count + begun_in_few(rest) as usize
}

/// Whether a line feed stands among bytes of a text. It looks at all of them, so that many are seen at once.
#[inline(always)]
fn has_line_feed(bytes: &[u8]) -> bool
    ensures { result ≡ list_any is_line_feed bytes.now }
{
    let mut found = false;
    for byte in bytes {
        found |= *byte == b'\n';
    }
    found
}

/// A character of ASCII.
struct Narrow;

impl Test for Narrow {
    ghost test = { is_narrow };

    #[inline(always)]
    fn passes(c: char) -> bool {
        c < '\u{80}'
    }

    #[inline(always)]
    fn passes_byte(byte: u8) -> bool {
        byte < 128
    }
}

/// Adds where lines begin behind the line feeds among bytes of a text, before which so many characters stand.
/// Answers how many stand behind them.
fn push_starts(starts: &mut Vec<u32>, bytes: &[u8], before: u32) -> Result<u32, AllocError>
    requires { before + begun bytes.now < 2 ^ 32 }
    ensures starts { OnOk result (starts.new.items ≡ starts.old.items ++ starts_by before bytes.now) }
    ensures count { IfOk result (λ count. count ≡ before + begun bytes.now) }
{
    let mut characters = before;
    for byte in bytes {
        if begins_character(*byte) {
            characters += 1;
        }
        if *byte == b'\n' {
            starts.push(characters)?;
        }
    }
    Ok(characters)
}

/// The same among bytes of ASCII, each of which is a character.
#[inline(always)]
fn push_narrow_starts(starts: &mut Vec<u32>, bytes: &[u8], before: u32) -> Result<u32, AllocError>
    requires room { before + begun bytes.now < 2 ^ 32 }
    requires narrow { list_all (narrow is_narrow) bytes.now ≡ true }
    ensures starts { OnOk result (starts.new.items ≡ starts.old.items ++ starts_by before bytes.now) }
    ensures count { IfOk result (λ count. count ≡ before + begun bytes.now) }
{
    let mut characters = before;
    for byte in bytes {
        characters += 1;
        if *byte == b'\n' {
            starts.push(characters)?;
        }
    }
    Ok(characters)
}

/// How many characters a text has, which is what `SourceMap::room` asks.
pub fn characters(text: &str) -> usize
    ensures { result ≡ length (chars text.now) }
{
    if text.len() == 1 {
        return 1;
    }
    begun(text.as_bytes())
}

/// How many characters a text has, and where its lines begin, by one walk over its bytes: over many at once
/// where no line feed stands among them.
pub(crate) fn count_lines(alloc: Global, text: &str) -> Result<Lines, AllocError>
    requires { length (chars text.now) < 2 ^ 32 }
    ensures count { IfOk result (λ lines. lines.characters ≡ length (chars text.now)) }
    ensures starts { IfOk result (λ lines. lines.starts.items ≡ line_starts_of (chars text.now)) }
{
    let mut starts = Vec::new(alloc);
    starts.push(0)?;
    let mut characters = 0u32;
    let mut rest = text.as_bytes();
    while rest.len() >= SHORT_CHUNK {
        let (chunk, behind) = rest.split_at(SHORT_CHUNK);
        if !has_line_feed(chunk) {
            characters += begun_in_few(chunk) as u32;
        } else if all_pass::<Narrow>(chunk) {
            characters = push_narrow_starts(&mut starts, chunk, characters)?;
        } else {
            characters = push_starts(&mut starts, chunk, characters)?;
        }
        rest = behind;
    }
    characters = push_starts(&mut starts, rest, characters)?;
    Ok(Lines { characters, starts })
}

/// The table of bytes of a text that has so many characters: none is needed where it is ASCII.
pub(crate) fn byte_steps(alloc: Global, text: &str, count: usize) -> Result<Vec<usize>, AllocError>
    requires { count ≡ length (chars text.now) }
    ensures { IfOk result (λ steps. steps.items ≡ byte_steps_of (chars text.now)) }
{
    if text.len() == count {
        return Ok(Vec::new(alloc));
    }
    every_step(alloc, text)
}

/// The byte at which a text begins, and the bytes behind every 128th character.
fn every_step(alloc: Global, text: &str) -> Result<Vec<usize>, AllocError>
    ensures { IfOk result (λ steps. steps.items ≡ 0 ∷ byte_steps_from 0 0 (chars text.now)) }
{
    let mut steps = Vec::new(alloc);
    steps.push(0)?;
    let bytes = text.as_bytes();
    let mut at = 0;
    let mut count = 0usize;
    while at < bytes.len() {
        if count % STEP == 0
            && bytes.len() - at >= STEP
            && all_pass::<Narrow>(&bytes[at..at + STEP])
        {
            at += STEP;
            count += STEP;
            steps.push(at)?;
            continue;
        }
        let (_, next) = char_at(text, at);
        at = next;
        count += 1;
        if count % STEP == 0 {
            steps.push(at)?;
        }
    }
    Ok(steps)
}

/// How many of the lines, whose starts ascend, begin up to a count of characters.
pub(crate) fn lines_begun(starts: &[u32], count: u32) -> usize
    requires { IsNonDecreasing starts.now }
    ensures bound { result ≤ length starts.now }
    ensures split { IsPartitionPoint (λ start. start ≤ count) (λ start. count < start) starts.now result }
{
    starts.partition_point(|start| *start <= count)
}
