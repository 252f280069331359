//! Reads to the end, within a limit.
ghost use Rattle.std.specs.Prelude.{◌≡◌, ◌↔◌, ◌+◌, ◌^◌, ◌<◌, ◌≤◌, false, take, drop, length, vec_len, is_none, IsTrue};
ghost use Rattle.std.specs.Prelude.{IsErr, IfSome, IfNone, IfOk, OnOk, OnErr};
ghost use Rattle.std.specs.Io.KnownBytes.{Consumes, IsAtEnd, Keeps};
ghost use Rattle.canon_io.specs.Watched.{inner_of, has_failed};
ghost use Rattle.canon_io.specs.Bytes.{ConsumesAtMost, ConsumesExactly};

use crate::watched::Watched;
use std::alloc::{AllocError, Global};
use std::io::Read;

/// Why a reader was not read to its end.
#[derive(Clone, Copy, Debug, PartialEq, Eq)]
pub enum ReadFault {
    /// Memory for more bytes was refused.
    Memory,
    /// The reader failed: it says so itself from now on.
    Failed,
    /// It has more bytes than the limit.
    TooLong,
}

/// There is room for so many bytes before the first read.
const FIRST_ROOM: usize = 8 * 1024;

/// The room doubles, but by no more than this, until a quarter of it is more: then it grows by a quarter.
const LARGEST_DOUBLED: usize = 64 * 1024;

/// Reads the reader to its end, at most `limit` bytes and one more. An interrupted read is tried
/// again. The vector has room for at most a quarter more than the bytes that were read, or for
/// 64 KiB more.
///
/// # Errors
///
/// `Memory` where a growth was refused. `Failed` where the reader failed, as `Watched` counts it.
/// `TooLong` where it gave more than `limit` bytes. What was read before an error is lost.
pub fn read_within<R: Read>(
    alloc: Global,
    limit: usize,
    reader: &mut Watched<R>,
) -> Result<Vec<u8>, ReadFault>
    requires small { limit ≤ 2 ^ 30 }
    requires sound { has_failed reader.old ≡ false }

    // All the bytes, and none is left.
    ensures whole { IfOk result (λ v. IfSome (R.remaining (inner_of reader.old))
        (λ xs. v.items ≡ xs)) }
    ensures consumed { IfOk result (λ v. Consumes (R.remaining (inner_of reader.old))
        (R.remaining (inner_of reader.new)) v.items) }
    ensures end { OnOk result (IsAtEnd (R.remaining (inner_of reader.new))) }
    ensures fits { IfOk result (λ v. vec_len v ≤ limit) }

    // One byte past the limit shows that there are more.
    ensures too_long { result ≡ Err ReadFault.TooLong
        → ConsumesExactly (R.remaining (inner_of reader.old))
        (R.remaining (inner_of reader.new)) (limit + 1) }
    ensures longer { result ≡ Err ReadFault.TooLong
        → IfSome (R.remaining (inner_of reader.old)) (λ xs. limit < length xs) }
    ensures within { ConsumesAtMost (R.remaining (inner_of reader.old))
        (R.remaining (inner_of reader.new)) (limit + 1) }
    ensures failed { IsTrue (has_failed reader.new) ↔ (result ≡ Err ReadFault.Failed) }
{
    let mut bytes = Vec::new(alloc);
    let mut filled = 0usize;
    while filled <= limit {
        match read_more(reader, &mut bytes, filled, limit + 1) {
            Ok(0) => {
                bytes.truncate(filled);
                return Ok(bytes);
            }
            Ok(count) => filled += count,
            Err(fault) => return Err(fault),
        }
    }
    Err(ReadFault::TooLong)
}

// One read into `bytes` after those that are `filled`, up to `most` in all. Room is made first, so
// that no byte is lost where memory is refused.
fn read_more<R: Read>(
    reader: &mut Watched<R>,
    bytes: &mut Vec<u8>,
    filled: usize,
    most: usize,
) -> Result<usize, ReadFault>
    requires within { filled ≤ vec_len bytes.old }
    requires below { filled < most }
    requires most { vec_len bytes.old ≤ most }
    requires small { most ≤ 2 ^ 30 + 1 }
    requires sound { has_failed reader.old ≡ false }
    ensures within { filled ≤ vec_len bytes.new }
    ensures most { vec_len bytes.new ≤ most }
    ensures front { take filled bytes.new.items ≡ take filled bytes.old.items }
    ensures fits { IfOk result (λ count. filled + count ≤ vec_len bytes.new) }
    ensures ok { IfOk result (λ count. Consumes (R.remaining (inner_of reader.old))
        (R.remaining (inner_of reader.new)) (take count (drop filled bytes.new.items))) }
    ensures end { IfOk result (λ count. count ≡ 0 → IsAtEnd (R.remaining (inner_of reader.new))) }
    ensures err { OnErr result (Keeps (R.remaining (inner_of reader.old))
        (R.remaining (inner_of reader.new))) }
    ensures short { result ≡ Err ReadFault.TooLong → ⊥ }
    ensures failed { IsTrue (has_failed reader.new) ↔ (result ≡ Err ReadFault.Failed) }
{
    if make_room(bytes, filled, most).is_err() {
        return Err(ReadFault::Memory);
    }
    match read_at(reader, bytes.as_mut_slice(), filled) {
        Some(count) => Ok(count),
        None => Err(ReadFault::Failed),
    }
}

// Makes `bytes` longer than `filled`, by zeros, and at most `most` long.
fn make_room(bytes: &mut Vec<u8>, filled: usize, most: usize) -> Result<(), AllocError>
    requires within { filled ≤ vec_len bytes.old }
    requires below { filled < most }
    requires most { vec_len bytes.old ≤ most }
    requires small { most ≤ 2 ^ 30 + 1 }
    ensures within { filled ≤ vec_len bytes.new }
    ensures most { vec_len bytes.new ≤ most }
    ensures front { take filled bytes.new.items ≡ take filled bytes.old.items }
    ensures room { OnOk result (filled < vec_len bytes.new) }
{
    if filled < bytes.len() {
        return Ok(());
    }
    let growth = FIRST_ROOM.max(filled.min(LARGEST_DOUBLED)).max(filled / 4);
    let end = most.min(filled + growth);
    bytes.reserve_exact(end - filled)?;
    bytes.resize(end, 0)
}

// One read into `buf` from `at` on, tried again where it is interrupted. None where the reader
// failed.
fn read_at<R: Read>(reader: &mut Watched<R>, buf: &mut [u8], at: usize) -> Option<usize>
    requires room { at < length buf.old }
    requires sound { has_failed reader.old ≡ false }
    ensures front { take at buf.new ≡ take at buf.old }
    ensures fits { IfSome result (λ count. at + count ≤ length buf.new) }
    ensures some { IfSome result (λ count. Consumes (R.remaining (inner_of reader.old))
        (R.remaining (inner_of reader.new)) (take count (drop at buf.new))) }
    ensures end { IfSome result (λ count. count ≡ 0 → IsAtEnd (R.remaining (inner_of reader.new))) }
    ensures none { IfNone result (Keeps (R.remaining (inner_of reader.old))
        (R.remaining (inner_of reader.new))) }
    ensures failed { has_failed reader.new ≡ is_none result }
{
    read_retrying(reader, &mut buf[at..])
}

// One read, tried again where it is interrupted. None where the reader failed.
fn read_retrying<R: Read>(reader: &mut Watched<R>, buf: &mut [u8]) -> Option<usize>
    requires { has_failed reader.old ≡ false }
    ensures fits { IfSome result (λ count. count ≤ length buf.new) }
    ensures some { IfSome result (λ count. Consumes (R.remaining (inner_of reader.old))
        (R.remaining (inner_of reader.new)) (take count buf.new)) }
    ensures end { IfSome result (λ count. count ≡ 0 → 0 < length buf.old
        → IsAtEnd (R.remaining (inner_of reader.new))) }
    ensures none { IfNone result (Keeps (R.remaining (inner_of reader.old))
        (R.remaining (inner_of reader.new))) }
    ensures failed { has_failed reader.new ≡ is_none result }
{
    while !reader.failed() {
        if let Ok(count) = reader.read(buf) {
            return Some(count);
        }
    }
    None
}
