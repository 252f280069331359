//! Runs: from a reader to a writer.

ghost use Rattle.canon.specs.Run.{IsOutlinePage, IsPage, IsPageOf, IsRunFault, Writes, WritesFront, run_limit};
ghost use Rattle.canon.specs.JoinedRun.{AreUtf8, IsJoinedFault, IsJoinedPage, IsTooLong, bytes_of};
ghost use Rattle.canon_io.specs.Bytes.{ConsumesAtMost};
ghost use Rattle.canon_io.specs.Watched.{has_failed, inner_of, is_flushed};
ghost use Rattle.std.specs.Io.KnownBytes.{Appends};
ghost use Rattle.std.specs.Prelude.{◌≡◌, ◌+◌, ◌≤◌, ◌↔◌, ◌⊎◌, ℕ, Err, IfErr, IfOk, IfSome};
ghost use Rattle.std.specs.Prelude.{IsTrue, OnErr, OnOk, false};
ghost use Rattle.std.specs.Prelude.{string_bytes, take};

use crate::fault::Fault;
use crate::pages::{Page, joined_page, page_of_bytes};
use canon_io::reading::read_within;
use canon_io::watched::Watched;
use canon_io::writing::{flush_watched, write_all_watched};
use std::alloc::Global;
use std::io::{Read, Write};

/// A run takes at most so many bytes, where it is given no limit of its own.
const LIMIT: usize = 1 << 30;

/// Reads all, then writes the canonical form and a line feed, and flushes. Interrupted reads, writes and
/// flushes are tried again. At most 2^30 bytes are read, and one more.
///
/// # Errors
///
/// Nothing has been written but for `Writing`, where a front of the output has.
/// `Reading` and `Writing` exactly where the reader or the writer failed in this call; `MapFull`
/// exactly past 2^30 bytes; else `NotUtf8` exactly where the bytes are no text; else the fault that
/// `canonical` answers. `Memory` only where a growth was refused.
pub fn run<R: Read, W: Write>(
    alloc: Global,
    reader: &mut Watched<R>,
    writer: &mut Watched<W>,
) -> Result<(), Fault>
    requires reader { has_failed reader.old ≡ false }
    requires writer { has_failed writer.old ≡ false }

    // What is written, and what is at fault, by the bytes that the reader had.
    ensures page { OnOk result (IfSome (R.remaining (inner_of reader.old)) (λ bytes.
        Writes (IsPage run_limit bytes) (W.contents (inner_of writer.old)) (W.contents (inner_of writer.new)))) }
    ensures fault { IfErr result (λ f. IfSome (R.remaining (inner_of reader.old))
        (λ bytes. IsRunFault run_limit bytes f)) }
    ensures front { result ≡ Err Fault.Writing → IfSome (R.remaining (inner_of reader.old)) (λ bytes.
        WritesFront (IsPage run_limit bytes) (W.contents (inner_of writer.old))
        (W.contents (inner_of writer.new))) }

    // Nothing is written on a refusal.
    ensures untouched { IfErr result (λ f. (f ≡ Fault.Writing → ⊥) → writer.new ≡ writer.old) }

    // The streams are at fault exactly where they failed.
    ensures reading { IsTrue (has_failed reader.new) ↔ (result ≡ Err Fault.Reading) }
    ensures writing { IsTrue (has_failed writer.new) ↔ (result ≡ Err Fault.Writing) }
    ensures at_most { ConsumesAtMost (R.remaining (inner_of reader.old)) (R.remaining (inner_of reader.new))
        (run_limit + 1) }

    // The last call of the writer was a flush that went well.
    ensures flushed { OnOk result (IsTrue (is_flushed writer.new)) }
{
    run_limited(alloc, LIMIT, reader, writer)
}

/// The same as `run`, but of at most `limit` bytes, which may be at most 2^30: so many are read, and one more.
///
/// # Errors
///
/// Those of `run`, but `MapFull` exactly past `limit` bytes. Nothing is written then, whatever the text is.
pub fn run_limited<R: Read, W: Write>(
    alloc: Global,
    limit: usize,
    reader: &mut Watched<R>,
    writer: &mut Watched<W>,
) -> Result<(), Fault>
    requires limit { limit ≤ run_limit }
    requires reader { has_failed reader.old ≡ false }
    requires writer { has_failed writer.old ≡ false }

    // What is written, and what is at fault, by the bytes that the reader had.
    ensures page { OnOk result (IfSome (R.remaining (inner_of reader.old)) (λ bytes.
        Writes (IsPage limit bytes) (W.contents (inner_of writer.old)) (W.contents (inner_of writer.new)))) }
    ensures fault { IfErr result (λ f. IfSome (R.remaining (inner_of reader.old))
        (λ bytes. IsRunFault limit bytes f)) }
    ensures front { result ≡ Err Fault.Writing → IfSome (R.remaining (inner_of reader.old)) (λ bytes.
        WritesFront (IsPage limit bytes) (W.contents (inner_of writer.old)) (W.contents (inner_of writer.new))) }

    // Nothing is written on a refusal.
    ensures untouched { IfErr result (λ f. (f ≡ Fault.Writing → ⊥) → writer.new ≡ writer.old) }

    // The streams are at fault exactly where they failed.
    ensures reading { IsTrue (has_failed reader.new) ↔ (result ≡ Err Fault.Reading) }
    ensures writing { IsTrue (has_failed writer.new) ↔ (result ≡ Err Fault.Writing) }
    ensures at_most { ConsumesAtMost (R.remaining (inner_of reader.old)) (R.remaining (inner_of reader.new))
        (limit + 1) }

    // The last call of the writer was a flush that went well.
    ensures flushed { OnOk result (IsTrue (is_flushed writer.new)) }
{
    let page = page_of(alloc, Page::Canonical, limit, reader)?;
    put_page(writer, page.as_bytes())
}

/// Reads all, then writes the outline, a line for each row: its kind, its name and its place, as `fn go 2:3`. All else
/// is as `run` does it.
///
/// # Errors
///
/// Those of `run`: `outline` answers the faults of `canonical`.
pub fn run_outline<R: Read, W: Write>(
    alloc: Global,
    reader: &mut Watched<R>,
    writer: &mut Watched<W>,
) -> Result<(), Fault>
    requires reader { has_failed reader.old ≡ false }
    requires writer { has_failed writer.old ≡ false }

    // What is written, and what is at fault, by the bytes that the reader had.
    ensures page { OnOk result (IfSome (R.remaining (inner_of reader.old)) (λ bytes.
        Writes (IsOutlinePage run_limit bytes) (W.contents (inner_of writer.old))
        (W.contents (inner_of writer.new)))) }
    ensures fault { IfErr result (λ f. IfSome (R.remaining (inner_of reader.old))
        (λ bytes. IsRunFault run_limit bytes f)) }
    ensures front { result ≡ Err Fault.Writing → IfSome (R.remaining (inner_of reader.old)) (λ bytes.
        WritesFront (IsOutlinePage run_limit bytes) (W.contents (inner_of writer.old))
        (W.contents (inner_of writer.new))) }

    // Nothing is written on a refusal.
    ensures untouched { IfErr result (λ f. (f ≡ Fault.Writing → ⊥) → writer.new ≡ writer.old) }

    // The streams are at fault exactly where they failed.
    ensures reading { IsTrue (has_failed reader.new) ↔ (result ≡ Err Fault.Reading) }
    ensures writing { IsTrue (has_failed writer.new) ↔ (result ≡ Err Fault.Writing) }
    ensures at_most { ConsumesAtMost (R.remaining (inner_of reader.old)) (R.remaining (inner_of reader.new))
        (run_limit + 1) }

    // The last call of the writer was a flush that went well.
    ensures flushed { OnOk result (IsTrue (is_flushed writer.new)) }
{
    let page = page_of(alloc, Page::Outline, LIMIT, reader)?;
    put_page(writer, page.as_bytes())
}

/// Writes the canonical form of texts that are joined, and a line feed, and flushes. Interrupted writes and flushes are
/// tried again.
///
/// # Errors
///
/// Nothing has been written but for `Writing`, where a front of the output has. `Writing` exactly where the writer
/// failed in this call; else `NotUtf8` exactly where one of them is no text; else the fault that `canonical_joined`
/// answers in a map without texts. `Memory` only where a growth was refused.
pub fn run_joined<W: Write>(
    alloc: Global,
    texts: &[&[u8]],
    writer: &mut Watched<W>,
) -> Result<(), Fault>
    requires writer { has_failed writer.old ≡ false }

    // What is written, and what is at fault.
    ensures page { OnOk result (Writes (IsJoinedPage (bytes_of texts.now)) (W.contents (inner_of writer.old))
        (W.contents (inner_of writer.new))) }
    ensures fault { IfErr result (IsJoinedFault (bytes_of texts.now)) }
    ensures front { result ≡ Err Fault.Writing → WritesFront (IsJoinedPage (bytes_of texts.now))
        (W.contents (inner_of writer.old)) (W.contents (inner_of writer.new)) }

    // Texts that are too long are refused, unless memory is refused before.
    ensures too_long { AreUtf8 (bytes_of texts.now) → IsTooLong (bytes_of texts.now)
        → (result ≡ Err Fault.MapFull) ⊎ (result ≡ Err Fault.Memory) }

    // Nothing is written on a refusal.
    ensures untouched { IfErr result (λ f. (f ≡ Fault.Writing → ⊥) → writer.new ≡ writer.old) }

    // The writer is at fault exactly where it failed.
    ensures reading { result ≡ Err Fault.Reading → ⊥ }
    ensures writing { IsTrue (has_failed writer.new) ↔ (result ≡ Err Fault.Writing) }

    // The last call of the writer was a flush that went well.
    ensures flushed { OnOk result (IsTrue (is_flushed writer.new)) }
{
    let page = joined_page(alloc, texts)?;
    put_page(writer, page.as_bytes())
}

// What is written of all that the reader has, which is at most `limit` bytes.
fn page_of<R: Read>(
    alloc: Global,
    page: Page,
    limit: usize,
    reader: &mut Watched<R>,
) -> Result<String, Fault>
    requires limit { limit ≤ run_limit }
    requires reader { has_failed reader.old ≡ false }
    ensures page { IfOk result (λ text. IfSome (R.remaining (inner_of reader.old))
        (λ bytes. IsPageOf page limit bytes (string_bytes text))) }
    ensures fault { IfErr result (λ f. IfSome (R.remaining (inner_of reader.old))
        (λ bytes. IsRunFault limit bytes f)) }
    ensures reading { IsTrue (has_failed reader.new) ↔ (result ≡ Err Fault.Reading) }
    ensures writing { result ≡ Err Fault.Writing → ⊥ }
    ensures at_most { ConsumesAtMost (R.remaining (inner_of reader.old)) (R.remaining (inner_of reader.new))
        (limit + 1) }
{
    let bytes = read_within(alloc, limit, reader)?;
    page_of_bytes(alloc, page, bytes.as_slice())
}

// Writes a page, and flushes.
fn put_page<W: Write>(writer: &mut Watched<W>, page: &[u8]) -> Result<(), Fault>
    requires { has_failed writer.old ≡ false }
    ensures written { OnOk result (Appends (W.contents (inner_of writer.old)) (W.contents (inner_of writer.new))
        page.now) }
    ensures front { OnErr result ((count : ℕ) × Appends (W.contents (inner_of writer.old))
        (W.contents (inner_of writer.new)) (take count page.now)) }
    ensures fault { IfErr result (λ f. f ≡ Fault.Writing) }
    ensures failed { IsTrue (has_failed writer.new) ↔ (result ≡ Err Fault.Writing) }
    ensures flushed { OnOk result (IsTrue (is_flushed writer.new)) }
{
    write_all_watched(writer, page)?;
    flush_watched(writer)?;
    Ok(())
}
