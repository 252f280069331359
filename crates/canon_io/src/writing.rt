//! Writes whole.
ghost use Rattle.std.specs.Prelude.{◌≡◌, ◌↔◌, false, IsTrue, IsErr, OnOk, OnErr};
ghost use Rattle.std.specs.Io.KnownBytes.{Appends, Keeps};
ghost use Rattle.canon_io.specs.Watch.{fresh};
ghost use Rattle.canon_io.specs.Watched.{inner_of, watch_of, has_failed, is_flushed};
ghost use Rattle.canon_io.specs.Bytes.{AppendsFront};

use crate::watched::Watched;
use std::io::Write;

/// The writer failed: it says so itself from now on.
#[derive(Clone, Copy, Debug, PartialEq, Eq)]
pub struct WriteFailed;

/// Writes all these bytes, in as many writes as it takes. An interrupted write is tried again.
///
/// # Errors
///
/// `WriteFailed` where the writer failed, as `Watched` counts it. A front of the bytes was written
/// then, and not all of them.
pub fn write_all_watched<W: Write>(writer: &mut Watched<W>, bytes: &[u8]) -> Result<(), WriteFailed>
    requires { has_failed writer.old ≡ false }
    ensures ok { OnOk result (Appends (W.contents (inner_of writer.old))
        (W.contents (inner_of writer.new)) bytes.now) }
    ensures err { OnErr result (AppendsFront (W.contents (inner_of writer.old))
        (W.contents (inner_of writer.new)) bytes.now) }
    ensures failed { IsTrue (has_failed writer.new) ↔ IsErr result }
{
    let mut rest = bytes;
    while !rest.is_empty() {
        if writer.failed() {
            return Err(WriteFailed);
        }
        if let Ok(count) = writer.write(rest) {
            rest = &rest[count..];
        }
    }
    Ok(())
}

/// Flushes the writer. An interrupted flush is tried again.
///
/// # Errors
///
/// `WriteFailed` where the writer failed, as `Watched` counts it.
pub fn flush_watched<W: Write>(writer: &mut Watched<W>) -> Result<(), WriteFailed>
    requires { has_failed writer.old ≡ false }
    ensures bytes { Keeps (W.contents (inner_of writer.old)) (W.contents (inner_of writer.new)) }

    // The last answer is that of a flush that went well.
    ensures ok { OnOk result (watch_of writer.new ≡ fresh) }
    ensures flushed { OnOk result (IsTrue (is_flushed writer.new)) }
    ensures failed { IsTrue (has_failed writer.new) ↔ IsErr result }
{
    while !writer.failed() {
        if writer.flush().is_ok() {
            return Ok(());
        }
    }
    Err(WriteFailed)
}
