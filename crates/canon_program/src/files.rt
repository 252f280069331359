//! Files that are joined: what opens them, and what is written of them.

ghost use Rattle.canon.specs.JoinedRun.{IsJoinedPage, bytes_of};
ghost use Rattle.canon.specs.Run.{Writes, WritesFront, run_limit};
ghost use Rattle.canon_io.specs.Watched.{has_failed, inner_of, is_flushed};
ghost use Rattle.canon_program.specs.Files.{AreHeld, IsFilesFault, IsFirstUnread, IsFileUnread, OfFiles};
ghost use Rattle.std.specs.Prelude.{◌≡◌, ◌≤◌, ◌↔◌, ℕ, List, Option, None, Err, IfErr, IfOk, IfSome};
ghost use Rattle.std.specs.Prelude.{IsTrue, OnOk};
ghost use Rattle.std.specs.Prelude.{false, length, map, string_bytes, vec_items};

use canon::{Fault, Watched, run_joined};
use canon_io::reading::read_within;
use std::alloc::Global;
use std::fs::File;
use std::io;
use std::io::{Read, Write};

/// A file may have at most so many bytes.
const LIMIT: usize = 1 << 30;

/// Opens files by their names, so that files in memory can stand for those of the system.
pub trait Files {
    /// An open file.
    type File: Read + Drop;

    ghost held: { Self → List ℕ → Option (List ℕ) };

    /// Opens the file of that name, to read it from its start.
    fn open(&self, name: &str) -> io::Result<Self::File>
        ensures { IfOk result (λ file. IfSome (held self.now name.now)
            (λ bytes. Self.File.remaining file ≡ Some bytes)) };
}

/// The files of the system, of which no clause says what they hold.
impl Files for HostRuntime {
    type File = File;

    ghost held = { λ _ _. None };

    fn open(&self, name: &str) -> io::Result<File> {
        File::open(self, name)
    }
}

/// Reads the files of these names in order, each to its end, and then writes the canonical form of what they are joined
/// to, and a line feed, and flushes.
///
/// # Errors
///
/// Nothing has been written but for `Writing`, where a front of the output has. The first file that isn't read decides:
/// `Reading` where it can't be opened, or reading it failed; `MapFull` where it has more than 2^30 bytes. Where all
/// were read, the errors are those of `run_joined`. `Memory` only where a growth was refused.
pub fn run_join<F: Files, W: Write>(
    alloc: Global,
    files: &F,
    names: &[String],
    writer: &mut Watched<W>,
) -> Result<(), Fault>
    requires writer { has_failed writer.old ≡ false }

    // What is written, and what is at fault, by what the files hold.
    ensures page { OnOk result (OfFiles (F.held files.now) (map string_bytes names.now) (λ texts.
        Writes (IsJoinedPage texts) (W.contents (inner_of writer.old)) (W.contents (inner_of writer.new)))) }
    ensures fault { IfErr result (IsFilesFault (F.held files.now) (map string_bytes names.now)) }
    ensures front { result ≡ Err Fault.Writing → OfFiles (F.held files.now) (map string_bytes names.now) (λ texts.
        WritesFront (IsJoinedPage texts) (W.contents (inner_of writer.old)) (W.contents (inner_of writer.new))) }

    // Nothing is written on a refusal.
    ensures untouched { IfErr result (λ f. (f ≡ Fault.Writing → ⊥) → writer.new ≡ writer.old) }

    // The writer is at fault exactly where it failed.
    ensures writing { IsTrue (has_failed writer.new) ↔ (result ≡ Err Fault.Writing) }

    // The last call of the writer was a flush that went well.
    ensures flushed { OnOk result (IsTrue (is_flushed writer.new)) }
{
    let texts = read_all(alloc, files, names)?;
    let slices = slices(alloc, texts.as_slice())?;
    run_joined(alloc, slices.as_slice(), writer)
}

// What the files of these names hold, one text for each.
fn read_all<F: Files>(alloc: Global, files: &F, names: &[String]) -> Result<Vec<Vec<u8>>, Fault>
    ensures read { IfOk result (λ texts. AreHeld (F.held files.now) (map string_bytes names.now)
        (map vec_items texts.items)) }
    ensures fault { IfErr result (IsFirstUnread (F.held files.now) (map string_bytes names.now)) }
{
    let mut texts = Vec::new(alloc);
    for name in names {
        let text = read_file(alloc, files, name.as_str())?;
        if texts.push(text).is_err() {
            return Err(Fault::Memory);
        }
    }
    Ok(texts)
}

// All that the file of that name holds.
fn read_file<F: Files>(alloc: Global, files: &F, name: &str) -> Result<Vec<u8>, Fault>
    ensures fits { IfOk result (λ text. length text.items ≤ run_limit) }
    ensures read { IfOk result (λ text. IfSome (F.held files.now name.now) (λ bytes. text.items ≡ bytes)) }
    ensures fault { IfErr result (IsFileUnread (F.held files.now name.now)) }
{
    let Ok(file) = files.open(name) else {
        return Err(Fault::Reading);
    };
    Ok(read_within(alloc, LIMIT, &mut Watched::new(file))?)
}

// Texts as slices.
fn slices(alloc: Global, texts: &[Vec<u8>]) -> Result<Vec<&[u8]>, Fault>
    ensures same { IfOk result (λ slices. bytes_of slices.items ≡ map vec_items texts.now) }
    ensures fault { IfErr result (λ f. f ≡ Fault.Memory) }
{
    let mut slices = Vec::new(alloc);
    for text in texts {
        if slices.push(text.as_slice()).is_err() {
            return Err(Fault::Memory);
        }
    }
    Ok(slices)
}
