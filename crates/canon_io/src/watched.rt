//! A reader or a writer that remembers whether one of its calls failed.
ghost use Rattle.std.specs.Prelude.{◌≡◌, false, is_ok};
ghost use Rattle.std.specs.Io.{ReadsAtMost, WritesAtMost};
ghost use Rattle.std.specs.Io.KnownBytes.{Keeps, ReadConsumes, WriteAppends};
ghost use Rattle.canon_io.specs.Watch.{fresh, after};
ghost use Rattle.canon_io.specs.Answers.{answer_of, answer_of_kind, write_answer};

use crate::watch::{Answer, Watch};
use std::io;
use std::io::{ErrorKind, Read, Write};

/// A reader or a writer, and what its calls answered.
///
/// Each read, write and flush is passed on once, and its answer is given back as it came. An error
/// other than `Interrupted` is a failure, and so are the 1,000th `Interrupted` in a row and a write
/// that takes no byte of some. A failure is never forgotten.
#[derive(Drop)]
pub struct Watched<T> {
    inner: T,
    watch: Watch,
    flushed: bool,
}

impl<T> Watched<T> {
    ghost use Rattle.canon_io.specs.Watched.{inner_of, watch_of, has_failed, is_flushed};

    /// Watches from here on: no call has failed.
    pub fn new(inner: T) -> Self
        ensures inner { inner_of result ≡ inner }
        ensures watch { watch_of result ≡ fresh }
        ensures flushed { is_flushed result ≡ false }
    {
        Watched {
            inner,
            watch: Watch::Sound(0),
            flushed: false,
        }
    }

    /// Whether a call failed.
    pub fn failed(&self) -> bool
        ensures { result ≡ has_failed self.now }
    {
        self.watch.failed()
    }

    /// Whether the last write or flush was a flush that went well.
    pub fn flushed(&self) -> bool
        ensures { result ≡ is_flushed self.now }
    {
        self.flushed
    }

    /// The reader or the writer itself.
    pub fn get_ref(&self) -> &T
        ensures { result.now ≡ inner_of self.now }
    {
        &self.inner
    }

    /// The reader or the writer itself, which is watched no longer.
    pub fn into_inner(self) -> T
        ensures { result ≡ inner_of self }
    {
        self.inner
    }
}

impl<R: Read> Read for Watched<R> {
    ghost use Rattle.canon_io.specs.Watched.{inner_of, watch_of, is_flushed};

    ghost remaining = { λ w. R.remaining (inner_of w) };

    fn read(&mut self, buf: &mut [u8]) -> io::Result<usize>
        ensures bound { ReadsAtMost result buf.new }
        ensures bytes { ReadConsumes (R.remaining (inner_of self.old))
            (R.remaining (inner_of self.new)) result buf.new }
        ensures watch { watch_of self.new ≡ after (watch_of self.old) (answer_of result) }
        ensures flushed { is_flushed self.new ≡ is_flushed self.old }
    {
        let read = self.inner.read(buf);
        self.watch = self.watch.after(answer_of(&read));
        read
    }
}

impl<W: Write> Write for Watched<W> {
    ghost use Rattle.canon_io.specs.Watched.{inner_of, watch_of, is_flushed};

    ghost contents = { λ w. W.contents (inner_of w) };

    fn write(&mut self, buf: &[u8]) -> io::Result<usize>
        ensures bound { WritesAtMost result buf.now }
        ensures bytes { WriteAppends (W.contents (inner_of self.old))
            (W.contents (inner_of self.new)) result buf.now }
        ensures watch { watch_of self.new ≡ after (watch_of self.old) (write_answer result buf.now) }
        ensures flushed { is_flushed self.new ≡ false }
    {
        let written = self.inner.write(buf);
        self.watch = self.watch.after(write_answer(&written, buf));
        self.flushed = false;
        written
    }

    fn flush(&mut self) -> io::Result<()>
        ensures bytes { Keeps (W.contents (inner_of self.old)) (W.contents (inner_of self.new)) }
        ensures watch { watch_of self.new ≡ after (watch_of self.old) (answer_of result) }
        ensures flushed { is_flushed self.new ≡ is_ok result }
    {
        let flushed = self.inner.flush();
        self.watch = self.watch.after(answer_of(&flushed));
        self.flushed = flushed.is_ok();
        flushed
    }
}

// What a read or a flush answered.
fn answer_of<T>(answered: &io::Result<T>) -> Answer
    ensures { result ≡ answer_of answered.now }
{
    match answered {
        Ok(_) => Answer::Normal,
        Err(e) => answer_of_kind(e.kind()),
    }
}

// What a write of these bytes answered.
fn write_answer(written: &io::Result<usize>, buf: &[u8]) -> Answer
    ensures { result ≡ write_answer written.now buf.now }
{
    match written {
        Ok(0) if !buf.is_empty() => Answer::Failure,
        Ok(_) => Answer::Normal,
        Err(e) => answer_of_kind(e.kind()),
    }
}

fn answer_of_kind(kind: ErrorKind) -> Answer
    ensures { result ≡ answer_of_kind kind }
{
    match kind {
        ErrorKind::Interrupted => Answer::Interruption,
        _ => Answer::Failure,
    }
}
