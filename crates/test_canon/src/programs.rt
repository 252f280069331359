//! What the program does, with streams and files in memory.

ghost use Rattle.std.specs.Prelude.{None};

use crate::streams::{Plan, Source};
use canon::Watched;
use canon_program::files::Files;
use canon_program::{Asked, asked_by, run_asked};
use std::alloc::{AllocError, Global};
use std::io;
use std::io::ErrorKind;
use test_support::{Page, Row, Unanswered};

// Files in memory.
struct Shelf;

impl Files for Shelf {
    type File = Source<'static>;

    ghost held = { λ _ _. None };

    fn open(&self, name: &str) -> io::Result<Source<'static>> {
        match name {
            "a" => Ok(Source::new(b"struct S;", Plan::by(1))),
            "b" => Ok(Source::new(b"fn f(){}//x", Plan::interrupted(999))),
            "-" => Ok(Source::new(b"#![a]", Plan::by(2))),
            "raw" => Ok(Source::new(b"\xff", Plan::by(2))),
            "open" => Ok(Source::new(b"fn f(", Plan::by(2))),
            "late" => Ok(Source::new(b"struct S;", Plan::failing_from(5))),
            _ => Err(io::Error::from(ErrorKind::NotFound)),
        }
    }
}

/// The status with which the program ends, what it writes, and what it says. The row's call is the program's name and
/// its arguments.
pub fn program(row: Row, page: &mut Page) -> Result<(), Unanswered> {
    let words = words(page.alloc(), row.call)?;
    put_run(asked_by(words.as_slice()), row.text, page);
    Ok(())
}

fn words(alloc: Global, call: &str) -> Result<Vec<String>, AllocError> {
    let mut words = Vec::new(alloc);
    for word in call.split_ascii_whitespace() {
        words.push(String::from_str(alloc, word)?)?;
    }
    Ok(words)
}

fn put_run(asked: Asked<'_>, text: &str, page: &mut Page) {
    let alloc = page.alloc();
    let mut reader = Watched::new(text.as_bytes());
    let mut writer = Watched::new(Vec::new(alloc));
    let mut messages = Vec::new(alloc);
    let status = run_asked(
        alloc,
        &Shelf,
        asked,
        &mut reader,
        &mut writer,
        &mut messages,
    );
    write!(page, "status {status}, writes ");
    put_text(writer.get_ref().as_slice(), page);
    page.put(", says ");
    put_text(messages.as_slice(), page);
}

// Puts a text as it is written in rows.
fn put_text(bytes: &[u8], page: &mut Page) {
    match str::from_utf8(bytes) {
        Ok(text) => page.quote(text),
        Err(_) => page.cut(),
    }
}
