//! Pages: what a run writes.

ghost use Rattle.canon.specs.Run.{IsOutlinePage, IsPage, IsPageOf, IsRunFault, row_text, rows_text, run_limit};
ghost use Rattle.canon.specs.JoinedRun.{AreUtf8, IsJoinedFault, IsJoinedPage, IsTooLong, bytes_of};
ghost use Rattle.rust_leaf.specs.Leaf.{text_of};
ghost use Rattle.std.specs.Prelude.{◌≡◌, ◌++◌, ◌≤◌, ◌⊎◌, Err, IfErr, IfOk, OnOk, length};
ghost use Rattle.std.specs.Prelude.{string_bytes};

use crate::fault::Fault;
use crate::form::canonical;
use crate::joins::canonical_joined;
use crate::outlines::{Row, outline};
use rust_map::SourceMap;
use std::alloc::{AllocError, Global};
use std::str;

/// What a run writes of a text.
#[derive(Clone, Copy)]
pub(crate) enum Page {
    /// Its canonical form, and a line feed.
    Canonical,
    /// Its outline, a line for each row.
    Outline,
}

/// What is written of bytes.
pub(crate) fn page_of_bytes(alloc: Global, page: Page, bytes: &[u8]) -> Result<String, Fault>
    requires { length bytes.now ≤ run_limit }
    ensures page { IfOk result (λ text. IsPageOf page run_limit bytes.now (string_bytes text)) }
    ensures fault { IfErr result (IsRunFault run_limit bytes.now) }
    ensures reading { result ≡ Err Fault.Reading → ⊥ }
    ensures writing { result ≡ Err Fault.Writing → ⊥ }
{
    let Ok(text) = str::from_utf8(bytes) else {
        return Err(Fault::NotUtf8);
    };
    match page {
        Page::Canonical => canonical_page(alloc, text),
        Page::Outline => outline_page(alloc, text),
    }
}

// The canonical form of a text, and a line feed.
fn canonical_page(alloc: Global, text: &str) -> Result<String, Fault>
    requires { length text.now ≤ run_limit }
    ensures page { IfOk result (λ page. IsPage run_limit text.now (string_bytes page)) }
    ensures fault { IfErr result (IsRunFault run_limit text.now) }
    ensures reading { result ≡ Err Fault.Reading → ⊥ }
    ensures writing { result ≡ Err Fault.Writing → ⊥ }
{
    let mut page = canonical(alloc, text, &mut SourceMap::new(alloc))?;
    page.push('\n')?;
    Ok(page)
}

/// What is written of joined texts: their canonical form, and a line feed.
pub(crate) fn joined_page(alloc: Global, texts: &[&[u8]]) -> Result<String, Fault>
    ensures page { IfOk result (λ page. IsJoinedPage (bytes_of texts.now) (string_bytes page)) }
    ensures fault { IfErr result (IsJoinedFault (bytes_of texts.now)) }
    ensures too_long { AreUtf8 (bytes_of texts.now) → IsTooLong (bytes_of texts.now)
        → (result ≡ Err Fault.MapFull) ⊎ (result ≡ Err Fault.Memory) }
    ensures reading { result ≡ Err Fault.Reading → ⊥ }
    ensures writing { result ≡ Err Fault.Writing → ⊥ }
{
    let texts = checked(alloc, texts)?;
    let mut page = canonical_joined(alloc, texts.as_slice(), &mut SourceMap::new(alloc))?;
    page.push('\n')?;
    Ok(page)
}

// The texts that bytes are.
fn checked<'a>(alloc: Global, all: &[&'a [u8]]) -> Result<Vec<&'a str>, Fault>
    ensures same { IfOk result (λ texts. bytes_of texts.items ≡ bytes_of all.now) }
    ensures text { OnOk result (AreUtf8 (bytes_of all.now)) }
    ensures fault { IfErr result (λ f.
        (f ≡ Fault.Memory) ⊎ (f ≡ Fault.NotUtf8) × (AreUtf8 (bytes_of all.now) → ⊥)) }
{
    let mut texts = Vec::new(alloc);
    for bytes in all {
        let Ok(text) = str::from_utf8(bytes) else {
            return Err(Fault::NotUtf8);
        };
        if texts.push(text).is_err() {
            return Err(Fault::Memory);
        }
    }
    Ok(texts)
}

// The outline of a text, a line for each row.
fn outline_page(alloc: Global, text: &str) -> Result<String, Fault>
    requires { length text.now ≤ run_limit }
    ensures page { IfOk result (λ page. IsOutlinePage run_limit text.now (string_bytes page)) }
    ensures fault { IfErr result (IsRunFault run_limit text.now) }
    ensures reading { result ≡ Err Fault.Reading → ⊥ }
    ensures writing { result ≡ Err Fault.Writing → ⊥ }
{
    let rows = outline(alloc, text, &mut SourceMap::new(alloc))?;
    Ok(lines_of(alloc, rows.as_slice())?)
}

// The lines of rows.
#[tactic(auto, using(rust_leaf::proofs::Pushed::no_word))]
fn lines_of(alloc: Global, rows: &[Row]) -> Result<String, AllocError>
    ensures { IfOk result (λ page. text_of page ≡ rows_text rows.now) }
{
    let mut page = String::new(alloc);
    for row in rows {
        push_row(&mut page, row)?;
    }
    Ok(page)
}

// The line of a row.
fn push_row(out: &mut String, row: &Row) -> Result<(), AllocError>
    ensures { OnOk result (text_of out.new ≡ text_of out.old ++ row_text row.now) }
{
    let (line, column) = (row.place.line, row.place.column);
    let name = row.name.as_str();
    out.push_str(row.kind)?;
    writeln!(out, " {name} {line}:{column}")
}
