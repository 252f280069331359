//! The rows of the outline of a text, by `outline` and by `run_outline`.

use canon::{Row, Watched, run_outline, status};
use rust_map::SourceMap;
use std::alloc::Global;
use test_support::{Page, Unanswered};

/// The rows of the outline of a text, or that it is refused. `run_outline` does alike.
pub fn outline(text: &str, page: &mut Page) -> Result<(), Unanswered> {
    let alloc = page.alloc();
    match canon::outline(alloc, text, &mut SourceMap::new(alloc)) {
        Ok(rows) => return put_alike(text, rows.as_slice(), page),
        Err(_) if runs_alike(alloc, text, 1, b"") => page.put("refused"),
        Err(_) => page.put("run_outline does otherwise"),
    }
    Ok(())
}

// Puts the rows, if `run_outline` writes each on a line.
fn put_alike(text: &str, rows: &[Row], page: &mut Page) -> Result<(), Unanswered> {
    let mut lines = Page::new(page.alloc());
    for row in rows {
        put_row(row, &mut lines);
        lines.put("\n");
    }
    if runs_alike(page.alloc(), text, 0, lines.whole()?.as_bytes()) {
        put_list(rows, page);
    } else {
        page.put("run_outline does otherwise");
    }
    Ok(())
}

fn put_list(rows: &[Row], page: &mut Page) {
    let mut is_first = true;
    page.put("[");
    for row in rows {
        page.put(if is_first { "" } else { ", " });
        put_row(row, page);
        is_first = false;
    }
    page.put("]");
}

fn put_row(row: &Row, page: &mut Page) {
    let (kind, name) = (row.kind, row.name.as_str());
    let (line, column) = (row.place.line, row.place.column);
    write!(page, "{kind} {name} {line}:{column}");
}

// Whether `run_outline` of a text ends with that status and has written those lines.
fn runs_alike(alloc: Global, text: &str, wanted: u8, lines: &[u8]) -> bool {
    let mut writer = Watched::new(Vec::new(alloc));
    let outcome = run_outline(alloc, &mut Watched::new(text.as_bytes()), &mut writer);
    status(&outcome) == wanted && writer.get_ref().as_slice() == lines
}
