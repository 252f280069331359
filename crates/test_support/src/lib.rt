//! Tables of rows, which a program answers: its standard input is the questions, and its standard output the
//! questions with their answers, which the gate compares.
//!
//! A row is a line with a call's name, a space, and a text between `«` and `»`; it is answered by itself, ` = ` and
//! the answer. Other lines are headings, and are copied. In a row `⟨1F600⟩` is the character of that number, so that
//! each text can be written on one line and each of its characters be seen.
//!
//! - `page`: the text that answers are put onto.
//! - `reading`: what rows write.
//! - `unanswered`: why a table has no answers.
//! - `stop`: why a program whose growths are refused has none.
#![tactic(auto)]

mod page;
mod reading;
mod stop;
mod unanswered;

pub use page::Page;
pub use reading::{read, read_bytes};
use std::io::{Read, Write};
pub use stop::{Stop, ended, looked_at, refused};
pub use unanswered::Unanswered;

/// A row of a table.
#[derive(Clone, Copy)]
pub struct Row<'a> {
    /// The call that is asked for.
    pub call: &'a str,
    /// The text that the call is given.
    pub text: &'a str,
}

/// What answers the rows of a table.
pub trait Table {
    /// Puts the answer to one row onto a page. An error is a row that can't be answered at all.
    fn answer(&self, row: Row, page: &mut Page) -> Result<(), Unanswered>;
}

/// The text that stands on standard input.
pub fn asked(rt: &HostRuntime) -> Result<String, Unanswered> {
    let mut lines = String::new(rt.alloc());
    match rt.reader().read_to_string(&mut lines) {
        Ok(_) => Ok(lines),
        Err(_) => Err(Unanswered::Cut),
    }
}

/// Writes what a page has to standard output, if it has all that was put onto it.
pub fn told(rt: &HostRuntime, page: &Page) -> Result<(), Unanswered> {
    match rt.stdout().write_all(page.whole()?.as_bytes()) {
        Ok(()) => Ok(()),
        Err(_) => Err(Unanswered::Cut),
    }
}

/// Answers the rows on standard input on standard output. The first row that can't be answered is an error.
pub fn answer_asked<T: Table>(rt: &HostRuntime, table: &T) -> Result<(), Unanswered> {
    let lines = asked(rt)?;
    let mut page = Page::new(rt.alloc());
    answer_lines(table, lines.as_str(), &mut page)?;
    told(rt, &page)
}

/// Puts the lines of a table onto a page, each row with its answer. The first row that can't be answered is an error.
pub fn answer_lines<T: Table>(table: &T, lines: &str, page: &mut Page) -> Result<(), Unanswered> {
    for line in lines.lines() {
        page.put(line);
        if let Some((call, written)) = parts(line)? {
            page.put(" = ");
            answer_row(table, call, written, page)?;
        }
        page.put("\n");
    }
    Ok(())
}

/// The call that a row asks for, and its text as the row writes it; of another line, nothing.
pub fn parts(line: &str) -> Result<Option<(&str, &str)>, Unanswered> {
    let Some((call, behind)) = line.split_once(" «") else {
        return Ok(None);
    };
    match behind.strip_suffix('»') {
        Some(written) => Ok(Some((call, written))),
        None => Err(Unanswered::NoRow),
    }
}

fn answer_row<T: Table>(
    table: &T,
    call: &str,
    written: &str,
    page: &mut Page,
) -> Result<(), Unanswered> {
    let text = read(page.alloc(), written)?;
    let row = Row {
        call,
        text: text.as_str(),
    };
    table.answer(row, page)
}
