//! Texts, and what is asked of their tokens.

use crate::grow::given::lexed;
use crate::grow::leaf::tokens;
use crate::grow::lists::{names, reading as lists};
use crate::grow::parse::reading;
use syn_parse::{Cursor, TokenBuffer};
use test_support::{Page, Stop, looked_at};

/// What is asked of the tokens of a text.
#[derive(Clone, Copy)]
pub(crate) enum Question {
    /// What a lookahead says that was expected.
    Expected,
    /// What is left behind the first name.
    Rest,
    /// Names with commas between them, by each of the calls.
    Lists,
    /// Identifiers, keywords too.
    Names,
    /// An operator, a member and a literal.
    Leaves,
    /// What is said where no operator stands.
    NoOperator,
}

/// Puts what is answered of the tokens of a text.
pub(crate) fn ask(text: &str, question: Question, page: &mut Page) -> Result<(), Stop> {
    let stream = lexed(page.alloc(), text)?;
    let buffer = looked_at(TokenBuffer::new2(page.alloc(), &stream, 1))?;
    put(question, buffer.begin(), page)
}

fn put(question: Question, begin: Cursor<'_>, page: &mut Page) -> Result<(), Stop> {
    match question {
        Question::Expected => reading::put_lookahead(begin, page),
        Question::Rest => reading::put_rest(begin, page),
        Question::Lists => lists::put_lists(begin, page),
        Question::Names => names::put_names(begin, page),
        Question::Leaves => tokens::put_leaves(begin, page),
        Question::NoOperator => tokens::put_refusals(begin, page),
    }
}
