//! Texts, and what is asked of their tokens.

use crate::calls::{Call, put_call};
use crate::held::{Stands, put_form};
use crate::single::{Item, Single, put_item, put_single};
use crate::standing::{Form, put_told};
use crate::words::{Word, put_word};
use crate::{built, compared, long, reading, streams, texts};
use proc_macro2::{SourceMap, TokenStream};
use std::alloc::Global;
use syn::{Arena, Kind, Position, TokenBuffer};
use test_support::{Page, Stop};

/// What is asked of the tokens of a text.
#[derive(Clone, Copy)]
pub(crate) enum Question {
    /// What is written of a form of that kind, or what is said of a text that begins with none.
    Written(Kind),
    /// What is built of an assignment, as it is written in that position, and its normal form.
    Built(Position),
    /// What stands for an expression where none is known yet. There are no tokens.
    Unknown,
    /// The members of a struct's fields.
    Members,
    /// What readers read and say.
    Read,
    /// What is read of a stream.
    Streamed,
    /// What a call answers.
    Called(Call),
    /// Whether two types, with a semicolon between them, are the same.
    Compared,
    /// Whether two items are.
    Programs,
    /// What is written of a long expression.
    Long,
    /// Of which form it is, as an item of a trait, an impl or an extern block.
    Held(Stands),
    /// Whether it is an item of one kind, or a member.
    Item(Item),
    /// Whether it is one form of several of a kind.
    Single(Single),
    /// Whether a form stands first in a stream.
    Standing(Form),
    /// Which word stands first.
    Word(Word),
}

impl Question {
    // Whether the text is put behind the answer.
    fn shows_text(self) -> bool {
        matches!(
            self,
            Question::Held(_)
                | Question::Item(_)
                | Question::Single(_)
                | Question::Standing(_)
                | Question::Word(_)
        )
    }
}

/// The tokens of a text.
pub(crate) fn lexed(alloc: Global, text: &str) -> Result<TokenStream, Stop> {
    match TokenStream::from_str(alloc, text, &mut SourceMap::new(alloc)) {
        Ok(stream) => Ok(stream),
        Err(_) => Err(Stop::Elsewhere),
    }
}

/// Puts what is answered of tokens.
pub(crate) fn ask_of(
    question: Question,
    stream: &TokenStream,
    page: &mut Page,
) -> Result<(), Stop> {
    let buffer = TokenBuffer::new2(page.alloc(), stream, 1)?;
    ask_in_arena(question, &buffer, page)
}

// The same of a buffer, in an arena of its own.
fn ask_in_arena(question: Question, buffer: &TokenBuffer<'_>, page: &mut Page) -> Result<(), Stop> {
    let arena = Arena::new(page.alloc());
    put(question, &arena, buffer, page)
}

fn put<'a>(
    question: Question,
    arena: &'a Arena,
    buffer: &'a TokenBuffer<'a>,
    page: &mut Page,
) -> Result<(), Stop> {
    match question {
        Question::Written(kind) => texts::put_text(kind, arena, buffer, page),
        Question::Built(position) => built::put_replaced(position, arena, buffer, page),
        Question::Unknown => built::put_unknown(arena, page),
        Question::Members => built::put_struct(arena, buffer, page),
        Question::Read => reading::put_read(arena, buffer, page),
        Question::Streamed => streams::put_read(arena, buffer, page),
        Question::Called(call) => put_call(call, arena, buffer, page),
        Question::Compared => compared::put_types(arena, buffer, page),
        Question::Programs => compared::put_items(arena, buffer, page),
        Question::Long => long::put_written(arena, buffer, page),
        Question::Held(stands) => put_form(stands, arena, buffer, page),
        Question::Item(item) => put_item(item, arena, buffer, page),
        Question::Single(single) => put_single(single, arena, buffer, page),
        Question::Standing(form) => put_told(form, arena, buffer, page),
        Question::Word(word) => put_word(word, arena, buffer, page),
    }
}

// Puts what is answered of the tokens of a text, in lines.
fn ask(question: Question, text: &str, page: &mut Page) -> Result<(), Stop> {
    ask_of(question, &lexed(page.alloc(), text)?, page)?;
    if question.shows_text() {
        page.put(text);
    }
    page.put("\n");
    Ok(())
}

/// Puts the answers of a table of questions and texts.
pub(crate) fn ask_all(table: &[(Question, &str)], page: &mut Page) -> Result<(), Stop> {
    for (question, text) in table {
        ask(*question, text, page)?;
    }
    Ok(())
}
