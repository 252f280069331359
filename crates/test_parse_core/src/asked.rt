//! Texts, and what is asked of their tokens.

use crate::leaves::peek;
use crate::texts::stream_of;
use crate::{lookahead, names, whole};
use proc_macro2::TokenStream;
use syn_leaf::{LitChar, LitFloat, LitInt, LitStr};
use syn_parse::{Cursor, TokenBuffer};
use test_support::Page;

/// What is asked of the tokens of a text.
#[derive(Clone, Copy)]
pub enum Question {
    /// What is said where so many kinds are looked for.
    Kinds(usize),
    /// Names with commas between them, to the end.
    Listed,
    /// The same, of which two are taken out again.
    Emptied,
    /// Names with pluses between them, keywords among them, at least one.
    Summed,
    /// Names with commas between them, until a `>`.
    Until,
    /// One name, a keyword too.
    Name,
    /// A list of names with `::` between them, printed and read back.
    ReadBack,
    /// A lifetime, and how many tokens are left behind it.
    Lifetime,
    /// What is left of them, as it is shown.
    Shown,
    /// Whether a string stands first.
    IsString,
    /// Whether a character does.
    IsCharacter,
    /// Whether an integer does.
    IsInteger,
    /// Whether a float does.
    IsFloat,
}

/// Lookaheads that find nothing, and lists that are read by each call.
pub fn read_lists(page: &mut Page) {
    for count in 0..4 {
        ask("x", Question::Kinds(count), page);
    }
    ask("", Question::Kinds(2), page);
    for text in ["a , b ,", "a , b", "", "a b", ", a", "a , , b"] {
        ask(text, Question::Listed, page);
    }
    ask("a , b ,", Question::Emptied, page);
    for text in ["a + b c", "a", "", "a +", "a + +", "a + fn"] {
        ask(text, Question::Summed, page);
    }
    for text in ["a , b > c", "a , > c", "> c", "a b > c", "a , , > c"] {
        ask(text, Question::Until, page);
    }
}

/// Names that are read, and lists of names that are read back.
pub fn read_names(page: &mut Page) {
    for text in [
        "x", "fn", "_", "Self", "r#fn", "r#x", "raw", "r", "x y", "", "1", "# x", "'a", "(fn)",
    ] {
        write!(page, "[{text}] ");
        ask(text, Question::Name, page);
    }
    for text in ["a :: b ::", "a :: r#b", "a", ""] {
        ask(text, Question::ReadBack, page);
    }
}

/// Lifetimes at a place.
pub fn read_lifetimes(page: &mut Page) {
    for text in ["'a", "'a: 'b", "'fn b", "'_", "a 'b", "+", "('a)", ""] {
        ask(text, Question::Lifetime, page);
    }
}

/// Puts what is answered of the tokens of a text. Where it has none, or memory is refused, the page is cut.
pub fn ask(text: &str, question: Question, page: &mut Page) {
    match stream_of(page.alloc(), text) {
        Ok(stream) => put_asked(&stream, question, page),
        Err(_) => page.cut(),
    }
}

fn put_asked(stream: &TokenStream, question: Question, page: &mut Page) {
    match TokenBuffer::new2(page.alloc(), stream, 1) {
        Ok(buffer) => put(question, buffer.begin(), page),
        Err(_) => page.cut(),
    }
}

fn put(question: Question, begin: Cursor<'_>, page: &mut Page) {
    match question {
        Question::Kinds(count) => lookahead::kinds(count, begin, page),
        Question::Listed => lookahead::listed(begin, page),
        Question::Emptied => lookahead::emptied(begin, page),
        Question::Summed => lookahead::summed(begin, page),
        Question::Until => lookahead::until(begin, page),
        Question::Name => names::read(begin, page),
        Question::ReadBack => names::read_back(begin, page),
        Question::Lifetime => names::lifetime(begin, page),
        Question::Shown => whole::shown(begin, page),
        Question::IsString => peek::<LitStr>(begin, page),
        Question::IsCharacter => peek::<LitChar>(begin, page),
        Question::IsInteger => peek::<LitInt>(begin, page),
        Question::IsFloat => peek::<LitFloat>(begin, page),
    }
}
