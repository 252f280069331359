//! Words in front of a function and behind `static`, which a reader reads where they stand.

use crate::asked::Question;
use syn::{Arena, Reader, Safety, StaticMutability, TokenBuffer};
use test_support::{Page, Stop};

/// What is read.
#[derive(Clone, Copy)]
pub(crate) enum Word {
    Unsafe,
    Safety,
    Mutability,
}

/// The texts, with what is read.
pub(crate) const WORDS: [(Question, &str); 7] = [
    (Question::Word(Word::Unsafe), "unsafe fn"),
    (Question::Word(Word::Unsafe), "safe fn"),
    (Question::Word(Word::Safety), "safe fn"),
    (Question::Word(Word::Safety), "unsafe fn"),
    (Question::Word(Word::Safety), "fn"),
    (Question::Word(Word::Mutability), "mut A"),
    (Question::Word(Word::Mutability), "A"),
];

fn safety(found: Safety<'_>) -> &'static str {
    match found {
        Safety::Unsafe(_) => "unsafe",
        Safety::Safe(_) => "safe",
        Safety::Default => "neither",
    }
}

fn mutability(found: StaticMutability<'_>) -> &'static str {
    match found {
        StaticMutability::Mut(_) => "mut",
        StaticMutability::None => "no mut",
    }
}

// What a reader reads.
fn said(word: Word, input: &mut Reader<'_>) -> &'static str {
    match word {
        Word::Unsafe => safety(input.parse_unsafe_only()),
        Word::Safety => safety(input.parse_safe_or_unsafe()),
        Word::Mutability => mutability(input.parse_static_mutability()),
    }
}

/// Puts what a reader reads of a buffer, and how many tokens it leaves.
pub(crate) fn put_word<'a>(
    word: Word,
    arena: &'a Arena,
    buffer: &'a TokenBuffer<'a>,
    page: &mut Page,
) -> Result<(), Stop> {
    let mut input = Reader::new(arena, buffer);
    page.put(said(word, &mut input));
    let left = input.entries().len();
    write!(page, ", {left} left: ");
    Ok(())
}
