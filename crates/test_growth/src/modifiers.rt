//! What is said of modifiers where none may stand.

use syn::{
    ConstModifiers, Error, FnModifiers, Ident, ImplModifiers, Mark, ParseFault, Sign, Spacing,
    Span, TraitModifiers, TypeModifiers,
};
use test_support::{Page, Stop};

// Puts each message of what is refused, in a line.
fn put_refusal(required: Result<(), ParseFault>, page: &mut Page) -> Result<(), Stop> {
    match required {
        Err(ParseFault::Syntax(error)) => {
            put_messages(error, page);
            Ok(())
        }
        Err(ParseFault::Memory) => Err(Stop::Refused),
        Ok(()) => Err(Stop::Changed),
    }
}

fn put_messages(error: Error, page: &mut Page) {
    for message in error {
        write!(page, "{message}\n");
    }
}

// Puts what is said of an impl's modifiers.
fn put_impl(word: Option<&Ident>, mark: Option<Mark>, page: &mut Page) -> Result<(), Stop> {
    let modifiers = ImplModifiers {
        defaultness: word,
        polarity: mark,
    };
    put_refusal(modifiers.require_empty(page.alloc()), page)
}

// Puts what is said of a word where a member or a trait may have one.
fn put_word(word: Option<&Ident>, page: &mut Page) -> Result<(), Stop> {
    let alloc = page.alloc();
    put_refusal(
        ConstModifiers { defaultness: word }.require_empty(alloc),
        page,
    )?;
    put_refusal(FnModifiers { defaultness: word }.require_empty(alloc), page)?;
    put_refusal(
        TypeModifiers { defaultness: word }.require_empty(alloc),
        page,
    )?;
    put_refusal(
        TraitModifiers { auto_token: word }.require_empty(alloc),
        page,
    )
}

// The same, and of an impl: of a word, of a mark, and of both.
fn put_all(word: Option<&Ident>, page: &mut Page) -> Result<(), Stop> {
    let mark = Mark {
        sign: Sign::Not,
        spacing: Spacing::Alone,
        span: Span::call_site(),
    };
    put_word(word, page)?;
    put_impl(word, None, page)?;
    put_impl(None, Some(mark), page)?;
    put_impl(word, Some(mark), page)
}

/// Puts what is said of the modifiers of each sort, in lines.
pub(crate) fn put_answers(page: &mut Page) -> Result<(), Stop> {
    match Ident::new(page.alloc(), "default", Span::call_site()) {
        Ok(ident) => put_all(Some(&ident), page),
        Err(_) => Err(Stop::Elsewhere),
    }
}
