//! How leaves are shown, and what is said of their faults.

use super::lines::{say, show, show_made};
use rust_escape::EscapeError;
use rust_leaf::ident::{Ident, IdentFault};
use rust_leaf::literal::Literal;
use rust_leaf::punct::{Punct, Spacing};
use rust_leaf::value::ConversionErrorKind;
use rust_map::span::Span;
use test_support::Page;

/// How leaves are shown.
#[tactic(auto, unfolding(rust_leaf::specs::Mark::is_mark))]
pub fn shown(page: &mut Page) {
    let alloc = page.alloc();
    show_made(Ident::new_raw(alloc, "fn", Span::call_site()), page);
    show_made(Literal::string(alloc, "a\"b"), page);
    show(&Punct::new('+', Spacing::Joint), page);
    show(&Punct::new(';', Spacing::Alone), page);
}

/// What is said of the faults of identifiers and of values.
pub fn faults(page: &mut Page) {
    say(&IdentFault::Empty, page);
    say(&IdentFault::Number, page);
    say(&IdentFault::Invalid, page);
    say(&IdentFault::Reserved, page);
    say(&IdentFault::Memory, page);
    say(
        &ConversionErrorKind::FailedToUnescape(EscapeError::NulInCStr),
        page,
    );
    say(&ConversionErrorKind::InvalidLiteralKind, page);
    say(&ConversionErrorKind::Memory, page);
}
