//! Lists: what is put in, taken out and gone over. Where memory is refused, the page is cut.

use crate::texts::{name, put_tokens, set};
use proc_macro2::Ident;
use std::alloc::AllocError;
use syn_error::ToTokens;
use syn_kinds::token;
use syn_lists::{Pair, Punctuated};
use test_support::Page;

/// The names of the rows.
pub(crate) type Names = Punctuated<Ident, token::Comma>;

/// Puts how many values there are, whether a separator stands behind the last, and the tokens.
pub(crate) fn line(names: &Names, page: &mut Page) {
    let count = names.len();
    let trailing = names.trailing_punct();
    let open = names.empty_or_trailing();
    match names.to_token_stream(page.alloc()) {
        Ok(tokens) => write!(page, "{count} {trailing} {open}: {tokens}\n"),
        Err(_) => page.cut(),
    }
}

/// Puts the tokens of a value, and a line's end.
pub(crate) fn show_tokens<T: ToTokens>(value: &T, page: &mut Page) {
    put_tokens(value, page);
    page.put("\n");
}

/// Puts a word, and a line's end.
pub(crate) fn word(text: &str, page: &mut Page) {
    page.put(text);
    page.put("\n");
}

// Puts a name behind the others of a list.
fn push(names: &mut Names, text: &str, page: &mut Page) {
    match name(page.alloc(), text) {
        Ok(value) => {
            if names.push(value).is_err() {
                page.cut();
            }
        }
        Err(_) => page.cut(),
    }
}

/// The list a , b ,
pub(crate) fn two(page: &mut Page) -> Names {
    let mut names = Names::new(page.alloc());
    push(&mut names, "a", page);
    push(&mut names, "b", page);
    if !names.empty_or_trailing() && names.push_punct(token::Comma::default()).is_err() {
        page.cut();
    }
    names
}

/// The list a , b , c
pub(crate) fn three(page: &mut Page) -> Names {
    let mut names = two(page);
    push(&mut names, "c", page);
    names
}

/// Of `a , b ,` values, separators and pairs are taken out, and the list is emptied.
pub(crate) fn taken_out(page: &mut Page) {
    popped(two(page), page);
    popped_in_parts(two(page), page);
    cleared(two(page), page);
}

fn popped(mut names: Names, page: &mut Page) {
    line(&names, page);
    let _ = names.pop();
    line(&names, page);
    let _ = names.pop();
    line(&names, page);
}

fn popped_in_parts(mut names: Names, page: &mut Page) {
    let _ = names.pop_punct();
    line(&names, page);
    let is_none = names.pop_punct().is_none();
    word(
        if is_none {
            "no separator"
        } else {
            "a separator"
        },
        page,
    );
    word(behind(names.pop_pair()), page);
    line(&names, page);
    word(behind(names.pop_pair()), page);
    word(behind(names.pop_pair()), page);
}

// What stands behind the value of a pair.
fn behind(pair: Option<Pair<Ident, token::Comma>>) -> &'static str {
    match pair {
        Some(Pair::Punctuated(_, _)) => "a separator",
        Some(Pair::End(_)) => "no separator",
        None => "no pair",
    }
}

fn cleared(mut names: Names, page: &mut Page) {
    names.clear();
    line(&names, page);
}

/// A value is put behind others, and at the front, in the middle and at the end.
pub(crate) fn put_in(page: &mut Page) {
    let mut names = two(page);
    push(&mut names, "c", page);
    line(&names, page);
    push(&mut names, "d", page);
    line(&names, page);
    insert(&mut names, 0, "e", page);
    insert(&mut names, 2, "f", page);
    let end = names.len();
    insert(&mut names, end, "g", page);
}

fn insert(names: &mut Names, index: usize, text: &str, page: &mut Page) {
    match name(page.alloc(), text) {
        Ok(value) => {
            if index <= names.len() && names.insert(index, value).is_err() {
                page.cut();
            }
        }
        Err(_) => page.cut(),
    }
    line(names, page);
}

/// Values and pairs, from both ends.
pub(crate) fn gone_over(page: &mut Page) {
    let mut names = three(page);
    show_both_ways(&names, page);
    for value in names.iter_mut() {
        set(value, "x", page);
    }
    line(&names, page);
    for pair in names.into_pairs() {
        show_tokens(&pair, page);
    }
}

fn show_both_ways(names: &Names, page: &mut Page) {
    for value in names {
        write!(page, "{value}\n");
    }
    for value in names.iter().rev() {
        write!(page, "{value}\n");
    }
    for pair in names.pairs() {
        show_copy(pair, page);
    }
    for pair in names.pairs().rev() {
        show_copy(pair, page);
    }
}

fn show_copy(pair: Pair<&Ident, &token::Comma>, page: &mut Page) {
    match pair.cloned() {
        Ok(copy) => show_tokens(&copy, page),
        Err(_) => page.cut(),
    }
}

/// Values are collected, put behind others, and compared without their spans.
pub(crate) fn collected(page: &mut Page) {
    let collected: Result<Names, AllocError> = two(page).into_iter().collect(page.alloc());
    match collected {
        Ok(names) => put_collected(names, page),
        Err(_) => page.cut(),
    }
}

fn put_collected(mut names: Names, page: &mut Page) {
    line(&names, page);
    if names.extend(two(page)).is_err() {
        page.cut();
    }
    line(&names, page);
    compare(&names, page);
    compare(&two(page), page);
}

// Whether a list is a , b ,
fn compare(names: &Names, page: &mut Page) {
    let is_same = *names == two(page);
    word(if is_same { "same" } else { "not the same" }, page);
}
