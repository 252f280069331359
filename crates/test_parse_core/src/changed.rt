//! Lists: what is written through lent values, taken out by a function, and made of pairs.

use crate::lists::{Names, line, show_tokens, three, two};
use crate::texts::{name, set};
use proc_macro2::Ident;
use std::alloc::{AllocError, Global};
use syn_kinds::token;
use syn_lists::{IntoIter, Iter, IterMut, Pair, Punctuated};
use test_support::{Page, Unanswered};

/// Values are written through each call that lends them.
pub(crate) fn written(page: &mut Page) {
    let mut names = two(page);
    write_one(&mut names, page);
    write_at_index(&mut names, page);
    write_pairs(&mut names, page);
    write_last_pair(&mut names, page);
    for value in &mut names {
        set(value, "m", page);
    }
    line(&names, page);
    write_pair(page);
}

// Writes an identifier where one is lent.
fn write(lent: Option<&mut Ident>, text: &str, page: &mut Page) {
    if let Some(value) = lent {
        set(value, text, page);
    }
}

fn write_one(names: &mut Names, page: &mut Page) {
    write(names.first_mut(), "f", page);
    line(names, page);
    write(names.last_mut(), "l", page);
    line(names, page);
    write(names.get_mut(1), "s", page);
    line(names, page);
}

fn write_at_index(names: &mut Names, page: &mut Page) {
    if 1 < names.len() {
        set(&mut names[0], "i", page);
        page.show(&names[0]);
        page.put("\n");
    }
    line(names, page);
}

fn write_pairs(names: &mut Names, page: &mut Page) {
    for pair in names.pairs_mut() {
        let (value, separator) = pair.into_tuple();
        set(value, "p", page);
        if let Some(separator) = separator {
            *separator = token::Comma::default();
        }
    }
    line(names, page);
}

fn write_last_pair(names: &mut Names, page: &mut Page) {
    let mut pairs = names.pairs_mut();
    if let Some(pair) = pairs.next_back() {
        let (value, _) = pair.into_tuple();
        set(value, "b", page);
    }
    let left = pairs.len();
    write!(page, "{left} left\n");
    line(names, page);
}

fn write_pair(page: &mut Page) {
    match pair(page.alloc()) {
        Ok(pair) => put_written(pair, page),
        Err(_) => page.cut(),
    }
}

fn pair(alloc: Global) -> Result<Pair<Ident, Ident>, Unanswered> {
    Ok(Pair::new(name(alloc, "a")?, Some(name(alloc, "b")?)))
}

fn put_written(mut pair: Pair<Ident, Ident>, page: &mut Page) {
    set(pair.value_mut(), "v", page);
    write(pair.punct_mut(), "w", page);
    show_tokens(&pair, page);
}

// The values but that one are kept.
fn take_out<P: Drop>(names: &mut Punctuated<Ident, P>, text: &str) {
    names.retain(|value| !value.is_text(text));
}

fn put_without(mut names: Names, text: &str, page: &mut Page) {
    take_out(&mut names, text);
    line(&names, page);
}

fn put_none(mut names: Names, page: &mut Page) {
    names.retain(|_| false);
    line(&names, page);
}

/// Values are taken out, each with its separator, and the end stays as it was.
pub(crate) fn retained(page: &mut Page) {
    put_without(three(page), "c", page);
    put_without(two(page), "b", page);
    put_without(two(page), "a", page);
    put_without(two(page), "x", page);
    put_none(two(page), page);
    put_marked(marked(page), page);
}

type Marks = Punctuated<Ident, Ident>;

// The list a x b y c z, whose separators are names too.
fn marked(page: &mut Page) -> Marks {
    let mut marked = Marks::new(page.alloc());
    for (value, separator) in [("a", "x"), ("b", "y"), ("c", "z")] {
        push_value(&mut marked, value, page);
        push_mark(&mut marked, separator, page);
    }
    marked
}

fn push_value(marked: &mut Marks, text: &str, page: &mut Page) {
    match name(page.alloc(), text) {
        Ok(value) => {
            if marked.empty_or_trailing() && marked.push_value(value).is_err() {
                page.cut();
            }
        }
        Err(_) => page.cut(),
    }
}

fn push_mark(marked: &mut Marks, text: &str, page: &mut Page) {
    match name(page.alloc(), text) {
        Ok(mark) => {
            if !marked.empty_or_trailing() && marked.push_punct(mark).is_err() {
                page.cut();
            }
        }
        Err(_) => page.cut(),
    }
}

fn put_marked(mut marked: Marks, page: &mut Page) {
    take_out(&mut marked, "a");
    show_tokens(&marked, page);
    let _ = marked.pop_punct();
    take_out(&mut marked, "c");
    show_tokens(&marked, page);
}

/// Lists are made of pairs, and pairs are put behind a list.
pub(crate) fn paired(page: &mut Page) {
    let paired: Result<Names, AllocError> = two(page).into_pairs().collect(page.alloc());
    match paired {
        Ok(names) => put_extended(names, page),
        Err(_) => page.cut(),
    }
    match ends(page.alloc()) {
        Ok(ends) => line(&ends, page),
        Err(_) => page.cut(),
    }
    put_nothing(page);
}

fn put_extended(mut names: Names, page: &mut Page) {
    line(&names, page);
    extend(&mut names, page);
    let _ = names.pop_punct();
    extend(&mut names, page);
}

fn extend(names: &mut Names, page: &mut Page) {
    if names.extend(two(page).into_pairs()).is_err() {
        page.cut();
    }
    line(names, page);
}

// The list a , b , c, of three pairs without a separator.
fn ends(alloc: Global) -> Result<Names, Unanswered> {
    let mut ends = Vec::new(alloc);
    for text in ["a", "b", "c"] {
        ends.push(Pair::End(name(alloc, text)?))?;
    }
    Ok(ends.into_iter().collect(alloc)?)
}

fn put_nothing(page: &mut Page) {
    let nothing = Iter::<Ident>::empty().len()
        + IterMut::<Ident>::empty().len()
        + IntoIter::<Ident>::empty(page.alloc()).len();
    write!(page, "{nothing} values\n");
}
