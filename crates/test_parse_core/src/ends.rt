//! Lists gone over from behind, by each iterator, and how many items each has.

use crate::lists::{Names, line, show_tokens, three};
use crate::texts::set;
use test_support::Page;

/// How many items each iterator of `a , b , c` has before its first and behind its last one.
pub(crate) fn counted(page: &mut Page) {
    let mut names = three(page);
    count_lent(&names, page);
    count_changed(&mut names, page);
    count_owned(three(page), names, page);
}

fn count_lent(names: &Names, page: &mut Page) {
    let mut values = names.iter();
    let _ = values.next_back();
    let mut pairs = names.pairs();
    let _ = pairs.next();
    put_counts(values.len(), pairs.len(), page);
}

fn count_changed(names: &mut Names, page: &mut Page) {
    let mut values = names.iter_mut();
    let _ = values.next_back();
    let values_left = values.len();
    let mut pairs = names.pairs_mut();
    let _ = pairs.next();
    put_counts(values_left, pairs.len(), page);
}

fn count_owned(values: Names, pairs: Names, page: &mut Page) {
    let mut values = values.into_iter();
    let _ = values.next_back();
    let mut pairs = pairs.into_pairs();
    let _ = pairs.next();
    put_counts(values.len(), pairs.len(), page);
}

fn put_counts(values: usize, pairs: usize, page: &mut Page) {
    write!(page, "{values} {pairs}\n");
}

/// Values and pairs from behind: those that may be changed, and those that are moved out.
pub(crate) fn from_behind(page: &mut Page) {
    let mut names = three(page);
    change_values(&mut names, page);
    change_pairs(&mut names, page);
    for value in three(page).into_iter().rev() {
        write!(page, "{value}\n");
    }
    for pair in three(page).into_pairs().rev() {
        show_tokens(&pair, page);
    }
}

fn change_values(names: &mut Names, page: &mut Page) {
    for value in names.iter_mut().rev() {
        write!(page, "{value}\n");
        set(value, "x", page);
    }
    line(names, page);
}

fn change_pairs(names: &mut Names, page: &mut Page) {
    for pair in names.pairs_mut().rev() {
        let (value, separator) = pair.into_tuple();
        set(value, if separator.is_some() { "s" } else { "e" }, page);
    }
    line(names, page);
}
