//! Lists that are built, extended and copied.

use crate::grow::given::{Names, name};
use crate::grow::grown::{is_list, put_in};
use crate::grow::shown::{is_front_of, print_of};
use crate::lists::show_tokens;
use proc_macro2::Ident;
use std::alloc::{AllocError, Global};
use syn_kinds::token;
use syn_lists::Pair;
use test_support::{Page, Stop, looked_at, refused};
use try_clone::TryClone;

// The list of those words.
fn words(alloc: Global, texts: &[&str]) -> Result<Names, Stop> {
    let mut names = Names::new(alloc);
    for text in texts {
        names.push(name(alloc, text)?)?;
    }
    Ok(names)
}

/// Values and separators that are put behind others. Where one is refused, a value comes back, and the list is as
/// before.
pub(crate) fn put_behind(page: &mut Page) -> Result<(), Stop> {
    let mut names = Names::new(page.alloc());
    for (text, before, between) in [
        ("a", "", "a"),
        ("b", "a ,", "a , b"),
        ("c", "a , b ,", "a , b , c"),
        ("d", "a , b , c ,", "a , b , c , d"),
        ("e", "a , b , c , d ,", "a , b , c , d , e"),
    ] {
        put_value(&mut names, text, before)?;
        put_comma(&mut names, between)?;
    }
    show_tokens(&names, page);
    Ok(())
}

fn put_value(names: &mut Names, text: &str, before: &str) -> Result<(), Stop> {
    if !names.empty_or_trailing() {
        return Err(Stop::Changed);
    }
    let value = name(names.allocator(), text)?;
    let pushed = names.push_value(value);
    put_in(pushed, names, text, before)
}

fn put_comma(names: &mut Names, before: &str) -> Result<(), Stop> {
    if names.empty_or_trailing() {
        return Err(Stop::Changed);
    }
    match names.push_punct(token::Comma::default()) {
        Ok(()) => Ok(()),
        Err(_) => refused(is_list(names, before)),
    }
}

/// Values that are put in front. Where one is refused, it comes back and the list is as before.
pub(crate) fn inserted(page: &mut Page) -> Result<(), Stop> {
    let mut names = Names::new(page.alloc());
    for (text, before) in [
        ("e", ""),
        ("d", "e"),
        ("c", "d , e"),
        ("b", "c , d , e"),
        ("a", "b , c , d , e"),
    ] {
        let inserted = names.insert(0, name(page.alloc(), text)?);
        put_in(inserted, &names, text, before)?;
    }
    show_tokens(&names, page);
    Ok(())
}

// Puts a list that was extended. Where that was refused, it keeps the values before the refused one.
fn put_extended(
    answer: Result<(), AllocError>,
    names: &Names,
    page: &mut Page,
) -> Result<(), Stop> {
    match answer {
        Ok(()) => {
            show_tokens(names, page);
            Ok(())
        }
        Err(_) => {
            let printed = print_of(page.alloc(), names);
            refused(1 < names.len() && is_front_of(&printed, "a , b , c , d , e , f , g"))
        }
    }
}

const MORE: [&str; 5] = ["c", "d", "e", "f", "g"];

/// A list that is extended by values.
pub(crate) fn extended(page: &mut Page) -> Result<(), Stop> {
    let mut names = words(page.alloc(), &["a", "b"])?;
    let answer = names.extend(words(page.alloc(), MORE.as_slice())?);
    put_extended(answer, &names, page)
}

/// A list that is extended by pairs.
pub(crate) fn extended_by_pairs(page: &mut Page) -> Result<(), Stop> {
    let mut names = words(page.alloc(), &["a", "b"])?;
    let answer = names.extend(words(page.alloc(), MORE.as_slice())?.into_pairs());
    put_extended(answer, &names, page)
}

/// Lists that are made of the values and of the pairs of others.
pub(crate) fn collected(page: &mut Page) -> Result<(), Stop> {
    let values = words(page.alloc(), &["a", "b", "c"])?.into_iter();
    let names: Names = looked_at(values.collect(page.alloc()))?;
    let names: Names = looked_at(names.into_pairs().collect(page.alloc()))?;
    show_tokens(&names, page);
    Ok(())
}

// The answer of a call on the list a , b , c. Where it was refused, the list is as before.
fn answered<T: Drop>(answer: Result<T, AllocError>, names: &Names) -> Result<T, Stop> {
    match answer {
        Ok(value) => Ok(value),
        Err(_) => refused(is_list(names, "a , b , c")),
    }
}

/// A list that is copied whole, pair by pair, and with other values. Where that is refused, the list is as before.
pub(crate) fn copied(page: &mut Page) -> Result<(), Stop> {
    let names = words(page.alloc(), &["a", "b", "c"])?;
    put_copy(&names, page)?;
    put_others(&names, page)
}

fn put_copy(names: &Names, page: &mut Page) -> Result<(), Stop> {
    let mut copy = answered(names.try_clone(), names)?;
    for pair in names.pairs() {
        copy.push(value_of(pair, names)?)?;
    }
    show_tokens(&copy, page);
    Ok(())
}

// The value of a copy of a copy of a pair.
fn value_of(pair: Pair<&Ident, &token::Comma>, names: &Names) -> Result<Ident, Stop> {
    let copy = answered(pair.cloned(), names)?;
    Ok(answered(copy.try_clone(), names)?.into_value())
}

fn put_others(names: &Names, page: &mut Page) -> Result<(), Stop> {
    let others = values(page.alloc())?;
    if others.len() != names.len() {
        return Err(Stop::Changed);
    }
    let others = answered(names.with_values(others), names)?;
    show_tokens(&others, page);
    Ok(())
}

// The names x, y and z.
fn values(alloc: Global) -> Result<Vec<Ident>, Stop> {
    let mut values = Vec::new(alloc);
    for text in ["x", "y", "z"] {
        values.push(name(alloc, text)?)?;
    }
    Ok(values)
}
