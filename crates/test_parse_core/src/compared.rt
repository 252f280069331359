//! Values that are compared: lifetimes, members, operators, kinds of tokens, and lists.

use proc_macro2::{Ident, SourceMap};
use std::alloc::Global;
use std::cmp::Ordering;
use std::hash::{DefaultHasher, Hash, Hasher};
use syn_leaf::{BinOp, Index, LitBool, Member, RangeLimits, UnOp};
use syn_parse::{Lifetime, Parse, ParseBuffer, Parser, Punctuated, parse_str, token};
use test_support::{Page, Unanswered};

/// What is said of two values of a kind, by its name, that a row has: whether they are equal, and whether they are
/// hashed alike.
pub fn compare(kind: &str, text: &str, page: &mut Page) -> Result<(), Unanswered> {
    let (first, second) = text.split_once(" | ").ok_or(Unanswered::NoRow)?;
    match kind {
        "lifetimes" => lifetimes(first, second, page),
        "members" => hashed::<Member>(first, second, page),
        "indices" => hashed::<Index>(first, second, page),
        "booleans" => hashed::<LitBool>(first, second, page),
        "binary" => hashed::<BinOp>(first, second, page),
        "unary" => hashed::<UnOp>(first, second, page),
        "limits" => hashed::<RangeLimits>(first, second, page),
        "commas" => hashed::<token::Comma>(first, second, page),
        "arrows" => hashed::<token::RArrow>(first, second, page),
        "words" => hashed::<token::Fn>(first, second, page),
        "underscores" => hashed::<token::Underscore>(first, second, page),
        "lists" => lists(first, second, page),
        _ => Err(Unanswered::NoRow),
    }
}

// The value of a text.
fn read<T: Parse>(alloc: Global, text: &str) -> Result<T, Unanswered> {
    match parse_str::<T>(alloc, text, &mut SourceMap::new(alloc)) {
        Ok(value) => Ok(value),
        Err(_) => Err(Unanswered::NoRow),
    }
}

fn put_equal(is_equal: bool, page: &mut Page) {
    page.put(if is_equal { "equal" } else { "not equal" });
}

fn put_hashed<T: Hash>(first: &T, second: &T, page: &mut Page) {
    let are_alike = hash(first) == hash(second);
    page.put(if are_alike {
        ", hashed alike"
    } else {
        ", hashed apart"
    });
}

fn hash<T: Hash>(value: &T) -> u64 {
    let mut hasher = DefaultHasher::new();
    value.hash(&mut hasher);
    hasher.finish()
}

fn hashed<T: Parse + Hash>(first: &str, second: &str, page: &mut Page) -> Result<(), Unanswered> {
    let first = read::<T>(page.alloc(), first)?;
    let second = read::<T>(page.alloc(), second)?;
    put_equal(first == second, page);
    put_hashed(&first, &second, page);
    Ok(())
}

// Lifetimes, and how they are ordered.
fn lifetimes(first: &str, second: &str, page: &mut Page) -> Result<(), Unanswered> {
    let first = read::<Lifetime>(page.alloc(), first)?;
    let second = read::<Lifetime>(page.alloc(), second)?;
    put_equal(first == second, page);
    page.put(match first.cmp(&second) {
        Ordering::Less => ", less",
        Ordering::Equal => ", the same",
        Ordering::Greater => ", greater",
    });
    put_hashed(&first, &second, page);
    Ok(())
}

// Names with names between them.
fn lists(first: &str, second: &str, page: &mut Page) -> Result<(), Unanswered> {
    let first = list(page.alloc(), first)?;
    let second = list(page.alloc(), second)?;
    put_equal(first == second, page);
    Ok(())
}

fn list(alloc: Global, text: &str) -> Result<Punctuated<Ident, Ident>, Unanswered> {
    let parser = |input: &mut ParseBuffer<'_>| Punctuated::<Ident, Ident>::parse_terminated(input);
    match parser.parse_str(alloc, text, &mut SourceMap::new(alloc)) {
        Ok(list) => Ok(list),
        Err(_) => Err(Unanswered::NoRow),
    }
}
