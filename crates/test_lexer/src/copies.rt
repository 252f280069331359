//! Copies of streams, of their parts and of values of std: with ample memory each is made, and is as what was copied.

use proc_macro2::into_iter::IntoIter;
use proc_macro2::tree::{Group, TokenStream, TokenTree};
use rust_leaf::punct::Punct;
use rust_map::source_map::SourceMap;
use std::alloc::{AllocError, Global};
use std::fmt::{Debug, Display};
use test_support::{Page, Unanswered};
use try_clone::TryClone;

// Whether a copy is printed by `Debug` as what was copied.
fn is_alike<T: TryClone + Debug>(alloc: Global, value: &T) -> bool {
    match value.try_clone() {
        Ok(copy) => are_same(&shown(alloc, value), &shown(alloc, &copy)),
        Err(_) => false,
    }
}

// A value as programmers are shown it, on a page of its own.
fn shown<T: Debug>(alloc: Global, value: &T) -> Page {
    let mut page = Page::new(alloc);
    page.debug(value);
    page
}

fn are_same(first: &Page, second: &Page) -> bool {
    match (first.whole(), second.whole()) {
        (Ok(first), Ok(second)) => first == second,
        _ => false,
    }
}

fn is_group_alike(alloc: Global, group: &Group) -> bool {
    has_delimiter(group) && has_spans(group) && has_place(group) && is_alike(alloc, group)
}

// Whether the copy of a group's delimiter is the same.
fn has_delimiter(group: &Group) -> bool {
    match group.delimiter().try_clone() {
        Ok(delimiter) => delimiter == group.delimiter(),
        Err(_) => false,
    }
}

// Whether the copy of its spans has the same ones.
fn has_spans(group: &Group) -> bool {
    match group.delim_span().try_clone() {
        Ok(spans) => {
            spans.open().eq(&group.span_open())
                && spans.close().eq(&group.span_close())
                && spans.join().eq(&group.span())
        }
        Err(_) => false,
    }
}

// Whether its copy stands where it does.
fn has_place(group: &Group) -> bool {
    match group.try_clone() {
        Ok(copy) => copy.span().eq(&group.span()),
        Err(_) => false,
    }
}

fn is_mark_alike(alloc: Global, punct: &Punct) -> bool {
    match punct.spacing().try_clone() {
        Ok(spacing) => spacing == punct.spacing() && is_alike(alloc, punct),
        Err(_) => false,
    }
}

fn is_part_alike(alloc: Global, tree: &TokenTree) -> bool {
    match tree {
        TokenTree::Group(group) => is_group_alike(alloc, group),
        TokenTree::Ident(ident) => is_alike(alloc, ident),
        TokenTree::Punct(punct) => is_mark_alike(alloc, punct),
        TokenTree::Literal(literal) => is_alike(alloc, literal),
    }
}

fn is_span_alike(tree: &TokenTree) -> bool {
    match tree.try_clone() {
        Ok(copy) => copy.span().eq(&tree.span()),
        Err(_) => false,
    }
}

fn is_tree_alike(alloc: Global, tree: &TokenTree) -> bool {
    is_span_alike(tree) && is_part_alike(alloc, tree) && is_alike(alloc, tree)
}

fn are_trees_alike(alloc: Global, trees: IntoIter) -> bool {
    let mut all = is_alike(alloc, &trees);
    for tree in trees {
        all &= is_tree_alike(alloc, &tree);
    }
    all
}

// Puts how many trees are left, if the iterator has a copy that is as it is, and each of them too.
fn put_trees(trees: IntoIter, page: &mut Page) {
    let copy = trees.try_clone();
    put_count(are_trees_alike(page.alloc(), trees), copy, page);
}

fn put_count(are_alike: bool, copy: Result<IntoIter, AllocError>, page: &mut Page) {
    match copy {
        Ok(copy) if are_alike => page.show(&copy.count()),
        Ok(_) => page.put("not alike"),
        Err(_) => page.cut(),
    }
}

// The same of a stream.
fn put_stream(stream: TokenStream, page: &mut Page) {
    let is_alike = is_alike(page.alloc(), &stream);
    match stream.into_iter() {
        Ok(trees) if is_alike => put_trees(trees, page),
        Ok(_) => page.put("not alike"),
        Err(_) => page.cut(),
    }
}

/// How many trees at the top of a text have copies that are as they are, as the stream and its iterator have.
pub fn alike(text: &str, page: &mut Page) -> Result<(), Unanswered> {
    let alloc = page.alloc();
    match TokenStream::from_str(alloc, text, &mut SourceMap::new(alloc)) {
        Ok(stream) => put_stream(stream, page),
        Err(_) => return Err(Unanswered::NoRow),
    }
    Ok(())
}

// Puts a copy of a value, by `Debug`, and a space.
fn put_copy<T: TryClone + Debug>(value: &T, page: &mut Page) {
    match value.try_clone() {
        Ok(copy) => write!(page, "{copy:?} "),
        Err(_) => page.cut(),
    }
}

// The same by `Display`.
fn show_copy<T: TryClone + Display>(value: &T, page: &mut Page) {
    match value.try_clone() {
        Ok(copy) => write!(page, "{copy} "),
        Err(_) => page.cut(),
    }
}

/// The copies of a value of each type of std that has any, of a text's length and of the text.
pub fn of_std(text: &str, page: &mut Page) -> Result<(), Unanswered> {
    let letter = text.chars().next().unwrap_or('-');
    match u8::try_from(text.len()) {
        Ok(small) => put_numbers(small, text.len(), page),
        Err(_) => return Err(Unanswered::NoRow),
    }
    put_parts(text, letter, page);
    put_owned(letter, page)?;
    page.debug(&(text.is_empty(), letter).try_clone()?);
    Ok(())
}

fn put_numbers(small: u8, length: usize, page: &mut Page) {
    put_copy(&small, page);
    put_copy(&u16::from(small), page);
    put_copy(&u32::from(small), page);
    put_copy(&u64::from(small), page);
    put_copy(&u128::from(small), page);
    put_copy(&length, page);
}

fn put_parts(text: &str, letter: char, page: &mut Page) {
    put_copy(&text.is_empty(), page);
    show_copy(&letter, page);
    match String::from_str(page.alloc(), text) {
        Ok(text) => put_copy(&text, page),
        Err(_) => page.cut(),
    }
    put_copy(&Some(text.is_empty()), page);
    put_copy(&None::<u8>, page);
}

fn put_owned(letter: char, page: &mut Page) -> Result<(), Unanswered> {
    show_copy(&Box::new(page.alloc(), letter)?, page);
    put_list(letter, page)
}

fn put_list(letter: char, page: &mut Page) -> Result<(), Unanswered> {
    let mut letters = Vec::new(page.alloc());
    letters.push(letter)?;
    letters.push('z')?;
    put_copy(&letters, page);
    Ok(())
}
