//! Streams whose groups lie deep in one another.

use proc_macro2::delimiter::Delimiter;
use proc_macro2::tree::{Group, TokenStream, TokenTree};
use rust_map::source_map::SourceMap;
use std::alloc::{AllocError, Global};
use test_support::{Page, Unanswered};
use try_clone::TryClone;

/// Whether a text of so many parentheses in one another is a stream that is so deep, or the text's fault. The stream is
/// dropped. `NoRow` where the number is none.
pub fn nested(number: &str, page: &mut Page) -> Result<(), Unanswered> {
    let count = count_of(number)?;
    put_depth(nest(page.alloc(), count, true)?.as_str(), count, page);
    Ok(())
}

/// The same for a text of so many opening parentheses alone.
pub fn opened(number: &str, page: &mut Page) -> Result<(), Unanswered> {
    let count = count_of(number)?;
    put_depth(nest(page.alloc(), count, false)?.as_str(), count, page);
    Ok(())
}

fn count_of(number: &str) -> Result<usize, Unanswered> {
    match usize::from_str_radix(number, 10) {
        Ok(count) => Ok(count),
        Err(_) => Err(Unanswered::NoRow),
    }
}

// So many opening parentheses, and as many closing ones where they are to be closed.
fn nest(alloc: Global, count: usize, is_closed: bool) -> Result<String, AllocError> {
    let mut text = String::new(alloc);
    for _ in 0..count {
        text.push('(')?;
    }
    if is_closed {
        for _ in 0..count {
            text.push(')')?;
        }
    }
    Ok(text)
}

fn put_depth(text: &str, count: usize, page: &mut Page) {
    let alloc = page.alloc();
    match TokenStream::from_str(alloc, text, &mut SourceMap::new(alloc)) {
        Ok(stream) => write!(page, "so deep: {}", is_so_deep(&stream, count)),
        Err(fault) => page.show(&fault),
    }
}

// Whether a stream is so many groups in one another, and nothing else.
fn is_so_deep(stream: &TokenStream, count: usize) -> bool {
    let mut inside = stream;
    for _ in 0..count {
        match inside.trees() {
            [TokenTree::Group(group)] => inside = group.stream_ref(),
            _ => return false,
        }
    }
    inside.is_empty()
}

/// A stream of two groups that share a stream of two groups, and so on, so many times: how many trees it has, and how
/// many a copy of it has with the stream itself behind it. `NoRow` where the number is none.
pub fn doubled(number: &str, page: &mut Page) -> Result<(), Unanswered> {
    let stream = double(page.alloc(), count_of(number)?)?;
    let both = behind_itself(&stream)?;
    write!(page, "{} and {}", stream.trees().len(), both.trees().len());
    Ok(())
}

fn double(alloc: Global, count: usize) -> Result<TokenStream, AllocError> {
    let mut stream = TokenStream::new(alloc);
    for _ in 0..count {
        let group = Group::new(Delimiter::Parenthesis, stream);
        let copy = group.try_clone()?;
        stream = TokenStream::from_trees(
            alloc,
            vec![in alloc; TokenTree::Group(group), TokenTree::Group(copy)]?,
        )?;
    }
    Ok(stream)
}

fn behind_itself(stream: &TokenStream) -> Result<TokenStream, AllocError> {
    let mut both = stream.try_clone()?;
    both.push_stream(stream.try_clone()?)?;
    Ok(both)
}
