//! Streams that are built by hand.

use super::lines::print_made;
use laws_lexer::spaced::reread;
use proc_macro2::delimiter::Delimiter;
use proc_macro2::tree::{Group, TokenStream, TokenTree};
use rust_leaf::ident::Ident;
use rust_leaf::literal::Literal;
use rust_leaf::punct::{Punct, Spacing};
use rust_map::source_map::SourceMap;
use rust_map::span::Span;
use std::alloc::{AllocError, Global};
use test_support::{Page, Unanswered};
use try_clone::TryClone;

/// A minus stands alone.
pub fn minus(page: &mut Page) {
    match negative(page.alloc()) {
        Ok(stream) => put_counted(stream, page),
        Err(_) => page.cut(),
    }
}

fn negative(alloc: Global) -> Result<TokenStream, AllocError> {
    let literal = Literal::i8_suffixed(alloc, -128)?;
    TokenStream::from_tree(alloc, TokenTree::Literal(literal))
}

// Puts the print of a stream, and how many trees it has at least.
fn put_counted(stream: TokenStream, page: &mut Page) {
    write!(page, "«{stream}»");
    match stream.into_iter() {
        Ok(trees) => write!(page, " {}\n", trees.size_hint().0),
        Err(_) => page.cut(),
    }
}

/// Groups print with their delimiters.
pub fn groups(page: &mut Page) {
    put_groups(Delimiter::Parenthesis, page);
    put_groups(Delimiter::Brace, page);
    put_groups(Delimiter::Bracket, page);
    put_groups(Delimiter::None, page);
}

// Puts an empty group, and one with a name.
fn put_groups(delimiter: Delimiter, page: &mut Page) {
    let empty = Group::new(delimiter, TokenStream::new(page.alloc()));
    write!(page, "«{empty}»\n");
    print_made(group(page.alloc(), delimiter), page);
}

fn group(alloc: Global, delimiter: Delimiter) -> Result<Group, Unanswered> {
    match Ident::new(alloc, "x", Span::call_site()) {
        Ok(ident) => {
            let inside = TokenStream::from_tree(alloc, TokenTree::Ident(ident))?;
            Ok(Group::new(delimiter, inside))
        }
        Err(_) => Err(Unanswered::Cut),
    }
}

/// A changed copy leaves the other.
#[tactic(auto, unfolding(rust_leaf::specs::Mark::is_mark))]
pub fn changed_copy(page: &mut Page) {
    let plus = TokenTree::Punct(Punct::new('+', Spacing::Alone));
    match TokenStream::from_tree(page.alloc(), plus) {
        Ok(first) => put_changed(&first, page),
        Err(_) => page.cut(),
    }
}

fn put_changed(first: &TokenStream, page: &mut Page) {
    let second = changed(page.alloc(), first);
    write!(page, "«{first}»\n");
    print_made(second, page);
}

#[tactic(auto, unfolding(rust_leaf::specs::Mark::is_mark))]
fn changed(alloc: Global, first: &TokenStream) -> Result<TokenStream, Unanswered> {
    let mut second = first.try_clone()?;
    second.extend_trees(vec![in alloc; TokenTree::Punct(Punct::new('-', Spacing::Alone))]?)?;
    Ok(second)
}

/// A print is read again.
pub fn read_again(page: &mut Page) {
    let mut map = SourceMap::new(page.alloc());
    match TokenStream::from_str(page.alloc(), "'a+-b [r#\"x\"#]{}", &mut map) {
        Ok(stream) => print_made(reread(&stream, page.alloc(), &mut map), page),
        Err(_) => page.cut(),
    }
}
