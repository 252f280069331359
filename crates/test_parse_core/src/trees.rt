//! Token trees, groups and streams that are read.

use crate::groups::nested;
use crate::texts::put;
use crate::whole::read;
use proc_macro2::{Group, Ident, SourceMap, TokenStream, TokenTree};
use syn_error::{ParseFault, TextFault};
use syn_kinds::token;
use syn_parse::parser::{parse_str, parse_stream};
use syn_parse::{Cursor, ParseBuffer, TokenBuffer};
use test_support::Page;

/// What is read, and what is no tree.
pub fn trees(page: &mut Page) {
    read::<TokenStream>("stream", "a (b 1) 'c += {}", page);
    read::<TokenStream>("stream", "", page);
    read::<Group>("group", "[x, y]", page);
    read::<Group>("group", "x", page);
    read::<TokenTree>("tree", "-", page);
    read::<TokenTree>("tree", "", page);
    let alloc = page.alloc();
    let tree = kind(parse_str::<TokenTree>(alloc, "-", &mut SourceMap::new(alloc)));
    write!(page, "kind [-]: {tree}\n");
}

fn kind(tree: Result<TokenTree, TextFault>) -> &'static str {
    match tree {
        Ok(tree) => tree_kind(&tree),
        Err(_) => "none",
    }
}

fn tree_kind(tree: &TokenTree) -> &'static str {
    match tree {
        TokenTree::Group(_) => "group",
        TokenTree::Ident(_) => "identifier",
        TokenTree::Punct(_) => "mark",
        TokenTree::Literal(_) => "literal",
    }
}

/// Invisible groups stand among trees: round `a` there is one, behind it an empty one, and then `b`.
pub fn invisible(page: &mut Page) {
    match nested(page.alloc(), 1) {
        Ok(stream) => put_invisible(&stream, page),
        Err(_) => page.cut(),
    }
}

fn put_invisible(stream: &TokenStream, page: &mut Page) {
    match TokenBuffer::new2(page.alloc(), stream, 1) {
        Ok(buffer) => {
            put_behind_name(buffer.begin(), page);
            put_behind_tree(buffer.begin(), page);
            let input = ParseBuffer::new(page.alloc(), buffer.begin());
            let is_group = input.peek::<token::Group>() | input.peek2::<token::Group>();
            write!(page, "peek group: {is_group}\n");
        }
        Err(_) => page.cut(),
    }
    let read = parse_stream(page.alloc(), behind_groups, stream);
    put("behind groups", "(a) () b", read, page);
}

// Puts how many trees there are from a place on, and behind its first name.
fn put_behind_name(begin: Cursor<'_>, page: &mut Page) {
    put_count(begin, page);
    page.put(" trees, ");
    match begin.ident() {
        Some((name, inside)) => {
            put_count(inside, page);
            write!(page, " behind {name}\n");
        }
        None => page.cut(),
    }
}

// Puts how many there are behind the first tree.
fn put_behind_tree(begin: Cursor<'_>, page: &mut Page) {
    match begin.token_tree(page.alloc()) {
        Ok(Some((first, behind))) => {
            put_count(behind, page);
            let first = tree_kind(&first);
            write!(page, " behind the first, a {first}\n");
        }
        _ => page.cut(),
    }
}

fn put_count(at: Cursor<'_>, page: &mut Page) {
    match at.token_stream(page.alloc()) {
        Ok(left) => page.show(&left.trees().len()),
        Err(_) => page.cut(),
    }
}

// The name behind two trees.
fn behind_groups(input: &mut ParseBuffer<'_>) -> Result<Ident, ParseFault> {
    let _ = input.parse::<TokenTree>()?;
    let _ = input.parse::<TokenTree>()?;
    input.parse::<Ident>()
}
