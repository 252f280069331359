//! Chains with more turns than a stack has room for calls: what goes along one does so in a loop.

use crate::reading::{buffers, front, lexed};
use crate::written::{Writing, is_print};
use std::alloc::Global;
use syn::{Arena, Kind, Position, TokenBuffer, TokenStream, Tree, equal, same};
use test_support::{Page, Unanswered};

// How many turns the chain of a row has.
const TURNS: usize = 100_000;

// A chain, as a row has it: what stands first, what each turn is, what stands last, and the same with other spaces,
// with `…` between them.
#[derive(Clone, Copy)]
struct Chain<'a> {
    first: &'a str,
    turn: &'a str,
    last: &'a str,
    spaced: &'a str,
}

// The chain of a row.
fn chain_of(row: &str) -> Option<Chain<'_>> {
    let (first, others) = row.split_once('…')?;
    let (turn, ends) = others.split_once('…')?;
    let (last, spaced) = ends.split_once('…')?;
    Some(Chain {
        first,
        turn,
        last,
        spaced,
    })
}

// Puts the text of a chain with so many turns and that behind them.
fn put_text(chain: Chain<'_>, turns: usize, last: &str, page: &mut Page) {
    page.put(chain.first);
    for _ in 0..turns {
        page.put(chain.turn);
    }
    page.put(last);
}

// The expression that all of a buffer is.
fn expression<'a>(arena: &'a Arena, buffer: &'a TokenBuffer<'a>) -> Result<Tree<'a>, Unanswered> {
    let Some((tree, left)) = front(arena, Kind::Expression(Position::Plain), buffer)? else {
        return Err(Unanswered::NoRow);
    };
    if left.is_empty() {
        Ok(tree)
    } else {
        Err(Unanswered::NoRow)
    }
}

// Puts what is said, or that it is not so.
fn put_said(is_so: bool, what: &str, page: &mut Page) {
    if !is_so {
        page.put("not ");
    }
    page.put(what);
}

// Puts how a tree is written, whose text that is.
fn put_written(tree: &Tree<'_>, text: &str, page: &mut Page) -> Result<(), Unanswered> {
    let alloc = page.alloc();
    let is_normal = is_print(alloc, Writing::Read, tree, text)?;
    put_said(is_normal, "written as it stands", page);
    page.put(", ");
    let is_read = is_print(alloc, Writing::Plain, tree, text)?;
    put_said(is_read, "put as it was read", page);
    Ok(())
}

// Puts how a tree compares with another one, of which that is said.
fn put_compared<'a>(
    arena: &'a Arena,
    tree: &Tree<'a>,
    other: &Tree<'a>,
    what: &str,
    page: &mut Page,
) -> Result<(), Unanswered> {
    page.put("; ");
    put_said(equal(tree, other), "equal to ", page);
    page.put(what);
    page.put(", ");
    put_said(same(arena, tree, other)?, "the same as ", page);
    page.put(what);
    Ok(())
}

// Puts how the expression that the first of three buffers is, whose text that is, compares with its copy, and with
// those that the others are.
fn put_expressions<'a>(
    arena: &'a Arena,
    buffers: &'a [TokenBuffer<'a>],
    text: &str,
    page: &mut Page,
) -> Result<(), Unanswered> {
    let [whole, fewer, spaced] = buffers else {
        return Err(Unanswered::NoRow);
    };
    let tree = expression(arena, whole)?;
    put_written(&tree, text, page)?;
    put_compared(arena, &tree, &tree.copy(), "its copy", page)?;
    let other = expression(arena, fewer)?;
    put_compared(arena, &tree, &other, "one with a turn less", page)?;
    let again = expression(arena, spaced)?;
    put_compared(arena, &tree, &again, "one with other spaces", page)
}

// The same with trees in an arena of its own.
fn put_buffers(buffers: &[TokenBuffer<'_>], text: &str, page: &mut Page) -> Result<(), Unanswered> {
    let arena = Arena::new(page.alloc());
    put_expressions(&arena, buffers, text, page)
}

// The tokens of the texts.
fn streams(alloc: Global, texts: &[Page]) -> Result<Vec<TokenStream>, Unanswered> {
    let mut all = Vec::new(alloc);
    for text in texts {
        match lexed(alloc, text.whole()?) {
            Some(stream) => all.push(stream)?,
            None => return Err(Unanswered::NoRow),
        }
    }
    Ok(all)
}

/// Puts how a chain of 100,000 turns is written, and how it compares, by `equal` and by `same`, with its copy, with
/// one that has a turn less, and with one whose last part has other spaces. A row has what stands first, a turn, what
/// stands last, and that with other spaces, with `…` between them; else it is no row.
pub(crate) fn put_row(row: &str, page: &mut Page) -> Result<(), Unanswered> {
    let Some(chain) = chain_of(row) else {
        return Err(Unanswered::NoRow);
    };
    let alloc = page.alloc();
    let mut texts = [Page::new(alloc), Page::new(alloc), Page::new(alloc)];
    put_text(chain, TURNS, chain.last, &mut texts[0]);
    put_text(chain, TURNS - 1, chain.last, &mut texts[1]);
    put_text(chain, TURNS, chain.spaced, &mut texts[2]);
    let streams = streams(alloc, &texts)?;
    let buffers = buffers(alloc, streams.as_slice())?;
    put_buffers(buffers.as_slice(), texts[0].whole()?, page)
}
