//! What is held as its tokens.

ghost use Rattle.writer_normal.specs.Marks.{are_known, is_known};
ghost use Rattle.writer_print.specs.Pieces.{piece_token};
ghost use Rattle.writer_print.specs.declared.piece.Piece.TheVariants as pieces;
ghost use Rattle.rust_leaf.specs.Leaf.{ident_text};
ghost use Rattle.rust_leaf.specs.Mark.{is_mark};
ghost use Rattle.std.specs.Prelude.{◌++◌, ◌≡◌, IfOk, IsTrue, OnOk, codes, map};
ghost use Rattle.syn_buffer.specs.Entries.{entry_token};
ghost use Rattle.syn_grammar.specs.Tree as t;
ghost use Rattle.syn_grammar.specs.Tree.{flat};

use crate::laws::each_tree;
use reader_tree::arena::Arena;
use reader_tree::made;
use reader_tree::tree::Tree;
use rust_leaf::ident::Ident;
use rust_leaf::literal::Literal;
use rust_leaf::punct::{Punct, Spacing};
use rust_map::span::Span;
use std::alloc::AllocError;
use syn_buffer::entry::Entry;
use writer_print::piece::Piece;
use writer_read::as_read::put_as_read;

/// The word `_`.
///
/// # Errors
///
/// Where there is no memory for it.
#[tactic(auto, using(crate::proofs::Entering::underscore_word))]
pub(crate) fn underscore<'a>(arena: &'a Arena) -> Result<&'a Ident, AllocError>
    ensures { IfOk result (λ i. ident_text i.now ≡ codes "_") }
{
    match Ident::new(arena.alloc(), "_", Span::call_site()) {
        Ok(ident) => arena.put(ident),
        Err(_) => Err(AllocError),
    }
}

// A mark that stands there.
fn mark<'a>(
    arena: &'a Arena,
    mark: char,
    spacing: Spacing,
    span: Span,
) -> Result<Entry<'a>, AllocError>
    requires { IsTrue (is_mark mark) }
    ensures { IfOk result (λ e. entry_token e ≡ piece_token (pieces.Mark mark spacing span)) }
{
    let mut punct = Punct::new(mark, spacing);
    punct.set_span(span);
    Ok(Entry::Punct(arena.put(punct)?))
}

// A token; of one that opens a group it is not known how many stand inside.
fn entry<'a>(arena: &'a Arena, piece: Piece<'a>) -> Result<Entry<'a>, AllocError>
    requires { IsTrue (is_known (piece_token piece)) }
    ensures { IfOk result (λ e. entry_token e ≡ piece_token piece.entry) }
{
    match piece {
        Piece::Ident(ident) => Ok(Entry::Ident(ident)),
        Piece::Literal(literal) => Ok(Entry::Literal(literal)),
        Piece::Mark(character, spacing, span) => mark(arena, character, spacing, span),
        Piece::Open(delimiter, span) => Ok(Entry::Open(delimiter, span, 0)),
        Piece::Close(delimiter) => Ok(Entry::Close(delimiter, Span::call_site())),
        Piece::Underscore => Ok(Entry::Ident(underscore(arena)?)),
        Piece::Index(index, span) => {
            let mut literal = Literal::u32_unsuffixed(arena.alloc(), index)?;
            literal.set_span(span);
            Ok(Entry::Literal(arena.put(literal)?))
        }
    }
}

// Puts each of some tokens.
#[tactic(auto, using(crate::proofs::Entering::puts, crate::proofs::Known::pieces))]
fn put_entries<'a>(
    arena: &'a Arena,
    pieces: &[Piece<'a>],
    out: &mut Vec<Entry<'a>>,
) -> Result<(), AllocError>
    requires { IsTrue (are_known (map piece_token pieces.now)) }
    ensures { OnOk result (map entry_token out.new.items
        ≡ map entry_token out.old.items ++ map piece_token pieces.now) }
{
    for piece in pieces {
        out.push(entry(arena, *piece)?)?;
    }
    Ok(())
}

/// The tokens of what is held as them.
///
/// # Errors
///
/// Where there is no memory for them.
#[tactic(auto, using(crate::proofs::Entering::puts))]
pub(crate) fn verbatim<'a>(arena: &'a Arena, inner: &Tree<'a>) -> Result<Tree<'a>, AllocError>
    ensures { IfOk result (λ x. x ≡ t.Raw (flat inner.now)) }
{
    let mut pieces = Vec::new(arena.alloc());
    put_as_read(inner, &mut pieces)?;
    each_tree(inner);
    let mut entries = Vec::new(arena.alloc());
    put_entries(arena, pieces.as_slice(), &mut entries)?;
    Ok(made::raw(arena, arena.put_all(entries)?)?)
}
