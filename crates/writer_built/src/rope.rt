//! Tokens that are to be written, in the order in which they are found: joined and put in parentheses without a copy.

ghost use Rattle.writer_built.specs.Ropes.{rope_tokens};
ghost use Rattle.writer_print.specs.Pieces.{piece_token};
ghost use Rattle.writer_rules.specs.Front.{Keeps};
ghost use Rattle.proc_macro2.specs.Token.{Closes, Opens};
ghost use Rattle.proc_macro2.specs.declared.delimiter.Delimiter.TheVariants.{Parenthesis};
ghost use Rattle.std.specs.Prelude.{[], ◌++◌, ◌∷◌, ◌≡◌, IfOk, OnOk, map};

use proc_macro2::delimiter::Delimiter;
use rust_map::span::Span;
use std::alloc::{AllocError, Global};
use writer_print::piece::Piece;

/// Tokens that are to be written.
#[derive(Drop)]
pub(crate) enum Rope<'a> {
    /// These.
    Own(Vec<Piece<'a>>),
    /// Those of one, and then those of the other.
    Joined(Box<Rope<'a>>, Box<Rope<'a>>),
    /// Those of one, in parentheses.
    Enclosed(Box<Rope<'a>>),
}

/// The tokens of one, and then those of the other.
///
/// # Errors
///
/// Where there is no memory for it.
pub(crate) fn joined<'a>(
    alloc: Global,
    front: Rope<'a>,
    back: Rope<'a>,
) -> Result<Rope<'a>, AllocError>
    ensures { IfOk result (λ r. rope_tokens r ≡ rope_tokens front.entry ++ rope_tokens back.entry) }
{
    let first = Box::new(alloc, front)?;
    let second = Box::new(alloc, back)?;
    Ok(Rope::Joined(first, second))
}

/// Those of one, in parentheses.
///
/// # Errors
///
/// Where there is no memory for it.
pub(crate) fn enclosed<'a>(alloc: Global, inside: Rope<'a>) -> Result<Rope<'a>, AllocError>
    ensures { IfOk result (λ r. rope_tokens r
        ≡ Opens Parenthesis ∷ rope_tokens inside.entry ++ Closes Parenthesis ∷ []) }
{
    let within = Box::new(alloc, inside)?;
    Ok(Rope::Enclosed(within))
}

// Puts a token behind those that are to be written.
#[tactic(auto, using(crate::proofs::Pushing::puts, writer_rules::proofs::Fronts::kept))]
fn put<'a>(piece: Piece<'a>, out: &mut Vec<Piece<'a>>) -> Result<(), AllocError>
    ensures put { OnOk result (map piece_token out.new.items
        ≡ map piece_token out.old.items ++ piece_token piece.entry ∷ []) }
    ensures keeps { Keeps out.old.items out.new.items }
{
    out.push(piece)?;
    Ok(())
}

// Puts tokens behind those that are to be written.
#[tactic(auto, using(crate::proofs::Pushing::puts, writer_rules::proofs::Fronts::kept))]
fn put_pieces<'a>(pieces: &[Piece<'a>], out: &mut Vec<Piece<'a>>) -> Result<(), AllocError>
    ensures put { OnOk result (map piece_token out.new.items
        ≡ map piece_token out.old.items ++ map piece_token pieces.now) }
    ensures keeps { Keeps out.old.items out.new.items }
{
    for piece in pieces {
        put(*piece, out)?;
    }
    Ok(())
}

/// Puts the tokens of a rope behind those that are to be written: each once.
///
/// # Errors
///
/// Where there is no memory for more tokens. Those that stood there stand in front then too.
#[tactic(auto, using(crate::proofs::Pushing::puts, writer_rules::proofs::Fronts::kept))]
pub(crate) fn put_rope<'a>(rope: &Rope<'a>, out: &mut Vec<Piece<'a>>) -> Result<(), AllocError>
    ensures put { OnOk result (map piece_token out.new.items
        ≡ map piece_token out.old.items ++ rope_tokens rope.now) }
    ensures keeps { Keeps out.old.items out.new.items }
{
    match rope {
        Rope::Own(pieces) => put_pieces(pieces.as_slice(), out),
        Rope::Joined(front, back) => {
            put_rope(front, out)?;
            put_rope(back, out)
        }
        Rope::Enclosed(inside) => {
            put(Piece::Open(Delimiter::Parenthesis, Span::call_site()), out)?;
            put_rope(inside, out)?;
            put(Piece::Close(Delimiter::Parenthesis), out)
        }
    }
}
