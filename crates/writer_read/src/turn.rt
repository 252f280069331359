//! Turns, and the raw ones that are set apart.

ghost use Rattle.writer_print.specs.Pieces.{piece_token};
ghost use Rattle.reader_tree.specs.Forms.{turns};
ghost use Rattle.writer_rules.specs.Front.{Keeps};
ghost use Rattle.writer_rules.specs.Laid.{laid};
ghost use Rattle.writer_rules.specs.Turns.{apart_where, is_set_apart};
ghost use Rattle.std.specs.Prelude.{◌++◌, ◌≡◌, OnOk, map};

use crate::laid::put_laid;
use crate::opened::is_opened;
use reader_tree::tree::Tree;
use std::alloc::AllocError;
use writer_print::piece::Piece;
use writer_rules::raw::{is_raw_turn, set_apart};
use writer_rules::within::Within;

// Whether a turn is set apart from those behind it.
fn is_set_apart(turn: &Tree<'_>, behind: &[Tree<'_>]) -> bool
    ensures { result ≡ is_set_apart turn.now (turns behind.now) }
{
    is_raw_turn(turn) && is_opened(behind)
}

// The tokens of a turn, before others.
#[cycle(laid)]
#[tactic(auto, using(writer_rules::proofs::Pushing::puts, writer_rules::proofs::Fronts::kept))]
fn put_turn<'a>(
    turn: &Tree<'a>,
    behind: &[Tree<'a>],
    out: &mut Vec<Piece<'a>>,
) -> Result<(), AllocError>
    ensures put { OnOk result (map piece_token out.new.items ≡ map piece_token out.old.items
        ++ apart_where (is_set_apart turn.now (turns behind.now)) (laid turn.now)) }
    ensures keeps { Keeps out.old.items out.new.items }
{
    if !is_set_apart(turn, behind) {
        return put_laid(Within::Anywhere, turn, out);
    }
    let before = out.len();
    put_laid(Within::Anywhere, turn, out)?;
    set_apart(before, out);
    Ok(())
}

/// Puts the tokens of turns, one behind the other.
///
/// # Errors
///
/// Where there is no memory for more tokens.
#[cycle(laid)]
#[tactic(auto, using(writer_rules::proofs::Pushing::puts, writer_rules::proofs::Fronts::kept))]
pub(crate) fn put_turns<'a>(trees: &[Tree<'a>], out: &mut Vec<Piece<'a>>) -> Result<(), AllocError>
    ensures put { OnOk result (map piece_token out.new.items
        ≡ map piece_token out.old.items ++ laid (turns trees.now)) }
    ensures keeps { Keeps out.old.items out.new.items }
{
    for (index, turn) in trees.iter().enumerate() {
        put_turn(turn, &trees[index + 1..], out)?;
    }
    Ok(())
}
