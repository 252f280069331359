//! Writing the normal form of what was read.

ghost use Rattle.writer_print.specs.Pieces.{piece_token};
ghost use Rattle.writer_rules.specs.Front.{Keeps};
ghost use Rattle.writer_rules.specs.Said.{said};
ghost use Rattle.writer_read.specs.Formed.{IsFormed};
ghost use Rattle.std.specs.Prelude.{◌≡◌, ◌++◌, OnOk, map};
ghost use Rattle.syn_grammar.specs.Kind.{Position};

use crate::laid::put_laid;
use reader_tree::tree::Tree;
use std::alloc::AllocError;
use writer_print::piece::Piece;
use writer_rules::within::Within;

/// Puts the tokens of the normal form of a tree behind those that are to be written, in any position in which the tree
/// is formed.
///
/// # Errors
///
/// Where there is no memory for more tokens. Those that stood there stand in front then too, perhaps with some of the
/// tree's behind them.
#[tactic(auto, using(writer_rules::proofs::Fronts::kept))]
pub fn write<'a>(tree: &Tree<'a>, out: &mut Vec<Piece<'a>>) -> Result<(), AllocError>
    ensures put { OnOk result ((p : Position) → IsFormed p tree.now
        → map piece_token out.new.items ≡ map piece_token out.old.items ++ said p tree.now) }
    ensures keeps { Keeps out.old.items out.new.items }
{
    put_laid(Within::Anywhere, tree, out)
}
