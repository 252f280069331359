//! Raw items among statements, and what sets the last mark of one apart.

ghost use Rattle.writer_print.specs.Pieces.{piece_token};
ghost use Rattle.writer_rules.specs.Turns.{is_raw, is_raw_choice, is_raw_node, is_raw_turn};
ghost use Rattle.proc_macro2.specs.Token.{Token};
ghost use Rattle.std.specs.Prelude.{◌++◌, ◌∷◌, [], ◌≡◌, List, length, map, take};
ghost use Rattle.syn_grammar.specs.Normal.{apart};

use crate::operand::{first_behind, statement};
use reader_table::kind::Kind;
use reader_tree::tree::{Form, Tree};
use rust_leaf::punct::Spacing;
use writer_print::piece::Piece;

// Whether it is tokens that are held as they are.
#[tactic(auto, using(crate::proofs::Apartness::raws))]
fn is_raw(tree: &Tree<'_>) -> bool
    ensures { result ≡ is_raw tree.now }
{
    match &tree.form {
        Form::Raw(_) => true,
        Form::Verbatim(_) => true,
        _ => false,
    }
}

// Whether it is an item that is.
fn is_raw_node(tree: &Tree<'_>) -> bool
    ensures { result ≡ is_raw_node tree.now }
{
    match tree.node() {
        Some((kind, inner)) => match kind {
            Kind::AnItem => is_raw(inner),
            _ => false,
        },
        None => false,
    }
}

// Whether a statement is such an item, behind attributes or without.
#[tactic(auto, using(crate::proofs::Apartness::raw_choices))]
fn is_raw_choice(inner: &Tree<'_>) -> bool
    ensures { result ≡ is_raw_choice inner.now }
{
    match inner.first() {
        Some(item) => is_raw_node(item),
        None => match first_behind(inner, 3) {
            Some(item) => is_raw_node(item),
            None => false,
        },
    }
}

/// Whether a turn among statements is a raw item.
#[tactic(auto, using(crate::proofs::Apartness::raw_turns))]
pub fn is_raw_turn(turn: &Tree<'_>) -> bool
    ensures { result ≡ is_raw_turn turn.now }
{
    let Some(chosen) = turn.last() else {
        return false;
    };
    match statement(chosen) {
        Some(inner) => is_raw_choice(inner),
        None => false,
    }
}

// A token, which is set apart if it is a mark.
fn lone(piece: Piece<'_>) -> Piece<'_>
    ensures { piece_token result ∷ [] ≡ apart (piece_token piece.entry ∷ []) }
{
    match piece {
        Piece::Mark(mark, _, span) => Piece::Mark(mark, Spacing::Alone, span),
        _ => piece,
    }
}

/// Sets the last one of the tokens apart that stand behind so many, if it is a mark.
pub fn set_apart<'a>(before: usize, out: &mut Vec<Piece<'a>>)
    ensures apart { (ts us : List Token) → length ts ≡ before → map piece_token out.old.items ≡ ts ++ us
        → map piece_token out.new.items ≡ ts ++ apart us }
    ensures front { take before out.new.items ≡ take before out.old.items }
{
    if out.len() <= before {
        return;
    }
    let last = out.len() - 1;
    let piece = out[last];
    out[last] = lone(piece);
}
