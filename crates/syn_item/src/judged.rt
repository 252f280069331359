//! What was judged: whether it is kept as it was read, or as its tokens.

ghost use Rattle.std.specs.Prelude.{◌≡◌, MatchOption};
ghost use Rattle.syn_grammar.specs.Gram as g;
ghost use Rattle.syn_grammar.specs.Gram.{Verdict as GivenVerdict};
ghost use Rattle.syn_grammar.specs.Tree.{Tree as GivenTree};
ghost use Rattle.syn_item.specs.ItemJudged.{judged_tree};
ghost use Rattle.syn_part.specs.Shape.{IsShaped};

use reader_tree::tree::{Form, Tree};

/// What was judged.
#[derive(Clone, Copy)]
pub enum Judged<'t, 'a> {
    /// It is kept as it was read.
    Kept(&'t Tree<'a>),
    /// Its tokens are kept: the leaves of this tree.
    Raw(&'t Tree<'a>),
}

/// What was judged, and what became of it.
#[tactic(auto, using(crate::proofs::ItemJudged::judges))]
pub fn verdict_on<'t, 'a>(tree: &'t Tree<'a>) -> Option<Judged<'t, 'a>>
    ensures { MatchOption result ((v : GivenTree → GivenVerdict) (a : g.Gram) → IsShaped tree.now (g.judged v a) → ⊥)
        (λ j. tree.now ≡ judged_tree j) }
{
    match &tree.form {
        Form::First(depth, inner) => if *depth == 0 {
            Some(Judged::Kept(inner))
        } else {
            None
        },
        Form::Verbatim(inner) => Some(Judged::Raw(inner)),
        _ => None,
    }
}
