//! What may be missing.

ghost use Rattle.std.specs.Prelude.{◌≡◌, cond};
ghost use Rattle.syn_grammar.specs.Tree as t;

use crate::take;
use reader_tree::tree::Tree;

/// Whether nothing is chosen there, where something might be.
#[tactic(auto, using(crate::proofs::Absent::missing_none))]
pub fn nothing(tree: &Tree<'_>) -> bool
    ensures { cond result (tree.now ≡ t.Second t.Nil) (tree.now ≡ t.Second t.Nil → ⊥) }
{
    match take::optional(tree) {
        Some(None) => true,
        Some(Some(_)) => false,
        None => false,
    }
}
