//! What is kept of what is judged.

ghost use Rattle.proc_macro2.specs.Token.{Token};
ghost use Rattle.std.specs.Prelude.{List};
ghost use Rattle.syn_grammar.specs.Derives.{Derives};
ghost use Rattle.syn_grammar.specs.Gram as g;
ghost use Rattle.syn_grammar.specs.Kind as k;
ghost use Rattle.syn_grammar.specs.Tree as t;
ghost use Rattle.syn_part.specs.Kept.{IsKept};

/// Bounds and the fields of patterns that were read are kept, and not as their tokens alone. So `SomeBounds::of` and
/// `FieldPatterns::of` find what was read as such.
#[tactic(auto, using(crate::proofs::Judged::kept))]
pub fn read_are_kept()
    ensures bounds { (x : t.Tree) (rest : List Token) → Derives x (g.ref k.SomeBounds) rest → IsKept x }
    ensures fields { (x : t.Tree) (rest : List Token) → Derives x (g.ref k.FieldPatterns) rest → IsKept x }
{}
