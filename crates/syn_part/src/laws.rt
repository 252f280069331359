//! What is promised of all trees that were read.

ghost use Rattle.proc_macro2.specs.Token.{Token};
ghost use Rattle.std.specs.Prelude.{List};
ghost use Rattle.syn_grammar.specs.Derives.{Derives};
ghost use Rattle.syn_grammar.specs.Gram as g;
ghost use Rattle.syn_grammar.specs.Tree as t;
ghost use Rattle.syn_part.specs.Shape.{IsShaped};

/// What was read has the shape of its entry. So where a tree was read as a form of its kind, each function that asks
/// what it is finds it, here and in the crates that have the types.
#[tactic(auto, using(crate::proofs::Derived::shaped))]
pub fn read_are_shaped()
    ensures { (x : t.Tree) (a : g.Gram) (rest : List Token) → Derives x a rest → IsShaped x a }
{}
