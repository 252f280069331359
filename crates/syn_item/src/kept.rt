//! What is kept of what is judged.

ghost use Rattle.proc_macro2.specs.Token.{Token};
ghost use Rattle.std.specs.Prelude.{◌≡◌, Bool, List};
ghost use Rattle.syn_grammar.specs.Derives.{Derives};
ghost use Rattle.syn_grammar.specs.Gram as g;
ghost use Rattle.syn_grammar.specs.Kind as k;
ghost use Rattle.syn_grammar.specs.Lists.{typed};
ghost use Rattle.syn_grammar.specs.Table.{table};
ghost use Rattle.syn_grammar.specs.Tree as t;
ghost use Rattle.syn_grammar.specs.Types.{kept_if};
ghost use Rattle.syn_item.specs.ItemForms.{IsItem};
ghost use Rattle.syn_part.specs.Kept.{IsKept};

/// What was read by an entry that keeps or refuses it is kept as it was read, as parameters, traits and impls are. So
/// is what was read as one kind of item by itself. Of an item among others that is kept, the form is none of which the
/// tokens are kept. So the functions of this crate find each of these that was read.
pub fn read_are_kept()
    ensures kept_or_refused { (i : k.Kind) (p : t.Tree → Bool) (a : g.Gram) → table i ≡ g.judged (λ y. kept_if (p y)) a
        → (x : t.Tree) (rest : List Token) → Derives x (g.ref i) rest → IsKept x }
    ensures by_itself { (i : k.Kind) (p : k.Place) (a : g.Gram) → table i ≡ g.judged (typed p) a
        → (x : t.Tree) (rest : List Token) → Derives x (g.ref i) rest → IsKept x }
    ensures items { (x : t.Tree) (rest : List Token) → Derives x (g.ref k.AnItem) rest → IsItem x }
{}
