//! What is promised of items that were read.

ghost use Rattle.proc_macro2.specs.Token.{Token};
ghost use Rattle.std.specs.Prelude.{List};
ghost use Rattle.syn_data.specs.Derive.{IsAlone, IsDataItem, IsDataKind, read_form};
ghost use Rattle.syn_grammar.specs.Derives.{Derives};
ghost use Rattle.syn_grammar.specs.Gram as g;
ghost use Rattle.syn_grammar.specs.Kind as k;
ghost use Rattle.syn_grammar.specs.Tree as t;

/// A struct, an enum or a union that was read as an item, by itself or among others, is kept, and is one of data. So
/// `DeriveInput::of_item` finds it.
#[tactic(auto, using(crate::proofs::ReadItems::read_items))]
pub fn read_are_data()
    ensures alone { (x : t.Tree) (l : k.Kind) (rest : List Token) → IsAlone l → Derives x (g.ref l) rest
        → IsDataItem x }
    ensures among { (x : t.Tree) (rest : List Token) → Derives x (g.ref k.AnItem) rest → IsDataKind (read_form x)
        → IsDataItem x }
{}
