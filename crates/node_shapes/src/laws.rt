//! Laws of shapes: each is the contract of a function that does nothing.

ghost use Rattle.node_shapes.specs.Shape.{AreForms, IsShaped};
ghost use Rattle.node_shapes.specs.Streams.{are_trees};
ghost use Rattle.proc_macro2.specs.Token.{Token};
ghost use Rattle.std.specs.Prelude.{◌≡◌, List, true};
ghost use Rattle.syn_grammar.specs.Derives.{Bound, Derives};
ghost use Rattle.syn_grammar.specs.Gram.{Gram, ref};
ghost use Rattle.syn_grammar.specs.Kind.{Kind, Position};
ghost use Rattle.syn_grammar.specs.Read.{IsDerived};
ghost use Rattle.syn_grammar.specs.Tree.{Tree, flat};

/// What the grammar derives has the shape of its entry, where its tokens are those of trees, as all are that stand in a
/// stream: of any entry; of a kind, as the readers have it in their contracts; and an operand is made of forms.
pub fn read_are_shaped()
    ensures derived { (x : Tree) (g : Gram) (rest : List Token) → Derives x g rest → are_trees (flat x) ≡ true
        → IsShaped x g }
    ensures read { (k : Kind) (ts : List Token) (x : Tree) (rest : List Token) → IsDerived k ts x rest
        → are_trees ts ≡ true → IsShaped x (ref k) }
    ensures operand { (p : Position) (x : Tree) (rest : List Token) → Bound p x rest → are_trees (flat x) ≡ true
        → AreForms x }
{}
