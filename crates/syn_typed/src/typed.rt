//! What is asked of a type that is read from tokens.

ghost use Rattle.reader_table.specs.Kinds.{kind_of};
ghost use Rattle.proc_macro2.specs.Token.{Token};
ghost use Rattle.std.specs.Prelude.{◌≡◌, List, MatchOption};
ghost use Rattle.syn_grammar.specs.Derives.{Derives};
ghost use Rattle.syn_grammar.specs.Gram.{ref};
ghost use Rattle.syn_grammar.specs.Kind.{Kind as GivenKind};
ghost use Rattle.syn_grammar.specs.Tree.{Tree as GivenTree};

use reader_table::kind::Kind;
use reader_tree::tree::Tree;

/// A type of the syntax tree that is read from tokens.
pub trait Parse<'a> {
    /// The kind of the grammar that is read.
    ghost kind: { GivenKind };

    /// What a value says of the tree that it was read as.
    ghost says: { Self → GivenTree → Type 0 };

    /// That kind.
    fn kind() -> Kind
        ensures { kind_of result ≡ kind };

    /// What the type says of a tree of the kind: one layer of it. `None` only of a tree that was not read as one.
    fn view(tree: &'a Tree<'a>) -> Option<Self>
        ensures { MatchOption result ((rest : List Token) → Derives tree.now (ref kind) rest → ⊥)
            (λ x. says x tree.now) };
}
