//! What is asked of a type that is one of several forms of a kind.
//!
//! `ExprCall` is one form of an expression: where one is wanted, an expression is read, all of it, and refused if it is
//! of another form. So of `f(x) + 1` no call is read, which is an operand there.

ghost use Rattle.reader_table.specs.Kinds.{kind_of};
ghost use Rattle.proc_macro2.specs.Token.{Token};
ghost use Rattle.std.specs.Prelude.{◌≡◌, List, MatchOption};
ghost use Rattle.syn_grammar.specs.Derives.{Derives};
ghost use Rattle.syn_grammar.specs.Gram.{ref};
ghost use Rattle.syn_grammar.specs.Kind.{Kind as GivenKind};
ghost use Rattle.syn_grammar.specs.Tree.{Tree as GivenTree};

use reader_table::kind::Kind;
use reader_tree::tree::Tree;

/// A type of the syntax tree that is one of several forms of a kind, as `ExprCall` is of expressions. It is read as
/// that kind, and refused where another form stands.
pub trait ParseSingle<'a> {
    /// The kind of the grammar that is read.
    ghost kind: { GivenKind };

    /// Which of its trees are of that form.
    ghost is_meant: { GivenTree → Type 0 };

    /// What a value says of the tree that it was read as.
    ghost says: { Self → GivenTree → Type 0 };

    /// That kind.
    fn kind() -> Kind
        ensures { kind_of result ≡ kind };

    /// What an error says where another form stands, as `expected call`.
    fn refusal() -> &'a str;

    /// What the type says of a tree of the kind: one layer of it. `None` exactly of those of another form.
    fn view(tree: &'a Tree<'a>) -> Option<Self>
        ensures { MatchOption result ((rest : List Token) → Derives tree.now (ref kind) rest → is_meant tree.now → ⊥)
            (λ x. is_meant tree.now × says x tree.now) };
}
