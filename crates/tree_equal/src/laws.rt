//! Laws of trees that are compared: each is the contract of a function that does nothing.

ghost use Rattle.proc_macro2.specs.Token.{Token};
ghost use Rattle.std.specs.Prelude.{◌++◌, ◌≡◌, ◌↔◌, List};
ghost use Rattle.syn_grammar.specs.Derives.{Derives};
ghost use Rattle.syn_grammar.specs.Gram.{ref};
ghost use Rattle.syn_grammar.specs.Kind.{Kind};
ghost use Rattle.syn_grammar.specs.Tree as t;
ghost use Rattle.syn_grammar.specs.Tree.{flat};

/// Two trees of the same kind, of which that holds where the same follows, are the same exactly if their tokens are;
/// and where two trees of a kind are what the same tokens begin with, they are the same. So `equal` tells of forms
/// that were read whether their tokens are the same.
pub fn same_by_tokens()
    ensures same { (a b : t.Tree) (k : Kind) (rest : List Token) → Derives a (ref k) rest → Derives b (ref k) rest
        → (a ≡ b) ↔ (flat a ≡ flat b) }
    ensures begun { (a b : t.Tree) (k : Kind) (r s : List Token) → Derives a (ref k) r → Derives b (ref k) s
        → flat a ++ r ≡ flat b ++ s → a ≡ b }
{}
