//! Laws of the grammar: each is the contract of a function that does nothing.

ghost use Rattle.proc_macro2.specs.Spacing.{IsWellSpaced};
ghost use Rattle.proc_macro2.specs.Token.{Token};
ghost use Rattle.std.specs.Prelude.{◌≡◌, ◌≤◌, ◌⊎◌, ℕ, false, nat_le, List, ◌++◌};
ghost use Rattle.syn_grammar.specs.Calm.{RawsEndApart};
ghost use Rattle.syn_grammar.specs.Derives.{Derives};
ghost use Rattle.syn_grammar.specs.Gram.{Gram, ref};
ghost use Rattle.syn_grammar.specs.Keeps.{kepts};
ghost use Rattle.syn_grammar.specs.Kept.{kept};
ghost use Rattle.syn_grammar.specs.Names.{AllStand, names};
ghost use Rattle.syn_grammar.specs.Kind.{Kind};
ghost use Rattle.syn_grammar.specs.Normal.{normal};
ghost use Rattle.syn_grammar.specs.Forms.{within};
ghost use Rattle.syn_grammar.specs.Parens.{is_ended, is_struct};
ghost use Rattle.syn_grammar.specs.Shape.{ended_by_shape, least, lowest};
ghost use Rattle.syn_grammar.specs.Read.{IsDerived, IsRead, NoneRead};
ghost use Rattle.syn_grammar.specs.Run.{Got, Refused, kind, reads};
ghost use Rattle.syn_grammar.specs.Tree.{Tree, flat};

/// Tokens begin with at most one tree of an entry, and it leaves one rest.
pub fn one_tree()
    ensures { (g : Gram) (x y : Tree) (r s : List Token) → Derives x g r → Derives y g s → flat x ++ r ≡ flat y ++ s
        → (x ≡ y) × (r ≡ s) }
{}

/// Tokens begin with a tree of a kind, or with none.
pub fn decided()
    ensures { (k : Kind) (ts : List Token) → ((form : Tree) × (rest : List Token) × IsRead k ts form rest)
        ⊎ NoneRead k ts }
{}

/// The run finds trees of the grammar and no others, and each of them.
pub fn reading()
    ensures found { (k : Kind) (ts : List Token) (x : Tree) (rest : List Token) → reads (kind k) ts ≡ Got x rest
        → IsDerived k ts x rest }
    ensures all { (k : Kind) (ts : List Token) (x : Tree) (rest : List Token) → IsDerived k ts x rest
        → reads (kind k) ts ≡ Got x rest }
{}

/// What is kept of a run's tree is read of the tokens, and where the run refuses, nothing is.
pub fn keeping()
    ensures given { (k : Kind) (ts : List Token) (form : Tree) (rest : List Token) → kepts (kind k) ts ≡ Got form rest
        → IsRead k ts form rest }
    ensures none { (k : Kind) (ts : List Token) → kepts (kind k) ts ≡ Refused → NoneRead k ts }
{}

/// Normal form is settled: the normal form of a normal form is itself, of every tree, parentheses of expressions
/// included.
pub fn normal_twice()
    ensures { (x : Tree) → normal (normal x) ≡ normal x }
{}

/// The tokens of a normal form are well spaced where those that were read are, if no raw form among them ends in a
/// joint mark.
pub fn well_spaced()
    ensures { (k : Kind) (tree : Tree) (rest : List Token) → Derives tree (ref k) rest
        → IsWellSpaced (flat tree ++ rest) → RawsEndApart tree → IsWellSpaced (flat (normal (kept tree))) }
{}

/// Each name of a file stands where it is said to: behind so many of the file's tokens.
pub fn names_stand()
    ensures { (tree : Tree) → AllStand (flat tree) 0 (names tree) }
{}

/// What is kept is all kept, and of its normal form all is kept too: the normal form of what a syntax tree holds is
/// what a syntax tree holds.
pub fn kept_normal()
    ensures twice { (x : Tree) → kept (kept x) ≡ kept x }
    ensures normal { (x : Tree) → kept (normal (kept x)) ≡ normal (kept x) }
{}

/// What one keeps who writes an expression in one pass decides its parentheses: whether an operator takes the forms on
/// the left edge of its right operand, and whether an operand is ended before a form.
pub fn shapes()
    ensures right { (n : ℕ) (x : Tree) → lowest n ≤ 17 → within n x ≡ nat_le (lowest n) (least x) }
    ensures left { (k : Kind) (ts : List Token) (x : Tree) → is_struct k ≡ false
        → is_ended k ts x ≡ ended_by_shape k ts x }
{}
