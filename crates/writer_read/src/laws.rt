//! Laws of what is written of a tree that was read, in terms of its parts: each is the contract of a function that does
//! nothing.

ghost use Rattle.writer_rules.specs.Firsts.{firsts_said};
ghost use Rattle.writer_rules.specs.Laid.{laid};
ghost use Rattle.writer_rules.specs.Said.{bare_impl_said, is_quiet, is_unnamed, own_said, said, said_form};
ghost use Rattle.writer_rules.specs.Turns.{apart_where, is_set_apart};
ghost use Rattle.writer_read.specs.Formed.{IsFormed, own_position};
ghost use Rattle.proc_macro2.specs.Token.{Ident, Literal, Punct, Token};
ghost use Rattle.laws_ranges.specs.Shelled.{enclosed_if, goes_in, is_shelled};
ghost use Rattle.rust_leaf.specs.declared.punct.Spacing.TheVariants.{Alone as Apart};
ghost use Rattle.rust_leaf.specs.declared.punct.Spacing.{Spacing};
ghost use Rattle.std.specs.Prelude.{◌≡◌, ℕ, Bool, cond, codes, false, true, List, [], ◌∷◌, ◌++◌, Some};
ghost use Rattle.syn_grammar.specs.Derives.{Derives};
ghost use Rattle.syn_grammar.specs.Gram.{ref};
ghost use Rattle.syn_grammar.specs.Kept.{kept};
ghost use Rattle.syn_grammar.specs.Kind.{AnArgument, AnImpl, Arguments, ATypeAlias, BoundsColon};
ghost use Rattle.syn_grammar.specs.Kind.{Expression};
ghost use Rattle.syn_grammar.specs.Kind.{GenericParams, Generics, InCondition, Index, Kind, LifetimeColon};
ghost use Rattle.syn_grammar.specs.Kind.{Member};
ghost use Rattle.syn_grammar.specs.Kind.{Parameter, Place, Plain, Position, Where};
ghost use Rattle.syn_grammar.specs.Look.{sees};
ghost use Rattle.syn_grammar.specs.Name.{Part, the_arguments, the_lifetime, the_unnamed};
ghost use Rattle.syn_grammar.specs.Normal.{normal_in, passed};
ghost use Rattle.syn_grammar.specs.Part.{has};
ghost use Rattle.syn_grammar.specs.Say.{brace};
ghost use Rattle.syn_grammar.specs.Tidy.{is_bare_colon, is_bare_generics, is_bare_where, is_lifetime_param};
ghost use Rattle.syn_grammar.specs.Tidy.{is_lifetime_argument, keeps_generics};
ghost use Rattle.syn_grammar.specs.Tree.{Again, ALiteral, Alone, AMark, Back, Called, First, flat, Front, Infix, Node};
ghost use Rattle.syn_grammar.specs.Tree.{Pair};
ghost use Rattle.syn_grammar.specs.Tree.{marks, Nil, Second, Tree, Whole};
ghost use Rattle.syn_grammar.specs.Words.{plain_decimal};

/// Of a quiet kind the tokens of its part are written.
pub fn quiet_kinds()
    ensures { (k : Kind) (p : Position) (x : Tree) → is_quiet k ≡ true → said p (Node k x) ≡ said (passed k p) x }
{}

/// A parameter that is a type alone gets the pattern `_` and a colon; all others are written as they are.
pub fn parameters()
    ensures unnamed { (p : Position) (a t : Tree)
        → said p (Node Parameter (Pair a (Second (Second (First (Called the_unnamed t))))))
        ≡ said Plain a ++ (Ident (codes "_") ∷ Punct 58 Apart ∷ said Plain t) }
    ensures named { (p : Position) (x : Tree) → is_unnamed x ≡ false → said p (Node Parameter x) ≡ said Plain x }
{}

/// The number of a field is written in plain decimal.
pub fn numbers()
    ensures index { (p : Position) (cs : List ℕ) → said p (Node Index (ALiteral cs)) ≡ Literal (plain_decimal cs) ∷ [] }
    ensures member { (p : Position) (cs : List ℕ)
        → said p (Node Member (Second (ALiteral cs))) ≡ Literal (plain_decimal cs) ∷ [] }
    ensures name { (p : Position) (x : Tree) → said p (Node Member (First x)) ≡ said Plain x }
{}

/// A where clause, generics and a colon are removed where there is nothing in them, which is seen in what was read.
pub fn removed()
    ensures clause { (p : Position) (x : Tree) → said p (Node Where x) ≡ cond (is_bare_where x) [] (said Plain x) }
    ensures generics { (p : Position) (x : Tree)
        → said p (Node Generics x) ≡ cond (is_bare_generics x) [] (said Plain x) }
    ensures bounds { (p : Position) (x : Tree)
        → said p (Node BoundsColon x) ≡ cond (is_bare_colon x) [] (said Plain x) }
    ensures lifetimes { (p : Position) (x : Tree)
        → said p (Node LifetimeColon x) ≡ cond (is_bare_colon x) [] (said Plain x) }
{}

/// Lifetimes are written first among generic parameters.
pub fn params()
    ensures { (p : Position) (x : Tree) → said p (Node GenericParams x) ≡ firsts_said Plain is_lifetime_param x }
{}

/// The normal form has the parts that were read.
pub fn parts_stay()
    ensures { (n : Part) (p : Position) (x : Tree) → has n (normal_in p (kept x)) ≡ has n x }
{}

/// The forms of an expression: a range behind attributes is put in parentheses, and a left operand where the form
/// behind it would go in. Numbers behind a dot are split.
pub fn forms()
    ensures atom { (k : Kind) (y : Tree) → said_form (Alone k y) ≡ said Plain y }
    ensures prefix { (k : Kind) (y x : Tree)
        → said_form (Front k y x) ≡ said Plain y ++ enclosed_if (is_shelled k x) (said_form x) }
    ensures postfix { (l : Tree) (k : Kind) (y : Tree)
        → said_form (Back l k y) ≡ enclosed_if (goes_in k l) (said_form l) ++ own_said k y }
    ensures between { (l : Tree) (k : Kind) (y r : Tree)
        → said_form (Infix l k y r) ≡ enclosed_if (goes_in k l) (said_form l) ++ (said Plain y ++ said_form r) }
{}

/// Of what was read, at every depth: elements stand one behind the other, and a raw item's last mark is set apart
/// before a parenthesis that is added; expressions are written by their forms, and a type's definition, whose where
/// clause is moved, as it stands; the generics of an impl are removed where they are bare.
pub fn formed_trees()
    ensures elements { (p : Position) (x y : Tree) → IsFormed p (Again x y)
        → said p (Again x y) ≡ apart_where (is_set_apart x y) (said p x) ++ said p y }
    ensures expression { (p q : Position) (x : Tree) → IsFormed p (Node (Expression q) (Whole x))
        → said p (Node (Expression q) (Whole x)) ≡ said_form x }
    ensures alias { (p : Position) (s : Place) (x : Tree) → IsFormed p (Node (ATypeAlias s) x)
        → said p (Node (ATypeAlias s) x) ≡ said Plain x }
    ensures block { (p : Position) (x : Tree) → IsFormed p (Node AnImpl x)
        → said p (Node AnImpl x) ≡ cond (keeps_generics (normal_in Plain (kept x))) (said Plain x) (bare_impl_said x) }
{}

/// What was read is so formed, in the position that its kind has by itself; behind a condition stands a brace.
pub fn formed_read()
    ensures { (k : Kind) (x : Tree) (rest : List Token) → Derives x (ref k) rest
        → (k ≡ Expression InCondition → sees brace rest ≡ true) → IsFormed (own_position k) x }
{}

/// Lifetimes are written first among arguments in angles; an argument is a lifetime if that was its first choice.
pub fn arguments()
    ensures angles { (p : Position) (c d : ℕ) (cs ds : List ℕ) (i j : Spacing) (x : Tree)
        → said p
        (Node Arguments (Pair (Second Nil) (Pair (AMark c cs i) (Pair (Called the_arguments x) (AMark d ds j)))))
        ≡ marks c cs Apart ++ (firsts_said Plain (λ y. is_lifetime_argument (normal_in Plain (kept y))) x
        ++ marks d ds Apart) }
    ensures turbofish { (p : Position) (b c d : ℕ) (bs cs ds : List ℕ) (h i j : Spacing) (x : Tree)
        → said p (Node Arguments
        (Pair (First (AMark b bs h)) (Pair (AMark c cs i) (Pair (Called the_arguments x) (AMark d ds j)))))
        ≡ marks b bs Apart ++ (marks c cs Apart
        ++ (firsts_said Plain (λ y. is_lifetime_argument (normal_in Plain (kept y))) x ++ marks d ds Apart)) }
    ensures lifetime { (x : Tree)
        → is_lifetime_argument (normal_in Plain (kept (Node AnArgument (First x)))) ≡ has the_lifetime x }
    ensures other { (x : Tree) → has the_lifetime x ≡ false
        → is_lifetime_argument (normal_in Plain (kept (Node AnArgument (Second x)))) ≡ false }
{}

/// At every depth, what is written is said in terms of what was read alone.
pub fn laid_trees()
    ensures { (p : Position) (x : Tree) → IsFormed p x → said p x ≡ laid x }
{}
