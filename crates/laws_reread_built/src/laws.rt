//! Laws of expressions that were built by hand: each is the contract of a function that does nothing.

ghost use Rattle.laws_reread_expressions.specs.Behind.{MayFollow};
ghost use Rattle.laws_reread_kinds.specs.After.{EndsThere, is_closed};
ghost use Rattle.proc_macro2.specs.Token.{Token};
ghost use Rattle.laws_reread_built.specs.Spelled.{IsSpelled};
ghost use Rattle.std.specs.Prelude.{◌≡◌, true, List, ◌++◌};
ghost use Rattle.syn_grammar.specs.Derives.{Derives};
ghost use Rattle.syn_grammar.specs.Gram.{ref};
ghost use Rattle.syn_grammar.specs.Kept.{kept};
ghost use Rattle.syn_grammar.specs.Kind.{ExprAttributed, Expression, InCondition, Plain, Position};
ghost use Rattle.syn_grammar.specs.Look.{sees};
ghost use Rattle.syn_grammar.specs.Normal.{normal, normal_in};
ghost use Rattle.syn_grammar.specs.Read.{IsRead};
ghost use Rattle.syn_grammar.specs.Say.{at, brace};
ghost use Rattle.syn_grammar.specs.Tree.{flat, Front, Node, Tree, Whole};

/// An expression that was read in a position, a condition before its brace, is spelled, as it is held.
pub fn spelled()
    ensures { (p : Position) (x : Tree) (rest : List Token)
        → Derives (Node (Expression p) (Whole x)) (ref (Expression p)) rest
        → (p ≡ InCondition → sees brace rest ≡ true) → IsSpelled (kept x) }
{}

/// Attributes behind attributes are not spelled: of both one list is read.
pub fn one_list()
    ensures { (y z x : Tree) → IsSpelled (Front ExprAttributed y (Front ExprAttributed z x)) → ⊥ }
{}

/// The tokens of the normal form of a spelled expression, in each position, are read back there as its normal form,
/// before all that may follow it. (What is held of an expression says not in which position it was read: the plain one
/// stands for each.)
pub fn read_back()
    ensures { (p : Position) (x : Tree) (rest : List Token) → IsSpelled x → MayFollow p rest
        → IsRead (Expression p) (flat (normal_in p (Node (Expression Plain) (Whole x))) ++ rest)
        (normal_in p (Node (Expression Plain) (Whole x))) rest }
{}

/// One whose normal form ends a statement or an arm by itself is read back there before all but a `.` that begins no
/// `..`, `?` and `else`.
pub fn read_ended()
    ensures { (p : Position) (x : Tree) (rest : List Token) → IsSpelled x
        → EndsThere p (normal_in p (Node (Expression Plain) (Whole x))) rest
        → IsRead (Expression p) (flat (normal_in p (Node (Expression Plain) (Whole x))) ++ rest)
        (normal_in p (Node (Expression Plain) (Whole x))) rest }
{}

/// One that ends neither in an `if` nor in a jump or a half-open range without its operand is read back, in plain
/// position, before `else` too.
pub fn read_before_else()
    ensures { (x : Tree) (rest : List Token) → IsSpelled x
        → is_closed (normal (Node (Expression Plain) (Whole x))) ≡ true → sees (at "else") rest ≡ true
        → IsRead (Expression Plain) (flat (normal (Node (Expression Plain) (Whole x))) ++ rest)
        (normal (Node (Expression Plain) (Whole x))) rest }
{}

/// Two spelled expressions whose normal forms in a position have the same tokens have the same normal form there.
pub fn same_tokens()
    ensures { (p : Position) (x y : Tree) → IsSpelled x → IsSpelled y
        → flat (normal_in p (Node (Expression Plain) (Whole x)))
        ≡ flat (normal_in p (Node (Expression Plain) (Whole y)))
        → normal_in p (Node (Expression Plain) (Whole x)) ≡ normal_in p (Node (Expression Plain) (Whole y)) }
{}
