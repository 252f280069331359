//! Laws of expressions that are printed: each is the contract of a function that does nothing.

ghost use Rattle.laws_reread_expressions.specs.Behind.{AtEnd, BeforeOperand, BehindOperand, MayFollow};
ghost use Rattle.laws_reread_expressions.specs.Firm.{is_firm_behind, is_firm_front, IsOwn};
ghost use Rattle.laws_reread_expressions.specs.Formed.{Formed, IsBehind, IsFront};
ghost use Rattle.laws_reread_expressions.specs.Simple.{IsSimple};
ghost use Rattle.proc_macro2.specs.Token.{Token};
ghost use Rattle.std.specs.Prelude.{◌≡◌, List, true};
ghost use Rattle.syn_grammar.specs.Derives.{Derives};
ghost use Rattle.syn_grammar.specs.Gram.{ref};
ghost use Rattle.syn_grammar.specs.Kind.{Expression, Kind, Position};
ghost use Rattle.syn_grammar.specs.Normal.{normal_in};
ghost use Rattle.syn_grammar.specs.Tree.{flat, Node, Tree, Whole};

/// The tokens of the normal form of a formed expression are read back as it, in its place: before a brace behind a
/// condition, and else before what begins no operand and goes on with none. (That a form which ends a statement or an
/// arm by itself may stand before anything else is not said.)
pub fn read_back()
    ensures { (p : Position) (x : Tree) (rest : List Token) → Formed x → MayFollow p rest
        → Derives (normal_in p (Node (Expression p) (Whole x))) (ref (Expression p)) rest }
{}

/// Two formed expressions of a position whose normal forms have the same tokens have the same normal form.
pub fn same_tokens()
    ensures { (p : Position) (x y : Tree) → Formed x → Formed y
        → flat (normal_in p (Node (Expression p) (Whole x))) ≡ flat (normal_in p (Node (Expression p) (Whole y)))
        → normal_in p (Node (Expression p) (Whole x)) ≡ normal_in p (Node (Expression p) (Whole y)) }
{}

/// Own parts that nothing behind them changes (words, literals, punctuations and groups) need only be read by
/// themselves: they are read wherever their forms may stand, and begin these there.
pub fn own_parts()
    ensures front { (k : Kind) (y : Tree) → is_firm_front k ≡ true → IsOwn k y
        → IsFront AtEnd k y × IsFront (BeforeOperand k y) k y }
    ensures behind { (k : Kind) (y : Tree) → is_firm_behind k ≡ true → IsOwn k y
        → IsBehind (BehindOperand k y) k y × IsBehind (BeforeOperand k y) k y }
{}

/// An expression of names, literals, operators, ranges, jumps, fields and groups is formed, if the own part of each of
/// its forms is a name, stands behind a dot (a name, a number or `await`), or is read by itself.
pub fn simple()
    ensures { (x : Tree) → IsSimple x → Formed x }
{}
