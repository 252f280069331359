//! Laws of expressions in which ranges have attributes: each is the contract of a function that does nothing.

ghost use Rattle.laws_binding.specs.Bare.{bare, HasPlainRanges};
ghost use Rattle.proc_macro2.specs.Token.{Token};
ghost use Rattle.laws_ranges.specs.Opens.{opens, opens_given, opens_statement, opens_turns};
ghost use Rattle.laws_ranges.specs.Shelled.{enclosed_if, goes_in, is_lone_range, is_shelled, shelled};
ghost use Rattle.std.specs.Prelude.{◌≡◌, ◌&&◌, ◌||◌, ℕ, Bool, nat_eq, not, false, true, List, [], ◌++◌, Some};
ghost use Rattle.syn_grammar.specs.Derives.{Derives};
ghost use Rattle.syn_grammar.specs.Forms.{front, is_range, level};
ghost use Rattle.syn_grammar.specs.Gram.{alt, mark, ref, star};
ghost use Rattle.syn_grammar.specs.Kept.{attributed, kept};
ghost use Rattle.syn_grammar.specs.Kind.{AStatement, Expression, ExprAttributed, ExprCast, InCondition, InStatement};
ghost use Rattle.syn_grammar.specs.Kind.{Kind, Position};
ghost use Rattle.syn_grammar.specs.Look.{sees};
ghost use Rattle.syn_grammar.specs.Normal.{formed, is_enclosed, normal, normal_in, stands_behind};
ghost use Rattle.syn_grammar.specs.Say.{brace, parenthesis};
ghost use Rattle.syn_grammar.specs.Table.{table};
ghost use Rattle.syn_grammar.specs.Tree.{Back, flat, Front, Infix, Node, Tree, Whole};

/// An expression that was read gains, in its place, the parentheses of its ranges behind attributes, and those around
/// what stands left of a form that would go on with such a range; and no others. Behind a condition stands a brace.
pub fn gains_shells()
    ensures { (p : Position) (x : Tree) (rest : List Token)
        → Derives (Node (Expression p) (Whole x)) (ref (Expression p)) rest → (p ≡ InCondition → sees brace rest ≡ true)
        → formed p (stands_behind p) (kept x) ≡ shelled (kept x) }
{}

/// If no range among its operands has attributes, all stand where they stood.
pub fn none_shelled()
    ensures { (p : Position) (x : Tree) (rest : List Token)
        → Derives (Node (Expression p) (Whole x)) (ref (Expression p)) rest → HasPlainRanges x
        → shelled (kept x) ≡ bare (kept x) }
{}

/// The attributes in front of a statement's expression, which are given to its leftmost operand, or, if it is a range,
/// to all of it, add no other parentheses.
pub fn attributes_given()
    ensures { (x : Tree) (rest : List Token) (a : Tree)
        → Derives (Node (Expression InStatement) (Whole x)) (ref (Expression InStatement)) rest
        → Derives a (table ExprAttributed) (flat x ++ rest)
        → front InStatement (flat a ++ (flat x ++ rest)) ≡ Some ExprAttributed
        → formed InStatement [] (attributed (kept a) (kept x)) ≡ shelled (attributed (kept a) (kept x)) }
{}

/// Which operands those are is seen in what was read; and attributes that are given to what stands left of a form
/// change nothing there.
pub fn seen_as_read()
    ensures ranges { (k : Kind) (x : Tree) → is_shelled k (kept x) ≡ is_shelled k x }
    ensures lefts { (k : Kind) (x : Tree) → goes_in k (kept x) ≡ goes_in k x }
    ensures given { (k : Kind) (a x : Tree) → is_range x ≡ false → goes_in k (attributed a x) ≡ goes_in k x }
{}

/// An expression that was read begins with a parenthesis now where some left operand on its left edge is put in
/// parentheses, or where it began with one; that of a statement with attributes in front only where one is.
pub fn opened()
    ensures alone { (p : Position) (x : Tree) (rest : List Token)
        → Derives (Node (Expression p) (Whole x)) (ref (Expression p)) rest
        → sees parenthesis (flat (shelled (kept x))) ≡ (opens x || sees parenthesis (flat x ++ rest)) }
    ensures given { (x : Tree) (rest : List Token) (a : Tree)
        → Derives (Node (Expression InStatement) (Whole x)) (ref (Expression InStatement)) rest
        → Derives a (table ExprAttributed) (flat x ++ rest)
        → front InStatement (flat a ++ (flat x ++ rest)) ≡ Some ExprAttributed
        → sees parenthesis (flat (shelled (attributed (kept a) (kept x)))) ≡ opens_given x }
{}

/// What is written of the forms of an expression that was read: each operand as it is by itself, or that in
/// parentheses. Behind a left operand stands what would stand there if no operand were put in parentheses.
pub fn forms()
    ensures prefix { (k : Kind) (y x : Tree) → flat (shelled (kept (Front k y x)))
        ≡ flat (normal (kept y)) ++ enclosed_if (is_shelled k x) (flat (shelled (kept x))) }
    ensures postfix { (l : Tree) (k : Kind) (y : Tree) (ts : List Token)
        → flat (bare (kept (Back l k y))) ≡ flat (bare (kept l)) ++ ts
        → flat (shelled (kept (Back l k y))) ≡ enclosed_if (goes_in k l) (flat (shelled (kept l))) ++ ts }
    ensures between { (l : Tree) (k : Kind) (y r : Tree) → flat (shelled (kept (Infix l k y r)))
        ≡ enclosed_if (goes_in k l) (flat (shelled (kept l)))
        ++ (flat (normal (kept y)) ++ flat (shelled (kept r))) }
{}

/// The same of a statement's expression with the attributes in front: a range is put in parentheses behind them; an
/// infix form and a cast give them to what stands left, inside its parentheses.
pub fn given_forms()
    ensures range { (a x : Tree) → is_lone_range x ≡ true → flat (shelled (Front ExprAttributed a (kept x)))
        ≡ flat (normal a) ++ enclosed_if true (flat (shelled (kept x))) }
    ensures between { (a l : Tree) (k : Kind) (y r : Tree) → nat_eq (level k) 3 ≡ false → is_range l ≡ false
        → flat (shelled (attributed a (kept (Infix l k y r))))
        ≡ enclosed_if (goes_in k l) (flat (shelled (attributed a (kept l))))
        ++ (flat (normal (kept y)) ++ flat (shelled (kept r))) }
    ensures cast { (a l y : Tree) → is_range l ≡ false → flat (shelled (attributed a (kept (Back l ExprCast y))))
        ≡ enclosed_if (goes_in ExprCast l) (flat (shelled (attributed a (kept l)))) ++ flat (normal (kept y)) }
{}

/// A statement that was read begins with a parenthesis now where one is added, or where it began with one. So among
/// statements a parenthesis is added behind a turn, whose last mark is set apart by that if it is a raw item, where the
/// next turn is a statement that begins with one that is added, and began with none.
pub fn statements_opened()
    ensures one { (p : Position) (x : Tree) (rest behind : List Token)
        → Derives (Node AStatement x) (ref AStatement) rest
        → sees parenthesis (flat (normal_in p (kept (Node AStatement x))) ++ behind)
        ≡ (opens_statement x || sees parenthesis (flat x ++ rest)) }
    ensures turns { (p : Position) (x : Tree) (t u : List Token → Bool) (c : ℕ) (cs : List ℕ) (rest : List Token)
        → Derives x (star t (alt u (mark c cs) (ref AStatement))) rest
        → is_enclosed (kept x) (normal_in p (kept x))
        ≡ (opens_turns x && not (sees parenthesis (flat x ++ rest))) }
{}
