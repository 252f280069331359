//! Laws of what is printed: each is the contract of a function that does nothing.

ghost use Rattle.laws_reread_expressions.specs.Behind.{MayFollow};
ghost use Rattle.laws_reread_kinds.specs.After.{After, EndsThere};
ghost use Rattle.proc_macro2.specs.Token.{Token};
ghost use Rattle.laws_reread.specs.Asked.{is_covered};
ghost use Rattle.std.specs.Prelude.{◌≡◌, true, List, ◌++◌};
ghost use Rattle.syn_grammar.specs.Derives.{Derives};
ghost use Rattle.syn_grammar.specs.Gram.{ref};
ghost use Rattle.syn_grammar.specs.Kept.{kept};
ghost use Rattle.syn_grammar.specs.Kind.{Kind, Position, InCondition, AFile, Expression};
ghost use Rattle.syn_grammar.specs.Look.{sees};
ghost use Rattle.syn_grammar.specs.Normal.{normal, normal_in};
ghost use Rattle.syn_grammar.specs.Read.{IsRead};
ghost use Rattle.syn_grammar.specs.Say.{brace};
ghost use Rattle.syn_grammar.specs.Tree.{Tree, Node, Whole, flat};

/// Of a derived tree that is covered, of each kind: the tokens of its normal form are read back as its normal form,
/// before all that may follow its kind.
pub fn read_back()
    ensures { (k : Kind) (tree : Tree) (rest next : List Token) → Derives tree (ref k) rest → is_covered tree ≡ true
        → After k (normal (kept tree)) next → IsRead k (flat (normal (kept tree)) ++ next) (normal (kept tree)) next }
{}

/// A file that was read is covered: nothing is asked of it.
pub fn file_covered()
    ensures { (tree : Tree) (rest : List Token) → Derives tree (ref AFile) rest → is_covered tree ≡ true }
{}

/// Two covered trees of a kind have normal forms of the same tokens only if these are the same.
pub fn same_tokens()
    ensures { (k : Kind) (x y : Tree) (rest other next : List Token) → Derives x (ref k) rest → Derives y (ref k) other
        → is_covered x ≡ true → is_covered y ≡ true → After k (normal (kept x)) next → After k (normal (kept y)) next
        → flat (normal (kept x)) ≡ flat (normal (kept y)) → normal (kept x) ≡ normal (kept y) }
{}

/// Of an expression that was read in a position, a condition before a brace: the tokens of its normal form in that
/// position are read back there, before all that may follow it.
pub fn read_in_position()
    ensures { (p : Position) (x : Tree) (rest next : List Token)
        → Derives (Node (Expression p) (Whole x)) (ref (Expression p)) rest
        → (p ≡ InCondition → sees brace rest ≡ true) → MayFollow p next
        → IsRead (Expression p) (flat (normal_in p (kept (Node (Expression p) (Whole x)))) ++ next)
        (normal_in p (kept (Node (Expression p) (Whole x)))) next }
{}

/// One whose normal form ends a statement or an arm by itself is read back there before all but a `.` that begins no
/// `..`, `?` and `else`.
pub fn read_ended()
    ensures { (p : Position) (x : Tree) (rest next : List Token)
        → Derives (Node (Expression p) (Whole x)) (ref (Expression p)) rest
        → EndsThere p (normal_in p (kept (Node (Expression p) (Whole x)))) next
        → IsRead (Expression p) (flat (normal_in p (kept (Node (Expression p) (Whole x)))) ++ next)
        (normal_in p (kept (Node (Expression p) (Whole x)))) next }
{}

/// Two such have normal forms of the same tokens only if these are the same.
pub fn same_in_position()
    ensures { (p : Position) (x y : Tree) (rest other next : List Token)
        → Derives (Node (Expression p) (Whole x)) (ref (Expression p)) rest
        → (p ≡ InCondition → sees brace rest ≡ true)
        → Derives (Node (Expression p) (Whole y)) (ref (Expression p)) other
        → (p ≡ InCondition → sees brace other ≡ true) → MayFollow p next
        → flat (normal_in p (kept (Node (Expression p) (Whole x))))
        ≡ flat (normal_in p (kept (Node (Expression p) (Whole y))))
        → normal_in p (kept (Node (Expression p) (Whole x))) ≡ normal_in p (kept (Node (Expression p) (Whole y))) }
{}
