//! Laws of the edges of expressions: each is the contract of a function that does nothing.

ghost use Rattle.proc_macro2.specs.Token.{Token};
ghost use Rattle.std.specs.Prelude.{◌≡◌, false, true, List};
ghost use Rattle.syn_grammar.specs.Derives.{Bound, Derives};
ghost use Rattle.syn_grammar.specs.Gram.{ref};
ghost use Rattle.syn_grammar.specs.Kept.{kept};
ghost use Rattle.syn_grammar.specs.Kind.{ExprCast, Expression, Position};
ghost use Rattle.syn_grammar.specs.Look.{sees};
ghost use Rattle.syn_grammar.specs.Normal.{normal};
ghost use Rattle.syn_grammar.specs.Parens.{ends_in_name};
ghost use Rattle.syn_grammar.specs.Tree.{Back, flat, Node, Tree, Whole};
ghost use Rattle.laws_binding.specs.Spelled.{Spelled};
ghost use Rattle.laws_edges.specs.Binds.{Binds, EndsBefore, IsExpression};
ghost use Rattle.laws_edges.specs.Parts.{lesser, PartsStand};

/// The forms of an expression are bound, as the grammar has it, exactly if their own parts are read where they stand,
/// their operands bind by their edges, and those on the right edge have ended before what follows.
pub fn by_edges()
    ensures to { (p : Position) (x : Tree) (rest : List Token) → Bound p x rest
        → Spelled p x rest × Binds p x × EndsBefore p x rest }
    ensures from { (p : Position) (x : Tree) (rest : List Token) → Spelled p x rest → Binds p x → EndsBefore p x rest
        → Bound p x rest }
{}

/// The grammar derives a whole expression in a position, before what follows, exactly if it is one by its edges.
pub fn expressions()
    ensures to { (p : Position) (x : Tree) (rest : List Token)
        → Derives (Node (Expression p) (Whole x)) (ref (Expression p)) rest → IsExpression p x rest }
    ensures from { (p : Position) (x : Tree) (rest : List Token) → IsExpression p x rest
        → Derives (Node (Expression p) (Whole x)) (ref (Expression p)) rest }
{}

/// What is usually listed besides is decided by the own parts of forms: behind a cast stands no postfix form, and
/// behind a field with a name no call; no struct stands in a condition, and a let begins no statement's expression. And
/// before a < that begins no <= stands no cast whose type, in normal form, ends in a name.
pub fn own_parts()
    ensures stand { (p : Position) (x : Tree) (rest : List Token) → Bound p x rest → PartsStand p x }
    ensures lesser { (p : Position) (l y : Tree) (rest : List Token) → Bound p (Back l ExprCast y) rest
        → sees lesser rest ≡ true → ends_in_name (flat (normal (kept y))) ≡ false }
{}
