//! What is promised of all expressions that were read.

ghost use Rattle.proc_macro2.specs.Token.{Token};
ghost use Rattle.std.specs.Prelude.{List, true, ◌≡◌};
ghost use Rattle.syn_expr.specs.ExprWhole.{IsExpr};
ghost use Rattle.syn_expr.specs.Judged.{keeps_trees};
ghost use Rattle.syn_grammar.specs.Derives.{Bound, Derives};
ghost use Rattle.syn_grammar.specs.Forms.{form_of};
ghost use Rattle.syn_grammar.specs.Gram as g;
ghost use Rattle.syn_grammar.specs.Kind as k;
ghost use Rattle.syn_grammar.specs.Tree as t;
ghost use Rattle.syn_part.specs.Kept.{IsKept};

/// What was read as an expression is one, by its form, and so is each operand of it. So where a tree was read as an
/// expression, `Expr::of` says which, and of each operand too.
#[tactic(auto, using(crate::proofs::ExprRead::whole, crate::proofs::ExprRead::bound))]
pub fn read_are_expressions()
    ensures whole { (p : k.Position) (x : t.Tree) (rest : List Token) → Derives x (g.ref (k.Expression p)) rest
        → IsExpr (form_of x) }
    ensures operand { (p : k.Position) (x : t.Tree) (rest : List Token) → Bound p x rest → IsExpr x }
{}

/// What was read of a kind that is judged is kept as a tree: the fields of a struct, an arm, statements, a statement by
/// itself, and a `let`. So `FieldValues::of` and its like find what was read as such.
#[tactic(auto, using(crate::proofs::ExprKept::kept))]
pub fn read_are_kept()
    ensures { (j : k.Kind) (x : t.Tree) (rest : List Token) → keeps_trees j ≡ true → Derives x (g.ref j) rest
        → IsKept x }
{}
