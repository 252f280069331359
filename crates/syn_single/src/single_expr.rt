//! Single forms of expressions: whichever of them stands, an expression is read.

ghost use Rattle.reader_table.specs.Kinds.{kind_of};
ghost use Rattle.std.specs.Prelude.{◌≡◌, MatchOption, Some};
ghost use Rattle.syn_single.specs.Meant.{IsExprOf, IsFormOf};
ghost use Rattle.syn_expr.specs.ExprWhole.{which};
ghost use Rattle.syn_expr.specs.declared.expr.whole.ExprForm.{ExprForm};
ghost use Rattle.syn_grammar.specs.Forms.{form_of};
ghost use Rattle.syn_grammar.specs.Kind as k;
ghost use Rattle.syn_grammar.specs.Tree.{Tree as GivenTree};

use crate::single::ParseSingle;
use reader_table::kind::{Kind, Position};
use reader_tree::tree::Tree;
use syn_expr::expr::whole::Expr;

/// A form of expressions, as `ExprCall`.
pub trait SingleExpr<'a> {
    /// Which one it is.
    ghost form: { ExprForm };

    /// The tree that a value is.
    ghost tree_of: { Self → GivenTree };

    /// What an error says where an expression of another form stands.
    fn expected() -> &'a str;

    /// What the type says of the form of an expression, one layer of it; `None` only of what is no form of this one.
    fn of_form(tree: &'a Tree<'a>) -> Option<Self>
        ensures { MatchOption result (IsFormOf form tree.now → ⊥)
            (λ x. (which tree.now ≡ Some form) × (tree.now ≡ tree_of x)) };
}

impl<'a, T: SingleExpr<'a>> ParseSingle<'a> for T {
    ghost kind = { k.Expression k.Plain };

    ghost is_meant = { IsExprOf T.form };

    ghost says = { λ x tree. form_of tree ≡ T.tree_of x };

    fn kind() -> Kind
        ensures { kind_of result ≡ k.Expression k.Plain }
    {
        Kind::Expression(Position::Plain)
    }

    fn refusal() -> &'a str {
        T::expected()
    }

    fn view(tree: &'a Tree<'a>) -> Option<T> {
        let Some(whole) = Expr::of(tree) else {
            return None;
        };
        match T::of_form(whole.tree) {
            Some(found) => Some(found),
            None => None,
        }
    }
}
