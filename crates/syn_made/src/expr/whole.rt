//! A form as an expression, and the forms in parentheses.

ghost use Rattle.reader_table.specs.Kinds.{position_of};
ghost use Rattle.std.specs.Prelude.{◌≡◌, IfOk};
ghost use Rattle.syn_expr.specs.ExprWhole.{expr_paren, expr_tuple};
ghost use Rattle.syn_grammar.specs.Forms.{form_of};
ghost use Rattle.syn_grammar.specs.Kind as k;
ghost use Rattle.syn_grammar.specs.Tree as t;
ghost use Rattle.syn_made.specs.MadeAst.{IsTuple};

use crate::expr::forms::Alone;
use crate::forms::Grouped;
use crate::put::alone;
use crate::to_tree::ToTree;
use crate::try_to_tree::TryToTree;
use reader_table::kind::{Kind, Position};
use reader_table::op::Separator;
use reader_tree::arena::Arena;
use reader_tree::made;
use reader_tree::tree::Tree;
use std::alloc::AllocError;
use syn_expr::expr::whole::{Expr, ExprParen, ExprTuple};
use syn_part::list::Elements;

/// A form as an expression, for where one stands: as an argument, a value, a statement. `Expr::of` answers that form of
/// it. An operand is the form itself.
///
/// # Errors
///
/// Where there is no memory for it.
pub fn expression<'a>(
    arena: &'a Arena,
    position: Position,
    form: Tree<'a>,
) -> Result<Tree<'a>, AllocError>
    ensures tree { IfOk result (λ x. x ≡ t.Node (k.Expression (position_of position)) (t.Whole form.entry)) }
    ensures form { IfOk result (λ x. form_of x ≡ form.entry) }
{
    let whole = made::whole(arena, form)?;
    made::node(arena, Kind::Expression(position), whole)
}

/// An expression: its form.
impl<'t, 'a> ToTree<'a> for Expr<'t, 'a> {
    ghost tree = { λ x. x.tree.now };

    fn to_tree(&self, _arena: &'a Arena) -> Result<Tree<'a>, AllocError> {
        Ok(self.tree.copy())
    }
}

impl<'t, 'a> ToTree<'a> for ExprParen<'t, 'a> {
    ghost tree = { expr_paren };

    fn to_tree(&self, arena: &'a Arena) -> Result<Tree<'a>, AllocError> {
        let inside = Elements {
            separator: Separator::Comma,
            before: &[],
            last: Some(self.expr),
        };
        alone(arena, Kind::ExprParen, &Grouped(self.paren_token, inside))
    }
}

// One expression without a comma is in parentheses, and no tuple.
impl<'t, 'a> TryToTree<'a> for ExprTuple<'t, 'a> {
    ghost says = { λ x tree. IsTuple x.elems × (tree ≡ expr_tuple x) };

    #[tactic(auto, using(crate::proofs::MadeLists::tuples))]
    fn try_to_tree(&self, arena: &'a Arena) -> Result<Option<Tree<'a>>, AllocError> {
        match self.elems.only() {
            Some(_) => Ok(None),
            None => {
                let own = Grouped(self.paren_token, self.elems);
                Alone(Kind::ExprParen, own).to_some_tree(arena)
            }
        }
    }
}
