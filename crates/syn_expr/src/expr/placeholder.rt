//! An expression where none is known yet.

ghost use Rattle.proc_macro2.specs.Token.{Token};
ghost use Rattle.std.specs.Prelude.{◌≡◌, [], IfOk, List, Some};
ghost use Rattle.syn_expr.specs.ExprPlaceholder.{placeholder};
ghost use Rattle.syn_expr.specs.ExprWhole.{which};
ghost use Rattle.syn_expr.specs.declared.expr.whole.ExprForm.TheVariants as exprs;
ghost use Rattle.syn_grammar.specs.Derives.{Bound};
ghost use Rattle.syn_grammar.specs.Kind as k;
ghost use Rattle.syn_grammar.specs.Tree.{flat};

use crate::expr::whole::Expr;
use reader_table::kind::{Kind, Style};
use reader_tree::arena::Arena;
use reader_tree::made;
use reader_tree::tree::Tree;
use std::alloc::AllocError;

impl<'t, 'a> Expr<'t, 'a> {
    /// What stands for an expression where none is known yet: a path without segments. It has no token, and no tokens
    /// are read as it.
    ///
    /// # Errors
    ///
    /// Where memory is refused.
    #[tactic(auto, using(crate::proofs::ExprUnread::no_segments))]
    pub fn placeholder(arena: &'a Arena) -> Result<Tree<'a>, AllocError>
        ensures path { IfOk result (λ x. x ≡ placeholder) }
        ensures form { IfOk result (λ x. which x ≡ Some exprs.Path) }
        ensures tokens { IfOk result (λ x. flat x ≡ []) }
        ensures unread { (p : k.Position) (rest : List Token) → Bound p placeholder rest → ⊥ }
    {
        let no_colon = made::second(arena, made::nil())?;
        let path = made::pair(arena, no_colon, made::nil())?;
        let path = made::node(arena, Kind::Path(Style::InExpression), path)?;
        let path = made::second(arena, path)?;
        let path = made::node(arena, Kind::AnyPath(Style::InExpression), path)?;
        made::alone(arena, Kind::ExprPath, path)
    }
}
