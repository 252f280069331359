//! Forms of statements, as the enum that holds them.

ghost use Rattle.std.specs.Prelude.{◌≡◌};
ghost use Rattle.syn_expr.specs.declared.stmt.Stmt.TheVariants as stmts;

use crate::stmt::{Stmt, StmtExpr, StmtLocal, StmtMacro};

impl<'t, 'a> From<StmtLocal<'t, 'a>> for Stmt<'t, 'a> {
    ghost from_gives = { λ form whole. whole ≡ stmts.Local form };

    fn from(form: StmtLocal<'t, 'a>) -> Stmt<'t, 'a> {
        Stmt::Local(form)
    }
}

impl<'t, 'a> From<StmtExpr<'t, 'a>> for Stmt<'t, 'a> {
    ghost from_gives = { λ form whole. whole ≡ stmts.Expr form };

    fn from(form: StmtExpr<'t, 'a>) -> Stmt<'t, 'a> {
        Stmt::Expr(form)
    }
}

impl<'t, 'a> From<StmtMacro<'t, 'a>> for Stmt<'t, 'a> {
    ghost from_gives = { λ form whole. whole ≡ stmts.Macro form };

    fn from(form: StmtMacro<'t, 'a>) -> Stmt<'t, 'a> {
        Stmt::Macro(form)
    }
}
