//! Expressions with an operand before them.

ghost use Rattle.syn_expr.specs.ExprPostfix.{expr_await, expr_call, expr_cast, expr_field, expr_index};
ghost use Rattle.syn_expr.specs.ExprPostfix.{expr_method_call, expr_struct, expr_try};

use crate::forms::{Called, First, Grouped, Second};
use crate::put::back;
use crate::to_tree::ToTree;
use reader_table::kind::Kind;
use reader_table::part::Part;
use reader_tree::arena::Arena;
use reader_tree::tree::Tree;
use std::alloc::AllocError;
use syn_ast::paths::Member;
use syn_expr::expr::postfix::{
    ExprAwait, ExprCall, ExprCast, ExprField, ExprIndex, ExprMethodCall, ExprStruct, ExprTry,
};

impl<'t, 'a> ToTree<'a> for ExprCall<'t, 'a> {
    ghost tree = { expr_call };

    fn to_tree(&self, arena: &'a Arena) -> Result<Tree<'a>, AllocError> {
        let own = Grouped(self.paren_token, self.args);
        back(arena, self.func, Kind::ExprCall, &own)
    }
}

impl<'t, 'a> ToTree<'a> for ExprMethodCall<'t, 'a> {
    ghost tree = { expr_method_call };

    fn to_tree(&self, arena: &'a Arena) -> Result<Tree<'a>, AllocError> {
        let dot = (self.dot_token, Called(Part::Indices, self.indices));
        let method = Called(Part::Name, self.method);
        let args = Grouped(self.paren_token, self.args);
        let own = (dot, method, self.turbofish, args);
        back(arena, self.receiver, Kind::ExprMethodCall, &own)
    }
}

impl<'t, 'a> ToTree<'a> for ExprField<'t, 'a> {
    ghost tree = { expr_field };

    fn to_tree(&self, arena: &'a Arena) -> Result<Tree<'a>, AllocError> {
        let dot = (self.dot_token, Called(Part::Indices, self.indices));
        match self.member {
            Member::Named(name) => {
                let own = (dot, First(Called(Part::Name, name)));
                back(arena, self.base, Kind::ExprField, &own)
            }
            Member::Unnamed(found) => {
                let own = (dot, Second(Called(Part::Value, found.index)));
                back(arena, self.base, Kind::ExprField, &own)
            }
        }
    }
}

impl<'t, 'a> ToTree<'a> for ExprAwait<'t, 'a> {
    ghost tree = { expr_await };

    fn to_tree(&self, arena: &'a Arena) -> Result<Tree<'a>, AllocError> {
        let dot = (self.dot_token, Called(Part::Indices, self.indices));
        back(arena, self.base, Kind::ExprAwait, &(dot, self.await_token))
    }
}

impl<'t, 'a> ToTree<'a> for ExprIndex<'t, 'a> {
    ghost tree = { expr_index };

    fn to_tree(&self, arena: &'a Arena) -> Result<Tree<'a>, AllocError> {
        let own = Grouped(self.bracket_token, self.index);
        back(arena, self.expr, Kind::ExprIndex, &own)
    }
}

impl<'t, 'a> ToTree<'a> for ExprTry<'t, 'a> {
    ghost tree = { expr_try };

    fn to_tree(&self, arena: &'a Arena) -> Result<Tree<'a>, AllocError> {
        back(arena, self.expr, Kind::ExprTry, &self.question_token)
    }
}

impl<'t, 'a> ToTree<'a> for ExprStruct<'t, 'a> {
    ghost tree = { expr_struct };

    fn to_tree(&self, arena: &'a Arena) -> Result<Tree<'a>, AllocError> {
        back(arena, self.path, Kind::ExprStruct, &self.fields)
    }
}

impl<'t, 'a> ToTree<'a> for ExprCast<'t, 'a> {
    ghost tree = { expr_cast };

    fn to_tree(&self, arena: &'a Arena) -> Result<Tree<'a>, AllocError> {
        let own = (self.as_token, Called(Part::Type, self.ty), Second(()));
        back(arena, self.expr, Kind::ExprCast, &own)
    }
}
