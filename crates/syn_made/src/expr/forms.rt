//! Forms of expressions, of their kind, their own part and their operands.

ghost use Rattle.reader_table.specs.Kinds.{kind_of};
ghost use Rattle.syn_expr.specs.ExprForms.{form_tree, jump_tree, nth_tree};
ghost use Rattle.syn_grammar.specs.Tree as t;

use crate::put::{alone, back, front, nth};
use crate::to_tree::ToTree;
use reader_table::kind::Kind;
use reader_tree::arena::Arena;
use reader_tree::made;
use reader_tree::tree::Tree;
use std::alloc::AllocError;

/// A form by itself.
#[derive(Drop)]
pub struct Alone<T>(pub Kind, pub T);

/// A form with an operand behind it.
#[derive(Drop)]
pub struct Front<'t, 'a, T>(pub Kind, pub T, pub &'t Tree<'a>);

/// A form with an operand before it.
#[derive(Drop)]
pub struct Back<'t, 'a, T>(pub &'t Tree<'a>, pub Kind, pub T);

/// A form with an operand on either side.
#[derive(Drop)]
pub struct Infix<'t, 'a, T>(pub &'t Tree<'a>, pub Kind, pub T, pub &'t Tree<'a>);

/// A form that may have an operand behind it.
#[derive(Drop)]
pub struct Jump<'t, 'a, T>(pub Kind, pub T, pub Option<&'t Tree<'a>>);

/// A form that may have an operand on either side.
#[derive(Drop)]
pub struct AnyForm<'t, 'a, T>(
    pub Option<&'t Tree<'a>>,
    pub Kind,
    pub T,
    pub Option<&'t Tree<'a>>,
);

/// Of several alternatives that one, counted from 0, and there is one more behind it.
#[derive(Drop)]
pub struct Nth<T>(pub usize, pub T);

impl<'a, T: ToTree<'a>> ToTree<'a> for Alone<T> {
    ghost tree = { λ x. t.Alone (kind_of x.0) (T.tree x.1) };

    fn to_tree(&self, arena: &'a Arena) -> Result<Tree<'a>, AllocError> {
        alone(arena, self.0, &self.1)
    }
}

impl<'t, 'a, T: ToTree<'a>> ToTree<'a> for Front<'t, 'a, T> {
    ghost tree = { λ x. t.Front (kind_of x.0) (T.tree x.1) x.2.now };

    fn to_tree(&self, arena: &'a Arena) -> Result<Tree<'a>, AllocError> {
        front(arena, self.0, &self.1, self.2)
    }
}

impl<'t, 'a, T: ToTree<'a>> ToTree<'a> for Back<'t, 'a, T> {
    ghost tree = { λ x. t.Back x.0.now (kind_of x.1) (T.tree x.2) };

    fn to_tree(&self, arena: &'a Arena) -> Result<Tree<'a>, AllocError> {
        back(arena, self.0, self.1, &self.2)
    }
}

impl<'t, 'a, T: ToTree<'a>> ToTree<'a> for Infix<'t, 'a, T> {
    ghost tree = { λ x. t.Infix x.0.now (kind_of x.1) (T.tree x.2) x.3.now };

    fn to_tree(&self, arena: &'a Arena) -> Result<Tree<'a>, AllocError> {
        let own = self.2.to_tree(arena)?;
        made::infix(arena, self.0.copy(), self.1, own, self.3.copy())
    }
}

impl<'t, 'a, T: ToTree<'a>> ToTree<'a> for Jump<'t, 'a, T> {
    ghost tree = { λ x. jump_tree (kind_of x.0) (T.tree x.1) x.2 };

    fn to_tree(&self, arena: &'a Arena) -> Result<Tree<'a>, AllocError> {
        let own = self.1.to_tree(arena)?;
        match self.2 {
            None => made::alone(arena, self.0, own),
            Some(right) => made::front(arena, self.0, own, right.copy()),
        }
    }
}

impl<'t, 'a, T: ToTree<'a>> ToTree<'a> for AnyForm<'t, 'a, T> {
    ghost tree = { λ x. form_tree x.0 (kind_of x.1) (T.tree x.2) x.3 };

    fn to_tree(&self, arena: &'a Arena) -> Result<Tree<'a>, AllocError> {
        let own = self.2.to_tree(arena)?;
        match (self.0, self.3) {
            (None, None) => made::alone(arena, self.1, own),
            (None, Some(right)) => made::front(arena, self.1, own, right.copy()),
            (Some(left), None) => made::back(arena, left.copy(), self.1, own),
            (Some(left), Some(right)) => {
                made::infix(arena, left.copy(), self.1, own, right.copy())
            }
        }
    }
}

impl<'a, T: ToTree<'a>> ToTree<'a> for Nth<T> {
    ghost tree = { λ x. nth_tree x.0 (T.tree x.1) };

    fn to_tree(&self, arena: &'a Arena) -> Result<Tree<'a>, AllocError> {
        nth(arena, self.0, &self.1)
    }
}
