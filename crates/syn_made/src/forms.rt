//! What trees are made of: each is a tree once what stands in it is one. Several values one behind the other, as a
//! tuple, are a tree too, and so is what may be missing, and `()`, which is no token.

ghost use Rattle.reader_table.specs.Kinds.{kind_of};
ghost use Rattle.reader_table.specs.Parts.{part_of};
ghost use Rattle.reader_tree.specs.Forms.{seconds};
ghost use Rattle.syn_grammar.specs.Tree as t;
ghost use Rattle.syn_part.specs.Leaves.{optional_tree};

use crate::parts::{four, missing, three};
use crate::put::{behind, node, nth};
use crate::to_tree::ToTree;
use reader_table::kind::Kind;
use reader_table::part::Part;
use reader_tree::arena::Arena;
use reader_tree::made;
use reader_tree::tree::Tree;
use std::alloc::AllocError;
use syn_part::leaf::Delimiters;

/// A node of a kind.
#[derive(Clone, Copy)]
pub struct Node<T>(pub Kind, pub T);

/// A part, by its name.
#[derive(Clone, Copy)]
pub struct Called<T>(pub Part, pub T);

/// A group, of its delimiters and its inside.
#[derive(Clone, Copy)]
pub struct Grouped<T>(pub Delimiters, pub T);

/// Of a choice the first.
#[derive(Clone, Copy)]
pub struct First<T>(pub T);

/// Of a choice the second.
#[derive(Clone, Copy)]
pub struct Second<T>(pub T);

/// Behind so many choices, each the second of the one before it.
#[derive(Clone, Copy)]
pub struct Seconds<T>(pub usize, pub T);

impl<'a> ToTree<'a> for () {
    ghost tree = { λ x. t.Nil };

    fn to_tree(&self, _arena: &'a Arena) -> Result<Tree<'a>, AllocError> {
        Ok(made::nil())
    }
}

impl<'a, T: ToTree<'a>> ToTree<'a> for Node<T> {
    ghost tree = { λ x. t.Node (kind_of x.0) (T.tree x.1) };

    fn to_tree(&self, arena: &'a Arena) -> Result<Tree<'a>, AllocError> {
        node(arena, self.0, &self.1)
    }
}

impl<'a, T: ToTree<'a>> ToTree<'a> for Called<T> {
    ghost tree = { λ x. t.Called (part_of x.0) (T.tree x.1) };

    fn to_tree(&self, arena: &'a Arena) -> Result<Tree<'a>, AllocError> {
        let inner = self.1.to_tree(arena)?;
        made::called(arena, self.0, inner)
    }
}

impl<'a, T: ToTree<'a>> ToTree<'a> for Grouped<T> {
    ghost tree = { λ x. t.Group x.0.delimiter (T.tree x.1) };

    fn to_tree(&self, arena: &'a Arena) -> Result<Tree<'a>, AllocError> {
        let inner = self.1.to_tree(arena)?;
        made::group(arena, self.0.delimiter, self.0.span, inner)
    }
}

impl<'a, T: ToTree<'a>> ToTree<'a> for First<T> {
    ghost tree = { λ x. t.First (T.tree x.0) };

    fn to_tree(&self, arena: &'a Arena) -> Result<Tree<'a>, AllocError> {
        nth(arena, 0, &self.0)
    }
}

impl<'a, T: ToTree<'a>> ToTree<'a> for Second<T> {
    ghost tree = { λ x. t.Second (T.tree x.0) };

    fn to_tree(&self, arena: &'a Arena) -> Result<Tree<'a>, AllocError> {
        behind(arena, 1, &self.0)
    }
}

impl<'a, T: ToTree<'a>> ToTree<'a> for Seconds<T> {
    ghost tree = { λ x. seconds x.0 (T.tree x.1) };

    fn to_tree(&self, arena: &'a Arena) -> Result<Tree<'a>, AllocError> {
        behind(arena, self.0, &self.1)
    }
}

impl<'a, T: ToTree<'a>> ToTree<'a> for Option<T> {
    ghost tree = { optional_tree T.tree };

    fn to_tree(&self, arena: &'a Arena) -> Result<Tree<'a>, AllocError> {
        match self {
            Some(value) => nth(arena, 0, value),
            None => missing(arena),
        }
    }
}

impl<'a, A: ToTree<'a>, B: ToTree<'a>> ToTree<'a> for (A, B) {
    ghost tree = { λ x. t.Pair (A.tree x.0) (B.tree x.1) };

    fn to_tree(&self, arena: &'a Arena) -> Result<Tree<'a>, AllocError> {
        let front = self.0.to_tree(arena)?;
        let back = self.1.to_tree(arena)?;
        made::pair(arena, front, back)
    }
}

impl<'a, A: ToTree<'a>, B: ToTree<'a>, C: ToTree<'a>> ToTree<'a> for (A, B, C) {
    ghost tree = { λ x. t.Pair (A.tree x.0) (t.Pair (B.tree x.1) (C.tree x.2)) };

    fn to_tree(&self, arena: &'a Arena) -> Result<Tree<'a>, AllocError> {
        let first = self.0.to_tree(arena)?;
        let second = self.1.to_tree(arena)?;
        let third = self.2.to_tree(arena)?;
        three(arena, first, second, third)
    }
}

impl<'a, A: ToTree<'a>, B: ToTree<'a>, C: ToTree<'a>, D: ToTree<'a>> ToTree<'a> for (A, B, C, D) {
    ghost tree = { λ x. t.Pair (A.tree x.0) (t.Pair (B.tree x.1) (t.Pair (C.tree x.2) (D.tree x.3))) };

    fn to_tree(&self, arena: &'a Arena) -> Result<Tree<'a>, AllocError> {
        let first = self.0.to_tree(arena)?;
        let second = self.1.to_tree(arena)?;
        let third = self.2.to_tree(arena)?;
        let fourth = self.3.to_tree(arena)?;
        four(arena, first, second, third, fourth)
    }
}
