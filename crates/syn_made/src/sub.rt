//! What stands in several types, with a mark or a word in front of it.

ghost use Rattle.syn_part.specs.Sub.{lit_tree, marked_bounds_tree, marked_tree, marked_type_tree, marked_value_tree};
ghost use Rattle.syn_part.specs.Sub.{worded_tree};

use crate::forms::Called;
use crate::put::{behind, nth};
use crate::to_tree::ToTree;
use reader_table::part::Part;
use reader_tree::arena::Arena;
use reader_tree::tree::Tree;
use std::alloc::AllocError;
use syn_part::sub::{Lit, Marked, MarkedBounds, MarkedType, MarkedValue, Worded};

impl<'t, 'a> ToTree<'a> for Marked<'t, 'a> {
    ghost tree = { marked_tree };

    fn to_tree(&self, arena: &'a Arena) -> Result<Tree<'a>, AllocError> {
        (self.mark, self.node).to_tree(arena)
    }
}

impl<'t, 'a> ToTree<'a> for Worded<'t, 'a> {
    ghost tree = { worded_tree };

    fn to_tree(&self, arena: &'a Arena) -> Result<Tree<'a>, AllocError> {
        (self.word, self.node).to_tree(arena)
    }
}

impl<'t, 'a> ToTree<'a> for MarkedValue<'t, 'a> {
    ghost tree = { marked_value_tree };

    fn to_tree(&self, arena: &'a Arena) -> Result<Tree<'a>, AllocError> {
        (self.mark, Called(Part::Value, self.node)).to_tree(arena)
    }
}

impl<'t, 'a> ToTree<'a> for MarkedType<'t, 'a> {
    ghost tree = { marked_type_tree };

    fn to_tree(&self, arena: &'a Arena) -> Result<Tree<'a>, AllocError> {
        (self.mark, Called(Part::Type, self.node)).to_tree(arena)
    }
}

impl<'t, 'a> ToTree<'a> for MarkedBounds<'t, 'a> {
    ghost tree = { marked_bounds_tree };

    fn to_tree(&self, arena: &'a Arena) -> Result<Tree<'a>, AllocError> {
        (self.mark, Called(Part::Bounds, self.node)).to_tree(arena)
    }
}

impl<'a> ToTree<'a> for Lit<'a> {
    ghost tree = { lit_tree };

    fn to_tree(&self, arena: &'a Arena) -> Result<Tree<'a>, AllocError> {
        match *self {
            Lit::Token(literal) => nth(arena, 0, &literal),
            Lit::Bool(word) => behind(arena, 1, &word),
        }
    }
}
