//! A part that may be missing.

ghost use Rattle.reader_table.specs.Parts.{part_of};
ghost use Rattle.syn_grammar.specs.Tree as t;
ghost use Rattle.syn_part.specs.Leaves.{optional_tree};

use crate::forms::Called;
use crate::parts::missing;
use crate::put::nth;
use crate::to_tree::ToTree;
use reader_table::part::Part;
use reader_tree::arena::Arena;
use reader_tree::tree::Tree;
use std::alloc::AllocError;

/// A part by its name, or nothing.
#[derive(Clone, Copy)]
pub struct MaybeCalled<T>(pub Part, pub Option<T>);

impl<'a, T: ToTree<'a> + Copy> ToTree<'a> for MaybeCalled<T> {
    ghost tree = { λ x. optional_tree (λ y. t.Called (part_of x.0) (T.tree y)) x.1 };

    fn to_tree(&self, arena: &'a Arena) -> Result<Tree<'a>, AllocError> {
        match self.1 {
            Some(value) => nth(arena, 0, &Called(self.0, value)),
            None => missing(arena),
        }
    }
}
