//! Lists and turns.

ghost use Rattle.std.specs.Prelude.{◌≡◌, IfOk};
ghost use Rattle.syn_grammar.specs.Tree as t;
ghost use Rattle.syn_part.specs.Leaves.{list_tree, turns_tree};

use crate::to_tree::ToTree;
use reader_table::op::Separator;
use reader_tree::arena::Arena;
use reader_tree::made;
use reader_tree::tree::{Element, Tree};
use std::alloc::AllocError;
use syn_part::list::{Elements, Turns};

// Elements once more, each over the same tree.
fn copied_elements<'a>(
    arena: &'a Arena,
    elements: &[Element<'a>],
) -> Result<Vec<Element<'a>>, AllocError>
    ensures { IfOk result (λ es. es.items ≡ elements.now) }
{
    let mut copies = Vec::new(arena.alloc());
    for element in elements {
        copies.push(Element {
            tree: element.tree.copy(),
            spacing: element.spacing.copy(),
        })?;
    }
    Ok(copies)
}

// Trees once more.
fn copied_trees<'a>(arena: &'a Arena, trees: &[Tree<'a>]) -> Result<Vec<Tree<'a>>, AllocError>
    ensures { IfOk result (λ xs. xs.items ≡ trees.now) }
{
    let mut copies = Vec::new(arena.alloc());
    for tree in trees {
        copies.push(tree.copy())?;
    }
    Ok(copies)
}

/// A list of one element, which no mark follows.
#[derive(Clone, Copy)]
pub struct Only<'t, 'a>(pub &'t Tree<'a>);

impl<'t, 'a> ToTree<'a> for Only<'t, 'a> {
    ghost tree = { λ x. t.Final x.0.now };

    fn to_tree(&self, arena: &'a Arena) -> Result<Tree<'a>, AllocError> {
        let none = Vec::new(arena.alloc());
        made::elements(arena, Separator::Comma, none, Some(self.0.copy()))
    }
}

impl<'t, 'a> ToTree<'a> for Elements<'t, 'a> {
    ghost tree = { list_tree };

    fn to_tree(&self, arena: &'a Arena) -> Result<Tree<'a>, AllocError> {
        let before = copied_elements(arena, self.before)?;
        match self.last {
            Some(last) => made::elements(arena, self.separator, before, Some(last.copy())),
            None => made::elements(arena, self.separator, before, None),
        }
    }
}

impl<'t, 'a> ToTree<'a> for Turns<'t, 'a> {
    ghost tree = { turns_tree };

    fn to_tree(&self, arena: &'a Arena) -> Result<Tree<'a>, AllocError> {
        let each = copied_trees(arena, self.each)?;
        made::turns(arena, each)
    }
}
