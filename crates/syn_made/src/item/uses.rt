//! What use declarations name.

ghost use Rattle.std.specs.Prelude.{◌≡◌, IfOk};
ghost use Rattle.syn_item.specs.ItemUses.{use_inside_tree, use_rooted, use_top, use_tree};

use crate::forms::{First, Grouped, Node, Second};
use crate::put::{behind, node, nth};
use crate::to_tree::ToTree;
use reader_table::kind::Kind;
use reader_tree::arena::Arena;
use reader_tree::made;
use reader_tree::tree::Tree;
use std::alloc::AllocError;
use syn_item::uses::{UseTop, UseTree};

// Several in braces, or a branch.
fn inside<'a>(arena: &'a Arena, tree: &UseTree<'_, 'a>) -> Result<Tree<'a>, AllocError>
    ensures { IfOk result (λ x. x ≡ use_inside_tree tree.now) }
{
    match *tree {
        UseTree::Path(found) => {
            let path = (found.colon2_token, found.tree);
            let branch = Second((found.ident, First(path)));
            behind(arena, 1, &Node(Kind::UseBranch, branch))
        }
        UseTree::Name(found) => {
            let branch = Second((found.ident, Second(Second(()))));
            behind(arena, 1, &Node(Kind::UseBranch, branch))
        }
        UseTree::Rename(found) => {
            let renamed = (found.as_token, found.rename);
            let branch = Second((found.ident, Second(First(renamed))));
            behind(arena, 1, &Node(Kind::UseBranch, branch))
        }
        UseTree::Glob(found) => {
            let branch = First(found.star_token);
            behind(arena, 1, &Node(Kind::UseBranch, branch))
        }
        UseTree::Group(found) => nth(arena, 0, &Grouped(found.brace_token, found.items)),
    }
}

impl<'t, 'a> ToTree<'a> for UseTree<'t, 'a> {
    ghost tree = { use_tree };

    fn to_tree(&self, arena: &'a Arena) -> Result<Tree<'a>, AllocError> {
        let inner = inside(arena, self)?;
        made::node(arena, Kind::UseTree, inner)
    }
}

/// What a use declaration names, as a tree of the kind `UseRooted`: one that no path stands before.
///
/// # Errors
///
/// Where there is no memory for it.
pub fn rooted<'a>(arena: &'a Arena, tree: &UseTree<'_, 'a>) -> Result<Tree<'a>, AllocError>
    ensures { IfOk result (λ x. x ≡ use_rooted tree.now) }
{
    let inner = inside(arena, tree)?;
    made::node(arena, Kind::UseRooted, inner)
}

impl<'t, 'a> ToTree<'a> for UseTop<'t, 'a> {
    ghost tree = { use_top };

    fn to_tree(&self, arena: &'a Arena) -> Result<Tree<'a>, AllocError> {
        match self.leading_colon {
            Some(colon) => node(arena, Kind::UseTop, &First((colon, self.tree))),
            None => node(arena, Kind::UseTop, &Second(self.tree)),
        }
    }
}
