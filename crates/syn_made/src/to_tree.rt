//! Values that are trees.

ghost use Rattle.std.specs.Prelude.{◌≡◌, IfOk, MatchOption};
ghost use Rattle.syn_grammar.specs.Tree.{Tree as GivenTree};

use reader_tree::arena::Arena;
use reader_tree::tree::Tree;
use std::alloc::AllocError;

/// What a tree can be made of: a type of the syntax tree, which is one layer of a tree.
pub trait ToTree<'a> {
    /// The tree that a value is.
    ghost tree: { Self → GivenTree };

    /// The value as a tree. What it adds stands in the arena.
    ///
    /// # Errors
    ///
    /// Where there is no memory for it.
    fn to_tree(&self, arena: &'a Arena) -> Result<Tree<'a>, AllocError>
        ensures { IfOk result (λ x. x ≡ tree self.now) };

    /// The value as a tree, as `try_to_tree` answers it where nothing is asked of the value: it always is one. (`Unit`
    /// stands in its contract where that of such a type says which of its values are trees.)
    ///
    /// # Errors
    ///
    /// Where there is no memory for it.
    final fn to_some_tree(&self, arena: &'a Arena) -> Result<Option<Tree<'a>>, AllocError>
        ensures { IfOk result (λ o. MatchOption o ((x : GivenTree) → Unit {0} × (x ≡ tree self.now) → ⊥)
            (λ x. Unit {0} × (x ≡ tree self.now))) }
    {
        Ok(Some(self.to_tree(arena)?))
    }
}
