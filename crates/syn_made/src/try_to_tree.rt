//! Values that may be trees.

ghost use Rattle.std.specs.Prelude.{IfOk, MatchOption};
ghost use Rattle.syn_grammar.specs.Tree.{Tree as GivenTree};

use reader_tree::arena::Arena;
use reader_tree::tree::Tree;
use std::alloc::AllocError;

/// What a tree can be made of, if there is one: a type of the syntax tree of which some values are no tree of the
/// grammar, as a function with a block and a semicolon.
pub trait TryToTree<'a> {
    /// The value is that tree.
    ghost says: { Self → GivenTree → Type 0 };

    /// The value as a tree, or `None`, exactly where it is none. What it adds stands in the arena.
    ///
    /// # Errors
    ///
    /// Where there is no memory for it.
    fn try_to_tree(&self, arena: &'a Arena) -> Result<Option<Tree<'a>>, AllocError>
        ensures { IfOk result (λ o. MatchOption o ((x : GivenTree) → says self.now x → ⊥) (λ x. says self.now x)) };
}
