//! A place in a tree.

use reader_tree::tree::Tree;

/// A place in a tree, for a loop that goes on to another: such a loop sets it as a whole.
#[derive(Clone, Copy)]
pub(crate) struct Place<'t, 'a> {
    /// The tree that stands there.
    pub(crate) tree: &'t Tree<'a>,
}
