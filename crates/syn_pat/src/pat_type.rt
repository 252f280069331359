//! A pattern and its type, of which a pattern's own tree says nothing: both stand in the tree around them.

use reader_tree::tree::Tree;
use syn_part::leaf::Mark;

/// A pattern and its type: `a: A`. A parameter of a function or of a closure is one, and in a `let` one stands; each
/// answers it as its `pat_type`.
#[derive(Clone, Copy)]
pub struct PatType<'t, 'a> {
    /// The attributes of a parameter. In a `let` none stand there: those in front of it are the statement's.
    pub attrs: Option<&'t Tree<'a>>,
    /// The pattern.
    pub pat: &'t Tree<'a>,
    /// `:`
    pub colon_token: Mark,
    /// The type.
    pub ty: &'t Tree<'a>,
}
