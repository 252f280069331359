//! Leaves as trees, tokens that are kept as they are, and trees that are lent.

ghost use Rattle.std.specs.Prelude.{◌≡◌, ◌↔◌, IfOk, IsTrue};
ghost use Rattle.syn_made.specs.MadeAst.{IsSign};
ghost use Rattle.syn_part.specs.Leaves.{lifetime_tree, literal_tree, mark_tree, node_tree, raw_tree, word_tree};

use crate::to_tree::ToTree;
use reader_table::word::Sign;
use reader_tree::arena::Arena;
use reader_tree::made;
use reader_tree::tree::Tree;
use rust_leaf::ident::Ident;
use rust_leaf::literal::Literal;
use std::alloc::AllocError;
use syn_buffer::entry::Entry;
use syn_part::leaf::{Lifetime, Mark};

/// A punctuation.
pub fn mark<'a>(mark: Mark) -> Tree<'a>
    ensures { result ≡ mark_tree mark }
{
    made::mark(mark.sign, mark.spacing, mark.span)
}

/// Whether a punctuation is that one.
#[tactic(auto, using(crate::proofs::SignTexts::texts))]
pub(crate) fn is_sign(mark: Mark, sign: Sign) -> bool
    ensures { IsTrue result ↔ IsSign sign mark }
{
    mark.sign.text() == sign.text()
}

/// A lifetime.
///
/// # Errors
///
/// Where there is no memory for it.
pub fn lifetime<'a>(arena: &'a Arena, lifetime: Lifetime<'a>) -> Result<Tree<'a>, AllocError>
    ensures { IfOk result (λ x. x ≡ lifetime_tree lifetime.entry) }
{
    made::lifetime(arena, lifetime.apostrophe, lifetime.ident)
}

impl<'a> ToTree<'a> for &'a Ident {
    ghost tree = { word_tree };

    fn to_tree(&self, _arena: &'a Arena) -> Result<Tree<'a>, AllocError> {
        Ok(made::word(self))
    }
}

impl<'a> ToTree<'a> for &'a Literal {
    ghost tree = { literal_tree };

    fn to_tree(&self, _arena: &'a Arena) -> Result<Tree<'a>, AllocError> {
        Ok(made::literal(self))
    }
}

impl<'a> ToTree<'a> for Mark {
    ghost tree = { mark_tree };

    fn to_tree(&self, _arena: &'a Arena) -> Result<Tree<'a>, AllocError> {
        Ok(mark(*self))
    }
}

impl<'a> ToTree<'a> for Lifetime<'a> {
    ghost tree = { lifetime_tree };

    fn to_tree(&self, arena: &'a Arena) -> Result<Tree<'a>, AllocError> {
        lifetime(arena, *self)
    }
}

impl<'a> ToTree<'a> for &'a [Entry<'a>] {
    ghost tree = { raw_tree };

    fn to_tree(&self, arena: &'a Arena) -> Result<Tree<'a>, AllocError> {
        made::raw(arena, self)
    }
}

impl<'t, 'a> ToTree<'a> for &'t Tree<'a> {
    ghost tree = { node_tree };

    fn to_tree(&self, _arena: &'a Arena) -> Result<Tree<'a>, AllocError> {
        Ok(self.copy())
    }
}
