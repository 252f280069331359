//! Taking streams apart.

ghost use Rattle.proc_macro2.specs.Flat.{trees_tokens, tree_tokens};
ghost use Rattle.proc_macro2.specs.Held.{are_held};
ghost use Rattle.proc_macro2.specs.Left.{trees_left};
ghost use Rattle.rust_map.specs.Sources.{Sources};
ghost use Rattle.std.specs.Iterator.{UpTo, YieldsFirst, at_most, item_count};
ghost use Rattle.std.specs.Iterator.SizeHint.{IsExactHint, IsWithinCount};
ghost use Rattle.std.specs.List.{All};
ghost use Rattle.std.specs.Prelude.{◌≡◌, IfOk, IfSome, IsTrue, List, length, map};

use crate::copies::copied_tree;
use crate::tree::{TokenStream, TokenTree};
use std::alloc::AllocError;
use std::collections::VecDeque;
use try_clone::TryClone;

/// The trees of a stream, in order. Groups come whole.
#[derive(Debug, Drop)]
pub struct IntoIter {
    pub(crate) trees: VecDeque<TokenTree>,
}

impl TokenStream {
    /// The trees of the stream, in order. Groups come whole. `AllocError` if memory is refused, which is asked for
    /// only where a copy shares the stream's list. A map that holds the stream's spans holds those of each tree.
    #[tactic(auto, using(crate::proofs::Held::trees_held))]
    pub fn into_iter(self) -> Result<IntoIter, AllocError>
        ensures trees { IfOk result (λ it. trees_tokens (trees_left it) ≡ self) }
        ensures held { IfOk result
            (λ it. (map : Sources) → IsTrue (are_held map self)
            → All (λ tree. IsTrue (are_held map (tree_tokens tree))) (trees_left it)) }
    {
        let trees = self.into_list()?;
        Ok(IntoIter {
            trees: VecDeque::from_vec(trees),
        })
    }
}

impl TryClone for IntoIter {
    ghost use Rattle.proc_macro2.specs.Token.{Spanned};

    ghost Shown = { List (List Spanned) };

    ghost shown = { λ it. map tree_tokens (trees_left it) };

    fn try_clone(&self) -> Result<IntoIter, AllocError> {
        let mut trees = Vec::new(*self.trees.allocator());
        for index in 0..self.trees.len() {
            trees.push(copied_tree(&self.trees[index])?)?;
        }
        Ok(IntoIter {
            trees: VecDeque::from_vec(trees),
        })
    }
}

impl Iterator for IntoIter {
    type Item = TokenTree;

    ghost next_gives = { YieldsFirst trees_left };

    ghost remaining = { item_count trees_left };

    fn next(&mut self) -> Option<TokenTree> {
        self.trees.pop_front()
    }

    fn size_hint(&self) -> (usize, Option<usize>)
        ensures lower { IsWithinCount result.0 (item_count trees_left self.now) }
        ensures upper { IfSome result.1 (UpTo (item_count trees_left self.now)) }
        ensures exact { IsExactHint result (length (trees_left self.now)) }
    {
        let count = self.trees.len();
        (count, Some(count))
    }
}
