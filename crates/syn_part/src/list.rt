//! Lists.

ghost use Rattle.std.specs.Prelude.{◌+◌, ◌≡◌, MatchOption, cond, length};
ghost use Rattle.syn_grammar.specs.Tree as t;
ghost use Rattle.syn_grammar.specs.Tree.{Tree as GivenTree};
ghost use Rattle.syn_part.specs.Leaves.{list_tree};

use reader_table::op::Separator;
use reader_tree::tree::{Element, Tree};

/// Elements with a mark between them, and perhaps one behind the last.
#[derive(Clone, Copy)]
pub struct Elements<'t, 'a> {
    /// The mark.
    pub separator: Separator,
    /// The elements that a mark follows.
    pub before: &'t [Element<'a>],
    /// The last one, if no mark follows it.
    pub last: Option<&'t Tree<'a>>,
}

/// Turns, one behind the other.
#[derive(Clone, Copy)]
pub struct Turns<'t, 'a> {
    /// Each of them.
    pub each: &'t [Tree<'a>],
}

impl<'t, 'a> Elements<'t, 'a> {
    /// The only element, if it is one and no mark follows it.
    #[tactic(auto, using(crate::proofs::Takes::elements_final))]
    pub fn only(&self) -> Option<&'t Tree<'a>>
        ensures { MatchOption result ((x : GivenTree) → list_tree self.now ≡ t.Final x → ⊥)
            (λ x. list_tree self.now ≡ t.Final x.now) }
    {
        if self.before.is_empty() {
            self.last
        } else {
            None
        }
    }

    /// How many elements there are.
    pub fn len(&self) -> usize
        ensures { MatchOption self.now.last (result ≡ length self.now.before.now)
            (λ _. result ≡ length self.now.before.now + 1) }
    {
        match self.last {
            Some(_) => self.before.len() + 1,
            None => self.before.len(),
        }
    }

    /// Whether there is none.
    #[tactic(auto, using(crate::proofs::Takes::elements_end))]
    pub fn is_empty(&self) -> bool
        ensures { cond result (list_tree self.now ≡ t.End) ((list_tree self.now ≡ t.End) → ⊥) }
    {
        self.before.is_empty() && self.last.is_none()
    }
}
