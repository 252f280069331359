//! Entries that are cut where the tokens of a tree end.

ghost use Rattle.proc_macro2.specs.Token.{Token};
ghost use Rattle.std.specs.Prelude.{◌++◌, ◌≡◌, List, drop, length, take};
ghost use Rattle.syn_grammar.specs.Tree.{flat};
ghost use Rattle.syn_placed.specs.Stands.{Begins, IsPast, tokens};

use crate::placed::Placed;
use reader_tree::count::past;
use reader_tree::tree::Tree;
use syn_buffer::entry::Entry;

/// The tree with its tokens, with which the entries begin, and those behind it.
pub(crate) fn cut<'t, 'a>(
    tree: &'t Tree<'a>,
    entries: &'t [Entry<'a>],
) -> (Placed<'t, 'a>, &'t [Entry<'a>])
    requires { Begins tree.now entries.now }
    ensures tree { result.0.tree.now ≡ tree.now }
    ensures its { result.0.entries.now ≡ take (length (flat tree.now)) entries.now }
    ensures left { result.1.now ≡ drop (length (flat tree.now)) entries.now }
    ensures whole { result.0.entries.now ++ result.1.now ≡ entries.now }
    ensures behind { (rest : List Token) → tokens entries.now ≡ flat tree.now ++ rest → tokens result.1.now ≡ rest }
{
    let _count = entries.len();
    let (its, behind) = entries.split_at(past(0, tree));
    (Placed::new(tree, its), behind)
}

/// What stands behind the tree's tokens, with which the entries begin.
pub(crate) fn skip<'t, 'a>(tree: &'t Tree<'a>, entries: &'t [Entry<'a>]) -> &'t [Entry<'a>]
    requires { Begins tree.now entries.now }
    ensures { IsPast tree.now entries.now result.now }
{
    let (_, behind) = cut(tree, entries);
    behind
}

/// Two trees, whose tokens the entries are, each with its own.
pub(crate) fn cut_two<'t, 'a>(
    front: &'t Tree<'a>,
    back: &'t Tree<'a>,
    entries: &'t [Entry<'a>],
) -> (Placed<'t, 'a>, Placed<'t, 'a>)
    requires { tokens entries.now ≡ flat front.now ++ flat back.now }
    ensures front { result.0.tree.now ≡ front.now }
    ensures back { result.1.tree.now ≡ back.now }
    ensures whole { result.0.entries.now ++ result.1.entries.now ≡ entries.now }
{
    let (front, behind) = cut(front, entries);
    (front, Placed::new(back, behind))
}
