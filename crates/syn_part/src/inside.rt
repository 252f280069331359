//! What a node of one kind is made of, where it has the shape of the kind's entry. Each answers nothing only of trees
//! that are no such node.

ghost use Rattle.reader_table.specs.Kinds.{kind_of};
ghost use Rattle.reader_table.specs.Parts.{part_of};
ghost use Rattle.proc_macro2.specs.Token.{Token};
ghost use Rattle.proc_macro2.specs.declared.delimiter.Delimiter.{Delimiter as GivenDelimiter};
ghost use Rattle.std.specs.Prelude.{◌≡◌, Bool, List, MatchOption, ℕ};
ghost use Rattle.syn_grammar.specs.Gram as g;
ghost use Rattle.syn_grammar.specs.Table.{table};
ghost use Rattle.syn_grammar.specs.Tree as t;
ghost use Rattle.syn_part.specs.Kept.{IsKept};
ghost use Rattle.syn_part.specs.Leaves.{mark_tree, optional_tree, part_tree, word_tree};
ghost use Rattle.syn_part.specs.Shape.{IsShaped};

use crate::leaf::{Delimiters, Mark};
use crate::take;
use reader_table::kind::Kind;
use reader_table::part::Part;
use reader_table::same::{same_kind, same_part};
use reader_tree::tree::Tree;
use rust_leaf::ident::Ident;

/// Of a node of that kind its inside.
pub fn node<'t, 'a>(kind: Kind, tree: &'t Tree<'a>) -> Option<&'t Tree<'a>>
    ensures { MatchOption result (IsShaped tree.now (g.ref (kind_of kind)) → ⊥)
        (λ x. tree.now ≡ t.Node (kind_of kind) x.now) }
{
    match take::node(tree) {
        Some((found, inner)) => if same_kind(found, kind) {
            Some(inner)
        } else {
            None
        },
        None => None,
    }
}

/// Of a part of that name what it is.
pub fn part<'t, 'a>(part: Part, tree: &'t Tree<'a>) -> Option<&'t Tree<'a>>
    ensures { MatchOption result ((a : g.Gram) → IsShaped tree.now (g.called (part_of part) a) → ⊥)
        (λ x. tree.now ≡ t.Called (part_of part) x.now) }
{
    match take::called(tree) {
        Some((found, inner)) => if same_part(found, part) {
            Some(inner)
        } else {
            None
        },
        None => None,
    }
}

/// Of a part of that name the word that it is.
pub fn word<'a>(part: Part, tree: &Tree<'a>) -> Option<&'a Ident>
    ensures { MatchOption result ((p : List ℕ → Bool) → IsShaped tree.now (g.called (part_of part) (g.word p)) → ⊥)
        (λ i. tree.now ≡ t.Called (part_of part) (word_tree i)) }
{
    match self::part(part, tree) {
        Some(inner) => take::word(inner),
        None => None,
    }
}

/// Of a part of that name the punctuation that it is.
pub fn mark(part: Part, tree: &Tree<'_>) -> Option<Mark>
    ensures { MatchOption result ((c : ℕ) (cs : List ℕ) → IsShaped tree.now (g.called (part_of part) (g.mark c cs)) → ⊥)
        (λ m. tree.now ≡ t.Called (part_of part) (mark_tree m)) }
{
    match self::part(part, tree) {
        Some(inner) => take::mark(inner),
        None => None,
    }
}

/// The part of that name that stands there, if one does: the word that it is.
pub fn optional_word<'a>(part: Part, tree: &Tree<'a>) -> Option<Option<&'a Ident>>
    ensures { MatchOption result ((test : List Token → Bool) (p : List ℕ → Bool) → IsShaped tree.now (g.alt test
        (g.called (part_of part) (g.word p)) g.nothing) → ⊥)
        (λ o. tree.now ≡ optional_tree (part_tree (part_of part) word_tree) o) }
{
    match take::optional(tree) {
        None => None,
        Some(None) => Some(None),
        Some(Some(inner)) => match word(part, inner) {
            Some(found) => Some(Some(found)),
            None => None,
        },
    }
}

/// The part of that name that stands there, if one does: the punctuation that it is.
pub fn optional_mark(part: Part, tree: &Tree<'_>) -> Option<Option<Mark>>
    ensures { MatchOption result ((test : List Token → Bool) (c : ℕ) (cs : List ℕ) → IsShaped tree.now (g.alt test
        (g.called (part_of part) (g.mark c cs)) g.nothing) → ⊥)
        (λ o. tree.now ≡ optional_tree (part_tree (part_of part) mark_tree) o) }
{
    match take::optional(tree) {
        None => None,
        Some(None) => Some(None),
        Some(Some(inner)) => match mark(part, inner) {
            Some(found) => Some(Some(found)),
            None => None,
        },
    }
}

/// Of a node of that kind whose inside is judged, what is kept as it was read.
#[tactic(auto, using(crate::proofs::Choices::firsts))]
pub fn kept<'t, 'a>(kind: Kind, tree: &'t Tree<'a>) -> Option<&'t Tree<'a>>
    ensures { MatchOption result (IsKept tree.now → IsShaped tree.now (g.ref (kind_of kind)) → ⊥)
        (λ x. tree.now ≡ t.Node (kind_of kind) (t.First x.now)) }
{
    match node(kind, tree) {
        Some(inner) => take::kept(inner),
        None => None,
    }
}

/// Of a node whose entry is two parts both trees.
pub fn pair<'t, 'a>(kind: Kind, tree: &'t Tree<'a>) -> Option<(&'t Tree<'a>, &'t Tree<'a>)>
    ensures { MatchOption result ((a b : g.Gram) → table (kind_of kind) ≡ g.seq a b
        → IsShaped tree.now (g.ref (kind_of kind)) → ⊥)
        (λ p. tree.now ≡ t.Node (kind_of kind) (t.Pair p.0.now p.1.now)) }
{
    match node(kind, tree) {
        Some(inner) => take::pair(inner),
        None => None,
    }
}

/// Of a node whose entry is three parts each tree.
pub fn three<'t, 'a>(
    kind: Kind,
    tree: &'t Tree<'a>,
) -> Option<(&'t Tree<'a>, &'t Tree<'a>, &'t Tree<'a>)>
    ensures { MatchOption result ((a b c : g.Gram) → table (kind_of kind) ≡ g.seq a (g.seq b c)
        → IsShaped tree.now (g.ref (kind_of kind)) → ⊥)
        (λ p. tree.now ≡ t.Node (kind_of kind) (t.Pair p.0.now (t.Pair p.1.now p.2.now))) }
{
    match node(kind, tree) {
        Some(inner) => take::three(inner),
        None => None,
    }
}

/// Of a node whose entry is four parts each tree.
pub fn four<'t, 'a>(
    kind: Kind,
    tree: &'t Tree<'a>,
) -> Option<(&'t Tree<'a>, &'t Tree<'a>, &'t Tree<'a>, &'t Tree<'a>)>
    ensures { MatchOption result ((a b c d : g.Gram) → table (kind_of kind) ≡ g.seq a (g.seq b (g.seq c d))
        → IsShaped tree.now (g.ref (kind_of kind)) → ⊥)
        (λ p. tree.now ≡ t.Node (kind_of kind)
        (t.Pair p.0.now (t.Pair p.1.now (t.Pair p.2.now p.3.now)))) }
{
    match node(kind, tree) {
        Some(inner) => take::four(inner),
        None => None,
    }
}

/// Of a node whose entry is five parts each tree.
pub fn five<'t, 'a>(
    kind: Kind,
    tree: &'t Tree<'a>,
) -> Option<
    (
        &'t Tree<'a>,
        &'t Tree<'a>,
        &'t Tree<'a>,
        &'t Tree<'a>,
        &'t Tree<'a>,
    ),
>
    ensures { MatchOption result ((a b c d e : g.Gram) → table (kind_of kind) ≡ g.seq a (g.seq b (g.seq c (g.seq d e)))
        → IsShaped tree.now (g.ref (kind_of kind)) → ⊥)
        (λ p. tree.now ≡ t.Node (kind_of kind)
        (t.Pair p.0.now (t.Pair p.1.now (t.Pair p.2.now (t.Pair p.3.now p.4.now))))) }
{
    match node(kind, tree) {
        Some(inner) => take::five(inner),
        None => None,
    }
}

/// Of a node whose entry is six parts each tree.
pub fn six<'t, 'a>(
    kind: Kind,
    tree: &'t Tree<'a>,
) -> Option<
    (
        &'t Tree<'a>,
        &'t Tree<'a>,
        &'t Tree<'a>,
        &'t Tree<'a>,
        &'t Tree<'a>,
        &'t Tree<'a>,
    ),
>
    ensures { MatchOption result ((a b c d e f : g.Gram)
        → table (kind_of kind) ≡ g.seq a (g.seq b (g.seq c (g.seq d (g.seq e f))))
        → IsShaped tree.now (g.ref (kind_of kind)) → ⊥)
        (λ p. tree.now ≡ t.Node (kind_of kind)
        (t.Pair p.0.now (t.Pair p.1.now (t.Pair p.2.now (t.Pair p.3.now (t.Pair p.4.now p.5.now)))))) }
{
    match node(kind, tree) {
        Some(inner) => take::six(inner),
        None => None,
    }
}

/// Of a node whose entry is a group its delimiters and what stands between them.
pub fn group<'t, 'a>(kind: Kind, tree: &'t Tree<'a>) -> Option<(Delimiters, &'t Tree<'a>)>
    ensures { MatchOption result ((d : GivenDelimiter) (a : g.Gram) → table (kind_of kind) ≡ g.group d a
        → IsShaped tree.now (g.ref (kind_of kind)) → ⊥)
        (λ p. tree.now ≡ t.Node (kind_of kind) (t.Group p.0.delimiter p.1.now)) }
{
    match node(kind, tree) {
        Some(inner) => take::group(inner),
        None => None,
    }
}
