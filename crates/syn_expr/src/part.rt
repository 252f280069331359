//! Parts by their names, and what stands in delimiters, each as one that is there or not: so a form asks for several of
//! them at once.

ghost use Rattle.proc_macro2.specs.Token.{Token};
ghost use Rattle.proc_macro2.specs.declared.delimiter.Delimiter.{Delimiter as GivenDelimiter};
ghost use Rattle.std.specs.Prelude.{◌≡◌, Bool, List, MatchOption, ℕ};
ghost use Rattle.syn_grammar.specs.Gram as g;
ghost use Rattle.syn_grammar.specs.Name as n;
ghost use Rattle.syn_grammar.specs.Tree as t;
ghost use Rattle.syn_part.specs.Leaves.{list_tree, literal_tree, turns_tree, word_tree};
ghost use Rattle.syn_part.specs.Shape.{IsShaped};

use reader_table::part::Part;
use reader_tree::tree::Tree;
use rust_leaf::ident::Ident;
use rust_leaf::literal::Literal;
use syn_part::leaf::Delimiters;
use syn_part::list::{Elements, Turns};
use syn_part::{inside, take};

// A number.
pub(crate) fn number<'a>(tree: &Tree<'a>) -> Option<&'a Literal>
    ensures { MatchOption result ((p : List ℕ → Bool) → IsShaped tree.now (g.called n.the_value (g.literal p)) → ⊥)
        (λ l. tree.now ≡ t.Called n.the_value (literal_tree l)) }
{
    let Some(inner) = inside::part(Part::Value, tree) else {
        return None;
    };
    take::literal(inner)
}

// Numbers behind a dot.
pub(crate) fn indices<'t, 'a>(tree: &'t Tree<'a>) -> Option<Turns<'t, 'a>>
    ensures { MatchOption result ((test : List Token → Bool) (a : g.Gram) → IsShaped tree.now
        (g.called n.the_indices (g.star test a)) → ⊥) (λ r. tree.now ≡ t.Called n.the_indices (turns_tree r)) }
{
    let Some(inner) = inside::part(Part::Indices, tree) else {
        return None;
    };
    take::each_turn(inner)
}

// A list in delimiters.
pub(crate) fn list_in<'t, 'a>(tree: &'t Tree<'a>) -> Option<(Delimiters, Elements<'t, 'a>)>
    ensures { MatchOption result ((d : GivenDelimiter) (e : List Token → Bool) (c : ℕ) (a : g.Gram) → IsShaped tree.now
        (g.group d (g.many e c a)) → ⊥) (λ p. tree.now ≡ t.Group p.0.delimiter (list_tree p.1)) }
{
    let Some((delimiters, inside)) = take::group(tree) else {
        return None;
    };
    match take::list(inside) {
        Some(found) => Some((delimiters, found)),
        None => None,
    }
}

// Two trees in delimiters.
pub(crate) fn pair_in<'t, 'a>(
    tree: &'t Tree<'a>,
) -> Option<(Delimiters, &'t Tree<'a>, &'t Tree<'a>)>
    ensures { MatchOption result ((d : GivenDelimiter) (a b : g.Gram) → IsShaped tree.now (g.group d (g.seq a b)) → ⊥)
        (λ p. tree.now ≡ t.Group p.0.delimiter (t.Pair p.1.now p.2.now)) }
{
    let Some((delimiters, inside)) = take::group(tree) else {
        return None;
    };
    match take::pair(inside) {
        Some((front, back)) => Some((delimiters, front, back)),
        None => None,
    }
}
