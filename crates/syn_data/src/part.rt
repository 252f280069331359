//! What several of these types are made of.

ghost use Rattle.proc_macro2.specs.Token.{Token};
ghost use Rattle.std.specs.Prelude.{◌≡◌, Bool, List, MatchOption, cond, ℕ};
ghost use Rattle.syn_data.specs.Derive.{item_entry, item_inside};
ghost use Rattle.syn_grammar.specs.Gram as g;
ghost use Rattle.syn_grammar.specs.Gram.{Verdict};
ghost use Rattle.syn_grammar.specs.Name as n;
ghost use Rattle.syn_grammar.specs.Tree as t;
ghost use Rattle.syn_grammar.specs.Tree.{Tree as GivenTree};
ghost use Rattle.syn_part.specs.Kept.{IsFirst};
ghost use Rattle.syn_part.specs.Leaves.{word_tree};
ghost use Rattle.syn_part.specs.Shape.{IsShaped};

use reader_table::part::Part;
use reader_tree::tree::{Form, Tree};
use rust_leaf::ident::Ident;
use syn_part::missing::nothing;
use syn_part::{inside, joined, take};

/// What was read, and is no part of the program.
#[tactic(auto, using(syn_part::proofs::Takes::takes))]
pub fn dropped<'t, 'a>(tree: &'t Tree<'a>) -> Option<&'t Tree<'a>>
    ensures { MatchOption result ((a : g.Gram) → IsShaped tree.now (g.dropped a) → ⊥)
        (λ x. tree.now ≡ t.Dropped x.now) }
{
    match &tree.form {
        Form::Dropped(inner) => Some(inner),
        _ => None,
    }
}

/// Whether nothing stands there, where else the entry would refuse.
#[tactic(auto, using(syn_part::proofs::Absent::never_or))]
pub fn is_missing(tree: &Tree<'_>) -> bool
    ensures { cond result (tree.now ≡ t.Second t.Nil) ((test : List Token → Bool)
        → IsShaped tree.now (g.alt test g.never g.nothing) → ⊥) }
{
    nothing(tree)
}

/// Of what was kept of an item its attributes, its visibility, and what stands behind them.
pub fn item_parts<'t, 'a>(tree: &'t Tree<'a>) -> Option<(&'t Tree<'a>, &'t Tree<'a>, &'t Tree<'a>)>
    ensures { MatchOption result ((v : GivenTree → Verdict) (a b c : g.Gram) → IsFirst tree.now → IsShaped tree.now
        (item_entry v a b c) → ⊥) (λ p. tree.now ≡ item_inside p.0.now p.1.now p.2.now) }
{
    let Some(kept) = take::kept(tree) else {
        return None;
    };
    let Some((attrs, vis, form)) = take::three(kept) else {
        return None;
    };
    let Some((vis, form)) = joined::two(
        inside::part(Part::Visibility, vis),
        inside::part(Part::Item, form),
    ) else {
        return None;
    };
    Some((attrs, vis, form))
}
