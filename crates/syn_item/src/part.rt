//! What several items have: names, generics, where clauses, words that may stand before them.

ghost use Rattle.proc_macro2.specs.Token.{Token};
ghost use Rattle.proc_macro2.specs.declared.delimiter.Delimiter.{Delimiter as GivenDelimiter};
ghost use Rattle.std.specs.Prelude.{◌≡◌, Bool, List, MatchOption, ℕ};
ghost use Rattle.syn_grammar.specs.Gram as g;
ghost use Rattle.syn_grammar.specs.Name as n;
ghost use Rattle.syn_item.specs.ItemParts.{braced_tree, name_or_tree};
ghost use Rattle.syn_part.specs.Shape.{IsShaped};

use reader_table::part::Part;
use reader_tree::tree::Tree;
use syn_part::leaf::Delimiters;
use syn_part::name::{Name, as_name};
use syn_part::{inside, take};

// A name, or the keyword that may stand in its place.
pub(crate) fn name_or<'a>(tree: &Tree<'a>) -> Option<Name<'a>>
    ensures { MatchOption result ((test : List Token → Bool) (p q : List ℕ → Bool) → IsShaped tree.now
        (g.called n.the_name (g.alt test (g.word p) (g.word q))) → ⊥) (λ x. tree.now ≡ name_or_tree x) }
{
    let Some(inner) = inside::part(Part::Name, tree) else {
        return None;
    };
    as_name(inner)
}

/// Braces, with attributes and items in them.
#[derive(Clone, Copy)]
pub struct Braced<'t, 'a> {
    /// The braces.
    pub brace_token: Delimiters,
    /// The attributes.
    pub attrs: &'t Tree<'a>,
    /// The items.
    pub items: &'t Tree<'a>,
}

// What a tree is, if it is that.
pub(crate) fn as_braced<'t, 'a>(tree: &'t Tree<'a>) -> Option<Braced<'t, 'a>>
    ensures { MatchOption result ((d1 : GivenDelimiter) (a2 : g.Gram) (a3 : g.Gram) → IsShaped tree.now (g.group d1
        (g.seq a2 a3)) → ⊥) (λ x. tree.now ≡ braced_tree x) }
{
    let (brace_token, inside) = take::group(tree)?;
    let (attrs, items) = take::pair(inside)?;
    Some(Braced {
        brace_token,
        attrs,
        items,
    })
}
