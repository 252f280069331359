//! Modules and extern blocks.

ghost use Rattle.proc_macro2.specs.Token.{Token};
ghost use Rattle.proc_macro2.specs.declared.delimiter.Delimiter.{Delimiter as GivenDelimiter};
ghost use Rattle.std.specs.Prelude.{◌≡◌, Bool, List, MatchOption, ℕ};
ghost use Rattle.syn_grammar.specs.Gram as g;
ghost use Rattle.syn_grammar.specs.Kind as k;
ghost use Rattle.syn_item.specs.ItemModules.{foreign_items, item_foreign_mod, item_mod, items, module_end_tree};
ghost use Rattle.syn_part.specs.Shape.{IsShaped};

use crate::part;
use crate::part::{Braced, as_braced};
use reader_table::kind::Kind;
use reader_table::part::Part;
use reader_tree::tree::Tree;
use rust_leaf::ident::Ident;
use syn_part::leaf::{Delimiters, Mark};
use syn_part::list::Turns;
use syn_part::name::Name;
use syn_part::take::{self, Choice};
use syn_part::{inside, joined};

/// An extern block: `unsafe extern "C" { .. }`, behind its attributes.
#[derive(Clone, Copy)]
pub struct ItemForeignMod<'t, 'a> {
    /// `unsafe`
    pub unsafety: Option<&'a Ident>,
    /// `extern "C"`
    pub abi: &'t Tree<'a>,
    /// The braces.
    pub brace_token: Delimiters,
    /// The attributes in them.
    pub attrs: &'t Tree<'a>,
    /// The items in them, as a form of the kind `ForeignItems`.
    pub items: &'t Tree<'a>,
}

impl<'t, 'a> ItemForeignMod<'t, 'a> {
    /// What a tree is, if it is that.
    #[tactic(auto, unfolding(syn_grammar::specs::Table::table))]
    pub fn of(tree: &'t Tree<'a>) -> Option<ItemForeignMod<'t, 'a>>
        ensures { MatchOption result (IsShaped tree.now (g.ref k.AForeignModule) → ⊥)
            (λ x. tree.now ≡ item_foreign_mod x) }
    {
        let Some((unsafety, abi, body)) = inside::three(Kind::AForeignModule, tree) else {
            return None;
        };
        let Some((unsafety, body)) = joined::two(
            inside::optional_word(Part::Safety, unsafety),
            as_braced(body),
        ) else {
            return None;
        };
        Some(ItemForeignMod {
            unsafety,
            abi,
            brace_token: body.brace_token,
            attrs: body.attrs,
            items: body.items,
        })
    }
}

/// A module: `mod a { .. }`, `mod a;`, behind its attributes and its visibility.
#[derive(Clone, Copy)]
pub struct ItemMod<'t, 'a> {
    /// `unsafe`
    pub unsafety: Option<&'a Ident>,
    /// `mod`
    pub mod_token: &'a Ident,
    /// Its name.
    pub ident: Name<'a>,
    /// What stands in it.
    pub content: Option<Braced<'t, 'a>>,
    /// `;`, where that stands elsewhere.
    pub semi: Option<Mark>,
}

impl<'t, 'a> ItemMod<'t, 'a> {
    /// What a tree is, if it is that.
    #[tactic(auto, unfolding(syn_grammar::specs::Table::table))]
    pub fn of(tree: &'t Tree<'a>) -> Option<ItemMod<'t, 'a>>
        ensures { MatchOption result (IsShaped tree.now (g.ref k.AModule) → ⊥) (λ x. tree.now ≡ item_mod x) }
    {
        let Some((unsafety, mod_token, ident, end)) = inside::four(Kind::AModule, tree) else {
            return None;
        };
        let Some((content, semi)) = module_end(end) else {
            return None;
        };
        let Some((unsafety, mod_token, ident)) = joined::three(
            inside::optional_word(Part::Safety, unsafety),
            take::word(mod_token),
            part::name_or(ident),
        ) else {
            return None;
        };
        Some(ItemMod {
            unsafety,
            mod_token,
            ident,
            content,
            semi,
        })
    }
}

// What stands in a module, or `;`.
fn module_end<'t, 'a>(tree: &'t Tree<'a>) -> Option<(Option<Braced<'t, 'a>>, Option<Mark>)>
    ensures { MatchOption result ((s : List Token → Bool) (c : ℕ) (cs : List ℕ) (d : GivenDelimiter) (a b : g.Gram)
        → IsShaped tree.now (g.alt s (g.mark c cs) (g.group d (g.seq a b))) → ⊥)
        (λ p. tree.now ≡ module_end_tree p.0 p.1) }
{
    match take::chosen(tree) {
        Some(Choice::First(inner)) => {
            let semi = take::mark(inner)?;
            Some((None, Some(semi)))
        }
        Some(Choice::Second(inner)) => {
            let content = as_braced(inner)?;
            Some((Some(content), None))
        }
        None => None,
    }
}

/// Items.
#[derive(Clone, Copy)]
pub struct Items<'t, 'a> {
    /// Each, as a form of the kind `AnItem`.
    pub items: Turns<'t, 'a>,
}

impl<'t, 'a> Items<'t, 'a> {
    /// What a tree is, if it is that.
    #[tactic(auto, unfolding(syn_grammar::specs::Table::table))]
    pub fn of(tree: &'t Tree<'a>) -> Option<Items<'t, 'a>>
        ensures { MatchOption result (IsShaped tree.now (g.ref k.Items) → ⊥) (λ x. tree.now ≡ items x) }
    {
        let Some(inner) = inside::node(Kind::Items, tree) else {
            return None;
        };
        let Some(items) = take::each_turn(inner) else {
            return None;
        };
        Some(Items { items })
    }
}

/// The items of an extern block.
#[derive(Clone, Copy)]
pub struct ForeignItems<'t, 'a> {
    /// Each, as a form of the kind `AForeignItem`.
    pub items: Turns<'t, 'a>,
}

impl<'t, 'a> ForeignItems<'t, 'a> {
    /// What a tree is, if it is that.
    #[tactic(auto, unfolding(syn_grammar::specs::Table::table))]
    pub fn of(tree: &'t Tree<'a>) -> Option<ForeignItems<'t, 'a>>
        ensures { MatchOption result (IsShaped tree.now (g.ref k.ForeignItems) → ⊥) (λ x. tree.now ≡ foreign_items x) }
    {
        let Some(inner) = inside::node(Kind::ForeignItems, tree) else {
            return None;
        };
        let Some(items) = take::each_turn(inner) else {
            return None;
        };
        Some(ForeignItems { items })
    }
}
