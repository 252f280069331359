//! Traits and aliases of traits.

ghost use Rattle.std.specs.Prelude.{◌≡◌, ◌↔◌, IsTrue};
ghost use Rattle.syn_item.specs.ItemTraits.{item_trait, item_trait_alias, trait_form_tree, trait_items};
ghost use Rattle.syn_made.specs.MadeWhole.{IsAliasHead, IsTraitHead};

use crate::forms::{Called, First, Grouped, Second};
use crate::item::part::MaybeCalled;
use crate::put::node;
use crate::to_tree::ToTree;
use crate::try_to_tree::TryToTree;
use reader_table::kind::Kind;
use reader_table::part::Part;
use reader_tree::arena::Arena;
use reader_tree::tree::Tree;
use rust_leaf::ident::Ident;
use std::alloc::AllocError;
use syn_item::traits::{ItemTrait, ItemTraitAlias, TraitForm, TraitItems};

impl<'t, 'a> ToTree<'a> for ItemTrait<'t, 'a> {
    ghost tree = { item_trait };

    fn to_tree(&self, arena: &'a Arena) -> Result<Tree<'a>, AllocError> {
        let unsafety = MaybeCalled(Part::Safety, self.unsafety);
        let auto_token = MaybeCalled(Part::Auto, self.modifiers.auto_token);
        let where_clause = Called(Part::Where, self.where_clause);
        let body = Grouped(self.brace_token, (self.attrs, self.items));
        let end = Second((self.supertraits, where_clause, body));
        let named = (
            Called(Part::Name, self.ident),
            Called(Part::Generics, self.generics),
            end,
        );
        let inside = (unsafety, auto_token, self.trait_token, named);
        node(arena, Kind::ATrait, &First(inside))
    }
}

// Whether an alias may have these words: it is neither `unsafe` nor `auto`.
fn is_alias_head(unsafety: Option<&Ident>, auto_token: Option<&Ident>) -> bool
    ensures { IsTrue result ↔ IsAliasHead unsafety.entry auto_token.entry }
{
    match (unsafety, auto_token) {
        (None, None) => true,
        (None, Some(_)) => false,
        (Some(_), _) => false,
    }
}

impl<'t, 'a> TryToTree<'a> for ItemTraitAlias<'t, 'a> {
    ghost says = { λ x tree. IsAliasHead x.unsafety x.auto_token × (tree ≡ item_trait_alias x) };

    fn try_to_tree(&self, arena: &'a Arena) -> Result<Option<Tree<'a>>, AllocError> {
        if !is_alias_head(self.unsafety, self.auto_token) {
            return Ok(None);
        }
        let unsafety = MaybeCalled(Part::Safety, self.unsafety);
        let auto_token = MaybeCalled(Part::Auto, self.auto_token);
        let equals = Called(Part::Equals, self.eq_token);
        let where_clause = Called(Part::Where, self.where_clause);
        let end = First((equals, self.bounds, where_clause, self.semi_token));
        let named = (
            Called(Part::Name, self.ident),
            Called(Part::Generics, self.generics),
            end,
        );
        let inside = (unsafety, auto_token, self.trait_token, named);
        Ok(Some(node(arena, Kind::ATrait, &First(inside))?))
    }
}

impl<'t, 'a> TryToTree<'a> for TraitForm<'t, 'a> {
    ghost says = { λ x tree. IsTraitHead x × (tree ≡ trait_form_tree x) };

    #[tactic(auto, using(crate::proofs::TraitForms::no_alias))]
    fn try_to_tree(&self, arena: &'a Arena) -> Result<Option<Tree<'a>>, AllocError> {
        match *self {
            TraitForm::Trait(item) => Ok(Some(item.to_tree(arena)?)),
            TraitForm::Alias(item) => match item.try_to_tree(arena)? {
                Some(tree) => Ok(Some(tree)),
                None => Ok(None),
            },
        }
    }
}

impl<'t, 'a> ToTree<'a> for TraitItems<'t, 'a> {
    ghost tree = { trait_items };

    fn to_tree(&self, arena: &'a Arena) -> Result<Tree<'a>, AllocError> {
        node(arena, Kind::TraitItems, &self.items)
    }
}
