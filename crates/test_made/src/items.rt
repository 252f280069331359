//! Changes of items, and of the items of traits and extern blocks.

use crate::asked;
use crate::change::{By, Change, Unmade, mark, remade, remade_always, some_of};
use syn::{
    Arena, AssociatedItemTree, Delimiter, Delimiters, ForeignItemTree, Item, ItemEnum, ItemFn,
    ItemImpl, ItemMacro, ItemMod, ItemTrait, ItemTraitAlias, ItemType, MacroDelimiter, Name, Sign,
    Signature, Span, TraitForm, TraitModifiers, Tree, WhereOrder,
};

// A module without what stands in it, and whose items stand in another file where it is to be `outside`.
impl<'a> Change<'a> for ItemMod<'a, 'a> {
    fn changed(by: By<'_, 'a>, tree: &'a Tree<'a>) -> Option<ItemMod<'a, 'a>> {
        let found = ItemMod::of(tree)?;
        let semi = match by.change {
            "outside" => Some(mark(Sign::Semi)),
            _ => found.semi,
        };
        Some(ItemMod {
            content: None,
            semi,
            ..found
        })
    }
}

// A type's other name, its where clause before what it stands for.
impl<'a> Change<'a> for ItemType<'a, 'a> {
    fn changed(_by: By<'_, 'a>, tree: &'a Tree<'a>) -> Option<ItemType<'a, 'a>> {
        let found = ItemType::of(tree)?;
        Some(ItemType {
            where_order: WhereOrder::Before,
            ..found
        })
    }
}

// Braces that stand at no place of a text.
fn braces() -> MacroDelimiter {
    MacroDelimiter::Brace(Delimiters {
        delimiter: Delimiter::Brace,
        span: Span::call_site(),
    })
}

// A macro with a name, or without its semicolon, and with its tokens in braces or as they are.
impl<'a> Change<'a> for ItemMacro<'a, 'a> {
    fn changed(by: By<'_, 'a>, tree: &'a Tree<'a>) -> Option<ItemMacro<'a, 'a>> {
        let found = ItemMacro::of(tree)?;
        Some(match by.change {
            "named" => ItemMacro {
                ident: Some(Name::Ident(by.word)),
                ..found
            },
            "in braces" => ItemMacro {
                delimiter: braces(),
                semi_token: None,
                ..found
            },
            _ => ItemMacro {
                semi_token: None,
                ..found
            },
        })
    }
}

// An enum of some of its variants.
impl<'a> Change<'a> for ItemEnum<'a, 'a> {
    fn changed(by: By<'_, 'a>, tree: &'a Tree<'a>) -> Option<ItemEnum<'a, 'a>> {
        let found = ItemEnum::of(tree)?;
        let variants = some_of(by.change, found.variants);
        Some(ItemEnum { variants, ..found })
    }
}

// A trait without its `unsafe`, or behind `auto`.
fn changed_trait<'a>(by: By<'_, 'a>, found: ItemTrait<'a, 'a>) -> ItemTrait<'a, 'a> {
    match by.change {
        "safe" => ItemTrait {
            unsafety: None,
            ..found
        },
        _ => ItemTrait {
            modifiers: TraitModifiers {
                auto_token: Some(by.word),
            },
            ..found
        },
    }
}

// The same of an alias of traits.
fn changed_alias<'a>(by: By<'_, 'a>, found: ItemTraitAlias<'a, 'a>) -> ItemTraitAlias<'a, 'a> {
    match by.change {
        "safe" => ItemTraitAlias {
            unsafety: None,
            ..found
        },
        _ => ItemTraitAlias {
            auto_token: Some(by.word),
            ..found
        },
    }
}

// A trait, or an alias of traits, changed so.
impl<'a> Change<'a> for TraitForm<'a, 'a> {
    fn changed(by: By<'_, 'a>, tree: &'a Tree<'a>) -> Option<TraitForm<'a, 'a>> {
        Some(match TraitForm::of(tree)? {
            TraitForm::Trait(found) => TraitForm::Trait(changed_trait(by, found)),
            TraitForm::Alias(found) => TraitForm::Alias(changed_alias(by, found)),
        })
    }
}

// An impl of no trait.
impl<'a> Change<'a> for ItemImpl<'a, 'a> {
    fn changed(_by: By<'_, 'a>, tree: &'a Tree<'a>) -> Option<ItemImpl<'a, 'a>> {
        let found = ItemImpl::of(tree)?;
        Some(ItemImpl {
            trait_: None,
            ..found
        })
    }
}

// The form of an item in a trait or in an extern block, if a tree is one.
fn member_form<'t, 'a>(tree: &'t Tree<'a>) -> Option<&'t Tree<'a>> {
    match AssociatedItemTree::in_trait(tree) {
        Some(item) => Some(item.tree),
        None => Some(ForeignItemTree::of(tree)?.tree),
    }
}

// The form of an item, among others or there, if a tree is one.
fn form<'t, 'a>(tree: &'t Tree<'a>) -> Option<&'t Tree<'a>> {
    match Item::of(tree) {
        Some(item) => Some(item.tree),
        None => member_form(tree),
    }
}

/// The form of an item, changed so.
pub(crate) fn changed<'a>(
    kind: asked::Item,
    arena: &'a Arena,
    by: By<'_, 'a>,
    tree: &'a Tree<'a>,
) -> Result<Option<Tree<'a>>, Unmade> {
    let Some(form) = form(tree) else {
        return Err(Unmade::NoRow);
    };
    match kind {
        asked::Item::Fn => remade::<ItemFn>(arena, by, form),
        asked::Item::Signature => remade::<Signature>(arena, by, form),
        asked::Item::Mod => remade::<ItemMod>(arena, by, form),
        asked::Item::Type => remade::<ItemType>(arena, by, form),
        asked::Item::Macro => remade::<ItemMacro>(arena, by, form),
        asked::Item::Enum => remade_always::<ItemEnum>(arena, by, form),
        asked::Item::Trait => remade::<TraitForm>(arena, by, form),
        asked::Item::Impl => remade::<ItemImpl>(arena, by, form),
    }
}
