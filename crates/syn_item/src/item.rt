//! Items, by their form.

ghost use Rattle.std.specs.Prelude.{◌≡◌, MatchOption, cond};
ghost use Rattle.syn_grammar.specs.Gram as g;
ghost use Rattle.syn_grammar.specs.Items.{trait_form};
ghost use Rattle.syn_grammar.specs.Kind as k;
ghost use Rattle.syn_grammar.specs.Lists.{item_form};
ghost use Rattle.syn_grammar.specs.Name as n;
ghost use Rattle.syn_grammar.specs.Tree as t;
ghost use Rattle.syn_item.specs.ItemForms.{HasForm, HasNoBody, Is, IsFunction, IsItem, IsMacro, IsNoOther, IsOf};
ghost use Rattle.syn_item.specs.ItemForms.{IsTypeAlias, MayBeKept, form_behind};
ghost use Rattle.syn_part.specs.Shape.{IsAmong, IsShaped};

use crate::judged::{Judged, verdict_on};
use reader_table::kind::Kind;
use reader_table::part::Part;
use reader_tree::tree::Tree;
use syn_part::inside;
use syn_part::take::{self, Choice};

/// Which form an item has.
#[derive(Clone, Copy)]
pub enum ItemForm {
    /// A constant, as `ItemConst` has it.
    Const,
    /// An enum.
    Enum,
    /// A crate.
    ExternCrate,
    /// A function, as `ItemFn` has it.
    Fn,
    /// An extern block, as `ItemForeignMod` has it.
    ForeignMod,
    /// An impl, as `ItemImpl` has it.
    Impl,
    /// A macro, as `ItemMacro` has it.
    Macro,
    /// A module, as `ItemMod` has it.
    Mod,
    /// A static.
    Static,
    /// A struct.
    Struct,
    /// A trait, as `ItemTrait` has it.
    Trait,
    /// An alias of traits, as `ItemTraitAlias` has it.
    TraitAlias,
    /// A type, as `ItemType` has it.
    Type,
    /// A union.
    Union,
    /// A use declaration; what it names is `UseTop`.
    Use,
    /// One that is kept as its tokens.
    Verbatim,
}

/// An item, by its form.
#[derive(Clone, Copy)]
pub struct Item<'t, 'a> {
    /// Which form it has.
    pub form: ItemForm,
    /// That form, as its own type has it; of one that is kept as its tokens, all that was read, whose leaves they are,
    /// attributes and visibility among them.
    pub tree: &'t Tree<'a>,
}

// Whether it is a constant.
#[tactic(auto, unfolding(syn_grammar::specs::Table::table))]
fn is_const(tree: &Tree<'_>) -> bool
    ensures { cond result (IsOf k.AConst tree.now) (IsShaped tree.now (g.ref k.AConst) → ⊥) }
{
    let Some(_) = inside::node(Kind::AConst, tree) else {
        return false;
    };
    true
}

// Whether it is an enum.
#[tactic(auto, unfolding(syn_grammar::specs::Table::table))]
fn is_enum(tree: &Tree<'_>) -> bool
    ensures { cond result (IsOf k.AnEnum tree.now) (IsShaped tree.now (g.ref k.AnEnum) → ⊥) }
{
    let Some(_) = inside::node(Kind::AnEnum, tree) else {
        return false;
    };
    true
}

// Whether it is a crate.
#[tactic(auto, unfolding(syn_grammar::specs::Table::table))]
fn is_extern_crate(tree: &Tree<'_>) -> bool
    ensures { cond result (IsOf k.AnExternCrate tree.now) (IsShaped tree.now (g.ref k.AnExternCrate) → ⊥) }
{
    let Some(_) = inside::node(Kind::AnExternCrate, tree) else {
        return false;
    };
    true
}

// Whether it is a function.
#[tactic(auto, unfolding(syn_grammar::specs::Table::table))]
fn is_function(tree: &Tree<'_>) -> bool
    ensures { cond result (IsFunction tree.now) ((p : k.Place) → IsShaped tree.now (g.ref (k.AFunction p)) → ⊥) }
{
    let Some((Kind::AFunction(_), _)) = take::node(tree) else {
        return false;
    };
    true
}

// Whether it is an extern block.
#[tactic(auto, unfolding(syn_grammar::specs::Table::table))]
fn is_foreign_mod(tree: &Tree<'_>) -> bool
    ensures { cond result (IsOf k.AForeignModule tree.now) (IsShaped tree.now (g.ref k.AForeignModule) → ⊥) }
{
    let Some(_) = inside::node(Kind::AForeignModule, tree) else {
        return false;
    };
    true
}

// Whether it is an impl.
#[tactic(auto, unfolding(syn_grammar::specs::Table::table))]
fn is_impl(tree: &Tree<'_>) -> bool
    ensures { cond result (IsOf k.AnImpl tree.now) (IsShaped tree.now (g.ref k.AnImpl) → ⊥) }
{
    let Some(_) = inside::node(Kind::AnImpl, tree) else {
        return false;
    };
    true
}

// Whether it is a macro.
#[tactic(auto, unfolding(syn_grammar::specs::Table::table))]
fn is_macro(tree: &Tree<'_>) -> bool
    ensures { cond result (IsMacro tree.now) ((p : k.Place) → IsShaped tree.now (g.ref (k.ItemMacro p)) → ⊥) }
{
    let Some((Kind::ItemMacro(_), _)) = take::node(tree) else {
        return false;
    };
    true
}

// Whether it is a module.
#[tactic(auto, unfolding(syn_grammar::specs::Table::table))]
fn is_mod(tree: &Tree<'_>) -> bool
    ensures { cond result (IsOf k.AModule tree.now) (IsShaped tree.now (g.ref k.AModule) → ⊥) }
{
    let Some(_) = inside::node(Kind::AModule, tree) else {
        return false;
    };
    true
}

// Whether it is a static.
#[tactic(auto, unfolding(syn_grammar::specs::Table::table))]
fn is_static(tree: &Tree<'_>) -> bool
    ensures { cond result (IsOf k.AStatic tree.now) (IsShaped tree.now (g.ref k.AStatic) → ⊥) }
{
    let Some(_) = inside::node(Kind::AStatic, tree) else {
        return false;
    };
    true
}

// Whether it is a struct.
#[tactic(auto, unfolding(syn_grammar::specs::Table::table))]
fn is_struct(tree: &Tree<'_>) -> bool
    ensures { cond result (IsOf k.AStruct tree.now) (IsShaped tree.now (g.ref k.AStruct) → ⊥) }
{
    let Some(_) = inside::node(Kind::AStruct, tree) else {
        return false;
    };
    true
}

// Whether it is a type.
#[tactic(auto, unfolding(syn_grammar::specs::Table::table))]
fn is_type(tree: &Tree<'_>) -> bool
    ensures { cond result (IsTypeAlias tree.now) ((p : k.Place) → IsShaped tree.now (g.ref (k.ATypeAlias p)) → ⊥) }
{
    let Some((Kind::ATypeAlias(_), _)) = take::node(tree) else {
        return false;
    };
    true
}

// Whether it is a union.
#[tactic(auto, unfolding(syn_grammar::specs::Table::table))]
fn is_union(tree: &Tree<'_>) -> bool
    ensures { cond result (IsOf k.AUnion tree.now) (IsShaped tree.now (g.ref k.AUnion) → ⊥) }
{
    let Some(_) = inside::node(Kind::AUnion, tree) else {
        return false;
    };
    true
}

// Whether it is a use declaration.
#[tactic(auto, unfolding(syn_grammar::specs::Table::table))]
fn is_use(tree: &Tree<'_>) -> bool
    ensures { cond result (IsOf k.AUse tree.now) (IsShaped tree.now (g.ref k.AUse) → ⊥) }
{
    let Some(_) = inside::node(Kind::AUse, tree) else {
        return false;
    };
    true
}

// Whether it is a trait or an alias, by what it begins with.
fn trait_or_alias(tree: &Tree<'_>) -> Option<ItemForm>
    ensures { MatchOption result (IsShaped tree.now trait_form → ⊥)
        (λ f. HasForm f (t.Node k.ATrait (t.First tree.now)) × HasForm f (t.Node k.ATrait (t.Verbatim tree.now))) }
{
    let Some((_, _, _, _, _, end)) = take::six(tree) else {
        return None;
    };
    match take::chosen(end) {
        Some(Choice::First(_)) => Some(ItemForm::TraitAlias),
        Some(Choice::Second(_)) => Some(ItemForm::Trait),
        None => None,
    }
}

// Whether it is a trait or an alias.
#[tactic(auto, unfolding(syn_grammar::specs::Table::table))]
fn as_trait(tree: &Tree<'_>) -> Option<ItemForm>
    ensures { MatchOption result (IsShaped tree.now (g.ref k.ATrait) → ⊥) (λ f. HasForm f tree.now) }
{
    let Some(inner) = inside::node(Kind::ATrait, tree) else {
        return None;
    };
    let Some(found) = verdict_on(inner) else {
        return None;
    };
    match found {
        Judged::Kept(form) => trait_or_alias(form),
        Judged::Raw(form) => trait_or_alias(form),
    }
}

// One that has a body or a value.
fn with_body(tree: &Tree<'_>) -> Option<ItemForm>
    ensures { MatchOption result (HasNoBody tree.now) (λ f. HasForm f tree.now) }
{
    if is_const(tree) {
        return Some(ItemForm::Const);
    }
    if is_enum(tree) {
        return Some(ItemForm::Enum);
    }
    if is_extern_crate(tree) {
        return Some(ItemForm::ExternCrate);
    }
    if is_function(tree) {
        return Some(ItemForm::Fn);
    }
    if is_foreign_mod(tree) {
        return Some(ItemForm::ForeignMod);
    }
    if is_impl(tree) {
        return Some(ItemForm::Impl);
    }
    if is_macro(tree) {
        return Some(ItemForm::Macro);
    }
    if is_mod(tree) {
        return Some(ItemForm::Mod);
    }
    None
}

// Another.
fn other(tree: &Tree<'_>) -> Option<ItemForm>
    ensures { MatchOption result (IsNoOther tree.now) (λ f. HasForm f tree.now) }
{
    if is_static(tree) {
        return Some(ItemForm::Static);
    }
    if is_struct(tree) {
        return Some(ItemForm::Struct);
    }
    if let Some(form) = as_trait(tree) {
        return Some(form);
    }
    if is_type(tree) {
        return Some(ItemForm::Type);
    }
    if is_union(tree) {
        return Some(ItemForm::Union);
    }
    if is_use(tree) {
        return Some(ItemForm::Use);
    }
    None
}

// The form that a tree is of, if it is one of an item.
#[tactic(auto, using(crate::proofs::ItemKinds::no_item))]
fn form_of(tree: &Tree<'_>) -> Option<ItemForm>
    ensures { MatchOption result (MayBeKept tree.now → IsAmong tree.now item_form → ⊥) (λ f. HasForm f tree.now) }
{
    match with_body(tree) {
        Some(found) => Some(found),
        None => match other(tree) {
            Some(found) => Some(found),
            None => None,
        },
    }
}

impl<'t, 'a> Item<'t, 'a> {
    // One that is kept as it was read.
    #[tactic(auto, using(crate::proofs::ItemKinds::no_kept))]
    fn kept(tree: &'t Tree<'a>) -> Option<Item<'t, 'a>>
        ensures { MatchOption result ((a b : g.Gram) → MayBeKept (form_behind tree.now) → IsShaped tree.now (g.seq a
            (g.seq b (g.called n.the_item item_form))) → ⊥)
            (λ x. (form_behind tree.now ≡ x.tree.now) × HasForm x.form x.tree.now) }
    {
        let Some((_, _, item)) = take::three(tree) else {
            return None;
        };
        let Some(item) = inside::part(Part::Item, item) else {
            return None;
        };
        let tree = item.choice();
        let Some(form) = form_of(tree) else {
            return None;
        };
        Some(Item { form, tree })
    }

    /// The item that a tree is, by its form, if the tree is an item.
    #[tactic(auto, unfolding(syn_grammar::specs::Table::table))]
    pub fn of(tree: &'t Tree<'a>) -> Option<Item<'t, 'a>>
        ensures { MatchOption result (IsItem tree.now → IsShaped tree.now (g.ref k.AnItem) → ⊥) (λ x. Is tree.now x) }
    {
        let Some(inner) = inside::node(Kind::AnItem, tree) else {
            return None;
        };
        let Some(found) = verdict_on(inner) else {
            return None;
        };
        match found {
            Judged::Kept(parts) => match Item::kept(parts) {
                Some(found) => Some(found),
                None => None,
            },
            Judged::Raw(tree) => Some(Item {
                form: ItemForm::Verbatim,
                tree,
            }),
        }
    }
}
