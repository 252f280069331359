//! What stands in traits, impls and extern blocks, read by itself: of each the kind that reads that form alone.

ghost use Rattle.reader_table.specs.Kinds.{kind_of};
ghost use Rattle.std.specs.Prelude.{◌≡◌};
ghost use Rattle.syn_typed.specs.OneMember.{IsOneMember};
ghost use Rattle.syn_grammar.specs.Kind as k;
ghost use Rattle.syn_item.specs.ItemEntries.{one_macro};

use crate::typed::Parse;
use reader_table::kind::{Kind, Place};
use reader_tree::tree::Tree;
use syn_item::entry::{OneMacro, PlacedParts};

/// A function of a trait, read by itself.
#[derive(Clone, Copy)]
pub struct OneTraitItemFn<'a> {
    /// Its attributes, its visibility and itself, of which `ItemFn::of` is asked.
    pub parts: PlacedParts<'a, 'a>,
}

impl<'a> Parse<'a> for OneTraitItemFn<'a> {
    ghost kind = { k.OneFunction k.InTrait };

    ghost says = { λ x tree. IsOneMember k.OneFunction x.parts tree };

    fn kind() -> Kind
        ensures { kind_of result ≡ k.OneFunction k.InTrait }
    {
        Kind::OneFunction(Place::InTrait)
    }

    fn view(tree: &'a Tree<'a>) -> Option<OneTraitItemFn<'a>> {
        match PlacedParts::one_function(tree) {
            Some(parts) => Some(OneTraitItemFn { parts }),
            None => None,
        }
    }
}

/// A constant of a trait, read by itself.
#[derive(Clone, Copy)]
pub struct OneTraitItemConst<'a> {
    /// Its attributes, its visibility and itself, of which `ItemConst::of` is asked.
    pub parts: PlacedParts<'a, 'a>,
}

impl<'a> Parse<'a> for OneTraitItemConst<'a> {
    ghost kind = { k.OneConst k.InTrait };

    ghost says = { λ x tree. IsOneMember k.OneConst x.parts tree };

    fn kind() -> Kind
        ensures { kind_of result ≡ k.OneConst k.InTrait }
    {
        Kind::OneConst(Place::InTrait)
    }

    fn view(tree: &'a Tree<'a>) -> Option<OneTraitItemConst<'a>> {
        match PlacedParts::one_const(tree) {
            Some(parts) => Some(OneTraitItemConst { parts }),
            None => None,
        }
    }
}

/// A type of a trait, read by itself.
#[derive(Clone, Copy)]
pub struct OneTraitItemType<'a> {
    /// Its attributes, its visibility and itself, of which `ItemType::of` is asked.
    pub parts: PlacedParts<'a, 'a>,
}

impl<'a> Parse<'a> for OneTraitItemType<'a> {
    ghost kind = { k.OneTypeAlias k.InTrait };

    ghost says = { λ x tree. IsOneMember k.OneTypeAlias x.parts tree };

    fn kind() -> Kind
        ensures { kind_of result ≡ k.OneTypeAlias k.InTrait }
    {
        Kind::OneTypeAlias(Place::InTrait)
    }

    fn view(tree: &'a Tree<'a>) -> Option<OneTraitItemType<'a>> {
        match PlacedParts::one_type_alias(tree) {
            Some(parts) => Some(OneTraitItemType { parts }),
            None => None,
        }
    }
}

/// A function of an impl, read by itself.
#[derive(Clone, Copy)]
pub struct OneImplItemFn<'a> {
    /// Its attributes, its visibility and itself, of which `ItemFn::of` is asked.
    pub parts: PlacedParts<'a, 'a>,
}

impl<'a> Parse<'a> for OneImplItemFn<'a> {
    ghost kind = { k.OneFunction k.InImpl };

    ghost says = { λ x tree. IsOneMember k.OneFunction x.parts tree };

    fn kind() -> Kind
        ensures { kind_of result ≡ k.OneFunction k.InImpl }
    {
        Kind::OneFunction(Place::InImpl)
    }

    fn view(tree: &'a Tree<'a>) -> Option<OneImplItemFn<'a>> {
        match PlacedParts::one_function(tree) {
            Some(parts) => Some(OneImplItemFn { parts }),
            None => None,
        }
    }
}

/// A constant of an impl, read by itself.
#[derive(Clone, Copy)]
pub struct OneImplItemConst<'a> {
    /// Its attributes, its visibility and itself, of which `ItemConst::of` is asked.
    pub parts: PlacedParts<'a, 'a>,
}

impl<'a> Parse<'a> for OneImplItemConst<'a> {
    ghost kind = { k.OneConst k.InImpl };

    ghost says = { λ x tree. IsOneMember k.OneConst x.parts tree };

    fn kind() -> Kind
        ensures { kind_of result ≡ k.OneConst k.InImpl }
    {
        Kind::OneConst(Place::InImpl)
    }

    fn view(tree: &'a Tree<'a>) -> Option<OneImplItemConst<'a>> {
        match PlacedParts::one_const(tree) {
            Some(parts) => Some(OneImplItemConst { parts }),
            None => None,
        }
    }
}

/// A type of an impl, read by itself.
#[derive(Clone, Copy)]
pub struct OneImplItemType<'a> {
    /// Its attributes, its visibility and itself, of which `ItemType::of` is asked.
    pub parts: PlacedParts<'a, 'a>,
}

impl<'a> Parse<'a> for OneImplItemType<'a> {
    ghost kind = { k.OneTypeAlias k.InImpl };

    ghost says = { λ x tree. IsOneMember k.OneTypeAlias x.parts tree };

    fn kind() -> Kind
        ensures { kind_of result ≡ k.OneTypeAlias k.InImpl }
    {
        Kind::OneTypeAlias(Place::InImpl)
    }

    fn view(tree: &'a Tree<'a>) -> Option<OneImplItemType<'a>> {
        match PlacedParts::one_type_alias(tree) {
            Some(parts) => Some(OneImplItemType { parts }),
            None => None,
        }
    }
}

/// A function of an extern block, read by itself.
#[derive(Clone, Copy)]
pub struct OneForeignItemFn<'a> {
    /// Its attributes, its visibility and itself, of which `ItemFn::of` is asked.
    pub parts: PlacedParts<'a, 'a>,
}

impl<'a> Parse<'a> for OneForeignItemFn<'a> {
    ghost kind = { k.OneFunction k.InForeign };

    ghost says = { λ x tree. IsOneMember k.OneFunction x.parts tree };

    fn kind() -> Kind
        ensures { kind_of result ≡ k.OneFunction k.InForeign }
    {
        Kind::OneFunction(Place::InForeign)
    }

    fn view(tree: &'a Tree<'a>) -> Option<OneForeignItemFn<'a>> {
        match PlacedParts::one_function(tree) {
            Some(parts) => Some(OneForeignItemFn { parts }),
            None => None,
        }
    }
}

/// A type of an extern block, read by itself.
#[derive(Clone, Copy)]
pub struct OneForeignItemType<'a> {
    /// Its attributes, its visibility and itself, of which `ItemType::of` is asked.
    pub parts: PlacedParts<'a, 'a>,
}

impl<'a> Parse<'a> for OneForeignItemType<'a> {
    ghost kind = { k.OneTypeAlias k.InForeign };

    ghost says = { λ x tree. IsOneMember k.OneTypeAlias x.parts tree };

    fn kind() -> Kind
        ensures { kind_of result ≡ k.OneTypeAlias k.InForeign }
    {
        Kind::OneTypeAlias(Place::InForeign)
    }

    fn view(tree: &'a Tree<'a>) -> Option<OneForeignItemType<'a>> {
        match PlacedParts::one_type_alias(tree) {
            Some(parts) => Some(OneForeignItemType { parts }),
            None => None,
        }
    }
}

/// A macro in a trait, read by itself.
#[derive(Clone, Copy)]
pub struct OneTraitItemMacro<'a> {
    /// Its attributes and itself.
    pub mac: OneMacro<'a, 'a>,
}

impl<'a> Parse<'a> for OneTraitItemMacro<'a> {
    ghost kind = { k.OneMacro k.InTrait };

    ghost says = { λ x tree. tree ≡ one_macro x.mac };

    fn kind() -> Kind
        ensures { kind_of result ≡ k.OneMacro k.InTrait }
    {
        Kind::OneMacro(Place::InTrait)
    }

    fn view(tree: &'a Tree<'a>) -> Option<OneTraitItemMacro<'a>> {
        match OneMacro::of(tree) {
            Some(mac) => Some(OneTraitItemMacro { mac }),
            None => None,
        }
    }
}

/// A macro in an impl, read by itself.
#[derive(Clone, Copy)]
pub struct OneImplItemMacro<'a> {
    /// Its attributes and itself.
    pub mac: OneMacro<'a, 'a>,
}

impl<'a> Parse<'a> for OneImplItemMacro<'a> {
    ghost kind = { k.OneMacro k.InImpl };

    ghost says = { λ x tree. tree ≡ one_macro x.mac };

    fn kind() -> Kind
        ensures { kind_of result ≡ k.OneMacro k.InImpl }
    {
        Kind::OneMacro(Place::InImpl)
    }

    fn view(tree: &'a Tree<'a>) -> Option<OneImplItemMacro<'a>> {
        match OneMacro::of(tree) {
            Some(mac) => Some(OneImplItemMacro { mac }),
            None => None,
        }
    }
}

/// A macro in an extern block, read by itself.
#[derive(Clone, Copy)]
pub struct OneForeignItemMacro<'a> {
    /// Its attributes and itself.
    pub mac: OneMacro<'a, 'a>,
}

impl<'a> Parse<'a> for OneForeignItemMacro<'a> {
    ghost kind = { k.OneMacro k.InForeign };

    ghost says = { λ x tree. tree ≡ one_macro x.mac };

    fn kind() -> Kind
        ensures { kind_of result ≡ k.OneMacro k.InForeign }
    {
        Kind::OneMacro(Place::InForeign)
    }

    fn view(tree: &'a Tree<'a>) -> Option<OneForeignItemMacro<'a>> {
        match OneMacro::of(tree) {
            Some(mac) => Some(OneForeignItemMacro { mac }),
            None => None,
        }
    }
}
