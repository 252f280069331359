//! Forms of items, as the enums that hold them.

ghost use Rattle.std.specs.Prelude.{◌≡◌};
ghost use Rattle.syn_members.specs.declared.associated.AssociatedItem.TheVariants as members;
ghost use Rattle.syn_members.specs.declared.foreign.ForeignItem.TheVariants as foreigns;

use crate::associated::AssociatedItem;
use crate::foreign::ForeignItem;
use syn_item::alias::ItemType;
use syn_item::constant::ItemConst;
use syn_item::function::ItemFn;
use syn_item::macros::ItemMacro;
use syn_item::members::ForeignStatic;

impl<'t, 'a> From<ItemConst<'t, 'a>> for AssociatedItem<'t, 'a> {
    ghost from_gives = { λ form whole. whole ≡ members.Const form };

    fn from(form: ItemConst<'t, 'a>) -> AssociatedItem<'t, 'a> {
        AssociatedItem::Const(form)
    }
}

impl<'t, 'a> From<ItemFn<'t, 'a>> for AssociatedItem<'t, 'a> {
    ghost from_gives = { λ form whole. whole ≡ members.Fn form };

    fn from(form: ItemFn<'t, 'a>) -> AssociatedItem<'t, 'a> {
        AssociatedItem::Fn(form)
    }
}

impl<'t, 'a> From<ItemType<'t, 'a>> for AssociatedItem<'t, 'a> {
    ghost from_gives = { λ form whole. whole ≡ members.Type form };

    fn from(form: ItemType<'t, 'a>) -> AssociatedItem<'t, 'a> {
        AssociatedItem::Type(form)
    }
}

impl<'t, 'a> From<ItemMacro<'t, 'a>> for AssociatedItem<'t, 'a> {
    ghost from_gives = { λ form whole. whole ≡ members.Macro form };

    fn from(form: ItemMacro<'t, 'a>) -> AssociatedItem<'t, 'a> {
        AssociatedItem::Macro(form)
    }
}

impl<'t, 'a> From<ItemFn<'t, 'a>> for ForeignItem<'t, 'a> {
    ghost from_gives = { λ form whole. whole ≡ foreigns.Fn form };

    fn from(form: ItemFn<'t, 'a>) -> ForeignItem<'t, 'a> {
        ForeignItem::Fn(form)
    }
}

impl<'t, 'a> From<ForeignStatic<'t, 'a>> for ForeignItem<'t, 'a> {
    ghost from_gives = { λ form whole. whole ≡ foreigns.Static form };

    fn from(form: ForeignStatic<'t, 'a>) -> ForeignItem<'t, 'a> {
        ForeignItem::Static(form)
    }
}

impl<'t, 'a> From<ItemType<'t, 'a>> for ForeignItem<'t, 'a> {
    ghost from_gives = { λ form whole. whole ≡ foreigns.Type form };

    fn from(form: ItemType<'t, 'a>) -> ForeignItem<'t, 'a> {
        ForeignItem::Type(form)
    }
}

impl<'t, 'a> From<ItemMacro<'t, 'a>> for ForeignItem<'t, 'a> {
    ghost from_gives = { λ form whole. whole ≡ foreigns.Macro form };

    fn from(form: ItemMacro<'t, 'a>) -> ForeignItem<'t, 'a> {
        ForeignItem::Macro(form)
    }
}
