//! Structs as the enums that hold them.

ghost use Rattle.std.specs.Prelude.{◌≡◌};
ghost use Rattle.node_items.specs.declared.data.Fields.TheVariants as fields;
ghost use Rattle.node_items.specs.declared.derive.Data.TheVariants as sorts;
ghost use Rattle.node_items.specs.declared.function.FnArg.TheVariants as arguments;
ghost use Rattle.node_items.specs.declared.implement.ImplItem.TheVariants as impl_items;
ghost use Rattle.node_items.specs.declared.import.UseTree.TheVariants as imports;
ghost use Rattle.node_items.specs.declared.module.ForeignItem.TheVariants as foreign_items;
ghost use Rattle.node_items.specs.declared.traits.TraitItem.TheVariants as trait_items;

use crate::data::{Fields, FieldsNamed, FieldsUnnamed};
use crate::derive::{Data, DataEnum, DataStruct, DataUnion};
use crate::function::{FnArg, Receiver};
use crate::implement::{ImplItem, ImplItemConst, ImplItemFn, ImplItemMacro, ImplItemType};
use crate::import::{UseGlob, UseGroup, UseName, UsePath, UseRename, UseTree};
use crate::module::{
    ForeignItem, ForeignItemFn, ForeignItemMacro, ForeignItemStatic, ForeignItemType,
};
use crate::traits::{TraitItem, TraitItemConst, TraitItemFn, TraitItemMacro, TraitItemType};
use node_patterns::kinds::PatType;

impl<E> From<FieldsNamed<E>> for Fields<E> {
    ghost from_gives = { λ node made. made ≡ fields.Named node };

    /// The same as fields.
    fn from(node: FieldsNamed<E>) -> Fields<E> {
        Fields::Named(node)
    }
}

impl<E> From<FieldsUnnamed<E>> for Fields<E> {
    ghost from_gives = { λ node made. made ≡ fields.Unnamed node };

    /// The same as fields.
    fn from(node: FieldsUnnamed<E>) -> Fields<E> {
        Fields::Unnamed(node)
    }
}

impl From<UsePath> for UseTree {
    ghost from_gives = { λ node made. made ≡ imports.Path node };

    /// The same as an import.
    fn from(node: UsePath) -> UseTree {
        UseTree::Path(node)
    }
}

impl From<UseName> for UseTree {
    ghost from_gives = { λ node made. made ≡ imports.Name node };

    /// The same as an import.
    fn from(node: UseName) -> UseTree {
        UseTree::Name(node)
    }
}

impl From<UseRename> for UseTree {
    ghost from_gives = { λ node made. made ≡ imports.Rename node };

    /// The same as an import.
    fn from(node: UseRename) -> UseTree {
        UseTree::Rename(node)
    }
}

impl From<UseGlob> for UseTree {
    ghost from_gives = { λ node made. made ≡ imports.Glob node };

    /// The same as an import.
    fn from(node: UseGlob) -> UseTree {
        UseTree::Glob(node)
    }
}

impl From<UseGroup> for UseTree {
    ghost from_gives = { λ node made. made ≡ imports.Group node };

    /// The same as an import.
    fn from(node: UseGroup) -> UseTree {
        UseTree::Group(node)
    }
}

impl<E> From<ForeignItemFn<E>> for ForeignItem<E> {
    ghost from_gives = { λ node made. made ≡ foreign_items.Fn node };

    /// The same as a foreign item.
    fn from(node: ForeignItemFn<E>) -> ForeignItem<E> {
        ForeignItem::Fn(node)
    }
}

impl<E> From<ForeignItemStatic<E>> for ForeignItem<E> {
    ghost from_gives = { λ node made. made ≡ foreign_items.Static node };

    /// The same as a foreign item.
    fn from(node: ForeignItemStatic<E>) -> ForeignItem<E> {
        ForeignItem::Static(node)
    }
}

impl<E> From<ForeignItemType<E>> for ForeignItem<E> {
    ghost from_gives = { λ node made. made ≡ foreign_items.«Type» node };

    /// The same as a foreign item.
    fn from(node: ForeignItemType<E>) -> ForeignItem<E> {
        ForeignItem::Type(node)
    }
}

impl<E> From<ForeignItemMacro<E>> for ForeignItem<E> {
    ghost from_gives = { λ node made. made ≡ foreign_items.Macro node };

    /// The same as a foreign item.
    fn from(node: ForeignItemMacro<E>) -> ForeignItem<E> {
        ForeignItem::Macro(node)
    }
}

impl<E> From<TraitItemConst<E>> for TraitItem<E> {
    ghost from_gives = { λ node made. made ≡ trait_items.Const node };

    /// The same as an item of a trait.
    fn from(node: TraitItemConst<E>) -> TraitItem<E> {
        TraitItem::Const(node)
    }
}

impl<E> From<TraitItemFn<E>> for TraitItem<E> {
    ghost from_gives = { λ node made. made ≡ trait_items.Fn node };

    /// The same as an item of a trait.
    fn from(node: TraitItemFn<E>) -> TraitItem<E> {
        TraitItem::Fn(node)
    }
}

impl<E> From<TraitItemType<E>> for TraitItem<E> {
    ghost from_gives = { λ node made. made ≡ trait_items.«Type» node };

    /// The same as an item of a trait.
    fn from(node: TraitItemType<E>) -> TraitItem<E> {
        TraitItem::Type(node)
    }
}

impl<E> From<TraitItemMacro<E>> for TraitItem<E> {
    ghost from_gives = { λ node made. made ≡ trait_items.Macro node };

    /// The same as an item of a trait.
    fn from(node: TraitItemMacro<E>) -> TraitItem<E> {
        TraitItem::Macro(node)
    }
}

impl<E> From<ImplItemConst<E>> for ImplItem<E> {
    ghost from_gives = { λ node made. made ≡ impl_items.Const node };

    /// The same as an item of an impl.
    fn from(node: ImplItemConst<E>) -> ImplItem<E> {
        ImplItem::Const(node)
    }
}

impl<E> From<ImplItemFn<E>> for ImplItem<E> {
    ghost from_gives = { λ node made. made ≡ impl_items.Fn node };

    /// The same as an item of an impl.
    fn from(node: ImplItemFn<E>) -> ImplItem<E> {
        ImplItem::Fn(node)
    }
}

impl<E> From<ImplItemType<E>> for ImplItem<E> {
    ghost from_gives = { λ node made. made ≡ impl_items.«Type» node };

    /// The same as an item of an impl.
    fn from(node: ImplItemType<E>) -> ImplItem<E> {
        ImplItem::Type(node)
    }
}

impl<E> From<ImplItemMacro<E>> for ImplItem<E> {
    ghost from_gives = { λ node made. made ≡ impl_items.Macro node };

    /// The same as an item of an impl.
    fn from(node: ImplItemMacro<E>) -> ImplItem<E> {
        ImplItem::Macro(node)
    }
}

impl<E> From<Receiver<E>> for FnArg<E> {
    ghost from_gives = { λ node made. made ≡ arguments.Receiver node };

    /// The same as a parameter.
    fn from(node: Receiver<E>) -> FnArg<E> {
        FnArg::Receiver(node)
    }
}

impl<E> From<PatType<E>> for FnArg<E> {
    ghost from_gives = { λ node made. made ≡ arguments.Typed node };

    /// The same as a parameter.
    fn from(node: PatType<E>) -> FnArg<E> {
        FnArg::Typed(node)
    }
}

impl<E> From<DataStruct<E>> for Data<E> {
    ghost from_gives = { λ node made. made ≡ sorts.Struct node };

    /// The same as what a derive reads.
    fn from(node: DataStruct<E>) -> Data<E> {
        Data::Struct(node)
    }
}

impl<E> From<DataEnum<E>> for Data<E> {
    ghost from_gives = { λ node made. made ≡ sorts.Enum node };

    /// The same as what a derive reads.
    fn from(node: DataEnum<E>) -> Data<E> {
        Data::Enum(node)
    }
}

impl<E> From<DataUnion<E>> for Data<E> {
    ghost from_gives = { λ node made. made ≡ sorts.Union node };

    /// The same as what a derive reads.
    fn from(node: DataUnion<E>) -> Data<E> {
        Data::Union(node)
    }
}
