//! Fields and items of data, as the enums that hold them.

ghost use Rattle.std.specs.Prelude.{◌≡◌};
ghost use Rattle.syn_data.specs.declared.data.Fields.TheVariants as fields;
ghost use Rattle.syn_data.specs.declared.derive.Data.TheVariants as kinds;
ghost use Rattle.syn_data.specs.declared.derive.DataItem.TheVariants as items;

use crate::data::{Fields, FieldsNamed, FieldsUnnamed};
use crate::derive::{Data, DataEnum, DataItem, DataStruct, DataUnion};
use crate::item::{ItemEnum, ItemStruct, ItemUnion};

impl<'t, 'a> From<FieldsNamed<'t, 'a>> for Fields<'t, 'a> {
    ghost from_gives = { λ form whole. whole ≡ fields.Named form };

    fn from(form: FieldsNamed<'t, 'a>) -> Fields<'t, 'a> {
        Fields::Named(form)
    }
}

impl<'t, 'a> From<FieldsUnnamed<'t, 'a>> for Fields<'t, 'a> {
    ghost from_gives = { λ form whole. whole ≡ fields.Unnamed form };

    fn from(form: FieldsUnnamed<'t, 'a>) -> Fields<'t, 'a> {
        Fields::Unnamed(form)
    }
}

impl<'t, 'a> From<DataStruct<'t, 'a>> for Data<'t, 'a> {
    ghost from_gives = { λ form whole. whole ≡ kinds.Struct form };

    fn from(form: DataStruct<'t, 'a>) -> Data<'t, 'a> {
        Data::Struct(form)
    }
}

impl<'t, 'a> From<DataEnum<'t, 'a>> for Data<'t, 'a> {
    ghost from_gives = { λ form whole. whole ≡ kinds.Enum form };

    fn from(form: DataEnum<'t, 'a>) -> Data<'t, 'a> {
        Data::Enum(form)
    }
}

impl<'t, 'a> From<DataUnion<'t, 'a>> for Data<'t, 'a> {
    ghost from_gives = { λ form whole. whole ≡ kinds.Union form };

    fn from(form: DataUnion<'t, 'a>) -> Data<'t, 'a> {
        Data::Union(form)
    }
}

impl<'t, 'a> From<ItemStruct<'t, 'a>> for DataItem<'t, 'a> {
    ghost from_gives = { λ form whole. whole ≡ items.Struct form };

    fn from(form: ItemStruct<'t, 'a>) -> DataItem<'t, 'a> {
        DataItem::Struct(form)
    }
}

impl<'t, 'a> From<ItemEnum<'t, 'a>> for DataItem<'t, 'a> {
    ghost from_gives = { λ form whole. whole ≡ items.Enum form };

    fn from(form: ItemEnum<'t, 'a>) -> DataItem<'t, 'a> {
        DataItem::Enum(form)
    }
}

impl<'t, 'a> From<ItemUnion<'t, 'a>> for DataItem<'t, 'a> {
    ghost from_gives = { λ form whole. whole ≡ items.Union form };

    fn from(form: ItemUnion<'t, 'a>) -> DataItem<'t, 'a> {
        DataItem::Union(form)
    }
}
