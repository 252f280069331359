//! Changes of fields, variants and what is derived for.

use crate::change::{By, Change, Unmade, mark, tried};
use syn::{Arena, Data, DataStruct, DeriveInput, Field, Fields, Sign, Tree, Variant};
use syn_wrapped::derive::item;

// A struct without fields, or without its semicolon.
impl<'a> Change<'a> for DeriveInput<'a, 'a> {
    fn changed(by: By<'_, 'a>, tree: &'a Tree<'a>) -> Option<DeriveInput<'a, 'a>> {
        let input = DeriveInput::of(tree)?;
        let Data::Struct(found) = input.data else {
            return None;
        };
        let (fields, semi_token) = match by.change {
            "unit" => (Fields::Unit, Some(mark(Sign::Semi))),
            _ => (found.fields, None),
        };
        let data = Data::Struct(DataStruct {
            fields,
            semi_token,
            ..found
        });
        Some(DeriveInput { data, ..input })
    }
}

/// A struct, changed so, as an item.
pub(crate) fn put_item<'a>(
    arena: &'a Arena,
    by: By<'_, 'a>,
    tree: &'a Tree<'a>,
) -> Result<Option<Tree<'a>>, Unmade> {
    match DeriveInput::changed(by, tree) {
        Some(input) => tried(item(arena, &input)),
        None => Err(Unmade::NoRow),
    }
}

// A field without its name, and without its `:` too where it is to be its type alone.
impl<'a> Change<'a> for Field<'a, 'a> {
    fn changed(by: By<'_, 'a>, tree: &'a Tree<'a>) -> Option<Field<'a, 'a>> {
        let found = Field::of(tree)?;
        let colon_token = match by.change {
            "unnamed" => None,
            _ => found.colon_token,
        };
        Some(Field {
            ident: None,
            colon_token,
            ..found
        })
    }
}

// A variant without its number.
impl<'a> Change<'a> for Variant<'a, 'a> {
    fn changed(_by: By<'_, 'a>, tree: &'a Tree<'a>) -> Option<Variant<'a, 'a>> {
        let found = Variant::of(tree)?;
        Some(Variant {
            discriminant: None,
            ..found
        })
    }
}
