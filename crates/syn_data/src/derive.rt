//! What is derived for: structs, enums and unions, with their attributes and their visibility.

ghost use Rattle.proc_macro2.specs.Token.{Token};
ghost use Rattle.std.specs.Prelude.{◌≡◌, Bool, List, MatchOption};
ghost use Rattle.syn_data.specs.Derive.{HasData, IsDataItem, IsEnded, IsItemOf, IsWhole, chosen_item, data_form};
ghost use Rattle.syn_data.specs.Derive.{derive_input, derived, item_tree};
ghost use Rattle.syn_grammar.specs.Gram as g;
ghost use Rattle.syn_grammar.specs.Kind as k;
ghost use Rattle.syn_part.specs.Shape.{IsShaped};

use crate::data::{Fields, FieldsNamed};
use crate::item::{ItemEnum, ItemStruct, ItemUnion};
use crate::part;
use reader_table::kind::Kind;
use reader_tree::tree::Tree;
use rust_leaf::ident::Ident;
use syn_part::inside;
use syn_part::leaf::{Delimiters, Mark};
use syn_part::list::Elements;
use syn_part::take::{self, Choice3};

/// What a struct is, beside its name, its generic parameters and its where clause.
#[derive(Clone, Copy)]
pub struct DataStruct<'t, 'a> {
    /// `struct`
    pub struct_token: &'a Ident,
    /// Its fields.
    pub fields: Fields<'t, 'a>,
    /// `;`, unless its fields stand in braces.
    pub semi_token: Option<Mark>,
}

/// What an enum is, beside its name, its generic parameters and its where clause.
#[derive(Clone, Copy)]
pub struct DataEnum<'t, 'a> {
    /// `enum`
    pub enum_token: &'a Ident,
    /// The braces.
    pub brace_token: Delimiters,
    /// Its variants.
    pub variants: Elements<'t, 'a>,
}

/// What a union is, beside its name, its generic parameters and its where clause.
#[derive(Clone, Copy)]
pub struct DataUnion<'t, 'a> {
    /// `union`
    pub union_token: &'a Ident,
    /// Its fields.
    pub fields: FieldsNamed<'t, 'a>,
}

/// A struct, an enum or a union.
#[derive(Clone, Copy)]
pub enum Data<'t, 'a> {
    /// A struct.
    Struct(DataStruct<'t, 'a>),
    /// An enum.
    Enum(DataEnum<'t, 'a>),
    /// A union.
    Union(DataUnion<'t, 'a>),
}

/// A struct, an enum or a union, as an item.
#[derive(Clone, Copy)]
pub enum DataItem<'t, 'a> {
    /// A struct.
    Struct(ItemStruct<'t, 'a>),
    /// An enum.
    Enum(ItemEnum<'t, 'a>),
    /// A union.
    Union(ItemUnion<'t, 'a>),
}

impl<'t, 'a> DataItem<'t, 'a> {
    /// What a tree is, if it is a struct, an enum or a union, behind its attributes and its visibility.
    pub fn of(tree: &'t Tree<'a>) -> Option<DataItem<'t, 'a>>
        ensures { MatchOption result (HasData tree.now → ⊥) (λ x. IsWhole x × (tree.now ≡ item_tree x)) }
    {
        if let Some(found) = ItemStruct::of(tree) {
            return Some(DataItem::Struct(found));
        }
        if let Some(found) = ItemEnum::of(tree) {
            return Some(DataItem::Enum(found));
        }
        if let Some(found) = ItemUnion::of(tree) {
            return Some(DataItem::Union(found));
        }
        None
    }
}

// Which of the three was chosen.
fn as_data_item<'t, 'a>(tree: &'t Tree<'a>) -> Option<DataItem<'t, 'a>>
    ensures { MatchOption result ((s u : List Token → Bool) → IsShaped tree.now (g.alt s (g.ref k.AStruct) (g.alt u
        (g.ref k.AnEnum) (g.ref k.AUnion))) → ⊥) (λ x. IsWhole x × (tree.now ≡ chosen_item x)) }
{
    let Some(which) = take::chosen3(tree) else {
        return None;
    };
    match which {
        Choice3::First(inner) => match ItemStruct::of(inner) {
            Some(found) => Some(DataItem::Struct(found)),
            None => None,
        },
        Choice3::Second(inner) => match ItemEnum::of(inner) {
            Some(found) => Some(DataItem::Enum(found)),
            None => None,
        },
        Choice3::Third(inner) => match ItemUnion::of(inner) {
            Some(found) => Some(DataItem::Union(found)),
            None => None,
        },
    }
}

/// A struct, an enum or a union, with its attributes and its visibility.
#[derive(Clone, Copy)]
pub struct DeriveInput<'t, 'a> {
    /// Its attributes, as a form of the kind `OuterAttributes`.
    pub attrs: &'t Tree<'a>,
    /// Its visibility, as a form of the kind `Visibility`.
    pub vis: &'t Tree<'a>,
    /// Its name.
    pub ident: &'a Ident,
    /// Its generic parameters, as a form of the kind `Generics`.
    pub generics: &'t Tree<'a>,
    /// Its where clause, as a form of the kind `Where`.
    pub where_clause: &'t Tree<'a>,
    /// What it is.
    pub data: Data<'t, 'a>,
}

impl<'t, 'a> DeriveInput<'t, 'a> {
    /// The same of an item, with these attributes and this visibility.
    pub fn from_item(
        attrs: &'t Tree<'a>,
        vis: &'t Tree<'a>,
        item: DataItem<'t, 'a>,
    ) -> DeriveInput<'t, 'a>
        ensures same { derive_input result ≡ derived attrs.now vis.now item.entry }
        ensures parts { (result.attrs.now ≡ attrs.now) × (result.vis.now ≡ vis.now)
            × (data_form result ≡ item_tree item.entry) }
        ensures whole { IsWhole item.entry → IsEnded result.«data» }
    {
        match item {
            DataItem::Struct(found) => DeriveInput {
                attrs,
                vis,
                ident: found.ident,
                generics: found.generics,
                where_clause: found.where_clause,
                data: Data::Struct(DataStruct {
                    struct_token: found.struct_token,
                    fields: found.fields,
                    semi_token: found.semi_token,
                }),
            },
            DataItem::Enum(found) => DeriveInput {
                attrs,
                vis,
                ident: found.ident,
                generics: found.generics,
                where_clause: found.where_clause,
                data: Data::Enum(DataEnum {
                    enum_token: found.enum_token,
                    brace_token: found.brace_token,
                    variants: found.variants,
                }),
            },
            DataItem::Union(found) => DeriveInput {
                attrs,
                vis,
                ident: found.ident,
                generics: found.generics,
                where_clause: found.where_clause,
                data: Data::Union(DataUnion {
                    union_token: found.union_token,
                    fields: found.fields,
                }),
            },
        }
    }

    /// The same as an item, which stands behind its attributes and its visibility.
    pub fn item(&self) -> DataItem<'t, 'a>
        ensures same { item_tree result ≡ data_form self.now }
        ensures whole { IsEnded self.now.«data» → IsWhole result }
    {
        match self.data {
            Data::Struct(found) => DataItem::Struct(ItemStruct {
                struct_token: found.struct_token,
                ident: self.ident,
                generics: self.generics,
                where_clause: self.where_clause,
                fields: found.fields,
                semi_token: found.semi_token,
            }),
            Data::Enum(found) => DataItem::Enum(ItemEnum {
                enum_token: found.enum_token,
                ident: self.ident,
                generics: self.generics,
                where_clause: self.where_clause,
                brace_token: found.brace_token,
                variants: found.variants,
            }),
            Data::Union(found) => DataItem::Union(ItemUnion {
                union_token: found.union_token,
                ident: self.ident,
                generics: self.generics,
                where_clause: self.where_clause,
                fields: found.fields,
            }),
        }
    }

    /// What a tree is, if it is that.
    #[tactic(auto, unfolding(syn_grammar::specs::Table::table))]
    pub fn of(tree: &'t Tree<'a>) -> Option<DeriveInput<'t, 'a>>
        ensures { MatchOption result (IsShaped tree.now (g.ref k.DeriveInput) → ⊥)
            (λ x. IsEnded x.«data» × (tree.now ≡ derive_input x)) }
    {
        let Some((attrs, vis, which)) = inside::three(Kind::DeriveInput, tree) else {
            return None;
        };
        let Some(item) = as_data_item(which) else {
            return None;
        };
        Some(DeriveInput::from_item(attrs, vis, item))
    }
    /// The same of an item, if it is kept, and is a struct, an enum or a union: of the kind `AnItem`, or of one that
    /// reads one of these alone.
    #[tactic(auto, using(crate::proofs::DataItems::no_data))]
    pub fn of_item(tree: &'t Tree<'a>) -> Option<DeriveInput<'t, 'a>>
        ensures { MatchOption result (IsDataItem tree.now → ⊥) (λ x. IsEnded x.«data» × IsItemOf x tree.now) }
    {
        let Some((_, inner)) = take::node(tree) else {
            return None;
        };
        let Some((attrs, vis, form)) = part::item_parts(inner) else {
            return None;
        };
        let Some(item) = DataItem::of(form.choice()) else {
            return None;
        };
        Some(DeriveInput::from_item(attrs, vis, item))
    }
}
