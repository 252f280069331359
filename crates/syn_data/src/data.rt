//! Fields and variants.

ghost use Rattle.proc_macro2.specs.Token.{Token};
ghost use Rattle.std.specs.Prelude.{◌≡◌, ◌⊎◌, Bool, IsOk, List, MatchOption};
ghost use Rattle.syn_data.specs.Data.{IsField, fields_named, fields_unnamed, named_field, unnamed_field, variant};
ghost use Rattle.syn_data.specs.Data.{variant_fields};
ghost use Rattle.syn_grammar.specs.Gram as g;
ghost use Rattle.syn_grammar.specs.Kind as k;
ghost use Rattle.syn_part.specs.Shape.{IsShaped};

use crate::part;
use reader_table::kind::Kind;
use reader_tree::tree::Tree;
use rust_leaf::ident::Ident;
use syn_error::fault::ParseFault;
use syn_part::leaf::{Delimiters, Mark};
use syn_part::list::Elements;
use syn_part::name::{Name, as_name};
use syn_part::sub::{MarkedValue, optional_as_marked_value};
use syn_part::take::{self, Choice3};
use syn_part::{inside, joined};

/// A field with a name: `pub a: T = b`.
#[derive(Clone, Copy)]
pub struct NamedField<'t, 'a> {
    /// Its attributes.
    pub attrs: &'t Tree<'a>,
    /// Its visibility.
    pub vis: &'t Tree<'a>,
    /// Its name, or `_`.
    pub ident: Name<'a>,
    /// `:`
    pub colon_token: Mark,
    /// Its type.
    pub ty: &'t Tree<'a>,
    /// `=` and its value by default.
    pub default: Option<MarkedValue<'t, 'a>>,
}

impl<'t, 'a> NamedField<'t, 'a> {
    /// What a tree is, if it is that.
    #[tactic(auto, unfolding(syn_grammar::specs::Table::table))]
    pub fn of(tree: &'t Tree<'a>) -> Option<NamedField<'t, 'a>>
        ensures { MatchOption result (IsShaped tree.now (g.ref k.NamedField) → ⊥) (λ x. tree.now ≡ named_field x) }
    {
        let Some((attrs, vis, ident, colon_token, ty, default)) = inside::six(
            Kind::NamedField,
            tree,
        ) else {
            return None;
        };
        let Some((ident, colon_token, default)) = joined::three(
            as_name(ident),
            take::mark(colon_token),
            optional_as_marked_value(default),
        ) else {
            return None;
        };
        Some(NamedField {
            attrs,
            vis,
            ident,
            colon_token,
            ty,
            default,
        })
    }
}

/// A field without a name: `pub T`.
#[derive(Clone, Copy)]
pub struct UnnamedField<'t, 'a> {
    /// Its attributes.
    pub attrs: &'t Tree<'a>,
    /// Its visibility.
    pub vis: &'t Tree<'a>,
    /// Its type.
    pub ty: &'t Tree<'a>,
}

impl<'t, 'a> UnnamedField<'t, 'a> {
    /// What a tree is, if it is that.
    #[tactic(auto, unfolding(syn_grammar::specs::Table::table))]
    pub fn of(tree: &'t Tree<'a>) -> Option<UnnamedField<'t, 'a>>
        ensures { MatchOption result (IsShaped tree.now (g.ref k.UnnamedField) → ⊥) (λ x. tree.now ≡ unnamed_field x) }
    {
        let Some((attrs, vis, ty, end)) = inside::four(Kind::UnnamedField, tree) else {
            return None;
        };
        if part::is_missing(end) {
            Some(UnnamedField { attrs, vis, ty })
        } else {
            None
        }
    }
}

/// What may stand in front of a field behind its visibility: nothing.
#[derive(Clone, Copy, Default)]
pub struct FieldModifiers {}

impl FieldModifiers {
    /// That nothing stands there. It takes no memory.
    ///
    /// # Errors
    ///
    /// None.
    pub fn require_empty(&self) -> Result<(), ParseFault>
        ensures { IsOk result }
    {
        Ok(())
    }
}

/// A field, with a name or without: `pub a: T = b`, `pub T`.
#[derive(Clone, Copy)]
pub struct Field<'t, 'a> {
    /// Its attributes.
    pub attrs: &'t Tree<'a>,
    /// Its visibility.
    pub vis: &'t Tree<'a>,
    /// What stands in front of it behind its visibility.
    pub modifiers: FieldModifiers,
    /// Its name, or `_`.
    pub ident: Option<Name<'a>>,
    /// `:`, if it has a name.
    pub colon_token: Option<Mark>,
    /// Its type.
    pub ty: &'t Tree<'a>,
    /// `=` and its value by default.
    pub default: Option<MarkedValue<'t, 'a>>,
}

impl<'t, 'a> Field<'t, 'a> {
    /// What a tree is, if it is a field with a name or one without.
    pub fn of(tree: &'t Tree<'a>) -> Option<Field<'t, 'a>>
        ensures { MatchOption result (IsShaped tree.now (g.ref k.NamedField) ⊎ IsShaped tree.now (g.ref k.UnnamedField)
            → ⊥) (λ x. IsField x tree.now) }
    {
        match NamedField::of(tree) {
            Some(found) => Some(Field {
                attrs: found.attrs,
                vis: found.vis,
                modifiers: FieldModifiers {},
                ident: Some(found.ident),
                colon_token: Some(found.colon_token),
                ty: found.ty,
                default: found.default,
            }),
            None => match UnnamedField::of(tree) {
                Some(found) => Some(Field {
                    attrs: found.attrs,
                    vis: found.vis,
                    modifiers: FieldModifiers {},
                    ident: None,
                    colon_token: None,
                    ty: found.ty,
                    default: None,
                }),
                None => None,
            },
        }
    }
}

/// Fields with names: `{ a: T }`.
#[derive(Clone, Copy)]
pub struct FieldsNamed<'t, 'a> {
    /// The braces.
    pub brace_token: Delimiters,
    /// The fields.
    pub named: Elements<'t, 'a>,
}

impl<'t, 'a> FieldsNamed<'t, 'a> {
    /// What a tree is, if it is that.
    #[tactic(auto, unfolding(syn_grammar::specs::Table::table))]
    pub fn of(tree: &'t Tree<'a>) -> Option<FieldsNamed<'t, 'a>>
        ensures { MatchOption result (IsShaped tree.now (g.ref k.NamedFields) → ⊥) (λ x. tree.now ≡ fields_named x) }
    {
        let Some((brace_token, inside)) = inside::group(Kind::NamedFields, tree) else {
            return None;
        };
        let Some(named) = take::list(inside) else {
            return None;
        };
        Some(FieldsNamed { brace_token, named })
    }
}

/// Fields without names: `(T, U)`.
#[derive(Clone, Copy)]
pub struct FieldsUnnamed<'t, 'a> {
    /// The parentheses.
    pub paren_token: Delimiters,
    /// The fields.
    pub unnamed: Elements<'t, 'a>,
}

impl<'t, 'a> FieldsUnnamed<'t, 'a> {
    /// What a tree is, if it is that.
    #[tactic(auto, unfolding(syn_grammar::specs::Table::table))]
    pub fn of(tree: &'t Tree<'a>) -> Option<FieldsUnnamed<'t, 'a>>
        ensures { MatchOption result (IsShaped tree.now (g.ref k.UnnamedFields) → ⊥)
            (λ x. tree.now ≡ fields_unnamed x) }
    {
        let Some((paren_token, inside)) = inside::group(Kind::UnnamedFields, tree) else {
            return None;
        };
        let Some(unnamed) = take::list(inside) else {
            return None;
        };
        Some(FieldsUnnamed {
            paren_token,
            unnamed,
        })
    }
}

/// Fields: `{ a: T }`, `(T)`, or none.
#[derive(Clone, Copy)]
pub enum Fields<'t, 'a> {
    /// `{ a: T }`
    Named(FieldsNamed<'t, 'a>),
    /// `(T)`
    Unnamed(FieldsUnnamed<'t, 'a>),
    /// None.
    Unit,
}

// The fields that stand behind the name of a variant.
fn as_variant_fields<'t, 'a>(tree: &'t Tree<'a>) -> Option<Fields<'t, 'a>>
    ensures { MatchOption result ((s u : List Token → Bool) → IsShaped tree.now (g.alt s (g.ref k.NamedFields) (g.alt u
        (g.ref k.UnnamedFields) g.nothing)) → ⊥) (λ x. tree.now ≡ variant_fields x) }
{
    let Some(which) = take::chosen3(tree) else {
        return None;
    };
    match which {
        Choice3::First(inner) => match FieldsNamed::of(inner) {
            Some(found) => Some(Fields::Named(found)),
            None => None,
        },
        Choice3::Second(inner) => match FieldsUnnamed::of(inner) {
            Some(found) => Some(Fields::Unnamed(found)),
            None => None,
        },
        Choice3::Third(inner) => if take::is_nothing(inner) {
            Some(Fields::Unit)
        } else {
            None
        },
    }
}

/// A variant of an enum: `A { b: T } = c`.
#[derive(Clone, Copy)]
pub struct Variant<'t, 'a> {
    /// Its attributes.
    pub attrs: &'t Tree<'a>,
    /// A visibility, which was read and is no part of the program.
    pub vis: &'t Tree<'a>,
    /// Its name.
    pub ident: &'a Ident,
    /// Its fields.
    pub fields: Fields<'t, 'a>,
    /// `=` and its value.
    pub discriminant: Option<MarkedValue<'t, 'a>>,
}

impl<'t, 'a> Variant<'t, 'a> {
    /// What a tree is, if it is that.
    #[tactic(auto, unfolding(syn_grammar::specs::Table::table))]
    pub fn of(tree: &'t Tree<'a>) -> Option<Variant<'t, 'a>>
        ensures { MatchOption result (IsShaped tree.now (g.ref k.Variant) → ⊥) (λ x. tree.now ≡ variant x) }
    {
        let Some((attrs, vis, ident, fields, discriminant)) = inside::five(Kind::Variant, tree)
        else {
            return None;
        };
        let Some((vis, ident, fields, discriminant)) = joined::four(
            part::dropped(vis),
            take::word(ident),
            as_variant_fields(fields),
            optional_as_marked_value(discriminant),
        ) else {
            return None;
        };
        Some(Variant {
            attrs,
            vis,
            ident,
            fields,
            discriminant,
        })
    }
}
