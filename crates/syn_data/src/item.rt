//! Structs, enums and unions; statics, uses and crates.

ghost use Rattle.proc_macro2.specs.Token.{Token};
ghost use Rattle.std.specs.Prelude.{◌≡◌, Bool, List, MatchOption, ℕ};
ghost use Rattle.syn_data.specs.Items.{IsClosed, item_enum, item_extern_crate, item_static, item_struct, item_union};
ghost use Rattle.syn_data.specs.Items.{item_use, mutability_tree, struct_end};
ghost use Rattle.syn_grammar.specs.Gram as g;
ghost use Rattle.syn_grammar.specs.Kind as k;
ghost use Rattle.syn_grammar.specs.Name as n;
ghost use Rattle.syn_grammar.specs.Tree as t;
ghost use Rattle.syn_part.specs.Shape.{IsShaped};

use crate::data::{Fields, FieldsNamed, FieldsUnnamed};
use reader_table::kind::Kind;
use reader_table::part::Part;
use reader_tree::tree::Tree;
use rust_leaf::ident::Ident;
use syn_part::leaf::{Delimiters, Mark};
use syn_part::list::Elements;
use syn_part::name::{Name, Renamed, as_name, optional_as_renamed};
use syn_part::sub::{MarkedType, MarkedValue, optional_as_marked_type, optional_as_marked_value};
use syn_part::take::{self, Choice};
use syn_part::{inside, joined};

/// A struct: `struct A<T> where .. { b: B }`, behind its attributes and its visibility.
#[derive(Clone, Copy)]
pub struct ItemStruct<'t, 'a> {
    /// `struct`
    pub struct_token: &'a Ident,
    /// Its name.
    pub ident: &'a Ident,
    /// Its generic parameters, as a form of the kind `Generics`.
    pub generics: &'t Tree<'a>,
    /// Its where clause, before braces and behind parentheses, as a form of the kind `Where`.
    pub where_clause: &'t Tree<'a>,
    /// Its fields.
    pub fields: Fields<'t, 'a>,
    /// `;`, unless its fields stand in braces.
    pub semi_token: Option<Mark>,
}

// What stands behind the generic parameters of a struct.
#[derive(Clone, Copy)]
struct StructEnd<'t, 'a> {
    // Its where clause.
    where_clause: &'t Tree<'a>,
    // Its fields.
    fields: Fields<'t, 'a>,
    // `;`, unless its fields stand in braces.
    semi_token: Option<Mark>,
}

// Fields without names, and what stands behind them.
fn unnamed_end<'t, 'a>(tree: &'t Tree<'a>) -> Option<StructEnd<'t, 'a>>
    ensures { MatchOption result ((a : g.Gram) (c : ℕ) (cs : List ℕ) → IsShaped tree.now (g.seq (g.ref k.UnnamedFields)
        (g.seq (g.called n.the_where a) (g.mark c cs))) → ⊥) (λ x. IsClosed x.fields x.semi_token
        × (t.First tree.now ≡ struct_end x.fields x.where_clause x.semi_token)) }
{
    let Some((fields, where_clause, semi_token)) = take::three(tree) else {
        return None;
    };
    let Some((fields, where_clause, semi_token)) = joined::three(
        FieldsUnnamed::of(fields),
        inside::part(Part::Where, where_clause),
        take::mark(semi_token),
    ) else {
        return None;
    };
    Some(StructEnd {
        where_clause,
        fields: Fields::Unnamed(fields),
        semi_token: Some(semi_token),
    })
}

// Fields with names, or none and a semicolon.
fn named_end<'t, 'a>(where_clause: &'t Tree<'a>, tree: &'t Tree<'a>) -> Option<StructEnd<'t, 'a>>
    ensures { MatchOption result ((s : List Token → Bool) (c : ℕ) (cs : List ℕ) → IsShaped tree.now
        (g.alt s (g.ref k.NamedFields) (g.mark c cs)) → ⊥) (λ x. IsClosed x.fields x.semi_token
        × (t.Second (t.Pair (t.Called n.the_where where_clause.now) tree.now)
        ≡ struct_end x.fields x.where_clause x.semi_token)) }
{
    let Some(which) = take::chosen(tree) else {
        return None;
    };
    match which {
        Choice::First(inner) => {
            let Some(found) = FieldsNamed::of(inner) else {
                return None;
            };
            Some(StructEnd {
                where_clause,
                fields: Fields::Named(found),
                semi_token: None,
            })
        }
        Choice::Second(inner) => {
            let Some(semi_token) = take::mark(inner) else {
                return None;
            };
            Some(StructEnd {
                where_clause,
                fields: Fields::Unit,
                semi_token: Some(semi_token),
            })
        }
    }
}

// A where clause, and what stands behind it.
fn where_end<'t, 'a>(tree: &'t Tree<'a>) -> Option<StructEnd<'t, 'a>>
    ensures { MatchOption result ((s : List Token → Bool) (a : g.Gram) (c : ℕ) (cs : List ℕ) → IsShaped tree.now
        (g.seq (g.called n.the_where a) (g.alt s (g.ref k.NamedFields) (g.mark c cs))) → ⊥)
        (λ x. IsClosed x.fields x.semi_token
        × (t.Second tree.now ≡ struct_end x.fields x.where_clause x.semi_token)) }
{
    let Some((where_clause, end)) = take::pair(tree) else {
        return None;
    };
    let Some(where_clause) = inside::part(Part::Where, where_clause) else {
        return None;
    };
    named_end(where_clause, end)
}

// What stands behind the generic parameters of a struct.
fn as_struct_end<'t, 'a>(tree: &'t Tree<'a>) -> Option<StructEnd<'t, 'a>>
    ensures { MatchOption result ((s u : List Token → Bool) (a b : g.Gram) (c d : ℕ) (cs ds : List ℕ)
        → IsShaped tree.now (g.alt s (g.seq (g.ref k.UnnamedFields) (g.seq (g.called n.the_where a) (g.mark c cs)))
        (g.seq (g.called n.the_where b) (g.alt u (g.ref k.NamedFields) (g.mark d ds)))) → ⊥)
        (λ x. IsClosed x.fields x.semi_token × (tree.now ≡ struct_end x.fields x.where_clause x.semi_token)) }
{
    let Some(which) = take::chosen(tree) else {
        return None;
    };
    match which {
        Choice::First(inner) => unnamed_end(inner),
        Choice::Second(inner) => where_end(inner),
    }
}

impl<'t, 'a> ItemStruct<'t, 'a> {
    /// What a tree is, if it is that.
    #[tactic(auto, unfolding(syn_grammar::specs::Table::table))]
    pub fn of(tree: &'t Tree<'a>) -> Option<ItemStruct<'t, 'a>>
        ensures { MatchOption result (IsShaped tree.now (g.ref k.AStruct) → ⊥)
            (λ x. IsClosed x.fields x.semi_token × (tree.now ≡ item_struct x)) }
    {
        let Some((struct_token, ident, generics, end)) = inside::four(Kind::AStruct, tree) else {
            return None;
        };
        let Some((struct_token, ident, generics, end)) = joined::four(
            take::word(struct_token),
            inside::word(Part::Name, ident),
            inside::part(Part::Generics, generics),
            as_struct_end(end),
        ) else {
            return None;
        };
        Some(ItemStruct {
            struct_token,
            ident,
            generics,
            where_clause: end.where_clause,
            fields: end.fields,
            semi_token: end.semi_token,
        })
    }
}

/// An enum: `enum A<T> where .. { B, C }`, behind its attributes and its visibility.
#[derive(Clone, Copy)]
pub struct ItemEnum<'t, 'a> {
    /// `enum`
    pub enum_token: &'a Ident,
    /// Its name.
    pub ident: &'a Ident,
    /// Its generic parameters, as a form of the kind `Generics`.
    pub generics: &'t Tree<'a>,
    /// Its where clause, as a form of the kind `Where`.
    pub where_clause: &'t Tree<'a>,
    /// The braces.
    pub brace_token: Delimiters,
    /// Its variants.
    pub variants: Elements<'t, 'a>,
}

impl<'t, 'a> ItemEnum<'t, 'a> {
    /// What a tree is, if it is that.
    #[tactic(auto, unfolding(syn_grammar::specs::Table::table))]
    pub fn of(tree: &'t Tree<'a>) -> Option<ItemEnum<'t, 'a>>
        ensures { MatchOption result (IsShaped tree.now (g.ref k.AnEnum) → ⊥) (λ x. tree.now ≡ item_enum x) }
    {
        let Some((enum_token, ident, generics, where_clause, variants)) = inside::five(
            Kind::AnEnum,
            tree,
        ) else {
            return None;
        };
        let Some((brace_token, inside)) = take::group(variants) else {
            return None;
        };
        let Some((enum_token, ident, generics, where_clause, variants)) = joined::five(
            take::word(enum_token),
            inside::word(Part::Name, ident),
            inside::part(Part::Generics, generics),
            inside::part(Part::Where, where_clause),
            take::list(inside),
        ) else {
            return None;
        };
        Some(ItemEnum {
            enum_token,
            ident,
            generics,
            where_clause,
            brace_token,
            variants,
        })
    }
}

/// A union: `union A<T> where .. { b: B }`, behind its attributes and its visibility.
#[derive(Clone, Copy)]
pub struct ItemUnion<'t, 'a> {
    /// `union`
    pub union_token: &'a Ident,
    /// Its name.
    pub ident: &'a Ident,
    /// Its generic parameters, as a form of the kind `Generics`.
    pub generics: &'t Tree<'a>,
    /// Its where clause, as a form of the kind `Where`.
    pub where_clause: &'t Tree<'a>,
    /// Its fields.
    pub fields: FieldsNamed<'t, 'a>,
}

impl<'t, 'a> ItemUnion<'t, 'a> {
    /// What a tree is, if it is that.
    #[tactic(auto, unfolding(syn_grammar::specs::Table::table))]
    pub fn of(tree: &'t Tree<'a>) -> Option<ItemUnion<'t, 'a>>
        ensures { MatchOption result (IsShaped tree.now (g.ref k.AUnion) → ⊥) (λ x. tree.now ≡ item_union x) }
    {
        let Some((union_token, ident, generics, where_clause, fields)) = inside::five(
            Kind::AUnion,
            tree,
        ) else {
            return None;
        };
        let Some((union_token, ident, generics, where_clause, fields)) = joined::five(
            take::word(union_token),
            inside::word(Part::Name, ident),
            inside::part(Part::Generics, generics),
            inside::part(Part::Where, where_clause),
            FieldsNamed::of(fields),
        ) else {
            return None;
        };
        Some(ItemUnion {
            union_token,
            ident,
            generics,
            where_clause,
            fields,
        })
    }
}

/// Whether a static may be written.
#[derive(Clone, Copy)]
pub enum StaticMutability<'a> {
    /// `mut`
    Mut(&'a Ident),
    /// `mut` is not written.
    None,
}

// Whether a static may be written.
fn as_mutability<'a>(tree: &Tree<'a>) -> Option<StaticMutability<'a>>
    ensures { MatchOption result ((test : List Token → Bool) (p : List ℕ → Bool) → IsShaped tree.now (g.alt test
        (g.word p) g.nothing) → ⊥) (λ m. tree.now ≡ mutability_tree m) }
{
    match take::optional_word(tree) {
        Some(Some(word)) => Some(StaticMutability::Mut(word)),
        Some(None) => Some(StaticMutability::None),
        None => None,
    }
}

/// A static: `static mut A: T = b;`, behind its attributes and its visibility.
#[derive(Clone, Copy)]
pub struct ItemStatic<'t, 'a> {
    /// `static`
    pub static_token: &'a Ident,
    /// Whether it may be written.
    pub mutability: StaticMutability<'a>,
    /// Its name.
    pub ident: &'a Ident,
    /// `:` and its type.
    pub ty: Option<MarkedType<'t, 'a>>,
    /// `=` and its value.
    pub expr: Option<MarkedValue<'t, 'a>>,
    /// `;`
    pub semi_token: Mark,
}

impl<'t, 'a> ItemStatic<'t, 'a> {
    /// What a tree is, if it is that.
    #[tactic(auto, unfolding(syn_grammar::specs::Table::table))]
    pub fn of(tree: &'t Tree<'a>) -> Option<ItemStatic<'t, 'a>>
        ensures { MatchOption result (IsShaped tree.now (g.ref k.AStatic) → ⊥) (λ x. tree.now ≡ item_static x) }
    {
        let Some((static_token, mutability, ident, ty, expr, semi_token)) = inside::six(
            Kind::AStatic,
            tree,
        ) else {
            return None;
        };
        let Some((static_token, mutability, ident, ty, expr, semi_token)) = joined::six(
            take::word(static_token),
            as_mutability(mutability),
            inside::word(Part::Name, ident),
            optional_as_marked_type(ty),
            optional_as_marked_value(expr),
            take::mark(semi_token),
        ) else {
            return None;
        };
        Some(ItemStatic {
            static_token,
            mutability,
            ident,
            ty,
            expr,
            semi_token,
        })
    }
}

/// A use declaration: `use a::b;`, behind its attributes and its visibility.
#[derive(Clone, Copy)]
pub struct ItemUse<'t, 'a> {
    /// `use`
    pub use_token: &'a Ident,
    /// What it names.
    pub tree: &'t Tree<'a>,
    /// `;`
    pub semi_token: Mark,
}

impl<'t, 'a> ItemUse<'t, 'a> {
    /// What a tree is, if it is that.
    #[tactic(auto, unfolding(syn_grammar::specs::Table::table))]
    pub fn of(tree: &'t Tree<'a>) -> Option<ItemUse<'t, 'a>>
        ensures { MatchOption result (IsShaped tree.now (g.ref k.AUse) → ⊥) (λ x. tree.now ≡ item_use x) }
    {
        let Some((use_token, tree, semi_token)) = inside::three(Kind::AUse, tree) else {
            return None;
        };
        let Some(tree) = inside::part(Part::Path, tree) else {
            return None;
        };
        let Some((use_token, semi_token)) = joined::two(
            take::word(use_token),
            take::mark(semi_token),
        ) else {
            return None;
        };
        Some(ItemUse {
            use_token,
            tree,
            semi_token,
        })
    }
}

/// A crate: `extern crate a as b;`, behind its attributes and its visibility.
#[derive(Clone, Copy)]
pub struct ItemExternCrate<'a> {
    /// `extern`
    pub extern_token: &'a Ident,
    /// `crate`
    pub crate_token: &'a Ident,
    /// Its name, or `self`.
    pub ident: Name<'a>,
    /// `as` and another name.
    pub rename: Option<Renamed<'a>>,
    /// `;`
    pub semi_token: Mark,
}

impl<'a> ItemExternCrate<'a> {
    /// What a tree is, if it is that.
    #[tactic(auto, unfolding(syn_grammar::specs::Table::table))]
    pub fn of(tree: &Tree<'a>) -> Option<ItemExternCrate<'a>>
        ensures { MatchOption result (IsShaped tree.now (g.ref k.AnExternCrate) → ⊥)
            (λ x. tree.now ≡ item_extern_crate x) }
    {
        let Some((extern_token, crate_token, ident, rename, semi_token)) = inside::five(
            Kind::AnExternCrate,
            tree,
        ) else {
            return None;
        };
        let Some(ident) = inside::part(Part::Name, ident) else {
            return None;
        };
        let Some((extern_token, crate_token, ident, rename, semi_token)) = joined::five(
            take::word(extern_token),
            take::word(crate_token),
            as_name(ident),
            optional_as_renamed(rename),
            take::mark(semi_token),
        ) else {
            return None;
        };
        Some(ItemExternCrate {
            extern_token,
            crate_token,
            ident,
            rename,
            semi_token,
        })
    }
}
