//! Constants.

ghost use Rattle.std.specs.Prelude.{◌≡◌, MatchOption};
ghost use Rattle.syn_grammar.specs.Gram as g;
ghost use Rattle.syn_grammar.specs.Kind as k;
ghost use Rattle.syn_item.specs.ItemAliases.{item_const};
ghost use Rattle.syn_part.specs.Shape.{IsShaped};

use crate::part;
use reader_table::kind::Kind;
use reader_table::part::Part;
use reader_tree::tree::Tree;
use rust_leaf::ident::Ident;
use syn_part::leaf::Mark;
use syn_part::name::Name;
use syn_part::sub::{MarkedValue, optional_as_marked_value};
use syn_part::{inside, joined, take};

/// A constant: `const A: T = b;`, behind its attributes and its visibility.
#[derive(Clone, Copy)]
pub struct ItemConst<'t, 'a> {
    /// `const`
    pub const_token: &'a Ident,
    /// Its name, or `_`.
    pub ident: Name<'a>,
    /// Its generic parameters.
    pub generics: &'t Tree<'a>,
    /// `:`
    pub colon_token: Mark,
    /// Its type.
    pub ty: &'t Tree<'a>,
    /// `=` and its value.
    pub expr: Option<MarkedValue<'t, 'a>>,
    /// Its where clause.
    pub where_clause: &'t Tree<'a>,
    /// `;`
    pub semi_token: Mark,
}

impl<'t, 'a> ItemConst<'t, 'a> {
    /// What a tree is, if it is that.
    #[tactic(auto, unfolding(syn_grammar::specs::Table::table))]
    pub fn of(tree: &'t Tree<'a>) -> Option<ItemConst<'t, 'a>>
        ensures { MatchOption result (IsShaped tree.now (g.ref k.AConst) → ⊥) (λ x. tree.now ≡ item_const x) }
    {
        let Some(inner) = inside::node(Kind::AConst, tree) else {
            return None;
        };
        let Some((const_token, ident, generics, colon_token, ty, expr, where_clause, semi_token)) =
            take::eight(inner) else {
            return None;
        };
        let Some(ty) = inside::part(Part::Type, ty) else {
            return None;
        };
        let Some((const_token, ident, generics, colon_token, expr, where_clause, semi_token)) =
            joined::seven(
                take::word(const_token),
                part::name_or(ident),
                inside::part(Part::Generics, generics),
                take::mark(colon_token),
                optional_as_marked_value(expr),
                inside::part(Part::Where, where_clause),
                take::mark(semi_token),
            ) else {
            return None;
        };
        Some(ItemConst {
            const_token,
            ident,
            generics,
            colon_token,
            ty,
            expr,
            where_clause,
            semi_token,
        })
    }
}
