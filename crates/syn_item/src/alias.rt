//! Type aliases.

ghost use Rattle.reader_table.specs.Kinds.{place_of};
ghost use Rattle.proc_macro2.specs.Token.{Token};
ghost use Rattle.std.specs.Prelude.{◌≡◌, ◌↔◌, Bool, IfSome, List, MatchOption, true, ℕ};
ghost use Rattle.syn_grammar.specs.Gram as g;
ghost use Rattle.syn_grammar.specs.Items.{type_end};
ghost use Rattle.syn_grammar.specs.Kind as k;
ghost use Rattle.syn_grammar.specs.Name as n;
ghost use Rattle.syn_grammar.specs.Tree as t;
ghost use Rattle.syn_grammar.specs.Verdicts.{is_where};
ghost use Rattle.syn_item.specs.ItemAliases.{IsLate, IsOrderIn, early_tree, either_tree, item_type};
ghost use Rattle.syn_item.specs.ItemAliases.{late_tree, type_end_tree};
ghost use Rattle.syn_part.specs.Shape.{IsShaped};

use reader_table::kind::{Kind, Place};
use reader_table::part::Part;
use reader_tree::tree::Tree;
use rust_leaf::ident::Ident;
use syn_ast::generics::OptionalWhere;
use syn_part::leaf::Mark;
use syn_part::sub::{MarkedType, optional_as_marked_type};
use syn_part::take::{self, Choice};
use syn_part::{inside, joined};

/// Where the where clause of a type stands.
#[derive(Clone, Copy)]
pub enum WhereClausePlacement {
    /// Before the definition, or nowhere.
    Early,
    /// Behind it.
    Late,
}

/// In which order a type has its definition and its where clause.
#[derive(Clone, Copy)]
pub enum WhereOrder {
    /// The where clause before the definition.
    Before,
    /// The where clause behind the definition, or where that would stand; there need be none.
    Behind,
}

// What stands behind the bounds of a type.
#[derive(Clone, Copy)]
pub(crate) struct TypeEnd<'t, 'a> {
    // `=` and a type.
    pub(crate) definition: Option<MarkedType<'t, 'a>>,
    // The where clause.
    pub(crate) where_clause: &'t Tree<'a>,
    // In which order they stand.
    pub(crate) order: WhereOrder,
}

// The definition first.
fn definition_first<'t, 'a>(tree: &'t Tree<'a>) -> Option<TypeEnd<'t, 'a>>
    ensures tree_is { MatchOption result ((test : List Token → Bool) (c : ℕ) (cs : List ℕ) (a b : g.Gram)
        → IsShaped tree.now (g.seq (g.alt test (g.seq (g.mark c cs) (g.called n.the_type a)) g.nothing)
        (g.called n.the_where b)) → ⊥)
        (λ x. tree.now ≡ late_tree x.definition x.where_clause) }
    ensures order { IfSome result (λ x. x.order ≡ WhereOrder.Behind) }
{
    let Some((definition, where_clause)) = take::pair(tree) else {
        return None;
    };
    let Some((definition, where_clause)) = joined::two(
        optional_as_marked_type(definition),
        inside::part(Part::Where, where_clause),
    ) else {
        return None;
    };
    Some(TypeEnd {
        definition,
        where_clause,
        order: WhereOrder::Behind,
    })
}

// The where clause first.
fn where_first<'t, 'a>(tree: &'t Tree<'a>) -> Option<TypeEnd<'t, 'a>>
    ensures tree_is { MatchOption result ((test : List Token → Bool) (c : ℕ) (cs : List ℕ) (a b : g.Gram)
        → IsShaped tree.now (g.seq (g.called n.the_where b) (g.alt test (g.seq (g.mark c cs) (g.called n.the_type a))
        g.nothing)) → ⊥)
        (λ x. tree.now ≡ early_tree x.definition x.where_clause) }
    ensures order { IfSome result (λ x. x.order ≡ WhereOrder.Before) }
{
    let Some((where_clause, definition)) = take::pair(tree) else {
        return None;
    };
    let Some((where_clause, definition)) = joined::two(
        inside::part(Part::Where, where_clause),
        optional_as_marked_type(definition),
    ) else {
        return None;
    };
    Some(TypeEnd {
        definition,
        where_clause,
        order: WhereOrder::Before,
    })
}

// In either order.
fn either_first<'t, 'a>(tree: &'t Tree<'a>) -> Option<TypeEnd<'t, 'a>>
    ensures { MatchOption result (IsShaped tree.now (type_end k.InFile) → ⊥)
        (λ x. tree.now ≡ either_tree x.order x.definition x.where_clause) }
{
    match take::chosen(tree) {
        Some(Choice::First(inner)) => where_first(inner),
        Some(Choice::Second(inner)) => definition_first(inner),
        None => None,
    }
}

// As the place has it.
fn as_type_end<'t, 'a>(place: Place, tree: &'t Tree<'a>) -> Option<TypeEnd<'t, 'a>>
    ensures tree_is { MatchOption result (IsShaped tree.now (type_end (place_of place)) → ⊥)
        (λ x. tree.now ≡ type_end_tree place x.order x.definition x.where_clause) }
    ensures order { IfSome result (λ x. IsOrderIn place x.order) }
{
    match place {
        Place::InFile => either_first(tree),
        Place::InForeign => either_first(tree),
        Place::InTrait => definition_first(tree),
        Place::InImpl => definition_first(tree),
    }
}

// The same, by its name.
fn named_type_end<'t, 'a>(place: Place, tree: &'t Tree<'a>) -> Option<TypeEnd<'t, 'a>>
    ensures tree_is { MatchOption result (IsShaped tree.now (g.called n.the_value (type_end (place_of place))) → ⊥)
        (λ x. tree.now ≡ t.Called n.the_value (type_end_tree place x.order x.definition x.where_clause)) }
    ensures order { IfSome result (λ x. IsOrderIn place x.order) }
{
    match inside::part(Part::Value, tree) {
        Some(inner) => as_type_end(place, inner),
        None => None,
    }
}

/// A type: `type A<T>: B = C where ..;`.
#[derive(Clone, Copy)]
pub struct ItemType<'t, 'a> {
    /// Where it stands.
    pub place: Place,
    /// `type`
    pub type_token: &'a Ident,
    /// Its name.
    pub ident: &'a Ident,
    /// Its generic parameters.
    pub generics: &'t Tree<'a>,
    /// `:` and its bounds, as a form of the kind `BoundsColon`.
    pub bounds: &'t Tree<'a>,
    /// `=` and the type that it is.
    pub ty: Option<MarkedType<'t, 'a>>,
    /// Its where clause.
    pub where_clause: &'t Tree<'a>,
    /// In which order these two stand.
    pub where_order: WhereOrder,
    /// `;`
    pub semi_token: Mark,
}

impl<'t, 'a> ItemType<'t, 'a> {
    /// What a tree is, if it is that.
    #[tactic(auto, unfolding(syn_grammar::specs::Table::table))]
    pub fn of(tree: &'t Tree<'a>) -> Option<ItemType<'t, 'a>>
        ensures tree_is { MatchOption result ((p : k.Place) → IsShaped tree.now (g.ref (k.ATypeAlias p)) → ⊥)
            (λ x. tree.now ≡ item_type x) }
        ensures order { IfSome result (λ x. IsOrderIn x.place x.where_order) }
    {
        let Some((Kind::ATypeAlias(place), inner)) = take::node(tree) else {
            return None;
        };
        let Some((type_token, ident, generics, bounds, end, semi_token)) = take::six(inner) else {
            return None;
        };
        let Some((type_token, ident, generics, bounds, end, semi_token)) = joined::six(
            take::word(type_token),
            inside::word(Part::Name, ident),
            inside::part(Part::Generics, generics),
            inside::part(Part::Bounds, bounds),
            named_type_end(place, end),
            take::mark(semi_token),
        ) else {
            return None;
        };
        Some(ItemType {
            place,
            type_token,
            ident,
            generics,
            bounds,
            ty: end.definition,
            where_clause: end.where_clause,
            where_order: end.order,
            semi_token,
        })
    }
}

// Whether a where clause is written.
fn has_clause(tree: &Tree<'_>) -> bool
    ensures { IsShaped tree.now (g.ref k.Where) → result ≡ is_where tree.now }
{
    let Some(found) = OptionalWhere::of(tree) else {
        return false;
    };
    match found.clause {
        Some(_) => true,
        None => false,
    }
}

impl<'t, 'a> ItemType<'t, 'a> {
    /// Where its where clause stands: late exactly where one was read behind the definition.
    pub fn where_clause_placement(&self) -> WhereClausePlacement
        ensures { IsShaped self.now.where_clause.now (g.ref k.Where) → IsLate result ↔
            ((self.now.where_order ≡ WhereOrder.Behind) × (is_where self.now.where_clause.now ≡ true)) }
    {
        match self.where_order {
            WhereOrder::Before => WhereClausePlacement::Early,
            WhereOrder::Behind => if has_clause(self.where_clause) {
                WhereClausePlacement::Late
            } else {
                WhereClausePlacement::Early
            },
        }
    }
}
