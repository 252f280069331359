//! Impls.

ghost use Rattle.std.specs.Prelude.{◌≡◌, ◌↔◌, IfOk, IsTrue};
ghost use Rattle.syn_grammar.specs.Tree as t;
ghost use Rattle.syn_item.specs.ItemImpls.{impl_body_tree, impl_items, item_impl};
ghost use Rattle.syn_made.specs.MadeWhole.{IsPolarityOf};

use crate::forms::{Called, First, Grouped, Second};
use crate::item::part::MaybeCalled;
use crate::put::node;
use crate::to_tree::ToTree;
use crate::try_to_tree::TryToTree;
use reader_table::kind::Kind;
use reader_table::part::Part;
use reader_tree::arena::Arena;
use reader_tree::tree::Tree;
use std::alloc::AllocError;
use syn_item::impls::{ImplItems, ImplTrait, ItemImpl};
use syn_part::leaf::Mark;

// Of an impl the trait and the type, or the type alone; a where clause and the braces.
#[derive(Clone, Copy)]
struct ImplBody<'i, 't, 'a>(&'i ItemImpl<'t, 'a>);

impl<'i, 't, 'a> ToTree<'a> for ImplBody<'i, 't, 'a> {
    ghost tree = { λ x. impl_body_tree x.0.now.trait_ x.0.now.self_ty x.0.now.where_clause
        (t.Group x.0.now.brace_token.delimiter (t.Pair x.0.now.attrs.now x.0.now.items.now)) };

    fn to_tree(&self, arena: &'a Arena) -> Result<Tree<'a>, AllocError> {
        let item = self.0;
        let where_clause = Called(Part::Where, item.where_clause);
        let body = Grouped(item.brace_token, (item.attrs, item.items));
        match item.trait_ {
            Some(found) => {
                let path = Called(Part::First, found.path);
                let for_type = First((found.for_token, Called(Part::SelfType, item.self_ty)));
                (path, for_type, where_clause, body).to_tree(arena)
            }
            None => {
                let self_ty = Called(Part::First, item.self_ty);
                (self_ty, Second(()), where_clause, body).to_tree(arena)
            }
        }
    }
}

// An impl, as a node of its kind.
fn impl_node<'a>(arena: &'a Arena, item: &ItemImpl<'_, 'a>) -> Result<Tree<'a>, AllocError>
    ensures { IfOk result (λ x. x ≡ item_impl item.now) }
{
    let defaultness = MaybeCalled(Part::Default, item.modifiers.defaultness);
    let constness = MaybeCalled(Part::Const, item.constness);
    let unsafety = MaybeCalled(Part::Safety, item.unsafety);
    let generics = Called(Part::Generics, item.generics);
    let polarity = MaybeCalled(Part::Polarity, item.modifiers.polarity);
    let named = (item.impl_token, generics, polarity, ImplBody(item));
    let inside = (defaultness, constness, unsafety, named);
    node(arena, Kind::AnImpl, &First(inside))
}

// Whether `!` may stand there, if it does: before a trait alone.
fn is_polarity_of(of: Option<ImplTrait<'_, '_>>, polarity: Option<Mark>) -> bool
    ensures { IsTrue result ↔ IsPolarityOf of.entry polarity }
{
    match (of, polarity) {
        (Some(_), _) => true,
        (None, None) => true,
        (None, Some(_)) => false,
    }
}

impl<'t, 'a> TryToTree<'a> for ItemImpl<'t, 'a> {
    ghost says = { λ x tree. IsPolarityOf x.trait_ x.modifiers.polarity × (tree ≡ item_impl x) };

    fn try_to_tree(&self, arena: &'a Arena) -> Result<Option<Tree<'a>>, AllocError> {
        if is_polarity_of(self.trait_, self.modifiers.polarity) {
            return Ok(Some(impl_node(arena, self)?));
        }
        Ok(None)
    }
}

impl<'t, 'a> ToTree<'a> for ImplItems<'t, 'a> {
    ghost tree = { impl_items };

    fn to_tree(&self, arena: &'a Arena) -> Result<Tree<'a>, AllocError> {
        node(arena, Kind::ImplItems, &self.items)
    }
}
