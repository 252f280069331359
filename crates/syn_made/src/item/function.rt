//! Functions: their signatures, parameters and receivers.

ghost use Rattle.std.specs.Prelude.{◌≡◌, ◌↔◌, IsTrue};
ghost use Rattle.syn_item.specs.ItemFunctions.{IsItemFn, IsReceiver, fn_arg_tree, one_parameter, parameter, parameters};
ghost use Rattle.syn_item.specs.ItemFunctions.{safety_is, signature, variadic_tree};
ghost use Rattle.syn_made.specs.MadeWhole.{AreOwn, IsSafetyIn};

use crate::forms::{Called, First, Grouped, Second};
use crate::put::{behind, node, nth, some_node};
use crate::to_tree::ToTree;
use crate::try_to_tree::TryToTree;
use reader_table::kind::{Kind, Place};
use reader_table::part::Part;
use reader_tree::arena::Arena;
use reader_tree::tree::Tree;
use std::alloc::AllocError;
use syn_item::function::{
    FnArg, ItemFn, OneParameter, Parameter, Parameters, Receiver, ReceiverKind, Safety, Signature,
    Variadic,
};
use tree_equal::tree::equal;

impl<'t, 'a> ToTree<'a> for Parameters<'t, 'a> {
    ghost tree = { parameters };

    fn to_tree(&self, arena: &'a Arena) -> Result<Tree<'a>, AllocError> {
        let inside = Grouped(self.paren_token, self.inputs);
        node(arena, Kind::Parameters, &First(inside))
    }
}

impl<'t, 'a> ToTree<'a> for Variadic<'t, 'a> {
    ghost tree = { λ x. variadic_tree x.pat x.dots };

    fn to_tree(&self, arena: &'a Arena) -> Result<Tree<'a>, AllocError> {
        let dots = First(Called(Part::Dots, self.dots));
        match self.pat {
            Some(found) => {
                let pat = Called(Part::Pattern, found.pat);
                behind(arena, 3, &(pat, found.colon_token, dots))
            }
            None => behind(arena, 1, &dots),
        }
    }
}

// What a parameter is behind its attributes.
impl<'t, 'a> ToTree<'a> for FnArg<'t, 'a> {
    ghost tree = { fn_arg_tree };

    fn to_tree(&self, arena: &'a Arena) -> Result<Tree<'a>, AllocError> {
        match *self {
            FnArg::Receiver(receiver) => nth(arena, 0, &Called(Part::Receiver, receiver)),
            FnArg::Typed(typed) => {
                let pat = Called(Part::Pattern, typed.pat);
                let ty = Second(Called(Part::Type, typed.ty));
                behind(arena, 3, &(pat, typed.colon_token, ty))
            }
            FnArg::Unnamed(ty) => nth(arena, 2, &Called(Part::Unnamed, ty)),
            FnArg::Variadic(variadic) => variadic.to_tree(arena),
        }
    }
}

// Whether a pattern with its type has no attributes but those of the parameter that it is.
fn are_own(attrs: &Tree<'_>, arg: &FnArg<'_, '_>) -> bool
    ensures { IsTrue result ↔ AreOwn attrs.now arg.now }
{
    match arg {
        FnArg::Typed(typed) => match typed.attrs {
            Some(own) => equal(own, attrs),
            None => true,
        },
        FnArg::Receiver(_) => true,
        FnArg::Unnamed(_) => true,
        FnArg::Variadic(_) => true,
    }
}

impl<'t, 'a> TryToTree<'a> for Parameter<'t, 'a> {
    ghost says = { λ x tree. AreOwn x.attrs.now x.arg × (tree ≡ parameter x) };

    fn try_to_tree(&self, arena: &'a Arena) -> Result<Option<Tree<'a>>, AllocError> {
        if are_own(self.attrs, &self.arg) {
            return some_node(arena, Kind::Parameter, &(self.attrs, self.arg));
        }
        Ok(None)
    }
}

impl<'t, 'a> ToTree<'a> for OneParameter<'t, 'a> {
    ghost tree = { one_parameter };

    fn to_tree(&self, arena: &'a Arena) -> Result<Tree<'a>, AllocError> {
        node(arena, Kind::FnArg, &First(self.parameter))
    }
}

impl<'t, 'a> TryToTree<'a> for Receiver<'t, 'a> {
    ghost says = { IsReceiver };

    fn try_to_tree(&self, arena: &'a Arena) -> Result<Option<Tree<'a>>, AllocError> {
        match (self.kind, self.mutability) {
            (ReceiverKind::Value, mutability) => {
                let value = (mutability, self.self_token, Second(()));
                some_node(arena, Kind::Receiver, &Second(value))
            }
            (ReceiverKind::Typed(colon, ty), mutability) => {
                let value = (mutability, self.self_token, First((colon, ty)));
                some_node(arena, Kind::Receiver, &Second(value))
            }
            (ReceiverKind::Reference(and, lifetime, mutability), None) => {
                let reference = (and, lifetime, mutability, self.self_token);
                some_node(arena, Kind::Receiver, &First(reference))
            }
            _ => Ok(None),
        }
    }
}

impl<'a> ToTree<'a> for Safety<'a> {
    ghost tree = { safety_is };

    fn to_tree(&self, arena: &'a Arena) -> Result<Tree<'a>, AllocError> {
        match *self {
            Safety::Unsafe(word) => nth(arena, 0, &Called(Part::Safety, word)),
            Safety::Safe(word) => nth(arena, 0, &Called(Part::Safety, word)),
            Safety::Default => behind(arena, 1, &()),
        }
    }
}

// Whether a function of that safety may stand there: one that is `safe` in an extern block alone.
fn is_safety_in(place: Place, safety: Safety<'_>) -> bool
    ensures { IsTrue result ↔ IsSafetyIn place safety.entry }
{
    match (place, safety) {
        (Place::InForeign, _) => true,
        (_, Safety::Safe(_)) => false,
        (_, Safety::Unsafe(_)) => true,
        (_, Safety::Default) => true,
    }
}

impl<'t, 'a> TryToTree<'a> for Signature<'t, 'a> {
    ghost says = { λ x tree. IsSafetyIn x.place x.safety × (tree ≡ signature x) };

    fn try_to_tree(&self, arena: &'a Arena) -> Result<Option<Tree<'a>>, AllocError> {
        if !is_safety_in(self.place, self.safety) {
            return Ok(None);
        }
        let ident = Called(Part::Name, self.ident);
        let generics = Called(Part::Generics, self.generics);
        let where_clause = Called(Part::Where, self.where_clause);
        let types = (self.inputs, self.output, where_clause);
        let named = (self.abi, self.fn_token, ident, (generics, types));
        let inside = (self.constness, self.asyncness, self.safety, named);
        Ok(Some(node(arena, Kind::Signature(self.place), &inside)?))
    }
}

impl<'t, 'a> TryToTree<'a> for ItemFn<'t, 'a> {
    ghost says = { IsItemFn };

    fn try_to_tree(&self, arena: &'a Arena) -> Result<Option<Tree<'a>>, AllocError> {
        let kind = Kind::AFunction(self.place);
        match (self.block, self.semi_token) {
            (Some(block), None) => {
                let body = First(Called(Part::Body, block));
                some_node(arena, kind, &(self.sig, body))
            }
            (None, Some(semi)) => some_node(arena, kind, &(self.sig, Second(semi))),
            _ => Ok(None),
        }
    }
}
