//! Changes of functions, parameters and receivers.

use crate::change::{By, Change, Unmade, mark, tried};
use syn::{
    Arena, FnArg, ItemFn, Kind, OneParameter, Parameter, PatType, Receiver, ReceiverKind, Safety,
    Sign, Signature, Tree, Turns,
};
use syn_made::forms::Node;
use syn_made::to_tree::ToTree;
use syn_made::try_to_tree::TryToTree;

// A function that is declared alone, one without its block, or one with a semicolon.
impl<'a> Change<'a> for ItemFn<'a, 'a> {
    fn changed(by: By<'_, 'a>, tree: &'a Tree<'a>) -> Option<ItemFn<'a, 'a>> {
        let found = ItemFn::of(tree)?;
        let semi = Some(mark(Sign::Semi));
        let (block, semi_token) = match by.change {
            "declared" => (None, semi),
            "without block" => (None, found.semi_token),
            _ => (found.block, semi),
        };
        Some(ItemFn {
            block,
            semi_token,
            ..found
        })
    }
}

// The signature of a function, as of one that is `safe` to call.
impl<'a> Change<'a> for Signature<'a, 'a> {
    fn changed(by: By<'_, 'a>, tree: &'a Tree<'a>) -> Option<Signature<'a, 'a>> {
        let function = ItemFn::of(tree)?;
        let found = Signature::of(function.sig)?;
        let safety = Safety::Safe(by.word);
        Some(Signature { safety, ..found })
    }
}

// A parameter with its pattern and its type, if a tree is one by itself.
fn parameter<'t, 'a>(tree: &'t Tree<'a>) -> Option<(Parameter<'t, 'a>, PatType<'t, 'a>)> {
    let found = Parameter::of(OneParameter::of(tree)?.parameter)?;
    match found.arg {
        FnArg::Typed(typed) => Some((found, typed)),
        _ => None,
    }
}

// A pattern and its type, behind these attributes.
fn behind<'t, 'a>(attrs: &'t Tree<'a>, typed: PatType<'t, 'a>) -> FnArg<'t, 'a> {
    let attrs = Some(attrs);
    let typed = PatType { attrs, ..typed };
    FnArg::Typed(typed)
}

// A parameter, with another argument.
fn with_argument<'t, 'a>(found: Parameter<'t, 'a>, arg: FnArg<'t, 'a>) -> Parameter<'t, 'a> {
    Parameter { arg, ..found }
}

/// A parameter whose pattern has no attributes.
pub(crate) fn bare<'a>(arena: &'a Arena, tree: &Tree<'a>) -> Result<Option<Tree<'a>>, Unmade> {
    let Some((found, typed)) = parameter(tree) else {
        return Err(Unmade::NoRow);
    };
    let none = Node(Kind::OuterAttributes, Turns { each: &[] }).to_tree(arena)?;
    tried(with_argument(found, behind(&none, typed)).try_to_tree(arena))
}

// A receiver as it is taken by value, mutable where a reference of it was, or one that is taken by a reference, itself
// mutable where the reference is.
impl<'a> Change<'a> for Receiver<'a, 'a> {
    fn changed(by: By<'_, 'a>, tree: &'a Tree<'a>) -> Option<Receiver<'a, 'a>> {
        let found = Receiver::of(tree)?;
        let ReceiverKind::Reference(_, _, mutability) = found.kind else {
            return None;
        };
        let kind = match by.change {
            "by value" => ReceiverKind::Value,
            _ => found.kind,
        };
        Some(Receiver {
            mutability,
            kind,
            ..found
        })
    }
}
