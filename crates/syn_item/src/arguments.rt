//! What a signature says of its arguments: the receiver in front, and the dots at the end.

ghost use Rattle.std.specs.Prelude.{◌≡◌, IsSomeAnd, MatchOption, None, Some};
ghost use Rattle.syn_grammar.specs.Gram as g;
ghost use Rattle.syn_grammar.specs.Kind as k;
ghost use Rattle.syn_item.specs.ItemArguments.{first_element, first_receiver, last_element, last_variadic};
ghost use Rattle.syn_item.specs.ItemArguments.{receiver_in, variadic_in};
ghost use Rattle.syn_item.specs.ItemFunctions.{IsReceiver, variadic_tree};
ghost use Rattle.syn_part.specs.Kept.{IsKept};
ghost use Rattle.syn_part.specs.Leaves.{list_tree};
ghost use Rattle.syn_part.specs.Shape.{IsShaped};

use crate::function::{FnArg, Parameter, Parameters, Receiver, Signature, Variadic};
use reader_tree::tree::Tree;
use syn_part::list::Elements;

// The first of some elements.
fn first_of<'t, 'a>(list: Elements<'t, 'a>) -> Option<&'t Tree<'a>>
    ensures { MatchOption result (first_element (list_tree list.entry) ≡ None)
        (λ x. first_element (list_tree list.entry) ≡ Some x.now) }
{
    match list.before.first() {
        Some(element) => Some(&element.tree),
        None => list.last,
    }
}

// The last of some elements.
#[tactic(auto, using(crate::proofs::ItemArgumentLaws::lasts))]
fn last_of<'t, 'a>(list: Elements<'t, 'a>) -> Option<&'t Tree<'a>>
    ensures { MatchOption result (last_element (list_tree list.entry) ≡ None)
        (λ x. last_element (list_tree list.entry) ≡ Some x.now) }
{
    match list.last {
        Some(tree) => Some(tree),
        None => match list.before.split_last() {
            Some((element, _)) => Some(&element.tree),
            None => None,
        },
    }
}

// The receiver that a parameter is.
#[tactic(auto, unfolding(syn_grammar::specs::Table::table))]
fn as_receiver<'t, 'a>(tree: &'t Tree<'a>) -> Option<Receiver<'t, 'a>>
    ensures { MatchOption result (IsShaped tree.now (g.ref k.Parameter) → receiver_in tree.now ≡ None)
        (λ r. IsSomeAnd (receiver_in tree.now) (λ x. IsReceiver r x)) }
{
    let Some(parameter) = Parameter::of(tree) else {
        return None;
    };
    match parameter.arg {
        FnArg::Receiver(receiver) => match Receiver::of(receiver) {
            Some(found) => Some(found),
            None => None,
        },
        FnArg::Typed(_) => None,
        FnArg::Unnamed(_) => None,
        FnArg::Variadic(_) => None,
    }
}

// The dots that a parameter is.
#[tactic(auto, unfolding(syn_grammar::specs::Table::table))]
fn as_variadic<'t, 'a>(tree: &'t Tree<'a>) -> Option<Variadic<'t, 'a>>
    ensures { MatchOption result (IsShaped tree.now (g.ref k.Parameter) → variadic_in tree.now ≡ None)
        (λ v. variadic_in tree.now ≡ Some (variadic_tree v.pat v.dots)) }
{
    let Some(parameter) = Parameter::of(tree) else {
        return None;
    };
    match parameter.arg {
        FnArg::Variadic(found) => Some(found),
        FnArg::Receiver(_) => None,
        FnArg::Typed(_) => None,
        FnArg::Unnamed(_) => None,
    }
}

impl<'t, 'a> Signature<'t, 'a> {
    /// Its receiver, if its first parameter is one.
    pub fn receiver(&self) -> Option<Receiver<'t, 'a>>
        ensures { MatchOption result (IsKept self.now.inputs.now → IsShaped self.now.inputs.now (g.ref k.Parameters)
            → first_receiver self.now.inputs.now ≡ None)
            (λ r. IsSomeAnd (first_receiver self.now.inputs.now) (λ x. IsReceiver r x)) }
    {
        let Some(parameters) = Parameters::of(self.inputs) else {
            return None;
        };
        let Some(first) = first_of(parameters.inputs) else {
            return None;
        };
        match as_receiver(first) {
            Some(found) => Some(found),
            None => None,
        }
    }

    /// Its dots, if its last parameter is that: it takes any number of further arguments.
    pub fn variadic(&self) -> Option<Variadic<'t, 'a>>
        ensures { MatchOption result (IsKept self.now.inputs.now → IsShaped self.now.inputs.now (g.ref k.Parameters)
            → last_variadic self.now.inputs.now ≡ None)
            (λ v. last_variadic self.now.inputs.now ≡ Some (variadic_tree v.pat v.dots)) }
    {
        let Some(parameters) = Parameters::of(self.inputs) else {
            return None;
        };
        let Some(last) = last_of(parameters.inputs) else {
            return None;
        };
        match as_variadic(last) {
            Some(found) => Some(found),
            None => None,
        }
    }
}
