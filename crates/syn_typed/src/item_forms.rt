//! Items, what stands in them, and fields, that are read by themselves.

ghost use Rattle.reader_table.specs.Kinds.{kind_of};
ghost use Rattle.std.specs.Prelude.{◌≡◌, MatchOption};
ghost use Rattle.syn_data.specs.Data.{named_field, unnamed_field};
ghost use Rattle.syn_grammar.specs.Gram.{ref};
ghost use Rattle.syn_grammar.specs.Kind as k;
ghost use Rattle.syn_grammar.specs.Tree as t;
ghost use Rattle.syn_item.specs.ItemEntries.{foreign_item_static, one_macro, one_trait};
ghost use Rattle.syn_item.specs.ItemForms.{Is};
ghost use Rattle.syn_item.specs.ItemFunctions.{IsBehind, IsReceiver, IsSafety, parameter, signature};
ghost use Rattle.syn_item.specs.ItemMembers.{associated_item, foreign_item, form_of_foreign_item, form_of_impl_item};
ghost use Rattle.syn_item.specs.ItemMembers.{form_of_trait_item};
ghost use Rattle.syn_part.specs.Kept.{IsKept};
ghost use Rattle.syn_part.specs.Shape.{IsShaped};

use crate::typed::Parse;
use reader_table::kind::{Kind, Place};
use reader_tree::tree::Tree;
use syn_data::data::{NamedField, UnnamedField};
use syn_item::entry::{ForeignItemStatic, OneMacro, OneTrait};
use syn_item::function::{OneParameter, Parameter, Receiver, Signature};
use syn_item::item::Item;
use syn_item::members::{AssociatedItem, ForeignItem, ImplItem, TraitItem};

/// An item of any kind, read by itself with its attributes and its visibility.
#[derive(Clone, Copy)]
pub struct AnyItem<'a> {
    /// All of it, as a form of the kind `AnItem`: if it is kept as it was read, `ItemParts::of` has its attributes and
    /// its visibility.
    pub tree: &'a Tree<'a>,
    /// The item behind them, by its form.
    pub item: Item<'a, 'a>,
}

/// An item of an extern block, read by itself with its attributes and its visibility.
#[derive(Clone, Copy)]
pub struct OneForeignItem<'a> {
    /// All of it, as a form of the kind `AForeignItem`: if it is kept as it was read, `ForeignParts::of` has its
    /// attributes and its visibility.
    pub tree: &'a Tree<'a>,
    /// The item behind them, by its form.
    pub item: ForeignItem<'a, 'a>,
}

/// An item of a trait, read by itself.
#[derive(Clone, Copy)]
pub struct OneTraitItem<'a> {
    /// All of it, as a form of the kind `ATraitItem`: if it is kept as it was read, `PlacedParts::in_trait` has its
    /// attributes and its visibility.
    pub tree: &'a Tree<'a>,
    /// The item, by its form.
    pub item: TraitItem<'a, 'a>,
}

/// An item of an impl, read by itself.
#[derive(Clone, Copy)]
pub struct OneImplItem<'a> {
    /// All of it, as a form of the kind `AnImplItem`: if it is kept as it was read, `PlacedParts::in_impl` has its
    /// attributes and its visibility.
    pub tree: &'a Tree<'a>,
    /// The item, by its form.
    pub item: ImplItem<'a, 'a>,
}

impl<'a> Parse<'a> for NamedField<'a, 'a> {
    ghost kind = { k.NamedField };

    ghost says = { λ x tree. tree ≡ named_field x };

    fn kind() -> Kind
        ensures { kind_of result ≡ k.NamedField }
    {
        Kind::NamedField
    }

    #[tactic(auto, using(syn_part::proofs::Derived::shaped))]
    fn view(tree: &'a Tree<'a>) -> Option<NamedField<'a, 'a>> {
        match NamedField::of(tree) {
            Some(found) => Some(found),
            None => None,
        }
    }
}

impl<'a> Parse<'a> for UnnamedField<'a, 'a> {
    ghost kind = { k.UnnamedField };

    ghost says = { λ x tree. tree ≡ unnamed_field x };

    fn kind() -> Kind
        ensures { kind_of result ≡ k.UnnamedField }
    {
        Kind::UnnamedField
    }

    #[tactic(auto, using(syn_part::proofs::Derived::shaped))]
    fn view(tree: &'a Tree<'a>) -> Option<UnnamedField<'a, 'a>> {
        match UnnamedField::of(tree) {
            Some(found) => Some(found),
            None => None,
        }
    }
}

impl<'a> Parse<'a> for Signature<'a, 'a> {
    ghost kind = { k.Signature k.InFile };

    ghost says = { λ x tree. (tree ≡ signature x) × IsSafety x.safety };

    fn kind() -> Kind
        ensures { kind_of result ≡ k.Signature k.InFile }
    {
        Kind::Signature(Place::InFile)
    }

    #[tactic(auto, using(syn_part::proofs::Derived::shaped))]
    fn view(tree: &'a Tree<'a>) -> Option<Signature<'a, 'a>> {
        match Signature::of(tree) {
            Some(found) => Some(found),
            None => None,
        }
    }
}

impl<'a> Parse<'a> for Receiver<'a, 'a> {
    ghost kind = { k.Receiver };

    ghost says = { λ x tree. IsReceiver x tree };

    fn kind() -> Kind
        ensures { kind_of result ≡ k.Receiver }
    {
        Kind::Receiver
    }

    #[tactic(auto, using(syn_part::proofs::Derived::shaped))]
    fn view(tree: &'a Tree<'a>) -> Option<Receiver<'a, 'a>> {
        match Receiver::of(tree) {
            Some(found) => Some(found),
            None => None,
        }
    }
}

// What a parameter that is read by itself is.
#[tactic(auto, unfolding(syn_grammar::specs::Table::table))]
fn one_parameter<'a>(tree: &'a Tree<'a>) -> Option<Parameter<'a, 'a>>
    ensures { MatchOption result (IsKept tree.now → IsShaped tree.now (ref k.FnArg) → ⊥)
        (λ x. (tree.now ≡ t.Node k.FnArg (t.First (parameter x))) × IsBehind x.attrs x.arg) }
{
    match OneParameter::of(tree) {
        Some(alone) => match Parameter::of(alone.parameter) {
            Some(found) => Some(found),
            None => None,
        },
        None => None,
    }
}

impl<'a> Parse<'a> for Parameter<'a, 'a> {
    ghost kind = { k.FnArg };

    ghost says = { λ x tree. (tree ≡ t.Node k.FnArg (t.First (parameter x))) × IsBehind x.attrs x.arg };

    fn kind() -> Kind
        ensures { kind_of result ≡ k.FnArg }
    {
        Kind::FnArg
    }

    fn view(tree: &'a Tree<'a>) -> Option<Parameter<'a, 'a>> {
        match one_parameter(tree) {
            Some(found) => Some(found),
            None => None,
        }
    }
}

impl<'a> Parse<'a> for ForeignItem<'a, 'a> {
    ghost kind = { k.AForeignItem };

    ghost says = { λ x tree. form_of_foreign_item tree ≡ foreign_item x };

    fn kind() -> Kind
        ensures { kind_of result ≡ k.AForeignItem }
    {
        Kind::AForeignItem
    }

    #[tactic(auto, using(syn_part::proofs::Derived::shaped))]
    fn view(tree: &'a Tree<'a>) -> Option<ForeignItem<'a, 'a>> {
        match ForeignItem::of(tree) {
            Some(found) => Some(found),
            None => None,
        }
    }
}

impl<'a> Parse<'a> for AnyItem<'a> {
    ghost kind = { k.AnItem };

    ghost says = { λ x tree. (tree ≡ x.tree.now) × Is tree x.item };

    fn kind() -> Kind
        ensures { kind_of result ≡ k.AnItem }
    {
        Kind::AnItem
    }

    #[tactic(auto, using(syn_part::proofs::Derived::shaped))]
    fn view(tree: &'a Tree<'a>) -> Option<AnyItem<'a>> {
        match Item::of(tree) {
            Some(item) => Some(AnyItem { tree, item }),
            None => None,
        }
    }
}

impl<'a> Parse<'a> for OneForeignItem<'a> {
    ghost kind = { k.AForeignItem };

    ghost says = { λ x tree. (tree ≡ x.tree.now) × (form_of_foreign_item tree ≡ foreign_item x.item) };

    fn kind() -> Kind
        ensures { kind_of result ≡ k.AForeignItem }
    {
        Kind::AForeignItem
    }

    #[tactic(auto, using(syn_part::proofs::Derived::shaped))]
    fn view(tree: &'a Tree<'a>) -> Option<OneForeignItem<'a>> {
        match ForeignItem::of(tree) {
            Some(item) => Some(OneForeignItem { tree, item }),
            None => None,
        }
    }
}

impl<'a> Parse<'a> for OneTraitItem<'a> {
    ghost kind = { k.ATraitItem };

    ghost says = { λ x tree. (tree ≡ x.tree.now) × (form_of_trait_item tree ≡ associated_item x.item) };

    fn kind() -> Kind
        ensures { kind_of result ≡ k.ATraitItem }
    {
        Kind::ATraitItem
    }

    #[tactic(auto, using(syn_part::proofs::Derived::shaped))]
    fn view(tree: &'a Tree<'a>) -> Option<OneTraitItem<'a>> {
        match AssociatedItem::in_trait(tree) {
            Some(item) => Some(OneTraitItem { tree, item }),
            None => None,
        }
    }
}

impl<'a> Parse<'a> for OneImplItem<'a> {
    ghost kind = { k.AnImplItem };

    ghost says = { λ x tree. (tree ≡ x.tree.now) × (form_of_impl_item tree ≡ associated_item x.item) };

    fn kind() -> Kind
        ensures { kind_of result ≡ k.AnImplItem }
    {
        Kind::AnImplItem
    }

    #[tactic(auto, using(syn_part::proofs::Derived::shaped))]
    fn view(tree: &'a Tree<'a>) -> Option<OneImplItem<'a>> {
        match AssociatedItem::in_impl(tree) {
            Some(item) => Some(OneImplItem { tree, item }),
            None => None,
        }
    }
}

impl<'a> Parse<'a> for ForeignItemStatic<'a, 'a> {
    ghost kind = { k.ForeignItemStatic };

    ghost says = { λ x tree. (tree ≡ foreign_item_static x) × IsSafety x.safety };

    fn kind() -> Kind
        ensures { kind_of result ≡ k.ForeignItemStatic }
    {
        Kind::ForeignItemStatic
    }

    fn view(tree: &'a Tree<'a>) -> Option<ForeignItemStatic<'a, 'a>> {
        match ForeignItemStatic::of(tree) {
            Some(found) => Some(found),
            None => None,
        }
    }
}

impl<'a> Parse<'a> for OneMacro<'a, 'a> {
    ghost kind = { k.OneMacro k.InFile };

    ghost says = { λ x tree. tree ≡ one_macro x };

    fn kind() -> Kind
        ensures { kind_of result ≡ k.OneMacro k.InFile }
    {
        Kind::OneMacro(Place::InFile)
    }

    #[tactic(auto, using(syn_part::proofs::Derived::shaped))]
    fn view(tree: &'a Tree<'a>) -> Option<OneMacro<'a, 'a>> {
        match OneMacro::of(tree) {
            Some(found) => Some(found),
            None => None,
        }
    }
}

impl<'a> Parse<'a> for OneTrait<'a, 'a> {
    ghost kind = { k.ItemTrait };

    ghost says = { λ x tree. tree ≡ t.Node k.ItemTrait (one_trait x) };

    fn kind() -> Kind
        ensures { kind_of result ≡ k.ItemTrait }
    {
        Kind::ItemTrait
    }

    fn view(tree: &'a Tree<'a>) -> Option<OneTrait<'a, 'a>> {
        match OneTrait::of(tree) {
            Some(found) => Some(found),
            None => None,
        }
    }
}
