//! Parts of paths, of generics, of data and of expressions that are read by themselves.

ghost use Rattle.reader_table.specs.Kinds.{kind_of};
ghost use Rattle.std.specs.Prelude.{◌≡◌};
ghost use Rattle.syn_ast.specs.Generics.{const_param, generic_param, lifetime_param, type_param, where_predicate};
ghost use Rattle.syn_ast.specs.Paths.{angle_bracketed_generic_arguments, generic_argument, index, macro, member};
ghost use Rattle.syn_ast.specs.Paths.{one_segment, parenthesized_generic_arguments};
ghost use Rattle.syn_ast.specs.TypeBounds.{trait_bound, type_param_bound};
ghost use Rattle.syn_data.specs.Data.{fields_named, fields_unnamed, variant};
ghost use Rattle.syn_expr.specs.Blocks.{label};
ghost use Rattle.syn_expr.specs.ExprParts.{arm, field_value};
ghost use Rattle.syn_grammar.specs.Kind as k;

use crate::typed::Parse;
use reader_table::kind::{Kind, Style};
use reader_tree::tree::Tree;
use syn_ast::bounds::{TraitBound, TypeParamBound};
use syn_ast::generics::{ConstParam, GenericParam, LifetimeParam, TypeParam, WherePredicate};
use syn_ast::paths::{
    AngleBracketedGenericArguments, GenericArgument, Index, Macro, Member, OneSegment,
    ParenthesizedGenericArguments,
};
use syn_data::data::{FieldsNamed, FieldsUnnamed, Variant};
use syn_expr::blocks::Label;
use syn_expr::expr::parts::{Arm, FieldValue};

impl<'a> Parse<'a> for OneSegment<'a, 'a> {
    ghost kind = { k.Segment k.InType };

    ghost says = { λ x tree. tree ≡ one_segment x };

    fn kind() -> Kind
        ensures { kind_of result ≡ k.Segment k.InType }
    {
        Kind::Segment(Style::InType)
    }

    #[tactic(auto, using(syn_part::proofs::Derived::shaped))]
    fn view(tree: &'a Tree<'a>) -> Option<OneSegment<'a, 'a>> {
        match OneSegment::of(tree) {
            Some(found) => Some(found),
            None => None,
        }
    }
}

impl<'a> Parse<'a> for GenericArgument<'a, 'a> {
    ghost kind = { k.AnArgument };

    ghost says = { λ x tree. tree ≡ generic_argument x };

    fn kind() -> Kind
        ensures { kind_of result ≡ k.AnArgument }
    {
        Kind::AnArgument
    }

    #[tactic(auto, using(syn_part::proofs::Derived::shaped))]
    fn view(tree: &'a Tree<'a>) -> Option<GenericArgument<'a, 'a>> {
        match GenericArgument::of(tree) {
            Some(found) => Some(found),
            None => None,
        }
    }
}

impl<'a> Parse<'a> for AngleBracketedGenericArguments<'a, 'a> {
    ghost kind = { k.Arguments };

    ghost says = { λ x tree. tree ≡ angle_bracketed_generic_arguments x };

    fn kind() -> Kind
        ensures { kind_of result ≡ k.Arguments }
    {
        Kind::Arguments
    }

    #[tactic(auto, using(syn_part::proofs::Derived::shaped))]
    fn view(tree: &'a Tree<'a>) -> Option<AngleBracketedGenericArguments<'a, 'a>> {
        match AngleBracketedGenericArguments::of(tree) {
            Some(found) => Some(found),
            None => None,
        }
    }
}

impl<'a> Parse<'a> for ParenthesizedGenericArguments<'a, 'a> {
    ghost kind = { k.ParenthesizedArguments };

    ghost says = { λ x tree. tree ≡ parenthesized_generic_arguments x };

    fn kind() -> Kind
        ensures { kind_of result ≡ k.ParenthesizedArguments }
    {
        Kind::ParenthesizedArguments
    }

    #[tactic(auto, using(syn_part::proofs::Derived::shaped))]
    fn view(tree: &'a Tree<'a>) -> Option<ParenthesizedGenericArguments<'a, 'a>> {
        match ParenthesizedGenericArguments::of(tree) {
            Some(found) => Some(found),
            None => None,
        }
    }
}

impl<'a> Parse<'a> for Macro<'a, 'a> {
    ghost kind = { k.AMacro };

    ghost says = { λ x tree. tree ≡ macro x };

    fn kind() -> Kind
        ensures { kind_of result ≡ k.AMacro }
    {
        Kind::AMacro
    }

    #[tactic(auto, using(syn_part::proofs::Derived::shaped))]
    fn view(tree: &'a Tree<'a>) -> Option<Macro<'a, 'a>> {
        match Macro::of(tree) {
            Some(found) => Some(found),
            None => None,
        }
    }
}

impl<'a> Parse<'a> for Index<'a> {
    ghost kind = { k.Index };

    ghost says = { λ x tree. tree ≡ index x };

    fn kind() -> Kind
        ensures { kind_of result ≡ k.Index }
    {
        Kind::Index
    }

    #[tactic(auto, using(syn_part::proofs::Derived::shaped))]
    fn view(tree: &'a Tree<'a>) -> Option<Index<'a>> {
        match Index::of(tree) {
            Some(found) => Some(found),
            None => None,
        }
    }
}

impl<'a> Parse<'a> for Member<'a> {
    ghost kind = { k.Member };

    ghost says = { λ x tree. tree ≡ member x };

    fn kind() -> Kind
        ensures { kind_of result ≡ k.Member }
    {
        Kind::Member
    }

    #[tactic(auto, using(syn_part::proofs::Derived::shaped))]
    fn view(tree: &'a Tree<'a>) -> Option<Member<'a>> {
        match Member::of(tree) {
            Some(found) => Some(found),
            None => None,
        }
    }
}

impl<'a> Parse<'a> for GenericParam<'a, 'a> {
    ghost kind = { k.GenericParam };

    ghost says = { λ x tree. tree ≡ generic_param x };

    fn kind() -> Kind
        ensures { kind_of result ≡ k.GenericParam }
    {
        Kind::GenericParam
    }

    #[tactic(auto, using(syn_part::proofs::Derived::shaped))]
    fn view(tree: &'a Tree<'a>) -> Option<GenericParam<'a, 'a>> {
        match GenericParam::of(tree) {
            Some(found) => Some(found),
            None => None,
        }
    }
}

impl<'a> Parse<'a> for LifetimeParam<'a, 'a> {
    ghost kind = { k.LifetimeParam };

    ghost says = { λ x tree. tree ≡ lifetime_param x };

    fn kind() -> Kind
        ensures { kind_of result ≡ k.LifetimeParam }
    {
        Kind::LifetimeParam
    }

    #[tactic(auto, using(syn_part::proofs::Derived::shaped))]
    fn view(tree: &'a Tree<'a>) -> Option<LifetimeParam<'a, 'a>> {
        match LifetimeParam::of(tree) {
            Some(found) => Some(found),
            None => None,
        }
    }
}

impl<'a> Parse<'a> for TypeParam<'a, 'a> {
    ghost kind = { k.TypeParam };

    ghost says = { λ x tree. tree ≡ type_param x };

    fn kind() -> Kind
        ensures { kind_of result ≡ k.TypeParam }
    {
        Kind::TypeParam
    }

    #[tactic(auto, using(syn_part::proofs::Derived::shaped))]
    fn view(tree: &'a Tree<'a>) -> Option<TypeParam<'a, 'a>> {
        match TypeParam::of(tree) {
            Some(found) => Some(found),
            None => None,
        }
    }
}

impl<'a> Parse<'a> for ConstParam<'a, 'a> {
    ghost kind = { k.ConstParam };

    ghost says = { λ x tree. tree ≡ const_param x };

    fn kind() -> Kind
        ensures { kind_of result ≡ k.ConstParam }
    {
        Kind::ConstParam
    }

    #[tactic(auto, using(syn_part::proofs::Derived::shaped))]
    fn view(tree: &'a Tree<'a>) -> Option<ConstParam<'a, 'a>> {
        match ConstParam::of(tree) {
            Some(found) => Some(found),
            None => None,
        }
    }
}

impl<'a> Parse<'a> for WherePredicate<'a, 'a> {
    ghost kind = { k.WherePredicate };

    ghost says = { λ x tree. tree ≡ where_predicate x };

    fn kind() -> Kind
        ensures { kind_of result ≡ k.WherePredicate }
    {
        Kind::WherePredicate
    }

    #[tactic(auto, using(syn_part::proofs::Derived::shaped))]
    fn view(tree: &'a Tree<'a>) -> Option<WherePredicate<'a, 'a>> {
        match WherePredicate::of(tree) {
            Some(found) => Some(found),
            None => None,
        }
    }
}

impl<'a> Parse<'a> for TypeParamBound<'a, 'a> {
    ghost kind = { k.Bound };

    ghost says = { λ x tree. tree ≡ type_param_bound x };

    fn kind() -> Kind
        ensures { kind_of result ≡ k.Bound }
    {
        Kind::Bound
    }

    #[tactic(auto, using(syn_part::proofs::Derived::shaped))]
    fn view(tree: &'a Tree<'a>) -> Option<TypeParamBound<'a, 'a>> {
        match TypeParamBound::of(tree) {
            Some(found) => Some(found),
            None => None,
        }
    }
}

impl<'a> Parse<'a> for TraitBound<'a, 'a> {
    ghost kind = { k.TraitPath };

    ghost says = { λ x tree. tree ≡ trait_bound x };

    fn kind() -> Kind
        ensures { kind_of result ≡ k.TraitPath }
    {
        Kind::TraitPath
    }

    #[tactic(auto, using(syn_part::proofs::Derived::shaped))]
    fn view(tree: &'a Tree<'a>) -> Option<TraitBound<'a, 'a>> {
        match TraitBound::of(tree) {
            Some(found) => Some(found),
            None => None,
        }
    }
}

impl<'a> Parse<'a> for FieldsNamed<'a, 'a> {
    ghost kind = { k.NamedFields };

    ghost says = { λ x tree. tree ≡ fields_named x };

    fn kind() -> Kind
        ensures { kind_of result ≡ k.NamedFields }
    {
        Kind::NamedFields
    }

    #[tactic(auto, using(syn_part::proofs::Derived::shaped))]
    fn view(tree: &'a Tree<'a>) -> Option<FieldsNamed<'a, 'a>> {
        match FieldsNamed::of(tree) {
            Some(found) => Some(found),
            None => None,
        }
    }
}

impl<'a> Parse<'a> for FieldsUnnamed<'a, 'a> {
    ghost kind = { k.UnnamedFields };

    ghost says = { λ x tree. tree ≡ fields_unnamed x };

    fn kind() -> Kind
        ensures { kind_of result ≡ k.UnnamedFields }
    {
        Kind::UnnamedFields
    }

    #[tactic(auto, using(syn_part::proofs::Derived::shaped))]
    fn view(tree: &'a Tree<'a>) -> Option<FieldsUnnamed<'a, 'a>> {
        match FieldsUnnamed::of(tree) {
            Some(found) => Some(found),
            None => None,
        }
    }
}

impl<'a> Parse<'a> for Variant<'a, 'a> {
    ghost kind = { k.Variant };

    ghost says = { λ x tree. tree ≡ variant x };

    fn kind() -> Kind
        ensures { kind_of result ≡ k.Variant }
    {
        Kind::Variant
    }

    #[tactic(auto, using(syn_part::proofs::Derived::shaped))]
    fn view(tree: &'a Tree<'a>) -> Option<Variant<'a, 'a>> {
        match Variant::of(tree) {
            Some(found) => Some(found),
            None => None,
        }
    }
}

impl<'a> Parse<'a> for Label<'a> {
    ghost kind = { k.Label };

    ghost says = { λ x tree. tree ≡ label x };

    fn kind() -> Kind
        ensures { kind_of result ≡ k.Label }
    {
        Kind::Label
    }

    #[tactic(auto, using(syn_part::proofs::Derived::shaped))]
    fn view(tree: &'a Tree<'a>) -> Option<Label<'a>> {
        match Label::of(tree) {
            Some(found) => Some(found),
            None => None,
        }
    }
}

impl<'a> Parse<'a> for FieldValue<'a, 'a> {
    ghost kind = { k.FieldValue };

    ghost says = { λ x tree. tree ≡ field_value x };

    fn kind() -> Kind
        ensures { kind_of result ≡ k.FieldValue }
    {
        Kind::FieldValue
    }

    #[tactic(auto, using(syn_part::proofs::Derived::shaped))]
    fn view(tree: &'a Tree<'a>) -> Option<FieldValue<'a, 'a>> {
        match FieldValue::of(tree) {
            Some(found) => Some(found),
            None => None,
        }
    }
}

impl<'a> Parse<'a> for Arm<'a, 'a> {
    ghost kind = { k.Arm };

    ghost says = { λ x tree. tree ≡ arm x };

    fn kind() -> Kind
        ensures { kind_of result ≡ k.Arm }
    {
        Kind::Arm
    }

    fn view(tree: &'a Tree<'a>) -> Option<Arm<'a, 'a>> {
        match Arm::of(tree) {
            Some(found) => Some(found),
            None => None,
        }
    }
}
