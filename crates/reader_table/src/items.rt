//! The entries of items, behind their attributes and their visibility.

// Written by tools/rows.py from the entries of the written grammar.

ghost use Rattle.reader_table.specs.Kinds.{kind_of};
ghost use Rattle.reader_table.specs.Ops.{gram_of};
ghost use Rattle.reader_table.specs.declared.kind.Kind.TheVariants as kinds;
ghost use Rattle.std.specs.Prelude.{◌≡◌};
ghost use Rattle.syn_grammar.specs.Table.{table};

use crate::composite::Composite;
use crate::kind::{Kind, Place, Plus, Position, Style};
use crate::op::{Look, Op, Separator, Test, Verdicts};
use crate::part::Part;
use crate::word::{Keyword, Sign, Words};
use proc_macro2::delimiter::Delimiter;

/// { inner attributes, statements }
#[rattlefmt::skip]
pub(crate) static BODY: [Op; 4] = [
    Op::Group(Delimiter::Brace), Op::Seq(1), Op::Ref(Kind::InnerAttributes), Op::Ref(Kind::Statements),
];

/// pub with a restriction where one stands there, and else alone, the group left unread; or nothing.
#[rattlefmt::skip]
pub(crate) static VISIBILITY: [Op; 14] = [
    Op::Alt(Test::Sees(Look::Word(Words::Keyword(Keyword::Pub))), 12), Op::Seq(2), Op::Called(Part::Pub),
    Op::Word(Words::Keyword(Keyword::Pub)), Op::Alt(Test::Sees(Look::Composite(Composite::AnyRestriction)), 7),
    Op::Alt(Test::Sees(Look::Composite(Composite::RestrictedIn)), 4), Op::Group(Delimiter::Parenthesis), Op::Seq(1),
    Op::Word(Words::Keyword(Keyword::In)), Op::Ref(Kind::Path(Style::InModule)), Op::Group(Delimiter::Parenthesis),
    Op::Word(Words::Restriction), Op::Nothing, Op::Nothing,
];

/// { fields }
#[rattlefmt::skip]
pub(crate) static NAMED_FIELDS: [Op; 3] = [
    Op::Group(Delimiter::Brace), Op::Many(Test::Sees(Look::End), Separator::Comma), Op::Ref(Kind::NamedField),
];

/// (fields)
#[rattlefmt::skip]
pub(crate) static UNNAMED_FIELDS: [Op; 3] = [
    Op::Group(Delimiter::Parenthesis), Op::Many(Test::Sees(Look::End), Separator::Comma), Op::Ref(Kind::UnnamedField),
];

/// Attributes, visibility, (Ident or _) : Type, and (= Expr)?
#[rattlefmt::skip]
pub(crate) static NAMED_FIELD: [Op; 18] = [
    Op::Seq(1), Op::Ref(Kind::OuterAttributes), Op::Seq(1), Op::Ref(Kind::Visibility), Op::Seq(3),
    Op::Alt(Test::Sees(Look::Word(Words::Keyword(Keyword::Underscore))), 1),
    Op::Word(Words::Keyword(Keyword::Underscore)), Op::Word(Words::Ident), Op::Seq(1), Op::Mark(Sign::Colon),
    Op::Seq(1), Op::Ref(Kind::AType(Plus::WithPlus)), Op::Alt(Test::Sees(Look::Mark(Sign::Eq)), 4), Op::Seq(1),
    Op::Mark(Sign::Eq), Op::Called(Part::Value), Op::Ref(Kind::Expression(Position::Plain)), Op::Nothing,
];

/// Attributes, visibility, Type; a = behind it is refused
#[rattlefmt::skip]
pub(crate) static UNNAMED_FIELD: [Op; 9] = [
    Op::Seq(1), Op::Ref(Kind::OuterAttributes), Op::Seq(1), Op::Ref(Kind::Visibility), Op::Seq(1),
    Op::Ref(Kind::AType(Plus::WithPlus)), Op::Alt(Test::Sees(Look::Mark(Sign::Eq)), 1), Op::Never, Op::Nothing,
];

/// Attributes, a visibility that is forgotten, Ident, {fields} or (fields) or none, and (= Expr)?
#[rattlefmt::skip]
pub(crate) static VARIANT: [Op; 19] = [
    Op::Seq(1), Op::Ref(Kind::OuterAttributes), Op::Seq(2), Op::Dropped, Op::Ref(Kind::Visibility), Op::Seq(1),
    Op::Word(Words::Ident), Op::Seq(5), Op::Alt(Test::Sees(Look::Opens(Delimiter::Brace)), 1),
    Op::Ref(Kind::NamedFields), Op::Alt(Test::Sees(Look::Opens(Delimiter::Parenthesis)), 1),
    Op::Ref(Kind::UnnamedFields), Op::Nothing, Op::Alt(Test::Sees(Look::Mark(Sign::Eq)), 4), Op::Seq(1),
    Op::Mark(Sign::Eq), Op::Called(Part::Value), Op::Ref(Kind::Expression(Position::Plain)), Op::Nothing,
];

/// struct Ident generics, and then (fields) where? ; or where? {fields} or where? ;
#[rattlefmt::skip]
pub(crate) static A_STRUCT: [Op; 21] = [
    Op::Seq(1), Op::Word(Words::Keyword(Keyword::Struct)), Op::Seq(2), Op::Called(Part::Name), Op::Word(Words::Ident),
    Op::Seq(2), Op::Called(Part::Generics), Op::Ref(Kind::Generics),
    Op::Alt(Test::Sees(Look::Opens(Delimiter::Parenthesis)), 6), Op::Seq(1), Op::Ref(Kind::UnnamedFields), Op::Seq(2),
    Op::Called(Part::Where), Op::Ref(Kind::Where), Op::Mark(Sign::Semi), Op::Seq(2), Op::Called(Part::Where),
    Op::Ref(Kind::Where), Op::Alt(Test::Sees(Look::Opens(Delimiter::Brace)), 1), Op::Ref(Kind::NamedFields),
    Op::Mark(Sign::Semi),
];

/// enum Ident generics where? {variants}
#[rattlefmt::skip]
pub(crate) static AN_ENUM: [Op; 14] = [
    Op::Seq(1), Op::Word(Words::Keyword(Keyword::Enum)), Op::Seq(2), Op::Called(Part::Name), Op::Word(Words::Ident),
    Op::Seq(2), Op::Called(Part::Generics), Op::Ref(Kind::Generics), Op::Seq(2), Op::Called(Part::Where),
    Op::Ref(Kind::Where), Op::Group(Delimiter::Brace), Op::Many(Test::Sees(Look::End), Separator::Comma),
    Op::Ref(Kind::Variant),
];

/// union Ident generics where? {fields}
#[rattlefmt::skip]
pub(crate) static A_UNION: [Op; 12] = [
    Op::Seq(1), Op::Word(Words::Keyword(Keyword::Union)), Op::Seq(2), Op::Called(Part::Name), Op::Word(Words::Ident),
    Op::Seq(2), Op::Called(Part::Generics), Op::Ref(Kind::Generics), Op::Seq(2), Op::Called(Part::Where),
    Op::Ref(Kind::Where), Op::Ref(Kind::NamedFields),
];

/// static mut? Ident (: Type)? (= Expr)? ;
#[rattlefmt::skip]
pub(crate) static A_STATIC: [Op; 24] = [
    Op::Seq(1), Op::Word(Words::Keyword(Keyword::Static)), Op::Seq(3),
    Op::Alt(Test::Sees(Look::Word(Words::Keyword(Keyword::Mut))), 1), Op::Word(Words::Keyword(Keyword::Mut)),
    Op::Nothing, Op::Seq(2), Op::Called(Part::Name), Op::Word(Words::Ident), Op::Seq(6),
    Op::Alt(Test::Sees(Look::Mark(Sign::Colon)), 4), Op::Seq(1), Op::Mark(Sign::Colon), Op::Called(Part::Type),
    Op::Ref(Kind::AType(Plus::WithPlus)), Op::Nothing, Op::Seq(6), Op::Alt(Test::Sees(Look::Mark(Sign::Eq)), 4),
    Op::Seq(1), Op::Mark(Sign::Eq), Op::Called(Part::Value), Op::Ref(Kind::Expression(Position::Plain)), Op::Nothing,
    Op::Mark(Sign::Semi),
];

/// const (Ident or _) generics : Type (= Expr)? where? ;
#[rattlefmt::skip]
pub(crate) static A_CONST: [Op; 26] = [
    Op::Seq(1), Op::Word(Words::Keyword(Keyword::Const)), Op::Seq(4), Op::Called(Part::Name),
    Op::Alt(Test::Sees(Look::Word(Words::Keyword(Keyword::Underscore))), 1),
    Op::Word(Words::Keyword(Keyword::Underscore)), Op::Word(Words::Ident), Op::Seq(2), Op::Called(Part::Generics),
    Op::Ref(Kind::Generics), Op::Seq(1), Op::Mark(Sign::Colon), Op::Seq(2), Op::Called(Part::Type),
    Op::Ref(Kind::AType(Plus::WithPlus)), Op::Seq(6), Op::Alt(Test::Sees(Look::Mark(Sign::Eq)), 4), Op::Seq(1),
    Op::Mark(Sign::Eq), Op::Called(Part::Value), Op::Ref(Kind::Expression(Position::Plain)), Op::Nothing, Op::Seq(2),
    Op::Called(Part::Where), Op::Ref(Kind::Where), Op::Mark(Sign::Semi),
];

/// extern crate (Ident or self) (as (Ident or _))? ;
#[rattlefmt::skip]
pub(crate) static AN_EXTERN_CRATE: [Op; 18] = [
    Op::Seq(1), Op::Word(Words::Keyword(Keyword::Extern)), Op::Seq(1), Op::Word(Words::Keyword(Keyword::Crate)),
    Op::Seq(4), Op::Called(Part::Name), Op::Alt(Test::Sees(Look::Word(Words::Keyword(Keyword::SelfValue))), 1),
    Op::Word(Words::Keyword(Keyword::SelfValue)), Op::Word(Words::Ident), Op::Seq(7),
    Op::Alt(Test::Sees(Look::Word(Words::Keyword(Keyword::As))), 5), Op::Seq(1),
    Op::Word(Words::Keyword(Keyword::As)), Op::Alt(Test::Sees(Look::Word(Words::Keyword(Keyword::Underscore))), 1),
    Op::Word(Words::Keyword(Keyword::Underscore)), Op::Word(Words::Ident), Op::Nothing, Op::Mark(Sign::Semi),
];

/// unsafe? Abi { inner attributes, items }
#[rattlefmt::skip]
pub(crate) static A_FOREIGN_MODULE: [Op; 11] = [
    Op::Seq(4), Op::Alt(Test::Sees(Look::Word(Words::Keyword(Keyword::Unsafe))), 2), Op::Called(Part::Safety),
    Op::Word(Words::Keyword(Keyword::Unsafe)), Op::Nothing, Op::Seq(1), Op::Ref(Kind::Abi),
    Op::Group(Delimiter::Brace), Op::Seq(1), Op::Ref(Kind::InnerAttributes), Op::Ref(Kind::ForeignItems),
];

/// use tree ;
#[rattlefmt::skip]
pub(crate) static A_USE: [Op; 6] = [
    Op::Seq(1), Op::Word(Words::Keyword(Keyword::Use)), Op::Seq(2), Op::Called(Part::Path), Op::Ref(Kind::UseTop),
    Op::Mark(Sign::Semi),
];

/// A tree that may begin with ::.
#[rattlefmt::skip]
pub(crate) static USE_TOP: [Op; 5] = [
    Op::Alt(Test::Sees(Look::Mark(Sign::PathSep)), 3), Op::Seq(1), Op::Mark(Sign::PathSep), Op::Ref(Kind::UseTree),
    Op::Ref(Kind::UseRooted),
];

/// {trees}, or a branch.
#[rattlefmt::skip]
pub(crate) static USE_TREE: [Op; 5] = [
    Op::Alt(Test::Sees(Look::Opens(Delimiter::Brace)), 3), Op::Group(Delimiter::Brace),
    Op::Many(Test::Sees(Look::End), Separator::Comma), Op::Ref(Kind::UseTree), Op::Ref(Kind::UseBranch),
];

/// *, or a name and then :: tree, as (Ident or _), or nothing.
#[rattlefmt::skip]
pub(crate) static USE_BRANCH: [Op; 17] = [
    Op::Alt(Test::Sees(Look::Mark(Sign::Star)), 1), Op::Mark(Sign::Star), Op::Seq(3),
    Op::Alt(Test::Sees(Look::Word(Words::UseWord)), 1), Op::Word(Words::UseWord), Op::Word(Words::Ident),
    Op::Alt(Test::Sees(Look::Mark(Sign::PathSep)), 3), Op::Seq(1), Op::Mark(Sign::PathSep), Op::Ref(Kind::UseTree),
    Op::Alt(Test::Sees(Look::Word(Words::Keyword(Keyword::As))), 5), Op::Seq(1),
    Op::Word(Words::Keyword(Keyword::As)), Op::Alt(Test::Sees(Look::Word(Words::Keyword(Keyword::Underscore))), 1),
    Op::Word(Words::Keyword(Keyword::Underscore)), Op::Word(Words::Ident), Op::Nothing,
];

/// In braces that no path stands before, each tree may.
#[rattlefmt::skip]
pub(crate) static USE_ROOTED: [Op; 5] = [
    Op::Alt(Test::Sees(Look::Opens(Delimiter::Brace)), 3), Op::Group(Delimiter::Brace),
    Op::Many(Test::Sees(Look::End), Separator::Comma), Op::Ref(Kind::UseTop), Op::Ref(Kind::UseBranch),
];

/// unsafe? mod (Ident or try), and then ; or { inner attributes, items }
#[rattlefmt::skip]
pub(crate) static A_MODULE: [Op; 18] = [
    Op::Seq(4), Op::Alt(Test::Sees(Look::Word(Words::Keyword(Keyword::Unsafe))), 2), Op::Called(Part::Safety),
    Op::Word(Words::Keyword(Keyword::Unsafe)), Op::Nothing, Op::Seq(1), Op::Word(Words::Keyword(Keyword::Mod)),
    Op::Seq(4), Op::Called(Part::Name), Op::Alt(Test::Sees(Look::Word(Words::Keyword(Keyword::Try))), 1),
    Op::Word(Words::Keyword(Keyword::Try)), Op::Word(Words::Ident), Op::Alt(Test::Sees(Look::Mark(Sign::Semi)), 1),
    Op::Mark(Sign::Semi), Op::Group(Delimiter::Brace), Op::Seq(1), Op::Ref(Kind::InnerAttributes),
    Op::Ref(Kind::Items),
];

/// unsafe? auto? trait Ident generics, (: bounds)? where? { inner attributes, items }, or = bounds where? ;
#[rattlefmt::skip]
pub(crate) static A_TRAIT: [Op; 38] = [
    Op::Judged(Verdicts::Trait), Op::Seq(4), Op::Alt(Test::Sees(Look::Word(Words::Keyword(Keyword::Unsafe))), 2),
    Op::Called(Part::Safety), Op::Word(Words::Keyword(Keyword::Unsafe)), Op::Nothing, Op::Seq(4),
    Op::Alt(Test::Sees(Look::Word(Words::Keyword(Keyword::Auto))), 2), Op::Called(Part::Auto),
    Op::Word(Words::Keyword(Keyword::Auto)), Op::Nothing, Op::Seq(1), Op::Word(Words::Keyword(Keyword::Trait)),
    Op::Seq(2), Op::Called(Part::Name), Op::Word(Words::Ident), Op::Seq(2), Op::Called(Part::Generics),
    Op::Ref(Kind::Generics), Op::Alt(Test::Sees(Look::Mark(Sign::Eq)), 9), Op::Seq(2), Op::Called(Part::Equals),
    Op::Mark(Sign::Eq), Op::Seq(1), Op::Ref(Kind::Bounds), Op::Seq(2), Op::Called(Part::Where), Op::Ref(Kind::Where),
    Op::Mark(Sign::Semi), Op::Seq(1), Op::Ref(Kind::BoundsColon), Op::Seq(2), Op::Called(Part::Where),
    Op::Ref(Kind::Where), Op::Group(Delimiter::Brace), Op::Seq(1), Op::Ref(Kind::InnerAttributes),
    Op::Ref(Kind::TraitItems),
];

/// const and a trait.
#[rattlefmt::skip]
pub(crate) static A_CONST_TRAIT: [Op; 3] = [
    Op::Seq(1), Op::Word(Words::Keyword(Keyword::Const)), Op::Ref(Kind::ATrait),
];

/// impl (restriction) const? and a trait that is no alias
#[rattlefmt::skip]
pub(crate) static A_RESTRICTED_TRAIT: [Op; 52] = [
    Op::Seq(1), Op::Word(Words::Keyword(Keyword::Impl)), Op::Seq(7),
    Op::Alt(Test::Sees(Look::Composite(Composite::RestrictedIn)), 4), Op::Group(Delimiter::Parenthesis), Op::Seq(1),
    Op::Word(Words::Keyword(Keyword::In)), Op::Ref(Kind::Path(Style::InModule)), Op::Group(Delimiter::Parenthesis),
    Op::Word(Words::Restriction), Op::Seq(3), Op::Alt(Test::Sees(Look::Word(Words::Keyword(Keyword::Const))), 1),
    Op::Word(Words::Keyword(Keyword::Const)), Op::Nothing, Op::Judged(Verdicts::RestrictedTrait), Op::Seq(4),
    Op::Alt(Test::Sees(Look::Word(Words::Keyword(Keyword::Unsafe))), 2), Op::Called(Part::Safety),
    Op::Word(Words::Keyword(Keyword::Unsafe)), Op::Nothing, Op::Seq(4),
    Op::Alt(Test::Sees(Look::Word(Words::Keyword(Keyword::Auto))), 2), Op::Called(Part::Auto),
    Op::Word(Words::Keyword(Keyword::Auto)), Op::Nothing, Op::Seq(1), Op::Word(Words::Keyword(Keyword::Trait)),
    Op::Seq(2), Op::Called(Part::Name), Op::Word(Words::Ident), Op::Seq(2), Op::Called(Part::Generics),
    Op::Ref(Kind::Generics), Op::Alt(Test::Sees(Look::Mark(Sign::Eq)), 9), Op::Seq(2), Op::Called(Part::Equals),
    Op::Mark(Sign::Eq), Op::Seq(1), Op::Ref(Kind::Bounds), Op::Seq(2), Op::Called(Part::Where), Op::Ref(Kind::Where),
    Op::Mark(Sign::Semi), Op::Seq(1), Op::Ref(Kind::BoundsColon), Op::Seq(2), Op::Called(Part::Where),
    Op::Ref(Kind::Where), Op::Group(Delimiter::Brace), Op::Seq(1), Op::Ref(Kind::InnerAttributes),
    Op::Ref(Kind::TraitItems),
];

/// default? const? unsafe? impl generics !? Type (for Type)? where? { inner attributes, items }
#[rattlefmt::skip]
pub(crate) static AN_IMPL: [Op; 43] = [
    Op::Judged(Verdicts::Impl), Op::Seq(4), Op::Alt(Test::Sees(Look::Word(Words::Keyword(Keyword::Default))), 2),
    Op::Called(Part::Default), Op::Word(Words::Keyword(Keyword::Default)), Op::Nothing, Op::Seq(4),
    Op::Alt(Test::Sees(Look::Word(Words::Keyword(Keyword::Const))), 2), Op::Called(Part::Const),
    Op::Word(Words::Keyword(Keyword::Const)), Op::Nothing, Op::Seq(4),
    Op::Alt(Test::Sees(Look::Word(Words::Keyword(Keyword::Unsafe))), 2), Op::Called(Part::Safety),
    Op::Word(Words::Keyword(Keyword::Unsafe)), Op::Nothing, Op::Seq(1), Op::Word(Words::Keyword(Keyword::Impl)),
    Op::Seq(2), Op::Called(Part::Generics), Op::Ref(Kind::ImplGenerics), Op::Seq(4),
    Op::Alt(Test::Sees(Look::Composite(Composite::NotBeforeBrace)), 2), Op::Called(Part::Polarity),
    Op::Mark(Sign::Not), Op::Nothing, Op::Seq(2), Op::Called(Part::First), Op::Ref(Kind::AType(Plus::WithPlus)),
    Op::Seq(6), Op::Alt(Test::Sees(Look::Word(Words::Keyword(Keyword::For))), 4), Op::Seq(1),
    Op::Word(Words::Keyword(Keyword::For)), Op::Called(Part::SelfType), Op::Ref(Kind::AType(Plus::WithPlus)),
    Op::Nothing, Op::Seq(2), Op::Called(Part::Where), Op::Ref(Kind::Where), Op::Group(Delimiter::Brace), Op::Seq(1),
    Op::Ref(Kind::InnerAttributes), Op::Ref(Kind::ImplItems),
];

/// macro Ident (tokens)? { tokens }
#[rattlefmt::skip]
pub(crate) static A_MACRO_DEFINITION: [Op; 11] = [
    Op::Seq(1), Op::Word(Words::Keyword(Keyword::Macro)), Op::Seq(1), Op::Word(Words::Ident), Op::Seq(4),
    Op::Alt(Test::Sees(Look::Opens(Delimiter::Parenthesis)), 2), Op::Group(Delimiter::Parenthesis), Op::Raw,
    Op::Nothing, Op::Group(Delimiter::Brace), Op::Raw,
];

/// type Ident generics (: bounds)? and then a definition and a where clause, ;
#[rattlefmt::skip]
static A_TYPE_ALIAS_IN_FILE: [Op; 33] = [
    Op::Seq(1), Op::Word(Words::Keyword(Keyword::Type)), Op::Seq(2), Op::Called(Part::Name), Op::Word(Words::Ident),
    Op::Seq(2), Op::Called(Part::Generics), Op::Ref(Kind::Generics), Op::Seq(2), Op::Called(Part::Bounds),
    Op::Ref(Kind::BoundsColon), Op::Seq(20), Op::Called(Part::Value),
    Op::Alt(Test::Sees(Look::Word(Words::Keyword(Keyword::Where))), 9), Op::Seq(2), Op::Called(Part::Where),
    Op::Ref(Kind::Where), Op::Alt(Test::Sees(Look::Mark(Sign::Eq)), 4), Op::Seq(1), Op::Mark(Sign::Eq),
    Op::Called(Part::Type), Op::Ref(Kind::AType(Plus::WithPlus)), Op::Nothing, Op::Seq(6),
    Op::Alt(Test::Sees(Look::Mark(Sign::Eq)), 4), Op::Seq(1), Op::Mark(Sign::Eq), Op::Called(Part::Type),
    Op::Ref(Kind::AType(Plus::WithPlus)), Op::Nothing, Op::Called(Part::Where), Op::Ref(Kind::Where),
    Op::Mark(Sign::Semi),
];

/// type Ident generics (: bounds)? and then a definition and a where clause, ;
#[rattlefmt::skip]
static A_TYPE_ALIAS_IN_TRAIT: [Op; 23] = [
    Op::Seq(1), Op::Word(Words::Keyword(Keyword::Type)), Op::Seq(2), Op::Called(Part::Name), Op::Word(Words::Ident),
    Op::Seq(2), Op::Called(Part::Generics), Op::Ref(Kind::Generics), Op::Seq(2), Op::Called(Part::Bounds),
    Op::Ref(Kind::BoundsColon), Op::Seq(10), Op::Called(Part::Value), Op::Seq(6),
    Op::Alt(Test::Sees(Look::Mark(Sign::Eq)), 4), Op::Seq(1), Op::Mark(Sign::Eq), Op::Called(Part::Type),
    Op::Ref(Kind::AType(Plus::WithPlus)), Op::Nothing, Op::Called(Part::Where), Op::Ref(Kind::Where),
    Op::Mark(Sign::Semi),
];

pub(crate) fn a_type_alias(place: Place) -> &'static [Op]
    ensures { gram_of result.now ≡ table (kind_of (kinds.ATypeAlias place)) }
{
    match place {
        Place::InFile => &A_TYPE_ALIAS_IN_FILE,
        Place::InForeign => &A_TYPE_ALIAS_IN_FILE,
        Place::InTrait => &A_TYPE_ALIAS_IN_TRAIT,
        Place::InImpl => &A_TYPE_ALIAS_IN_TRAIT,
    }
}

/// Path ! name? group, with ; unless it has braces
#[rattlefmt::skip]
static ITEM_MACRO_IN_FILE: [Op; 21] = [
    Op::Seq(1), Op::Ref(Kind::Path(Style::InModule)), Op::Seq(1), Op::Mark(Sign::Not), Op::Seq(6),
    Op::Alt(Test::Sees(Look::Composite(Composite::IdentOrTry)), 4), Op::Called(Part::Name),
    Op::Alt(Test::Sees(Look::Word(Words::Keyword(Keyword::Try))), 1), Op::Word(Words::Keyword(Keyword::Try)),
    Op::Word(Words::Ident), Op::Nothing, Op::Alt(Test::Sees(Look::Opens(Delimiter::Brace)), 2),
    Op::Group(Delimiter::Brace), Op::Raw, Op::Seq(5), Op::Alt(Test::Sees(Look::Opens(Delimiter::Parenthesis)), 2),
    Op::Group(Delimiter::Parenthesis), Op::Raw, Op::Group(Delimiter::Bracket), Op::Raw, Op::Mark(Sign::Semi),
];

/// Path ! name? group, with ; unless it has braces
#[rattlefmt::skip]
static ITEM_MACRO_IN_FOREIGN: [Op; 16] = [
    Op::Seq(1), Op::Ref(Kind::Path(Style::InModule)), Op::Seq(1), Op::Mark(Sign::Not), Op::Seq(1), Op::Nothing,
    Op::Alt(Test::Sees(Look::Opens(Delimiter::Brace)), 2), Op::Group(Delimiter::Brace), Op::Raw, Op::Seq(5),
    Op::Alt(Test::Sees(Look::Opens(Delimiter::Parenthesis)), 2), Op::Group(Delimiter::Parenthesis), Op::Raw,
    Op::Group(Delimiter::Bracket), Op::Raw, Op::Mark(Sign::Semi),
];

pub(crate) fn item_macro(place: Place) -> &'static [Op]
    ensures { gram_of result.now ≡ table (kind_of (kinds.ItemMacro place)) }
{
    match place {
        Place::InFile => &ITEM_MACRO_IN_FILE,
        Place::InForeign => &ITEM_MACRO_IN_FOREIGN,
        Place::InTrait => &ITEM_MACRO_IN_FOREIGN,
        Place::InImpl => &ITEM_MACRO_IN_FOREIGN,
    }
}
