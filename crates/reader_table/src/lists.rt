//! The entries of items among others, and by themselves.

// Written by tools/rows.py from the entries of the written grammar.

ghost use Rattle.reader_table.specs.Kinds.{kind_of};
ghost use Rattle.reader_table.specs.Ops.{gram_of};
ghost use Rattle.reader_table.specs.declared.kind.Kind.TheVariants as kinds;
ghost use Rattle.std.specs.Prelude.{◌≡◌};
ghost use Rattle.syn_grammar.specs.Table.{table};

use crate::composite::Composite;
use crate::kind::{Kind, Place};
use crate::op::{Look, Op, Test, Verdicts};
use crate::part::Part;
use crate::word::{Keyword, Words};

/// Attributes, visibility and an item
#[rattlefmt::skip]
pub(crate) static AN_ITEM: [Op; 52] = [
    Op::Judged(Verdicts::Item(Place::InFile)), Op::Seq(1), Op::Ref(Kind::OuterAttributes), Op::Seq(2),
    Op::Called(Part::Visibility), Op::Ref(Kind::Visibility), Op::Called(Part::Item),
    Op::Alt(Test::Sees(Look::Composite(Composite::SignatureStands)), 1), Op::Ref(Kind::AFunction(Place::InFile)),
    Op::Alt(Test::Sees(Look::Composite(Composite::ExternCrate)), 1), Op::Ref(Kind::AnExternCrate),
    Op::Alt(Test::Sees(Look::Word(Words::Keyword(Keyword::Extern))), 1), Op::Ref(Kind::AForeignModule),
    Op::Alt(Test::Sees(Look::Word(Words::Keyword(Keyword::Use))), 1), Op::Ref(Kind::AUse),
    Op::Alt(Test::Sees(Look::Word(Words::Keyword(Keyword::Static))), 1), Op::Ref(Kind::AStatic),
    Op::Alt(Test::Sees(Look::Composite(Composite::ConstTrait)), 1), Op::Ref(Kind::AConstTrait),
    Op::Alt(Test::Sees(Look::Composite(Composite::ConstImpl)), 1), Op::Ref(Kind::AnImpl),
    Op::Alt(Test::Sees(Look::Word(Words::Keyword(Keyword::Const))), 1), Op::Ref(Kind::AConst),
    Op::Alt(Test::Sees(Look::Composite(Composite::UnsafeExtern)), 1), Op::Ref(Kind::AForeignModule),
    Op::Alt(Test::Sees(Look::Composite(Composite::UnsafeMod)), 1), Op::Ref(Kind::AModule),
    Op::Alt(Test::Sees(Look::Composite(Composite::UnsafeImpl)), 1), Op::Ref(Kind::AnImpl),
    Op::Alt(Test::Sees(Look::Word(Words::Keyword(Keyword::Unsafe))), 1), Op::Ref(Kind::ATrait),
    Op::Alt(Test::Sees(Look::Word(Words::Keyword(Keyword::Mod))), 1), Op::Ref(Kind::AModule),
    Op::Alt(Test::Sees(Look::Word(Words::Keyword(Keyword::Type))), 1), Op::Ref(Kind::ATypeAlias(Place::InFile)),
    Op::Alt(Test::Sees(Look::Word(Words::Keyword(Keyword::Struct))), 1), Op::Ref(Kind::AStruct),
    Op::Alt(Test::Sees(Look::Word(Words::Keyword(Keyword::Enum))), 1), Op::Ref(Kind::AnEnum),
    Op::Alt(Test::Sees(Look::Composite(Composite::UnionIdent)), 1), Op::Ref(Kind::AUnion),
    Op::Alt(Test::Sees(Look::Composite(Composite::RestrictedTraitStands)), 1), Op::Ref(Kind::ARestrictedTrait),
    Op::Alt(Test::Sees(Look::Composite(Composite::TraitStands)), 1), Op::Ref(Kind::ATrait),
    Op::Alt(Test::Sees(Look::Composite(Composite::ImplStands)), 1), Op::Ref(Kind::AnImpl),
    Op::Alt(Test::Sees(Look::Word(Words::Keyword(Keyword::Macro))), 1), Op::Ref(Kind::AMacroDefinition),
    Op::Alt(Test::Sees(Look::Composite(Composite::MacroStands)), 1), Op::Ref(Kind::ItemMacro(Place::InFile)),
    Op::Never,
];

/// In an extern block: a function, a static with its safety, a type or a macro.
#[rattlefmt::skip]
pub(crate) static A_FOREIGN_ITEM: [Op; 24] = [
    Op::Judged(Verdicts::Item(Place::InForeign)), Op::Seq(1), Op::Ref(Kind::OuterAttributes), Op::Seq(2),
    Op::Called(Part::Visibility), Op::Ref(Kind::Visibility),
    Op::Alt(Test::Sees(Look::Composite(Composite::ForeignSignatureStands)), 2), Op::Called(Part::Item),
    Op::Ref(Kind::AFunction(Place::InForeign)),
    Op::Alt(Test::Sees(Look::Composite(Composite::ForeignStaticStands)), 7), Op::Seq(4),
    Op::Alt(Test::Sees(Look::Composite(Composite::UnsafeOrSafe)), 2), Op::Called(Part::Safety),
    Op::Word(Words::Safety), Op::Nothing, Op::Called(Part::Item), Op::Ref(Kind::AStatic),
    Op::Alt(Test::Sees(Look::Word(Words::Keyword(Keyword::Type))), 2), Op::Called(Part::Item),
    Op::Ref(Kind::ATypeAlias(Place::InForeign)), Op::Alt(Test::Sees(Look::Composite(Composite::MacroStands)), 2),
    Op::Called(Part::Item), Op::Ref(Kind::ItemMacro(Place::InForeign)), Op::Never,
];

/// In a trait: default?, and then a function, a constant, a type or a macro.
#[rattlefmt::skip]
pub(crate) static A_TRAIT_ITEM: [Op; 21] = [
    Op::Judged(Verdicts::Item(Place::InTrait)), Op::Seq(1), Op::Ref(Kind::OuterAttributes), Op::Seq(2),
    Op::Called(Part::Visibility), Op::Ref(Kind::Visibility), Op::Seq(4),
    Op::Alt(Test::Sees(Look::Word(Words::Keyword(Keyword::Default))), 2), Op::Called(Part::Default),
    Op::Word(Words::Keyword(Keyword::Default)), Op::Nothing, Op::Called(Part::Item),
    Op::Alt(Test::Sees(Look::Composite(Composite::SignatureStands)), 1), Op::Ref(Kind::AFunction(Place::InTrait)),
    Op::Alt(Test::Sees(Look::Word(Words::Keyword(Keyword::Const))), 1), Op::Ref(Kind::AConst),
    Op::Alt(Test::Sees(Look::Word(Words::Keyword(Keyword::Type))), 1), Op::Ref(Kind::ATypeAlias(Place::InTrait)),
    Op::Alt(Test::Sees(Look::Composite(Composite::MacroStands)), 1), Op::Ref(Kind::ItemMacro(Place::InTrait)),
    Op::Never,
];

/// In an impl the same, default not before ! .
#[rattlefmt::skip]
pub(crate) static AN_IMPL_ITEM: [Op; 21] = [
    Op::Judged(Verdicts::Item(Place::InImpl)), Op::Seq(1), Op::Ref(Kind::OuterAttributes), Op::Seq(2),
    Op::Called(Part::Visibility), Op::Ref(Kind::Visibility), Op::Seq(4),
    Op::Alt(Test::Sees(Look::Composite(Composite::DefaultStands)), 2), Op::Called(Part::Default),
    Op::Word(Words::Keyword(Keyword::Default)), Op::Nothing, Op::Called(Part::Item),
    Op::Alt(Test::Sees(Look::Composite(Composite::SignatureStands)), 1), Op::Ref(Kind::AFunction(Place::InImpl)),
    Op::Alt(Test::Sees(Look::Word(Words::Keyword(Keyword::Const))), 1), Op::Ref(Kind::AConst),
    Op::Alt(Test::Sees(Look::Word(Words::Keyword(Keyword::Type))), 1), Op::Ref(Kind::ATypeAlias(Place::InImpl)),
    Op::Alt(Test::Sees(Look::Composite(Composite::MacroStands)), 1), Op::Ref(Kind::ItemMacro(Place::InImpl)),
    Op::Never,
];

/// Items, to the end.
pub(crate) static ITEMS: [Op; 2] = [Op::Star(Test::Lacks(Look::End)), Op::Ref(Kind::AnItem)];

/// Items of an extern block, to the end.
#[rattlefmt::skip]
pub(crate) static FOREIGN_ITEMS: [Op; 2] = [Op::Star(Test::Lacks(Look::End)), Op::Ref(Kind::AForeignItem)];

/// Items of a trait, to the end.
#[rattlefmt::skip]
pub(crate) static TRAIT_ITEMS: [Op; 2] = [Op::Star(Test::Lacks(Look::End)), Op::Ref(Kind::ATraitItem)];

/// Items of an impl, to the end.
#[rattlefmt::skip]
pub(crate) static IMPL_ITEMS: [Op; 2] = [Op::Star(Test::Lacks(Look::End)), Op::Ref(Kind::AnImplItem)];

/// One item of that kind by itself
#[rattlefmt::skip]
pub(crate) static ITEM_STRUCT: [Op; 8] = [
    Op::Judged(Verdicts::Typed(Place::InFile)), Op::Seq(1), Op::Ref(Kind::OuterAttributes), Op::Seq(2),
    Op::Called(Part::Visibility), Op::Ref(Kind::Visibility), Op::Called(Part::Item), Op::Ref(Kind::AStruct),
];

/// One item of that kind by itself
#[rattlefmt::skip]
pub(crate) static ITEM_ENUM: [Op; 8] = [
    Op::Judged(Verdicts::Typed(Place::InFile)), Op::Seq(1), Op::Ref(Kind::OuterAttributes), Op::Seq(2),
    Op::Called(Part::Visibility), Op::Ref(Kind::Visibility), Op::Called(Part::Item), Op::Ref(Kind::AnEnum),
];

/// One item of that kind by itself
#[rattlefmt::skip]
pub(crate) static ITEM_UNION: [Op; 8] = [
    Op::Judged(Verdicts::Typed(Place::InFile)), Op::Seq(1), Op::Ref(Kind::OuterAttributes), Op::Seq(2),
    Op::Called(Part::Visibility), Op::Ref(Kind::Visibility), Op::Called(Part::Item), Op::Ref(Kind::AUnion),
];

/// One item of that kind by itself
#[rattlefmt::skip]
pub(crate) static ITEM_FN: [Op; 8] = [
    Op::Judged(Verdicts::Typed(Place::InFile)), Op::Seq(1), Op::Ref(Kind::OuterAttributes), Op::Seq(2),
    Op::Called(Part::Visibility), Op::Ref(Kind::Visibility), Op::Called(Part::Item),
    Op::Ref(Kind::AFunction(Place::InFile)),
];

/// One item of that kind by itself
#[rattlefmt::skip]
pub(crate) static ITEM_EXTERN_CRATE: [Op; 8] = [
    Op::Judged(Verdicts::Typed(Place::InFile)), Op::Seq(1), Op::Ref(Kind::OuterAttributes), Op::Seq(2),
    Op::Called(Part::Visibility), Op::Ref(Kind::Visibility), Op::Called(Part::Item), Op::Ref(Kind::AnExternCrate),
];

/// One item of that kind by itself
#[rattlefmt::skip]
pub(crate) static ITEM_FOREIGN_MOD: [Op; 8] = [
    Op::Judged(Verdicts::Typed(Place::InFile)), Op::Seq(1), Op::Ref(Kind::OuterAttributes), Op::Seq(2),
    Op::Called(Part::Visibility), Op::Ref(Kind::Visibility), Op::Called(Part::Item), Op::Ref(Kind::AForeignModule),
];

/// One item of that kind by itself
#[rattlefmt::skip]
pub(crate) static ITEM_USE: [Op; 8] = [
    Op::Judged(Verdicts::Typed(Place::InFile)), Op::Seq(1), Op::Ref(Kind::OuterAttributes), Op::Seq(2),
    Op::Called(Part::Visibility), Op::Ref(Kind::Visibility), Op::Called(Part::Item), Op::Ref(Kind::AUse),
];

/// One item of that kind by itself
#[rattlefmt::skip]
pub(crate) static ITEM_STATIC: [Op; 8] = [
    Op::Judged(Verdicts::Typed(Place::InFile)), Op::Seq(1), Op::Ref(Kind::OuterAttributes), Op::Seq(2),
    Op::Called(Part::Visibility), Op::Ref(Kind::Visibility), Op::Called(Part::Item), Op::Ref(Kind::AStatic),
];

/// One item of that kind by itself
#[rattlefmt::skip]
pub(crate) static ITEM_CONST: [Op; 8] = [
    Op::Judged(Verdicts::Typed(Place::InFile)), Op::Seq(1), Op::Ref(Kind::OuterAttributes), Op::Seq(2),
    Op::Called(Part::Visibility), Op::Ref(Kind::Visibility), Op::Called(Part::Item), Op::Ref(Kind::AConst),
];

/// One item of that kind by itself
#[rattlefmt::skip]
pub(crate) static ITEM_MOD: [Op; 8] = [
    Op::Judged(Verdicts::Typed(Place::InFile)), Op::Seq(1), Op::Ref(Kind::OuterAttributes), Op::Seq(2),
    Op::Called(Part::Visibility), Op::Ref(Kind::Visibility), Op::Called(Part::Item), Op::Ref(Kind::AModule),
];

/// One item of that kind by itself
#[rattlefmt::skip]
pub(crate) static ITEM_TYPE: [Op; 8] = [
    Op::Judged(Verdicts::Typed(Place::InFile)), Op::Seq(1), Op::Ref(Kind::OuterAttributes), Op::Seq(2),
    Op::Called(Part::Visibility), Op::Ref(Kind::Visibility), Op::Called(Part::Item),
    Op::Ref(Kind::ATypeAlias(Place::InFile)),
];

/// A trait by itself, which is no alias.
#[rattlefmt::skip]
pub(crate) static ITEM_TRAIT: [Op; 7] = [
    Op::Judged(Verdicts::TraitByItself), Op::Seq(1), Op::Ref(Kind::OuterAttributes), Op::Seq(1),
    Op::Ref(Kind::Visibility), Op::Called(Part::Item), Op::Ref(Kind::ATrait),
];

/// An alias of traits by itself.
#[rattlefmt::skip]
pub(crate) static ITEM_TRAIT_ALIAS: [Op; 7] = [
    Op::Judged(Verdicts::TraitAliasByItself), Op::Seq(1), Op::Ref(Kind::OuterAttributes), Op::Seq(1),
    Op::Ref(Kind::Visibility), Op::Called(Part::Item), Op::Ref(Kind::ATrait),
];

/// One item of that kind by itself
#[rattlefmt::skip]
pub(crate) static ITEM_IMPL: [Op; 8] = [
    Op::Judged(Verdicts::Typed(Place::InFile)), Op::Seq(1), Op::Ref(Kind::OuterAttributes), Op::Seq(2),
    Op::Called(Part::Visibility), Op::Ref(Kind::Visibility), Op::Called(Part::Item), Op::Ref(Kind::AnImpl),
];

/// A struct, an enum or a union.
#[rattlefmt::skip]
pub(crate) static DERIVE_INPUT: [Op; 9] = [
    Op::Seq(1), Op::Ref(Kind::OuterAttributes), Op::Seq(1), Op::Ref(Kind::Visibility),
    Op::Alt(Test::Sees(Look::Word(Words::Keyword(Keyword::Struct))), 1), Op::Ref(Kind::AStruct),
    Op::Alt(Test::Sees(Look::Word(Words::Keyword(Keyword::Enum))), 1), Op::Ref(Kind::AnEnum), Op::Ref(Kind::AUnion),
];

/// A macro by itself may begin with Self too.
#[rattlefmt::skip]
static ONE_MACRO_IN_FILE: [Op; 5] = [
    Op::Seq(1), Op::Ref(Kind::OuterAttributes), Op::Alt(Test::Sees(Look::Composite(Composite::NameOrPathSep)), 1),
    Op::Ref(Kind::ItemMacro(Place::InFile)), Op::Never,
];

/// A macro by itself may begin with Self too.
#[rattlefmt::skip]
static ONE_MACRO_IN_FOREIGN: [Op; 5] = [
    Op::Seq(1), Op::Ref(Kind::OuterAttributes), Op::Alt(Test::Sees(Look::Composite(Composite::NameOrPathSep)), 1),
    Op::Ref(Kind::ItemMacro(Place::InForeign)), Op::Never,
];

/// A macro by itself may begin with Self too.
#[rattlefmt::skip]
static ONE_MACRO_IN_TRAIT: [Op; 5] = [
    Op::Seq(1), Op::Ref(Kind::OuterAttributes), Op::Alt(Test::Sees(Look::Composite(Composite::NameOrPathSep)), 1),
    Op::Ref(Kind::ItemMacro(Place::InTrait)), Op::Never,
];

/// A macro by itself may begin with Self too.
#[rattlefmt::skip]
static ONE_MACRO_IN_IMPL: [Op; 5] = [
    Op::Seq(1), Op::Ref(Kind::OuterAttributes), Op::Alt(Test::Sees(Look::Composite(Composite::NameOrPathSep)), 1),
    Op::Ref(Kind::ItemMacro(Place::InImpl)), Op::Never,
];

pub(crate) fn one_macro(place: Place) -> &'static [Op]
    ensures { gram_of result.now ≡ table (kind_of (kinds.OneMacro place)) }
{
    match place {
        Place::InFile => &ONE_MACRO_IN_FILE,
        Place::InForeign => &ONE_MACRO_IN_FOREIGN,
        Place::InTrait => &ONE_MACRO_IN_TRAIT,
        Place::InImpl => &ONE_MACRO_IN_IMPL,
    }
}

/// A function by itself, as it stands in its place.
#[rattlefmt::skip]
static ONE_FUNCTION_IN_FILE: [Op; 10] = [
    Op::Judged(Verdicts::Typed(Place::InFile)), Op::Seq(1), Op::Ref(Kind::OuterAttributes), Op::Seq(2),
    Op::Called(Part::Visibility), Op::Ref(Kind::Visibility), Op::Seq(1), Op::Nothing, Op::Called(Part::Item),
    Op::Ref(Kind::AFunction(Place::InFile)),
];

/// A function by itself, as it stands in its place.
#[rattlefmt::skip]
static ONE_FUNCTION_IN_FOREIGN: [Op; 10] = [
    Op::Judged(Verdicts::Typed(Place::InForeign)), Op::Seq(1), Op::Ref(Kind::OuterAttributes), Op::Seq(2),
    Op::Called(Part::Visibility), Op::Ref(Kind::Visibility), Op::Seq(1), Op::Nothing, Op::Called(Part::Item),
    Op::Ref(Kind::AFunction(Place::InForeign)),
];

/// A function by itself, as it stands in its place.
#[rattlefmt::skip]
static ONE_FUNCTION_IN_TRAIT: [Op; 13] = [
    Op::Judged(Verdicts::Typed(Place::InTrait)), Op::Seq(1), Op::Ref(Kind::OuterAttributes), Op::Seq(2),
    Op::Called(Part::Visibility), Op::Ref(Kind::Visibility), Op::Seq(4),
    Op::Alt(Test::Sees(Look::Word(Words::Keyword(Keyword::Default))), 2), Op::Called(Part::Default),
    Op::Word(Words::Keyword(Keyword::Default)), Op::Nothing, Op::Called(Part::Item),
    Op::Ref(Kind::AFunction(Place::InTrait)),
];

/// A function by itself, as it stands in its place.
#[rattlefmt::skip]
static ONE_FUNCTION_IN_IMPL: [Op; 13] = [
    Op::Judged(Verdicts::Typed(Place::InImpl)), Op::Seq(1), Op::Ref(Kind::OuterAttributes), Op::Seq(2),
    Op::Called(Part::Visibility), Op::Ref(Kind::Visibility), Op::Seq(4),
    Op::Alt(Test::Sees(Look::Composite(Composite::DefaultStands)), 2), Op::Called(Part::Default),
    Op::Word(Words::Keyword(Keyword::Default)), Op::Nothing, Op::Called(Part::Item),
    Op::Ref(Kind::AFunction(Place::InImpl)),
];

pub(crate) fn one_function(place: Place) -> &'static [Op]
    ensures { gram_of result.now ≡ table (kind_of (kinds.OneFunction place)) }
{
    match place {
        Place::InFile => &ONE_FUNCTION_IN_FILE,
        Place::InForeign => &ONE_FUNCTION_IN_FOREIGN,
        Place::InTrait => &ONE_FUNCTION_IN_TRAIT,
        Place::InImpl => &ONE_FUNCTION_IN_IMPL,
    }
}

/// A type by itself, as it stands in its place.
#[rattlefmt::skip]
static ONE_TYPE_ALIAS_IN_FILE: [Op; 10] = [
    Op::Judged(Verdicts::Typed(Place::InFile)), Op::Seq(1), Op::Ref(Kind::OuterAttributes), Op::Seq(2),
    Op::Called(Part::Visibility), Op::Ref(Kind::Visibility), Op::Seq(1), Op::Nothing, Op::Called(Part::Item),
    Op::Ref(Kind::ATypeAlias(Place::InFile)),
];

/// A type by itself, as it stands in its place.
#[rattlefmt::skip]
static ONE_TYPE_ALIAS_IN_FOREIGN: [Op; 10] = [
    Op::Judged(Verdicts::Typed(Place::InForeign)), Op::Seq(1), Op::Ref(Kind::OuterAttributes), Op::Seq(2),
    Op::Called(Part::Visibility), Op::Ref(Kind::Visibility), Op::Seq(1), Op::Nothing, Op::Called(Part::Item),
    Op::Ref(Kind::ATypeAlias(Place::InForeign)),
];

/// A type by itself, as it stands in its place.
#[rattlefmt::skip]
static ONE_TYPE_ALIAS_IN_TRAIT: [Op; 13] = [
    Op::Judged(Verdicts::Typed(Place::InTrait)), Op::Seq(1), Op::Ref(Kind::OuterAttributes), Op::Seq(2),
    Op::Called(Part::Visibility), Op::Ref(Kind::Visibility), Op::Seq(4),
    Op::Alt(Test::Sees(Look::Word(Words::Keyword(Keyword::Default))), 2), Op::Called(Part::Default),
    Op::Word(Words::Keyword(Keyword::Default)), Op::Nothing, Op::Called(Part::Item),
    Op::Ref(Kind::ATypeAlias(Place::InTrait)),
];

/// A type by itself, as it stands in its place.
#[rattlefmt::skip]
static ONE_TYPE_ALIAS_IN_IMPL: [Op; 13] = [
    Op::Judged(Verdicts::Typed(Place::InImpl)), Op::Seq(1), Op::Ref(Kind::OuterAttributes), Op::Seq(2),
    Op::Called(Part::Visibility), Op::Ref(Kind::Visibility), Op::Seq(4),
    Op::Alt(Test::Sees(Look::Composite(Composite::DefaultStands)), 2), Op::Called(Part::Default),
    Op::Word(Words::Keyword(Keyword::Default)), Op::Nothing, Op::Called(Part::Item),
    Op::Ref(Kind::ATypeAlias(Place::InImpl)),
];

pub(crate) fn one_type_alias(place: Place) -> &'static [Op]
    ensures { gram_of result.now ≡ table (kind_of (kinds.OneTypeAlias place)) }
{
    match place {
        Place::InFile => &ONE_TYPE_ALIAS_IN_FILE,
        Place::InForeign => &ONE_TYPE_ALIAS_IN_FOREIGN,
        Place::InTrait => &ONE_TYPE_ALIAS_IN_TRAIT,
        Place::InImpl => &ONE_TYPE_ALIAS_IN_IMPL,
    }
}

/// A constant by itself, as it stands in its place.
#[rattlefmt::skip]
static ONE_CONST_IN_FILE: [Op; 10] = [
    Op::Judged(Verdicts::Typed(Place::InFile)), Op::Seq(1), Op::Ref(Kind::OuterAttributes), Op::Seq(2),
    Op::Called(Part::Visibility), Op::Ref(Kind::Visibility), Op::Seq(1), Op::Nothing, Op::Called(Part::Item),
    Op::Ref(Kind::AConst),
];

/// A constant by itself, as it stands in its place.
#[rattlefmt::skip]
static ONE_CONST_IN_FOREIGN: [Op; 10] = [
    Op::Judged(Verdicts::Typed(Place::InForeign)), Op::Seq(1), Op::Ref(Kind::OuterAttributes), Op::Seq(2),
    Op::Called(Part::Visibility), Op::Ref(Kind::Visibility), Op::Seq(1), Op::Nothing, Op::Called(Part::Item),
    Op::Ref(Kind::AConst),
];

/// A constant by itself, as it stands in its place.
#[rattlefmt::skip]
static ONE_CONST_IN_TRAIT: [Op; 13] = [
    Op::Judged(Verdicts::Typed(Place::InTrait)), Op::Seq(1), Op::Ref(Kind::OuterAttributes), Op::Seq(2),
    Op::Called(Part::Visibility), Op::Ref(Kind::Visibility), Op::Seq(4),
    Op::Alt(Test::Sees(Look::Word(Words::Keyword(Keyword::Default))), 2), Op::Called(Part::Default),
    Op::Word(Words::Keyword(Keyword::Default)), Op::Nothing, Op::Called(Part::Item), Op::Ref(Kind::AConst),
];

/// A constant by itself, as it stands in its place.
#[rattlefmt::skip]
static ONE_CONST_IN_IMPL: [Op; 13] = [
    Op::Judged(Verdicts::Typed(Place::InImpl)), Op::Seq(1), Op::Ref(Kind::OuterAttributes), Op::Seq(2),
    Op::Called(Part::Visibility), Op::Ref(Kind::Visibility), Op::Seq(4),
    Op::Alt(Test::Sees(Look::Composite(Composite::DefaultStands)), 2), Op::Called(Part::Default),
    Op::Word(Words::Keyword(Keyword::Default)), Op::Nothing, Op::Called(Part::Item), Op::Ref(Kind::AConst),
];

pub(crate) fn one_const(place: Place) -> &'static [Op]
    ensures { gram_of result.now ≡ table (kind_of (kinds.OneConst place)) }
{
    match place {
        Place::InFile => &ONE_CONST_IN_FILE,
        Place::InForeign => &ONE_CONST_IN_FOREIGN,
        Place::InTrait => &ONE_CONST_IN_TRAIT,
        Place::InImpl => &ONE_CONST_IN_IMPL,
    }
}

/// A static of an extern block by itself, with its safety.
#[rattlefmt::skip]
pub(crate) static FOREIGN_ITEM_STATIC: [Op; 13] = [
    Op::Judged(Verdicts::Typed(Place::InForeign)), Op::Seq(1), Op::Ref(Kind::OuterAttributes), Op::Seq(2),
    Op::Called(Part::Visibility), Op::Ref(Kind::Visibility), Op::Seq(4),
    Op::Alt(Test::Sees(Look::Composite(Composite::UnsafeOrSafe)), 2), Op::Called(Part::Safety),
    Op::Word(Words::Safety), Op::Nothing, Op::Called(Part::Item), Op::Ref(Kind::AStatic),
];
