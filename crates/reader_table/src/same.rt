//! Kinds and names of parts that are one, which their numbers tell.

ghost use Rattle.reader_table.specs.Kinds.{kind_of, place_of, plus_of, position_of, style_of};
ghost use Rattle.reader_table.specs.Numbers.{kind_number, place_number, plus_number, position_number, style_number};
ghost use Rattle.reader_table.specs.Parts.{part_of};
ghost use Rattle.std.specs.Prelude.{◌≡◌, ◌↔◌, ◌<◌, IsTrue};
ghost use Rattle.syn_grammar.specs.Name.{number};

use crate::kind::{Kind, Place, Plus, Position, Style};
use crate::part::Part;

// The number of a style.
fn style_number(style: Style) -> u8
    ensures number { result ≡ style_number (style_of style) }
    ensures below { result < 4 }
{
    style as u8
}

// Whether bounds may stand there, as a number.
fn plus_number(plus: Plus) -> u8
    ensures number { result ≡ plus_number (plus_of plus) }
    ensures below { result < 2 }
{
    plus as u8
}

// The number of a position.
fn position_number(position: Position) -> u8
    ensures number { result ≡ position_number (position_of position) }
    ensures below { result < 4 }
{
    position as u8
}

// The number of a place.
fn place_number(place: Place) -> u8
    ensures number { result ≡ place_number (place_of place) }
    ensures below { result < 4 }
{
    place as u8
}

// The number of a kind: each has its own.
fn kind_number(kind: Kind) -> u8
    ensures { result ≡ kind_number (kind_of kind) }
{
    match kind {
        Kind::Path(style) => style_number(style),
        Kind::Segments(style) => 4 + style_number(style),
        Kind::Segment(style) => 8 + style_number(style),
        Kind::QualifiedPath(style) => 12 + style_number(style),
        Kind::AnyPath(style) => 16 + style_number(style),
        Kind::Arguments => 20,
        Kind::AnArgument => 21,
        Kind::ParenthesizedArguments => 22,
        Kind::AMacro => 23,
        Kind::Delimited => 24,
        Kind::Member => 25,
        Kind::Index => 26,
        Kind::AType(plus) => 27 + plus_number(plus),
        Kind::DynType(plus) => 29 + plus_number(plus),
        Kind::ImplType(plus) => 31 + plus_number(plus),
        Kind::ReturnType(plus) => 33 + plus_number(plus),
        Kind::TupleType => 35,
        Kind::NeverType => 36,
        Kind::ReferenceType => 37,
        Kind::PointerType => 38,
        Kind::BracketType => 39,
        Kind::InferType => 40,
        Kind::FnPtrType => 41,
        Kind::FnPtrArg => 42,
        Kind::Bounds => 43,
        Kind::SomeBounds => 44,
        Kind::Bound => 45,
        Kind::TraitPath => 46,
        Kind::BoundLifetimes => 47,
        Kind::Lifetimes => 48,
        Kind::Abi => 49,
        Kind::Pattern => 50,
        Kind::SeveralPatterns => 51,
        Kind::OnePattern => 52,
        Kind::IdentPattern => 53,
        Kind::WildPattern => 54,
        Kind::RangeToPattern => 55,
        Kind::RestPattern => 56,
        Kind::TuplePattern => 57,
        Kind::SlicePattern => 58,
        Kind::ReferencePattern => 59,
        Kind::LiteralPattern => 60,
        Kind::PathPattern => 61,
        Kind::RangeEnd => 62,
        Kind::RangeBound => 63,
        Kind::FieldPatterns => 64,
        Kind::FieldPattern => 65,
        Kind::OuterAttributes => 66,
        Kind::OuterAttribute => 67,
        Kind::InnerAttributes => 68,
        Kind::InnerAttribute => 69,
        Kind::Meta => 70,
        Kind::Generics => 71,
        Kind::ImplGenerics => 72,
        Kind::GenericParams => 73,
        Kind::GenericParam => 74,
        Kind::LifetimeParam => 75,
        Kind::LifetimeColon => 76,
        Kind::ConstParam => 77,
        Kind::TypeParam => 78,
        Kind::BoundsColon => 79,
        Kind::Where => 80,
        Kind::WhereClause => 81,
        Kind::WherePredicate => 82,
        Kind::Expression(position) => 83 + position_number(position),
        Kind::ExprLit => 87,
        Kind::ExprPath => 88,
        Kind::ExprMacro => 89,
        Kind::ExprParen => 90,
        Kind::ExprArray => 91,
        Kind::ExprRepeat => 92,
        Kind::ExprGroup => 93,
        Kind::ExprInfer => 94,
        Kind::ExprBlock => 95,
        Kind::ExprUnsafe => 96,
        Kind::ExprAsync => 97,
        Kind::ExprConst => 98,
        Kind::ExprTryBlock => 99,
        Kind::ExprIf => 100,
        Kind::ExprMatch => 101,
        Kind::ExprLoop => 102,
        Kind::ExprWhile => 103,
        Kind::ExprForLoop => 104,
        Kind::ExprContinue => 105,
        Kind::ExprTypedClosure => 106,
        Kind::ExprStruct => 107,
        Kind::ExprCall => 108,
        Kind::ExprMethodCall => 109,
        Kind::ExprField => 110,
        Kind::ExprAwait => 111,
        Kind::ExprIndex => 112,
        Kind::ExprTry => 113,
        Kind::ExprCast => 114,
        Kind::ExprAttributed => 115,
        Kind::ExprUnary => 116,
        Kind::ExprRawAddr => 117,
        Kind::ExprReference => 118,
        Kind::ExprLet => 119,
        Kind::ExprBreak => 120,
        Kind::ExprReturn => 121,
        Kind::ExprYield => 122,
        Kind::ExprClosure => 123,
        Kind::ExprRange => 124,
        Kind::ExprRangeClosed => 125,
        Kind::ExprAssign => 126,
        Kind::ExprOr => 127,
        Kind::ExprAnd => 128,
        Kind::ExprCompare => 129,
        Kind::ExprBitOr => 130,
        Kind::ExprBitXor => 131,
        Kind::ExprBitAnd => 132,
        Kind::ExprShift => 133,
        Kind::ExprSum => 134,
        Kind::ExprProduct => 135,
        Kind::FieldValues => 136,
        Kind::AFieldValue => 137,
        Kind::FieldValue => 138,
        Kind::Arms => 139,
        Kind::Arm => 140,
        Kind::ClosureParam => 141,
        Kind::Label => 142,
        Kind::Block => 143,
        Kind::Body => 144,
        Kind::Visibility => 145,
        Kind::NamedFields => 146,
        Kind::UnnamedFields => 147,
        Kind::NamedField => 148,
        Kind::UnnamedField => 149,
        Kind::Variant => 150,
        Kind::AStruct => 151,
        Kind::AnEnum => 152,
        Kind::AUnion => 153,
        Kind::AStatic => 154,
        Kind::AConst => 155,
        Kind::AnExternCrate => 156,
        Kind::AForeignModule => 157,
        Kind::AUse => 158,
        Kind::UseTop => 159,
        Kind::UseTree => 160,
        Kind::UseBranch => 161,
        Kind::UseRooted => 162,
        Kind::AModule => 163,
        Kind::ATrait => 164,
        Kind::AConstTrait => 165,
        Kind::ARestrictedTrait => 166,
        Kind::AnImpl => 167,
        Kind::AMacroDefinition => 168,
        Kind::Parameters => 169,
        Kind::Parameter => 170,
        Kind::FnArg => 171,
        Kind::Receiver => 172,
        Kind::Signature(place) => 173 + place_number(place),
        Kind::AFunction(place) => 177 + place_number(place),
        Kind::ATypeAlias(place) => 181 + place_number(place),
        Kind::ItemMacro(place) => 185 + place_number(place),
        Kind::AnItem => 189,
        Kind::AForeignItem => 190,
        Kind::ATraitItem => 191,
        Kind::AnImplItem => 192,
        Kind::Items => 193,
        Kind::ForeignItems => 194,
        Kind::TraitItems => 195,
        Kind::ImplItems => 196,
        Kind::ItemStruct => 197,
        Kind::ItemEnum => 198,
        Kind::ItemUnion => 199,
        Kind::ItemFn => 200,
        Kind::ItemExternCrate => 201,
        Kind::ItemForeignMod => 202,
        Kind::ItemUse => 203,
        Kind::ItemStatic => 204,
        Kind::ItemConst => 205,
        Kind::ItemMod => 206,
        Kind::ItemType => 207,
        Kind::ItemTrait => 208,
        Kind::ItemTraitAlias => 209,
        Kind::ItemImpl => 210,
        Kind::DeriveInput => 211,
        Kind::OneMacro(place) => 212 + place_number(place),
        Kind::OneFunction(place) => 216 + place_number(place),
        Kind::OneTypeAlias(place) => 220 + place_number(place),
        Kind::OneConst(place) => 224 + place_number(place),
        Kind::ForeignItemStatic => 228,
        Kind::Statements => 229,
        Kind::AStatement => 230,
        Kind::OneStatement => 231,
        Kind::ALet => 232,
        Kind::AFile => 233,
    }
}

/// Two kinds are one.
#[tactic(auto, using(crate::proofs::Numbers::one_kind))]
pub fn same_kind(a: Kind, b: Kind) -> bool
    ensures { IsTrue result ↔ (kind_of a ≡ kind_of b) }
{
    kind_number(a) == kind_number(b)
}

// The number of a name.
fn part_number(part: Part) -> u8
    ensures { result ≡ number (part_of part) }
{
    part as u8
}

/// Two names of parts are one.
#[tactic(auto, using(crate::proofs::Numbers::one_part))]
pub fn same_part(a: Part, b: Part) -> bool
    ensures { IsTrue result ↔ (part_of a ≡ part_of b) }
{
    part_number(a) == part_number(b)
}
