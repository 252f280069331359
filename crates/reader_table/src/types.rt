//! The entries of types and bounds.

// Written by tools/rows.py from the entries of the written grammar.

ghost use Rattle.reader_table.specs.Kinds.{kind_of};
ghost use Rattle.reader_table.specs.Ops.{gram_of};
ghost use Rattle.reader_table.specs.declared.kind.Kind.TheVariants as kinds;
ghost use Rattle.std.specs.Prelude.{◌≡◌};
ghost use Rattle.syn_grammar.specs.Table.{table};

use crate::composite::Composite;
use crate::kind::{Kind, Plus, Position, Style};
use crate::op::{Look, Op, Separator, Test, Verdicts};
use crate::part::Part;
use crate::word::{Keyword, Literals, Sign, Words};
use proc_macro2::delimiter::Delimiter;

/// A type, by its first token.
#[rattlefmt::skip]
static A_TYPE_WITH_PLUS: [Op; 19] = [
    Op::Alt(Test::Sees(Look::Opens(Delimiter::Parenthesis)), 1), Op::Ref(Kind::TupleType),
    Op::Alt(Test::Sees(Look::Mark(Sign::Not)), 1), Op::Ref(Kind::NeverType),
    Op::Alt(Test::Sees(Look::Mark(Sign::And)), 1), Op::Ref(Kind::ReferenceType),
    Op::Alt(Test::Sees(Look::Mark(Sign::Star)), 1), Op::Ref(Kind::PointerType),
    Op::Alt(Test::Sees(Look::Opens(Delimiter::Bracket)), 1), Op::Ref(Kind::BracketType),
    Op::Alt(Test::Sees(Look::Word(Words::Keyword(Keyword::Underscore))), 1), Op::Ref(Kind::InferType),
    Op::Alt(Test::Sees(Look::Word(Words::Keyword(Keyword::Dyn))), 1), Op::Ref(Kind::DynType(Plus::WithPlus)),
    Op::Alt(Test::Sees(Look::Word(Words::Keyword(Keyword::Impl))), 1), Op::Ref(Kind::ImplType(Plus::WithPlus)),
    Op::Alt(Test::Sees(Look::Composite(Composite::FnPtrStands)), 1), Op::Ref(Kind::FnPtrType),
    Op::Ref(Kind::AnyPath(Style::AtType)),
];

/// A type, by its first token.
#[rattlefmt::skip]
static A_TYPE_WITHOUT_PLUS: [Op; 19] = [
    Op::Alt(Test::Sees(Look::Opens(Delimiter::Parenthesis)), 1), Op::Ref(Kind::TupleType),
    Op::Alt(Test::Sees(Look::Mark(Sign::Not)), 1), Op::Ref(Kind::NeverType),
    Op::Alt(Test::Sees(Look::Mark(Sign::And)), 1), Op::Ref(Kind::ReferenceType),
    Op::Alt(Test::Sees(Look::Mark(Sign::Star)), 1), Op::Ref(Kind::PointerType),
    Op::Alt(Test::Sees(Look::Opens(Delimiter::Bracket)), 1), Op::Ref(Kind::BracketType),
    Op::Alt(Test::Sees(Look::Word(Words::Keyword(Keyword::Underscore))), 1), Op::Ref(Kind::InferType),
    Op::Alt(Test::Sees(Look::Word(Words::Keyword(Keyword::Dyn))), 1), Op::Ref(Kind::DynType(Plus::WithoutPlus)),
    Op::Alt(Test::Sees(Look::Word(Words::Keyword(Keyword::Impl))), 1), Op::Ref(Kind::ImplType(Plus::WithoutPlus)),
    Op::Alt(Test::Sees(Look::Composite(Composite::FnPtrStands)), 1), Op::Ref(Kind::FnPtrType),
    Op::Ref(Kind::AnyPath(Style::AtType)),
];

pub(crate) fn a_type(plus: Plus) -> &'static [Op]
    ensures { gram_of result.now ≡ table (kind_of (kinds.AType plus)) }
{
    match plus {
        Plus::WithPlus => &A_TYPE_WITH_PLUS,
        Plus::WithoutPlus => &A_TYPE_WITHOUT_PLUS,
    }
}

/// dyn and impl take bounds of which one at least is a path; without plus one bound, which is a path.
#[rattlefmt::skip]
static DYN_TYPE_WITH_PLUS: [Op; 4] = [
    Op::Seq(1), Op::Word(Words::Keyword(Keyword::Dyn)), Op::Called(Part::Bounds), Op::Ref(Kind::SomeBounds),
];

/// dyn and impl take bounds of which one at least is a path; without plus one bound, which is a path.
#[rattlefmt::skip]
static DYN_TYPE_WITHOUT_PLUS: [Op; 5] = [
    Op::Seq(1), Op::Word(Words::Keyword(Keyword::Dyn)), Op::Alt(Test::Sees(Look::Lifetime), 1), Op::Never,
    Op::Ref(Kind::Bound),
];

pub(crate) fn dyn_type(plus: Plus) -> &'static [Op]
    ensures { gram_of result.now ≡ table (kind_of (kinds.DynType plus)) }
{
    match plus {
        Plus::WithPlus => &DYN_TYPE_WITH_PLUS,
        Plus::WithoutPlus => &DYN_TYPE_WITHOUT_PLUS,
    }
}

/// impl bounds, of which one at least is a path.
#[rattlefmt::skip]
static IMPL_TYPE_WITH_PLUS: [Op; 4] = [
    Op::Seq(1), Op::Word(Words::Keyword(Keyword::Impl)), Op::Called(Part::Bounds), Op::Ref(Kind::SomeBounds),
];

/// impl bounds, of which one at least is a path.
#[rattlefmt::skip]
static IMPL_TYPE_WITHOUT_PLUS: [Op; 5] = [
    Op::Seq(1), Op::Word(Words::Keyword(Keyword::Impl)), Op::Alt(Test::Sees(Look::Lifetime), 1), Op::Never,
    Op::Ref(Kind::Bound),
];

pub(crate) fn impl_type(plus: Plus) -> &'static [Op]
    ensures { gram_of result.now ≡ table (kind_of (kinds.ImplType plus)) }
{
    match plus {
        Plus::WithPlus => &IMPL_TYPE_WITH_PLUS,
        Plus::WithoutPlus => &IMPL_TYPE_WITHOUT_PLUS,
    }
}

/// (-> Type)?
#[rattlefmt::skip]
static RETURN_TYPE_WITH_PLUS: [Op; 6] = [
    Op::Alt(Test::Sees(Look::Mark(Sign::RArrow)), 4), Op::Seq(1), Op::Mark(Sign::RArrow), Op::Called(Part::Type),
    Op::Ref(Kind::AType(Plus::WithPlus)), Op::Nothing,
];

/// (-> Type)?
#[rattlefmt::skip]
static RETURN_TYPE_WITHOUT_PLUS: [Op; 6] = [
    Op::Alt(Test::Sees(Look::Mark(Sign::RArrow)), 4), Op::Seq(1), Op::Mark(Sign::RArrow), Op::Called(Part::Type),
    Op::Ref(Kind::AType(Plus::WithoutPlus)), Op::Nothing,
];

pub(crate) fn return_type(plus: Plus) -> &'static [Op]
    ensures { gram_of result.now ≡ table (kind_of (kinds.ReturnType plus)) }
{
    match plus {
        Plus::WithPlus => &RETURN_TYPE_WITH_PLUS,
        Plus::WithoutPlus => &RETURN_TYPE_WITHOUT_PLUS,
    }
}

/// () or (types): a type in parentheses where it is one type without a comma, else a tuple.
pub(crate) static TUPLE_TYPE: [Op; 3] = [
    Op::Group(Delimiter::Parenthesis),
    Op::Many(Test::Sees(Look::End), Separator::Comma),
    Op::Ref(Kind::AType(Plus::WithPlus)),
];

/// !
pub(crate) static NEVER_TYPE: [Op; 1] = [Op::Mark(Sign::Not)];

/// & 'a? mut? Type, the type without plus.
#[rattlefmt::skip]
pub(crate) static REFERENCE_TYPE: [Op; 11] = [
    Op::Seq(1), Op::Mark(Sign::And), Op::Seq(3), Op::Alt(Test::Sees(Look::Lifetime), 1), Op::Lifetime, Op::Nothing,
    Op::Seq(3), Op::Alt(Test::Sees(Look::Word(Words::Keyword(Keyword::Mut))), 1),
    Op::Word(Words::Keyword(Keyword::Mut)), Op::Nothing, Op::Ref(Kind::AType(Plus::WithoutPlus)),
];

/// * const Type or * mut Type, the type without plus.
#[rattlefmt::skip]
pub(crate) static POINTER_TYPE: [Op; 7] = [
    Op::Seq(1), Op::Mark(Sign::Star), Op::Seq(3), Op::Alt(Test::Sees(Look::Word(Words::Keyword(Keyword::Const))), 1),
    Op::Word(Words::Keyword(Keyword::Const)), Op::Word(Words::Keyword(Keyword::Mut)),
    Op::Ref(Kind::AType(Plus::WithoutPlus)),
];

/// [Type], a slice, or [Type ; Expr], an array.
#[rattlefmt::skip]
pub(crate) static BRACKET_TYPE: [Op; 9] = [
    Op::Group(Delimiter::Bracket), Op::Seq(1), Op::Ref(Kind::AType(Plus::WithPlus)),
    Op::Alt(Test::Sees(Look::Mark(Sign::Semi)), 4), Op::Seq(1), Op::Mark(Sign::Semi), Op::Called(Part::Value),
    Op::Ref(Kind::Expression(Position::Plain)), Op::Nothing,
];

/// _
pub(crate) static INFER_TYPE: [Op; 1] = [Op::Word(Words::Keyword(Keyword::Underscore))];

/// (for <lifetimes>)? unsafe? Abi? fn (arguments) (-> Type)?, the last type without plus.
#[rattlefmt::skip]
pub(crate) static FN_PTR_TYPE: [Op; 19] = [
    Op::Seq(3), Op::Alt(Test::Sees(Look::Word(Words::Keyword(Keyword::For))), 1), Op::Ref(Kind::BoundLifetimes),
    Op::Nothing, Op::Seq(3), Op::Alt(Test::Sees(Look::Word(Words::Keyword(Keyword::Unsafe))), 1),
    Op::Word(Words::Keyword(Keyword::Unsafe)), Op::Nothing, Op::Seq(3),
    Op::Alt(Test::Sees(Look::Word(Words::Keyword(Keyword::Extern))), 1), Op::Ref(Kind::Abi), Op::Nothing, Op::Seq(1),
    Op::Word(Words::Keyword(Keyword::Fn)), Op::Seq(3), Op::Group(Delimiter::Parenthesis),
    Op::Many(Test::Sees(Look::End), Separator::Comma), Op::Ref(Kind::FnPtrArg),
    Op::Ref(Kind::ReturnType(Plus::WithoutPlus)),
];

/// Attributes, (Ident or _) : where a : follows it that begins no ::, and a type.
#[rattlefmt::skip]
pub(crate) static FN_PTR_ARG: [Op; 11] = [
    Op::Seq(1), Op::Ref(Kind::OuterAttributes), Op::Seq(7),
    Op::Alt(Test::Sees(Look::Composite(Composite::NamedArgument)), 5), Op::Seq(3),
    Op::Alt(Test::Sees(Look::Word(Words::Keyword(Keyword::Underscore))), 1),
    Op::Word(Words::Keyword(Keyword::Underscore)), Op::Word(Words::Ident), Op::Mark(Sign::Colon), Op::Nothing,
    Op::Ref(Kind::AType(Plus::WithPlus)),
];

/// Bounds with + between them, or none; a + behind which no bound begins is kept as a trailing one.
#[rattlefmt::skip]
pub(crate) static BOUNDS: [Op; 2] = [
    Op::Many(Test::Lacks(Look::Composite(Composite::BoundStands)), Separator::Plus), Op::Ref(Kind::Bound),
];

/// Bounds of which one at least is a path.
#[rattlefmt::skip]
pub(crate) static SOME_BOUNDS: [Op; 3] = [
    Op::Judged(Verdicts::SomeBounds), Op::Many(Test::Lacks(Look::Composite(Composite::BoundStands)), Separator::Plus),
    Op::Ref(Kind::Bound),
];

/// A bound is a lifetime or a path.
#[rattlefmt::skip]
pub(crate) static BOUND: [Op; 4] = [
    Op::Alt(Test::Sees(Look::Lifetime), 1), Op::Lifetime, Op::Called(Part::Path), Op::Ref(Kind::TraitPath),
];

/// ? Path, or (for <lifetimes>)? Path.
#[rattlefmt::skip]
pub(crate) static TRAIT_PATH: [Op; 7] = [
    Op::Seq(5), Op::Alt(Test::Sees(Look::Mark(Sign::Question)), 1), Op::Mark(Sign::Question),
    Op::Alt(Test::Sees(Look::Word(Words::Keyword(Keyword::For))), 1), Op::Ref(Kind::BoundLifetimes), Op::Nothing,
    Op::Ref(Kind::Path(Style::AtType)),
];

/// for < lifetimes >, each as a parameter.
#[rattlefmt::skip]
pub(crate) static BOUND_LIFETIMES: [Op; 8] = [
    Op::Seq(1), Op::Word(Words::Keyword(Keyword::For)), Op::Seq(1), Op::Mark(Sign::Lt), Op::Seq(2),
    Op::Many(Test::Sees(Look::Mark(Sign::Gt)), Separator::Comma), Op::Ref(Kind::LifetimeParam), Op::Mark(Sign::Gt),
];

/// Lifetimes with + between them, or none; a trailing + is kept.
#[rattlefmt::skip]
pub(crate) static LIFETIMES: [Op; 2] = [Op::Many(Test::Lacks(Look::Lifetime), Separator::Plus), Op::Lifetime];

/// extern string?
#[rattlefmt::skip]
pub(crate) static ABI: [Op; 5] = [
    Op::Seq(1), Op::Word(Words::Keyword(Keyword::Extern)), Op::Alt(Test::Sees(Look::Quoted(Literals::Text)), 1),
    Op::Literal(Literals::Text), Op::Nothing,
];
