//! The entries of generics and where clauses.

// Written by tools/rows.py from the entries of the written grammar.

use crate::composite::Composite;
use crate::kind::{Kind, Plus};
use crate::op::{Look, Op, Separator, Test};
use crate::part::Part;
use crate::word::{Keyword, Literals, Sign, Words};
use proc_macro2::delimiter::Delimiter;

/// Generics stand where < does.
#[rattlefmt::skip]
pub(crate) static GENERICS: [Op; 8] = [
    Op::Alt(Test::Sees(Look::Mark(Sign::Lt)), 6), Op::Seq(1), Op::Mark(Sign::Lt), Op::Seq(2),
    Op::Called(Part::Parameters), Op::Ref(Kind::GenericParams), Op::Mark(Sign::Gt), Op::Nothing,
];

/// Behind impl generics stand only where < begins parameters.
#[rattlefmt::skip]
pub(crate) static IMPL_GENERICS: [Op; 8] = [
    Op::Alt(Test::Sees(Look::Composite(Composite::ImplGenericsStand)), 6), Op::Seq(1), Op::Mark(Sign::Lt), Op::Seq(2),
    Op::Called(Part::Parameters), Op::Ref(Kind::GenericParams), Op::Mark(Sign::Gt), Op::Nothing,
];

/// Parameters with commas between them, up to > .
pub(crate) static GENERIC_PARAMS: [Op; 2] = [
    Op::Many(Test::Sees(Look::Mark(Sign::Gt)), Separator::Comma),
    Op::Ref(Kind::GenericParam),
];

/// A parameter, by what stands behind its attributes.
#[rattlefmt::skip]
pub(crate) static GENERIC_PARAM: [Op; 6] = [
    Op::Alt(Test::Sees(Look::Composite(Composite::LifetimeBehindAttributes)), 2), Op::Called(Part::Lifetime),
    Op::Ref(Kind::LifetimeParam), Op::Alt(Test::Sees(Look::Composite(Composite::ConstBehindAttributes)), 1),
    Op::Ref(Kind::ConstParam), Op::Ref(Kind::TypeParam),
];

/// Attributes, a lifetime, and (: lifetimes)?
#[rattlefmt::skip]
pub(crate) static LIFETIME_PARAM: [Op; 5] = [
    Op::Seq(1), Op::Ref(Kind::OuterAttributes), Op::Seq(1), Op::Lifetime, Op::Ref(Kind::LifetimeColon),
];

/// (: lifetimes)?
#[rattlefmt::skip]
pub(crate) static LIFETIME_COLON: [Op; 6] = [
    Op::Alt(Test::Sees(Look::Mark(Sign::Colon)), 4), Op::Seq(1), Op::Mark(Sign::Colon), Op::Called(Part::Bounds),
    Op::Ref(Kind::Lifetimes), Op::Nothing,
];

/// Attributes, const Ident : Type, and (= literal, Ident or block)?
#[rattlefmt::skip]
pub(crate) static CONST_PARAM: [Op; 22] = [
    Op::Seq(1), Op::Ref(Kind::OuterAttributes), Op::Seq(1), Op::Word(Words::Keyword(Keyword::Const)), Op::Seq(1),
    Op::Word(Words::Ident), Op::Seq(1), Op::Mark(Sign::Colon), Op::Seq(1), Op::Ref(Kind::AType(Plus::WithPlus)),
    Op::Alt(Test::Sees(Look::Mark(Sign::Eq)), 10), Op::Seq(1), Op::Mark(Sign::Eq), Op::Called(Part::Value),
    Op::Alt(Test::Sees(Look::Composite(Composite::ALiteral)), 3), Op::Alt(Test::Sees(Look::Quoted(Literals::Any)), 1),
    Op::Literal(Literals::Any), Op::Word(Words::Bool), Op::Alt(Test::Sees(Look::Opens(Delimiter::Brace)), 1),
    Op::Ref(Kind::Body), Op::Word(Words::Ident), Op::Nothing,
];

/// Attributes, Ident (: bounds)? (= Type)?
#[rattlefmt::skip]
pub(crate) static TYPE_PARAM: [Op; 11] = [
    Op::Seq(1), Op::Ref(Kind::OuterAttributes), Op::Seq(1), Op::Word(Words::Ident), Op::Seq(1),
    Op::Ref(Kind::BoundsColon), Op::Alt(Test::Sees(Look::Mark(Sign::Eq)), 3), Op::Seq(1), Op::Mark(Sign::Eq),
    Op::Ref(Kind::AType(Plus::WithPlus)), Op::Nothing,
];

/// (: bounds)?
#[rattlefmt::skip]
pub(crate) static BOUNDS_COLON: [Op; 6] = [
    Op::Alt(Test::Sees(Look::Mark(Sign::Colon)), 4), Op::Seq(1), Op::Mark(Sign::Colon), Op::Called(Part::Bounds),
    Op::Ref(Kind::Bounds), Op::Nothing,
];

/// A where clause where there is one.
#[rattlefmt::skip]
pub(crate) static WHERE: [Op; 4] = [
    Op::Alt(Test::Sees(Look::Word(Words::Keyword(Keyword::Where))), 2), Op::Called(Part::Clause),
    Op::Ref(Kind::WhereClause), Op::Nothing,
];

/// where predicates, and one of its ends follows
#[rattlefmt::skip]
pub(crate) static WHERE_CLAUSE: [Op; 9] = [
    Op::Seq(1), Op::Word(Words::Keyword(Keyword::Where)), Op::Seq(3), Op::Called(Part::Parameters),
    Op::Many(Test::Sees(Look::Composite(Composite::WhereEnds)), Separator::Comma), Op::Ref(Kind::WherePredicate),
    Op::Alt(Test::Sees(Look::Composite(Composite::WhereEnds)), 1), Op::Nothing, Op::Never,
];

/// Lifetime : lifetimes, or (for <lifetimes>)? Type : bounds
#[rattlefmt::skip]
pub(crate) static WHERE_PREDICATE: [Op; 15] = [
    Op::Alt(Test::Sees(Look::Lifetime), 5), Op::Seq(1), Op::Lifetime, Op::Seq(1), Op::Mark(Sign::Colon),
    Op::Ref(Kind::Lifetimes), Op::Seq(3), Op::Alt(Test::Sees(Look::Word(Words::Keyword(Keyword::For))), 1),
    Op::Ref(Kind::BoundLifetimes), Op::Nothing, Op::Seq(1), Op::Ref(Kind::AType(Plus::WithPlus)), Op::Seq(1),
    Op::Mark(Sign::Colon), Op::Ref(Kind::Bounds),
];
