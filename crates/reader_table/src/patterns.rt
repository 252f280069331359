//! The entries of patterns.

// Written by tools/rows.py from the entries of the written grammar.

use crate::composite::Composite;
use crate::kind::{Kind, Style};
use crate::op::{Look, Op, Separator, Test, Verdicts};
use crate::part::Part;
use crate::word::{Keyword, Literals, Sign, Words};
use proc_macro2::delimiter::Delimiter;

/// |? alternative (| alternative)*; one alternative without a leading | is itself.
#[rattlefmt::skip]
pub(crate) static PATTERN: [Op; 10] = [
    Op::Seq(3), Op::Alt(Test::Sees(Look::Composite(Composite::Vert)), 1), Op::Mark(Sign::Or), Op::Nothing, Op::Seq(1),
    Op::Ref(Kind::OnePattern), Op::Star(Test::Sees(Look::Composite(Composite::Vert))), Op::Seq(1), Op::Mark(Sign::Or),
    Op::Ref(Kind::OnePattern),
];

/// Several alternatives without a leading |.
#[rattlefmt::skip]
pub(crate) static SEVERAL_PATTERNS: [Op; 6] = [
    Op::Seq(1), Op::Ref(Kind::OnePattern), Op::Star(Test::Sees(Look::Composite(Composite::Vert))), Op::Seq(1),
    Op::Mark(Sign::Or), Op::Ref(Kind::OnePattern),
];

/// One alternative, by its first tokens.
#[rattlefmt::skip]
pub(crate) static ONE_PATTERN: [Op; 17] = [
    Op::Alt(Test::Sees(Look::Composite(Composite::IdentPatternStands)), 1), Op::Ref(Kind::IdentPattern),
    Op::Alt(Test::Sees(Look::Word(Words::Keyword(Keyword::Underscore))), 1), Op::Ref(Kind::WildPattern),
    Op::Alt(Test::Sees(Look::Composite(Composite::RangeToPatternStands)), 1), Op::Ref(Kind::RangeToPattern),
    Op::Alt(Test::Sees(Look::Composite(Composite::Dots)), 1), Op::Ref(Kind::RestPattern),
    Op::Alt(Test::Sees(Look::Opens(Delimiter::Parenthesis)), 1), Op::Ref(Kind::TuplePattern),
    Op::Alt(Test::Sees(Look::Opens(Delimiter::Bracket)), 1), Op::Ref(Kind::SlicePattern),
    Op::Alt(Test::Sees(Look::Mark(Sign::And)), 1), Op::Ref(Kind::ReferencePattern),
    Op::Alt(Test::Sees(Look::Composite(Composite::LiteralPatternStands)), 1), Op::Ref(Kind::LiteralPattern),
    Op::Ref(Kind::PathPattern),
];

/// ref? mut? Ident (@ alternative)?; before a ! it is refused, since macros are no patterns.
#[rattlefmt::skip]
pub(crate) static IDENT_PATTERN: [Op; 17] = [
    Op::Seq(3), Op::Alt(Test::Sees(Look::Word(Words::Keyword(Keyword::Ref))), 1),
    Op::Word(Words::Keyword(Keyword::Ref)), Op::Nothing, Op::Seq(3),
    Op::Alt(Test::Sees(Look::Word(Words::Keyword(Keyword::Mut))), 1), Op::Word(Words::Keyword(Keyword::Mut)),
    Op::Nothing, Op::Seq(1), Op::Word(Words::Ident), Op::Alt(Test::Sees(Look::Mark(Sign::Not)), 1), Op::Never,
    Op::Alt(Test::Sees(Look::Mark(Sign::At)), 3), Op::Seq(1), Op::Mark(Sign::At), Op::Ref(Kind::OnePattern),
    Op::Nothing,
];

/// _
pub(crate) static WILD_PATTERN: [Op; 1] = [Op::Word(Words::Keyword(Keyword::Underscore))];

/// A range without a start: ..= or .. and its end.
#[rattlefmt::skip]
pub(crate) static RANGE_TO_PATTERN: [Op; 5] = [
    Op::Seq(3), Op::Alt(Test::Sees(Look::Mark(Sign::DotDotEq)), 1), Op::Mark(Sign::DotDotEq), Op::Mark(Sign::DotDot),
    Op::Ref(Kind::RangeBound),
];

/// ..
pub(crate) static REST_PATTERN: [Op; 1] = [Op::Mark(Sign::DotDot)];

/// (patterns): a pattern in parentheses where it is one, which isn't .., without a comma; else a tuple.
#[rattlefmt::skip]
pub(crate) static TUPLE_PATTERN: [Op; 3] = [
    Op::Group(Delimiter::Parenthesis), Op::Many(Test::Sees(Look::End), Separator::Comma), Op::Ref(Kind::Pattern),
];

/// [patterns]
#[rattlefmt::skip]
pub(crate) static SLICE_PATTERN: [Op; 3] = [
    Op::Group(Delimiter::Bracket), Op::Many(Test::Sees(Look::End), Separator::Comma), Op::Ref(Kind::Pattern),
];

/// & mut? alternative
#[rattlefmt::skip]
pub(crate) static REFERENCE_PATTERN: [Op; 7] = [
    Op::Seq(1), Op::Mark(Sign::And), Op::Seq(3), Op::Alt(Test::Sees(Look::Word(Words::Keyword(Keyword::Mut))), 1),
    Op::Word(Words::Keyword(Keyword::Mut)), Op::Nothing, Op::Ref(Kind::OnePattern),
];

/// Alone or as a range's start
#[rattlefmt::skip]
pub(crate) static LITERAL_PATTERN: [Op; 11] = [
    Op::Seq(7), Op::Alt(Test::Sees(Look::Mark(Sign::Minus)), 3), Op::Seq(1), Op::Mark(Sign::Minus),
    Op::Literal(Literals::Number), Op::Alt(Test::Sees(Look::Quoted(Literals::Any)), 1), Op::Literal(Literals::Any),
    Op::Word(Words::Bool), Op::Alt(Test::Sees(Look::Composite(Composite::RangeEndStands)), 1),
    Op::Ref(Kind::RangeEnd), Op::Nothing,
];

/// A path, alone, as a range's start, as a tuple struct with its patterns, or as a struct with its fields.
#[rattlefmt::skip]
pub(crate) static PATH_PATTERN: [Op; 11] = [
    Op::Seq(1), Op::Ref(Kind::AnyPath(Style::InExpression)),
    Op::Alt(Test::Sees(Look::Opens(Delimiter::Parenthesis)), 3), Op::Group(Delimiter::Parenthesis),
    Op::Many(Test::Sees(Look::End), Separator::Comma), Op::Ref(Kind::Pattern),
    Op::Alt(Test::Sees(Look::Opens(Delimiter::Brace)), 1), Op::Ref(Kind::FieldPatterns),
    Op::Alt(Test::Sees(Look::Composite(Composite::RangeEndStands)), 1), Op::Ref(Kind::RangeEnd), Op::Nothing,
];

/// What makes a range of what stands before: ..= and an end, or .. and perhaps one.
#[rattlefmt::skip]
pub(crate) static RANGE_END: [Op; 9] = [
    Op::Alt(Test::Sees(Look::Mark(Sign::DotDotEq)), 3), Op::Seq(1), Op::Mark(Sign::DotDotEq),
    Op::Ref(Kind::RangeBound), Op::Seq(1), Op::Mark(Sign::DotDot),
    Op::Alt(Test::Sees(Look::Composite(Composite::RangeBoundStands)), 1), Op::Ref(Kind::RangeBound), Op::Nothing,
];

/// A literal, - and a number, or a path.
#[rattlefmt::skip]
pub(crate) static RANGE_BOUND: [Op; 9] = [
    Op::Alt(Test::Sees(Look::Composite(Composite::LiteralPatternStands)), 7),
    Op::Alt(Test::Sees(Look::Mark(Sign::Minus)), 3), Op::Seq(1), Op::Mark(Sign::Minus), Op::Literal(Literals::Number),
    Op::Alt(Test::Sees(Look::Quoted(Literals::Any)), 1), Op::Literal(Literals::Any), Op::Word(Words::Bool),
    Op::Ref(Kind::AnyPath(Style::InExpression)),
];

/// { fields }; a .. is the last, without a comma behind it.
#[rattlefmt::skip]
pub(crate) static FIELD_PATTERNS: [Op; 4] = [
    Op::Judged(Verdicts::FieldPatterns), Op::Group(Delimiter::Brace),
    Op::Many(Test::Sees(Look::End), Separator::Comma), Op::Ref(Kind::FieldPattern),
];

/// Attributes, and then .., or Member : Pat, or ref? mut? Ident.
#[rattlefmt::skip]
pub(crate) static FIELD_PATTERN: [Op; 20] = [
    Op::Seq(1), Op::Ref(Kind::OuterAttributes), Op::Alt(Test::Sees(Look::Mark(Sign::DotDot)), 2),
    Op::Called(Part::Rest), Op::Ref(Kind::RestPattern),
    Op::Alt(Test::Sees(Look::Composite(Composite::MemberColon)), 5), Op::Seq(1), Op::Ref(Kind::Member), Op::Seq(1),
    Op::Mark(Sign::Colon), Op::Ref(Kind::Pattern), Op::Seq(3),
    Op::Alt(Test::Sees(Look::Word(Words::Keyword(Keyword::Ref))), 1), Op::Word(Words::Keyword(Keyword::Ref)),
    Op::Nothing, Op::Seq(3), Op::Alt(Test::Sees(Look::Word(Words::Keyword(Keyword::Mut))), 1),
    Op::Word(Words::Keyword(Keyword::Mut)), Op::Nothing, Op::Word(Words::Ident),
];
