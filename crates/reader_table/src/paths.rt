//! The entries of paths, their arguments, macros and members.

// Written by tools/rows.py from the entries of the written grammar.

ghost use Rattle.reader_table.specs.Kinds.{kind_of};
ghost use Rattle.reader_table.specs.Ops.{gram_of};
ghost use Rattle.reader_table.specs.declared.kind.Kind.TheVariants as kinds;
ghost use Rattle.std.specs.Prelude.{◌≡◌};
ghost use Rattle.syn_grammar.specs.Table.{table};

use crate::composite::Composite;
use crate::kind::{Kind, Plus, Style};
use crate::op::{Look, Op, Separator, Test};
use crate::part::Part;
use crate::word::{Keyword, Literals, Sign, Words};
use proc_macro2::delimiter::Delimiter;

/// A path is ::? and then names with :: between them.
#[rattlefmt::skip]
static PATH_IN_MODULE: [Op; 5] = [
    Op::Seq(3), Op::Alt(Test::Sees(Look::Mark(Sign::PathSep)), 1), Op::Mark(Sign::PathSep), Op::Nothing,
    Op::Ref(Kind::Segments(Style::InModule)),
];

/// A path is ::? and then names with :: between them.
#[rattlefmt::skip]
static PATH_IN_EXPRESSION: [Op; 5] = [
    Op::Seq(3), Op::Alt(Test::Sees(Look::Mark(Sign::PathSep)), 1), Op::Mark(Sign::PathSep), Op::Nothing,
    Op::Ref(Kind::Segments(Style::InExpression)),
];

/// A path is ::? and then names with :: between them.
#[rattlefmt::skip]
static PATH_IN_TYPE: [Op; 5] = [
    Op::Seq(3), Op::Alt(Test::Sees(Look::Mark(Sign::PathSep)), 1), Op::Mark(Sign::PathSep), Op::Nothing,
    Op::Ref(Kind::Segments(Style::InType)),
];

/// A path is ::? and then names with :: between them.
#[rattlefmt::skip]
static PATH_AT_TYPE: [Op; 5] = [
    Op::Seq(3), Op::Alt(Test::Sees(Look::Mark(Sign::PathSep)), 1), Op::Mark(Sign::PathSep), Op::Nothing,
    Op::Ref(Kind::Segments(Style::AtType)),
];

pub(crate) fn path(style: Style) -> &'static [Op]
    ensures { gram_of result.now ≡ table (kind_of (kinds.Path style)) }
{
    match style {
        Style::InModule => &PATH_IN_MODULE,
        Style::InExpression => &PATH_IN_EXPRESSION,
        Style::InType => &PATH_IN_TYPE,
        Style::AtType => &PATH_AT_TYPE,
    }
}

/// A name, with arguments where these stand there and the name takes some (self, super and crate take none), and then
/// further names; the last one, if it has no arguments, may have some in parentheses in a type or a bound.
#[rattlefmt::skip]
static SEGMENTS_IN_MODULE: [Op; 25] = [
    Op::Alt(Test::Sees(Look::Word(Words::PathKeyword)), 7), Op::Seq(1), Op::Word(Words::PathKeyword),
    Op::Alt(Test::Sees(Look::Mark(Sign::PathSep)), 3), Op::Seq(1), Op::Mark(Sign::PathSep),
    Op::Ref(Kind::Segments(Style::InModule)), Op::Nothing, Op::Seq(1), Op::Word(Words::PlainName),
    Op::Alt(Test::Sees(Look::Nowhere), 7), Op::Seq(1), Op::Ref(Kind::Arguments),
    Op::Alt(Test::Sees(Look::Mark(Sign::PathSep)), 3), Op::Seq(1), Op::Mark(Sign::PathSep),
    Op::Ref(Kind::Segments(Style::InModule)), Op::Nothing, Op::Alt(Test::Sees(Look::Mark(Sign::PathSep)), 3),
    Op::Seq(1), Op::Mark(Sign::PathSep), Op::Ref(Kind::Segments(Style::InModule)),
    Op::Alt(Test::Sees(Look::Nowhere), 1), Op::Ref(Kind::ParenthesizedArguments), Op::Nothing,
];

/// A name, with arguments where these stand there and the name takes some (self, super and crate take none), and then
/// further names; the last one, if it has no arguments, may have some in parentheses in a type or a bound.
#[rattlefmt::skip]
static SEGMENTS_IN_EXPRESSION: [Op; 25] = [
    Op::Alt(Test::Sees(Look::Word(Words::PathKeyword)), 7), Op::Seq(1), Op::Word(Words::PathKeyword),
    Op::Alt(Test::Sees(Look::Mark(Sign::PathSep)), 3), Op::Seq(1), Op::Mark(Sign::PathSep),
    Op::Ref(Kind::Segments(Style::InExpression)), Op::Nothing, Op::Seq(1), Op::Word(Words::PlainName),
    Op::Alt(Test::Sees(Look::Composite(Composite::Turbofish)), 7), Op::Seq(1), Op::Ref(Kind::Arguments),
    Op::Alt(Test::Sees(Look::Mark(Sign::PathSep)), 3), Op::Seq(1), Op::Mark(Sign::PathSep),
    Op::Ref(Kind::Segments(Style::InExpression)), Op::Nothing, Op::Alt(Test::Sees(Look::Mark(Sign::PathSep)), 3),
    Op::Seq(1), Op::Mark(Sign::PathSep), Op::Ref(Kind::Segments(Style::InExpression)),
    Op::Alt(Test::Sees(Look::Nowhere), 1), Op::Ref(Kind::ParenthesizedArguments), Op::Nothing,
];

/// A name, with arguments where these stand there and the name takes some (self, super and crate take none), and then
/// further names; the last one, if it has no arguments, may have some in parentheses in a type or a bound.
#[rattlefmt::skip]
static SEGMENTS_IN_TYPE: [Op; 25] = [
    Op::Alt(Test::Sees(Look::Word(Words::PathKeyword)), 7), Op::Seq(1), Op::Word(Words::PathKeyword),
    Op::Alt(Test::Sees(Look::Mark(Sign::PathSep)), 3), Op::Seq(1), Op::Mark(Sign::PathSep),
    Op::Ref(Kind::Segments(Style::InType)), Op::Nothing, Op::Seq(1), Op::Word(Words::PlainName),
    Op::Alt(Test::Sees(Look::Composite(Composite::ArgumentsStand)), 7), Op::Seq(1), Op::Ref(Kind::Arguments),
    Op::Alt(Test::Sees(Look::Mark(Sign::PathSep)), 3), Op::Seq(1), Op::Mark(Sign::PathSep),
    Op::Ref(Kind::Segments(Style::InType)), Op::Nothing, Op::Alt(Test::Sees(Look::Mark(Sign::PathSep)), 3),
    Op::Seq(1), Op::Mark(Sign::PathSep), Op::Ref(Kind::Segments(Style::InType)),
    Op::Alt(Test::Sees(Look::Nowhere), 1), Op::Ref(Kind::ParenthesizedArguments), Op::Nothing,
];

/// A name, with arguments where these stand there and the name takes some (self, super and crate take none), and then
/// further names; the last one, if it has no arguments, may have some in parentheses in a type or a bound.
#[rattlefmt::skip]
static SEGMENTS_AT_TYPE: [Op; 25] = [
    Op::Alt(Test::Sees(Look::Word(Words::PathKeyword)), 7), Op::Seq(1), Op::Word(Words::PathKeyword),
    Op::Alt(Test::Sees(Look::Mark(Sign::PathSep)), 3), Op::Seq(1), Op::Mark(Sign::PathSep),
    Op::Ref(Kind::Segments(Style::AtType)), Op::Nothing, Op::Seq(1), Op::Word(Words::PlainName),
    Op::Alt(Test::Sees(Look::Composite(Composite::ArgumentsStand)), 7), Op::Seq(1), Op::Ref(Kind::Arguments),
    Op::Alt(Test::Sees(Look::Mark(Sign::PathSep)), 3), Op::Seq(1), Op::Mark(Sign::PathSep),
    Op::Ref(Kind::Segments(Style::AtType)), Op::Nothing, Op::Alt(Test::Sees(Look::Mark(Sign::PathSep)), 3),
    Op::Seq(1), Op::Mark(Sign::PathSep), Op::Ref(Kind::Segments(Style::AtType)),
    Op::Alt(Test::Sees(Look::Opens(Delimiter::Parenthesis)), 1), Op::Ref(Kind::ParenthesizedArguments), Op::Nothing,
];

pub(crate) fn segments(style: Style) -> &'static [Op]
    ensures { gram_of result.now ≡ table (kind_of (kinds.Segments style)) }
{
    match style {
        Style::InModule => &SEGMENTS_IN_MODULE,
        Style::InExpression => &SEGMENTS_IN_EXPRESSION,
        Style::InType => &SEGMENTS_IN_TYPE,
        Style::AtType => &SEGMENTS_AT_TYPE,
    }
}

/// One segment by itself: a name, and the arguments that it would have as the last one.
#[rattlefmt::skip]
static SEGMENT_IN_MODULE: [Op; 9] = [
    Op::Alt(Test::Sees(Look::Word(Words::PathKeyword)), 1), Op::Word(Words::PathKeyword), Op::Seq(1),
    Op::Word(Words::PlainName), Op::Alt(Test::Sees(Look::Nowhere), 1), Op::Ref(Kind::Arguments),
    Op::Alt(Test::Sees(Look::Nowhere), 1), Op::Ref(Kind::ParenthesizedArguments), Op::Nothing,
];

/// One segment by itself: a name, and the arguments that it would have as the last one.
#[rattlefmt::skip]
static SEGMENT_IN_EXPRESSION: [Op; 9] = [
    Op::Alt(Test::Sees(Look::Word(Words::PathKeyword)), 1), Op::Word(Words::PathKeyword), Op::Seq(1),
    Op::Word(Words::PlainName), Op::Alt(Test::Sees(Look::Composite(Composite::Turbofish)), 1),
    Op::Ref(Kind::Arguments), Op::Alt(Test::Sees(Look::Nowhere), 1), Op::Ref(Kind::ParenthesizedArguments),
    Op::Nothing,
];

/// One segment by itself: a name, and the arguments that it would have as the last one.
#[rattlefmt::skip]
static SEGMENT_IN_TYPE: [Op; 9] = [
    Op::Alt(Test::Sees(Look::Word(Words::PathKeyword)), 1), Op::Word(Words::PathKeyword), Op::Seq(1),
    Op::Word(Words::PlainName), Op::Alt(Test::Sees(Look::Composite(Composite::ArgumentsStand)), 1),
    Op::Ref(Kind::Arguments), Op::Alt(Test::Sees(Look::Nowhere), 1), Op::Ref(Kind::ParenthesizedArguments),
    Op::Nothing,
];

/// One segment by itself: a name, and the arguments that it would have as the last one.
#[rattlefmt::skip]
static SEGMENT_AT_TYPE: [Op; 9] = [
    Op::Alt(Test::Sees(Look::Word(Words::PathKeyword)), 1), Op::Word(Words::PathKeyword), Op::Seq(1),
    Op::Word(Words::PlainName), Op::Alt(Test::Sees(Look::Composite(Composite::ArgumentsStand)), 1),
    Op::Ref(Kind::Arguments), Op::Alt(Test::Sees(Look::Opens(Delimiter::Parenthesis)), 1),
    Op::Ref(Kind::ParenthesizedArguments), Op::Nothing,
];

pub(crate) fn segment(style: Style) -> &'static [Op]
    ensures { gram_of result.now ≡ table (kind_of (kinds.Segment style)) }
{
    match style {
        Style::InModule => &SEGMENT_IN_MODULE,
        Style::InExpression => &SEGMENT_IN_EXPRESSION,
        Style::InType => &SEGMENT_IN_TYPE,
        Style::AtType => &SEGMENT_AT_TYPE,
    }
}

/// A qualified path is < Type (as Path)? > and then :: AnyName, once or more.
#[rattlefmt::skip]
static QUALIFIED_PATH_IN_MODULE: [Op; 15] = [
    Op::Seq(1), Op::Mark(Sign::Lt), Op::Seq(1), Op::Ref(Kind::AType(Plus::WithPlus)), Op::Seq(5),
    Op::Alt(Test::Sees(Look::Word(Words::Keyword(Keyword::As))), 3), Op::Seq(1),
    Op::Word(Words::Keyword(Keyword::As)), Op::Ref(Kind::Path(Style::InType)), Op::Nothing, Op::Seq(1),
    Op::Mark(Sign::Gt), Op::Seq(1), Op::Mark(Sign::PathSep), Op::Ref(Kind::Segments(Style::InModule)),
];

/// A qualified path is < Type (as Path)? > and then :: AnyName, once or more.
#[rattlefmt::skip]
static QUALIFIED_PATH_IN_EXPRESSION: [Op; 15] = [
    Op::Seq(1), Op::Mark(Sign::Lt), Op::Seq(1), Op::Ref(Kind::AType(Plus::WithPlus)), Op::Seq(5),
    Op::Alt(Test::Sees(Look::Word(Words::Keyword(Keyword::As))), 3), Op::Seq(1),
    Op::Word(Words::Keyword(Keyword::As)), Op::Ref(Kind::Path(Style::InType)), Op::Nothing, Op::Seq(1),
    Op::Mark(Sign::Gt), Op::Seq(1), Op::Mark(Sign::PathSep), Op::Ref(Kind::Segments(Style::InExpression)),
];

/// A qualified path is < Type (as Path)? > and then :: AnyName, once or more.
#[rattlefmt::skip]
static QUALIFIED_PATH_IN_TYPE: [Op; 15] = [
    Op::Seq(1), Op::Mark(Sign::Lt), Op::Seq(1), Op::Ref(Kind::AType(Plus::WithPlus)), Op::Seq(5),
    Op::Alt(Test::Sees(Look::Word(Words::Keyword(Keyword::As))), 3), Op::Seq(1),
    Op::Word(Words::Keyword(Keyword::As)), Op::Ref(Kind::Path(Style::InType)), Op::Nothing, Op::Seq(1),
    Op::Mark(Sign::Gt), Op::Seq(1), Op::Mark(Sign::PathSep), Op::Ref(Kind::Segments(Style::InType)),
];

/// A qualified path is < Type (as Path)? > and then :: AnyName, once or more.
#[rattlefmt::skip]
static QUALIFIED_PATH_AT_TYPE: [Op; 15] = [
    Op::Seq(1), Op::Mark(Sign::Lt), Op::Seq(1), Op::Ref(Kind::AType(Plus::WithPlus)), Op::Seq(5),
    Op::Alt(Test::Sees(Look::Word(Words::Keyword(Keyword::As))), 3), Op::Seq(1),
    Op::Word(Words::Keyword(Keyword::As)), Op::Ref(Kind::Path(Style::InType)), Op::Nothing, Op::Seq(1),
    Op::Mark(Sign::Gt), Op::Seq(1), Op::Mark(Sign::PathSep), Op::Ref(Kind::Segments(Style::AtType)),
];

pub(crate) fn qualified_path(style: Style) -> &'static [Op]
    ensures { gram_of result.now ≡ table (kind_of (kinds.QualifiedPath style)) }
{
    match style {
        Style::InModule => &QUALIFIED_PATH_IN_MODULE,
        Style::InExpression => &QUALIFIED_PATH_IN_EXPRESSION,
        Style::InType => &QUALIFIED_PATH_IN_TYPE,
        Style::AtType => &QUALIFIED_PATH_AT_TYPE,
    }
}

/// Where a path may be qualified, it is exactly where it begins with <.
static ANY_PATH_IN_MODULE: [Op; 3] = [
    Op::Alt(Test::Sees(Look::Mark(Sign::Lt)), 1),
    Op::Ref(Kind::QualifiedPath(Style::InModule)),
    Op::Ref(Kind::Path(Style::InModule)),
];

/// Where a path may be qualified, it is exactly where it begins with <.
static ANY_PATH_IN_EXPRESSION: [Op; 3] = [
    Op::Alt(Test::Sees(Look::Mark(Sign::Lt)), 1),
    Op::Ref(Kind::QualifiedPath(Style::InExpression)),
    Op::Ref(Kind::Path(Style::InExpression)),
];

/// Where a path may be qualified, it is exactly where it begins with <.
static ANY_PATH_IN_TYPE: [Op; 3] = [
    Op::Alt(Test::Sees(Look::Mark(Sign::Lt)), 1),
    Op::Ref(Kind::QualifiedPath(Style::InType)),
    Op::Ref(Kind::Path(Style::InType)),
];

/// Where a path may be qualified, it is exactly where it begins with <.
static ANY_PATH_AT_TYPE: [Op; 3] = [
    Op::Alt(Test::Sees(Look::Mark(Sign::Lt)), 1),
    Op::Ref(Kind::QualifiedPath(Style::AtType)),
    Op::Ref(Kind::Path(Style::AtType)),
];

pub(crate) fn any_path(style: Style) -> &'static [Op]
    ensures { gram_of result.now ≡ table (kind_of (kinds.AnyPath style)) }
{
    match style {
        Style::InModule => &ANY_PATH_IN_MODULE,
        Style::InExpression => &ANY_PATH_IN_EXPRESSION,
        Style::InType => &ANY_PATH_IN_TYPE,
        Style::AtType => &ANY_PATH_AT_TYPE,
    }
}

/// ::? < arguments >; the :: is kept as it was read.
#[rattlefmt::skip]
pub(crate) static ARGUMENTS: [Op; 11] = [
    Op::Seq(3), Op::Alt(Test::Sees(Look::Mark(Sign::PathSep)), 1), Op::Mark(Sign::PathSep), Op::Nothing, Op::Seq(1),
    Op::Mark(Sign::Lt), Op::Seq(3), Op::Called(Part::Arguments),
    Op::Many(Test::Sees(Look::Mark(Sign::Gt)), Separator::Comma), Op::Ref(Kind::AnArgument), Op::Mark(Sign::Gt),
];

/// An argument is a lifetime, a literal, a block, Ident = Type, or a type.
#[rattlefmt::skip]
pub(crate) static AN_ARGUMENT: [Op; 16] = [
    Op::Alt(Test::Sees(Look::Lifetime), 2), Op::Called(Part::Lifetime), Op::Lifetime,
    Op::Alt(Test::Sees(Look::Composite(Composite::ALiteral)), 3), Op::Alt(Test::Sees(Look::Quoted(Literals::Any)), 1),
    Op::Literal(Literals::Any), Op::Word(Words::Bool), Op::Alt(Test::Sees(Look::Opens(Delimiter::Brace)), 1),
    Op::Ref(Kind::Body), Op::Alt(Test::Sees(Look::Composite(Composite::IdentThenEq)), 5), Op::Seq(1),
    Op::Word(Words::Ident), Op::Seq(1), Op::Mark(Sign::Eq), Op::Ref(Kind::AType(Plus::WithPlus)),
    Op::Ref(Kind::AType(Plus::WithPlus)),
];

/// (types) (-> Type)?, the last type without plus.
#[rattlefmt::skip]
pub(crate) static PARENTHESIZED_ARGUMENTS: [Op; 9] = [
    Op::Seq(3), Op::Group(Delimiter::Parenthesis), Op::Many(Test::Sees(Look::End), Separator::Comma),
    Op::Ref(Kind::AType(Plus::WithPlus)), Op::Alt(Test::Sees(Look::Mark(Sign::RArrow)), 3), Op::Seq(1),
    Op::Mark(Sign::RArrow), Op::Ref(Kind::AType(Plus::WithoutPlus)), Op::Nothing,
];

/// A macro is a module's path, ! and a group of raw tokens.
#[rattlefmt::skip]
pub(crate) static A_MACRO: [Op; 5] = [
    Op::Seq(1), Op::Ref(Kind::Path(Style::InModule)), Op::Seq(1), Op::Mark(Sign::Not), Op::Ref(Kind::Delimited),
];

/// A group of raw tokens.
#[rattlefmt::skip]
pub(crate) static DELIMITED: [Op; 8] = [
    Op::Alt(Test::Sees(Look::Opens(Delimiter::Parenthesis)), 2), Op::Group(Delimiter::Parenthesis), Op::Raw,
    Op::Alt(Test::Sees(Look::Opens(Delimiter::Brace)), 2), Op::Group(Delimiter::Brace), Op::Raw,
    Op::Group(Delimiter::Bracket), Op::Raw,
];

/// A field's name, or its index.
#[rattlefmt::skip]
pub(crate) static MEMBER: [Op; 3] = [
    Op::Alt(Test::Sees(Look::Word(Words::Ident)), 1), Op::Word(Words::Ident), Op::Literal(Literals::Index),
];

/// A field's index: an unsuffixed integer below 2 ^ 32.
pub(crate) static INDEX: [Op; 1] = [Op::Literal(Literals::Index)];
