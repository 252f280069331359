//! The entries of expressions.

// Written by tools/rows.py from the entries of the written grammar.

ghost use Rattle.reader_table.specs.Kinds.{kind_of};
ghost use Rattle.reader_table.specs.Ops.{gram_of};
ghost use Rattle.reader_table.specs.declared.kind.Kind.TheVariants as kinds;
ghost use Rattle.std.specs.Prelude.{◌≡◌};
ghost use Rattle.syn_grammar.specs.Table.{table};

use crate::composite::Composite;
use crate::kind::{Kind, Plus, Position, Style};
use crate::op::{Look, Op, Separator, Test, Verdicts};
use crate::part::Part;
use crate::word::{Keyword, Literals, Sign, Words};
use proc_macro2::delimiter::Delimiter;

/// A whole expression, in its place
static EXPRESSION_PLAIN: [Op; 1] = [Op::Operand(Position::Plain, 0)];

/// A whole expression, in its place
static EXPRESSION_IN_CONDITION: [Op; 1] = [Op::Operand(Position::InCondition, 0)];

/// A whole expression, in its place
static EXPRESSION_IN_ARM: [Op; 1] = [Op::Operand(Position::InArm, 0)];

/// A whole expression, in its place
static EXPRESSION_IN_STATEMENT: [Op; 1] = [Op::Operand(Position::InStatement, 0)];

pub(crate) fn expression(position: Position) -> &'static [Op]
    ensures { gram_of result.now ≡ table (kind_of (kinds.Expression position)) }
{
    match position {
        Position::Plain => &EXPRESSION_PLAIN,
        Position::InCondition => &EXPRESSION_IN_CONDITION,
        Position::InArm => &EXPRESSION_IN_ARM,
        Position::InStatement => &EXPRESSION_IN_STATEMENT,
    }
}

/// A literal, true or false.
#[rattlefmt::skip]
pub(crate) static EXPR_LIT: [Op; 3] = [
    Op::Alt(Test::Sees(Look::Quoted(Literals::Any)), 1), Op::Literal(Literals::Any), Op::Word(Words::Bool),
];

/// A path, perhaps a qualified one.
pub(crate) static EXPR_PATH: [Op; 1] = [Op::Ref(Kind::AnyPath(Style::InExpression))];

/// A macro.
pub(crate) static EXPR_MACRO: [Op; 1] = [Op::Ref(Kind::AMacro)];

/// (expressions); it is a paren where it is one expression without comma, and else a tuple
pub(crate) static EXPR_PAREN: [Op; 3] = [
    Op::Group(Delimiter::Parenthesis),
    Op::Many(Test::Sees(Look::End), Separator::Comma),
    Op::Ref(Kind::Expression(Position::Plain)),
];

/// [expressions]
pub(crate) static EXPR_ARRAY: [Op; 3] = [
    Op::Group(Delimiter::Bracket),
    Op::Many(Test::Sees(Look::End), Separator::Comma),
    Op::Ref(Kind::Expression(Position::Plain)),
];

/// [Expr ; Expr]
#[rattlefmt::skip]
pub(crate) static EXPR_REPEAT: [Op; 6] = [
    Op::Group(Delimiter::Bracket), Op::Seq(1), Op::Ref(Kind::Expression(Position::Plain)), Op::Seq(1),
    Op::Mark(Sign::Semi), Op::Ref(Kind::Expression(Position::Plain)),
];

/// An invisible group
#[rattlefmt::skip]
pub(crate) static EXPR_GROUP: [Op; 2] = [Op::Group(Delimiter::None), Op::Ref(Kind::Expression(Position::Plain))];

/// _
pub(crate) static EXPR_INFER: [Op; 1] = [Op::Word(Words::Keyword(Keyword::Underscore))];

/// Label? body
#[rattlefmt::skip]
pub(crate) static EXPR_BLOCK: [Op; 6] = [
    Op::Seq(4), Op::Alt(Test::Sees(Look::Lifetime), 2), Op::Called(Part::Label), Op::Ref(Kind::Label), Op::Nothing,
    Op::Ref(Kind::Body),
];

/// unsafe body
#[rattlefmt::skip]
pub(crate) static EXPR_UNSAFE: [Op; 3] = [Op::Seq(1), Op::Word(Words::Keyword(Keyword::Unsafe)), Op::Ref(Kind::Body)];

/// async move? block
#[rattlefmt::skip]
pub(crate) static EXPR_ASYNC: [Op; 7] = [
    Op::Seq(1), Op::Word(Words::Keyword(Keyword::Async)), Op::Seq(3),
    Op::Alt(Test::Sees(Look::Word(Words::Keyword(Keyword::Move))), 1), Op::Word(Words::Keyword(Keyword::Move)),
    Op::Nothing, Op::Ref(Kind::Block),
];

/// const body
#[rattlefmt::skip]
pub(crate) static EXPR_CONST: [Op; 3] = [Op::Seq(1), Op::Word(Words::Keyword(Keyword::Const)), Op::Ref(Kind::Body)];

/// try block
#[rattlefmt::skip]
pub(crate) static EXPR_TRY_BLOCK: [Op; 3] = [
    Op::Seq(1), Op::Word(Words::Keyword(Keyword::Try)), Op::Ref(Kind::Block),
];

/// if condition block (else (if .. or block))?
#[rattlefmt::skip]
pub(crate) static EXPR_IF: [Op; 14] = [
    Op::Seq(1), Op::Word(Words::Keyword(Keyword::If)), Op::Seq(2), Op::Called(Part::Condition),
    Op::Ref(Kind::Expression(Position::InCondition)), Op::Seq(1), Op::Ref(Kind::Block),
    Op::Alt(Test::Sees(Look::Word(Words::Keyword(Keyword::Else))), 5), Op::Seq(1),
    Op::Word(Words::Keyword(Keyword::Else)), Op::Alt(Test::Sees(Look::Word(Words::Keyword(Keyword::If))), 1),
    Op::Ref(Kind::ExprIf), Op::Ref(Kind::Block), Op::Nothing,
];

/// match condition { inner attributes, arms }
#[rattlefmt::skip]
pub(crate) static EXPR_MATCH: [Op; 9] = [
    Op::Seq(1), Op::Word(Words::Keyword(Keyword::Match)), Op::Seq(2), Op::Called(Part::Condition),
    Op::Ref(Kind::Expression(Position::InCondition)), Op::Group(Delimiter::Brace), Op::Seq(1),
    Op::Ref(Kind::InnerAttributes), Op::Ref(Kind::Arms),
];

/// Label? loop body
#[rattlefmt::skip]
pub(crate) static EXPR_LOOP: [Op; 8] = [
    Op::Seq(4), Op::Alt(Test::Sees(Look::Lifetime), 2), Op::Called(Part::Label), Op::Ref(Kind::Label), Op::Nothing,
    Op::Seq(1), Op::Word(Words::Keyword(Keyword::Loop)), Op::Ref(Kind::Body),
];

/// Label? while condition body
#[rattlefmt::skip]
pub(crate) static EXPR_WHILE: [Op; 11] = [
    Op::Seq(4), Op::Alt(Test::Sees(Look::Lifetime), 2), Op::Called(Part::Label), Op::Ref(Kind::Label), Op::Nothing,
    Op::Seq(1), Op::Word(Words::Keyword(Keyword::While)), Op::Seq(2), Op::Called(Part::Condition),
    Op::Ref(Kind::Expression(Position::InCondition)), Op::Ref(Kind::Body),
];

/// Label? for Pat in condition body
#[rattlefmt::skip]
pub(crate) static EXPR_FOR_LOOP: [Op; 15] = [
    Op::Seq(4), Op::Alt(Test::Sees(Look::Lifetime), 2), Op::Called(Part::Label), Op::Ref(Kind::Label), Op::Nothing,
    Op::Seq(1), Op::Word(Words::Keyword(Keyword::For)), Op::Seq(1), Op::Ref(Kind::Pattern), Op::Seq(1),
    Op::Word(Words::Keyword(Keyword::In)), Op::Seq(2), Op::Called(Part::Condition),
    Op::Ref(Kind::Expression(Position::InCondition)), Op::Ref(Kind::Body),
];

/// continue Lifetime?
#[rattlefmt::skip]
pub(crate) static EXPR_CONTINUE: [Op; 5] = [
    Op::Seq(1), Op::Word(Words::Keyword(Keyword::Continue)), Op::Alt(Test::Sees(Look::Lifetime), 1), Op::Lifetime,
    Op::Nothing,
];

/// With a type a closure's body is a block
#[rattlefmt::skip]
pub(crate) static EXPR_TYPED_CLOSURE: [Op; 30] = [
    Op::Seq(26), Op::Seq(3), Op::Alt(Test::Sees(Look::Word(Words::Keyword(Keyword::For))), 1),
    Op::Ref(Kind::BoundLifetimes), Op::Nothing, Op::Seq(3),
    Op::Alt(Test::Sees(Look::Word(Words::Keyword(Keyword::Const))), 1), Op::Word(Words::Keyword(Keyword::Const)),
    Op::Nothing, Op::Seq(3), Op::Alt(Test::Sees(Look::Word(Words::Keyword(Keyword::Static))), 1),
    Op::Word(Words::Keyword(Keyword::Static)), Op::Nothing, Op::Seq(3),
    Op::Alt(Test::Sees(Look::Word(Words::Keyword(Keyword::Async))), 1), Op::Word(Words::Keyword(Keyword::Async)),
    Op::Nothing, Op::Seq(3), Op::Alt(Test::Sees(Look::Word(Words::Keyword(Keyword::Move))), 1),
    Op::Word(Words::Keyword(Keyword::Move)), Op::Nothing, Op::Seq(1), Op::Mark(Sign::Or), Op::Seq(2),
    Op::Many(Test::Sees(Look::Mark(Sign::Or)), Separator::Comma), Op::Ref(Kind::ClosureParam), Op::Mark(Sign::Or),
    Op::Seq(1), Op::Ref(Kind::ReturnType(Plus::WithPlus)), Op::Ref(Kind::Block),
];

/// What stands behind the path: the fields.
pub(crate) static EXPR_STRUCT: [Op; 1] = [Op::Ref(Kind::FieldValues)];

/// (expressions)
pub(crate) static EXPR_CALL: [Op; 3] = [
    Op::Group(Delimiter::Parenthesis),
    Op::Many(Test::Sees(Look::End), Separator::Comma),
    Op::Ref(Kind::Expression(Position::Plain)),
];

/// . Ident (:: <..>)? (expressions)
#[rattlefmt::skip]
pub(crate) static EXPR_METHOD_CALL: [Op; 16] = [
    Op::Seq(5), Op::Seq(1), Op::Mark(Sign::Dot), Op::Called(Part::Indices),
    Op::Star(Test::Sees(Look::Quoted(Literals::EndsInDot))), Op::Literal(Literals::Indices), Op::Seq(2),
    Op::Called(Part::Name), Op::Word(Words::Ident), Op::Seq(3), Op::Alt(Test::Sees(Look::Mark(Sign::PathSep)), 1),
    Op::Ref(Kind::Arguments), Op::Nothing, Op::Group(Delimiter::Parenthesis),
    Op::Many(Test::Sees(Look::End), Separator::Comma), Op::Ref(Kind::Expression(Position::Plain)),
];

/// . name, or indices with dots between them
#[rattlefmt::skip]
pub(crate) static EXPR_FIELD: [Op; 11] = [
    Op::Seq(5), Op::Seq(1), Op::Mark(Sign::Dot), Op::Called(Part::Indices),
    Op::Star(Test::Sees(Look::Quoted(Literals::EndsInDot))), Op::Literal(Literals::Indices),
    Op::Alt(Test::Sees(Look::Word(Words::Ident)), 2), Op::Called(Part::Name), Op::Word(Words::Ident),
    Op::Called(Part::Value), Op::Literal(Literals::Indices),
];

/// . await
#[rattlefmt::skip]
pub(crate) static EXPR_AWAIT: [Op; 7] = [
    Op::Seq(5), Op::Seq(1), Op::Mark(Sign::Dot), Op::Called(Part::Indices),
    Op::Star(Test::Sees(Look::Quoted(Literals::EndsInDot))), Op::Literal(Literals::Indices),
    Op::Word(Words::Keyword(Keyword::Await)),
];

/// [Expr]
#[rattlefmt::skip]
pub(crate) static EXPR_INDEX: [Op; 2] = [Op::Group(Delimiter::Bracket), Op::Ref(Kind::Expression(Position::Plain))];

/// ?
pub(crate) static EXPR_TRY: [Op; 1] = [Op::Mark(Sign::Question)];

/// as Type, the type without plus, behind which no postfix form stands.
#[rattlefmt::skip]
pub(crate) static EXPR_CAST: [Op; 8] = [
    Op::Seq(1), Op::Word(Words::Keyword(Keyword::As)), Op::Seq(2), Op::Called(Part::Type),
    Op::Ref(Kind::AType(Plus::WithoutPlus)), Op::Alt(Test::Sees(Look::Composite(Composite::PostfixStands)), 1),
    Op::Never, Op::Nothing,
];

/// Attributes belong to the whole prefix or postfix form that begins there
#[rattlefmt::skip]
pub(crate) static EXPR_ATTRIBUTED: [Op; 3] = [
    Op::Seq(1), Op::Ref(Kind::OuterAttribute), Op::Ref(Kind::OuterAttributes),
];

/// *, ! or -
#[rattlefmt::skip]
pub(crate) static EXPR_UNARY: [Op; 7] = [
    Op::Alt(Test::Sees(Look::Mark(Sign::Star)), 1), Op::Mark(Sign::Star),
    Op::Alt(Test::Sees(Look::Mark(Sign::Not)), 1), Op::Mark(Sign::Not),
    Op::Alt(Test::Sees(Look::Mark(Sign::Minus)), 1), Op::Mark(Sign::Minus), Op::Never,
];

/// & raw const, or & raw mut
#[rattlefmt::skip]
pub(crate) static EXPR_RAW_ADDR: [Op; 5] = [
    Op::Seq(1), Op::Mark(Sign::And), Op::Seq(1), Op::Word(Words::Keyword(Keyword::Raw)), Op::Word(Words::ConstOrMut),
];

/// & mut?
#[rattlefmt::skip]
pub(crate) static EXPR_REFERENCE: [Op; 5] = [
    Op::Seq(1), Op::Mark(Sign::And), Op::Alt(Test::Sees(Look::Word(Words::Keyword(Keyword::Mut))), 1),
    Op::Word(Words::Keyword(Keyword::Mut)), Op::Nothing,
];

/// let Pat =
#[rattlefmt::skip]
pub(crate) static EXPR_LET: [Op; 5] = [
    Op::Seq(1), Op::Word(Words::Keyword(Keyword::Let)), Op::Seq(1), Op::Ref(Kind::Pattern), Op::Mark(Sign::Eq),
];

/// break Lifetime?; a : behind that is refused
#[rattlefmt::skip]
pub(crate) static EXPR_BREAK: [Op; 10] = [
    Op::Seq(1), Op::Word(Words::Keyword(Keyword::Break)), Op::Alt(Test::Sees(Look::Lifetime), 6), Op::Seq(2),
    Op::Called(Part::Label), Op::Lifetime, Op::Alt(Test::Sees(Look::Mark(Sign::Colon)), 1), Op::Never, Op::Nothing,
    Op::Nothing,
];

/// return
pub(crate) static EXPR_RETURN: [Op; 1] = [Op::Word(Words::Keyword(Keyword::Return))];

/// yield
pub(crate) static EXPR_YIELD: [Op; 1] = [Op::Word(Words::Keyword(Keyword::Yield))];

/// (for <..>)? const? static? async? move? | parameters |
#[rattlefmt::skip]
pub(crate) static EXPR_CLOSURE: [Op; 26] = [
    Op::Seq(3), Op::Alt(Test::Sees(Look::Word(Words::Keyword(Keyword::For))), 1), Op::Ref(Kind::BoundLifetimes),
    Op::Nothing, Op::Seq(3), Op::Alt(Test::Sees(Look::Word(Words::Keyword(Keyword::Const))), 1),
    Op::Word(Words::Keyword(Keyword::Const)), Op::Nothing, Op::Seq(3),
    Op::Alt(Test::Sees(Look::Word(Words::Keyword(Keyword::Static))), 1), Op::Word(Words::Keyword(Keyword::Static)),
    Op::Nothing, Op::Seq(3), Op::Alt(Test::Sees(Look::Word(Words::Keyword(Keyword::Async))), 1),
    Op::Word(Words::Keyword(Keyword::Async)), Op::Nothing, Op::Seq(3),
    Op::Alt(Test::Sees(Look::Word(Words::Keyword(Keyword::Move))), 1), Op::Word(Words::Keyword(Keyword::Move)),
    Op::Nothing, Op::Seq(1), Op::Mark(Sign::Or), Op::Seq(2),
    Op::Many(Test::Sees(Look::Mark(Sign::Or)), Separator::Comma), Op::Ref(Kind::ClosureParam), Op::Mark(Sign::Or),
];

/// ..
pub(crate) static EXPR_RANGE: [Op; 1] = [Op::Mark(Sign::DotDot)];

/// ..=
pub(crate) static EXPR_RANGE_CLOSED: [Op; 1] = [Op::Mark(Sign::DotDotEq)];

/// =, or an operator and = in one.
#[rattlefmt::skip]
pub(crate) static EXPR_ASSIGN: [Op; 23] = [
    Op::Alt(Test::Sees(Look::Mark(Sign::Eq)), 1), Op::Mark(Sign::Eq),
    Op::Alt(Test::Sees(Look::Mark(Sign::PlusEq)), 1), Op::Mark(Sign::PlusEq),
    Op::Alt(Test::Sees(Look::Mark(Sign::MinusEq)), 1), Op::Mark(Sign::MinusEq),
    Op::Alt(Test::Sees(Look::Mark(Sign::StarEq)), 1), Op::Mark(Sign::StarEq),
    Op::Alt(Test::Sees(Look::Mark(Sign::SlashEq)), 1), Op::Mark(Sign::SlashEq),
    Op::Alt(Test::Sees(Look::Mark(Sign::PercentEq)), 1), Op::Mark(Sign::PercentEq),
    Op::Alt(Test::Sees(Look::Mark(Sign::CaretEq)), 1), Op::Mark(Sign::CaretEq),
    Op::Alt(Test::Sees(Look::Mark(Sign::AndEq)), 1), Op::Mark(Sign::AndEq),
    Op::Alt(Test::Sees(Look::Mark(Sign::OrEq)), 1), Op::Mark(Sign::OrEq),
    Op::Alt(Test::Sees(Look::Mark(Sign::ShlEq)), 1), Op::Mark(Sign::ShlEq),
    Op::Alt(Test::Sees(Look::Mark(Sign::ShrEq)), 1), Op::Mark(Sign::ShrEq), Op::Never,
];

/// ||
pub(crate) static EXPR_OR: [Op; 1] = [Op::Mark(Sign::OrOr)];

/// &&
pub(crate) static EXPR_AND: [Op; 1] = [Op::Mark(Sign::AndAnd)];

/// The longer before the shorter
#[rattlefmt::skip]
pub(crate) static EXPR_COMPARE: [Op; 13] = [
    Op::Alt(Test::Sees(Look::Mark(Sign::EqEq)), 1), Op::Mark(Sign::EqEq),
    Op::Alt(Test::Sees(Look::Mark(Sign::Le)), 1), Op::Mark(Sign::Le), Op::Alt(Test::Sees(Look::Mark(Sign::Ne)), 1),
    Op::Mark(Sign::Ne), Op::Alt(Test::Sees(Look::Mark(Sign::Ge)), 1), Op::Mark(Sign::Ge),
    Op::Alt(Test::Sees(Look::Mark(Sign::Lt)), 1), Op::Mark(Sign::Lt), Op::Alt(Test::Sees(Look::Mark(Sign::Gt)), 1),
    Op::Mark(Sign::Gt), Op::Never,
];

/// |
pub(crate) static EXPR_BIT_OR: [Op; 1] = [Op::Mark(Sign::Or)];

/// ^
pub(crate) static EXPR_BIT_XOR: [Op; 1] = [Op::Mark(Sign::Caret)];

/// &
pub(crate) static EXPR_BIT_AND: [Op; 1] = [Op::Mark(Sign::And)];

/// << or >>
#[rattlefmt::skip]
pub(crate) static EXPR_SHIFT: [Op; 5] = [
    Op::Alt(Test::Sees(Look::Mark(Sign::Shl)), 1), Op::Mark(Sign::Shl), Op::Alt(Test::Sees(Look::Mark(Sign::Shr)), 1),
    Op::Mark(Sign::Shr), Op::Never,
];

/// + or -
#[rattlefmt::skip]
pub(crate) static EXPR_SUM: [Op; 5] = [
    Op::Alt(Test::Sees(Look::Mark(Sign::Plus)), 1), Op::Mark(Sign::Plus),
    Op::Alt(Test::Sees(Look::Mark(Sign::Minus)), 1), Op::Mark(Sign::Minus), Op::Never,
];

/// *, / or %
#[rattlefmt::skip]
pub(crate) static EXPR_PRODUCT: [Op; 7] = [
    Op::Alt(Test::Sees(Look::Mark(Sign::Star)), 1), Op::Mark(Sign::Star),
    Op::Alt(Test::Sees(Look::Mark(Sign::Slash)), 1), Op::Mark(Sign::Slash),
    Op::Alt(Test::Sees(Look::Mark(Sign::Percent)), 1), Op::Mark(Sign::Percent), Op::Never,
];

/// { fields }; a base is the last, without a comma behind it.
#[rattlefmt::skip]
pub(crate) static FIELD_VALUES: [Op; 4] = [
    Op::Judged(Verdicts::FieldValues), Op::Group(Delimiter::Brace), Op::Many(Test::Sees(Look::End), Separator::Comma),
    Op::Ref(Kind::AFieldValue),
];

/// .. Expr?, or a field
#[rattlefmt::skip]
pub(crate) static A_FIELD_VALUE: [Op; 8] = [
    Op::Alt(Test::Sees(Look::Mark(Sign::DotDot)), 6), Op::Called(Part::Base), Op::Seq(1), Op::Mark(Sign::DotDot),
    Op::Alt(Test::Sees(Look::End), 1), Op::Nothing, Op::Ref(Kind::Expression(Position::Plain)),
    Op::Ref(Kind::FieldValue),
];

/// Attributes, and then an Ident alone, or Member : Expr
#[rattlefmt::skip]
pub(crate) static FIELD_VALUE: [Op; 10] = [
    Op::Seq(1), Op::Ref(Kind::OuterAttributes), Op::Alt(Test::Sees(Look::Composite(Composite::IdentAlone)), 1),
    Op::Word(Words::Ident), Op::Seq(1), Op::Ref(Kind::Member), Op::Seq(1), Op::Mark(Sign::Colon),
    Op::Called(Part::Value), Op::Ref(Kind::Expression(Position::Plain)),
];

/// Arms, to the end.
pub(crate) static ARMS: [Op; 2] = [Op::Star(Test::Lacks(Look::End)), Op::Ref(Kind::Arm)];

/// Attributes, Pat (if Expr)? => Expr ,?
#[rattlefmt::skip]
pub(crate) static ARM: [Op; 22] = [
    Op::Judged(Verdicts::Arm), Op::Seq(1), Op::Ref(Kind::OuterAttributes), Op::Seq(1), Op::Ref(Kind::Pattern),
    Op::Seq(5), Op::Alt(Test::Sees(Look::Word(Words::Keyword(Keyword::If))), 3), Op::Seq(1),
    Op::Word(Words::Keyword(Keyword::If)), Op::Ref(Kind::Expression(Position::Plain)), Op::Nothing, Op::Seq(1),
    Op::Mark(Sign::FatArrow), Op::Seq(2), Op::Called(Part::Body), Op::Ref(Kind::Expression(Position::InArm)),
    Op::Called(Part::Comma), Op::Alt(Test::Sees(Look::End), 1), Op::Nothing,
    Op::Alt(Test::Sees(Look::Mark(Sign::Comma)), 1), Op::Mark(Sign::Comma), Op::Nothing,
];

/// Attributes, one alternative, (: Type)?
#[rattlefmt::skip]
pub(crate) static CLOSURE_PARAM: [Op; 9] = [
    Op::Seq(1), Op::Ref(Kind::OuterAttributes), Op::Seq(1), Op::Ref(Kind::OnePattern),
    Op::Alt(Test::Sees(Look::Mark(Sign::Colon)), 3), Op::Seq(1), Op::Mark(Sign::Colon),
    Op::Ref(Kind::AType(Plus::WithPlus)), Op::Nothing,
];

/// Lifetime :
pub(crate) static LABEL: [Op; 3] = [Op::Seq(1), Op::Lifetime, Op::Mark(Sign::Colon)];
