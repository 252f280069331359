//! Which forms of expressions begin at tokens, and which have their left operand before them.

// Written by tools/rows.py.

ghost use Rattle.reader_table.specs.Cases.{cases_of};
ghost use Rattle.reader_table.specs.Kinds.{position_of};
ghost use Rattle.std.specs.Prelude.{◌≡◌};
ghost use Rattle.syn_grammar.specs.Forms.{backs, fronts};

use crate::composite::Composite;
use crate::kind::{Kind, Position};
use crate::op::{Case, Look};
use crate::word::{Keyword, Sign, Words};
use proc_macro2::delimiter::Delimiter;

#[rattlefmt::skip]
static FRONTS_PLAIN: [Case; 31] = [
    Case { kind: Kind::ExprAttributed, look: Look::Mark(Sign::Pound) },
    Case { kind: Kind::ExprLit, look: Look::Composite(Composite::ALiteral) },
    Case { kind: Kind::ExprBlock, look: Look::Composite(Composite::LabelledBlock) },
    Case { kind: Kind::ExprLoop, look: Look::Composite(Composite::LabelledLoop) },
    Case { kind: Kind::ExprWhile, look: Look::Composite(Composite::LabelledWhile) },
    Case { kind: Kind::ExprTypedClosure, look: Look::Composite(Composite::TypedClosureStands) },
    Case { kind: Kind::ExprClosure, look: Look::Composite(Composite::ClosureStands) },
    Case { kind: Kind::ExprForLoop, look: Look::Composite(Composite::LabelledFor) },
    Case { kind: Kind::ExprParen, look: Look::Opens(Delimiter::Parenthesis) },
    Case { kind: Kind::ExprRepeat, look: Look::Composite(Composite::RepeatStands) },
    Case { kind: Kind::ExprArray, look: Look::Opens(Delimiter::Bracket) },
    Case { kind: Kind::ExprGroup, look: Look::Opens(Delimiter::None) },
    Case { kind: Kind::ExprInfer, look: Look::Word(Words::Keyword(Keyword::Underscore)) },
    Case { kind: Kind::ExprUnsafe, look: Look::Word(Words::Keyword(Keyword::Unsafe)) },
    Case { kind: Kind::ExprAsync, look: Look::Word(Words::Keyword(Keyword::Async)) },
    Case { kind: Kind::ExprConst, look: Look::Word(Words::Keyword(Keyword::Const)) },
    Case { kind: Kind::ExprTryBlock, look: Look::Word(Words::Keyword(Keyword::Try)) },
    Case { kind: Kind::ExprIf, look: Look::Word(Words::Keyword(Keyword::If)) },
    Case { kind: Kind::ExprMatch, look: Look::Word(Words::Keyword(Keyword::Match)) },
    Case { kind: Kind::ExprContinue, look: Look::Word(Words::Keyword(Keyword::Continue)) },
    Case { kind: Kind::ExprBreak, look: Look::Word(Words::Keyword(Keyword::Break)) },
    Case { kind: Kind::ExprReturn, look: Look::Word(Words::Keyword(Keyword::Return)) },
    Case { kind: Kind::ExprYield, look: Look::Word(Words::Keyword(Keyword::Yield)) },
    Case { kind: Kind::ExprLet, look: Look::Word(Words::Keyword(Keyword::Let)) },
    Case { kind: Kind::ExprRawAddr, look: Look::Composite(Composite::RawAddrStands) },
    Case { kind: Kind::ExprReference, look: Look::Mark(Sign::And) },
    Case { kind: Kind::ExprUnary, look: Look::Composite(Composite::UnaryStands) },
    Case { kind: Kind::ExprRangeClosed, look: Look::Mark(Sign::DotDotEq) },
    Case { kind: Kind::ExprRange, look: Look::Composite(Composite::RangeEndStands) },
    Case { kind: Kind::ExprMacro, look: Look::Composite(Composite::MacroCallStands) },
    Case { kind: Kind::ExprPath, look: Look::Composite(Composite::PathStands) },
];

#[rattlefmt::skip]
static FRONTS_IN_STATEMENT: [Case; 31] = [
    Case { kind: Kind::ExprAttributed, look: Look::Mark(Sign::Pound) },
    Case { kind: Kind::ExprLit, look: Look::Composite(Composite::ALiteral) },
    Case { kind: Kind::ExprBlock, look: Look::Composite(Composite::LabelledBlock) },
    Case { kind: Kind::ExprLoop, look: Look::Composite(Composite::LabelledLoop) },
    Case { kind: Kind::ExprWhile, look: Look::Composite(Composite::LabelledWhile) },
    Case { kind: Kind::ExprTypedClosure, look: Look::Composite(Composite::TypedClosureStands) },
    Case { kind: Kind::ExprClosure, look: Look::Composite(Composite::ClosureStands) },
    Case { kind: Kind::ExprForLoop, look: Look::Composite(Composite::LabelledFor) },
    Case { kind: Kind::ExprParen, look: Look::Opens(Delimiter::Parenthesis) },
    Case { kind: Kind::ExprRepeat, look: Look::Composite(Composite::RepeatStands) },
    Case { kind: Kind::ExprArray, look: Look::Opens(Delimiter::Bracket) },
    Case { kind: Kind::ExprGroup, look: Look::Opens(Delimiter::None) },
    Case { kind: Kind::ExprInfer, look: Look::Word(Words::Keyword(Keyword::Underscore)) },
    Case { kind: Kind::ExprUnsafe, look: Look::Word(Words::Keyword(Keyword::Unsafe)) },
    Case { kind: Kind::ExprAsync, look: Look::Word(Words::Keyword(Keyword::Async)) },
    Case { kind: Kind::ExprConst, look: Look::Word(Words::Keyword(Keyword::Const)) },
    Case { kind: Kind::ExprTryBlock, look: Look::Word(Words::Keyword(Keyword::Try)) },
    Case { kind: Kind::ExprIf, look: Look::Word(Words::Keyword(Keyword::If)) },
    Case { kind: Kind::ExprMatch, look: Look::Word(Words::Keyword(Keyword::Match)) },
    Case { kind: Kind::ExprContinue, look: Look::Word(Words::Keyword(Keyword::Continue)) },
    Case { kind: Kind::ExprBreak, look: Look::Word(Words::Keyword(Keyword::Break)) },
    Case { kind: Kind::ExprReturn, look: Look::Word(Words::Keyword(Keyword::Return)) },
    Case { kind: Kind::ExprYield, look: Look::Word(Words::Keyword(Keyword::Yield)) },
    Case { kind: Kind::ExprLet, look: Look::Nowhere },
    Case { kind: Kind::ExprRawAddr, look: Look::Composite(Composite::RawAddrStands) },
    Case { kind: Kind::ExprReference, look: Look::Mark(Sign::And) },
    Case { kind: Kind::ExprUnary, look: Look::Composite(Composite::UnaryStands) },
    Case { kind: Kind::ExprRangeClosed, look: Look::Mark(Sign::DotDotEq) },
    Case { kind: Kind::ExprRange, look: Look::Composite(Composite::RangeEndStands) },
    Case { kind: Kind::ExprMacro, look: Look::Composite(Composite::MacroCallStands) },
    Case { kind: Kind::ExprPath, look: Look::Composite(Composite::PathStands) },
];

#[rattlefmt::skip]
static BACKS_PLAIN: [Case; 22] = [
    Case { kind: Kind::ExprAssign, look: Look::Composite(Composite::AssignOpStands) },
    Case { kind: Kind::ExprCompare, look: Look::Composite(Composite::EqualityStands) },
    Case { kind: Kind::ExprAssign, look: Look::Composite(Composite::AssignStands) },
    Case { kind: Kind::ExprOr, look: Look::Mark(Sign::OrOr) },
    Case { kind: Kind::ExprAnd, look: Look::Mark(Sign::AndAnd) },
    Case { kind: Kind::ExprShift, look: Look::Composite(Composite::ShiftStands) },
    Case { kind: Kind::ExprCompare, look: Look::Composite(Composite::LtOrGt) },
    Case { kind: Kind::ExprBitOr, look: Look::Mark(Sign::Or) },
    Case { kind: Kind::ExprBitXor, look: Look::Mark(Sign::Caret) },
    Case { kind: Kind::ExprBitAnd, look: Look::Mark(Sign::And) },
    Case { kind: Kind::ExprSum, look: Look::Composite(Composite::PlusOrMinus) },
    Case { kind: Kind::ExprProduct, look: Look::Composite(Composite::ProductStands) },
    Case { kind: Kind::ExprRangeClosed, look: Look::Mark(Sign::DotDotEq) },
    Case { kind: Kind::ExprRange, look: Look::Composite(Composite::RangeEndStands) },
    Case { kind: Kind::ExprCast, look: Look::Word(Words::Keyword(Keyword::As)) },
    Case { kind: Kind::ExprStruct, look: Look::Opens(Delimiter::Brace) },
    Case { kind: Kind::ExprCall, look: Look::Opens(Delimiter::Parenthesis) },
    Case { kind: Kind::ExprIndex, look: Look::Opens(Delimiter::Bracket) },
    Case { kind: Kind::ExprTry, look: Look::Mark(Sign::Question) },
    Case { kind: Kind::ExprAwait, look: Look::Composite(Composite::AwaitStands) },
    Case { kind: Kind::ExprMethodCall, look: Look::Composite(Composite::MethodStands) },
    Case { kind: Kind::ExprField, look: Look::Composite(Composite::DotStands) },
];

#[rattlefmt::skip]
static BACKS_IN_CONDITION: [Case; 22] = [
    Case { kind: Kind::ExprAssign, look: Look::Composite(Composite::AssignOpStands) },
    Case { kind: Kind::ExprCompare, look: Look::Composite(Composite::EqualityStands) },
    Case { kind: Kind::ExprAssign, look: Look::Composite(Composite::AssignStands) },
    Case { kind: Kind::ExprOr, look: Look::Mark(Sign::OrOr) },
    Case { kind: Kind::ExprAnd, look: Look::Mark(Sign::AndAnd) },
    Case { kind: Kind::ExprShift, look: Look::Composite(Composite::ShiftStands) },
    Case { kind: Kind::ExprCompare, look: Look::Composite(Composite::LtOrGt) },
    Case { kind: Kind::ExprBitOr, look: Look::Mark(Sign::Or) },
    Case { kind: Kind::ExprBitXor, look: Look::Mark(Sign::Caret) },
    Case { kind: Kind::ExprBitAnd, look: Look::Mark(Sign::And) },
    Case { kind: Kind::ExprSum, look: Look::Composite(Composite::PlusOrMinus) },
    Case { kind: Kind::ExprProduct, look: Look::Composite(Composite::ProductStands) },
    Case { kind: Kind::ExprRangeClosed, look: Look::Mark(Sign::DotDotEq) },
    Case { kind: Kind::ExprRange, look: Look::Composite(Composite::RangeEndStands) },
    Case { kind: Kind::ExprCast, look: Look::Word(Words::Keyword(Keyword::As)) },
    Case { kind: Kind::ExprStruct, look: Look::Nowhere },
    Case { kind: Kind::ExprCall, look: Look::Opens(Delimiter::Parenthesis) },
    Case { kind: Kind::ExprIndex, look: Look::Opens(Delimiter::Bracket) },
    Case { kind: Kind::ExprTry, look: Look::Mark(Sign::Question) },
    Case { kind: Kind::ExprAwait, look: Look::Composite(Composite::AwaitStands) },
    Case { kind: Kind::ExprMethodCall, look: Look::Composite(Composite::MethodStands) },
    Case { kind: Kind::ExprField, look: Look::Composite(Composite::DotStands) },
];

/// The forms that begin in a position, in the order in which they are looked for.
pub fn fronts(position: Position) -> &'static [Case]
    ensures { cases_of result.now ≡ fronts (position_of position) }
{
    match position {
        Position::Plain => &FRONTS_PLAIN,
        Position::InCondition => &FRONTS_PLAIN,
        Position::InArm => &FRONTS_PLAIN,
        Position::InStatement => &FRONTS_IN_STATEMENT,
    }
}

/// The forms whose left operand stands before them in a position, in their order.
pub fn backs(position: Position) -> &'static [Case]
    ensures { cases_of result.now ≡ backs (position_of position) }
{
    match position {
        Position::Plain => &BACKS_PLAIN,
        Position::InCondition => &BACKS_IN_CONDITION,
        Position::InArm => &BACKS_PLAIN,
        Position::InStatement => &BACKS_PLAIN,
    }
}
