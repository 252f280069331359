//! The entries of statements and files.

// Written by tools/rows.py from the entries of the written grammar.

use crate::composite::Composite;
use crate::kind::{Kind, Plus, Position};
use crate::op::{Look, Op, Test, Verdicts};
use crate::part::Part;
use crate::word::{Keyword, Sign, Words};
use proc_macro2::delimiter::Delimiter;

/// { statements }
pub(crate) static BLOCK: [Op; 2] = [Op::Group(Delimiter::Brace), Op::Ref(Kind::Statements)];

/// Lone semicolons, and statements; one that needs a ; and has none is the last.
#[rattlefmt::skip]
pub(crate) static STATEMENTS: [Op; 5] = [
    Op::Judged(Verdicts::Statements), Op::Star(Test::Lacks(Look::End)),
    Op::Alt(Test::Sees(Look::Mark(Sign::Semi)), 1), Op::Mark(Sign::Semi), Op::Ref(Kind::AStatement),
];

/// Attributes, and then an item, a macro with braces and perhaps ;, a let, or an expression and perhaps ; .
#[rattlefmt::skip]
pub(crate) static A_STATEMENT: [Op; 27] = [
    Op::Alt(Test::Sees(Look::Composite(Composite::MacroItemBehindAttributes)), 1), Op::Ref(Kind::AnItem),
    Op::Alt(Test::Sees(Look::Composite(Composite::MacroStatementBehindAttributes)), 8), Op::Seq(1),
    Op::Ref(Kind::OuterAttributes), Op::Seq(1), Op::Ref(Kind::AMacro), Op::Alt(Test::Sees(Look::Mark(Sign::Semi)), 2),
    Op::Called(Part::Semicolon), Op::Mark(Sign::Semi), Op::Nothing,
    Op::Alt(Test::Sees(Look::Composite(Composite::LetBehindAttributes)), 3), Op::Seq(1),
    Op::Ref(Kind::OuterAttributes), Op::Ref(Kind::ALet),
    Op::Alt(Test::Sees(Look::Composite(Composite::ItemBehindAttributes)), 1), Op::Ref(Kind::AnItem), Op::Seq(2),
    Op::Called(Part::Attributes), Op::Ref(Kind::OuterAttributes), Op::Seq(2), Op::Called(Part::Expression),
    Op::Ref(Kind::Expression(Position::InStatement)), Op::Alt(Test::Sees(Look::Mark(Sign::Semi)), 2),
    Op::Called(Part::Semicolon), Op::Mark(Sign::Semi), Op::Nothing,
];

/// One statement by itself: it has the ; that it needs.
#[rattlefmt::skip]
pub(crate) static ONE_STATEMENT: [Op; 2] = [Op::Judged(Verdicts::OneStatement), Op::Ref(Kind::AStatement)];

/// let alternative (: Type)? (= Expr (else block)?)? ;
#[rattlefmt::skip]
pub(crate) static A_LET: [Op; 27] = [
    Op::Judged(Verdicts::Let), Op::Seq(1), Op::Word(Words::Keyword(Keyword::Let)), Op::Seq(1),
    Op::Ref(Kind::OnePattern), Op::Seq(6), Op::Alt(Test::Sees(Look::Mark(Sign::Colon)), 4), Op::Seq(1),
    Op::Mark(Sign::Colon), Op::Called(Part::Type), Op::Ref(Kind::AType(Plus::WithPlus)), Op::Nothing, Op::Seq(13),
    Op::Alt(Test::Sees(Look::Mark(Sign::Eq)), 11), Op::Seq(1), Op::Mark(Sign::Eq), Op::Seq(2),
    Op::Called(Part::Value), Op::Ref(Kind::Expression(Position::Plain)),
    Op::Alt(Test::Sees(Look::Word(Words::Keyword(Keyword::Else))), 4), Op::Called(Part::Else), Op::Seq(1),
    Op::Word(Words::Keyword(Keyword::Else)), Op::Ref(Kind::Block), Op::Nothing, Op::Nothing, Op::Mark(Sign::Semi),
];

/// Inner attributes, and then items to the end.
#[rattlefmt::skip]
pub(crate) static A_FILE: [Op; 3] = [Op::Seq(1), Op::Ref(Kind::InnerAttributes), Op::Ref(Kind::Items)];
