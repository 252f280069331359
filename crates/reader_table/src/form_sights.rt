//! What looks of several steps see, of how expressions bind.

// Written by tools/rows.py.

use crate::kind::Plus;
use crate::op::Sight;
use crate::word::{Keyword, Literals, Sign, Words};
use proc_macro2::delimiter::Delimiter;

/// A block, perhaps with a label.
#[rattlefmt::skip]
pub(crate) static LABELLED_BLOCK: [Sight; 6] = [
    Sight::Then(4), Sight::Maybe, Sight::Then(1), Sight::Lifetime, Sight::Mark(Sign::Colon),
    Sight::Opens(Delimiter::Brace),
];

/// `loop`, perhaps with a label.
#[rattlefmt::skip]
pub(crate) static LABELLED_LOOP: [Sight; 6] = [
    Sight::Then(4), Sight::Maybe, Sight::Then(1), Sight::Lifetime, Sight::Mark(Sign::Colon),
    Sight::Word(Words::Keyword(Keyword::Loop)),
];

/// `while`, perhaps with a label.
#[rattlefmt::skip]
pub(crate) static LABELLED_WHILE: [Sight; 6] = [
    Sight::Then(4), Sight::Maybe, Sight::Then(1), Sight::Lifetime, Sight::Mark(Sign::Colon),
    Sight::Word(Words::Keyword(Keyword::While)),
];

/// `for`, perhaps with a label.
#[rattlefmt::skip]
pub(crate) static LABELLED_FOR: [Sight; 6] = [
    Sight::Then(4), Sight::Maybe, Sight::Then(1), Sight::Lifetime, Sight::Mark(Sign::Colon),
    Sight::Word(Words::Keyword(Keyword::For)),
];

/// A closure with `->` behind its parameters.
#[rattlefmt::skip]
pub(crate) static TYPED_CLOSURE_STANDS: [Sight; 37] = [
    Sight::Then(31), Sight::No, Sight::No, Sight::Or(1), Sight::Mark(Sign::Or), Sight::Or(1),
    Sight::Word(Words::Keyword(Keyword::Static)), Sight::Or(1), Sight::Word(Words::Keyword(Keyword::Move)),
    Sight::Or(4), Sight::Then(1), Sight::Word(Words::Keyword(Keyword::Const)), Sight::No,
    Sight::Opens(Delimiter::Brace), Sight::Or(10), Sight::Then(8), Sight::No, Sight::Then(1),
    Sight::Word(Words::Keyword(Keyword::Async)), Sight::Or(1), Sight::Opens(Delimiter::Brace), Sight::Then(1),
    Sight::Word(Words::Keyword(Keyword::Move)), Sight::Opens(Delimiter::Brace),
    Sight::Word(Words::Keyword(Keyword::Async)), Sight::Then(1), Sight::Word(Words::Keyword(Keyword::For)),
    Sight::Then(1), Sight::Mark(Sign::Lt), Sight::Or(1), Sight::Lifetime, Sight::Mark(Sign::Gt), Sight::Then(1),
    Sight::PastFirst(124), Sight::Then(1), Sight::PastFirst(124), Sight::Mark(Sign::RArrow),
];

/// A closure.
#[rattlefmt::skip]
pub(crate) static CLOSURE_STANDS: [Sight; 29] = [
    Sight::Or(1), Sight::Mark(Sign::Or), Sight::Or(1), Sight::Word(Words::Keyword(Keyword::Static)), Sight::Or(1),
    Sight::Word(Words::Keyword(Keyword::Move)), Sight::Or(4), Sight::Then(1),
    Sight::Word(Words::Keyword(Keyword::Const)), Sight::No, Sight::Opens(Delimiter::Brace), Sight::Or(10),
    Sight::Then(8), Sight::No, Sight::Then(1), Sight::Word(Words::Keyword(Keyword::Async)), Sight::Or(1),
    Sight::Opens(Delimiter::Brace), Sight::Then(1), Sight::Word(Words::Keyword(Keyword::Move)),
    Sight::Opens(Delimiter::Brace), Sight::Word(Words::Keyword(Keyword::Async)), Sight::Then(1),
    Sight::Word(Words::Keyword(Keyword::For)), Sight::Then(1), Sight::Mark(Sign::Lt), Sight::Or(1), Sight::Lifetime,
    Sight::Mark(Sign::Gt),
];

/// Brackets with a `;` in them.
#[rattlefmt::skip]
pub(crate) static REPEAT_STANDS: [Sight; 3] = [
    Sight::Then(1), Sight::Opens(Delimiter::Bracket), Sight::PastFirst(59),
];

/// `&raw const` or `&raw mut`.
#[rattlefmt::skip]
pub(crate) static RAW_ADDR_STANDS: [Sight; 7] = [
    Sight::Then(1), Sight::Mark(Sign::And), Sight::Then(1), Sight::Word(Words::Keyword(Keyword::Raw)), Sight::Or(1),
    Sight::Word(Words::Keyword(Keyword::Const)), Sight::Word(Words::Keyword(Keyword::Mut)),
];

/// `*`, `!` or `-`.
#[rattlefmt::skip]
pub(crate) static UNARY_STANDS: [Sight; 5] = [
    Sight::Or(1), Sight::Mark(Sign::Star), Sight::Or(1), Sight::Mark(Sign::Not), Sight::Mark(Sign::Minus),
];

/// A path and `!`.
#[rattlefmt::skip]
pub(crate) static MACRO_CALL_STANDS: [Sight; 14] = [
    Sight::Then(9), Sight::Then(2), Sight::Maybe, Sight::Mark(Sign::PathSep), Sight::Then(1),
    Sight::Word(Words::Name), Sight::Repeatedly, Sight::Then(1), Sight::Mark(Sign::PathSep), Sight::Word(Words::Name),
    Sight::Then(2), Sight::No, Sight::Mark(Sign::Ne), Sight::Mark(Sign::Not),
];

/// A path.
#[rattlefmt::skip]
pub(crate) static PATH_STANDS: [Sight; 5] = [
    Sight::Or(1), Sight::Word(Words::Name), Sight::Or(1), Sight::Mark(Sign::PathSep), Sight::Mark(Sign::Lt),
];

/// An operator that assigns.
#[rattlefmt::skip]
pub(crate) static ASSIGN_OP_STANDS: [Sight; 21] = [
    Sight::Or(1), Sight::Mark(Sign::PlusEq), Sight::Or(1), Sight::Mark(Sign::MinusEq), Sight::Or(1),
    Sight::Mark(Sign::StarEq), Sight::Or(1), Sight::Mark(Sign::SlashEq), Sight::Or(1), Sight::Mark(Sign::PercentEq),
    Sight::Or(1), Sight::Mark(Sign::CaretEq), Sight::Or(1), Sight::Mark(Sign::AndEq), Sight::Or(1),
    Sight::Mark(Sign::OrEq), Sight::Or(1), Sight::Mark(Sign::ShlEq), Sight::Or(1), Sight::Mark(Sign::ShrEq),
    Sight::Nowhere,
];

/// `==`, `<=`, `!=` or `>=`.
#[rattlefmt::skip]
pub(crate) static EQUALITY_STANDS: [Sight; 9] = [
    Sight::Or(1), Sight::Mark(Sign::EqEq), Sight::Or(1), Sight::Mark(Sign::Le), Sight::Or(1), Sight::Mark(Sign::Ne),
    Sight::Or(1), Sight::Mark(Sign::Ge), Sight::Nowhere,
];

/// `=` that begins no `=>`.
#[rattlefmt::skip]
pub(crate) static ASSIGN_STANDS: [Sight; 4] = [
    Sight::Then(2), Sight::No, Sight::Mark(Sign::FatArrow), Sight::Mark(Sign::Eq),
];

/// `<<` or `>>`.
#[rattlefmt::skip]
pub(crate) static SHIFT_STANDS: [Sight; 3] = [Sight::Or(1), Sight::Mark(Sign::Shl), Sight::Mark(Sign::Shr)];

/// `<` or `>`.
#[rattlefmt::skip]
pub(crate) static LT_OR_GT: [Sight; 3] = [Sight::Or(1), Sight::Mark(Sign::Lt), Sight::Mark(Sign::Gt)];

/// `+` or `-`.
#[rattlefmt::skip]
pub(crate) static PLUS_OR_MINUS: [Sight; 3] = [Sight::Or(1), Sight::Mark(Sign::Plus), Sight::Mark(Sign::Minus)];

/// `*`, `/` or `%`.
#[rattlefmt::skip]
pub(crate) static PRODUCT_STANDS: [Sight; 5] = [
    Sight::Or(1), Sight::Mark(Sign::Star), Sight::Or(1), Sight::Mark(Sign::Slash), Sight::Mark(Sign::Percent),
];

/// `.await`.
#[rattlefmt::skip]
pub(crate) static AWAIT_STANDS: [Sight; 8] = [
    Sight::Then(6), Sight::Then(2), Sight::No, Sight::Mark(Sign::DotDot), Sight::Then(1), Sight::Mark(Sign::Dot),
    Sight::PastLiterals(Literals::EndsInDot), Sight::Word(Words::Keyword(Keyword::Await)),
];

/// A dot and a method.
#[rattlefmt::skip]
pub(crate) static METHOD_STANDS: [Sight; 12] = [
    Sight::Then(6), Sight::Then(2), Sight::No, Sight::Mark(Sign::DotDot), Sight::Then(1), Sight::Mark(Sign::Dot),
    Sight::PastLiterals(Literals::EndsInDot), Sight::Then(1), Sight::Word(Words::Ident), Sight::Or(1),
    Sight::Opens(Delimiter::Parenthesis), Sight::Mark(Sign::PathSep),
];

/// A dot that begins no `..`, and numbers that end in one.
#[rattlefmt::skip]
pub(crate) static DOT_STANDS: [Sight; 6] = [
    Sight::Then(2), Sight::No, Sight::Mark(Sign::DotDot), Sight::Then(1), Sight::Mark(Sign::Dot),
    Sight::PastLiterals(Literals::EndsInDot),
];

/// An expression, where a jump has an operand.
#[rattlefmt::skip]
pub(crate) static OPERAND_STANDS: [Sight; 50] = [
    Sight::Or(4), Sight::Then(2), Sight::No, Sight::Word(Words::Keyword(Keyword::As)), Sight::Word(Words::Any),
    Sight::Or(1), Sight::Opening, Sight::Or(1), Sight::Quoted(Literals::Any), Sight::Or(1), Sight::Lifetime,
    Sight::Or(4), Sight::Then(2), Sight::No, Sight::Mark(Sign::Ne), Sight::Mark(Sign::Not), Sight::Or(6),
    Sight::Then(4), Sight::No, Sight::Or(1), Sight::Mark(Sign::MinusEq), Sight::Mark(Sign::RArrow),
    Sight::Mark(Sign::Minus), Sight::Or(4), Sight::Then(2), Sight::No, Sight::Mark(Sign::StarEq),
    Sight::Mark(Sign::Star), Sight::Or(4), Sight::Then(2), Sight::No, Sight::Mark(Sign::OrEq), Sight::Mark(Sign::Or),
    Sight::Or(4), Sight::Then(2), Sight::No, Sight::Mark(Sign::AndEq), Sight::Mark(Sign::And), Sight::Or(1),
    Sight::Mark(Sign::DotDot), Sight::Or(6), Sight::Then(4), Sight::No, Sight::Or(1), Sight::Mark(Sign::Le),
    Sight::Mark(Sign::ShlEq), Sight::Mark(Sign::Lt), Sight::Or(1), Sight::Mark(Sign::PathSep),
    Sight::Mark(Sign::Pound),
];

/// The operand of a `break` in a condition.
#[rattlefmt::skip]
pub(crate) static BREAK_OPERAND_STANDS: [Sight; 53] = [
    Sight::Then(2), Sight::No, Sight::Opens(Delimiter::Brace), Sight::Or(4), Sight::Then(2), Sight::No,
    Sight::Word(Words::Keyword(Keyword::As)), Sight::Word(Words::Any), Sight::Or(1), Sight::Opening, Sight::Or(1),
    Sight::Quoted(Literals::Any), Sight::Or(1), Sight::Lifetime, Sight::Or(4), Sight::Then(2), Sight::No,
    Sight::Mark(Sign::Ne), Sight::Mark(Sign::Not), Sight::Or(6), Sight::Then(4), Sight::No, Sight::Or(1),
    Sight::Mark(Sign::MinusEq), Sight::Mark(Sign::RArrow), Sight::Mark(Sign::Minus), Sight::Or(4), Sight::Then(2),
    Sight::No, Sight::Mark(Sign::StarEq), Sight::Mark(Sign::Star), Sight::Or(4), Sight::Then(2), Sight::No,
    Sight::Mark(Sign::OrEq), Sight::Mark(Sign::Or), Sight::Or(4), Sight::Then(2), Sight::No, Sight::Mark(Sign::AndEq),
    Sight::Mark(Sign::And), Sight::Or(1), Sight::Mark(Sign::DotDot), Sight::Or(6), Sight::Then(4), Sight::No,
    Sight::Or(1), Sight::Mark(Sign::Le), Sight::Mark(Sign::ShlEq), Sight::Mark(Sign::Lt), Sight::Or(1),
    Sight::Mark(Sign::PathSep), Sight::Mark(Sign::Pound),
];

/// No end of a range.
#[rattlefmt::skip]
pub(crate) static RANGE_IS_OPEN: [Sight; 44] = [
    Sight::Or(42), Sight::Or(1), Sight::End, Sight::Or(33), Sight::Or(1), Sight::Mark(Sign::Comma), Sight::Or(1),
    Sight::Mark(Sign::Semi), Sight::Or(1), Sight::Mark(Sign::Question), Sight::Or(1), Sight::Mark(Sign::Eq),
    Sight::Or(1), Sight::Mark(Sign::Plus), Sight::Or(1), Sight::Mark(Sign::Slash), Sight::Or(1),
    Sight::Mark(Sign::Percent), Sight::Or(1), Sight::Mark(Sign::Caret), Sight::Or(1), Sight::Mark(Sign::Gt),
    Sight::Or(1), Sight::Mark(Sign::Le), Sight::Or(1), Sight::Mark(Sign::Ne), Sight::Or(1),
    Sight::Mark(Sign::MinusEq), Sight::Or(1), Sight::Mark(Sign::StarEq), Sight::Or(1), Sight::Mark(Sign::AndEq),
    Sight::Or(1), Sight::Mark(Sign::OrEq), Sight::Or(1), Sight::Mark(Sign::ShlEq), Sight::Nowhere, Sight::Or(1),
    Sight::Word(Words::Keyword(Keyword::As)), Sight::Then(2), Sight::No, Sight::Mark(Sign::DotDot),
    Sight::Mark(Sign::Dot), Sight::Nowhere,
];

/// No end of a range in a condition.
#[rattlefmt::skip]
pub(crate) static RANGE_IS_OPEN_IN_CONDITION: [Sight; 44] = [
    Sight::Or(42), Sight::Or(1), Sight::End, Sight::Or(33), Sight::Or(1), Sight::Mark(Sign::Comma), Sight::Or(1),
    Sight::Mark(Sign::Semi), Sight::Or(1), Sight::Mark(Sign::Question), Sight::Or(1), Sight::Mark(Sign::Eq),
    Sight::Or(1), Sight::Mark(Sign::Plus), Sight::Or(1), Sight::Mark(Sign::Slash), Sight::Or(1),
    Sight::Mark(Sign::Percent), Sight::Or(1), Sight::Mark(Sign::Caret), Sight::Or(1), Sight::Mark(Sign::Gt),
    Sight::Or(1), Sight::Mark(Sign::Le), Sight::Or(1), Sight::Mark(Sign::Ne), Sight::Or(1),
    Sight::Mark(Sign::MinusEq), Sight::Or(1), Sight::Mark(Sign::StarEq), Sight::Or(1), Sight::Mark(Sign::AndEq),
    Sight::Or(1), Sight::Mark(Sign::OrEq), Sight::Or(1), Sight::Mark(Sign::ShlEq), Sight::Nowhere, Sight::Or(1),
    Sight::Word(Words::Keyword(Keyword::As)), Sight::Then(2), Sight::No, Sight::Mark(Sign::DotDot),
    Sight::Mark(Sign::Dot), Sight::Opens(Delimiter::Brace),
];
