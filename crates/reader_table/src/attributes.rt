//! The entries of attributes.

// Written by tools/rows.py from the entries of the written grammar.

use crate::composite::Composite;
use crate::kind::{Kind, Position, Style};
use crate::op::{Look, Op, Test};
use crate::part::Part;
use crate::word::{Keyword, Sign, Words};
use proc_macro2::delimiter::Delimiter;

/// Outer attributes are read while # stands there.
pub(crate) static OUTER_ATTRIBUTES: [Op; 2] = [
    Op::Star(Test::Sees(Look::Mark(Sign::Pound))),
    Op::Ref(Kind::OuterAttribute),
];

/// # [meta]
#[rattlefmt::skip]
pub(crate) static OUTER_ATTRIBUTE: [Op; 4] = [
    Op::Seq(1), Op::Mark(Sign::Pound), Op::Group(Delimiter::Bracket), Op::Ref(Kind::Meta),
];

/// Inner attributes are read while # and ! stand there.
pub(crate) static INNER_ATTRIBUTES: [Op; 2] = [
    Op::Star(Test::Sees(Look::Composite(Composite::InnerAttribute))),
    Op::Ref(Kind::InnerAttribute),
];

/// # ! [meta]
#[rattlefmt::skip]
pub(crate) static INNER_ATTRIBUTE: [Op; 6] = [
    Op::Seq(1), Op::Mark(Sign::Pound), Op::Seq(1), Op::Mark(Sign::Not), Op::Group(Delimiter::Bracket),
    Op::Ref(Kind::Meta),
];

/// A path, or unsafe alone, and then a group of raw tokens, or = Expr that doesn't begin with #, or nothing.
#[rattlefmt::skip]
pub(crate) static META: [Op; 14] = [
    Op::Seq(3), Op::Alt(Test::Sees(Look::Word(Words::Keyword(Keyword::Unsafe))), 1),
    Op::Word(Words::Keyword(Keyword::Unsafe)), Op::Ref(Kind::Path(Style::InModule)),
    Op::Alt(Test::Sees(Look::Composite(Composite::AnyDelimiter)), 1), Op::Ref(Kind::Delimited),
    Op::Alt(Test::Sees(Look::Mark(Sign::Eq)), 6), Op::Seq(1), Op::Mark(Sign::Eq),
    Op::Alt(Test::Sees(Look::Mark(Sign::Pound)), 1), Op::Never, Op::Called(Part::Value),
    Op::Ref(Kind::Expression(Position::Plain)), Op::Nothing,
];
