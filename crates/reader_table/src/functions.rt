//! The entries of functions and their parameters.

// Written by tools/rows.py from the entries of the written grammar.

ghost use Rattle.reader_table.specs.Kinds.{kind_of};
ghost use Rattle.reader_table.specs.Ops.{gram_of};
ghost use Rattle.reader_table.specs.declared.kind.Kind.TheVariants as kinds;
ghost use Rattle.std.specs.Prelude.{◌≡◌};
ghost use Rattle.syn_grammar.specs.Table.{table};

use crate::composite::Composite;
use crate::kind::{Kind, Place, Plus};
use crate::op::{Look, Op, Separator, Test, Verdicts};
use crate::part::Part;
use crate::word::{Keyword, Sign, Words};
use proc_macro2::delimiter::Delimiter;

/// (parameters)
#[rattlefmt::skip]
pub(crate) static PARAMETERS: [Op; 4] = [
    Op::Judged(Verdicts::Parameters), Op::Group(Delimiter::Parenthesis),
    Op::Many(Test::Sees(Look::End), Separator::Comma), Op::Ref(Kind::Parameter),
];

/// Attributes, and then a receiver, or ..., or a type alone where an Ident stands before <, or one alternative : (...
/// or Type).
#[rattlefmt::skip]
pub(crate) static PARAMETER: [Op; 21] = [
    Op::Seq(1), Op::Ref(Kind::OuterAttributes), Op::Alt(Test::Sees(Look::Composite(Composite::ReceiverStands)), 2),
    Op::Called(Part::Receiver), Op::Ref(Kind::Receiver), Op::Alt(Test::Sees(Look::Mark(Sign::DotDotDot)), 2),
    Op::Called(Part::Dots), Op::Mark(Sign::DotDotDot),
    Op::Alt(Test::Sees(Look::Composite(Composite::IdentThenLt)), 2), Op::Called(Part::Unnamed),
    Op::Ref(Kind::AType(Plus::WithPlus)), Op::Seq(2), Op::Called(Part::Pattern), Op::Ref(Kind::OnePattern),
    Op::Seq(1), Op::Mark(Sign::Colon), Op::Alt(Test::Sees(Look::Mark(Sign::DotDotDot)), 2), Op::Called(Part::Dots),
    Op::Mark(Sign::DotDotDot), Op::Called(Part::Type), Op::Ref(Kind::AType(Plus::WithPlus)),
];

/// One parameter by itself, without ... .
pub(crate) static FN_ARG: [Op; 2] = [Op::Judged(Verdicts::FnArg), Op::Ref(Kind::Parameter)];

/// & 'a? mut? self, or mut? self (: Type)?
#[rattlefmt::skip]
pub(crate) static RECEIVER: [Op; 23] = [
    Op::Alt(Test::Sees(Look::Mark(Sign::And)), 11), Op::Seq(1), Op::Mark(Sign::And), Op::Seq(3),
    Op::Alt(Test::Sees(Look::Lifetime), 1), Op::Lifetime, Op::Nothing, Op::Seq(3),
    Op::Alt(Test::Sees(Look::Word(Words::Keyword(Keyword::Mut))), 1), Op::Word(Words::Keyword(Keyword::Mut)),
    Op::Nothing, Op::Word(Words::Keyword(Keyword::SelfValue)), Op::Seq(3),
    Op::Alt(Test::Sees(Look::Word(Words::Keyword(Keyword::Mut))), 1), Op::Word(Words::Keyword(Keyword::Mut)),
    Op::Nothing, Op::Seq(1), Op::Word(Words::Keyword(Keyword::SelfValue)),
    Op::Alt(Test::Sees(Look::Mark(Sign::Colon)), 3), Op::Seq(1), Op::Mark(Sign::Colon),
    Op::Ref(Kind::AType(Plus::WithPlus)), Op::Nothing,
];

/// const? async? unsafe? Abi? fn Ident generics (parameters) (-> Type)? where?
#[rattlefmt::skip]
static SIGNATURE_IN_FILE: [Op; 31] = [
    Op::Seq(3), Op::Alt(Test::Sees(Look::Word(Words::Keyword(Keyword::Const))), 1),
    Op::Word(Words::Keyword(Keyword::Const)), Op::Nothing, Op::Seq(3),
    Op::Alt(Test::Sees(Look::Word(Words::Keyword(Keyword::Async))), 1), Op::Word(Words::Keyword(Keyword::Async)),
    Op::Nothing, Op::Seq(4), Op::Alt(Test::Sees(Look::Word(Words::Keyword(Keyword::Unsafe))), 2),
    Op::Called(Part::Safety), Op::Word(Words::Keyword(Keyword::Unsafe)), Op::Nothing, Op::Seq(3),
    Op::Alt(Test::Sees(Look::Word(Words::Keyword(Keyword::Extern))), 1), Op::Ref(Kind::Abi), Op::Nothing, Op::Seq(1),
    Op::Word(Words::Keyword(Keyword::Fn)), Op::Seq(2), Op::Called(Part::Name), Op::Word(Words::Ident), Op::Seq(2),
    Op::Called(Part::Generics), Op::Ref(Kind::Generics), Op::Seq(1), Op::Ref(Kind::Parameters), Op::Seq(1),
    Op::Ref(Kind::ReturnType(Plus::WithPlus)), Op::Called(Part::Where), Op::Ref(Kind::Where),
];

/// const? async? unsafe? Abi? fn Ident generics (parameters) (-> Type)? where?
#[rattlefmt::skip]
static SIGNATURE_IN_FOREIGN: [Op; 31] = [
    Op::Seq(3), Op::Alt(Test::Sees(Look::Word(Words::Keyword(Keyword::Const))), 1),
    Op::Word(Words::Keyword(Keyword::Const)), Op::Nothing, Op::Seq(3),
    Op::Alt(Test::Sees(Look::Word(Words::Keyword(Keyword::Async))), 1), Op::Word(Words::Keyword(Keyword::Async)),
    Op::Nothing, Op::Seq(4), Op::Alt(Test::Sees(Look::Composite(Composite::UnsafeOrSafe)), 2),
    Op::Called(Part::Safety), Op::Word(Words::Safety), Op::Nothing, Op::Seq(3),
    Op::Alt(Test::Sees(Look::Word(Words::Keyword(Keyword::Extern))), 1), Op::Ref(Kind::Abi), Op::Nothing, Op::Seq(1),
    Op::Word(Words::Keyword(Keyword::Fn)), Op::Seq(2), Op::Called(Part::Name), Op::Word(Words::Ident), Op::Seq(2),
    Op::Called(Part::Generics), Op::Ref(Kind::Generics), Op::Seq(1), Op::Ref(Kind::Parameters), Op::Seq(1),
    Op::Ref(Kind::ReturnType(Plus::WithPlus)), Op::Called(Part::Where), Op::Ref(Kind::Where),
];

pub(crate) fn signature(place: Place) -> &'static [Op]
    ensures { gram_of result.now ≡ table (kind_of (kinds.Signature place)) }
{
    match place {
        Place::InFile => &SIGNATURE_IN_FILE,
        Place::InForeign => &SIGNATURE_IN_FOREIGN,
        Place::InTrait => &SIGNATURE_IN_FILE,
        Place::InImpl => &SIGNATURE_IN_FILE,
    }
}

/// A signature, and then a body or ; .
#[rattlefmt::skip]
static A_FUNCTION_IN_FILE: [Op; 6] = [
    Op::Seq(1), Op::Ref(Kind::Signature(Place::InFile)), Op::Alt(Test::Sees(Look::Opens(Delimiter::Brace)), 2),
    Op::Called(Part::Body), Op::Ref(Kind::Body), Op::Mark(Sign::Semi),
];

/// A signature, and then a body or ; .
#[rattlefmt::skip]
static A_FUNCTION_IN_FOREIGN: [Op; 6] = [
    Op::Seq(1), Op::Ref(Kind::Signature(Place::InForeign)), Op::Alt(Test::Sees(Look::Opens(Delimiter::Brace)), 2),
    Op::Called(Part::Body), Op::Ref(Kind::Body), Op::Mark(Sign::Semi),
];

/// A signature, and then a body or ; .
#[rattlefmt::skip]
static A_FUNCTION_IN_TRAIT: [Op; 6] = [
    Op::Seq(1), Op::Ref(Kind::Signature(Place::InTrait)), Op::Alt(Test::Sees(Look::Opens(Delimiter::Brace)), 2),
    Op::Called(Part::Body), Op::Ref(Kind::Body), Op::Mark(Sign::Semi),
];

/// A signature, and then a body or ; .
#[rattlefmt::skip]
static A_FUNCTION_IN_IMPL: [Op; 6] = [
    Op::Seq(1), Op::Ref(Kind::Signature(Place::InImpl)), Op::Alt(Test::Sees(Look::Opens(Delimiter::Brace)), 2),
    Op::Called(Part::Body), Op::Ref(Kind::Body), Op::Mark(Sign::Semi),
];

pub(crate) fn a_function(place: Place) -> &'static [Op]
    ensures { gram_of result.now ≡ table (kind_of (kinds.AFunction place)) }
{
    match place {
        Place::InFile => &A_FUNCTION_IN_FILE,
        Place::InForeign => &A_FUNCTION_IN_FOREIGN,
        Place::InTrait => &A_FUNCTION_IN_TRAIT,
        Place::InImpl => &A_FUNCTION_IN_IMPL,
    }
}
