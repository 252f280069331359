//! What looks of several steps see, of entries.

// Written by tools/rows.py.

use crate::op::Sight;
use crate::word::{Keyword, Literals, Sign, Words};
use proc_macro2::delimiter::Delimiter;

/// `::` and then `<`.
#[rattlefmt::skip]
pub(crate) static TURBOFISH: [Sight; 3] = [Sight::Then(1), Sight::Mark(Sign::PathSep), Sight::Mark(Sign::Lt)];

/// Arguments of a path in a type.
#[rattlefmt::skip]
pub(crate) static ARGUMENTS_STAND: [Sight; 8] = [
    Sight::Or(3), Sight::Then(1), Sight::Mark(Sign::PathSep), Sight::Mark(Sign::Lt), Sight::Then(2), Sight::No,
    Sight::Mark(Sign::Le), Sight::Mark(Sign::Lt),
];

/// A literal, `true` or `false`.
#[rattlefmt::skip]
pub(crate) static A_LITERAL: [Sight; 3] = [Sight::Or(1), Sight::Quoted(Literals::Any), Sight::Word(Words::Bool)];

/// An Ident before `=`.
#[rattlefmt::skip]
pub(crate) static IDENT_THEN_EQ: [Sight; 3] = [Sight::Then(1), Sight::Word(Words::Ident), Sight::Mark(Sign::Eq)];

/// A function pointer.
#[rattlefmt::skip]
pub(crate) static FN_PTR_STANDS: [Sight; 7] = [
    Sight::Or(1), Sight::Word(Words::Keyword(Keyword::For)), Sight::Or(1),
    Sight::Word(Words::Keyword(Keyword::Unsafe)), Sight::Or(1), Sight::Word(Words::Keyword(Keyword::Extern)),
    Sight::Word(Words::Keyword(Keyword::Fn)),
];

/// A name and a colon.
#[rattlefmt::skip]
pub(crate) static NAMED_ARGUMENT: [Sight; 8] = [
    Sight::Then(3), Sight::Or(1), Sight::Word(Words::Ident), Sight::Word(Words::Keyword(Keyword::Underscore)),
    Sight::Then(2), Sight::No, Sight::Mark(Sign::PathSep), Sight::Mark(Sign::Colon),
];

/// A bound.
#[rattlefmt::skip]
pub(crate) static BOUND_STANDS: [Sight; 9] = [
    Sight::Or(1), Sight::Lifetime, Sight::Or(1), Sight::Mark(Sign::Question), Sight::Or(1),
    Sight::Word(Words::Keyword(Keyword::For)), Sight::Or(1), Sight::Mark(Sign::PathSep), Sight::Word(Words::Name),
];

/// A `|` that begins no `||` and no `|=`.
#[rattlefmt::skip]
pub(crate) static VERT: [Sight; 6] = [
    Sight::Then(4), Sight::No, Sight::Or(1), Sight::Mark(Sign::OrOr), Sight::Mark(Sign::OrEq), Sight::Mark(Sign::Or),
];

/// `ref`, `mut`, or an Ident that names what it matches.
#[rattlefmt::skip]
pub(crate) static IDENT_PATTERN_STANDS: [Sight; 14] = [
    Sight::Or(1), Sight::Word(Words::Keyword(Keyword::Ref)), Sight::Or(1), Sight::Word(Words::Keyword(Keyword::Mut)),
    Sight::Then(1), Sight::Word(Words::Ident), Sight::No, Sight::Or(1), Sight::Mark(Sign::PathSep), Sight::Or(1),
    Sight::Opens(Delimiter::Parenthesis), Sight::Or(1), Sight::Opens(Delimiter::Brace), Sight::Mark(Sign::DotDot),
];

/// A range without a start.
#[rattlefmt::skip]
pub(crate) static RANGE_TO_PATTERN_STANDS: [Sight; 20] = [
    Sight::Or(1), Sight::Mark(Sign::DotDotEq), Sight::Then(6), Sight::Then(4), Sight::No, Sight::Or(1),
    Sight::Mark(Sign::DotDotDot), Sight::Mark(Sign::DotDotEq), Sight::Mark(Sign::DotDot), Sight::Or(3), Sight::Or(1),
    Sight::Quoted(Literals::Any), Sight::Word(Words::Bool), Sight::Or(1), Sight::Mark(Sign::Minus), Sight::Or(1),
    Sight::Mark(Sign::Lt), Sight::Or(1), Sight::Mark(Sign::PathSep), Sight::Word(Words::Name),
];

/// `..` that begins no `...` and no `..=`.
#[rattlefmt::skip]
pub(crate) static DOTS: [Sight; 6] = [
    Sight::Then(4), Sight::No, Sight::Or(1), Sight::Mark(Sign::DotDotDot), Sight::Mark(Sign::DotDotEq),
    Sight::Mark(Sign::DotDot),
];

/// A literal or `-`.
#[rattlefmt::skip]
pub(crate) static LITERAL_PATTERN_STANDS: [Sight; 5] = [
    Sight::Or(3), Sight::Or(1), Sight::Quoted(Literals::Any), Sight::Word(Words::Bool), Sight::Mark(Sign::Minus),
];

/// `..` that begins no `...`.
#[rattlefmt::skip]
pub(crate) static RANGE_END_STANDS: [Sight; 4] = [
    Sight::Then(2), Sight::No, Sight::Mark(Sign::DotDotDot), Sight::Mark(Sign::DotDot),
];

/// The end of a range.
#[rattlefmt::skip]
pub(crate) static RANGE_BOUND_STANDS: [Sight; 11] = [
    Sight::Or(3), Sight::Or(1), Sight::Quoted(Literals::Any), Sight::Word(Words::Bool), Sight::Or(1),
    Sight::Mark(Sign::Minus), Sight::Or(1), Sight::Mark(Sign::Lt), Sight::Or(1), Sight::Mark(Sign::PathSep),
    Sight::Word(Words::Name),
];

/// A member and a colon.
#[rattlefmt::skip]
pub(crate) static MEMBER_COLON: [Sight; 5] = [
    Sight::Then(3), Sight::Or(1), Sight::Word(Words::Ident), Sight::Quoted(Literals::Index), Sight::Mark(Sign::Colon),
];

/// `#` and `!`.
#[rattlefmt::skip]
pub(crate) static INNER_ATTRIBUTE: [Sight; 3] = [Sight::Then(1), Sight::Mark(Sign::Pound), Sight::Mark(Sign::Not)];

/// A group of any visible kind.
#[rattlefmt::skip]
pub(crate) static ANY_DELIMITER: [Sight; 5] = [
    Sight::Or(1), Sight::Opens(Delimiter::Parenthesis), Sight::Or(1), Sight::Opens(Delimiter::Brace),
    Sight::Opens(Delimiter::Bracket),
];

/// Parameters behind `impl`.
#[rattlefmt::skip]
pub(crate) static IMPL_GENERICS_STAND: [Sight; 22] = [
    Sight::Then(1), Sight::Mark(Sign::Lt), Sight::Or(1), Sight::Mark(Sign::Gt), Sight::Or(1),
    Sight::Mark(Sign::Pound), Sight::Or(1), Sight::Word(Words::Keyword(Keyword::Const)), Sight::Then(3), Sight::Or(1),
    Sight::Lifetime, Sight::Word(Words::Ident), Sight::Or(1), Sight::Mark(Sign::Gt), Sight::Or(1),
    Sight::Mark(Sign::Comma), Sight::Or(1), Sight::Mark(Sign::Eq), Sight::Then(2), Sight::No,
    Sight::Mark(Sign::PathSep), Sight::Mark(Sign::Colon),
];

/// Attributes and a lifetime.
#[rattlefmt::skip]
pub(crate) static LIFETIME_BEHIND_ATTRIBUTES: [Sight; 6] = [
    Sight::Then(4), Sight::Repeatedly, Sight::Then(1), Sight::Mark(Sign::Pound), Sight::Group(Delimiter::Bracket),
    Sight::Lifetime,
];

/// Attributes and `const`.
#[rattlefmt::skip]
pub(crate) static CONST_BEHIND_ATTRIBUTES: [Sight; 6] = [
    Sight::Then(4), Sight::Repeatedly, Sight::Then(1), Sight::Mark(Sign::Pound), Sight::Group(Delimiter::Bracket),
    Sight::Word(Words::Keyword(Keyword::Const)),
];

/// The end of a where clause.
#[rattlefmt::skip]
pub(crate) static WHERE_ENDS: [Sight; 14] = [
    Sight::Or(1), Sight::End, Sight::Or(1), Sight::Opens(Delimiter::Brace), Sight::Or(1), Sight::Mark(Sign::Comma),
    Sight::Or(1), Sight::Mark(Sign::Semi), Sight::Or(1), Sight::Mark(Sign::Eq), Sight::Then(2), Sight::No,
    Sight::Mark(Sign::PathSep), Sight::Mark(Sign::Colon),
];

/// A postfix form.
#[rattlefmt::skip]
pub(crate) static POSTFIX_STANDS: [Sight; 10] = [
    Sight::Or(4), Sight::Then(2), Sight::No, Sight::Mark(Sign::DotDot), Sight::Mark(Sign::Dot), Sight::Or(1),
    Sight::Mark(Sign::Question), Sight::Or(1), Sight::Opens(Delimiter::Parenthesis), Sight::Opens(Delimiter::Bracket),
];

/// An Ident without a colon.
#[rattlefmt::skip]
pub(crate) static IDENT_ALONE: [Sight; 4] = [
    Sight::Then(1), Sight::Word(Words::Ident), Sight::No, Sight::Mark(Sign::Colon),
];

/// A restriction.
#[rattlefmt::skip]
pub(crate) static ANY_RESTRICTION: [Sight; 9] = [
    Sight::Or(5), Sight::Then(1), Sight::Opens(Delimiter::Parenthesis), Sight::Then(1),
    Sight::Word(Words::Restriction), Sight::Closes, Sight::Then(1), Sight::Opens(Delimiter::Parenthesis),
    Sight::Word(Words::Keyword(Keyword::In)),
];

/// `(in`.
#[rattlefmt::skip]
pub(crate) static RESTRICTED_IN: [Sight; 3] = [
    Sight::Then(1), Sight::Opens(Delimiter::Parenthesis), Sight::Word(Words::Keyword(Keyword::In)),
];

/// `!` before no brace.
#[rattlefmt::skip]
pub(crate) static NOT_BEFORE_BRACE: [Sight; 4] = [
    Sight::Then(1), Sight::Mark(Sign::Not), Sight::No, Sight::Opens(Delimiter::Brace),
];

/// A receiver.
#[rattlefmt::skip]
pub(crate) static RECEIVER_STANDS: [Sight; 17] = [
    Sight::Then(14), Sight::Or(9), Sight::Then(1), Sight::Mark(Sign::And), Sight::Then(2), Sight::Maybe,
    Sight::Lifetime, Sight::Then(2), Sight::Maybe, Sight::Word(Words::Keyword(Keyword::Mut)),
    Sight::Word(Words::Keyword(Keyword::SelfValue)), Sight::Then(2), Sight::Maybe,
    Sight::Word(Words::Keyword(Keyword::Mut)), Sight::Word(Words::Keyword(Keyword::SelfValue)), Sight::No,
    Sight::Mark(Sign::PathSep),
];

/// An Ident before `<`.
#[rattlefmt::skip]
pub(crate) static IDENT_THEN_LT: [Sight; 3] = [Sight::Then(1), Sight::Word(Words::Ident), Sight::Mark(Sign::Lt)];

/// `unsafe` or `safe`.
#[rattlefmt::skip]
pub(crate) static UNSAFE_OR_SAFE: [Sight; 3] = [
    Sight::Or(1), Sight::Word(Words::Keyword(Keyword::Unsafe)), Sight::Word(Words::Keyword(Keyword::Safe)),
];

/// An Ident or `try`.
#[rattlefmt::skip]
pub(crate) static IDENT_OR_TRY: [Sight; 3] = [
    Sight::Or(1), Sight::Word(Words::Ident), Sight::Word(Words::Keyword(Keyword::Try)),
];

/// A function's signature.
#[rattlefmt::skip]
pub(crate) static SIGNATURE_STANDS: [Sight; 16] = [
    Sight::Then(2), Sight::Maybe, Sight::Word(Words::Keyword(Keyword::Const)), Sight::Then(2), Sight::Maybe,
    Sight::Word(Words::Keyword(Keyword::Async)), Sight::Then(2), Sight::Maybe,
    Sight::Word(Words::Keyword(Keyword::Unsafe)), Sight::Then(5), Sight::Maybe, Sight::Then(1),
    Sight::Word(Words::Keyword(Keyword::Extern)), Sight::Maybe, Sight::Quoted(Literals::Text),
    Sight::Word(Words::Keyword(Keyword::Fn)),
];

/// `extern crate`.
#[rattlefmt::skip]
pub(crate) static EXTERN_CRATE: [Sight; 3] = [
    Sight::Then(1), Sight::Word(Words::Keyword(Keyword::Extern)), Sight::Word(Words::Keyword(Keyword::Crate)),
];

/// `const` before a trait.
#[rattlefmt::skip]
pub(crate) static CONST_TRAIT: [Sight; 9] = [
    Sight::Then(1), Sight::Word(Words::Keyword(Keyword::Const)), Sight::Then(2), Sight::Maybe,
    Sight::Word(Words::Keyword(Keyword::Unsafe)), Sight::Then(2), Sight::Maybe,
    Sight::Word(Words::Keyword(Keyword::Auto)), Sight::Word(Words::Keyword(Keyword::Trait)),
];

/// `const` before an impl.
#[rattlefmt::skip]
pub(crate) static CONST_IMPL: [Sight; 6] = [
    Sight::Then(1), Sight::Word(Words::Keyword(Keyword::Const)), Sight::Then(2), Sight::Maybe,
    Sight::Word(Words::Keyword(Keyword::Unsafe)), Sight::Word(Words::Keyword(Keyword::Impl)),
];

/// `unsafe extern`.
#[rattlefmt::skip]
pub(crate) static UNSAFE_EXTERN: [Sight; 3] = [
    Sight::Then(1), Sight::Word(Words::Keyword(Keyword::Unsafe)), Sight::Word(Words::Keyword(Keyword::Extern)),
];

/// `unsafe mod`.
#[rattlefmt::skip]
pub(crate) static UNSAFE_MOD: [Sight; 3] = [
    Sight::Then(1), Sight::Word(Words::Keyword(Keyword::Unsafe)), Sight::Word(Words::Keyword(Keyword::Mod)),
];

/// `unsafe impl`.
#[rattlefmt::skip]
pub(crate) static UNSAFE_IMPL: [Sight; 3] = [
    Sight::Then(1), Sight::Word(Words::Keyword(Keyword::Unsafe)), Sight::Word(Words::Keyword(Keyword::Impl)),
];

/// `union` and an Ident.
#[rattlefmt::skip]
pub(crate) static UNION_IDENT: [Sight; 3] = [
    Sight::Then(1), Sight::Word(Words::Keyword(Keyword::Union)), Sight::Word(Words::Ident),
];

/// A restricted trait.
#[rattlefmt::skip]
pub(crate) static RESTRICTED_TRAIT_STANDS: [Sight; 11] = [
    Sight::Then(1), Sight::Word(Words::Keyword(Keyword::Impl)), Sight::Then(1), Sight::Group(Delimiter::Parenthesis),
    Sight::Or(1), Sight::Word(Words::Keyword(Keyword::Const)), Sight::Or(1),
    Sight::Word(Words::Keyword(Keyword::Unsafe)), Sight::Or(1), Sight::Word(Words::Keyword(Keyword::Auto)),
    Sight::Word(Words::Keyword(Keyword::Trait)),
];

/// A trait.
#[rattlefmt::skip]
pub(crate) static TRAIT_STANDS: [Sight; 5] = [
    Sight::Or(1), Sight::Word(Words::Keyword(Keyword::Trait)), Sight::Then(1),
    Sight::Word(Words::Keyword(Keyword::Auto)), Sight::Word(Words::Keyword(Keyword::Trait)),
];

/// An impl.
#[rattlefmt::skip]
pub(crate) static IMPL_STANDS: [Sight; 6] = [
    Sight::Or(1), Sight::Word(Words::Keyword(Keyword::Impl)), Sight::Then(1),
    Sight::Word(Words::Keyword(Keyword::Default)), Sight::No, Sight::Mark(Sign::Not),
];

/// A macro's path.
#[rattlefmt::skip]
pub(crate) static MACRO_STANDS: [Sight; 5] = [
    Sight::Or(1), Sight::Word(Words::Ident), Sight::Or(1), Sight::Word(Words::MacroStart), Sight::Mark(Sign::PathSep),
];

/// A function's signature in an extern block.
#[rattlefmt::skip]
pub(crate) static FOREIGN_SIGNATURE_STANDS: [Sight; 18] = [
    Sight::Then(2), Sight::Maybe, Sight::Word(Words::Keyword(Keyword::Const)), Sight::Then(2), Sight::Maybe,
    Sight::Word(Words::Keyword(Keyword::Async)), Sight::Then(4), Sight::Maybe, Sight::Or(1),
    Sight::Word(Words::Keyword(Keyword::Unsafe)), Sight::Word(Words::Keyword(Keyword::Safe)), Sight::Then(5),
    Sight::Maybe, Sight::Then(1), Sight::Word(Words::Keyword(Keyword::Extern)), Sight::Maybe,
    Sight::Quoted(Literals::Text), Sight::Word(Words::Keyword(Keyword::Fn)),
];

/// A static in an extern block.
#[rattlefmt::skip]
pub(crate) static FOREIGN_STATIC_STANDS: [Sight; 6] = [
    Sight::Then(4), Sight::Maybe, Sight::Or(1), Sight::Word(Words::Keyword(Keyword::Unsafe)),
    Sight::Word(Words::Keyword(Keyword::Safe)), Sight::Word(Words::Keyword(Keyword::Static)),
];

/// `default` before no `!`.
#[rattlefmt::skip]
pub(crate) static DEFAULT_STANDS: [Sight; 4] = [
    Sight::Then(1), Sight::Word(Words::Keyword(Keyword::Default)), Sight::No, Sight::Mark(Sign::Not),
];

/// A name or `::`.
#[rattlefmt::skip]
pub(crate) static NAME_OR_PATH_SEP: [Sight; 3] = [Sight::Or(1), Sight::Word(Words::Name), Sight::Mark(Sign::PathSep)];

/// Attributes and a macro that is an item.
#[rattlefmt::skip]
pub(crate) static MACRO_ITEM_BEHIND_ATTRIBUTES: [Sight; 20] = [
    Sight::Then(4), Sight::Repeatedly, Sight::Then(1), Sight::Mark(Sign::Pound), Sight::Group(Delimiter::Bracket),
    Sight::Then(9), Sight::Then(2), Sight::Maybe, Sight::Mark(Sign::PathSep), Sight::Then(1),
    Sight::Word(Words::Name), Sight::Repeatedly, Sight::Then(1), Sight::Mark(Sign::PathSep), Sight::Word(Words::Name),
    Sight::Then(1), Sight::Mark(Sign::Not), Sight::Or(1), Sight::Word(Words::Ident),
    Sight::Word(Words::Keyword(Keyword::Try)),
];

/// Attributes and a macro that is a statement.
#[rattlefmt::skip]
pub(crate) static MACRO_STATEMENT_BEHIND_ATTRIBUTES: [Sight; 26] = [
    Sight::Then(4), Sight::Repeatedly, Sight::Then(1), Sight::Mark(Sign::Pound), Sight::Group(Delimiter::Bracket),
    Sight::Then(9), Sight::Then(2), Sight::Maybe, Sight::Mark(Sign::PathSep), Sight::Then(1),
    Sight::Word(Words::Name), Sight::Repeatedly, Sight::Then(1), Sight::Mark(Sign::PathSep), Sight::Word(Words::Name),
    Sight::Then(1), Sight::Mark(Sign::Not), Sight::Then(1), Sight::Group(Delimiter::Brace), Sight::No, Sight::Or(1),
    Sight::Mark(Sign::Question), Sight::Then(2), Sight::No, Sight::Mark(Sign::DotDot), Sight::Mark(Sign::Dot),
];

/// Attributes and `let`.
#[rattlefmt::skip]
pub(crate) static LET_BEHIND_ATTRIBUTES: [Sight; 6] = [
    Sight::Then(4), Sight::Repeatedly, Sight::Then(1), Sight::Mark(Sign::Pound), Sight::Group(Delimiter::Bracket),
    Sight::Word(Words::Keyword(Keyword::Let)),
];

/// Attributes and an item's first words.
#[rattlefmt::skip]
pub(crate) static ITEM_BEHIND_ATTRIBUTES: [Sight; 64] = [
    Sight::Then(4), Sight::Repeatedly, Sight::Then(1), Sight::Mark(Sign::Pound), Sight::Group(Delimiter::Bracket),
    Sight::Or(1), Sight::Word(Words::ItemWord), Sight::Or(4), Sight::Then(1),
    Sight::Word(Words::Keyword(Keyword::Crate)), Sight::No, Sight::Mark(Sign::PathSep), Sight::Or(5), Sight::Then(1),
    Sight::Word(Words::Keyword(Keyword::Static)), Sight::Or(1), Sight::Word(Words::Keyword(Keyword::Mut)),
    Sight::Word(Words::Ident), Sight::Or(19), Sight::Then(1), Sight::Word(Words::Keyword(Keyword::Const)), Sight::No,
    Sight::Or(1), Sight::Opens(Delimiter::Brace), Sight::Or(1), Sight::Word(Words::Keyword(Keyword::Static)),
    Sight::Or(1), Sight::Word(Words::Keyword(Keyword::Move)), Sight::Or(1), Sight::Mark(Sign::Or), Sight::Then(1),
    Sight::Word(Words::Keyword(Keyword::Async)), Sight::No, Sight::Or(1),
    Sight::Word(Words::Keyword(Keyword::Unsafe)), Sight::Or(1), Sight::Word(Words::Keyword(Keyword::Extern)),
    Sight::Word(Words::Keyword(Keyword::Fn)), Sight::Or(4), Sight::Then(1),
    Sight::Word(Words::Keyword(Keyword::Unsafe)), Sight::No, Sight::Opens(Delimiter::Brace), Sight::Or(7),
    Sight::Then(1), Sight::Word(Words::Keyword(Keyword::Async)), Sight::Or(1),
    Sight::Word(Words::Keyword(Keyword::Unsafe)), Sight::Or(1), Sight::Word(Words::Keyword(Keyword::Extern)),
    Sight::Word(Words::Keyword(Keyword::Fn)), Sight::Or(3), Sight::Then(1),
    Sight::Word(Words::Keyword(Keyword::Union)), Sight::Word(Words::Ident), Sight::Or(3), Sight::Then(1),
    Sight::Word(Words::Keyword(Keyword::Auto)), Sight::Word(Words::Keyword(Keyword::Trait)), Sight::Then(1),
    Sight::Word(Words::Keyword(Keyword::Default)), Sight::Or(1), Sight::Word(Words::Keyword(Keyword::Unsafe)),
    Sight::Word(Words::Keyword(Keyword::Impl)),
];
