//! Each kind of one token or punctuation by its name: how a message shows it, and its text when it is printed.

use std::fmt::Display;
use syn_error::ToTokens;
use syn_kinds::keyword::Keyword;
use syn_kinds::punctuation::Punctuation;
use syn_kinds::token;
use test_support::Page;

/// Puts a line for each kind.
pub fn kinds(page: &mut Page) {
    first(page);
    second(page);
    third(page);
    fourth(page);
    fifth(page);
    sixth(page);
    groups(page);
}

// Puts the line of a kind.
fn line<T: ToTokens + Display>(name: &str, kind: &T, page: &mut Page) {
    match kind.to_token_stream(page.alloc()) {
        Ok(tokens) => write!(page, "{name} {kind} {tokens}\n"),
        Err(_) => page.cut(),
    }
}

fn word<const K: usize>(name: &str, kind: Keyword<K>, page: &mut Page) {
    line(name, &kind, page);
}

fn mark<const K: usize, const N: usize>(name: &str, kind: Punctuation<K, N>, page: &mut Page) {
    line(name, &kind, page);
}

fn first(page: &mut Page) {
    word("Abstract", token::Abstract::default(), page);
    word("As", token::As::default(), page);
    word("Async", token::Async::default(), page);
    word("Await", token::Await::default(), page);
    word("Become", token::Become::default(), page);
    word("Box", token::Box::default(), page);
    word("Break", token::Break::default(), page);
    word("Const", token::Const::default(), page);
    word("Continue", token::Continue::default(), page);
    word("Crate", token::Crate::default(), page);
    word("Do", token::Do::default(), page);
    word("Dyn", token::Dyn::default(), page);
    word("Else", token::Else::default(), page);
    word("Enum", token::Enum::default(), page);
    word("Extern", token::Extern::default(), page);
    word("Final", token::Final::default(), page);
    word("Fn", token::Fn::default(), page);
}

fn second(page: &mut Page) {
    word("For", token::For::default(), page);
    word("If", token::If::default(), page);
    word("Impl", token::Impl::default(), page);
    word("In", token::In::default(), page);
    word("Let", token::Let::default(), page);
    word("Loop", token::Loop::default(), page);
    word("Macro", token::Macro::default(), page);
    word("Match", token::Match::default(), page);
    word("Mod", token::Mod::default(), page);
    word("Move", token::Move::default(), page);
    word("Mut", token::Mut::default(), page);
    word("Override", token::Override::default(), page);
    word("Priv", token::Priv::default(), page);
    word("Pub", token::Pub::default(), page);
    word("Ref", token::Ref::default(), page);
    word("Return", token::Return::default(), page);
    word("SelfType", token::SelfType::default(), page);
}

fn third(page: &mut Page) {
    word("SelfValue", token::SelfValue::default(), page);
    word("Static", token::Static::default(), page);
    word("Struct", token::Struct::default(), page);
    word("Super", token::Super::default(), page);
    word("Trait", token::Trait::default(), page);
    word("Try", token::Try::default(), page);
    word("Type", token::Type::default(), page);
    word("Typeof", token::Typeof::default(), page);
    word("Unsafe", token::Unsafe::default(), page);
    word("Unsized", token::Unsized::default(), page);
    word("Use", token::Use::default(), page);
    word("Virtual", token::Virtual::default(), page);
    word("Where", token::Where::default(), page);
    word("While", token::While::default(), page);
    word("Yield", token::Yield::default(), page);
    word("Auto", token::Auto::default(), page);
    word("Default", token::Default::default(), page);
}

fn fourth(page: &mut Page) {
    word("Raw", token::Raw::default(), page);
    word("Safe", token::Safe::default(), page);
    word("Union", token::Union::default(), page);
    mark("And", token::And::default(), page);
    mark("AndAnd", token::AndAnd::default(), page);
    mark("AndEq", token::AndEq::default(), page);
    mark("At", token::At::default(), page);
    mark("Caret", token::Caret::default(), page);
    mark("CaretEq", token::CaretEq::default(), page);
    mark("Colon", token::Colon::default(), page);
    mark("Comma", token::Comma::default(), page);
    mark("Dollar", token::Dollar::default(), page);
    mark("Dot", token::Dot::default(), page);
    mark("DotDot", token::DotDot::default(), page);
    mark("DotDotDot", token::DotDotDot::default(), page);
    mark("DotDotEq", token::DotDotEq::default(), page);
    mark("Eq", token::Eq::default(), page);
}

fn fifth(page: &mut Page) {
    mark("EqEq", token::EqEq::default(), page);
    mark("FatArrow", token::FatArrow::default(), page);
    mark("Ge", token::Ge::default(), page);
    mark("Gt", token::Gt::default(), page);
    mark("LArrow", token::LArrow::default(), page);
    mark("Le", token::Le::default(), page);
    mark("Lt", token::Lt::default(), page);
    mark("Minus", token::Minus::default(), page);
    mark("MinusEq", token::MinusEq::default(), page);
    mark("Ne", token::Ne::default(), page);
    mark("Not", token::Not::default(), page);
    mark("Or", token::Or::default(), page);
    mark("OrEq", token::OrEq::default(), page);
    mark("OrOr", token::OrOr::default(), page);
    mark("PathSep", token::PathSep::default(), page);
    mark("Percent", token::Percent::default(), page);
    mark("PercentEq", token::PercentEq::default(), page);
}

fn sixth(page: &mut Page) {
    mark("Plus", token::Plus::default(), page);
    mark("PlusEq", token::PlusEq::default(), page);
    mark("Pound", token::Pound::default(), page);
    mark("Question", token::Question::default(), page);
    mark("RArrow", token::RArrow::default(), page);
    mark("Semi", token::Semi::default(), page);
    mark("Shl", token::Shl::default(), page);
    mark("ShlEq", token::ShlEq::default(), page);
    mark("Shr", token::Shr::default(), page);
    mark("ShrEq", token::ShrEq::default(), page);
    mark("Slash", token::Slash::default(), page);
    mark("SlashEq", token::SlashEq::default(), page);
    mark("Star", token::Star::default(), page);
    mark("StarEq", token::StarEq::default(), page);
    mark("Tilde", token::Tilde::default(), page);
    line("Underscore", &token::Underscore::default(), page);
}

// Delimiters and invisible groups are shown by a name.
fn groups(page: &mut Page) {
    let paren = token::Paren::default();
    let brace = token::Brace::default();
    let bracket = token::Bracket::default();
    let group = token::Group::default();
    write!(page, "{paren}, {brace}, {bracket}, {group}\n");
}
