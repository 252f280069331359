//! What is said of tokens that could not be read.

ghost use Rattle.reader_rust.specs.Said.{group_name, kind_name, literal_name, message, named, place, quoted};
ghost use Rattle.reader_rust.specs.Said.{thing_text};
ghost use Rattle.reader_rust.specs.Said.{says_end, verdict_name, wanted_text, word_name};
ghost use Rattle.std.specs.Prelude.{◌≡◌, IfOk, Some};
ghost use Rattle.syn_error.specs.Notes.{Says};

use proc_macro2::delimiter::Delimiter;
use reader_steps::refusal::{Wanted, Wrong};
use reader_table::kind::Kind;
use reader_table::op::Verdicts;
use reader_table::word::{Literals, Words};
use rust_map::span::Span;
use std::alloc::{AllocError, Global};
use std::fmt;
use syn_error::Error;

// How what was wanted is shown.
#[derive(Clone, Copy)]
enum Shown {
    // By its text, between quotes.
    Text,
    // By its name.
    Name,
    // By a sentence of its own.
    Sentence,
}

// What was wanted.
#[derive(Clone, Copy)]
struct Thing {
    shown: Shown,
    words: &'static str,
}

// The name of a word that is none of the keywords.
fn word_name(words: Words) -> &'static str
    ensures { result.now ≡ word_name words }
{
    match words {
        Words::PathKeyword => "`self`, `super` or `crate`",
        Words::MacroStart => "`self`, `super` or `crate`",
        Words::Restriction => "`self`, `super` or `crate`",
        Words::Bool => "`true` or `false`",
        Words::Safety => "`unsafe` or `safe`",
        Words::ConstOrMut => "`const` or `mut`",
        Words::ItemWord => "item",
        Words::Keyword(_) => "identifier",
        Words::Any => "identifier",
        Words::Ident => "identifier",
        Words::Name => "identifier",
        Words::PlainName => "identifier",
        Words::UseWord => "identifier",
    }
}

// The name of a literal.
fn literal_name(literals: Literals) -> &'static str
    ensures { result.now ≡ literal_name literals }
{
    match literals {
        Literals::Any => "literal",
        Literals::Text => "string literal",
        Literals::Number => "number",
        Literals::EndsInDot => "number",
        Literals::Index => "index",
        Literals::Indices => "field name or index",
    }
}

// The name of what a verdict refused in its place.
fn verdict_name(verdicts: Verdicts) -> &'static str
    ensures { result.now ≡ verdict_name verdicts }
{
    match verdicts {
        Verdicts::Item(_) | Verdicts::Typed(_) => "item that may stand here",
        Verdicts::SomeBounds => "trait among the bounds",
        Verdicts::FieldPatterns | Verdicts::FieldValues => "`..` behind all fields",
        Verdicts::Arm => "comma behind the arm",
        Verdicts::Parameters => "`self` before all parameters, and `...` behind them",
        Verdicts::FnArg => "parameter without `...`",
        Verdicts::Trait => "alias of traits without `unsafe` and `auto`",
        Verdicts::RestrictedTrait | Verdicts::TraitByItself => "trait that is no alias",
        Verdicts::TraitAliasByItself => "alias of traits",
        Verdicts::Impl => "trait behind `!`",
        Verdicts::Let => "no `else` behind a value that ends in braces",
        Verdicts::OneStatement | Verdicts::Statements => "semicolon behind the statement",
    }
}

// The name of a kind.
fn kind_name(kind: Kind) -> &'static str
    ensures { result.now ≡ kind_name kind }
{
    match kind {
        Kind::AType(_) => "type",
        Kind::Pattern | Kind::SeveralPatterns | Kind::OnePattern => "pattern",
        Kind::AnItem => "item",
        Kind::DeriveInput => "one of: `struct`, `enum`, `union`",
        Kind::AForeignItem => "item of an extern block",
        Kind::ATraitItem => "item of a trait",
        Kind::AnImplItem => "item of an impl",
        Kind::IdentPattern => "pattern that is no macro",
        Kind::ExprBreak => "parentheses round what is labelled",
        Kind::ExprCast => "parentheses round the cast",
        _ => "another token",
    }
}

// The name of a group.
fn group_name(delimiter: Delimiter) -> &'static str
    ensures { result.now ≡ group_name delimiter }
{
    match delimiter {
        Delimiter::Parenthesis => "parentheses",
        Delimiter::Brace => "curly braces",
        Delimiter::Bracket => "square brackets",
        Delimiter::None => "invisible group",
    }
}

impl Thing {
    // What has that name.
    fn named(words: &'static str) -> Thing
        ensures { thing_text result ≡ named words.now }
    {
        Thing {
            shown: Shown::Name,
            words,
        }
    }

    // What has that text.
    fn quoted(words: &'static str) -> Thing
        ensures { thing_text result ≡ quoted words.now }
    {
        Thing {
            shown: Shown::Text,
            words,
        }
    }

    // What is told by that sentence.
    fn told(words: &'static str) -> Thing
        ensures { thing_text result ≡ words.now }
    {
        Thing {
            shown: Shown::Sentence,
            words,
        }
    }

    // What was wanted.
    fn of(wanted: Wanted) -> Thing
        ensures { thing_text result ≡ wanted_text wanted }
    {
        match wanted {
            Wanted::Word(Words::Keyword(keyword)) => Thing::quoted(keyword.text()),
            Wanted::Word(words) => Thing::named(word_name(words)),
            Wanted::Literal(literals) => Thing::named(literal_name(literals)),
            Wanted::Mark(sign) => Thing::quoted(sign.text()),
            Wanted::Separator => Thing::named("separator"),
            Wanted::Lifetime => Thing::named("lifetime"),
            Wanted::Group(delimiter) => Thing::named(group_name(delimiter)),
            Wanted::End => Thing::named("no token"),
            Wanted::Expression => Thing::named("expression"),
            Wanted::Unchained => Thing::told("comparison operators cannot be chained"),
            Wanted::Judged(verdicts) => Thing::named(verdict_name(verdicts)),
            Wanted::Node(kind) => Thing::named(kind_name(kind)),
            Wanted::Nothing => Thing::named("another token"),
        }
    }
}

// Whether the end is told of what was wanted there.
fn says_end(wanted: Wanted) -> bool
    ensures { result ≡ says_end wanted }
{
    !matches!(wanted, Wanted::Mark(_) | Wanted::Unchained)
}

// A message.
#[derive(Clone, Copy)]
struct Message {
    says_end: bool,
    thing: Thing,
}

impl fmt::Display for Message {
    ghost use Rattle.reader_rust.specs.Said.{message_of};
    ghost use Rattle.std.specs.Prelude.{Some};

    ghost output = { λ m. Some (message_of m) };

    fn fmt<W: fmt::Write>(&self, f: &mut fmt::Formatter<W>) -> fmt::Result {
        if self.says_end {
            f.write_str("unexpected end of input, ")?;
        }
        let words = self.thing.words;
        match self.thing.shown {
            Shown::Text => write!(f, "expected `{words}`"),
            Shown::Name => write!(f, "expected {words}"),
            Shown::Sentence => f.write_str(words),
        }
    }
}

/// The error that says what was wanted, and that no token was left, where none was: where the refusal stands, or at the
/// call site, where it stands nowhere.
///
/// # Errors
///
/// Where memory for the words is refused.
pub fn error(alloc: Global, wrong: Wrong) -> Result<Error, AllocError>
    ensures { IfOk result (Says (Some (message wrong.is_end wrong.wanted)) (place wrong.span) (place wrong.span)) }
{
    Error::new(
        alloc,
        wrong.span.unwrap_or(Span::call_site()),
        Message {
            says_end: wrong.is_end && says_end(wrong.wanted),
            thing: Thing::of(wrong.wanted),
        },
    )
}
