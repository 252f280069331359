//! What the first tokens say of a look of several steps, before its steps are gone through.
//!
//! Most looks see nothing, and the first token says so, or the first two.

ghost use Rattle.reader_tokens.specs.Among.{texts};
ghost use Rattle.reader_tokens.specs.Nested.{is_nested};
ghost use Rattle.reader_tokens.specs.Tokens.{tokens};
ghost use Rattle.reader_lookahead.specs.Names.{call_begins, name_goes_on, signature_begins};
ghost use Rattle.reader_lookahead.specs.Words.{begins_pattern, closure_words, may_begin_item};
ghost use Rattle.reader_table.specs.Composites.{composite_of};
ghost use Rattle.reader_table.specs.Words.{keyword_text};
ghost use Rattle.reader_table.specs.declared.composite.Composite.TheVariants.{IdentPatternStands};
ghost use Rattle.std.specs.Prelude.{◌≡◌, [], IfSome, None, Some, false, true};
ghost use Rattle.syn_grammar.specs.Look.{◌then◌, a_quoted, a_word, one_of, past_marks, sees, the_word};
ghost use Rattle.syn_grammar.specs.Look as l;
ghost use Rattle.syn_grammar.specs.Words.{any_text, is_bool};
ghost use Rattle.rust_leaf.specs.Keywords.{is_reserved};

use proc_macro2::delimiter::Delimiter;
use reader_table::composite::Composite;
use reader_table::word::{Keyword, Literals, Words};
use reader_tokens::group::{opening, opens};
use reader_tokens::leaf::{among, first_word, is_keyword, word};
use reader_tokens::literals::first_literal;
use reader_tokens::sign::{first_ident, first_mark};
use syn_buffer::entry::Entry;

// The words that begin a function's signature, perhaps behind `const`.
const FUNCTION_WORDS: [Keyword; 4] = [
    Keyword::Fn,
    Keyword::Async,
    Keyword::Unsafe,
    Keyword::Extern,
];

// The words that begin a trait behind `const`, and an impl.
const TRAIT_WORDS: [Keyword; 3] = [Keyword::Unsafe, Keyword::Auto, Keyword::Trait];

const IMPL_WORDS: [Keyword; 2] = [Keyword::Unsafe, Keyword::Impl];

// The words that begin a closure.
const CLOSURE_WORDS: [Keyword; 5] = [
    Keyword::Static,
    Keyword::Move,
    Keyword::Const,
    Keyword::Async,
    Keyword::For,
];

// Whether a mark of that character stands first.
#[tactic(auto, using(crate::proofs::Glances::no_mark_first, crate::proofs::Glances::mark_first))]
fn marked(character: char, at: &[Entry<'_>]) -> bool
    ensures { result ≡ sees (past_marks character []) (tokens at.now) }
{
    match first_mark(at) {
        Some((mark, _)) => mark.as_char() == character,
        None => false,
    }
}

// Whether such a group opens first.
#[tactic(auto, using(crate::proofs::Steps::there, crate::proofs::Steps::not_there))]
fn opened(delimiter: Delimiter, at: &[Entry<'_>]) -> bool
    requires { is_nested at.now ≡ true }
    ensures { result ≡ sees (l.opens delimiter) (tokens at.now) }
{
    opens(delimiter, at).is_some()
}

// Whether that keyword stands first.
#[inline(always)]
#[tactic(auto, using(crate::proofs::Glances::no_word_first, crate::proofs::Glances::word_first))]
fn named(keyword: Keyword, at: &[Entry<'_>]) -> bool
    ensures { result ≡ sees (the_word (keyword_text keyword)) (tokens at.now) }
{
    match first_ident(at) {
        Some((ident, _)) => is_keyword(ident, keyword),
        None => false,
    }
}

// Whether a word stands first that is no Ident.
#[tactic(auto, using(crate::proofs::Glances::no_word_first, crate::proofs::Glances::word_first))]
fn reserved(at: &[Entry<'_>]) -> bool
    ensures { result ≡ sees (a_word is_reserved) (tokens at.now) }
{
    match first_ident(at) {
        Some((ident, _)) => !word(Words::Ident, ident),
        None => false,
    }
}

// Whether one of these keywords stands first.
#[tactic(auto, using(crate::proofs::Glances::no_word_first, crate::proofs::Glances::word_first))]
fn one_of(keywords: &[Keyword], at: &[Entry<'_>]) -> bool
    ensures { result ≡ sees (one_of (texts keywords.now)) (tokens at.now) }
{
    match first_ident(at) {
        Some((ident, _)) => among(ident, keywords),
        None => false,
    }
}

// Whether that keyword stands first, and one of these behind it.
#[inline(always)]
#[tactic(auto, using(crate::proofs::Glances::one_behind_laws))]
fn one_behind(keyword: Keyword, keywords: &[Keyword], at: &[Entry<'_>]) -> bool
    ensures { result ≡ sees (the_word (keyword_text keyword) then one_of (texts keywords.now)) (tokens at.now) }
{
    match first_ident(at) {
        Some((ident, rest)) => is_keyword(ident, keyword) && one_of(keywords, rest),
        None => false,
    }
}

// Whether a signature may begin there, by its first word or the first two.
#[tactic(auto, using(crate::proofs::Sees::either, crate::proofs::Sees::neither))]
fn begins_signature(at: &[Entry<'_>]) -> bool
    ensures { result ≡ sees signature_begins (tokens at.now) }
{
    one_of(&FUNCTION_WORDS, at) || one_behind(Keyword::Const, &FUNCTION_WORDS, at)
}

// Whether a word that begins a closure stands first.
#[tactic(auto, using(crate::proofs::Glances::no_word_first, crate::proofs::Glances::word_first))]
fn begins_closure(at: &[Entry<'_>]) -> bool
    ensures { result ≡ sees (one_of closure_words) (tokens at.now) }
{
    match first_ident(at) {
        Some((ident, _)) => among(ident, &CLOSURE_WORDS),
        None => false,
    }
}

// Whether a word that may begin an item stands first.
#[tactic(auto, using(crate::proofs::Glances::no_word_first, crate::proofs::Glances::word_first))]
fn begins_item(at: &[Entry<'_>]) -> bool
    ensures { result ≡ sees (a_word may_begin_item) (tokens at.now) }
{
    match first_ident(at) {
        Some((ident, _)) => {
            !word(Words::Ident, ident)
                || among(ident, &[Keyword::Union, Keyword::Auto, Keyword::Default])
        }
        None => false,
    }
}

// Whether a macro's path may begin there, by its first name and the mark behind that.
#[tactic(auto, using(crate::proofs::Glances::begins_call_laws))]
fn begins_call(at: &[Entry<'_>]) -> bool
    ensures { result ≡ sees call_begins (tokens at.now) }
{
    match first_ident(at) {
        Some((_, rest)) => marked(':', rest) || marked('!', rest),
        None => marked(':', at),
    }
}

// Whether a word stands first, and a mark of that character behind it.
#[tactic(auto, using(crate::proofs::Glances::no_word_before, crate::proofs::Glances::word_before))]
fn word_and(character: char, at: &[Entry<'_>]) -> bool
    ensures { result ≡ sees (a_word any_text then past_marks character []) (tokens at.now) }
{
    match first_ident(at) {
        Some((_, rest)) => marked(character, rest),
        None => false,
    }
}

// Whether a literal stands first.
#[tactic(auto, using(crate::proofs::Steps::there, crate::proofs::Steps::not_there))]
fn quoted(at: &[Entry<'_>]) -> bool
    ensures { result ≡ sees (a_quoted any_text) (tokens at.now) }
{
    first_literal(Literals::Any, at).is_some()
}

// Whether `true` or `false` stands first.
#[tactic(auto, using(crate::proofs::Glances::no_word_first, crate::proofs::Glances::word_first))]
fn is_bool(at: &[Entry<'_>]) -> bool
    ensures { result ≡ sees (a_word is_bool) (tokens at.now) }
{
    match first_ident(at) {
        Some((ident, _)) => word(Words::Bool, ident),
        None => false,
    }
}

// Whether a name in a pattern may go on there.
#[tactic(auto, using(crate::proofs::Glances::goes_on_laws))]
fn goes_on(at: &[Entry<'_>]) -> bool
    requires { is_nested at.now ≡ true }
    ensures { result ≡ sees name_goes_on (tokens at.now) }
{
    opening(at).is_some() || marked(':', at) || marked('.', at)
}

// What is left behind a name that is a pattern by itself, where its word and the token behind it say so.
fn lone_name<'a>(at: &'a [Entry<'a>]) -> Option<&'a [Entry<'a>]>
    requires { is_nested at.now ≡ true }
    ensures some { IfSome result (λ es. composite_of IdentPatternStands (tokens at.now) ≡ Some (tokens es.now)) }
    ensures nested { IfSome result (λ es. is_nested es.now ≡ true) }
{
    let (ident, rest) = first_ident(at)?;
    if word(Words::Ident, ident) && !goes_on(rest) {
        Some(rest)
    } else {
        None
    }
}

/// What is left behind the first word, where it says, perhaps with the token behind it, that the look sees just that
/// word.
#[tactic(auto, using(crate::proofs::Glances::first_alone_laws))]
pub fn first_alone<'a>(composite: Composite, at: &'a [Entry<'a>]) -> Option<&'a [Entry<'a>]>
    requires { is_nested at.now ≡ true }
    ensures some { IfSome result (λ es. composite_of composite (tokens at.now) ≡ Some (tokens es.now)) }
    ensures nested { IfSome result (λ es. is_nested es.now ≡ true) }
{
    match composite {
        Composite::IdentPatternStands => lone_name(at),
        Composite::LetBehindAttributes => first_word(Words::Keyword(Keyword::Let), at),
        Composite::SignatureStands => first_word(Words::Keyword(Keyword::Fn), at),
        _ => None,
    }
}

// Whether a word stands first that may begin a name in a pattern.
#[tactic(auto, using(crate::proofs::Glances::no_word_first, crate::proofs::Glances::word_first))]
fn begins_name(at: &[Entry<'_>]) -> bool
    ensures { result ≡ sees (a_word begins_pattern) (tokens at.now) }
{
    match first_ident(at) {
        Some((ident, _)) => {
            word(Words::Ident, ident) || among(ident, &[Keyword::Ref, Keyword::Mut])
        }
        None => false,
    }
}

// Whether a look at a pattern or at a part of an item may see something, as far as the first token says.
fn may_stand(composite: Composite, at: &[Entry<'_>]) -> bool
    requires { is_nested at.now ≡ true }
    ensures { result ≡ false → composite_of composite (tokens at.now) ≡ None }
{
    match composite {
        Composite::IdentPatternStands => begins_name(at),
        Composite::RangeToPatternStands => marked('.', at),
        Composite::Dots => marked('.', at),
        Composite::LiteralPatternStands => quoted(at) || is_bool(at) || marked('-', at),
        Composite::AnyRestriction => opened(Delimiter::Parenthesis, at),
        Composite::LifetimeBehindAttributes => marked('\'', at) || marked('#', at),
        Composite::ConstBehindAttributes => named(Keyword::Const, at) || marked('#', at),
        Composite::NotBeforeBrace => marked('!', at),
        Composite::DefaultStands => named(Keyword::Default, at),
        _ => true,
    }
}

// Whether a look at a form of expressions may see something, as far as the first tokens say.
fn may_begin(composite: Composite, at: &[Entry<'_>]) -> bool
    requires { is_nested at.now ≡ true }
    ensures { result ≡ false → composite_of composite (tokens at.now) ≡ None }
{
    match composite {
        Composite::LabelledBlock => opened(Delimiter::Brace, at) || marked('\'', at),
        Composite::LabelledLoop => named(Keyword::Loop, at) || marked('\'', at),
        Composite::LabelledWhile => named(Keyword::While, at) || marked('\'', at),
        Composite::LabelledFor => named(Keyword::For, at) || marked('\'', at),
        Composite::TypedClosureStands => begins_closure(at) || marked('|', at),
        Composite::ClosureStands => begins_closure(at) || marked('|', at),
        Composite::RepeatStands => opened(Delimiter::Bracket, at),
        Composite::RawAddrStands => marked('&', at),
        Composite::MacroCallStands => begins_call(at),
        _ => may_stand(composite, at),
    }
}

/// Whether the look may see something, as far as the first tokens say.
pub fn may_see(composite: Composite, at: &[Entry<'_>]) -> bool
    requires { is_nested at.now ≡ true }
    ensures { result ≡ false → composite_of composite (tokens at.now) ≡ None }
{
    match composite {
        Composite::Turbofish => marked(':', at),
        Composite::ArgumentsStand => marked(':', at) || marked('<', at),
        Composite::ALiteral => quoted(at) || is_bool(at),
        Composite::IdentThenEq => word_and('=', at),
        Composite::NamedArgument => word_and(':', at),
        Composite::FnPtrStands => reserved(at),
        Composite::Vert => marked('|', at),
        Composite::InnerAttribute => marked('#', at),
        Composite::ReceiverStands => {
            named(Keyword::Mut, at) || named(Keyword::SelfValue, at) || marked('&', at)
        }
        Composite::IdentThenLt => word_and('<', at),
        Composite::SignatureStands => begins_signature(at),
        Composite::ExternCrate => named(Keyword::Extern, at),
        Composite::ConstTrait => one_behind(Keyword::Const, &TRAIT_WORDS, at),
        Composite::ConstImpl => one_behind(Keyword::Const, &IMPL_WORDS, at),
        Composite::UnsafeExtern => named(Keyword::Unsafe, at),
        Composite::UnsafeMod => named(Keyword::Unsafe, at),
        Composite::UnsafeImpl => named(Keyword::Unsafe, at),
        Composite::UnionIdent => named(Keyword::Union, at),
        Composite::RestrictedTraitStands => named(Keyword::Impl, at),
        Composite::MacroItemBehindAttributes => begins_call(at) || marked('#', at),
        Composite::MacroStatementBehindAttributes => begins_call(at) || marked('#', at),
        Composite::LetBehindAttributes => named(Keyword::Let, at) || marked('#', at),
        Composite::ItemBehindAttributes => begins_item(at) || marked('#', at),
        _ => may_begin(composite, at),
    }
}
