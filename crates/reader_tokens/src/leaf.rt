//! Words, literals, punctuations and lifetimes that stand first.

ghost use Rattle.reader_tokens.specs.Tokens.{after, tokens};
ghost use Rattle.reader_tokens.specs.Among.{texts};
ghost use Rattle.reader_tokens.specs.Nested.{is_nested};
ghost use Rattle.reader_table.specs.Words.{keyword_text, words_of};
ghost use Rattle.rust_leaf.specs.Leaf.{ident_text};
ghost use Rattle.std.specs.Prelude.{◌≡◌, IfSome, codes, true};
ghost use Rattle.std.specs.Str.{chars};
ghost use Rattle.syn_grammar.specs.Look.{a_word, sees};
ghost use Rattle.syn_grammar.specs.Words.{is_bool, is_ident, is_name, is_path_keyword, is_plain_name};
ghost use Rattle.rust_leaf.specs.Keywords.{is_among};
ghost use Rattle.rust_leaf.specs.Keywords.{same_text};

use crate::reserved::is_reserved;
use crate::sign::first_ident;
use reader_table::word::{Keyword, Words};
use rust_leaf::ident::Ident;
use syn_buffer::entry::Entry;

// Whether the word may be that text, by its first byte and its length: they tell most apart.
#[inline(always)]
fn may_be(ident: &Ident, text: &str) -> bool
    ensures { ident_text ident.now ≡ chars text.now → result ≡ true }
{
    match text.as_bytes() {
        [] => true,
        [first, ..] => ident.first_byte() == *first && ident.len() == text.len(),
    }
}

// Whether the word is that text, byte by byte.
#[inline(never)]
#[tactic(auto, using(crate::proofs::Texts::compared))]
fn is_throughout(ident: &Ident, text: &str) -> bool
    ensures { result ≡ same_text (chars text.now) (ident_text ident.now) }
{
    ident.is_text(text)
}

// Whether the word is that text.
#[inline(always)]
#[tactic(auto, using(crate::proofs::Texts::another))]
fn is(ident: &Ident, text: &str) -> bool
    ensures { result ≡ same_text (chars text.now) (ident_text ident.now) }
{
    may_be(ident, text) && is_throughout(ident, text)
}

/// Whether the word is that keyword.
#[inline(always)]
#[tactic(auto, using(crate::proofs::Texts::is_word))]
pub fn is_keyword(ident: &Ident, keyword: Keyword) -> bool
    ensures { result ≡ same_text (keyword_text keyword) (ident_text ident.now) }
{
    is(ident, keyword.text())
}

// The same, of a keyword that isn't known before.
#[inline(never)]
fn is_any_keyword(ident: &Ident, keyword: Keyword) -> bool
    ensures { result ≡ same_text (keyword_text keyword) (ident_text ident.now) }
{
    is_keyword(ident, keyword)
}

/// Whether the word is one of these keywords.
pub fn among(ident: &Ident, keywords: &[Keyword]) -> bool
    ensures { result ≡ is_among (texts keywords.now) (ident_text ident.now) }
{
    match keywords {
        [] => false,
        [first, others @ ..] => is_keyword(ident, *first) || among(ident, others),
    }
}

// Whether the word is no reserved one.
fn is_ident(ident: &Ident) -> bool
    ensures { result ≡ is_ident (ident_text ident.now) }
{
    !is_reserved(ident)
}

// Whether the word is `self`, `super` or `crate`.
#[tactic(auto, unfolding(syn_grammar::specs::Words::is_path_keyword))]
fn is_path_keyword(ident: &Ident) -> bool
    ensures { result ≡ is_path_keyword (ident_text ident.now) }
{
    among(ident, &[Keyword::SelfValue, Keyword::Super, Keyword::Crate])
}

// Whether the word is a name of a path.
#[tactic(auto, unfolding(syn_grammar::specs::Words::is_name))]
fn is_name(ident: &Ident) -> bool
    ensures { result ≡ is_name (ident_text ident.now) }
{
    is_ident(ident) || is_path_keyword(ident) || is_keyword(ident, Keyword::SelfType)
}

// Whether the word is a name of a path that takes arguments.
#[tactic(auto, unfolding(syn_grammar::specs::Words::is_plain_name))]
fn is_plain_name(ident: &Ident) -> bool
    ensures { result ≡ is_plain_name (ident_text ident.now) }
{
    is_ident(ident) || is_keyword(ident, Keyword::SelfType)
}

// Whether the word is `true`.
#[tactic(auto, using(crate::proofs::Texts::true_chars))]
fn is_true(ident: &Ident) -> bool
    ensures { result ≡ same_text (codes "true") (ident_text ident.now) }
{
    is(ident, "true")
}

// Whether the word is `false`.
#[tactic(auto, using(crate::proofs::Texts::false_chars))]
fn is_false(ident: &Ident) -> bool
    ensures { result ≡ same_text (codes "false") (ident_text ident.now) }
{
    is(ident, "false")
}

// Whether the word is `true` or `false`.
#[tactic(auto, unfolding(syn_grammar::specs::Words::is_bool))]
fn is_bool(ident: &Ident) -> bool
    ensures { result ≡ is_bool (ident_text ident.now) }
{
    is_true(ident) || is_false(ident)
}

// The words that begin a branch of a use, besides identifiers.
const USE_WORDS: [Keyword; 4] = [
    Keyword::SelfValue,
    Keyword::Super,
    Keyword::Crate,
    Keyword::Try,
];

// The words that begin an item.
const ITEM_WORDS: [Keyword; 11] = [
    Keyword::Extern,
    Keyword::Use,
    Keyword::Fn,
    Keyword::Mod,
    Keyword::Type,
    Keyword::Struct,
    Keyword::Enum,
    Keyword::Trait,
    Keyword::Impl,
    Keyword::Macro,
    Keyword::Pub,
];

/// Whether the text of the word passes.
pub fn word(words: Words, ident: &Ident) -> bool
    ensures { result ≡ words_of words (ident_text ident.now) }
{
    match words {
        Words::Keyword(keyword) => is_keyword(ident, keyword),
        Words::Any => true,
        Words::Ident => is_ident(ident),
        Words::Name => is_name(ident),
        Words::PlainName => is_plain_name(ident),
        Words::PathKeyword => is_path_keyword(ident),
        Words::Bool => is_bool(ident),
        Words::Restriction => among(ident, &[Keyword::Crate, Keyword::SelfValue, Keyword::Super]),
        Words::MacroStart => among(ident, &[Keyword::SelfValue, Keyword::Super, Keyword::Crate]),
        Words::UseWord => among(ident, &USE_WORDS),
        Words::Safety => among(ident, &[Keyword::Unsafe, Keyword::Safe]),
        Words::ConstOrMut => among(ident, &[Keyword::Const, Keyword::Mut]),
        Words::ItemWord => among(ident, &ITEM_WORDS),
    }
}

/// Whether a word stands first and passes.
#[inline(always)]
#[tactic(auto, using(crate::proofs::Seen::no_word, crate::proofs::Seen::word))]
pub fn is_word(words: Words, at: &[Entry<'_>]) -> bool
    ensures { result ≡ sees (a_word (words_of words)) (tokens at.now) }
{
    let Some((ident, _)) = first_ident(at) else {
        return false;
    };
    match words {
        Words::Keyword(keyword) => is_any_keyword(ident, keyword),
        _ => word(words, ident),
    }
}

/// What is left behind a word that stands first and passes.
#[tactic(auto, using(crate::proofs::Leaves::none_word, crate::proofs::Leaves::word_so))]
pub fn first_word<'a, 'e>(words: Words, at: &'a [Entry<'e>]) -> Option<&'a [Entry<'e>]>
    ensures after { after (λ es. es.now) result ≡ a_word (words_of words) (tokens at.now) }
    ensures nested { is_nested at.now ≡ true → IfSome result (λ es. is_nested es.now ≡ true) }
{
    let (ident, rest) = first_ident(at)?;
    if word(words, ident) { Some(rest) } else { None }
}
