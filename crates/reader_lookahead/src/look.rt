//! Looks, and the tests of the table.

ghost use Rattle.reader_tokens.specs.Nested.{is_nested};
ghost use Rattle.reader_tokens.specs.Tokens.{after, tokens};
ghost use Rattle.reader_table.specs.Composites.{composite_of};
ghost use Rattle.reader_table.specs.Looks.{look_of, test_of};
ghost use Rattle.std.specs.Prelude.{◌≡◌, IfSome, true};
ghost use Rattle.syn_grammar.specs.Look.{sees};

use crate::glance::{first_alone, may_see};
use crate::sights::{end, see};
use crate::told::told;
use reader_table::composite::Composite;
use reader_table::op::{Look, Test};
use reader_table::sights::sights;
use reader_tokens::group::{opens, opens_first};
use reader_tokens::leaf::{first_word, is_word};
use reader_tokens::literals::first_literal;
use reader_tokens::sign::{is_sign, lifetime, sign};
use syn_buffer::entry::Entry;

// What is left behind what a look of several steps sees, if it sees it: its steps are gone through where the first
// tokens don't say.
fn several<'a>(composite: Composite, at: &'a [Entry<'a>]) -> Option<&'a [Entry<'a>]>
    requires { is_nested at.now ≡ true }
    ensures after { after (λ es. es.now) result ≡ composite_of composite (tokens at.now) }
    ensures nested { IfSome result (λ es. is_nested es.now ≡ true) }
{
    if !may_see(composite, at) {
        return None;
    }
    match first_alone(composite, at) {
        Some(left) => Some(left),
        None => see(sights(composite), at),
    }
}

/// What is left behind what is looked for, if it is there.
pub fn past<'a>(look: Look, at: &'a [Entry<'a>]) -> Option<&'a [Entry<'a>]>
    requires { is_nested at.now ≡ true }
    ensures after { after (λ es. es.now) result ≡ look_of look (tokens at.now) }
    ensures nested { IfSome result (λ es. is_nested es.now ≡ true) }
{
    match look {
        Look::Word(words) => first_word(words, at),
        Look::Quoted(literals) => first_literal(literals, at),
        Look::Mark(mark) => sign(mark, at),
        Look::Lifetime => lifetime(at),
        Look::Opens(delimiter) => opens(delimiter, at),
        Look::End => end(at),
        Look::Nowhere => None,
        Look::Composite(composite) => several(composite, at),
    }
}

// Whether a look of several steps sees what it wants.
#[inline(never)]
#[tactic(auto, using(crate::proofs::Sees::none, crate::proofs::Steps::there, crate::proofs::Steps::not_there))]
fn sees_several(composite: Composite, at: &[Entry<'_>]) -> bool
    requires { is_nested at.now ≡ true }
    ensures { result ≡ sees (composite_of composite) (tokens at.now) }
{
    if !may_see(composite, at) {
        return false;
    }
    match told(composite, at) {
        Some(is_seen) => is_seen,
        None => see(sights(composite), at).is_some(),
    }
}

/// Whether what is looked for is there.
#[inline(always)]
#[tactic(auto, using(crate::proofs::Steps::there, crate::proofs::Steps::not_there))]
pub fn look(look: Look, at: &[Entry<'_>]) -> bool
    requires { is_nested at.now ≡ true }
    ensures { result ≡ sees (look_of look) (tokens at.now) }
{
    match look {
        Look::Word(words) => is_word(words, at),
        Look::Quoted(literals) => first_literal(literals, at).is_some(),
        Look::Mark(mark) => is_sign(mark, at),
        Look::Lifetime => lifetime(at).is_some(),
        Look::Opens(delimiter) => opens_first(delimiter, at),
        Look::End => end(at).is_some(),
        Look::Nowhere => false,
        Look::Composite(composite) => sees_several(composite, at),
    }
}

/// Whether the test passes.
#[inline(always)]
pub fn passes(test: Test, at: &[Entry<'_>]) -> bool
    requires { is_nested at.now ≡ true }
    ensures { result ≡ test_of test (tokens at.now) }
{
    match test {
        Test::Sees(wanted) => look(wanted, at),
        Test::Lacks(unwanted) => !look(unwanted, at),
    }
}
