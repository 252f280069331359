//! What the first tokens tell of a look of several steps: whether it sees what it wants.

ghost use Rattle.reader_tokens.specs.Nested.{is_nested};
ghost use Rattle.reader_tokens.specs.Tokens.{tokens};
ghost use Rattle.reader_table.specs.Composites.{composite_of};
ghost use Rattle.reader_lookahead.specs.Words.{pointer_words};
ghost use Rattle.std.specs.Prelude.{◌≡◌, IfSome, true};
ghost use Rattle.syn_grammar.specs.Kind.{InType};
ghost use Rattle.syn_grammar.specs.Look.{◌or◌, ◌then◌, no, one_of, sees};
ghost use Rattle.syn_grammar.specs.Paths.{arguments_stand, turbofish};
ghost use Rattle.syn_grammar.specs.Say.{brace, bracket, marks, parenthesis};
ghost use Rattle.syn_grammar.specs.Types.{bound_stands};

use crate::glance::first_alone;
use proc_macro2::delimiter::Delimiter;
use reader_table::composite::Composite;
use reader_table::word::{Keyword, Sign, Words};
use reader_tokens::group::opens_first;
use reader_tokens::leaf::{among, is_word};
use reader_tokens::sign::{first_ident, is_sign, lifetime, sign};
use syn_buffer::entry::Entry;

// The words that begin a function pointer.
const POINTER_WORDS: [Keyword; 4] = [Keyword::For, Keyword::Unsafe, Keyword::Extern, Keyword::Fn];

// Whether `::` and then `<` stand there.
#[tactic(auto, using(crate::proofs::Sees::then_none, crate::proofs::Sees::then_so))]
fn is_turbofish(at: &[Entry<'_>]) -> bool
    ensures { result ≡ sees turbofish (tokens at.now) }
{
    match sign(Sign::PathSep, at) {
        Some(rest) => is_sign(Sign::Lt, rest),
        None => false,
    }
}

// Whether a `<` that begins no `<=` stands there.
#[tactic(auto, using(crate::proofs::Sees::is_less_laws))]
fn is_less(at: &[Entry<'_>]) -> bool
    ensures { result ≡ sees (no (marks "<=") then marks "<") (tokens at.now) }
{
    is_sign(Sign::Lt, at) && !is_sign(Sign::Le, at)
}

// Whether arguments of a path in a type stand there.
#[tactic(auto, using(crate::proofs::Sees::second, crate::proofs::Sees::no_second))]
fn are_arguments(at: &[Entry<'_>]) -> bool
    ensures { result ≡ sees (arguments_stand InType) (tokens at.now) }
{
    is_less(at) || is_turbofish(at)
}

// Whether a bound stands there.
#[tactic(auto, using(crate::proofs::Sees::is_bound_laws, crate::proofs::Steps::there_laws))]
fn is_bound(at: &[Entry<'_>]) -> bool
    ensures { result ≡ sees bound_stands (tokens at.now) }
{
    lifetime(at).is_some()
        || is_sign(Sign::Question, at)
        || is_word(Words::Keyword(Keyword::For), at)
        || is_sign(Sign::PathSep, at)
        || is_word(Words::Name, at)
}

// Whether a word that begins a function pointer stands first.
#[tactic(auto, using(crate::proofs::Glances::no_word_first, crate::proofs::Glances::word_first))]
fn begins_pointer(at: &[Entry<'_>]) -> bool
    ensures { result ≡ sees (one_of pointer_words) (tokens at.now) }
{
    match first_ident(at) {
        Some((ident, _)) => among(ident, &POINTER_WORDS),
        None => false,
    }
}

// Whether a group of any visible kind opens first.
#[tactic(auto, using(crate::proofs::Sees::either, crate::proofs::Sees::neither))]
fn is_visible(at: &[Entry<'_>]) -> bool
    ensures { result ≡ sees (parenthesis or brace or bracket) (tokens at.now) }
{
    opens_first(Delimiter::Parenthesis, at)
        || opens_first(Delimiter::Brace, at)
        || opens_first(Delimiter::Bracket, at)
}

/// Whether the look sees what it wants, where the first tokens tell.
#[tactic(auto, using(crate::proofs::Sees::pointer, crate::proofs::Sees::alone))]
pub fn told(composite: Composite, at: &[Entry<'_>]) -> Option<bool>
    requires { is_nested at.now ≡ true }
    ensures { IfSome result (λ b. b ≡ sees (composite_of composite) (tokens at.now)) }
{
    match composite {
        Composite::Turbofish => Some(is_turbofish(at)),
        Composite::ArgumentsStand => Some(are_arguments(at)),
        Composite::BoundStands => Some(is_bound(at)),
        Composite::FnPtrStands => Some(begins_pointer(at)),
        Composite::AnyDelimiter => Some(is_visible(at)),
        _ => match first_alone(composite, at) {
            Some(_) => Some(true),
            None => None,
        },
    }
}
