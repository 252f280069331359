//! Literals that stand first.

ghost use Rattle.reader_tokens.specs.Marks.{no_literal};
ghost use Rattle.reader_tokens.specs.Nested.{is_nested};
ghost use Rattle.reader_tokens.specs.Tokens.{after, tokens};
ghost use Rattle.reader_table.specs.Words.{literals_of};
ghost use Rattle.proc_macro2.specs.Token as token;
ghost use Rattle.rust_leaf.specs.Leaf.{literal_text};
ghost use Rattle.std.specs.Prelude.{◌<◌, ◌≡◌, ◌∷◌, IfNone, IfSome, length, true};
ghost use Rattle.syn_grammar.specs.Look.{a_quoted, past_literals};

use crate::text;
use reader_table::word::Literals;
use rust_leaf::literal::Literal;
use syn_buffer::entry::Entry;

// What is left of entries. It is copied: a reference of its own that a loop sets anew is not covered.
#[derive(Clone, Copy)]
struct Place<'a> {
    entries: &'a [Entry<'a>],
}

/// Whether the text of the literal passes.
pub fn literal(literals: Literals, literal: &Literal) -> bool
    ensures { result ≡ literals_of literals (literal_text literal.now) }
{
    let text = literal.as_str();
    match literals {
        Literals::Any => true,
        Literals::Number => text::is_number(text),
        Literals::Text => text::is_string(text),
        Literals::Index => text::is_index(text),
        Literals::Indices => text::are_indices(text),
        Literals::EndsInDot => text::ends_in_dot(text),
    }
}

// The literal that stands first, and what is left behind it.
#[tactic(auto, using(crate::proofs::Nested::nested_first))]
fn first<'a, 'e>(at: &'a [Entry<'e>]) -> Option<(&'e Literal, &'a [Entry<'e>])>
    ensures some { IfSome result (λ r. tokens at.now ≡ token.Literal (literal_text r.0.now) ∷ tokens r.1.now) }
    ensures none { IfNone result (no_literal (tokens at.now)) }
    ensures nested { is_nested at.now ≡ true → IfSome result (λ r. is_nested r.1.now ≡ true) }
    ensures shorter { IfSome result (λ r. length r.1.now < length at.now) }
{
    let Some((first, rest)) = at.split_first() else {
        return None;
    };
    match first {
        Entry::Literal(literal) => Some((literal, rest)),
        Entry::Open(..) => None,
        Entry::Close(..) => None,
        Entry::Ident(_) => None,
        Entry::Punct(_) => None,
    }
}

/// What is left behind a literal that stands first and passes.
#[tactic(auto, using(crate::proofs::Leaves::none_quoted, crate::proofs::Leaves::quoted_so))]
pub fn first_literal<'a, 'e>(literals: Literals, at: &'a [Entry<'e>]) -> Option<&'a [Entry<'e>]>
    ensures after { after (λ es. es.now) result ≡ a_quoted (literals_of literals) (tokens at.now) }
    ensures nested { is_nested at.now ≡ true → IfSome result (λ es. is_nested es.now ≡ true) }
    ensures shorter { IfSome result (λ es. length es.now < length at.now) }
{
    let (found, rest) = first(at)?;
    if literal(literals, found) {
        Some(rest)
    } else {
        None
    }
}

/// What is left behind literals that stand first and pass, as far as they go.
#[tactic(auto, using(crate::proofs::Leaves::past_stop, crate::proofs::Leaves::past_more))]
pub fn past<'a>(literals: Literals, at: &'a [Entry<'a>]) -> Option<&'a [Entry<'a>]>
    ensures after { after (λ es. es.now) result ≡ past_literals (literals_of literals) (tokens at.now) }
    ensures nested { is_nested at.now ≡ true → IfSome result (λ es. is_nested es.now ≡ true) }
{
    let mut place = Place { entries: at };
    while let Some(behind) = first_literal(literals, place.entries) {
        place = Place { entries: behind };
    }
    Some(place.entries)
}
