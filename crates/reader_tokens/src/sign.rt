//! Punctuations and lifetimes that stand first.

ghost use Rattle.reader_tokens.specs.Tokens.{after, tokens};
ghost use Rattle.reader_tokens.specs.Marks.{no_mark, no_word};
ghost use Rattle.reader_tokens.specs.Nested.{is_nested};
ghost use Rattle.reader_table.specs.Words.{sign_text};
ghost use Rattle.reader_tree.specs.Forms.{mark_of};
ghost use Rattle.proc_macro2.specs.Token as token;
ghost use Rattle.proc_macro2.specs.Token.{Token};
ghost use Rattle.rust_leaf.specs.Leaf.{ident_text, punct_char, punct_spacing};
ghost use Rattle.std.specs.Prelude.{◌==◌, ◌∷◌, ◌≡◌, IfNone, IfSome, IsTrue, List, MatchOption, true};
ghost use Rattle.syn_buffer.specs.Entries.{is_whole};
ghost use Rattle.syn_grammar.specs.Gram.{punct};
ghost use Rattle.syn_grammar.specs.Look.{a_lifetime, past_marks, sees, the_mark};
ghost use Rattle.syn_grammar.specs.Run.{Call, Got, Out, Refused, interp, mark_at};
ghost use Rattle.syn_grammar.specs.Tree.{AMark};

use reader_table::word::Sign;
use rust_leaf::ident::Ident;
use rust_leaf::punct::{Punct, Spacing};
use rust_map::span::Span;
use syn_buffer::entry::Entry;

/// The mark that stands first, and what is left behind it.
#[tactic(auto, using(crate::proofs::Nested::nested_first, crate::proofs::Spaced::whole_behind))]
pub fn first_mark<'a, 'e>(at: &'a [Entry<'e>]) -> Option<(&'e Punct, &'a [Entry<'e>])>
    ensures some { IfSome result (λ r. tokens at.now ≡ token.Punct (punct_char r.0.now) (punct_spacing r.0.now) ∷ tokens
        r.1.now) }
    ensures none { IfNone result (no_mark (tokens at.now)) }
    ensures nested { is_nested at.now ≡ true → IfSome result (λ r. is_nested r.1.now ≡ true) }
    ensures whole { is_whole at.now ≡ true → IfSome result (λ r. is_whole r.1.now ≡ true) }
{
    let Some((first, rest)) = at.split_first() else {
        return None;
    };
    match first {
        Entry::Punct(punct) => Some((punct, rest)),
        Entry::Open(..) => None,
        Entry::Close(..) => None,
        Entry::Ident(_) => None,
        Entry::Literal(_) => None,
    }
}

// Whether the mark is that character.
fn is_mark(punct: &Punct, character: u8) -> bool
    ensures { result ≡ (punct_char punct.now == character) }
{
    punct.as_char() == char::from(character)
}

// What is left behind marks of which all but the last are joint.
#[tactic(auto, using(crate::proofs::Marks::past_laws))]
fn past<'a, 'e>(first: u8, others: &[u8], at: &'a [Entry<'e>]) -> Option<&'a [Entry<'e>]>
    ensures after { after (λ es. es.now) result ≡ past_marks first others.now (tokens at.now) }
    ensures nested { is_nested at.now ≡ true → IfSome result (λ es. is_nested es.now ≡ true) }
{
    let Some((punct, rest)) = first_mark(at) else {
        return None;
    };
    if !is_mark(punct, first) {
        return None;
    }
    let Some((next, more)) = others.split_first() else {
        return Some(rest);
    };
    match punct.spacing() {
        Spacing::Joint => past(*next, more, rest),
        Spacing::Alone => None,
    }
}

/// What is left behind a punctuation that stands first. What follows its last mark isn't looked at.
#[tactic(auto, using(crate::proofs::Marks::none_signed))]
pub fn sign<'a, 'e>(sign: Sign, at: &'a [Entry<'e>]) -> Option<&'a [Entry<'e>]>
    ensures after { after (λ es. es.now) result ≡ the_mark (sign_text sign) (tokens at.now) }
    ensures nested { is_nested at.now ≡ true → IfSome result (λ es. is_nested es.now ≡ true) }
{
    // Most looks end here, before the punctuation's text is looked up.
    if first_mark(at).is_none() {
        return None;
    }
    let (first, others) = sign.text().as_bytes().split_first()?;
    past(*first, others, at)
}

// Whether marks stand first of which all but the last are joint.
#[inline(never)]
#[tactic(auto, using(crate::proofs::Seen::there, crate::proofs::Seen::not_there))]
fn are_marks(first: u8, others: &[u8], at: &[Entry<'_>]) -> bool
    ensures { result ≡ sees (past_marks first others.now) (tokens at.now) }
{
    past(first, others, at).is_some()
}

/// Whether a punctuation stands first. What follows its last mark isn't looked at.
#[inline(always)]
#[tactic(auto, using(crate::proofs::Seen::is_sign_laws))]
pub fn is_sign(sign: Sign, at: &[Entry<'_>]) -> bool
    ensures { result ≡ sees (the_mark (sign_text sign)) (tokens at.now) }
{
    let Some((mark, rest)) = first_mark(at) else {
        return false;
    };
    let Some((first, others)) = sign.text().as_bytes().split_first() else {
        return false;
    };
    if !is_mark(mark, *first) {
        return false;
    }
    let Some((next, more)) = others.split_first() else {
        return true;
    };
    match mark.spacing() {
        Spacing::Joint => are_marks(*next, more, rest),
        Spacing::Alone => false,
    }
}

// How the last of marks of which all but it are joint is spaced, and what is left behind it.
#[tactic(auto, using(crate::proofs::Spaced::spaced_laws))]
fn spaced<'a, 'e>(
    first: u8,
    others: &[u8],
    at: &'a [Entry<'e>],
) -> Option<(Spacing, &'a [Entry<'e>])>
    ensures none { IfNone result (mark_at first others.now (tokens at.now) ≡ Refused) }
    ensures some { IfSome result (λ r. mark_at first others.now (tokens at.now)
        ≡ Got (AMark first others.now r.0) (tokens r.1.now)) }
    ensures whole { is_whole at.now ≡ true → IfSome result (λ r. is_whole r.1.now ≡ true) }
{
    let Some((punct, rest)) = first_mark(at) else {
        return None;
    };
    if !is_mark(punct, first) {
        return None;
    }
    let spacing = punct.spacing();
    match others.split_first() {
        None => Some((spacing, rest)),
        Some((next, more)) => match spacing {
            Spacing::Joint => spaced(*next, more, rest),
            Spacing::Alone => None,
        },
    }
}

/// A punctuation that stands first: how its last mark is spaced, where its first one stands, and what is left behind
/// it. None where it doesn't stand there.
#[tactic(auto, using(crate::proofs::Spaced::marks_laws))]
pub fn marks<'a>(sign: Sign, at: &'a [Entry<'a>]) -> Option<(Spacing, Span, &'a [Entry<'a>])>
    requires { IsTrue (is_whole at.now) }
    ensures mark { MatchOption result
        ((call : Call → List Token → Out) → interp call (punct (sign_text sign)) (tokens at.now) ≡ Refused)
        (λ r. (call : Call → List Token → Out) → interp call (punct (sign_text sign)) (tokens at.now)
        ≡ Got (mark_of (sign_text sign) r.0) (tokens r.2.now)) }
    ensures whole { IfSome result (λ r. IsTrue (is_whole r.2.now)) }
{
    let (first, others) = sign.text().as_bytes().split_first()?;
    let (punct, _) = first_mark(at)?;
    let (spacing, rest) = spaced(*first, others, at)?;
    Some((spacing, punct.span(), rest))
}

/// The word that stands first, and what is left behind it.
#[tactic(auto, using(crate::proofs::Nested::nested_first))]
pub fn first_ident<'a, 'e>(at: &'a [Entry<'e>]) -> Option<(&'e Ident, &'a [Entry<'e>])>
    ensures some { IfSome result (λ r. tokens at.now ≡ token.Ident (ident_text r.0.now) ∷ tokens r.1.now) }
    ensures none { IfNone result (no_word (tokens at.now)) }
    ensures nested { is_nested at.now ≡ true → IfSome result (λ r. is_nested r.1.now ≡ true) }
{
    let Some((first, rest)) = at.split_first() else {
        return None;
    };
    match first {
        Entry::Ident(ident) => Some((ident, rest)),
        Entry::Open(..) => None,
        Entry::Close(..) => None,
        Entry::Punct(_) => None,
        Entry::Literal(_) => None,
    }
}

/// What is left behind a lifetime that stands first: an apostrophe, joint, and a word.
#[tactic(auto, using(crate::proofs::Marks::lifetime_laws))]
pub fn lifetime<'a, 'e>(at: &'a [Entry<'e>]) -> Option<&'a [Entry<'e>]>
    ensures after { after (λ es. es.now) result ≡ a_lifetime (tokens at.now) }
    ensures nested { is_nested at.now ≡ true → IfSome result (λ es. is_nested es.now ≡ true) }
{
    let Some((punct, behind)) = first_mark(at) else {
        return None;
    };
    if !is_mark(punct, b'\'') {
        return None;
    }
    match punct.spacing() {
        Spacing::Joint => {}
        Spacing::Alone => return None,
    }
    let Some((_, rest)) = first_ident(behind) else {
        return None;
    };
    Some(rest)
}
