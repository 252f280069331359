//! What looks of several steps see, step by step.

ghost use Rattle.reader_tokens.specs.Nested.{is_nested};
ghost use Rattle.reader_tokens.specs.Tokens.{after, tokens};
ghost use Rattle.reader_table.specs.Looks.{sights_of};
ghost use Rattle.std.specs.Prelude.{◌<◌, ◌≡◌, ◌≤◌, IfNone, IfSome, drop, length, take, true};
ghost use Rattle.syn_grammar.specs.Look.{first_seen, repeatedly, the_end};

use reader_table::op::Sight;
use reader_tokens::group::{closes, opening, opens, past_first, whole};
use reader_tokens::leaf::first_word;
use reader_tokens::literals::{first_literal, past};
use reader_tokens::sign::{lifetime, sign};
use syn_buffer::entry::Entry;

// What is left of entries. It is copied: a reference of its own that a loop sets anew is not covered.
#[derive(Clone, Copy)]
struct Place<'a> {
    entries: &'a [Entry<'a>],
}

/// What is left at the end of the entries.
#[tactic(auto, using(crate::proofs::Steps::ends, crate::proofs::Steps::no_end))]
pub fn end<'a>(at: &'a [Entry<'a>]) -> Option<&'a [Entry<'a>]>
    ensures after { after (λ es. es.now) result ≡ the_end (tokens at.now) }
    ensures nested { is_nested at.now ≡ true → IfSome result (λ es. is_nested es.now ≡ true) }
{
    if at.is_empty() { Some(at) } else { None }
}

// What is left behind the one that was seen, or else behind the other.
fn seen_or<'a>(
    seen: Option<&'a [Entry<'a>]>,
    other: Option<&'a [Entry<'a>]>,
) -> Option<&'a [Entry<'a>]>
    requires seen { IfSome seen (λ es. is_nested es.now ≡ true) }
    requires other { IfSome other (λ es. is_nested es.now ≡ true) }
    ensures after { after (λ es. es.now) result
        ≡ first_seen (after (λ es. es.now) seen.entry) (after (λ es. es.now) other.entry) }
    ensures nested { IfSome result (λ es. is_nested es.now ≡ true) }
{
    match seen {
        Some(left) => Some(left),
        None => other,
    }
}

// The first so many of steps, and those behind them.
fn parts(count: usize, sights: &[Sight]) -> Option<(&[Sight], &[Sight])>
    ensures within { IfSome result (λ r. count ≤ length sights.now) }
    ensures first { IfSome result (λ r. r.0.now ≡ take count sights.now) }
    ensures others { IfSome result (λ r. r.1.now ≡ drop count sights.now) }
    ensures shorter { IfSome result (λ r. length r.0.now ≤ length sights.now) }
    ensures rest { IfSome result (λ r. length r.1.now ≤ length sights.now) }
    ensures none { IfNone result (length sights.now < count) }
{
    if count <= sights.len() {
        Some((&sights[..count], &sights[count..]))
    } else {
        None
    }
}

// What is left behind the steps, as often as they are seen one after the other.
#[cycle(see)]
#[tactic(auto, using(crate::proofs::Steps::again_laws))]
fn again<'a>(sights: &[Sight], at: &'a [Entry<'a>]) -> Option<&'a [Entry<'a>]>
    requires { is_nested at.now ≡ true }
    ensures after { after (λ es. es.now) result ≡ repeatedly (sights_of sights.now) (tokens at.now) }
    ensures nested { IfSome result (λ es. is_nested es.now ≡ true) }
{
    let mut place = Place { entries: at };
    let mut turns = at.len();
    while turns > 0 {
        let Some(behind) = see(sights, place.entries) else {
            return Some(place.entries);
        };
        place = Place { entries: behind };
        turns -= 1;
    }
    Some(place.entries)
}

/// What is left behind what the steps see, if they see it.
#[cycle(see)]
#[tactic(auto, using(crate::proofs::Steps::see_laws))]
pub fn see<'a>(sights: &[Sight], at: &'a [Entry<'a>]) -> Option<&'a [Entry<'a>]>
    requires { is_nested at.now ≡ true }
    ensures after { after (λ es. es.now) result ≡ sights_of sights.now (tokens at.now) }
    ensures nested { IfSome result (λ es. is_nested es.now ≡ true) }
{
    let Some((first, rest)) = sights.split_first() else {
        return None;
    };
    match *first {
        Sight::Word(words) => first_word(words, at),
        Sight::Quoted(literals) => first_literal(literals, at),
        Sight::Mark(mark) => sign(mark, at),
        Sight::Lifetime => lifetime(at),
        Sight::Opens(delimiter) => opens(delimiter, at),
        Sight::Opening => opening(at),
        Sight::Closes => closes(at),
        Sight::Group(delimiter) => whole(delimiter, at),
        Sight::PastFirst(character) => past_first(character, at),
        Sight::PastLiterals(literals) => past(literals, at),
        Sight::End => end(at),
        Sight::Nowhere => None,
        Sight::Then(count) => {
            let (one, other) = parts(count, rest)?;
            see(other, see(one, at)?)
        }
        Sight::Or(count) => {
            let (one, other) = parts(count, rest)?;
            match see(one, at) {
                Some(left) => Some(left),
                None => see(other, at),
            }
        }
        Sight::Maybe => seen_or(see(rest, at), Some(at)),
        Sight::No => match see(rest, at) {
            Some(_) => None,
            None => Some(at),
        },
        Sight::Repeatedly => again(rest, at),
    }
}
