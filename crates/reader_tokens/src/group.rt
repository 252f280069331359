//! Groups that stand first.

ghost use Rattle.reader_tokens.specs.Groups.{no_opening};
ghost use Rattle.reader_tokens.specs.Nested.{is_nested};
ghost use Rattle.reader_tokens.specs.Tokens.{after, tokens};
ghost use Rattle.proc_macro2.specs.Token as token;
ghost use Rattle.std.specs.Prelude.{◌+◌, ◌<◌, ◌≤◌, ◌∷◌, ◌≡◌, [], IfNone, IfSome, Some, length, true, suc, drop};
ghost use Rattle.syn_buffer.specs.Entries.{is_whole};
ghost use Rattle.syn_grammar.specs.Look.{a_group, closes, opening, opens, past_closing, past_first, past_marks, sees};
ghost use Rattle.proc_macro2.specs.Groups.{same_delimiter};

use crate::sign::first_mark;
use proc_macro2::delimiter::Delimiter;
use syn_buffer::entry::Entry;

// Whether two delimiters are one.
fn is_same(a: Delimiter, b: Delimiter) -> bool
    ensures { result ≡ same_delimiter a b }
{
    match a {
        Delimiter::Parenthesis => match b {
            Delimiter::Parenthesis => true,
            Delimiter::Brace => false,
            Delimiter::Bracket => false,
            Delimiter::None => false,
        },
        Delimiter::Brace => match b {
            Delimiter::Parenthesis => false,
            Delimiter::Brace => true,
            Delimiter::Bracket => false,
            Delimiter::None => false,
        },
        Delimiter::Bracket => match b {
            Delimiter::Parenthesis => false,
            Delimiter::Brace => false,
            Delimiter::Bracket => true,
            Delimiter::None => false,
        },
        Delimiter::None => match b {
            Delimiter::Parenthesis => false,
            Delimiter::Brace => false,
            Delimiter::Bracket => false,
            Delimiter::None => true,
        },
    }
}

// The group that opens first: its delimiter, how many entries stand inside, and what is left behind the mark.
#[tactic(auto, using(crate::proofs::Groups::opened_nested, crate::proofs::Groups::opened_within))]
fn first_opening<'a, 'e>(at: &'a [Entry<'e>]) -> Option<(Delimiter, usize, &'a [Entry<'e>])>
    requires { is_nested at.now ≡ true }
    ensures some { IfSome result (λ r. tokens at.now ≡ token.Opens r.0 ∷ tokens r.2.now) }
    ensures within { IfSome result (λ r. r.1 < length r.2.now) }
    ensures past { IfSome result (λ r. past_closing 0 (tokens r.2.now) ≡ Some (tokens (drop (suc r.1) r.2.now))) }
    ensures nested { IfSome result (λ r. is_nested r.2.now ≡ true) }
    ensures none { IfNone result (no_opening (tokens at.now)) }
{
    let Some((first, rest)) = at.split_first() else {
        return None;
    };
    match first {
        Entry::Open(delimiter, _, count) => Some((*delimiter, *count, rest)),
        Entry::Close(..) => None,
        Entry::Ident(_) => None,
        Entry::Punct(_) => None,
        Entry::Literal(_) => None,
    }
}

/// What is left behind the mark that opens such a group. Nothing is known of its inside.
#[tactic(auto, using(crate::proofs::Openings::none_opens, crate::proofs::Openings::opens_so))]
pub fn opens<'a, 'e>(delimiter: Delimiter, at: &'a [Entry<'e>]) -> Option<&'a [Entry<'e>]>
    requires { is_nested at.now ≡ true }
    ensures after { after (λ es. es.now) result ≡ opens delimiter (tokens at.now) }
    ensures nested { IfSome result (λ es. is_nested es.now ≡ true) }
{
    let (found, _, rest) = first_opening(at)?;
    if is_same(found, delimiter) {
        Some(rest)
    } else {
        None
    }
}

// The delimiter of the group that opens first, and what is left behind the mark.
#[inline(always)]
fn first_delimiter<'a, 'e>(at: &'a [Entry<'e>]) -> Option<(Delimiter, &'a [Entry<'e>])>
    ensures some { IfSome result (λ r. tokens at.now ≡ token.Opens r.0 ∷ tokens r.1.now) }
    ensures none { IfNone result (no_opening (tokens at.now)) }
{
    let Some((first, rest)) = at.split_first() else {
        return None;
    };
    match first {
        Entry::Open(delimiter, ..) => Some((*delimiter, rest)),
        Entry::Close(..) => None,
        Entry::Ident(_) => None,
        Entry::Punct(_) => None,
        Entry::Literal(_) => None,
    }
}

/// Whether the mark that opens such a group stands first.
#[inline(always)]
#[tactic(auto, using(crate::proofs::Seen::no_group, crate::proofs::Seen::group))]
pub fn opens_first(delimiter: Delimiter, at: &[Entry<'_>]) -> bool
    ensures { result ≡ sees (opens delimiter) (tokens at.now) }
{
    match first_delimiter(at) {
        Some((found, _)) => is_same(found, delimiter),
        None => false,
    }
}

/// What is left behind a whole group that stands first.
#[tactic(auto, using(crate::proofs::Openings::whole_laws, crate::proofs::Nested::nested_behind))]
pub fn whole<'a, 'e>(delimiter: Delimiter, at: &'a [Entry<'e>]) -> Option<&'a [Entry<'e>]>
    requires { is_nested at.now ≡ true }
    ensures after { after (λ es. es.now) result ≡ a_group delimiter (tokens at.now) }
    ensures nested { IfSome result (λ es. is_nested es.now ≡ true) }
{
    let (found, count, rest) = first_opening(at)?;
    if is_same(found, delimiter) {
        Some(&rest[count + 1..])
    } else {
        None
    }
}

/// What is left behind a mark that opens a group of any kind.
#[tactic(auto, using(crate::proofs::Openings::none_opening, crate::proofs::Openings::is_opening))]
pub fn opening<'a, 'e>(at: &'a [Entry<'e>]) -> Option<&'a [Entry<'e>]>
    requires { is_nested at.now ≡ true }
    ensures after { after (λ es. es.now) result ≡ opening (tokens at.now) }
    ensures nested { IfSome result (λ es. is_nested es.now ≡ true) }
{
    let (_, _, rest) = first_opening(at)?;
    Some(rest)
}

/// What is left behind a mark that closes a group.
#[tactic(auto, using(crate::proofs::Nested::nested_first))]
pub fn closes<'a, 'e>(at: &'a [Entry<'e>]) -> Option<&'a [Entry<'e>]>
    ensures after { after (λ es. es.now) result ≡ closes (tokens at.now) }
    ensures nested { is_nested at.now ≡ true → IfSome result (λ es. is_nested es.now ≡ true) }
{
    let Some((first, rest)) = at.split_first() else {
        return None;
    };
    match first {
        Entry::Close(..) => Some(rest),
        Entry::Open(..) => None,
        Entry::Ident(_) => None,
        Entry::Punct(_) => None,
        Entry::Literal(_) => None,
    }
}

// What is left behind a mark of that character that stands first.
#[tactic(auto, using(crate::proofs::Seeking::none_here, crate::proofs::Seeking::mark_here))]
fn that_mark<'a, 'e>(character: u32, at: &'a [Entry<'e>]) -> Option<&'a [Entry<'e>]>
    ensures after { after (λ es. es.now) result ≡ past_marks character [] (tokens at.now) }
    ensures nested { is_nested at.now ≡ true → IfSome result (λ es. is_nested es.now ≡ true) }
{
    let (punct, rest) = first_mark(at)?;
    if punct.as_char() as u32 == character {
        Some(rest)
    } else {
        None
    }
}

// How many entries the search for such a mark passes at once, one or those of a whole group: none where it ends.
#[tactic(auto, using(crate::proofs::Seeking::passes_laws, crate::proofs::Groups::opened_within))]
fn passes(character: u32, at: &[Entry]) -> Option<usize>
    requires { is_nested at.now ≡ true }
    ensures on { IfSome result (λ n. past_first character 0 (tokens at.now)
        ≡ past_first character 0 (tokens (drop n at.now))) }
    ensures some { IfSome result (λ n. 0 < n) }
    ensures within { IfSome result (λ n. n ≤ length at.now) }
    ensures ends { IfNone result (past_first character 0 (tokens at.now) ≡ past_marks character [] (tokens at.now)) }
{
    let (first, _) = at.split_first()?;
    match first {
        Entry::Open(_, _, count) => Some(*count + 2),
        Entry::Close(..) => None,
        Entry::Ident(_) => Some(1),
        Entry::Literal(_) => Some(1),
        Entry::Punct(punct) => {
            if punct.as_char() as u32 == character {
                None
            } else {
                Some(1)
            }
        }
    }
}

/// What is left behind the first mark of that character that stands in no group: none where a group closes before it,
/// or it stands nowhere.
#[tactic(auto, using(crate::proofs::Seeking::past_first_laws))]
pub fn past_first<'a, 'e>(character: u32, at: &'a [Entry<'e>]) -> Option<&'a [Entry<'e>]>
    requires { is_nested at.now ≡ true }
    ensures after { after (λ es. es.now) result ≡ past_first character 0 (tokens at.now) }
    ensures nested { IfSome result (λ es. is_nested es.now ≡ true) }
{
    let mut passed = 0;
    while let Some(more) = passes(character, &at[passed..]) {
        passed += more;
    }
    that_mark(character, &at[passed..])
}
