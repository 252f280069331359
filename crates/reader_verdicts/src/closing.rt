//! Whether what was read ends in braces.

ghost use Rattle.reader_verdicts.specs.Closing.{closes_braces, ending, later};
ghost use Rattle.reader_tree.specs.Forms.{elements, turns};
ghost use Rattle.proc_macro2.specs.Token.{Closes};
ghost use Rattle.std.specs.Prelude.{◌≡◌, ◌++◌, ℕ, map};
ghost use Rattle.syn_buffer.specs.Entries.{entry_token};
ghost use Rattle.syn_grammar.specs.Statements.{ends_in_braces};
ghost use Rattle.syn_grammar.specs.Tree.{End, flat};

use proc_macro2::delimiter::Delimiter;
use reader_tree::tree::{Element, Form, Tree, Two};
use syn_buffer::entry::Entry;

// Whether such a group has braces.
fn is_brace(delimiter: Delimiter) -> bool
    ensures { result ≡ closes_braces (Closes delimiter) }
{
    match delimiter {
        Delimiter::Parenthesis => false,
        Delimiter::Brace => true,
        Delimiter::Bracket => false,
        Delimiter::None => false,
    }
}

// Whether a token closes braces.
fn closes_braces(entry: &Entry<'_>) -> bool
    ensures { result ≡ closes_braces (entry_token entry.now) }
{
    match *entry {
        Entry::Open(_, _, _) => false,
        Entry::Close(delimiter, _) => is_brace(delimiter),
        Entry::Ident(_) => false,
        Entry::Punct(_) => false,
        Entry::Literal(_) => false,
    }
}

// Whether the last token closes braces, if there is one.
fn last_entry(entries: &[Entry<'_>]) -> Option<bool>
    ensures { result ≡ ending (map entry_token entries.now) }
{
    match entries.split_last() {
        Some((last, _)) => Some(closes_braces(last)),
        None => None,
    }
}

// What the later one says, if there is one.
fn later(first: Option<bool>, second: Option<bool>) -> Option<bool>
    ensures { result ≡ later first second }
{
    match second {
        Some(closes) => Some(closes),
        None => first,
    }
}

// Behind elements that a mark follows each that mark is the last token.
fn behind_marks(before: &[Element]) -> Option<bool>
    ensures { (c : ℕ) → result ≡ ending (flat (elements c before.now End)) }
{
    if before.is_empty() { None } else { Some(false) }
}

// Whether the last token of a tree closes braces, if it has one.
#[cycle(closing)]
#[tactic(auto, using(crate::proofs::Ends::endings))]
fn ending(tree: &Tree<'_>) -> Option<bool>
    ensures { result ≡ ending (flat tree.now) }
{
    match &tree.form {
        Form::Word(_) | Form::Literal(_) | Form::Mark(_, _, _) | Form::Lifetime(_) => Some(false),
        Form::Raw(kept) => last_entry(kept.entries),
        Form::Nil | Form::End => None,
        Form::Pair(two) | Form::Front(_, two) | Form::Back(_, two) => ending_of_two(two),
        Form::Infix(_, three) => match later(ending(&three.own), ending(&three.right)) {
            Some(closes) => Some(closes),
            None => ending(&three.left),
        },
        Form::Turns(turns) => ending_of_turns(turns.each),
        Form::Elements(list) => match list.last {
            Some(last) => later(behind_marks(list.before), ending(last)),
            None => behind_marks(list.before),
        },
        Form::Group(delimiter, _) => Some(is_brace(*delimiter)),
        Form::First(_, inner) | Form::Second(_, inner) | Form::Dropped(inner) => ending(inner),
        Form::Called(_, inner) | Form::Verbatim(inner) | Form::Node(_, inner) => ending(inner),
        Form::Whole(inner) | Form::Alone(_, inner) => ending(inner),
    }
}

// Whether the last token of two trees closes braces, if they have one.
#[cycle(closing)]
#[tactic(auto, using(crate::proofs::Ends::endings))]
fn ending_of_two(two: &Two<'_>) -> Option<bool>
    ensures { result ≡ ending (flat two.now.front ++ flat two.now.back) }
{
    match ending(&two.back) {
        Some(closes) => Some(closes),
        None => ending(&two.front),
    }
}

// Whether the last token of turns closes braces, if they have one.
#[cycle(closing)]
#[tactic(auto, using(crate::proofs::Ends::endings))]
fn ending_of_turns(trees: &[Tree<'_>]) -> Option<bool>
    ensures { result ≡ ending (flat (turns trees.now)) }
{
    let mut found = None;
    for tree in trees {
        found = later(found, ending(tree));
    }
    found
}

/// Whether the last token closes braces.
#[tactic(auto, using(crate::proofs::Ends::ends))]
pub fn ends_in_braces(tree: &Tree<'_>) -> bool
    ensures { result ≡ ends_in_braces (flat tree.now) }
{
    match ending(tree) {
        Some(closes) => closes,
        None => false,
    }
}
