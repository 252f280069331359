//! Whether what was read begins with a parenthesis.

ghost use Rattle.reader_tree.specs.Forms.{turns};
ghost use Rattle.writer_rules.specs.Turns.{begun, earlier};
ghost use Rattle.proc_macro2.specs.Token.{Opens};
ghost use Rattle.std.specs.Prelude.{[], ◌++◌, ◌∷◌, ◌≡◌, Some, false, map};
ghost use Rattle.syn_buffer.specs.Entries.{entry_token};
ghost use Rattle.syn_grammar.specs.Look.{sees};
ghost use Rattle.syn_grammar.specs.Say.{parenthesis};
ghost use Rattle.syn_grammar.specs.Tree.{flat};

use proc_macro2::delimiter::Delimiter;
use reader_tree::tree::{Form, Tree, Two};
use syn_buffer::entry::Entry;

// Whether such a group has parentheses.
fn is_parenthesis(delimiter: Delimiter) -> bool
    ensures { result ≡ sees parenthesis (Opens delimiter ∷ []) }
{
    match delimiter {
        Delimiter::Parenthesis => true,
        Delimiter::Brace => false,
        Delimiter::Bracket => false,
        Delimiter::None => false,
    }
}

// Whether a token opens parentheses.
fn opens_parenthesis(entry: &Entry<'_>) -> bool
    ensures { result ≡ sees parenthesis (entry_token entry.now ∷ []) }
{
    match *entry {
        Entry::Open(delimiter, _, _) => is_parenthesis(delimiter),
        Entry::Close(_, _) => false,
        Entry::Ident(_) => false,
        Entry::Punct(_) => false,
        Entry::Literal(_) => false,
    }
}

// Whether the first token opens parentheses, if there is one.
fn first_entry(entries: &[Entry<'_>]) -> Option<bool>
    ensures { result ≡ begun (map entry_token entries.now) }
{
    match entries.split_first() {
        Some((first, _)) => Some(opens_parenthesis(first)),
        None => None,
    }
}

// Whether an answer says so; where there is none, it does not.
fn is_so(found: Option<bool>) -> bool
    ensures { Some result ≡ earlier found (Some false) }
{
    match found {
        Some(opens) => opens,
        None => false,
    }
}

// Whether the first token of a tree opens parentheses, if it has one.
#[cycle(begun)]
#[tactic(auto, using(crate::proofs::Begins::begins))]
fn begun(tree: &Tree<'_>) -> Option<bool>
    ensures { result ≡ begun (flat tree.now) }
{
    match &tree.form {
        Form::Word(_) | Form::Literal(_) | Form::Mark(_, _, _) | Form::Lifetime(_) => Some(false),
        Form::Raw(kept) => first_entry(kept.entries),
        Form::Nil | Form::End => None,
        Form::Pair(two) | Form::Front(_, two) | Form::Back(_, two) => begun_two(two),
        Form::Infix(_, three) => match begun(&three.left) {
            Some(opens) => Some(opens),
            None => match begun(&three.own) {
                Some(opens) => Some(opens),
                None => begun(&three.right),
            },
        },
        Form::Turns(turns) => begun_turns(turns.each),
        Form::Elements(list) => match list.before.split_first() {
            Some((element, _)) => Some(is_so(begun(&element.tree))),
            None => match list.last {
                Some(last) => begun(last),
                None => None,
            },
        },
        Form::Group(delimiter, _) => Some(is_parenthesis(*delimiter)),
        Form::First(_, inner) | Form::Second(_, inner) | Form::Dropped(inner) => begun(inner),
        Form::Called(_, inner) | Form::Verbatim(inner) | Form::Node(_, inner) => begun(inner),
        Form::Whole(inner) | Form::Alone(_, inner) => begun(inner),
    }
}

// Whether the first token of two trees opens parentheses, if they have one.
#[cycle(begun)]
#[tactic(auto, using(crate::proofs::Begins::begins))]
fn begun_two(two: &Two<'_>) -> Option<bool>
    ensures { result ≡ begun (flat two.now.front ++ flat two.now.back) }
{
    match begun(&two.front) {
        Some(opens) => Some(opens),
        None => begun(&two.back),
    }
}

// Whether the first token of turns opens parentheses, if they have one.
#[cycle(begun)]
#[tactic(auto, using(crate::proofs::Begins::begins))]
fn begun_turns(trees: &[Tree<'_>]) -> Option<bool>
    ensures { result ≡ begun (flat (turns trees.now)) }
{
    for tree in trees {
        if let Some(opens) = begun(tree) {
            return Some(opens);
        }
    }
    None
}

/// Whether the first token of turns opens parentheses.
#[tactic(auto, using(crate::proofs::Begins::sights))]
pub(crate) fn begins_enclosed(trees: &[Tree<'_>]) -> bool
    ensures { result ≡ sees parenthesis (flat (turns trees.now)) }
{
    is_so(begun_turns(trees))
}
