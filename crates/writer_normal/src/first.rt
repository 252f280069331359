//! The first tokens of a tree.

ghost use Rattle.writer_built.specs.Begins.{front3};
ghost use Rattle.writer_built.specs.Heads.{head_tokens, seen_token};
ghost use Rattle.reader_table.specs.Ops.{separator_of};
ghost use Rattle.reader_table.specs.Words.{sign_text};
ghost use Rattle.reader_tree.specs.Forms.{elements, ending, mark_of, turns};
ghost use Rattle.proc_macro2.specs.Token.{Closes, Opens, Punct};
ghost use Rattle.rust_leaf.specs.declared.punct.Spacing.TheVariants.{Joint};
ghost use Rattle.std.specs.Prelude.{[], ◌++◌, ◌∷◌, ◌≡◌, map};
ghost use Rattle.syn_buffer.specs.Entries.{entry_token};
ghost use Rattle.syn_grammar.specs.Tree as t;
ghost use Rattle.syn_grammar.specs.Tree.{flat};

use proc_macro2::delimiter::Delimiter;
use reader_table::op::Separator;
use reader_table::word::Sign;
use reader_tree::tree::{Element, Form, Separated, Tree};
use rust_leaf::punct::Spacing;
use syn_buffer::entry::Entry;
use writer_built::head::{Head, joined};
use writer_built::seen::Seen;
use writer_print::piece::Piece;

// What is seen of a token that was read.
fn seen<'a>(entry: &Entry<'a>) -> Seen<'a>
    ensures { seen_token result ≡ entry_token entry.now }
{
    Seen::of(Piece::of(entry))
}

// The first of tokens that were read.
fn first_entries<'a>(entries: &[Entry<'a>]) -> Head<'a>
    ensures { head_tokens result ≡ front3 (map entry_token entries.now) }
{
    match entries {
        [] => Head::Empty,
        [a] => Head::One(seen(a)),
        [a, b] => Head::Two(seen(a), seen(b)),
        [a, b, c, ..] => Head::Three(seen(a), seen(b), seen(c)),
    }
}

// A mark, so spaced.
fn mark<'a>(mark: u8, spacing: Spacing) -> Seen<'a>
    ensures { seen_token result ≡ Punct mark spacing }
{
    Seen::Mark(mark as char, spacing)
}

// A mark that another one follows at once.
fn joint<'a>(byte: u8) -> Seen<'a>
    ensures { seen_token result ≡ Punct byte Joint }
{
    mark(byte, Spacing::Joint)
}

// The first marks of a punctuation.
fn first_marks<'a>(sign: Sign, spacing: Spacing) -> Head<'a>
    ensures { head_tokens result ≡ front3 (flat (mark_of (sign_text sign) spacing)) }
{
    match sign.text().as_bytes() {
        [] => Head::Empty,
        [a] => Head::One(mark(*a, spacing)),
        [a, b] => Head::Two(joint(*a), mark(*b, spacing)),
        [a, b, c] => Head::Three(joint(*a), joint(*b), mark(*c, spacing)),
        [a, b, c, ..] => Head::Three(joint(*a), joint(*b), joint(*c)),
    }
}

// The mark between elements.
fn separator<'a>(separator: Separator, spacing: Spacing) -> Seen<'a>
    ensures { seen_token result ≡ Punct (separator_of separator) spacing }
{
    match separator {
        Separator::Comma => mark(b',', spacing),
        Separator::Plus => mark(b'+', spacing),
    }
}

// The first tokens of a group.
fn enclosed<'a>(delimiter: Delimiter, inside: Head<'a>) -> Head<'a>
    ensures { head_tokens result ≡ front3 (Opens delimiter ∷ (head_tokens inside.entry ++ Closes delimiter ∷ [])) }
{
    let closed = joined(inside, Head::One(Seen::Close(delimiter)));
    joined(Head::One(Seen::Open(delimiter)), closed)
}

// The first tokens of something and a tree behind it.
#[cycle(first)]
#[tactic(auto, using(crate::proofs::Heads::joins))]
fn followed<'a>(front: Head<'a>, tree: &Tree<'a>) -> Head<'a>
    ensures { head_tokens result ≡ front3 (head_tokens front.entry ++ flat tree.now) }
{
    match front {
        Head::Three(_, _, _) => front,
        _ => joined(front, first(tree)),
    }
}

// The first tokens of something and turns behind it.
#[cycle(first)]
#[tactic(auto, using(crate::proofs::Heads::joins))]
fn followed_turns<'a>(front: Head<'a>, trees: &[Tree<'a>]) -> Head<'a>
    ensures { head_tokens result ≡ front3 (head_tokens front.entry ++ flat (turns trees.now)) }
{
    let Some((tree, others)) = trees.split_first() else {
        return front;
    };
    match front {
        Head::Three(_, _, _) => front,
        _ => followed_turns(followed(front, tree), others),
    }
}

// The first tokens of something and elements behind it, with the mark behind each.
#[cycle(first)]
#[tactic(auto, using(crate::proofs::Heads::joins))]
fn followed_elements<'a>(front: Head<'a>, mark: Separator, before: &[Element<'a>]) -> Head<'a>
    ensures { head_tokens result
        ≡ front3 (head_tokens front.entry ++ flat (elements (separator_of mark) before.now t.End)) }
{
    let Some((element, others)) = before.split_first() else {
        return front;
    };
    match front {
        Head::Three(_, _, _) => front,
        _ => {
            let behind = Head::One(separator(mark, element.spacing.spacing()));
            followed_elements(joined(followed(front, &element.tree), behind), mark, others)
        }
    }
}

// The first tokens of a list.
#[cycle(first)]
#[tactic(auto, using(crate::proofs::Heads::joins))]
fn first_list<'a>(list: &Separated<'a>) -> Head<'a>
    ensures { head_tokens result ≡ front3 (flat (elements (separator_of list.now.separator) list.now.before.now
        (ending (λ y. y.now) list.now.last))) }
{
    let before = followed_elements(Head::Empty, list.separator, list.before);
    match list.last {
        Some(last) => followed(before, last),
        None => before,
    }
}

/// The first tokens of a tree. No more of it is looked at than stands before the fourth.
#[cycle(first)]
#[tactic(auto, using(crate::proofs::Heads::joins))]
pub(crate) fn first<'a>(tree: &Tree<'a>) -> Head<'a>
    ensures { head_tokens result ≡ front3 (flat tree.now) }
{
    match &tree.form {
        Form::Word(ident) => Head::One(Seen::Ident(ident)),
        Form::Literal(literal) => Head::One(Seen::Literal(literal)),
        Form::Mark(sign, spacing, _) => first_marks(*sign, *spacing),
        Form::Lifetime(held) => Head::Two(joint(b'\''), Seen::Ident(held.ident)),
        Form::Raw(kept) => first_entries(kept.entries),
        Form::Nil | Form::End => Head::Empty,
        Form::Pair(two) | Form::Front(_, two) | Form::Back(_, two) => {
            followed(first(&two.front), &two.back)
        }
        Form::Infix(_, three) => {
            followed(followed(first(&three.left), &three.own), &three.right)
        }
        Form::Turns(turns) => followed_turns(Head::Empty, turns.each),
        Form::Elements(list) => first_list(list),
        Form::Group(delimiter, group) => enclosed(*delimiter, first(&group.inside)),
        Form::First(_, inner) | Form::Second(_, inner) | Form::Dropped(inner) => first(inner),
        Form::Called(_, inner) | Form::Verbatim(inner) | Form::Node(_, inner) => first(inner),
        Form::Whole(inner) | Form::Alone(_, inner) => first(inner),
    }
}

/// The first tokens of turns.
#[tactic(auto, using(crate::proofs::Heads::joins))]
pub(crate) fn first_turns<'a>(trees: &[Tree<'a>]) -> Head<'a>
    ensures { head_tokens result ≡ front3 (flat (turns trees.now)) }
{
    followed_turns(Head::Empty, trees)
}
