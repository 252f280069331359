//! What is seen at the first tokens of something: each look of the written grammar that decides parentheses.

ghost use Rattle.writer_built.specs.Begins as b;
ghost use Rattle.writer_built.specs.Begins.{brace_in, brace_out, front3, is_joint, is_label_next, is_mark};
ghost use Rattle.writer_built.specs.Begins.{is_taken_next};
ghost use Rattle.writer_built.specs.Begins.{is_word, lone_mark, one_mark, takes_next, three_marks, two_marks};
ghost use Rattle.writer_built.specs.Heads.{head_tokens, seen_token};
ghost use Rattle.reader_table.specs.Kinds.{kind_of, position_of};
ghost use Rattle.proc_macro2.specs.Token.{Token};
ghost use Rattle.std.specs.Prelude.{[], ◌&&◌, ◌||◌, ◌∷◌, ◌≡◌, List, not};
ghost use Rattle.syn_grammar.specs.Forms.{has_right};
ghost use Rattle.syn_grammar.specs.Look.{no, sees, ◌then◌};
ghost use Rattle.syn_grammar.specs.Name.{the_label};
ghost use Rattle.syn_grammar.specs.Parens.{follow, is_label, may_lack, takes_what_follows};
ghost use Rattle.syn_grammar.specs.Part.{has};
ghost use Rattle.syn_grammar.specs.Say.{marks};
ghost use Rattle.syn_grammar.specs.Tree.{Tree};

use crate::head::Head;
use crate::seen::Seen;
use proc_macro2::delimiter::Delimiter;
use reader_table::kind::{Kind, Position};
use reader_table::word::{Keyword, Words};
use reader_tokens::leaf::word;
use rust_leaf::punct::Spacing;

// Whether it is that mark.
fn is_mark(mark: char, token: Seen<'_>) -> bool
    ensures { result ≡ is_mark mark (seen_token token.entry) }
{
    match token {
        Seen::Mark(found, _) => found == mark,
        _ => false,
    }
}

// Whether it is that mark, and another stands directly behind it.
fn is_joint(mark: char, token: Seen<'_>) -> bool
    ensures { result ≡ is_joint mark (seen_token token.entry) }
{
    match token {
        Seen::Mark(found, spacing) => match spacing {
            Spacing::Joint => found == mark,
            Spacing::Alone => false,
        },
        _ => false,
    }
}

// Whether a mark stands first.
fn one_mark(mark: char, head: Head<'_>) -> bool
    ensures { result ≡ one_mark mark (head_tokens head.entry) }
{
    match head {
        Head::Empty => false,
        Head::One(first) => is_mark(mark, first),
        Head::Two(first, _) => is_mark(mark, first),
        Head::Three(first, _, _) => is_mark(mark, first),
    }
}

// Whether a punctuation of two marks stands first.
fn two_marks(mark: char, other: char, head: Head<'_>) -> bool
    ensures { result ≡ two_marks mark other (head_tokens head.entry) }
{
    match head {
        Head::Empty => false,
        Head::One(_) => false,
        Head::Two(first, second) => is_joint(mark, first) && is_mark(other, second),
        Head::Three(first, second, _) => is_joint(mark, first) && is_mark(other, second),
    }
}

// Whether a punctuation of three marks stands first.
fn three_marks(mark: char, other: char, last: char, head: Head<'_>) -> bool
    ensures { result ≡ three_marks mark other last (head_tokens head.entry) }
{
    match head {
        Head::Empty => false,
        Head::One(_) => false,
        Head::Two(_, _) => false,
        Head::Three(first, second, third) => {
            is_joint(mark, first) && (is_joint(other, second) && is_mark(last, third))
        }
    }
}

// Whether a mark stands first that is no punctuation with that behind it.
fn lone_mark(mark: char, other: char, head: Head<'_>) -> bool
    ensures { result ≡ lone_mark mark other (head_tokens head.entry) }
{
    !two_marks(mark, other, head) && one_mark(mark, head)
}

// Whether the word is `as`.
fn is_as(token: Seen<'_>) -> bool
    ensures { result ≡ b.begins_as (seen_token token.entry ∷ []) }
{
    match token {
        Seen::Ident(ident) => word(Words::Keyword(Keyword::As), ident),
        _ => false,
    }
}

// Whether the word is another one.
fn is_other_word(token: Seen<'_>) -> bool
    ensures { result ≡ b.begins_word (seen_token token.entry ∷ []) }
{
    match token {
        Seen::Ident(ident) => !word(Words::Keyword(Keyword::As), ident),
        Seen::Underscore => true,
        _ => false,
    }
}

// Whether the word `as` stands first.
fn begins_as(head: Head<'_>) -> bool
    ensures { result ≡ b.begins_as (head_tokens head.entry) }
{
    match head {
        Head::Empty => false,
        Head::One(first) => is_as(first),
        Head::Two(first, _) => is_as(first),
        Head::Three(first, _, _) => is_as(first),
    }
}

// Whether another word stands first.
fn begins_word(head: Head<'_>) -> bool
    ensures { result ≡ b.begins_word (head_tokens head.entry) }
{
    match head {
        Head::Empty => false,
        Head::One(first) => is_other_word(first),
        Head::Two(first, _) => is_other_word(first),
        Head::Three(first, _, _) => is_other_word(first),
    }
}

// Whether it opens a group.
fn is_group(token: Seen<'_>) -> bool
    ensures { result ≡ b.begins_group (seen_token token.entry ∷ []) }
{
    matches!(token, Seen::Open(_))
}

// Whether a group stands first.
fn begins_group(head: Head<'_>) -> bool
    ensures { result ≡ b.begins_group (head_tokens head.entry) }
{
    match head {
        Head::Empty => false,
        Head::One(first) => is_group(first),
        Head::Two(first, _) => is_group(first),
        Head::Three(first, _, _) => is_group(first),
    }
}

// Whether it opens a group in braces.
fn is_brace(token: Seen<'_>) -> bool
    ensures { result ≡ b.begins_brace (seen_token token.entry ∷ []) }
{
    match token {
        Seen::Open(delimiter) => match delimiter {
            Delimiter::Brace => true,
            Delimiter::Parenthesis => false,
            Delimiter::Bracket => false,
            Delimiter::None => false,
        },
        _ => false,
    }
}

/// Whether a group in braces stands first.
pub(crate) fn begins_brace(head: Head<'_>) -> bool
    ensures { result ≡ b.begins_brace (head_tokens head.entry) }
{
    match head {
        Head::Empty => false,
        Head::One(first) => is_brace(first),
        Head::Two(first, _) => is_brace(first),
        Head::Three(first, _, _) => is_brace(first),
    }
}

// Whether it is a literal.
fn is_literal(token: Seen<'_>) -> bool
    ensures { result ≡ b.begins_literal (seen_token token.entry ∷ []) }
{
    match token {
        Seen::Literal(_) => true,
        Seen::Index(_) => true,
        _ => false,
    }
}

// Whether a literal stands first.
fn begins_literal(head: Head<'_>) -> bool
    ensures { result ≡ b.begins_literal (head_tokens head.entry) }
{
    match head {
        Head::Empty => false,
        Head::One(first) => is_literal(first),
        Head::Two(first, _) => is_literal(first),
        Head::Three(first, _, _) => is_literal(first),
    }
}

// Whether it is a word.
fn is_word(token: Seen<'_>) -> bool
    ensures { result ≡ is_word (seen_token token.entry) }
{
    match token {
        Seen::Ident(_) => true,
        Seen::Underscore => true,
        _ => false,
    }
}

// Whether a lifetime stands first.
fn begins_lifetime(head: Head<'_>) -> bool
    ensures { result ≡ b.begins_lifetime (head_tokens head.entry) }
{
    match head {
        Head::Empty => false,
        Head::One(_) => false,
        Head::Two(first, second) => is_joint('\'', first) && is_word(second),
        Head::Three(first, second, _) => is_joint('\'', first) && is_word(second),
    }
}

// Whether an operator stands first that begins an operand: one of `..`, `<`, `::` and `#`.
fn begins_other(head: Head<'_>) -> bool
    ensures { result ≡ b.begins_other (head_tokens head.entry) }
{
    two_marks('.', '.', head)
        || (!(two_marks('<', '=', head) || three_marks('<', '<', '=', head)) && one_mark('<', head))
        || two_marks(':', ':', head)
        || one_mark('#', head)
}

// Whether one does: one of those, or of `!`, `-`, `*`, `|` and `&`.
fn begins_prefix(head: Head<'_>) -> bool
    ensures { result ≡ b.begins_prefix (head_tokens head.entry) }
{
    lone_mark('!', '=', head)
        || (!(two_marks('-', '=', head) || two_marks('-', '>', head)) && one_mark('-', head))
        || lone_mark('*', '=', head)
        || lone_mark('|', '=', head)
        || lone_mark('&', '=', head)
        || begins_other(head)
}

// Whether an operand begins there.
fn begins_operand(head: Head<'_>) -> bool
    ensures { result ≡ b.begins_operand (head_tokens head.entry) }
{
    begins_word(head)
        || begins_group(head)
        || begins_literal(head)
        || begins_lifetime(head)
        || begins_prefix(head)
}

// Whether a punctuation of several marks stands first with which no half-open range goes on.
fn ends_by_two(head: Head<'_>) -> bool
    ensures { result ≡ b.ends_by_two (head_tokens head.entry) }
{
    two_marks('<', '=', head)
        || two_marks('!', '=', head)
        || two_marks('-', '=', head)
        || two_marks('*', '=', head)
        || two_marks('&', '=', head)
        || two_marks('|', '=', head)
        || three_marks('<', '<', '=', head)
}

// Whether any punctuation does.
fn ends_by_mark(head: Head<'_>) -> bool
    ensures { result ≡ b.ends_by_mark (head_tokens head.entry) }
{
    one_mark(',', head)
        || one_mark(';', head)
        || one_mark('?', head)
        || one_mark('=', head)
        || one_mark('+', head)
        || one_mark('/', head)
        || one_mark('%', head)
        || one_mark('^', head)
        || one_mark('>', head)
        || ends_by_two(head)
}

// Whether nothing is left.
fn is_end(head: Head<'_>) -> bool
    ensures { result ≡ b.is_end (head_tokens head.entry) }
{
    matches!(head, Head::Empty)
}

// Whether a half-open range has no end there.
fn ends_range(head: Head<'_>) -> bool
    ensures { result ≡ b.ends_range (head_tokens head.entry) }
{
    is_end(head) || ends_by_mark(head) || begins_as(head) || lone_mark('.', '.', head)
}

// Whether a brace stands there that ends a condition.
fn brace_in(position: Position, head: Head<'_>) -> bool
    ensures { result ≡ brace_in (position_of position) (head_tokens head.entry) }
{
    match position {
        Position::InCondition => begins_brace(head),
        Position::Plain => false,
        Position::InArm => false,
        Position::InStatement => false,
    }
}

// Whether a brace stands there, and ends no condition.
fn brace_out(position: Position, head: Head<'_>) -> bool
    ensures { result ≡ brace_out (position_of position) (head_tokens head.entry) }
{
    match position {
        Position::InCondition => false,
        Position::Plain => begins_brace(head),
        Position::InArm => begins_brace(head),
        Position::InStatement => begins_brace(head),
    }
}

// The same by the tokens that are seen.
fn takes_next(position: Position, kind: Kind, head: Head<'_>) -> bool
    ensures { result ≡ takes_next (position_of position) (kind_of kind) (head_tokens head.entry) }
{
    match kind {
        Kind::ExprBreak => !brace_in(position, head) && begins_operand(head),
        Kind::ExprReturn => begins_operand(head),
        Kind::ExprYield => begins_operand(head),
        Kind::ExprRange => !(ends_range(head) || brace_in(position, head)),
        Kind::ExprPath => brace_out(position, head),
        _ => false,
    }
}

/// Whether a form that has no operand behind it would take what follows for one, or a path braces for a struct's.
///
/// Taken are the position and the kind of the form, and the first tokens of what follows it.
#[tactic(auto, using(crate::proofs::Begins::takes_so))]
pub fn takes_what_follows(position: Position, kind: Kind, head: Head<'_>) -> bool
    ensures { (ts : List Token) → head_tokens head.entry ≡ front3 ts
        → result ≡ takes_what_follows (position_of position) (kind_of kind) ts }
{
    takes_next(position, kind, head)
}

// Whether an operand would be taken for a label, or refused behind one.
fn is_label(kind: Kind, labelled: bool, head: Head<'_>) -> bool
    ensures { result ≡ is_label_next (kind_of kind) labelled (head_tokens head.entry) }
{
    match kind {
        Kind::ExprBreak => {
            if labelled {
                one_mark(':', head)
            } else {
                begins_lifetime(head)
            }
        }
        _ => false,
    }
}

// Whether a form takes what follows, which is no label.
fn takes_operand(position: Position, kind: Kind, labelled: bool, head: Head<'_>) -> bool
    ensures { result ≡ (takes_next (position_of position) (kind_of kind) (head_tokens head.entry)
        && not (is_label_next (kind_of kind) labelled (head_tokens head.entry))) }
{
    takes_next(position, kind, head) && !is_label(kind, labelled, head)
}

// The same by the tokens that are seen.
fn is_taken_next(position: Position, kind: Kind, labelled: bool, head: Head<'_>) -> bool
    ensures { result ≡ is_taken_next (position_of position) (kind_of kind) labelled (head_tokens head.entry) }
{
    match kind {
        Kind::ExprBreak => takes_operand(position, kind, labelled, head),
        Kind::ExprReturn => takes_operand(position, kind, labelled, head),
        Kind::ExprYield => takes_operand(position, kind, labelled, head),
        Kind::ExprRange => takes_operand(position, kind, labelled, head),
        _ => true,
    }
}

/// Whether a form takes what is written behind it for its operand.
///
/// Taken are the position and the kind of the form, whether it has a label, and the first tokens of the operand.
#[tactic(auto, using(crate::proofs::Begins::taken_so))]
pub fn is_taken(position: Position, kind: Kind, labelled: bool, head: Head<'_>) -> bool
    ensures { (y : Tree) (ts : List Token) → labelled ≡ has the_label y → head_tokens head.entry ≡ front3 ts
        → result ≡ (not (may_lack (kind_of kind)) || (has_right (position_of position) (kind_of kind) ts
        && not (is_label (kind_of kind) y ts))) }
{
    is_taken_next(position, kind, labelled, head)
}

/// Whether a `<` stands there that begins no `<=`.
#[tactic(auto, using(crate::proofs::Begins::lesser_so))]
pub fn begins_lesser(head: Head<'_>) -> bool
    ensures { (ts : List Token) → head_tokens head.entry ≡ front3 ts
        → result ≡ sees (no (marks "<=") then marks "<") ts }
{
    lone_mark('<', '=', head)
}

/// What follows an operand before something: that, but for a struct's braces.
///
/// Taken are the first tokens of that, and given are the first tokens of what follows.
#[tactic(auto, using(crate::proofs::Begins::follow_so))]
pub fn follow<'a>(head: Head<'a>) -> Head<'a>
    ensures { (ts : List Token) → head_tokens head.entry ≡ front3 ts
        → head_tokens result ≡ front3 (follow ts) }
{
    if begins_brace(head) {
        Head::Empty
    } else {
        head
    }
}
