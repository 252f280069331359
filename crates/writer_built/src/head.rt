//! The first tokens of something that is written, at most three: no rule of parentheses looks further.

ghost use Rattle.writer_built.specs.Begins.{front2, front3};
ghost use Rattle.writer_built.specs.Heads.{head_tokens, seen_token};
ghost use Rattle.writer_print.specs.Pieces.{piece_token};
ghost use Rattle.proc_macro2.specs.Token.{Closes, Opens};
ghost use Rattle.proc_macro2.specs.declared.delimiter.Delimiter.TheVariants.{Parenthesis};
ghost use Rattle.std.specs.Prelude.{[], ◌++◌, ◌∷◌, ◌≡◌, map};

use crate::seen::Seen;
use proc_macro2::delimiter::Delimiter;
use writer_print::piece::Piece;

/// The first tokens of something, at most three.
#[derive(Clone, Copy)]
pub enum Head<'a> {
    /// There are none.
    Empty,
    /// There is one.
    One(Seen<'a>),
    /// There are two.
    Two(Seen<'a>, Seen<'a>),
    /// There are three, or more.
    Three(Seen<'a>, Seen<'a>, Seen<'a>),
}

/// The first of some tokens.
pub(crate) fn head_of<'a>(pieces: &[Piece<'a>]) -> Head<'a>
    ensures { head_tokens result ≡ front3 (map piece_token pieces.now) }
{
    match pieces {
        [] => Head::Empty,
        [first] => Head::One(Seen::of(*first)),
        [first, second] => Head::Two(Seen::of(*first), Seen::of(*second)),
        [first, second, third, ..] => {
            Head::Three(Seen::of(*first), Seen::of(*second), Seen::of(*third))
        }
    }
}

/// The first two of some tokens.
pub(crate) fn first_two<'a>(head: Head<'a>) -> Head<'a>
    ensures { head_tokens result ≡ front2 (head_tokens head.entry) }
{
    match head {
        Head::Three(first, second, _) => Head::Two(first, second),
        Head::Two(first, second) => Head::Two(first, second),
        Head::One(first) => Head::One(first),
        Head::Empty => Head::Empty,
    }
}

// One token, and the first of those behind it.
fn behind_one<'a>(first: Seen<'a>, others: Head<'a>) -> Head<'a>
    ensures { head_tokens result ≡ front3 (seen_token first.entry ∷ head_tokens others.entry) }
{
    match others {
        Head::Empty => Head::One(first),
        Head::One(second) => Head::Two(first, second),
        Head::Two(second, third) => Head::Three(first, second, third),
        Head::Three(second, third, _) => Head::Three(first, second, third),
    }
}

// Two tokens, and the first of those behind them.
fn behind_two<'a>(first: Seen<'a>, second: Seen<'a>, others: Head<'a>) -> Head<'a>
    ensures { head_tokens result
        ≡ front3 (seen_token first.entry ∷ seen_token second.entry ∷ head_tokens others.entry) }
{
    match others {
        Head::Empty => Head::Two(first, second),
        Head::One(third) => Head::Three(first, second, third),
        Head::Two(third, _) => Head::Three(first, second, third),
        Head::Three(third, _, _) => Head::Three(first, second, third),
    }
}

/// The first tokens of one thing and another behind it, of the first tokens of each.
#[tactic(auto, using(crate::proofs::Heads::front_head))]
pub fn joined<'a>(front: Head<'a>, back: Head<'a>) -> Head<'a>
    ensures { head_tokens result ≡ front3 (head_tokens front.entry ++ head_tokens back.entry) }
{
    match front {
        Head::Empty => back,
        Head::One(first) => behind_one(first, back),
        Head::Two(first, second) => behind_two(first, second, back),
        Head::Three(first, second, third) => Head::Three(first, second, third),
    }
}

/// The first tokens of something in parentheses.
pub(crate) fn enclosed<'a>(inside: Head<'a>) -> Head<'a>
    ensures { head_tokens result ≡ front3 (Opens Parenthesis ∷ (head_tokens inside.entry ++ Closes Parenthesis ∷ [])) }
{
    let closed = joined(inside, Head::One(Seen::Close(Delimiter::Parenthesis)));
    behind_one(Seen::Open(Delimiter::Parenthesis), closed)
}
