//! Punctuations: looking for them.

ghost use Rattle.proc_macro2.specs.Flat.{spanned};
ghost use Rattle.proc_macro2.specs.Token as token;
ghost use Rattle.rust_leaf.specs.declared.punct.Spacing.TheVariants.{Joint};
ghost use Rattle.std.specs.Prelude.{[], ◌∷◌, ◌≡◌, IfNone, IfSome, List, false, true, ℕ};
ghost use Rattle.syn_kinds.specs.Stands.{marks_stand};
ghost use Rattle.syn_kinds.specs.Table.{marks};
ghost use Rattle.syn_peek.specs.Marks.{ReadsMarks};
ghost use Rattle.syn_buffer.specs.Position.{IsPast, Takes, left, rest};

use crate::token::Token;
use rust_leaf::punct::Spacing;
use rust_map::span::Span;
use syn_buffer::position::Cursor;
use syn_kinds::punctuation::Punctuation;

// Where the mark stands, if it stands there, and the place behind it.
fn one_mark<'a>(cursor: Cursor<'a>, c: char) -> Option<([Span; 1], Cursor<'a>)>
    ensures some { IfSome result (λ r. ReadsMarks (c ∷ []) r.0 (rest cursor.entry) (rest r.1)) }
    ensures past { IfSome result (λ r. IsPast cursor.entry r.1) }
    ensures there { IfSome result (λ r. marks_stand (c ∷ []) (left cursor.entry) ≡ true) }
    ensures none { IfNone result (marks_stand (c ∷ []) (left cursor.entry) ≡ false) }
{
    match cursor.mark() {
        Some((punct, behind)) if punct.as_char() == c => Some(([punct.span()], behind)),
        _ => None,
    }
}

// Where the mark stands, if it stands there and is joint, and the place behind it.
fn joint_mark<'a>(cursor: Cursor<'a>, c: char) -> Option<(Span, Cursor<'a>)>
    ensures some { IfSome result (λ r. Takes cursor.entry (spanned (token.Punct c Joint) r.0) r.1) }
    ensures there { IfSome result (λ r. (d : ℕ) (ds : List ℕ) →
        marks_stand (c ∷ d ∷ ds) (left cursor.entry) ≡ marks_stand (d ∷ ds) (left r.1)) }
    ensures none { IfNone result ((d : ℕ) (ds : List ℕ) → marks_stand (c ∷ d ∷ ds) (left cursor.entry) ≡ false) }
{
    match cursor.mark() {
        Some((punct, behind)) if punct.as_char() == c && punct.spacing() == Spacing::Joint => {
            Some((punct.span(), behind))
        }
        _ => None,
    }
}

// Where the two marks stand, if they stand there, and the place behind them.
fn two_marks<'a>(cursor: Cursor<'a>, c: char, d: char) -> Option<([Span; 2], Cursor<'a>)>
    ensures some { IfSome result (λ r. ReadsMarks (c ∷ d ∷ []) r.0 (rest cursor.entry) (rest r.1)) }
    ensures past { IfSome result (λ r. IsPast cursor.entry r.1) }
    ensures there { IfSome result (λ r. marks_stand (c ∷ d ∷ []) (left cursor.entry) ≡ true) }
    ensures none { IfNone result (marks_stand (c ∷ d ∷ []) (left cursor.entry) ≡ false) }
{
    let (first, behind) = joint_mark(cursor, c)?;
    let ([second], behind) = one_mark(behind, d)?;
    Some(([first, second], behind))
}

// Where the three marks stand, if they stand there, and the place behind them.
fn three_marks<'a>(cursor: Cursor<'a>, c: char, d: char, e: char) -> Option<([Span; 3], Cursor<'a>)>
    ensures some { IfSome result (λ r. ReadsMarks (c ∷ d ∷ e ∷ []) r.0 (rest cursor.entry) (rest r.1)) }
    ensures past { IfSome result (λ r. IsPast cursor.entry r.1) }
    ensures there { IfSome result (λ r. marks_stand (c ∷ d ∷ e ∷ []) (left cursor.entry) ≡ true) }
    ensures none { IfNone result (marks_stand (c ∷ d ∷ e ∷ []) (left cursor.entry) ≡ false) }
{
    match joint_mark(cursor, c) {
        Some((first, behind)) => {
            let ([second, third], behind) = two_marks(behind, d, e)?;
            Some(([first, second, third], behind))
        }
        None => None,
    }
}

/// The marks of a kind that has one, if they stand there, and the place behind them.
#[tactic(auto, using(crate::proofs::Rows::marks_one))]
pub fn one_of<'a, const K: usize>(cursor: Cursor<'a>) -> Option<(Punctuation<K, 1>, Cursor<'a>)>
    ensures some { IfSome result (λ r. ReadsMarks (marks K 1) r.0.spans (rest cursor.entry) (rest r.1)) }
    ensures past { IfSome result (λ r. IsPast cursor.entry r.1) }
    ensures there { IfSome result (λ r. marks_stand (marks K 1) (left cursor.entry) ≡ true) }
    ensures none { IfNone result (marks_stand (marks K 1) (left cursor.entry) ≡ false) }
{
    let ([first], behind) = one_mark(cursor, Punctuation::<K, 1>::mark(0))?;
    let spans = [first];
    Some((Punctuation::new(spans), behind))
}

impl<const K: usize> Token for Punctuation<K, 1> {
    ghost use Rattle.syn_kinds.specs.Stands.{marks_stand};
    ghost use Rattle.syn_kinds.specs.Table.{marks};

    ghost stands = { marks_stand (marks K 1) };

    fn peek(cursor: Cursor<'_>) -> bool {
        one_of::<K>(cursor).is_some()
    }

    fn display() -> &'static str {
        Punctuation::<K, 1>::display()
    }
}

/// The marks of a kind that has two, if they stand there, and the place behind them.
#[tactic(auto, using(crate::proofs::Rows::marks_two))]
pub fn two_of<'a, const K: usize>(cursor: Cursor<'a>) -> Option<(Punctuation<K, 2>, Cursor<'a>)>
    ensures some { IfSome result (λ r. ReadsMarks (marks K 2) r.0.spans (rest cursor.entry) (rest r.1)) }
    ensures past { IfSome result (λ r. IsPast cursor.entry r.1) }
    ensures there { IfSome result (λ r. marks_stand (marks K 2) (left cursor.entry) ≡ true) }
    ensures none { IfNone result (marks_stand (marks K 2) (left cursor.entry) ≡ false) }
{
    let ([first, second], behind) = two_marks(
        cursor,
        Punctuation::<K, 2>::mark(0),
        Punctuation::<K, 2>::mark(1),
    )?;
    let spans = [first, second];
    Some((Punctuation::new(spans), behind))
}

impl<const K: usize> Token for Punctuation<K, 2> {
    ghost use Rattle.syn_kinds.specs.Stands.{marks_stand};
    ghost use Rattle.syn_kinds.specs.Table.{marks};

    ghost stands = { marks_stand (marks K 2) };

    fn peek(cursor: Cursor<'_>) -> bool {
        two_of::<K>(cursor).is_some()
    }

    fn display() -> &'static str {
        Punctuation::<K, 2>::display()
    }
}

/// The marks of a kind that has three, if they stand there, and the place behind them.
#[tactic(auto, using(crate::proofs::Rows::marks_three))]
pub fn three_of<'a, const K: usize>(cursor: Cursor<'a>) -> Option<(Punctuation<K, 3>, Cursor<'a>)>
    ensures some { IfSome result (λ r. ReadsMarks (marks K 3) r.0.spans (rest cursor.entry) (rest r.1)) }
    ensures past { IfSome result (λ r. IsPast cursor.entry r.1) }
    ensures there { IfSome result (λ r. marks_stand (marks K 3) (left cursor.entry) ≡ true) }
    ensures none { IfNone result (marks_stand (marks K 3) (left cursor.entry) ≡ false) }
{
    let ([first, second, third], behind) = three_marks(
        cursor,
        Punctuation::<K, 3>::mark(0),
        Punctuation::<K, 3>::mark(1),
        Punctuation::<K, 3>::mark(2),
    )?;
    let spans = [first, second, third];
    Some((Punctuation::new(spans), behind))
}

impl<const K: usize> Token for Punctuation<K, 3> {
    ghost use Rattle.syn_kinds.specs.Stands.{marks_stand};
    ghost use Rattle.syn_kinds.specs.Table.{marks};

    ghost stands = { marks_stand (marks K 3) };

    fn peek(cursor: Cursor<'_>) -> bool {
        three_of::<K>(cursor).is_some()
    }

    fn display() -> &'static str {
        Punctuation::<K, 3>::display()
    }
}
