//! Numbers, as normal form has them: in plain decimal, and behind a dot split at their dots.

ghost use Rattle.reader_tokens.specs.Texts.{IsFrom};
ghost use Rattle.writer_print.specs.Pieces.{piece_token};
ghost use Rattle.reader_tree.specs.Forms.{turns};
ghost use Rattle.writer_rules.specs.Front.{Keeps};
ghost use Rattle.writer_rules.specs.Said.{fields, front_fields};
ghost use Rattle.proc_macro2.specs.Token as token;
ghost use Rattle.rust_leaf.specs.Leaf.{literal_text};
ghost use Rattle.rust_leaf.specs.declared.punct.Spacing.TheVariants.{Alone as Apart};
ghost use Rattle.std.specs.Prelude.{[], ◌++◌, ◌<◌, ◌∷◌, ◌≡◌, ◌≤◌, IfOk, OnOk, length, map};
ghost use Rattle.std.specs.Str.{chars};
ghost use Rattle.syn_grammar.specs.Words.{before_dot, indices, integer, or_zero, plain_decimal};

use crate::put::one;
use crate::seen::literal;
use reader_tokens::text::{first_char, integer};
use reader_tree::tree::{Form, Tree};
use rust_leaf::literal::Literal;
use rust_leaf::punct::Spacing;
use rust_map::span::Span;
use std::alloc::AllocError;
use writer_print::piece::Piece;

// What is left of a text from its first dot on, or its end.
#[tactic(auto, using(crate::proofs::Indices::from_dots))]
fn from_dot(text: &str) -> &str
    ensures left { IsFrom (chars text.now) (chars result.now) }
    ensures shorter { length result.now ≤ length text.now }
{
    let mut rest = text;
    while let Some((character, behind)) = first_char(rest) {
        if character == '.' {
            return rest;
        }
        rest = behind;
    }
    rest
}

/// The index that stands up to the first dot, 0 where none does; and what is left from that dot on.
#[tactic(auto, using(crate::proofs::Indices::value_some, crate::proofs::Indices::value_none))]
pub fn index(text: &str) -> (u32, &str)
    ensures value { result.0 ≡ or_zero (integer (before_dot (chars text.now))) }
    ensures left { IsFrom (chars text.now) (chars result.1.now) }
    ensures shorter { length result.1.now ≤ length text.now }
{
    match integer(text) {
        Some((value, left)) => (value, left),
        None => (0, from_dot(text)),
    }
}

/// The index that a whole text is, 0 where it is none.
#[tactic(auto, using(crate::proofs::Indices::wholes))]
pub fn whole_index(text: &str) -> u32
    ensures { result ≡ or_zero (integer (chars text.now)) }
{
    match integer(text) {
        Some((value, left)) => match first_char(left) {
            None => value,
            Some(_) => 0,
        },
        None => 0,
    }
}

/// Puts the number of a field, in plain decimal.
///
/// # Errors
///
/// Where there is no memory for more tokens.
#[tactic(auto, unfolding(syn_grammar::specs::Words::plain_decimal), using(crate::proofs::Fronts::kept))]
pub fn number<'a>(literal: &Literal, out: &mut Vec<Piece<'a>>) -> Result<(), AllocError>
    ensures put { OnOk result (map piece_token out.new.items
        ≡ map piece_token out.old.items ++ token.Literal (plain_decimal (literal_text literal.now)) ∷ []) }
    ensures keeps { Keeps out.old.items out.new.items }
{
    one(
        Piece::Index(whole_index(literal.as_str()), literal.span()),
        out,
    )
}

// Puts the index that stands up to the first dot behind a dot, both at that place. What is left from that dot on.
#[tactic(auto, unfolding(syn_grammar::specs::Words::plain_decimal), using(crate::proofs::Pushing::field_laws))]
fn field<'a, 't>(text: &'t str, span: Span, out: &mut Vec<Piece<'a>>) -> Result<&'t str, AllocError>
    ensures put { OnOk result (map piece_token out.new.items ≡ map piece_token out.old.items
        ++ token.Punct 46 Apart ∷ token.Literal (plain_decimal (before_dot (chars text.now))) ∷ []) }
    ensures keeps { Keeps out.old.items out.new.items }
    ensures left { IfOk result (λ left. IsFrom (chars text.now) (chars left.now)) }
    ensures shorter { IfOk result (λ left. length left.now ≤ length text.now) }
{
    let (value, left) = index(text);
    one(Piece::Mark('.', Spacing::Alone, span), out)?;
    one(Piece::Index(value, span), out)?;
    Ok(left)
}

// Puts the indices of a text, each behind a dot, at that place.
#[tactic(auto, using(crate::proofs::Indices::all_fields, crate::proofs::Fronts::kept))]
fn text_fields<'a>(text: &str, span: Span, out: &mut Vec<Piece<'a>>) -> Result<(), AllocError>
    ensures put { OnOk result (map piece_token out.new.items
        ≡ map piece_token out.old.items ++ fields (indices (chars text.now))) }
    ensures keeps { Keeps out.old.items out.new.items }
{
    let left = field(text, span, out)?;
    let Some((_, behind)) = first_char(left) else {
        return Ok(());
    };
    match first_char(behind) {
        None => Ok(()),
        Some(_) => text_fields(behind, span, out),
    }
}

/// Puts the indices that a number behind a dot writes, each behind a dot, where the number stands.
///
/// # Errors
///
/// Where there is no memory for more tokens. Those that stood there stand in front then too.
#[tactic(auto, using(crate::proofs::Fronts::kept))]
pub fn put_fields<'a>(literal: &Literal, out: &mut Vec<Piece<'a>>) -> Result<(), AllocError>
    ensures put { OnOk result (map piece_token out.new.items
        ≡ map piece_token out.old.items ++ fields (indices (literal_text literal.now))) }
    ensures keeps { Keeps out.old.items out.new.items }
{
    text_fields(literal.as_str(), literal.span(), out)
}

/// Puts the indices that numbers in front write, those that end in a dot, each behind a dot.
///
/// # Errors
///
/// Where there is no memory for more tokens. Those that stood there stand in front then too.
#[tactic(auto, using(crate::proofs::Indices::fronts, crate::proofs::Fronts::kept))]
pub fn put_front_fields<'a>(numbers: &Tree<'_>, out: &mut Vec<Piece<'a>>) -> Result<(), AllocError>
    ensures put { OnOk result (map piece_token out.new.items
        ≡ map piece_token out.old.items ++ front_fields numbers.now) }
    ensures keeps { Keeps out.old.items out.new.items }
{
    match &numbers.form {
        Form::Turns(turns) => put_each(turns.each, out),
        _ => Ok(()),
    }
}

// The same of turns, up to one that is no number.
#[tactic(auto, using(crate::proofs::Indices::fronts, crate::proofs::Fronts::kept))]
fn put_each<'a>(numbers: &[Tree<'_>], out: &mut Vec<Piece<'a>>) -> Result<(), AllocError>
    ensures put { OnOk result (map piece_token out.new.items
        ≡ map piece_token out.old.items ++ front_fields (turns numbers.now)) }
    ensures keeps { Keeps out.old.items out.new.items }
{
    for number in numbers {
        let Some(literal) = literal(number) else {
            return Ok(());
        };
        put_fields(literal, out)?;
    }
    Ok(())
}
