//! Tokens that are put behind those that are to be written.

ghost use Rattle.writer_print.specs.Pieces.{piece_token};
ghost use Rattle.reader_table.specs.Ops.{separator_of};
ghost use Rattle.reader_table.specs.Words.{sign_text};
ghost use Rattle.reader_tree.specs.Forms.{mark_of};
ghost use Rattle.writer_rules.specs.Front.{Keeps};
ghost use Rattle.proc_macro2.specs.Token as token;
ghost use Rattle.rust_leaf.specs.Leaf.{ident_text, literal_text};
ghost use Rattle.rust_leaf.specs.declared.punct.Spacing.TheVariants.{Alone as Apart, Joint};
ghost use Rattle.std.specs.Prelude.{◌≡◌, ◌++◌, ◌∷◌, [], OnOk, cond, map};
ghost use Rattle.syn_buffer.specs.Entries.{entry_token};
ghost use Rattle.syn_grammar.specs.Tree.{flat, marks};

use proc_macro2::delimiter::Delimiter;
use reader_table::op::Separator;
use reader_table::word::Sign;
use rust_leaf::ident::Ident;
use rust_leaf::literal::Literal;
use rust_leaf::punct::Spacing;
use rust_map::span::Span;
use std::alloc::AllocError;
use syn_buffer::entry::Entry;
use writer_print::piece::Piece;

/// Puts one token.
///
/// # Errors
///
/// Where there is no memory for it.
#[tactic(auto, using(crate::proofs::Pushing::one, crate::proofs::Fronts::kept))]
pub fn one<'a>(piece: Piece<'a>, out: &mut Vec<Piece<'a>>) -> Result<(), AllocError>
    ensures put { OnOk result (map piece_token out.new.items
        ≡ map piece_token out.old.items ++ piece_token piece.entry ∷ []) }
    ensures keeps { Keeps out.old.items out.new.items }
{
    out.push(piece)?;
    Ok(())
}

/// Puts an identifier or a keyword.
///
/// # Errors
///
/// Where there is no memory for it.
pub fn ident<'a>(ident: &'a Ident, out: &mut Vec<Piece<'a>>) -> Result<(), AllocError>
    ensures put { OnOk result (map piece_token out.new.items
        ≡ map piece_token out.old.items ++ token.Ident (ident_text ident.now) ∷ []) }
    ensures keeps { Keeps out.old.items out.new.items }
{
    one(Piece::Ident(ident), out)
}

/// Puts a literal.
///
/// # Errors
///
/// Where there is no memory for it.
pub fn literal<'a>(literal: &'a Literal, out: &mut Vec<Piece<'a>>) -> Result<(), AllocError>
    ensures put { OnOk result (map piece_token out.new.items
        ≡ map piece_token out.old.items ++ token.Literal (literal_text literal.now) ∷ []) }
    ensures keeps { Keeps out.old.items out.new.items }
{
    one(Piece::Literal(literal), out)
}

/// Puts the delimiter that opens a group, which stands there.
///
/// # Errors
///
/// Where there is no memory for it.
pub fn opening<'a>(
    delimiter: Delimiter,
    span: Span,
    out: &mut Vec<Piece<'a>>,
) -> Result<(), AllocError>
    ensures put { OnOk result (map piece_token out.new.items
        ≡ map piece_token out.old.items ++ token.Opens delimiter ∷ []) }
    ensures keeps { Keeps out.old.items out.new.items }
{
    one(Piece::Open(delimiter, span), out)
}

/// Puts the delimiter that closes a group.
///
/// # Errors
///
/// Where there is no memory for it.
pub fn closing<'a>(delimiter: Delimiter, out: &mut Vec<Piece<'a>>) -> Result<(), AllocError>
    ensures put { OnOk result (map piece_token out.new.items
        ≡ map piece_token out.old.items ++ token.Closes delimiter ∷ []) }
    ensures keeps { Keeps out.old.items out.new.items }
{
    one(Piece::Close(delimiter), out)
}

/// Puts tokens that were read.
///
/// # Errors
///
/// Where there is no memory for more tokens.
#[tactic(auto, using(crate::proofs::Pushing::puts, crate::proofs::Fronts::kept))]
pub fn entries<'a>(entries: &[Entry<'a>], out: &mut Vec<Piece<'a>>) -> Result<(), AllocError>
    ensures put { OnOk result (map piece_token out.new.items
        ≡ map piece_token out.old.items ++ map entry_token entries.now) }
    ensures keeps { Keeps out.old.items out.new.items }
{
    for entry in entries {
        one(Piece::of(entry), out)?;
    }
    Ok(())
}

// A mark, and the others behind it, each joint but the last one, which is so spaced. All get that span.
#[tactic(auto, using(crate::proofs::Pushing::puts, crate::proofs::Fronts::kept))]
fn marks<'a>(
    first: u8,
    others: &[u8],
    spacing: Spacing,
    span: Span,
    out: &mut Vec<Piece<'a>>,
) -> Result<(), AllocError>
    ensures put { OnOk result (map piece_token out.new.items
        ≡ map piece_token out.old.items ++ marks first others.now spacing) }
    ensures keeps { Keeps out.old.items out.new.items }
{
    match others.split_first() {
        None => one(Piece::Mark(first as char, spacing, span), out),
        Some((next, left)) => {
            one(Piece::Mark(first as char, Spacing::Joint, span), out)?;
            marks(*next, left, spacing, span, out)
        }
    }
}

/// Puts a punctuation, whose last mark is so spaced. All its marks get that span.
///
/// # Errors
///
/// Where there is no memory for more tokens.
#[tactic(auto, using(crate::proofs::Pushing::puts, crate::proofs::Fronts::kept))]
pub fn sign<'a>(
    sign: Sign,
    spacing: Spacing,
    span: Span,
    out: &mut Vec<Piece<'a>>,
) -> Result<(), AllocError>
    ensures put { OnOk result (map piece_token out.new.items
        ≡ map piece_token out.old.items ++ flat (mark_of (sign_text sign) spacing)) }
    ensures keeps { Keeps out.old.items out.new.items }
{
    match sign.text().as_bytes() {
        [] => Ok(()),
        [mark] => one(Piece::Mark(*mark as char, spacing, span), out),
        [first, others @ ..] => marks(*first, others, spacing, span, out),
    }
}

/// Puts the mark behind an element, so spaced, which stands there.
///
/// # Errors
///
/// Where there is no memory for it.
#[tactic(auto, using(crate::proofs::Fronts::kept))]
pub fn separator<'a>(
    mark: Separator,
    spacing: Spacing,
    span: Span,
    out: &mut Vec<Piece<'a>>,
) -> Result<(), AllocError>
    ensures put { OnOk result (map piece_token out.new.items
        ≡ map piece_token out.old.items ++ token.Punct (separator_of mark) spacing ∷ []) }
    ensures keeps { Keeps out.old.items out.new.items }
{
    match mark {
        Separator::Comma => one(Piece::Mark(',', spacing, span), out),
        Separator::Plus => one(Piece::Mark('+', spacing, span), out),
    }
}

/// Puts a comma, where others follow, at no place of a text.
///
/// # Errors
///
/// Where there is no memory for it.
#[tactic(auto, using(crate::proofs::Pushing::puts, crate::proofs::Fronts::kept))]
pub fn comma<'a>(others: bool, out: &mut Vec<Piece<'a>>) -> Result<(), AllocError>
    ensures put { OnOk result (map piece_token out.new.items
        ≡ map piece_token out.old.items ++ cond others (token.Punct 44 Apart ∷ []) []) }
    ensures keeps { Keeps out.old.items out.new.items }
{
    if others {
        one(Piece::Mark(',', Spacing::Alone, Span::call_site()), out)
    } else {
        Ok(())
    }
}

/// Puts a lifetime, whose mark stands there.
///
/// # Errors
///
/// Where there is no memory for more tokens.
#[tactic(auto, using(crate::proofs::Pushing::puts, crate::proofs::Fronts::kept))]
pub fn lifetime<'a>(
    mark: Span,
    ident: &'a Ident,
    out: &mut Vec<Piece<'a>>,
) -> Result<(), AllocError>
    ensures put { OnOk result (map piece_token out.new.items
        ≡ map piece_token out.old.items ++ token.Punct 39 Joint ∷ token.Ident (ident_text ident.now) ∷ []) }
    ensures keeps { Keeps out.old.items out.new.items }
{
    one(Piece::Mark('\'', Spacing::Joint, mark), out)?;
    one(Piece::Ident(ident), out)
}
