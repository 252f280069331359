//! The tokens of one piece.

ghost use Rattle.proc_macro2.specs.Built.{IsAdded, IsPut, IsReady, stretch_span};
ghost use Rattle.proc_macro2.specs.Pieces.{all_at, delimiter_of, head, spacing_of};
ghost use Rattle.proc_macro2.specs.Token as token;
ghost use Rattle.rust_leaf.specs.Identifier.{is_ident_text};
ghost use Rattle.rust_leaf.specs.Mark.{is_mark};
ghost use Rattle.rust_leaf.specs.Parse.{IsLiteralLeaf};
ghost use Rattle.std.specs.List.{All};
ghost use Rattle.std.specs.Prelude.{[], ◌∷◌, ◌≡◌, ◌+◌, ◌≤◌, IfOk, OnOk, ℕ, true};
ghost use Rattle.std.specs.Str.{chars};

use crate::builder::{Builder, Stretch};
use crate::delimiter::Delimiter;
use crate::doc::{doc_text, put_doc};
use crate::tree::TokenTree;
use rust_escape::place::char_at;
use rust_leaf::ident::Ident;
use rust_leaf::literal::Literal;
use rust_leaf::punct::{Punct, Spacing};
use rust_leaf::text_table::TextTable;
use rust_lex::group_marks::GroupMarks;
use rust_lex::piece::PieceKind;
use rust_map::span::Span;
use std::alloc::AllocError;

// What a pair of marks encloses a group as.
#[inline(always)]
fn delimiter_of(marks: GroupMarks) -> Delimiter
    ensures { result ≡ delimiter_of marks }
{
    match marks {
        GroupMarks::Parenthesis => Delimiter::Parenthesis,
        GroupMarks::Brace => Delimiter::Brace,
        GroupMarks::Bracket => Delimiter::Bracket,
    }
}

#[inline(always)]
fn spacing_of(joint: bool) -> Spacing
    ensures { result ≡ spacing_of joint }
{
    if joint {
        Spacing::Joint
    } else {
        Spacing::Alone
    }
}

// Adds a mark, which is all of a text.
#[inline(always)]
fn put_mark(builder: &mut Builder, mark: &str, joint: bool, span: Span) -> Result<(), AllocError>
    requires { (c : ℕ) × (chars mark.now ≡ c ∷ []) × (is_mark c ≡ true) }
    ensures { OnOk result (IsAdded builder.old builder.new
        (all_at span (token.Punct (head (chars mark.now)) (spacing_of joint) ∷ []))) }
{
    let (c, _) = char_at(mark, 0);
    let mut punct = Punct::new(c, spacing_of(joint));
    punct.set_span(span);
    builder.put(TokenTree::Punct(punct))
}

#[inline(always)]
fn put_ident(
    builder: &mut Builder,
    table: &mut TextTable,
    text: &str,
    span: Span,
) -> Result<(), AllocError>
    requires { is_ident_text (chars text.now) ≡ true }
    ensures { OnOk result (IsAdded builder.old builder.new (all_at span (token.Ident (chars text.now) ∷ []))) }
{
    let ident = Ident::from_text_in(table, text, span)?;
    builder.put(TokenTree::Ident(ident))
}

#[inline(always)]
fn put_literal(
    builder: &mut Builder,
    table: &mut TextTable,
    text: &str,
    span: Span,
) -> Result<(), AllocError>
    requires { IsLiteralLeaf (chars text.now) }
    ensures { OnOk result (IsAdded builder.old builder.new (all_at span (token.Literal (chars text.now) ∷ []))) }
{
    let literal = Literal::from_text_in(table, text, span)?;
    builder.put(TokenTree::Literal(literal))
}

/// Adds the tokens of a piece, which stands there, and whether it is joint if it is a mark. False: it
/// is a closing delimiter that closes nothing. The leaves share their texts by the table.
pub(crate) fn put(
    builder: &mut Builder,
    table: &mut TextTable,
    kind: PieceKind,
    piece: &str,
    joint: bool,
    there: Stretch,
) -> Result<bool, AllocError>
    requires ready { IsReady kind (chars piece.now) }
    requires before { All (λ g. g.count ≤ there.to) builder.old.groups }
    requires ordered { there.from ≤ there.to }
    requires within { there.whole.start + there.to ≤ there.whole.end }
    ensures { IfOk result (λ ok. IsPut kind ok builder.old builder.new there (chars piece.now) joint) }
{
    let span = there.whole.part(there.from, there.to);
    match kind {
        PieceKind::FrontMark | PieceKind::White | PieceKind::Comment => {}
        PieceKind::Doc(doc) => put_doc(builder, table, doc, doc_text(doc, piece), span)?,
        PieceKind::Open(marks) => builder.open(delimiter_of(marks), there.from)?,
        PieceKind::Close(marks) => return builder.close(delimiter_of(marks), there),
        PieceKind::Mark => put_mark(builder, piece, joint, span)?,
        PieceKind::Ident => put_ident(builder, table, piece, span)?,
        PieceKind::Literal(_) => put_literal(builder, table, piece, span)?,
    }
    Ok(true)
}
