//! The tokens of docs.

ghost use Rattle.proc_macro2.specs.Built.{IsAdded};
ghost use Rattle.proc_macro2.specs.Flat.{group_tokens};
ghost use Rattle.proc_macro2.specs.Pieces as pieces;
ghost use Rattle.proc_macro2.specs.Pieces.{IsClosedDoc, all_at};
ghost use Rattle.proc_macro2.specs.Token.{Alone, Bracket};
ghost use Rattle.proc_macro2.specs.Token as token;
ghost use Rattle.rust_leaf.specs.Escaped.{string_text};
ghost use Rattle.rust_leaf.specs.Leaf.{punct_char, punct_span, punct_spacing};
ghost use Rattle.rust_leaf.specs.Mark.{is_mark};
ghost use Rattle.std.specs.Prelude.{[], ◌∷◌, ◌++◌, ◌-◌, ◌≡◌, ◌≤◌, IfOk, IsTrue, OnOk, codes, drop, length, take, true};
ghost use Rattle.std.specs.Str.{chars};

use crate::builder::Builder;
use crate::delimiter::Delimiter;
use crate::tree::{Group, TokenStream, TokenTree};
use rust_escape::place::char_at;
use rust_leaf::ident::Ident;
use rust_leaf::literal::Literal;
use rust_leaf::punct::{Punct, Spacing};
use rust_leaf::text_table::TextTable;
use rust_lex::piece::DocKind;
use rust_map::span::Span;
use std::alloc::AllocError;

// A mark that stands alone.
fn alone(mark: char, span: Span) -> Punct
    requires { IsTrue (is_mark mark) }
    ensures char_is { punct_char result ≡ mark }
    ensures spacing_is { punct_spacing result ≡ Alone }
    ensures span_is { punct_span result ≡ span }
{
    let mut punct = Punct::new(mark, Spacing::Alone);
    punct.set_span(span);
    punct
}

// `doc = "text"`
#[tactic(auto, using(crate::proofs::Docs::words), unfolding(rust_leaf::specs::Mark::is_mark))]
fn inside(table: &mut TextTable, text: &str, span: Span) -> Result<TokenStream, AllocError>
    ensures { IfOk result (λ s. s
        ≡ all_at span (token.Ident (codes "doc") ∷ token.Punct 61 Alone ∷ token.Literal (string_text (chars text.now)) ∷
        [])) }
{
    let ident = Ident::from_text_in(table, "doc", span)?;
    let mut literal = Literal::string_in(table, text)?;
    literal.set_span(span);
    let trees = Vec::from_array(
        table.allocator(),
        [
            TokenTree::Ident(ident),
            TokenTree::Punct(alone('=', span)),
            TokenTree::Literal(literal),
        ],
    )?;
    TokenStream::of(table.allocator(), trees)
}

// `[doc = "text"]`
fn group(table: &mut TextTable, text: &str, span: Span) -> Result<Group, AllocError>
    ensures delimiter { IfOk result (λ g. g.delimiter ≡ Bracket) }
    ensures span { IfOk result (λ g. g.span ≡ span) }
    ensures stream { IfOk result
        (λ g. g.stream ≡ all_at span
        (token.Ident (codes "doc") ∷ token.Punct 61 Alone ∷ token.Literal (string_text (chars text.now)) ∷ [])) }
{
    let stream = inside(table, text, span)?;
    Ok(Group {
        delimiter: Delimiter::Bracket,
        stream,
        span,
    })
}

fn is_inner(kind: DocKind) -> bool
    ensures { result ≡ pieces.is_inner kind }
{
    match kind {
        DocKind::InnerLine | DocKind::InnerBlock => true,
        DocKind::OuterLine | DocKind::OuterBlock => false,
    }
}

/// Adds the tokens of a doc with this text. Its literal shares its text by the table.
#[tactic(auto, unfolding(rust_leaf::specs::Mark::is_mark))]
pub(crate) fn put_doc(
    builder: &mut Builder,
    table: &mut TextTable,
    kind: DocKind,
    text: &str,
    span: Span,
) -> Result<(), AllocError>
    ensures { OnOk result (IsAdded builder.old builder.new
        (all_at span (pieces.doc_marks kind ++ pieces.doc_group (chars text.now)))) }
{
    builder.put(TokenTree::Punct(alone('#', span)))?;
    if is_inner(kind) {
        builder.put(TokenTree::Punct(alone('!', span)))?;
    }
    put_group(builder, group(table, text, span)?)
}

// Adds a group.
fn put_group(builder: &mut Builder, group: Group) -> Result<(), AllocError>
    ensures { OnOk result (IsAdded builder.old builder.new (group_tokens group)) }
{
    group.stream.known();
    builder.put(TokenTree::Group(group))
}

// What stands behind the first three characters.
#[tactic(auto, using(rust_lex::proofs::PlacesLemmas::rest_end))]
fn behind_opening(doc: &str) -> &str
    requires { 3 ≤ length (chars doc.now) }
    ensures { chars result.now ≡ drop 3 (chars doc.now) }
{
    let (_, second) = char_at(doc, 0);
    let (_, third) = char_at(doc, second);
    let (_, behind) = char_at(doc, third);
    &doc[behind..]
}

// What stands before a closing `*/`.
fn before_closing(body: &str) -> &str
    requires { IsClosedDoc (chars body.now) }
    ensures { chars result.now ≡ take (length (chars body.now) - 2) (chars body.now) }
{
    &body[..body.len() - 2]
}

/// The text of a doc.
pub(crate) fn doc_text(kind: DocKind, doc: &str) -> &str
    requires long { 3 ≤ length (chars doc.now) }
    requires closed { pieces.is_block kind ≡ true → IsClosedDoc (drop 3 (chars doc.now)) }
    ensures { chars result.now ≡ pieces.doc_text kind (chars doc.now) }
{
    let body = behind_opening(doc);
    match kind {
        DocKind::OuterLine | DocKind::InnerLine => body,
        DocKind::OuterBlock | DocKind::InnerBlock => before_closing(body),
    }
}
