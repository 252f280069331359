//! Tokens, put behind others.

ghost use Rattle.example_derive.specs.Put.{IsBehind, IsPut};
ghost use Rattle.proc_macro2.specs.Escaped.{string_text};
ghost use Rattle.proc_macro2.specs.Flat.{spanned};
ghost use Rattle.proc_macro2.specs.Leaves.{ident_span, ident_text};
ghost use Rattle.proc_macro2.specs.Mark.{is_mark};
ghost use Rattle.proc_macro2.specs.Spans.{call_site};
ghost use Rattle.proc_macro2.specs.Token as token;
ghost use Rattle.std.specs.Prelude.{◌≡◌, ◌++◌, ◌∷◌, [], OnOk, true};
ghost use Rattle.std.specs.Str.{chars};

use anyhow::{Result, anyhow};
use proc_macro2::{
    Delimiter, Group, Ident, Literal, Punct, Spacing, Span, TokenStream, TokenTree, TryClone,
};
use std::alloc::Global;
use syn::{Piece, Tree, put_as_read, stream_of};

/// Puts a word.
pub fn put_word(word: &str, out: &mut TokenStream) -> Result<()>
    ensures { OnOk result (IsPut out.old out.new (token.Ident (chars word.now))) }
{
    let ident = Ident::new(out.allocator(), word, Span::call_site())?;
    Ok(out.push_tree(TokenTree::from(ident))?)
}

/// Puts an identifier that was read.
pub fn put_ident(ident: &Ident, out: &mut TokenStream) -> Result<()>
    ensures { OnOk result (out.new
        ≡ out.old ++ spanned (token.Ident (ident_text ident.now)) (ident_span ident.now) ∷ []) }
{
    Ok(out.push_tree(TokenTree::from(ident.try_clone()?))?)
}

/// Puts a mark.
pub fn put_mark(mark: char, spacing: Spacing, out: &mut TokenStream) -> Result<()>
    requires { is_mark mark ≡ true }
    ensures { OnOk result (IsPut out.old out.new (token.Punct mark spacing)) }
{
    Ok(out.push_tree(TokenTree::from(Punct::new(mark, spacing)))?)
}

/// Puts a comma in front of what isn't the first.
#[tactic(auto, using(proc_macro2::proofs::Marks::known_mark))]
pub fn put_comma(index: usize, out: &mut TokenStream) -> Result<()> {
    if index == 0 {
        return Ok(());
    }
    put_mark(',', Spacing::Alone, out)
}

/// Puts a lifetime of that name.
#[tactic(auto, using(proc_macro2::proofs::Marks::known_mark))]
pub fn put_lifetime(name: &str, out: &mut TokenStream) -> Result<()>
    ensures { OnOk result (out.new ≡ out.old ++ spanned (token.Punct 39 token.Joint) call_site
        ∷ spanned (token.Ident (chars name.now)) call_site ∷ []) }
{
    put_mark('\'', Spacing::Joint, out)?;
    put_word(name, out)
}

/// Puts a string literal.
pub fn put_text(text: &str, out: &mut TokenStream) -> Result<()>
    ensures { OnOk result (IsPut out.old out.new (token.Literal (string_text (chars text.now)))) }
{
    let literal = Literal::string(out.allocator(), text)?;
    Ok(out.push_tree(TokenTree::from(literal))?)
}

/// Puts a group.
pub fn put_group(delimiter: Delimiter, inside: TokenStream, out: &mut TokenStream) -> Result<()>
    ensures { OnOk result (out.new ≡ out.old
        ++ spanned (token.Opens delimiter) call_site ∷ inside ++ spanned (token.Closes delimiter) call_site ∷ []) }
{
    Ok(out.push_tree(TokenTree::from(Group::new(delimiter, inside)))?)
}

// A mark at the end stands alone: what followed it in the text does not follow it here.
fn end_alone(pieces: &mut Vec<Piece>) {
    if let Some(Piece::Mark(_, spacing, _)) = pieces.last_mut() {
        *spacing = Spacing::Alone;
    }
}

// The tokens of what was read, but that a mark at its end stands alone.
fn tokens_of(alloc: Global, tree: &Tree) -> Result<TokenStream> {
    let mut pieces = Vec::new(alloc);
    put_as_read(tree, &mut pieces)?;
    end_alone(&mut pieces);
    match stream_of(alloc, &pieces)? {
        Some(stream) => Ok(stream),
        None => Err(anyhow!("no tokens of a stream")),
    }
}

/// Puts what was read, as it was read, but that a mark at its end stands alone.
pub fn put_tree(tree: &Tree, out: &mut TokenStream) -> Result<()>
    ensures { OnOk result (IsBehind out.old out.new) }
{
    let stream = tokens_of(out.allocator(), tree)?;
    Ok(out.push_stream(stream)?)
}
