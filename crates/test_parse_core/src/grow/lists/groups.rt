//! Groups that are printed round what stands inside.

use crate::grow::shown::{display_of, is_text};
use proc_macro2::{Span, TokenStream};
use std::alloc::{AllocError, Global};
use syn_error::ToTokens;
use syn_kinds::token;
use test_support::{Page, Stop, refused};

// The tokens of a keyword.
fn inside(alloc: Global) -> Result<TokenStream, AllocError> {
    token::Struct::default().to_token_stream(alloc)
}

/// Groups that are printed behind other tokens. Where one is refused, the tokens are as before.
pub(crate) fn printed(page: &mut Page) -> Result<(), Stop> {
    let mut tokens = inside(page.alloc())?;
    enclose(page.alloc(), &mut tokens)?;
    surround_by_brackets(page.alloc(), &mut tokens)?;
    surround(page.alloc(), &mut tokens)?;
    write!(page, "{tokens}\n");
    Ok(())
}

// What came of a group. Where it was refused, the tokens are as before.
fn grouped(
    answer: Result<(), AllocError>,
    alloc: Global,
    tokens: &TokenStream,
    before: &str,
) -> Result<(), Stop> {
    match answer {
        Ok(()) => Ok(()),
        Err(_) => refused(is_text(&display_of(alloc, tokens), before)),
    }
}

fn enclose(alloc: Global, tokens: &mut TokenStream) -> Result<(), Stop> {
    let paren = token::Paren::new(Span::call_site());
    let answer = paren.enclose(tokens, inside(alloc)?);
    grouped(answer, alloc, tokens, "struct")
}

fn surround_by_brackets(alloc: Global, tokens: &mut TokenStream) -> Result<(), Stop> {
    let bracket = token::Bracket::new(Span::call_site());
    let comma = token::Comma::default();
    let answer = bracket.surround(tokens, |within| comma.to_tokens(within));
    grouped(answer, alloc, tokens, "struct (struct)")
}

fn surround(alloc: Global, tokens: &mut TokenStream) -> Result<(), Stop> {
    let group = token::Group::new(Span::call_site());
    let comma = token::Comma::default();
    let answer = group.surround(tokens, |within| comma.to_tokens(within));
    grouped(answer, alloc, tokens, "struct (struct) [,]")
}
