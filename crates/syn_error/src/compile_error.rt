//! An error as tokens that the compiler refuses with its words.
#![tactic(auto, unfolding(rust_leaf::specs::Mark::is_mark))]

ghost use Rattle.rust_leaf.specs.Mark.{is_mark};
ghost use Rattle.std.specs.Prelude.{IsTrue};

use crate::error::{Error, Message};
use proc_macro2::delimiter::Delimiter;
use proc_macro2::tree::{Group, TokenStream, TokenTree};
use rust_leaf::ident::Ident;
use rust_leaf::literal::Literal;
use rust_leaf::punct::{Punct, Spacing};
use rust_map::span::Span;
use std::alloc::{AllocError, Global};

impl Error {
    /// For each message `::core::compile_error! { "words" }`: the tokens before the braces stand where the message's
    /// part of the text starts, the others where it ends. The error is that memory was refused.
    pub fn to_compile_error(&self, alloc: Global) -> Result<TokenStream, AllocError> {
        let mut tokens = TokenStream::new(alloc);
        put_message(&mut tokens, &self.first)?;
        for message in &self.others {
            put_message(&mut tokens, message)?;
        }
        Ok(tokens)
    }

    /// The same, of an error that is not used any more.
    pub fn into_compile_error(self, alloc: Global) -> Result<TokenStream, AllocError> {
        self.to_compile_error(alloc)
    }
}

// Adds the tokens of one message.
fn put_message(tokens: &mut TokenStream, message: &Message) -> Result<(), AllocError> {
    put_path_separator(tokens, message.start)?;
    put_name(tokens, "core", message.start)?;
    put_path_separator(tokens, message.start)?;
    put_name(tokens, "compile_error", message.start)?;
    put_mark(tokens, '!', Spacing::Alone, message.start)?;
    let mut words = Literal::string(tokens.allocator(), message.words.as_str())?;
    words.set_span(message.end);
    let inside = TokenStream::from_tree(tokens.allocator(), TokenTree::Literal(words))?;
    let mut group = Group::new(Delimiter::Brace, inside);
    group.set_span(message.end);
    tokens.push_tree(TokenTree::Group(group))
}

// Adds `::`.
fn put_path_separator(tokens: &mut TokenStream, span: Span) -> Result<(), AllocError> {
    put_mark(tokens, ':', Spacing::Joint, span)?;
    put_mark(tokens, ':', Spacing::Alone, span)
}

// Adds a mark.
fn put_mark(
    tokens: &mut TokenStream,
    mark: char,
    spacing: Spacing,
    span: Span,
) -> Result<(), AllocError>
    requires { IsTrue (is_mark mark) }
{
    let mut punct = Punct::new(mark, spacing);
    punct.set_span(span);
    tokens.push_tree(TokenTree::Punct(punct))
}

// Adds an identifier, of which no fault is known but that memory was refused.
fn put_name(tokens: &mut TokenStream, name: &str, span: Span) -> Result<(), AllocError> {
    match Ident::new(tokens.allocator(), name, span) {
        Ok(ident) => tokens.push_tree(TokenTree::Ident(ident)),
        Err(_) => Err(AllocError),
    }
}
