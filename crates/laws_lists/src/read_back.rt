//! Lists that are printed and read back, by the calls themselves.

ghost use Rattle.laws_lists.specs.ReadBack.{AreNames, ArePlaces};
ghost use Rattle.proc_macro2.specs.Token.{Spanned};
ghost use Rattle.std.specs.Prelude.{[], ◌≡◌, IfErr, IfOk, List, map};
ghost use Rattle.syn_error.specs.Faults.{IsSyntax};
ghost use Rattle.syn_buffer.specs.Leaves.{ident_token};
ghost use Rattle.syn_buffer.specs.Seen.{seen};
ghost use Rattle.syn_lists.specs.ReadLists.{ReadsList, StopsList};
ghost use Rattle.syn_lists.specs.Lists.{IsSeparated, separators, values};
ghost use Rattle.syn_lists.specs.Put.{PutsList};

use proc_macro2::tree::TokenStream;
use rust_leaf::ident::Ident;
use std::alloc::Global;
use syn_buffer::buffer::TokenBuffer;
use syn_error::fault::ParseFault;
use syn_error::to_tokens::ToTokens;
use syn_input::{Parse, ParseBuffer};
use syn_kinds::punctuation::Punctuation;
use syn_lists::Punctuated;

/// Prints a list, and reads what was printed to its end.
///
/// The fault is that of `Punctuated::parse_terminated`, or that memory was refused.
pub fn reread<T: Parse + ToTokens, P: Parse + ToTokens>(
    alloc: Global,
    list: &Punctuated<T, P>,
) -> Result<Punctuated<T, P>, ParseFault>
    ensures read { IfOk result (λ back. (printed : List Spanned)
        × PutsList T.puts P.puts (values list.now) (separators list.now) [] printed
        × ReadsList T.reads P.reads (seen printed) (values back) (separators back) []) }
    ensures none { IfErr result (λ e. IsSyntax e → ((printed : List Spanned)
        × PutsList T.puts P.puts (values list.now) (separators list.now) [] printed
        × StopsList T.reads P.reads T.refuses P.refuses (seen printed))) }
{
    let tokens = list.to_token_stream(alloc)?;
    read_tokens(alloc, &tokens)
}

// Reads a list of the tokens to their end.
fn read_tokens<T: Parse, P: Parse>(
    alloc: Global,
    tokens: &TokenStream,
) -> Result<Punctuated<T, P>, ParseFault>
    ensures read { IfOk result (λ back.
        ReadsList T.reads P.reads (seen tokens.now) (values back) (separators back) []) }
    ensures none { IfErr result (λ e. IsSyntax e
        → StopsList T.reads P.reads T.refuses P.refuses (seen tokens.now)) }
{
    let buffer = TokenBuffer::new2(alloc, tokens, 1)?;
    let mut input = ParseBuffer::new(alloc, buffer.begin());
    Punctuated::parse_terminated(&mut input)
}

/// Prints a list of names with punctuations of one mark between them, and reads it back: names of the same texts and
/// spans, and as many punctuations, each at its place. The list must have as many punctuations as names, or one fewer,
/// and each of them a span for each mark.
///
/// Where no name of the list is a keyword or `_`, the only fault is that memory was refused.
pub fn reread_one<const K: usize>(
    alloc: Global,
    list: &Punctuated<Ident, Punctuation<K, 1>>,
) -> Result<Punctuated<Ident, Punctuation<K, 1>>, ParseFault>
    requires separated { IsSeparated (values list.now) (separators list.now) }
    requires places { ArePlaces K 1 (map (λ p. p.spans) (separators list.now)) }
    ensures names { IfOk result (λ back. map ident_token (values back) ≡ map ident_token (values list.now)) }
    ensures marks { IfOk result (λ back.
        map (λ p. p.spans) (separators back) ≡ map (λ p. p.spans) (separators list.now)) }
    ensures taken { AreNames (values list.now) → IfErr result (λ e. IsSyntax e → ⊥) }
{
    reread(alloc, list)
}

/// Prints a list of names with punctuations of two marks between them, and reads it back: names of the same texts and
/// spans, and as many punctuations, each at its place. The list must have as many punctuations as names, or one fewer,
/// and each of them a span for each mark.
///
/// Where no name of the list is a keyword or `_`, the only fault is that memory was refused.
pub fn reread_two<const K: usize>(
    alloc: Global,
    list: &Punctuated<Ident, Punctuation<K, 2>>,
) -> Result<Punctuated<Ident, Punctuation<K, 2>>, ParseFault>
    requires separated { IsSeparated (values list.now) (separators list.now) }
    requires places { ArePlaces K 2 (map (λ p. p.spans) (separators list.now)) }
    ensures names { IfOk result (λ back. map ident_token (values back) ≡ map ident_token (values list.now)) }
    ensures marks { IfOk result (λ back.
        map (λ p. p.spans) (separators back) ≡ map (λ p. p.spans) (separators list.now)) }
    ensures taken { AreNames (values list.now) → IfErr result (λ e. IsSyntax e → ⊥) }
{
    reread(alloc, list)
}

/// Prints a list of names with punctuations of three marks between them, and reads it back: names of the same texts and
/// spans, and as many punctuations, each at its place. The list must have as many punctuations as names, or one fewer,
/// and each of them a span for each mark.
///
/// Where no name of the list is a keyword or `_`, the only fault is that memory was refused.
pub fn reread_three<const K: usize>(
    alloc: Global,
    list: &Punctuated<Ident, Punctuation<K, 3>>,
) -> Result<Punctuated<Ident, Punctuation<K, 3>>, ParseFault>
    requires separated { IsSeparated (values list.now) (separators list.now) }
    requires places { ArePlaces K 3 (map (λ p. p.spans) (separators list.now)) }
    ensures names { IfOk result (λ back. map ident_token (values back) ≡ map ident_token (values list.now)) }
    ensures marks { IfOk result (λ back.
        map (λ p. p.spans) (separators back) ≡ map (λ p. p.spans) (separators list.now)) }
    ensures taken { AreNames (values list.now) → IfErr result (λ e. IsSyntax e → ⊥) }
{
    reread(alloc, list)
}
