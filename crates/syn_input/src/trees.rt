//! Reading token trees and streams.

use crate::input::ParseBuffer;
use crate::parse::Parse;
use proc_macro2::tree::{Group, TokenStream, TokenTree};
use syn_error::fault::ParseFault;

// A tree may be an invisible group, of which the tokens inside are seen.
impl Parse for TokenTree {
    ghost use Rattle.proc_macro2.specs.Flat.{tree_tokens};
    ghost use Rattle.std.specs.Prelude.{[], ◌++◌, ◌≡◌};
    ghost use Rattle.syn_buffer.specs.Seen.{seen};

    ghost reads = { λ ts x us. ts ≡ seen (tree_tokens x) ++ us };

    ghost refuses = { λ ts. ts ≡ [] };

    fn parse(input: &mut ParseBuffer<'_>) -> Result<TokenTree, ParseFault> {
        match input.cursor.token_tree(input.alloc)? {
            Some((tree, behind)) => {
                input.cursor = behind;
                Ok(tree)
            }
            None => Err(input.expected("token tree")),
        }
    }
}

// The visible group that stands there, which is what it opens with, its inside and what it closes with.
impl Parse for Group {
    ghost use Rattle.proc_macro2.specs.Flat.{group_tokens};
    ghost use Rattle.proc_macro2.specs.Token.{plain};
    ghost use Rattle.std.specs.Prelude.{◌++◌, ◌≡◌, false};
    ghost use Rattle.syn_buffer.specs.Seen.{seen};
    ghost use Rattle.syn_buffer.specs.Stands.{any_group_stands};

    ghost reads = { λ ts x us. ts ≡ seen (group_tokens x) ++ us };

    ghost refuses = { λ ts. any_group_stands (plain ts) ≡ false };

    fn parse(input: &mut ParseBuffer<'_>) -> Result<Group, ParseFault> {
        match input.cursor.any_group() {
            Some((inside, delimiter, span, behind)) => {
                let mut group = Group::new(delimiter, inside.token_stream(input.alloc)?);
                group.set_span(span.join());
                input.cursor = behind;
                Ok(group)
            }
            None => Err(input.expected("group")),
        }
    }
}

// All that is left of the list.
impl Parse for TokenStream {
    ghost use Rattle.std.specs.Prelude.{[], ◌≡◌};
    ghost use Rattle.syn_buffer.specs.Seen.{seen};

    ghost reads = { λ ts x us. (ts ≡ seen x) × (us ≡ []) };

    ghost refuses = { λ _. ⊥ };

    fn parse(input: &mut ParseBuffer<'_>) -> Result<TokenStream, ParseFault> {
        let stream = input.cursor.token_stream(input.alloc)?;
        input.cursor = input.cursor.at_end();
        Ok(stream)
    }
}
