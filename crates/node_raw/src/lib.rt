//! Raw tokens of a tree, as a stream of trees.
#![tactic(auto)]

ghost use Rattle.node_shapes.specs.Shape.{IsShaped};
ghost use Rattle.node_shapes.specs.Streams.{are_trees};
ghost use Rattle.node_words.specs.Words as words;
ghost use Rattle.proc_macro2.specs.Token.{plain};
ghost use Rattle.std.specs.Prelude.{◌≡◌, IfOk, map, true};
ghost use Rattle.syn_buffer.specs.Entries.{entry_token};
ghost use Rattle.syn_grammar.specs.Gram as g;
ghost use Rattle.syn_grammar.specs.Kept.{kept};

use proc_macro2::tree::TokenStream;
use reader_tree::tree::{Form, Tree};
use std::alloc::{AllocError, Global};
use syn_buffer::entry::Entry;
use syn_tokens::tokens::stream_of;
use writer_print::piece::Piece;

// The stream of entries that are those of trees.
#[tactic(auto, using(crate::proofs::Streams::same_trees))]
fn stream(alloc: Global, entries: &[Entry<'_>]) -> Result<TokenStream, AllocError>
    requires { are_trees (map entry_token entries.now) ≡ true }
    ensures { IfOk result (λ s. plain s ≡ map entry_token entries.now) }
{
    let mut pieces = Vec::new(alloc);
    for entry in entries {
        pieces.push(Piece::of(entry))?;
    }
    match stream_of(alloc, pieces.as_slice())? {
        Some(stream) => Ok(stream),
        None => unreachable!(),
    }
}

/// Raw tokens, each where it was read.
///
/// # Errors
///
/// Where there is no memory for them.
#[tactic(auto, using(node_take::proofs::Takes::takes))]
pub fn raw(alloc: Global, tree: &Tree<'_>) -> Result<TokenStream, AllocError>
    requires { IsShaped tree.now g.raw }
    ensures { IfOk result (λ s. words.raw s ≡ kept tree.now) }
{
    match &tree.form {
        Form::Raw(held) => stream(alloc, held.entries),
        _ => unreachable!(),
    }
}
