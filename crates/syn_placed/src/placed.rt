//! A tree, and the entries that it was read from.

ghost use Rattle.std.specs.Prelude.{◌-◌, ◌≡◌, ◌↔◌, [], None, length, map, option_map, slice_get};
ghost use Rattle.syn_buffer.specs.Entries.{entry_span, entry_token};
ghost use Rattle.syn_grammar.specs.Tree.{flat};

use reader_tree::tree::Tree;
use rust_map::span::Span;
use syn_buffer::buffer::TokenBuffer;
use syn_buffer::entry::Entry;

/// A tree, and the entries that it was read from: its tokens, each where it stands.
#[derive(Clone, Copy)]
pub struct Placed<'t, 'a> {
    pub(crate) tree: &'t Tree<'a>,
    pub(crate) entries: &'t [Entry<'a>],
    ghost is_spelled: { map entry_token entries.now ≡ flat tree.now },
}

impl<'t, 'a> Placed<'t, 'a> {
    /// A tree, and entries that are its tokens.
    pub fn new(tree: &'t Tree<'a>, entries: &'t [Entry<'a>]) -> Placed<'t, 'a>
        requires { map entry_token entries.now ≡ flat tree.now }
        ensures tree { result.tree.now ≡ tree.now }
        ensures entries { result.entries.now ≡ entries.now }
    {
        Placed { tree, entries }
    }

    /// A tree that was read of all tokens of a buffer, as `syn::parse_as` and `syn::parse_file` answer it.
    pub fn of_buffer(tree: &'t Tree<'a>, buffer: &'t TokenBuffer<'a>) -> Placed<'t, 'a>
        requires { flat tree.now ≡ map entry_token buffer.now.entries.items }
        ensures tree { result.tree.now ≡ tree.now }
        ensures entries { result.entries.now ≡ buffer.now.entries.items }
    {
        Placed::new(tree, buffer.entries())
    }

    /// The tree.
    pub fn tree(&self) -> &'t Tree<'a>
        ensures { result.now ≡ self.now.tree.now }
    {
        self.tree
    }

    /// What it was read from: its tokens, each where it stands.
    pub fn entries(&self) -> &'t [Entry<'a>]
        ensures is { result.now ≡ self.now.entries.now }
        ensures spelled { map entry_token result.now ≡ flat self.now.tree.now }
    {
        self.entries
    }

    /// Where its first token stands, if it has one.
    pub fn first_span(&self) -> Option<Span>
        ensures span { result ≡ option_map entry_span (slice_get self.now.entries.now 0) }
        ensures none { result ≡ None ↔ flat self.now.tree.now ≡ [] }
    {
        self.entries.first().map(|entry| entry.span())
    }

    /// Where its last token stands, if it has one. A mark that closes a group has the span of all of that.
    pub fn last_span(&self) -> Option<Span>
        ensures span { result
            ≡ option_map entry_span (slice_get self.now.entries.now (length self.now.entries.now - 1)) }
        ensures none { result ≡ None ↔ flat self.now.tree.now ≡ [] }
    {
        self.entries.last().map(|entry| entry.span())
    }
}
