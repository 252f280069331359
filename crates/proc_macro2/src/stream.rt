//! Building token streams.
//!
//! A literal that begins with a minus stands in a stream as an `Alone` `-` and the rest, both
//! with the literal's span.

ghost use Rattle.proc_macro2.specs.Entered.{entered, literal_entered};
ghost use Rattle.proc_macro2.specs.Flat.{held_tokens, tree_tokens, trees_tokens};
ghost use Rattle.proc_macro2.specs.Held.{are_held};
ghost use Rattle.proc_macro2.specs.Stream.{IsStream};
ghost use Rattle.rust_leaf.specs.Leaf.{literal_span, literal_text};
ghost use Rattle.rust_map.specs.Sources.{Sources};
ghost use Rattle.std.specs.List.{All, flat_map};
ghost use Rattle.std.specs.Prelude.{[], ◌++◌, ◌≡◌, ◌↔◌, IfOk, IsTrue, OnErr, OnOk};

use crate::copies::copied_trees;
use crate::tree::{TokenStream, TokenTree};
use rust_leaf::literal::Literal;
use rust_leaf::minus::behind_minus;
use rust_leaf::punct::{Punct, Spacing};
use std::alloc::{AllocError, Global};
use std::rc::Rc;

impl TokenStream {
    /// The stream of no trees. It takes no memory.
    pub fn new(alloc: Global) -> TokenStream
        ensures { result ≡ [] }
    {
        TokenStream {
            alloc,
            shared: None,
        }
    }

    /// What the stream takes its memory from.
    pub fn allocator(&self) -> Global {
        self.alloc
    }

    /// Whether the stream has no trees.
    pub fn is_empty(&self) -> bool
        ensures { IsTrue result ↔ (self.now ≡ []) }
    {
        self.trees().is_empty()
    }

    /// The trees of the stream, in order, lent: no memory is taken. Groups come whole. A map that holds the stream's
    /// spans holds those of each tree.
    #[tactic(auto, using(crate::proofs::Held::trees_held))]
    pub fn trees(&self) -> &[TokenTree]
        ensures trees { trees_tokens result.now ≡ self.now }
        ensures held { (map : Sources) → IsTrue (are_held map self.now)
            → All (λ tree. IsTrue (are_held map (tree_tokens tree))) result.now }
    {
        match &self.shared {
            Some(trees) => trees.as_slice(),
            None => &[],
        }
    }

    /// The stream of one tree. `AllocError` if memory is refused: the tree is dropped.
    pub fn from_tree(alloc: Global, tree: TokenTree) -> Result<TokenStream, AllocError>
        ensures { IfOk result (λ s. s ≡ entered tree) }
    {
        let mut trees = Vec::new(alloc);
        enter(alloc, &mut trees, tree)?;
        TokenStream::of(alloc, trees)
    }

    /// The stream of the trees, in their order. `AllocError` if memory is refused: the trees are dropped.
    pub fn from_trees(alloc: Global, trees: Vec<TokenTree>) -> Result<TokenStream, AllocError>
        ensures { IfOk result (λ s. s ≡ flat_map entered trees.items) }
    {
        TokenStream::of(alloc, entered_trees(alloc, trees)?)
    }

    /// The streams one behind the other. `AllocError` if memory is refused: the streams are dropped. The list of the
    /// first one is kept if no copy shares it.
    pub fn from_streams(alloc: Global, streams: Vec<TokenStream>) -> Result<TokenStream, AllocError>
        ensures { IfOk result (λ s. s ≡ flat_map (λ t. t) streams.items) }
    {
        let mut all = TokenStream::new(alloc);
        for stream in streams {
            all.push_stream(stream)?;
        }
        Ok(all)
    }

    /// Adds the trees at the end. `AllocError` if memory is refused: the stream is as before, and the trees are
    /// dropped.
    pub fn extend_trees(&mut self, trees: Vec<TokenTree>) -> Result<(), AllocError>
        ensures ok { OnOk result (self.new ≡ self.old ++ flat_map entered trees.items) }
        ensures err { OnErr result (self.new ≡ self.old) }
    {
        let added = entered_trees(self.alloc, trees)?;
        add_trees(self.alloc, &mut self.shared, added)
    }

    /// Adds the streams at the end. `AllocError` if memory is refused: the stream is as before, and the others are
    /// dropped.
    pub fn extend_streams(&mut self, streams: Vec<TokenStream>) -> Result<(), AllocError>
        ensures ok { OnOk result (self.new ≡ self.old ++ flat_map (λ t. t) streams.items) }
        ensures err { OnErr result (self.new ≡ self.old) }
    {
        let added = TokenStream::from_streams(self.alloc, streams)?;
        self.push_stream(added)
    }

    /// Adds the tree at the end. `AllocError` if memory is refused: the stream is as before, and the tree is dropped.
    pub fn push_tree(&mut self, tree: TokenTree) -> Result<(), AllocError>
        ensures ok { OnOk result (self.new ≡ self.old ++ entered tree) }
        ensures err { OnErr result (self.new ≡ self.old) }
    {
        add_tree(self.alloc, &mut self.shared, tree)
    }

    /// Adds the other stream at the end. `AllocError` if memory is refused, which is asked for only where both streams
    /// have trees: the stream is as before, and the other one is dropped.
    pub fn push_stream(&mut self, other: TokenStream) -> Result<(), AllocError>
        ensures ok { OnOk result (self.new ≡ self.old ++ other) }
        ensures err { OnErr result (self.new ≡ self.old) }
    {
        if self.is_empty() {
            *self = other;
            return Ok(());
        }
        let added = other.into_list()?;
        add_trees(self.alloc, &mut self.shared, added)
    }
}

// Adds trees behind those of a list, which is copied first if others share it. If memory is refused, they are as
// before. None need no memory.
fn add_trees(
    alloc: Global,
    shared: &mut Option<Rc<Vec<TokenTree>>>,
    mut added: Vec<TokenTree>,
) -> Result<(), AllocError>
    ensures ok { OnOk result (held_tokens shared.new ≡ held_tokens shared.old ++ trees_tokens added.items) }
    ensures err { OnErr result (held_tokens shared.new ≡ held_tokens shared.old) }
{
    if added.is_empty() {
        return Ok(());
    }
    let Some(held) = shared else {
        *shared = Some(Rc::new(alloc, added)?);
        return Ok(());
    };
    if let Some(trees) = Rc::get_mut(held) {
        trees.append(&mut added)?;
        return Ok(());
    }
    let mut trees = copied_trees(alloc, held.as_slice())?;
    trees.append(&mut added)?;
    *shared = Some(Rc::new(alloc, trees)?);
    Ok(())
}

// Adds a tree, as it stands in a stream, behind those of a list, which is copied first if others share it. If memory is
// refused, they are as before.
fn add_tree(
    alloc: Global,
    shared: &mut Option<Rc<Vec<TokenTree>>>,
    tree: TokenTree,
) -> Result<(), AllocError>
    ensures ok { OnOk result (held_tokens shared.new ≡ held_tokens shared.old ++ entered tree) }
    ensures known { OnOk result (IsStream (entered tree)) }
    ensures err { OnErr result (held_tokens shared.new ≡ held_tokens shared.old) }
{
    let Some(held) = shared else {
        let mut trees = Vec::new(alloc);
        enter(alloc, &mut trees, tree)?;
        *shared = Some(Rc::new(alloc, trees)?);
        return Ok(());
    };
    if let Some(trees) = Rc::get_mut(held) {
        return enter(alloc, trees, tree);
    }
    let mut trees = copied_trees(alloc, held.as_slice())?;
    enter(alloc, &mut trees, tree)?;
    *shared = Some(Rc::new(alloc, trees)?);
    Ok(())
}

// Trees as they stand in a stream.
fn entered_trees(alloc: Global, trees: Vec<TokenTree>) -> Result<Vec<TokenTree>, AllocError>
    ensures entered { IfOk result (λ all. trees_tokens all.items ≡ flat_map entered trees.items) }
    ensures known { IfOk result (λ all. IsStream (trees_tokens all.items)) }
{
    let mut all = Vec::with_capacity(alloc, trees.len())?;
    for tree in trees {
        enter(alloc, &mut all, tree)?;
    }
    Ok(all)
}

// Adds a tree as it stands in a stream. If memory is refused, the trees are as before.
fn enter(alloc: Global, trees: &mut Vec<TokenTree>, tree: TokenTree) -> Result<(), AllocError>
    ensures added { OnOk result (trees_tokens trees.new.items ≡ trees_tokens trees.old.items ++ entered tree) }
    ensures known { OnOk result (IsStream (entered tree)) }
    ensures err { OnErr result (trees.new.items ≡ trees.old.items) }
{
    match tree {
        TokenTree::Literal(literal) => enter_literal(alloc, trees, literal),
        TokenTree::Group(group) => {
            group.stream.known();
            trees.push(TokenTree::Group(group))?;
            Ok(())
        }
        TokenTree::Ident(ident) => {
            trees.push(TokenTree::Ident(ident))?;
            Ok(())
        }
        TokenTree::Punct(punct) => {
            trees.push(TokenTree::Punct(punct))?;
            Ok(())
        }
    }
}

// Adds a literal as it stands in a stream. If memory is refused, the trees are as before.
#[tactic(auto, unfolding(rust_leaf::specs::Mark::is_mark))]
fn enter_literal(
    alloc: Global,
    trees: &mut Vec<TokenTree>,
    literal: Literal,
) -> Result<(), AllocError>
    ensures added { OnOk result (trees_tokens trees.new.items
        ≡ trees_tokens trees.old.items ++ literal_entered (literal_text literal) (literal_span literal)) }
    ensures known { OnOk result (IsStream (literal_entered (literal_text literal) (literal_span literal))) }
    ensures err { OnErr result (trees.new.items ≡ trees.old.items) }
{
    let Some(digits) = behind_minus(literal.as_str()) else {
        trees.push(TokenTree::Literal(literal))?;
        return Ok(());
    };
    let mut minus = Punct::new('-', Spacing::Alone);
    minus.set_span(literal.span());
    let rest = Literal::from_text(alloc, digits, literal.span())?;
    trees.reserve(2)?;
    trees.push(TokenTree::Punct(minus))?;
    trees.push(TokenTree::Literal(rest))?;
    Ok(())
}
