//! Token trees and streams of them.

ghost use Rattle.proc_macro2.specs.Flat.{tree_tokens, trees_tokens};
ghost use Rattle.proc_macro2.specs.Stream.{IsStream};
ghost use Rattle.proc_macro2.specs.Trees.{tokens_at, tree_span};
ghost use Rattle.proc_macro2.specs.declared.tree.TokenTree.TheVariants as tree;
ghost use Rattle.rust_map.specs.Sources.{Sources, is_held};
ghost use Rattle.std.specs.Prelude.{◌≡◌, IfOk, IfSome, IsTrue};

use crate::copies::copied_trees;
use crate::delimiter::Delimiter;
use rust_leaf::ident::Ident;
use rust_leaf::literal::Literal;
use rust_leaf::punct::Punct;
use rust_map::span::Span;
use std::alloc::{AllocError, Global};
use std::marker::Model;
use std::rc::Rc;

/// A stream between delimiters.
#[cycle(tree)]
#[derive(Drop)]
pub struct Group {
    pub(crate) delimiter: Delimiter,
    pub(crate) stream: TokenStream,
    pub(crate) span: Span,
}

/// A list of token trees. To a contract it is the flat list of their tokens, each of which is one by
/// itself; a literal in it begins with no minus. Copies share the list, and one that is changed copies it first.
#[cycle(tree)]
pub struct TokenStream {
    pub(crate) alloc: Global,
    // An empty stream needs no list, and so no memory.
    pub(crate) shared: Option<Rc<Vec<TokenTree>>>,
}

/// A group, or one token.
#[cycle(tree)]
#[derive(Drop)]
pub enum TokenTree {
    /// A stream between delimiters.
    Group(Group),
    /// An identifier or a keyword.
    Ident(Ident),
    /// A punctuation mark.
    Punct(Punct),
    /// A literal.
    Literal(Literal),
}

impl Model for TokenStream {
    ghost use Rattle.proc_macro2.specs.Token.{Spanned};
    ghost use Rattle.std.specs.Prelude.{List, length};

    ghost Value = { List Spanned };

    ghost use Rattle.proc_macro2.specs.Flat.{held_tokens};

    ghost view = { λ s. held_tokens s.shared };

    ghost use Rattle.proc_macro2.specs.Stream.{IsStream};

    ghost invariant = { λ s. IsStream (held_tokens s.shared) };

    ghost size = { length };

    ghost use Rattle.proc_macro2.specs.Falls.{falls};

    ghost size_decreases = { λ s h. falls s };
}

// A stream nests as deep as its text, so its groups are dropped one by one: the trees of each are put behind those
// that are still to be dropped. A list that others share is only let go of.
impl Drop for TokenStream {
    #[tactic(auto, using(crate::proofs::Drops::dropping))]
    #[cycle(dropping)]
    fn drop(self) {
        let Some(mut pending) = self.into_last_list() else {
            return;
        };
        while let Some(tree) = pending.pop() {
            if let TokenTree::Group(group) = tree {
                let Group { stream, .. } = group;
                if let Some(mut inside) = stream.into_last_list() {
                    // Where memory is refused, the trees stay in their list and are dropped with it.
                    drop(pending.append(&mut inside));
                }
            }
        }
    }
}

impl TokenStream {
    // The stream of a list.
    pub(crate) fn of(alloc: Global, trees: Vec<TokenTree>) -> Result<TokenStream, AllocError>
        requires { IsStream (trees_tokens trees.items) }
        ensures { IfOk result (λ stream. stream ≡ trees_tokens trees.items) }
    {
        if trees.is_empty() {
            return Ok(TokenStream {
                alloc,
                shared: None,
            });
        }
        Ok(TokenStream {
            alloc,
            shared: Some(Rc::new(alloc, trees)?),
        })
    }

    // The list of a stream, which is copied if others share it.
    pub(crate) fn into_list(self) -> Result<Vec<TokenTree>, AllocError>
        ensures tokens { IfOk result (λ trees. trees_tokens trees.items ≡ self) }
        ensures known { IfOk result (λ trees. IsStream (trees_tokens trees.items)) }
    {
        let TokenStream { alloc, shared } = self;
        let Some(shared) = shared else {
            return Ok(Vec::new(alloc));
        };
        match Rc::try_unwrap(shared) {
            Ok(trees) => Ok(trees),
            Err(shared) => copied_trees(alloc, shared.as_slice()),
        }
    }

    // The list of a stream, if no other shares it.
    fn into_last_list(self) -> Option<Vec<TokenTree>>
        ensures { IfSome result (λ trees. trees_tokens trees.items ≡ self) }
    {
        let TokenStream { alloc: _, shared } = self;
        Rc::into_inner(shared?)
    }

    // Nothing, but that a proof learns what holds of each stream.
    pub(crate) fn known(&self)
        ensures { IsStream self.now }
    {
        let _ = &self.shared;
    }
}

impl TokenTree {
    ghost use Rattle.proc_macro2.specs.Held.{are_held};

    /// Where the tree stands: its token, or the group from its opening to its closing token. A map that
    /// holds the tree's spans holds it.
    #[tactic(auto, using(crate::proofs::Held::tree_held))]
    pub fn span(&self) -> Span
        ensures span { result ≡ tree_span self.now }
        ensures held { (map : Sources) → IsTrue (are_held map (tree_tokens self.now)) → IsTrue (is_held map result) }
    {
        match self {
            TokenTree::Group(group) => group.span,
            TokenTree::Ident(ident) => ident.span(),
            TokenTree::Punct(punct) => punct.span(),
            TokenTree::Literal(literal) => literal.span(),
        }
    }

    /// Places the tree elsewhere. Trees inside a group stay where they are.
    pub fn set_span(&mut self, span: Span)
        ensures { tree_tokens self.new ≡ tokens_at self.old span }
    {
        match self {
            TokenTree::Group(group) => group.span = span,
            TokenTree::Ident(ident) => ident.set_span(span),
            TokenTree::Punct(punct) => punct.set_span(span),
            TokenTree::Literal(literal) => literal.set_span(span),
        }
    }
}

impl From<Group> for TokenTree {
    ghost from_gives = { λ group t. t ≡ tree.Group group };

    fn from(group: Group) -> TokenTree {
        TokenTree::Group(group)
    }
}

impl From<Ident> for TokenTree {
    ghost from_gives = { λ ident t. t ≡ tree.Ident ident };

    fn from(ident: Ident) -> TokenTree {
        TokenTree::Ident(ident)
    }
}

impl From<Punct> for TokenTree {
    ghost from_gives = { λ punct t. t ≡ tree.Punct punct };

    fn from(punct: Punct) -> TokenTree {
        TokenTree::Punct(punct)
    }
}

impl From<Literal> for TokenTree {
    ghost from_gives = { λ literal t. t ≡ tree.Literal literal };

    fn from(literal: Literal) -> TokenTree {
        TokenTree::Literal(literal)
    }
}
