//! Trees that are built from tokens in their order, without recursion.

ghost use Rattle.proc_macro2.specs.Built.{IsAdded, IsClosing, IsOpened};
ghost use Rattle.proc_macro2.specs.Flat.{tree_tokens};
ghost use Rattle.proc_macro2.specs.Stack.{IsInnermost, IsTaken};
ghost use Rattle.proc_macro2.specs.Stream.{IsStream};
ghost use Rattle.std.specs.List.{All};
ghost use Rattle.std.specs.Prelude.{[], ◌++◌, ◌≡◌, ◌+◌, ◌≤◌, IfErr, IfOk, MatchOption, OnOk};

use crate::delimiter::Delimiter;
use crate::tree::{Group, TokenStream, TokenTree};
use rust_map::span::Span;
use std::alloc::{AllocError, Global};
use std::marker::Model;

/// A stretch of a text: the span of the text, and the numbers of its characters between which the
/// stretch lies.
#[derive(Clone, Copy)]
pub(crate) struct Stretch {
    pub(crate) whole: Span,
    pub(crate) from: u32,
    pub(crate) to: u32,
}

/// A group that is open: its delimiter, the number of characters before its opening mark, and how many trees
/// of the stack were put before it.
#[derive(Clone, Copy)]
pub(crate) struct Frame {
    pub(crate) delimiter: Delimiter,
    pub(crate) count: u32,
    pub(crate) mark: usize,
}

/// The groups that are open, and one stack of trees: those of a group lie behind those before it, so that a group
/// that closes takes what stands behind its mark. To a contract it is what encloses each group and stands before it,
/// and the tokens of the innermost.
#[derive(Drop)]
pub(crate) struct Builder {
    frames: Vec<Frame>,
    trees: Vec<TokenTree>,
}

impl Model for Builder {
    ghost use Rattle.proc_macro2.specs.Stack.{IsStack, Open, open_of};
    ghost use Rattle.std.specs.Prelude.{reverse};

    ghost Value = { Open };

    ghost view = { λ b. open_of (reverse b.frames.items) b.trees.items };

    ghost invariant = { λ b. IsStack (reverse b.frames.items) b.trees.items };
}

impl Builder {
    /// No group is open, and no tree was put.
    pub(crate) fn new(alloc: Global) -> Builder
        ensures groups { result.groups ≡ [] }
        ensures inside { result.inside ≡ [] }
    {
        Builder {
            frames: Vec::new(alloc),
            trees: Vec::new(alloc),
        }
    }

    /// Opens a group, whose mark stands behind so many characters.
    #[inline(always)]
    pub(crate) fn open(&mut self, delimiter: Delimiter, count: u32) -> Result<(), AllocError>
        ensures { OnOk result (IsOpened self.old self.new delimiter count) }
    {
        let mark = self.trees.len();
        self.frames.push(Frame {
            delimiter,
            count,
            mark,
        })?;
        Ok(())
    }

    /// Adds a tree to the innermost group.
    #[inline(always)]
    pub(crate) fn put(&mut self, tree: TokenTree) -> Result<(), AllocError>
        requires { IsStream (tree_tokens tree) }
        ensures { OnOk result (IsAdded self.old self.new (tree_tokens tree)) }
    {
        self.trees.push(tree)?;
        Ok(())
    }

    // Takes the innermost of the groups that are open off them: its frame, and its trees in a list of their size.
    fn take_innermost(&mut self) -> Result<Option<(Frame, TokenStream)>, AllocError>
        ensures { IfOk result (λ found. MatchOption found (self.old.groups ≡ [])
            (λ taken. IsTaken self.old self.new taken.0 taken.1)) }
    {
        let Some(frame) = self.frames.pop() else {
            return Ok(None);
        };
        let trees = self.trees.split_off(frame.mark)?;
        let alloc = *trees.allocator();
        Ok(Some((frame, TokenStream::of(alloc, trees)?)))
    }

    /// Closes the innermost group by a mark that stands there. False: the mark closes nothing.
    pub(crate) fn close(&mut self, delimiter: Delimiter, mark: Stretch) -> Result<bool, AllocError>
        requires before { All (λ g. g.count ≤ mark.to) self.old.groups }
        requires within { mark.whole.start + mark.to ≤ mark.whole.end }
        ensures { IfOk result (λ ok. IsClosing ok self.old self.new delimiter mark.whole mark.to) }
    {
        let Some((frame, stream)) = self.take_innermost()? else {
            return Ok(false);
        };
        if frame.delimiter != delimiter {
            return Ok(false);
        }
        stream.known();
        let group = Group {
            delimiter,
            stream,
            span: mark.whole.part(frame.count, mark.to),
        };
        self.put(TokenTree::Group(group))?;
        Ok(true)
    }

    /// All trees, in a list of their size, if no group is open; else the innermost of the groups that are.
    pub(crate) fn finish(self) -> Result<Result<TokenStream, Frame>, AllocError>
        ensures whole { IfOk result (λ found. IfOk found (λ stream. (self.groups ≡ []) × (stream ≡ self.inside))) }
        ensures unclosed { IfOk result (λ found. IfErr found (λ frame. IsInnermost self.groups frame.count)) }
    {
        let Builder {
            mut frames,
            mut trees,
        } = self;
        if let Some(frame) = frames.pop() {
            return Ok(Err(frame));
        }
        trees.shrink_to_fit();
        let alloc = *trees.allocator();
        Ok(Ok(TokenStream::of(alloc, trees)?))
    }
}
