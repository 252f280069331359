//! Invisible groups.

ghost use Rattle.proc_macro2.specs.Token.{Spanned};
ghost use Rattle.proc_macro2.specs.declared.delimiter.Delimiter.TheVariants as delimiter;
ghost use Rattle.rust_map.specs.Spans.{call_site};
ghost use Rattle.std.specs.Fn.{FnOnceReturnsAtMut};
ghost use Rattle.std.specs.Prelude.{[], ◌++◌, ◌≡◌, List, Ok, OnOk, Some, codes};
ghost use Rattle.syn_error.specs.Front.{Keeps};
ghost use Rattle.syn_kinds.specs.Values.{enclosed};

use crate::delimiters::put_group;
use proc_macro2::delimiter::Delimiter;
use proc_macro2::tree::TokenStream;
use rust_map::span::Span;
use std::alloc::AllocError;
use std::fmt;
use try_clone::TryClone;

/// What encloses an invisible group. All are equal. Places in a buffer pass through such groups, so whoever looks for
/// one finds none.
#[derive(Clone, Copy, Debug)]
#[derive_where(PartialEq, Eq, Hash)]
pub struct Group {
    /// Where the group stands.
    #[derive_where(skip(EqHashOrd))]
    pub span: Span,
}

impl Group {
    /// What encloses a group that stands there.
    pub fn new(span: Span) -> Group
        ensures { result.span ≡ span }
    {
        Group { span }
    }

    /// How a message shows the kind.
    pub fn display() -> &'static str
        ensures { result.now ≡ codes "invisible group" }
    {
        "invisible group"
    }

    /// Where the group stands.
    pub fn span(&self) -> Span
        ensures { result ≡ self.now.span }
    {
        self.span
    }

    /// Sets where the group stands.
    pub fn set_span(&mut self, span: Span)
        ensures { self.new.span ≡ span }
    {
        self.span = span;
    }

    /// Adds the group of what stands inside. If memory is refused, the tokens are as before.
    pub fn enclose(&self, tokens: &mut TokenStream, inside: TokenStream) -> Result<(), AllocError>
        ensures put { OnOk result (tokens.new ≡ tokens.old ++ enclosed delimiter.None self.now.span inside) }
        ensures keeps { Keeps tokens.old tokens.new }
    {
        put_group(tokens, Delimiter::None, self.span, inside)
    }

    /// Adds the group of what the function prints, which must be one that may be called on any tokens.
    ///
    /// The error is that memory was refused, to this call or to the function. The tokens are as before then.
    pub fn surround<F>(&self, tokens: &mut TokenStream, f: F) -> Result<(), AllocError>
    where
        F: FnOnce(&mut TokenStream) -> Result<(), AllocError>,
        requires { F.IsAlwaysCallable f }
        ensures put { OnOk result ((inside : List Spanned) × FnOnceReturnsAtMut F.FnOnce f [] (Ok tt) inside
            × (tokens.new ≡ tokens.old ++ enclosed delimiter.None self.now.span inside)) }
        ensures keeps { Keeps tokens.old tokens.new }
    {
        let mut inside = TokenStream::new(tokens.allocator());
        f(&mut inside)?;
        self.enclose(tokens, inside)
    }
}

impl fmt::Display for Group {
    ghost output = { λ _. Some (codes "invisible group") };

    /// Shows the kind as a message does.
    fn fmt<W: fmt::Write>(&self, f: &mut fmt::Formatter<W>) -> fmt::Result {
        f.write_str(Group::display())
    }
}

impl Default for Group {
    ghost is_default = { λ group. group.span ≡ call_site };

    /// What encloses a group that stands at the call site.
    fn default() -> Group {
        Group::new(Span::call_site())
    }
}

impl TryClone for Group {
    ghost use Rattle.rust_map.specs.declared.span.Span.{Span};

    ghost Shown = { Span };

    ghost shown = { λ group. group.span };

    /// A copy, which takes no memory.
    fn try_clone(&self) -> Result<Group, AllocError> {
        Ok(*self)
    }
}
