//! Why tokens were not read.

ghost use Rattle.reader_steps.specs.Answers.{IsSyntax};
ghost use Rattle.reader_steps.specs.Places.{refused_at, refused_span};
ghost use Rattle.std.specs.Prelude.{◌≡◌};

use proc_macro2::delimiter::Delimiter;
use reader_table::kind::Kind;
use reader_table::op::Verdicts;
use reader_table::word::{Literals, Sign, Words};
use rust_map::span::Span;
use std::alloc::{AllocError, AllocFailed};
use syn_buffer::entry::Entry;

/// What was wanted.
#[derive(Clone, Copy, Drop)]
pub enum Wanted {
    /// A word that passes.
    Word(Words),
    /// A literal that passes.
    Literal(Literals),
    /// A punctuation.
    Mark(Sign),
    /// The mark that separates the elements of a list.
    Separator,
    /// `'` and a word.
    Lifetime,
    /// A group.
    Group(Delimiter),
    /// The end of the group.
    End,
    /// An expression.
    Expression,
    /// An operator that is not chained with the one before it.
    Unchained,
    /// What is judged otherwise.
    Judged(Verdicts),
    /// A node of that kind, no token of which stands there.
    Node(Kind),
    /// Nothing that could stand there.
    Nothing,
}

/// Where tokens could not be read, and what was wanted there.
#[derive(Clone, Copy, Drop)]
pub struct Wrong {
    /// Where the token stands, or the last character of the group whose inside ends there; none at the end of all
    /// tokens.
    pub span: Option<Span>,
    /// Whether no token is left, in the group or at all.
    pub is_end: bool,
    /// What was wanted there.
    pub wanted: Wanted,
}

/// Why tokens were not read.
#[derive(Clone, Copy, Drop)]
pub enum Refusal {
    /// Memory ran out.
    Memory,
    /// The run was longer than it may be. No public call answers so.
    Late,
    /// No tree of the kind begins there.
    Syntax(Wrong),
}

impl From<AllocError> for Refusal {
    ghost use Rattle.reader_steps.specs.declared.refusal.Refusal.TheVariants.{Memory};
    ghost use Rattle.std.specs.Prelude.{◌≡◌};

    ghost from_gives = { λ _ refusal. refusal ≡ Memory };

    fn from(_: AllocError) -> Refusal {
        Refusal::Memory
    }
}

impl<T: Drop> From<AllocFailed<T>> for Refusal {
    ghost use Rattle.reader_steps.specs.declared.refusal.Refusal.TheVariants.{Memory};
    ghost use Rattle.std.specs.Prelude.{◌≡◌};

    ghost from_gives = { λ _ refusal. refusal ≡ Memory };

    fn from(_: AllocFailed<T>) -> Refusal {
        Refusal::Memory
    }
}

/// That is wanted where that stands.
pub(crate) fn refuse_at(wanted: Wanted, span: Span) -> Refusal
    ensures syntax { IsSyntax result }
    ensures place { result ≡ refused_span wanted span }
{
    Refusal::Syntax(Wrong {
        span: Some(span),
        is_end: false,
        wanted,
    })
}

/// That is wanted where the first of these stands.
pub(crate) fn refuse(wanted: Wanted, at: &[Entry<'_>]) -> Refusal
    ensures syntax { IsSyntax result }
    ensures place { result ≡ refused_at wanted at.now }
{
    let span = match at.first() {
        Some(entry) => Some(entry.span()),
        None => None,
    };
    Refusal::Syntax(Wrong {
        span,
        is_end: at.is_empty(),
        wanted,
    })
}
