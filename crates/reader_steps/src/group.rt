//! Groups: what stands inside one, and behind it.

ghost use Rattle.reader_steps.specs.Answers.{Fails, Gives, tokens};
ghost use Rattle.reader_steps.specs.Places.{closed_by};
ghost use Rattle.proc_macro2.specs.Groups.{same_delimiter};
ghost use Rattle.proc_macro2.specs.Token.{Token};
ghost use Rattle.std.specs.Prelude.{◌≡◌, IfOk, IfSome, IsTrue, List, MatchOption};
ghost use Rattle.syn_buffer.specs.Entries.{is_whole};
ghost use Rattle.syn_grammar.specs.Run.{Got, Out, Refused, group_at, whole};

use crate::refusal::{Refusal, Wrong, refuse_at};
use crate::unfit::wanted_behind;
use proc_macro2::delimiter::Delimiter;
use reader_group::made::{self, Unmade};
use reader_tree::arena::Arena;
use reader_tree::tree::Tree;
use rust_map::span::Span;
use syn_buffer::entry::Entry;

/// A group that was entered.
#[derive(Clone, Copy)]
pub(crate) struct Opened<'a> {
    /// Where all of it stands.
    pub(crate) span: Span,
    /// What stands inside.
    pub(crate) inside: &'a [Entry<'a>],
    /// What stands behind it.
    pub(crate) behind: &'a [Entry<'a>],
}

// Whether two delimiters are one.
fn is_same(found: Delimiter, wanted: Delimiter) -> bool
    ensures { result ≡ same_delimiter found wanted }
{
    match wanted {
        Delimiter::Parenthesis => matches!(found, Delimiter::Parenthesis),
        Delimiter::Brace => matches!(found, Delimiter::Brace),
        Delimiter::Bracket => matches!(found, Delimiter::Bracket),
        Delimiter::None => matches!(found, Delimiter::None),
    }
}

/// The group with that delimiter that stands there.
#[tactic(auto, unfolding(syn_grammar::specs::Run::group_at))]
pub(crate) fn enter<'a>(delimiter: Delimiter, at: &'a [Entry<'a>]) -> Option<Opened<'a>>
    requires { IsTrue (is_whole at.now) }
    ensures enters { MatchOption result
        ((f : List Token → Out) → group_at delimiter f (tokens at.now) ≡ Refused)
        (λ o. (f : List Token → Out) → group_at delimiter f (tokens at.now)
        ≡ whole delimiter (tokens o.behind.now) (f (tokens o.inside.now))) }
    ensures inside { IfSome result (λ o. IsTrue (is_whole o.inside.now)) }
    ensures behind { IfSome result (λ o. IsTrue (is_whole o.behind.now)) }
{
    let (entry, rest) = at.split_first()?;
    let Entry::Open(found, span, count) = *entry else {
        return None;
    };
    if !is_same(found, delimiter) {
        return None;
    }
    Some(Opened {
        span,
        inside: &rest[..count],
        behind: &rest[count + 1..],
    })
}

/// What was refused inside a group of that span: at the end of the inside it stands where the group closes.
pub(crate) fn closed(refusal: Refusal, span: Span) -> Refusal
    ensures fails { (o : Out) → Fails refusal o → Fails result o }
    ensures place { result ≡ closed_by span refusal }
{
    match refusal {
        Refusal::Syntax(wrong) => Refusal::Syntax(Wrong {
            span: Some(wrong.span.unwrap_or(span.last_character())),
            is_end: wrong.is_end,
            wanted: wrong.wanted,
        }),
        Refusal::Memory => Refusal::Memory,
        Refusal::Late => Refusal::Late,
    }
}

/// A group, of what was read of its inside, where that is all of it; and what stands behind it.
#[inline(always)]
pub(crate) fn grouped<'a>(
    arena: &'a Arena,
    delimiter: Delimiter,
    span: Span,
    behind: &'a [Entry<'a>],
    inside: Tree<'a>,
    left: &'a [Entry<'a>],
) -> Result<(Tree<'a>, &'a [Entry<'a>]), Refusal>
    requires { IsTrue (is_whole behind.now) }
    ensures answer { Gives (λ x. x.0) (λ x. x.1.now) result
        (whole delimiter (tokens behind.now) (Got inside.entry (tokens left.now))) }
    ensures whole { IfOk result (λ x. IsTrue (is_whole x.1.now)) }
{
    match made::grouped(arena, delimiter, span, inside, left) {
        Ok(group) => Ok((group, behind)),
        Err(Unmade::Memory) => Err(Refusal::Memory),
        Err(Unmade::Unread(first, inside)) => Err(refuse_at(wanted_behind(&inside), first)),
    }
}
