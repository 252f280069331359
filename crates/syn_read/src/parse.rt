//! Tokens that are one form of a kind.

ghost use Rattle.reader_steps.specs.Answers.{tokens};
ghost use Rattle.reader_table.specs.Kinds.{kind_of};
ghost use Rattle.std.specs.Prelude.{IfErr, IfOk};
ghost use Rattle.syn_read.specs.Parsed.{IsAll, IsNone};
ghost use Rattle.syn_error.specs.Faults.{IsSyntax};
ghost use Rattle.syn_grammar.specs.Kind.{AFile};
ghost use Rattle.syn_grammar.specs.Read.{IsDerived, NoneRead};

use reader_rust::grammar::Grammar;
use reader_rust::said::error;
use reader_steps::read::read;
use reader_steps::refusal::{Refusal, Wanted, Wrong};
use reader_table::kind::Kind;
use reader_tree::arena::Arena;
use reader_tree::tree::Tree;
use std::alloc::Global;
use syn_buffer::TokenBuffer;
use syn_buffer::entry::Entry;
use syn_error::ParseFault;

/// The form of the kind with which the tokens of the buffer begin, and what is left behind it.
///
/// # Errors
///
/// `Syntax` exactly where they begin with none: the error says what was wanted, at the token that stands in its place.
/// `Memory` only where a growth was refused.
pub fn parse_front<'a>(
    arena: &'a Arena,
    kind: Kind,
    buffer: &'a TokenBuffer<'a>,
) -> Result<(Tree<'a>, &'a [Entry<'a>]), ParseFault>
    ensures read { IfOk result (λ x.
        IsDerived (kind_of kind) (tokens buffer.now.entries.items) x.0 (tokens x.1.now)) }
    ensures refused { IfErr result (λ e. IsSyntax e → NoneRead (kind_of kind) (tokens buffer.now.entries.items)) }
{
    match read(&Grammar, arena, kind, buffer.entries()) {
        Ok(found) => Ok(found),
        Err(Refusal::Syntax(wrong)) => Err(ParseFault::Syntax(error(arena.alloc(), wrong)?)),
        Err(Refusal::Memory) => Err(ParseFault::Memory),
        Err(Refusal::Late) => unreachable!(),
    }
}

// What is said of a token that stands behind a whole form.
fn left_over(alloc: Global, entry: &Entry<'_>) -> ParseFault {
    let wrong = Wrong {
        span: Some(entry.span()),
        is_end: false,
        wanted: Wanted::End,
    };
    match error(alloc, wrong) {
        Ok(error) => ParseFault::Syntax(error),
        Err(_) => ParseFault::Memory,
    }
}

/// All tokens of the buffer as one form of the kind.
///
/// # Errors
///
/// `Syntax` exactly where they are none: the error says what was wanted, at the token that stands in its place, which
/// behind a form that is whole is no token. `Memory` only where a growth was refused.
#[tactic(auto, using(crate::proofs::Wholes::all_read))]
pub fn parse_as<'a>(
    arena: &'a Arena,
    kind: Kind,
    buffer: &'a TokenBuffer<'a>,
) -> Result<Tree<'a>, ParseFault>
    ensures read { IfOk result (IsAll (kind_of kind) (tokens buffer.now.entries.items)) }
    ensures refused { IfErr result (λ e. IsSyntax e → IsNone (kind_of kind) (tokens buffer.now.entries.items)) }
{
    match parse_front(arena, kind, buffer) {
        Err(fault) => Err(fault),
        Ok((tree, rest)) => match rest.split_first() {
            None => Ok(tree),
            Some((entry, _)) => Err(left_over(arena.alloc(), entry)),
        },
    }
}

/// All tokens of the buffer as a file.
///
/// # Errors
///
/// Those of `parse_as`.
pub fn parse_file<'a>(arena: &'a Arena, buffer: &'a TokenBuffer<'a>) -> Result<Tree<'a>, ParseFault>
    ensures read { IfOk result (IsAll AFile (tokens buffer.now.entries.items)) }
    ensures refused { IfErr result (λ e. IsSyntax e → IsNone AFile (tokens buffer.now.entries.items)) }
{
    parse_as(arena, Kind::AFile, buffer)
}
