//! The forms that tokens begin with: a file, and its parts.

ghost use Rattle.canon.specs.Unread.{IsUnread, IsUnreadAs};
ghost use Rattle.canon.specs.declared.file.Unread.TheVariants.{Memory};
ghost use Rattle.laws_programs.specs.Program.{IsFile};
ghost use Rattle.reader_steps.specs.Answers.{tokens};
ghost use Rattle.reader_table.specs.Kinds.{kind_of};
ghost use Rattle.proc_macro2.specs.Token.{plain};
ghost use Rattle.std.specs.Prelude.{◌≡◌, IfErr, IfOk, IsTrue};
ghost use Rattle.syn_buffer.specs.Entries.{is_whole, spanned_entries};
ghost use Rattle.syn_grammar.specs.Read.{IsDerived};

use reader_rust::grammar::Grammar;
use reader_steps::pending::Work;
use reader_steps::read::read_with;
use reader_steps::refusal::{Refusal, Wrong};
use reader_table::kind::Kind;
use reader_tree::arena::Arena;
use reader_tree::tree::Tree;
use std::alloc::AllocError;
use syn_buffer::entry::Entry;

/// Why no form was read.
#[derive(Clone, Copy, Drop)]
pub(crate) enum Unread {
    /// A growth was refused.
    Memory,
    /// No such form stands there: what was wanted, and where.
    Syntax(Wrong),
}

impl From<AllocError> for Unread {
    ghost from_gives = { λ _ unread. unread ≡ Memory };

    fn from(_: AllocError) -> Unread {
        Unread::Memory
    }
}

/// The form of the kind with which whole entries begin, and what is left behind it.
///
/// # Errors
///
/// `Syntax` exactly where they begin with none. `Memory` only where a growth was refused.
pub(crate) fn read_form<'a>(
    arena: &'a Arena,
    kind: Kind,
    entries: &'a [Entry<'a>],
) -> Result<(Tree<'a>, &'a [Entry<'a>]), Unread>
    requires { IsTrue (is_whole entries.now) }
    ensures found { IfOk result (λ x. IsDerived (kind_of kind) (tokens entries.now) x.0 (tokens x.1.now)) }
    ensures whole { IfOk result (λ x. IsTrue (is_whole x.1.now)) }
    ensures refused { IfErr result (IsUnreadAs (kind_of kind) (tokens entries.now)) }
{
    let mut work = Work::new(arena)?;
    read_form_with(&mut work, kind, entries)
}

/// The same as `read_form`, where more than one form is read into an arena.
///
/// # Errors
///
/// `Syntax` exactly where they begin with none. `Memory` only where a growth was refused.
pub(crate) fn read_form_with<'a>(
    work: &mut Work<'a>,
    kind: Kind,
    entries: &'a [Entry<'a>],
) -> Result<(Tree<'a>, &'a [Entry<'a>]), Unread>
    requires { IsTrue (is_whole entries.now) }
    ensures found { IfOk result (λ x. IsDerived (kind_of kind) (tokens entries.now) x.0 (tokens x.1.now)) }
    ensures whole { IfOk result (λ x. IsTrue (is_whole x.1.now)) }
    ensures refused { IfErr result (IsUnreadAs (kind_of kind) (tokens entries.now)) }
{
    match read_with(&Grammar, work, kind, entries) {
        Ok((tree, rest)) => Ok((tree, rest)),
        Err(Refusal::Syntax(wrong)) => Err(Unread::Syntax(wrong)),
        Err(Refusal::Memory) => Err(Unread::Memory),
        Err(Refusal::Late) => unreachable!(),
    }
}

/// The file that whole entries are.
///
/// # Errors
///
/// `Syntax` exactly where they are none. `Memory` only where a growth was refused.
pub(crate) fn read_file<'a>(arena: &'a Arena, entries: &'a [Entry<'a>]) -> Result<Tree<'a>, Unread>
    requires { IsTrue (is_whole entries.now) }
    ensures file { IfOk result (IsFile (plain (spanned_entries entries.now))) }
    ensures refused { IfErr result (IsUnread (plain (spanned_entries entries.now))) }
{
    let (tree, _) = read_form(arena, Kind::AFile, entries)?;
    Ok(tree)
}
