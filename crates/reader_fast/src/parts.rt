//! What several plain forms are made of, and how one is handed on that was found.

ghost use Rattle.reader_tokens.specs.Tokens.{tokens};
ghost use Rattle.reader_fast.specs.Names.{IsNamed, IsPassed};
ghost use Rattle.reader_fast.specs.Read.{IsReadIn};
ghost use Rattle.proc_macro2.specs.Token.{Token};
ghost use Rattle.std.specs.Prelude.{◌≡◌, ℕ, IfOk, IfSome, IsTrue, List};
ghost use Rattle.syn_buffer.specs.Entries.{is_whole};
ghost use Rattle.syn_grammar.specs.Kind.{Kind as AnyKind};
ghost use Rattle.syn_grammar.specs.Tree as t;

use reader_tree::arena::Arena;
use reader_tree::made;
use reader_tree::tree::Tree;
use std::alloc::AllocError;
use syn_buffer::entry::Entry;

/// What was found: a tree, if there was memory for it, and what is left behind it.
///
/// # Errors
///
/// Where there was no memory for the tree.
pub(crate) fn found<'a>(
    made: Result<Tree<'a>, AllocError>,
    rest: &'a [Entry<'a>],
) -> Result<Option<(Tree<'a>, &'a [Entry<'a>])>, AllocError>
    requires { IsTrue (is_whole rest.now) }
    ensures read { (calls : ℕ) (k : AnyKind) (ts : List Token) (x : t.Tree) → IsReadIn calls k ts x (tokens rest.now)
        → IfOk made.entry (λ y. y ≡ x) → IfOk result (λ o. IfSome o (λ y. IsReadIn calls k ts y.0 (tokens y.1.now))) }
    ensures named { (ts : List Token) → IsNamed ts → IfOk result (λ o. IfSome o (λ y. IsNamed ts)) }
    ensures passed { (ts : List Token) → IsPassed ts (tokens rest.now)
        → IfOk result (λ o. IfSome o (λ y. IsPassed ts (tokens y.1.now))) }
    ensures whole { IfOk result (λ o. IfSome o (λ y. IsTrue (is_whole y.1.now))) }
{
    Ok(Some((made?, rest)))
}

/// Nothing, where something may stand, and then that.
///
/// # Errors
///
/// Where there is no memory for it.
pub(crate) fn none_before<'a>(arena: &'a Arena, behind: Tree<'a>) -> Result<Tree<'a>, AllocError>
    ensures { IfOk result (λ x. x ≡ t.Pair (t.Second t.Nil) behind.entry) }
{
    made::pair(arena, made::second(arena, made::nil())?, behind)
}
