//! Nothing, and several trees one behind the other.

ghost use Rattle.std.specs.Prelude.{◌≡◌, IfOk};
ghost use Rattle.syn_grammar.specs.Tree as t;

use reader_tree::arena::Arena;
use reader_tree::made;
use reader_tree::tree::Tree;
use std::alloc::AllocError;

/// Nothing, where something might stand.
///
/// # Errors
///
/// Where there is no memory for it.
pub fn missing<'a>(arena: &'a Arena) -> Result<Tree<'a>, AllocError>
    ensures { IfOk result (λ x. x ≡ t.Second t.Nil) }
{
    made::second(arena, made::nil())
}

/// Three trees.
///
/// # Errors
///
/// Where there is no memory for them.
pub fn three<'a>(
    arena: &'a Arena,
    first: Tree<'a>,
    second: Tree<'a>,
    third: Tree<'a>,
) -> Result<Tree<'a>, AllocError>
    ensures { IfOk result (λ x. x ≡ t.Pair first.entry (t.Pair second.entry third.entry)) }
{
    let behind = made::pair(arena, second, third)?;
    made::pair(arena, first, behind)
}

/// Four trees.
///
/// # Errors
///
/// Where there is no memory for them.
pub fn four<'a>(
    arena: &'a Arena,
    first: Tree<'a>,
    second: Tree<'a>,
    third: Tree<'a>,
    fourth: Tree<'a>,
) -> Result<Tree<'a>, AllocError>
    ensures { IfOk result (λ x. x ≡ t.Pair first.entry (t.Pair second.entry (t.Pair third.entry fourth.entry))) }
{
    let behind = three(arena, second, third, fourth)?;
    made::pair(arena, first, behind)
}
