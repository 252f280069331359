//! Whether two trees are the same syntax tree, and the same program.

ghost use Rattle.writer_normal.specs.Separators.{IsFault};
ghost use Rattle.std.specs.Prelude.{◌≡◌, ◌↔◌, ◌⊎◌, IfErr, IfOk, IsTrue, Ok, true};
ghost use Rattle.syn_grammar.specs.Kept as k;
ghost use Rattle.syn_grammar.specs.Normal as n;

use reader_tree::arena::Arena;
use reader_tree::tree::Tree;
use std::alloc::AllocError;
use tree_equal::tree::equal;
use writer_normal::fault::Fault as NormalFault;
use writer_normal::kept::kept;
use writer_normal::normal::normal;

/// Whether two trees are the same but for where their tokens stand, and what else a syntax tree doesn't hold, as how
/// the last mark of a punctuation is spaced: what syn's `==` asks. Of tokens that are kept as they are the spacing
/// counts. Where they are one by `equal` it takes no memory.
///
/// # Errors
///
/// Where there is no memory for what a syntax tree holds of them, which is made in the arena, or while it is made.
pub fn same<'a>(arena: &'a Arena, a: &Tree<'a>, b: &Tree<'a>) -> Result<bool, AllocError>
    ensures same { IfOk result (λ s. IsTrue s ↔ (k.kept a.now ≡ k.kept b.now)) }
    ensures one { a.now ≡ b.now → result ≡ Ok true }
{
    if equal(a, b) {
        return Ok(true);
    }
    let one = kept(arena, a)?;
    let other = kept(arena, b)?;
    Ok(equal(&one, &other))
}

// The normal form of what a syntax tree holds of a tree.
fn settled<'a>(arena: &'a Arena, tree: &Tree<'a>) -> Result<Tree<'a>, NormalFault>
    ensures settled { IfOk result (λ x. x ≡ n.normal (k.kept tree.now)) }
    ensures fault { IfErr result (λ fault. IsFault fault (n.normal (k.kept tree.now))) }
{
    let held = kept(arena, tree)?;
    normal(arena, &held)
}

/// Whether two trees are the same program: whether their normal forms are the same, without parts that are empty, with
/// lifetimes in front, and with each pair of parentheses that an operand needs. What was put together by hand may be
/// either of them.
///
/// # Errors
///
/// Where there is no memory for the normal forms, which are made in the arena, or where no tree is one of them.
pub fn same_program<'a>(arena: &'a Arena, a: &Tree<'a>, b: &Tree<'a>) -> Result<bool, NormalFault>
    ensures same { IfOk result (λ s. IsTrue s ↔ (n.normal (k.kept a.now) ≡ n.normal (k.kept b.now))) }
    ensures fault { IfErr result (λ e. IsFault e (n.normal (k.kept a.now)) ⊎ IsFault e (n.normal (k.kept b.now))) }
{
    let one = settled(arena, a)?;
    let other = settled(arena, b)?;
    Ok(equal(&one, &other))
}
