//! Forms of expressions, made of what was read of them.

ghost use Rattle.reader_steps.specs.Operands.{made_of};
ghost use Rattle.reader_table.specs.Kinds.{kind_of};
ghost use Rattle.std.specs.Prelude.{◌≡◌, IfOk};
ghost use Rattle.syn_grammar.specs.Tree.{Alone, Back, Front, Infix};

use reader_table::kind::Kind;
use reader_tree::arena::Arena;
use reader_tree::made;
use reader_tree::tree::Tree;
use std::alloc::AllocError;

/// The form that begins with its own part.
pub(crate) fn begun<'a>(
    arena: &'a Arena,
    kind: Kind,
    own: Tree<'a>,
    right: Option<Tree<'a>>,
) -> Result<Tree<'a>, AllocError>
    ensures { IfOk result (λ x. x ≡ made_of (Alone (kind_of kind)) (Front (kind_of kind)) own.entry right.entry) }
{
    match right {
        Some(right) => made::front(arena, kind, own, right),
        None => made::alone(arena, kind, own),
    }
}

/// The form that goes on from its left operand.
pub(crate) fn extended<'a>(
    arena: &'a Arena,
    left: Tree<'a>,
    kind: Kind,
    own: Tree<'a>,
    right: Option<Tree<'a>>,
) -> Result<Tree<'a>, AllocError>
    ensures { IfOk result (λ x. x ≡ made_of (Back left.entry (kind_of kind)) (Infix left.entry (kind_of kind)) own.entry
        right.entry) }
{
    match right {
        Some(right) => made::infix(arena, left, kind, own, right),
        None => made::back(arena, left, kind, own),
    }
}
