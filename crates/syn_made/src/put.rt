//! Values put into what trees are made of: by these the forms of `forms` and of `expr::forms` are trees, and most
//! types are by the same at once. A value is lent and not moved, and no form is made of it, so what calls these is
//! cheap to check.

ghost use Rattle.reader_table.specs.Kinds.{kind_of};
ghost use Rattle.reader_tree.specs.Forms.{seconds};
ghost use Rattle.std.specs.Prelude.{◌≡◌, IfOk, MatchOption};
ghost use Rattle.syn_grammar.specs.Tree as t;
ghost use Rattle.syn_grammar.specs.Tree.{Tree as GivenTree};

use crate::to_tree::ToTree;
use reader_table::kind::Kind;
use reader_tree::arena::Arena;
use reader_tree::made;
use reader_tree::tree::Tree;
use std::alloc::AllocError;

/// A node of a kind.
///
/// # Errors
///
/// Where there is no memory for it.
pub fn node<'a, T: ToTree<'a>>(
    arena: &'a Arena,
    kind: Kind,
    value: &T,
) -> Result<Tree<'a>, AllocError>
    ensures { IfOk result (λ x. x ≡ t.Node (kind_of kind) (T.tree value.now)) }
{
    let inner = value.to_tree(arena)?;
    made::node(arena, kind, inner)
}

/// A node of a kind, which is some tree.
///
/// # Errors
///
/// Where there is no memory for it.
pub fn some_node<'a, T: ToTree<'a>>(
    arena: &'a Arena,
    kind: Kind,
    value: &T,
) -> Result<Option<Tree<'a>>, AllocError>
    ensures { IfOk result (λ o. MatchOption o ((x : GivenTree) → Unit {0} × (x ≡ t.Node (kind_of kind)
        (T.tree value.now)) → ⊥) (λ x. Unit {0} × (x ≡ t.Node (kind_of kind) (T.tree value.now)))) }
{
    Ok(Some(node(arena, kind, value)?))
}

/// Of a choice the first, behind so many choices.
///
/// # Errors
///
/// Where there is no memory for it.
pub fn nth<'a, T: ToTree<'a>>(
    arena: &'a Arena,
    count: usize,
    value: &T,
) -> Result<Tree<'a>, AllocError>
    ensures { IfOk result (λ x. x ≡ seconds count (t.First (T.tree value.now))) }
{
    let inner = value.to_tree(arena)?;
    made::first_behind(arena, count, inner)
}

/// Behind so many choices, each the second of the one before it.
///
/// # Errors
///
/// Where there is no memory for it.
pub fn behind<'a, T: ToTree<'a>>(
    arena: &'a Arena,
    count: usize,
    value: &T,
) -> Result<Tree<'a>, AllocError>
    ensures { IfOk result (λ x. x ≡ seconds count (T.tree value.now)) }
{
    let inner = value.to_tree(arena)?;
    made::seconds(arena, count, inner)
}

/// A form by itself.
///
/// # Errors
///
/// Where there is no memory for it.
pub fn alone<'a, T: ToTree<'a>>(
    arena: &'a Arena,
    kind: Kind,
    own: &T,
) -> Result<Tree<'a>, AllocError>
    ensures { IfOk result (λ x. x ≡ t.Alone (kind_of kind) (T.tree own.now)) }
{
    let own = own.to_tree(arena)?;
    made::alone(arena, kind, own)
}

/// A form with an operand behind it.
///
/// # Errors
///
/// Where there is no memory for it.
pub fn front<'a, T: ToTree<'a>>(
    arena: &'a Arena,
    kind: Kind,
    own: &T,
    right: &Tree<'a>,
) -> Result<Tree<'a>, AllocError>
    ensures { IfOk result (λ x. x ≡ t.Front (kind_of kind) (T.tree own.now) right.now) }
{
    let own = own.to_tree(arena)?;
    made::front(arena, kind, own, right.copy())
}

/// A form with an operand before it.
///
/// # Errors
///
/// Where there is no memory for it.
pub fn back<'a, T: ToTree<'a>>(
    arena: &'a Arena,
    left: &Tree<'a>,
    kind: Kind,
    own: &T,
) -> Result<Tree<'a>, AllocError>
    ensures { IfOk result (λ x. x ≡ t.Back left.now (kind_of kind) (T.tree own.now)) }
{
    let own = own.to_tree(arena)?;
    made::back(arena, left.copy(), kind, own)
}
