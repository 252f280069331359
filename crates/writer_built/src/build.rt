//! Writing expressions that were built by hand.

ghost use Rattle.laws_binding.specs.Written.{Written, may_left, may_right, paren_unless, write};
ghost use Rattle.writer_built.specs.Asked.{IsWritten, said_in};
ghost use Rattle.writer_built.specs.Begins.{front3};
ghost use Rattle.writer_built.specs.Heads.{head_tokens};
ghost use Rattle.writer_built.specs.Kept.{HasHead, kept_of};
ghost use Rattle.writer_print.specs.Pieces.{piece_token};
ghost use Rattle.reader_table.specs.Kinds.{kind_of, position_of};
ghost use Rattle.writer_rules.specs.Front.{Keeps};
ghost use Rattle.writer_read.specs.Formed.{HasFormed};
ghost use Rattle.proc_macro2.specs.Token.{Token};
ghost use Rattle.std.specs.Prelude.{◌++◌, ◌≡◌, IfOk, List, OnOk, map};
ghost use Rattle.syn_grammar.specs.Forms.{inside, is_block_like, is_brace_macro};
ghost use Rattle.writer_built.specs.declared.head.Head.{Head as GivenHead};
ghost use Rattle.syn_grammar.specs.Kept.{kept};
ghost use Rattle.syn_grammar.specs.Kind.{Position as GivenPosition};
ghost use Rattle.syn_grammar.specs.Name.{the_label};
ghost use Rattle.syn_grammar.specs.Normal.{stands_behind};
ghost use Rattle.syn_grammar.specs.Parens.{follow};
ghost use Rattle.syn_grammar.specs.Part.{has};
ghost use Rattle.syn_grammar.specs.Tree as t;
ghost use Rattle.syn_grammar.specs.Tree.{Tree as GivenTree, flat};

use crate::dots::behind_of;
use crate::head::Head;
use crate::operand::{self, Operand, in_parens_unless, own_of};
use crate::rope::put_rope;
use crate::seen::Seen;
use crate::sight::{follow, takes_what_follows};
use crate::stays::{begins_in, stays_behind, stays_left, stays_right};
use proc_macro2::delimiter::Delimiter;
use reader_table::kind::{Kind, Position};
use reader_table::part::Part;
use reader_tree::tree::{Form, Three, Tree, Two};
use reader_verdicts::left::{is_block_like, is_brace_macro};
use reader_verdicts::level::inside;
use std::alloc::{AllocError, Global};
use writer_print::piece::Piece;

// What stands behind a whole expression: of a condition a brace.
#[tactic(auto, unfolding(syn_grammar::specs::Normal::stands_behind))]
fn behind_whole<'a>(position: Position) -> Head<'a>
    ensures { head_tokens result ≡ front3 (stands_behind (position_of position)) }
{
    match position {
        Position::InCondition => Head::One(Seen::Open(Delimiter::Brace)),
        Position::Plain => Head::Empty,
        Position::InArm => Head::Empty,
        Position::InStatement => Head::Empty,
    }
}

// A form without operands, of which it is said what it ends.
fn alone<'a>(
    own: &Tree<'a>,
    alloc: Global,
    kind: Kind,
    ends: (bool, bool),
    place: (Position, Head<'a>),
) -> Result<Operand<'a>, AllocError>
    ensures head { IfOk result (λ o. HasHead o) }
    ensures same { ends.0 ≡ is_block_like (t.Alone (kind_of kind) own.now)
        → ends.1 ≡ is_brace_macro (t.Alone (kind_of kind) own.now)
        → IfOk result (λ o. IsWritten (position_of place.entry.0) place.entry.1 (t.Alone (kind_of kind) own.now) o) }
{
    let (position, behind) = place;
    let (block, called) = ends;
    let written = own_of(alloc, own)?;
    let operand = operand::alone(kind, written, block, called);
    let stays = !takes_what_follows(position, kind, behind);
    in_parens_unless(alloc, stays, operand)
}

// The operand behind a form of the kind, which has a label or none.
#[cycle(written)]
fn right<'a>(
    tree: &Tree<'a>,
    alloc: Global,
    kind: Kind,
    labelled: bool,
    position: Position,
    behind: Head<'a>,
) -> Result<Operand<'a>, AllocError>
    ensures head { IfOk result (λ o. HasHead o) }
    ensures same { IfOk result (λ o. (y : GivenTree) (ts : List Token) → labelled ≡ has the_label y
        → head_tokens behind.entry ≡ front3 ts → HasFormed tree.now
        → let w : Written = write (inside (position_of position) (kind_of kind)) ts (kept tree.now) in
        kept_of o ≡ paren_unless (may_right (position_of position) (kind_of kind) y w) w) }
{
    let place = inside(position, kind);
    let operand = written(tree, alloc, place, behind)?;
    let stays = stays_right(position, kind, labelled, operand.head, operand.facts);
    in_parens_unless(alloc, stays, operand)
}

// The operand before a form of the kind, whose own part begins there.
#[cycle(written)]
fn left<'a>(
    tree: &Tree<'a>,
    alloc: Global,
    kind: Kind,
    own: Head<'a>,
    position: Position,
) -> Result<Operand<'a>, AllocError>
    ensures head { IfOk result (λ o. HasHead o) }
    ensures same { IfOk result (λ o. (y : GivenTree) → head_tokens own.entry ≡ front3 (flat y) → HasFormed tree.now
        → let v : Written = write (position_of position) (follow (flat y)) (kept tree.now) in
        kept_of o ≡ paren_unless (may_left (position_of position) (kind_of kind) y v) v) }
{
    let next = follow(own);
    let operand = written(tree, alloc, position, next)?;
    let stays = stays_left(position, kind, own, operand.facts);
    in_parens_unless(alloc, stays, operand)
}

// A form with an operand behind it.
#[cycle(written)]
fn front<'a>(
    two: &Two<'a>,
    alloc: Global,
    kind: Kind,
    position: Position,
    behind: Head<'a>,
) -> Result<Operand<'a>, AllocError>
    ensures head { IfOk result (λ o. HasHead o) }
    ensures same { IfOk result (λ o. IsWritten (position_of position) behind.entry
        (t.Front (kind_of kind) two.now.front two.now.back) o) }
{
    let own = own_of(alloc, &two.front)?;
    let labelled = two.front.has(Part::Label);
    let right = right(&two.back, alloc, kind, labelled, position, behind)?;
    let operand = operand::front(alloc, kind, own, right)?;
    let stays = begins_in(position, kind);
    in_parens_unless(alloc, stays, operand)
}

// A form with an operand before it.
#[cycle(written)]
fn back<'a>(
    two: &Two<'a>,
    alloc: Global,
    kind: Kind,
    position: Position,
    behind: Head<'a>,
) -> Result<Operand<'a>, AllocError>
    ensures head { IfOk result (λ o. HasHead o) }
    ensures same { IfOk result (λ o. IsWritten (position_of position) behind.entry
        (t.Back two.now.front (kind_of kind) two.now.back) o) }
{
    let own = behind_of(alloc, kind, &two.back)?;
    let left = left(&two.front, alloc, kind, own.first, position)?;
    let stays = stays_behind(position, kind, behind);
    let operand = operand::back(alloc, left, kind, own.own, own.last)?;
    in_parens_unless(alloc, stays, operand)
}

// A form with both.
#[cycle(written)]
fn infix<'a>(
    three: &Three<'a>,
    alloc: Global,
    kind: Kind,
    position: Position,
    behind: Head<'a>,
) -> Result<Operand<'a>, AllocError>
    ensures head { IfOk result (λ o. HasHead o) }
    ensures same { IfOk result (λ o. IsWritten (position_of position) behind.entry
        (t.Infix three.now.left (kind_of kind) three.now.own three.now.right) o) }
{
    let own = own_of(alloc, &three.own)?;
    let labelled = three.own.has(Part::Label);
    let left = left(&three.left, alloc, kind, own.head, position)?;
    let right = right(&three.right, alloc, kind, labelled, position, behind)?;
    operand::infix(alloc, left, kind, own, right)
}

// What is no form, as it was read, wherever it stands.
fn formless<'a>(tree: &Tree<'a>, alloc: Global) -> Result<Operand<'a>, AllocError>
    ensures head { IfOk result (λ o. HasHead o) }
    ensures same { (HasFormed tree.now → ⊥)
        → IfOk result (λ o. (p : GivenPosition) (h : GivenHead) → IsWritten p h tree.now o) }
{
    let own = own_of(alloc, tree)?;
    Ok(operand::alone(Kind::ExprGroup, own, false, false))
}

// A form in a position, before what begins so. What is no form is written as it was read.
#[cycle(written)]
#[tactic(auto, using(crate::proofs::Builds::unformed))]
fn written<'a>(
    tree: &Tree<'a>,
    alloc: Global,
    position: Position,
    behind: Head<'a>,
) -> Result<Operand<'a>, AllocError>
    ensures head { IfOk result (λ o. HasHead o) }
    ensures same { IfOk result (λ o. IsWritten (position_of position) behind.entry tree.now o) }
{
    match &tree.form {
        Form::Alone(kind, own) => {
            let ends = (is_block_like(tree), is_brace_macro(tree));
            alone(own, alloc, *kind, ends, (position, behind))
        }
        Form::Front(kind, two) => front(two, alloc, *kind, position, behind),
        Form::Back(kind, two) => back(two, alloc, *kind, position, behind),
        Form::Infix(kind, three) => infix(three, alloc, *kind, position, behind),
        _ => formless(tree, alloc),
    }
}

/// Puts the tokens of the normal form of an expression behind those that are to be written, in a position. The tree is
/// its form, which may have been put together by hand, and so may be the operands in it, at every depth: they get just
/// the parentheses that they need, each decided in constant time from what is handed down and what is known of the
/// operand; each token is put once. The own parts of the forms, a call's arguments or a block, are written as parts
/// that were read: of an expression that was put into one of these by hand nothing is promised.
///
/// # Errors
///
/// Where there is no memory for more tokens. Those that stood there stand in front then too, perhaps with some of the
/// expression's behind them.
#[tactic(auto, using(writer_rules::proofs::Fronts::keeps_same))]
pub fn write_in<'a>(
    position: Position,
    tree: &Tree<'a>,
    out: &mut Vec<Piece<'a>>,
) -> Result<(), AllocError>
    ensures put { OnOk result (HasFormed tree.now → map piece_token out.new.items
        ≡ map piece_token out.old.items ++ said_in (position_of position) tree.now) }
    ensures keeps { Keeps out.old.items out.new.items }
{
    let alloc = *out.allocator();
    let behind = behind_whole(position);
    let operand = written(tree, alloc, position, behind)?;
    put_rope(&operand.rope, out)
}
