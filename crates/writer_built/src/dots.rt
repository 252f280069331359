//! Own parts behind a left operand, as normal form has them: numbers behind a dot are fields each, so that a form with
//! such is several.

ghost use Rattle.laws_binding.specs.Written.{other};
ghost use Rattle.writer_built.specs.Behind.{is_numbered, last_named};
ghost use Rattle.writer_built.specs.Facts.{last_of};
ghost use Rattle.writer_built.specs.Found.{HasNoDot, IsBehind, IsFound};
ghost use Rattle.writer_built.specs.Kept.{HasOwnHead};
ghost use Rattle.writer_print.specs.Pieces.{piece_token};
ghost use Rattle.reader_table.specs.Kinds.{kind_of};
ghost use Rattle.reader_tree.specs.Forms.{turns};
ghost use Rattle.writer_rules.specs.Said.{fields, front_fields, said};
ghost use Rattle.writer_rules.specs.Way.{dotted_of, is_dotted};
ghost use Rattle.writer_read.specs.Formed.{IsFormed};
ghost use Rattle.rust_leaf.specs.Leaf.{literal_text};
ghost use Rattle.std.specs.Prelude.{◌++◌, ◌≡◌, IfOk, OnOk, Some, map, true};
ghost use Rattle.syn_grammar.specs.Kind.{Plain};
ghost use Rattle.syn_grammar.specs.Name.{the_name};
ghost use Rattle.syn_grammar.specs.Part.{has};
ghost use Rattle.syn_grammar.specs.Tree.{Tree as GivenTree};
ghost use Rattle.syn_grammar.specs.Words.{indices};

use crate::facts::Last;
use crate::head::{Head, first_two, head_of};
use crate::operand::{Own, own_of};
use crate::stays::last_of;
use reader_table::kind::{Kind, Position};
use reader_table::part::Part;
use reader_tree::tree::{Form, Tree};
use rust_leaf::literal::Literal;
use std::alloc::{AllocError, Global};
use writer_print::piece::Piece;
use writer_read::write::write;
use writer_rules::fields::{put_fields, put_front_fields};
use writer_rules::seen::literal;
use writer_rules::way::{Behind as BehindDot, dotted, is_dotted, last_number};

/// What stands behind a left operand.
#[derive(Drop)]
pub(crate) struct Behind<'a> {
    /// Its tokens.
    pub(crate) own: Own<'a>,
    /// The first tokens of the own part of the first form.
    pub(crate) first: Head<'a>,
    /// What the last form ends with.
    pub(crate) last: Last,
}

// Whether the first of some turns is a number.
#[tactic(auto, using(crate::proofs::Parts::numbered))]
fn is_first_numbered(numbers: &[Tree<'_>]) -> bool
    ensures { result ≡ is_numbered (turns numbers.now) }
{
    match numbers.split_first() {
        Some((first, _)) => literal(first).is_some(),
        None => false,
    }
}

// Whether numbers stand in front.
#[tactic(auto, using(crate::proofs::Parts::numbered))]
fn is_numbered(numbers: &Tree<'_>) -> bool
    ensures { result ≡ is_numbered numbers.now }
{
    match &numbers.form {
        Form::Turns(turns) => is_first_numbered(turns.each),
        _ => false,
    }
}

// What a form behind a dot ends with that is no number.
fn last_named(kind: Kind, named: bool) -> Last
    ensures { last_of result ≡ last_named (kind_of kind) named }
{
    match kind {
        Kind::ExprField => { if named { Last::NamedField } else { Last::Other } }
        _ => Last::Other,
    }
}

// What stands behind a left operand, of its tokens: of fields by numbers the first form's are two.
fn found<'a>(pieces: Vec<Piece<'a>>, is_number: bool, last: Last) -> Behind<'a>
    ensures head { HasOwnHead result.own }
    ensures same { IsFound (map piece_token pieces.entry.items) is_number (last_of last) result }
{
    let head = head_of(pieces.as_slice());
    let first = if is_number { first_two(head) } else { head };
    Behind {
        own: Own { pieces, head },
        first,
        last,
    }
}

// One that ends in a number.
fn by_number<'a>(
    alloc: Global,
    numbers: &Tree<'a>,
    literal: &'a Literal,
) -> Result<Behind<'a>, AllocError>
    ensures head { IfOk result (λ b. HasOwnHead b.own) }
    ensures same { IfOk result (λ b. IsFound (front_fields numbers.now
        ++ fields (indices (literal_text literal.now))) true other b) }
{
    let mut pieces = Vec::new(alloc);
    put_front_fields(numbers, &mut pieces)?;
    put_fields(literal, &mut pieces)?;
    Ok(found(pieces, true, Last::Other))
}

// Puts a dot, and what stands behind it.
fn put_last<'a>(
    dot: &Tree<'a>,
    behind: &Tree<'a>,
    out: &mut Vec<Piece<'a>>,
) -> Result<(), AllocError>
    ensures { OnOk result (IsFormed Plain dot.now → IsFormed Plain behind.now → map piece_token out.new.items
        ≡ map piece_token out.old.items ++ (said Plain dot.now ++ said Plain behind.now)) }
{
    write(dot, out)?;
    write(behind, out)
}

// One that ends in none.
fn by_other<'a>(
    alloc: Global,
    kind: Kind,
    named: bool,
    parts: BehindDot<'_, 'a>,
) -> Result<Behind<'a>, AllocError>
    ensures head { IfOk result (λ b. HasOwnHead b.own) }
    ensures same { IfOk result (λ b. IsFormed Plain parts.entry.dot.now → IsFormed Plain parts.entry.behind.now
        → IsFound (front_fields parts.entry.numbers.now
        ++ (said Plain parts.entry.dot.now ++ said Plain parts.entry.behind.now))
        (is_numbered parts.entry.numbers.now) (last_named (kind_of kind) named) b) }
{
    let mut pieces = Vec::new(alloc);
    put_front_fields(parts.numbers, &mut pieces)?;
    put_last(parts.dot, parts.behind, &mut pieces)?;
    Ok(found(pieces, is_numbered(parts.numbers), last_named(kind, named)))
}

// One that begins with a dot, and has a name or none.
fn behind_dot<'a>(
    alloc: Global,
    kind: Kind,
    named: bool,
    parts: BehindDot<'_, 'a>,
) -> Result<Behind<'a>, AllocError>
    ensures head { IfOk result (λ b. HasOwnHead b.own) }
    ensures same { IfOk result (λ b. (y : GivenTree) → is_dotted (kind_of kind) ≡ true
        → Some (parts.entry.dot.now, parts.entry.numbers.now, parts.entry.behind.now) ≡ dotted_of y
        → named ≡ has the_name y → IsFormed Plain y → IsBehind (kind_of kind) y b) }
{
    match last_number(kind, parts.behind) {
        Some(literal) => by_number(alloc, parts.numbers, literal),
        None => by_other(alloc, kind, named, parts),
    }
}

// One in which no number stands behind a dot.
fn plain<'a>(alloc: Global, kind: Kind, own: &Tree<'a>) -> Result<Behind<'a>, AllocError>
    ensures head { IfOk result (λ b. HasOwnHead b.own) }
    ensures same { IfOk result (λ b. HasNoDot (kind_of kind) own.now → IsFormed Plain own.now
        → IsBehind (kind_of kind) own.now b) }
{
    let written = own_of(alloc, own)?;
    let last = last_of(kind, own.has(Part::Name), written.pieces.as_slice());
    Ok(Behind {
        first: written.head,
        own: written,
        last,
    })
}

/// What stands behind the left operand of a form of the kind.
///
/// # Errors
///
/// Where there is no memory for it.
pub(crate) fn behind_of<'a>(
    alloc: Global,
    kind: Kind,
    own: &Tree<'a>,
) -> Result<Behind<'a>, AllocError>
    ensures head { IfOk result (λ b. HasOwnHead b.own) }
    ensures same { IfOk result (λ b. IsFormed Plain own.now → IsBehind (kind_of kind) own.now b) }
{
    if !is_dotted(kind) {
        return plain(alloc, kind, own);
    }
    match dotted(own) {
        Some(parts) => behind_dot(alloc, kind, own.has(Part::Name), parts),
        None => plain(alloc, kind, own),
    }
}
