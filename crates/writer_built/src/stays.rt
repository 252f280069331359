//! Whether an operand stays as it is written, and what a form ends with.

ghost use Rattle.laws_binding.specs.Written as w;
ghost use Rattle.laws_binding.specs.Written.{a_named_field, behind_attributes, ends_in, fits_left, is_over, may_end};
ghost use Rattle.laws_binding.specs.Written.{may_left, may_right};
ghost use Rattle.writer_built.specs.Begins.{front3};
ghost use Rattle.writer_built.specs.Heads.{head_tokens};
ghost use Rattle.writer_built.specs.Facts.{facts_of, last_of};
ghost use Rattle.writer_print.specs.Pieces.{piece_token};
ghost use Rattle.reader_table.specs.Kinds.{kind_of, position_of};
ghost use Rattle.proc_macro2.specs.Token.{Token};
ghost use Rattle.std.specs.Prelude.{[], ◌&&◌, ◌||◌, ◌∷◌, ◌≡◌, List, false, map, nat_eq, not};
ghost use Rattle.syn_grammar.specs.Forms.{is_dotted, level};
ghost use Rattle.syn_grammar.specs.Name.{the_label, the_name};
ghost use Rattle.syn_grammar.specs.Parens.{begins_in, ends_in_name, is_struct, stands_in, takes_what_follows};
ghost use Rattle.syn_grammar.specs.Part.{has};
ghost use Rattle.syn_grammar.specs.Tree.{Tree, flat};

use crate::facts::{Facts, Last, lowest};
use crate::head::Head;
use crate::sight::{begins_lesser, is_taken, takes_what_follows};
use reader_table::kind::{Kind, Position};
use reader_table::word::Words;
use reader_tokens::leaf::word;
use reader_verdicts::level::{is_dotted, level};
use writer_print::piece::Piece;

// Whether a form of the kind is attributes, and a range stands behind them.
fn is_attributed_range(kind: Kind, facts: Facts) -> bool
    ensures { result ≡ behind_attributes (kind_of kind) facts.range false }
{
    match kind {
        Kind::ExprAttributed => facts.range,
        _ => false,
    }
}

/// Whether an operand behind a form stays as it is written.
pub(crate) fn stays_right(
    position: Position,
    kind: Kind,
    labelled: bool,
    head: Head<'_>,
    facts: Facts,
) -> bool
    ensures { (y : Tree) (ts : List Token) → labelled ≡ has the_label y → head_tokens head.entry ≡ front3 ts
        → result ≡ may_right (position_of position) (kind_of kind) y (facts_of ts facts) }
{
    lowest(kind) <= facts.least
        && (is_taken(position, kind, labelled, head) && !is_attributed_range(kind, facts))
}

/// Whether a form of the kind is a struct behind its path.
pub fn is_struct(kind: Kind) -> bool
    ensures { result ≡ is_struct (kind_of kind) }
{
    match kind {
        Kind::ExprStruct => true,
        _ => false,
    }
}

// Whether, by its kind, something may stand left of a form.
fn fits_left(kind: Kind, facts: Facts) -> bool
    ensures { (ts : List Token) → result ≡ fits_left (kind_of kind) (facts_of ts facts) }
{
    match kind {
        Kind::ExprStruct => facts.path,
        _ => {
            if level(kind) == 16 {
                facts.postfix
            } else {
                !facts.range
            }
        }
    }
}

// Whether it ends there, where a statement or an arm stands.
fn ends_in(position: Position, facts: Facts) -> bool
    ensures { (ts : List Token) → result ≡ ends_in (position_of position) (facts_of ts facts) }
{
    match position {
        Position::InArm => facts.block,
        Position::InStatement => facts.block || facts.called,
        Position::Plain => false,
        Position::InCondition => false,
    }
}

// Whether a form of the kind may stand behind a field with a name: any but a call.
fn is_behind_name(kind: Kind) -> bool
    ensures { (ts : List Token) → result ≡ may_end (kind_of kind) ts a_named_field }
{
    match kind {
        Kind::ExprCall => false,
        _ => true,
    }
}

// Whether what ends so may stand before a form, whose own part begins there.
fn may_end(kind: Kind, own: Head<'_>, last: Last) -> bool
    ensures { (ts : List Token) → head_tokens own.entry ≡ front3 ts
        → result ≡ may_end (kind_of kind) ts (last_of last) }
{
    match last {
        Last::Cast(named) => !(level(kind) == 16 || (named && begins_lesser(own))),
        Last::NamedField => is_behind_name(kind),
        Last::Other => true,
    }
}

// Whether no operand on its right edge goes on with a form, whose own part begins there.
fn is_over(kind: Kind, own: Head<'_>, facts: Facts) -> bool
    ensures { (ts us : List Token) → head_tokens own.entry ≡ front3 us
        → result ≡ is_over (kind_of kind) us (facts_of ts facts) }
{
    let over = if level(kind) == 16 {
        !facts.opened
    } else {
        level(kind) < facts.cap
    };
    over && may_end(kind, own, facts.last)
}

// Whether something may stand left of a form of the kind, and ends no statement or arm there.
fn may_stand(position: Position, kind: Kind, facts: Facts) -> bool
    ensures { (ts : List Token) → result ≡ (fits_left (kind_of kind) (facts_of ts facts)
        && (not (ends_in (position_of position) (facts_of ts facts)) || is_dotted (kind_of kind))) }
{
    fits_left(kind, facts) && (!ends_in(position, facts) || is_dotted(kind))
}

// Whether it is no comparison before a comparison.
fn may_chain(kind: Kind, facts: Facts) -> bool
    ensures { result ≡ not (nat_eq (level (kind_of kind)) 7 && facts.compares) }
{
    !(level(kind) == 7 && facts.compares)
}

// Whether it is none, and no operand on its right edge goes on with the form, whose own part begins there.
fn may_precede(kind: Kind, own: Head<'_>, facts: Facts) -> bool
    ensures { (ts us : List Token) → head_tokens own.entry ≡ front3 us
        → result ≡ (not (nat_eq (level (kind_of kind)) 7 && facts.compares)
        && is_over (kind_of kind) us (facts_of ts facts)) }
{
    may_chain(kind, facts) && is_over(kind, own, facts)
}

/// Whether an operand before a form stays as it is written.
pub(crate) fn stays_left(position: Position, kind: Kind, own: Head<'_>, facts: Facts) -> bool
    ensures { (y : Tree) (ts : List Token) → head_tokens own.entry ≡ front3 (flat y)
        → result ≡ may_left (position_of position) (kind_of kind) y (facts_of ts facts) }
{
    is_struct(kind) || (may_stand(position, kind, facts) && may_precede(kind, own, facts))
}

/// Whether a form of the kind stands where its position has it: a let begins no statement.
pub fn begins_in(position: Position, kind: Kind) -> bool
    ensures { result ≡ begins_in (position_of position) (kind_of kind) }
{
    match position {
        Position::InStatement => match kind {
            Kind::ExprLet => false,
            _ => true,
        },
        Position::Plain => true,
        Position::InCondition => true,
        Position::InArm => true,
    }
}

/// The same of a form with an operand before it: a struct stands in no condition.
pub fn stands_in(position: Position, kind: Kind) -> bool
    ensures { result ≡ stands_in (position_of position) (kind_of kind) }
{
    match position {
        Position::InCondition => !is_struct(kind),
        Position::Plain => true,
        Position::InArm => true,
        Position::InStatement => true,
    }
}

/// The same before what begins so: a path before braces is a struct's, and a half-open range takes no operand.
pub(crate) fn stays_behind(position: Position, kind: Kind, behind: Head<'_>) -> bool
    ensures { (ts : List Token) → head_tokens behind.entry ≡ front3 ts
        → result ≡ (stands_in (position_of position) (kind_of kind)
        && not (takes_what_follows (position_of position) (kind_of kind) ts)) }
{
    stands_in(position, kind) && !takes_what_follows(position, kind, behind)
}

// Whether it is a name that takes arguments.
#[tactic(auto, using(crate::proofs::Lasts::names))]
fn is_name(piece: &Piece<'_>) -> bool
    ensures { result ≡ ends_in_name (piece_token piece.now ∷ []) }
{
    match piece {
        Piece::Ident(ident) => word(Words::Name, ident) && !word(Words::PathKeyword, ident),
        _ => false,
    }
}

/// Whether some tokens end in a name that takes arguments.
#[tactic(auto, using(crate::proofs::Lasts::names))]
pub fn ends_in_name(pieces: &[Piece<'_>]) -> bool
    ensures { result ≡ ends_in_name (map piece_token pieces.now) }
{
    let Some((first, rest)) = pieces.split_first() else {
        return false;
    };
    if rest.is_empty() {
        is_name(first)
    } else {
        ends_in_name(rest)
    }
}

/// What a form ends with that has its left operand before it.
pub(crate) fn last_of(kind: Kind, named: bool, pieces: &[Piece<'_>]) -> Last
    ensures { (y : Tree) → named ≡ has the_name y → map piece_token pieces.now ≡ flat y
        → last_of result ≡ w.last_of (kind_of kind) y }
{
    match kind {
        Kind::ExprCast => Last::Cast(ends_in_name(pieces)),
        Kind::ExprField => { if named { Last::NamedField } else { Last::Other } }
        _ => Last::Other,
    }
}
