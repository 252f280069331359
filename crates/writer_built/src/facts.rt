//! What is kept of an operand that is written: what decides whether it stays as it is. Each of these is had in a few
//! steps from what is kept of the form's own operands.

ghost use Rattle.laws_binding.specs.Written.{behind_attributes, front_of, infix_of, other, paren_of, takes_at, wrote};
ghost use Rattle.writer_built.specs.Behind.{put_behind};
ghost use Rattle.writer_built.specs.Facts.{facts_of, last_of};
ghost use Rattle.reader_table.specs.Kinds.{kind_of};
ghost use Rattle.proc_macro2.specs.Token.{Closes, Opens, Token};
ghost use Rattle.proc_macro2.specs.declared.delimiter.Delimiter.TheVariants.{Parenthesis};
ghost use Rattle.std.specs.Prelude.{[], ◌&&◌, ◌++◌, ◌||◌, ◌∷◌, ◌≡◌, Bool, List, cond, min, nat_lt};
ghost use Rattle.syn_grammar.specs.Forms.{is_block_like, is_brace_macro, is_path_form, level};
ghost use Rattle.syn_grammar.specs.Shape.{lowest};
ghost use Rattle.syn_grammar.specs.Tree.{Alone, Tree, flat};

use reader_table::kind::Kind;
use reader_verdicts::level::level;
use std::cmp::min;

/// What an operand ends with, if a left operand stands before that.
#[derive(Clone, Copy)]
pub(crate) enum Last {
    /// Anything else.
    Other,
    /// A cast, and whether its type ends in a name, which would take arguments.
    Cast(bool),
    /// A field with a name.
    NamedField,
}

/// What is kept of an operand.
#[derive(Clone, Copy)]
pub(crate) struct Facts {
    /// Whether it is a range, with attributes or without.
    pub(crate) range: bool,
    /// Whether a postfix form may stand behind it: an atom, a postfix form, a jump or a closure.
    pub(crate) postfix: bool,
    /// Whether it is a path.
    pub(crate) path: bool,
    /// Whether it ends a statement or an arm, by its kind.
    pub(crate) block: bool,
    /// Whether it is a macro's call with braces, which ends a statement.
    pub(crate) called: bool,
    /// Whether it is a comparison.
    pub(crate) compares: bool,
    /// The loosest level on its left edge; 17 for none.
    pub(crate) least: usize,
    /// From which level on an infix form that follows would be taken by an operand on its right edge; 17 for none.
    pub(crate) cap: usize,
    /// Whether an operand on its right edge would take a postfix form that follows.
    pub(crate) opened: bool,
    /// What it ends with.
    pub(crate) last: Last,
}

/// Of an expression in parentheses.
pub(crate) fn enclosed(inside: Facts) -> Facts
    ensures { (ts : List Token)
        → facts_of (Opens Parenthesis ∷ ts ++ Closes Parenthesis ∷ []) result ≡ paren_of (facts_of ts inside) }
{
    let _inside = inside.least;
    Facts {
        range: false,
        postfix: true,
        path: false,
        block: false,
        called: false,
        compares: false,
        least: 17,
        cap: 17,
        opened: false,
        last: Last::Other,
    }
}

/// The lowest level that a right operand of a form of the kind takes.
#[tactic(auto, unfolding(syn_grammar::specs::Forms::level))]
pub(crate) fn lowest(kind: Kind) -> usize
    ensures { result ≡ lowest (level (kind_of kind)) }
{
    match kind {
        Kind::ExprBreak | Kind::ExprReturn | Kind::ExprYield | Kind::ExprClosure => 2,
        Kind::ExprAssign => 2,
        Kind::ExprRange | Kind::ExprRangeClosed => 4,
        Kind::ExprOr => 5,
        Kind::ExprAnd => 6,
        Kind::ExprLet => 7,
        Kind::ExprCompare => 8,
        Kind::ExprBitOr => 9,
        Kind::ExprBitXor => 10,
        Kind::ExprBitAnd => 11,
        Kind::ExprShift => 12,
        Kind::ExprSum => 13,
        Kind::ExprProduct => 14,
        Kind::ExprCast => 15,
        Kind::ExprUnary | Kind::ExprRawAddr | Kind::ExprReference | Kind::ExprAttributed => 16,
        _ => 17,
    }
}

// Of attributes what stands behind them, of any other form that.
fn behind_attributes(kind: Kind, behind: bool, other: bool) -> bool
    ensures { result ≡ behind_attributes (kind_of kind) behind other }
{
    match kind {
        Kind::ExprAttributed => behind,
        _ => other,
    }
}

// Whether a form of the kind is a path.
fn is_path(kind: Kind) -> bool
    ensures { (y : Tree) → result ≡ is_path_form (Alone (kind_of kind) y) }
{
    match kind {
        Kind::ExprPath => true,
        _ => false,
    }
}

// Whether a postfix form may stand behind one of the level.
fn takes_postfix(level: usize) -> bool
    ensures { result ≡ takes_at level }
{
    level == 16 || level == 1
}

// From which level on an operand behind a form of the kind takes what follows.
fn cap(kind: Kind, right: Facts) -> usize
    ensures { result ≡ min (cond right.range 17 (lowest (level (kind_of kind)))) right.cap }
{
    if right.range {
        min(17, right.cap)
    } else {
        min(lowest(kind), right.cap)
    }
}

// Whether an operand behind a form of the kind takes a postfix form that follows.
fn opened(kind: Kind, right: Facts) -> bool
    ensures { result ≡ ((nat_lt (level (kind_of kind)) 16 && right.postfix) || right.opened) }
{
    (level(kind) < 16 && right.postfix) || right.opened
}

/// Of a form without operands, of which it is said what it ends.
pub(crate) fn alone(kind: Kind, block: bool, called: bool) -> Facts
    ensures { (y : Tree) → block ≡ is_block_like (Alone (kind_of kind) y)
        → called ≡ is_brace_macro (Alone (kind_of kind) y)
        → facts_of (flat y) result ≡ wrote (Alone (kind_of kind) y) }
{
    let level = level(kind);
    Facts {
        range: level == 3,
        postfix: takes_postfix(level),
        path: is_path(kind),
        block,
        called,
        compares: level == 7,
        least: 17,
        cap: 17,
        opened: false,
        last: Last::Other,
    }
}

/// Of a form with an operand behind it.
pub(crate) fn front(kind: Kind, right: Facts) -> Facts
    ensures { (y : Tree) (ts : List Token)
        → facts_of (flat y ++ ts) result ≡ front_of (kind_of kind) y (facts_of ts right) }
{
    let level = level(kind);
    Facts {
        range: behind_attributes(kind, right.range, level == 3),
        postfix: takes_postfix(level),
        path: false,
        block: behind_attributes(kind, right.block, false),
        called: behind_attributes(kind, right.called, false),
        compares: level == 7,
        least: 17,
        cap: cap(kind, right),
        opened: opened(kind, right),
        last: right.last,
    }
}

// Of a form with an operand before it, that ends with nothing of which is asked.
fn behind(left: Facts, kind: Kind) -> Facts
    ensures { (ts us : List Token)
        → facts_of (ts ++ us) result ≡ put_behind (facts_of ts left) (kind_of kind) us other }
{
    let level = level(kind);
    Facts {
        range: level == 3,
        postfix: takes_postfix(level),
        path: false,
        block: false,
        called: false,
        compares: level == 7,
        least: min(level, left.least),
        cap: 17,
        opened: false,
        last: Last::Other,
    }
}

/// Of a form with an operand before it, and what that form ends with.
pub(crate) fn back(left: Facts, kind: Kind, last: Last) -> Facts
    ensures { (ts us : List Token)
        → facts_of (ts ++ us) result ≡ put_behind (facts_of ts left) (kind_of kind) us (last_of last) }
{
    Facts {
        last,
        ..behind(left, kind)
    }
}

/// Of a form with both.
pub(crate) fn infix(left: Facts, kind: Kind, right: Facts) -> Facts
    ensures { (y : Tree) (ts us : List Token) → facts_of (ts ++ (flat y ++ us)) result
        ≡ infix_of (facts_of ts left) (kind_of kind) y (facts_of us right) }
{
    Facts {
        cap: cap(kind, right),
        opened: opened(kind, right),
        last: right.last,
        ..behind(left, kind)
    }
}
