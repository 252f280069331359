//! Operators.

ghost use Rattle.reader_table.specs.Kinds.{kind_of};
ghost use Rattle.std.specs.Prelude.{◌≡◌, ◌↔◌, IsTrue};
ghost use Rattle.syn_expr.specs.ExprOps.{bin_op_kind, bin_op_tree, limits_kind, limits_tree, un_op_tree};
ghost use Rattle.syn_made.specs.MadeExpr.{IsBinary, IsUnary};
ghost use Rattle.syn_part.specs.Leaves.{mark_tree};

use crate::leaf::is_sign;
use crate::put::nth;
use crate::to_tree::ToTree;
use reader_table::kind::Kind;
use reader_table::word::Sign;
use reader_tree::arena::Arena;
use reader_tree::tree::Tree;
use std::alloc::AllocError;
use syn_expr::expr::ops::{BinOp, UnOp};
use syn_part::leaf::Mark;
use syn_pat::patterns::RangeLimits;

impl<'a> ToTree<'a> for UnOp {
    ghost tree = { un_op_tree };

    fn to_tree(&self, arena: &'a Arena) -> Result<Tree<'a>, AllocError> {
        match *self {
            UnOp::Deref(sign) => nth(arena, 0, &sign),
            UnOp::Not(sign) => nth(arena, 1, &sign),
            UnOp::Neg(sign) => nth(arena, 2, &sign),
        }
    }
}

/// The kind of a binary operator's form.
pub fn bin_op_kind(op: BinOp) -> Kind
    ensures { kind_of result ≡ bin_op_kind op }
{
    match op {
        BinOp::Or(_) => Kind::ExprOr,
        BinOp::And(_) => Kind::ExprAnd,
        BinOp::BitOr(_) => Kind::ExprBitOr,
        BinOp::BitXor(_) => Kind::ExprBitXor,
        BinOp::BitAnd(_) => Kind::ExprBitAnd,
        BinOp::Add(_) | BinOp::Sub(_) => Kind::ExprSum,
        BinOp::Mul(_) | BinOp::Div(_) | BinOp::Rem(_) => Kind::ExprProduct,
        BinOp::Shl(_) | BinOp::Shr(_) => Kind::ExprShift,
        BinOp::Eq(_) | BinOp::Le(_) | BinOp::Ne(_) | BinOp::Ge(_) | BinOp::Lt(_) | BinOp::Gt(_) =>
            Kind::ExprCompare,
        BinOp::AddAssign(_) | BinOp::SubAssign(_) | BinOp::MulAssign(_) | BinOp::DivAssign(_) =>
            Kind::ExprAssign,
        BinOp::RemAssign(_) | BinOp::BitXorAssign(_) | BinOp::BitAndAssign(_) => Kind::ExprAssign,
        BinOp::BitOrAssign(_) | BinOp::ShlAssign(_) | BinOp::ShrAssign(_) => Kind::ExprAssign,
    }
}

/// The own part of a binary operator's form.
impl<'a> ToTree<'a> for BinOp {
    ghost tree = { bin_op_tree };

    fn to_tree(&self, arena: &'a Arena) -> Result<Tree<'a>, AllocError> {
        match *self {
            BinOp::Or(sign) | BinOp::And(sign) => sign.to_tree(arena),
            BinOp::BitOr(sign) | BinOp::BitXor(sign) | BinOp::BitAnd(sign) => sign.to_tree(arena),
            BinOp::Add(sign) | BinOp::Mul(sign) | BinOp::Shl(sign) => nth(arena, 0, &sign),
            BinOp::Eq(sign) => nth(arena, 0, &sign),
            BinOp::Sub(sign) | BinOp::Div(sign) | BinOp::Shr(sign) => nth(arena, 1, &sign),
            BinOp::Le(sign) | BinOp::AddAssign(sign) => nth(arena, 1, &sign),
            BinOp::Rem(sign) | BinOp::Ne(sign) | BinOp::SubAssign(sign) => nth(arena, 2, &sign),
            BinOp::Ge(sign) | BinOp::MulAssign(sign) => nth(arena, 3, &sign),
            BinOp::Lt(sign) | BinOp::DivAssign(sign) => nth(arena, 4, &sign),
            BinOp::Gt(sign) | BinOp::RemAssign(sign) => nth(arena, 5, &sign),
            BinOp::BitXorAssign(sign) => nth(arena, 6, &sign),
            BinOp::BitAndAssign(sign) => nth(arena, 7, &sign),
            BinOp::BitOrAssign(sign) => nth(arena, 8, &sign),
            BinOp::ShlAssign(sign) => nth(arena, 9, &sign),
            BinOp::ShrAssign(sign) => nth(arena, 10, &sign),
        }
    }
}

/// The kind of a range's form.
pub fn limits_kind(limits: RangeLimits) -> Kind
    ensures { kind_of result ≡ limits_kind limits }
{
    match limits {
        RangeLimits::HalfOpen(_) => Kind::ExprRange,
        RangeLimits::Closed(_) => Kind::ExprRangeClosed,
    }
}

/// The own part of a range's form.
pub fn limits_mark(limits: RangeLimits) -> Mark
    ensures { mark_tree result ≡ limits_tree limits }
{
    match limits {
        RangeLimits::HalfOpen(sign) | RangeLimits::Closed(sign) => sign,
    }
}

/// Whether the punctuation of a unary operator is that operator's.
pub(crate) fn is_unary(op: UnOp) -> bool
    ensures { IsTrue result ↔ IsUnary op }
{
    match op {
        UnOp::Deref(mark) => is_sign(mark, Sign::Star),
        UnOp::Not(mark) => is_sign(mark, Sign::Not),
        UnOp::Neg(mark) => is_sign(mark, Sign::Minus),
    }
}

/// Whether the punctuation of a binary operator is that operator's.
pub(crate) fn is_binary(op: BinOp) -> bool
    ensures { IsTrue result ↔ IsBinary op }
{
    match op {
        BinOp::Add(mark) => is_sign(mark, Sign::Plus),
        BinOp::Sub(mark) => is_sign(mark, Sign::Minus),
        BinOp::Mul(mark) => is_sign(mark, Sign::Star),
        BinOp::Div(mark) => is_sign(mark, Sign::Slash),
        BinOp::Rem(mark) => is_sign(mark, Sign::Percent),
        BinOp::And(mark) => is_sign(mark, Sign::AndAnd),
        BinOp::Or(mark) => is_sign(mark, Sign::OrOr),
        BinOp::BitXor(mark) => is_sign(mark, Sign::Caret),
        BinOp::BitAnd(mark) => is_sign(mark, Sign::And),
        BinOp::BitOr(mark) => is_sign(mark, Sign::Or),
        BinOp::Shl(mark) => is_sign(mark, Sign::Shl),
        BinOp::Shr(mark) => is_sign(mark, Sign::Shr),
        BinOp::Eq(mark) => is_sign(mark, Sign::EqEq),
        BinOp::Lt(mark) => is_sign(mark, Sign::Lt),
        BinOp::Le(mark) => is_sign(mark, Sign::Le),
        BinOp::Ne(mark) => is_sign(mark, Sign::Ne),
        BinOp::Ge(mark) => is_sign(mark, Sign::Ge),
        BinOp::Gt(mark) => is_sign(mark, Sign::Gt),
        BinOp::AddAssign(mark) => is_sign(mark, Sign::PlusEq),
        BinOp::SubAssign(mark) => is_sign(mark, Sign::MinusEq),
        BinOp::MulAssign(mark) => is_sign(mark, Sign::StarEq),
        BinOp::DivAssign(mark) => is_sign(mark, Sign::SlashEq),
        BinOp::RemAssign(mark) => is_sign(mark, Sign::PercentEq),
        BinOp::BitXorAssign(mark) => is_sign(mark, Sign::CaretEq),
        BinOp::BitAndAssign(mark) => is_sign(mark, Sign::AndEq),
        BinOp::BitOrAssign(mark) => is_sign(mark, Sign::OrEq),
        BinOp::ShlAssign(mark) => is_sign(mark, Sign::ShlEq),
        BinOp::ShrAssign(mark) => is_sign(mark, Sign::ShrEq),
    }
}
