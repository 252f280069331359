//! Operators.

ghost use Rattle.reader_table.specs.Kinds.{kind_of};
ghost use Rattle.std.specs.Prelude.{MatchOption, ◌≡◌};
ghost use Rattle.syn_expr.specs.ExprOps.{IsLimits, IsOperator, Operates, limits_kind, limits_tree, un_op_tree};
ghost use Rattle.syn_grammar.specs.Expressions.{expr_assign, expr_compare, expr_product, expr_shift, expr_sum};
ghost use Rattle.syn_grammar.specs.Expressions.{expr_unary};
ghost use Rattle.syn_grammar.specs.Kind as k;
ghost use Rattle.syn_grammar.specs.Tree as t;
ghost use Rattle.syn_grammar.specs.Tree.{Tree as GivenTree};
ghost use Rattle.syn_part.specs.Shape.{IsShaped};

use crate::expr::forms;
use reader_table::kind::Kind;
use reader_tree::tree::Tree;
use syn_part::leaf::Mark;
use syn_part::take;
use syn_pat::patterns::RangeLimits;

/// A unary operator.
#[derive(Clone, Copy)]
pub enum UnOp {
    /// `*`
    Deref(Mark),
    /// `!`
    Not(Mark),
    /// `-`
    Neg(Mark),
}

/// Which of them stands there.
#[tactic(auto, using(crate::proofs::ExprOps::unary_signs))]
pub fn as_un_op(tree: &Tree<'_>) -> Option<UnOp>
    ensures { MatchOption result (IsShaped tree.now expr_unary → ⊥) (λ o. tree.now ≡ un_op_tree o) }
{
    match forms::operator(tree, 3) {
        Some((0, mark)) => Some(UnOp::Deref(mark)),
        Some((1, mark)) => Some(UnOp::Not(mark)),
        Some((2, mark)) => Some(UnOp::Neg(mark)),
        Some(_) => None,
        None => None,
    }
}

/// A binary operator.
#[derive(Clone, Copy)]
pub enum BinOp {
    /// `+`
    Add(Mark),
    /// `-`
    Sub(Mark),
    /// `*`
    Mul(Mark),
    /// `/`
    Div(Mark),
    /// `%`
    Rem(Mark),
    /// `&&`
    And(Mark),
    /// `||`
    Or(Mark),
    /// `^`
    BitXor(Mark),
    /// `&`
    BitAnd(Mark),
    /// `|`
    BitOr(Mark),
    /// `<<`
    Shl(Mark),
    /// `>>`
    Shr(Mark),
    /// `==`
    Eq(Mark),
    /// `<`
    Lt(Mark),
    /// `<=`
    Le(Mark),
    /// `!=`
    Ne(Mark),
    /// `>=`
    Ge(Mark),
    /// `>`
    Gt(Mark),
    /// `+=`
    AddAssign(Mark),
    /// `-=`
    SubAssign(Mark),
    /// `*=`
    MulAssign(Mark),
    /// `/=`
    DivAssign(Mark),
    /// `%=`
    RemAssign(Mark),
    /// `^=`
    BitXorAssign(Mark),
    /// `&=`
    BitAndAssign(Mark),
    /// `|=`
    BitOrAssign(Mark),
    /// `<<=`
    ShlAssign(Mark),
    /// `>>=`
    ShrAssign(Mark),
}

// A sum's operator.
#[tactic(auto, using(crate::proofs::ExprOps::sum_signs))]
fn as_sum(tree: &Tree<'_>) -> Option<BinOp>
    ensures { MatchOption result (IsShaped tree.now expr_sum → ⊥) (λ o. Operates k.ExprSum tree.now o) }
{
    match forms::operator(tree, 2) {
        Some((0, mark)) => Some(BinOp::Add(mark)),
        Some((1, mark)) => Some(BinOp::Sub(mark)),
        Some(_) => None,
        None => None,
    }
}

// A product's operator.
#[tactic(auto, using(crate::proofs::ExprOps::product_signs))]
fn as_product(tree: &Tree<'_>) -> Option<BinOp>
    ensures { MatchOption result (IsShaped tree.now expr_product → ⊥) (λ o. Operates k.ExprProduct tree.now o) }
{
    match forms::operator(tree, 3) {
        Some((0, mark)) => Some(BinOp::Mul(mark)),
        Some((1, mark)) => Some(BinOp::Div(mark)),
        Some((2, mark)) => Some(BinOp::Rem(mark)),
        Some(_) => None,
        None => None,
    }
}

// A shift's operator.
#[tactic(auto, using(crate::proofs::ExprOps::shift_signs))]
fn as_shift(tree: &Tree<'_>) -> Option<BinOp>
    ensures { MatchOption result (IsShaped tree.now expr_shift → ⊥) (λ o. Operates k.ExprShift tree.now o) }
{
    match forms::operator(tree, 2) {
        Some((0, mark)) => Some(BinOp::Shl(mark)),
        Some((1, mark)) => Some(BinOp::Shr(mark)),
        Some(_) => None,
        None => None,
    }
}

// A comparison's operator.
#[tactic(auto, using(crate::proofs::ExprOps::compare_signs))]
fn as_compare(tree: &Tree<'_>) -> Option<BinOp>
    ensures { MatchOption result (IsShaped tree.now expr_compare → ⊥) (λ o. Operates k.ExprCompare tree.now o) }
{
    match forms::operator(tree, 6) {
        Some((0, mark)) => Some(BinOp::Eq(mark)),
        Some((1, mark)) => Some(BinOp::Le(mark)),
        Some((2, mark)) => Some(BinOp::Ne(mark)),
        Some((3, mark)) => Some(BinOp::Ge(mark)),
        Some((4, mark)) => Some(BinOp::Lt(mark)),
        Some((5, mark)) => Some(BinOp::Gt(mark)),
        Some(_) => None,
        None => None,
    }
}

// A compound assignment's operator: any of an assignment's but the first, which is `=`.
#[tactic(auto, using(crate::proofs::ExprOps::assign_signs))]
fn as_compound(tree: &Tree<'_>) -> Option<BinOp>
    ensures { MatchOption result ((y : GivenTree) → tree.now ≡ t.Second y → IsShaped tree.now expr_assign → ⊥)
        (λ o. Operates k.ExprAssign tree.now o) }
{
    match forms::operator(tree, 11) {
        Some((0, _)) => None,
        Some((1, mark)) => Some(BinOp::AddAssign(mark)),
        Some((2, mark)) => Some(BinOp::SubAssign(mark)),
        Some((3, mark)) => Some(BinOp::MulAssign(mark)),
        Some((4, mark)) => Some(BinOp::DivAssign(mark)),
        Some((5, mark)) => Some(BinOp::RemAssign(mark)),
        Some((6, mark)) => Some(BinOp::BitXorAssign(mark)),
        Some((7, mark)) => Some(BinOp::BitAndAssign(mark)),
        Some((8, mark)) => Some(BinOp::BitOrAssign(mark)),
        Some((9, mark)) => Some(BinOp::ShlAssign(mark)),
        Some((10, mark)) => Some(BinOp::ShrAssign(mark)),
        Some(_) => None,
        None => None,
    }
}

/// The operator of an infix form of the kind.
#[tactic(auto, unfolding(syn_grammar::specs::Table::table), using(crate::proofs::ExprOps::compound))]
pub fn bin_op(kind: Kind, own: &Tree<'_>) -> Option<BinOp>
    ensures { MatchOption result (IsOperator (kind_of kind) own.now → ⊥) (λ o. Operates (kind_of kind) own.now o) }
{
    match kind {
        Kind::ExprOr => match take::mark(own) {
            Some(mark) => Some(BinOp::Or(mark)),
            None => None,
        },
        Kind::ExprAnd => match take::mark(own) {
            Some(mark) => Some(BinOp::And(mark)),
            None => None,
        },
        Kind::ExprBitOr => match take::mark(own) {
            Some(mark) => Some(BinOp::BitOr(mark)),
            None => None,
        },
        Kind::ExprBitXor => match take::mark(own) {
            Some(mark) => Some(BinOp::BitXor(mark)),
            None => None,
        },
        Kind::ExprBitAnd => match take::mark(own) {
            Some(mark) => Some(BinOp::BitAnd(mark)),
            None => None,
        },
        Kind::ExprSum => as_sum(own),
        Kind::ExprProduct => as_product(own),
        Kind::ExprShift => as_shift(own),
        Kind::ExprCompare => as_compare(own),
        Kind::ExprAssign => as_compound(own),
        _ => None,
    }
}

/// Whether the end of a range's form of the kind is in it.
#[tactic(auto, unfolding(syn_grammar::specs::Table::table))]
pub fn range_limits(kind: Kind, own: &Tree<'_>) -> Option<RangeLimits>
    ensures { MatchOption result (IsLimits (kind_of kind) own.now → ⊥)
        (λ l. (kind_of kind ≡ limits_kind l) × (own.now ≡ limits_tree l)) }
{
    match kind {
        Kind::ExprRange => match take::mark(own) {
            Some(mark) => Some(RangeLimits::HalfOpen(mark)),
            None => None,
        },
        Kind::ExprRangeClosed => match take::mark(own) {
            Some(mark) => Some(RangeLimits::Closed(mark)),
            None => None,
        },
        _ => None,
    }
}
