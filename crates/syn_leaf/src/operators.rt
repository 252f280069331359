//! Operators.

ghost use Rattle.std.proofs.Common.{ap};
ghost use Rattle.std.specs.Cmp.{on_equiv, on_per, partial_equiv_from_equiv};
ghost use Rattle.std.specs.Cmp.Lexicographic.{bytes_decides, nat_list_eq_equiv};
ghost use Rattle.std.specs.Hash as fed;
ghost use Rattle.std.specs.Prelude.{◌++◌, ◌≡◌};
ghost use Rattle.std.specs.Str.{bytes_eq};
ghost use Rattle.syn_kinds.specs.Values.{marks_tokens};
ghost use Rattle.syn_leaf.specs.Operators.{bin_op_spans, bin_op_text, range_limits_spans, range_limits_text};
ghost use Rattle.syn_leaf.specs.Operators.{un_op_spans, un_op_text};

use proc_macro2::tree::TokenStream;
use std::alloc::AllocError;
use std::hash::{Hash, Hasher};
use syn_error::to_tokens::ToTokens;
use syn_kinds::token;
use try_clone::TryClone;

/// An operator between two operands.
///
/// Two are equal where they are written the same, wherever they stand.
#[derive(Clone, Copy, Debug)]
pub enum BinOp {
    /// `+`
    Add(token::Plus),
    /// `-`
    Sub(token::Minus),
    /// `*`
    Mul(token::Star),
    /// `/`
    Div(token::Slash),
    /// `%`
    Rem(token::Percent),
    /// `&&`
    And(token::AndAnd),
    /// `||`
    Or(token::OrOr),
    /// `^`
    BitXor(token::Caret),
    /// `&`
    BitAnd(token::And),
    /// `|`
    BitOr(token::Or),
    /// `<<`
    Shl(token::Shl),
    /// `>>`
    Shr(token::Shr),
    /// `==`
    Eq(token::EqEq),
    /// `<`
    Lt(token::Lt),
    /// `<=`
    Le(token::Le),
    /// `!=`
    Ne(token::Ne),
    /// `>=`
    Ge(token::Ge),
    /// `>`
    Gt(token::Gt),
    /// `+=`
    AddAssign(token::PlusEq),
    /// `-=`
    SubAssign(token::MinusEq),
    /// `*=`
    MulAssign(token::StarEq),
    /// `/=`
    DivAssign(token::SlashEq),
    /// `%=`
    RemAssign(token::PercentEq),
    /// `^=`
    BitXorAssign(token::CaretEq),
    /// `&=`
    BitAndAssign(token::AndEq),
    /// `|=`
    BitOrAssign(token::OrEq),
    /// `<<=`
    ShlAssign(token::ShlEq),
    /// `>>=`
    ShrAssign(token::ShrEq),
}

impl BinOp {
    /// How the operator is written.
    pub fn text(&self) -> &'static str
        ensures { result.now ≡ bin_op_text self.now }
    {
        match self {
            BinOp::Add(_) => "+",
            BinOp::Sub(_) => "-",
            BinOp::Mul(_) => "*",
            BinOp::Div(_) => "/",
            BinOp::Rem(_) => "%",
            BinOp::And(_) => "&&",
            BinOp::Or(_) => "||",
            BinOp::BitXor(_) => "^",
            BinOp::BitAnd(_) => "&",
            BinOp::BitOr(_) => "|",
            BinOp::Shl(_) => "<<",
            BinOp::Shr(_) => ">>",
            BinOp::Eq(_) => "==",
            BinOp::Lt(_) => "<",
            BinOp::Le(_) => "<=",
            BinOp::Ne(_) => "!=",
            BinOp::Ge(_) => ">=",
            BinOp::Gt(_) => ">",
            BinOp::AddAssign(_) => "+=",
            BinOp::SubAssign(_) => "-=",
            BinOp::MulAssign(_) => "*=",
            BinOp::DivAssign(_) => "/=",
            BinOp::RemAssign(_) => "%=",
            BinOp::BitXorAssign(_) => "^=",
            BinOp::BitAndAssign(_) => "&=",
            BinOp::BitOrAssign(_) => "|=",
            BinOp::ShlAssign(_) => "<<=",
            BinOp::ShrAssign(_) => ">>=",
        }
    }
}

impl PartialEq for BinOp {
    ghost eq = { λ a b. bytes_eq (bin_op_text a) (bin_op_text b) };

    ghost laws = { on_per bin_op_text (partial_equiv_from_equiv nat_list_eq_equiv) };

    fn eq(&self, other: &BinOp) -> bool {
        self.text() == other.text()
    }
}

impl Eq for BinOp {
    ghost laws = { on_equiv bin_op_text nat_list_eq_equiv };
}

impl Hash for BinOp {
    ghost hash_input = { λ op. fed.str (bin_op_text op) };

    ghost respects_eq = { λ a b h. ap fed.str ((bytes_decides (bin_op_text a) (bin_op_text b)).0 h) };

    fn hash<H: Hasher>(&self, state: &mut H) {
        self.text().hash(state);
    }
}

#[tactic(auto, unfolding(syn_kinds::specs::Table::marks, syn_kinds::specs::Table::sign))]
impl ToTokens for BinOp {
    ghost puts = { λ op old new. new ≡ old ++ marks_tokens (bin_op_text op) (bin_op_spans op) };

    fn to_tokens(&self, tokens: &mut TokenStream) -> Result<(), AllocError> {
        match self {
            BinOp::Add(token) => token.to_tokens(tokens),
            BinOp::Sub(token) => token.to_tokens(tokens),
            BinOp::Mul(token) => token.to_tokens(tokens),
            BinOp::Div(token) => token.to_tokens(tokens),
            BinOp::Rem(token) => token.to_tokens(tokens),
            BinOp::And(token) => token.to_tokens(tokens),
            BinOp::Or(token) => token.to_tokens(tokens),
            BinOp::BitXor(token) => token.to_tokens(tokens),
            BinOp::BitAnd(token) => token.to_tokens(tokens),
            BinOp::BitOr(token) => token.to_tokens(tokens),
            BinOp::Shl(token) => token.to_tokens(tokens),
            BinOp::Shr(token) => token.to_tokens(tokens),
            BinOp::Eq(token) => token.to_tokens(tokens),
            BinOp::Lt(token) => token.to_tokens(tokens),
            BinOp::Le(token) => token.to_tokens(tokens),
            BinOp::Ne(token) => token.to_tokens(tokens),
            BinOp::Ge(token) => token.to_tokens(tokens),
            BinOp::Gt(token) => token.to_tokens(tokens),
            BinOp::AddAssign(token) => token.to_tokens(tokens),
            BinOp::SubAssign(token) => token.to_tokens(tokens),
            BinOp::MulAssign(token) => token.to_tokens(tokens),
            BinOp::DivAssign(token) => token.to_tokens(tokens),
            BinOp::RemAssign(token) => token.to_tokens(tokens),
            BinOp::BitXorAssign(token) => token.to_tokens(tokens),
            BinOp::BitAndAssign(token) => token.to_tokens(tokens),
            BinOp::BitOrAssign(token) => token.to_tokens(tokens),
            BinOp::ShlAssign(token) => token.to_tokens(tokens),
            BinOp::ShrAssign(token) => token.to_tokens(tokens),
        }
    }
}

impl TryClone for BinOp {
    ghost use Rattle.syn_leaf.specs.declared.operators.BinOp.{BinOp as Operator};

    ghost Shown = { Operator };

    ghost shown = { λ op. op };

    /// A copy, which takes no memory.
    fn try_clone(&self) -> Result<BinOp, AllocError> {
        Ok(*self)
    }
}

/// An operator before an operand.
///
/// Two are equal where they are written the same, wherever they stand.
#[derive(Clone, Copy, Debug)]
pub enum UnOp {
    /// `*`
    Deref(token::Star),
    /// `!`
    Not(token::Not),
    /// `-`
    Neg(token::Minus),
}

impl UnOp {
    /// How the operator is written.
    pub fn text(&self) -> &'static str
        ensures { result.now ≡ un_op_text self.now }
    {
        match self {
            UnOp::Deref(_) => "*",
            UnOp::Not(_) => "!",
            UnOp::Neg(_) => "-",
        }
    }
}

impl PartialEq for UnOp {
    ghost eq = { λ a b. bytes_eq (un_op_text a) (un_op_text b) };

    ghost laws = { on_per un_op_text (partial_equiv_from_equiv nat_list_eq_equiv) };

    fn eq(&self, other: &UnOp) -> bool {
        self.text() == other.text()
    }
}

impl Eq for UnOp {
    ghost laws = { on_equiv un_op_text nat_list_eq_equiv };
}

impl Hash for UnOp {
    ghost hash_input = { λ op. fed.str (un_op_text op) };

    ghost respects_eq = { λ a b h. ap fed.str ((bytes_decides (un_op_text a) (un_op_text b)).0 h) };

    fn hash<H: Hasher>(&self, state: &mut H) {
        self.text().hash(state);
    }
}

#[tactic(auto, unfolding(syn_kinds::specs::Table::marks, syn_kinds::specs::Table::sign))]
impl ToTokens for UnOp {
    ghost puts = { λ op old new. new ≡ old ++ marks_tokens (un_op_text op) (un_op_spans op) };

    fn to_tokens(&self, tokens: &mut TokenStream) -> Result<(), AllocError> {
        match self {
            UnOp::Deref(token) => token.to_tokens(tokens),
            UnOp::Not(token) => token.to_tokens(tokens),
            UnOp::Neg(token) => token.to_tokens(tokens),
        }
    }
}

impl TryClone for UnOp {
    ghost use Rattle.syn_leaf.specs.declared.operators.UnOp.{UnOp as Operator};

    ghost Shown = { Operator };

    ghost shown = { λ op. op };

    /// A copy, which takes no memory.
    fn try_clone(&self) -> Result<UnOp, AllocError> {
        Ok(*self)
    }
}

/// What stands between the ends of a range.
///
/// Two are equal where they are written the same, wherever they stand.
#[derive(Clone, Copy, Debug)]
pub enum RangeLimits {
    /// `..`
    HalfOpen(token::DotDot),
    /// `..=`
    Closed(token::DotDotEq),
}

impl RangeLimits {
    /// How the operator is written.
    pub fn text(&self) -> &'static str
        ensures { result.now ≡ range_limits_text self.now }
    {
        match self {
            RangeLimits::HalfOpen(_) => "..",
            RangeLimits::Closed(_) => "..=",
        }
    }
}

impl PartialEq for RangeLimits {
    ghost eq = { λ a b. bytes_eq (range_limits_text a) (range_limits_text b) };

    ghost laws = { on_per range_limits_text (partial_equiv_from_equiv nat_list_eq_equiv) };

    fn eq(&self, other: &RangeLimits) -> bool {
        self.text() == other.text()
    }
}

impl Eq for RangeLimits {
    ghost laws = { on_equiv range_limits_text nat_list_eq_equiv };
}

impl Hash for RangeLimits {
    ghost hash_input = { λ op. fed.str (range_limits_text op) };

    ghost respects_eq = { λ a b h. ap fed.str ((bytes_decides (range_limits_text a) (range_limits_text b)).0 h) };

    fn hash<H: Hasher>(&self, state: &mut H) {
        self.text().hash(state);
    }
}

#[tactic(auto, unfolding(syn_kinds::specs::Table::marks, syn_kinds::specs::Table::sign))]
impl ToTokens for RangeLimits {
    ghost puts = { λ op old new. new ≡ old ++ marks_tokens (range_limits_text op) (range_limits_spans op) };

    fn to_tokens(&self, tokens: &mut TokenStream) -> Result<(), AllocError> {
        match self {
            RangeLimits::HalfOpen(token) => token.to_tokens(tokens),
            RangeLimits::Closed(token) => token.to_tokens(tokens),
        }
    }
}

impl TryClone for RangeLimits {
    ghost use Rattle.syn_leaf.specs.declared.operators.RangeLimits.{RangeLimits as Operator};

    ghost Shown = { Operator };

    ghost shown = { λ op. op };

    /// A copy, which takes no memory.
    fn try_clone(&self) -> Result<RangeLimits, AllocError> {
        Ok(*self)
    }
}
