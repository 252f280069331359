//! Reading operators: the longest one that stands there.

ghost use Rattle.proc_macro2.specs.Token.{plain};
ghost use Rattle.std.specs.Prelude.{◌≡◌, IfErr, IfNone, IfOk, IfSome, OnOk, false, length};
ghost use Rattle.syn_error.specs.Faults.{IsSyntax};
ghost use Rattle.syn_leaf.specs.Longest as longest;
ghost use Rattle.syn_leaf.specs.Longest.{ReadsLongest, binary_texts, one_stands, range_texts, unary_texts};
ghost use Rattle.syn_leaf.specs.Operators.{bin_op_spans, bin_op_text, range_limits_spans, range_limits_text};
ghost use Rattle.syn_leaf.specs.Operators.{un_op_spans, un_op_text};
ghost use Rattle.syn_parse.specs.Input.{IsOnward, left, rest};
ghost use Rattle.syn_parse.specs.Marks.{ReadsMarks};

use crate::operators::{BinOp, RangeLimits, UnOp};
use syn_error::fault::ParseFault;
use syn_kinds::token;
use syn_parse::{Parse, ParseBuffer};

// The first of some kinds that stands, as the operator that is written so, or none. What is read is returned.
macro_rules! first_of {
    ($input:ident, $($kind:ident => $operator:ident,)+) => {{
        $(
            if $input.peek::<token::$kind>() {
                return Ok(Some(BinOp::$operator($input.parse::<token::$kind>()?)));
            }
        )+
        Ok(None)
    }};
}

// An operator of three marks, if one stands there.
#[tactic(auto, unfolding(syn_kinds::specs::Table::marks, syn_kinds::specs::Table::sign))]
fn of_three(input: &mut ParseBuffer<'_>) -> Result<Option<BinOp>, ParseFault>
    ensures some { IfOk result (λ found. IfSome found (λ op.
        ReadsMarks (bin_op_text op) (bin_op_spans op) (rest input.old) (rest input.new))) }
    ensures width { IfOk result (λ found. IfSome found (λ op. length (bin_op_text op) ≡ 3)) }
    ensures none { IfOk result (λ found. IfNone found (one_stands longest.of_three (left input.old) ≡ false)) }
    ensures stays { IfOk result (λ found. IfNone found (input.new ≡ input.old)) }
    ensures sound { IfErr result (λ e. IsSyntax e → ⊥) }
    ensures noted { OnOk result (input.new.noted ≡ input.old.noted) }
    ensures onward { IsOnward input.old input.new }
{
    first_of!(
        input,
        ShlEq => ShlAssign,
        ShrEq => ShrAssign,
    )
}

// An operator of two marks that assigns a value, if one stands there.
#[tactic(auto, unfolding(syn_kinds::specs::Table::marks, syn_kinds::specs::Table::sign))]
fn assigning(input: &mut ParseBuffer<'_>) -> Result<Option<BinOp>, ParseFault>
    ensures some { IfOk result (λ found. IfSome found (λ op.
        ReadsMarks (bin_op_text op) (bin_op_spans op) (rest input.old) (rest input.new))) }
    ensures width { IfOk result (λ found. IfSome found (λ op. length (bin_op_text op) ≡ 2)) }
    ensures none { IfOk result (λ found. IfNone found (one_stands longest.assigning (left input.old) ≡ false)) }
    ensures stays { IfOk result (λ found. IfNone found (input.new ≡ input.old)) }
    ensures sound { IfErr result (λ e. IsSyntax e → ⊥) }
    ensures noted { OnOk result (input.new.noted ≡ input.old.noted) }
    ensures onward { IsOnward input.old input.new }
{
    first_of!(
        input,
        PlusEq => AddAssign,
        MinusEq => SubAssign,
        StarEq => MulAssign,
        SlashEq => DivAssign,
        PercentEq => RemAssign,
        CaretEq => BitXorAssign,
        AndEq => BitAndAssign,
        OrEq => BitOrAssign,
    )
}

// An operator of two marks that assigns none, if one stands there.
#[tactic(auto, unfolding(syn_kinds::specs::Table::marks, syn_kinds::specs::Table::sign))]
fn of_two(input: &mut ParseBuffer<'_>) -> Result<Option<BinOp>, ParseFault>
    ensures some { IfOk result (λ found. IfSome found (λ op.
        ReadsMarks (bin_op_text op) (bin_op_spans op) (rest input.old) (rest input.new))) }
    ensures width { IfOk result (λ found. IfSome found (λ op. length (bin_op_text op) ≡ 2)) }
    ensures none { IfOk result (λ found. IfNone found (one_stands longest.of_two (left input.old) ≡ false)) }
    ensures stays { IfOk result (λ found. IfNone found (input.new ≡ input.old)) }
    ensures sound { IfErr result (λ e. IsSyntax e → ⊥) }
    ensures noted { OnOk result (input.new.noted ≡ input.old.noted) }
    ensures onward { IsOnward input.old input.new }
{
    first_of!(
        input,
        AndAnd => And,
        OrOr => Or,
        Shl => Shl,
        Shr => Shr,
        EqEq => Eq,
        Le => Le,
        Ne => Ne,
        Ge => Ge,
    )
}

// An operator of one mark, if one stands there.
#[tactic(auto, unfolding(syn_kinds::specs::Table::marks, syn_kinds::specs::Table::sign))]
fn of_one(input: &mut ParseBuffer<'_>) -> Result<Option<BinOp>, ParseFault>
    ensures some { IfOk result (λ found. IfSome found (λ op.
        ReadsMarks (bin_op_text op) (bin_op_spans op) (rest input.old) (rest input.new))) }
    ensures width { IfOk result (λ found. IfSome found (λ op. length (bin_op_text op) ≡ 1)) }
    ensures none { IfOk result (λ found. IfNone found (one_stands longest.of_one (left input.old) ≡ false)) }
    ensures stays { IfOk result (λ found. IfNone found (input.new ≡ input.old)) }
    ensures sound { IfErr result (λ e. IsSyntax e → ⊥) }
    ensures noted { OnOk result (input.new.noted ≡ input.old.noted) }
    ensures onward { IsOnward input.old input.new }
{
    first_of!(
        input,
        Plus => Add,
        Minus => Sub,
        Star => Mul,
        Slash => Div,
        Percent => Rem,
        Caret => BitXor,
        And => BitAnd,
        Or => BitOr,
        Lt => Lt,
        Gt => Gt,
    )
}

/// The longest operator that stands there.
#[tactic(auto, using(crate::proofs::Longest::longest))]
impl Parse for BinOp {
    ghost reads = { λ ts op us. ReadsLongest binary_texts (bin_op_text op) (bin_op_spans op) ts us };

    ghost refuses = { λ ts. one_stands binary_texts (plain ts) ≡ false };

    fn parse(input: &mut ParseBuffer<'_>) -> Result<BinOp, ParseFault> {
        if let Some(op) = of_three(input)? {
            return Ok(op);
        }
        if let Some(op) = assigning(input)? {
            return Ok(op);
        }
        if let Some(op) = of_two(input)? {
            return Ok(op);
        }
        match of_one(input)? {
            Some(op) => Ok(op),
            None => Err(input.expected("binary operator")),
        }
    }
}

/// `*`, `!` or `-`, whatever follows it.
#[tactic(auto, unfolding(syn_kinds::specs::Table::marks, syn_kinds::specs::Table::sign))]
impl Parse for UnOp {
    ghost reads = { λ ts op us. ReadsLongest unary_texts (un_op_text op) (un_op_spans op) ts us };

    ghost refuses = { λ ts. one_stands unary_texts (plain ts) ≡ false };

    fn parse(input: &mut ParseBuffer<'_>) -> Result<UnOp, ParseFault> {
        let mut lookahead = input.lookahead1();
        if lookahead.peek::<token::Star>()? {
            return Ok(UnOp::Deref(input.parse::<token::Star>()?));
        }
        if lookahead.peek::<token::Not>()? {
            return Ok(UnOp::Not(input.parse::<token::Not>()?));
        }
        if lookahead.peek::<token::Minus>()? {
            return Ok(UnOp::Neg(input.parse::<token::Minus>()?));
        }
        Err(lookahead.error())
    }
}

/// `..=` or `..`, and neither where `...` stands.
#[tactic(auto, unfolding(syn_kinds::specs::Table::marks, syn_kinds::specs::Table::sign))]
impl Parse for RangeLimits {
    ghost use Rattle.std.specs.Prelude.{◌⊎◌, codes, true};
    ghost use Rattle.syn_kinds.specs.Stands.{marks_stand};

    ghost reads = { λ ts op us. ReadsLongest range_texts (range_limits_text op) (range_limits_spans op) ts us };

    ghost refuses = { λ ts.
        (marks_stand (codes "...") (plain ts) ≡ true) ⊎ (marks_stand (codes "..") (plain ts) ≡ false) };

    fn parse(input: &mut ParseBuffer<'_>) -> Result<RangeLimits, ParseFault> {
        let mut lookahead = input.lookahead1();
        let half_open = lookahead.peek::<token::DotDot>()?;
        if lookahead.peek::<token::DotDotEq>()? {
            return Ok(RangeLimits::Closed(input.parse::<token::DotDotEq>()?));
        }
        if half_open && !input.peek::<token::DotDotDot>() {
            return Ok(RangeLimits::HalfOpen(input.parse::<token::DotDot>()?));
        }
        Err(lookahead.error())
    }
}
