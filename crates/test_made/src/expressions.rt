//! Changes of expressions, and of the fields and arms that stand in them.

use crate::asked;
use crate::change::{By, Change, Unmade, held, limits, mark, remade, remade_always, some_of};
use syn::{
    Arena, Arm, BinOp, Expr, ExprBinary, ExprCast, ExprMethodCall, ExprRange, ExprTuple, ExprUnary,
    FieldValue, Position, Sign, Tree, UnOp,
};
use syn_made::expr::whole::expression;

// A binary operation: its operands the other way, or the product of them, with the punctuation that is named.
impl<'a> Change<'a> for ExprBinary<'a, 'a> {
    fn changed(by: By<'_, 'a>, tree: &'a Tree<'a>) -> Option<ExprBinary<'a, 'a>> {
        let found = ExprBinary::of(tree)?;
        Some(match by.change {
            "swapped" => ExprBinary {
                left: found.right,
                op: found.op,
                right: found.left,
            },
            "multiplied by a star" => ExprBinary {
                op: BinOp::Mul(mark(Sign::Star)),
                ..found
            },
            _ => ExprBinary {
                op: BinOp::Mul(mark(Sign::Plus)),
                ..found
            },
        })
    }
}

// A binary operation, changed so, as an expression.
fn put_binary<'a>(
    arena: &'a Arena,
    by: By<'_, 'a>,
    form: &'a Tree<'a>,
) -> Result<Option<Tree<'a>>, Unmade> {
    match remade::<ExprBinary>(arena, by, form)? {
        Some(form) => held(expression(arena, Position::Plain, form)),
        None => Ok(None),
    }
}

// The negative of a unary operation's operand, with the punctuation that is named.
impl<'a> Change<'a> for ExprUnary<'a, 'a> {
    fn changed(by: By<'_, 'a>, tree: &'a Tree<'a>) -> Option<ExprUnary<'a, 'a>> {
        let found = ExprUnary::of(tree)?;
        let sign = match by.change {
            "negated by a minus" => Sign::Minus,
            _ => Sign::Star,
        };
        let op = UnOp::Neg(mark(sign));
        Some(ExprUnary { op, ..found })
    }
}

// A call of a method without its arguments in angle brackets.
impl<'a> Change<'a> for ExprMethodCall<'a, 'a> {
    fn changed(_by: By<'_, 'a>, tree: &'a Tree<'a>) -> Option<ExprMethodCall<'a, 'a>> {
        let found = ExprMethodCall::of(tree)?;
        Some(ExprMethodCall {
            turbofish: None,
            ..found
        })
    }
}

// A tuple of some of its elements.
impl<'a> Change<'a> for ExprTuple<'a, 'a> {
    fn changed(by: By<'_, 'a>, tree: &'a Tree<'a>) -> Option<ExprTuple<'a, 'a>> {
        let found = ExprTuple::of(tree)?;
        let elems = some_of(by.change, found.elems);
        Some(ExprTuple { elems, ..found })
    }
}

// A range without its end, or with its end in it.
impl<'a> Change<'a> for ExprRange<'a, 'a> {
    fn changed(by: By<'_, 'a>, tree: &'a Tree<'a>) -> Option<ExprRange<'a, 'a>> {
        let found = ExprRange::of(tree)?;
        Some(match by.change {
            "endless" => ExprRange { end: None, ..found },
            change => ExprRange {
                limits: limits(change),
                ..found
            },
        })
    }
}

// A cast, as it is.
impl<'a> Change<'a> for ExprCast<'a, 'a> {
    fn changed(_by: By<'_, 'a>, tree: &'a Tree<'a>) -> Option<ExprCast<'a, 'a>> {
        ExprCast::of(tree)
    }
}

// A field's value as its member alone, or without its `:`.
impl<'a> Change<'a> for FieldValue<'a, 'a> {
    fn changed(by: By<'_, 'a>, tree: &'a Tree<'a>) -> Option<FieldValue<'a, 'a>> {
        let found = FieldValue::of(tree)?;
        let expr = match by.change {
            "short" => None,
            _ => found.expr,
        };
        Some(FieldValue {
            colon_token: None,
            expr,
            ..found
        })
    }
}

// An arm with which the braces end, or with a comma behind it.
impl<'a> Change<'a> for Arm<'a, 'a> {
    fn changed(by: By<'_, 'a>, tree: &'a Tree<'a>) -> Option<Arm<'a, 'a>> {
        let found = Arm::of(tree)?;
        match by.change {
            "at end" => Some(Arm {
                at_end: true,
                ..found
            }),
            _ => Some(Arm {
                at_end: false,
                comma: Some(mark(Sign::Comma)),
                ..found
            }),
        }
    }
}

/// The form of an expression, changed so.
pub(crate) fn changed<'a>(
    form: asked::Expr,
    arena: &'a Arena,
    by: By<'_, 'a>,
    tree: &'a Tree<'a>,
) -> Result<Option<Tree<'a>>, Unmade> {
    let Some(found) = Expr::of(tree) else {
        return Err(Unmade::NoRow);
    };
    match form {
        asked::Expr::Binary => put_binary(arena, by, found.tree),
        asked::Expr::Unary => remade::<ExprUnary>(arena, by, found.tree),
        asked::Expr::MethodCall => remade_always::<ExprMethodCall>(arena, by, found.tree),
        asked::Expr::Tuple => remade::<ExprTuple>(arena, by, found.tree),
        asked::Expr::Range => remade::<ExprRange>(arena, by, found.tree),
        asked::Expr::Cast => remade_always::<ExprCast>(arena, by, found.tree),
    }
}
