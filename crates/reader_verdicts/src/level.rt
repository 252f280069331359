//! How tightly forms bind.

ghost use Rattle.reader_table.specs.Kinds.{kind_of, position_of};
ghost use Rattle.std.specs.Prelude.{◌≡◌};
ghost use Rattle.syn_grammar.specs.Forms.{inside, is_dotted, level, takes};

use reader_table::kind::{Kind, Position};

/// The level of a form, loosest first: 1 jumps and closures, 2 to 13 the infix forms, 14 casts, 15 prefix forms and
/// attributes, 16 the rest.
#[tactic(auto, unfolding(syn_grammar::specs::Forms::level))]
pub fn level(kind: Kind) -> usize
    ensures { result ≡ level (kind_of kind) }
{
    match kind {
        Kind::ExprBreak | Kind::ExprReturn | Kind::ExprYield | Kind::ExprClosure => 1,
        Kind::ExprAssign => 2,
        Kind::ExprRange | Kind::ExprRangeClosed => 3,
        Kind::ExprOr => 4,
        Kind::ExprAnd => 5,
        Kind::ExprLet => 6,
        Kind::ExprCompare => 7,
        Kind::ExprBitOr => 8,
        Kind::ExprBitXor => 9,
        Kind::ExprBitAnd => 10,
        Kind::ExprShift => 11,
        Kind::ExprSum => 12,
        Kind::ExprProduct => 13,
        Kind::ExprCast => 14,
        Kind::ExprUnary | Kind::ExprRawAddr | Kind::ExprReference | Kind::ExprAttributed => 15,
        _ => 16,
    }
}

/// Whether a right operand of an operator of a level takes operators of another one: of those above it, and at level 2
/// of that level too.
#[tactic(auto, unfolding(syn_grammar::specs::Forms::takes))]
pub fn takes(operator: usize, other: usize) -> bool
    ensures { result ≡ takes operator other }
{
    operator < other || (operator == 2 && other == 2)
}

/// Where the operand behind a form stands: in a condition also that of a jump, plain again.
#[tactic(auto, unfolding(syn_grammar::specs::Forms::inside))]
pub fn inside(position: Position, kind: Kind) -> Position
    ensures { position_of result ≡ inside (position_of position) (kind_of kind) }
{
    match (kind, position) {
        (Kind::ExprAttributed, _) => position,
        (Kind::ExprBreak | Kind::ExprReturn | Kind::ExprYield, _) => Position::Plain,
        (_, Position::InCondition) => Position::InCondition,
        _ => Position::Plain,
    }
}

/// Whether `.` and `?` go on behind such a form, although it ends there.
pub fn is_dotted(kind: Kind) -> bool
    ensures { result ≡ is_dotted (kind_of kind) }
{
    matches!(
        kind,
        Kind::ExprField | Kind::ExprMethodCall | Kind::ExprAwait | Kind::ExprTry
    )
}
