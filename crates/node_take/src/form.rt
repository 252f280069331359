//! The forms of an expression, by their kinds and the operands that they have.

ghost use Rattle.node_shapes.specs.Forms.{stands_alone, stands_before, stands_behind, stands_between};
ghost use Rattle.node_shapes.specs.Shape.{AreForms};
ghost use Rattle.node_take.specs.Forms.{alone_kind, before_kind, behind_kind, between_kind, formed_tree};
ghost use Rattle.reader_table.specs.Kinds.{kind_of};
ghost use Rattle.std.specs.Prelude.{◌≡◌, true};

use reader_table::kind::Kind;
use reader_tree::tree::{Form, Tree};

/// A form without operands.
#[derive(Clone, Copy)]
pub enum Alone {
    /// `1`
    Lit,
    /// `a::b`
    Path,
    /// `a!(b)`
    Macro,
    /// `(a)` or `(a, b)`
    Paren,
    /// `[a, b]`
    Array,
    /// `[a; b]`
    Repeat,
    /// An expression in a group without delimiters.
    Group,
    /// `_`
    Infer,
    /// `{ .. }`
    Block,
    /// `unsafe { .. }`
    Unsafe,
    /// `async { .. }`
    Async,
    /// `const { .. }`
    Const,
    /// `try { .. }`
    TryBlock,
    /// `if a { .. }`
    If,
    /// `match a { .. }`
    Match,
    /// `loop { .. }`
    Loop,
    /// `while a { .. }`
    While,
    /// `for a in b { .. }`
    ForLoop,
    /// `continue`
    Continue,
    /// `|a| -> T { .. }`
    TypedClosure,
    /// `break`
    Break,
    /// `return`
    Return,
    /// `yield`
    Yield,
    /// `..`
    Range,
}

/// A form with an operand behind it alone.
#[derive(Clone, Copy)]
pub enum Before {
    /// `#[a] b`
    Attributed,
    /// `!a`
    Unary,
    /// `&raw const a`
    RawAddr,
    /// `&a`
    Reference,
    /// `let a = b`
    Let,
    /// `break`
    Break,
    /// `return`
    Return,
    /// `yield`
    Yield,
    /// `|a| b`
    Closure,
    /// `..`
    Range,
    /// `..=`
    RangeClosed,
}

/// A form with an operand before it alone.
#[derive(Clone, Copy)]
pub enum Behind {
    /// `A { b: c }`
    Struct,
    /// `a(b)`
    Call,
    /// `a.b(c)`
    MethodCall,
    /// `a.b`
    Field,
    /// `a.await`
    Await,
    /// `a[b]`
    Index,
    /// `a?`
    Try,
    /// `a as T`
    Cast,
    /// `..`
    Range,
}

/// A form with an operand on either side.
#[derive(Clone, Copy)]
pub enum Between {
    /// `..`
    Range,
    /// `..=`
    RangeClosed,
    /// `a = b` or `a += b`
    Assign,
    /// `a || b`
    Or,
    /// `a && b`
    And,
    /// `a == b`
    Compare,
    /// `a | b`
    BitOr,
    /// `a ^ b`
    BitXor,
    /// `a & b`
    BitAnd,
    /// `a << b`
    Shift,
    /// `a + b`
    Sum,
    /// `a * b`
    Product,
}

/// A form of an expression, with its own part and its operands.
#[derive(Clone, Copy)]
pub enum Formed<'t, 'a> {
    /// Its own part alone.
    Alone(Alone, &'t Tree<'a>),
    /// Its own part, and the operand behind it.
    Before(Before, &'t Tree<'a>, &'t Tree<'a>),
    /// The operand before it, and its own part.
    Behind(&'t Tree<'a>, Behind, &'t Tree<'a>),
    /// The operand before it, its own part, and the operand behind it.
    Between(&'t Tree<'a>, Between, &'t Tree<'a>, &'t Tree<'a>),
}

// Which form without operands it is, of its kind.
fn alone_form(kind: Kind) -> Alone
    requires { stands_alone (kind_of kind) ≡ true }
    ensures { kind_of kind ≡ alone_kind result }
{
    match kind {
        Kind::ExprLit => Alone::Lit,
        Kind::ExprPath => Alone::Path,
        Kind::ExprMacro => Alone::Macro,
        Kind::ExprParen => Alone::Paren,
        Kind::ExprArray => Alone::Array,
        Kind::ExprRepeat => Alone::Repeat,
        Kind::ExprGroup => Alone::Group,
        Kind::ExprInfer => Alone::Infer,
        Kind::ExprBlock => Alone::Block,
        Kind::ExprUnsafe => Alone::Unsafe,
        Kind::ExprAsync => Alone::Async,
        Kind::ExprConst => Alone::Const,
        Kind::ExprTryBlock => Alone::TryBlock,
        Kind::ExprIf => Alone::If,
        Kind::ExprMatch => Alone::Match,
        Kind::ExprLoop => Alone::Loop,
        Kind::ExprWhile => Alone::While,
        Kind::ExprForLoop => Alone::ForLoop,
        Kind::ExprContinue => Alone::Continue,
        Kind::ExprTypedClosure => Alone::TypedClosure,
        Kind::ExprBreak => Alone::Break,
        Kind::ExprReturn => Alone::Return,
        Kind::ExprYield => Alone::Yield,
        Kind::ExprRange => Alone::Range,
        _ => unreachable!(),
    }
}

// Which form with an operand behind it alone it is, of its kind.
fn before_form(kind: Kind) -> Before
    requires { stands_before (kind_of kind) ≡ true }
    ensures { kind_of kind ≡ before_kind result }
{
    match kind {
        Kind::ExprAttributed => Before::Attributed,
        Kind::ExprUnary => Before::Unary,
        Kind::ExprRawAddr => Before::RawAddr,
        Kind::ExprReference => Before::Reference,
        Kind::ExprLet => Before::Let,
        Kind::ExprBreak => Before::Break,
        Kind::ExprReturn => Before::Return,
        Kind::ExprYield => Before::Yield,
        Kind::ExprClosure => Before::Closure,
        Kind::ExprRange => Before::Range,
        Kind::ExprRangeClosed => Before::RangeClosed,
        _ => unreachable!(),
    }
}

// Which form with an operand before it alone it is, of its kind.
fn behind_form(kind: Kind) -> Behind
    requires { stands_behind (kind_of kind) ≡ true }
    ensures { kind_of kind ≡ behind_kind result }
{
    match kind {
        Kind::ExprStruct => Behind::Struct,
        Kind::ExprCall => Behind::Call,
        Kind::ExprMethodCall => Behind::MethodCall,
        Kind::ExprField => Behind::Field,
        Kind::ExprAwait => Behind::Await,
        Kind::ExprIndex => Behind::Index,
        Kind::ExprTry => Behind::Try,
        Kind::ExprCast => Behind::Cast,
        Kind::ExprRange => Behind::Range,
        _ => unreachable!(),
    }
}

// Which form with an operand on either side it is, of its kind.
fn between_form(kind: Kind) -> Between
    requires { stands_between (kind_of kind) ≡ true }
    ensures { kind_of kind ≡ between_kind result }
{
    match kind {
        Kind::ExprRange => Between::Range,
        Kind::ExprRangeClosed => Between::RangeClosed,
        Kind::ExprAssign => Between::Assign,
        Kind::ExprOr => Between::Or,
        Kind::ExprAnd => Between::And,
        Kind::ExprCompare => Between::Compare,
        Kind::ExprBitOr => Between::BitOr,
        Kind::ExprBitXor => Between::BitXor,
        Kind::ExprBitAnd => Between::BitAnd,
        Kind::ExprShift => Between::Shift,
        Kind::ExprSum => Between::Sum,
        Kind::ExprProduct => Between::Product,
        _ => unreachable!(),
    }
}

/// Which form it is.
#[tactic(auto, using(crate::proofs::Takes::expressions))]
pub fn which_form<'t, 'a>(tree: &'t Tree<'a>) -> Formed<'t, 'a>
    requires { AreForms tree.now }
    ensures { tree.now ≡ formed_tree result }
{
    match &tree.form {
        Form::Alone(kind, own) => Formed::Alone(alone_form(*kind), own),
        Form::Front(kind, two) => Formed::Before(before_form(*kind), &two.front, &two.back),
        Form::Back(kind, two) => Formed::Behind(&two.front, behind_form(*kind), &two.back),
        Form::Infix(kind, three) => Formed::Between(
            &three.left,
            between_form(*kind),
            &three.own,
            &three.right,
        ),
        _ => unreachable!(),
    }
}
