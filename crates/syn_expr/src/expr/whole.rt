//! Expressions, by their form.

ghost use Rattle.reader_table.specs.Kinds.{kind_of};
ghost use Rattle.std.specs.Prelude.{MatchOption, None, Some, ◌≡◌};
ghost use Rattle.syn_expr.specs.ExprWhole.{IsOf, alone_form, atom_form, back_form, block_form, expr_paren};
ghost use Rattle.syn_expr.specs.ExprWhole.{expr_tuple, is_final};
ghost use Rattle.syn_expr.specs.ExprWhole.{front_form, infix_form, is_first, is_lone, which};
ghost use Rattle.syn_expr.specs.declared.expr.whole.ExprForm.TheVariants as exprs;
ghost use Rattle.syn_grammar.specs.Forms.{form_of};

use crate::blocks::ExprParenthesized;
use reader_table::kind::Kind;
use reader_tree::tree::{Form, Tree};
use syn_part::leaf::Delimiters;
use syn_part::list::Elements;
use syn_part::take;

/// Which form an expression is. The type of the same name says what is in it: of `Call` the type `ExprCall`.
#[derive(Clone, Copy)]
pub enum ExprForm {
    /// `[a, b]`
    Array,
    /// `a = b`
    Assign,
    /// `async { .. }`
    Async,
    /// `#[a] b`
    Attributed,
    /// `a.await`
    Await,
    /// `a + b`, `a += b`
    Binary,
    /// `{ .. }`
    Block,
    /// `break 'a b`
    Break,
    /// `a(b)`
    Call,
    /// `a as T`
    Cast,
    /// `|a| b`
    Closure,
    /// `const { .. }`
    Const,
    /// `continue 'a`
    Continue,
    /// `a.b`
    Field,
    /// `for a in b { .. }`
    ForLoop,
    /// An expression in a group without delimiters.
    Group,
    /// `if a { .. } else { .. }`
    If,
    /// `a[b]`
    Index,
    /// `_`
    Infer,
    /// `let a = b`
    Let,
    /// `1`, `"a"`, `true`
    Lit,
    /// `loop { .. }`
    Loop,
    /// `a!(b)`
    Macro,
    /// `match a { .. }`
    Match,
    /// `a.b(c)`
    MethodCall,
    /// `(a)`
    Paren,
    /// `a::b`
    Path,
    /// `a..b`
    Range,
    /// `&raw const a`
    RawAddr,
    /// `&a`
    Reference,
    /// `[a; b]`
    Repeat,
    /// `return a`
    Return,
    /// `A { b: c }`
    Struct,
    /// `a?`
    Try,
    /// `try { .. }`
    TryBlock,
    /// `(a, b)`
    Tuple,
    /// `!a`
    Unary,
    /// `unsafe { .. }`
    Unsafe,
    /// `while a { .. }`
    While,
    /// `yield a`
    Yield,
}

// A form by itself that is a block, or is made of them.
fn block_form(kind: Kind) -> Option<ExprForm>
    ensures { result ≡ block_form (kind_of kind) }
{
    match kind {
        Kind::ExprIf => Some(ExprForm::If),
        Kind::ExprMatch => Some(ExprForm::Match),
        Kind::ExprLoop => Some(ExprForm::Loop),
        Kind::ExprWhile => Some(ExprForm::While),
        Kind::ExprForLoop => Some(ExprForm::ForLoop),
        Kind::ExprBlock => Some(ExprForm::Block),
        Kind::ExprUnsafe => Some(ExprForm::Unsafe),
        Kind::ExprAsync => Some(ExprForm::Async),
        Kind::ExprConst => Some(ExprForm::Const),
        Kind::ExprTryBlock => Some(ExprForm::TryBlock),
        _ => None,
    }
}

// A form by itself that is no block.
fn atom_form(kind: Kind, is_lone: bool) -> Option<ExprForm>
    ensures { result ≡ atom_form (kind_of kind) is_lone }
{
    match kind {
        Kind::ExprLit => Some(ExprForm::Lit),
        Kind::ExprPath => Some(ExprForm::Path),
        Kind::ExprMacro => Some(ExprForm::Macro),
        Kind::ExprArray => Some(ExprForm::Array),
        Kind::ExprRepeat => Some(ExprForm::Repeat),
        Kind::ExprGroup => Some(ExprForm::Group),
        Kind::ExprInfer => Some(ExprForm::Infer),
        Kind::ExprContinue => Some(ExprForm::Continue),
        Kind::ExprParen => Some(if is_lone {
            ExprForm::Paren
        } else {
            ExprForm::Tuple
        }),
        Kind::ExprTypedClosure => Some(ExprForm::Closure),
        Kind::ExprBreak => Some(ExprForm::Break),
        Kind::ExprReturn => Some(ExprForm::Return),
        Kind::ExprYield => Some(ExprForm::Yield),
        Kind::ExprRange => Some(ExprForm::Range),
        _ => None,
    }
}

// A form by itself.
fn alone_form(kind: Kind, is_lone: bool) -> Option<ExprForm>
    ensures { result ≡ alone_form (kind_of kind) is_lone }
{
    match block_form(kind) {
        Some(form) => Some(form),
        None => atom_form(kind, is_lone),
    }
}

// A form with an operand behind it.
fn front_form(kind: Kind) -> Option<ExprForm>
    ensures { result ≡ front_form (kind_of kind) }
{
    match kind {
        Kind::ExprAttributed => Some(ExprForm::Attributed),
        Kind::ExprUnary => Some(ExprForm::Unary),
        Kind::ExprRawAddr => Some(ExprForm::RawAddr),
        Kind::ExprReference => Some(ExprForm::Reference),
        Kind::ExprLet => Some(ExprForm::Let),
        Kind::ExprClosure => Some(ExprForm::Closure),
        Kind::ExprBreak => Some(ExprForm::Break),
        Kind::ExprReturn => Some(ExprForm::Return),
        Kind::ExprYield => Some(ExprForm::Yield),
        Kind::ExprRange | Kind::ExprRangeClosed => Some(ExprForm::Range),
        _ => None,
    }
}

// A form with an operand before it.
fn back_form(kind: Kind) -> Option<ExprForm>
    ensures { result ≡ back_form (kind_of kind) }
{
    match kind {
        Kind::ExprStruct => Some(ExprForm::Struct),
        Kind::ExprCall => Some(ExprForm::Call),
        Kind::ExprMethodCall => Some(ExprForm::MethodCall),
        Kind::ExprField => Some(ExprForm::Field),
        Kind::ExprAwait => Some(ExprForm::Await),
        Kind::ExprIndex => Some(ExprForm::Index),
        Kind::ExprTry => Some(ExprForm::Try),
        Kind::ExprCast => Some(ExprForm::Cast),
        Kind::ExprRange | Kind::ExprRangeClosed => Some(ExprForm::Range),
        _ => None,
    }
}

// A form with an operand on either side.
fn infix_form(kind: Kind, is_first: bool) -> Option<ExprForm>
    ensures { result ≡ infix_form (kind_of kind) is_first }
{
    match kind {
        Kind::ExprAssign => Some(if is_first {
            ExprForm::Assign
        } else {
            ExprForm::Binary
        }),
        Kind::ExprRange | Kind::ExprRangeClosed => Some(ExprForm::Range),
        Kind::ExprOr | Kind::ExprAnd | Kind::ExprCompare | Kind::ExprBitOr | Kind::ExprBitXor =>
            Some(ExprForm::Binary),
        Kind::ExprBitAnd | Kind::ExprShift | Kind::ExprSum | Kind::ExprProduct => Some(
            ExprForm::Binary,
        ),
        _ => None,
    }
}

// Whether one element stands there, and no mark behind it.
#[tactic(auto, using(crate::proofs::ExprWhole::finals))]
fn is_final(tree: &Tree<'_>) -> bool
    ensures { result ≡ is_final tree.now }
{
    match &tree.form {
        Form::Elements(list) => list.before.is_empty() && list.last.is_some(),
        _ => false,
    }
}

// Whether one element stands in a group, and no mark behind it.
#[tactic(auto, using(crate::proofs::ExprWhole::lone))]
fn is_lone(tree: &Tree<'_>) -> bool
    ensures { result ≡ is_lone tree.now }
{
    match &tree.form {
        Form::Group(_, group) => is_final(&group.inside),
        _ => false,
    }
}

// Whether the first of several was chosen.
#[tactic(auto, using(crate::proofs::ExprWhole::no_first))]
fn is_first(tree: &Tree<'_>) -> bool
    ensures { result ≡ is_first tree.now }
{
    match take::kept(tree) {
        Some(_) => true,
        None => false,
    }
}

// Which form a tree is.
#[tactic(auto, using(crate::proofs::ExprWhole::no_forms))]
fn which(tree: &Tree<'_>) -> Option<ExprForm>
    ensures { result ≡ which tree.now }
{
    match &tree.form {
        Form::Alone(kind, own) => alone_form(*kind, is_lone(own)),
        Form::Front(kind, _) => front_form(*kind),
        Form::Back(kind, _) => back_form(*kind),
        Form::Infix(kind, three) => infix_form(*kind, is_first(&three.own)),
        _ => None,
    }
}

/// The form of an expression: of a node that one is, what it holds; else the tree itself.
#[tactic(auto, using(crate::proofs::ExprWhole::form_is))]
pub(crate) fn form_of<'t, 'a>(tree: &'t Tree<'a>) -> &'t Tree<'a>
    ensures { result.now ≡ form_of tree.now }
{
    let Some((Kind::Expression(_), inner)) = tree.node() else {
        return tree;
    };
    let Some(form) = inner.whole() else {
        return tree;
    };
    form
}

/// An expression.
#[derive(Clone, Copy)]
pub struct Expr<'t, 'a> {
    /// Which form it is.
    pub form: ExprForm,
    /// The form, of which its own type is asked.
    pub tree: &'t Tree<'a>,
}

impl<'t, 'a> Expr<'t, 'a> {
    /// Which form an expression is, of its tree, or of the form of one, as operands are.
    pub fn of(tree: &'t Tree<'a>) -> Option<Expr<'t, 'a>>
        ensures { MatchOption result (which (form_of tree.now) ≡ None)
            (λ x. (x.tree.now ≡ form_of tree.now) × (which x.tree.now ≡ Some x.form)) }
    {
        let tree = form_of(tree);
        match which(tree) {
            Some(form) => Some(Expr { form, tree }),
            None => None,
        }
    }
}

/// An expression in parentheses: `(a)`.
#[derive(Clone, Copy)]
pub struct ExprParen<'t, 'a> {
    /// The parentheses.
    pub paren_token: Delimiters,
    /// The expression.
    pub expr: &'t Tree<'a>,
}

impl<'t, 'a> ExprParen<'t, 'a> {
    /// A tree of the kind `ExprParen` with one expression and no comma, as its parts. `None` only of trees
    /// that have another shape.
    #[tactic(auto, using(crate::proofs::ExprWhole::parens))]
    pub fn of(tree: &'t Tree<'a>) -> Option<ExprParen<'t, 'a>>
        ensures { MatchOption result (IsOf exprs.Paren tree.now → ⊥) (λ x. tree.now ≡ expr_paren x) }
    {
        let Some(found) = ExprParenthesized::of(tree) else {
            return None;
        };
        let paren_token = found.paren_token;
        match found.elems.only() {
            Some(expr) => Some(ExprParen { paren_token, expr }),
            None => None,
        }
    }
}

/// A tuple: `(a, b)`.
#[derive(Clone, Copy)]
pub struct ExprTuple<'t, 'a> {
    /// The parentheses.
    pub paren_token: Delimiters,
    /// The expressions in them.
    pub elems: Elements<'t, 'a>,
}

impl<'t, 'a> ExprTuple<'t, 'a> {
    /// A tree of the kind `ExprParen` that is no lone expression without a comma, as its parts. `None` only
    /// of trees that have another shape.
    #[tactic(auto, using(crate::proofs::ExprWhole::parens, syn_ast::proofs::TypeForms::several_types))]
    pub fn of(tree: &'t Tree<'a>) -> Option<ExprTuple<'t, 'a>>
        ensures { MatchOption result (IsOf exprs.Tuple tree.now → ⊥) (λ x. tree.now ≡ expr_tuple x) }
    {
        let Some(found) = ExprParenthesized::of(tree) else {
            return None;
        };
        let paren_token = found.paren_token;
        let elems = found.elems;
        match elems.only() {
            Some(_) => None,
            None => Some(ExprTuple { paren_token, elems }),
        }
    }
}
