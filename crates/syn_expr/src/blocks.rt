//! Files, blocks, and the forms of expressions that are made of them.

ghost use Rattle.proc_macro2.specs.Token.{Token};
ghost use Rattle.std.specs.Prelude.{◌≡◌, IfSome, MatchOption, Bool, List, None};
ghost use Rattle.syn_ast.specs.Paths.{macro, path};
ghost use Rattle.syn_expr.specs.Blocks.{arms, block, body, closure_param, expr_array, expr_async, expr_block};
ghost use Rattle.syn_expr.specs.Blocks.{expr_for_loop, expr_if, expr_loop, expr_macro, expr_match, expr_parenthesized};
ghost use Rattle.syn_expr.specs.Blocks.{expr_path, expr_repeat, expr_unsafe, expr_while, file, label, labelled_tree};
ghost use Rattle.syn_expr.specs.ExprForms.{IsAlone};
ghost use Rattle.syn_grammar.specs.Gram as g;
ghost use Rattle.syn_grammar.specs.Kind as k;
ghost use Rattle.syn_grammar.specs.Name as n;
ghost use Rattle.syn_part.specs.Leaves.{optional_tree};
ghost use Rattle.syn_part.specs.Shape.{IsShaped};

use crate::expr::forms;
use crate::modifiers::BlockModifiers;
use crate::part;
use reader_table::kind::Kind;
use reader_table::part::Part;
use reader_tree::tree::Tree;
use rust_leaf::ident::Ident;
use syn_ast::types::AnyPath;
use syn_part::leaf::{Delimiters, Lifetime, Mark};
use syn_part::list::{Elements, Turns};
use syn_part::sub::{Marked, Worded, optional_as_marked, optional_as_worded};
use syn_part::{inside, joined, take};

/// A section between lines of `---`, at the head of a file. It holds nothing: the grammar has no such section, so none
/// is read.
#[derive(Clone, Copy)]
pub struct Frontmatter {}

/// A file.
#[derive(Clone, Copy)]
pub struct File<'t, 'a> {
    /// The line `#!..` in front of it: none of a file that was read.
    pub shebang: Option<&'a str>,
    /// The section at its head: none of a file that was read.
    pub frontmatter: Option<Frontmatter>,
    /// Its attributes.
    pub attrs: &'t Tree<'a>,
    /// Its items, as a form of the kind `Items`.
    pub items: &'t Tree<'a>,
}

impl<'t, 'a> File<'t, 'a> {
    /// A tree of the kind `AFile`, as its parts. `None` only of trees that have another shape.
    #[tactic(auto, unfolding(syn_grammar::specs::Table::table))]
    pub fn of(tree: &'t Tree<'a>) -> Option<File<'t, 'a>>
        ensures parts { MatchOption result (IsShaped tree.now (g.ref k.AFile) → ⊥) (λ x. tree.now ≡ file x) }
        ensures shebang { IfSome result (λ x. x.shebang ≡ None) }
        ensures frontmatter { IfSome result (λ x. x.frontmatter ≡ None) }
    {
        let Some((attrs, items)) = inside::pair(Kind::AFile, tree) else {
            return None;
        };
        Some(File {
            shebang: None,
            frontmatter: None,
            attrs,
            items,
        })
    }
}

/// A block: `{ .. }`.
#[derive(Clone, Copy)]
pub struct Block<'t, 'a> {
    /// The braces.
    pub brace_token: Delimiters,
    /// Its statements.
    pub stmts: &'t Tree<'a>,
}

impl<'t, 'a> Block<'t, 'a> {
    /// A tree of the kind `Block`, as its parts. `None` only of trees that have another shape.
    #[tactic(auto, unfolding(syn_grammar::specs::Table::table))]
    pub fn of(tree: &'t Tree<'a>) -> Option<Block<'t, 'a>>
        ensures { MatchOption result (IsShaped tree.now (g.ref k.Block) → ⊥) (λ x. tree.now ≡ block x) }
    {
        let Some((brace_token, inside)) = inside::group(Kind::Block, tree) else {
            return None;
        };
        let stmts = inside;
        Some(Block { brace_token, stmts })
    }
}

/// A block that may have attributes within: `{ #![a] .. }`.
#[derive(Clone, Copy)]
pub struct Body<'t, 'a> {
    /// The braces.
    pub brace_token: Delimiters,
    /// Its attributes.
    pub attrs: &'t Tree<'a>,
    /// Its statements.
    pub stmts: &'t Tree<'a>,
}

impl<'t, 'a> Body<'t, 'a> {
    /// A tree of the kind `Body`, as its parts. `None` only of trees that have another shape.
    #[tactic(auto, unfolding(syn_grammar::specs::Table::table))]
    pub fn of(tree: &'t Tree<'a>) -> Option<Body<'t, 'a>>
        ensures { MatchOption result (IsShaped tree.now (g.ref k.Body) → ⊥) (λ x. tree.now ≡ body x) }
    {
        let Some(inner) = inside::node(Kind::Body, tree) else {
            return None;
        };
        let Some((brace_token, attrs, stmts)) = part::pair_in(inner) else {
            return None;
        };
        Some(Body {
            brace_token,
            attrs,
            stmts,
        })
    }
}

/// A label: `'a:`.
#[derive(Clone, Copy)]
pub struct Label<'a> {
    /// Its name.
    pub name: Lifetime<'a>,
    /// `:`
    pub colon_token: Mark,
}

impl<'a> Label<'a> {
    /// A tree of the kind `Label`, as its parts. `None` only of trees that have another shape.
    #[tactic(auto, unfolding(syn_grammar::specs::Table::table))]
    pub fn of(tree: &Tree<'a>) -> Option<Label<'a>>
        ensures { MatchOption result (IsShaped tree.now (g.ref k.Label) → ⊥) (λ x. tree.now ≡ label x) }
    {
        let Some((name, colon_token)) = inside::pair(Kind::Label, tree) else {
            return None;
        };
        let Some(name) = take::lifetime(name) else {
            return None;
        };
        let Some(colon_token) = take::mark(colon_token) else {
            return None;
        };
        Some(Label { name, colon_token })
    }
}

/// A parameter of a closure: `a: T`.
#[derive(Clone, Copy)]
pub struct ClosureParam<'t, 'a> {
    /// Its attributes.
    pub attrs: &'t Tree<'a>,
    /// Its pattern.
    pub pat: &'t Tree<'a>,
    /// `:` and its type.
    pub ty: Option<Marked<'t, 'a>>,
}

impl<'t, 'a> ClosureParam<'t, 'a> {
    /// A tree of the kind `ClosureParam`, as its parts. `None` only of trees that have another shape.
    #[tactic(auto, unfolding(syn_grammar::specs::Table::table))]
    pub fn of(tree: &'t Tree<'a>) -> Option<ClosureParam<'t, 'a>>
        ensures { MatchOption result (IsShaped tree.now (g.ref k.ClosureParam) → ⊥) (λ x. tree.now ≡ closure_param x) }
    {
        let Some((attrs, pat, ty)) = inside::three(Kind::ClosureParam, tree) else {
            return None;
        };
        let Some(ty) = optional_as_marked(ty) else {
            return None;
        };
        Some(ClosureParam { attrs, pat, ty })
    }
}

/// The arms of a `match`.
#[derive(Clone, Copy)]
pub struct Arms<'t, 'a> {
    /// Each.
    pub arms: Turns<'t, 'a>,
}

impl<'t, 'a> Arms<'t, 'a> {
    /// A tree of the kind `Arms`, as its parts. `None` only of trees that have another shape.
    #[tactic(auto, unfolding(syn_grammar::specs::Table::table))]
    pub fn of(tree: &'t Tree<'a>) -> Option<Arms<'t, 'a>>
        ensures { MatchOption result (IsShaped tree.now (g.ref k.Arms) → ⊥) (λ x. tree.now ≡ arms x) }
    {
        let Some(inner) = inside::node(Kind::Arms, tree) else {
            return None;
        };
        let Some(arms) = take::each_turn(inner) else {
            return None;
        };
        Some(Arms { arms })
    }
}

/// A label, where one stands.
#[derive(Clone, Copy)]
pub struct Labelled<'t, 'a> {
    /// The label.
    pub label: &'t Tree<'a>,
}

/// A label, by its name as a part. `None` only of trees that have another shape.
#[tactic(auto, unfolding(syn_grammar::specs::Table::table))]
pub fn as_labelled<'t, 'a>(tree: &'t Tree<'a>) -> Option<Labelled<'t, 'a>>
    ensures { MatchOption result ((a1 : g.Gram) → IsShaped tree.now (g.called n.the_label a1) → ⊥)
        (λ x. tree.now ≡ labelled_tree x) }
{
    let Some(tree) = inside::part(Part::Label, tree) else {
        return None;
    };
    let label = tree;
    Some(Labelled { label })
}

/// A label, where one stands; `Some(None)` where nothing does. `None` only of trees that have another shape.
#[tactic(auto, unfolding(syn_grammar::specs::Table::table))]
pub fn optional_as_labelled<'t, 'a>(tree: &'t Tree<'a>) -> Option<Option<Labelled<'t, 'a>>>
    ensures { MatchOption result ((test : List Token → Bool) (a1 : g.Gram) → IsShaped tree.now (g.alt test
        (g.called n.the_label a1) g.nothing) → ⊥)
        (λ x. tree.now ≡ optional_tree labelled_tree x) }
{
    match take::optional(tree) {
        None => None,
        Some(None) => Some(None),
        Some(Some(inner)) => match as_labelled(inner) {
            Some(found) => Some(Some(found)),
            None => None,
        },
    }
}

/// A block: `'a: { .. }`.
#[derive(Clone, Copy)]
pub struct ExprBlock<'t, 'a> {
    /// Its label.
    pub label: Option<Labelled<'t, 'a>>,
    /// What stands beside its parts: nothing.
    pub modifiers: BlockModifiers,
    /// The block.
    pub block: &'t Tree<'a>,
}

impl<'t, 'a> ExprBlock<'t, 'a> {
    /// A tree of the kind `ExprBlock`, as its parts. `None` only of trees that have another shape.
    #[tactic(auto, unfolding(syn_grammar::specs::Table::table))]
    pub fn of(tree: &'t Tree<'a>) -> Option<ExprBlock<'t, 'a>>
        ensures { MatchOption result (IsAlone tree.now k.ExprBlock → ⊥) (λ x. tree.now ≡ expr_block x) }
    {
        let Some((Kind::ExprBlock, inner)) = forms::alone(tree) else {
            return None;
        };
        let Some((label, block)) = take::pair(inner) else {
            return None;
        };
        let Some(label) = optional_as_labelled(label) else {
            return None;
        };
        Some(ExprBlock {
            label,
            modifiers: BlockModifiers {},
            block,
        })
    }
}

/// An unsafe block: `unsafe { .. }`.
#[derive(Clone, Copy)]
pub struct ExprUnsafe<'t, 'a> {
    /// `unsafe`
    pub unsafe_token: &'a Ident,
    /// The block.
    pub block: &'t Tree<'a>,
}

impl<'t, 'a> ExprUnsafe<'t, 'a> {
    /// A tree of the kind `ExprUnsafe`, as its parts. `None` only of trees that have another shape.
    #[tactic(auto, unfolding(syn_grammar::specs::Table::table))]
    pub fn of(tree: &'t Tree<'a>) -> Option<ExprUnsafe<'t, 'a>>
        ensures { MatchOption result (IsAlone tree.now k.ExprUnsafe → ⊥) (λ x. tree.now ≡ expr_unsafe x) }
    {
        let Some((Kind::ExprUnsafe, inner)) = forms::alone(tree) else {
            return None;
        };
        let Some((unsafe_token, block)) = take::pair(inner) else {
            return None;
        };
        let Some(unsafe_token) = take::word(unsafe_token) else {
            return None;
        };
        Some(ExprUnsafe {
            unsafe_token,
            block,
        })
    }
}

/// An async block: `async move { .. }`.
#[derive(Clone, Copy)]
pub struct ExprAsync<'t, 'a> {
    /// `async`
    pub async_token: &'a Ident,
    /// `move`
    pub capture: Option<&'a Ident>,
    /// The block.
    pub block: &'t Tree<'a>,
}

impl<'t, 'a> ExprAsync<'t, 'a> {
    /// A tree of the kind `ExprAsync`, as its parts. `None` only of trees that have another shape.
    #[tactic(auto, unfolding(syn_grammar::specs::Table::table))]
    pub fn of(tree: &'t Tree<'a>) -> Option<ExprAsync<'t, 'a>>
        ensures { MatchOption result (IsAlone tree.now k.ExprAsync → ⊥) (λ x. tree.now ≡ expr_async x) }
    {
        let Some((Kind::ExprAsync, inner)) = forms::alone(tree) else {
            return None;
        };
        let Some((async_token, capture, block)) = take::three(inner) else {
            return None;
        };
        let Some(async_token) = take::word(async_token) else {
            return None;
        };
        let Some(capture) = take::optional_word(capture) else {
            return None;
        };
        Some(ExprAsync {
            async_token,
            capture,
            block,
        })
    }
}

/// A loop: `'a: loop { .. }`.
#[derive(Clone, Copy)]
pub struct ExprLoop<'t, 'a> {
    /// Its label.
    pub label: Option<Labelled<'t, 'a>>,
    /// `loop`
    pub loop_token: &'a Ident,
    /// Its body.
    pub body: &'t Tree<'a>,
}

impl<'t, 'a> ExprLoop<'t, 'a> {
    /// A tree of the kind `ExprLoop`, as its parts. `None` only of trees that have another shape.
    #[tactic(auto, unfolding(syn_grammar::specs::Table::table))]
    pub fn of(tree: &'t Tree<'a>) -> Option<ExprLoop<'t, 'a>>
        ensures { MatchOption result (IsAlone tree.now k.ExprLoop → ⊥) (λ x. tree.now ≡ expr_loop x) }
    {
        let Some((Kind::ExprLoop, inner)) = forms::alone(tree) else {
            return None;
        };
        let Some((label, loop_token, body)) = take::three(inner) else {
            return None;
        };
        let Some(label) = optional_as_labelled(label) else {
            return None;
        };
        let Some(loop_token) = take::word(loop_token) else {
            return None;
        };
        Some(ExprLoop {
            label,
            loop_token,
            body,
        })
    }
}

/// A loop with a condition: `'a: while b { .. }`.
#[derive(Clone, Copy)]
pub struct ExprWhile<'t, 'a> {
    /// Its label.
    pub label: Option<Labelled<'t, 'a>>,
    /// `while`
    pub while_token: &'a Ident,
    /// Its condition.
    pub cond: &'t Tree<'a>,
    /// Its body.
    pub body: &'t Tree<'a>,
}

impl<'t, 'a> ExprWhile<'t, 'a> {
    /// A tree of the kind `ExprWhile`, as its parts. `None` only of trees that have another shape.
    #[tactic(auto, unfolding(syn_grammar::specs::Table::table))]
    pub fn of(tree: &'t Tree<'a>) -> Option<ExprWhile<'t, 'a>>
        ensures { MatchOption result (IsAlone tree.now k.ExprWhile → ⊥) (λ x. tree.now ≡ expr_while x) }
    {
        let Some((Kind::ExprWhile, inner)) = forms::alone(tree) else {
            return None;
        };
        let Some((label, while_token, cond, body)) = take::four(inner) else {
            return None;
        };
        let Some((label, while_token, cond)) = joined::three(
            optional_as_labelled(label),
            take::word(while_token),
            inside::part(Part::Condition, cond),
        ) else {
            return None;
        };
        Some(ExprWhile {
            label,
            while_token,
            cond,
            body,
        })
    }
}

/// A loop over values: `'a: for b in c { .. }`.
#[derive(Clone, Copy)]
pub struct ExprForLoop<'t, 'a> {
    /// Its label.
    pub label: Option<Labelled<'t, 'a>>,
    /// `for`
    pub for_token: &'a Ident,
    /// Its pattern.
    pub pat: &'t Tree<'a>,
    /// `in`
    pub in_token: &'a Ident,
    /// The values.
    pub expr: &'t Tree<'a>,
    /// Its body.
    pub body: &'t Tree<'a>,
}

impl<'t, 'a> ExprForLoop<'t, 'a> {
    /// A tree of the kind `ExprForLoop`, as its parts. `None` only of trees that have another shape.
    #[tactic(auto, unfolding(syn_grammar::specs::Table::table))]
    pub fn of(tree: &'t Tree<'a>) -> Option<ExprForLoop<'t, 'a>>
        ensures { MatchOption result (IsAlone tree.now k.ExprForLoop → ⊥) (λ x. tree.now ≡ expr_for_loop x) }
    {
        let Some((Kind::ExprForLoop, inner)) = forms::alone(tree) else {
            return None;
        };
        let Some((label, for_token, pat, in_token, expr, body)) = take::six(inner) else {
            return None;
        };
        let Some((label, for_token, in_token, expr)) = joined::four(
            optional_as_labelled(label),
            take::word(for_token),
            take::word(in_token),
            inside::part(Part::Condition, expr),
        ) else {
            return None;
        };
        Some(ExprForLoop {
            label,
            for_token,
            pat,
            in_token,
            expr,
            body,
        })
    }
}

/// A choice by patterns: `match a { .. }`.
#[derive(Clone, Copy)]
pub struct ExprMatch<'t, 'a> {
    /// `match`
    pub match_token: &'a Ident,
    /// The value.
    pub expr: &'t Tree<'a>,
    /// The braces.
    pub brace_token: Delimiters,
    /// Its attributes.
    pub attrs: &'t Tree<'a>,
    /// Its arms.
    pub arms: &'t Tree<'a>,
}

impl<'t, 'a> ExprMatch<'t, 'a> {
    /// A tree of the kind `ExprMatch`, as its parts. `None` only of trees that have another shape.
    #[tactic(auto, unfolding(syn_grammar::specs::Table::table))]
    pub fn of(tree: &'t Tree<'a>) -> Option<ExprMatch<'t, 'a>>
        ensures { MatchOption result (IsAlone tree.now k.ExprMatch → ⊥) (λ x. tree.now ≡ expr_match x) }
    {
        let Some((Kind::ExprMatch, inner)) = forms::alone(tree) else {
            return None;
        };
        let Some((match_token, expr, braced)) = take::three(inner) else {
            return None;
        };
        let Some((match_token, expr, braced)) = joined::three(
            take::word(match_token),
            inside::part(Part::Condition, expr),
            part::pair_in(braced),
        ) else {
            return None;
        };
        let (brace_token, attrs, arms) = braced;
        Some(ExprMatch {
            match_token,
            expr,
            brace_token,
            attrs,
            arms,
        })
    }
}

/// A choice by a condition: `if a { .. } else { .. }`.
#[derive(Clone, Copy)]
pub struct ExprIf<'t, 'a> {
    /// `if`
    pub if_token: &'a Ident,
    /// Its condition.
    pub cond: &'t Tree<'a>,
    /// What is done where it holds.
    pub then_branch: &'t Tree<'a>,
    /// `else`, and a choice of another `if` or a block.
    pub else_branch: Option<Worded<'t, 'a>>,
}

impl<'t, 'a> ExprIf<'t, 'a> {
    /// A tree of the kind `ExprIf`, as its parts. `None` only of trees that have another shape.
    #[tactic(auto, unfolding(syn_grammar::specs::Table::table))]
    pub fn of(tree: &'t Tree<'a>) -> Option<ExprIf<'t, 'a>>
        ensures { MatchOption result (IsAlone tree.now k.ExprIf → ⊥) (λ x. tree.now ≡ expr_if x) }
    {
        let Some((Kind::ExprIf, inner)) = forms::alone(tree) else {
            return None;
        };
        let Some((if_token, cond, then_branch, else_branch)) = take::four(inner) else {
            return None;
        };
        let Some((if_token, cond, else_branch)) = joined::three(
            take::word(if_token),
            inside::part(Part::Condition, cond),
            optional_as_worded(else_branch),
        ) else {
            return None;
        };
        Some(ExprIf {
            if_token,
            cond,
            then_branch,
            else_branch,
        })
    }
}

/// A tuple, or an expression in parentheses.
#[derive(Clone, Copy)]
pub struct ExprParenthesized<'t, 'a> {
    /// The parentheses.
    pub paren_token: Delimiters,
    /// The expressions in them.
    pub elems: Elements<'t, 'a>,
}

impl<'t, 'a> ExprParenthesized<'t, 'a> {
    /// A tree of the kind `ExprParen`, as its parts. `None` only of trees that have another shape.
    #[tactic(auto, unfolding(syn_grammar::specs::Table::table))]
    pub fn of(tree: &'t Tree<'a>) -> Option<ExprParenthesized<'t, 'a>>
        ensures { MatchOption result (IsAlone tree.now k.ExprParen → ⊥) (λ x. tree.now ≡ expr_parenthesized x) }
    {
        let Some((Kind::ExprParen, inner)) = forms::alone(tree) else {
            return None;
        };
        let Some((paren_token, elems)) = part::list_in(inner) else {
            return None;
        };
        Some(ExprParenthesized { paren_token, elems })
    }
}

/// An array: `[a, b]`.
#[derive(Clone, Copy)]
pub struct ExprArray<'t, 'a> {
    /// The brackets.
    pub bracket_token: Delimiters,
    /// The expressions in them.
    pub elems: Elements<'t, 'a>,
}

impl<'t, 'a> ExprArray<'t, 'a> {
    /// A tree of the kind `ExprArray`, as its parts. `None` only of trees that have another shape.
    #[tactic(auto, unfolding(syn_grammar::specs::Table::table))]
    pub fn of(tree: &'t Tree<'a>) -> Option<ExprArray<'t, 'a>>
        ensures { MatchOption result (IsAlone tree.now k.ExprArray → ⊥) (λ x. tree.now ≡ expr_array x) }
    {
        let Some((Kind::ExprArray, inner)) = forms::alone(tree) else {
            return None;
        };
        let Some((bracket_token, elems)) = part::list_in(inner) else {
            return None;
        };
        Some(ExprArray {
            bracket_token,
            elems,
        })
    }
}

/// An array of one value: `[a; b]`.
#[derive(Clone, Copy)]
pub struct ExprRepeat<'t, 'a> {
    /// The brackets.
    pub bracket_token: Delimiters,
    /// The value.
    pub expr: &'t Tree<'a>,
    /// `;`
    pub semi_token: Mark,
    /// How many there are.
    pub len: &'t Tree<'a>,
}

impl<'t, 'a> ExprRepeat<'t, 'a> {
    /// A tree of the kind `ExprRepeat`, as its parts. `None` only of trees that have another shape.
    #[tactic(auto, unfolding(syn_grammar::specs::Table::table))]
    pub fn of(tree: &'t Tree<'a>) -> Option<ExprRepeat<'t, 'a>>
        ensures { MatchOption result (IsAlone tree.now k.ExprRepeat → ⊥) (λ x. tree.now ≡ expr_repeat x) }
    {
        let Some((Kind::ExprRepeat, inner)) = forms::alone(tree) else {
            return None;
        };
        let Some((bracket_token, inside)) = take::group(inner) else {
            return None;
        };
        let Some((expr, semi_token, len)) = take::three(inside) else {
            return None;
        };
        let Some(semi_token) = take::mark(semi_token) else {
            return None;
        };
        Some(ExprRepeat {
            bracket_token,
            expr,
            semi_token,
            len,
        })
    }
}

/// A macro: `a!(b)`.
#[derive(Clone, Copy)]
pub struct ExprMacro<'t, 'a> {
    /// The macro.
    pub mac: &'t Tree<'a>,
}

impl<'t, 'a> ExprMacro<'t, 'a> {
    /// A tree of the kind `ExprMacro`, as its parts. `None` only of trees that have another shape.
    #[tactic(auto, unfolding(syn_grammar::specs::Table::table))]
    pub fn of(tree: &'t Tree<'a>) -> Option<ExprMacro<'t, 'a>>
        ensures { MatchOption result (IsAlone tree.now k.ExprMacro → ⊥) (λ x. tree.now ≡ expr_macro x) }
    {
        let Some((Kind::ExprMacro, inner)) = forms::alone(tree) else {
            return None;
        };
        let mac = inner;
        Some(ExprMacro { mac })
    }
}

/// A path: `a::b`.
#[derive(Clone, Copy)]
pub struct ExprPath<'t, 'a> {
    /// The path, as a form of the kind `AnyPath`.
    pub path: &'t Tree<'a>,
}

impl<'t, 'a> ExprPath<'t, 'a> {
    /// A tree of the kind `ExprPath`, as its parts. `None` only of trees that have another shape.
    #[tactic(auto, unfolding(syn_grammar::specs::Table::table))]
    pub fn of(tree: &'t Tree<'a>) -> Option<ExprPath<'t, 'a>>
        ensures { MatchOption result (IsAlone tree.now k.ExprPath → ⊥) (λ x. tree.now ≡ expr_path x) }
    {
        let Some((Kind::ExprPath, inner)) = forms::alone(tree) else {
            return None;
        };
        let path = inner;
        Some(ExprPath { path })
    }
}
