//! Use declarations.

ghost use Rattle.proc_macro2.specs.Token.{Token};
ghost use Rattle.proc_macro2.specs.declared.delimiter.Delimiter.{Delimiter as GivenDelimiter};
ghost use Rattle.std.specs.Prelude.{◌≡◌, Bool, IfSome, List, MatchOption, ℕ};
ghost use Rattle.syn_grammar.specs.Gram as g;
ghost use Rattle.syn_grammar.specs.Kind as k;
ghost use Rattle.syn_grammar.specs.Tree as t;
ghost use Rattle.syn_item.specs.ItemUses.{use_branch, use_branch_tree, use_inside_tree, use_rooted, use_top};
ghost use Rattle.syn_item.specs.ItemUses.{use_tree};
ghost use Rattle.syn_part.specs.Name.{name_tree};
ghost use Rattle.syn_part.specs.Shape.{IsShaped};

use reader_table::kind::Kind;
use reader_tree::tree::Tree;
use rust_leaf::ident::Ident;
use syn_part::inside;
use syn_part::leaf::{Delimiters, Mark};
use syn_part::list::Elements;
use syn_part::name::{Name, as_name, as_renamed};
use syn_part::sub::as_marked;
use syn_part::take::{self, Choice, Choice3};

/// A name and what stands in it: `a::b`.
#[derive(Clone, Copy)]
pub struct UsePath<'t, 'a> {
    /// The name.
    pub ident: Name<'a>,
    /// `::`
    pub colon2_token: Mark,
    /// What stands in it, as a form of the kind `UseTree`.
    pub tree: &'t Tree<'a>,
}

/// A name.
#[derive(Clone, Copy)]
pub struct UseName<'a> {
    /// The name.
    pub ident: Name<'a>,
}

/// A name, and another for it: `a as b`.
#[derive(Clone, Copy)]
pub struct UseRename<'a> {
    /// The name.
    pub ident: Name<'a>,
    /// `as`
    pub as_token: &'a Ident,
    /// The other name, or `_`.
    pub rename: Name<'a>,
}

/// All names: `*`.
#[derive(Clone, Copy)]
pub struct UseGlob {
    /// `*`
    pub star_token: Mark,
}

/// Several: `{a, b}`.
#[derive(Clone, Copy)]
pub struct UseGroup<'t, 'a> {
    /// The braces.
    pub brace_token: Delimiters,
    /// Each, as a form of the kind `UseTree`, or `UseTop` where no path stands before the braces.
    pub items: Elements<'t, 'a>,
}

/// What a use declaration names.
#[derive(Clone, Copy)]
pub enum UseTree<'t, 'a> {
    /// `a::b`
    Path(UsePath<'t, 'a>),
    /// `a`
    Name(UseName<'a>),
    /// `a as b`
    Rename(UseRename<'a>),
    /// `*`
    Glob(UseGlob),
    /// `{a, b}`
    Group(UseGroup<'t, 'a>),
}

// What stands behind a name.
fn behind_name<'t, 'a>(ident: Name<'a>, tree: &'t Tree<'a>) -> Option<UseTree<'t, 'a>>
    ensures { MatchOption result ((s u v : List Token → Bool) (c : ℕ) (cs : List ℕ) (a : g.Gram) (o p q : List ℕ → Bool)
        → IsShaped tree.now (g.alt s (g.seq (g.mark c cs) a) (g.alt u (g.seq (g.word o) (g.alt v (g.word p)
        (g.word q))) g.nothing)) → ⊥)
        (λ x. t.Second (t.Pair (name_tree ident.entry) tree.now) ≡ use_branch_tree x) }
{
    match take::chosen3(tree) {
        Some(Choice3::First(inner)) => {
            let found = as_marked(inner)?;
            Some(UseTree::Path(UsePath {
                ident,
                colon2_token: found.mark,
                tree: found.node,
            }))
        }
        Some(Choice3::Second(inner)) => {
            let found = as_renamed(inner)?;
            Some(UseTree::Rename(UseRename {
                ident,
                as_token: found.as_token,
                rename: found.rename,
            }))
        }
        Some(Choice3::Third(inner)) => if take::is_nothing(inner) {
            Some(UseTree::Name(UseName { ident }))
        } else {
            None
        },
        None => None,
    }
}

// A name and what stands behind it.
fn named<'t, 'a>(tree: &'t Tree<'a>) -> Option<UseTree<'t, 'a>>
    ensures { MatchOption result ((r s u v : List Token → Bool) (c : ℕ) (cs : List ℕ) (a : g.Gram) (i j o p q : List ℕ
        → Bool) → IsShaped tree.now (g.seq (g.alt r (g.word i) (g.word j)) (g.alt s (g.seq (g.mark c cs) a) (g.alt u
        (g.seq (g.word o) (g.alt v (g.word p) (g.word q))) g.nothing))) → ⊥)
        (λ x. t.Second tree.now ≡ use_branch_tree x) }
{
    let (ident, behind) = take::pair(tree)?;
    let ident = as_name(ident)?;
    behind_name(ident, behind)
}

// Several in braces, or a branch, where the grammar has this choice.
fn group_or_branch<'t, 'a>(tree: &'t Tree<'a>) -> Option<UseTree<'t, 'a>>
    ensures { MatchOption result ((s e : List Token → Bool) (d : GivenDelimiter) (c : ℕ) (a : g.Gram)
        → IsShaped tree.now (g.alt s (g.group d (g.many e c a)) (g.ref k.UseBranch)) → ⊥)
        (λ x. tree.now ≡ use_inside_tree x) }
{
    match take::chosen(tree) {
        Some(Choice::First(inner)) => {
            let (brace_token, inside) = take::group(inner)?;
            let items = take::list(inside)?;
            Some(UseTree::Group(UseGroup { brace_token, items }))
        }
        Some(Choice::Second(branch)) => UseTree::branch(branch),
        None => None,
    }
}

impl<'t, 'a> UseTree<'t, 'a> {
    // What a tree of the kind `UseBranch` is, if it is that.
    #[tactic(auto, unfolding(syn_grammar::specs::Table::table))]
    fn branch(tree: &'t Tree<'a>) -> Option<UseTree<'t, 'a>>
        ensures tree_is { MatchOption result (IsShaped tree.now (g.ref k.UseBranch) → ⊥)
            (λ x. tree.now ≡ use_branch x) }
        ensures inside { IfSome result (λ x. t.Second tree.now ≡ use_inside_tree x) }
    {
        let Some(inner) = inside::node(Kind::UseBranch, tree) else {
            return None;
        };
        match take::chosen(inner) {
            Some(Choice::First(star)) => {
                let Some(star_token) = take::mark(star) else {
                    return None;
                };
                Some(UseTree::Glob(UseGlob { star_token }))
            }
            Some(Choice::Second(name)) => named(name),
            None => None,
        }
    }

    /// What a tree of the kind `UseTree` is, if it is that.
    #[tactic(auto, unfolding(syn_grammar::specs::Table::table))]
    pub fn of(tree: &'t Tree<'a>) -> Option<UseTree<'t, 'a>>
        ensures { MatchOption result (IsShaped tree.now (g.ref k.UseTree) → ⊥) (λ x. tree.now ≡ use_tree x) }
    {
        let Some(inner) = inside::node(Kind::UseTree, tree) else {
            return None;
        };
        group_or_branch(inner)
    }

    /// What a tree of the kind `UseRooted` is, if it is that.
    #[tactic(auto, unfolding(syn_grammar::specs::Table::table))]
    pub fn rooted(tree: &'t Tree<'a>) -> Option<UseTree<'t, 'a>>
        ensures { MatchOption result (IsShaped tree.now (g.ref k.UseRooted) → ⊥) (λ x. tree.now ≡ use_rooted x) }
    {
        let Some(inner) = inside::node(Kind::UseRooted, tree) else {
            return None;
        };
        group_or_branch(inner)
    }
}

/// What a use declaration names, from its root: `::a`.
#[derive(Clone, Copy)]
pub struct UseTop<'t, 'a> {
    /// `::`
    pub leading_colon: Option<Mark>,
    /// What it names, as a form of the kind `UseTree` behind `::`, and else `UseRooted`.
    pub tree: &'t Tree<'a>,
}

impl<'t, 'a> UseTop<'t, 'a> {
    /// What a tree is, if it is that.
    #[tactic(auto, unfolding(syn_grammar::specs::Table::table))]
    pub fn of(tree: &'t Tree<'a>) -> Option<UseTop<'t, 'a>>
        ensures { MatchOption result (IsShaped tree.now (g.ref k.UseTop) → ⊥) (λ x. tree.now ≡ use_top x) }
    {
        let Some(inner) = inside::node(Kind::UseTop, tree) else {
            return None;
        };
        match take::chosen(inner) {
            Some(Choice::First(behind)) => {
                let Some(found) = as_marked(behind) else {
                    return None;
                };
                Some(UseTop {
                    leading_colon: Some(found.mark),
                    tree: found.node,
                })
            }
            Some(Choice::Second(named)) => Some(UseTop {
                leading_colon: None,
                tree: named,
            }),
            None => None,
        }
    }
}
