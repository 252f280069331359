//! What a form of an expression is made of. Each answers nothing only where a tree is no such form.

ghost use Rattle.reader_table.specs.Kinds.{kind_of};
ghost use Rattle.std.specs.Prelude.{◌<◌, ◌≡◌, IfSome, List, MatchOption, cond, length, ℕ};
ghost use Rattle.syn_expr.specs.ExprForms.{IsAlone, IsBack, IsForm, IsFront, IsInfix, IsJump, form_tree, jump_tree};
ghost use Rattle.syn_expr.specs.ExprForms.{nth_tree};
ghost use Rattle.syn_grammar.specs.Kind.{Kind as GivenKind};
ghost use Rattle.syn_grammar.specs.Say.{one_sign};
ghost use Rattle.syn_grammar.specs.Tree as t;
ghost use Rattle.syn_grammar.specs.Tree.{Tree as GivenTree};
ghost use Rattle.syn_part.specs.Leaves.{mark_tree};
ghost use Rattle.syn_part.specs.Shape.{IsShaped};

use reader_table::kind::Kind;
use reader_tree::tree::{Form, Tree};
use syn_part::leaf::Mark;
use syn_part::take;

/// Of a form by itself its kind and its own part.
#[tactic(auto, using(crate::proofs::ExprForms::alones))]
pub fn alone<'t, 'a>(tree: &'t Tree<'a>) -> Option<(Kind, &'t Tree<'a>)>
    ensures { MatchOption result ((k : GivenKind) → IsAlone tree.now k → ⊥)
        (λ p. tree.now ≡ t.Alone (kind_of p.0) p.1.now) }
{
    match &tree.form {
        Form::Alone(kind, own) => Some((*kind, own)),
        _ => None,
    }
}

/// Of a form with an operand behind it its kind, its own part, and that.
#[tactic(auto, using(crate::proofs::ExprForms::fronts))]
pub fn front<'t, 'a>(tree: &'t Tree<'a>) -> Option<(Kind, &'t Tree<'a>, &'t Tree<'a>)>
    ensures { MatchOption result ((k : GivenKind) → IsFront tree.now k → ⊥)
        (λ p. tree.now ≡ t.Front (kind_of p.0) p.1.now p.2.now) }
{
    match &tree.form {
        Form::Front(kind, two) => Some((*kind, &two.front, &two.back)),
        _ => None,
    }
}

/// Of a form with an operand before it that, its kind, and its own part.
#[tactic(auto, using(crate::proofs::ExprForms::backs))]
pub fn back<'t, 'a>(tree: &'t Tree<'a>) -> Option<(&'t Tree<'a>, Kind, &'t Tree<'a>)>
    ensures { MatchOption result ((k : GivenKind) → IsBack tree.now k → ⊥)
        (λ p. tree.now ≡ t.Back p.0.now (kind_of p.1) p.2.now) }
{
    match &tree.form {
        Form::Back(kind, two) => Some((&two.front, *kind, &two.back)),
        _ => None,
    }
}

/// Of a form with an operand on either side these, its kind, and its own part.
#[tactic(auto, using(crate::proofs::ExprForms::infixes))]
pub fn infix<'t, 'a>(tree: &'t Tree<'a>) -> Option<(&'t Tree<'a>, Kind, &'t Tree<'a>, &'t Tree<'a>)>
    ensures { MatchOption result ((k : GivenKind) → IsInfix tree.now k → ⊥)
        (λ p. tree.now ≡ t.Infix p.0.now (kind_of p.1) p.2.now p.3.now) }
{
    match &tree.form {
        Form::Infix(kind, three) => Some((&three.left, *kind, &three.own, &three.right)),
        _ => None,
    }
}

/// Of a form that may have an operand behind it its kind, its own part, and that.
#[tactic(auto, using(crate::proofs::ExprForms::jumps))]
pub fn jump<'t, 'a>(tree: &'t Tree<'a>) -> Option<(Kind, &'t Tree<'a>, Option<&'t Tree<'a>>)>
    ensures { MatchOption result ((k : GivenKind) → IsJump tree.now k → ⊥)
        (λ p. tree.now ≡ jump_tree (kind_of p.0) p.1.now p.2) }
{
    match &tree.form {
        Form::Alone(kind, own) => Some((*kind, own, None)),
        Form::Front(kind, two) => Some((*kind, &two.front, Some(&two.back))),
        _ => None,
    }
}

/// A form of any kind.
#[derive(Clone, Copy)]
pub struct Formed<'t, 'a> {
    /// The operand before it.
    pub left: Option<&'t Tree<'a>>,
    /// Its kind.
    pub kind: Kind,
    /// Its own part.
    pub own: &'t Tree<'a>,
    /// The operand behind it.
    pub right: Option<&'t Tree<'a>>,
}

/// Of any form its kind, its own part, and its operands.
#[tactic(auto, using(crate::proofs::ExprForms::forms))]
pub fn any_form<'t, 'a>(tree: &'t Tree<'a>) -> Option<Formed<'t, 'a>>
    ensures { MatchOption result ((k : GivenKind) → IsForm tree.now k → ⊥)
        (λ f. tree.now ≡ form_tree f.left (kind_of f.kind) f.own.now f.right) }
{
    match &tree.form {
        Form::Alone(kind, own) => Some(Formed {
            left: None,
            kind: *kind,
            own,
            right: None,
        }),
        Form::Front(kind, two) => Some(Formed {
            left: None,
            kind: *kind,
            own: &two.front,
            right: Some(&two.back),
        }),
        Form::Back(kind, two) => Some(Formed {
            left: Some(&two.front),
            kind: *kind,
            own: &two.back,
            right: None,
        }),
        Form::Infix(kind, three) => Some(Formed {
            left: Some(&three.left),
            kind: *kind,
            own: &three.own,
            right: Some(&three.right),
        }),
        _ => None,
    }
}

/// Of several alternatives that one, counted from 0.
#[tactic(auto, using(crate::proofs::Alternatives::alternatives))]
pub fn nth<'t, 'a>(tree: &'t Tree<'a>, number: usize) -> Option<&'t Tree<'a>>
    ensures { MatchOption result ((y : GivenTree) → tree.now ≡ nth_tree number y → ⊥)
        (λ x. tree.now ≡ nth_tree number x.now) }
{
    match &tree.form {
        Form::First(depth, inner) => if *depth as usize == number {
            Some(inner)
        } else {
            None
        },
        Form::Second(depth, inner) => {
            let depth = *depth as usize;
            if depth < number {
                nth(inner, number - depth - 1)
            } else {
                None
            }
        }
        _ => None,
    }
}

/// Of so many punctuations the one that stands there, and which one it is.
#[tactic(auto, using(crate::proofs::Alternatives::signs))]
pub fn operator(tree: &Tree<'_>, count: usize) -> Option<(usize, Mark)>
    ensures which { IfSome result (λ p. p.0 < count) }
    ensures found { MatchOption result ((texts : List (List ℕ)) → length texts ≡ count → IsShaped tree.now
        (one_sign texts) → ⊥)
        (λ p. tree.now ≡ nth_tree p.0 (mark_tree p.1)) }
{
    for number in 0..count {
        if let Some(inner) = nth(tree, number) {
            return match take::mark(inner) {
                Some(mark) => Some((number, mark)),
                None => None,
            };
        }
    }
    None
}
