//! Forms with an operand before them, and statements that are expressions, seen in what was read.

ghost use Rattle.reader_table.specs.Kinds.{kind_of};
ghost use Rattle.writer_rules.specs.Laid.{has_attributes};
ghost use Rattle.writer_rules.specs.Operands.{back_of, before_of, expression_of, first_behind, form_in, giving_of};
ghost use Rattle.writer_rules.specs.Operands.{infix_of, pair_behind, stated_of, statement_of};
ghost use Rattle.std.specs.Prelude.{◌≡◌, option_map};

use crate::seen::called;
use reader_table::kind::Kind;
use reader_table::part::Part;
use reader_tree::tree::{Form, Three, Tree, Two};
use reader_verdicts::level::level;

/// A statement that is an expression.
#[derive(Clone, Copy)]
pub struct Expressed<'t, 'a> {
    /// What stands before it.
    pub before: &'t Tree<'a>,
    /// Its form.
    pub form: &'t Tree<'a>,
    /// What stands behind it.
    pub behind: &'t Tree<'a>,
}

/// Of an infix form its kind, its operands and its own part.
#[tactic(auto, using(reader_tree::proofs::Shapes::singles))]
pub fn infix<'t, 'a>(tree: &'t Tree<'a>) -> Option<(Kind, &'t Three<'a>)>
    ensures { option_map (λ p. (kind_of p.0, p.1.now.left, p.1.now.own, p.1.now.right)) result ≡ infix_of tree.now }
{
    match &tree.form {
        Form::Infix(kind, three) => Some((*kind, three)),
        _ => None,
    }
}

/// Of a form with an operand before it alone its kind, that operand and its own part.
#[tactic(auto, using(reader_tree::proofs::Shapes::singles))]
pub fn back<'t, 'a>(tree: &'t Tree<'a>) -> Option<(Kind, &'t Two<'a>)>
    ensures { option_map (λ p. (kind_of p.0, p.1.now.front, p.1.now.back)) result ≡ back_of tree.now }
{
    match &tree.form {
        Form::Back(kind, two) => Some((*kind, two)),
        _ => None,
    }
}

/// Of a form its kind and its left operand, where attributes in front of it are given to that: of no range, and of
/// those with an operand before them alone of a cast.
#[tactic(auto, using(crate::proofs::Operands::givings))]
pub fn giving<'t, 'a>(tree: &'t Tree<'a>) -> Option<(Kind, &'t Tree<'a>)>
    ensures { option_map (λ p. (kind_of p.0, p.1.now)) result ≡ giving_of tree.now }
{
    match infix(tree) {
        Some((kind, three)) => {
            if level(kind) == 3 {
                None
            } else {
                Some((kind, &three.left))
            }
        }
        None => match back(tree) {
            Some((kind, two)) => {
                if level(kind) == 14 {
                    Some((kind, &two.front))
                } else {
                    None
                }
            }
            None => None,
        },
    }
}

/// Whether these are attributes, at least one.
#[tactic(auto, using(crate::proofs::Operands::givens))]
pub fn has_attributes(tree: &Tree<'_>) -> bool
    ensures { result ≡ has_attributes tree.now }
{
    match tree.node() {
        Some((kind, inner)) => match kind {
            Kind::OuterAttributes => match inner.turns() {
                Some(turns) => !turns.is_empty(),
                None => false,
            },
            _ => false,
        },
        None => false,
    }
}

/// Behind so many seconds both of two trees.
#[tactic(auto, using(crate::proofs::Operands::pairs_behind))]
pub fn pair_behind<'t, 'a>(
    tree: &'t Tree<'a>,
    seconds: usize,
) -> Option<(&'t Tree<'a>, &'t Tree<'a>)>
    ensures { option_map (λ p. (p.0.now, p.1.now)) result ≡ pair_behind tree.now seconds }
{
    match &tree.form {
        Form::Pair(two) => {
            if seconds == 0 {
                Some((&two.front, &two.back))
            } else {
                None
            }
        }
        Form::Second(depth, inner) => {
            let depth = *depth as usize;
            if depth < seconds {
                pair_behind(inner, seconds - 1 - depth)
            } else {
                None
            }
        }
        _ => None,
    }
}

/// Behind so many seconds of a choice the first.
#[tactic(auto, using(crate::proofs::Operands::firsts_behind))]
pub fn first_behind<'t, 'a>(tree: &'t Tree<'a>, seconds: usize) -> Option<&'t Tree<'a>>
    ensures { option_map (λ x. x.now) result ≡ first_behind tree.now seconds }
{
    match &tree.form {
        Form::First(depth, inner) => {
            if *depth as usize == seconds {
                Some(inner)
            } else {
                None
            }
        }
        Form::Second(depth, inner) => {
            let depth = *depth as usize;
            if depth < seconds {
                first_behind(inner, seconds - 1 - depth)
            } else {
                None
            }
        }
        _ => None,
    }
}

/// What stands in a part of attributes.
pub fn before<'t, 'a>(tree: &'t Tree<'a>) -> Option<&'t Tree<'a>>
    ensures { option_map (λ x. x.now) result ≡ before_of tree.now }
{
    match called(tree) {
        Some((part, inner)) => match part {
            Part::Attributes => Some(inner),
            _ => None,
        },
        None => None,
    }
}

/// What stands in a part that is an expression.
pub fn expression<'t, 'a>(tree: &'t Tree<'a>) -> Option<&'t Tree<'a>>
    ensures { option_map (λ x. x.now) result ≡ expression_of tree.now }
{
    match called(tree) {
        Some((part, inner)) => match part {
            Part::Expression => Some(inner),
            _ => None,
        },
        None => None,
    }
}

// The form of an expression.
#[tactic(auto, using(crate::proofs::Operands::forms_in))]
fn form_in<'t, 'a>(tree: &'t Tree<'a>) -> Option<&'t Tree<'a>>
    ensures { option_map (λ x. x.now) result ≡ form_in tree.now }
{
    match tree.node() {
        Some((kind, inner)) => match kind {
            Kind::Expression(_) => inner.whole(),
            _ => None,
        },
        None => None,
    }
}

/// Of a statement that is an expression what stands in it.
#[tactic(auto, using(crate::proofs::Operands::stated))]
pub fn stated<'t, 'a>(inner: &'t Tree<'a>) -> Option<Expressed<'t, 'a>>
    ensures { option_map (λ s. (s.before.now, s.form.now, s.behind.now)) result ≡ stated_of inner.now }
{
    let (attributes, rest) = pair_behind(inner, 4)?;
    let before = before(attributes)?;
    let (named, behind) = rest.pair()?;
    let form = form_in(expression(named)?)?;
    Some(Expressed {
        before,
        form,
        behind,
    })
}

/// A statement's inside.
pub fn statement<'t, 'a>(tree: &'t Tree<'a>) -> Option<&'t Tree<'a>>
    ensures { option_map (λ x. x.now) result ≡ statement_of tree.now }
{
    match tree.node() {
        Some((kind, inner)) => match kind {
            Kind::AStatement => Some(inner),
            _ => None,
        },
        None => None,
    }
}
