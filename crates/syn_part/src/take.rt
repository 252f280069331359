//! What a tree is made of, where it has the shape of an entry. Each answers nothing only where it has no such shape.

ghost use Rattle.reader_table.specs.Kinds.{kind_of};
ghost use Rattle.reader_table.specs.Parts.{part_of};
ghost use Rattle.reader_tree.specs.Forms.{seconds};
ghost use Rattle.proc_macro2.specs.Token.{Token};
ghost use Rattle.proc_macro2.specs.declared.delimiter.Delimiter.{Delimiter as GivenDelimiter};
ghost use Rattle.std.specs.Prelude.{◌≡◌, Bool, List, MatchOption, [], cond, false, ℕ};
ghost use Rattle.syn_grammar.specs.Gram as g;
ghost use Rattle.syn_grammar.specs.Kind.{Kind as GivenKind};
ghost use Rattle.syn_grammar.specs.Name.{Part as GivenPart};
ghost use Rattle.syn_grammar.specs.Tree as t;
ghost use Rattle.syn_part.specs.Kept.{IsFirst};
ghost use Rattle.syn_part.specs.Leaves.{behind_tree, choice3_tree, choice4_tree, choice5_tree, choice_tree};
ghost use Rattle.syn_part.specs.Leaves.{lifetime_tree, list_tree, literal_tree, mark_tree, node_tree, optional_tree};
ghost use Rattle.syn_part.specs.Leaves.{raw_tree, step_tree, turns_tree, word_tree};
ghost use Rattle.syn_part.specs.Shape.{IsShaped, may_choose};

use crate::leaf::{Delimiters, Lifetime, Mark};
use crate::list::{Elements, Turns};
use reader_table::kind::Kind;
use reader_table::op::Separator;
use reader_table::part::Part;
use reader_tree::tree::{Element, Form, Tree};
use rust_leaf::ident::Ident;
use rust_leaf::literal::Literal;
use syn_buffer::entry::Entry;

/// Which of two was chosen.
#[derive(Clone, Copy)]
pub enum Choice<'t, 'a> {
    /// The first.
    First(&'t Tree<'a>),
    /// The second.
    Second(&'t Tree<'a>),
}

// No element.
fn no_element<'t, 'a>() -> &'t [Element<'a>]
    ensures { result.now ≡ [] }
{
    &[]
}

// No element, and no mark.
fn no_elements<'t, 'a>() -> Elements<'t, 'a>
    ensures { list_tree result ≡ t.End }
{
    Elements {
        separator: Separator::Comma,
        before: no_element(),
        last: None,
    }
}

// No turn.
fn no_turn<'t, 'a>() -> Turns<'t, 'a>
    ensures { turns_tree result ≡ t.End }
{
    Turns { each: &[] }
}

/// Of two trees both.
#[tactic(auto, using(crate::proofs::Takes::takes))]
pub fn pair<'t, 'a>(tree: &'t Tree<'a>) -> Option<(&'t Tree<'a>, &'t Tree<'a>)>
    ensures { MatchOption result ((a b : g.Gram) → IsShaped tree.now (g.seq a b) → ⊥)
        (λ p. tree.now ≡ t.Pair p.0.now p.1.now) }
{
    match &tree.form {
        Form::Pair(two) => Some((&two.front, &two.back)),
        _ => None,
    }
}

/// Of three trees, one behind the other, each.
#[tactic(auto, using(crate::proofs::Takes::takes))]
pub fn three<'t, 'a>(tree: &'t Tree<'a>) -> Option<(&'t Tree<'a>, &'t Tree<'a>, &'t Tree<'a>)>
    ensures { MatchOption result ((a b c : g.Gram) → IsShaped tree.now (g.seq a (g.seq b c)) → ⊥)
        (λ p. tree.now ≡ t.Pair p.0.now (t.Pair p.1.now p.2.now)) }
{
    let Some((front, behind)) = pair(tree) else {
        return None;
    };
    let Some((second, third)) = pair(behind) else {
        return None;
    };
    Some((front, second, third))
}

/// Of four trees, one behind the other, each.
#[tactic(auto, using(crate::proofs::Takes::takes))]
pub fn four<'t, 'a>(
    tree: &'t Tree<'a>,
) -> Option<(&'t Tree<'a>, &'t Tree<'a>, &'t Tree<'a>, &'t Tree<'a>)>
    ensures { MatchOption result ((a b c d : g.Gram) → IsShaped tree.now (g.seq a (g.seq b (g.seq c d))) → ⊥)
        (λ p. tree.now ≡ t.Pair p.0.now (t.Pair p.1.now (t.Pair p.2.now p.3.now))) }
{
    let Some((front, behind)) = pair(tree) else {
        return None;
    };
    let Some((second, third, fourth)) = three(behind) else {
        return None;
    };
    Some((front, second, third, fourth))
}

/// Of five trees, one behind the other, each.
#[tactic(auto, using(crate::proofs::Takes::takes))]
pub fn five<'t, 'a>(
    tree: &'t Tree<'a>,
) -> Option<
    (
        &'t Tree<'a>,
        &'t Tree<'a>,
        &'t Tree<'a>,
        &'t Tree<'a>,
        &'t Tree<'a>,
    ),
>
    ensures { MatchOption result ((a b c d e : g.Gram) → IsShaped tree.now (g.seq a (g.seq b (g.seq c (g.seq d e))))
        → ⊥)
        (λ p. tree.now ≡ t.Pair p.0.now (t.Pair p.1.now (t.Pair p.2.now (t.Pair p.3.now p.4.now)))) }
{
    let Some((front, behind)) = pair(tree) else {
        return None;
    };
    let Some((second, third, fourth, fifth)) = four(behind) else {
        return None;
    };
    Some((front, second, third, fourth, fifth))
}

/// Of six trees, one behind the other, each.
#[tactic(auto, using(crate::proofs::Takes::takes))]
pub fn six<'t, 'a>(
    tree: &'t Tree<'a>,
) -> Option<
    (
        &'t Tree<'a>,
        &'t Tree<'a>,
        &'t Tree<'a>,
        &'t Tree<'a>,
        &'t Tree<'a>,
        &'t Tree<'a>,
    ),
>
    ensures { MatchOption result ((a b c d e f : g.Gram) → IsShaped tree.now (g.seq a (g.seq b (g.seq c (g.seq d
        (g.seq e f))))) → ⊥)
        (λ p. tree.now ≡ t.Pair p.0.now (t.Pair p.1.now (t.Pair p.2.now (t.Pair p.3.now (t.Pair p.4.now p.5.now))))) }
{
    let Some((front, behind)) = pair(tree) else {
        return None;
    };
    let Some((second, third, fourth, fifth, sixth)) = five(behind) else {
        return None;
    };
    Some((front, second, third, fourth, fifth, sixth))
}

/// Of seven trees, one behind the other, each.
#[tactic(auto, using(crate::proofs::Takes::takes))]
pub fn seven<'t, 'a>(
    tree: &'t Tree<'a>,
) -> Option<
    (
        &'t Tree<'a>,
        &'t Tree<'a>,
        &'t Tree<'a>,
        &'t Tree<'a>,
        &'t Tree<'a>,
        &'t Tree<'a>,
        &'t Tree<'a>,
    ),
>
    ensures { MatchOption result ((a b c d e f i : g.Gram) → IsShaped tree.now (g.seq a (g.seq b (g.seq c (g.seq d
        (g.seq e (g.seq f i)))))) → ⊥)
        (λ p. tree.now ≡ t.Pair p.0.now (t.Pair p.1.now (t.Pair p.2.now (t.Pair p.3.now (t.Pair p.4.now
        (t.Pair p.5.now p.6.now)))))) }
{
    let Some((front, behind)) = pair(tree) else {
        return None;
    };
    let Some((second, third, fourth, fifth, sixth, seventh)) = six(behind) else {
        return None;
    };
    Some((front, second, third, fourth, fifth, sixth, seventh))
}

/// Of eight trees, one behind the other, each.
#[tactic(auto, using(crate::proofs::Takes::takes))]
pub fn eight<'t, 'a>(
    tree: &'t Tree<'a>,
) -> Option<
    (
        &'t Tree<'a>,
        &'t Tree<'a>,
        &'t Tree<'a>,
        &'t Tree<'a>,
        &'t Tree<'a>,
        &'t Tree<'a>,
        &'t Tree<'a>,
        &'t Tree<'a>,
    ),
>
    ensures { MatchOption result ((a b c d e f i j : g.Gram) → IsShaped tree.now (g.seq a (g.seq b (g.seq c (g.seq d
        (g.seq e (g.seq f (g.seq i j))))))) → ⊥)
        (λ p. tree.now ≡ t.Pair p.0.now (t.Pair p.1.now (t.Pair p.2.now (t.Pair p.3.now (t.Pair p.4.now
        (t.Pair p.5.now (t.Pair p.6.now p.7.now))))))) }
{
    let Some((front, behind)) = pair(tree) else {
        return None;
    };
    let Some((second, third, fourth, fifth, sixth, seventh, last)) = seven(behind) else {
        return None;
    };
    Some((front, second, third, fourth, fifth, sixth, seventh, last))
}

/// A word.
#[tactic(auto, using(crate::proofs::Takes::takes))]
pub fn word<'a>(tree: &Tree<'a>) -> Option<&'a Ident>
    ensures { MatchOption result ((p : List ℕ → Bool) → IsShaped tree.now (g.word p) → ⊥)
        (λ i. tree.now ≡ word_tree i) }
{
    match &tree.form {
        Form::Word(ident) => Some(*ident),
        _ => None,
    }
}

/// A literal.
#[tactic(auto, using(crate::proofs::Takes::takes))]
pub fn literal<'a>(tree: &Tree<'a>) -> Option<&'a Literal>
    ensures { MatchOption result ((p : List ℕ → Bool) → IsShaped tree.now (g.literal p) → ⊥)
        (λ l. tree.now ≡ literal_tree l) }
{
    match &tree.form {
        Form::Literal(literal) => Some(*literal),
        _ => None,
    }
}

/// A punctuation.
#[tactic(auto, using(crate::proofs::Takes::takes))]
pub fn mark(tree: &Tree<'_>) -> Option<Mark>
    ensures { MatchOption result ((c : ℕ) (cs : List ℕ) → IsShaped tree.now (g.mark c cs) → ⊥)
        (λ m. tree.now ≡ mark_tree m) }
{
    match &tree.form {
        Form::Mark(sign, spacing, span) => Some(Mark {
            sign: *sign,
            spacing: *spacing,
            span: span.span(),
        }),
        _ => None,
    }
}

/// A lifetime.
#[tactic(auto, using(crate::proofs::Takes::takes))]
pub fn lifetime<'a>(tree: &Tree<'a>) -> Option<Lifetime<'a>>
    ensures { MatchOption result (IsShaped tree.now g.lifetime → ⊥) (λ l. tree.now ≡ lifetime_tree l) }
{
    match &tree.form {
        Form::Lifetime(held) => Some(Lifetime {
            apostrophe: held.span,
            ident: held.ident,
        }),
        _ => None,
    }
}

/// Of a node its kind and its inside.
#[tactic(auto, using(crate::proofs::Takes::takes))]
pub fn node<'t, 'a>(tree: &'t Tree<'a>) -> Option<(Kind, &'t Tree<'a>)>
    ensures { MatchOption result ((k : GivenKind) → IsShaped tree.now (g.ref k) → ⊥)
        (λ p. tree.now ≡ t.Node (kind_of p.0) p.1.now) }
{
    match &tree.form {
        Form::Node(kind, inner) => Some((*kind, inner)),
        _ => None,
    }
}

/// Of a group its delimiters and its inside.
#[tactic(auto, using(crate::proofs::Takes::takes))]
pub fn group<'t, 'a>(tree: &'t Tree<'a>) -> Option<(Delimiters, &'t Tree<'a>)>
    ensures { MatchOption result ((d : GivenDelimiter) (a : g.Gram) → IsShaped tree.now (g.group d a) → ⊥)
        (λ p. tree.now ≡ t.Group p.0.delimiter p.1.now) }
{
    match &tree.form {
        Form::Group(delimiter, enclosed) => Some((
            Delimiters {
                delimiter: *delimiter,
                span: enclosed.span,
            },
            &enclosed.inside,
        )),
        _ => None,
    }
}

/// Of a part its name and what it is.
#[tactic(auto, using(crate::proofs::Takes::takes))]
pub fn called<'t, 'a>(tree: &'t Tree<'a>) -> Option<(Part, &'t Tree<'a>)>
    ensures { MatchOption result ((n : GivenPart) (a : g.Gram) → IsShaped tree.now (g.called n a) → ⊥)
        (λ p. tree.now ≡ t.Called (part_of p.0) p.1.now) }
{
    match &tree.form {
        Form::Called(part, inner) => Some((*part, inner)),
        _ => None,
    }
}

/// Which of two was chosen, of which the second is no choice again.
#[tactic(auto, using(crate::proofs::Takes::takes, crate::proofs::Takes::choices))]
pub fn chosen<'t, 'a>(tree: &'t Tree<'a>) -> Option<Choice<'t, 'a>>
    ensures { MatchOption result ((t : List Token → Bool) (a b : g.Gram) → may_choose b ≡ false
        → IsShaped tree.now (g.alt t a b) → ⊥)
        (λ o. tree.now ≡ choice_tree o) }
{
    match &tree.form {
        Form::First(depth, inner) => if *depth == 0 {
            Some(Choice::First(inner))
        } else {
            None
        },
        Form::Second(depth, inner) => if *depth == 0 {
            Some(Choice::Second(inner))
        } else {
            None
        },
        _ => None,
    }
}

/// A list of elements.
#[tactic(auto, using(crate::proofs::Takes::lists))]
pub fn list<'t, 'a>(tree: &'t Tree<'a>) -> Option<Elements<'t, 'a>>
    ensures { MatchOption result ((e : List Token → Bool) (c : ℕ) (a : g.Gram) → IsShaped tree.now (g.many e c a) → ⊥)
        (λ l. tree.now ≡ list_tree l) }
{
    match &tree.form {
        Form::Elements(list) => Some(Elements {
            separator: list.separator,
            before: list.before,
            last: list.last,
        }),
        Form::End => Some(no_elements()),
        Form::Turns(turns) => if turns.each.is_empty() {
            Some(no_elements())
        } else {
            None
        },
        _ => None,
    }
}

/// Turns, one behind the other.
#[tactic(auto, using(crate::proofs::Takes::lists))]
pub fn each_turn<'t, 'a>(tree: &'t Tree<'a>) -> Option<Turns<'t, 'a>>
    ensures { MatchOption result ((e : List Token → Bool) (a : g.Gram) → IsShaped tree.now (g.star e a) → ⊥)
        (λ r. tree.now ≡ turns_tree r) }
{
    match &tree.form {
        Form::End => Some(no_turn()),
        Form::Turns(turns) => Some(Turns { each: turns.each }),
        Form::Elements(list) => if list.before.is_empty() && list.last.is_none() {
            Some(no_turn())
        } else {
            None
        },
        _ => None,
    }
}

/// Whether nothing stands there.
#[tactic(auto, using(crate::proofs::Takes::takes))]
pub fn is_nothing(tree: &Tree<'_>) -> bool
    ensures { cond result (tree.now ≡ t.Nil) (IsShaped tree.now g.nothing → ⊥) }
{
    match &tree.form {
        Form::Nil => true,
        _ => false,
    }
}

/// What stands there, if anything does.
#[tactic(auto, using(crate::proofs::Takes::takes))]
pub fn optional<'t, 'a>(tree: &'t Tree<'a>) -> Option<Option<&'t Tree<'a>>>
    ensures { MatchOption result ((t : List Token → Bool) (a : g.Gram) → IsShaped tree.now (g.alt t a g.nothing) → ⊥)
        (λ o. tree.now ≡ optional_tree node_tree o) }
{
    match &tree.form {
        Form::First(depth, inner) => if *depth == 0 { Some(Some(inner)) } else { None },
        Form::Second(depth, inner) => if *depth == 0 && is_nothing(inner) {
            Some(None)
        } else {
            None
        },
        _ => None,
    }
}

/// The lifetime that stands there, if one does.
#[tactic(auto, using(crate::proofs::Takes::takes))]
pub fn optional_lifetime<'a>(tree: &Tree<'a>) -> Option<Option<Lifetime<'a>>>
    ensures { MatchOption result ((t : List Token → Bool) → IsShaped tree.now (g.alt t g.lifetime g.nothing) → ⊥)
        (λ o. tree.now ≡ optional_tree lifetime_tree o) }
{
    match optional(tree) {
        None => None,
        Some(None) => Some(None),
        Some(Some(inner)) => match lifetime(inner) {
            Some(found) => Some(Some(found)),
            None => None,
        },
    }
}

/// The word that stands there, if one does.
#[tactic(auto, using(crate::proofs::Takes::takes))]
pub fn optional_word<'a>(tree: &Tree<'a>) -> Option<Option<&'a Ident>>
    ensures { MatchOption result ((t : List Token → Bool) (p : List ℕ → Bool) → IsShaped tree.now (g.alt t
        (g.word p) g.nothing) → ⊥)
        (λ o. tree.now ≡ optional_tree word_tree o) }
{
    match optional(tree) {
        None => None,
        Some(None) => Some(None),
        Some(Some(inner)) => match word(inner) {
            Some(found) => Some(Some(found)),
            None => None,
        },
    }
}

/// The punctuation that stands there, if one does.
#[tactic(auto, using(crate::proofs::Takes::takes))]
pub fn optional_mark(tree: &Tree<'_>) -> Option<Option<Mark>>
    ensures { MatchOption result ((t : List Token → Bool) (c : ℕ) (cs : List ℕ) → IsShaped tree.now (g.alt t
        (g.mark c cs) g.nothing) → ⊥)
        (λ o. tree.now ≡ optional_tree mark_tree o) }
{
    match optional(tree) {
        None => None,
        Some(None) => Some(None),
        Some(Some(inner)) => match mark(inner) {
            Some(found) => Some(Some(found)),
            None => None,
        },
    }
}

// Choices among several: each alternative but the last is a first, and what stands behind it the second.

/// What stands behind alternatives that were not chosen.
#[derive(Clone, Copy)]
pub enum Behind<'t, 'a> {
    /// So many times the second, and then the first.
    First(usize, &'t Tree<'a>),
    /// So many times the second, and then this.
    Second(usize, &'t Tree<'a>),
}

/// Whether the first alternative was chosen.
#[derive(Clone, Copy)]
pub enum Step<'t, 'a> {
    /// It was.
    First(&'t Tree<'a>),
    /// It was not.
    Behind(Behind<'t, 'a>),
}

/// Which of three was chosen.
#[derive(Clone, Copy)]
pub enum Choice3<'t, 'a> {
    /// The first.
    First(&'t Tree<'a>),
    /// The second.
    Second(&'t Tree<'a>),
    /// The third.
    Third(&'t Tree<'a>),
}

/// Which of four was chosen.
#[derive(Clone, Copy)]
pub enum Choice4<'t, 'a> {
    /// The first.
    First(&'t Tree<'a>),
    /// The second.
    Second(&'t Tree<'a>),
    /// The third.
    Third(&'t Tree<'a>),
    /// The fourth.
    Fourth(&'t Tree<'a>),
}

/// Which of five was chosen.
#[derive(Clone, Copy)]
pub enum Choice5<'t, 'a> {
    /// The first.
    First(&'t Tree<'a>),
    /// The second.
    Second(&'t Tree<'a>),
    /// The third.
    Third(&'t Tree<'a>),
    /// The fourth.
    Fourth(&'t Tree<'a>),
    /// The fifth.
    Fifth(&'t Tree<'a>),
}

// So many times the second, and then the first: it, or what stands behind the first.
#[tactic(auto, using(crate::proofs::Choices::seconds_less))]
fn step_to_first<'t, 'a>(depth: usize, tree: &'t Tree<'a>) -> Step<'t, 'a>
    ensures { seconds depth (t.First tree.now) ≡ step_tree result }
{
    if depth == 0 {
        Step::First(tree)
    } else {
        Step::Behind(Behind::First(depth - 1, tree))
    }
}

// Whether the first was chosen, of a choice.
#[tactic(auto, using(crate::proofs::Takes::takes))]
fn first_step<'t, 'a>(tree: &'t Tree<'a>) -> Option<Step<'t, 'a>>
    ensures { MatchOption result ((t : List Token → Bool) (a b : g.Gram) → IsShaped tree.now (g.alt t a b) → ⊥)
        (λ s. tree.now ≡ step_tree s) }
{
    match &tree.form {
        Form::First(depth, inner) => Some(step_to_first(*depth as usize, inner)),
        Form::Second(depth, inner) => Some(Step::Behind(Behind::Second(*depth as usize, inner))),
        _ => None,
    }
}

// Whether the first was chosen, of a choice behind others.
#[tactic(auto, using(crate::proofs::Choices::seconds_less))]
fn next_step<'t, 'a>(behind: Behind<'t, 'a>) -> Option<Step<'t, 'a>>
    ensures { MatchOption result ((t : List Token → Bool) (a b : g.Gram) → IsShaped (behind_tree behind.entry)
        (g.alt t a b) → ⊥)
        (λ s. behind_tree behind.entry ≡ step_tree s) }
{
    match behind {
        Behind::First(depth, tree) => Some(step_to_first(depth, tree)),
        Behind::Second(depth, tree) => if depth == 0 {
            first_step(tree)
        } else {
            Some(Step::Behind(Behind::Second(depth - 1, tree)))
        },
    }
}

// The last alternative, which is no choice again.
fn last_of_all<'t, 'a>(behind: Behind<'t, 'a>) -> Option<&'t Tree<'a>>
    ensures { MatchOption result ((a : g.Gram) → may_choose a ≡ false → IsShaped (behind_tree behind.entry) a → ⊥)
        (λ x. behind_tree behind.entry ≡ x.now) }
{
    match behind {
        Behind::First(_, _) => None,
        Behind::Second(depth, tree) => if depth == 0 { Some(tree) } else { None },
    }
}

/// Which of the last two was chosen.
pub fn two_behind<'t, 'a>(behind: Behind<'t, 'a>) -> Option<Choice<'t, 'a>>
    ensures { MatchOption result ((t : List Token → Bool) (a b : g.Gram) → may_choose b ≡ false
        → IsShaped (behind_tree behind.entry) (g.alt t a b) → ⊥)
        (λ o. behind_tree behind.entry ≡ choice_tree o) }
{
    let Some(step) = next_step(behind) else {
        return None;
    };
    match step {
        Step::First(tree) => Some(Choice::First(tree)),
        Step::Behind(last) => match last_of_all(last) {
            Some(tree) => Some(Choice::Second(tree)),
            None => None,
        },
    }
}

/// Which of the last three was chosen.
pub fn three_behind<'t, 'a>(behind: Behind<'t, 'a>) -> Option<Choice3<'t, 'a>>
    ensures { MatchOption result ((t u : List Token → Bool) (a b c : g.Gram) → may_choose c ≡ false
        → IsShaped (behind_tree behind.entry) (g.alt t a (g.alt u b c)) → ⊥)
        (λ o. behind_tree behind.entry ≡ choice3_tree o) }
{
    let Some(step) = next_step(behind) else {
        return None;
    };
    match step {
        Step::First(tree) => Some(Choice3::First(tree)),
        Step::Behind(others) => match two_behind(others) {
            Some(Choice::First(tree)) => Some(Choice3::Second(tree)),
            Some(Choice::Second(tree)) => Some(Choice3::Third(tree)),
            None => None,
        },
    }
}

/// Which of three was chosen, of which the last is no choice again.
pub fn chosen3<'t, 'a>(tree: &'t Tree<'a>) -> Option<Choice3<'t, 'a>>
    ensures { MatchOption result ((t u : List Token → Bool) (a b c : g.Gram) → may_choose c ≡ false
        → IsShaped tree.now (g.alt t a (g.alt u b c)) → ⊥)
        (λ o. tree.now ≡ choice3_tree o) }
{
    three_behind(Behind::Second(0, tree))
}

/// Which of the last four was chosen.
pub fn four_behind<'t, 'a>(behind: Behind<'t, 'a>) -> Option<Choice4<'t, 'a>>
    ensures { MatchOption result ((t u v : List Token → Bool) (a b c d : g.Gram) → may_choose d ≡ false
        → IsShaped (behind_tree behind.entry) (g.alt t a (g.alt u b (g.alt v c d))) → ⊥)
        (λ o. behind_tree behind.entry ≡ choice4_tree o) }
{
    let Some(step) = next_step(behind) else {
        return None;
    };
    match step {
        Step::First(tree) => Some(Choice4::First(tree)),
        Step::Behind(others) => match three_behind(others) {
            Some(Choice3::First(tree)) => Some(Choice4::Second(tree)),
            Some(Choice3::Second(tree)) => Some(Choice4::Third(tree)),
            Some(Choice3::Third(tree)) => Some(Choice4::Fourth(tree)),
            None => None,
        },
    }
}

/// Which of four was chosen, of which the last is no choice again.
pub fn chosen4<'t, 'a>(tree: &'t Tree<'a>) -> Option<Choice4<'t, 'a>>
    ensures { MatchOption result ((t u v : List Token → Bool) (a b c d : g.Gram) → may_choose d ≡ false
        → IsShaped tree.now (g.alt t a (g.alt u b (g.alt v c d))) → ⊥)
        (λ o. tree.now ≡ choice4_tree o) }
{
    four_behind(Behind::Second(0, tree))
}

/// Which of the last five was chosen.
pub fn five_behind<'t, 'a>(behind: Behind<'t, 'a>) -> Option<Choice5<'t, 'a>>
    ensures { MatchOption result ((t u v w : List Token → Bool) (a b c d e : g.Gram) → may_choose e ≡ false
        → IsShaped (behind_tree behind.entry) (g.alt t a (g.alt u b (g.alt v c (g.alt w d e)))) → ⊥)
        (λ o. behind_tree behind.entry ≡ choice5_tree o) }
{
    let Some(step) = next_step(behind) else {
        return None;
    };
    match step {
        Step::First(tree) => Some(Choice5::First(tree)),
        Step::Behind(others) => match four_behind(others) {
            Some(Choice4::First(tree)) => Some(Choice5::Second(tree)),
            Some(Choice4::Second(tree)) => Some(Choice5::Third(tree)),
            Some(Choice4::Third(tree)) => Some(Choice5::Fourth(tree)),
            Some(Choice4::Fourth(tree)) => Some(Choice5::Fifth(tree)),
            None => None,
        },
    }
}

/// Which of five was chosen, of which the last is no choice again.
pub fn chosen5<'t, 'a>(tree: &'t Tree<'a>) -> Option<Choice5<'t, 'a>>
    ensures { MatchOption result ((t u v w : List Token → Bool) (a b c d e : g.Gram) → may_choose e ≡ false
        → IsShaped tree.now (g.alt t a (g.alt u b (g.alt v c (g.alt w d e)))) → ⊥)
        (λ o. tree.now ≡ choice5_tree o) }
{
    five_behind(Behind::Second(0, tree))
}

/// Tokens that are kept as they are.
#[tactic(auto, using(crate::proofs::Takes::takes))]
pub fn raw<'a>(tree: &Tree<'a>) -> Option<&'a [Entry<'a>]>
    ensures { MatchOption result (IsShaped tree.now g.raw → ⊥) (λ r. tree.now ≡ raw_tree r) }
{
    match &tree.form {
        Form::Raw(kept) => Some(kept.entries),
        _ => None,
    }
}

/// The literal that stands there, if one does.
#[tactic(auto, using(crate::proofs::Takes::takes))]
pub fn optional_literal<'a>(tree: &Tree<'a>) -> Option<Option<&'a Literal>>
    ensures { MatchOption result ((t : List Token → Bool) (p : List ℕ → Bool) → IsShaped tree.now (g.alt t
        (g.literal p) g.nothing) → ⊥)
        (λ o. tree.now ≡ optional_tree literal_tree o) }
{
    match optional(tree) {
        None => None,
        Some(None) => Some(None),
        Some(Some(inner)) => match literal(inner) {
            Some(found) => Some(Some(found)),
            None => None,
        },
    }
}

/// Whether nothing stands there, where else the entry would refuse.
#[tactic(auto, using(crate::proofs::Takes::takes))]
pub fn is_ended(tree: &Tree<'_>) -> bool
    ensures { cond result (tree.now ≡ t.First t.Nil) ((t : List Token → Bool) → IsShaped tree.now (g.alt t g.nothing
        g.never) → ⊥) }
{
    match chosen(tree) {
        Some(Choice::First(inner)) => is_nothing(inner),
        Some(Choice::Second(_)) => false,
        None => false,
    }
}

/// Of what is judged, what is kept as it was read.
#[tactic(auto, using(crate::proofs::Choices::firsts))]
pub fn kept<'t, 'a>(tree: &'t Tree<'a>) -> Option<&'t Tree<'a>>
    ensures { MatchOption result (IsFirst tree.now → ⊥) (λ x. tree.now ≡ t.First x.now) }
{
    match &tree.form {
        Form::First(depth, inner) => if *depth == 0 { Some(inner) } else { None },
        _ => None,
    }
}
