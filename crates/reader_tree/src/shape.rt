//! What a tree is, and what stands in it.

ghost use Rattle.reader_table.specs.Kinds.{kind_of};
ghost use Rattle.reader_tree.specs.Shapes.{alone_of, first_of, front_of, group_of, is_middle, is_second, is_third};
ghost use Rattle.reader_tree.specs.Shapes.{last_of, node_of, own_kind, pair_of, whole_of};
ghost use Rattle.reader_tree.specs.Forms.{turns};
ghost use Rattle.reader_tree.specs.Shapes.{IsListOf, is_list, is_turns};
ghost use Rattle.std.specs.Prelude.{◌≡◌, MatchOption, false, option_map};

use crate::tree::{Element, Form, Tree};
use reader_table::kind::Kind;

#[tactic(auto, using(crate::proofs::Shapes::singles))]
impl<'a> Tree<'a> {
    /// Of a node its kind and its inside.
    pub fn node(&self) -> Option<(Kind, &Tree<'a>)>
        ensures { option_map (λ p. (kind_of p.0, p.1.now)) result ≡ node_of self.now }
    {
        match &self.form {
            Form::Node(kind, inner) => Some((*kind, inner)),
            _ => None,
        }
    }

    /// Of two trees both.
    pub fn pair(&self) -> Option<(&Tree<'a>, &Tree<'a>)>
        ensures { option_map (λ p. (p.0.now, p.1.now)) result ≡ pair_of self.now }
    {
        match &self.form {
            Form::Pair(two) => Some((&two.front, &two.back)),
            _ => None,
        }
    }

    /// Of a group its inside.
    pub fn group(&self) -> Option<&Tree<'a>>
        ensures { option_map (λ x. x.now) result ≡ group_of self.now }
    {
        match &self.form {
            Form::Group(_, group) => Some(&group.inside),
            _ => None,
        }
    }

    /// Of an expression its form.
    pub fn whole(&self) -> Option<&Tree<'a>>
        ensures { option_map (λ x. x.now) result ≡ whole_of self.now }
    {
        match &self.form {
            Form::Whole(inner) => Some(inner),
            _ => None,
        }
    }

    /// The kind of an expression's form.
    pub fn kind(&self) -> Option<Kind>
        ensures { option_map kind_of result ≡ own_kind self.now }
    {
        match &self.form {
            Form::Alone(kind, _) => Some(*kind),
            Form::Front(kind, _) => Some(*kind),
            Form::Back(kind, _) => Some(*kind),
            Form::Infix(kind, _) => Some(*kind),
            _ => None,
        }
    }

    /// Of a form without operands its kind and its own part.
    pub fn alone(&self) -> Option<(Kind, &Tree<'a>)>
        ensures { option_map (λ p. (kind_of p.0, p.1.now)) result ≡ alone_of self.now }
    {
        match &self.form {
            Form::Alone(kind, own) => Some((*kind, own)),
            _ => None,
        }
    }

    /// Of a form with an operand behind it alone its kind and that operand.
    pub fn front(&self) -> Option<(Kind, &Tree<'a>)>
        ensures { option_map (λ p. (kind_of p.0, p.1.now)) result ≡ front_of self.now }
    {
        match &self.form {
            Form::Front(kind, two) => Some((*kind, &two.back)),
            _ => None,
        }
    }
}

#[tactic(auto, using(crate::proofs::Shapes::choices))]
impl<'a> Tree<'a> {
    /// Of a choice, where the first was chosen, that.
    pub fn first(&self) -> Option<&Tree<'a>>
        ensures { option_map (λ x. x.now) result ≡ first_of self.now }
    {
        match &self.form {
            Form::First(depth, inner) => { if *depth == 0 { Some(inner) } else { None } }
            _ => None,
        }
    }

    /// Whether the second was chosen.
    pub fn is_second(&self) -> bool
        ensures { result ≡ is_second self.now }
    {
        match &self.form {
            Form::First(depth, _) => *depth != 0,
            Form::Second(_, _) => true,
            _ => false,
        }
    }

    /// Whether the second was chosen, and in it the first.
    pub fn is_middle(&self) -> bool
        ensures { result ≡ is_middle self.now }
    {
        match &self.form {
            Form::First(depth, _) => *depth == 1,
            Form::Second(depth, inner) => *depth == 0 && inner.first().is_some(),
            _ => false,
        }
    }

    /// Whether the second was chosen, and in it the second.
    pub fn is_third(&self) -> bool
        ensures { result ≡ is_third self.now }
    {
        match &self.form {
            Form::First(depth, _) => *depth > 1,
            Form::Second(depth, inner) => *depth != 0 || inner.is_second(),
            _ => false,
        }
    }

    /// The second that was chosen, if it is no choice.
    pub fn last(&self) -> Option<&Tree<'a>>
        ensures { option_map (λ x. x.now) result ≡ last_of self.now }
    {
        match &self.form {
            Form::Second(depth, inner) => {
                if *depth == 0 && inner.first().is_none() && !inner.is_second() {
                    Some(inner)
                } else {
                    None
                }
            }
            _ => None,
        }
    }
}

#[tactic(auto, using(crate::proofs::Shapes::lists))]
impl<'a> Tree<'a> {
    /// Of a list the elements that a mark follows, and the last one that none follows.
    pub fn list(&self) -> Option<(&[Element<'a>], Option<&Tree<'a>>)>
        ensures { MatchOption result (is_list self.now ≡ false)
            (λ p. IsListOf p.0.now (option_map (λ x. x.now) p.1) self.now) }
    {
        match &self.form {
            Form::Elements(list) => Some((list.before, list.last)),
            _ => None,
        }
    }

    /// Of turns each.
    pub fn turns(&self) -> Option<&[Tree<'a>]>
        ensures { MatchOption result (is_turns self.now ≡ false) (λ xs. self.now ≡ turns xs.now) }
    {
        match &self.form {
            Form::Turns(turns) => Some(turns.each),
            _ => None,
        }
    }
}
