//! What a tree is, and what stands in it, each where it stands.
//!
//! Each call answers what the call of that name answers of the tree alone (`reader_tree::shape`), with the entries of
//! exactly its tokens.

ghost use Rattle.reader_table.specs.Kinds.{kind_of};
ghost use Rattle.reader_table.specs.Parts.{part_of};
ghost use Rattle.reader_tree.specs.Shapes.{alone_of, first_of, group_of, last_of, node_of, pair_of, whole_of};
ghost use Rattle.std.specs.Prelude.{◌++◌, ◌∷◌, ◌≡◌, [], IfSome, option_map};
ghost use Rattle.syn_buffer.specs.declared.entry.Entry.{Entry as GivenEntry};
ghost use Rattle.syn_grammar.specs.Part.{choice};
ghost use Rattle.syn_placed.specs.Shapes.{ahead_of, back_of, called_of, dropped_of, infix_of, verbatim_of};

use crate::cut::{cut, cut_two};
use crate::placed::Placed;
use reader_table::kind::Kind;
use reader_table::part::Part;
use reader_tree::tree::Form;

// What has the same tokens.
#[tactic(auto, using(crate::proofs::Shapes::same_tokens))]
impl<'t, 'a> Placed<'t, 'a> {
    /// Of a node its kind and its inside.
    pub fn node(&self) -> Option<(Kind, Placed<'t, 'a>)>
        ensures tree { option_map (λ p. (kind_of p.0, p.1.tree.now)) result ≡ node_of self.now.tree.now }
        ensures entries { IfSome result (λ p. p.1.entries.now ≡ self.now.entries.now) }
    {
        match self.tree.node() {
            Some((kind, inner)) => Some((kind, Placed::new(inner, self.entries))),
            None => None,
        }
    }

    /// Of an expression its form.
    pub fn whole(&self) -> Option<Placed<'t, 'a>>
        ensures tree { option_map (λ p. p.tree.now) result ≡ whole_of self.now.tree.now }
        ensures entries { IfSome result (λ p. p.entries.now ≡ self.now.entries.now) }
    {
        match self.tree.whole() {
            Some(inner) => Some(Placed::new(inner, self.entries)),
            None => None,
        }
    }

    /// Of a form without operands its kind and its own part.
    pub fn alone(&self) -> Option<(Kind, Placed<'t, 'a>)>
        ensures tree { option_map (λ p. (kind_of p.0, p.1.tree.now)) result ≡ alone_of self.now.tree.now }
        ensures entries { IfSome result (λ p. p.1.entries.now ≡ self.now.entries.now) }
    {
        match self.tree.alone() {
            Some((kind, own)) => Some((kind, Placed::new(own, self.entries))),
            None => None,
        }
    }

    /// Of a choice, where the first was chosen, that.
    pub fn first(&self) -> Option<Placed<'t, 'a>>
        ensures tree { option_map (λ p. p.tree.now) result ≡ first_of self.now.tree.now }
        ensures entries { IfSome result (λ p. p.entries.now ≡ self.now.entries.now) }
    {
        match self.tree.first() {
            Some(inner) => Some(Placed::new(inner, self.entries)),
            None => None,
        }
    }

    /// The second that was chosen, if it is no choice.
    pub fn last(&self) -> Option<Placed<'t, 'a>>
        ensures tree { option_map (λ p. p.tree.now) result ≡ last_of self.now.tree.now }
        ensures entries { IfSome result (λ p. p.entries.now ≡ self.now.entries.now) }
    {
        match self.tree.last() {
            Some(inner) => Some(Placed::new(inner, self.entries)),
            None => None,
        }
    }

    /// What was chosen.
    pub fn choice(&self) -> Placed<'t, 'a>
        ensures tree { result.tree.now ≡ choice self.now.tree.now }
        ensures entries { result.entries.now ≡ self.now.entries.now }
    {
        Placed::new(self.tree.choice(), self.entries)
    }
}

// The same of what the tree alone has no call for.
#[tactic(auto, using(reader_tree::proofs::Shapes::singles))]
impl<'t, 'a> Placed<'t, 'a> {
    /// Of a part its name and what it is.
    pub fn called(&self) -> Option<(Part, Placed<'t, 'a>)>
        ensures tree { option_map (λ p. (part_of p.0, p.1.tree.now)) result ≡ called_of self.now.tree.now }
        ensures entries { IfSome result (λ p. p.1.entries.now ≡ self.now.entries.now) }
    {
        let tree = self.tree;
        match &tree.form {
            Form::Called(part, inner) => Some((*part, Placed::new(inner, self.entries))),
            _ => None,
        }
    }

    /// What was read, and is no part of the program.
    pub fn dropped(&self) -> Option<Placed<'t, 'a>>
        ensures tree { option_map (λ p. p.tree.now) result ≡ dropped_of self.now.tree.now }
        ensures entries { IfSome result (λ p. p.entries.now ≡ self.now.entries.now) }
    {
        let tree = self.tree;
        match &tree.form {
            Form::Dropped(inner) => Some(Placed::new(inner, self.entries)),
            _ => None,
        }
    }

    /// What was read so, and is kept as tokens.
    pub fn verbatim(&self) -> Option<Placed<'t, 'a>>
        ensures tree { option_map (λ p. p.tree.now) result ≡ verbatim_of self.now.tree.now }
        ensures entries { IfSome result (λ p. p.entries.now ≡ self.now.entries.now) }
    {
        let tree = self.tree;
        match &tree.form {
            Form::Verbatim(inner) => Some(Placed::new(inner, self.entries)),
            _ => None,
        }
    }

    /// Of a form with an operand behind it alone its kind, its own part, and that operand.
    pub fn front(&self) -> Option<(Kind, Placed<'t, 'a>, Placed<'t, 'a>)>
        ensures tree { option_map (λ p. (kind_of p.0, p.1.tree.now, p.2.tree.now)) result ≡ ahead_of self.now.tree.now }
        ensures entries { IfSome result (λ p. p.1.entries.now ++ p.2.entries.now ≡ self.now.entries.now) }
    {
        let tree = self.tree;
        match &tree.form {
            Form::Front(kind, two) => {
                let (own, right) = cut_two(&two.front, &two.back, self.entries);
                Some((*kind, own, right))
            }
            _ => None,
        }
    }

    /// Of a form with an operand before it alone that operand, its kind, and its own part.
    pub fn back(&self) -> Option<(Placed<'t, 'a>, Kind, Placed<'t, 'a>)>
        ensures tree { option_map (λ p. (p.0.tree.now, kind_of p.1, p.2.tree.now)) result ≡ back_of self.now.tree.now }
        ensures entries { IfSome result (λ p. p.0.entries.now ++ p.2.entries.now ≡ self.now.entries.now) }
    {
        let tree = self.tree;
        match &tree.form {
            Form::Back(kind, two) => {
                let (left, own) = cut_two(&two.front, &two.back, self.entries);
                Some((left, *kind, own))
            }
            _ => None,
        }
    }

    /// Of a form with an operand on either side the left one, its kind, its own part, and the right one.
    pub fn infix(&self) -> Option<(Placed<'t, 'a>, Kind, Placed<'t, 'a>, Placed<'t, 'a>)>
        ensures tree { option_map (λ p. (p.0.tree.now, kind_of p.1, p.2.tree.now, p.3.tree.now)) result
            ≡ infix_of self.now.tree.now }
        ensures entries { IfSome result (λ p. p.0.entries.now ++ (p.2.entries.now ++ p.3.entries.now)
            ≡ self.now.entries.now) }
    {
        let tree = self.tree;
        match &tree.form {
            Form::Infix(kind, three) => {
                let (left, behind) = cut(&three.left, self.entries);
                let (own, right) = cut_two(&three.own, &three.right, behind);
                Some((left, *kind, own, right))
            }
            _ => None,
        }
    }
}

impl<'t, 'a> Placed<'t, 'a> {
    /// Of two trees both.
    pub fn pair(&self) -> Option<(Placed<'t, 'a>, Placed<'t, 'a>)>
        ensures tree { option_map (λ p. (p.0.tree.now, p.1.tree.now)) result ≡ pair_of self.now.tree.now }
        ensures entries { IfSome result (λ p. p.0.entries.now ++ p.1.entries.now ≡ self.now.entries.now) }
    {
        match self.tree.pair() {
            Some((front, back)) => Some(cut_two(front, back, self.entries)),
            None => None,
        }
    }

    /// Of a group its inside: the tokens between its marks.
    pub fn group(&self) -> Option<Placed<'t, 'a>>
        ensures tree { option_map (λ p. p.tree.now) result ≡ group_of self.now.tree.now }
        ensures entries { IfSome result (λ p. (first : GivenEntry) × ((last : GivenEntry)
            × (first ∷ (p.entries.now ++ last ∷ []) ≡ self.now.entries.now))) }
    {
        match self.tree.group() {
            Some(inside) => {
                let end = self.entries.len() - 1;
                Some(Placed::new(inside, &self.entries[1..end]))
            }
            None => None,
        }
    }
}
