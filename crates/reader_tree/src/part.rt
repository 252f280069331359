//! The parts of what was read.

ghost use Rattle.reader_table.specs.Parts.{part_of};
ghost use Rattle.std.specs.Prelude.{◌≡◌, option_map};
ghost use Rattle.syn_grammar.specs.Name.{number, same_part};
ghost use Rattle.syn_grammar.specs.Part.{choice, found, has};

use crate::tree::{Form, Tree};
use reader_table::part::Part;

// The number of a name.
fn number(part: Part) -> u8
    ensures { result ≡ number (part_of part) }
{
    part as u8
}

// Two names are one.
#[tactic(auto, unfolding(syn_grammar::specs::Name::same_part))]
fn is_same(one: Part, other: Part) -> bool
    ensures { result ≡ same_part (part_of one) (part_of other) }
{
    number(one) == number(other)
}

impl<'a> Tree<'a> {
    /// The part of that name, of what an entry reads: none of a node inside, nor of another part.
    #[tactic(auto, using(crate::proofs::Parts::parts))]
    pub fn the(&self, part: Part) -> Option<&Tree<'a>>
        ensures { option_map (λ x. x.now) result ≡ found (part_of part) self.now }
    {
        match &self.form {
            Form::Called(name, inner) => {
                if is_same(*name, part) {
                    Some(inner)
                } else {
                    None
                }
            }
            Form::Pair(two) => match two.front.the(part) {
                Some(x) => Some(x),
                None => two.back.the(part),
            },
            Form::First(_, inner) | Form::Second(_, inner) => inner.the(part),
            Form::Group(_, group) => group.inside.the(part),
            _ => None,
        }
    }

    /// Whether there is a part of that name.
    pub fn has(&self, part: Part) -> bool
        ensures { result ≡ has (part_of part) self.now }
    {
        self.the(part).is_some()
    }

    /// What was chosen.
    #[tactic(auto, using(crate::proofs::Parts::parts))]
    pub fn choice(&self) -> &Tree<'a>
        ensures { result.now ≡ choice self.now }
    {
        match &self.form {
            Form::First(_, inner) | Form::Second(_, inner) => inner.choice(),
            _ => self,
        }
    }
}
