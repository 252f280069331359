//! The parts of what was read, each where it stands.

ghost use Rattle.reader_table.specs.Parts.{part_of};
ghost use Rattle.std.specs.Prelude.{◌≡◌, ◌≤◌, IfSome, MatchResult, None, Some, drop, length, option_map};
ghost use Rattle.syn_buffer.specs.Entries.{spanned_entries};
ghost use Rattle.syn_buffer.specs.declared.entry.Entry.{Entry as GivenEntry};
ghost use Rattle.syn_grammar.specs.Name.{number, same_part};
ghost use Rattle.syn_grammar.specs.Part.{found};
ghost use Rattle.syn_placed.specs.Before.{before};
ghost use Rattle.syn_placed.specs.Stands.{Begins, IsPast, StandsAmong, StandsBehind};

use crate::cut::{cut, skip};
use crate::placed::Placed;
use reader_table::part::Part;
use reader_tree::tree::{Form, Tree};
use syn_buffer::entry::Entry;

// The number of a name.
fn number(part: Part) -> u8
    ensures { result ≡ number (part_of part) }
{
    part as u8
}

// Two names are one.
#[tactic(auto, unfolding(syn_grammar::specs::Name::same_part))]
fn is_same(one: Part, other: Part) -> bool
    ensures { result ≡ same_part (part_of one) (part_of other) }
{
    number(one) == number(other)
}

// What stands behind the first entry.
fn behind_first<'t, 'a>(entries: &'t [Entry<'a>]) -> &'t [Entry<'a>]
    requires { 1 ≤ length entries.now }
    ensures { result.now ≡ drop 1 entries.now }
{
    let (_, behind) = entries.split_at(1);
    behind
}

// The part of that name, or, where the tree has none, what stands behind the tree. Each token is passed once.
#[tactic(auto, using(reader_tree::proofs::Parts::parts))]
fn find<'t, 'a>(
    tree: &'t Tree<'a>,
    entries: &'t [Entry<'a>],
    part: Part,
) -> Result<Placed<'t, 'a>, &'t [Entry<'a>]>
    requires { Begins tree.now entries.now }
    ensures found { MatchResult result (λ p. Some p.tree.now ≡ found (part_of part) tree.now)
        (λ left. None ≡ found (part_of part) tree.now) }
    ensures stands { MatchResult result (λ p. StandsBehind (before (part_of part) tree.now) p.entries.now entries.now)
        (λ left. IsPast tree.now entries.now left.now) }
{
    match &tree.form {
        Form::Called(name, inner) => {
            if is_same(*name, part) {
                let (placed, _) = cut(inner, entries);
                Ok(placed)
            } else {
                Err(skip(tree, entries))
            }
        }
        Form::Pair(two) => match find(&two.front, entries, part) {
            Ok(placed) => Ok(placed),
            Err(behind) => find(&two.back, behind, part),
        },
        Form::First(_, inner) => find(inner, entries, part),
        Form::Second(_, inner) => find(inner, entries, part),
        Form::Group(_, group) => {
            match find(&group.inside, behind_first(entries), part) {
                Ok(placed) => Ok(placed),
                Err(behind) => Err(behind_first(behind)),
            }
        }
        _ => Err(skip(tree, entries)),
    }
}

impl<'t, 'a> Placed<'t, 'a> {
    /// The part of that name, of what an entry reads: none of a node inside, nor of another part. No token behind it is
    /// looked at.
    #[tactic(auto, using(crate::proofs::Places::among))]
    pub fn the(&self, part: Part) -> Option<Placed<'t, 'a>>
        ensures tree { option_map (λ p. p.tree.now) result ≡ found (part_of part) self.now.tree.now }
        ensures stands { IfSome result (λ p. StandsBehind (before (part_of part) self.now.tree.now)
            p.entries.now self.now.entries.now) }
        ensures among { IfSome result (λ p. StandsAmong (before (part_of part) self.now.tree.now)
            (spanned_entries p.entries.now) (spanned_entries self.now.entries.now)) }
    {
        match find(self.tree, self.entries, part) {
            Ok(placed) => Some(placed),
            Err(_) => None,
        }
    }
}
