//! The elements of a list, and the marks behind them, each where it stands.

ghost use Rattle.reader_table.specs.Ops.{separator_of};
ghost use Rattle.reader_tree.specs.Forms.{elements, ending};
ghost use Rattle.reader_tree.specs.Shapes.{IsListOf, is_list};
ghost use Rattle.std.specs.Iterator.{YieldsFirstBy, item_count};
ghost use Rattle.std.specs.Prelude.{◌≡◌, IfSome, MatchOption, false, map, option_map};
ghost use Rattle.syn_buffer.specs.Entries.{entry_token};
ghost use Rattle.syn_grammar.specs.Tree.{flat};
ghost use Rattle.syn_placed.specs.Parted.{listed};

use crate::cut::cut;
use crate::placed::Placed;
use reader_table::op::Separator;
use reader_tree::tree::{Element, Form, Tree};
use syn_buffer::entry::Entry;

/// An element of a list, and the mark behind it, if one follows.
#[derive(Clone, Copy)]
pub struct Listed<'t, 'a> {
    /// The element.
    pub element: Placed<'t, 'a>,
    /// The mark behind it.
    pub mark: Option<Entry<'a>>,
}

/// Elements that are left, and the entries that they were read from with their marks. Each token is passed once.
#[derive(Clone, Copy)]
pub struct Elements<'t, 'a> {
    pub(crate) separator: Separator,
    pub(crate) before: &'t [Element<'a>],
    pub(crate) last: Option<&'t Tree<'a>>,
    pub(crate) entries: &'t [Entry<'a>],
    ghost is_spelled: { map entry_token entries.now
        ≡ flat (elements (separator_of separator) before.now (ending (λ b. b.now) last)) },
}

impl<'t, 'a> Iterator for Elements<'t, 'a> {
    type Item = Listed<'t, 'a>;

    ghost next_gives = { YieldsFirstBy (λ p. (p.element.tree.now, p.element.entries.now, p.mark))
        (λ s. listed s.before.now (option_map (λ b. b.now) s.last) s.entries.now) };

    ghost remaining = { item_count (λ s. listed s.before.now (option_map (λ b. b.now) s.last) s.entries.now) };

    fn next(&mut self) -> Option<Listed<'t, 'a>> {
        let Some((first, before)) = self.before.split_first() else {
            let last = self.last?;
            let element = Placed::new(last, self.entries);
            let (_, entries) = self.entries.split_at(self.entries.len());
            *self = Elements {
                separator: self.separator,
                before: self.before,
                last: None,
                entries,
            };
            return Some(Listed {
                element,
                mark: None,
            });
        };
        let (element, behind) = cut(&first.tree, self.entries);
        let mark = behind[0];
        let (_, entries) = behind.split_at(1);
        *self = Elements {
            separator: self.separator,
            before,
            last: self.last,
            entries,
        };
        Some(Listed {
            element,
            mark: Some(mark),
        })
    }
}

impl<'t, 'a> Placed<'t, 'a> {
    /// Of a list the elements, each with the mark behind it.
    #[tactic(auto, using(reader_tree::proofs::Shapes::lists))]
    pub fn list(&self) -> Option<Elements<'t, 'a>>
        ensures tree { MatchOption result (is_list self.now.tree.now ≡ false)
            (λ s. IsListOf s.before.now (option_map (λ b. b.now) s.last) self.now.tree.now) }
        ensures entries { IfSome result (λ s. s.entries.now ≡ self.now.entries.now) }
    {
        let tree = self.tree;
        match &tree.form {
            Form::Elements(list) => Some(Elements {
                separator: list.separator,
                before: list.before,
                last: list.last,
                entries: self.entries,
            }),
            _ => None,
        }
    }
}
