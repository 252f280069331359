//! Words and literals, as they stand in the buffer.

ghost use Rattle.std.specs.Prelude.{◌∷◌, ◌≡◌, [], MatchOption, false};
ghost use Rattle.syn_buffer.specs.declared.entry.Entry.TheVariants as marks;
ghost use Rattle.syn_placed.specs.Leaves.{is_literal, is_word};

use crate::placed::Placed;
use reader_tree::tree::Form;
use rust_leaf::ident::Ident;
use rust_leaf::literal::Literal;
use syn_buffer::entry::Entry;

#[tactic(auto, using(reader_tree::proofs::Shapes::singles))]
impl<'t, 'a> Placed<'t, 'a> {
    /// Of an identifier or a keyword the token itself, with its span.
    pub fn word(&self) -> Option<&'a Ident>
        ensures { MatchOption result (is_word self.now.tree.now ≡ false)
            (λ i. self.now.entries.now ≡ marks.Ident i ∷ []) }
    {
        let tree = self.tree;
        match &tree.form {
            Form::Word(_) => match self.entries[0] {
                Entry::Ident(ident) => Some(ident),
                Entry::Literal(_) => None,
                Entry::Punct(_) => None,
                Entry::Open(_, _, _) => None,
                Entry::Close(_, _) => None,
            },
            _ => None,
        }
    }

    /// Of a literal the token itself, with its span.
    pub fn literal(&self) -> Option<&'a Literal>
        ensures { MatchOption result (is_literal self.now.tree.now ≡ false)
            (λ l. self.now.entries.now ≡ marks.Literal l ∷ []) }
    {
        let tree = self.tree;
        match &tree.form {
            Form::Literal(_) => match self.entries[0] {
                Entry::Literal(literal) => Some(literal),
                Entry::Ident(_) => None,
                Entry::Punct(_) => None,
                Entry::Open(_, _, _) => None,
                Entry::Close(_, _) => None,
            },
            _ => None,
        }
    }
}
