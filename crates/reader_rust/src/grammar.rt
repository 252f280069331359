//! The written grammar, as the reader asks for it.

use reader_lookahead::{form, look};
use reader_steps::rules::{Rules, Verdict};
use reader_table::kind::{Kind, Position};
use reader_table::op::{Test, Verdicts};
use reader_table::word::{Literals, Sign};
use reader_tokens::laws::whole_entries;
use reader_tokens::{literals, sign};
use reader_tree::tree::Tree;
use reader_verdicts::judge;
use rust_leaf::literal::Literal;
use rust_leaf::punct::Spacing;
use rust_map::span::Span;
use syn_buffer::entry::Entry;

/// The tests, the marks and the verdicts of the written grammar. By these rules `reader_steps::read::read` reads Rust.
#[derive(Clone, Copy, Debug, Default)]
pub struct Grammar;

impl Rules for Grammar {
    fn passes(&self, test: Test, at: &[Entry<'_>]) -> bool {
        whole_entries();
        look::passes(test, at)
    }

    fn literal(&self, literals: Literals, literal: &Literal) -> bool {
        literals::literal(literals, literal)
    }

    fn mark<'a>(
        &self,
        sign: Sign,
        at: &'a [Entry<'a>],
    ) -> Option<(Spacing, Span, &'a [Entry<'a>])> {
        sign::marks(sign, at)
    }

    fn judge(&self, verdicts: Verdicts, tree: &Tree<'_>) -> Verdict {
        judge::judge(verdicts, tree)
    }

    fn front(&self, position: Position, at: &[Entry<'_>]) -> Option<Kind> {
        whole_entries();
        form::front(position, at)
    }

    fn back(&self, position: Position, at: &[Entry<'_>]) -> Option<Kind> {
        whole_entries();
        form::back(position, at)
    }

    fn has_right(&self, position: Position, kind: Kind, at: &[Entry<'_>]) -> bool {
        whole_entries();
        form::has_right(position, kind, at)
    }
}
