//! What the reader asks of tokens, and of what was read.

ghost use Rattle.reader_verdicts.specs.Verdict.{verdict_kind};
ghost use Rattle.reader_steps.specs.Answers.{tokens};
ghost use Rattle.reader_table.specs.Kinds.{kind_of, position_of};
ghost use Rattle.reader_table.specs.Looks.{test_of};
ghost use Rattle.reader_table.specs.Verdicts.{verdict_of};
ghost use Rattle.reader_table.specs.Words.{literals_of, sign_text};
ghost use Rattle.reader_tree.specs.Forms.{mark_of};
ghost use Rattle.proc_macro2.specs.Token.{Token};
ghost use Rattle.rust_leaf.specs.Leaf.{literal_text};
ghost use Rattle.std.specs.Prelude.{◌≡◌, IfSome, IsTrue, List, MatchOption, None, Some};
ghost use Rattle.syn_buffer.specs.Entries.{is_whole};
ghost use Rattle.syn_grammar.specs.Forms.{back, front, has_right};
ghost use Rattle.syn_grammar.specs.Gram.{punct};
ghost use Rattle.syn_grammar.specs.Run.{Call, Got, Out, Refused, interp};

use reader_table::kind::{Kind, Position};
use reader_table::op::{Test, Verdicts};
use reader_table::word::{Literals, Sign};
use reader_tree::tree::Tree;
pub use reader_verdicts::verdict::Verdict;
use rust_leaf::literal::Literal;
use rust_leaf::punct::Spacing;
use rust_map::span::Span;
use syn_buffer::entry::Entry;

/// The tests, the marks and the verdicts of the written grammar, as the reader asks for them.
pub trait Rules {
    /// Whether the test passes at the entries.
    fn passes(&self, test: Test, at: &[Entry<'_>]) -> bool
        requires { IsTrue (is_whole at.now) }
        ensures { result ≡ test_of test (tokens at.now) };

    /// Whether the text of the literal passes.
    fn literal(&self, literals: Literals, literal: &Literal) -> bool
        ensures { result ≡ literals_of literals (literal_text literal.now) };

    /// How the last mark of a punctuation that stands first is spaced, where its first one stands, and what is left.
    fn mark<'a>(&self, sign: Sign, at: &'a [Entry<'a>]) -> Option<(Spacing, Span, &'a [Entry<'a>])>
        requires { IsTrue (is_whole at.now) }
        ensures mark { MatchOption result
            ((call : Call → List Token → Out) → interp call (punct (sign_text sign)) (tokens at.now) ≡ Refused)
            (λ r. (call : Call → List Token → Out) → interp call (punct (sign_text sign)) (tokens at.now)
            ≡ Got (mark_of (sign_text sign) r.0) (tokens r.2.now)) }
        ensures whole { IfSome result (λ r. IsTrue (is_whole r.2.now)) };

    /// What becomes of what was read.
    fn judge(&self, verdicts: Verdicts, tree: &Tree<'_>) -> Verdict
        ensures { verdict_kind result ≡ verdict_of verdicts tree.now };

    /// The form of expressions that begins at the entries.
    fn front(&self, position: Position, at: &[Entry<'_>]) -> Option<Kind>
        requires { IsTrue (is_whole at.now) }
        ensures { MatchOption result (front (position_of position) (tokens at.now) ≡ None)
            (λ k. front (position_of position) (tokens at.now) ≡ Some (kind_of k)) };

    /// The form of expressions whose left operand stands before the entries.
    fn back(&self, position: Position, at: &[Entry<'_>]) -> Option<Kind>
        requires { IsTrue (is_whole at.now) }
        ensures { MatchOption result (back (position_of position) (tokens at.now) ≡ None)
            (λ k. back (position_of position) (tokens at.now) ≡ Some (kind_of k)) };

    /// Whether a form of the kind has an operand behind its own part, where the entries follow that.
    fn has_right(&self, position: Position, kind: Kind, at: &[Entry<'_>]) -> bool
        requires { IsTrue (is_whole at.now) }
        ensures { result ≡ has_right (position_of position) (kind_of kind) (tokens at.now) };
}
