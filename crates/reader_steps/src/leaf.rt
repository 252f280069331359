//! Words, literals, marks, and tokens that are kept as they are.

ghost use Rattle.reader_steps.specs.Answers.{Gives, tokens};
ghost use Rattle.reader_table.specs.Ops.{separator_of};
ghost use Rattle.reader_table.specs.Words.{literals_of, sign_text, words_of};
ghost use Rattle.proc_macro2.specs.Token.{Token};
ghost use Rattle.std.specs.Prelude.{◌≡◌, IfNone, IfOk, IfSome, IsTrue, List, [], false, true};
ghost use Rattle.syn_buffer.specs.Entries.{is_whole};
ghost use Rattle.syn_grammar.specs.Gram.{punct};
ghost use Rattle.syn_grammar.specs.Look.{past_marks, sees};
ghost use Rattle.syn_grammar.specs.Tree.{AMark};
ghost use Rattle.syn_grammar.specs.Run.{Call, Got, Out, interp, lifetime_at, literal_at, mark_at, raw_at, word_at};

use crate::refusal::{Refusal, Wanted, refuse};
use crate::rules::Rules;
use reader_table::op::Separator;
use reader_table::word::{Literals, Sign, Words};
use reader_tree::arena::Arena;
use reader_tree::made;
use reader_tree::placed_spacing::PlacedSpacing;
use reader_tree::tree::Tree;
use rust_leaf::punct::Spacing;
use syn_buffer::entry::Entry;

/// A word that passes.
#[tactic(auto, unfolding(syn_grammar::specs::Run::word_at))]
pub(crate) fn word<'a>(
    words: Words,
    at: &'a [Entry<'a>],
) -> Result<(Tree<'a>, &'a [Entry<'a>]), Refusal>
    requires { IsTrue (is_whole at.now) }
    ensures answer { Gives (λ x. x.0) (λ x. x.1.now) result (word_at (words_of words) (tokens at.now)) }
    ensures whole { IfOk result (λ x. IsTrue (is_whole x.1.now)) }
{
    if let [entry, rest @ ..] = at {
        if let Entry::Ident(ident) = *entry {
            if reader_tokens::leaf::word(words, ident) {
                return Ok((made::word(ident), rest));
            }
        }
    }
    Err(refuse(Wanted::Word(words), at))
}

/// A literal that passes.
#[tactic(auto, using(crate::proofs::Groups::behind_literal), unfolding(syn_grammar::specs::Run::literal_at))]
pub(crate) fn literal<'a, R: Rules>(
    rules: &R,
    literals: Literals,
    at: &'a [Entry<'a>],
) -> Result<(Tree<'a>, &'a [Entry<'a>]), Refusal>
    requires { IsTrue (is_whole at.now) }
    ensures answer { Gives (λ x. x.0) (λ x. x.1.now) result (literal_at (literals_of literals) (tokens at.now)) }
    ensures whole { IfOk result (λ x. IsTrue (is_whole x.1.now)) }
{
    if let [entry, rest @ ..] = at {
        if let Entry::Literal(literal) = *entry {
            if rules.literal(literals, literal) {
                return Ok((made::literal(literal), rest));
            }
        }
    }
    Err(refuse(Wanted::Literal(literals), at))
}

/// A punctuation.
#[inline(always)]
pub(crate) fn mark<'a, R: Rules>(
    rules: &R,
    sign: Sign,
    at: &'a [Entry<'a>],
) -> Result<(Tree<'a>, &'a [Entry<'a>]), Refusal>
    requires { IsTrue (is_whole at.now) }
    ensures answer { (call : Call → List Token → Out) → Gives (λ x. x.0) (λ x. x.1.now) result
        (interp call (punct (sign_text sign)) (tokens at.now)) }
    ensures whole { IfOk result (λ x. IsTrue (is_whole x.1.now)) }
{
    match rules.mark(sign, at) {
        Some((spacing, span, rest)) => Ok((made::mark(sign, spacing, span), rest)),
        None => Err(refuse(Wanted::Mark(sign), at)),
    }
}

/// `'` and a word.
#[tactic(auto, unfolding(syn_grammar::specs::Run::lifetime_at))]
pub(crate) fn lifetime<'a>(
    arena: &'a Arena,
    at: &'a [Entry<'a>],
) -> Result<(Tree<'a>, &'a [Entry<'a>]), Refusal>
    requires { IsTrue (is_whole at.now) }
    ensures answer { Gives (λ x. x.0) (λ x. x.1.now) result (lifetime_at (tokens at.now)) }
    ensures whole { IfOk result (λ x. IsTrue (is_whole x.1.now)) }
{
    if let [first, second, rest @ ..] = at {
        if let (Entry::Punct(mark), Entry::Ident(ident)) = (*first, *second) {
            if mark.as_char() == '\'' && matches!(mark.spacing(), Spacing::Joint) {
                return Ok((made::lifetime(arena, mark.span(), ident)?, rest));
            }
        }
    }
    Err(refuse(Wanted::Lifetime, at))
}

/// All that is left, as it is.
#[tactic(auto, using(crate::proofs::Leaves::raw_read, crate::proofs::Leaves::dropped_all))]
pub(crate) fn raw<'a>(
    arena: &'a Arena,
    at: &'a [Entry<'a>],
) -> Result<(Tree<'a>, &'a [Entry<'a>]), Refusal>
    requires { IsTrue (is_whole at.now) }
    ensures answer { Gives (λ x. x.0) (λ x. x.1.now) result (raw_at (tokens at.now)) }
    ensures whole { IfOk result (λ x. IsTrue (is_whole x.1.now)) }
{
    Ok((made::raw(arena, at)?, &at[at.len()..]))
}

/// The mark that separates the elements of a list, and what stands behind it.
#[tactic(auto, unfolding(syn_grammar::specs::Run::mark_at))]
pub(crate) fn separator<'a>(
    separator: Separator,
    at: &'a [Entry<'a>],
) -> Option<(PlacedSpacing, &'a [Entry<'a>])>
    requires { IsTrue (is_whole at.now) }
    ensures none { IfNone result (sees (past_marks (separator_of separator) []) (tokens at.now) ≡ false) }
    ensures seen { IfSome result (λ x. sees (past_marks (separator_of separator) []) (tokens at.now) ≡ true) }
    ensures mark { IfSome result (λ x. mark_at (separator_of separator) [] (tokens at.now)
        ≡ Got (AMark (separator_of separator) [] x.0) (tokens x.1.now)) }
    ensures whole { IfSome result (λ x. IsTrue (is_whole x.1.now)) }
{
    let (entry, rest) = at.split_first()?;
    let Entry::Punct(mark) = *entry else {
        return None;
    };
    if mark.as_char() != character(separator) {
        return None;
    }
    Some((PlacedSpacing::new(mark.spacing(), mark.span()), rest))
}

// The character of a separator.
fn character(separator: Separator) -> char
    ensures { result ≡ separator_of separator }
{
    match separator {
        Separator::Comma => ',',
        Separator::Plus => '+',
    }
}
