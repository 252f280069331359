//! Whether a group in parentheses stands first: what is seen at the first tokens besides what `writer_built` sees
//! there.

ghost use Rattle.writer_built.specs.Begins.{front3};
ghost use Rattle.writer_built.specs.Heads.{head_tokens, seen_token};
ghost use Rattle.proc_macro2.specs.Token.{Token};
ghost use Rattle.std.specs.Prelude.{[], ◌∷◌, ◌≡◌, List};
ghost use Rattle.syn_grammar.specs.Look.{sees};
ghost use Rattle.syn_grammar.specs.Say.{parenthesis};

use proc_macro2::delimiter::Delimiter;
use writer_built::head::Head;
use writer_built::seen::Seen;

// Whether it opens a group in parentheses.
fn is_parenthesis(token: Seen<'_>) -> bool
    ensures { result ≡ sees parenthesis (seen_token token.entry ∷ []) }
{
    match token {
        Seen::Open(delimiter) => match delimiter {
            Delimiter::Parenthesis => true,
            Delimiter::Brace => false,
            Delimiter::Bracket => false,
            Delimiter::None => false,
        },
        _ => false,
    }
}

/// Whether a group in parentheses stands first.
#[tactic(auto, using(crate::proofs::Firsts::parenthesis_so))]
pub(crate) fn begins_parenthesis(head: Head<'_>) -> bool
    ensures { (ts : List Token) → head_tokens head.entry ≡ front3 ts → result ≡ sees parenthesis ts }
{
    match head {
        Head::Empty => false,
        Head::One(first) => is_parenthesis(first),
        Head::Two(first, _) => is_parenthesis(first),
        Head::Three(first, _, _) => is_parenthesis(first),
    }
}
