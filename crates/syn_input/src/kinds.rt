//! Keywords and other kinds: reading them.

use crate::input::ParseBuffer;
use crate::parse::Parse;
use syn_error::fault::ParseFault;
use syn_kinds::keyword::Keyword;
use syn_kinds::markers::Nothing;
use syn_kinds::underscore::Underscore;
use syn_peek::words::word_at;

impl<const K: usize> Parse for Keyword<K> {
    ghost use Rattle.proc_macro2.specs.Token.{plain};
    ghost use Rattle.std.specs.Prelude.{◌++◌, ◌≡◌, false};
    ghost use Rattle.syn_kinds.specs.Stands.{word_stands};
    ghost use Rattle.syn_kinds.specs.Table.{word};
    ghost use Rattle.syn_kinds.specs.Values.{word_tokens};

    ghost reads = { λ ts x us. ts ≡ word_tokens (word K) x.span ++ us };

    ghost refuses = { λ ts. word_stands (word K) (plain ts) ≡ false };

    fn parse(input: &mut ParseBuffer<'_>) -> Result<Keyword<K>, ParseFault> {
        match word_at(input.cursor, Keyword::<K>::word()) {
            Some((span, behind)) => {
                input.cursor = behind;
                Ok(Keyword::new(span))
            }
            None => Err(input.expected(Keyword::<K>::display())),
        }
    }
}

#[tactic(auto, using(syn_kinds::proofs::Rows::underscore_chars))]
impl Parse for Underscore {
    ghost use Rattle.proc_macro2.specs.Token.{plain};
    ghost use Rattle.std.specs.Prelude.{◌++◌, ◌≡◌, codes, false};
    ghost use Rattle.syn_kinds.specs.Stands.{word_stands};
    ghost use Rattle.syn_kinds.specs.Values.{word_tokens};

    ghost reads = { λ ts x us. ts ≡ word_tokens (codes "_") x.span ++ us };

    ghost refuses = { λ ts. word_stands (codes "_") (plain ts) ≡ false };

    fn parse(input: &mut ParseBuffer<'_>) -> Result<Underscore, ParseFault> {
        match word_at(input.cursor, "_") {
            Some((span, behind)) => {
                input.cursor = behind;
                Ok(Underscore::new(span))
            }
            None => Err(input.expected(Underscore::display())),
        }
    }
}

impl Parse for Nothing {
    ghost use Rattle.std.specs.Prelude.{◌≡◌};

    ghost reads = { λ ts _ us. us ≡ ts };

    ghost refuses = { λ _. ⊥ };

    fn parse(_input: &mut ParseBuffer<'_>) -> Result<Nothing, ParseFault> {
        Ok(Nothing)
    }
}
