//! Punctuations: reading them.

use crate::input::ParseBuffer;
use crate::parse::Parse;
use syn_error::fault::ParseFault;
use syn_kinds::punctuation::Punctuation;
use syn_peek::marks::{one_of, three_of, two_of};

impl<const K: usize> Parse for Punctuation<K, 1> {
    ghost use Rattle.proc_macro2.specs.Token.{plain};
    ghost use Rattle.std.specs.Prelude.{◌≡◌, false};
    ghost use Rattle.syn_kinds.specs.Stands.{marks_stand};
    ghost use Rattle.syn_kinds.specs.Table.{marks};
    ghost use Rattle.syn_peek.specs.Marks.{ReadsMarks};

    ghost reads = { λ ts x us. ReadsMarks (marks K 1) x.spans ts us };

    ghost refuses = { λ ts. marks_stand (marks K 1) (plain ts) ≡ false };

    fn parse(input: &mut ParseBuffer<'_>) -> Result<Punctuation<K, 1>, ParseFault> {
        match one_of::<K>(input.cursor) {
            Some((punctuation, behind)) => {
                input.cursor = behind;
                Ok(punctuation)
            }
            None => Err(input.expected_mark(Punctuation::<K, 1>::display())),
        }
    }
}

impl<const K: usize> Parse for Punctuation<K, 2> {
    ghost use Rattle.proc_macro2.specs.Token.{plain};
    ghost use Rattle.std.specs.Prelude.{◌≡◌, false};
    ghost use Rattle.syn_kinds.specs.Stands.{marks_stand};
    ghost use Rattle.syn_kinds.specs.Table.{marks};
    ghost use Rattle.syn_peek.specs.Marks.{ReadsMarks};

    ghost reads = { λ ts x us. ReadsMarks (marks K 2) x.spans ts us };

    ghost refuses = { λ ts. marks_stand (marks K 2) (plain ts) ≡ false };

    fn parse(input: &mut ParseBuffer<'_>) -> Result<Punctuation<K, 2>, ParseFault> {
        match two_of::<K>(input.cursor) {
            Some((punctuation, behind)) => {
                input.cursor = behind;
                Ok(punctuation)
            }
            None => Err(input.expected_mark(Punctuation::<K, 2>::display())),
        }
    }
}

impl<const K: usize> Parse for Punctuation<K, 3> {
    ghost use Rattle.proc_macro2.specs.Token.{plain};
    ghost use Rattle.std.specs.Prelude.{◌≡◌, false};
    ghost use Rattle.syn_kinds.specs.Stands.{marks_stand};
    ghost use Rattle.syn_kinds.specs.Table.{marks};
    ghost use Rattle.syn_peek.specs.Marks.{ReadsMarks};

    ghost reads = { λ ts x us. ReadsMarks (marks K 3) x.spans ts us };

    ghost refuses = { λ ts. marks_stand (marks K 3) (plain ts) ≡ false };

    fn parse(input: &mut ParseBuffer<'_>) -> Result<Punctuation<K, 3>, ParseFault> {
        match three_of::<K>(input.cursor) {
            Some((punctuation, behind)) => {
                input.cursor = behind;
                Ok(punctuation)
            }
            None => Err(input.expected_mark(Punctuation::<K, 3>::display())),
        }
    }
}
