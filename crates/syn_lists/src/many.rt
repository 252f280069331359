//! Reading lists of values with separators, by a function that reads a value.

ghost use Rattle.proc_macro2.specs.Token.{plain};
ghost use Rattle.std.specs.Prelude.{◌≡◌, IfErr, IfOk, OnOk, Ok};
ghost use Rattle.syn_error.specs.Faults.{IsSyntax};
ghost use Rattle.syn_input.specs.Input.{IsOnward, rest};
ghost use Rattle.syn_lists.specs.ReadMany.{ReadsBy, ReadsMany, RefusesBy, StopsMany};
ghost use Rattle.syn_lists.specs.Lists.{IsSeparated, separators, values};

use crate::punctuated::Punctuated;
use syn_error::fault::ParseFault;
use syn_input::{Parse, ParseBuffer};
use syn_peek::Token;

/// Reads values by the function, with separators between them, until the kind `E` stands where a value would begin, or
/// no separator stands behind a value. A separator may stand behind the last value where the list ends at an `E`. The
/// function must be one that may be called on any stream, and it must leave that stream at its start or past it.
///
/// The fault is the function's own, that of a separator, or that more values and separators were read than there are
/// tokens.
pub fn read_many<
    'a,
    T: Drop,
    P: Parse + Token,
    E: Token,
    F: Fn(&mut ParseBuffer<'a>) -> Result<T, ParseFault>,
>(input: &mut ParseBuffer<'a>, reader: F) -> Result<Punctuated<T, P>, ParseFault>
    requires callable { F.IsAlwaysCallable reader }
    requires onward { (i : _) (r : _) (e : _) → F.post reader i r e → IsOnward i.now e.now }
    ensures found { IfOk result (λ list. ReadsMany (ReadsBy (F.post reader)) P.reads E.stands P.stands
        (rest input.old) (values list) (separators list) (rest input.new)) }
    ensures none { IfErr result (λ e. IsSyntax e → StopsMany (ReadsBy (F.post reader)) P.reads E.stands P.stands
        (RefusesBy (F.post reader)) P.refuses (rest input.old)) }
    ensures separated { IfOk result (λ list. IsSeparated (values list) (separators list)) }
    ensures noted { ((i : _) (v : _) (e : _) → F.post reader i (Ok v) e → e.now.noted ≡ i.now.noted)
        → OnOk result (input.new.noted ≡ input.old.noted) }
    ensures onward { IsOnward input.old input.new }
{
    let mut list = Punctuated::new(input.allocator());
    let most = input.cursor().entries_left();
    'turns: while !input.peek::<E>() {
        let value = reader(input)?;
        list.push_value(value)?;
        if !input.peek::<P>() {
            return Ok(list);
        }
        let separator = input.parse::<P>()?;
        list.push_punct(separator)?;
        if most < list.len() {
            return Err(input.expected("a token"));
        }
    }
    Ok(list)
}
