//! Lists of values with separators that are read: to their end, and of at least one value.

ghost use Rattle.std.specs.Prelude.{[], ◌≡◌, ◌⊎◌, false, IfErr, IfOk, Ok, OnOk};
ghost use Rattle.syn_buffer.specs.Stands.{end_stands};
ghost use Rattle.syn_error.specs.Faults.{IsSyntax};
ghost use Rattle.syn_input.specs.Input.{IsOnward, rest};
ghost use Rattle.syn_lists.specs.Lists.{IsSeparated, separators, values};
ghost use Rattle.syn_lists.specs.ReadLists.{ReadsList, StopsList};
ghost use Rattle.syn_lists.specs.ReadMany.{IsShort, ReadsBy, ReadsMany, RefusesBy, StopsMany};

use crate::many::read_many;
use crate::nowhere::Nowhere;
use crate::punctuated::Punctuated;
use syn_error::fault::ParseFault;
use syn_input::{Parse, ParseBuffer};
use syn_kinds::End;
use syn_peek::{Peek, Token};

impl<T, P> Punctuated<T, P> {
    /// Reads values and separators in turn to the end of the list that is read. A separator may stand behind the
    /// last value.
    ///
    /// The fault is that of the value or of the separator that does not stand there, or that more values and
    /// separators were read than there are tokens. Want of memory says nothing of the tokens.
    #[tactic(auto, using(crate::proofs::ReadPairs::read_pairs))]
    pub fn parse_terminated(input: &mut ParseBuffer<'_>) -> Result<Punctuated<T, P>, ParseFault>
    where
        T: Parse,
        P: Parse,
        ensures found { IfOk result (λ list.
            ReadsList T.reads P.reads (rest input.old) (values list) (separators list) (rest input.new)) }
        ensures whole { OnOk result (rest input.new ≡ []) }
        ensures none { IfErr result (λ e. IsSyntax e
            → StopsList T.reads P.reads T.refuses P.refuses (rest input.old)) }
        ensures noted { OnOk result (input.new.noted ≡ input.old.noted) }
        ensures onward { IsOnward input.old input.new }
    {
        let mut list = Punctuated::new(input.allocator());
        let most = input.cursor().entries_left();
        'values: while !input.is_empty() {
            let value = input.parse::<T>()?;
            list.push_value(value)?;
            if input.is_empty() {
                return Ok(list);
            }
            let separator = input.parse::<P>()?;
            list.push_punct(separator)?;
            if most < list.len() {
                return Err(input.unexpected());
            }
        }
        Ok(list)
    }

    /// Reads values by the function, with separators between them, to the end of the list that is read. A separator may
    /// stand behind the last value. The function must be one that may be called on any stream, and it must leave that
    /// stream at its start or past it.
    ///
    /// The fault is the function's own, that of a separator, that more values and separators were read than there are
    /// tokens, or that no separator stands where the list goes on.
    pub fn parse_terminated_with<'a, F: Fn(&mut ParseBuffer<'a>) -> Result<T, ParseFault>>(
        input: &mut ParseBuffer<'a>,
        parser: F,
    ) -> Result<Punctuated<T, P>, ParseFault>
    where
        T: Drop,
        P: Parse + Token,
        requires callable { F.IsAlwaysCallable parser }
        requires onward { (i : _) (r : _) (e : _) → F.post parser i r e → IsOnward i.now e.now }
        ensures found { IfOk result (λ list. ReadsMany (ReadsBy (F.post parser)) P.reads end_stands P.stands
            (rest input.old) (values list) (separators list) (rest input.new)) }
        ensures whole { OnOk result (rest input.new ≡ []) }
        ensures none { IfErr result (λ e. IsSyntax e → StopsMany (ReadsBy (F.post parser)) P.reads end_stands P.stands
            (RefusesBy (F.post parser)) P.refuses (rest input.old)
            ⊎ IsShort (ReadsBy (F.post parser)) P.reads end_stands P.stands (rest input.old)) }
        ensures separated { IfOk result (λ list. IsSeparated (values list) (separators list)) }
        ensures noted { ((i : _) (v : _) (e : _) → F.post parser i (Ok v) e → e.now.noted ≡ i.now.noted)
            → OnOk result (input.new.noted ≡ input.old.noted) }
        ensures onward { IsOnward input.old input.new }
    {
        let list = read_many::<T, P, End, F>(input, parser)?;
        if input.is_empty() {
            return Ok(list);
        }
        Err(input.expected(P::display()))
    }

    /// Reads a value, and then a separator and a value as long as a separator stands there.
    ///
    /// The fault is that of a value or of a separator, or that more values and separators were read than there are
    /// tokens.
    pub fn parse_separated_nonempty(
        input: &mut ParseBuffer<'_>,
    ) -> Result<Punctuated<T, P>, ParseFault>
    where
        T: Parse,
        P: Parse + Token,
        ensures found { IfOk result (λ list. ReadsMany T.reads P.reads (λ _. false) P.stands (rest input.old)
            (values list) (separators list) (rest input.new)) }
        ensures none { IfErr result (λ e. IsSyntax e → StopsMany T.reads P.reads (λ _. false) P.stands
            T.refuses P.refuses (rest input.old)) }
        ensures separated { IfOk result (λ list. IsSeparated (values list) (separators list)) }
        ensures noted { OnOk result (input.new.noted ≡ input.old.noted) }
        ensures onward { IsOnward input.old input.new }
    {
        Punctuated::parse_separated_nonempty_with(input, |input| T::parse(input))
    }

    /// Reads a value by the function, and then a separator and a value as long as a separator stands there. The
    /// condition on the function is that of `parse_terminated_with`.
    ///
    /// The fault is the function's own, that of a separator, or that more values and separators were read than there
    /// are tokens.
    pub fn parse_separated_nonempty_with<'a, F: Fn(&mut ParseBuffer<'a>) -> Result<T, ParseFault>>(
        input: &mut ParseBuffer<'a>,
        parser: F,
    ) -> Result<Punctuated<T, P>, ParseFault>
    where
        T: Drop,
        P: Parse + Token,
        requires callable { F.IsAlwaysCallable parser }
        requires onward { (i : _) (r : _) (e : _) → F.post parser i r e → IsOnward i.now e.now }
        ensures found { IfOk result (λ list. ReadsMany (ReadsBy (F.post parser)) P.reads (λ _. false) P.stands
            (rest input.old) (values list) (separators list) (rest input.new)) }
        ensures none { IfErr result (λ e. IsSyntax e → StopsMany (ReadsBy (F.post parser)) P.reads (λ _. false)
            P.stands (RefusesBy (F.post parser)) P.refuses (rest input.old)) }
        ensures separated { IfOk result (λ list. IsSeparated (values list) (separators list)) }
        ensures noted { ((i : _) (v : _) (e : _) → F.post parser i (Ok v) e → e.now.noted ≡ i.now.noted)
            → OnOk result (input.new.noted ≡ input.old.noted) }
        ensures onward { IsOnward input.old input.new }
    {
        read_many::<T, P, Nowhere, F>(input, parser)
    }
}

/// What a stream that is read has besides: a list is read from it. It is a trait, since `Punctuated` stands above
/// streams.
pub trait ParseBufferExt<'a, T, F> {
    /// The function may be called on any stream, and leaves it at its start or past it.
    ghost may: { F → Type 0 };

    /// Reads values by the function, with separators of that kind between them, to the end of the list that is read. A
    /// separator may stand behind the last value. Of the separator that is handed in, as `token::Comma::default()`, its
    /// kind alone is asked.
    ///
    /// The condition on the function and the fault are those of `Punctuated::parse_terminated_with`.
    fn parse_terminated<P: Parse + Peek>(
        &mut self,
        parser: F,
        separator: P,
    ) -> Result<Punctuated<T, P>, ParseFault>
        requires { may parser };
}

impl<'a, T: Drop, F: Fn(&mut ParseBuffer<'a>) -> Result<T, ParseFault>> ParseBufferExt<'a, T, F>
    for ParseBuffer<'a> {
    ghost may = { λ parser. F.IsAlwaysCallable parser
        × ((i : _) (r : _) (e : _) → F.post parser i r e → IsOnward i.now e.now) };

    fn parse_terminated<P: Parse + Peek>(
        &mut self,
        parser: F,
        separator: P,
    ) -> Result<Punctuated<T, P>, ParseFault>
        requires callable { F.IsAlwaysCallable parser }
        requires onward { (i : _) (r : _) (e : _) → F.post parser i r e → IsOnward i.now e.now }
        ensures found { IfOk result (λ list. ReadsMany (ReadsBy (F.post parser)) P.reads end_stands P.stands
            (rest self.old) (values list) (separators list) (rest self.new)) }
        ensures whole { OnOk result (rest self.new ≡ []) }
        ensures none { IfErr result (λ e. IsSyntax e → StopsMany (ReadsBy (F.post parser)) P.reads end_stands P.stands
            (RefusesBy (F.post parser)) P.refuses (rest self.old)
            ⊎ IsShort (ReadsBy (F.post parser)) P.reads end_stands P.stands (rest self.old)) }
        ensures separated { IfOk result (λ list. IsSeparated (values list) (separators list)) }
        ensures noted { ((i : _) (v : _) (e : _) → F.post parser i (Ok v) e → e.now.noted ≡ i.now.noted)
            → OnOk result (self.new.noted ≡ self.old.noted) }
        ensures onward { IsOnward self.old self.new }
    {
        let _ = separator;
        Punctuated::<T, P>::parse_terminated_with(self, parser)
    }
}
