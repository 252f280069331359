//! What can be read.

ghost use Rattle.proc_macro2.specs.Token.{Spanned};
ghost use Rattle.std.specs.Prelude.{◌≡◌, IfErr, IfOk, List, OnOk};
ghost use Rattle.syn_error.specs.Faults.{IsSyntax};
ghost use Rattle.syn_input.specs.Input.{IsOnward, rest};

use crate::input::ParseBuffer;
use syn_error::fault::ParseFault;

/// A type of syntax, which is read from a stream.
///
/// The ghost members are its grammar: which values are read from tokens, with which tokens left behind them,
/// and from which tokens none is read.
pub trait Parse: Drop {
    /// The value is read from the tokens, and the last ones are left.
    ghost reads: { List Spanned → Self → List Spanned → Type 0 };

    /// No value is read from the tokens.
    ghost refuses: { List Spanned → Type 0 };

    /// Reads a value, and leaves the stream behind it.
    ///
    /// The fault is that none stands there; the stream is then at its start or past it. Want of memory says
    /// nothing of the tokens.
    fn parse(input: &mut ParseBuffer<'_>) -> Result<Self, ParseFault>
        ensures found { IfOk result (λ x. reads (rest input.old) x (rest input.new)) }
        ensures none { IfErr result (λ e. IsSyntax e → refuses (rest input.old)) }
        ensures noted { OnOk result (input.new.noted ≡ input.old.noted) }
        ensures onward { IsOnward input.old input.new };
}

impl<'a> ParseBuffer<'a> {
    /// Reads a value of that type, and leaves the stream behind it.
    ///
    /// The fault is that none stands there; the stream is then at its start or past it. Want of memory says nothing of
    /// the tokens.
    pub fn parse<T: Parse>(&mut self) -> Result<T, ParseFault>
        ensures found { IfOk result (λ x. T.reads (rest self.old) x (rest self.new)) }
        ensures none { IfErr result (λ e. IsSyntax e → T.refuses (rest self.old)) }
        ensures noted { OnOk result (self.new.noted ≡ self.old.noted) }
        ensures onward { IsOnward self.old self.new }
    {
        T::parse(self)
    }
}
