//! What lifetimes have besides.

ghost use Rattle.std.specs.Prelude.{◌≡◌, IfErr, IfOk, OnOk};
ghost use Rattle.syn_error.specs.Faults.{IsSyntax};
ghost use Rattle.syn_input.specs.Input.{IsOnward, rest};

use crate::input::ParseBuffer;
use crate::parse::Parse;
use syn_error::fault::ParseFault;
use syn_kinds::Lifetime;

/// What a lifetime has besides. It is a trait, since `Lifetime` stands below the streams that are read.
pub trait LifetimeExt: Parse {
    /// Reads any lifetime, also of a keyword or of `_`, as `parse` does.
    ///
    /// The fault is that none stands there, or that memory for the copy or for the message was refused.
    final fn parse_any(input: &mut ParseBuffer<'_>) -> Result<Self, ParseFault>
        ensures found { IfOk result (λ x. Self.reads (rest input.old) x (rest input.new)) }
        ensures none { IfErr result (λ e. IsSyntax e → Self.refuses (rest input.old)) }
        ensures noted { OnOk result (input.new.noted ≡ input.old.noted) }
        ensures onward { IsOnward input.old input.new }
    {
        Self::parse(input)
    }
}

impl LifetimeExt for Lifetime {}
