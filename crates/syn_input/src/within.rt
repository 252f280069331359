//! Groups that are read by a function.

ghost use Rattle.proc_macro2.specs.Trees.{delim_span_of};
ghost use Rattle.std.specs.Fn.{FnOnceReturnsAtMut};
ghost use Rattle.std.specs.Prelude.{Err, Ok, ◌≡◌, IfErr, IfOk, false};
ghost use Rattle.syn_error.specs.Faults.{IsSyntax};
ghost use Rattle.syn_kinds.specs.Stands.{group_stands};
ghost use Rattle.syn_input.specs.Input.{left};
ghost use Rattle.syn_input.specs.Within.{Within, WithinRefused};

use crate::input::ParseBuffer;
use proc_macro2::delimiter::Delimiter;
use proc_macro2::group::DelimSpan;
use syn_error::fault::ParseFault;

impl<'a> ParseBuffer<'a> {
    /// Reads the inside of the visible group with that delimiter by the function, and closes the group on both
    /// outcomes: what is left over in it is refused at the end of the whole parse. The function must be one that may be
    /// called on any stream.
    ///
    /// The fault is that no such group stands there, and then nothing has been read, or the function's own.
    pub fn within<T, F: FnOnce(&mut ParseBuffer<'a>) -> Result<T, ParseFault>>(
        &mut self,
        delimiter: Delimiter,
        parser: F,
    ) -> Result<(DelimSpan, T), ParseFault>
        requires { F.IsAlwaysCallable parser }
        ensures read { IfOk result (λ r.
            Within (λ i e. FnOnceReturnsAtMut F.FnOnce parser i (Ok r.1) e) delimiter r.0.join self.old self.new) }
        ensures refused { IfErr result (λ f.
            WithinRefused (λ i e. FnOnceReturnsAtMut F.FnOnce parser i (Err f) e) delimiter self.old f self.new) }
    {
        let (span, mut content) = match self.parse_group(delimiter) {
            Ok(entered) => entered,
            Err(fault) => return Err(fault),
        };
        let answer = content.call(parser);
        self.close(content);
        match answer {
            Ok(value) => Ok((span, value)),
            Err(fault) => Err(fault),
        }
    }
}
