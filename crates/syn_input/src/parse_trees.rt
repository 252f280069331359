//! Reading what holds other syntax.

use crate::input::ParseBuffer;
use crate::parse::Parse;
use syn_error::fault::ParseFault;
use syn_peek::token::Token;

impl<T: Parse> Parse for Box<T> {
    ghost reads = { λ ts b us. T.reads ts b.value us };

    ghost refuses = { T.refuses };

    fn parse(input: &mut ParseBuffer<'_>) -> Result<Box<T>, ParseFault> {
        let alloc = input.allocator();
        let value = T::parse(input)?;
        Ok(Box::new(alloc, value)?)
    }
}

impl<T: Parse + Token> Parse for Option<T> {
    ghost use Rattle.std.specs.Prelude.{◌≡◌, true};
    ghost use Rattle.proc_macro2.specs.Token.{plain};
    ghost use Rattle.syn_input.specs.Reads.{optional};

    ghost reads = { optional T.stands T.reads };

    ghost refuses = { λ ts. (T.stands (plain ts) ≡ true) × T.refuses ts };

    fn parse(input: &mut ParseBuffer<'_>) -> Result<Option<T>, ParseFault> {
        if input.peek::<T>() {
            let value = T::parse(input)?;
            return Ok(Some(value));
        }
        Ok(None)
    }
}
