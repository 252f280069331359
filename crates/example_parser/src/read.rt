//! Reads the small language.

ghost use Rattle.example_parser.specs.Lines.{ReadsLines};
ghost use Rattle.std.specs.Prelude.{IfOk};
ghost use Rattle.syn_parse.specs.Input.{rest};
ghost use Rattle.syn_parse.specs.Lists.{separators, values};

use crate::line::{Definition, Import, Line, Value};
use syn_parse::{Delimiter, Ident, Literal, Parse, ParseBuffer, ParseFault, Punctuated, token};

// What a line is read from is said by `reads`. Of what is refused nothing more is said here than that reading
// stopped: see `docs/PARSING.md` on `refuses`.
impl Parse for Line {
    ghost use Rattle.example_parser.specs.Lines.{ReadsLine};

    ghost reads = { ReadsLine };

    ghost refuses = { λ _. Unit {0} };

    fn parse(input: &mut ParseBuffer<'_>) -> Result<Line, ParseFault> {
        let mut look = input.lookahead1();
        if look.peek::<token::Let>()? {
            return Ok(Line::Definition(input.parse::<Definition>()?));
        }
        if look.peek::<token::Use>()? {
            return Ok(Line::Import(input.parse::<Import>()?));
        }
        Err(look.error())
    }
}

impl Parse for Definition {
    ghost use Rattle.example_parser.specs.Lines.{ReadsDefinition};

    ghost reads = { ReadsDefinition };

    ghost refuses = { λ _. Unit {0} };

    fn parse(input: &mut ParseBuffer<'_>) -> Result<Definition, ParseFault> {
        let let_token = input.parse::<token::Let>()?;
        let ident = input.parse::<Ident>()?;
        let eq_token = input.parse::<token::Eq>()?;
        let value = input.parse::<Value>()?;
        Ok(Definition {
            let_token,
            ident,
            eq_token,
            value,
        })
    }
}

impl Parse for Value {
    ghost use Rattle.example_parser.specs.Lines.{ReadsValue};

    ghost reads = { ReadsValue };

    ghost refuses = { λ _. Unit {0} };

    fn parse(input: &mut ParseBuffer<'_>) -> Result<Value, ParseFault> {
        let mut look = input.lookahead1();
        if look.peek::<Literal>()? {
            return Ok(Value::Number(input.parse::<Literal>()?));
        }
        if look.peek::<token::Bracket>()? {
            let (_, mut content) = input.parse_group(Delimiter::Bracket)?;
            let numbers = Punctuated::parse_terminated(&mut content)?;
            input.close(content);
            return Ok(Value::List(numbers));
        }
        Err(look.error())
    }
}

impl Parse for Import {
    ghost use Rattle.example_parser.specs.Lines.{ReadsImport};

    ghost reads = { ReadsImport };

    ghost refuses = { λ _. Unit {0} };

    fn parse(input: &mut ParseBuffer<'_>) -> Result<Import, ParseFault> {
        let use_token = input.parse::<token::Use>()?;
        let names = Punctuated::parse_separated_nonempty(input)?;
        Ok(Import { use_token, names })
    }
}

/// The lines of a stream, to its end, each with its `;`.
pub fn lines(input: &mut ParseBuffer<'_>) -> Result<Punctuated<Line, token::Semi>, ParseFault>
    ensures { IfOk result (λ lines. ReadsLines (rest input.old) (values lines) (separators lines)) }
{
    let lines = Punctuated::<Line, token::Semi>::parse_terminated(input)?;
    if lines.empty_or_trailing() {
        return Ok(lines);
    }
    Err(input.expected_mark(token::Semi::display()))
}
