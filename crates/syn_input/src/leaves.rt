//! Names, marks, literals and lifetimes: reading them.

use crate::input::ParseBuffer;
use crate::parse::Parse;
use rust_leaf::ident::Ident;
use rust_leaf::literal::Literal;
use rust_leaf::punct::Punct;
use syn_error::fault::ParseFault;
use syn_kinds::Lifetime;
use syn_kinds::table::is_reserved;
use try_clone::TryClone;

impl Parse for Literal {
    ghost use Rattle.std.specs.Prelude.{◌∷◌, ◌≡◌, false};
    ghost use Rattle.proc_macro2.specs.Token.{plain};
    ghost use Rattle.syn_buffer.specs.Leaves.{literal_token};
    ghost use Rattle.syn_kinds.specs.Stands.{literal_stands};

    ghost reads = { λ ts x us. ts ≡ literal_token x ∷ us };

    ghost refuses = { λ ts. literal_stands (plain ts) ≡ false };

    fn parse(input: &mut ParseBuffer<'_>) -> Result<Literal, ParseFault> {
        match input.cursor.literal() {
            Some((literal, behind)) => {
                let copy = literal.try_clone()?;
                input.cursor = behind;
                Ok(copy)
            }
            None => Err(input.expected("literal")),
        }
    }
}

// An apostrophe is no punctuation: it begins a lifetime.
impl Parse for Punct {
    ghost use Rattle.std.specs.Prelude.{◌∷◌, ◌≡◌, false, true};
    ghost use Rattle.proc_macro2.specs.Token.{plain};
    ghost use Rattle.syn_buffer.specs.Leaves.{punct_token};
    ghost use Rattle.syn_buffer.specs.Stands.{punct_stands};

    ghost reads = { λ ts x us. (ts ≡ punct_token x ∷ us) × (punct_stands (plain ts) ≡ true) };

    ghost refuses = { λ ts. punct_stands (plain ts) ≡ false };

    fn parse(input: &mut ParseBuffer<'_>) -> Result<Punct, ParseFault> {
        match input.cursor.punct() {
            Some((punct, behind)) => {
                input.cursor = behind;
                Ok(punct)
            }
            None => Err(input.expected("punctuation token")),
        }
    }
}

impl Parse for Ident {
    ghost use Rattle.proc_macro2.specs.Token.{plain};
    ghost use Rattle.rust_leaf.specs.Leaf.{ident_text};
    ghost use Rattle.std.specs.Prelude.{◌∷◌, ◌≡◌, false};
    ghost use Rattle.syn_kinds.specs.Stands.{ident_stands};
    ghost use Rattle.rust_leaf.specs.Keywords.{is_reserved};
    ghost use Rattle.syn_buffer.specs.Leaves.{ident_token};

    ghost reads = { λ ts x us. (ts ≡ ident_token x ∷ us) × (is_reserved (ident_text x) ≡ false) };

    ghost refuses = { λ ts. ident_stands (plain ts) ≡ false };

    fn parse(input: &mut ParseBuffer<'_>) -> Result<Ident, ParseFault> {
        match input.cursor.ident() {
            Some((ident, behind)) if !is_reserved(ident) => {
                let copy = ident.try_clone()?;
                input.cursor = behind;
                Ok(copy)
            }
            _ => Err(input.expected("identifier")),
        }
    }
}

impl Parse for Lifetime {
    ghost use Rattle.proc_macro2.specs.Token.{plain};
    ghost use Rattle.std.specs.Prelude.{◌≡◌, false};
    ghost use Rattle.syn_kinds.specs.Stands.{lifetime_stands};
    ghost use Rattle.syn_buffer.specs.Lifetimes.{ReadsLifetime};

    ghost reads = { λ ts x us. ReadsLifetime ts x.apostrophe x.ident us };

    ghost refuses = { λ ts. lifetime_stands (plain ts) ≡ false };

    fn parse(input: &mut ParseBuffer<'_>) -> Result<Lifetime, ParseFault> {
        match input.cursor.lifetime()? {
            Some((lifetime, behind)) => {
                input.cursor = behind;
                Ok(lifetime)
            }
            None => Err(input.expected("lifetime")),
        }
    }
}
