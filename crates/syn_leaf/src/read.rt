//! Reading literals and members, and looking for literals.

ghost use Rattle.proc_macro2.specs.Token.{plain};
ghost use Rattle.rust_leaf.specs.Leaf.{literal_text};
ghost use Rattle.std.specs.Prelude.{◌∷◌, ◌≡◌, ◌↔◌, IfNone, IfSome, IsTrue, false, ℕ};
ghost use Rattle.std.specs.Str.{chars};
ghost use Rattle.syn_kinds.specs.Stands.{ident_stands, lit_stands};
ghost use Rattle.syn_leaf.specs.Kinds.{IsKind, is_kind, kind_stands};
ghost use Rattle.syn_leaf.specs.Reading.{IsPlain, LacksClass, LacksIndex, ReadsIndex};
ghost use Rattle.syn_leaf.specs.Reading.{ReadsLit, ReadsMember, bool_stands};
ghost use Rattle.syn_parse.specs.Leaves.{literal_token};

use crate::boolean::{FALSE, LitBool, TRUE};
use crate::classes::IsInt;
use crate::kind::kind_of;
use crate::lit::{Lit, LitInt};
use crate::literal::{LitClass, LitToken};
use crate::member::{Index, Member};
use rust_leaf::ident::Ident;
use rust_leaf::literal::Literal;
use syn_error::fault::ParseFault;
use syn_kinds::keyword::Keyword;
use syn_parse::{Cursor, Parse, ParseBuffer, Token};

// Whether all of the text is a literal of the class.
fn is_of_class<C: LitClass>(text: &str) -> bool
    ensures { IsTrue result ↔ IsKind C.kind (chars text.now) }
{
    kind_of(text) == Some(C::kind())
}

// The same, by the test of a kind.
fn passes<C: LitClass>(text: &str) -> bool
    ensures { result ≡ is_kind C.kind (chars text.now) }
{
    is_of_class::<C>(text)
}

#[tactic(auto, using(crate::proofs::OfClass::first_is, crate::proofs::OfClass::none_first))]
impl<C: LitClass> Token for LitToken<C> {
    ghost stands = { kind_stands C.kind };

    fn peek(cursor: Cursor<'_>) -> bool {
        match cursor.literal() {
            Some((literal, _)) => passes::<C>(literal.as_str()),
            None => false,
        }
    }

    fn display() -> &'static str {
        C::display()
    }
}

#[tactic(auto, using(crate::proofs::Reading::no_literal, crate::proofs::Reading::other_class))]
impl<C: LitClass> Parse for LitToken<C> {
    ghost reads = { λ ts l us. (ts ≡ literal_token l.token ∷ us) × IsKind C.kind (literal_text l.token) };

    ghost refuses = { LacksClass C.kind };

    fn parse(input: &mut ParseBuffer<'_>) -> Result<LitToken<C>, ParseFault> {
        if !input.peek::<Literal>() {
            return Err(input.expected(C::display()));
        }
        let head = input.fork();
        let token = input.parse::<Literal>()?;
        if is_of_class::<C>(token.as_str()) {
            Ok(LitToken::held(token))
        } else {
            Err(head.expected(C::display()))
        }
    }
}

#[tactic(auto, unfolding(syn_kinds::specs::Table::word))]
impl Token for LitBool {
    ghost stands = { bool_stands };

    fn peek(cursor: Cursor<'_>) -> bool {
        Keyword::<TRUE>::peek(cursor) || Keyword::<FALSE>::peek(cursor)
    }

    fn display() -> &'static str {
        "boolean literal"
    }
}

#[tactic(auto, unfolding(syn_kinds::specs::Table::word))]
impl Parse for LitBool {
    ghost use Rattle.proc_macro2.specs.Flat.{spanned};
    ghost use Rattle.proc_macro2.specs.Token as token;
    ghost use Rattle.syn_leaf.specs.Booleans.{bool_text};

    ghost reads = { λ ts x us. ts ≡ spanned (token.Ident (bool_text x.value)) x.span ∷ us };

    ghost refuses = { λ ts. bool_stands (plain ts) ≡ false };

    fn parse(input: &mut ParseBuffer<'_>) -> Result<LitBool, ParseFault> {
        if input.peek::<Keyword<TRUE>>() {
            let word = input.parse::<Keyword<TRUE>>()?;
            return Ok(LitBool::new(true, word.span));
        }
        if input.peek::<Keyword<FALSE>>() {
            let word = input.parse::<Keyword<FALSE>>()?;
            return Ok(LitBool::new(false, word.span));
        }
        Err(input.expected(LitBool::display()))
    }
}

impl Token for Lit {
    ghost stands = { lit_stands };

    fn peek(cursor: Cursor<'_>) -> bool {
        Literal::peek(cursor) || LitBool::peek(cursor)
    }

    fn display() -> &'static str {
        "literal"
    }
}

#[tactic(auto, using(crate::proofs::Reading::lit_read))]
impl Parse for Lit {
    ghost reads = { ReadsLit };

    ghost refuses = { λ ts. lit_stands (plain ts) ≡ false };

    fn parse(input: &mut ParseBuffer<'_>) -> Result<Lit, ParseFault> {
        if input.peek::<Literal>() {
            return Ok(Lit::new(input.parse::<Literal>()?));
        }
        if input.peek::<LitBool>() {
            return Ok(Lit::Bool(input.parse::<LitBool>()?));
        }
        Err(input.expected(Lit::display()))
    }
}

// The largest index.
const MAX: u128 = 0xFFFF_FFFF;

// The number that an integer without a suffix writes, if it is an index.
fn index_of(literal: &LitInt) -> Option<u32>
    ensures some { IfSome result (λ index. IsPlain (literal_text literal.now.token) index) }
    ensures none { IfNone result ((number : ℕ) → IsPlain (literal_text literal.now.token) number → ⊥) }
{
    if !literal.behind_digits().is_empty() {
        return None;
    }
    let value = literal.value()?;
    if value <= MAX {
        Some(value as u32)
    } else {
        None
    }
}

#[tactic(auto, using(crate::proofs::Reading::no_index, crate::proofs::Reading::other_index))]
impl Parse for Index {
    ghost reads = { ReadsIndex };

    ghost refuses = { LacksIndex };

    fn parse(input: &mut ParseBuffer<'_>) -> Result<Index, ParseFault> {
        let head = input.fork();
        let literal = input.parse::<LitToken<IsInt>>()?;
        match index_of(&literal) {
            Some(index) => Ok(Index {
                index,
                span: literal.span(),
            }),
            None => Err(head.expected("unsuffixed integer")),
        }
    }
}

#[tactic(auto, using(crate::proofs::Reading::no_index, crate::proofs::Reading::no_literal))]
impl Parse for Member {
    ghost reads = { ReadsMember };

    ghost refuses = { λ ts. (ident_stands (plain ts) ≡ false) × LacksIndex ts };

    fn parse(input: &mut ParseBuffer<'_>) -> Result<Member, ParseFault> {
        if input.peek::<Ident>() {
            return Ok(Member::Named(input.parse::<Ident>()?));
        }
        if input.peek::<Literal>() {
            return Ok(Member::Unnamed(input.parse::<Index>()?));
        }
        Err(input.expected("identifier or integer"))
    }
}
