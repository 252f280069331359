//! Literals of every class.

ghost use Rattle.proc_macro2.specs.Flat.{spanned};
ghost use Rattle.proc_macro2.specs.Token as tokens;
ghost use Rattle.rust_leaf.specs.Leaf.{literal_span, literal_text};
ghost use Rattle.rust_lex.specs.declared.piece.LiteralKind.{LiteralKind};
ghost use Rattle.std.specs.Prelude.{◌++◌, ◌≡◌, ◌↔◌, Some};
ghost use Rattle.std.specs.Cmp.Lexicographic.{nat_list_eq_equiv};
ghost use Rattle.std.specs.Cmp.{on_equiv, on_per, partial_equiv_from_equiv};
ghost use Rattle.std.specs.Str.{bytes_eq, chars};
ghost use Rattle.syn_leaf.specs.Kinds.{IsKind};
ghost use Rattle.syn_leaf.specs.Lits.{HasLitSuffix, lit_kind, lit_span, lit_text, lit_token, lit_tokens};

use crate::boolean::LitBool;
use crate::classes::{IsByte, IsByteStr, IsCStr, IsChar, IsFloat, IsInt, IsStr};
use crate::kind::kind_of;
use crate::literal::LitToken;
use proc_macro2::tree::TokenStream;
use rust_leaf::literal::Literal;
use rust_lex::piece::LiteralKind;
use rust_map::span::Span;
use std::alloc::AllocError;
use syn_error::to_tokens::ToTokens;
use try_clone::TryClone;

/// A string, `".."` or `r".."`.
pub type LitStr = LitToken<IsStr>;

/// A byte string, `b".."` or `br".."`.
pub type LitByteStr = LitToken<IsByteStr>;

/// A C string, `c".."` or `cr".."`.
pub type LitCStr = LitToken<IsCStr>;

/// A byte, `b'.'`.
pub type LitByte = LitToken<IsByte>;

/// A character, `'.'`.
pub type LitChar = LitToken<IsChar>;

/// An integer: a number without a fraction and without an exponent, whatever its suffix is.
pub type LitInt = LitToken<IsInt>;

/// A number with a fraction or an exponent.
pub type LitFloat = LitToken<IsFloat>;

/// A literal.
#[derive(Drop)]
pub enum Lit {
    /// A string, `".."` or `r".."`.
    Str(LitStr),
    /// A byte string, `b".."` or `br".."`.
    ByteStr(LitByteStr),
    /// A C string, `c".."` or `cr".."`.
    CStr(LitCStr),
    /// A byte, `b'.'`.
    Byte(LitByte),
    /// A character, `'.'`.
    Char(LitChar),
    /// An integer: a number without a fraction and without an exponent, whatever its suffix is.
    Int(LitInt),
    /// A number with a fraction or an exponent.
    Float(LitFloat),
    /// `true` or `false`.
    Bool(LitBool),
    /// A literal token that is none of the others: a number behind a minus. It is made by hand alone.
    Verbatim(Literal),
}

#[tactic(auto, using(crate::proofs::Spellings::no_word))]
impl Lit {
    /// The literal that a token is.
    pub fn new(token: Literal) -> Lit
        ensures token_is { lit_token result ≡ spanned (tokens.Literal (literal_text token)) (literal_span token) }
        ensures text_is { lit_text result ≡ literal_text token }
        ensures span_is { lit_span result ≡ literal_span token }
        ensures kind { (kind : LiteralKind) → (lit_kind result ≡ Some kind) ↔ IsKind kind (literal_text token) }
    {
        match kind_of(token.as_str()) {
            Some(LiteralKind::Str) => Lit::Str(LitToken::held(token)),
            Some(LiteralKind::ByteStr) => Lit::ByteStr(LitToken::held(token)),
            Some(LiteralKind::CStr) => Lit::CStr(LitToken::held(token)),
            Some(LiteralKind::Byte) => Lit::Byte(LitToken::held(token)),
            Some(LiteralKind::Char) => Lit::Char(LitToken::held(token)),
            Some(LiteralKind::Int) => Lit::Int(LitToken::held(token)),
            Some(LiteralKind::Float) => Lit::Float(LitToken::held(token)),
            None => Lit::Verbatim(token),
        }
    }

    /// Its text, suffix included.
    pub fn as_str(&self) -> &str
        ensures { chars result.now ≡ lit_text self.now }
    {
        match self {
            Lit::Str(literal) => literal.token().as_str(),
            Lit::ByteStr(literal) => literal.token().as_str(),
            Lit::CStr(literal) => literal.token().as_str(),
            Lit::Byte(literal) => literal.token().as_str(),
            Lit::Char(literal) => literal.token().as_str(),
            Lit::Int(literal) => literal.token().as_str(),
            Lit::Float(literal) => literal.token().as_str(),
            Lit::Bool(literal) => literal.text(),
            Lit::Verbatim(literal) => literal.as_str(),
        }
    }

    /// Its suffix, or nothing. Of `true`, `false` and a number behind a minus it is nothing.
    pub fn suffix(&self) -> &str
        ensures { HasLitSuffix self.now (chars result.now) }
    {
        match self {
            Lit::Str(literal) => literal.suffix(),
            Lit::ByteStr(literal) => literal.suffix(),
            Lit::CStr(literal) => literal.suffix(),
            Lit::Byte(literal) => literal.suffix(),
            Lit::Char(literal) => literal.suffix(),
            Lit::Int(literal) => literal.suffix(),
            Lit::Float(literal) => literal.suffix(),
            Lit::Bool(_) | Lit::Verbatim(_) => "",
        }
    }

    /// Where it stands.
    pub fn span(&self) -> Span
        ensures { result ≡ lit_span self.now }
    {
        match self {
            Lit::Str(literal) => literal.span(),
            Lit::ByteStr(literal) => literal.span(),
            Lit::CStr(literal) => literal.span(),
            Lit::Byte(literal) => literal.span(),
            Lit::Char(literal) => literal.span(),
            Lit::Int(literal) => literal.span(),
            Lit::Float(literal) => literal.span(),
            Lit::Bool(literal) => literal.span,
            Lit::Verbatim(literal) => literal.span(),
        }
    }
}

/// Two literals are equal by their texts, wherever they stand.
#[tactic(auto, using(crate::proofs::Texts::same_texts))]
impl PartialEq for Lit {
    ghost eq = { λ a b. bytes_eq (lit_text a) (lit_text b) };

    ghost laws = { on_per lit_text (partial_equiv_from_equiv nat_list_eq_equiv) };

    fn eq(&self, other: &Lit) -> bool {
        self.as_str() == other.as_str()
    }
}

impl Eq for Lit {
    ghost laws = { on_equiv lit_text nat_list_eq_equiv };
}

impl ToTokens for Lit {
    ghost puts = { λ lit old new. new ≡ old ++ lit_tokens lit };

    fn to_tokens(&self, tokens: &mut TokenStream) -> Result<(), AllocError> {
        match self {
            Lit::Str(literal) => literal.to_tokens(tokens),
            Lit::ByteStr(literal) => literal.to_tokens(tokens),
            Lit::CStr(literal) => literal.to_tokens(tokens),
            Lit::Byte(literal) => literal.to_tokens(tokens),
            Lit::Char(literal) => literal.to_tokens(tokens),
            Lit::Int(literal) => literal.to_tokens(tokens),
            Lit::Float(literal) => literal.to_tokens(tokens),
            Lit::Bool(literal) => literal.to_tokens(tokens),
            Lit::Verbatim(literal) => literal.to_tokens(tokens),
        }
    }
}

impl TryClone for Lit {
    ghost use Rattle.std.specs.Prelude.{List, Option, ℕ};
    ghost use Rattle.rust_map.specs.declared.span.Span.{Span as Place};

    ghost Shown = { Option LiteralKind × List ℕ × Place };

    ghost shown = { λ lit. (lit_kind lit, lit_text lit, lit_span lit) };

    fn try_clone(&self) -> Result<Lit, AllocError> {
        Ok(match self {
            Lit::Str(literal) => Lit::Str(literal.try_clone()?),
            Lit::ByteStr(literal) => Lit::ByteStr(literal.try_clone()?),
            Lit::CStr(literal) => Lit::CStr(literal.try_clone()?),
            Lit::Byte(literal) => Lit::Byte(literal.try_clone()?),
            Lit::Char(literal) => Lit::Char(literal.try_clone()?),
            Lit::Int(literal) => Lit::Int(literal.try_clone()?),
            Lit::Float(literal) => Lit::Float(literal.try_clone()?),
            Lit::Bool(literal) => Lit::Bool(*literal),
            Lit::Verbatim(literal) => Lit::Verbatim(literal.try_clone()?),
        })
    }
}

impl From<LitStr> for Lit {
    ghost use Rattle.syn_leaf.specs.declared.lit.Lit.TheVariants.{Str};

    ghost from_gives = { λ literal lit. lit ≡ Str literal };

    fn from(literal: LitStr) -> Lit {
        Lit::Str(literal)
    }
}

impl From<LitByteStr> for Lit {
    ghost use Rattle.syn_leaf.specs.declared.lit.Lit.TheVariants.{ByteStr};

    ghost from_gives = { λ literal lit. lit ≡ ByteStr literal };

    fn from(literal: LitByteStr) -> Lit {
        Lit::ByteStr(literal)
    }
}

impl From<LitCStr> for Lit {
    ghost use Rattle.syn_leaf.specs.declared.lit.Lit.TheVariants.{CStr};

    ghost from_gives = { λ literal lit. lit ≡ CStr literal };

    fn from(literal: LitCStr) -> Lit {
        Lit::CStr(literal)
    }
}

impl From<LitByte> for Lit {
    ghost use Rattle.syn_leaf.specs.declared.lit.Lit.TheVariants.{Byte};

    ghost from_gives = { λ literal lit. lit ≡ Byte literal };

    fn from(literal: LitByte) -> Lit {
        Lit::Byte(literal)
    }
}

impl From<LitChar> for Lit {
    ghost use Rattle.syn_leaf.specs.declared.lit.Lit.TheVariants.{Char};

    ghost from_gives = { λ literal lit. lit ≡ Char literal };

    fn from(literal: LitChar) -> Lit {
        Lit::Char(literal)
    }
}

impl From<LitInt> for Lit {
    ghost use Rattle.syn_leaf.specs.declared.lit.Lit.TheVariants.{Int};

    ghost from_gives = { λ literal lit. lit ≡ Int literal };

    fn from(literal: LitInt) -> Lit {
        Lit::Int(literal)
    }
}

impl From<LitFloat> for Lit {
    ghost use Rattle.syn_leaf.specs.declared.lit.Lit.TheVariants.{Float};

    ghost from_gives = { λ literal lit. lit ≡ Float literal };

    fn from(literal: LitFloat) -> Lit {
        Lit::Float(literal)
    }
}

impl From<LitBool> for Lit {
    ghost use Rattle.syn_leaf.specs.declared.lit.Lit.TheVariants.{Bool};

    ghost from_gives = { λ literal lit. lit ≡ Bool literal };

    fn from(literal: LitBool) -> Lit {
        Lit::Bool(literal)
    }
}
