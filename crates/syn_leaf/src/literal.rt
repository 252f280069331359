//! Literals.

ghost use Rattle.proc_macro2.specs.Flat.{spanned};
ghost use Rattle.proc_macro2.specs.Token as token;
ghost use Rattle.rust_leaf.specs.Leaf.{literal_span, literal_text};
ghost use Rattle.rust_lex.specs.declared.piece.LiteralKind.{LiteralKind};
ghost use Rattle.std.specs.Cmp.Lexicographic.{nat_list_eq_equiv};
ghost use Rattle.std.specs.Cmp.{on_equiv, on_per, partial_equiv_from_equiv};
ghost use Rattle.std.specs.Prelude.{[], ◌++◌, ◌∷◌, ◌≡◌};
ghost use Rattle.std.specs.Str.{bytes_eq, chars};
ghost use Rattle.syn_leaf.specs.Kinds.{IsKind};
ghost use Rattle.syn_leaf.specs.Quoted.{HasSuffix};

use proc_macro2::tree::TokenStream;
use rust_leaf::literal::Literal;
use rust_lex::piece::LiteralKind;
use rust_map::span::Span;
use std::alloc::AllocError;
use std::marker::PhantomData;
use syn_error::to_tokens::ToTokens;
use try_clone::TryClone;

/// A class of literals.
pub trait LitClass {
    ghost kind: { LiteralKind };

    /// Which literals are of the class.
    fn kind() -> LiteralKind
        ensures { result ≡ kind };

    /// What messages call a literal of the class.
    fn display() -> &'static str;

    /// The suffix of the text of a literal of the class, or nothing.
    fn suffix_of(text: &str) -> &str
        requires { IsKind kind (chars text.now) }
        ensures { HasSuffix kind (chars text.now) (chars result.now) };
}

/// A literal of a class, with its suffix. Two of them are equal by their texts, wherever they stand.
#[derive(Drop)]
pub struct LitToken<C: LitClass> {
    token: Literal,
    class: PhantomData<C>,
    ghost is_of_class: { ∥ IsKind C.kind (literal_text token) ∥₁ },
}

impl<C: LitClass> LitToken<C> {
    /// The literal, which is one of the class.
    pub(crate) fn held(token: Literal) -> LitToken<C>
        requires { IsKind C.kind (literal_text token) }
        ensures text_is { literal_text result.token ≡ literal_text token }
        ensures span_is { literal_span result.token ≡ literal_span token }
    {
        LitToken {
            token,
            class: PhantomData,
        }
    }

    /// The token.
    pub fn token(&self) -> &Literal
        ensures text_is { literal_text result.now ≡ literal_text self.now.token }
        ensures span_is { literal_span result.now ≡ literal_span self.now.token }
    {
        &self.token
    }

    /// Its suffix, as `u8` of `1u8`, or nothing: the identifier directly behind it, by the lexical rules.
    pub fn suffix(&self) -> &str
        ensures { HasSuffix C.kind (literal_text self.now.token) (chars result.now) }
    {
        C::suffix_of(self.token().as_str())
    }

    /// Where it stands.
    pub fn span(&self) -> Span
        ensures { result ≡ literal_span self.now.token }
    {
        self.token.span()
    }

    /// Sets where it stands, and nothing else.
    pub fn set_span(&mut self, span: Span)
        ensures span_is { literal_span self.new.token ≡ span }
        ensures text_stays { literal_text self.new.token ≡ literal_text self.old.token }
    {
        self.token.set_span(span);
    }
}

#[tactic(auto, using(crate::proofs::Texts::same_texts))]
impl<C: LitClass> PartialEq for LitToken<C> {
    ghost eq = { λ a b. bytes_eq (literal_text a.token) (literal_text b.token) };

    ghost laws = { on_per (λ l. literal_text l.token) (partial_equiv_from_equiv nat_list_eq_equiv) };

    fn eq(&self, other: &LitToken<C>) -> bool {
        self.token.as_str() == other.token.as_str()
    }
}

impl<C: LitClass> Eq for LitToken<C> {
    ghost laws = { on_equiv (λ l. literal_text l.token) nat_list_eq_equiv };
}

#[tactic(auto, using(crate::proofs::OfClass::entered_class))]
impl<C: LitClass> ToTokens for LitToken<C> {
    ghost puts = { λ l old new. new ≡ old ++ spanned (token.Literal (literal_text l.token)) (literal_span l.token)
        ∷ [] };

    fn to_tokens(&self, tokens: &mut TokenStream) -> Result<(), AllocError> {
        self.token.to_tokens(tokens)
    }
}

impl<C: LitClass> TryClone for LitToken<C> {
    ghost use Rattle.std.specs.Prelude.{List, ℕ};
    ghost use Rattle.rust_map.specs.declared.span.Span.{Span as Place};

    ghost Shown = { List ℕ × Place };

    ghost shown = { λ l. (literal_text l.token, literal_span l.token) };

    fn try_clone(&self) -> Result<LitToken<C>, AllocError> {
        Ok(LitToken {
            token: self.token.try_clone()?,
            class: PhantomData,
        })
    }
}
