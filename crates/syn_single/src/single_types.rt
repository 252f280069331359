//! Forms of types, and of what stands in an attribute, each read as a single form.

ghost use Rattle.reader_table.specs.Kinds.{kind_of};
ghost use Rattle.std.specs.Prelude.{◌≡◌, false, true};
ghost use Rattle.syn_ast.specs.Attributes.{meta};
ghost use Rattle.syn_ast.specs.Types.{type_array, type_paren, type_slice, type_tuple};
ghost use Rattle.syn_ast.specs.declared.attributes.Meta.TheVariants as metas;
ghost use Rattle.syn_grammar.specs.Kind as k;
ghost use Rattle.syn_single.specs.Meant.{has_length, has_tokens, has_value, is_lone_type};

use crate::single::ParseSingle;
use reader_table::kind::Kind;
use reader_tree::tree::Tree;
use syn_ast::attributes::{Meta, MetaList, MetaNameValue};
use syn_ast::types::{
    TypeArray, TypeBracketed, TypeParen, TypeParenthesized, TypeSlice, TypeTuple,
};

impl<'a> ParseSingle<'a> for TypeArray<'a, 'a> {
    ghost kind = { k.BracketType };

    ghost is_meant = { λ tree. has_length tree ≡ true };

    ghost says = { λ x tree. tree ≡ type_array x };

    fn kind() -> Kind
        ensures { kind_of result ≡ k.BracketType }
    {
        Kind::BracketType
    }

    fn refusal() -> &'a str {
        "expected `;` and the length of an array"
    }

    #[tactic(auto, using(syn_part::proofs::Derived::shaped))]
    fn view(tree: &'a Tree<'a>) -> Option<TypeArray<'a, 'a>> {
        match TypeBracketed::of(tree) {
            Some(found) => match found.len {
                Some(len) => Some(TypeArray {
                    bracket_token: found.bracket_token,
                    elem: found.elem,
                    semi_token: len.mark,
                    len: len.node,
                }),
                None => None,
            },
            None => None,
        }
    }
}

impl<'a> ParseSingle<'a> for TypeSlice<'a, 'a> {
    ghost kind = { k.BracketType };

    ghost is_meant = { λ tree. has_length tree ≡ false };

    ghost says = { λ x tree. tree ≡ type_slice x };

    fn kind() -> Kind
        ensures { kind_of result ≡ k.BracketType }
    {
        Kind::BracketType
    }

    fn refusal() -> &'a str {
        "expected slice"
    }

    #[tactic(auto, using(syn_part::proofs::Derived::shaped))]
    fn view(tree: &'a Tree<'a>) -> Option<TypeSlice<'a, 'a>> {
        match TypeBracketed::of(tree) {
            Some(found) => match found.len {
                Some(_) => None,
                None => Some(TypeSlice {
                    bracket_token: found.bracket_token,
                    elem: found.elem,
                }),
            },
            None => None,
        }
    }
}

impl<'a> ParseSingle<'a> for TypeParen<'a, 'a> {
    ghost kind = { k.TupleType };

    ghost is_meant = { λ tree. is_lone_type tree ≡ true };

    ghost says = { λ x tree. tree ≡ type_paren x };

    fn kind() -> Kind
        ensures { kind_of result ≡ k.TupleType }
    {
        Kind::TupleType
    }

    fn refusal() -> &'a str {
        "expected one type in parentheses"
    }

    #[tactic(auto, using(syn_part::proofs::Derived::shaped))]
    fn view(tree: &'a Tree<'a>) -> Option<TypeParen<'a, 'a>> {
        match TypeParenthesized::of(tree) {
            Some(found) => match found.elems.only() {
                Some(elem) => Some(TypeParen {
                    paren_token: found.paren_token,
                    elem,
                }),
                None => None,
            },
            None => None,
        }
    }
}

impl<'a> ParseSingle<'a> for TypeTuple<'a, 'a> {
    ghost kind = { k.TupleType };

    ghost is_meant = { λ tree. is_lone_type tree ≡ false };

    ghost says = { λ x tree. tree ≡ type_tuple x };

    fn kind() -> Kind
        ensures { kind_of result ≡ k.TupleType }
    {
        Kind::TupleType
    }

    fn refusal() -> &'a str {
        "expected tuple"
    }

    #[tactic(auto, using(syn_part::proofs::Derived::shaped, syn_ast::proofs::TypeForms::several_types))]
    fn view(tree: &'a Tree<'a>) -> Option<TypeTuple<'a, 'a>> {
        match TypeParenthesized::of(tree) {
            Some(found) => match found.elems.only() {
                Some(_) => None,
                None => Some(TypeTuple {
                    paren_token: found.paren_token,
                    elems: found.elems,
                }),
            },
            None => None,
        }
    }
}

impl<'a> ParseSingle<'a> for MetaList<'a, 'a> {
    ghost kind = { k.Meta };

    ghost is_meant = { λ tree. has_tokens tree ≡ true };

    ghost says = { λ x tree. tree ≡ meta (metas.List x) };

    fn kind() -> Kind
        ensures { kind_of result ≡ k.Meta }
    {
        Kind::Meta
    }

    fn refusal() -> &'a str {
        "expected path and tokens in a group"
    }

    #[tactic(auto, using(syn_part::proofs::Derived::shaped))]
    fn view(tree: &'a Tree<'a>) -> Option<MetaList<'a, 'a>> {
        match Meta::of(tree) {
            Some(Meta::List(found)) => Some(found),
            Some(Meta::NameValue(_)) => None,
            Some(Meta::Path(_)) => None,
            None => None,
        }
    }
}

impl<'a> ParseSingle<'a> for MetaNameValue<'a, 'a> {
    ghost kind = { k.Meta };

    ghost is_meant = { λ tree. has_value tree ≡ true };

    ghost says = { λ x tree. tree ≡ meta (metas.NameValue x) };

    fn kind() -> Kind
        ensures { kind_of result ≡ k.Meta }
    {
        Kind::Meta
    }

    fn refusal() -> &'a str {
        "expected path, `=` and a value"
    }

    #[tactic(auto, using(syn_part::proofs::Derived::shaped))]
    fn view(tree: &'a Tree<'a>) -> Option<MetaNameValue<'a, 'a>> {
        match Meta::of(tree) {
            Some(Meta::NameValue(found)) => Some(found),
            Some(Meta::List(_)) => None,
            Some(Meta::Path(_)) => None,
            None => None,
        }
    }
}
