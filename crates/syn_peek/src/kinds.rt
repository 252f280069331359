//! Keywords, delimiters and other kinds: looking for them.

use crate::token::Token;
use crate::words::word_at;
use proc_macro2::delimiter::Delimiter;
use syn_buffer::position::Cursor;
use syn_kinds::delimiters::Delimiters;
use syn_kinds::group::Group;
use syn_kinds::keyword::Keyword;
use syn_kinds::markers::{End, IdentAny};
use syn_kinds::underscore::Underscore;

impl<const K: usize> Token for Keyword<K> {
    ghost use Rattle.syn_kinds.specs.Stands.{word_stands};
    ghost use Rattle.syn_kinds.specs.Table.{word};

    ghost stands = { word_stands (word K) };

    fn peek(cursor: Cursor<'_>) -> bool {
        word_at(cursor, Keyword::<K>::word()).is_some()
    }

    fn display() -> &'static str {
        Keyword::<K>::display()
    }
}

#[tactic(auto, using(syn_kinds::proofs::Rows::underscore_chars))]
impl Token for Underscore {
    ghost use Rattle.std.specs.Prelude.{codes};
    ghost use Rattle.syn_kinds.specs.Stands.{word_stands};

    ghost stands = { word_stands (codes "_") };

    fn peek(cursor: Cursor<'_>) -> bool {
        word_at(cursor, "_").is_some()
    }

    fn display() -> &'static str {
        Underscore::display()
    }
}

impl<const D: usize> Token for Delimiters<D> {
    ghost use Rattle.syn_kinds.specs.Stands.{group_stands};
    ghost use Rattle.syn_kinds.specs.Values.{delimiter_of};

    ghost stands = { group_stands (delimiter_of D) };

    fn peek(cursor: Cursor<'_>) -> bool {
        cursor.group(Delimiters::<D>::delimiter()).is_some()
    }

    fn display() -> &'static str {
        Delimiters::<D>::display()
    }
}

// Invisible groups are passed through, and none of their marks is seen: so none stands at any place.
impl Token for Group {
    ghost use Rattle.proc_macro2.specs.declared.delimiter.Delimiter.TheVariants as delimiter;
    ghost use Rattle.syn_kinds.specs.Stands.{group_stands};

    ghost stands = { group_stands delimiter.None };

    fn peek(cursor: Cursor<'_>) -> bool {
        cursor.group(Delimiter::None).is_some()
    }

    fn display() -> &'static str {
        Group::display()
    }
}

impl Token for End {
    ghost use Rattle.syn_buffer.specs.Stands.{end_stands};

    ghost stands = { end_stands };

    fn peek(cursor: Cursor<'_>) -> bool {
        cursor.eof()
    }

    fn display() -> &'static str {
        "end of input"
    }
}

impl Token for IdentAny {
    ghost use Rattle.syn_kinds.specs.Stands.{any_ident_stands};

    ghost stands = { any_ident_stands };

    fn peek(cursor: Cursor<'_>) -> bool {
        cursor.ident().is_some()
    }

    fn display() -> &'static str {
        "identifier"
    }
}
