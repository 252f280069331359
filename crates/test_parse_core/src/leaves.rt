//! Which leaf is read from a text, and which stands first in it.

use crate::asked::{Question, ask};
use crate::following::Front;
use crate::texts::put_tokens;
use proc_macro2::SourceMap;
use syn_error::ToTokens;
use syn_leaf::{
    BinOp, Index, Lit, LitBool, LitByte, LitByteStr, LitCStr, LitChar, LitFloat, LitInt, LitStr,
    Member, RangeLimits, UnOp,
};
use syn_parse::{Cursor, Parse, ParseBuffer, Peek, parse_str};
use test_support::{Page, Unanswered};

/// What is read from a text, by the kind's name.
pub fn read_kind(kind: &str, text: &str, page: &mut Page) -> Result<(), Unanswered> {
    match kind {
        "lit" => read::<Lit>(text, page),
        "bool" => read::<LitBool>(text, page),
        "str" => read::<LitStr>(text, page),
        "byte_str" => read::<LitByteStr>(text, page),
        "c_str" => read::<LitCStr>(text, page),
        "byte" => read::<LitByte>(text, page),
        "char" => read::<LitChar>(text, page),
        "int" => read::<LitInt>(text, page),
        "float" => read::<LitFloat>(text, page),
        "index" => read::<Index>(text, page),
        "member" => read::<Member>(text, page),
        "binary" => front::<BinOp>(text, page),
        "unary" => front::<UnOp>(text, page),
        "limits" => front::<RangeLimits>(text, page),
        _ => return Err(Unanswered::NoRow),
    }
    Ok(())
}

/// What is printed for what is read from a text, or why nothing is.
pub fn read<T: Parse + ToTokens>(text: &str, page: &mut Page) {
    let alloc = page.alloc();
    match parse_str::<T>(alloc, text, &mut SourceMap::new(alloc)) {
        Ok(value) => put_tokens(&value, page),
        Err(fault) => page.show(&fault),
    }
}

/// What is printed for what stands first in a text and for what is left behind it, or why nothing stands there.
fn front<T: Parse + ToTokens>(text: &str, page: &mut Page) {
    let alloc = page.alloc();
    match parse_str::<Front<T>>(alloc, text, &mut SourceMap::new(alloc)) {
        Ok(front) => {
            put_tokens(&front.first, page);
            page.put(" // ");
            page.show(&front.rest);
        }
        Err(fault) => page.show(&fault),
    }
}

/// Whether a literal of a kind, by its name, stands first in a text.
pub fn peek_kind(kind: &str, text: &str, page: &mut Page) -> Result<(), Unanswered> {
    match kind {
        "str" => ask(text, Question::IsString, page),
        "char" => ask(text, Question::IsCharacter, page),
        "int" => ask(text, Question::IsInteger, page),
        "float" => ask(text, Question::IsFloat, page),
        _ => return Err(Unanswered::NoRow),
    }
    Ok(())
}

/// Whether such a literal stands there.
pub fn peek<T: Peek>(begin: Cursor<'_>, page: &mut Page) {
    let is_found = ParseBuffer::new(page.alloc(), begin).peek::<T>();
    write!(page, "{is_found}");
}
