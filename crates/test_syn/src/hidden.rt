//! Streams with invisible groups, which no text has, and what is read of them.

use crate::faults::put_ways;
use crate::kinds::KINDS;
use crate::reading::lexed;
use crate::wanted::{FORMS, ask_all_optional, put_form};
use proc_macro2::{Group, Punct, TokenTree};
use std::alloc::Global;
use std::mem;
use syn::{
    Arena, Delimiter, Kind, ParseFault, ParseForms, Reader, SourceMap, Spacing, TokenBuffer,
    TokenStream, parse_as,
};
use syn_input::ParseBuffer;
use test_support::{Page, Unanswered};

// A stream that is put together: the lists that are open, outermost first, the innermost one, and the text that is to
// be put there.
#[derive(Drop)]
struct Nest {
    alloc: Global,
    outer: Vec<TokenStream>,
    inside: TokenStream,
    text: String,
}

impl Nest {
    fn new(alloc: Global) -> Nest {
        Nest {
            alloc,
            outer: Vec::new(alloc),
            inside: TokenStream::new(alloc),
            text: String::new(alloc),
        }
    }

    // Puts the tokens of the text.
    fn put_text(&mut self) -> Result<(), Unanswered> {
        match lexed(self.alloc, self.text.as_str()) {
            Some(stream) => self.inside.push_stream(stream)?,
            None => return Err(Unanswered::NoRow),
        }
        self.text.clear();
        Ok(())
    }

    // Opens a list.
    fn open(&mut self) -> Result<(), Unanswered> {
        self.put_text()?;
        let inside = TokenStream::new(self.alloc);
        self.outer.push(mem::replace(&mut self.inside, inside))?;
        Ok(())
    }

    // Closes the innermost list.
    fn close(&mut self, delimiter: Delimiter) -> Result<(), Unanswered> {
        self.put_text()?;
        let Some(outer) = self.outer.pop() else {
            return Err(Unanswered::NoRow);
        };
        let inside = mem::replace(&mut self.inside, outer);
        self.inside
            .push_tree(TokenTree::Group(Group::new(delimiter, inside)))?;
        Ok(())
    }

    // Puts an apostrophe that is joint, whatever follows it.
    fn put_apostrophe(&mut self) -> Result<(), Unanswered> {
        self.put_text()?;
        if !Punct::is_mark('\'') {
            return Err(Unanswered::NoRow);
        }
        let mark = Punct::new('\'', Spacing::Joint);
        self.inside.push_tree(TokenTree::Punct(mark))?;
        Ok(())
    }

    // Puts a character of a row.
    fn put(&mut self, c: char) -> Result<(), Unanswered> {
        match c {
            '(' | '[' | '{' | '‹' => self.open(),
            ')' => self.close(Delimiter::Parenthesis),
            ']' => self.close(Delimiter::Bracket),
            '}' => self.close(Delimiter::Brace),
            '›' => self.close(Delimiter::None),
            '$' => self.put_apostrophe(),
            _ => Ok(self.text.push(c)?),
        }
    }
}

/// The tokens that a row writes. Between `‹` and `›` stands an invisible group, and `$` is a joint apostrophe.
pub(crate) fn written(alloc: Global, text: &str) -> Result<TokenStream, Unanswered> {
    let mut nest = Nest::new(alloc);
    for c in text.chars() {
        nest.put(c)?;
    }
    nest.put_text()?;
    if nest.outer.is_empty() {
        Ok(nest.inside)
    } else {
        Err(Unanswered::NoRow)
    }
}

/// Puts what is answered for a kind in each way, of tokens that a row writes.
pub(crate) fn put_row(kind: Kind, text: &str, page: &mut Page) -> Result<(), Unanswered> {
    let stream = written(page.alloc(), text)?;
    put_ways(kind, &stream, &SourceMap::new(page.alloc()), page)
}

// Whether a form was read. An error where memory was refused.
fn is_there<T: Drop>(read: Result<T, ParseFault>) -> Result<bool, Unanswered> {
    match read {
        Ok(_) => Ok(true),
        Err(ParseFault::Syntax(_)) => Ok(false),
        Err(ParseFault::Memory) => Err(Unanswered::Cut),
    }
}

// Whether all tokens before a reader are read as a form of a kind.
fn is_before<'a>(
    arena: &'a Arena,
    kind: Kind,
    buffer: &'a TokenBuffer<'a>,
) -> Result<bool, Unanswered> {
    let mut reader = Reader::new(arena, buffer);
    Ok(is_there(reader.parse(kind))? && reader.is_empty())
}

// Whether a form of a kind is read from a stream.
fn is_streamed<'a>(
    arena: &'a Arena,
    kind: Kind,
    buffer: &'a TokenBuffer<'a>,
) -> Result<bool, Unanswered> {
    let mut input = ParseBuffer::new(arena.alloc(), buffer.begin());
    is_there(input.parse_as(arena, kind))
}

// Whether all tokens of a buffer are read as a form of a kind, by themselves and before a reader. From a stream none
// may be read.
fn is_all<'a>(
    arena: &'a Arena,
    kind: Kind,
    buffer: &'a TokenBuffer<'a>,
) -> Result<bool, Unanswered> {
    let is_read = is_there(parse_as(arena, kind, buffer))?;
    if is_read == is_before(arena, kind, buffer)? && !is_streamed(arena, kind, buffer)? {
        Ok(is_read)
    } else {
        Err(Unanswered::NoRow)
    }
}

// The same with trees in an arena of its own.
fn is_kind(kind: Kind, buffer: &TokenBuffer<'_>, alloc: Global) -> Result<bool, Unanswered> {
    let arena = Arena::new(alloc);
    is_all(&arena, kind, buffer)
}

// Whether all tokens of a buffer are read as the form of that name.
fn is_form(name: &str, buffer: &TokenBuffer<'_>, alloc: Global) -> Result<bool, Unanswered> {
    let mut page = Page::new(alloc);
    put_form(name, buffer, &SourceMap::new(alloc), &mut page)?;
    Ok(page.whole()?.starts_with("read"))
}

// Puts a name behind others.
fn put_name(name: &str, page: &mut Page) {
    page.put(" ");
    page.put(name);
}

// Puts the names of the kinds and forms as which all tokens of a buffer are read.
fn put_names(buffer: &TokenBuffer<'_>, page: &mut Page) -> Result<(), Unanswered> {
    let alloc = page.alloc();
    for (name, kind) in &KINDS {
        if is_kind(*kind, buffer, alloc)? {
            put_name(name, page);
        }
    }
    for name in FORMS {
        if is_form(name, buffer, alloc)? {
            put_name(name, page);
        }
    }
    Ok(())
}

// Asks for each form that may be missing.
fn ask_optional(buffer: &TokenBuffer<'_>, alloc: Global) -> Result<(), Unanswered> {
    let arena = Arena::new(alloc);
    ask_all_optional(&arena, buffer)
}

/// Puts the names of the kinds, and of the forms of which several are one kind, as which all of the tokens that a row
/// writes are read. So each call that reads such a form returns, and so does each that reads one which may be missing.
pub(crate) fn put_all(text: &str, page: &mut Page) -> Result<(), Unanswered> {
    let stream = written(page.alloc(), text)?;
    let buffer = TokenBuffer::new2(page.alloc(), &stream, 1)?;
    page.put("each returns, and all is read as:");
    put_names(&buffer, page)?;
    ask_optional(&buffer, page.alloc())
}
