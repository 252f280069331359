//! Reading forms and tokens one behind the other.

ghost use Rattle.reader_steps.specs.Answers.{tokens};
ghost use Rattle.reader_table.specs.Kinds.{kind_of};
ghost use Rattle.reader_table.specs.Looks.{look_of};
ghost use Rattle.reader_table.specs.Words.{literals_of, sign_text, words_of};
ghost use Rattle.reader_steps.specs.declared.refusal.Wanted.TheVariants as wanted;
ghost use Rattle.rust_leaf.specs.Leaf.{ident_span, ident_text, literal_span, literal_text};
ghost use Rattle.rust_map.specs.Spans.{call_site, last_of};
ghost use Rattle.std.specs.Prelude.{◌++◌, ◌-◌, ◌↔◌, ◌≡◌, ◌≤◌, [], IfErr, IfNone, IfOk, IfSome, IsTrue, List, OnErr};
ghost use Rattle.std.specs.Prelude.{drop, length};
ghost use Rattle.syn_read.specs.Reading.{Enters, IsOnward, NoGroup, NoLiteral, NoSign, NoWord, SaysWanted, StandsGroup};
ghost use Rattle.syn_read.specs.Reading.{StandsLiteral, StandsSign, StandsWord, left, spanned_left, standing};
ghost use Rattle.syn_buffer.specs.Entries.{is_whole, spanned_entries};
ghost use Rattle.syn_buffer.specs.declared.entry.Entry.{Entry as GivenEntry};
ghost use Rattle.syn_error.specs.Faults.{IsSyntax};
ghost use Rattle.syn_error.specs.Notes.{Says};
ghost use Rattle.syn_grammar.specs.Look.{sees};
ghost use Rattle.syn_grammar.specs.Read.{IsDerived, NoneRead};

use crate::reader::{Entered, ReadSign, Reader};
use proc_macro2::delimiter::Delimiter;
use reader_rust::grammar::Grammar;
use reader_rust::said::error;
use reader_steps::read::read;
use reader_steps::refusal::{Refusal, Wanted, Wrong};
use reader_steps::rules::Rules;
use reader_table::kind::Kind;
use reader_table::op::{Look, Test};
use reader_table::word::{Literals, Sign, Words};
use reader_tokens::{leaf, literals, sign};
use reader_tree::arena::Arena;
use reader_tree::tree::Tree;
use rust_leaf::ident::Ident;
use rust_leaf::literal::Literal;
use rust_map::span::Span;
use std::alloc::AllocError;
use std::fmt;
use syn_buffer::TokenBuffer;
use syn_buffer::entry::Entry;
use syn_error::{Error, ParseFault};

impl<'a> Reader<'a> {
    /// What reads the buffer from its first token on. Trees stand in the arena, and errors take
    /// their memory from where it does.
    pub fn new(arena: &'a Arena, buffer: &'a TokenBuffer<'a>) -> Reader<'a>
        ensures tokens { left result ≡ tokens buffer.now.entries.items }
        ensures spans { spanned_left result ≡ spanned_entries buffer.now.entries.items }
        ensures closing { result.closing ≡ call_site }
    {
        Reader {
            entries: buffer.entries(),
            closing: Span::call_site(),
            arena,
        }
    }

    // The place in the same list where these are left, the last of its tokens.
    fn past(self, rest: &'a [Entry<'a>]) -> Reader<'a>
        requires whole { IsTrue (is_whole rest.now) }
        requires last { (passed : List GivenEntry) × (self.entries.now ≡ passed ++ rest.now) }
        ensures entries { result.entries.now ≡ rest.now }
        ensures tokens { left result ≡ tokens rest.now }
        ensures onward { IsOnward self.entry result }
    {
        Reader {
            entries: rest,
            closing: self.closing,
            arena: self.arena,
        }
    }

    // The place in the same list where so many tokens are left.
    fn before_last(self, count: usize) -> Reader<'a>
        requires within { count ≤ length self.entries.now }
        requires whole { IsTrue (is_whole (drop (length self.entries.now - count) self.entries.now)) }
        ensures entries { result.entries.now ≡ drop (length self.entry.entries.now - count) self.entry.entries.now }
        ensures onward { IsOnward self.entry result }
    {
        let entries = self.entries;
        self.past(&entries[entries.len() - count..])
    }

    /// The tokens that are left.
    pub fn entries(&self) -> &'a [Entry<'a>]
        ensures tokens { tokens result.now ≡ left self.now }
        ensures spans { spanned_entries result.now ≡ spanned_left self.now }
        ensures whole { IsTrue (is_whole result.now) }
    {
        self.entries
    }

    /// Whether no token is left.
    pub fn is_empty(&self) -> bool
        ensures { IsTrue result ↔ (left self.now ≡ []) }
    {
        self.entries.is_empty()
    }

    /// Where the next token stands, of a group all of it. At the end of a group's inside it is the group's closing
    /// mark, and at the end of the buffer the call site.
    pub fn span(&self) -> Span
        ensures { result ≡ standing self.now }
    {
        match self.entries.first() {
            Some(entry) => entry.span(),
            None => self.closing,
        }
    }

    /// An error that says the message of the next token, or of what closes the list.
    ///
    /// # Errors
    ///
    /// Where there is no memory for the message's text.
    pub fn error<M: fmt::Display + Drop>(&self, message: M) -> Result<Error, AllocError>
        ensures { IfOk result (Says (M.output message) (standing self.now) (standing self.now)) }
    {
        Error::new(self.arena.alloc(), self.span(), message)
    }

    // What is said where that is wanted, and doesn't stand.
    fn wanting(&self, wanted: Wanted) -> ParseFault
        ensures { SaysWanted wanted self.now result }
    {
        let wrong = Wrong {
            span: Some(self.span()),
            is_end: self.entries.is_empty(),
            wanted,
        };
        match error(self.arena.alloc(), wrong) {
            Ok(error) => ParseFault::Syntax(error),
            Err(_) => ParseFault::Memory,
        }
    }

    // What is said of a form that was not read: where the list ends, it stands at what closes that.
    fn refused(&self, wrong: Wrong) -> ParseFault {
        let placed = Wrong {
            span: Some(wrong.span.unwrap_or(self.closing)),
            is_end: wrong.is_end,
            wanted: wrong.wanted,
        };
        match error(self.arena.alloc(), placed) {
            Ok(error) => ParseFault::Syntax(error),
            Err(_) => ParseFault::Memory,
        }
    }

    /// Whether the look sees there what it looks for: a word, a literal, a punctuation, the opening mark of a group. It
    /// goes on nowhere.
    pub fn sees(&self, look: Look) -> bool
        ensures { result ≡ sees (look_of look) (left self.now) }
    {
        Grammar.passes(Test::Sees(look), self.entries)
    }

    /// Reads the form of the kind that stands there.
    ///
    /// # Errors
    ///
    /// `Syntax` exactly where none does: the error says what was wanted, at the token that stands in its place.
    /// `Memory` only where a growth was refused. The reader then stands where it stood.
    pub fn parse(&mut self, kind: Kind) -> Result<Tree<'a>, ParseFault>
        ensures read { IfOk result (λ x. IsDerived (kind_of kind) (left self.old) x (left self.new)) }
        ensures refused { IfErr result (λ e. IsSyntax e → NoneRead (kind_of kind) (left self.old)) }
        ensures stays { OnErr result (self.new ≡ self.old) }
        ensures onward { IsOnward self.old self.new }
    {
        match read(&Grammar, self.arena, kind, self.entries) {
            Ok((tree, rest)) => {
                *self = self.before_last(rest.len());
                Ok(tree)
            }
            Err(Refusal::Syntax(wrong)) => Err(self.refused(wrong)),
            Err(Refusal::Memory) => Err(ParseFault::Memory),
            Err(Refusal::Late) => unreachable!(),
        }
    }

    /// Reads the word that stands there, if it passes; `None`, and nothing is read, exactly where none does.
    pub fn optional_word(&mut self, words: Words) -> Option<&'a Ident>
        ensures read { IfSome result
            (λ i. StandsWord (words_of words) (ident_text i.now) (left self.old) (left self.new)) }
        ensures missing { IfNone result (NoWord (words_of words) (left self.old) × (self.new ≡ self.old)) }
        ensures placed { IfSome result (λ i. ident_span i.now ≡ standing self.old) }
        ensures onward { IsOnward self.old self.new }
    {
        if let [entry, rest @ ..] = self.entries {
            if let Entry::Ident(ident) = *entry {
                if leaf::word(words, ident) {
                    *self = self.past(rest);
                    return Some(ident);
                }
            }
        }
        None
    }

    /// Reads the word that stands there, a keyword or an identifier whose text passes.
    ///
    /// # Errors
    ///
    /// `Syntax` exactly where none does: the error says what was wanted, at the next token. `Memory` only where the
    /// error's text found none. The reader then stands where it stood.
    pub fn word(&mut self, words: Words) -> Result<&'a Ident, ParseFault>
        ensures read { IfOk result
            (λ i. StandsWord (words_of words) (ident_text i.now) (left self.old) (left self.new)) }
        ensures refused { IfErr result (λ e. IsSyntax e → NoWord (words_of words) (left self.old)) }
        ensures said { IfErr result (SaysWanted (wanted.Word words) self.old) }
        ensures stays { OnErr result (self.new ≡ self.old) }
        ensures placed { IfOk result (λ i. ident_span i.now ≡ standing self.old) }
        ensures onward { IsOnward self.old self.new }
    {
        match self.optional_word(words) {
            Some(ident) => Ok(ident),
            None => Err(self.wanting(Wanted::Word(words))),
        }
    }

    /// Reads the literal that stands there and passes. `true` and `false` are words.
    ///
    /// # Errors
    ///
    /// Those of `word`.
    pub fn literal(&mut self, literals: Literals) -> Result<&'a Literal, ParseFault>
        ensures read { IfOk result (λ l.
            StandsLiteral (literals_of literals) (literal_text l.now) (left self.old) (left self.new)) }
        ensures refused { IfErr result (λ e. IsSyntax e → NoLiteral (literals_of literals) (left self.old)) }
        ensures said { IfErr result (SaysWanted (wanted.Literal literals) self.old) }
        ensures stays { OnErr result (self.new ≡ self.old) }
        ensures placed { IfOk result (λ l. literal_span l.now ≡ standing self.old) }
        ensures onward { IsOnward self.old self.new }
    {
        if let [entry, rest @ ..] = self.entries {
            if let Entry::Literal(literal) = *entry {
                if literals::literal(literals, literal) {
                    *self = self.past(rest);
                    return Ok(literal);
                }
            }
        }
        Err(self.wanting(Wanted::Literal(literals)))
    }

    /// Reads the punctuation that stands there, whatever follows its last mark.
    ///
    /// # Errors
    ///
    /// Those of `word`.
    pub fn sign(&mut self, sign: Sign) -> Result<ReadSign, ParseFault>
        ensures read { IfOk result (λ r. StandsSign (sign_text sign) r.spacing (left self.old) (left self.new)) }
        ensures refused { IfErr result (λ e. IsSyntax e → NoSign (sign_text sign) (left self.old)) }
        ensures said { IfErr result (SaysWanted (wanted.Mark sign) self.old) }
        ensures stays { OnErr result (self.new ≡ self.old) }
        ensures placed { IfOk result (λ r. r.span ≡ standing self.old) }
        ensures onward { IsOnward self.old self.new }
    {
        match sign::marks(sign, self.entries) {
            Some((spacing, _, rest)) => {
                let span = self.span();
                *self = self.before_last(rest.len());
                Ok(ReadSign { spacing, span })
            }
            None => Err(self.wanting(Wanted::Mark(sign))),
        }
    }

    /// Goes behind the group with that delimiter that stands there, and answers what reads its inside.
    ///
    /// # Errors
    ///
    /// Those of `word`.
    pub fn group(&mut self, delimiter: Delimiter) -> Result<Entered<'a>, ParseFault>
        ensures read { IfOk result (λ r. StandsGroup delimiter (left r.inside) (left self.old) (left self.new)) }
        ensures entered { IfOk result (λ r. Enters delimiter r self.old self.new) }
        ensures closing { IfOk result (λ r. r.inside.closing ≡ last_of r.span) }
        ensures refused { IfErr result (λ e. IsSyntax e → NoGroup delimiter (left self.old)) }
        ensures said { IfErr result (SaysWanted (wanted.Group delimiter) self.old) }
        ensures stays { OnErr result (self.new ≡ self.old) }
        ensures placed { IfOk result (λ r. r.span ≡ standing self.old) }
        ensures onward { IsOnward self.old self.new }
    {
        if let [entry, rest @ ..] = self.entries {
            if let Entry::Open(found, span, count) = *entry {
                if found == delimiter {
                    let inside = Reader {
                        entries: &rest[..count],
                        closing: span.last_character(),
                        arena: self.arena,
                    };
                    *self = self.past(&rest[count + 1..]);
                    return Ok(Entered { inside, span });
                }
            }
        }
        Err(self.wanting(Wanted::Group(delimiter)))
    }

    /// That nothing is left.
    ///
    /// # Errors
    ///
    /// `Syntax` exactly where something is: the error stands at the next token. `Memory` only where its text found
    /// none.
    pub fn finish(self) -> Result<(), ParseFault>
        ensures done { IfOk result (λ _. left self.entry ≡ []) }
        ensures refused { IfErr result (λ _. left self.entry ≡ [] → ⊥) }
        ensures said { IfErr result (SaysWanted wanted.End self.entry) }
    {
        if self.entries.is_empty() {
            return Ok(());
        }
        Err(self.wanting(Wanted::End))
    }
}
