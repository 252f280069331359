//! A text and its output, made side by side.

use std::alloc::Global;
use test_support::Page;

/// How deep groups stand in one another.
const DEPTH: usize = 200;

/// How many characters a long token has.
const LONG: usize = 1_000;

/// A text, and the output that it has by the rule of printing: one space between trees, none behind a joint mark, and
/// in braces one at both ends.
#[derive(Drop)]
pub struct Texts {
    /// The text, with white characters and comments between its tokens.
    pub source: Page,
    /// Its output.
    pub wanted: Page,
    /// Whether a tree before the next one takes a space behind it.
    spaced: bool,
}

impl Texts {
    fn new(alloc: Global) -> Texts {
        Texts {
            source: Page::new(alloc),
            wanted: Page::new(alloc),
            spaced: false,
        }
    }

    // One token, or joined marks.
    fn token(&mut self, text: &str) {
        self.source.put(text);
        self.source.put("\t\n");
        self.printed(text);
    }

    fn printed(&mut self, text: &str) {
        if self.spaced {
            self.wanted.put(" ");
        }
        self.wanted.put(text);
        self.spaced = true;
    }

    fn open(&mut self, mark: &str) {
        self.source.put(mark);
        self.printed(mark);
        self.spaced = mark == "{";
    }

    fn close(&mut self, mark: &str) {
        self.source.put(mark);
        self.spaced = mark == "}";
        self.printed(mark);
    }

    // A token between a front and an end with many characters inside.
    fn long(&mut self, front: &str, inside: &str, end: &str) {
        self.source.put(front);
        self.printed(front);
        for _ in 0..LONG {
            self.source.put(inside);
            self.wanted.put(inside);
        }
        self.source.put(end);
        self.source.put("\t\n");
        self.wanted.put(end);
    }

    // An identifier with a number.
    fn numbered(&mut self, number: u32) {
        self.printed("S");
        write!(self.source, "S{number}\t\n");
        write!(self.wanted, "{number}");
    }

    // A comment, which is not printed.
    fn comment(&mut self) {
        self.source.put("/*");
        for _ in 0..LONG {
            self.source.put("c");
        }
        self.source.put("*/");
    }

    // A doc of a line, which is printed as an attribute.
    fn doc(&mut self) {
        self.source.put("///");
        self.printed("# [doc = \"");
        for _ in 0..LONG {
            self.source.put("d");
            self.wanted.put("d");
        }
        self.source.put("\n");
        self.wanted.put("\"]");
    }
}

/// A text of many items, and its output.
pub fn large(alloc: Global) -> Texts {
    let mut texts = Texts::new(alloc);
    structs(&mut texts);
    macro_opened(&mut texts);
    long_tokens(&mut texts);
    texts.close("}");
    macro_opened(&mut texts);
    deep_groups(&mut texts);
    texts.close("}");
    macro_opened(&mut texts);
    many_trees(&mut texts);
    texts.close("}");
    structs(&mut texts);
    texts
}

fn macro_opened(texts: &mut Texts) {
    texts.token("m");
    texts.token("!");
    texts.open("{");
}

fn structs(texts: &mut Texts) {
    for number in 0..1_000u32 {
        texts.token("struct");
        texts.numbered(number);
        texts.token(";");
    }
}

// Of each kind of token some that are long.
fn long_tokens(texts: &mut Texts) {
    for _ in 0..5 {
        texts.long("", "x", "");
        texts.long("r#", "y", "");
        texts.long("'", "l", "");
        texts.long("", "7", "");
        texts.long("0.", "7", "");
        texts.long("\"", "s", "\"");
        texts.long("\"", "\\n", "\"");
        texts.long("b\"", "\\xff", "\"");
        texts.long("c\"", "\u{e9}", "\"");
        texts.long("r#\"", "\"", "\"#");
        texts.comment();
        texts.doc();
    }
}

// Groups in one another, of each delimiter, with a token before and behind.
fn deep_groups(texts: &mut Texts) {
    let marks = [("(", ")"), ("[", "]"), ("{", "}")];
    for depth in 0..DEPTH {
        texts.token("a");
        texts.open(marks[depth % 3].0);
    }
    for depth in 0..DEPTH {
        texts.close(marks[(DEPTH - 1 - depth) % 3].1);
        texts.token("+-");
    }
}

// Trees side by side.
fn many_trees(texts: &mut Texts) {
    for _ in 0..1_000 {
        texts.token("a");
        texts.token(",");
        texts.token("1");
    }
}
