//! Texts that are printed part by part.

ghost use Rattle.writer_print.specs.Pieces.{piece_token};
ghost use Rattle.writer_print.specs.Sheets.{Shows, space_at};
ghost use Rattle.proc_macro2.specs.Printed as printed;
ghost use Rattle.proc_macro2.specs.Token.{Token};
ghost use Rattle.rust_leaf.specs.Leaf.{text_of};
ghost use Rattle.std.specs.Fmt.{decimal};
ghost use Rattle.std.specs.Prelude.{◌≡◌, ◌++◌, ◌∷◌, ◌&&◌, ◌||◌, not, [], List, OnOk, map};
ghost use Rattle.std.specs.Str.{chars};

use crate::piece::Piece;
use proc_macro2::delimiter::Delimiter;
use rust_leaf::punct::Spacing;
use std::alloc::{AllocError, Global};

/// How a token stands to what is printed behind it.
#[derive(Clone, Copy, Drop)]
pub(crate) struct Edge {
    // It is `{`.
    opens_brace: bool,
    // What follows stands close to it.
    hugs: bool,
}

impl Edge {
    // How the token of a piece stands to what is printed behind it.
    fn of(piece: &Piece) -> Edge
        ensures brace { result.opens_brace ≡ printed.opens_brace (piece_token piece.now) }
        ensures close { result.hugs ≡ printed.hugs (piece_token piece.now) }
    {
        match piece {
            Piece::Open(Delimiter::Brace, _) => Edge {
                opens_brace: true,
                hugs: false,
            },
            Piece::Open(_, _) | Piece::Mark(_, Spacing::Joint, _) => Edge {
                opens_brace: false,
                hugs: true,
            },
            _ => Edge {
                opens_brace: false,
                hugs: false,
            },
        }
    }

    // Whether a space stands between the token and the next one.
    fn is_apart(self, next: &Piece) -> bool
        ensures { result ≡ (self.opens_brace || printed.closes_brace (piece_token next.now))
            || (not self.hugs && not (printed.is_hugged (piece_token next.now))) }
    {
        match next {
            Piece::Close(Delimiter::Brace) => true,
            Piece::Close(_) => self.opens_brace,
            _ => self.opens_brace || !self.hugs,
        }
    }
}

/// A text that is printed part by part: it is that of all tokens, one behind the other.
#[derive(Drop)]
pub struct Sheet {
    text: String,
    // how the last token stands, if there is one
    edge: Option<Edge>,
}

impl Sheet {
    /// A sheet without a token.
    #[tactic(auto, using(rust_leaf::proofs::Pushed::no_word))]
    pub fn new(alloc: Global) -> Sheet
        ensures { Shows result [] }
    {
        Sheet {
            text: String::new(alloc),
            edge: None,
        }
    }

    /// Prints tokens behind those that stand there.
    ///
    /// # Errors
    ///
    /// Where the text can't grow. Some of the tokens may stand there then, and a space behind them, so the sheet is of
    /// no use any more.
    #[tactic(auto, using(crate::proofs::Sheets::put_none, crate::proofs::Sheets::put_more))]
    pub fn put(&mut self, pieces: &[Piece]) -> Result<(), AllocError>
        ensures { OnOk result ((ts : List Token) → Shows self.old ts
            → Shows self.new (ts ++ map piece_token pieces.now)) }
    {
        for piece in pieces {
            self.put_piece(piece)?;
        }
        Ok(())
    }

    // Prints a token behind those that stand there.
    fn put_piece(&mut self, piece: &Piece) -> Result<(), AllocError>
        ensures { OnOk result ((ts : List Token) → Shows self.old ts
            → Shows self.new (ts ++ piece_token piece.now ∷ [])) }
    {
        push_space(&mut self.text, self.edge, piece)?;
        push_piece(&mut self.text, piece)?;
        self.edge = Some(Edge::of(piece));
        Ok(())
    }

    /// The text.
    pub fn into_text(self) -> String
        ensures { (ts : List Token) → Shows self ts → text_of result ≡ printed.text ts }
    {
        self.text
    }
}

// The space between the last token and the next one, if there is one.
fn push_space(out: &mut String, edge: Option<Edge>, next: &Piece) -> Result<(), AllocError>
    ensures { OnOk result (text_of out.new ≡ text_of out.old ++ space_at edge (piece_token next.now)) }
{
    let Some(edge) = edge else {
        return Ok(());
    };
    if edge.is_apart(next) {
        push_mark(out, ' ')
    } else {
        Ok(())
    }
}

// A token by itself.
fn push_piece(out: &mut String, piece: &Piece) -> Result<(), AllocError>
    ensures { OnOk result (text_of out.new ≡ text_of out.old ++ printed.shown (piece_token piece.now)) }
{
    match piece {
        Piece::Ident(ident) => ident.push_to(out),
        Piece::Literal(literal) => push_word(out, literal.as_str()),
        Piece::Mark(mark, _, _) => push_mark(out, *mark),
        Piece::Open(delimiter, _) => push_opening(out, *delimiter),
        Piece::Close(delimiter) => push_closing(out, *delimiter),
        Piece::Underscore => push_mark(out, '_'),
        Piece::Index(index, _) => push_index(out, *index),
    }
}

#[tactic(auto, using(rust_leaf::proofs::Pushed::word_pushed))]
fn push_word(out: &mut String, word: &str) -> Result<(), AllocError>
    ensures { OnOk result (text_of out.new ≡ text_of out.old ++ chars word.now) }
{
    out.push_str(word)
}

#[tactic(auto, using(rust_leaf::proofs::Pushed::char_pushed))]
fn push_mark(out: &mut String, mark: char) -> Result<(), AllocError>
    ensures { OnOk result (text_of out.new ≡ text_of out.old ++ mark ∷ []) }
{
    out.push(mark)
}

#[tactic(auto, using(rust_leaf::proofs::Numbers::decimal_pushed))]
fn push_index(out: &mut String, index: u32) -> Result<(), AllocError>
    ensures { OnOk result (text_of out.new ≡ text_of out.old ++ decimal index) }
{
    write!(out, "{index}")
}

fn push_opening(out: &mut String, delimiter: Delimiter) -> Result<(), AllocError>
    ensures { OnOk result (text_of out.new ≡ text_of out.old ++ printed.opening delimiter) }
{
    match delimiter {
        Delimiter::Parenthesis => push_mark(out, '('),
        Delimiter::Brace => push_mark(out, '{'),
        Delimiter::Bracket => push_mark(out, '['),
        Delimiter::None => Ok(()),
    }
}

fn push_closing(out: &mut String, delimiter: Delimiter) -> Result<(), AllocError>
    ensures { OnOk result (text_of out.new ≡ text_of out.old ++ printed.closing delimiter) }
{
    match delimiter {
        Delimiter::Parenthesis => push_mark(out, ')'),
        Delimiter::Brace => push_mark(out, '}'),
        Delimiter::Bracket => push_mark(out, ']'),
        Delimiter::None => Ok(()),
    }
}
