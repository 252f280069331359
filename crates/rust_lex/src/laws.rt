//! Laws of the lexical rules.

ghost use Rattle.rust_lex.specs.Calm.{IsCalm};
ghost use Rattle.rust_lex.specs.Cover.{IsCover};
ghost use Rattle.rust_lex.specs.Feed.{FitBeforeFeed};
ghost use Rattle.rust_lex.specs.FileCover.{CoverWithoutShebang, IsFileCover};
ghost use Rattle.rust_lex.specs.Piece.{FitsAt, IsIdent, IsLiteral, Piece};
ghost use Rattle.rust_lex.specs.declared.piece.LiteralKind.{LiteralKind};
ghost use Rattle.std.specs.Prelude.{ℕ, ◌≡◌, ◌++◌, List};

/// At one place of a text at most one piece stands, whatever class it is of.
pub fn one_piece()
    ensures { (at : ℕ) (p q : Piece) (r s : List ℕ) → FitsAt at p.kind p.chars r → FitsAt at q.kind q.chars s
        → p.chars ++ r ≡ q.chars ++ s → (p ≡ q) × (r ≡ s) }
{}

/// A text has at most one cover.
pub fn one_cover()
    ensures { (text : List ℕ) (ps qs : List Piece) → IsCover text ps → IsCover text qs → ps ≡ qs }
{}

/// A text has at most one cover as a file: one byte order mark or none, one shebang or none, and the pieces behind
/// them.
pub fn one_file_cover()
    ensures { (text mark line other lines : List ℕ) (ps qs : List Piece) → IsFileCover text mark line ps
        → IsFileCover text other lines qs → (mark ≡ other) × (line ≡ lines) × (ps ≡ qs) }
{}

/// Where no shebang stands in front of a text, its cover as a file is its cover.
pub fn cover_without_shebang()
    ensures { CoverWithoutShebang }
{}

/// Pieces that fit before the end of a text fit before a line feed too, whatever follows that.
pub fn fit_before_feed()
    ensures { FitBeforeFeed }
{}

/// An identifier stands before any calm text, whatever follows it elsewhere.
pub fn identifier_alone()
    ensures { (cs rest calmer : List ℕ) → IsIdent cs rest → IsCalm calmer → IsIdent cs calmer }
{}

/// A literal stands before any calm text with the same kind, whatever follows it elsewhere.
pub fn literal_alone()
    ensures { (kind : LiteralKind) (cs rest calmer : List ℕ) → IsLiteral kind cs rest → IsCalm calmer
        → IsLiteral kind cs calmer }
{}
