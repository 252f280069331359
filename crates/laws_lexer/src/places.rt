//! Where the tokens of a text stand in it.

ghost use Rattle.laws_lexer.specs.Place.{IsBehind, IsFound};
ghost use Rattle.proc_macro2.specs.Forest.{IsForest};
ghost use Rattle.proc_macro2.specs.Token.{Spanned};
ghost use Rattle.rust_map.specs.Sources.{Sources, next_position, with_text};
ghost use Rattle.std.specs.List.{All, AllPairs};
ghost use Rattle.std.specs.Prelude.{◌≤◌, ℕ, List};

/// In a map that holds a text behind its others, the source text of a token of the text's forest is the token
/// as it is printed. That of a group goes from its opening delimiter to its closing one, and a token that
/// comes of a doc comment has the comment.
pub fn source_is_printed()
    ensures { (map : Sources) (text : List ℕ) (stream : List Spanned) → 1 ≤ map.start →
        IsForest (next_position map) text stream → All (IsFound (with_text map text)) stream }
{}

/// Each token stands behind those before it in the stream, but for the tokens of one doc comment.
pub fn tokens_stand_in_order()
    ensures { (map : Sources) (text : List ℕ) (stream : List Spanned) → 1 ≤ map.start →
        IsForest (next_position map) text stream → AllPairs (IsBehind (with_text map text)) stream }
{}
