//! Laws of lists of names with punctuations between them: each is the contract of a function that does nothing. A
//! punctuation is given by its row in the table of kinds, by how many marks it has, and by where they stand.

ghost use Rattle.laws_lists.specs.ReadBack.{AreNames, ArePlaces, IsReadFrom, IsRefused, printed};
ghost use Rattle.rust_leaf.specs.declared.ident.Ident.{Ident};
ghost use Rattle.rust_map.specs.declared.span.Span.{Span};
ghost use Rattle.std.specs.Prelude.{◌<◌, ◌≡◌, List, ℕ, map};
ghost use Rattle.syn_buffer.specs.Leaves.{ident_token};
ghost use Rattle.syn_lists.specs.Lists.{IsSeparated};

/// A list of names with punctuations of any kind between them, printed, is read as that list to its end.
#[tactic(auto, using(crate::proofs::NamesBack::printed_read))]
pub fn printed_is_read()
    ensures { (kind width : ℕ) (vs : List Ident) (ps : List (List Span)) → 0 < width → AreNames vs
        → ArePlaces kind width ps → IsSeparated vs ps → IsReadFrom kind width (printed kind width vs ps) vs ps }
{}

/// And it is not refused.
pub fn printed_is_not_refused()
    ensures { (kind width : ℕ) (vs : List Ident) (ps : List (List Span)) → AreNames vs → ArePlaces kind width ps
        → IsSeparated vs ps → IsRefused kind width (printed kind width vs ps) → ⊥ }
{}

/// And as no other: whatever list is read from it has names of the same texts and spans, and punctuations that stand at
/// the same places.
#[tactic(auto, using(crate::proofs::NamesBack::printed_once))]
pub fn nothing_else_is_read()
    ensures { (kind width : ℕ) (vs ws : List Ident) (ps qs : List (List Span)) → 0 < width
        → ArePlaces kind width ps → IsSeparated vs ps → IsReadFrom kind width (printed kind width vs ps) ws qs
        → (map ident_token ws ≡ map ident_token vs) × (qs ≡ ps) }
{}
