//! Laws of entries. Each is the contract of a function that does nothing.

ghost use Rattle.reader_tokens.specs.Nested.{is_nested};
ghost use Rattle.reader_tokens.specs.Tokens.{tokens};
ghost use Rattle.proc_macro2.specs.declared.delimiter.Delimiter.{Delimiter};
ghost use Rattle.rust_map.specs.declared.span.Span.{Span};
ghost use Rattle.std.specs.Prelude.{◌≡◌, ◌∷◌, ◌<◌, ℕ, List, true, length, suc, take, drop};
ghost use Rattle.syn_buffer.specs.Entries.{closes_with, is_whole};
ghost use Rattle.syn_buffer.specs.declared.entry.Entry.{Entry};
ghost use Rattle.syn_buffer.specs.declared.entry.Entry.TheVariants as entry;
ghost use Rattle.syn_grammar.specs.Gram.{is_balanced};
ghost use Rattle.syn_grammar.specs.Run.{Inside, split};

/// In whole entries each group closes where it says, and their tokens are balanced.
#[tactic(auto, using(crate::proofs::Nested::whole_nested, crate::proofs::Groups::whole_balanced))]
pub fn whole_entries()
    ensures nested { (es : List Entry) → is_whole es ≡ true → is_nested es ≡ true }
    ensures balanced { (es : List Entry) → is_whole es ≡ true → is_balanced (tokens es) ≡ true }
{}

/// Of whole entries that begin with a group: so many stand inside, and those are whole, and what stands behind it is
/// whole; and the tokens are split there.
#[tactic(auto, using(crate::proofs::Groups::whole_group))]
pub fn whole_group()
    ensures within { (d : Delimiter) (s : Span) (n : ℕ) (es : List Entry) → is_whole (entry.Open d s n ∷ es) ≡ true
        → n < length es }
    ensures inside { (d : Delimiter) (s : Span) (n : ℕ) (es : List Entry) → is_whole (entry.Open d s n ∷ es) ≡ true
        → is_whole (take n es) ≡ true }
    ensures behind { (d : Delimiter) (s : Span) (n : ℕ) (es : List Entry) → is_whole (entry.Open d s n ∷ es) ≡ true
        → is_whole (drop (suc n) es) ≡ true }
    ensures tokens { (d : Delimiter) (s : Span) (n : ℕ) (es : List Entry) → is_whole (entry.Open d s n ∷ es) ≡ true
        → split 0 (tokens es) ≡ Inside (tokens (take n es)) d (tokens (drop (suc n) es)) }
{}
