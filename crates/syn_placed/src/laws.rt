//! Laws of where parts stand: each is the contract of a function that does nothing.

ghost use Rattle.proc_macro2.specs.Token.{Token};
ghost use Rattle.std.specs.Prelude.{◌++◌, ◌≡◌, List};
ghost use Rattle.syn_buffer.specs.Entries.{spanned_entries};
ghost use Rattle.syn_buffer.specs.declared.entry.Entry.{Entry};
ghost use Rattle.syn_placed.specs.Stands.{StandApart, StandsAmong, StandsBehind, tokens};

/// The tokens of a part with their spans stand, in their order, among those of the whole, behind those that stand in
/// front of the part and before all others.
pub fn parts_stand_among()
    ensures { (before : List Token) (its whole : List Entry) → StandsBehind before its whole
        → StandsAmong before (spanned_entries its) (spanned_entries whole) }
{}

/// What stands in a part stands in the whole, behind what stands in front of the part and what stands in front of it
/// there.
pub fn parts_of_parts()
    ensures { (before more : List Token) (its part whole : List Entry) → StandsBehind before part whole
        → StandsBehind more its part → StandsBehind (before ++ more) its whole }
{}

/// A part stands in one place: entries of the same tokens that stand behind the same tokens are the same.
pub fn one_place()
    ensures { (before : List Token) (its others whole : List Entry) → tokens its ≡ tokens others
        → StandsBehind before its whole → StandsBehind before others whole → its ≡ others }
{}

/// Two parts, the first of which stands in front of the second, have no entry in common: in front of the second stand
/// those of the first, and what stands between them.
pub fn parts_apart()
    ensures { (before gap : List Token) (one other whole : List Entry) → StandsBehind before one whole
        → StandsBehind (before ++ (tokens one ++ gap)) other whole → StandApart one gap other whole }
{}
