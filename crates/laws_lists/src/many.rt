//! Lists that are read by a function, against the written grammar's `many`: two laws, each the contract of a function
//! that does nothing, and names, which are read so.

ghost use Rattle.laws_lists.specs.Many.{GivesList, IsEntry, IsListable, IsSeparator, name_tree};
ghost use Rattle.proc_macro2.specs.Token.{Spanned, plain};
ghost use Rattle.std.specs.Prelude.{[], ◌≡◌, false, IfErr, IfOk, List, ℕ};
ghost use Rattle.syn_error.specs.Faults.{IsSyntax};
ghost use Rattle.syn_grammar.specs.Gram.{Gram, many};
ghost use Rattle.syn_grammar.specs.Keeps.{keeps};
ghost use Rattle.syn_grammar.specs.Run.{Refused};
ghost use Rattle.syn_grammar.specs.Say.{ident};
ghost use Rattle.syn_grammar.specs.Tree.{Tree};
ghost use Rattle.syn_input.specs.Input.{rest};
ghost use Rattle.syn_lists.specs.Lists.{separators, values};
ghost use Rattle.laws_lists.specs.Leaves.{mark_of};
ghost use Rattle.syn_lists.specs.ReadMany.{ReadsBy, ReadsMany, RefusesBy, StopsMany};

use rust_leaf::ident::Ident;
use syn_error::fault::ParseFault;
use syn_input::{Parse, ParseBuffer};
use syn_kinds::punctuation::Punctuation;
use syn_lists::Punctuated;
use syn_peek::Token;

/// Where a function reads what an entry of the grammar reads, and the separator is one mark, a list that is read by the
/// function, up to where `E` stands, is what `many` of that entry reads, with that tree and the same tokens left.
pub fn read_as_many<
    'a,
    T,
    P: Parse + Token,
    E: Token,
    F: Fn(&mut ParseBuffer<'a>) -> Result<T, ParseFault>,
>(reader: &F)
    ensures { (g : Gram) (view : T → Tree) (c : ℕ) (ts : List Spanned) (vs : List T) (ps : List P)
        (behind : List Spanned) → IsListable g
        → IsEntry g view (ReadsBy (F.post reader.now)) (RefusesBy (F.post reader.now))
        → IsSeparator c [] P.reads P.refuses P.stands
        → ReadsMany (ReadsBy (F.post reader.now)) P.reads E.stands P.stands ts vs ps behind
        → GivesList view c vs ps behind (keeps (many E.stands c g) (plain ts)) }
{}

/// And where no list is read, `many` is refused: so both read in the same cases.
pub fn refused_as_many<
    'a,
    T,
    P: Parse + Token,
    E: Token,
    F: Fn(&mut ParseBuffer<'a>) -> Result<T, ParseFault>,
>(reader: &F)
    ensures { (g : Gram) (view : T → Tree) (c : ℕ) (ts : List Spanned) → IsListable g
        → IsEntry g view (ReadsBy (F.post reader.now)) (RefusesBy (F.post reader.now))
        → IsSeparator c [] P.reads P.refuses P.stands
        → StopsMany (ReadsBy (F.post reader.now)) P.reads E.stands P.stands (RefusesBy (F.post reader.now)) P.refuses ts
        → keeps (many E.stands c g) (plain ts) ≡ Refused }
{}

/// Reads names with a punctuation of one mark between each two of them, at least one: those that the grammar's `many`
/// of a name reads, with its tree, and none exactly where it is refused.
///
/// The fault is that of `Punctuated::parse_separated_nonempty`.
pub fn read_names<const K: usize>(
    input: &mut ParseBuffer<'_>,
) -> Result<Punctuated<Ident, Punctuation<K, 1>>, ParseFault>
    ensures found { IfOk result (λ list. GivesList name_tree (mark_of K) (values list) (separators list)
        (rest input.new) (keeps (many (λ _. false) (mark_of K) ident) (plain (rest input.old)))) }
    ensures none { IfErr result (λ e. IsSyntax e
        → keeps (many (λ _. false) (mark_of K) ident) (plain (rest input.old)) ≡ Refused) }
{
    Punctuated::parse_separated_nonempty(input)
}
