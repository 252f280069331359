//! Lists whose separator has any number of marks, as `::`, against the written grammar: two laws, each the contract of
//! a function that does nothing, and names, which are read so.

ghost use Rattle.laws_lists.specs.Chain.{GivesChain, chain, others_of};
ghost use Rattle.laws_lists.specs.Many.{IsEntry, IsListable, IsSeparator, name_tree};
ghost use Rattle.proc_macro2.specs.Token.{Spanned, plain};
ghost use Rattle.std.specs.Prelude.{◌≡◌, false, IfErr, IfOk, List, ℕ};
ghost use Rattle.syn_error.specs.Faults.{IsSyntax};
ghost use Rattle.syn_grammar.specs.Gram.{Gram};
ghost use Rattle.syn_grammar.specs.Keeps.{keeps};
ghost use Rattle.syn_grammar.specs.Run.{Refused};
ghost use Rattle.syn_grammar.specs.Say.{ident};
ghost use Rattle.syn_grammar.specs.Tree.{Tree};
ghost use Rattle.syn_input.specs.Input.{rest};
ghost use Rattle.syn_lists.specs.Lists.{values};
ghost use Rattle.laws_lists.specs.Leaves.{mark_of};
ghost use Rattle.syn_lists.specs.ReadMany.{ReadsBy, ReadsMany, RefusesBy, StopsMany};

use rust_leaf::ident::Ident;
use syn_error::fault::ParseFault;
use syn_input::{Parse, ParseBuffer};
use syn_kinds::punctuation::Punctuation;
use syn_lists::Punctuated;
use syn_peek::Token;

/// Where a function reads what an entry of the grammar reads, and the separator is those marks, a list of at least one
/// value that is read by the function is what `chain` of that entry reads, with that tree and the same tokens left.
pub fn read_as_chain<'a, T, P: Parse + Token, F: Fn(&mut ParseBuffer<'a>) -> Result<T, ParseFault>>(
    reader: &F,
)
    ensures { (g : Gram) (view : T → Tree) (c : ℕ) (cs : List ℕ) (ts : List Spanned) (vs : List T) (ps : List P)
        (behind : List Spanned) → IsListable g
        → IsEntry g view (ReadsBy (F.post reader.now)) (RefusesBy (F.post reader.now))
        → IsSeparator c cs P.reads P.refuses P.stands
        → ReadsMany (ReadsBy (F.post reader.now)) P.reads (λ _. false) P.stands ts vs ps behind
        → GivesChain view c cs vs behind (keeps (chain c cs g) (plain ts)) }
{}

/// And where no list is read, `chain` is refused: so both read in the same cases.
pub fn refused_as_chain<
    'a,
    T,
    P: Parse + Token,
    F: Fn(&mut ParseBuffer<'a>) -> Result<T, ParseFault>,
>(reader: &F)
    ensures { (g : Gram) (view : T → Tree) (c : ℕ) (cs : List ℕ) (ts : List Spanned) → IsListable g
        → IsEntry g view (ReadsBy (F.post reader.now)) (RefusesBy (F.post reader.now))
        → IsSeparator c cs P.reads P.refuses P.stands
        → StopsMany (ReadsBy (F.post reader.now)) P.reads (λ _. false) P.stands (RefusesBy (F.post reader.now))
        P.refuses ts
        → keeps (chain c cs g) (plain ts) ≡ Refused }
{}

/// Reads names with a punctuation of two marks between each two of them, at least one: those that the grammar's `chain`
/// of a name reads, with its tree, and none exactly where it is refused.
///
/// The fault is that of `Punctuated::parse_separated_nonempty`.
pub fn read_names_two<const K: usize>(
    input: &mut ParseBuffer<'_>,
) -> Result<Punctuated<Ident, Punctuation<K, 2>>, ParseFault>
    ensures found { IfOk result (λ list. GivesChain name_tree (mark_of K) (others_of K 2) (values list)
        (rest input.new) (keeps (chain (mark_of K) (others_of K 2) ident) (plain (rest input.old)))) }
    ensures none { IfErr result (λ e. IsSyntax e
        → keeps (chain (mark_of K) (others_of K 2) ident) (plain (rest input.old)) ≡ Refused) }
{
    Punctuated::parse_separated_nonempty(input)
}

/// The same with a punctuation of three marks.
///
/// The fault is that of `Punctuated::parse_separated_nonempty`.
pub fn read_names_three<const K: usize>(
    input: &mut ParseBuffer<'_>,
) -> Result<Punctuated<Ident, Punctuation<K, 3>>, ParseFault>
    ensures found { IfOk result (λ list. GivesChain name_tree (mark_of K) (others_of K 3) (values list)
        (rest input.new) (keeps (chain (mark_of K) (others_of K 3) ident) (plain (rest input.old)))) }
    ensures none { IfErr result (λ e. IsSyntax e
        → keeps (chain (mark_of K) (others_of K 3) ident) (plain (rest input.old)) ≡ Refused) }
{
    Punctuated::parse_separated_nonempty(input)
}
