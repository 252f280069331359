//! Macros that stand as items.

ghost use Rattle.reader_table.specs.Kinds.{place_of};
ghost use Rattle.proc_macro2.specs.Token.{Token};
ghost use Rattle.proc_macro2.specs.declared.delimiter.Delimiter.{Delimiter as GivenDelimiter};
ghost use Rattle.std.specs.Prelude.{◌≡◌, Bool, IfSome, List, MatchOption, None, ℕ};
ghost use Rattle.syn_grammar.specs.Gram as g;
ghost use Rattle.syn_grammar.specs.Items.{macro_name};
ghost use Rattle.syn_grammar.specs.Kind as k;
ghost use Rattle.syn_grammar.specs.Tree as t;
ghost use Rattle.syn_item.specs.ItemMacros.{item_macro, macro_end_tree, macro_name_tree};
ghost use Rattle.syn_part.specs.Leaves.{raw_tree};
ghost use Rattle.syn_part.specs.Shape.{IsShaped};

use crate::part;
use reader_table::kind::{Kind, Place};
use reader_tree::tree::Tree;
use syn_ast::paths::MacroDelimiter;
use syn_buffer::entry::Entry;
use syn_part::joined;
use syn_part::leaf::{Delimiters, Mark};
use syn_part::name::Name;
use syn_part::take::{self, Choice};

/// A macro as an item: `a::b! c { d }`, behind its attributes.
#[derive(Clone, Copy)]
pub struct ItemMacro<'t, 'a> {
    /// Where it stands.
    pub place: Place,
    /// Its path.
    pub path: &'t Tree<'a>,
    /// `!`
    pub bang_token: Mark,
    /// The name that it is to have.
    pub ident: Option<Name<'a>>,
    /// The delimiters of its tokens.
    pub delimiter: MacroDelimiter,
    /// The tokens in them.
    pub tokens: &'a [Entry<'a>],
    /// `;`, behind parentheses and brackets.
    pub semi_token: Option<Mark>,
}

// What stands behind the name of a macro.
#[derive(Clone, Copy)]
pub(crate) struct MacroEnd<'a> {
    // The delimiters.
    pub(crate) delimiter: MacroDelimiter,
    // The tokens in them.
    pub(crate) tokens: &'a [Entry<'a>],
    // `;`
    pub(crate) semi_token: Option<Mark>,
}

// The name behind the `!`, if one stands there.
fn optional_name<'a>(tree: &Tree<'a>) -> Option<Option<Name<'a>>>
    ensures { MatchOption result (IsShaped tree.now (macro_name k.InFile) → ⊥)
        (λ o. tree.now ≡ macro_name_tree Place.InFile o) }
{
    match take::optional(tree) {
        Some(Some(inner)) => match part::name_or(inner) {
            Some(found) => Some(Some(found)),
            None => None,
        },
        Some(None) => Some(None),
        None => None,
    }
}

// That no name stands there.
fn no_name<'a>(tree: &Tree<'a>) -> Option<Option<Name<'a>>>
    ensures tree_is { MatchOption result (IsShaped tree.now g.nothing → ⊥) (λ o. tree.now ≡ t.Nil) }
    ensures none { IfSome result (λ o. o ≡ None) }
{
    if take::is_nothing(tree) {
        Some(None)
    } else {
        None
    }
}

// The name behind the `!`, as the place has it.
fn as_macro_name<'a>(place: Place, tree: &Tree<'a>) -> Option<Option<Name<'a>>>
    ensures { MatchOption result (IsShaped tree.now (macro_name (place_of place)) → ⊥)
        (λ o. tree.now ≡ macro_name_tree place o) }
{
    match place {
        Place::InFile => optional_name(tree),
        Place::InForeign => no_name(tree),
        Place::InTrait => no_name(tree),
        Place::InImpl => no_name(tree),
    }
}

// A group of tokens that are kept as they are.
fn as_raw_group<'a>(tree: &Tree<'a>) -> Option<(Delimiters, &'a [Entry<'a>])>
    ensures { MatchOption result ((d : GivenDelimiter) → IsShaped tree.now (g.group d g.raw) → ⊥)
        (λ p. tree.now ≡ t.Group p.0.delimiter (raw_tree p.1)) }
{
    let (delimiters, inside) = take::group(tree)?;
    let tokens = take::raw(inside)?;
    Some((delimiters, tokens))
}

// Tokens in braces.
fn in_braces<'a>(tree: &Tree<'a>) -> Option<MacroEnd<'a>>
    ensures { MatchOption result ((d : GivenDelimiter) → IsShaped tree.now (g.group d g.raw) → ⊥)
        (λ x. t.First tree.now ≡ macro_end_tree x.delimiter x.semi_token (raw_tree x.tokens)) }
{
    let (delimiters, tokens) = as_raw_group(tree)?;
    Some(MacroEnd {
        delimiter: MacroDelimiter::Brace(delimiters),
        tokens,
        semi_token: None,
    })
}

// Tokens in parentheses or brackets, and `;`.
fn in_others<'a>(tree: &Tree<'a>) -> Option<MacroEnd<'a>>
    ensures { MatchOption result ((s : List Token → Bool) (d e : GivenDelimiter) (c : ℕ) (cs : List ℕ)
        → IsShaped tree.now (g.seq (g.alt s (g.group d g.raw) (g.group e g.raw)) (g.mark c cs)) → ⊥)
        (λ x. t.Second tree.now ≡ macro_end_tree x.delimiter x.semi_token (raw_tree x.tokens)) }
{
    let Some((group, semi_token)) = take::pair(tree) else {
        return None;
    };
    let Some((group, semi_token)) = joined::two(take::chosen(group), take::mark(semi_token)) else {
        return None;
    };
    match group {
        Choice::First(inner) => match as_raw_group(inner) {
            Some((delimiters, tokens)) => Some(MacroEnd {
                delimiter: MacroDelimiter::Paren(delimiters),
                tokens,
                semi_token: Some(semi_token),
            }),
            None => None,
        },
        Choice::Second(inner) => match as_raw_group(inner) {
            Some((delimiters, tokens)) => Some(MacroEnd {
                delimiter: MacroDelimiter::Bracket(delimiters),
                tokens,
                semi_token: Some(semi_token),
            }),
            None => None,
        },
    }
}

// The tokens of a macro, and the `;` behind them.
fn as_macro_end<'a>(tree: &Tree<'a>) -> Option<MacroEnd<'a>>
    ensures { MatchOption result ((s u : List Token → Bool) (b d e : GivenDelimiter) (c : ℕ) (cs : List ℕ)
        → IsShaped tree.now (g.alt s (g.group b g.raw) (g.seq (g.alt u (g.group d g.raw) (g.group e g.raw))
        (g.mark c cs))) → ⊥) (λ x. tree.now ≡ macro_end_tree x.delimiter x.semi_token (raw_tree x.tokens)) }
{
    match take::chosen(tree) {
        Some(Choice::First(inner)) => in_braces(inner),
        Some(Choice::Second(inner)) => in_others(inner),
        None => None,
    }
}

impl<'t, 'a> ItemMacro<'t, 'a> {
    /// What a tree is, if it is that.
    #[tactic(auto, unfolding(syn_grammar::specs::Table::table))]
    pub fn of(tree: &'t Tree<'a>) -> Option<ItemMacro<'t, 'a>>
        ensures { MatchOption result ((p : k.Place) → IsShaped tree.now (g.ref (k.ItemMacro p)) → ⊥)
            (λ x. tree.now ≡ item_macro x) }
    {
        let Some((Kind::ItemMacro(place), inner)) = take::node(tree) else {
            return None;
        };
        let Some((path, bang_token, ident, end)) = take::four(inner) else {
            return None;
        };
        let Some((bang_token, ident, end)) = joined::three(
            take::mark(bang_token),
            as_macro_name(place, ident),
            as_macro_end(end),
        ) else {
            return None;
        };
        Some(ItemMacro {
            place,
            path,
            bang_token,
            ident,
            delimiter: end.delimiter,
            tokens: end.tokens,
            semi_token: end.semi_token,
        })
    }
}
