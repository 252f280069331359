//! Macros that stand as items.

ghost use Rattle.std.specs.Prelude.{◌≡◌, IfOk, MatchOption};
ghost use Rattle.syn_item.specs.ItemMacros.{item_macro, macro_end_tree, macro_name_tree};
ghost use Rattle.syn_made.specs.MadeWhole.{IsMacroEnd, IsMacroName, IsWholeMacro};
ghost use Rattle.syn_part.specs.Leaves.{raw_tree};

use crate::forms::{First, Grouped, Second};
use crate::item::part::MaybeCalled;
use crate::put::some_node;
use crate::to_tree::ToTree;
use crate::try_to_tree::TryToTree;
use reader_table::kind::{Kind, Place};
use reader_table::part::Part;
use reader_tree::arena::Arena;
use reader_tree::made;
use reader_tree::tree::Tree;
use std::alloc::AllocError;
use syn_ast::paths::MacroDelimiter;
use syn_buffer::entry::Entry;
use syn_item::macros::ItemMacro;
use syn_part::leaf::Mark;
use syn_part::name::Name;

// The name behind the `!`, if it may stand in that place or is missing.
fn macro_name<'a>(
    arena: &'a Arena,
    place: Place,
    ident: Option<Name<'a>>,
) -> Result<Option<Tree<'a>>, AllocError>
    ensures { IfOk result (λ o. MatchOption o (IsMacroName place ident.entry → ⊥)
        (λ x. IsMacroName place ident.entry × (x ≡ macro_name_tree place ident.entry))) }
{
    match (place, ident) {
        (Place::InFile, ident) => MaybeCalled(Part::Name, ident).to_some_tree(arena),
        (_, None) => Ok(Some(made::nil())),
        (_, Some(_)) => Ok(None),
    }
}

// The tokens in their delimiters, and the `;` behind parentheses and brackets, if it is as they need it.
fn macro_end<'a>(
    arena: &'a Arena,
    delimiter: MacroDelimiter,
    semi_token: Option<Mark>,
    tokens: &'a [Entry<'a>],
) -> Result<Option<Tree<'a>>, AllocError>
    ensures { IfOk result (λ o. MatchOption o (IsMacroEnd delimiter semi_token → ⊥)
        (λ x. IsMacroEnd delimiter semi_token
        × (x ≡ macro_end_tree delimiter semi_token (raw_tree tokens.entry)))) }
{
    let raw = made::raw(arena, tokens)?;
    match (delimiter, semi_token) {
        (MacroDelimiter::Brace(braces), None) => {
            Ok(Some(First(Grouped(braces, &raw)).to_tree(arena)?))
        }
        (MacroDelimiter::Paren(parentheses), Some(semi)) => {
            let inside = First(Grouped(parentheses, &raw));
            Ok(Some(Second((inside, semi)).to_tree(arena)?))
        }
        (MacroDelimiter::Bracket(brackets), Some(semi)) => {
            let inside = Second(Grouped(brackets, &raw));
            Ok(Some(Second((inside, semi)).to_tree(arena)?))
        }
        _ => Ok(None),
    }
}

impl<'t, 'a> TryToTree<'a> for ItemMacro<'t, 'a> {
    ghost says = { λ x tree. IsWholeMacro x × (tree ≡ item_macro x) };

    fn try_to_tree(&self, arena: &'a Arena) -> Result<Option<Tree<'a>>, AllocError> {
        let Some(ident) = macro_name(arena, self.place, self.ident)? else {
            return Ok(None);
        };
        let Some(end) = macro_end(arena, self.delimiter, self.semi_token, self.tokens)? else {
            return Ok(None);
        };
        let inside = (self.path, self.bang_token, &ident, &end);
        some_node(arena, Kind::ItemMacro(self.place), &inside)
    }
}
