//! What becomes of what was read, by how it is to be judged.

ghost use Rattle.reader_verdicts.specs.Verdict.{verdict_kind};
ghost use Rattle.reader_table.specs.Verdicts.{verdict_of};
ghost use Rattle.std.specs.Prelude.{◌≡◌};

use crate::asked::{Asked, is, part_is};
use crate::items::item_verdict;
use crate::kept::{
    are_field_patterns, are_field_values, are_grouped_parameters, is_impl, is_let, is_trait,
};
use crate::lists::some;
use crate::statements::{are_statements, is_arm, needs_semicolon};
use crate::verdict::{Verdict, kept_if, strictly};
use reader_table::op::Verdicts;
use reader_table::part::Part;
use reader_tree::tree::Tree;

/// What becomes of what was read, as the grammar judges it.
pub fn judge(verdicts: Verdicts, tree: &Tree<'_>) -> Verdict
    ensures { verdict_kind result ≡ verdict_of verdicts tree.now }
{
    match verdicts {
        Verdicts::Item(place) => item_verdict(place, tree),
        Verdicts::Typed(place) => strictly(item_verdict(place, tree)),
        Verdicts::SomeBounds => kept_if(some(Asked::PathBound, tree)),
        Verdicts::FieldPatterns => kept_if(are_field_patterns(tree)),
        Verdicts::FieldValues => kept_if(are_field_values(tree)),
        Verdicts::Arm => kept_if(is_arm(tree)),
        Verdicts::Parameters => kept_if(are_grouped_parameters(tree)),
        Verdicts::FnArg => kept_if(!is(Asked::Variadic, tree)),
        Verdicts::Trait => kept_if(is_trait(tree)),
        Verdicts::RestrictedTrait => kept_if(!tree.has(Part::Equals)),
        Verdicts::Impl => kept_if(is_impl(tree)),
        Verdicts::TraitByItself => kept_if(!part_is(Asked::TraitAlias, Part::Item, tree)),
        Verdicts::TraitAliasByItself => kept_if(part_is(Asked::TraitAlias, Part::Item, tree)),
        Verdicts::Let => kept_if(is_let(tree)),
        Verdicts::OneStatement => kept_if(!needs_semicolon(tree)),
        Verdicts::Statements => kept_if(are_statements(tree)),
    }
}
