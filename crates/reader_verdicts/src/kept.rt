//! What is kept: lists in groups, traits, impls and lets.

ghost use Rattle.std.specs.Prelude.{◌≡◌, not};
ghost use Rattle.syn_grammar.specs.Expressions.{is_base};
ghost use Rattle.syn_grammar.specs.Items.{are_parameters, is_impl, is_trait};
ghost use Rattle.syn_grammar.specs.Name.{the_value};
ghost use Rattle.syn_grammar.specs.Part.{each_separated, in_group, the};
ghost use Rattle.syn_grammar.specs.Patterns.{is_rest};
ghost use Rattle.syn_grammar.specs.Statements.{ends_in_braces, is_let};
ghost use Rattle.syn_grammar.specs.Tree.{flat};

use crate::asked::Asked;
use crate::closing::ends_in_braces;
use crate::lists::{are_parameters, none_separated};
use reader_table::part::Part;
use reader_tree::tree::Tree;

/// Whether in a group of field patterns no `..` is before others.
pub fn are_field_patterns(tree: &Tree<'_>) -> bool
    ensures { result ≡ in_group (each_separated (λ y. not (is_rest y))) tree.now }
{
    match tree.group() {
        Some(inner) => none_separated(Asked::Rest, inner),
        None => false,
    }
}

/// Whether in a group of field values no base is before others.
pub fn are_field_values(tree: &Tree<'_>) -> bool
    ensures { result ≡ in_group (each_separated (λ y. not (is_base y))) tree.now }
{
    match tree.group() {
        Some(inner) => none_separated(Asked::Base, inner),
        None => false,
    }
}

/// Whether in a group of parameters each stands as it may.
pub fn are_grouped_parameters(tree: &Tree<'_>) -> bool
    ensures { result ≡ in_group are_parameters tree.now }
{
    match tree.group() {
        Some(inner) => are_parameters(inner),
        None => false,
    }
}

/// Whether it is a trait, or an alias of traits that is neither unsafe nor auto.
pub fn is_trait(tree: &Tree<'_>) -> bool
    ensures { result ≡ is_trait tree.now }
{
    !(tree.has(Part::Equals) && (tree.has(Part::Safety) || tree.has(Part::Auto)))
}

/// Whether an impl with `!` is one of a trait.
pub fn is_impl(tree: &Tree<'_>) -> bool
    ensures { result ≡ is_impl tree.now }
{
    !tree.has(Part::Polarity) || tree.has(Part::SelfType)
}

/// Whether no else stands behind a value that ends in braces.
pub fn is_let(tree: &Tree<'_>) -> bool
    ensures { result ≡ is_let tree.now }
{
    !(tree.has(Part::Else) && value_ends_in_braces(tree))
}

// Whether the value ends in braces.
fn value_ends_in_braces(tree: &Tree<'_>) -> bool
    ensures { result ≡ ends_in_braces (flat (the the_value tree.now)) }
{
    match tree.the(Part::Value) {
        Some(value) => ends_in_braces(value),
        None => false,
    }
}
