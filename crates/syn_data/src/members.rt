//! What fields are named by: their names, or how many stand before them.

ghost use Rattle.reader_tree.specs.Forms.{ending};
ghost use Rattle.reader_tree.specs.declared.tree.Element.{Element as GivenElement};
ghost use Rattle.proc_macro2.specs.Token.{Token};
ghost use Rattle.std.specs.List.{All, range_with_len};
ghost use Rattle.std.specs.Prelude.{◌++◌, ◌∷◌, ◌≡◌, Bool, IfOk, List, OnOk, [], cond, map, ℕ};
ghost use Rattle.syn_data.specs.Members.{AreMembers, elements_in, field_count, fields_in, member_name, name_of};
ghost use Rattle.syn_data.specs.Members.{names_in};
ghost use Rattle.syn_data.specs.declared.members.Member.TheVariants as members;
ghost use Rattle.syn_grammar.specs.Gram as g;
ghost use Rattle.syn_grammar.specs.Kind as k;
ghost use Rattle.syn_grammar.specs.Tree as t;
ghost use Rattle.syn_part.specs.Iter.{iter_left};
ghost use Rattle.syn_part.specs.Leaves.{list_tree, node_tree};
ghost use Rattle.syn_part.specs.Shape.{IsShaped};

use crate::data::{Fields, NamedField};
use reader_table::op::Separator;
use reader_tree::tree::{Element, Tree};
use std::alloc::{AllocError, Global};
use syn_part::iter::Iter;
use syn_part::list::Elements;
use syn_part::name::Name;

/// What a field is named by.
#[derive(Clone, Copy)]
pub enum Member<'a> {
    /// Its name, or `_`.
    Named(Name<'a>),
    /// How many fields stand before it.
    Unnamed(usize),
}

// How many elements a list has.
fn count(list: &Elements) -> usize
    ensures { result ≡ elements_in (list_tree list.now) }
{
    list.len()
}

// The name of a field, behind those that were found.
fn push_name<'a>(tree: &Tree<'a>, found: &mut Vec<Member<'a>>) -> Result<(), AllocError>
    ensures { OnOk result (IsShaped tree.now (g.ref k.NamedField)
        → map member_name found.new.items ≡ map member_name found.old.items ++ (name_of tree.now ∷ [])) }
{
    if let Some(field) = NamedField::of(tree) {
        found.push(Member::Named(field.ident))?;
    }
    Ok(())
}

// The names of fields that a mark follows, behind those that were found.
fn push_names<'a>(fields: &[Element<'a>], found: &mut Vec<Member<'a>>) -> Result<(), AllocError>
    ensures { OnOk result (All (λ (e : GivenElement). IsShaped e.tree (g.ref k.NamedField)) fields.now
        → map member_name found.new.items ≡ map member_name found.old.items
        ++ map (λ (e : GivenElement). name_of e.tree) fields.now) }
{
    for field in fields {
        push_name(&field.tree, found)?;
    }
    Ok(())
}

// The name of the last field, if no mark follows it, behind those that were found.
fn push_last<'a>(last: Option<&Tree<'a>>, found: &mut Vec<Member<'a>>) -> Result<(), AllocError>
    ensures { OnOk result ((e : List Token → Bool) (c : ℕ)
        → IsShaped (ending node_tree last.entry) (g.many e c (g.ref k.NamedField))
        → map member_name found.new.items ≡ map member_name found.old.items ++ names_in (ending node_tree last.entry)) }
{
    match last {
        Some(tree) => push_name(tree, found),
        None => Ok(()),
    }
}

// The names of fields.
fn named<'a>(alloc: Global, list: &Elements<'_, 'a>) -> Result<Vec<Member<'a>>, AllocError>
    ensures { IfOk result (λ v. (e : List Token → Bool) (c : ℕ)
        → IsShaped (list_tree list.now) (g.many e c (g.ref k.NamedField))
        → map member_name v.items ≡ names_in (list_tree list.now)) }
{
    let mut found = Vec::new(alloc);
    push_names(list.before, &mut found)?;
    push_last(list.last, &mut found)?;
    Ok(found)
}

// So many numbers, from 0 on.
#[tactic(auto, using(crate::proofs::Listed::numbers_more))]
fn numbered<'a>(alloc: Global, count: usize) -> Result<Vec<Member<'a>>, AllocError>
    ensures { IfOk result (λ v. v.items ≡ map members.Unnamed (range_with_len 0 count)) }
{
    let mut found = Vec::new(alloc);
    for index in 0..count {
        found.push(Member::Unnamed(index))?;
    }
    Ok(found)
}

// A list of no fields.
fn nothing<'t, 'a>() -> Elements<'t, 'a>
    ensures { list_tree result ≡ t.End }
{
    Elements {
        separator: Separator::Comma,
        before: &[],
        last: None,
    }
}

impl<'t, 'a> Fields<'t, 'a> {
    /// How many fields there are.
    pub fn len(&self) -> usize
        ensures { result ≡ field_count self.now }
    {
        match self {
            Fields::Named(fields) => count(&fields.named),
            Fields::Unnamed(fields) => count(&fields.unnamed),
            Fields::Unit => 0,
        }
    }

    /// Whether there is none.
    pub fn is_empty(&self) -> bool
        ensures { cond result (field_count self.now ≡ 0) (field_count self.now ≡ 0 → ⊥) }
    {
        self.len() == 0
    }

    /// The fields, in their order, each as a form of the kind `NamedField` or `UnnamedField`.
    pub fn iter(&self) -> Iter<'t, 'a>
        ensures { iter_left result ≡ fields_in self.now }
    {
        match self {
            Fields::Named(fields) => fields.named.iter(),
            Fields::Unnamed(fields) => fields.unnamed.iter(),
            Fields::Unit => nothing().iter(),
        }
    }

    /// What each field is named by, in their order: its name, or where they have none how many stand before it.
    ///
    /// # Errors
    ///
    /// Where there is no memory for the list.
    pub fn members(&self, alloc: Global) -> Result<Vec<Member<'a>>, AllocError>
        ensures { IfOk result (λ v. AreMembers self.now v.items) }
    {
        match self {
            Fields::Named(fields) => named(alloc, &fields.named),
            Fields::Unnamed(fields) => numbered(alloc, count(&fields.unnamed)),
            Fields::Unit => Ok(Vec::new(alloc)),
        }
    }
}
