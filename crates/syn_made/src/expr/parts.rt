//! Parts of expressions: fields and arms.

ghost use Rattle.std.specs.Prelude.{◌≡◌, IfOk, MatchOption};
ghost use Rattle.syn_expr.specs.ExprParts.{a_field_value, arm, arm_comma_tree, field_value, field_values};
ghost use Rattle.syn_expr.specs.ExprParts.{struct_rest_tree};
ghost use Rattle.syn_made.specs.MadeExpr.{IsArmEnd, IsFieldInit};

use crate::expr::forms::Nth;
use crate::forms::{Called, First, Grouped, Second};
use crate::put::{node, some_node};
use crate::to_tree::ToTree;
use crate::try_to_tree::TryToTree;
use reader_table::kind::Kind;
use reader_table::part::Part;
use reader_tree::arena::Arena;
use reader_tree::tree::Tree;
use std::alloc::AllocError;
use syn_ast::paths::Member;
use syn_expr::expr::parts::{AFieldValue, Arm, FieldValue, FieldValues, StructRest};
use syn_part::leaf::Mark;

impl<'t, 'a> ToTree<'a> for FieldValues<'t, 'a> {
    ghost tree = { field_values };

    fn to_tree(&self, arena: &'a Arena) -> Result<Tree<'a>, AllocError> {
        let fields = Grouped(self.brace_token, self.fields);
        node(arena, Kind::FieldValues, &First(fields))
    }
}

// Behind an arm's body: that the braces end there, or the comma, if one stands there.
fn arm_end<'a>(
    arena: &'a Arena,
    at_end: bool,
    comma: Option<Mark>,
) -> Result<Option<Tree<'a>>, AllocError>
    ensures { IfOk result (λ o. MatchOption o (IsArmEnd at_end comma → ⊥)
        (λ x. IsArmEnd at_end comma × (x ≡ arm_comma_tree at_end comma))) }
{
    match (at_end, comma) {
        (true, None) => First(()).to_some_tree(arena),
        (true, Some(_)) => Ok(None),
        (false, Some(comma)) => Nth(1, comma).to_some_tree(arena),
        (false, None) => Second(Second(())).to_some_tree(arena),
    }
}

// Where the braces end with an arm, no comma stands behind it.
impl<'t, 'a> TryToTree<'a> for Arm<'t, 'a> {
    ghost says = { λ x tree. IsArmEnd x.at_end x.comma × (tree ≡ arm x) };

    fn try_to_tree(&self, arena: &'a Arena) -> Result<Option<Tree<'a>>, AllocError> {
        let Some(end) = arm_end(arena, self.at_end, self.comma)? else {
            return Ok(None);
        };
        let body = Called(Part::Body, self.body);
        let end = Called(Part::Comma, &end);
        let behind = (self.guard, self.fat_arrow_token, body, end);
        let inside = First((self.attrs, self.pat, behind));
        some_node(arena, Kind::Arm, &inside)
    }
}

impl<'t, 'a> ToTree<'a> for StructRest<'t, 'a> {
    ghost tree = { struct_rest_tree };

    fn to_tree(&self, arena: &'a Arena) -> Result<Tree<'a>, AllocError> {
        let dots = self.dot2_token;
        match self.rest {
            None => Called(Part::Base, (dots, First(()))).to_tree(arena),
            Some(rest) => Called(Part::Base, (dots, Second(rest))).to_tree(arena),
        }
    }
}

impl<'t, 'a> ToTree<'a> for AFieldValue<'t, 'a> {
    ghost tree = { a_field_value };

    fn to_tree(&self, arena: &'a Arena) -> Result<Tree<'a>, AllocError> {
        match self {
            AFieldValue::Rest(rest) => node(arena, Kind::AFieldValue, &First(*rest)),
            AFieldValue::Field(field) => node(arena, Kind::AFieldValue, &Second(*field)),
        }
    }
}

// A field has `:` and a value, or is a name alone.
impl<'t, 'a> TryToTree<'a> for FieldValue<'t, 'a> {
    ghost says = { λ x tree. IsFieldInit x.member x.colon_token x.expr × (tree ≡ field_value x) };

    fn try_to_tree(&self, arena: &'a Arena) -> Result<Option<Tree<'a>>, AllocError> {
        match (self.member, self.colon_token, self.expr) {
            (member, Some(colon_token), Some(value)) => {
                let init = (member, colon_token, Called(Part::Value, value));
                let inside = (self.attrs, Second(init));
                some_node(arena, Kind::FieldValue, &inside)
            }
            (Member::Named(name), None, None) => {
                some_node(arena, Kind::FieldValue, &(self.attrs, First(name)))
            }
            _ => Ok(None),
        }
    }
}
