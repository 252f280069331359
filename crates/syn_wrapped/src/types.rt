//! Types of their forms, for where one stands.

ghost use Rattle.reader_table.specs.Kinds.{plus_of};
ghost use Rattle.reader_tree.specs.Forms.{seconds};
ghost use Rattle.std.specs.Prelude.{◌≡◌, ◌↔◌, IfOk, IfSome, IsTrue, MatchOption};
ghost use Rattle.syn_ast.specs.Paths.{path};
ghost use Rattle.syn_ast.specs.Types.{form_of_type, type_tree};
ghost use Rattle.syn_grammar.specs.Gram as g;
ghost use Rattle.syn_grammar.specs.Kind as k;
ghost use Rattle.syn_grammar.specs.Tree as t;
ghost use Rattle.syn_made.specs.MadeAst.{IsWholeType};
ghost use Rattle.syn_part.specs.Shape.{IsShaped};
ghost use Rattle.syn_wrapped.specs.Types.{IsTypeAt, before_type, type_inside, type_kind};

use reader_table::kind::{Kind, Plus, Style};
use reader_tree::arena::Arena;
use reader_tree::made;
use reader_tree::tree::Tree;
use std::alloc::AllocError;
use syn_ast::paths::Path;
use syn_ast::types::Type;
use syn_made::ast::types::are_bounds;
use syn_made::forms::{First, Node, Second, Seconds};
use syn_made::put::node;
use syn_made::to_tree::ToTree;
use syn_made::try_to_tree::TryToTree;

// How many alternatives stand before the one that reads a type's form.
fn before_type(form: &Type<'_, '_>) -> usize
    ensures { result ≡ before_type form.now }
{
    match form {
        Type::Tuple(_) | Type::Paren(_) => 0,
        Type::Never(_) => 1,
        Type::Reference(_) => 2,
        Type::Ptr(_) => 3,
        Type::Slice(_) | Type::Array(_) => 4,
        Type::Infer(_) => 5,
        Type::TraitObject(_) => 6,
        Type::ImplTrait(_) => 7,
        Type::FnPtr(_) => 8,
        Type::Path(_) => 9,
    }
}

// A type's form, among those of types, if it is one.
#[tactic(auto, using(crate::proofs::TypeForms::inside_before))]
fn type_inside<'a>(arena: &'a Arena, form: &Type<'_, 'a>) -> Result<Option<Tree<'a>>, AllocError>
    ensures { IfOk result (λ o. MatchOption o (IsWholeType form.now → ⊥)
        (λ x. IsWholeType form.now × (x ≡ type_inside form.now))) }
{
    let Some(tree) = form.try_to_tree(arena)? else {
        return Ok(None);
    };
    match form {
        Type::Path(_) => Seconds(9, &tree).to_some_tree(arena),
        _ => Seconds(before_type(form), First(&tree)).to_some_tree(arena),
    }
}

// Whether a path is one of types.
fn is_of_types(style: Style) -> bool
    ensures { IsTrue result ↔ (style ≡ Style.AtType) }
{
    match style {
        Style::AtType => true,
        Style::InModule | Style::InExpression | Style::InType => false,
    }
}

// Whether the bounds of a type that is `dyn` or `impl` are as its place has them, and a path is one of types.
fn is_type_at(plus: Plus, form: &Type<'_, '_>) -> bool
    ensures { IsTrue result ↔ IsTypeAt plus form.now }
{
    match form {
        Type::TraitObject(found) => are_bounds(plus, found.bounds),
        Type::ImplTrait(found) => are_bounds(plus, found.bounds),
        Type::Tuple(_) | Type::Paren(_) | Type::Never(_) | Type::Reference(_) => true,
        Type::Ptr(_) | Type::Slice(_) | Type::Array(_) | Type::Infer(_) => true,
        Type::Path(found) => is_of_types(found.style),
        Type::FnPtr(_) => true,
    }
}

/// A type of its form, as a tree of the kind `AType`, for where a type stands; `None`, exactly where it is no tree
/// there: a tuple of one element without a comma, `dyn` or `impl` with several bounds where one may stand, or the
/// other way, or a path that is not one of types.
///
/// # Errors
///
/// Where there is no memory for it.
#[tactic(auto, using(crate::proofs::TypeForms::types_whole))]
pub fn a_type<'a>(
    arena: &'a Arena,
    plus: Plus,
    form: &Type<'_, 'a>,
) -> Result<Option<Tree<'a>>, AllocError>
    ensures tree { IfOk result (λ o. MatchOption o (IsTypeAt plus form.now × IsWholeType form.now → ⊥)
        (λ x. IsTypeAt plus form.now × IsWholeType form.now
        × (x ≡ t.Node (k.AType (plus_of plus)) (type_inside form.now)))) }
    ensures form { IfOk result (λ o. IfSome o (λ x. form_of_type x ≡ type_tree form.now)) }

    // It has the shape of its entry where the form has that of its own.
    ensures shaped { IfOk result (λ o. IfSome o (λ x. IsShaped (type_tree form.now)
        (g.ref (type_kind (plus_of plus) form.now)) → IsShaped x (g.ref (k.AType (plus_of plus))))) }
{
    if !is_type_at(plus, form) {
        return Ok(None);
    }
    let Some(inside) = type_inside(arena, form)? else {
        return Ok(None);
    };
    Ok(Some(made::node(arena, Kind::AType(plus), inside)?))
}

/// A path as a type, as a tree of the kind `AType`; `None`, exactly where it is not one of types.
///
/// # Errors
///
/// Where there is no memory for it.
pub fn path_type<'a>(
    arena: &'a Arena,
    plus: Plus,
    found: &Path<'_, 'a>,
) -> Result<Option<Tree<'a>>, AllocError>
    ensures same { IfOk result (λ o. MatchOption o (found.now.style ≡ Style.AtType → ⊥)
        (λ x. (found.now.style ≡ Style.AtType) × (x ≡ t.Node (k.AType (plus_of plus)) (seconds 9
        (t.Node (k.AnyPath k.AtType) (t.Second (path found.now))))))) }
    ensures form { IfOk result (λ o. IfSome o (λ x. form_of_type x ≡ t.Node (k.AnyPath k.AtType) (t.Second
        (path found.now)))) }
{
    if !is_of_types(found.style) {
        return Ok(None);
    }
    let form = Node(Kind::AnyPath(Style::AtType), Second(*found));
    Ok(Some(node(arena, Kind::AType(plus), &Seconds(9, form))?))
}
