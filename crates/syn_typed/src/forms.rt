//! The types of the syntax tree that are read from tokens, each with the kind that it is read as.
//!
//! `view` names both answers of the type's `of`, as the prover meets the trait's clause case by case; and `kind` states
//! its clause again, as the prover gives a method without arguments none of the trait's where the type has a lifetime.

ghost use Rattle.reader_table.specs.Kinds.{kind_of};
ghost use Rattle.std.specs.Prelude.{◌≡◌, MatchOption, Some};
ghost use Rattle.syn_ast.specs.Attributes.{inner_attributes, meta, outer_attributes};
ghost use Rattle.syn_ast.specs.Generics.{generics, where_clause};
ghost use Rattle.syn_ast.specs.Paths.{path};
ghost use Rattle.syn_ast.specs.Types.{form_of_type, type_tree};
ghost use Rattle.syn_ast.specs.Visibility.{visibility};
ghost use Rattle.syn_data.specs.Derive.{IsEnded, derive_input};
ghost use Rattle.syn_expr.specs.Blocks.{block, file};
ghost use Rattle.syn_expr.specs.ExprWhole.{which};
ghost use Rattle.syn_expr.specs.Statements.{statements};
ghost use Rattle.syn_grammar.specs.Forms.{form_of};
ghost use Rattle.syn_grammar.specs.Gram.{ref};
ghost use Rattle.syn_grammar.specs.Kind as k;
ghost use Rattle.syn_item.specs.ItemForms.{Is};
ghost use Rattle.syn_item.specs.ItemUses.{use_tree};
ghost use Rattle.syn_part.specs.Kept.{IsKept};
ghost use Rattle.syn_part.specs.Shape.{IsShaped};
ghost use Rattle.syn_typed.specs.Alone.{IsStmtAlone};

use crate::typed::Parse;
use reader_table::kind::{Kind, Plus, Position, Style};
use reader_tree::tree::Tree;
use syn_ast::attributes::{InnerAttributes, Meta, OuterAttributes};
use syn_ast::generics::{Generics, WhereClause};
use syn_ast::paths::Path;
use syn_ast::types::Type;
use syn_ast::visibility::Visibility;
use syn_data::derive::DeriveInput;
use syn_expr::blocks::{Block, File};
use syn_expr::expr::whole::Expr;
use syn_expr::stmt::{OneStatement, Statements, Stmt};
use syn_item::item::Item;
use syn_item::uses::UseTree;

impl<'a> Parse<'a> for File<'a, 'a> {
    ghost kind = { k.AFile };

    ghost says = { λ x tree. tree ≡ file x };

    fn kind() -> Kind
        ensures { kind_of result ≡ k.AFile }
    {
        Kind::AFile
    }

    #[tactic(auto, using(syn_part::proofs::Derived::shaped))]
    fn view(tree: &'a Tree<'a>) -> Option<File<'a, 'a>> {
        match File::of(tree) {
            Some(found) => Some(found),
            None => None,
        }
    }
}

impl<'a> Parse<'a> for Item<'a, 'a> {
    ghost kind = { k.AnItem };

    ghost says = { λ x tree. Is tree x };

    fn kind() -> Kind
        ensures { kind_of result ≡ k.AnItem }
    {
        Kind::AnItem
    }

    #[tactic(auto, using(syn_part::proofs::Derived::shaped))]
    fn view(tree: &'a Tree<'a>) -> Option<Item<'a, 'a>> {
        match Item::of(tree) {
            Some(found) => Some(found),
            None => None,
        }
    }
}

impl<'a> Parse<'a> for DeriveInput<'a, 'a> {
    ghost kind = { k.DeriveInput };

    ghost says = { λ x tree. IsEnded x.«data» × (tree ≡ derive_input x) };

    fn kind() -> Kind
        ensures { kind_of result ≡ k.DeriveInput }
    {
        Kind::DeriveInput
    }

    #[tactic(auto, using(syn_part::proofs::Derived::shaped))]
    fn view(tree: &'a Tree<'a>) -> Option<DeriveInput<'a, 'a>> {
        match DeriveInput::of(tree) {
            Some(found) => Some(found),
            None => None,
        }
    }
}

impl<'a> Parse<'a> for UseTree<'a, 'a> {
    ghost kind = { k.UseTree };

    ghost says = { λ x tree. tree ≡ use_tree x };

    fn kind() -> Kind
        ensures { kind_of result ≡ k.UseTree }
    {
        Kind::UseTree
    }

    #[tactic(auto, using(syn_part::proofs::Derived::shaped))]
    fn view(tree: &'a Tree<'a>) -> Option<UseTree<'a, 'a>> {
        match UseTree::of(tree) {
            Some(found) => Some(found),
            None => None,
        }
    }
}

impl<'a> Parse<'a> for Visibility<'a, 'a> {
    ghost kind = { k.Visibility };

    ghost says = { λ x tree. tree ≡ visibility x };

    fn kind() -> Kind
        ensures { kind_of result ≡ k.Visibility }
    {
        Kind::Visibility
    }

    #[tactic(auto, using(syn_part::proofs::Derived::shaped))]
    fn view(tree: &'a Tree<'a>) -> Option<Visibility<'a, 'a>> {
        match Visibility::of(tree) {
            Some(found) => Some(found),
            None => None,
        }
    }
}

impl<'a> Parse<'a> for OuterAttributes<'a, 'a> {
    ghost kind = { k.OuterAttributes };

    ghost says = { λ x tree. tree ≡ outer_attributes x };

    fn kind() -> Kind
        ensures { kind_of result ≡ k.OuterAttributes }
    {
        Kind::OuterAttributes
    }

    #[tactic(auto, using(syn_part::proofs::Derived::shaped))]
    fn view(tree: &'a Tree<'a>) -> Option<OuterAttributes<'a, 'a>> {
        match OuterAttributes::of(tree) {
            Some(found) => Some(found),
            None => None,
        }
    }
}

impl<'a> Parse<'a> for InnerAttributes<'a, 'a> {
    ghost kind = { k.InnerAttributes };

    ghost says = { λ x tree. tree ≡ inner_attributes x };

    fn kind() -> Kind
        ensures { kind_of result ≡ k.InnerAttributes }
    {
        Kind::InnerAttributes
    }

    #[tactic(auto, using(syn_part::proofs::Derived::shaped))]
    fn view(tree: &'a Tree<'a>) -> Option<InnerAttributes<'a, 'a>> {
        match InnerAttributes::of(tree) {
            Some(found) => Some(found),
            None => None,
        }
    }
}

impl<'a> Parse<'a> for Meta<'a, 'a> {
    ghost kind = { k.Meta };

    ghost says = { λ x tree. tree ≡ meta x };

    fn kind() -> Kind
        ensures { kind_of result ≡ k.Meta }
    {
        Kind::Meta
    }

    #[tactic(auto, using(syn_part::proofs::Derived::shaped))]
    fn view(tree: &'a Tree<'a>) -> Option<Meta<'a, 'a>> {
        match Meta::of(tree) {
            Some(found) => Some(found),
            None => None,
        }
    }
}

impl<'a> Parse<'a> for Generics<'a, 'a> {
    ghost kind = { k.Generics };

    ghost says = { λ x tree. tree ≡ generics x };

    fn kind() -> Kind
        ensures { kind_of result ≡ k.Generics }
    {
        Kind::Generics
    }

    #[tactic(auto, using(syn_part::proofs::Derived::shaped))]
    fn view(tree: &'a Tree<'a>) -> Option<Generics<'a, 'a>> {
        match Generics::of(tree) {
            Some(found) => Some(found),
            None => None,
        }
    }
}

impl<'a> Parse<'a> for WhereClause<'a, 'a> {
    ghost kind = { k.WhereClause };

    ghost says = { λ x tree. tree ≡ where_clause x };

    fn kind() -> Kind
        ensures { kind_of result ≡ k.WhereClause }
    {
        Kind::WhereClause
    }

    #[tactic(auto, using(syn_part::proofs::Derived::shaped))]
    fn view(tree: &'a Tree<'a>) -> Option<WhereClause<'a, 'a>> {
        match WhereClause::of(tree) {
            Some(found) => Some(found),
            None => None,
        }
    }
}

impl<'a> Parse<'a> for Type<'a, 'a> {
    ghost kind = { k.AType k.WithPlus };

    ghost says = { λ x tree. form_of_type tree ≡ type_tree x };

    fn kind() -> Kind
        ensures { kind_of result ≡ k.AType k.WithPlus }
    {
        Kind::AType(Plus::WithPlus)
    }

    #[tactic(auto, using(syn_part::proofs::Derived::shaped))]
    fn view(tree: &'a Tree<'a>) -> Option<Type<'a, 'a>> {
        match Type::of(tree) {
            Some(found) => Some(found),
            None => None,
        }
    }
}

impl<'a> Parse<'a> for Path<'a, 'a> {
    ghost kind = { k.Path k.InType };

    ghost says = { λ x tree. tree ≡ path x };

    fn kind() -> Kind
        ensures { kind_of result ≡ k.Path k.InType }
    {
        Kind::Path(Style::InType)
    }

    #[tactic(auto, using(syn_part::proofs::Derived::shaped))]
    fn view(tree: &'a Tree<'a>) -> Option<Path<'a, 'a>> {
        match Path::of(tree) {
            Some(found) => Some(found),
            None => None,
        }
    }
}

impl<'a> Parse<'a> for Expr<'a, 'a> {
    ghost kind = { k.Expression k.Plain };

    ghost says = { λ x tree. (x.tree.now ≡ form_of tree) × (which x.tree.now ≡ Some x.form) };

    fn kind() -> Kind
        ensures { kind_of result ≡ k.Expression k.Plain }
    {
        Kind::Expression(Position::Plain)
    }

    #[tactic(auto, using(syn_part::proofs::Derived::shaped))]
    fn view(tree: &'a Tree<'a>) -> Option<Expr<'a, 'a>> {
        match Expr::of(tree) {
            Some(found) => Some(found),
            None => None,
        }
    }
}

impl<'a> Parse<'a> for Block<'a, 'a> {
    ghost kind = { k.Block };

    ghost says = { λ x tree. tree ≡ block x };

    fn kind() -> Kind
        ensures { kind_of result ≡ k.Block }
    {
        Kind::Block
    }

    #[tactic(auto, using(syn_part::proofs::Derived::shaped))]
    fn view(tree: &'a Tree<'a>) -> Option<Block<'a, 'a>> {
        match Block::of(tree) {
            Some(found) => Some(found),
            None => None,
        }
    }
}

impl<'a> Parse<'a> for Statements<'a, 'a> {
    ghost kind = { k.Statements };

    ghost says = { λ x tree. tree ≡ statements x };

    fn kind() -> Kind
        ensures { kind_of result ≡ k.Statements }
    {
        Kind::Statements
    }

    fn view(tree: &'a Tree<'a>) -> Option<Statements<'a, 'a>> {
        match Statements::of(tree) {
            Some(found) => Some(found),
            None => None,
        }
    }
}

// What a statement that is read by itself is.
#[tactic(auto, unfolding(syn_grammar::specs::Table::table))]
fn one_stmt<'a>(tree: &'a Tree<'a>) -> Option<Stmt<'a, 'a>>
    ensures { MatchOption result (IsKept tree.now → IsShaped tree.now (ref k.OneStatement) → ⊥)
        (λ x. IsStmtAlone tree.now x) }
{
    match OneStatement::of(tree) {
        Some(alone) => match Stmt::of(alone.stmt) {
            Some(found) => Some(found),
            None => None,
        },
        None => None,
    }
}

impl<'a> Parse<'a> for Stmt<'a, 'a> {
    ghost kind = { k.OneStatement };

    ghost says = { λ x tree. IsStmtAlone tree x };

    fn kind() -> Kind
        ensures { kind_of result ≡ k.OneStatement }
    {
        Kind::OneStatement
    }

    fn view(tree: &'a Tree<'a>) -> Option<Stmt<'a, 'a>> {
        match one_stmt(tree) {
            Some(found) => Some(found),
            None => None,
        }
    }
}
