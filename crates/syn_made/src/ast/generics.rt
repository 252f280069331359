//! Generics and where clauses as trees.

ghost use Rattle.syn_ast.specs.Generics.{angled_params_tree, bounds, bounds_colon, const_default_tree, const_param};
ghost use Rattle.syn_ast.specs.Generics.{const_value, generic_param, generic_params, generics, impl_generics};
ghost use Rattle.syn_ast.specs.Generics.{lifetime_colon, lifetime_param, lifetimes, optional_where};
ghost use Rattle.syn_ast.specs.Generics.{predicate_lifetime, predicate_type, type_param, where_clause};
ghost use Rattle.syn_ast.specs.Generics.{where_predicate};

use crate::forms::{Called, First, Second};
use crate::put::{behind, node, nth};
use crate::to_tree::ToTree;
use reader_table::kind::Kind;
use reader_table::part::Part;
use reader_tree::arena::Arena;
use reader_tree::tree::Tree;
use std::alloc::AllocError;
use syn_ast::generics::{
    AngledParams, Bounds, BoundsColon, ConstDefault, ConstParam, ConstValue, GenericParam,
    GenericParams, Generics, ImplGenerics, LifetimeColon, LifetimeParam, Lifetimes, OptionalWhere,
    PredicateLifetime, PredicateType, TypeParam, WhereClause, WherePredicate,
};

impl<'t, 'a> ToTree<'a> for AngledParams<'t, 'a> {
    ghost tree = { angled_params_tree };

    fn to_tree(&self, arena: &'a Arena) -> Result<Tree<'a>, AllocError> {
        let params = Called(Part::Parameters, self.params);
        (self.lt_token, params, self.gt_token).to_tree(arena)
    }
}

impl<'t, 'a> ToTree<'a> for Generics<'t, 'a> {
    ghost tree = { generics };

    fn to_tree(&self, arena: &'a Arena) -> Result<Tree<'a>, AllocError> {
        node(arena, Kind::Generics, &self.params)
    }
}

impl<'t, 'a> ToTree<'a> for ImplGenerics<'t, 'a> {
    ghost tree = { impl_generics };

    fn to_tree(&self, arena: &'a Arena) -> Result<Tree<'a>, AllocError> {
        node(arena, Kind::ImplGenerics, &self.params)
    }
}

impl<'t, 'a> ToTree<'a> for GenericParams<'t, 'a> {
    ghost tree = { generic_params };

    fn to_tree(&self, arena: &'a Arena) -> Result<Tree<'a>, AllocError> {
        node(arena, Kind::GenericParams, &self.params)
    }
}

impl<'t, 'a> ToTree<'a> for LifetimeParam<'t, 'a> {
    ghost tree = { lifetime_param };

    fn to_tree(&self, arena: &'a Arena) -> Result<Tree<'a>, AllocError> {
        let inside = (self.attrs, self.lifetime, self.colon);
        node(arena, Kind::LifetimeParam, &inside)
    }
}

impl<'t, 'a> ToTree<'a> for LifetimeColon<'t, 'a> {
    ghost tree = { lifetime_colon };

    fn to_tree(&self, arena: &'a Arena) -> Result<Tree<'a>, AllocError> {
        node(arena, Kind::LifetimeColon, &self.bounds)
    }
}

impl<'t, 'a> ToTree<'a> for BoundsColon<'t, 'a> {
    ghost tree = { bounds_colon };

    fn to_tree(&self, arena: &'a Arena) -> Result<Tree<'a>, AllocError> {
        node(arena, Kind::BoundsColon, &self.bounds)
    }
}

impl<'t, 'a> ToTree<'a> for TypeParam<'t, 'a> {
    ghost tree = { type_param };

    fn to_tree(&self, arena: &'a Arena) -> Result<Tree<'a>, AllocError> {
        let inside = (self.attrs, self.ident, self.colon, self.default);
        node(arena, Kind::TypeParam, &inside)
    }
}

impl<'t, 'a> ToTree<'a> for Bounds<'t, 'a> {
    ghost tree = { bounds };

    fn to_tree(&self, arena: &'a Arena) -> Result<Tree<'a>, AllocError> {
        node(arena, Kind::Bounds, &self.bounds)
    }
}

impl<'t, 'a> ToTree<'a> for Lifetimes<'t, 'a> {
    ghost tree = { lifetimes };

    fn to_tree(&self, arena: &'a Arena) -> Result<Tree<'a>, AllocError> {
        node(arena, Kind::Lifetimes, &self.lifetimes)
    }
}

impl<'t, 'a> ToTree<'a> for ConstValue<'t, 'a> {
    ghost tree = { const_value };

    fn to_tree(&self, arena: &'a Arena) -> Result<Tree<'a>, AllocError> {
        match *self {
            ConstValue::Lit(lit) => nth(arena, 0, &lit),
            ConstValue::Block(block) => nth(arena, 1, &block),
            ConstValue::Ident(word) => behind(arena, 2, &word),
        }
    }
}

impl<'t, 'a> ToTree<'a> for ConstDefault<'t, 'a> {
    ghost tree = { const_default_tree };

    fn to_tree(&self, arena: &'a Arena) -> Result<Tree<'a>, AllocError> {
        let value = Called(Part::Value, self.value);
        (self.eq_token, value).to_tree(arena)
    }
}

impl<'t, 'a> ToTree<'a> for ConstParam<'t, 'a> {
    ghost tree = { const_param };

    fn to_tree(&self, arena: &'a Arena) -> Result<Tree<'a>, AllocError> {
        let behind = (self.colon_token, self.ty, self.default);
        let inside = (self.attrs, self.const_token, self.ident, behind);
        node(arena, Kind::ConstParam, &inside)
    }
}

impl<'t, 'a> ToTree<'a> for GenericParam<'t, 'a> {
    ghost tree = { generic_param };

    fn to_tree(&self, arena: &'a Arena) -> Result<Tree<'a>, AllocError> {
        match *self {
            GenericParam::Lifetime(param) => {
                let inside = First(Called(Part::Lifetime, param));
                node(arena, Kind::GenericParam, &inside)
            }
            GenericParam::Const(param) => { node(arena, Kind::GenericParam, &Second(First(param))) }
            GenericParam::Type(param) => { node(arena, Kind::GenericParam, &Second(Second(param))) }
        }
    }
}

impl<'t, 'a> ToTree<'a> for WhereClause<'t, 'a> {
    ghost tree = { where_clause };

    fn to_tree(&self, arena: &'a Arena) -> Result<Tree<'a>, AllocError> {
        let predicates = Called(Part::Parameters, self.predicates);
        let inside = (self.where_token, predicates, First(()));
        node(arena, Kind::WhereClause, &inside)
    }
}

impl<'t, 'a> ToTree<'a> for OptionalWhere<'t, 'a> {
    ghost tree = { optional_where };

    fn to_tree(&self, arena: &'a Arena) -> Result<Tree<'a>, AllocError> {
        match self.clause {
            Some(clause) => node(arena, Kind::Where, &First(Called(Part::Clause, clause))),
            None => node(arena, Kind::Where, &Second(())),
        }
    }
}

impl<'t, 'a> ToTree<'a> for PredicateLifetime<'t, 'a> {
    ghost tree = { predicate_lifetime };

    fn to_tree(&self, arena: &'a Arena) -> Result<Tree<'a>, AllocError> {
        (self.lifetime, self.colon_token, self.bounds).to_tree(arena)
    }
}

impl<'t, 'a> ToTree<'a> for PredicateType<'t, 'a> {
    ghost tree = { predicate_type };

    fn to_tree(&self, arena: &'a Arena) -> Result<Tree<'a>, AllocError> {
        let inside = (
            self.lifetimes,
            self.bounded_ty,
            self.colon_token,
            self.bounds,
        );
        inside.to_tree(arena)
    }
}

impl<'t, 'a> ToTree<'a> for WherePredicate<'t, 'a> {
    ghost tree = { where_predicate };

    fn to_tree(&self, arena: &'a Arena) -> Result<Tree<'a>, AllocError> {
        match *self {
            WherePredicate::Lifetime(predicate) => {
                node(arena, Kind::WherePredicate, &First(predicate))
            }
            WherePredicate::Type(predicate) => {
                node(arena, Kind::WherePredicate, &Second(predicate))
            }
        }
    }
}
