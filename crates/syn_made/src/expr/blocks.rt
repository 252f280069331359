//! Files, blocks, and the forms of expressions that are made of them.

ghost use Rattle.std.specs.Prelude.{◌≡◌, None};
ghost use Rattle.syn_expr.specs.Blocks.{arms, block, body, closure_param, expr_array, expr_async, expr_block};
ghost use Rattle.syn_expr.specs.Blocks.{expr_for_loop, expr_if, expr_loop, expr_macro, expr_match, expr_parenthesized};
ghost use Rattle.syn_expr.specs.Blocks.{expr_path, expr_repeat, expr_unsafe, expr_while, file, label, labelled_tree};

use crate::forms::{Called, Grouped};
use crate::put::{alone, node, some_node};
use crate::to_tree::ToTree;
use crate::try_to_tree::TryToTree;
use reader_table::kind::Kind;
use reader_table::part::Part;
use reader_tree::arena::Arena;
use reader_tree::tree::Tree;
use std::alloc::AllocError;
use syn_expr::blocks::{
    Arms, Block, Body, ClosureParam, ExprArray, ExprAsync, ExprBlock, ExprForLoop, ExprIf,
    ExprLoop, ExprMacro, ExprMatch, ExprParenthesized, ExprPath, ExprRepeat, ExprUnsafe, ExprWhile,
    File, Label, Labelled,
};

// The grammar has no line `#!..` in front of a file, and no section at its head.
impl<'t, 'a> TryToTree<'a> for File<'t, 'a> {
    ghost says = { λ x tree. (x.shebang ≡ None) × (x.frontmatter ≡ None) × (tree ≡ file x) };

    fn try_to_tree(&self, arena: &'a Arena) -> Result<Option<Tree<'a>>, AllocError> {
        match (self.shebang, self.frontmatter) {
            (None, None) => some_node(arena, Kind::AFile, &(self.attrs, self.items)),
            _ => Ok(None),
        }
    }
}

impl<'t, 'a> ToTree<'a> for Block<'t, 'a> {
    ghost tree = { block };

    fn to_tree(&self, arena: &'a Arena) -> Result<Tree<'a>, AllocError> {
        node(arena, Kind::Block, &Grouped(self.brace_token, self.stmts))
    }
}

impl<'t, 'a> ToTree<'a> for Body<'t, 'a> {
    ghost tree = { body };

    fn to_tree(&self, arena: &'a Arena) -> Result<Tree<'a>, AllocError> {
        let inside = (self.attrs, self.stmts);
        node(arena, Kind::Body, &Grouped(self.brace_token, inside))
    }
}

impl<'a> ToTree<'a> for Label<'a> {
    ghost tree = { label };

    fn to_tree(&self, arena: &'a Arena) -> Result<Tree<'a>, AllocError> {
        node(arena, Kind::Label, &(self.name, self.colon_token))
    }
}

impl<'t, 'a> ToTree<'a> for ClosureParam<'t, 'a> {
    ghost tree = { closure_param };

    fn to_tree(&self, arena: &'a Arena) -> Result<Tree<'a>, AllocError> {
        node(arena, Kind::ClosureParam, &(self.attrs, self.pat, self.ty))
    }
}

impl<'t, 'a> ToTree<'a> for Arms<'t, 'a> {
    ghost tree = { arms };

    fn to_tree(&self, arena: &'a Arena) -> Result<Tree<'a>, AllocError> {
        node(arena, Kind::Arms, &self.arms)
    }
}

impl<'t, 'a> ToTree<'a> for Labelled<'t, 'a> {
    ghost tree = { labelled_tree };

    fn to_tree(&self, arena: &'a Arena) -> Result<Tree<'a>, AllocError> {
        Called(Part::Label, self.label).to_tree(arena)
    }
}

impl<'t, 'a> ToTree<'a> for ExprBlock<'t, 'a> {
    ghost tree = { expr_block };

    fn to_tree(&self, arena: &'a Arena) -> Result<Tree<'a>, AllocError> {
        alone(arena, Kind::ExprBlock, &(self.label, self.block))
    }
}

impl<'t, 'a> ToTree<'a> for ExprUnsafe<'t, 'a> {
    ghost tree = { expr_unsafe };

    fn to_tree(&self, arena: &'a Arena) -> Result<Tree<'a>, AllocError> {
        alone(arena, Kind::ExprUnsafe, &(self.unsafe_token, self.block))
    }
}

impl<'t, 'a> ToTree<'a> for ExprAsync<'t, 'a> {
    ghost tree = { expr_async };

    fn to_tree(&self, arena: &'a Arena) -> Result<Tree<'a>, AllocError> {
        let own = (self.async_token, self.capture, self.block);
        alone(arena, Kind::ExprAsync, &own)
    }
}

impl<'t, 'a> ToTree<'a> for ExprLoop<'t, 'a> {
    ghost tree = { expr_loop };

    fn to_tree(&self, arena: &'a Arena) -> Result<Tree<'a>, AllocError> {
        let own = (self.label, self.loop_token, self.body);
        alone(arena, Kind::ExprLoop, &own)
    }
}

impl<'t, 'a> ToTree<'a> for ExprWhile<'t, 'a> {
    ghost tree = { expr_while };

    fn to_tree(&self, arena: &'a Arena) -> Result<Tree<'a>, AllocError> {
        let cond = Called(Part::Condition, self.cond);
        let own = (self.label, self.while_token, cond, self.body);
        alone(arena, Kind::ExprWhile, &own)
    }
}

impl<'t, 'a> ToTree<'a> for ExprForLoop<'t, 'a> {
    ghost tree = { expr_for_loop };

    fn to_tree(&self, arena: &'a Arena) -> Result<Tree<'a>, AllocError> {
        let expr = Called(Part::Condition, self.expr);
        let behind = (self.pat, self.in_token, expr, self.body);
        let own = (self.label, self.for_token, behind);
        alone(arena, Kind::ExprForLoop, &own)
    }
}

impl<'t, 'a> ToTree<'a> for ExprMatch<'t, 'a> {
    ghost tree = { expr_match };

    fn to_tree(&self, arena: &'a Arena) -> Result<Tree<'a>, AllocError> {
        let expr = Called(Part::Condition, self.expr);
        let arms = Grouped(self.brace_token, (self.attrs, self.arms));
        alone(arena, Kind::ExprMatch, &(self.match_token, expr, arms))
    }
}

impl<'t, 'a> ToTree<'a> for ExprIf<'t, 'a> {
    ghost tree = { expr_if };

    fn to_tree(&self, arena: &'a Arena) -> Result<Tree<'a>, AllocError> {
        let cond = Called(Part::Condition, self.cond);
        let own = (self.if_token, cond, self.then_branch, self.else_branch);
        alone(arena, Kind::ExprIf, &own)
    }
}

impl<'t, 'a> ToTree<'a> for ExprParenthesized<'t, 'a> {
    ghost tree = { expr_parenthesized };

    fn to_tree(&self, arena: &'a Arena) -> Result<Tree<'a>, AllocError> {
        alone(
            arena,
            Kind::ExprParen,
            &Grouped(self.paren_token, self.elems),
        )
    }
}

impl<'t, 'a> ToTree<'a> for ExprArray<'t, 'a> {
    ghost tree = { expr_array };

    fn to_tree(&self, arena: &'a Arena) -> Result<Tree<'a>, AllocError> {
        alone(
            arena,
            Kind::ExprArray,
            &Grouped(self.bracket_token, self.elems),
        )
    }
}

impl<'t, 'a> ToTree<'a> for ExprRepeat<'t, 'a> {
    ghost tree = { expr_repeat };

    fn to_tree(&self, arena: &'a Arena) -> Result<Tree<'a>, AllocError> {
        let inside = (self.expr, self.semi_token, self.len);
        alone(
            arena,
            Kind::ExprRepeat,
            &Grouped(self.bracket_token, inside),
        )
    }
}

impl<'t, 'a> ToTree<'a> for ExprMacro<'t, 'a> {
    ghost tree = { expr_macro };

    fn to_tree(&self, arena: &'a Arena) -> Result<Tree<'a>, AllocError> {
        alone(arena, Kind::ExprMacro, &self.mac)
    }
}

impl<'t, 'a> ToTree<'a> for ExprPath<'t, 'a> {
    ghost tree = { expr_path };

    fn to_tree(&self, arena: &'a Arena) -> Result<Tree<'a>, AllocError> {
        alone(arena, Kind::ExprPath, &self.path)
    }
}
