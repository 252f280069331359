//! Forms that may be missing.

ghost use Rattle.reader_table.specs.Looks.{look_of};
ghost use Rattle.std.specs.Prelude.{◌≡◌, IfErr, IfNone, IfOk, IfSome, OnErr, false, true};
ghost use Rattle.syn_read.specs.Optional.{abi_stands, bound_lifetimes_stand, where_clause_stands};
ghost use Rattle.syn_read.specs.Reading.{IsOnward, left};
ghost use Rattle.syn_error.specs.Faults.{IsSyntax};
ghost use Rattle.syn_grammar.specs.Look.{Look as GivenLook, a_lifetime, sees};
ghost use Rattle.syn_grammar.specs.Read.{IsDerived, NoneRead};
ghost use Rattle.syn_grammar.specs.Tree.{Tree as GivenTree};

use crate::reader::Reader;
use reader_table::op::Look;
use reader_table::word::{Keyword, Words};
use syn_ast::generics::WhereClause;
use syn_ast::types::{Abi, BoundLifetimes};
use syn_error::ParseFault;
use syn_expr::blocks::Label;
use syn_typed::Parse;

/// A form that may be missing, and is where the grammar does not see it begin.
pub trait ParseOptional<'a>: Parse<'a> {
    /// The look by which the grammar says whether one stands there.
    ghost stands: { GivenLook };

    /// That look.
    fn look() -> Look
        ensures { look_of result ≡ stands };
}

impl<'a> ParseOptional<'a> for Abi<'a> {
    ghost stands = { abi_stands };

    fn look() -> Look
        ensures { look_of result ≡ abi_stands }
    {
        Look::Word(Words::Keyword(Keyword::Extern))
    }
}

impl<'a> ParseOptional<'a> for BoundLifetimes<'a, 'a> {
    ghost stands = { bound_lifetimes_stand };

    fn look() -> Look
        ensures { look_of result ≡ bound_lifetimes_stand }
    {
        Look::Word(Words::Keyword(Keyword::For))
    }
}

impl<'a> ParseOptional<'a> for Label<'a> {
    ghost stands = { a_lifetime };

    fn look() -> Look
        ensures { look_of result ≡ a_lifetime }
    {
        Look::Lifetime
    }
}

impl<'a> ParseOptional<'a> for WhereClause<'a, 'a> {
    ghost stands = { where_clause_stands };

    fn look() -> Look
        ensures { look_of result ≡ where_clause_stands }
    {
        Look::Word(Words::Keyword(Keyword::Where))
    }
}

impl<'a> Reader<'a> {
    /// Reads the form of the type that stands there, as `input.parse_optional::<WhereClause>()`; `None`, and nothing is
    /// read, exactly where the grammar sees none begin.
    ///
    /// # Errors
    ///
    /// Those of `parse`. The reader then stands where it stood.
    pub fn parse_optional<T: ParseOptional<'a>>(&mut self) -> Result<Option<T>, ParseFault>
        ensures missing { IfOk result (λ o. IfNone o
            ((sees T.stands (left self.old) ≡ false) × (self.new ≡ self.old))) }
        ensures read { IfOk result (λ o. IfSome o (λ x. (sees T.stands (left self.old) ≡ true) × ((tree : GivenTree)
            × IsDerived T.kind (left self.old) tree (left self.new) × T.says x tree))) }
        ensures refused { IfErr result (λ e. IsSyntax e
            → (sees T.stands (left self.old) ≡ true) × NoneRead T.kind (left self.old)) }
        ensures stays { OnErr result (self.new ≡ self.old) }
        ensures onward { IsOnward self.old self.new }
    {
        if !self.sees(T::look()) {
            return Ok(None);
        }
        let form = self.form::<T>()?;
        Ok(Some(form))
    }
}
