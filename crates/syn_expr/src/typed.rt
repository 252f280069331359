//! Patterns with their types, where they stand: in a `let`, and as a closure's parameter.

ghost use Rattle.std.specs.Prelude.{◌≡◌, None, Some, option_map};
ghost use Rattle.syn_pat.specs.PatTypes.{pattern_and_type};

use crate::blocks::ClosureParam;
use crate::stmt::Local;
use syn_pat::pat_type::PatType;

impl<'t, 'a> Local<'t, 'a> {
    /// Its pattern with its type, if it says one. That has no attributes: those of the `let` stand in front of the
    /// statement.
    pub fn pat_type(&self) -> Option<PatType<'t, 'a>>
        ensures { result ≡ option_map (λ m. pattern_and_type None self.now.pat m.mark m.node) self.now.ty }
    {
        match self.ty {
            Some(found) => Some(PatType {
                attrs: None,
                pat: self.pat,
                colon_token: found.mark,
                ty: found.node,
            }),
            None => None,
        }
    }
}

impl<'t, 'a> ClosureParam<'t, 'a> {
    /// Its pattern with its type, if it says one, behind its attributes.
    pub fn pat_type(&self) -> Option<PatType<'t, 'a>>
        ensures { result ≡ option_map (λ m. pattern_and_type (Some self.now.attrs) self.now.pat m.mark m.node)
            self.now.ty }
    {
        match self.ty {
            Some(found) => Some(PatType {
                attrs: Some(self.attrs),
                pat: self.pat,
                colon_token: found.mark,
                ty: found.node,
            }),
            None => None,
        }
    }
}
