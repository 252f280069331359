//! Trees once more.

ghost use Rattle.std.specs.Prelude.{◌≡◌};

use crate::tree::{Form, Tree};

// The form once more, over the same trees.
fn copied<'a>(form: &Form<'a>) -> Form<'a>
    ensures { result ≡ form.now }
{
    match form {
        Form::Word(ident) => Form::Word(ident),
        Form::Literal(literal) => Form::Literal(literal),
        Form::Mark(sign, spacing, span) => Form::Mark(*sign, *spacing, *span),
        Form::Lifetime(lifetime) => Form::Lifetime(lifetime),
        Form::Raw(entries) => Form::Raw(entries),
        Form::Nil => Form::Nil,
        Form::Pair(two) => Form::Pair(two),
        Form::First(depth, inner) => Form::First(*depth, inner),
        Form::Second(depth, inner) => Form::Second(*depth, inner),
        Form::End => Form::End,
        Form::Turns(turns) => Form::Turns(turns),
        Form::Elements(list) => Form::Elements(list),
        Form::Group(delimiter, group) => Form::Group(*delimiter, group),
        Form::Dropped(inner) => Form::Dropped(inner),
        Form::Called(part, inner) => Form::Called(*part, inner),
        Form::Verbatim(inner) => Form::Verbatim(inner),
        Form::Node(kind, inner) => Form::Node(*kind, inner),
        Form::Whole(inner) => Form::Whole(inner),
        Form::Alone(kind, own) => Form::Alone(*kind, own),
        Form::Front(kind, two) => Form::Front(*kind, two),
        Form::Back(kind, two) => Form::Back(*kind, two),
        Form::Infix(kind, three) => Form::Infix(*kind, three),
    }
}

impl<'a> Tree<'a> {
    /// The same tree once more, in the same arena: no memory is taken, and what stands below it is not looked at.
    pub fn copy(&self) -> Tree<'a>
        ensures { result ≡ self.now }
    {
        Tree {
            form: copied(&self.form),
        }
    }
}
