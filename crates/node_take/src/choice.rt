//! What may be missing, and which alternative was chosen.

ghost use Rattle.node_shapes.specs.Shape.{IsShaped};
ghost use Rattle.node_take.specs.Seqs.{among, is_choice};
ghost use Rattle.proc_macro2.specs.Token.{Token};
ghost use Rattle.std.specs.Prelude.{◌≡◌, ◌≤◌, Bool, List, MatchOption, true};
ghost use Rattle.syn_grammar.specs.Gram as g;
ghost use Rattle.syn_grammar.specs.Tree as t;

use reader_tree::tree::{Form, Tree};

/// What stands there, if anything does.
#[tactic(auto, using(crate::proofs::Takes::takes))]
pub fn optional<'t, 'a>(tree: &'t Tree<'a>) -> Option<&'t Tree<'a>>
    requires { ((test : List Token → Bool) × (a : g.Gram) × IsShaped tree.now (g.alt test a g.nothing)) }
    ensures { MatchOption result (tree.now ≡ t.Second t.Nil) (λ x. tree.now ≡ t.First x.now) }
{
    match &tree.form {
        Form::First(depth, inner) => if *depth == 0 {
            Some(inner)
        } else {
            unreachable!()
        },
        Form::Second(depth, _) => if *depth == 0 { None } else { unreachable!() },
        _ => unreachable!(),
    }
}

/// Of so many alternatives and one more, of which the last is no choice again, which one was chosen, counted from 0,
/// and what it is.
#[tactic(auto, using(crate::proofs::Takes::takes, crate::proofs::Choices::chosen))]
pub fn alternative<'t, 'a>(count: usize, tree: &'t Tree<'a>) -> (usize, &'t Tree<'a>)
    requires { ((a : g.Gram) × (is_choice count a ≡ true) × IsShaped tree.now a) }
    ensures which { result.0 ≤ count }
    ensures chosen { tree.now ≡ among count result.0 result.1.now }
{
    if count == 0 {
        return (0, tree);
    }
    match &tree.form {
        Form::First(depth, inner) => (*depth as usize, inner),
        Form::Second(depth, inner) => {
            let passed = *depth as usize + 1;
            let (which, chosen) = alternative(count - passed, inner);
            (which + passed, chosen)
        }
        _ => unreachable!(),
    }
}
