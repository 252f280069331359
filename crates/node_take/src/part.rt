//! The parts of sequences, nodes, groups, named parts and expressions.

ghost use Rattle.node_shapes.specs.Shape.{AreForms, IsShaped};
ghost use Rattle.node_take.specs.Seqs.{is_seq};
ghost use Rattle.reader_table.specs.Kinds.{kind_of};
ghost use Rattle.std.specs.Prelude.{◌≡◌, Bool, true, ℕ};
ghost use Rattle.syn_grammar.specs.Gram as g;
ghost use Rattle.syn_grammar.specs.Kind.{Kind as GivenKind, Position as GivenPosition};
ghost use Rattle.syn_grammar.specs.Name.{Part as GivenPart};
ghost use Rattle.syn_grammar.specs.Table.{table};
ghost use Rattle.syn_grammar.specs.Tree as t;
ghost use Rattle.syn_grammar.specs.Tree.{Tree as GivenTree};
ghost use Rattle.syn_grammar.specs.Types.{kept_if};
ghost use Rattle.syn_kinds.specs.Values.{delimiter_of};

use reader_table::kind::Kind;
use reader_tree::tree::{Form, Tree};
use syn_kinds::delimiters::Delimiters;

/// Of two trees, one behind the other, both.
#[tactic(auto, using(crate::proofs::Takes::takes))]
pub fn pair<'t, 'a>(tree: &'t Tree<'a>) -> (&'t Tree<'a>, &'t Tree<'a>)
    requires { ((a b : g.Gram) × IsShaped tree.now (g.seq a b)) }
    ensures { tree.now ≡ t.Pair result.0.now result.1.now }
{
    match &tree.form {
        Form::Pair(two) => (&two.front, &two.back),
        _ => unreachable!(),
    }
}

/// Of a node of that kind its inside.
#[tactic(auto, using(crate::proofs::Takes::takes))]
pub fn node<'t, 'a>(kind: Kind, tree: &'t Tree<'a>) -> &'t Tree<'a>
    requires { IsShaped tree.now (g.ref (kind_of kind)) }
    ensures node { tree.now ≡ t.Node (kind_of kind) result.now }
    ensures shaped { IsShaped result.now (table (kind_of kind)) }
{
    match &tree.form {
        Form::Node(_, inner) => inner,
        _ => unreachable!(),
    }
}

/// Of a tree of three parts, one behind the other, each.
pub fn three<'t, 'a>(tree: &'t Tree<'a>) -> (&'t Tree<'a>, &'t Tree<'a>, &'t Tree<'a>)
    requires { ((a : g.Gram) × (is_seq 2 a ≡ true) × IsShaped tree.now a) }
    ensures { tree.now ≡ t.Pair result.0.now (t.Pair result.1.now result.2.now) }
{
    let (first, behind) = pair(tree);
    let (second, third) = pair(behind);
    (first, second, third)
}

/// The same of four.
pub fn four<'t, 'a>(tree: &'t Tree<'a>) -> (&'t Tree<'a>, &'t Tree<'a>, &'t Tree<'a>, &'t Tree<'a>)
    requires { ((a : g.Gram) × (is_seq 3 a ≡ true) × IsShaped tree.now a) }
    ensures { tree.now ≡ t.Pair result.0.now (t.Pair result.1.now (t.Pair result.2.now result.3.now)) }
{
    let (first, behind) = pair(tree);
    let (second, third, fourth) = three(behind);
    (first, second, third, fourth)
}

/// The same of five.
pub fn five<'t, 'a>(
    tree: &'t Tree<'a>,
) -> (
    &'t Tree<'a>,
    &'t Tree<'a>,
    &'t Tree<'a>,
    &'t Tree<'a>,
    &'t Tree<'a>,
)
    requires { ((a : g.Gram) × (is_seq 4 a ≡ true) × IsShaped tree.now a) }
    ensures { tree.now ≡ t.Pair result.0.now (t.Pair result.1.now (t.Pair result.2.now
        (t.Pair result.3.now result.4.now))) }
{
    let (first, behind) = pair(tree);
    let (second, third, fourth, fifth) = four(behind);
    (first, second, third, fourth, fifth)
}

/// The same of six.
pub fn six<'t, 'a>(
    tree: &'t Tree<'a>,
) -> (
    &'t Tree<'a>,
    &'t Tree<'a>,
    &'t Tree<'a>,
    &'t Tree<'a>,
    &'t Tree<'a>,
    &'t Tree<'a>,
)
    requires { ((a : g.Gram) × (is_seq 5 a ≡ true) × IsShaped tree.now a) }
    ensures { tree.now ≡ t.Pair result.0.now (t.Pair result.1.now (t.Pair result.2.now
        (t.Pair result.3.now (t.Pair result.4.now result.5.now)))) }
{
    let (first, behind) = pair(tree);
    let (second, third, fourth, fifth, sixth) = five(behind);
    (first, second, third, fourth, fifth, sixth)
}

/// The same of seven.
pub fn seven<'t, 'a>(
    tree: &'t Tree<'a>,
) -> (
    &'t Tree<'a>,
    &'t Tree<'a>,
    &'t Tree<'a>,
    &'t Tree<'a>,
    &'t Tree<'a>,
    &'t Tree<'a>,
    &'t Tree<'a>,
)
    requires { ((a : g.Gram) × (is_seq 6 a ≡ true) × IsShaped tree.now a) }
    ensures { tree.now ≡ t.Pair result.0.now (t.Pair result.1.now (t.Pair result.2.now
        (t.Pair result.3.now (t.Pair result.4.now (t.Pair result.5.now result.6.now))))) }
{
    let (first, behind) = pair(tree);
    let (second, third, fourth, fifth, sixth, seventh) = six(behind);
    (first, second, third, fourth, fifth, sixth, seventh)
}

/// The same of eight.
pub fn eight<'t, 'a>(
    tree: &'t Tree<'a>,
) -> (
    &'t Tree<'a>,
    &'t Tree<'a>,
    &'t Tree<'a>,
    &'t Tree<'a>,
    &'t Tree<'a>,
    &'t Tree<'a>,
    &'t Tree<'a>,
    &'t Tree<'a>,
)
    requires { ((a : g.Gram) × (is_seq 7 a ≡ true) × IsShaped tree.now a) }
    ensures { tree.now ≡ t.Pair result.0.now (t.Pair result.1.now (t.Pair result.2.now
        (t.Pair result.3.now (t.Pair result.4.now (t.Pair result.5.now (t.Pair result.6.now result.7.now)))))) }
{
    let (first, behind) = pair(tree);
    let (second, third, fourth, fifth, sixth, seventh, eighth) = seven(behind);
    (first, second, third, fourth, fifth, sixth, seventh, eighth)
}

/// Of a group its delimiters and its inside.
#[tactic(auto, using(crate::proofs::Takes::takes))]
pub fn group<'t, 'a, const D: usize>(tree: &'t Tree<'a>) -> (Delimiters<D>, &'t Tree<'a>)
    requires { ((a : g.Gram) × IsShaped tree.now (g.group (delimiter_of D) a)) }
    ensures { tree.now ≡ t.Group (delimiter_of D) result.1.now }
{
    match &tree.form {
        Form::Group(_, enclosed) => (Delimiters::new(enclosed.span), &enclosed.inside),
        _ => unreachable!(),
    }
}

/// Of a part what it is, whatever its name.
#[tactic(auto, using(crate::proofs::Takes::takes))]
pub fn called<'t, 'a>(tree: &'t Tree<'a>) -> &'t Tree<'a>
    requires { ((n : GivenPart) × (a : g.Gram) × IsShaped tree.now (g.called n a)) }
    ensures { ((n : GivenPart) × (tree.now ≡ t.Called n result.now)) }
{
    match &tree.form {
        Form::Called(_, inner) => inner,
        _ => unreachable!(),
    }
}

/// Of what is judged, and is kept or refused, what is kept.
#[tactic(auto, using(crate::proofs::Takes::takes, crate::proofs::Takes::judges))]
pub fn kept<'t, 'a>(tree: &'t Tree<'a>) -> &'t Tree<'a>
    requires { ((v : GivenTree → Bool) × (a : g.Gram) × IsShaped tree.now (g.judged (λ x. kept_if (v x)) a)) }
    ensures { tree.now ≡ t.First result.now }
{
    match &tree.form {
        Form::First(depth, inner) => if *depth == 0 { inner } else { unreachable!() },
        _ => unreachable!(),
    }
}

/// Of a whole expression its form.
#[tactic(auto, using(crate::proofs::Takes::takes))]
pub fn whole<'t, 'a>(tree: &'t Tree<'a>) -> &'t Tree<'a>
    requires { ((p : GivenPosition) × (n : ℕ) × IsShaped tree.now (g.operand p n)) }
    ensures whole { tree.now ≡ t.Whole result.now }
    ensures forms { AreForms result.now }
{
    match &tree.form {
        Form::Whole(inner) => inner,
        _ => unreachable!(),
    }
}
