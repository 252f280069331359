//! How the segments of a path are counted.

ghost use Rattle.std.specs.Prelude.{◌≡◌, suc};
ghost use Rattle.syn_ast.specs.Paths.{segments};
ghost use Rattle.syn_ast.specs.Position.{further_count, segment_count};
ghost use Rattle.syn_ast.specs.declared.paths.Segments.{Segments};
ghost use Rattle.syn_grammar.specs.Gram as g;
ghost use Rattle.syn_grammar.specs.Kind as k;
ghost use Rattle.syn_part.specs.Shape.{IsShaped};

/// Segments are one more than those behind their first one.
pub fn segments_are_counted()
    ensures { (x : Segments) (s : k.Style) → IsShaped (segments x) (g.ref (k.Segments s))
        → segment_count (segments x) ≡ suc (further_count x.others) }
{}
