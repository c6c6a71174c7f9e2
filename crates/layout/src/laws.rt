//! Laws of the definitions.
ghost use Rattle.std.specs.Prelude.{ℕ, List};
ghost use Rattle.layout.specs.declared.edge.Edge.{Edge};
ghost use Rattle.layout.specs.declared.lines.Layout.{Layout};
ghost use Rattle.layout.specs.declared.ways.Attachment.{Attachment};
ghost use Rattle.layout.specs.EdgePaths.{ColoursTellPaths, HaveEndsBelow};
ghost use Rattle.layout.specs.Paths.{HasOneDistance, HasOnePath, IsDistance, PathsFollowEdges, StandsOnSegments};
ghost use Rattle.layout.specs.Sound.{IsSound};

/// Two of n parts have one colour exactly where a path of edges leads from the one to the other, for all edges whose
/// ends are such parts. The tests for loops and for segments apart compare these colours.
pub fn colours_tell_paths()
    ensures { (n : ℕ) (edges : List Edge) → HaveEndsBelow n edges → ColoursTellPaths n edges }
{}

/// From a tap a path over segments and repeaters leads to another one exactly where a path of edges joins their
/// segments, in each layout whose taps stand on its segments.
pub fn paths_follow_edges()
    ensures { (l : Layout) → StandsOnSegments l → PathsFollowEdges l }
{}

/// Between two different taps of a sound layout there is exactly one path over segments and repeaters.
pub fn one_path()
    ensures { (l : Layout) → IsSound l → HasOnePath l }
{}

/// Two different taps of a sound layout have exactly one distance.
pub fn one_distance()
    ensures { (l : Layout) → IsSound l → HasOneDistance l }
{}

/// A distance is the same both ways.
pub fn distance_back()
    ensures { (l : Layout) (a b : Attachment) (n : ℕ) → IsDistance l a b n → IsDistance l b a n }
{}
