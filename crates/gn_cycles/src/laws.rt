// What holds of shortest paths, and of targets that reach no cycle.

ghost use Rattle.std.specs.Prelude.{◌≡◌, List, true};
ghost use Rattle.gn_labels.specs.declared.label.Label.{Label};
ghost use Rattle.gn_dependencies.specs.Lists.{has};
ghost use Rattle.gn_dependencies.specs.Shape.{Shape, Path, all_deps};
ghost use Rattle.gn_cycles.specs.Settled.{AreSettled};
ghost use Rattle.gn_cycles.specs.Shortest.{IsShortest, IsApart};

/// There is one shortest path: the dependency order leaves no ties.
pub fn there_is_one_shortest_path()
    ensures { (next : Label → List Label) (t goal : Label) (p q : Path) → IsShortest next t goal p → IsShortest next t goal q → p ≡ q }
{}

/// A target whose paths are bounded lies on no cycle.
pub fn settled_targets_lie_on_no_cycle()
    ensures { (g : Shape) (labels : List Label) (t : Label) → AreSettled g labels → has labels t ≡ true → IsApart (all_deps g) t t }
{}
