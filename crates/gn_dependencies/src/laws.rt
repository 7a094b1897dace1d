// What holds of dependencies, of what comes along them, and of the order of what is inherited.

ghost use Rattle.std.specs.Prelude.{List};
ghost use Rattle.std.specs.List.{IsDistinct};
ghost use Rattle.gn_labels.specs.declared.label.Label.{Label};
ghost use Rattle.gn_dependencies.specs.Lists.{same_label, firsts};
ghost use Rattle.gn_dependencies.specs.Shape.{Shape};
ghost use Rattle.gn_dependencies.specs.Configurations.{IsApplied, IsPushed, IsPushedPublic, Records, AreRecorded, applied_from, pushed_from, pushed_public_from};
ghost use Rattle.gn_dependencies.specs.Inherited.{IsInherited, IsOrder};
ghost use Rattle.gn_dependencies.specs.Laws.{FirstPlaceCounts, EachPathIsListed, BoundedPathsHaveNoCycle, NoCycleBoundsPaths, LeastSetIsBounded, IsLocal, IsLocalTo, IsOne, IsOneOf, DependentsStandFirst, OrderHasTheWalked};

use gn_labels::label_order_has_no_ties;

/// In a list whose later repeats are dropped, as the configurations applied to a target, each label stands once.
pub fn each_label_stands_once()
    ensures { (xs : List Label) → IsDistinct same_label (firsts xs) }
{}

/// And it stands at its first place: right behind those that stood before it.
pub fn first_places_count()
    ensures { FirstPlaceCounts }
{}

/// What is listed as the paths of at most so many edges is just those.
pub fn each_path_is_listed()
    ensures { EachPathIsListed }
{}

/// A target reaches no cycle exactly where its paths are bounded, if only some labels have dependencies; and these are the
/// targets of the least set that holds a target once it holds all that it depends on.
pub fn no_cycle_is_bounded_paths()
    ensures free { BoundedPathsHaveNoCycle }
    ensures bounded { NoCycleBoundsPaths }
    ensures least { LeastSetIsBounded }
{}

/// The record of a target follows from those of its dependencies: what comes along all paths is what these hand on.
pub fn records_come_from_dependencies()
    ensures applied { (g : Shape) (r : Records) (t : Label) → AreRecorded g r t → IsApplied g t (firsts (applied_from g r t)) }
    ensures pushed { (g : Shape) (r : Records) (t : Label) → AreRecorded g r t → IsPushed g t (firsts (pushed_from g r t)) }
    ensures public { (g : Shape) (r : Records) (t : Label) → AreRecorded g r t → IsPushedPublic g t (firsts (pushed_public_from g r t)) }
{}

/// The record of a target depends on what it reaches alone: two graphs that agree there have one record of it, so a record over a
/// part of what is known is the record over all.
pub fn records_are_local()
    ensures applied { IsLocal IsApplied }
    ensures pushed { IsLocal IsPushed }
    ensures public { IsLocal IsPushedPublic }
{}

/// A target has one record.
pub fn there_is_one_record()
    ensures applied { IsOne IsApplied }
    ensures pushed { IsOne IsPushed }
    ensures public { IsOne IsPushedPublic }
{}

/// Of walked targets each stands before every other to which a path of dependencies over walked targets leads from it.
pub fn dependents_stand_first()
    ensures { DependentsStandFirst }
{}

/// Just the walked targets stand in their order, and each once.
pub fn orders_have_the_walked()
    ensures { OrderHasTheWalked }
{}

/// There is one such order, and so one list of inherited libraries.
pub fn there_is_one_order()
    ensures order { IsOneOf IsOrder }
    ensures inherited { IsOneOf IsInherited }
{
    label_order_has_no_ties();
}

/// It depends on what the target reaches alone.
pub fn inherited_libraries_are_local()
    ensures { IsLocalTo IsInherited }
{}
