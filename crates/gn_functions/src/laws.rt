// What the rows of calls say, and the calls themselves; and which names define items.

ghost use Rattle.gn_calls_text.specs.declared.call.TextCall.{TextCall};
ghost use Rattle.gn_calls_text.specs.Calls.{text_call};
ghost use Rattle.gn_calls_path.specs.declared.call.PathCall.{PathCall};
ghost use Rattle.gn_calls_path.specs.declared.place.Where.{Where};
ghost use Rattle.gn_calls_path.specs.Calls.{path_call};
ghost use Rattle.gn_functions.specs.Laws.{RefusedAlike, TakenAlike, CallsAreOfTheirKinds, KindsAreCalled, KindsAreOfTargets, TargetsAreKinds};
ghost use Rattle.gn_functions.specs.declared.function.Plain.TheVariants.{Text, Path};

use gn_rows::kinds_are_found_by_their_names;

/// The row of a call on texts and lists, and that of a call on paths and labels wherever it stands, takes a number of arguments
/// exactly where the call itself does: other numbers the call refuses too, whatever the values are, and of each number that
/// the row takes there are values that the call judges by their types. The row judges first, before an argument is evaluated,
/// so no call comes to refuse a number.
pub fn rows_are_of_their_calls()
    ensures refused { (f : TextCall) → RefusedAlike (Text f) (text_call f) }
    ensures taken { (f : TextCall) → TakenAlike (Text f) (text_call f) }
    ensures paths_refused { (f : PathCall) (w : Where) → RefusedAlike (Path f) (path_call f w) }
    ensures paths_taken { (f : PathCall) (w : Where) → TakenAlike (Path f) (path_call f w) }
{}

/// An item is called by the name of its kind: what a call defines is of the kind whose name the call has, and of each kind there
/// is such a call. The first argument of `target` names just the kinds of targets.
pub fn items_are_called_by_their_kinds()
    ensures calls { CallsAreOfTheirKinds }
    ensures called { KindsAreCalled }
    ensures kinds { KindsAreOfTargets }
    ensures targets { TargetsAreKinds }
{
    kinds_are_found_by_their_names();
}
