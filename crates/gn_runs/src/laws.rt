// What follows from being a tree of questions, for whatever leaves what an import leaves.

ghost use Rattle.gn_runs.specs.Laws.{StaysSettled, StaysInNeed, AsksMore, NeedsUnknown, AsksKnown, SpoiledByUnusable, UnusableSpoils, DependsOnAsked};
ghost use Rattle.gn_runs.specs.Runs.{Answers, Run, IsTree};
ghost use Rattle.gn_definitions.specs.Imported.{ImportState};

/// More answers change no run but one whose need they meet, and what was asked is asked still.
pub fn more_answers_keep_runs()
    ensures settled { (m : Answers → Run ImportState) → IsTree m → StaysSettled m }
    ensures needs { (m : Answers → Run ImportState) → IsTree m → StaysInNeed m }
    ensures asked { (m : Answers → Run ImportState) → IsTree m → AsksMore m }
{}

/// A run ends at the first question whose answer isn't known, or whose import can't be used, and asks nothing behind it.
pub fn runs_stop_at_answers()
    ensures needs { (m : Answers → Run ImportState) → IsTree m → NeedsUnknown m }
    ensures known { (m : Answers → Run ImportState) → IsTree m → AsksKnown m }
    ensures spoiled { (m : Answers → Run ImportState) → IsTree m → SpoiledByUnusable m }
    ensures unusable { (m : Answers → Run ImportState) → IsTree m → UnusableSpoils m }
{}

/// Answers that agree on what a run asked over one of them give the same run.
pub fn runs_depend_on_what_they_ask()
    ensures { (m : Answers → Run ImportState) → IsTree m → DependsOnAsked m }
{}
