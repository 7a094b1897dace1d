//! What holds of command lines, each as a call that does nothing and whose contract is the law.

ghost use Rattle.std.specs.Prelude.{◌≡◌, ℕ, List, Some};
ghost use Rattle.gn_command_line.specs.Words.{AreShort, Line, line_said};

/// The build arguments that a command line gives can be written to a file with a newline behind them, and read again.
#[tactic(auto, using(crate::proofs::CommandLemmas::line_short))]
pub fn arguments_are_short()
    ensures { (words : List (List ℕ)) (line : Line) → line_said words ≡ Some line → AreShort line.options.arguments }
{}
