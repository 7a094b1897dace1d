// The stages of a run.

ghost use Rattle.std.specs.Prelude.{◌≡◌, ◌==◌};
ghost use Rattle.std.proofs.Common.{rules};
ghost use Rattle.std.specs.Cmp.{partial_order_from_own_ties};
ghost use Rattle.std.specs.Cmp.Rules.{comparing};
ghost use Rattle.std.specs.Ordering.{nat_cmp, on, as_partial_cmp};
ghost use Rattle.gn_faults.specs.Numbers.{stage_number};

use std::cmp::Ordering;

/// The stage of a run at which a fault is found. Stages are ordered as they are here, and only the faults of the lowest
/// stage that has any count.
#[derive(Clone, Copy, Debug)]
pub enum Stage {
    /// The dotfile, then the arguments.
    Arguments = 1,
    /// Loading the build files and all that they import.
    Loading = 2,
    /// The graph of what the build files define.
    Graph = 3,
    /// The question that the command asks.
    Question = 4,
    /// The check of the includes.
    Includes = 5,
}

impl Stage {
    // The number of the stage, from 1 to 5.
    #[tactic(auto, unfolding(crate::specs::Numbers::stage_number))]
    fn number(self) -> u8
        ensures { result ≡ stage_number self }
    {
        self as u8
    }
}

impl PartialEq for Stage {
    ghost eq = { on stage_number ◌==◌ };

    ghost laws = { Prim.search (comparing, rules) };

    fn eq(&self, other: &Stage) -> bool {
        self.number() == other.number()
    }
}

impl Eq for Stage {
    ghost laws = { Prim.search (comparing, rules) };
}

impl PartialOrd for Stage {
    ghost partial_cmp = { as_partial_cmp (on stage_number nat_cmp) };

    ghost laws = { partial_order_from_own_ties (Prim.search (comparing, rules)) (Prim.search (comparing, rules)) };

    fn partial_cmp(&self, other: &Stage) -> Option<Ordering> {
        Some(self.cmp(other))
    }
}

impl Ord for Stage {
    ghost cmp = { on stage_number nat_cmp };

    ghost total = { Prim.search (comparing, rules) };

    ghost matches_partial_cmp = { Prim.search (comparing, rules) };

    ghost matches_eq = { Prim.search (comparing, rules) };

    fn cmp(&self, other: &Stage) -> Ordering {
        self.number().cmp(&other.number())
    }
}
