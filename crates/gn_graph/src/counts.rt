// How many units of each kind were found.

ghost use Rattle.std.specs.Prelude.{◌≡◌, ◌+◌, ◌≤◌, ◌<◌, ◌^◌, length};
ghost use Rattle.gn_graph.specs.Facts.{step_of};
ghost use Rattle.gn_graph.specs.Counts.{AreCounts, one_more};

use crate::closure::Closure;
use crate::fact::Fact;
use crate::unit_key::UnitKey;

/// How many facts were looked at, and how many of them say that a build file or a build configuration is reached.
#[derive(Clone, Copy)]
pub(crate) struct Counts {
    pub(crate) seen: usize,
    pub(crate) loads: usize,
    pub(crate) setups: usize,
}

fn count(counts: Counts, fact: &Fact) -> Counts
    requires seen { counts.seen < 2 ^ 63 }
    requires loads { counts.loads ≤ counts.seen }
    requires setups { counts.setups ≤ counts.seen }
    ensures { result ≡ one_more counts (step_of fact.now) }
{
    let Counts {
        seen,
        loads,
        setups,
    } = counts;
    let seen = seen + 1;
    match fact {
        Fact::Reached(UnitKey::Load(_, _)) => Counts {
            seen,
            loads: loads + 1,
            setups,
        },
        Fact::Reached(UnitKey::Setup(_)) => Counts {
            seen,
            loads,
            setups: setups + 1,
        },
        _ => Counts {
            seen,
            loads,
            setups,
        },
    }
}

// The counts with the next fact.
fn count_next(closure: &Closure, counts: Counts) -> Counts
    requires counts { AreCounts closure.now.found counts }
    requires more { counts.seen < length closure.now.found }
    requires small { length closure.now.found < 2 ^ 63 }
    ensures counts { AreCounts closure.now.found result }
    ensures seen { result.seen ≡ counts.seen + 1 }
{
    match closure.found(counts.seen) {
        Some(fact) => count(counts, fact),
        None => unreachable!(),
    }
}

/// The counts of all facts found, where those of the facts before a place are known.
pub(crate) fn counted(closure: &Closure, counts: Counts) -> Counts
    requires { AreCounts closure.now.found counts }
    ensures counts { AreCounts closure.now.found result }
    ensures all { length closure.now.found ≤ result.seen }
{
    let end = closure.len();
    let mut counts = counts;
    while counts.seen < end {
        counts = count_next(closure, counts);
    }
    counts
}
