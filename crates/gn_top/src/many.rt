// The whole run over several sources.
ghost use Rattle.std.specs.Prelude.{◌≡◌, ◌<◌, ◌≤◌, [], map, string_bytes, vec_len, drop};
ghost use Rattle.gn_outside.specs.Tree.{Tree};
ghost use Rattle.gn_outside.specs.Lists.{AllDiffer, Each, EachPair};
ghost use Rattle.gn_outside.specs.Sources.{AllTell, AllTellReads, ReadsOn, joined_reads};
ghost use Rattle.gn_top.specs.Hosts.{IsRoot, host_texts};
ghost use Rattle.gn_top.specs.Words.{HasNoForm, worker_count};
ghost use Rattle.gn_command_line.specs.Words.{texts};
ghost use Rattle.gn_top.specs.Said.{said, asked};
ghost use Rattle.gn_top.specs.Run.{EndsAs, NoFault, EndsWithUsage, CannotRead, IsCutShort, LoadsUnits};

use crate::host::{Ended, Host};
use crate::one::run_one;
use gn_outside::{Sink, Source};
use std::alloc::Global;
use std::sync::Wait;
use std::thread::Threads;

/// The whole run of a command line over 1 to 64 sources, which come back in their places.
///
/// The words, the sink and the statuses are those of [`run_one`], and so is the memory that a call keeps until the process ends. Sources
/// that have no worker aren't read.
pub fn run_gn<R: Threads + Wait + Sync, S: Source + Send, K: Sink>(
    rt: &R,
    alloc: Global,
    words: &[String],
    host: &Host,
    sources: Vec<S>,
    sink: &mut K,
) -> Ended<S>
    requires count { (1 ≤ vec_len sources) × (vec_len sources ≤ 64) }
    requires root { IsRoot (string_bytes host.now.root) }

    ensures status_range { result.status ≤ 5 }

    // Status 0, 1 or 2: the meaning of the words, and nothing has failed.
    ensures meaning { (tree : Tree) → AllTell tree (map S.state sources.items) → result.status ≤ 2 →
        EndsAs (said (texts words.now) (host_texts host.now) [] tree) (K.state sink.old) (K.state sink.new) result.status }
    ensures no_fault { result.status ≤ 2 → NoFault (map S.state sources.items) (map S.state result.sources.items) (K.state sink.old) (K.state sink.new) }

    // Status 2: the words have no form, and then nothing but the usage line is said, whatever the sources tell.
    ensures usage { result.status ≡ 2 → HasNoForm (texts words.now) [] }
    ensures no_form { HasNoForm (texts words.now) [] →
        EndsWithUsage (map S.state sources.items) (map S.state result.sources.items) (K.state sink.old) (K.state sink.new) result.status result.units }

    // Status 3: a read has failed in this call.
    ensures cannot_read { result.status ≡ 3 → CannotRead (map S.state sources.items) (map S.state result.sources.items) (K.state sink.old) (K.state sink.new) }

    // Status 4: a write has failed in this call. Status 5 is want of memory.
    ensures cannot_write { result.status ≡ 4 → (K.state sink.old).faults < (K.state sink.new).faults }
    ensures cut_short { (tree : Tree) → AllTell tree (map S.state sources.items) → 4 ≤ result.status →
        IsCutShort (said (texts words.now) (host_texts host.now) [] tree) (map S.state sources.items) (map S.state result.sources.items) (K.state sink.old) (K.state sink.new) }

    // Only what the meaning asks is read, and nothing twice.
    ensures reads_once { AllTellReads (map S.state sources.items) → AllDiffer (joined_reads (map S.state sources.items) (map S.state result.sources.items)) }
    ensures reads_asked { (tree : Tree) → AllTell tree (map S.state sources.items) → AllTellReads (map S.state sources.items) →
        Each (asked (texts words.now) (host_texts host.now) [] tree) (joined_reads (map S.state sources.items) (map S.state result.sources.items)) }

    // The number of build files loaded.
    ensures units { (tree : Tree) → AllTell tree (map S.state sources.items) →
        LoadsUnits (said (texts words.now) (host_texts host.now) [] tree) result.status result.units }

    // Each source comes back in its place and goes on, and isn't read again after a failed read. Those without a worker are as
    // they were.
    ensures sources { EachPair ReadsOn (map S.state sources.items) (map S.state result.sources.items) }
    ensures idle { let workers = worker_count (texts words.now) (vec_len sources) in
        drop workers result.sources.items ≡ drop workers sources.items }
{
    let mut sources = sources;
    let one = run_one(rt, alloc, words, host, &mut sources[0], sink);
    Ended {
        status: one.status,
        sources,
        units: one.units,
    }
}
