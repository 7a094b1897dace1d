// The whole run over one source.
ghost use Rattle.std.specs.Prelude.{◌≡◌, ◌<◌, ◌≤◌, [], ◌∷◌, IfOk, string_bytes};
ghost use Rattle.gn_outside.specs.Tree.{Tree};
ghost use Rattle.gn_outside.specs.Lists.{AllDiffer, Each, EachPair};
ghost use Rattle.gn_outside.specs.Sources.{AllTell, AllTellReads, ReadsOn, joined_reads};
ghost use Rattle.gn_top.specs.Hosts.{IsRoot, host_texts};
ghost use Rattle.gn_top.specs.Words.{HasNoForm};
ghost use Rattle.gn_command_line.specs.Words.{texts};
ghost use Rattle.gn_top.specs.Said.{said, asked};
ghost use Rattle.gn_top.specs.Run.{EndsAs, NoFault, EndsWithUsage, CannotRead, IsCutShort, LoadsUnits};
ghost use Rattle.gn_top.specs.Texts.{cannot_read_line};
ghost use Rattle.gn_top.specs.Steps.{SaysUnder, TellsUnder};

use crate::answer::answer;
use crate::answered::RunStop;
use crate::host::{Host, One};
use crate::texts::CANNOT_READ;
use gn_out_files::OutFiles;
use gn_outside::{Sink, SinkStop, Source, say_text};
use gn_paths::Path;
use std::alloc::{AllocError, Global};
use std::mem::forget;
use std::thread::Threads;

// Says a text under a status from 0 to 3, unless the sink fails or lacks memory. An empty text isn't said.
fn say_under<K: Sink>(sink: &mut K, text: &[u8], status: u8) -> u8
    requires { status ≤ 3 }
    ensures { SaysUnder (K.state sink.old) (K.state sink.new) text.now status result }
{
    match say_text(sink, text) {
        Ok(()) => status,
        Err(SinkStop::Failed) => 4,
        Err(SinkStop::Memory) => 5,
    }
}

// Puts files and then says a text under a status from 0 to 3, unless the sink fails or lacks memory.
fn tell_under<K: Sink>(sink: &mut K, files: &OutFiles, text: &[u8], status: u8) -> u8
    requires { status ≤ 3 }
    ensures { TellsUnder (K.state sink.old) (K.state sink.new) files.now text.now status result }
{
    match files.put(sink) {
        Ok(()) => say_under(sink, text, status),
        Err(SinkStop::Failed) => 4,
        Err(SinkStop::Memory) => 5,
    }
}

// The line on the failed read of the file at a path.
fn failure_line(alloc: Global, path: &Path) -> Result<Vec<u8>, AllocError>
    ensures { IfOk result (λ line. line.items ≡ cannot_read_line path.now) }
{
    let mut line = CANNOT_READ.as_bytes().to_vec(alloc)?;
    line.extend_from_slice(path.as_bytes())?;
    line.push(b'\n')?;
    Ok(line)
}

// Says the line on a failed read. Want of memory for it is that of the run.
fn say_failure<K: Sink>(alloc: Global, sink: &mut K, path: &Path) -> u8
    ensures { SaysUnder (K.state sink.old) (K.state sink.new) (cannot_read_line path.now) 3 result }
{
    match failure_line(alloc, path) {
        Ok(line) => say_under(sink, &line, 3),
        Err(_) => 5,
    }
}

/// The whole run of a command line over one source, with one worker. It waits for nobody and always returns. Several threads make the
/// files of targets.
///
/// What was loaded and what was put aren't given back to the allocator: the program ends with its run, and to let millions of small pieces
/// go would take longer than much of the rest. So each call keeps its build's memory until the process ends.
///
/// `words` are those of the command line without the program's name. The files below the source root come from
/// `source`; the text goes to `sink`. The statuses are: 0, the answer was said; 1, the line of an error in the
/// build was said; 2, the words have no form and the usage line was said; 3, a read has failed and the line on it
/// was said; 4, a write has failed; 5, want of memory.
pub fn run_one<R: Threads + Sync, S: Source, K: Sink>(
    rt: &R,
    alloc: Global,
    words: &[String],
    host: &Host,
    source: &mut S,
    sink: &mut K,
) -> One
    requires { IsRoot (string_bytes host.now.root) }

    ensures status_range { result.status ≤ 5 }

    // Status 0, 1 or 2: the meaning of the words, and nothing has failed.
    ensures meaning { (tree : Tree) → AllTell tree (S.state source.old ∷ []) → result.status ≤ 2 →
        EndsAs (said (texts words.now) (host_texts host.now) [] tree) (K.state sink.old) (K.state sink.new) result.status }
    ensures no_fault { result.status ≤ 2 → NoFault (S.state source.old ∷ []) (S.state source.new ∷ []) (K.state sink.old) (K.state sink.new) }

    // Status 2: the words have no form, and then nothing but the usage line is said, whatever the sources tell.
    ensures usage { result.status ≡ 2 → HasNoForm (texts words.now) [] }
    ensures no_form { HasNoForm (texts words.now) [] →
        EndsWithUsage (S.state source.old ∷ []) (S.state source.new ∷ []) (K.state sink.old) (K.state sink.new) result.status result.units }

    // Status 3: a read has failed in this call.
    ensures cannot_read { result.status ≡ 3 → CannotRead (S.state source.old ∷ []) (S.state source.new ∷ []) (K.state sink.old) (K.state sink.new) }

    // Status 4: a write has failed in this call. Status 5 is want of memory.
    ensures cannot_write { result.status ≡ 4 → (K.state sink.old).faults < (K.state sink.new).faults }
    ensures cut_short { (tree : Tree) → AllTell tree (S.state source.old ∷ []) → 4 ≤ result.status →
        IsCutShort (said (texts words.now) (host_texts host.now) [] tree) (S.state source.old ∷ []) (S.state source.new ∷ []) (K.state sink.old) (K.state sink.new) }

    // Only what the meaning asks is read, and nothing twice.
    ensures reads_once { AllTellReads (S.state source.old ∷ []) → AllDiffer (joined_reads (S.state source.old ∷ []) (S.state source.new ∷ [])) }
    ensures reads_asked { (tree : Tree) → AllTell tree (S.state source.old ∷ []) → AllTellReads (S.state source.old ∷ []) →
        Each (asked (texts words.now) (host_texts host.now) [] tree) (joined_reads (S.state source.old ∷ []) (S.state source.new ∷ [])) }

    // The number of build files loaded.
    ensures units { (tree : Tree) → AllTell tree (S.state source.old ∷ []) →
        LoadsUnits (said (texts words.now) (host_texts host.now) [] tree) result.status result.units }

    // The source goes on, and isn't read again after a failed read.
    ensures sources { EachPair ReadsOn (S.state source.old ∷ []) (S.state source.new ∷ []) }
{
    match answer(rt, alloc, words, host, source) {
        Ok(answered) => {
            let status = tell_under(sink, &answered.files, &answered.text, answered.status);
            let units = answered.units;
            forget(answered);
            One { status, units }
        }
        Err(RunStop::CannotRead(path)) => One {
            status: say_failure(alloc, sink, &path),
            units: 0,
        },
        Err(RunStop::Memory) => One {
            status: 5,
            units: 0,
        },
    }
}
