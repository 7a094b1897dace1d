// A run over several sources.
ghost use Rattle.std.specs.Prelude.{◌≡◌, IfOk, vec_len};

use crate::runs::{host, tree_of, words};
use gn_outside::{TreeSink, TreeSource};
use gn_top::run_gn;
use std::alloc::{AllocError, Global};
use std::sync::Wait;
use std::test::Fail;
use std::thread::Threads;

const GROUPS: &str = "//BUILD.gn\x1fgroup(\"b\") {\n}\ngroup(\"a\") {\n}\n\x1d";

// A source that fails at the calls of these numbers.
fn source(alloc: Global, failing: &[u64]) -> Result<TreeSource, AllocError> {
    let tree = tree_of(alloc, GROUPS)?;
    Ok(TreeSource::new(alloc, tree, failing.to_vec(alloc)?))
}

// Three sources, the second of which fails at its first call.
fn sources(alloc: Global) -> Result<Vec<TreeSource>, AllocError>
    ensures { IfOk result (λ sources. vec_len sources ≡ 3) }
{
    let mut sources = Vec::new(alloc);
    sources.push(source(alloc, &[])?)?;
    sources.push(source(alloc, &[1])?)?;
    sources.push(source(alloc, &[])?)?;
    Ok(sources)
}

// Whether there are three sources, the first of which has read the build files last, and no other one anything.
fn the_first_is_read(sources: &[TreeSource]) -> bool {
    match sources {
        [first, second, third] => {
            first.read_path(4).is_some()
                && first.read_path(5).is_none()
                && second.read_path(0).is_none()
                && third.read_path(0).is_none()
        }
        _ => false,
    }
}

// Whether a run over three sources says its answer, and reads the first one alone.
fn one_worker_runs<R: Threads + Wait + Sync>(rt: &R, alloc: Global) -> Result<bool, AllocError> {
    let host = host(alloc)?;
    let words = words(alloc, "ls out")?;
    let sources = sources(alloc)?;
    let mut sink = TreeSink::new(alloc, Vec::new(alloc));
    let ended = run_gn(rt, alloc, &words, &host, sources, &mut sink);
    Ok(
        ended.status == 0
            && ended.units == 2
            && sink.said() == b"//:a\n//:b\n".as_slice()
            && the_first_is_read(&ended.sources),
    )
}

#[test]
fn sources_without_a_worker_are_not_read(rt: HostRuntime) -> Result<(), Fail> {
    assert!(rt; one_worker_runs(&rt, rt.alloc())?);
    Ok(())
}
