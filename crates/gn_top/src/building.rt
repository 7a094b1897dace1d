// A whole build, stage by stage: the dotfile and the build arguments, all that is loaded behind these, and the build arguments that this declares.

ghost use Rattle.std.specs.Prelude.{◌≡◌, [], IfOk, Ok, Some, None};
ghost use Rattle.gn_outside.specs.Tree.{Tree};
ghost use Rattle.gn_builds.specs.Driving.{FailsAt};
ghost use Rattle.gn_builds.specs.Rest.{ReadsAsked};
ghost use Rattle.gn_built.specs.Built.{build_of};
ghost use Rattle.gn_load.specs.Ends.{IsEndOf};
ghost use Rattle.gn_load.specs.Plain.{Agrees};
ghost use Rattle.gn_bases.specs.Setups.{given_base};
ghost use Rattle.gn_load.specs.Turns.{known_paths};
ghost use Rattle.gn_command_line.specs.Words.{AreShort};
ghost use Rattle.gn_top.specs.Steps.{IfCannotRead, CountsFault};
ghost use Rattle.gn_top.specs.Hosts.{HostTexts};
ghost use Rattle.gn_toolchains.specs.Frames.{surroundings as given};
ghost use Rattle.gn_top.specs.Stages.{Request as Asked, first_paths, configuration_base, surroundings_of, graph_judged, behind_first, loaded};
ghost use Rattle.gn_top.specs.Building.{request_view, outer_view, first_view, started_view, build_view, IsStarted, IsBuild, StopsAs, ReadsBuild, KnowsAlso};

use crate::answered::RunStop;
use crate::first::{First, FirstEnd, Outer, Request, run_first};
use gn_bases::{Given, Known, Setup};
use gn_built::Built;
use gn_executions::HostNames;
use gn_faults::Fault;
use gn_load::{LoadEnd, Plain, load_ahead};
use gn_outside::Source;
use gn_paths::{Path, Text, Texts};
use gn_toolchains::Surroundings;
use std::alloc::{AllocError, Global};
use std::collections::BTreeMap;
use std::thread::Threads;

/// What a build is loaded from, and the lines that its build arguments have printed.
#[derive(Drop)]
pub(crate) struct Started {
    pub(crate) setup: Setup,
    pub(crate) prints: Texts,
}

/// What a build leaves.
#[derive(Drop)]
pub(crate) struct Build {
    pub(crate) start: Started,
    pub(crate) loaded: Built,
    /// How many build files were loaded.
    pub(crate) files: u64,
}

/// The first fault of a build, and how many build files were loaded before it.
#[derive(Drop)]
pub(crate) struct Failure {
    pub(crate) fault: Fault,
    pub(crate) units: u64,
}

/// A build that was loaded, or the first fault of the stages before its graph.
#[derive(Drop)]
pub(crate) enum BuildEnd {
    Built(Build),
    Failed(Failure),
}

// What the host and the command line say of a build: its build directory, what the host calls itself, and the source root.
fn surroundings(
    alloc: Global,
    outer: &Outer,
    request: &Request<'_>,
) -> Result<(Path, HostNames, Text), AllocError>
    ensures { IfOk result (λ s. s ≡ (request.now.directory, outer.now.names, outer.now.root)) }
{
    let directory = request.directory.copy(alloc)?;
    let os = outer.names.os.copy(alloc)?;
    let cpu = outer.names.cpu.copy(alloc)?;
    let root = outer.root.copy(alloc)?;
    Ok((directory, HostNames { os, cpu }, root))
}

// What a build is loaded from, by what its first stage leaves and what was read for that.
fn start_of(
    alloc: Global,
    outer: &Outer,
    request: &Request<'_>,
    first: First,
    read: Known,
) -> Result<Started, AllocError>
    ensures { IfOk result (IsStarted (outer_view outer.now) (request_view request.now) (first_view first) read.entries) }
{
    let around = surroundings(alloc, outer, request)?;
    let given = Given {
        dotfile: first.dotfile,
        arguments: first.arguments,
        build_directory: around.0,
        host: around.1,
        source_root: around.2,
        known: read,
    };
    let setup = Setup::new(alloc, given)?;
    Ok(Started {
        setup,
        prints: first.prints,
    })
}

/// What never changes in a build.
pub(crate) fn surroundings_of(build: &Build) -> Surroundings<'_>
    ensures { given result ≡ surroundings_of (build_view build.now) }
{
    let setup = build.start.setup.given();
    Surroundings {
        build: &setup.build_directory,
        default: build.loaded.default(),
        program: &setup.dotfile.executable,
    }
}

// A build that was loaded behind a first stage, with so many build files.
fn end_build(start: Started, built: Built, files: u64) -> BuildEnd
    ensures { IsBuild result (graph_judged (record { directory = start.setup.build_directory; first = started_view start; loaded = build_of built; files = files })) }
{
    BuildEnd::Built(Build {
        start,
        loaded: built,
        files,
    })
}

// What is made of a build that was loaded behind the first stage.
fn behind_loading(start: Started, plain: Plain) -> Result<BuildEnd, RunStop>
    ensures meaning { IfOk result (λ end. (tree : Tree) (host : HostTexts) (request : Asked) → start.setup.build_directory ≡ request.directory →
        IsEndOf (configuration_base host request (started_view start)) (first_paths host request tree) tree plain.end plain.units →
        IsBuild end (behind_first host request tree (Ok (started_view start)))) }
    ensures stops { StopsAs plain.end result }
{
    let Plain { end, units } = plain;
    match end {
        LoadEnd::Built(built) => Ok(end_build(start, built, units)),
        LoadEnd::Wrong(fault) => Ok(BuildEnd::Failed(Failure { fault, units })),
        LoadEnd::Failed(path) => Err(RunStop::CannotRead(path)),
        LoadEnd::Memory => Err(RunStop::Memory),
    }
}

// Loads a build behind its first stage.
fn load_build<R: Threads + Sync, S: Source>(
    rt: &R,
    alloc: Global,
    start: Started,
    source: &mut S,
) -> Result<BuildEnd, RunStop>
    requires { (tree : Tree) → (S.state source.old).tree ≡ Some tree → Agrees start.setup.known.entries tree }
    ensures meaning { IfOk result (λ end. (tree : Tree) (host : HostTexts) (request : Asked) → (S.state source.old).tree ≡ Some tree → given_base start.setup ≡ configuration_base host request (started_view start) →
        KnowsAlso [] (first_paths host request tree) (known_paths start.setup.known.entries) → IsBuild end (behind_first host request tree (Ok (started_view start)))) }
    ensures reads { ReadsAsked (given_base start.setup) (known_paths start.setup.known.entries) (S.state source.old) (S.state source.new) }
    ensures faults { CountsFault (S.state source.old).faults (S.state source.new).faults result }
    ensures failure { IfCannotRead result (λ path. FailsAt path (S.state source.old) (S.state source.new)) }
{
    let plain = load_ahead(rt, alloc, &start.setup, source);
    behind_loading(start, plain)
}

/// Makes a build from what its source has: stage after stage, as far as there is no fault. Its graph is judged where it is asked for.
pub(crate) fn make_build<R: Threads + Sync, S: Source>(
    rt: &R,
    alloc: Global,
    outer: &Outer,
    request: &Request<'_>,
    source: &mut S,
) -> Result<BuildEnd, RunStop>
    requires { AreShort (request_view request.now).arguments }
    ensures meaning { IfOk result (λ end. (tree : Tree) → (S.state source.old).tree ≡ Some tree → IsBuild end (loaded (outer_view outer.now) (request_view request.now) tree)) }
    ensures reads { ReadsBuild (outer_view outer.now) (request_view request.now) (S.state source.old) (S.state source.new) }
    ensures faults { CountsFault (S.state source.old).faults (S.state source.new).faults result }
    ensures failure { IfCannotRead result (λ path. FailsAt path (S.state source.old) (S.state source.new)) }
{
    let mut read: Known = BTreeMap::new(alloc);
    let end = run_first(alloc, outer, request, &mut read, source)?;
    match end {
        FirstEnd::Said(first) => {
            let start = start_of(alloc, outer, request, first, read)?;
            load_build(rt, alloc, start, source)
        }
        FirstEnd::Failed(fault) => Ok(BuildEnd::Failed(Failure { fault, units: 0 })),
    }
}
