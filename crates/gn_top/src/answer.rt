// What a run is to say.
ghost use Rattle.std.specs.Prelude.{◌≡◌, ◌≤◌, [], ◌∷◌, ◌++◌, length, map, option_map, IfOk, OnOk, Some, None};
ghost use Rattle.std.specs.List.{flat_map};
ghost use Rattle.gn_outside.specs.Tree.{Tree};
ghost use Rattle.gn_outside.specs.Lists.{AllDiffer, Each, EachPair};
ghost use Rattle.gn_outside.specs.Sources.{AllTell, AllTellReads, ReadsOn, IsLeastFailure, joined_reads};
ghost use Rattle.gn_builds.specs.Driving.{FailsAt};
ghost use Rattle.gn_build_faults.specs.Whole.{those_or};
ghost use Rattle.gn_projects.specs.Loaded.{items_of_build};
ghost use Rattle.gn_built.specs.Files.{paths_lent};
ghost use Rattle.gn_command_line.specs.Words.{AreShort, texts};
ghost use Rattle.gn_top.specs.Words.{HasNoForm};
ghost use Rattle.gn_top.specs.Hosts.{host_texts};
ghost use Rattle.gn_top.specs.GraphFaults.{graph_fault, AreTargets};
ghost use Rattle.gn_top.specs.Stages.{surroundings_of, graph_judged};
ghost use Rattle.gn_top.specs.Said.{said, asked, lines_of, warning, declared_names, warnings_of, answer_said, gen_text, gen_said, line_means, line_asks, pattern_asked, pattern_code, question_fault, build_said, wanted_said, loaded_said, request_said};
ghost use Rattle.gn_top.specs.Steps.{IsSaying, IfCannotRead, CountsFault, AnswersUsage};
ghost use Rattle.gn_top.specs.Building.{request_view, outer_view, build_view, faultless_view, wanted_view, SaysFault, SaysEnd, ReadsOf, ReadsBuild};
ghost use Rattle.gn_command_line.specs.Commands.{line_view};

use crate::answered::{Answered, RunStop};
use crate::building::{Build, BuildEnd, make_build, surroundings_of};
use crate::done::append_done;
use crate::faultless::Faultless;
use crate::files::files_put;
use crate::first::{Outer, Request};
use crate::graph_faults::{index_of, judge_graph};
use crate::host::Host;
use crate::labels::append_labels;
use crate::texts::{HAS_NO_EFFECT, USAGE, WARNING};
use gn_args::unused;
use gn_build_faults::JudgedTargets;
use gn_command_line::{Command, Line, arguments_are_short, read_words};
use gn_executions::HostNames;
use gn_faults::{Code, Fault, Stage};
use gn_items::Declaration;
use gn_labelled::ItemIndex;
use gn_labels::{Label, Pattern, PatternFault, pattern_meant};
use gn_out_files::OutFiles;
use gn_outside::Source;
use gn_paths::{Path, PathFault, Text, Texts};
use std::alloc::{AllocError, Global};
use std::mem::forget;
use std::thread::Threads;

/// What is wanted of a build.
#[derive(Clone, Copy)]
pub(crate) enum Wanted<'a> {
    /// The labels of its targets, of those that a pattern matches, if there is one.
    Labels(Option<&'a [u8]>),
    /// Its files.
    Files,
}

// The line of a fault, once so many build files are loaded.
fn fault_answer(alloc: Global, fault: &Fault, units: u64) -> Result<Answered, AllocError>
    ensures { IfOk result (λ a. SaysFault a fault.now units) }
{
    let text = fault.print(alloc)?;
    Ok(Answered {
        status: 1,
        text: text.into_vec(),
        files: OutFiles::new(alloc),
        units,
    })
}

// Puts lines at the end.
fn append_lines(text: &mut Vec<u8>, lines: &[Text]) -> Result<(), AllocError>
    ensures { OnOk result (text.new.items ≡ text.old.items ++ flat_map (λ line. line) lines.now) }
{
    for line in lines {
        text.extend_from_slice(line.as_bytes())?;
    }
    Ok(())
}

// Puts all lines of a build at the end.
fn append_printed(text: &mut Vec<u8>, build: &Build) -> Result<(), AllocError>
    ensures { OnOk result (text.new.items ≡ text.old.items ++ lines_of (build_view build.now)) }
{
    append_lines(text, build.start.setup.given().dotfile.prints.as_slice())?;
    append_lines(text, build.start.prints.as_slice())?;
    build.loaded.append_prints(text)
}

// The names of declarations, in their order.
fn names_of(alloc: Global, declarations: &[&Declaration]) -> Result<Texts, AllocError>
    ensures { IfOk result (λ names. names ≡ map (λ d. d.name) (map (λ d. d.now) declarations.now)) }
{
    let mut names = Texts::new(alloc);
    for declaration in declarations {
        names.push(declaration.name.copy(alloc)?)?;
    }
    Ok(names)
}

// The names of the arguments that a build declares.
fn declared_names(alloc: Global, build: &Build) -> Result<Texts, AllocError>
    ensures { IfOk result (λ names. names ≡ declared_names (build_view build.now)) }
{
    names_of(alloc, &build.loaded.declarations(alloc)?)
}

// Puts the warning of an argument at the end that was given to no effect.
fn append_warning(text: &mut Vec<u8>, name: &Text) -> Result<(), AllocError>
    ensures { OnOk result (text.new.items ≡ text.old.items ++ warning name.now) }
{
    text.extend_from_slice(WARNING.as_bytes())?;
    text.extend_from_slice(name.as_bytes())?;
    text.extend_from_slice(HAS_NO_EFFECT.as_bytes())?;
    text.push(b'\n')?;
    Ok(())
}

// The same of all these arguments.
fn append_all(text: &mut Vec<u8>, names: &[Text]) -> Result<(), AllocError>
    ensures { OnOk result (text.new.items ≡ text.old.items ++ flat_map warning names.now) }
{
    for name in names {
        append_warning(text, name)?;
    }
    Ok(())
}

// Puts the warnings of the arguments at the end that were given to no effect.
fn append_warnings(alloc: Global, text: &mut Vec<u8>, build: &Build) -> Result<(), AllocError>
    ensures { OnOk result (text.new.items ≡ text.old.items ++ warnings_of (build_view build.now)) }
{
    let declared = declared_names(alloc, build)?;
    let names = unused(alloc, &build.start.setup.given().arguments, &declared)?;
    append_all(text, names.as_slice())
}

// The lines printed, the warnings, and the labels of the targets that are generated; with a pattern, those that it matches.
fn listed_answer(
    alloc: Global,
    pattern: Option<&Pattern>,
    build: &Build,
) -> Result<Answered, AllocError>
    ensures { IfOk result (λ a. IsSaying a (answer_said (option_map (λ p. p.now) pattern.entry) (build_view build.now))) }
{
    let mut text = Vec::new(alloc);
    append_printed(&mut text, build)?;
    append_warnings(alloc, &mut text, build)?;
    let default = build.loaded.default();
    append_labels(alloc, &mut text, default, pattern, build.loaded.generated())?;
    Ok(Answered {
        status: 0,
        text,
        files: OutFiles::new(alloc),
        units: build.files,
    })
}

// The lines printed, the warnings, and how many targets are generated from how many build files.
fn gen_text(alloc: Global, build: &Faultless<'_, '_>) -> Result<Vec<u8>, AllocError>
    ensures { IfOk result (λ text. text.items ≡ gen_text (faultless_view build.now)) }
{
    let mut text = Vec::new(alloc);
    append_printed(&mut text, build.build)?;
    append_warnings(alloc, &mut text, build.build)?;
    append_done(&mut text, build)?;
    Ok(text)
}

// The files of a build, and the text behind them.
fn gen_answer<R: Threads + Sync>(
    rt: &R,
    alloc: Global,
    request: &Request<'_>,
    build: &Faultless<'_, '_>,
) -> Result<Answered, AllocError>
    ensures { IfOk result (λ a. IsSaying a (gen_said (request_view request.now) (faultless_view build.now))) }
{
    let text = gen_text(alloc, build)?;
    let files = files_put(rt, alloc, request, build)?;
    Ok(Answered {
        status: 0,
        text,
        files,
        units: build.build.files,
    })
}

// The pattern that a text means at the source root, if there is a text, or what keeps it from being one.
fn pattern_asked(
    alloc: Global,
    text: Option<&[u8]>,
) -> Result<Result<Option<Pattern>, PatternFault>, AllocError>
    ensures { IfOk result (λ found. found ≡ pattern_asked (option_map (λ t. t.now) text.entry)) }
{
    let Some(text) = text else {
        return Ok(Ok(None));
    };
    match pattern_meant(alloc, text, &Path::root(alloc)?)? {
        Ok(pattern) => Ok(Ok(Some(pattern))),
        Err(fault) => Ok(Err(fault)),
    }
}

// The code of a text that means no pattern.
fn pattern_code(fault: PatternFault) -> Code
    ensures { result ≡ pattern_code fault }
{
    match fault {
        PatternFault::BadPattern => Code::BadPattern,
        PatternFault::Path(PathFault::AboveRoot) => Code::AboveRoot,
        PatternFault::Path(PathFault::BadPath) => Code::BadPath,
    }
}

// The fault of a question whose pattern is none.
fn question_fault(alloc: Global, fault: PatternFault) -> Fault
    ensures { result ≡ question_fault fault }
{
    Fault {
        stage: Stage::Question,
        place: None,
        toolchain: Text::new(alloc),
        code: pattern_code(fault),
        detail: Texts::new(alloc),
    }
}

// The answer for a build to which a pattern is put, if there is one.
fn build_answer(
    alloc: Global,
    pattern: Option<&[u8]>,
    build: &Build,
) -> Result<Answered, AllocError>
    ensures { IfOk result (λ a. IsSaying a (build_said (pattern_asked (option_map (λ t. t.now) pattern.entry)) (build_view build.now))) }
{
    match pattern_asked(alloc, pattern)? {
        Ok(pattern) => listed_answer(alloc, pattern.as_ref(), build),
        Err(fault) => fault_answer(alloc, &question_fault(alloc, fault), build.files),
    }
}

// The answer for a build of which this is wanted.
fn wanted_answer<R: Threads + Sync>(
    rt: &R,
    alloc: Global,
    wanted: Wanted<'_>,
    request: &Request<'_>,
    build: &Faultless<'_, '_>,
) -> Result<Answered, AllocError>
    ensures { IfOk result (λ a. IsSaying a (wanted_said (wanted_view wanted.entry) (request_view request.now) (faultless_view build.now))) }
{
    match wanted {
        Wanted::Labels(pattern) => build_answer(alloc, pattern, build.build),
        Wanted::Files => gen_answer(rt, alloc, request, build),
    }
}

// The targets of a build, by those that it generates and by others where these aren't all of them.
fn those_or<'a>(generated: &'a [Label], others: &'a Option<Vec<Label>>) -> &'a [Label]
    ensures { result.now ≡ those_or generated.now (option_map (λ targets. targets.items) others.now) }
{
    match others {
        None => generated,
        Some(targets) => targets.as_slice(),
    }
}

// The answer for a build whose graph has no fault, by its items, its targets, and how many build files are loaded.
fn faultless_answer<R: Threads + Sync>(
    rt: &R,
    alloc: Global,
    wanted: Wanted<'_>,
    request: &Request<'_>,
    build: &Build,
    items: &ItemIndex<'_>,
    others: &Option<Vec<Label>>,
    loaded: usize,
) -> Result<Answered, AllocError>
    requires faultless { graph_fault (surroundings_of (build_view build.now)) (build_view build.now).loaded ≡ None }
    requires items { items.now ≡ items_of_build (build_view build.now).loaded }
    requires others { AreTargets (build_view build.now).loaded (option_map (λ targets. targets.items) others.now) }
    requires loaded { loaded ≡ length (build_view build.now).loaded.loaded }
    ensures { IfOk result (λ a. IsSaying a (wanted_said (wanted_view wanted.entry) (request_view request.now) (build_view build.now))) }
{
    let faultless = Faultless {
        build,
        items,
        targets: those_or(build.loaded.generated(), others),
        loaded,
    };
    wanted_answer(rt, alloc, wanted, request, &faultless)
}

// The answer for a build, or for the fault of its graph, by its items, what is told of the graph, and how many build files are loaded.
fn told_answer<R: Threads + Sync>(
    rt: &R,
    alloc: Global,
    wanted: Wanted<'_>,
    request: &Request<'_>,
    build: &Build,
    items: &ItemIndex<'_>,
    judged: &JudgedTargets,
    loaded: usize,
) -> Result<Answered, AllocError>
    requires items { items.now ≡ items_of_build (build_view build.now).loaded }
    requires fault { judged.now.fault ≡ graph_fault (surroundings_of (build_view build.now)) (build_view build.now).loaded }
    requires others { judged.now.fault ≡ None → AreTargets (build_view build.now).loaded (option_map (λ targets. targets.items) judged.now.others) }
    requires loaded { loaded ≡ length (build_view build.now).loaded.loaded }
    ensures { IfOk result (λ a. IsSaying a (loaded_said (wanted_view wanted.entry) (request_view request.now) (graph_judged (build_view build.now)))) }
{
    match &judged.fault {
        Some(fault) => fault_answer(alloc, fault, build.files),
        None => faultless_answer(
            rt,
            alloc,
            wanted,
            request,
            build,
            items,
            &judged.others,
            loaded,
        ),
    }
}

// The same, by its items and the build files that are loaded.
fn answer_by_items<R: Threads + Sync>(
    rt: &R,
    alloc: Global,
    wanted: Wanted<'_>,
    request: &Request<'_>,
    build: &Build,
    items: &ItemIndex<'_>,
    loaded: &[&Path],
) -> Result<Answered, AllocError>
    requires items { items.now ≡ items_of_build (build_view build.now).loaded }
    requires loaded { paths_lent loaded.now ≡ (build_view build.now).loaded.loaded }
    ensures { IfOk result (λ a. IsSaying a (loaded_said (wanted_view wanted.entry) (request_view request.now) (graph_judged (build_view build.now)))) }
{
    let judged = judge_graph(
        rt,
        alloc,
        surroundings_of(build),
        &build.loaded,
        items,
        loaded,
    )?;
    let answered = told_answer(
        rt,
        alloc,
        wanted,
        request,
        build,
        items,
        &judged,
        loaded.len(),
    );
    drop(judged);
    answered
}

// The third stage: the answer for a build, or for the fault of its graph.
fn judged_answer<R: Threads + Sync>(
    rt: &R,
    alloc: Global,
    wanted: Wanted<'_>,
    request: &Request<'_>,
    build: &Build,
) -> Result<Answered, AllocError>
    ensures { IfOk result (λ a. IsSaying a (loaded_said (wanted_view wanted.entry) (request_view request.now) (graph_judged (build_view build.now)))) }
{
    let loaded = build.loaded.loaded_files(alloc)?;
    let items = index_of(alloc, &build.loaded)?;
    let answered = answer_by_items(rt, alloc, wanted, request, build, &items, loaded.as_slice());
    drop(items);
    answered
}

// The answer for a build, or for its fault.
fn end_answer<R: Threads + Sync>(
    rt: &R,
    alloc: Global,
    wanted: Wanted<'_>,
    request: &Request<'_>,
    end: &BuildEnd,
) -> Result<Answered, AllocError>
    ensures { IfOk result (λ a. SaysEnd a (wanted_view wanted.entry) (request_view request.now) end.now) }
{
    match end {
        BuildEnd::Built(build) => judged_answer(rt, alloc, wanted, request, build),
        BuildEnd::Failed(failure) => fault_answer(alloc, &failure.fault, failure.units),
    }
}

// The same, where the build isn't needed behind it. It isn't let go, as `run_one` says.
fn last_answer<R: Threads + Sync>(
    rt: &R,
    alloc: Global,
    wanted: Wanted<'_>,
    request: &Request<'_>,
    end: BuildEnd,
) -> Result<Answered, AllocError>
    ensures { IfOk result (λ a. SaysEnd a (wanted_view wanted.entry) (request_view request.now) end) }
{
    let answered = end_answer(rt, alloc, wanted, request, &end);
    forget(end);
    answered
}

// The host's texts.
fn outer_of(alloc: Global, host: &Host) -> Result<Outer, AllocError>
    ensures { IfOk result (λ outer. outer_view outer ≡ host_texts host.now) }
{
    let os = Text::from_bytes(alloc, host.os.as_bytes())?;
    let cpu = Text::from_bytes(alloc, host.cpu.as_bytes())?;
    let root = Text::from_bytes(alloc, host.root.as_bytes())?;
    Ok(Outer {
        names: HostNames { os, cpu },
        root,
    })
}

// The answer for the build of a source.
fn read_build<R: Threads + Sync, S: Source>(
    rt: &R,
    alloc: Global,
    host: &Host,
    wanted: Wanted<'_>,
    request: &Request<'_>,
    source: &mut S,
) -> Result<Answered, RunStop>
    requires { AreShort (request_view request.now).arguments }
    ensures meaning { IfOk result (λ a. (tree : Tree) → (S.state source.old).tree ≡ Some tree → IsSaying a (request_said (wanted_view wanted.entry) (request_view request.now) (host_texts host.now) tree)) }
    ensures range { IfOk result (λ a. a.status ≤ 1) }
    ensures reads { ReadsBuild (host_texts host.now) (request_view request.now) (S.state source.old) (S.state source.new) }
    ensures faults { CountsFault (S.state source.old).faults (S.state source.new).faults result }
    ensures failure { IfCannotRead result (λ path. FailsAt path (S.state source.old) (S.state source.new)) }
{
    let outer = outer_of(alloc, host)?;
    let end = make_build(rt, alloc, &outer, request, source)?;
    Ok(last_answer(rt, alloc, wanted, request, end)?)
}

// What a line says over the source's tree.
fn line_answer<R: Threads + Sync, S: Source>(
    rt: &R,
    alloc: Global,
    line: Line<'_>,
    host: &Host,
    source: &mut S,
) -> Result<Answered, RunStop>
    requires { AreShort (line_view line).options.arguments }
    ensures meaning { IfOk result (λ a. (tree : Tree) → (S.state source.old).tree ≡ Some tree → IsSaying a (line_means (Some (line_view line.entry)) (host_texts host.now) tree)) }
    ensures range { IfOk result (λ a. a.status ≤ 1) }
    ensures reads { ReadsOf (line_asks (Some (line_view line.entry)) (host_texts host.now)) (S.state source.old) (S.state source.new) }
    ensures faults { CountsFault (S.state source.old).faults (S.state source.new).faults result }
    ensures failure { IfCannotRead result (λ path. FailsAt path (S.state source.old) (S.state source.new)) }
{
    let arguments = line.options.arguments;
    match line.command {
        Command::Ls { directory, pattern } => {
            let request = Request {
                directory,
                arguments,
            };
            read_build(rt, alloc, host, Wanted::Labels(pattern), &request, source)
        }
        Command::Gen { directory } => {
            let request = Request {
                directory,
                arguments,
            };
            read_build(rt, alloc, host, Wanted::Files, &request, source)
        }
    }
}

/// What these words say over the source's tree, or why nothing can be said.
pub fn answer<R: Threads + Sync, S: Source>(
    rt: &R,
    alloc: Global,
    words: &[String],
    host: &Host,
    source: &mut S,
) -> Result<Answered, RunStop>
    ensures meaning { IfOk result (λ a. (tree : Tree) → AllTell tree (S.state source.old ∷ []) →
        IsSaying a (said (texts words.now) (host_texts host.now) [] tree)) }
    ensures range { IfOk result (λ a. a.status ≤ 2) }
    ensures usage { IfOk result (λ a. a.status ≡ 2 → HasNoForm (texts words.now) []) }
    ensures no_form { HasNoForm (texts words.now) [] → AnswersUsage (S.state source.old) (S.state source.new) result }
    ensures faults { CountsFault (S.state source.old).faults (S.state source.new).faults result }
    ensures failure { IfCannotRead result (λ path. AllTellReads (S.state source.old ∷ []) →
        IsLeastFailure (S.state source.old ∷ []) (S.state source.new ∷ []) path) }
    ensures reads_once { AllTellReads (S.state source.old ∷ []) →
        AllDiffer (joined_reads (S.state source.old ∷ []) (S.state source.new ∷ [])) }
    ensures reads_asked { (tree : Tree) → AllTell tree (S.state source.old ∷ []) → AllTellReads (S.state source.old ∷ []) →
        Each (asked (texts words.now) (host_texts host.now) [] tree) (joined_reads (S.state source.old ∷ []) (S.state source.new ∷ [])) }
    ensures sources { EachPair ReadsOn (S.state source.old ∷ []) (S.state source.new ∷ []) }
{
    arguments_are_short();
    match read_words(alloc, words)? {
        None => Ok(Answered {
            status: 2,
            text: USAGE.as_bytes().to_vec(alloc)?,
            files: OutFiles::new(alloc),
            units: 0,
        }),
        Some(line) => line_answer(rt, alloc, line, host, source),
    }
}
