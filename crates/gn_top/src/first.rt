// The first stage of a build: the dotfile, and the build arguments.

ghost use Rattle.std.specs.Prelude.{◌≡◌, ℕ, ◌≤◌, List, [], ◌∷◌, Result, IfOk, OnOk, length, Some, codes, is_some, option_map};
ghost use Rattle.gn_value_model.specs.Limits.{max_bytes};
ghost use Rattle.gn_values.specs.Tables.{at_name};
ghost use Rattle.gn_values.specs.Val.{Val};
ghost use Rattle.gn_faults.specs.declared.fault.Fault.{Fault as FaultRead};
ghost use Rattle.gn_outside.specs.Tree.{Tree, read_of};
ghost use Rattle.gn_outside.specs.Lists.{OneOf};
ghost use Rattle.gn_runs.specs.Runs.{has_bytes};
ghost use Rattle.gn_dotfile.specs.Names.{dotfile_state};
ghost use Rattle.gn_projects.specs.Files.{content_in};
ghost use Rattle.gn_builds.specs.Driving.{FailsAt};
ghost use Rattle.gn_answers.specs.Answers.{content_view};
ghost use Rattle.gn_load.specs.Turns.{known_paths};
ghost use Rattle.gn_load.specs.Plain.{Agrees};
ghost use Rattle.gn_command_line.specs.Words.{AreShort};
ghost use Rattle.gn_top.specs.Steps.{IfCannotRead, CountsFault};
ghost use Rattle.gn_top.specs.Stages.{path_in, dotfile_path, arguments_path, dotfile_of_content, arguments_of_file, kept_arguments, read_in, arguments_said, first_with, first_said, arguments_paths, first_paths};
ghost use Rattle.gn_top.specs.Building.{request_view, outer_view, alone_fault, IsDotfileEnd, AreArgumentsEnd, IsFirst, ReadsNew, ReadsFirst, KnowsAlso};

use crate::answered::RunStop;
use gn_answers::{FileContent, PerformStop, read_content};
use gn_bases::Known;
use gn_executions::HostNames;
use gn_faults::{Code, Fault, Stage};
use gn_outside::Source;
use gn_paths::{Path, Place, Text, Texts, path_meant};
use gn_unit::{Dotfile, UnitEnd, arguments, dotfile};
use gn_values::{Bindings, Overrides};
use std::alloc::{AllocError, Global};

/// What a build is made from: its build directory, and the build arguments that the command line gives, if it does.
#[derive(Drop)]
pub(crate) struct Request<'a> {
    pub(crate) directory: Path,
    pub(crate) arguments: Option<&'a [u8]>,
}

/// The host's texts.
#[derive(Drop)]
pub(crate) struct Outer {
    pub(crate) names: HostNames,
    pub(crate) root: Text,
}

/// What the first stage leaves.
#[derive(Drop)]
pub(crate) struct First {
    /// What the dotfile says.
    pub(crate) dotfile: Dotfile,
    /// The build arguments.
    pub(crate) arguments: Overrides,
    /// The lines that the build arguments have printed.
    pub(crate) prints: Texts,
}

/// How the first stage ends.
#[derive(Drop)]
pub(crate) enum FirstEnd {
    /// It leaves this.
    Said(First),
    /// The first fault.
    Failed(Fault),
}

// What the dotfile says, or its fault.
#[derive(Drop)]
enum DotfileEnd {
    Said(Dotfile),
    Failed(Fault),
}

// What the build arguments are, with the lines that they have printed, or their fault.
#[derive(Drop)]
enum ArgumentsEnd {
    Said(Overrides, Texts),
    Failed(Fault),
}

// The fault of a whole file, which shows its path.
fn file_fault(alloc: Global, path: &Text, code: Code) -> Result<Fault, AllocError>
    ensures { IfOk result (λ f. f ≡ alone_fault path.now code) }
{
    let mut detail = Texts::new(alloc);
    detail.push(path.copy(alloc)?)?;
    let file = path.copy(alloc)?;
    Ok(Fault {
        stage: Stage::Arguments,
        place: Some(Place {
            file,
            line: 1,
            column: 1,
        }),
        toolchain: Text::new(alloc),
        code,
        detail,
    })
}

// The path that a name means in a directory.
#[tactic(auto, unfolding(crate::specs::Stages::path_in))]
fn path_in(alloc: Global, directory: &Path, name: &[u8]) -> Result<Path, AllocError>
    ensures { IfOk result (λ p. p ≡ path_in directory.now name.now) }
{
    match path_meant(alloc, directory, name)? {
        Ok(path) => Ok(path),
        Err(_) => directory.copy(alloc),
    }
}

// The path of the dotfile.
#[tactic(auto, unfolding(crate::specs::Stages::dotfile_path))]
fn dotfile_path(alloc: Global) -> Result<Path, AllocError>
    ensures { IfOk result (λ p. p ≡ dotfile_path) }
{
    path_in(alloc, &Path::root(alloc)?, b".gn")
}

/// The path of the file of a build directory that keeps its build arguments.
#[tactic(auto, unfolding(crate::specs::Stages::arguments_path))]
pub(crate) fn arguments_path(alloc: Global, directory: &Path) -> Result<Path, AllocError>
    ensures { IfOk result (λ p. p ≡ arguments_path directory.now) }
{
    path_in(alloc, directory, b"args.gn")
}

// Puts what was read at a path among what is known.
fn put_known(read: &mut Known, path: Path, content: FileContent) -> Result<(), AllocError>
    ensures known { OnOk result (KnowsAlso (known_paths read.old.entries) (path ∷ []) (known_paths read.new.entries)) }
    ensures agrees { OnOk result ((tree : Tree) → Agrees read.old.entries tree → content_view content ≡ content_in (read_of tree path) → Agrees read.new.entries tree) }
{
    read.insert(path, content)?;
    Ok(())
}

// What was read at a path, if it was.
fn find<'a>(read: &'a Known, path: &Path) -> Option<&'a FileContent>
    ensures { option_map (λ c. c.now) result ≡ at_name path.now read.now.entries }
{
    read.get(path)
}

// Whether the file at a path was read.
fn is_known(read: &Known, path: &Path) -> bool
    ensures { result ≡ is_some (at_name path.now read.now.entries) }
{
    read.contains_key(path)
}

// Reads the file at a path that wasn't read before.
fn read_new<S: Source>(
    alloc: Global,
    path: Path,
    read: &mut Known,
    source: &mut S,
) -> Result<(), RunStop>
    requires { OneOf (known_paths read.old.entries) path → ⊥ }
    ensures known { OnOk result (KnowsAlso (known_paths read.old.entries) (path ∷ []) (known_paths read.new.entries)) }
    ensures agrees { OnOk result ((tree : Tree) → (S.state source.old).tree ≡ Some tree → Agrees read.old.entries tree → Agrees read.new.entries tree) }
    ensures reads { ReadsNew (path ∷ []) (known_paths read.old.entries) (S.state source.old) (S.state source.new) result }
{
    match read_content(alloc, &path, source) {
        Ok(content) => Ok(put_known(read, path, content)?),
        Err(PerformStop::Failed) => Err(RunStop::CannotRead(path)),
        Err(PerformStop::Memory) => Err(RunStop::Memory),
    }
}

// Reads the file at a path, unless it was read before.
fn read_once<S: Source>(
    alloc: Global,
    path: &Path,
    read: &mut Known,
    source: &mut S,
) -> Result<(), RunStop>
    ensures known { OnOk result (KnowsAlso (known_paths read.old.entries) (path.now ∷ []) (known_paths read.new.entries)) }
    ensures agrees { OnOk result ((tree : Tree) → (S.state source.old).tree ≡ Some tree → Agrees read.old.entries tree → Agrees read.new.entries tree) }
    ensures reads { ReadsNew (path.now ∷ []) (known_paths read.old.entries) (S.state source.old) (S.state source.new) result }
{
    if is_known(read, path) {
        return Ok(());
    }
    let new = path.copy(alloc)?;
    read_new(alloc, new, read, source)
}

// What was read at a path.
fn content_at<'a>(read: &'a Known, path: &Path) -> &'a FileContent
    requires { OneOf (known_paths read.now.entries) path.now }
    ensures { (tree : Tree) → Agrees read.now.entries tree → content_view result.now ≡ content_in (read_of tree path.now) }
{
    match find(read, path) {
        Some(content) => content,
        None => unreachable!(),
    }
}

// The fault of the whole dotfile.
fn dotfile_fault(alloc: Global, code: Code) -> Result<DotfileEnd, AllocError>
    ensures { IfOk result (λ end. end ≡ DotfileEnd.Failed (alone_fault (codes "//.gn") code)) }
{
    let file = Text::from_bytes(alloc, b"//.gn")?;
    Ok(DotfileEnd::Failed(file_fault(alloc, &file, code)?))
}

// What is said of the content of the dotfile.
#[tactic(auto, using(crate::proofs::FirstLemmas::alone_left, crate::proofs::FirstLemmas::alone_wrong, crate::proofs::FirstLemmas::dotfile_absent, crate::proofs::FirstLemmas::dotfile_big))]
fn dotfile_in(
    alloc: Global,
    outer: &Outer,
    directory: &Path,
    content: &FileContent,
) -> Result<DotfileEnd, AllocError>
    ensures { IfOk result (λ end. IsDotfileEnd end (dotfile_of_content (outer_view outer.now) directory.now (content_view content.now))) }
{
    match content {
        FileContent::Bytes(file) => {
            let bytes = file.bytes.as_bytes();
            let host = &outer.names;
            match dotfile(alloc, bytes, directory, &host.os, &host.cpu, &outer.root) {
                Ok(said) => Ok(DotfileEnd::Said(said)),
                Err(UnitEnd::Wrong(fault)) => Ok(DotfileEnd::Failed(fault)),
                Err(UnitEnd::Memory) => Err(AllocError),
            }
        }
        FileContent::Absent => dotfile_fault(alloc, Code::NoFile),
        FileContent::TooBig => dotfile_fault(alloc, Code::FileTooBig),
    }
}

// What the bytes of build arguments say; `file` is the path of the file that keeps them, or `--args`.
#[tactic(auto, using(crate::proofs::FirstLemmas::alone_left, crate::proofs::FirstLemmas::alone_wrong))]
fn arguments_of(
    alloc: Global,
    outer: &Outer,
    directory: &Path,
    file: &Text,
    bytes: &[u8],
) -> Result<ArgumentsEnd, AllocError>
    requires { length bytes.now ≤ max_bytes }
    ensures { IfOk result (λ end. AreArgumentsEnd end (arguments_of_file (outer_view outer.now) directory.now file.now (has_bytes bytes.now))) }
{
    let host = &outer.names;
    match arguments(
        alloc,
        file,
        bytes,
        directory,
        &host.os,
        &host.cpu,
        &outer.root,
    ) {
        Ok((given, prints)) => Ok(ArgumentsEnd::Said(given, prints)),
        Err(UnitEnd::Wrong(fault)) => Ok(ArgumentsEnd::Failed(fault)),
        Err(UnitEnd::Memory) => Err(AllocError),
    }
}

// What is said of the content of the file that keeps build arguments, which need not be there.
#[tactic(auto, using(crate::proofs::FirstLemmas::arguments_big))]
fn kept_arguments(
    alloc: Global,
    outer: &Outer,
    directory: &Path,
    path: &Path,
    content: &FileContent,
) -> Result<ArgumentsEnd, AllocError>
    requires { path.now ≡ arguments_path directory.now }
    ensures { IfOk result (λ end. AreArgumentsEnd end (kept_arguments (outer_view outer.now) directory.now (content_view content.now))) }
{
    match content {
        FileContent::Bytes(file) => {
            let bytes = file.bytes.as_bytes();
            arguments_of(alloc, outer, directory, path.as_text(), bytes)
        }
        FileContent::Absent => Ok(ArgumentsEnd::Said(Bindings::new(alloc), Texts::new(alloc))),
        FileContent::TooBig => Ok(ArgumentsEnd::Failed(file_fault(
            alloc,
            path.as_text(),
            Code::FileTooBig,
        )?)),
    }
}

// The build arguments that the command line gives.
fn given_arguments(
    alloc: Global,
    outer: &Outer,
    directory: &Path,
    text: &[u8],
) -> Result<ArgumentsEnd, AllocError>
    requires { length text.now ≤ 16777215 }
    ensures { IfOk result (λ end. AreArgumentsEnd end (arguments_of_file (outer_view outer.now) directory.now (codes "--args") (has_bytes text.now))) }
{
    let file = Text::from_bytes(alloc, b"--args")?;
    arguments_of(alloc, outer, directory, &file, text)
}

// The build arguments that are kept.
fn read_arguments<S: Source>(
    alloc: Global,
    outer: &Outer,
    directory: &Path,
    read: &mut Known,
    source: &mut S,
) -> Result<ArgumentsEnd, RunStop>
    ensures meaning { IfOk result (λ end. (tree : Tree) → (S.state source.old).tree ≡ Some tree → Agrees read.old.entries tree → AreArgumentsEnd end (kept_arguments (outer_view outer.now) directory.now (read_in tree (arguments_path directory.now)))) }
    ensures known { OnOk result (KnowsAlso (known_paths read.old.entries) (arguments_path directory.now ∷ []) (known_paths read.new.entries)) }
    ensures agrees { OnOk result ((tree : Tree) → (S.state source.old).tree ≡ Some tree → Agrees read.old.entries tree → Agrees read.new.entries tree) }
    ensures reads { ReadsNew (arguments_path directory.now ∷ []) (known_paths read.old.entries) (S.state source.old) (S.state source.new) result }
{
    let path = arguments_path(alloc, directory)?;
    read_once(alloc, &path, read, source)?;
    let content = content_at(read, &path);
    Ok(kept_arguments(alloc, outer, directory, &path, content)?)
}

// The build arguments: those of the command line, and else those that are kept.
fn arguments_in<S: Source>(
    alloc: Global,
    outer: &Outer,
    request: &Request<'_>,
    read: &mut Known,
    source: &mut S,
) -> Result<ArgumentsEnd, RunStop>
    requires { AreShort (request_view request.now).arguments }
    ensures meaning { IfOk result (λ end. (tree : Tree) → (S.state source.old).tree ≡ Some tree → Agrees read.old.entries tree → AreArgumentsEnd end (arguments_said (outer_view outer.now) (request_view request.now) tree)) }
    ensures known { OnOk result (KnowsAlso (known_paths read.old.entries) (arguments_paths (request_view request.now)) (known_paths read.new.entries)) }
    ensures agrees { OnOk result ((tree : Tree) → (S.state source.old).tree ≡ Some tree → Agrees read.old.entries tree → Agrees read.new.entries tree) }
    ensures reads { ReadsNew (arguments_paths (request_view request.now)) (known_paths read.old.entries) (S.state source.old) (S.state source.new) result }
{
    let directory = &request.directory;
    match request.arguments {
        Some(text) => Ok(given_arguments(alloc, outer, directory, text)?),
        None => read_arguments(alloc, outer, directory, read, source),
    }
}

// What the first stage leaves, by what the dotfile says and the build arguments are.
fn first_of(dotfile: Dotfile, end: ArgumentsEnd) -> FirstEnd
    ensures { (meaning : Result (List (List ℕ × Val) × List (List ℕ)) FaultRead) → AreArgumentsEnd end meaning → IsFirst result (first_with (dotfile_state dotfile, dotfile.prints) meaning) }
{
    match end {
        ArgumentsEnd::Said(arguments, prints) => FirstEnd::Said(First {
            dotfile,
            arguments,
            prints,
        }),
        ArgumentsEnd::Failed(fault) => FirstEnd::Failed(fault),
    }
}

// What the first stage leaves once the dotfile says this.
#[tactic(auto, using(crate::proofs::PartReads::new_ok))]
fn behind_dotfile<S: Source>(
    alloc: Global,
    outer: &Outer,
    request: &Request<'_>,
    dotfile: Dotfile,
    read: &mut Known,
    source: &mut S,
) -> Result<FirstEnd, RunStop>
    requires { AreShort (request_view request.now).arguments }
    ensures meaning { IfOk result (λ end. (tree : Tree) → (S.state source.old).tree ≡ Some tree → Agrees read.old.entries tree → IsFirst end (first_with (dotfile_state dotfile, dotfile.prints) (arguments_said (outer_view outer.now) (request_view request.now) tree))) }
    ensures known { OnOk result (KnowsAlso (known_paths read.old.entries) (arguments_paths (request_view request.now)) (known_paths read.new.entries)) }
    ensures agrees { OnOk result ((tree : Tree) → (S.state source.old).tree ≡ Some tree → Agrees read.old.entries tree → Agrees read.new.entries tree) }
    ensures reads { ReadsNew (arguments_paths (request_view request.now)) (known_paths read.old.entries) (S.state source.old) (S.state source.new) result }
{
    let end = arguments_in(alloc, outer, request, read, source)?;
    Ok(first_of(dotfile, end))
}

/// The first stage of a build: the dotfile is read and run, and then the build arguments. What was read is put into `read`.
pub(crate) fn run_first<S: Source>(
    alloc: Global,
    outer: &Outer,
    request: &Request<'_>,
    read: &mut Known,
    source: &mut S,
) -> Result<FirstEnd, RunStop>
    requires nothing { read.old.entries ≡ [] }
    requires arguments { AreShort (request_view request.now).arguments }
    ensures meaning { IfOk result (λ end. (tree : Tree) → (S.state source.old).tree ≡ Some tree → IsFirst end (first_said (outer_view outer.now) (request_view request.now) tree)) }
    ensures agrees { OnOk result ((tree : Tree) → (S.state source.old).tree ≡ Some tree → Agrees read.new.entries tree) }
    ensures known { OnOk result ((tree : Tree) → (S.state source.old).tree ≡ Some tree → KnowsAlso [] (first_paths (outer_view outer.now) (request_view request.now) tree) (known_paths read.new.entries)) }
    ensures reads { ReadsFirst (first_paths (outer_view outer.now) (request_view request.now)) (known_paths read.new.entries) (S.state source.old) (S.state source.new) result }
    ensures faults { CountsFault (S.state source.old).faults (S.state source.new).faults result }
    ensures failure { IfCannotRead result (λ path. FailsAt path (S.state source.old) (S.state source.new)) }
{
    let path = dotfile_path(alloc)?;
    read_once(alloc, &path, read, source)?;
    let content = content_at(read, &path);
    let end = dotfile_in(alloc, outer, &request.directory, content)?;
    match end {
        DotfileEnd::Said(said) => behind_dotfile(alloc, outer, request, said, read, source),
        DotfileEnd::Failed(fault) => Ok(FirstEnd::Failed(fault)),
    }
}
