// The lists of a compiled target.

ghost use Rattle.std.specs.Prelude.{◌≡◌, ◌++◌, IfOk, OnOk, map};
ghost use Rattle.std.specs.List.{flat_map};
ghost use Rattle.gn_paths.specs.Rebase.{seen_from};
ghost use Rattle.gn_records.specs.Around.{fields_of};
ghost use Rattle.gn_records.specs.Flags.{texts_at, seen_at, all_texts, all_seen_at, compile_flags};

use crate::keeping::beside;
use crate::outputs::once;
use crate::texts::add_copies;
use gn_define::Fields;
use gn_paths::{Path, Texts};
use gn_rows::Variable;
use gn_writing::{CompileFlags, all_seen};
use std::alloc::{AllocError, Global};

// Puts paths as seen from the build directory behind others.
fn add_seen(alloc: Global, list: &mut Texts, build: &Path, paths: &[Path]) -> Result<(), AllocError>
    ensures { OnOk result (list.new ≡ list.old ++ map (seen_from build.now) paths.now) }
{
    for path in paths {
        list.push(path.seen_from(alloc, build)?)?;
    }
    Ok(())
}

// Puts the strings that configurations have at a variable behind others.
fn add_texts(
    alloc: Global,
    list: &mut Texts,
    variable: Variable,
    configs: &[&Fields],
) -> Result<(), AllocError>
    ensures { OnOk result (list.new ≡ list.old ++ flat_map (texts_at variable) (fields_of configs.now)) }
{
    for config in configs {
        add_copies(alloc, list, config.texts(variable))?;
    }
    Ok(())
}

// Puts the paths that configurations have at a variable behind others.
fn add_paths(
    alloc: Global,
    list: &mut Texts,
    build: &Path,
    variable: Variable,
    configs: &[&Fields],
) -> Result<(), AllocError>
    ensures { OnOk result (list.new ≡ list.old ++ flat_map (seen_at build.now variable) (fields_of configs.now)) }
{
    for config in configs {
        add_seen(alloc, list, build, config.paths(variable))?;
    }
    Ok(())
}

// The strings of a variable: the target's, then its configurations'.
pub(crate) fn all_texts(
    alloc: Global,
    variable: Variable,
    own: &Fields,
    configs: &[&Fields],
) -> Result<Texts, AllocError>
    ensures { IfOk result (λ list. list ≡ all_texts variable own.now (fields_of configs.now)) }
{
    let mut list = Texts::new(alloc);
    let added = add_copies(alloc, &mut list, own.texts(variable));
    let (mut list, ()) = beside(list, added)?;
    let added = add_texts(alloc, &mut list, variable, configs);
    let (list, ()) = beside(list, added)?;
    Ok(list)
}

// The paths of a variable, as seen from the build directory: the target's, then its configurations'.
pub(crate) fn all_seen_at(
    alloc: Global,
    build: &Path,
    variable: Variable,
    own: &Fields,
    configs: &[&Fields],
) -> Result<Texts, AllocError>
    ensures { IfOk result (λ list. list ≡ all_seen_at build.now variable own.now (fields_of configs.now)) }
{
    let mut list = all_seen(alloc, build, own.paths(variable))?;
    let added = add_paths(alloc, &mut list, build, variable, configs);
    let (list, ()) = beside(list, added)?;
    Ok(list)
}

// The directories of headers, each once.
fn include_dirs(
    alloc: Global,
    build: &Path,
    own: &Fields,
    configs: &[&Fields],
) -> Result<Texts, AllocError>
    ensures { IfOk result (λ list. list ≡ (compile_flags build.now own.now (fields_of configs.now)).include_dirs) }
{
    let list = all_seen_at(alloc, build, Variable::IncludeDirs, own, configs)?;
    let dirs = once(alloc, &list);
    drop(list);
    dirs
}

/// What the compilers of a target bind: its own flags and those of the configurations applied to it, in their order.
pub fn compile_flags(
    alloc: Global,
    build: &Path,
    own: &Fields,
    configs: &[&Fields],
) -> Result<CompileFlags, AllocError>
    ensures { IfOk result (λ flags. flags ≡ compile_flags build.now own.now (fields_of configs.now)) }
{
    let cflags = all_texts(alloc, Variable::Cflags, own, configs)?;
    let c = beside(cflags, all_texts(alloc, Variable::CflagsC, own, configs))?;
    let cc = beside(c, all_texts(alloc, Variable::CflagsCc, own, configs))?;
    let asm = beside(cc, all_texts(alloc, Variable::Asmflags, own, configs))?;
    let defined = beside(asm, all_texts(alloc, Variable::Defines, own, configs))?;
    let made = beside(defined, include_dirs(alloc, build, own, configs))?;
    let (((((cflags, cflags_c), cflags_cc), asmflags), defines), include_dirs) = made;
    Ok(CompileFlags {
        asmflags,
        cflags,
        cflags_c,
        cflags_cc,
        defines,
        include_dirs,
    })
}
