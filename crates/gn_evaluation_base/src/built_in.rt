// The built-in variables of a file.

ghost use Rattle.std.specs.Prelude.{◌≡◌, [], ◌∷◌, ◌++◌, IfOk, OnOk, codes, map};
ghost use Rattle.gn_paths.specs.Directory.{gen_directory_of};
ghost use Rattle.gn_values.specs.Tables.{Table, with_name, with_names};
ghost use Rattle.gn_values.specs.Val.{Val, vstr};
ghost use Rattle.gn_values.specs.View.{val_of, entry_of};
ghost use Rattle.gn_environment.specs.Declaring.{taken};
ghost use Rattle.gn_executions.specs.BuiltIn.{output_directory, host_texts, targeted_texts, system_texts, toolchain_texts, root_texts, target_texts, overridden, as_value, built_in_scope};
ghost use Rattle.gn_evaluation_base.specs.BuiltIn.{open_texts, toolchain_variables, built_in_under, scope_in};

use gn_calls_path::out_directory;
use gn_definitions::KeptScope;
use gn_environment::Context;
use gn_executions::HostNames;
use gn_paths::{Path, Text, gen_directory, obj_directory};
use gn_values::{Bindings, Entry, Value};
use std::alloc::{AllocError, Global};
use std::collections::BTreeMap;
use std::sync::Arc;

// The output directory of the toolchain.
fn output_directory(alloc: Global, context: &Context) -> Result<Path, AllocError>
    ensures { IfOk result (λ d. d ≡ output_directory context.now) }
{
    out_directory(
        alloc,
        &context.build_directory,
        &context.default_toolchain,
        &context.toolchain,
    )
}

// A name with a text as its value.
fn entry(alloc: Global, name: &[u8], text: &[u8]) -> Result<Entry, AllocError>
    ensures { IfOk result (λ e. entry_of e ≡ as_value (name.now, text.now)) }
{
    let name = Text::from_bytes(alloc, name)?;
    let text = Text::from_bytes(alloc, text)?;
    Ok(Entry {
        name,
        value: Value::Str(text),
    })
}

// The value that a name takes which a build argument may override: that which it is given, or this text.
fn value_taken(
    alloc: Global,
    context: &Context,
    name: &[u8],
    text: &[u8],
) -> Result<Value, AllocError>
    ensures { IfOk result (λ v. val_of v ≡ taken context.now.overrides name.now (vstr text.now)) }
{
    match context.overrides.get(name) {
        Some(value) => value.copy(alloc),
        None => Ok(Value::Str(Text::from_bytes(alloc, text)?)),
    }
}

// Puts a name with a text as its value behind others.
fn push(
    alloc: Global,
    name: &[u8],
    text: &[u8],
    variables: &mut Vec<Entry>,
) -> Result<(), AllocError>
    ensures { OnOk result ((later : Table Val) → map entry_of variables.new.items ++ later ≡ map entry_of variables.old.items ++ as_value (name.now, text.now) ∷ later) }
{
    variables.push(entry(alloc, name, text)?)?;
    Ok(())
}

// Puts a name behind others that a build argument may override.
fn push_overridden(
    alloc: Global,
    context: &Context,
    name: &[u8],
    text: &[u8],
    variables: &mut Vec<Entry>,
) -> Result<(), AllocError>
    ensures { OnOk result ((later : Table Val) → map entry_of variables.new.items ++ later ≡ map entry_of variables.old.items ++ overridden context.now.overrides (name.now, text.now) ∷ later) }
{
    let value = value_taken(alloc, context, name, text)?;
    let name = Text::from_bytes(alloc, name)?;
    variables.push(Entry { name, value })?;
    Ok(())
}

// Puts the names of an operating system and of a processor behind others, which a build argument may override.
fn push_system(
    alloc: Global,
    context: &Context,
    os_name: &[u8],
    os: &[u8],
    cpu_name: &[u8],
    cpu: &[u8],
    variables: &mut Vec<Entry>,
) -> Result<(), AllocError>
    ensures { OnOk result ((later : Table Val) → map entry_of variables.new.items ++ later
        ≡ map entry_of variables.old.items ++ overridden context.now.overrides (os_name.now, os.now) ∷ overridden context.now.overrides (cpu_name.now, cpu.now) ∷ later) }
{
    push_overridden(alloc, context, os_name, os, variables)?;
    push_overridden(alloc, context, cpu_name, cpu, variables)?;
    Ok(())
}

// Puts the names of the host behind others.
fn push_host(
    alloc: Global,
    host: &HostNames,
    context: &Context,
    variables: &mut Vec<Entry>,
) -> Result<(), AllocError>
    ensures { OnOk result ((later : Table Val) → map entry_of variables.new.items ++ later
        ≡ map entry_of variables.old.items ++ (map (overridden context.now.overrides) (host_texts host.now) ++ later)) }
{
    let os = host.os.as_bytes();
    let cpu = host.cpu.as_bytes();
    push_system(alloc, context, b"host_os", os, b"host_cpu", cpu, variables)?;
    Ok(())
}

// Puts the names of what is current and of what is built for behind others.
fn push_targeted(
    alloc: Global,
    context: &Context,
    variables: &mut Vec<Entry>,
) -> Result<(), AllocError>
    ensures { OnOk result ((later : Table Val) → map entry_of variables.new.items ++ later
        ≡ map entry_of variables.old.items ++ (map (overridden context.now.overrides) targeted_texts ++ later)) }
{
    push_system(
        alloc,
        context,
        b"current_os",
        b"",
        b"current_cpu",
        b"",
        variables,
    )?;
    push_system(
        alloc,
        context,
        b"target_os",
        b"",
        b"target_cpu",
        b"",
        variables,
    )?;
    Ok(())
}

// Puts all names behind others that a build argument may override.
fn push_systems(
    alloc: Global,
    host: &HostNames,
    context: &Context,
    variables: &mut Vec<Entry>,
) -> Result<(), AllocError>
    ensures { OnOk result ((later : Table Val) → map entry_of variables.new.items ++ later
        ≡ map entry_of variables.old.items ++ (map (overridden context.now.overrides) (system_texts host.now) ++ later)) }
{
    push_host(alloc, host, context, variables)?;
    push_targeted(alloc, context, variables)?;
    Ok(())
}

// Puts the names of the toolchains behind others.
fn push_toolchains(
    alloc: Global,
    context: &Context,
    variables: &mut Vec<Entry>,
) -> Result<(), AllocError>
    ensures { OnOk result ((later : Table Val) → map entry_of variables.new.items ++ later
        ≡ map entry_of variables.old.items ++ (map as_value (toolchain_texts context.now) ++ later)) }
{
    let toolchain = context.toolchain.as_bytes();
    push(alloc, b"current_toolchain", toolchain, variables)?;
    let default_toolchain = context.default_toolchain.as_bytes();
    push(alloc, b"default_toolchain", default_toolchain, variables)?;
    Ok(())
}

// Puts a name with a path as its value behind others.
fn push_path(
    alloc: Global,
    name: &[u8],
    path: &Path,
    variables: &mut Vec<Entry>,
) -> Result<(), AllocError>
    ensures { OnOk result ((later : Table Val) → map entry_of variables.new.items ++ later ≡ map entry_of variables.old.items ++ as_value (name.now, path.now) ∷ later) }
{
    push(alloc, name, path.as_bytes(), variables)
}

// Puts the directory of what is generated at the root behind others, of a toolchain with this output directory.
fn push_root_gen(alloc: Global, out: &Path, variables: &mut Vec<Entry>) -> Result<(), AllocError>
    ensures { OnOk result ((later : Table Val) → map entry_of variables.new.items ++ later
        ≡ map entry_of variables.old.items ++ as_value (codes "root_gen_dir", gen_directory_of out.now (codes "//")) ∷ later) }
{
    let root = Path::root(alloc)?;
    let generated = gen_directory(alloc, out, &root)?;
    push_path(alloc, b"root_gen_dir", &generated, variables)
}

// Puts the directories of the build behind others, of a toolchain with this output directory.
fn push_roots(
    alloc: Global,
    context: &Context,
    out: &Path,
    variables: &mut Vec<Entry>,
) -> Result<(), AllocError>
    ensures { OnOk result ((later : Table Val) → map entry_of variables.new.items ++ later
        ≡ map entry_of variables.old.items ++ (map as_value (root_texts context.now out.now) ++ later)) }
{
    push_path(
        alloc,
        b"root_build_dir",
        &context.build_directory,
        variables,
    )?;
    push_path(alloc, b"root_out_dir", out, variables)?;
    push_root_gen(alloc, out, variables)?;
    Ok(())
}

// Puts the names behind others whose values depend on the directory of a file, with the empty text.
fn push_open(alloc: Global, variables: &mut Vec<Entry>) -> Result<(), AllocError>
    ensures { OnOk result ((later : Table Val) → map entry_of variables.new.items ++ later ≡ map entry_of variables.old.items ++ (map as_value open_texts ++ later)) }
{
    push(alloc, b"target_out_dir", b"", variables)?;
    push(alloc, b"target_gen_dir", b"", variables)?;
    Ok(())
}

// Puts the toolchains, the directories of the build and the names of those of a file behind others, of a toolchain with this output
// directory.
fn push_places(
    alloc: Global,
    context: &Context,
    out: &Path,
    variables: &mut Vec<Entry>,
) -> Result<(), AllocError>
    ensures { OnOk result ((later : Table Val) → map entry_of variables.new.items ++ later
        ≡ map entry_of variables.old.items ++ (map as_value (toolchain_texts context.now ++ root_texts context.now out.now ++ open_texts) ++ later)) }
{
    push_toolchains(alloc, context, variables)?;
    push_roots(alloc, context, out, variables)?;
    push_open(alloc, variables)?;
    Ok(())
}

// The variables of all files under a toolchain with this output directory, as far as they are known.
fn toolchain_variables(
    alloc: Global,
    host: &HostNames,
    context: &Context,
    out: &Path,
) -> Result<Vec<Entry>, AllocError>
    ensures { IfOk result (λ v. map entry_of v.items ≡ toolchain_variables host.now context.now out.now) }
{
    let mut variables = Vec::new(alloc);
    push_systems(alloc, host, context, &mut variables)?;
    push_places(alloc, context, out, &mut variables)?;
    Ok(variables)
}

// These names with their values, in the order of the names.
fn in_order(alloc: Global, entries: Vec<Entry>) -> Result<Bindings, AllocError>
    ensures { IfOk result (λ b. b ≡ with_names (map entry_of entries.items) []) }
{
    let mut bindings = Bindings::new(alloc);
    for entry in entries {
        bindings.set(entry.name, entry.value)?;
    }
    Ok(bindings)
}

// Gives a name a path as its value.
fn set_path(
    alloc: Global,
    name: &[u8],
    path: &Path,
    variables: &mut Bindings,
) -> Result<(), AllocError>
    ensures { OnOk result (variables.new ≡ with_name name.now (vstr path.now) variables.old) }
{
    let entry = entry(alloc, name, path.as_bytes())?;
    variables.set(entry.name, entry.value)
}

// Sets the directories that stand for the directory of a file, of a toolchain with this output directory.
fn set_targets(
    alloc: Global,
    out: &Path,
    directory: &Path,
    variables: &mut Bindings,
) -> Result<(), AllocError>
    ensures { OnOk result (variables.new ≡ with_names (map as_value (target_texts out.now directory.now)) variables.old) }
{
    let objects = obj_directory(alloc, out, directory)?;
    set_path(alloc, b"target_out_dir", &objects, variables)?;
    let generated = gen_directory(alloc, out, directory)?;
    set_path(alloc, b"target_gen_dir", &generated, variables)
}

// The output directory of the toolchain, and the variables of all files under it as far as they are known, in the order of their names.
fn toolchain_parts(
    alloc: Global,
    host: &HostNames,
    context: &Context,
) -> Result<(Path, Bindings), AllocError>
    ensures { IfOk result (λ p. p ≡ ((built_in_under host.now context.now).out, (built_in_under host.now context.now).variables)) }
{
    let out = output_directory(alloc, context)?;
    let variables = in_order(alloc, toolchain_variables(alloc, host, context, &out)?)?;
    Ok((out, variables))
}

// The same names of the host.
fn copy_host(alloc: Global, host: &HostNames) -> Result<HostNames, AllocError>
    ensures { IfOk result (λ h. h ≡ host.now) }
{
    let os = host.os.copy(alloc)?;
    let cpu = host.cpu.copy(alloc)?;
    Ok(HostNames { os, cpu })
}

/// What the built-in variables of all files under a toolchain have in common, which is made once: the names of the host, the output
/// directory of the toolchain, and all variables, of which two have no value yet, since that depends on the directory of the file. Their
/// names stand there so that no copy has to grow.
#[derive(Drop)]
pub(crate) struct BuiltIn {
    /// The names of the host.
    pub(crate) host: HostNames,
    out: Path,
    variables: Bindings,
}

impl BuiltIn {
    /// What they have in common on a host, under the toolchain of a context.
    pub(crate) fn new(
        alloc: Global,
        host: HostNames,
        context: &Context,
    ) -> Result<BuiltIn, AllocError>
        ensures { IfOk result (λ b. b ≡ built_in_under host context.now) }
    {
        let (out, variables) = toolchain_parts(alloc, &host, context)?;
        Ok(BuiltIn {
            host,
            out,
            variables,
        })
    }

    /// The same on this host, under the toolchain of another context.
    pub(crate) fn under(&self, alloc: Global, context: &Context) -> Result<BuiltIn, AllocError>
        ensures { IfOk result (λ b. b ≡ built_in_under self.now.host context.now) }
    {
        BuiltIn::new(alloc, copy_host(alloc, &self.host)?, context)
    }

    /// The scope of the built-in variables of a file that stands in a directory.
    pub(crate) fn scope_in(
        &self,
        alloc: Global,
        directory: &Path,
    ) -> Result<Arc<KeptScope>, AllocError>
        ensures { IfOk result (λ s. s.value ≡ scope_in self.now directory.now) }
    {
        let mut variables = self.variables.copy(alloc)?;
        set_targets(alloc, &self.out, directory, &mut variables)?;
        let scope = KeptScope::new(variables, BTreeMap::new(alloc), BTreeMap::new(alloc));
        Ok(Arc::new(alloc, scope)?)
    }
}

/// The scope of the built-in variables of a file that stands in a directory, on a host and under the toolchain of a context.
#[tactic(auto, using(crate::proofs::BuiltIn::scope_is_built_in))]
pub fn built_in_scope(
    alloc: Global,
    host: &HostNames,
    context: &Context,
    directory: &Path,
) -> Result<Arc<KeptScope>, AllocError>
    ensures { IfOk result (λ s. s.value ≡ built_in_scope host.now context.now directory.now) }
{
    let built_in = BuiltIn::new(alloc, copy_host(alloc, host)?, context)?;
    built_in.scope_in(alloc, directory)
}
