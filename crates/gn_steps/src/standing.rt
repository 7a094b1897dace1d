// Where calls stand, and where items are defined.

ghost use Rattle.std.specs.Prelude.{◌≡◌, IfOk};
ghost use Rattle.gn_meaning.specs.Items.{where_here, out_here, context_here};

use gn_calls_path::{Where as Calling, out_directory};
use gn_define::Where;
use gn_env::Env;
use gn_items::ItemKind;
use gn_paths::{Path, Text};
use std::alloc::{AllocError, Global};

// The toolchain under which the evaluation takes place, and the build directory.
fn toolchain_here(alloc: Global, env: &Env) -> Result<(Text, Path), AllocError>
    ensures { IfOk result (λ p. (p.0 ≡ env.now.setting.context.toolchain) × (p.1 ≡ env.now.setting.context.build_directory)) }
{
    let toolchain = env.context().toolchain.copy(alloc)?;
    let build = env.context().build_directory.copy(alloc)?;
    Ok((toolchain, build))
}

// The default toolchain, and the source root.
fn root_here(alloc: Global, env: &Env) -> Result<(Text, Text), AllocError>
    ensures { IfOk result (λ p. (p.0 ≡ env.now.setting.context.default_toolchain) × (p.1 ≡ env.now.setting.context.source_root)) }
{
    let default_toolchain = env.context().default_toolchain.copy(alloc)?;
    let root = env.context().source_root.copy(alloc)?;
    Ok((default_toolchain, root))
}

/// Where a call on paths and labels stands.
pub fn where_here(alloc: Global, env: &Env) -> Result<Calling, AllocError>
    ensures { IfOk result (λ w. w ≡ where_here env.now.setting) }
{
    let directory = env.directory().copy(alloc)?;
    let (toolchain, build) = toolchain_here(alloc, env)?;
    let (default_toolchain, root) = root_here(alloc, env)?;
    Ok(Calling {
        directory,
        toolchain,
        default_toolchain,
        build,
        root,
    })
}

// The output directory of the toolchain under which the evaluation takes place.
fn out_here(alloc: Global, env: &Env) -> Result<Path, AllocError>
    ensures { IfOk result (λ d. d ≡ out_here env.now.setting) }
{
    let context = env.context();
    out_directory(
        alloc,
        &context.build_directory,
        &context.default_toolchain,
        &context.toolchain,
    )
}

/// Where an item of this kind is defined.
pub fn context_here(alloc: Global, kind: ItemKind, env: &Env) -> Result<Where, AllocError>
    ensures { IfOk result (λ w. w ≡ context_here env.now.setting kind) }
{
    let out = out_here(alloc, env)?;
    let directory = env.directory().copy(alloc)?;
    let (toolchain, build) = toolchain_here(alloc, env)?;
    Ok(Where {
        kind,
        directory,
        toolchain,
        build,
        out,
    })
}
