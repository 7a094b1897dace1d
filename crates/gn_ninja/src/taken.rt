// The names that no target can have besides its done file.

ghost use Rattle.std.specs.Prelude.{◌≡◌, OnOk, IfOk, map};
ghost use Rattle.std.specs.List.{fold};
ghost use Rattle.gn_text.specs.Names.{with_name};
ghost use Rattle.gn_writing.specs.Lines.{made};
ghost use Rattle.gn_writing.specs.Kinds.{target_blocks};
ghost use Rattle.gn_ninja.specs.Taken.{taken_by};

use gn_paths::Text;
use gn_text::Names;
use gn_writing::{Written, made_by};
use std::alloc::{AllocError, Global};

// Takes each of some names.
fn take_all(taken: &mut Names, names: &[&Text]) -> Result<(), AllocError>
    ensures { OnOk result (taken.new ≡ fold with_name taken.old (map (λ t. t.now) names.now)) }
{
    for name in names {
        taken.intern(name.as_bytes())?;
    }
    Ok(())
}

// Takes the names of what a target makes.
fn take_made(alloc: Global, taken: &mut Names, target: &Written) -> Result<(), AllocError>
    ensures { OnOk result (taken.new ≡ fold with_name taken.old (made (target_blocks target.now))) }
{
    let outs = made_by(alloc, target)?;
    take_all(taken, outs.as_slice())
}

// The names that are taken: `all`, and what build lines make.

pub(crate) fn taken_by(alloc: Global, targets: &[&Written]) -> Result<Names, AllocError>
    ensures { IfOk result (λ taken. taken ≡ taken_by (map (λ t. t.now) targets.now)) }
{
    let mut taken = Names::new(alloc);
    taken.intern(b"all")?;
    for target in targets {
        take_made(alloc, &mut taken, target)?;
    }
    Ok(taken)
}
