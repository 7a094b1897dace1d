// A default toolchain that isn't defined.

ghost use Rattle.std.specs.Prelude.{◌≡◌, ◌++◌, IfOk, OnOk, option_map};
ghost use Rattle.gn_file_faults.specs.Defaults.{default_fault, default_faults};

use gn_faults::{Code, Fault, Stage};
use gn_items::DefaultToolchain;
use gn_paths::{Text, Texts};
use std::alloc::{AllocError, Global};

// The fault of a default toolchain that isn't defined.
fn default_fault(alloc: Global, default: &DefaultToolchain) -> Result<Fault, AllocError>
    ensures { IfOk result (λ f. f ≡ default_fault default.now) }
{
    let mut detail = Texts::new(alloc);
    detail.push(default.place.file.copy(alloc)?)?;
    detail.push(default.label.to_toolchain(alloc)?)?;
    let place = default.place.copy(alloc)?;
    Ok(Fault {
        stage: Stage::Graph,
        place: Some(place),
        toolchain: Text::new(alloc),
        code: Code::Unresolved,
        detail,
    })
}

/// Puts the fault of the default toolchain behind the others, unless its label is that of a toolchain.
pub(crate) fn add_default_fault(
    alloc: Global,
    faults: &mut Vec<Fault>,
    default: Option<&DefaultToolchain>,
    is_toolchain: bool,
) -> Result<(), AllocError>
    ensures { OnOk result (faults.new.items ≡ faults.old.items ++ default_faults (option_map (λ d. d.now) default.entry) is_toolchain) }
{
    match default {
        Some(default) if !is_toolchain => {
            faults.push(default_fault(alloc, default)?)?;
            Ok(())
        }
        _ => Ok(()),
    }
}
