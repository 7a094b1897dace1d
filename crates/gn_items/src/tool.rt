// A tool of a toolchain.

ghost use Rattle.std.specs.Prelude.{◌≡◌, IfOk};

use gn_define::Fields;
use gn_paths::{Place, Text};
use std::alloc::{AllocError, Global};

/// A tool of a toolchain.
#[derive(Drop)]
pub struct Tool {
    /// The name that is given to the call.
    pub name: Text,
    /// Where the name of the call stands that defines it.
    pub place: Place,
    /// What its block gives to the variables of tools.
    pub fields: Fields,
}

impl Tool {
    /// A new tool equal to this one, which shares the fields with it.
    pub fn copy(&self, alloc: Global) -> Result<Tool, AllocError>
        ensures { IfOk result (λ tool. tool ≡ self.now) }
    {
        let name = self.name.copy(alloc)?;
        let place = self.place.copy(alloc)?;
        Ok(Tool {
            name,
            place,
            fields: self.fields.copy()?,
        })
    }
}
