// What an execution defines.

ghost use Rattle.std.specs.Prelude.{◌≡◌, IfOk};

use crate::tools::Tools;
use gn_define::Fields;
use gn_labels::Label;
use gn_paths::Place;
use gn_rows::ItemKind;
use std::alloc::{AllocError, Global};

/// An item that a build file defines.
#[derive(Drop)]
pub struct Item {
    /// The kind of the item.
    pub kind: ItemKind,
    /// The label of the item.
    pub label: Label,
    /// Where the name of the call stands that defines it.
    pub place: Place,
    /// What its block gives to the variables of its kind. A variable of targets, as `deps`, is read by
    /// `item.fields.labels(Variable::Deps)`.
    pub fields: Fields,
    /// The tools of a toolchain; all other items have none.
    pub tools: Tools,
}

impl Item {
    /// A new item equal to this one, which shares the fields with it.
    pub fn copy(&self, alloc: Global) -> Result<Item, AllocError>
        ensures { IfOk result (λ item. item ≡ self.now) }
    {
        let fields = self.fields.copy()?;
        let place = self.place.copy(alloc)?;
        let tools = self.tools.copy(alloc)?;
        Ok(Item {
            kind: self.kind,
            label: self.label.copy(alloc)?,
            place,
            fields,
            tools,
        })
    }
}
