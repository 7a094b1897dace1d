// A fault, how it is printed, and the order of faults.

ghost use Rattle.std.specs.Prelude.{◌≡◌, IfOk};
ghost use Rattle.std.specs.Option.{option_copied};
ghost use Rattle.gn_faults.specs.Order.{file_of, position_of, fault_cmp, is_before};
ghost use Rattle.gn_faults.specs.Printed.{printed};

use crate::code::Code;
use crate::printing::{append_place, append_text};
use crate::stage::Stage;
use gn_paths::{Place, Text, Texts};
use std::alloc::{AllocError, Global};
use std::cmp::Ordering;

/// A fault of a build.
#[derive(Debug, Drop)]
pub struct Fault {
    /// The stage at which it is found.
    pub stage: Stage,
    /// Where it stands, unless it is one of the whole build.
    pub place: Option<Place>,
    /// The label of the toolchain under which it is found, spelled `//dir:name`, or the empty text for the default
    /// toolchain.
    pub toolchain: Text,
    /// What is wrong.
    pub code: Code,
    /// The texts that the fault's text shows, in their order there, as `Code` says for each code.
    pub detail: Texts,
}

impl Fault {
    /// A new fault equal to this one.
    pub fn copy(&self, alloc: Global) -> Result<Fault, AllocError>
        ensures { IfOk result (λ f. f ≡ self.now) }
    {
        Ok(Fault {
            stage: self.stage,
            place: copy_place(&self.place, alloc)?,
            toolchain: self.toolchain.copy(alloc)?,
            code: self.code,
            detail: self.detail.copy(alloc)?,
        })
    }

    /// Whether this fault comes before the other, which takes no memory. Faults go by stage, then file, toolchain (the
    /// default one first, then by bytes), line, column, number of the code, and details. A fault without a place comes
    /// before those of its stage with one. The faults of labels, which the graph will add to its stage, will have an
    /// order of their own behind those of files: by label, code, and second label or path.
    pub fn before(&self, other: &Fault) -> bool
        ensures { result ≡ is_before self.now other.now }
    {
        self.order(other).is_lt()
    }

    // Where this fault stands to the other.
    #[tactic(auto, unfolding(crate::specs::Order::fault_cmp))]
    fn order(&self, other: &Fault) -> Ordering
        ensures { result ≡ fault_cmp self.now other.now }
    {
        self.stage
            .cmp(&other.stage)
            .then_with(|| self.file().cmp(&other.file()))
            .then_with(|| self.toolchain.cmp(&other.toolchain))
            .then_with(|| self.position().cmp(&other.position()))
            .then_with(|| self.code.cmp(&other.code))
            .then_with(|| self.detail.as_slice().cmp(other.detail.as_slice()))
    }

    // The file of the place, if there is a place.
    fn file(&self) -> Option<&Text>
        ensures { option_copied result ≡ file_of self.now }
    {
        self.place.as_ref().map(|place| &place.file)
    }

    // The line and column of the place, if there is a place.
    fn position(&self) -> Option<(u32, u32)>
        ensures { result ≡ position_of self.now }
    {
        self.place.as_ref().map(|place| (place.line, place.column))
    }

    /// The line of the fault: `ERROR at FILE:LINE:COLUMN: TEXT` and a newline, or `ERROR: TEXT` and a newline where it
    /// has no place. The text is that of the code with the details in it. A detail that the code shows and the list
    /// lacks is the empty text, and one that the code doesn't show is left out.
    #[tactic(auto, unfolding(crate::specs::Printed::printed))]
    pub fn print(&self, alloc: Global) -> Result<Text, AllocError>
        ensures { IfOk result (λ t. t ≡ printed self.now) }
    {
        let mut text = Text::from_bytes(alloc, b"ERROR")?;
        append_place(&mut text, &self.place)?;
        text.append(b": ")?;
        append_text(&mut text, self.code, self.detail.as_slice())?;
        text.push(b'\n')?;
        Ok(text)
    }
}

fn copy_place(place: &Option<Place>, alloc: Global) -> Result<Option<Place>, AllocError>
    ensures { IfOk result (λ p. p ≡ place.now) }
{
    match place {
        Some(place) => Ok(Some(place.copy(alloc)?)),
        None => Ok(None),
    }
}
