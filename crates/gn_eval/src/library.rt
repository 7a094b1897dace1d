// Where an evaluation gets its answers.

ghost use Rattle.std.specs.Prelude.{◌≡◌, ◌<◌, Some, Err, IfOk};
ghost use Rattle.gn_runs.specs.Runs.{Answers};
ghost use Rattle.gn_eval.specs.Library.{LibraryState, Includes, GoesOn, ImportAnswers, ImportLacks, ContentAnswers, ContentLacks, IsWithinLimit};

use gn_definitions::ImportValue;
use gn_paths::{Path, Place, Text};
use std::alloc::Global;

/// Why a library doesn't answer.
#[derive(Debug, Drop)]
pub enum LibStop {
    /// It lacks the answer, and has noted what is needed.
    Stopped,
    /// Want of memory.
    Memory,
}

/// What an import leaves.
#[derive(Drop)]
pub enum Imported {
    /// The value of the import.
    Value(ImportValue),
    /// There is no file at the path.
    Absent,
    /// The file is wrong, or the import has no value.
    Spoiled,
}

/// What there is at a path.
#[derive(Debug, Drop)]
pub enum Found {
    /// The bytes of a file, at most 16,777,216.
    Bytes(Text),
    /// No file.
    Absent,
    /// A longer file.
    TooBig,
}

/// Answers what an evaluation asks, as far as it has the answers. It doesn't evaluate, and no call changes what it tells. Where it
/// lacks an answer it notes what is needed and where the call stands, counts a stop, and answers `Stopped`; its owner
/// then brings the answer, and evaluates from the start again, or goes on from where the evaluation was kept.
pub trait Library {
    /// What it tells, what it noted last, its count of stops, and the references behind which it stands.
    ghost state: { Self → LibraryState };

    /// What an import of the file at the path leaves, for a call at the place. The content of the file is needed first,
    /// and where there is a file, what it leaves.
    fn import(&mut self, alloc: Global, path: &Path, place: &Place) -> Result<Imported, LibStop>
        ensures goes { GoesOn (state self.old) (state self.new) }
        ensures rose { result ≡ Err LibStop.Stopped → (state self.old).stops < (state self.new).stops }
        ensures answers { IfOk result (λ x. (a : Answers) → Includes (state self.new).told a → ImportAnswers path.now a x) }
        ensures lacks { result ≡ Err LibStop.Stopped → (a : Answers) → (state self.new).told ≡ Some a → ImportLacks path.now place.now a (state self.new).need };

    /// What there is at the path, for a call at the place.
    fn bytes(&mut self, alloc: Global, path: &Path, place: &Place) -> Result<Found, LibStop>
        ensures goes { GoesOn (state self.old) (state self.new) }
        ensures rose { result ≡ Err LibStop.Stopped → (state self.old).stops < (state self.new).stops }
        ensures answers { IfOk result (λ x. (a : Answers) → Includes (state self.new).told a → ContentAnswers path.now a x) }
        ensures limit { IfOk result IsWithinLimit }
        ensures lacks { result ≡ Err LibStop.Stopped → (a : Answers) → (state self.new).told ≡ Some a → ContentLacks path.now place.now a (state self.new).need };
}
