//! What a value that is kept under the lock tells of itself.
ghost use Rattle.std.specs.Prelude.{ℕ, List};

/// A value that tells its history, a list of entries, and its basis, which never changes.
///
/// Each entry bears the number of the seat that added it.
pub trait Kept {
    /// What the history is a list of.
    type Entry;

    /// What stays the same as long as the value is kept.
    type Basis;

    ghost basis: { Self → Self.Basis };

    ghost history: { Self → List Self.Entry };

    // the number of the seat that added the entry
    ghost number: { Self.Entry → ℕ };
}
