// The events of loading, by the numbers of keys.

use gn_paths::Place;

/// The number of a key: its place in the book's list of keys.
pub type KeyId = usize;

/// A key waits for another.
#[derive(Debug, Drop)]
pub struct Block {
    /// The key for which it waits.
    pub on: KeyId,
    /// The place of the call that asks for it.
    pub place: Place,
    /// Whether the chain of keys that wait leads back to the one that begins to wait.
    pub closes: bool,
}

/// Why loading stops.
#[derive(Clone, Copy, Debug)]
pub enum Cause {
    /// The read of this key has failed.
    Failed(KeyId),
    /// The build is larger than a limit.
    TooLarge,
    /// Want of memory.
    Memory,
}

/// What has happened, with the seat that did it and the number of the key.
#[derive(Debug, Drop)]
pub enum Event {
    /// The seat has claimed the key.
    Claim(u32, KeyId),
    /// The seat has found that the key, which it has claimed, waits for another. It claims that one too, if nobody has.
    Block(u32, KeyId, Block),
    /// The seat has filed the answer of the key.
    File(u32, KeyId),
    /// The seat has stopped.
    Stop(u32, Cause),
}
