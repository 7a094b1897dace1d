//! What the lock's rule knows of each seat. No value of these types is made when the program runs.
use std::collections::LinkedList;

/// Where a seat stands in its turn. The number is its ticket, counted from the first turn on.
pub enum Stage<E> {
    /// It has no ticket.
    Idle,
    /// It has a ticket, and has not found it served.
    Waiting(u64),
    /// It has found its ticket served.
    AtTurn(u64),
    /// It has taken the slot.
    Holding(u64),
    /// It has put the value back with this history, and has not passed the turn on.
    Returned(u64, LinkedList<E>),
}

/// A seat that was joined into the first one: its number, and the history that it saw.
pub struct Joined<E> {
    pub number: u64,
    pub seen: LinkedList<E>,
}

/// What a seat serves as.
pub enum Role<E> {
    Plain,
    /// The first seat, which counts the numbers given and remembers the seats that were joined into it.
    First(u64, LinkedList<Joined<E>>),
}

/// What one seat knows. A view without a basis is spent: its seat was joined into the first one.
pub struct View<E, G> {
    pub basis: Option<G>,
    pub number: u64,
    pub seen: LinkedList<E>,
    pub stage: Stage<E>,
    pub role: Role<E>,
}
