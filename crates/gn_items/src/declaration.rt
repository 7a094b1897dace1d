// Build arguments that an execution declares.

use gn_paths::{Place, Text};

/// A build argument that an execution declares.
#[derive(Drop)]
pub struct Declaration {
    /// The name of the argument.
    pub name: Text,
    /// Where it is declared: at the operator of its first assignment in the block, or at the call there that gave it.
    pub place: Place,
}
