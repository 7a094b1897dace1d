//! What the block of an item defines: a fold over rows, each of which judges one variable.
#![tactic(auto)]

mod block;
mod checking;
mod defining;
mod demands;
mod distinct;
mod fault;
mod field;
mod fields;
mod files;
mod filling;
mod forms;
mod laws;
mod outputs;
mod place;
mod reading;
mod strings;

pub use block::Block;
pub use defining::{define, name_fault};
pub use fault::{DefineError, ItemFault};
pub use field::Field;
pub use fields::{Entry, Fields};
pub use laws::{
    demands_are_met, fields_are_of_the_block, first_rows_come_first,
    outputs_stand_below_the_build_directory, outputs_stand_once_each,
};
pub use outputs::{has_outputs, outputs_of};
pub use place::Where;
