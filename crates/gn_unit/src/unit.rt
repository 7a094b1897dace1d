// What an evaluation of a whole file leaves.

use gn_definitions::ImportValue;
use gn_faults::Fault;
use gn_items::{Outcome, Question};
use gn_outermost::Paused;
use gn_paths::{Path, Place};
use gn_syntax::Parsed;

/// What the execution of a whole file leaves, or why it leaves nothing.
#[derive(Drop)]
pub enum Unit {
    /// The build configuration has run: what it leaves for the files beneath which it stands, its lines, its files, the
    /// arguments that it declares, the default toolchain that it names and the questions asked.
    Setup(ImportValue, Outcome),
    /// A build file has run, and leaves items, lines, files and the questions asked.
    Load(Outcome),
    /// A file that is imported has run: what it leaves for those who import it, its lines, its files and the questions asked.
    Import(ImportValue, Outcome),
    /// The first fault, and the questions asked, in order.
    Wrong(Fault, Vec<Question>),
    /// The first import that can't be used: the path of the file, and where the call stands; and the questions asked, in
    /// order.
    Spoiled(Path, Place, Vec<Question>),
}

/// Why an evaluation has no end yet.
#[derive(Drop)]
pub enum EvalStop {
    /// The library has stopped before the file is read: it lacks the answer that it has noted; and the questions asked before, in order.
    Stopped(Vec<Question>),
    /// The same in front of an import of the outermost block whose path is written out. What is kept of the execution has the questions
    /// asked before, and `go_on` goes on there.
    Paused(Paused),
    /// The same elsewhere behind the reading of the file: its tree, and the questions asked before, in order. `evaluate_again` begins anew
    /// with that tree.
    Again(Parsed, Vec<Question>),
    /// Want of memory.
    Memory,
}
