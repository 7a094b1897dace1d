// Lists of what is written one by one: files that are copied, runs of a script, sources that are built.

ghost use Rattle.std.specs.Prelude.{◌≡◌};

use crate::records::{Copied, Run, Unit};
use std::marker::Model;

/// The files that a copy makes, in the order of the sources.
#[derive(Drop)]
pub struct CopiedFiles {
    list: Vec<Copied>,
}

impl Model for CopiedFiles {
    ghost use Rattle.std.specs.Prelude.{List};
    ghost use Rattle.std.specs.Coded.{coded_list};
    ghost use Rattle.gn_writing.specs.declared.records.Copied.{Copied};
    ghost use Rattle.gn_writing.specs.contracts.records.Copied.{the_row};

    ghost Value = { List Copied };

    ghost coded = { coded_list the_row.coded };

    ghost view = { λ l. l.list.items };
}

impl CopiedFiles {
    /// The list of these files, which takes no memory.
    pub fn from_vec(list: Vec<Copied>) -> CopiedFiles
        ensures { result ≡ list.items }
    {
        CopiedFiles { list }
    }

    /// The files, in order.
    pub fn as_slice(&self) -> &[Copied]
        ensures { result.now ≡ self.now }
    {
        self.list.as_slice()
    }
}

/// The runs of an action's script.
#[derive(Drop)]
pub struct Runs {
    list: Vec<Run>,
}

impl Model for Runs {
    ghost use Rattle.std.specs.Prelude.{List};
    ghost use Rattle.std.specs.Coded.{coded_list};
    ghost use Rattle.gn_writing.specs.declared.records.Run.{Run};
    ghost use Rattle.gn_writing.specs.contracts.records.Run.{the_row};

    ghost Value = { List Run };

    ghost coded = { coded_list the_row.coded };

    ghost view = { λ l. l.list.items };
}

impl Runs {
    /// The list of these runs, which takes no memory.
    pub fn from_vec(list: Vec<Run>) -> Runs
        ensures { result ≡ list.items }
    {
        Runs { list }
    }

    /// The runs, in order.
    pub fn as_slice(&self) -> &[Run]
        ensures { result.now ≡ self.now }
    {
        self.list.as_slice()
    }
}

/// The sources of a target that are built, in order.
#[derive(Drop)]
pub struct Units {
    list: Vec<Unit>,
}

impl Model for Units {
    ghost use Rattle.std.specs.Prelude.{List};
    ghost use Rattle.std.specs.Coded.{coded_list};
    ghost use Rattle.gn_writing.specs.declared.records.Unit.{Unit};
    ghost use Rattle.gn_writing.specs.contracts.records.Unit.{the_row};

    ghost Value = { List Unit };

    ghost coded = { coded_list the_row.coded };

    ghost view = { λ l. l.list.items };
}

impl Units {
    /// The list of these sources, which takes no memory.
    pub fn from_vec(list: Vec<Unit>) -> Units
        ensures { result ≡ list.items }
    {
        Units { list }
    }

    /// The sources, in order.
    pub fn as_slice(&self) -> &[Unit]
        ensures { result.now ≡ self.now }
    {
        self.list.as_slice()
    }
}
