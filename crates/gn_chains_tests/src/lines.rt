// What the lines of all tables say holds, in one test: each test with its loop costs its proof alone.

use crate::chains::{self, Along, goes};
use crate::{faults, labelled, outputs, rules};
use std::alloc::Global;
use std::test::Fail;

// What a table is of.
#[derive(Clone, Copy)]
enum Subject {
    Applied,
    Inherited,
    MadeAgain,
    Forbidden,
    ForbiddenOverItems,
    Found,
    Faults,
    LeastFault,
}

const TABLES: [(Subject, &str); 8] = [
    (Subject::Applied, chains::APPLIED),
    (Subject::Inherited, chains::INHERITED),
    (Subject::MadeAgain, outputs::AGAIN),
    (Subject::Forbidden, rules::FORBIDDEN),
    (Subject::ForbiddenOverItems, rules::FORBIDDEN),
    (Subject::Found, labelled::FOUND),
    (Subject::Faults, faults::FAULTS),
    (Subject::LeastFault, faults::LEAST),
];

fn holds(alloc: Global, subject: Subject, row: &str) -> Result<bool, Fail> {
    match subject {
        Subject::Applied => goes(alloc, row, Along::Configurations),
        Subject::Inherited => goes(alloc, row, Along::Libraries),
        Subject::MadeAgain => outputs::repeats(alloc, row),
        Subject::Forbidden => rules::forbids(alloc, row),
        Subject::ForbiddenOverItems => labelled::forbids(alloc, row),
        Subject::Found => labelled::finds(alloc, row),
        Subject::Faults => faults::has_faults(alloc, row),
        Subject::LeastFault => faults::has_least(alloc, row),
    }
}

#[test]
fn lines_hold(rt: HostRuntime) -> Result<(), Fail> {
    for (subject, table) in TABLES {
        for row in table.split('\n') {
            assert!(rt; holds(rt.alloc(), subject, row)?, "{row}");
        }
    }
    Ok(())
}
