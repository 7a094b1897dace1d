// Whether calls answer what their rows expect, all of them in two tests: each test with its loop costs its proof alone.

use crate::conversions::{self, form_named, is_converted};
use crate::rows::field;
use crate::{labels, limits, paths, standing, texts};
use gn_paths::PathError;
use std::alloc::Global;
use std::test::Fail;

const CALLS: [&str; 4] = [
    texts::TEXTS,
    labels::LABELS,
    paths::PATHS,
    conversions::CONTENTS,
];

const LONGEST: [&str; 3] = [limits::TEXTS, limits::PATHS, limits::CONTENTS];

// Whether the call of a row without a place answers what the row expects.
fn is_plain_answered(alloc: Global, row: &str) -> Result<bool, PathError> {
    let is_so = match form_named(field(row, 0)) {
        Some(form) => is_converted(alloc, row, form),
        None => texts::is_answered(alloc, row),
    };
    Ok(is_so?)
}

fn is_answered(alloc: Global, row: &str) -> Result<bool, PathError> {
    if field(row, 3).is_empty() {
        is_plain_answered(alloc, row)
    } else {
        standing::is_answered(alloc, row)
    }
}

#[test]
fn calls_answer(rt: HostRuntime) -> Result<(), Fail> {
    for table in CALLS {
        for row in table.split_terminator('\x1e') {
            assert!(rt; is_answered(rt.alloc(), row)?, "at {row}");
        }
    }
    Ok(())
}

#[test]
fn calls_answer_on_the_longest_values(rt: HostRuntime) -> Result<(), Fail> {
    for table in LONGEST {
        for row in table.split_terminator('\x1e') {
            assert!(rt; is_answered(rt.alloc(), row)?, "at {row}");
        }
    }
    Ok(())
}
