// Large files: the stack is large enough for the parse, and for the drop of what it gives.

use super::{has_error, push_times};
use crate::rows::{field, number, table};
use std::alloc::{AllocError, Global};
use std::test::Fail;

// What stands in front, what comes again and again, how often, and what stands behind. Then the first error.
const LARGE: &str = table! {
    "", "(", 1048576, "", "Unexpected(0)";
    "", "[", 1048576, "", "Unexpected(0)";
    "", "!", 1048576, "", "Unexpected(0)";
    "x=", "(", 1048574, "", "TooDeep(202)";
    "x=", "[", 1048574, "", "TooDeep(202)";
    "x=", "!", 1048574, "", "TooDeep(202)";
    "", "x={", 349525, "", "TooDeep(602)";
    "", "a+", 524288, "", "Unexpected(1)";
    "x=", "a+", 524287, "", "TooDeep(403)";
    "", "x=1\n", 262144, "", "";
    "x=[", "!a,", 349524, "]", "";
    "x=\"", "$a", 524286, "\"", "";
    "", "if(a){}\n", 131072, "", "";
};

fn push_large(bytes: &mut Vec<u8>, row: &str) -> Result<(), AllocError> {
    push_times(bytes, field(row, 0), 1)?;
    push_times(bytes, field(row, 1), number(row, 2))?;
    push_times(bytes, field(row, 3), 1)
}

fn is_read(alloc: Global, row: &str) -> Result<bool, AllocError> {
    let mut bytes = Vec::new(alloc);
    push_large(&mut bytes, row)?;
    has_error(alloc, &bytes, field(row, 4))
}

#[test]
fn large_files_parse_or_have_their_first_error(rt: HostRuntime) -> Result<(), Fail> {
    for row in LARGE.split_terminator('\x1e') {
        assert!(rt; is_read(rt.alloc(), row)?, "at {row}");
    }
    Ok(())
}
