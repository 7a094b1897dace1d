// The limit of 200 on the nesting.

use super::{error_of, push_times};
use crate::rows::{field, number, table};
use gn_syntax::SyntaxError;
use std::alloc::{AllocError, Global};

/// What stands in front, what nests, what stands inside, what closes each one, and what stands behind. Then how often it
/// may nest, and the offset of the token that is too deep where it nests once more.
pub(crate) const NESTS: &str = table! {
    // A bracket counts for all that stands inside.
    "x=", "(", "a", ")", "", 200, 202;
    "x=", "[", "", "]", "", 200, 202;
    "", "x={", "", "}", "", 200, 602;
    "", "f(", "", ")", "", 200, 401;
    "", "f(){", "", "}", "", 200, 801;
    "x=", "a[", "0", "]", "", 200, 403;
    "", "a[", "0", "]", "=1", 200, 401;
    "", "if(a){", "", "}", "", 200, 1202;
    "", "if(a){}else{", "", "}", "", 200, 2402;
    // A `!` counts until its operand is complete.
    "x=", "!", "a", "", "", 200, 202;
    "x=", "!(", "a", ")", "", 100, 202;
    "x=!a", "+!a", "", "", "", 199, 602;
    // An operator counts for what comes behind it in its expression.
    "x=a", "+a", "", "", "", 200, 403;
    "x=a", "+a<a==a&&a||a", "", "", "", 40, 523;
    "x=a", "+(a", "", ")", "", 100, 303;
    "x=", "(", "a", ")+a", "", 200, 202;
    // The `else if` of a chain counts for its own brackets: those behind the 200th are at 201.
    "if(a){}", "else if(a){}", "", "", "", 199, 2402;
};

/// Puts the parts of a row at the end, the middle ones so many times.
pub(super) fn push_parts(bytes: &mut Vec<u8>, row: &str, count: usize) -> Result<(), AllocError> {
    push_times(bytes, field(row, 0), 1)?;
    push_times(bytes, field(row, 1), count)?;
    push_times(bytes, field(row, 2), 1)?;
    push_times(bytes, field(row, 3), count)?;
    push_times(bytes, field(row, 4), 1)
}

// The first error of a file that nests so many times.
fn error_at(alloc: Global, row: &str, count: usize) -> Result<Option<SyntaxError>, AllocError> {
    let mut bytes = Vec::new(alloc);
    push_parts(&mut bytes, row, count)?;
    Ok(error_of(alloc, &bytes))
}

/// Whether a file nests as often as its row expects, and no more.
pub(crate) fn is_limited(alloc: Global, row: &str) -> Result<bool, AllocError> {
    let count = number(row, 5);
    let deepest = error_at(alloc, row, count)?;
    let deeper = error_at(alloc, row, count.saturating_add(1))?;
    Ok(deepest == None && deeper == Some(SyntaxError::TooDeep(number(row, 6))))
}

/// 200 brackets, each the left operand of as many operators as the limit leaves.
pub(crate) fn push_deepest_left(bytes: &mut Vec<u8>) -> Result<(), AllocError> {
    push_times(bytes, "(", 200)?;
    push_times(bytes, "a", 1)?;
    for operators in 1..201 {
        push_times(bytes, ")", 1)?;
        push_times(bytes, "+a", operators)?;
    }
    Ok(())
}

fn are_deepest(alloc: Global, bytes: &mut Vec<u8>) -> Result<bool, AllocError> {
    push_deepest_left(bytes)?;
    let deepest = error_of(alloc, bytes);
    push_times(bytes, "+a", 1)?;
    let deeper = error_of(alloc, bytes);
    Ok(deepest == None && deeper == Some(SyntaxError::TooDeep(40603)))
}

/// Whether left operands stand 20,100 deep and no deeper.
pub(crate) fn stand_deep(alloc: Global) -> Result<bool, AllocError> {
    let mut bytes = "x=".as_bytes().to_vec(alloc)?;
    are_deepest(alloc, &mut bytes)
}
