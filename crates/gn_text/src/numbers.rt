// Numbers as text.

ghost use Rattle.std.specs.Prelude.{◌≡◌, IfOk};
ghost use Rattle.std.specs.Fmt.{signed_decimal};

use itoa::Buffer;
use std::alloc::{AllocError, Global};

/// The decimal digits of a number, without leading zeros, and behind a `-` where it is negative.
pub fn decimal(alloc: Global, n: i64) -> Result<Vec<u8>, AllocError>
    ensures { IfOk result (λ text. text.items ≡ signed_decimal n) }
{
    let mut buffer = Buffer::new();
    Vec::from_slice(alloc, buffer.format(n).as_bytes())
}
