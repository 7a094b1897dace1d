// What is kept while a further value is made that may fail.

ghost use Rattle.std.specs.Prelude.{◌≡◌, IfOk, Ok};

// A value beside a further one that was made, so that neither is owned where making fails.
pub(crate) fn beside<A: Drop, B: Drop, E>(kept: A, made: Result<B, E>) -> Result<(A, B), E>
    ensures { IfOk result (λ pair. (pair.0 ≡ kept) × (made ≡ Ok pair.1)) }
{
    match made {
        Ok(made) => Ok((kept, made)),
        Err(error) => {
            drop(kept);
            Err(error)
        }
    }
}
