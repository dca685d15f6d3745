//! Owned values that are put, made or dropped beside others. The functions are generic, since the proof that a large value
//! is dropped is long, and that of a type parameter isn't.

ghost use Rattle.std.specs.Prelude.{◌≡◌};

/// Both values, or why one wasn't made.
pub(crate) fn both<A: Drop, B: Drop, E: Drop>(
    one: Result<A, E>,
    other: Result<B, E>,
) -> Result<(A, B), E> {
    match one {
        Ok(one) => match other {
            Ok(other) => Ok((one, other)),
            Err(error) => Err(error),
        },
        Err(error) => Err(error),
    }
}

/// Puts a value in the place of another one.
pub(crate) fn put<T: Drop>(place: &mut T, value: T)
    ensures { place.new ≡ value }
{
    *place = value;
}

/// Puts a value where none is yet.
pub(crate) fn put_first<T: Drop>(place: &mut Option<T>, value: T) {
    if place.is_none() {
        *place = Some(value);
    }
}
