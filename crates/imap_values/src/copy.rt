//! Copies of values.

ghost use Rattle.std.specs.Prelude.{◌≡◌, IfOk};

use std::alloc::{AllocError, Global};

/// A value of which equal copies can be made.
pub trait TryCopy {
    /// Returns an equal copy.
    fn try_copy(&self, alloc: Global) -> Result<Self, AllocError>
        ensures { IfOk result (λ copy. copy ≡ self.now) };
}

impl TryCopy for () {
    fn try_copy(&self, _alloc: Global) -> Result<(), AllocError> {
        Ok(())
    }
}

impl TryCopy for u32 {
    fn try_copy(&self, _alloc: Global) -> Result<u32, AllocError> {
        Ok(*self)
    }
}

impl<T: TryCopy + Drop> TryCopy for Option<T> {
    fn try_copy(&self, alloc: Global) -> Result<Option<T>, AllocError> {
        match self {
            Some(value) => Ok(Some(value.try_copy(alloc)?)),
            None => Ok(None),
        }
    }
}

/// Returns equal copies of two values.
pub fn copy_two<A: TryCopy + Drop, B: TryCopy + Drop>(
    first: &A,
    second: &B,
    alloc: Global,
) -> Result<(A, B), AllocError>
    ensures { IfOk result (λ copies. copies ≡ (first.now, second.now)) }
{
    let first = first.try_copy(alloc)?;
    let second = second.try_copy(alloc)?;
    Ok((first, second))
}
