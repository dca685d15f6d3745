//! Equality of values.

ghost use Rattle.std.specs.Prelude.{◌≡◌, ◌↔◌, IsTrue};

/// A value of which it can be said whether another is equal to it.
pub trait Same {
    /// Whether both are the same value.
    fn is_same(&self, other: &Self) -> bool
        ensures { IsTrue result ↔ (self.now ≡ other.now) };
}

impl Same for bool {
    fn is_same(&self, other: &bool) -> bool {
        *self == *other
    }
}

impl Same for u32 {
    fn is_same(&self, other: &u32) -> bool {
        *self == *other
    }
}

impl Same for u64 {
    fn is_same(&self, other: &u64) -> bool {
        *self == *other
    }
}

impl<T: Same> Same for Option<T> {
    fn is_same(&self, other: &Option<T>) -> bool {
        match (self, other) {
            (Some(value), Some(other)) => value.is_same(other),
            (None, None) => true,
            _ => false,
        }
    }
}

/// Whether `first` is the same as `other_first`, and `second` as `other_second`.
pub fn same_two<A: Same, B: Same>(first: &A, other_first: &A, second: &B, other_second: &B) -> bool
    ensures first { IsTrue result → first.now ≡ other_first.now }
    ensures second { IsTrue result → second.now ≡ other_second.now }
    ensures all { first.now ≡ other_first.now → second.now ≡ other_second.now → IsTrue result }
{
    first.is_same(other_first) && second.is_same(other_second)
}

/// As [`same_two`], of three values.
pub fn same_three<A: Same, B: Same, C: Same>(
    first: &A,
    other_first: &A,
    second: &B,
    other_second: &B,
    third: &C,
    other_third: &C,
) -> bool
    ensures first { IsTrue result → first.now ≡ other_first.now }
    ensures second { IsTrue result → second.now ≡ other_second.now }
    ensures third { IsTrue result → third.now ≡ other_third.now }
    ensures all { first.now ≡ other_first.now → second.now ≡ other_second.now → third.now ≡ other_third.now
        → IsTrue result }
{
    same_two(first, other_first, second, other_second) && third.is_same(other_third)
}

/// As [`same_two`], of four values.
pub fn same_four<A: Same, B: Same, C: Same, D: Same>(
    first: &A,
    other_first: &A,
    second: &B,
    other_second: &B,
    third: &C,
    other_third: &C,
    fourth: &D,
    other_fourth: &D,
) -> bool
    ensures first { IsTrue result → first.now ≡ other_first.now }
    ensures second { IsTrue result → second.now ≡ other_second.now }
    ensures third { IsTrue result → third.now ≡ other_third.now }
    ensures fourth { IsTrue result → fourth.now ≡ other_fourth.now }
    ensures all { first.now ≡ other_first.now → second.now ≡ other_second.now → third.now ≡ other_third.now
        → fourth.now ≡ other_fourth.now → IsTrue result }
{
    same_two(first, other_first, second, other_second)
        && same_two(third, other_third, fourth, other_fourth)
}

/// As [`same_two`], of five values.
pub fn same_five<A: Same, B: Same, C: Same, D: Same, E: Same>(
    first: &A,
    other_first: &A,
    second: &B,
    other_second: &B,
    third: &C,
    other_third: &C,
    fourth: &D,
    other_fourth: &D,
    fifth: &E,
    other_fifth: &E,
) -> bool
    ensures first { IsTrue result → first.now ≡ other_first.now }
    ensures second { IsTrue result → second.now ≡ other_second.now }
    ensures third { IsTrue result → third.now ≡ other_third.now }
    ensures fourth { IsTrue result → fourth.now ≡ other_fourth.now }
    ensures fifth { IsTrue result → fifth.now ≡ other_fifth.now }
    ensures all { first.now ≡ other_first.now → second.now ≡ other_second.now → third.now ≡ other_third.now
        → fourth.now ≡ other_fourth.now → fifth.now ≡ other_fifth.now → IsTrue result }
{
    same_two(first, other_first, second, other_second)
        && same_three(third, other_third, fourth, other_fourth, fifth, other_fifth)
}
