//! The part of a value that counts, and the rest that doesn't, as room for more.

ghost use Rattle.std.specs.Prelude.{◌≡◌, ◌↔◌, IsTrue, Option, option_and_then, option_copied};

/// A value of which a part is kept, or nothing: of a list with room only the list is, and that only if
/// it isn't empty.
pub trait Part {
    ghost Kept: { Type 0 };

    ghost kept: { Self → Option Kept };

    /// Whether the same is kept of both. Of `None` nothing is kept.
    fn is_same_part(&self, other: Option<&Self>) -> bool
        ensures { IsTrue result ↔ (kept self.now ≡ option_and_then kept (option_copied other.entry)) };
}

impl Part for u32 {
    ghost use Rattle.std.specs.Prelude.{ℕ, Some};

    ghost Kept = { ℕ };

    ghost kept = { λ n. Some n };

    fn is_same_part(&self, other: Option<&u32>) -> bool {
        match other {
            Some(other) => *self == *other,
            None => false,
        }
    }
}

impl Part for () {
    ghost use Rattle.std.specs.Prelude.{Some};

    ghost Kept = { Unit {0} };

    ghost kept = { λ u. Some u };

    fn is_same_part(&self, other: Option<&()>) -> bool {
        other.is_some()
    }
}
