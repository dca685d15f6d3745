//! Changes of values in their places.

ghost use Rattle.std.specs.Prelude.{◌≡◌};

/// A change that is made to values, each in its place. What a value becomes is a function of what it was.
pub trait Change<V> {
    ghost changed: { Self → V → V };

    /// Makes the change.
    fn make(&self, value: &mut V)
        ensures { value.new ≡ changed self.now value.old };
}
