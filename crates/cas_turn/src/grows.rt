//! What a value under a turn is made of.
ghost use Rattle.std.specs.Prelude.{◌≡◌, ℕ, List, Option, length};

/// A value with a list that only grows.
pub trait Grows {
    /// What the list has.
    type Item;

    // The list. Whoever gives the value back may only add to it.
    ghost list: { Self → List Self.Item };

    // The number that owns an item, if any does.
    ghost owner: { Self.Item → Option ℕ };

    // The part of the value that is a number's own.
    ghost part: { Self → ℕ → List ℕ };

    // For how many seats the value is made. No hold changes it.
    ghost seats: { Self → ℕ };

    // Whether one hold may add these items.
    ghost may_add: { List Self.Item → Type 0 };

    /// How many items the list has.
    fn items(&self) -> u64
        ensures { result ≡ length (list self.now) };
}
