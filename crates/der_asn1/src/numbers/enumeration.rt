//! Enumerations: items that have numbers.
ghost use Rattle.std.specs.Prelude.{◌≡◌, ℕ, Option, Some, IfSome};

/// Types whose values are the items of an enumeration, such as an enum without fields. Each item has
/// a number of its own, as in an ENUMERATED (X.680 20) or in an INTEGER with named numbers (19.5).
///
/// Ghost members (for proofs only): `item_of` gives the item with each number, and `number_of` the
/// number of each item. The contracts state that each of them is the inverse of the other.
pub trait Enumeration: Copy {
    ghost item_of: { ℕ → Option Self };

    ghost number_of: { Self → ℕ };

    /// The item with the number `number`, or `None` if no item has this number.
    fn from_number(number: u32) -> Option<Self>
        ensures item { result ≡ item_of number }
        ensures number { IfSome result (λ v. number_of v ≡ number) };

    /// The number of the item.
    fn to_number(self) -> u32
        ensures number { result ≡ number_of self }
        ensures item { item_of (number_of self) ≡ Some self };
}
