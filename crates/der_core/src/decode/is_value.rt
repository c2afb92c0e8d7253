//! Validity of values.

use crate::decode::ReadValue;

/// Types of which a program cannot hold an invalid value: whatever makes a value, decoding or a
/// caller, makes a valid one. Each [`Lawful`](crate::Lawful) type is such a type.
pub trait IsValue: ReadValue {
    /// Does nothing; the contract states, for use in proofs, that `self` is a valid value.
    fn is_value(&self)
        ensures { Self.valid self.now };
}
