//! References are compared as the values that they refer to.
use crate::encode_ref::EncodeValueRef;
use crate::ord::{Orderly, ValueOrd};
use der_base::Error;
use std::cmp::Ordering;

/// Compares the contents of the values that the references refer to.
///
/// # Errors
///
/// Those of the values' [`ValueOrd::value_cmp`].
impl<'a, T: ValueOrd> ValueOrd for EncodeValueRef<'a, T> {
    ghost value_order = { λ v w. T.value_order v.0.now w.0.now };

    fn value_cmp(&self, other: &Self) -> Result<Ordering, Error> {
        self.0.value_cmp(other.0)
    }
}

impl<'a, T: Orderly> Orderly for EncodeValueRef<'a, T> {
    ghost orderly = { λ v w. T.orderly v.0.now w.0.now };
}
