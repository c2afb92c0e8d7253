//! Boxed values are compared as the values that they hold.
use crate::ord::{Orderly, ValueOrd};
use crate::tag::fixed::FixedTag;
use der_base::Error;
use std::cmp::Ordering;

/// Compares the contents of the values that the boxes hold.
///
/// # Errors
///
/// Those of the values' [`ValueOrd::value_cmp`].
impl<T: ValueOrd> ValueOrd for Box<T> {
    ghost value_order = { λ v w. T.value_order v.value w.value };

    fn value_cmp(&self, other: &Self) -> Result<Ordering, Error> {
        (**self).value_cmp(&**other)
    }
}

impl<T: Orderly + FixedTag> Orderly for Box<T> {
    ghost orderly = { λ v w. T.orderly v.value w.value };
}
