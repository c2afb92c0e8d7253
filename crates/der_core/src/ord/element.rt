//! Comparisons of elements.
ghost use Rattle.std.specs.Prelude.{◌≡◌, Ok, IsOk, IfOk};
ghost use Rattle.der_base.specs.Order.{byte_order};
ghost use Rattle.der_core.specs.DerOrd.{element_order, AreOrderly};
ghost use Rattle.der_core.specs.Encode.{element_octets};

use crate::encode::EncodeValue;
use crate::ord::{DerOrd, ValueOrd};
use crate::tag::fixed::Tagged;
use der_base::Error;
use std::cmp::Ordering;

/// Compares the elements of two values in three steps: first the identifier octets of their tags,
/// octet by octet; if these are equal, the lengths of the contents; if these are also equal, the
/// contents by [`ValueOrd::value_cmp`]. Allocates nothing.
///
/// # Errors
///
/// - The error of [`EncodeValue::header`] of `value`. If there is none, the error of
///   [`EncodeValue::header`] of `other`.
/// - Those of [`ValueOrd::value_cmp`], if the headers are equal.
#[inline(always)]
pub fn der_cmp_tlv<T: EncodeValue + ValueOrd + Tagged>(
    value: &T,
    other: &T,
) -> Result<Ordering, Error>
    ensures ok { AreOrderly (T.tag_of value.now) (T.tag_of other.now) (T.contents value.now)
        (T.contents other.now) (T.value_order value.now other.now)
        → IfOk result (λ o. o ≡ byte_order
        (element_octets (T.tag_of value.now) (T.contents value.now))
        (element_octets (T.tag_of other.now) (T.contents other.now))) }
    ensures complete { AreOrderly (T.tag_of value.now) (T.tag_of other.now) (T.contents value.now)
        (T.contents other.now) (T.value_order value.now other.now)
        → IsOk (T.value_size value.now) → IsOk (T.value_size other.now)
        → result ≡ Ok (byte_order (element_octets (T.tag_of value.now) (T.contents value.now))
        (element_octets (T.tag_of other.now) (T.contents other.now))) }
    ensures exact { result ≡ element_order (T.tag_of value.now) (T.tag_of other.now)
        (T.value_size value.now) (T.value_size other.now) (T.value_order value.now other.now) }
{
    let this = value.header()?;
    let that = other.header()?;
    match this.der_cmp(&that)? {
        Ordering::Equal => value.value_cmp(other),
        ordering => Ok(ordering),
    }
}
