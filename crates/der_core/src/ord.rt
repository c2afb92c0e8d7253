//! Orders of values by their encodings (X.690 11.6).
ghost use Rattle.std.specs.Prelude.{◌≡◌, ℕ, List, Ok, IsOk, IfOk};
ghost use Rattle.der_base.specs.Order.{byte_order, AreDelimited};
ghost use Rattle.der_base.proofs.DelimitedLemmas.{elements_delimited};
ghost use Rattle.der_core.specs.DerOrd.{Compared, element_order, AreOrderly};
ghost use Rattle.der_core.specs.Encode.{element_octets};

mod boxed;
mod element;
mod items;
mod phantom;
mod reference;
mod value;

use crate::encode::EncodeValue;
use crate::tag::fixed::Tagged;
use der_base::Error;
pub use element::der_cmp_tlv;
pub use items::{iter_cmp, iter_cmp_owned};
use std::cmp::Ordering;
pub use value::{OrdIsValueOrd, Orderly, ValueOrd};

/// Types whose values are compared by their octets, as X.690 11.6 compares the elements of a SET OF
/// by their encodings.
///
/// Ghost members (for proofs only):
///
/// - `order` is the exact result of [`DerOrd::der_cmp`], errors included.
/// - `octets` is the octets by which a value is ordered.
/// - `by_octets` is a condition on two values. If it holds and comparing the two values succeeds,
///   the result is the lexicographic order of their `octets`, compared octet by octet.
/// - `has_header` is a condition on one value: the beginning of its `octets` (for an element, its
///   header) can be computed. If it holds for each of two values, and `by_octets` holds for the
///   two, comparing them succeeds.
/// - `delimits` is a condition on the type: if the `octets` of several values are joined, they can
///   be separated again. `delimited` is the proof that the condition has this meaning.
pub trait DerOrd {
    ghost order: { Self → Self → Compared };

    ghost octets: { Self → List ℕ };

    ghost by_octets: { Self → Self → Type 0 };

    ghost has_header: { Self → Type 0 };

    ghost delimits: { Type 0 };

    ghost delimited: { delimits → AreDelimited octets };

    /// Compares this value with `other` in the order that [`DerOrd`] describes. Allocates nothing.
    ///
    /// # Errors
    ///
    /// - The errors of the type, which the ghost member `order` specifies.
    fn der_cmp(&self, other: &Self) -> Result<Ordering, Error>
        ensures ok { by_octets self.now other.now
            → IfOk result (λ o. o ≡ byte_order (octets self.now) (octets other.now)) }
        ensures complete { by_octets self.now other.now → has_header self.now
            → has_header other.now
            → result ≡ Ok (byte_order (octets self.now) (octets other.now)) }
        ensures exact { result ≡ order self.now other.now };
}

/// Compares the elements of two values: their headers, then their contents.
///
/// # Errors
///
/// Those of [`der_cmp_tlv`].
impl<T: EncodeValue + ValueOrd + Tagged> DerOrd for T {
    ghost order = { λ v w. element_order (T.tag_of v) (T.tag_of w) (T.value_size v)
        (T.value_size w) (T.value_order v w) };

    ghost octets = { λ v. element_octets (T.tag_of v) (T.contents v) };

    ghost by_octets = { λ v w. AreOrderly (T.tag_of v) (T.tag_of w) (T.contents v) (T.contents w)
        (T.value_order v w) };

    ghost has_header = { λ v. IsOk (T.value_size v) };

    ghost delimits = { Unit {0} };

    ghost delimited = { λ _. elements_delimited T.tag_of T.contents };

    #[inline(always)]
    fn der_cmp(&self, other: &Self) -> Result<Ordering, Error> {
        der_cmp_tlv(self, other)
    }
}
