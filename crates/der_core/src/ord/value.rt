//! Orders of contents.
ghost use Rattle.std.specs.Prelude.{◌≡◌, Ok};
ghost use Rattle.std.proofs.Common.{ap};
ghost use Rattle.der_core.specs.DerOrd.{Compared, IsOrderly, OrdersContents};

use crate::encode::EncodeValue;
use crate::tag::fixed::Tagged;
use der_base::Error;
use std::cmp::Ordering;

/// Types whose values are compared by their contents.
///
/// Ghost member (for proofs only): `value_order` is the exact result of [`ValueOrd::value_cmp`],
/// errors included.
pub trait ValueOrd {
    ghost value_order: { Self → Self → Compared };

    /// Compares the contents of two values. Allocates nothing.
    ///
    /// # Errors
    ///
    /// - The errors of the type, which the ghost member `value_order` specifies.
    fn value_cmp(&self, other: &Self) -> Result<Ordering, Error>
        ensures { result ≡ value_order self.now other.now };
}

/// Types whose [`ValueOrd::value_cmp`] compares contents of equal length octet by octet: for two
/// values with equal tags and contents of equal length, it returns the lexicographic order of the
/// contents. So if [`DerOrd::der_cmp`](crate::DerOrd::der_cmp) of any two values succeeds, its
/// result is the lexicographic order of their encodings.
///
/// Ghost member (for proofs only): `orderly` is this property of [`ValueOrd::value_cmp`], which
/// implementors prove.
pub trait Orderly: EncodeValue + Tagged + ValueOrd {
    ghost orderly: { IsOrderly Self.tag_of Self.contents Self.value_order };
}

/// Types whose `Ord` compares contents of equal length octet by octet: for two values with contents
/// of equal length, `Ord` returns the lexicographic order of the contents. A type that implements
/// this trait also implements [`ValueOrd`], whose `value_cmp` then compares by `Ord`.
///
/// Ghost member (for proofs only): `orders_contents` is this property of `Ord`, which implementors
/// prove.
pub trait OrdIsValueOrd: Ord + EncodeValue {
    ghost orders_contents: { OrdersContents Self.contents Self.cmp };
}

/// Compares two values by their `Ord`. Never fails.
impl<T: OrdIsValueOrd> ValueOrd for T {
    ghost value_order = { λ v w. Ok (T.cmp v w) };

    #[inline(always)]
    fn value_cmp(&self, other: &Self) -> Result<Ordering, Error> {
        Ok(self.cmp(other))
    }
}

impl<T: OrdIsValueOrd + Tagged> Orderly for T {
    ghost orderly = { λ v w _ as_long. ap Ok (T.orders_contents v w as_long) };
}
