//! Comparisons of two sequences of values, pair by pair, where the iterators return the values
//! themselves.
ghost use Rattle.std.specs.Prelude.{◌≡◌};
ghost use Rattle.std.specs.Iterator.{IsFinite};
ghost use Rattle.der_core.specs.Items.{ComparesItems, OfItems, ComparesJoined, SortsJoined, lists_order};

use crate::ord::DerOrd;
use der_base::Error;
use std::cmp::Ordering;

/// Compares the values that `a` and `b` return, pair by pair. The first pair whose values are
/// unequal, or whose comparison fails, decides the result. If no pair decides, the result is `Less`
/// if only `b` has further values, `Greater` if only `a` has further values, and `Equal` if both
/// have ended. This function itself allocates nothing, but the iterators may.
///
/// The caller must ensure that `next` may be called on both iterators, and that both iterators end.
///
/// # Errors
///
/// - The error of [`DerOrd::der_cmp`] of the first pair whose comparison fails, if all earlier
///   pairs are equal.
pub fn iter_cmp_owned<A, B, T>(mut a: A, mut b: B) -> Result<Ordering, Error>
where
    A: Iterator<Item = T>,
    B: Iterator<Item = T>,
    T: DerOrd + Drop,
    requires can_a { A.can_next a }
    requires can_b { B.can_next b }
    requires ends_a { IsFinite (A.remaining a) }
    requires ends_b { IsFinite (B.remaining b) }
    ensures ran { ComparesItems A.next_gives B.next_gives a b T.order result }
    ensures ok { T.delimits → OfItems A.next_gives B.next_gives (λ x. x) a b
        (SortsJoined T.by_octets T.octets result) }
    ensures complete { T.delimits → OfItems A.next_gives B.next_gives (λ x. x) a b
        (ComparesJoined (λ x y. T.by_octets x y × T.has_header x × T.has_header y)
        T.octets result) }
    ensures exact { OfItems A.next_gives B.next_gives (λ x. x) a b
        (λ xs ys. result ≡ lists_order T.order xs ys) }
{
    while let Some(x) = a.next() {
        match b.next() {
            Some(y) => match x.der_cmp(&y)? {
                Ordering::Equal => {}
                ordering => return Ok(ordering),
            },
            None => return Ok(Ordering::Greater),
        }
    }
    match b.next() {
        Some(_) => Ok(Ordering::Less),
        None => Ok(Ordering::Equal),
    }
}
