//! The results of `==` and `clone` for types of this crate, and of comparisons of [`Orderly`]
//! types. Each function here calls one comparison or one clone, and the contract of the function
//! states the result. Nothing calls the functions of this module.
ghost use Rattle.std.specs.Prelude.{◌≡◌, ◌↔◌, IsTrue, Ok, IsOk, IsOkAnd, IfOk};
ghost use Rattle.std.specs.List.{AllByRecursion};
ghost use Rattle.der_base.specs.Order.{byte_order};
ghost use Rattle.der_core.specs.Encode.{element_octets};
ghost use Rattle.der_core.specs.Header.{head_of};
ghost use Rattle.der_core.specs.Items.{joined_elements};
ghost use Rattle.der_core.specs.Position.{position_place};

use crate::header::Header;
use crate::ord::{DerOrd, Orderly, iter_cmp};
use crate::reader::Position;
use der_base::Error;
use std::alloc::AllocError;
use std::cmp::Ordering;

/// Calls `==`; the contract states that two headers are equal exactly if their tags, lengths and
/// constructed bits are equal.
fn header_equality(a: Header, b: Header) -> bool
    ensures { IsTrue result ↔ (head_of a ≡ head_of b) }
{
    a == b
}

/// Calls `Clone::clone`; the contract states that a clone of a header equals the original, and that
/// cloning allocates nothing.
fn header_clone(header: &Header) -> Result<Header, AllocError>
    ensures { result ≡ Ok header.now }
{
    header.clone()
}

/// Calls `Clone::clone`; the contract states that a clone has the same position, end and depth as
/// the original, and that cloning allocates nothing.
fn position_clone(position: &Position) -> Result<Position, AllocError>
    ensures { IsOkAnd result (λ p. position_place p ≡ position_place position.now) }
{
    position.clone()
}

/// Calls [`DerOrd::der_cmp`] on two values of an [`Orderly`] type. The contract states that the
/// result is the lexicographic order of their encodings, compared octet by octet (X.690 11.6), or
/// an error. If the headers of both values can be computed, the result is not an error.
fn encodings_are_compared<T: Orderly>(value: &T, other: &T) -> Result<Ordering, Error>
    ensures ok { IfOk result (λ o. o
        ≡ byte_order (element_octets (T.tag_of value.now) (T.contents value.now))
        (element_octets (T.tag_of other.now) (T.contents other.now))) }
    ensures complete { IsOk (T.value_size value.now) → IsOk (T.value_size other.now) → result
        ≡ Ok (byte_order (element_octets (T.tag_of value.now) (T.contents value.now))
        (element_octets (T.tag_of other.now) (T.contents other.now))) }
{
    value.der_cmp(other)
}

/// Calls [`iter_cmp`] on two slices of values of an [`Orderly`] type. The contract states that the
/// result is an error, or the lexicographic order of two lists of octets, compared octet by octet.
/// The first list is the joined encodings of the values in `these`, and the second list is the
/// joined encodings of the values in `those`. If the header of every value in both slices can be
/// computed, the result is not an error.
fn joined_encodings_are_compared<T: Orderly>(these: &[T], those: &[T]) -> Result<Ordering, Error>
    ensures ok { IfOk result (λ o. o ≡ byte_order (joined_elements T.tag_of T.contents these.now)
        (joined_elements T.tag_of T.contents those.now)) }
    ensures complete { AllByRecursion (λ v. IsOk (T.value_size v)) these.now
        → AllByRecursion (λ v. IsOk (T.value_size v)) those.now → result
        ≡ Ok (byte_order (joined_elements T.tag_of T.contents these.now)
        (joined_elements T.tag_of T.contents those.now)) }
{
    iter_cmp(these.iter(), those.iter())
}
