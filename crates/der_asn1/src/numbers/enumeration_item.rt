//! INTEGERs and ENUMERATEDs whose values are the items of an enumeration.
ghost use Rattle.std.specs.Prelude.{◌≡◌, ◌↔◌, IsSome, IfSome, true, false};
ghost use Rattle.der_asn1.specs.Enumeration.{item_form};
ghost use Rattle.der_asn1.specs.Integer.{integer_octets};

use crate::numbers::enumeration::Enumeration;
use crate::numbers::integer_number::IntegerNumber;
use crate::numbers::integer_octets::IntegerOctets;
use crate::numbers::number_of::{EnumeratedOf, IntegerOf, NumberOf};

/// An item of the enumeration `E`, used as the type of the number in an INTEGER or an ENUMERATED:
/// see [`NamedInteger`] and [`Enumerated`].
#[derive(Clone, Copy, Debug, PartialEq, Eq)]
pub struct EnumerationItem<E: Enumeration>(pub E);

/// An ENUMERATED whose value is an item of the enumeration `E` (X.680 20). Decoding fails if no
/// item has the encoded number.
pub type Enumerated<E> = EnumeratedOf<EnumerationItem<E>>;

/// An INTEGER with named numbers whose value is an item of the enumeration `E`. Decoding fails if
/// no item has the encoded number.
pub type NamedInteger<E> = IntegerOf<EnumerationItem<E>>;

impl<E: Enumeration> IntegerNumber for EnumerationItem<E> {
    ghost grammar = { item_form E.item_of };

    ghost contents_of = { λ v. integer_octets false (E.number_of v.0) };

    fn from_contents(octets: &[u8]) -> Option<Self> {
        let number = u32::from_contents(octets)?;
        let item = E::from_number(number)?;
        Some(EnumerationItem(item))
    }

    fn to_contents(self) -> IntegerOctets {
        self.0.to_number().to_contents()
    }
}

impl<E: Enumeration, const ENUMERATED: bool> NumberOf<EnumerationItem<E>, ENUMERATED> {
    /// The INTEGER or ENUMERATED that encodes `item`.
    pub fn new(item: E) -> Self
        ensures { result.number.0 ≡ item }
    {
        NumberOf {
            number: EnumerationItem(item),
        }
    }

    /// The item that the value encodes.
    pub fn item(&self) -> E
        ensures { result ≡ self.now.number.0 }
    {
        self.number.0
    }
}
