//! ENUMERATEDs with an extension mark, whose value may be an item of a later version of the module.
ghost use Rattle.std.specs.Prelude.{◌≡◌, pos};
ghost use Rattle.der_asn1.specs.Enumeration.{item_with_number};

use crate::numbers::enumeration::Enumeration;
use crate::numbers::number_of::EnumeratedOf;

/// Conversions between an ENUMERATED with an extension mark (X.680 20.1) and its items. Such an
/// ENUMERATED is read as a number. A number that only a later version of the module defines is
/// kept, and can be written again.
impl EnumeratedOf<i64> {
    /// The ENUMERATED that encodes `item`.
    pub fn of_item<E: Enumeration>(item: E) -> Self
        ensures { result.number ≡ pos (E.number_of item) }
    {
        EnumeratedOf {
            number: i64::from(item.to_number()),
        }
    }

    /// The item of the enumeration `E` that the ENUMERATED encodes, or `None` if no item of `E` has
    /// the encoded number.
    pub fn known_item<E: Enumeration>(&self) -> Option<E>
        ensures { result ≡ item_with_number E.item_of self.now.number }
    {
        match u32::try_from(self.number) {
            Ok(number) => E::from_number(number),
            Err(_) => None,
        }
    }
}
