//! Extensions whose contents need not be DER.

use der_asn1::BitStringRef;

/// An extension whose contents need not be DER. [`find_lenient`](crate::find_lenient) returns it,
/// and says in which ways they may differ from DER.
#[derive(Clone, Copy, Debug, Drop)]
pub struct Lenient<V> {
    /// Whether an application that does not process the extension must reject the certificate.
    pub critical: bool,
    /// Whether the contents of the extension are also valid DER.
    pub is_der: bool,
    /// The value of the extension.
    pub value: V,
}

impl<'a> Lenient<BitStringRef<'a>> {
    ghost use Rattle.std.specs.Prelude.{◌≡◌};
    ghost use Rattle.der_asn1.specs.NamedBits.{has_bit};

    /// Whether the bit with this number is one; bit 0 is the first bit. False if the BIT STRING
    /// does not have the bit.
    pub fn has_bit(&self, number: u32) -> bool
        ensures { result ≡ has_bit number self.now.value.octets.now }
    {
        let octets = self.value.octets();
        let at = 1 + number as usize / 8;
        at < octets.len() && (octets[at] >> (7 - number % 8)) % 2 == 1
    }
}
