//! Identifiers of extensions and attributes, compared by their contents octets.
ghost use Rattle.std.specs.Prelude.{◌≡◌, ◌↔◌, IsTrue};

use der_asn1::ObjectIdentifierRef;

// Whether the octets are the contents of the identifier.
pub(crate) fn is(id: &[u8], other: &ObjectIdentifierRef<'_>) -> bool
    ensures { IsTrue result ↔ (id.now ≡ other.now.octets.now) }
{
    id == other.octets()
}
