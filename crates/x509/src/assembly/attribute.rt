//! Attributes of certification requests, with their values written into buffers.
ghost use Rattle.std.specs.Prelude.{◌≡◌, IfOk};
ghost use Rattle.der.specs.Encode.{SliceAnswer};
ghost use Rattle.der.specs.Prelude.{ElementWritten, element_octets, map_ok};
ghost use Rattle.der_asn1.specs.AnyElement.{AnyElementRead};
ghost use Rattle.der_asn1.specs.AnyRef.{AnyRead};
ghost use Rattle.der_asn1.specs.ListAnswers.{SetWalked};
ghost use Rattle.der_asn1.specs.Assembly.{WrittenThenRead};

use super::written::write_value;
use crate::asn1::Attribute;
use crate::find::KnownAttribute;
use der::Error;
use der_asn1::SetOf;
use std::alloc::Global;

/// Returns the attribute of type `K` whose only value is `value`. `K` is a type such as
/// [`attr::ExtensionRequest`](crate::attr::ExtensionRequest). The encoding of the value is written
/// to the start of `buffer`, from which the attribute is borrowed.
///
/// # Errors
///
/// The errors of [`Encode::encode_to_slice`](der::Encode::encode_to_slice) for the value. One of
/// them is `Overlength`, if the buffer is too short.
pub fn attribute_of<'b, K: KnownAttribute<'b>>(
    alloc: Global,
    value: &K::Value,
    buffer: &'b mut [u8],
) -> Result<Attribute<'b>, Error>
    ensures id { IfOk result (λ a. a.oid.octets.now ≡ K.id_octets) }
    ensures value { IfOk result (λ a. a.values.elements.octets.now
        ≡ element_octets K.Value.tag_is (K.Value.contents value.now)) }
    ensures exact { WrittenThenRead (SliceAnswer (ElementWritten K.Value.tag_is
        (K.Value.value_size value.now) (K.Value.encode_value_answers value.now)) buffer.old)
        (λ octets r. SetWalked (λ e f. f ≡ e) (AnyElementRead (λ e f. f ≡ e) AnyRead) r octets)
        (map_ok (λ _. tt) result) }
{
    let contents = write_value(value, buffer)?;
    let values = SetOf::new(alloc, contents)?;
    Ok(Attribute {
        oid: K::identifier(),
        values,
    })
}
