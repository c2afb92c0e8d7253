//! Extensions of known types, with their contents written into buffers.
ghost use Rattle.std.specs.Prelude.{◌≡◌, ◌∷◌, [], IfOk, if◌then◌else◌};
ghost use Rattle.der.specs.Encode.{SliceAnswer};
ghost use Rattle.der.specs.Prelude.{map_ok, element_octets, ElementWritten};

use crate::asn1::Extension;
use crate::find::KnownExtension;
use der::{Encode, EncodeValue, Error};
use der_asn1::{BooleanRef, Defaulted, OctetStringRef};

/// Returns the extension of type `K` with the value `value`. The encoding of the value is written
/// to the start of `buffer`, from which the extension is borrowed.
///
/// # Errors
///
/// The errors of [`Encode::encode_to_slice`] for the value. One of them is `Overlength`, if the
/// buffer is too short.
pub fn extension_of<'b, K: KnownExtension<'b>>(
    critical: bool,
    value: &K::Value,
    buffer: &'b mut [u8],
) -> Result<Extension<'b>, Error>
    ensures id { IfOk result (λ e. e.extn_id.octets.now ≡ K.id_octets) }
    ensures critical { IfOk result (λ e. e.critical.0.octets.now
        ≡ (if critical then 255 else 0) ∷ []) }
    ensures value { IfOk result (λ e. e.extn_value.octets.now
        ≡ element_octets K.Value.tag_is (K.Value.contents value.now)) }
    ensures exact { SliceAnswer (ElementWritten K.Value.tag_is (K.Value.value_size value.now)
        (K.Value.encode_value_answers value.now)) buffer.old
        (map_ok (λ e. e.extn_value.octets.now) result) }
{
    let contents = value.encode_to_slice(buffer)?;
    Ok(Extension {
        extn_id: K::identifier(),
        critical: Defaulted(boolean_of(critical)),
        extn_value: octet_string(contents),
    })
}

// The BOOLEAN of a `bool`.
fn boolean_of(is_true: bool) -> BooleanRef<'static>
    ensures { result.octets.now ≡ (if is_true then 255 else 0) ∷ [] }
{
    if is_true {
        BooleanRef::formed(&[0xFF])
    } else {
        BooleanRef::formed(&[0])
    }
}

// The OCTET STRING of octets.
fn octet_string(octets: &[u8]) -> OctetStringRef<'_>
    ensures { result.octets.now ≡ octets.now }
{
    OctetStringRef::formed(octets)
}
