//! The extension authorityKeyIdentifier, which says what key of the issuer signed the certificate.
ghost use Rattle.x509.specs.ExtensionIdentifiers.{id_ce};
ghost use Rattle.x509.specs.Find.{WholeRead};
ghost use Rattle.der_c_x509.specs.AuthorityKey.{IsAuthorityKeyOf};
ghost use Rattle.der_c_x509.specs.FindCalls.{FindsType, ReadsKnown, RefusesList};

use crate::find::find_known;
use crate::strings::{optional_names_of, optional_span_of};
use der::{Decode, DecodeValue, FixedTag, ReadValue, SliceReader, WrittenValue};
use der_asn1::Item;
use der_c_core::{DerError, DerSpan};
use std::alloc::Global;
use x509::{AuthorityKeyIdentifier, Extension, Known, ext};

/// The extension authorityKeyIdentifier (RFC 5280, 4.2.1.1). All octets are borrowed from the
/// input.
#[repr(C)]
#[derive(Clone, Copy)]
pub struct DerAuthorityKey<'a> {
    /// The octets of keyIdentifier, the identifier of the issuer's key. Empty if the field is
    /// absent.
    pub key_identifier: DerSpan<'a>,
    /// The contents octets of authorityCertIssuer, a list of names for `der_next_general_name`.
    /// They are names of the authority that issued the issuer's own certificate. Empty if the field
    /// is absent.
    pub issuer: DerSpan<'a>,
    /// The contents octets of authorityCertSerialNumber, the serial number of the issuer's own
    /// certificate. Empty if the field is absent.
    pub serial_number: DerSpan<'a>,
    /// Whether the list of extensions contains this extension.
    pub present: bool,
    /// Whether the extension is critical. False if the extension is absent.
    pub critical: bool,
    /// Whether the extension has the field keyIdentifier.
    pub has_key_identifier: bool,
    /// Whether the extension has the field authorityCertIssuer.
    pub has_issuer: bool,
    /// Whether the extension has the field authorityCertSerialNumber.
    pub has_serial_number: bool,
}

impl DerAuthorityKey<'_> {
    /// The value for an absent extension: all fields are empty, 0 or false.
    pub const EMPTY: DerAuthorityKey<'static> = DerAuthorityKey {
        key_identifier: DerSpan::EMPTY,
        issuer: DerSpan::EMPTY,
        serial_number: DerSpan::EMPTY,
        present: false,
        critical: false,
        has_key_identifier: false,
        has_issuer: false,
        has_serial_number: false,
    };
}

// The extension as a struct of C.
fn authority_key_of<'a>(found: &Option<Known<AuthorityKeyIdentifier<'a>>>) -> DerAuthorityKey<'a>
    ensures { IsAuthorityKeyOf found.now result }
{
    match found {
        Some(known) => DerAuthorityKey {
            key_identifier: optional_span_of(&known.value.key_identifier),
            issuer: optional_names_of(&known.value.authority_cert_issuer),
            serial_number: optional_span_of(&known.value.authority_cert_serial_number),
            present: true,
            critical: known.critical,
            has_key_identifier: known.value.key_identifier.0.is_some(),
            has_issuer: known.value.authority_cert_issuer.0.is_some(),
            has_serial_number: known.value.authority_cert_serial_number.0.is_some(),
        },
        None => DerAuthorityKey::EMPTY,
    }
}

/// Finds the extension authorityKeyIdentifier and reads it into `key`. `extensions` are the
/// contents octets of a list of extensions. It is not an error if the extension is absent, or if it
/// has only one of the names and the serial number. Each name is checked as `der_next_general_name`
/// checks it.
///
/// A call that fails leaves `key` unchanged. Fails with:
///
/// - the error of decoding an extension, if the list has an extension that cannot be decoded. A
///   list that `der_certificate_read` has set has no such extension;
/// - `SetDuplicate` without a position, if the list has the extension more than once;
/// - the error of decoding the value of the extension, if the value cannot be decoded. The position
///   of the error is counted from the start of the value. If the contents of the value are cut, the
///   error is `Incomplete`, and its `first` is the position at which the value would end.
pub fn der_authority_key_identifier<'a>(
    alloc: Global,
    extensions: &'a [u8],
    key: &mut DerAuthorityKey<'a>,
) -> DerError
    ensures { ReadsKnown (FindsType (RefusesList
        ⟦<Extension<'a> as Decode<SliceReader<'a>>>⟧.decode_answers)
        ⟦<Extension<'a> as Item>⟧.item.valid ⟦<Extension<'a> as Item>⟧.item.octets (WholeRead
        ⟦<AuthorityKeyIdentifier<'a> as FixedTag>⟧.tag_is
        ⟦<AuthorityKeyIdentifier<'a> as ReadValue>⟧.valid
        ⟦<AuthorityKeyIdentifier<'a> as WrittenValue>⟧.contents
        ⟦<AuthorityKeyIdentifier<'a> as ReadValue>⟧.allocates
        ⟦<AuthorityKeyIdentifier<'a> as DecodeValue<SliceReader<'a>>>⟧.decode_value_answers) (id_ce
        35) extensions.now) IsAuthorityKeyOf result key.old key.new }
{
    match find_known::<ext::AuthorityKeyIdentifier>(alloc, extensions) {
        Ok(found) => {
            *key = authority_key_of(&found);
            DerError::NONE
        }
        Err(error) => error,
    }
}
