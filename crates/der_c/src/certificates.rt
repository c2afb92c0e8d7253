//! Certificates, requests, keys and revocation lists, for C.
//!
//! Written by tools/c_interface: change the crates that der_c uses instead.
ghost use Rattle.der.specs.Prelude.{Same};
ghost use Rattle.der_asn1.specs.ListAnswers.{ItemAnswer};
ghost use Rattle.der_c_core.specs.CReader.{reader_state};
ghost use Rattle.der_c_x509.specs.Calls.{ReadsItem, ReadsNext, ReadsWhole};
ghost use Rattle.der_c_x509.specs.Certificate.{IsCertificateOf};
ghost use Rattle.der_c_x509.specs.Fields.{IsPublicKeyOf};
ghost use Rattle.der_c_x509.specs.Items.{IsAttributeOf, IsExtensionOf, IsGeneralNameOf};
ghost use Rattle.der_c_x509.specs.PrivateKey.{IsPrivateKeyOf};
ghost use Rattle.der_c_x509.specs.Request.{IsRequestOf};
ghost use Rattle.der_c_x509.specs.RevocationList.{IsRevocationListOf};
ghost use Rattle.der_c_x509.specs.Revoked.{IsRevokedOf};
ghost use Rattle.std.specs.Prelude.{false, ◌<◌, ◌≡◌};
ghost use Rattle.x509.specs.Find.{WholeRead};

use der::{Decode, DecodeValue, Encode, FixedTag, ReadValue, SliceReader, WrittenValue};
use der_c_core::{DerError, DerReader};
use der_c_x509::{
    DerAttribute, DerCertificate, DerExtension, DerGeneralName, DerPrivateKey, DerPublicKey,
    DerRequest, DerRevocationList, DerRevoked,
};
use pkcs8::PrivateKeyInfo;
use spki::SubjectPublicKeyInfoRef;
use std::alloc::Global;
use x509::{
    AttributeTypeAndValue, CertReq, CertReqInfo, Certificate, CertificateList, Extension,
    GeneralName, RevokedCertificate, TbsCertList, TbsCertificate,
};

/// Reads a certificate into `certificate`. `octets` must be the DER encoding of one certificate
/// (RFC 5280, 4.1).
///
/// A call that fails leaves `certificate` unchanged. Fails with:
///
/// - `Overflow` without a position, if there are more than 4294967295 octets;
/// - the error of decoding, if `octets` do not begin with a certificate. Its position, if it has
///   one, is counted from the start of `octets`;
/// - `TrailingData`, if octets follow the certificate.
///
/// The errors are the same as of `x509::Certificate::from_der`, with one exception. If the contents
/// of the outermost element are cut, the error is `Incomplete` at the start of these contents, and
/// its `first` is the position at which they would end.
#[unsafe(no_mangle)]
pub extern "C" fn der_certificate_read<'a>(
    alloc: Global,
    octets: &'a [u8],
    certificate: &mut DerCertificate<'a>,
) -> DerError
    ensures { ReadsWhole (WholeRead ⟦<Certificate<'a> as FixedTag>⟧.tag_is
        ⟦<Certificate<'a> as ReadValue>⟧.valid ⟦<Certificate<'a> as WrittenValue>⟧.contents false
        ⟦<Certificate<'a> as DecodeValue<SliceReader<'a>>>⟧.decode_value_answers)
        (IsCertificateOf ⟦<TbsCertificate<'a> as Encode>⟧.encoding
        ⟦<SubjectPublicKeyInfoRef<'a> as Encode>⟧.encoding) octets.now result certificate.old
        certificate.new }
{
    der_c_x509::der_certificate_read(alloc, octets, certificate)
}

/// Reads a public key with its algorithm into `key`. `octets` must be the DER encoding of one
/// SubjectPublicKeyInfo (RFC 5280, 4.1.2.7).
///
/// A call that fails leaves `key` unchanged. Fails with:
///
/// - `Overflow` without a position, if there are more than 4294967295 octets;
/// - the error of decoding, if `octets` do not begin with a public key. Its position, if it has
///   one, is counted from the start of `octets`;
/// - `TrailingData`, if octets follow the key.
///
/// The errors are the same as of `spki::SubjectPublicKeyInfoRef::from_der`, with one exception. If
/// the contents of the outermost element are cut, the error is `Incomplete` at the start of these
/// contents, and its `first` is the position at which they would end.
#[unsafe(no_mangle)]
pub extern "C" fn der_public_key_read<'a>(
    alloc: Global,
    octets: &'a [u8],
    key: &mut DerPublicKey<'a>,
) -> DerError
    ensures { ReadsWhole (WholeRead ⟦<SubjectPublicKeyInfoRef<'a> as FixedTag>⟧.tag_is
        ⟦<SubjectPublicKeyInfoRef<'a> as ReadValue>⟧.valid
        ⟦<SubjectPublicKeyInfoRef<'a> as WrittenValue>⟧.contents false
        ⟦<SubjectPublicKeyInfoRef<'a> as DecodeValue<SliceReader<'a>>>⟧.decode_value_answers)
        (IsPublicKeyOf ⟦<SubjectPublicKeyInfoRef<'a> as Encode>⟧.encoding) octets.now result key.old
        key.new }
{
    der_c_x509::der_public_key_read(alloc, octets, key)
}

/// Reads a certification request into `request`. `octets` must be the DER encoding of one request
/// (RFC 2986, 4).
///
/// A call that fails leaves `request` unchanged. Fails with:
///
/// - `Overflow` without a position, if there are more than 4294967295 octets;
/// - the error of decoding, if `octets` do not begin with a request. Its position, if it has one,
///   is counted from the start of `octets`;
/// - `TrailingData`, if octets follow the request.
///
/// The errors are the same as of `x509::CertReq::from_der`, with one exception. If the contents of
/// the outermost element are cut, the error is `Incomplete` at the start of these contents, and its
/// `first` is the position at which they would end.
#[unsafe(no_mangle)]
pub extern "C" fn der_request_read<'a>(
    alloc: Global,
    octets: &'a [u8],
    request: &mut DerRequest<'a>,
) -> DerError
    ensures { ReadsWhole (WholeRead ⟦<CertReq<'a> as FixedTag>⟧.tag_is
        ⟦<CertReq<'a> as ReadValue>⟧.valid ⟦<CertReq<'a> as WrittenValue>⟧.contents false
        ⟦<CertReq<'a> as DecodeValue<SliceReader<'a>>>⟧.decode_value_answers)
        (IsRequestOf ⟦<CertReqInfo<'a> as Encode>⟧.encoding
        ⟦<SubjectPublicKeyInfoRef<'a> as Encode>⟧.encoding) octets.now result request.old
        request.new }
{
    der_c_x509::der_request_read(alloc, octets, request)
}

/// Reads a private key and its algorithm into `key`. `octets` must be the DER encoding of one
/// PrivateKeyInfo. RFC 5958, 2, also calls this type OneAsymmetricKey.
///
/// A call that fails leaves `key` unchanged. Fails with:
///
/// - `Overflow` without a position, if there are more than 4294967295 octets;
/// - the error of decoding, if `octets` do not begin with a private key. Its position, if it has
///   one, is counted from the start of `octets`;
/// - `TrailingData`, if octets follow the key.
///
/// The errors are the same as of `pkcs8::PrivateKeyInfo::from_der`, with one exception. If the
/// contents of the outermost element are cut, the error is `Incomplete` at the start of these
/// contents, and its `first` is the position at which they would end.
#[unsafe(no_mangle)]
pub extern "C" fn der_private_key_read<'a>(
    alloc: Global,
    octets: &'a [u8],
    key: &mut DerPrivateKey<'a>,
) -> DerError
    ensures { ReadsWhole (WholeRead ⟦<PrivateKeyInfo<'a> as FixedTag>⟧.tag_is
        ⟦<PrivateKeyInfo<'a> as ReadValue>⟧.valid ⟦<PrivateKeyInfo<'a> as WrittenValue>⟧.contents
        false ⟦<PrivateKeyInfo<'a> as DecodeValue<SliceReader<'a>>>⟧.decode_value_answers)
        IsPrivateKeyOf octets.now result key.old key.new }
{
    der_c_x509::der_private_key_read(alloc, octets, key)
}

/// Reads a certificate revocation list into `list`. `octets` must be the DER encoding of one
/// revocation list (RFC 5280, 5.1). Every entry is checked as `der_next_revoked` checks it.
///
/// A call that fails leaves `list` unchanged. Fails with:
///
/// - `Overflow` without a position, if there are more than 4294967295 octets;
/// - the error of decoding, if `octets` do not begin with a revocation list. Its position, if it
///   has one, is counted from the start of `octets`;
/// - `TrailingData`, if octets follow the revocation list.
///
/// The errors are the same as of `x509::CertificateList::from_der`, with one exception. If the
/// contents of the outermost element are cut, the error is `Incomplete` at the start of these
/// contents, and its `first` is the position at which they would end.
#[unsafe(no_mangle)]
pub extern "C" fn der_revocation_list_read<'a>(
    alloc: Global,
    octets: &'a [u8],
    list: &mut DerRevocationList<'a>,
) -> DerError
    ensures { ReadsWhole (WholeRead ⟦<CertificateList<'a> as FixedTag>⟧.tag_is
        ⟦<CertificateList<'a> as ReadValue>⟧.valid ⟦<CertificateList<'a> as WrittenValue>⟧.contents
        false ⟦<CertificateList<'a> as DecodeValue<SliceReader<'a>>>⟧.decode_value_answers)
        (IsRevocationListOf ⟦<TbsCertList<'a> as Encode>⟧.encoding) octets.now result list.old
        list.new }
{
    der_c_x509::der_revocation_list_read(alloc, octets, list)
}

/// Reads the next extension of a list into `extension`. `reader` must read the contents of a list
/// of extensions, such as the list that `der_certificate_read` stores in `extensions`.
///
/// A call that fails leaves `extension` unchanged. At the end of the list, the error is
/// `Incomplete`. After `TagUnexpected`, `reader` is unchanged; after any other error, `reader` has
/// failed.
#[unsafe(no_mangle)]
pub extern "C" fn der_next_extension<'a>(
    alloc: Global,
    reader: &mut DerReader<'a>,
    extension: &mut DerExtension<'a>,
) -> DerError
    ensures same { Same (reader_state reader.old) (reader_state reader.new) }
    ensures reads { ReadsItem ⟦<Extension<'a> as Decode<SliceReader<'a>>>⟧.is_next
        (ItemAnswer (λ e f. f ≡ e) ⟦<Extension<'a> as Decode<SliceReader<'a>>>⟧.decode_answers)
        IsExtensionOf (reader_state reader.old) result extension.old extension.new
        (reader_state reader.new) }
    ensures complete { ReadsNext ⟦<Extension<'a> as Decode<SliceReader<'a>>>⟧.is_next
        ⟦<Extension<'a> as Decode<SliceReader<'a>>>⟧.decode_levels (reader_state reader.old) result
        (reader_state reader.new) }
{
    der_c_x509::der_next_extension(alloc, reader, extension)
}

/// Reads the next attribute of a RelativeDistinguishedName into `attribute`. A Name is a SEQUENCE
/// of RelativeDistinguishedNames, and each of them is a SET of attributes (RFC 5280, 4.1.2.4).
/// `reader` must read the contents of the SET, for example after `der_enter`.
///
/// A call that fails leaves `attribute` unchanged. At the end of the SET, the error is
/// `Incomplete`. After `TagUnexpected`, `reader` is unchanged; after any other error, `reader` has
/// failed.
#[unsafe(no_mangle)]
pub extern "C" fn der_next_attribute<'a>(
    alloc: Global,
    reader: &mut DerReader<'a>,
    attribute: &mut DerAttribute<'a>,
) -> DerError
    ensures same { Same (reader_state reader.old) (reader_state reader.new) }
    ensures reads { ReadsItem ⟦<AttributeTypeAndValue<'a> as Decode<SliceReader<'a>>>⟧.is_next
        (ItemAnswer (λ e f. f ≡ e)
        ⟦<AttributeTypeAndValue<'a> as Decode<SliceReader<'a>>>⟧.decode_answers) IsAttributeOf
        (reader_state reader.old) result attribute.old attribute.new (reader_state reader.new) }
    ensures complete { ReadsNext ⟦<AttributeTypeAndValue<'a> as Decode<SliceReader<'a>>>⟧.is_next
        ⟦<AttributeTypeAndValue<'a> as Decode<SliceReader<'a>>>⟧.decode_levels
        (reader_state reader.old) result (reader_state reader.new) }
{
    der_c_x509::der_next_attribute(alloc, reader, attribute)
}

/// Reads the next name of a list of general names into `name`. `reader` must read the contents of a
/// list that `der_subject_alternative_name`, `der_authority_key_identifier` or
/// `der_next_distribution_point` has found.
///
/// A call that fails leaves `name` unchanged. At the end of the list, the error is `Incomplete`.
/// After `TagUnexpected`, `reader` is unchanged; after any other error, `reader` has failed.
#[unsafe(no_mangle)]
pub extern "C" fn der_next_general_name<'a>(
    alloc: Global,
    reader: &mut DerReader<'a>,
    name: &mut DerGeneralName<'a>,
) -> DerError
    ensures same { Same (reader_state reader.old) (reader_state reader.new) }
    ensures reads { ReadsItem ⟦<GeneralName<'a> as Decode<SliceReader<'a>>>⟧.is_next (ItemAnswer
        (λ e f. f ≡ e) ⟦<GeneralName<'a> as Decode<SliceReader<'a>>>⟧.decode_answers)
        IsGeneralNameOf (reader_state reader.old) result name.old name.new
        (reader_state reader.new) }
    ensures complete { ReadsNext ⟦<GeneralName<'a> as Decode<SliceReader<'a>>>⟧.is_next
        ⟦<GeneralName<'a> as Decode<SliceReader<'a>>>⟧.decode_levels (reader_state reader.old)
        result (reader_state reader.new) }
{
    der_c_x509::der_next_general_name(alloc, reader, name)
}

/// Reads the next entry of a revocation list into `entry`. `reader` must read the contents of a
/// list of entries that `der_revocation_list_read` has found.
///
/// A call that fails leaves `entry` unchanged. At the end of the list, the error is `Incomplete`.
/// After `TagUnexpected`, `reader` is unchanged; after any other error, `reader` has failed.
#[unsafe(no_mangle)]
pub extern "C" fn der_next_revoked<'a>(
    alloc: Global,
    reader: &mut DerReader<'a>,
    entry: &mut DerRevoked<'a>,
) -> DerError
    ensures same { Same (reader_state reader.old) (reader_state reader.new) }
    ensures reads { ReadsItem ⟦<RevokedCertificate<'a> as Decode<SliceReader<'a>>>⟧.is_next
        (ItemAnswer (λ e f. f ≡ e)
        ⟦<RevokedCertificate<'a> as Decode<SliceReader<'a>>>⟧.decode_answers) IsRevokedOf
        (reader_state reader.old) result entry.old entry.new (reader_state reader.new) }
    ensures complete { ReadsNext ⟦<RevokedCertificate<'a> as Decode<SliceReader<'a>>>⟧.is_next
        ⟦<RevokedCertificate<'a> as Decode<SliceReader<'a>>>⟧.decode_levels
        (reader_state reader.old) result (reader_state reader.new) }
{
    der_c_x509::der_next_revoked(alloc, reader, entry)
}
