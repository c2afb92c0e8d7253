//! Extensions that are found by their type, for C.
//!
//! Written by tools/c_interface: change the crates that der_c uses instead.
ghost use Rattle.der.specs.Prelude.{Same};
ghost use Rattle.der_asn1.specs.ListAnswers.{ItemAnswer};
ghost use Rattle.der_c_core.specs.CReader.{reader_state};
ghost use Rattle.der_c_x509.specs.AuthorityKey.{IsAuthorityKeyOf};
ghost use Rattle.der_c_x509.specs.Calls.{ReadsItem, ReadsNext};
ghost use Rattle.der_c_x509.specs.Constraints.{ReadsConstraints};
ghost use Rattle.der_c_x509.specs.DistributionPoint.{IsDistributionPointOf};
ghost use Rattle.der_c_x509.specs.FindCalls.{FindsIn, FindsType, ReadsKnown, RefusesList};
ghost use Rattle.der_c_x509.specs.Items.{IsAccessDescriptionOf, IsSpanOf};
ghost use Rattle.der_c_x509.specs.Known.{IsFoundOf, IsKeyUsageOf, IsNamesOf};
ghost use Rattle.der_c_x509.specs.LenientCalls.{ReadsLenientConstraints, ReadsLenientUsage};
ghost use Rattle.std.specs.Prelude.{◌<◌, ◌≡◌};
ghost use Rattle.x509.specs.ExtensionIdentifiers.{id_ce, id_pe};
ghost use Rattle.x509.specs.Find.{WholeRead};
ghost use Rattle.x509.specs.Lenient.{BerRead, FindsLenient, IsDerOf, SaysDerOf};

use der::{Decode, DecodeValue, FixedTag, ReadValue, SliceReader, WrittenValue};
use der_asn1::{BitStringRef, Item, NamedBitsRef, ObjectIdentifierRef, OctetStringRef, SequenceOf};
use der_c_core::{DerError, DerReader, DerSpan};
use der_c_x509::{
    DerAccessDescription, DerAuthorityKey, DerBasicConstraints, DerDistributionPoint, DerFound,
    DerGeneralNames, DerKeyUsage,
};
use std::alloc::Global;
use x509::{
    AccessDescription, AuthorityKeyIdentifier, BasicConstraints, DistributionPoint, Extension,
    GeneralName,
};

/// Finds the extension keyUsage and reads it into `usage`. `extensions` are the contents octets of
/// a list of extensions. It is not an error if the extension is absent.
///
/// A call that fails leaves `usage` unchanged. Fails with:
///
/// - the error of decoding an extension, if the list has an extension that cannot be decoded. A
///   list that `der_certificate_read` has set has no such extension;
/// - `SetDuplicate` without a position, if the list has the extension more than once;
/// - the error of decoding the value of the extension, if the value cannot be decoded. The position
///   of the error is counted from the start of the value. If the contents of the value are cut, the
///   error is `Incomplete`, and its `first` is the position at which the value would end.
#[unsafe(no_mangle)]
pub extern "C" fn der_key_usage<'a>(
    alloc: Global,
    extensions: &'a [u8],
    usage: &mut DerKeyUsage,
) -> DerError
    ensures { ReadsKnown (FindsType (RefusesList
        ⟦<Extension<'a> as Decode<SliceReader<'a>>>⟧.decode_answers)
        ⟦<Extension<'a> as Item>⟧.item.valid ⟦<Extension<'a> as Item>⟧.item.octets (WholeRead
        ⟦<NamedBitsRef<'a> as FixedTag>⟧.tag_is ⟦<NamedBitsRef<'a> as ReadValue>⟧.valid
        ⟦<NamedBitsRef<'a> as WrittenValue>⟧.contents ⟦<NamedBitsRef<'a> as ReadValue>⟧.allocates
        ⟦<NamedBitsRef<'a> as DecodeValue<SliceReader<'a>>>⟧.decode_value_answers) (id_ce 15)
        extensions.now) (IsKeyUsageOf (λ v. v.octets.now)) result usage.old usage.new }
{
    der_c_x509::der_key_usage(alloc, extensions, usage)
}

/// Finds the extension keyUsage and reads it into `usage`, as `der_key_usage` does, but decodes its
/// value under BER. For example, the BIT STRING may have zero bits at its end. Sets `is_der` to
/// true if the value is DER or the extension is absent, and otherwise to false.
///
/// A call that fails leaves `usage` and `is_der` unchanged. Fails as `der_key_usage` does, except
/// that the error of decoding the value is the error under BER.
#[unsafe(no_mangle)]
pub extern "C" fn der_key_usage_lenient<'a>(
    alloc: Global,
    extensions: &'a [u8],
    usage: &mut DerKeyUsage,
    is_der: &mut bool,
) -> DerError
    ensures { ReadsLenientUsage (λ v. v.octets.now) (FindsIn
        (RefusesList ⟦<Extension<'a> as Decode<SliceReader<'a>>>⟧.decode_answers)
        (FindsLenient ⟦<Extension<'a> as Item>⟧.item.valid ⟦<Extension<'a> as Item>⟧.item.octets
        (BerRead ⟦<BitStringRef<'a> as FixedTag>⟧.tag_is ⟦<BitStringRef<'a> as ReadValue>⟧.takes
        ⟦<BitStringRef<'a> as ReadValue>⟧.value_levels ⟦<BitStringRef<'a> as ReadValue>⟧.allocates
        ⟦<BitStringRef<'a> as DecodeValue<SliceReader<'a>>>⟧.decode_value_answers)
        (SaysDerOf ⟦<NamedBitsRef<'a> as ReadValue>⟧.allocates
        (IsDerOf ⟦<NamedBitsRef<'a> as FixedTag>⟧.tag_is ⟦<NamedBitsRef<'a> as ReadValue>⟧.valid
        ⟦<NamedBitsRef<'a> as WrittenValue>⟧.contents)) (id_ce 15)) extensions.now) result usage.old
        usage.new is_der.old is_der.new }
{
    der_c_x509::der_key_usage_lenient(alloc, extensions, usage, is_der)
}

/// Finds the extension basicConstraints and reads it into `constraints`. `extensions` are the
/// contents octets of a list of extensions. It is not an error if the extension is absent.
///
/// A call that fails leaves `constraints` unchanged. Fails with:
///
/// - the error of decoding an extension, if the list has an extension that cannot be decoded. A
///   list that `der_certificate_read` has set has no such extension;
/// - `SetDuplicate` without a position, if the list has the extension more than once;
/// - the error of decoding the value of the extension, if the value cannot be decoded. The position
///   of the error is counted from the start of the value. If the contents of the value are cut, the
///   error is `Incomplete`, and its `first` is the position at which the value would end;
/// - `Value` with the tag INTEGER, without a position, if the limit for the length of a chain is
///   negative or above 2^64 - 1.
#[unsafe(no_mangle)]
pub extern "C" fn der_basic_constraints<'a>(
    alloc: Global,
    extensions: &'a [u8],
    constraints: &mut DerBasicConstraints,
) -> DerError
    ensures { ReadsConstraints (FindsType (RefusesList
        ⟦<Extension<'a> as Decode<SliceReader<'a>>>⟧.decode_answers)
        ⟦<Extension<'a> as Item>⟧.item.valid ⟦<Extension<'a> as Item>⟧.item.octets (WholeRead
        ⟦<BasicConstraints<'a> as FixedTag>⟧.tag_is ⟦<BasicConstraints<'a> as ReadValue>⟧.valid
        ⟦<BasicConstraints<'a> as WrittenValue>⟧.contents
        ⟦<BasicConstraints<'a> as ReadValue>⟧.allocates
        ⟦<BasicConstraints<'a> as DecodeValue<SliceReader<'a>>>⟧.decode_value_answers) (id_ce 19)
        extensions.now) result constraints.old constraints.new }
{
    der_c_x509::der_basic_constraints(alloc, extensions, constraints)
}

/// Finds the extension basicConstraints and reads it into `constraints`, as `der_basic_constraints`
/// does, but decodes its value under BER. For example, a field with its default value may be
/// present. Sets `is_der` to true if the value is DER or the extension is absent, and otherwise to
/// false.
///
/// A call that fails leaves `constraints` and `is_der` unchanged. Fails as `der_basic_constraints`
/// does, except that the error of decoding the value is the error under BER.
#[unsafe(no_mangle)]
pub extern "C" fn der_basic_constraints_lenient<'a>(
    alloc: Global,
    extensions: &'a [u8],
    constraints: &mut DerBasicConstraints,
    is_der: &mut bool,
) -> DerError
    ensures { ReadsLenientConstraints (FindsIn
        (RefusesList ⟦<Extension<'a> as Decode<SliceReader<'a>>>⟧.decode_answers)
        (FindsLenient ⟦<Extension<'a> as Item>⟧.item.valid ⟦<Extension<'a> as Item>⟧.item.octets
        (BerRead ⟦<BasicConstraints<'a> as FixedTag>⟧.tag_is ⟦<BasicConstraints<'a> as ReadValue>⟧.takes
        ⟦<BasicConstraints<'a> as ReadValue>⟧.value_levels
        ⟦<BasicConstraints<'a> as ReadValue>⟧.allocates
        ⟦<BasicConstraints<'a> as DecodeValue<SliceReader<'a>>>⟧.decode_value_answers)
        (SaysDerOf ⟦<BasicConstraints<'a> as ReadValue>⟧.allocates
        (IsDerOf ⟦<BasicConstraints<'a> as FixedTag>⟧.tag_is
        ⟦<BasicConstraints<'a> as ReadValue>⟧.valid ⟦<BasicConstraints<'a> as WrittenValue>⟧.contents))
        (id_ce 19)) extensions.now) result constraints.old constraints.new is_der.old is_der.new }
{
    der_c_x509::der_basic_constraints_lenient(alloc, extensions, constraints, is_der)
}

/// Finds the extension subjectAltName and stores its names in `names`. `extensions` are the
/// contents octets of a list of extensions. It is not an error if the extension is absent. Each
/// name is checked as `der_next_general_name` checks it.
///
/// A call that fails leaves `names` unchanged. Fails with:
///
/// - the error of decoding an extension, if the list has an extension that cannot be decoded. A
///   list that `der_certificate_read` has set has no such extension;
/// - `SetDuplicate` without a position, if the list has the extension more than once;
/// - the error of decoding the value of the extension, if the value cannot be decoded. The position
///   of the error is counted from the start of the value. If the contents of the value are cut, the
///   error is `Incomplete`, and its `first` is the position at which the value would end.
#[unsafe(no_mangle)]
pub extern "C" fn der_subject_alternative_name<'a>(
    alloc: Global,
    extensions: &'a [u8],
    names: &mut DerGeneralNames<'a>,
) -> DerError
    ensures { ReadsKnown (FindsType (RefusesList
        ⟦<Extension<'a> as Decode<SliceReader<'a>>>⟧.decode_answers)
        ⟦<Extension<'a> as Item>⟧.item.valid ⟦<Extension<'a> as Item>⟧.item.octets (WholeRead
        ⟦<SequenceOf<'a, GeneralName<'a>> as FixedTag>⟧.tag_is
        ⟦<SequenceOf<'a, GeneralName<'a>> as ReadValue>⟧.valid
        ⟦<SequenceOf<'a, GeneralName<'a>> as WrittenValue>⟧.contents
        ⟦<SequenceOf<'a, GeneralName<'a>> as ReadValue>⟧.allocates
        ⟦<SequenceOf<'a, GeneralName<'a>> as DecodeValue<SliceReader<'a>>>⟧.decode_value_answers)
        (id_ce 17) extensions.now) (IsNamesOf (λ v. v.octets.now)) result names.old names.new }
{
    der_c_x509::der_subject_alternative_name(alloc, extensions, names)
}

/// Finds the extension extKeyUsage (RFC 5280, 4.2.1.12). `extensions` are the contents octets of a
/// list of extensions. Stores the contents octets of the list of purposes in `purposes`, for
/// `der_next_key_purpose`. It is not an error if the extension is absent, or if its list is empty.
/// Each purpose is checked as `der_next_key_purpose` checks it.
///
/// A call that fails leaves `purposes` unchanged. Fails with:
///
/// - the error of decoding an extension, if the list has an extension that cannot be decoded. A
///   list that `der_certificate_read` has set has no such extension;
/// - `SetDuplicate` without a position, if the list has the extension more than once;
/// - the error of decoding the value of the extension, if the value cannot be decoded. The position
///   of the error is counted from the start of the value. If the contents of the value are cut, the
///   error is `Incomplete`, and its `first` is the position at which the value would end.
#[unsafe(no_mangle)]
pub extern "C" fn der_extended_key_usage<'a>(
    alloc: Global,
    extensions: &'a [u8],
    purposes: &mut DerFound<'a>,
) -> DerError
    ensures { ReadsKnown (FindsType (RefusesList
        ⟦<Extension<'a> as Decode<SliceReader<'a>>>⟧.decode_answers)
        ⟦<Extension<'a> as Item>⟧.item.valid ⟦<Extension<'a> as Item>⟧.item.octets (WholeRead
        ⟦<SequenceOf<'a, ObjectIdentifierRef<'a>> as FixedTag>⟧.tag_is
        ⟦<SequenceOf<'a, ObjectIdentifierRef<'a>> as ReadValue>⟧.valid
        ⟦<SequenceOf<'a, ObjectIdentifierRef<'a>> as WrittenValue>⟧.contents
        ⟦<SequenceOf<'a, ObjectIdentifierRef<'a>> as ReadValue>⟧.allocates
        ⟦<SequenceOf<'a, ObjectIdentifierRef<'a>> as DecodeValue<SliceReader<'a>>>⟧.decode_value_answers)
        (id_ce 37) extensions.now) (IsFoundOf (λ v. v.octets.now)) result purposes.old purposes.new }
{
    der_c_x509::der_extended_key_usage(alloc, extensions, purposes)
}

/// Reads the next purpose of extKeyUsage into `purpose`: the contents octets of an OBJECT
/// IDENTIFIER (KeyPurposeId; RFC 5280, 4.2.1.12). `reader` must read the contents of a list that
/// `der_extended_key_usage` has found.
///
/// A call that fails leaves `purpose` unchanged. At the end of the list, the error is `Incomplete`.
/// After `TagUnexpected`, `reader` is unchanged; after any other error, `reader` has failed.
#[unsafe(no_mangle)]
pub extern "C" fn der_next_key_purpose<'a>(
    alloc: Global,
    reader: &mut DerReader<'a>,
    purpose: &mut DerSpan<'a>,
) -> DerError
    ensures same { Same (reader_state reader.old) (reader_state reader.new) }
    ensures reads { ReadsItem ⟦<ObjectIdentifierRef<'a> as Decode<SliceReader<'a>>>⟧.is_next
        (ItemAnswer (λ e f. f ≡ e)
        ⟦<ObjectIdentifierRef<'a> as Decode<SliceReader<'a>>>⟧.decode_answers)
        (IsSpanOf (λ v. v.octets.now)) (reader_state reader.old) result purpose.old purpose.new
        (reader_state reader.new) }
    ensures complete { ReadsNext ⟦<ObjectIdentifierRef<'a> as Decode<SliceReader<'a>>>⟧.is_next
        ⟦<ObjectIdentifierRef<'a> as Decode<SliceReader<'a>>>⟧.decode_levels
        (reader_state reader.old) result (reader_state reader.new) }
{
    der_c_x509::der_next_key_purpose(alloc, reader, purpose)
}

/// Finds the extension subjectKeyIdentifier (RFC 5280, 4.2.1.2), and stores the octets of the
/// identifier in `identifier`. `extensions` are the contents octets of a list of extensions. It is
/// not an error if the extension is absent. It is not checked that the identifier belongs to the
/// certificate's key.
///
/// A call that fails leaves `identifier` unchanged. Fails with:
///
/// - the error of decoding an extension, if the list has an extension that cannot be decoded. A
///   list that `der_certificate_read` has set has no such extension;
/// - `SetDuplicate` without a position, if the list has the extension more than once;
/// - the error of decoding the value of the extension, if the value cannot be decoded. The position
///   of the error is counted from the start of the value. If the contents of the value are cut, the
///   error is `Incomplete`, and its `first` is the position at which the value would end.
#[unsafe(no_mangle)]
pub extern "C" fn der_subject_key_identifier<'a>(
    alloc: Global,
    extensions: &'a [u8],
    identifier: &mut DerFound<'a>,
) -> DerError
    ensures { ReadsKnown (FindsType (RefusesList
        ⟦<Extension<'a> as Decode<SliceReader<'a>>>⟧.decode_answers)
        ⟦<Extension<'a> as Item>⟧.item.valid ⟦<Extension<'a> as Item>⟧.item.octets (WholeRead
        ⟦<OctetStringRef<'a> as FixedTag>⟧.tag_is ⟦<OctetStringRef<'a> as ReadValue>⟧.valid
        ⟦<OctetStringRef<'a> as WrittenValue>⟧.contents
        ⟦<OctetStringRef<'a> as ReadValue>⟧.allocates
        ⟦<OctetStringRef<'a> as DecodeValue<SliceReader<'a>>>⟧.decode_value_answers) (id_ce 14)
        extensions.now) (IsFoundOf (λ v. v.octets.now)) result identifier.old identifier.new }
{
    der_c_x509::der_subject_key_identifier(alloc, extensions, identifier)
}

/// Finds the extension authorityKeyIdentifier and reads it into `key`. `extensions` are the
/// contents octets of a list of extensions. It is not an error if the extension is absent, or if it
/// has only one of the names and the serial number. Each name is checked as `der_next_general_name`
/// checks it.
///
/// A call that fails leaves `key` unchanged. Fails with:
///
/// - the error of decoding an extension, if the list has an extension that cannot be decoded. A
///   list that `der_certificate_read` has set has no such extension;
/// - `SetDuplicate` without a position, if the list has the extension more than once;
/// - the error of decoding the value of the extension, if the value cannot be decoded. The position
///   of the error is counted from the start of the value. If the contents of the value are cut, the
///   error is `Incomplete`, and its `first` is the position at which the value would end.
#[unsafe(no_mangle)]
pub extern "C" fn der_authority_key_identifier<'a>(
    alloc: Global,
    extensions: &'a [u8],
    key: &mut DerAuthorityKey<'a>,
) -> DerError
    ensures { ReadsKnown (FindsType (RefusesList
        ⟦<Extension<'a> as Decode<SliceReader<'a>>>⟧.decode_answers)
        ⟦<Extension<'a> as Item>⟧.item.valid ⟦<Extension<'a> as Item>⟧.item.octets (WholeRead
        ⟦<AuthorityKeyIdentifier<'a> as FixedTag>⟧.tag_is
        ⟦<AuthorityKeyIdentifier<'a> as ReadValue>⟧.valid
        ⟦<AuthorityKeyIdentifier<'a> as WrittenValue>⟧.contents
        ⟦<AuthorityKeyIdentifier<'a> as ReadValue>⟧.allocates
        ⟦<AuthorityKeyIdentifier<'a> as DecodeValue<SliceReader<'a>>>⟧.decode_value_answers) (id_ce
        35) extensions.now) IsAuthorityKeyOf result key.old key.new }
{
    der_c_x509::der_authority_key_identifier(alloc, extensions, key)
}

/// Finds the extension authorityInfoAccess (RFC 5280, 4.2.2.1). `extensions` are the contents
/// octets of a list of extensions. Stores the contents octets of the list of access descriptions in
/// `descriptions`, for `der_next_access_description`. It is not an error if the extension is
/// absent, or if its list is empty. Each access description is checked as
/// `der_next_access_description` checks it.
///
/// A call that fails leaves `descriptions` unchanged. Fails with:
///
/// - the error of decoding an extension, if the list has an extension that cannot be decoded. A
///   list that `der_certificate_read` has set has no such extension;
/// - `SetDuplicate` without a position, if the list has the extension more than once;
/// - the error of decoding the value of the extension, if the value cannot be decoded. The position
///   of the error is counted from the start of the value. If the contents of the value are cut, the
///   error is `Incomplete`, and its `first` is the position at which the value would end.
#[unsafe(no_mangle)]
pub extern "C" fn der_authority_information_access<'a>(
    alloc: Global,
    extensions: &'a [u8],
    descriptions: &mut DerFound<'a>,
) -> DerError
    ensures { ReadsKnown (FindsType (RefusesList
        ⟦<Extension<'a> as Decode<SliceReader<'a>>>⟧.decode_answers)
        ⟦<Extension<'a> as Item>⟧.item.valid ⟦<Extension<'a> as Item>⟧.item.octets (WholeRead
        ⟦<SequenceOf<'a, AccessDescription<'a>> as FixedTag>⟧.tag_is
        ⟦<SequenceOf<'a, AccessDescription<'a>> as ReadValue>⟧.valid
        ⟦<SequenceOf<'a, AccessDescription<'a>> as WrittenValue>⟧.contents
        ⟦<SequenceOf<'a, AccessDescription<'a>> as ReadValue>⟧.allocates
        ⟦<SequenceOf<'a, AccessDescription<'a>> as DecodeValue<SliceReader<'a>>>⟧.decode_value_answers)
        (id_pe 1) extensions.now) (IsFoundOf (λ v. v.octets.now)) result descriptions.old
        descriptions.new }
{
    der_c_x509::der_authority_information_access(alloc, extensions, descriptions)
}

/// Reads the next access description of a list into `description`. `reader` must read the contents
/// of a list that `der_authority_information_access` has found.
///
/// A call that fails leaves `description` unchanged. At the end of the list, the error is
/// `Incomplete`. After `TagUnexpected`, `reader` is unchanged; after any other error, `reader` has
/// failed.
#[unsafe(no_mangle)]
pub extern "C" fn der_next_access_description<'a>(
    alloc: Global,
    reader: &mut DerReader<'a>,
    description: &mut DerAccessDescription<'a>,
) -> DerError
    ensures same { Same (reader_state reader.old) (reader_state reader.new) }
    ensures reads { ReadsItem ⟦<AccessDescription<'a> as Decode<SliceReader<'a>>>⟧.is_next
        (ItemAnswer (λ e f. f ≡ e)
        ⟦<AccessDescription<'a> as Decode<SliceReader<'a>>>⟧.decode_answers) IsAccessDescriptionOf
        (reader_state reader.old) result description.old description.new
        (reader_state reader.new) }
    ensures complete { ReadsNext ⟦<AccessDescription<'a> as Decode<SliceReader<'a>>>⟧.is_next
        ⟦<AccessDescription<'a> as Decode<SliceReader<'a>>>⟧.decode_levels
        (reader_state reader.old) result (reader_state reader.new) }
{
    der_c_x509::der_next_access_description(alloc, reader, description)
}

/// Finds the extension cRLDistributionPoints (RFC 5280, 4.2.1.13). `extensions` are the contents
/// octets of a list of extensions. Stores in `points` whether the extension is present, and the
/// contents octets of its list of distribution points, for `der_next_distribution_point`. The list
/// may be empty. Each distribution point is checked as `der_next_distribution_point` checks it.
///
/// A call that fails leaves `points` unchanged. Fails with:
///
/// - the error of decoding an extension, if the list has an extension that cannot be decoded. A
///   list that `der_certificate_read` has set has no such extension;
/// - `SetDuplicate` without a position, if the list has the extension more than once;
/// - the error of decoding the value of the extension, if the value cannot be decoded. The position
///   of the error is counted from the start of the value. If the contents of the value are cut, the
///   error is `Incomplete`, and its `first` is the position at which the value would end.
#[unsafe(no_mangle)]
pub extern "C" fn der_distribution_points<'a>(
    alloc: Global,
    extensions: &'a [u8],
    points: &mut DerFound<'a>,
) -> DerError
    ensures { ReadsKnown (FindsType (RefusesList
        ⟦<Extension<'a> as Decode<SliceReader<'a>>>⟧.decode_answers)
        ⟦<Extension<'a> as Item>⟧.item.valid ⟦<Extension<'a> as Item>⟧.item.octets (WholeRead
        ⟦<SequenceOf<'a, DistributionPoint<'a>> as FixedTag>⟧.tag_is
        ⟦<SequenceOf<'a, DistributionPoint<'a>> as ReadValue>⟧.valid
        ⟦<SequenceOf<'a, DistributionPoint<'a>> as WrittenValue>⟧.contents
        ⟦<SequenceOf<'a, DistributionPoint<'a>> as ReadValue>⟧.allocates
        ⟦<SequenceOf<'a, DistributionPoint<'a>> as DecodeValue<SliceReader<'a>>>⟧.decode_value_answers)
        (id_ce 31) extensions.now) (IsFoundOf (λ v. v.octets.now)) result points.old points.new }
{
    der_c_x509::der_distribution_points(alloc, extensions, points)
}

/// Reads the next distribution point of a list into `point`. `reader` must read the contents of a
/// list that `der_distribution_points` has found. It is not an error if the point has neither a
/// name of the place nor an issuer of the revocation list.
///
/// A call that fails leaves `point` unchanged. At the end of the list, the error is `Incomplete`.
/// After `TagUnexpected`, `reader` is unchanged; after any other error, `reader` has failed.
#[unsafe(no_mangle)]
pub extern "C" fn der_next_distribution_point<'a>(
    alloc: Global,
    reader: &mut DerReader<'a>,
    point: &mut DerDistributionPoint<'a>,
) -> DerError
    ensures same { Same (reader_state reader.old) (reader_state reader.new) }
    ensures reads { ReadsItem ⟦<DistributionPoint<'a> as Decode<SliceReader<'a>>>⟧.is_next
        (ItemAnswer (λ e f. f ≡ e)
        ⟦<DistributionPoint<'a> as Decode<SliceReader<'a>>>⟧.decode_answers) IsDistributionPointOf
        (reader_state reader.old) result point.old point.new (reader_state reader.new) }
    ensures complete { ReadsNext ⟦<DistributionPoint<'a> as Decode<SliceReader<'a>>>⟧.is_next
        ⟦<DistributionPoint<'a> as Decode<SliceReader<'a>>>⟧.decode_levels
        (reader_state reader.old) result (reader_state reader.new) }
{
    der_c_x509::der_next_distribution_point(alloc, reader, point)
}
