//! Reading general names, such as host names and mail addresses.
ghost use Rattle.std.specs.Prelude.{◌≡◌};
ghost use Rattle.der.specs.Prelude.{Same};
ghost use Rattle.der_asn1.specs.ListAnswers.{ItemAnswer};
ghost use Rattle.der_c_core.specs.CReader.{reader_state};
ghost use Rattle.der_c_x509.specs.Items.{IsGeneralNameOf, IsOtherNameOf, IsPlainName};
ghost use Rattle.der_c_x509.specs.Calls.{ReadsItem, ReadsNext};

use crate::any::{DerAny, any_of};
use crate::next::next_item;
use crate::strings::span_of;
use der::{Decode, SliceReader};
use der_c_core::{DerError, DerReader, DerSpan};
use std::alloc::Global;
use x509::{GeneralName, OtherName};

/// A GeneralName (RFC 5280, 4.2.1.6). All octets are borrowed from the input.
#[repr(C)]
#[derive(Clone, Copy)]
pub struct DerGeneralName<'a> {
    /// The contents of the name. The field `kind` says what the contents are. Empty if `kind` is 0
    /// or 5.
    pub contents: DerSpan<'a>,
    /// If `kind` is 0, the contents octets of type-id, the OBJECT IDENTIFIER of the otherName. It
    /// says what type `value` has. Empty if `kind` is not 0.
    pub identifier: DerSpan<'a>,
    /// If `kind` is 0, the value of the otherName. Otherwise its tag is 0.
    pub value: DerAny<'a>,
    /// The form of the name. It is the number of the tag of the name:
    ///
    /// - 0 otherName: the name is in `identifier` and `value`;
    /// - 1 rfc822Name, 2 dNSName, 6 uniformResourceIdentifier: `contents` are characters of 7 bits;
    /// - 3 x400Address: `contents` are the contents octets of a SEQUENCE, which are not checked;
    /// - 4 directoryName: `contents` are the contents octets of the Name;
    /// - 5 ediPartyName: the fields of the name are not given;
    /// - 7 iPAddress: `contents` are the octets of the address, whose number is not checked;
    /// - 8 registeredID: `contents` are the contents octets of the OBJECT IDENTIFIER.
    pub kind: u8,
}

impl DerGeneralName<'_> {
    /// The value of a general name before it is read: all fields are empty or 0.
    pub const EMPTY: DerGeneralName<'static> = DerGeneralName {
        contents: DerSpan::EMPTY,
        identifier: DerSpan::EMPTY,
        value: DerAny::EMPTY,
        kind: 0,
    };
}

// A name of a form with contents.
fn plain_name<'a>(kind: u8, contents: &'a [u8]) -> DerGeneralName<'a>
    ensures { IsPlainName kind contents.now result }
{
    DerGeneralName {
        contents: DerSpan { octets: contents },
        identifier: DerSpan::EMPTY,
        value: DerAny::EMPTY,
        kind,
    }
}

// An otherName.
fn other_name<'a>(value: &OtherName<'a>) -> DerGeneralName<'a>
    ensures { IsOtherNameOf value.now result }
{
    DerGeneralName {
        contents: DerSpan::EMPTY,
        identifier: span_of(&value.type_id),
        value: any_of(&value.value.0),
        kind: 0,
    }
}

// A name as a struct of C.
pub(crate) fn general_name_of<'a>(value: &GeneralName<'a>) -> DerGeneralName<'a>
    ensures { IsGeneralNameOf value.now result }
{
    match value {
        GeneralName::OtherName(name) => other_name(&name.0),
        GeneralName::Rfc822Name(name) => plain_name(1, name.0.octets()),
        GeneralName::DnsName(name) => plain_name(2, name.0.octets()),
        GeneralName::X400Address(name) => plain_name(3, name.0.octets()),
        GeneralName::DirectoryName(name) => plain_name(4, name.0.levels.octets()),
        GeneralName::EdiPartyName(_) => plain_name(5, &[]),
        GeneralName::UniformResourceIdentifier(name) => plain_name(6, name.0.octets()),
        GeneralName::IpAddress(name) => plain_name(7, name.0.octets()),
        GeneralName::RegisteredId(name) => plain_name(8, name.0.octets()),
    }
}

/// Reads the next name of a list of general names into `name`. `reader` must read the contents of a
/// list that `der_subject_alternative_name`, `der_authority_key_identifier` or
/// `der_next_distribution_point` has found.
///
/// A call that fails leaves `name` unchanged. At the end of the list, the error is `Incomplete`.
/// After `TagUnexpected`, `reader` is unchanged; after any other error, `reader` has failed.
pub fn der_next_general_name<'a>(
    alloc: Global,
    reader: &mut DerReader<'a>,
    name: &mut DerGeneralName<'a>,
) -> DerError
    ensures same { Same (reader_state reader.old) (reader_state reader.new) }
    ensures reads { ReadsItem ⟦<GeneralName<'a> as Decode<SliceReader<'a>>>⟧.is_next (ItemAnswer
        (λ e f. f ≡ e) ⟦<GeneralName<'a> as Decode<SliceReader<'a>>>⟧.decode_answers)
        IsGeneralNameOf (reader_state reader.old) result name.old name.new
        (reader_state reader.new) }
    ensures complete { ReadsNext ⟦<GeneralName<'a> as Decode<SliceReader<'a>>>⟧.is_next
        ⟦<GeneralName<'a> as Decode<SliceReader<'a>>>⟧.decode_levels (reader_state reader.old)
        result (reader_state reader.new) }
{
    match next_item::<GeneralName<'a>>(alloc, reader) {
        Ok(value) => {
            *name = general_name_of(&value);
            DerError::NONE
        }
        Err(error) => error,
    }
}
