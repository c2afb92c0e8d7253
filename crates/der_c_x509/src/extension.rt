//! Reading the extensions of a list.
ghost use Rattle.std.specs.Prelude.{◌≡◌};
ghost use Rattle.der.specs.Prelude.{Same};
ghost use Rattle.der_asn1.specs.ListAnswers.{ItemAnswer};
ghost use Rattle.der_c_core.specs.CReader.{reader_state};
ghost use Rattle.der_c_x509.specs.Items.{IsExtensionOf};
ghost use Rattle.der_c_x509.specs.Calls.{ReadsItem, ReadsNext};

use crate::next::next_item;
use crate::strings::span_of;
use der::{Decode, Reader, SliceReader};
use der_c_core::{DerError, DerReader, DerSpan};
use std::alloc::Global;
use x509::Extension;

/// An extension (RFC 5280, 4.1 and 4.2). All octets are borrowed from the input.
#[repr(C)]
#[derive(Clone, Copy)]
pub struct DerExtension<'a> {
    /// The contents octets of the OBJECT IDENTIFIER of the extension's type.
    pub identifier: DerSpan<'a>,
    /// The contents octets of the OCTET STRING extnValue: the encoding of the extension's value.
    /// They are not checked.
    pub value: DerSpan<'a>,
    /// Whether the extension is critical. An application that does not process a critical extension
    /// must reject the certificate.
    pub critical: bool,
}

impl DerExtension<'_> {
    /// The value of an extension before it is read: all fields are empty or false.
    pub const EMPTY: DerExtension<'static> = DerExtension {
        identifier: DerSpan::EMPTY,
        value: DerSpan::EMPTY,
        critical: false,
    };
}

// An extension as a struct of C.
fn extension_of<'a>(value: &Extension<'a>) -> DerExtension<'a>
    ensures { IsExtensionOf value.now result }
{
    DerExtension {
        identifier: span_of(&value.extn_id),
        value: span_of(&value.extn_value),
        critical: value.critical.0.is_true(),
    }
}

/// Reads the next extension of a list into `extension`. `reader` must read the contents of a list
/// of extensions, such as the list that `der_certificate_read` stores in `extensions`.
///
/// A call that fails leaves `extension` unchanged. At the end of the list, the error is
/// `Incomplete`. After `TagUnexpected`, `reader` is unchanged; after any other error, `reader` has
/// failed.
pub fn der_next_extension<'a>(
    alloc: Global,
    reader: &mut DerReader<'a>,
    extension: &mut DerExtension<'a>,
) -> DerError
    ensures same { Same (reader_state reader.old) (reader_state reader.new) }
    ensures reads { ReadsItem ⟦<Extension<'a> as Decode<SliceReader<'a>>>⟧.is_next
        (ItemAnswer (λ e f. f ≡ e) ⟦<Extension<'a> as Decode<SliceReader<'a>>>⟧.decode_answers)
        IsExtensionOf (reader_state reader.old) result extension.old extension.new
        (reader_state reader.new) }
    ensures complete { ReadsNext ⟦<Extension<'a> as Decode<SliceReader<'a>>>⟧.is_next
        ⟦<Extension<'a> as Decode<SliceReader<'a>>>⟧.decode_levels (reader_state reader.old) result
        (reader_state reader.new) }
{
    match next_item::<Extension<'a>>(alloc, reader) {
        Ok(value) => {
            *extension = extension_of(&value);
            DerError::NONE
        }
        Err(error) => error,
    }
}
