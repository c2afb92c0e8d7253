//! Reading the entries of revocation lists.
ghost use Rattle.std.specs.Prelude.{◌≡◌, [], MatchOption};
ghost use Rattle.der.specs.Prelude.{Same};
ghost use Rattle.der_asn1.specs.ListAnswers.{ItemAnswer};
ghost use Rattle.der_c_core.specs.CReader.{reader_state};
ghost use Rattle.der_c_x509.specs.Calls.{ReadsItem, ReadsNext};
ghost use Rattle.der_c_x509.specs.Revoked.{IsRevokedOf};

use crate::next::next_item;
use crate::strings::span_of;
use crate::time::seconds_of;
use der::{Decode, SliceReader};
use der_asn1::Optional;
use der_c_core::{DerError, DerReader, DerSpan};
use std::alloc::Global;
use x509::{Extensions, RevokedCertificate};

/// An entry of a revocation list: a certificate that is revoked (RFC 5280, 5.1.2.6). All octets are
/// borrowed from the input.
#[repr(C)]
#[derive(Clone, Copy)]
pub struct DerRevoked<'a> {
    /// The contents octets of the INTEGER that is the serial number of the revoked certificate.
    pub serial_number: DerSpan<'a>,
    /// The contents octets of the list of extensions of the entry. Empty if the list is absent.
    pub extensions: DerSpan<'a>,
    /// The time at which the certificate was revoked, in seconds from 1970-01-01T00:00:00Z. It is
    /// negative for a time before 1970.
    pub revocation_date: i64,
    /// Whether the entry has a list of extensions.
    pub has_extensions: bool,
}

impl DerRevoked<'_> {
    /// The value of an entry before it is read: all fields are empty, 0 or false.
    pub const EMPTY: DerRevoked<'static> = DerRevoked {
        serial_number: DerSpan::EMPTY,
        extensions: DerSpan::EMPTY,
        revocation_date: 0,
        has_extensions: false,
    };
}

// The contents of a list of extensions, or no octets.
fn entry_extensions_of<'a>(value: &Optional<Extensions<'a>>) -> DerSpan<'a>
    ensures { MatchOption value.now.0 (result.octets.now ≡ [])
        (λ e. result.octets.now ≡ e.items.octets.now) }
{
    match &value.0 {
        Some(value) => DerSpan {
            octets: value.items.octets(),
        },
        None => DerSpan::EMPTY,
    }
}

// An entry as a struct of C.
fn revoked_of<'a>(value: &RevokedCertificate<'a>) -> DerRevoked<'a>
    ensures { IsRevokedOf value.now result }
{
    DerRevoked {
        serial_number: span_of(&value.user_certificate),
        extensions: entry_extensions_of(&value.crl_entry_extensions),
        revocation_date: seconds_of(&value.revocation_date),
        has_extensions: value.crl_entry_extensions.0.is_some(),
    }
}

/// Reads the next entry of a revocation list into `entry`. `reader` must read the contents of a
/// list of entries that `der_revocation_list_read` has found.
///
/// A call that fails leaves `entry` unchanged. At the end of the list, the error is `Incomplete`.
/// After `TagUnexpected`, `reader` is unchanged; after any other error, `reader` has failed.
pub fn der_next_revoked<'a>(
    alloc: Global,
    reader: &mut DerReader<'a>,
    entry: &mut DerRevoked<'a>,
) -> DerError
    ensures same { Same (reader_state reader.old) (reader_state reader.new) }
    ensures reads { ReadsItem ⟦<RevokedCertificate<'a> as Decode<SliceReader<'a>>>⟧.is_next
        (ItemAnswer (λ e f. f ≡ e)
        ⟦<RevokedCertificate<'a> as Decode<SliceReader<'a>>>⟧.decode_answers) IsRevokedOf
        (reader_state reader.old) result entry.old entry.new (reader_state reader.new) }
    ensures complete { ReadsNext ⟦<RevokedCertificate<'a> as Decode<SliceReader<'a>>>⟧.is_next
        ⟦<RevokedCertificate<'a> as Decode<SliceReader<'a>>>⟧.decode_levels
        (reader_state reader.old) result (reader_state reader.new) }
{
    match next_item::<RevokedCertificate<'a>>(alloc, reader) {
        Ok(value) => {
            *entry = revoked_of(&value);
            DerError::NONE
        }
        Err(error) => error,
    }
}
