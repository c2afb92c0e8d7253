//! Measuring indefinite-length contents, for C.
ghost use Rattle.std.specs.Prelude.{◌≡◌, true};
ghost use Rattle.der_base.specs.declared.encoding_rules.EncodingRules.TheVariants.{Ber};
ghost use Rattle.der_core.specs.Scan.{Scans};
ghost use Rattle.der_c_core.specs.CReader.{reader_state};
ghost use Rattle.der_c_core.specs.ScanCall.{ScansBody};

use crate::error::DerError;
use crate::reader::DerReader;
use der_base::{Error, ErrorKind, Length};
use der_core::{Turns, decode_indefinite_length};
use std::marker::Brand;
use std::sync::ledger::{Blank, Ledger};

/// Consumes indefinite-length contents and the end-of-contents octets that close them (X.690
/// 8.1.3.6). Sets `count` to the number of octets consumed, end-of-contents octets included. Before
/// the call, `reader` must be just after the length octet `0x80`. After the call, `reader` is just
/// after the end-of-contents octets.
///
/// A call that fails leaves `count` unchanged, and `reader` has failed after it. Fails with:
///
/// - the errors of `der_core::decode_indefinite_length`;
/// - `EncodingRules` without a position, if `reader` does not read under the Basic Encoding Rules.
#[inline(always)]
pub fn der_scan(reader: &mut DerReader<'_>, count: &mut u32) -> DerError
    ensures { ScansBody (reader_state reader.old) result count.old count.new
        (reader_state reader.new) }
{
    if reader.failed {
        return reader.refuse();
    }
    if !reader.ber {
        return reader.fail(ErrorKind::EncodingRules.to_error());
    }
    match scan_counted::<Brand>(reader, Blank::new(1)) {
        Ok(length) => {
            *count = u32::from(length);
            DerError::NONE
        }
        Err(error) => reader.fail(error),
    }
}

// Consumes the contents with a counter of turns, which allocates nothing.
fn scan_counted<L: Ledger>(reader: &mut DerReader<'_>, blank: Blank) -> Result<Length, Error>
    requires name { blank.name ≡ L.name }
    requires parts { blank.parts ≡ L.parts }
    requires whole { blank.parts ≡ 1 }
    requires ber { (reader_state reader.old).rules ≡ Ber }
    ensures { Scans true (reader_state reader.old) result (reader_state reader.new) }
{
    let mut turns = Turns::<L>::new(blank);
    decode_indefinite_length(reader, &mut turns)
}
