//! Scans of contents of indefinite length, which count their steps in [`Turns`].
ghost use Rattle.std.specs.Prelude.{◌≡◌, ◌+◌, Ok};
ghost use Rattle.der.specs.Prelude.{indefinite_length};

use der::{EncodingRules, Error, Length, ReaderExt, SliceReader, Turns};
use std::sync::ledger::{Blank, Ledger};

/// Scans contents of indefinite length: three NULLs and the end-of-contents octets. Returns 8, the
/// number of octets of all four. Adds 4 to `turns` (see [`Turns`]): one for each NULL, and one for
/// the end-of-contents octets.
pub fn scan_nulls<L: Ledger>(turns: &mut Turns<L>) -> Result<Length, Error>
    ensures answer { result ≡ Ok (indefinite_length 8) }
    ensures turned { turns.new ≡ turns.old + 4 }
{
    let octets = [0x05, 0x00, 0x05, 0x00, 0x05, 0x00, 0x00, 0x00];
    let reader = SliceReader::new_with_encoding_rules(&octets, EncodingRules::Ber)?;
    reader.scan_indefinite(turns)
}

/// Scans contents of indefinite length: three NULLs and the end-of-contents octets. Returns 8, the
/// number of octets of all four. The steps of the scan are counted in a new counter (see
/// [`Turns`]), which is made from `blank` and starts at 0.
pub fn scan_nulls_counted<L: Ledger>(blank: Blank) -> Result<Length, Error>
    requires name { blank.name ≡ L.name }
    requires parts { blank.parts ≡ L.parts }
    requires whole { blank.parts ≡ 1 }
{
    let mut turns = Turns::<L>::new(blank);
    scan_nulls(&mut turns)
}
