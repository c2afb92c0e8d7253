//! An example that reads a message under the Basic Encoding Rules.
ghost use Rattle.std.specs.Prelude.{◌≡◌, ℕ, ◌+◌, ◌/◌, ◌≤◌, length, take, drop, IfOk};
ghost use Rattle.der.specs.Prelude.{HeadNext, number, Ber, head_of};

use der::{
    EncodingRules, Error, Header, Length, Reader, ReaderExt, SliceReader, Turns, decode_header,
};
use std::sync::ledger::Ledger;

/// Reads the element at the front of `octets` under the Basic Encoding Rules. Returns its header
/// and its contents. If the length has the indefinite form, the contents include the
/// end-of-contents octets.
pub fn first_message(octets: &[u8]) -> Result<(Header, &[u8]), Error>
    ensures { IfOk result (λ p. (m : ℕ) × HeadNext (head_of p.0) Ber octets.now m
        × (p.1.now ≡ take (number (head_of p.0).length) (drop m octets.now))) }
{
    let mut reader = SliceReader::new_with_encoding_rules(octets, EncodingRules::Ber)?;
    let header = decode_header(&mut reader)?;
    let contents = reader.read_slice(header.length())?;
    Ok((header, contents))
}

/// Scans contents of indefinite length at the front of `octets`. Returns their number of octets,
/// end-of-contents octets included. The contract of this function bounds the cost. For n `octets`,
/// the scan reads at most n/2 + 1 identifiers and end-of-contents, which are counted in `turns`
/// (see [`Turns`]).
pub fn indefinite_len<L: Ledger>(octets: &[u8], turns: &mut Turns<L>) -> Result<Length, Error>
    ensures { turns.new ≤ turns.old + (length octets.now / 2 + 1) }
{
    let reader = SliceReader::new_with_encoding_rules(octets, EncodingRules::Ber)?;
    reader.scan_indefinite(turns)
}
