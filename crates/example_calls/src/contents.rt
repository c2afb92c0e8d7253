//! An example that borrows the contents of an element from the input.
ghost use Rattle.std.specs.Prelude.{◌≡◌, ℕ, take, drop, IfOk};
ghost use Rattle.der.specs.Prelude.{HeadNext, number, Der, head_of};

use der::{Error, Header, Reader, SliceReader, decode_header};

/// Reads the element at the front of `octets`. Returns its header, and its contents as a slice of
/// `octets`, not a copy.
pub fn first_contents(octets: &[u8]) -> Result<(Header, &[u8]), Error>
    ensures { IfOk result (λ p. (m : ℕ) × HeadNext (head_of p.0) Der octets.now m
        × (p.1.now ≡ take (number (head_of p.0).length) (drop m octets.now))) }
{
    let mut reader = SliceReader::new(octets)?;
    let header = decode_header(&mut reader)?;
    let contents = reader.read_slice(header.length())?;
    Ok((header, contents))
}
