//! An example that reads a public key field by field: SubjectPublicKeyInfo of RFC 5280, 4.1.
ghost use Rattle.std.specs.Prelude.{◌≡◌};
ghost use Rattle.der.specs.Prelude.{Same, slice_state};

use der::{Error, Reader, ReaderExt, SliceReader, Tag, decode_header};

/// A public key, borrowed from the input.
#[derive(Clone, Copy, Debug, PartialEq, Eq)]
pub struct PublicKey<'a> {
    /// The contents octets of the OBJECT IDENTIFIER that names the algorithm.
    pub algorithm: &'a [u8],
    /// The parameters of the algorithm, as a whole element with its header. `None` if there are no
    /// parameters.
    pub parameters: Option<&'a [u8]>,
    /// The octets of the key. They are the contents of a BIT STRING without the first octet, which
    /// is the number of unused bits.
    pub key: &'a [u8],
}

/// Reads the octets as exactly one public key (SubjectPublicKeyInfo of RFC 5280, 4.1).
pub fn public_key(octets: &[u8]) -> Result<PublicKey<'_>, Error> {
    let mut reader = SliceReader::new(octets)?;
    let key = reader.sequence(read_fields)?;
    reader.finish()?;
    Ok(key)
}

// The fields of the outer SEQUENCE.
fn read_fields<'a>(reader: &mut SliceReader<'a>) -> Result<PublicKey<'a>, Error>
    ensures { Same (slice_state reader.old) (slice_state reader.new) }
{
    let (algorithm, parameters) = reader.sequence(read_algorithm)?;
    let bits = read_tagged_contents(reader, Tag::BitString)?;
    // The first octet is the number of unused bits in the last octet (X.690 8.6.2); a key has none.
    match bits.split_first() {
        Some((0, key)) => Ok(PublicKey {
            algorithm,
            parameters,
            key,
        }),
        _ => Err(reader.error(Tag::BitString.value_error())),
    }
}

// The fields of the SEQUENCE that names the algorithm. The second may be absent.
fn read_algorithm<'a>(reader: &mut SliceReader<'a>) -> Result<(&'a [u8], Option<&'a [u8]>), Error>
    ensures { Same (slice_state reader.old) (slice_state reader.new) }
{
    let algorithm = read_tagged_contents(reader, Tag::ObjectIdentifier)?;
    if reader.is_finished() {
        return Ok((algorithm, None));
    }
    let parameters = reader.tlv_bytes()?;
    Ok((algorithm, Some(parameters)))
}

// The contents of the next element, which must have this tag.
fn read_tagged_contents<'a>(reader: &mut SliceReader<'a>, tag: Tag) -> Result<&'a [u8], Error>
    ensures { Same (slice_state reader.old) (slice_state reader.new) }
{
    let header = decode_header(reader)?;
    header.tag().assert_eq(tag)?;
    reader.read_slice(header.length())
}
