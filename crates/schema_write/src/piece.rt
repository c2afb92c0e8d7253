//! Elements of the input.
ghost use Rattle.std.specs.Prelude.{◌≡◌, ◌≢◌, ◌↔◌, ◌<◌, ◌++◌, length, drop, IfOk, OnOk, IsTrue};
ghost use Rattle.der_base.specs.FixedOctets.{end_of_contents};
ghost use Rattle.ber.specs.Der.{HasReservedTag};
ghost use Rattle.ber.specs.Header.{IsNext, end_header, label_of_header};
ghost use Rattle.ber.specs.declared.length.Length.TheVariants.{Definite, Indefinite};
ghost use Rattle.schema_write.specs.Pieces.{IsPiece};

use crate::refusal::Refusal;
use ber::{Header, Length, body_len};
use schema_read::walking::front_header;

/// An element of the input, with a definite or an indefinite length. `contents` do not include
/// end-of-contents octets, and `rest` are the octets after the element.
#[derive(Clone, Copy)]
pub(crate) struct Piece<'a> {
    pub header: Header,
    pub contents: &'a [u8],
    /// The octets of the whole element, including its header and its end-of-contents octets.
    pub octets: &'a [u8],
    pub rest: &'a [u8],
}

/// Reads the element at the front of `octets`. `depth` is the number of levels of nesting that are
/// still allowed.
///
/// # Errors
///
/// `NotBer`, if no whole element is at the front, or if `depth` is 0.
pub(crate) fn front(octets: &[u8], depth: usize) -> Result<Piece<'_>, Refusal>
    ensures piece { IfOk result (λ p. IsPiece p) }
    ensures split { IfOk result (λ p. octets.now ≡ p.octets.now ++ p.rest.now) }
    ensures moves { IfOk result (λ p. length p.rest.now < length octets.now) }
    ensures some { OnOk result (0 < depth) }
{
    let header = match front_header(octets, depth) {
        Ok(header) => header,
        Err(_) => return Err(Refusal::NotBer),
    };
    let after = &octets[header.header_len..];
    match header.length {
        Length::Definite(length) => definite(header, octets, after, length as usize),
        Length::Indefinite => indefinite(header, octets, after),
    }
}

fn definite<'a>(
    header: Header,
    octets: &'a [u8],
    after: &'a [u8],
    count: usize,
) -> Result<Piece<'a>, Refusal>
    requires next { IsNext header octets.now }
    requires real { header ≢ end_header }
    requires known { HasReservedTag (label_of_header header) → ⊥ }
    requires definite { header.length ≡ Definite count }
    requires after { after.now ≡ drop header.header_len octets.now }
    ensures piece { IfOk result (λ p. IsPiece p) }
    ensures split { IfOk result (λ p. octets.entry.now ≡ p.octets.now ++ p.rest.now) }
{
    if after.len() < count {
        return Err(Refusal::NotBer);
    }
    let (contents, rest) = after.split_at(count);
    Ok(Piece {
        header,
        contents,
        octets: &octets[..octets.len() - rest.len()],
        rest,
    })
}

fn indefinite<'a>(header: Header, octets: &'a [u8], after: &'a [u8]) -> Result<Piece<'a>, Refusal>
    requires next { IsNext header octets.now }
    requires real { header ≢ end_header }
    requires known { HasReservedTag (label_of_header header) → ⊥ }
    requires indefinite { header.length ≡ Indefinite }
    requires after { after.now ≡ drop header.header_len octets.now }
    ensures piece { IfOk result (λ p. IsPiece p) }
    ensures split { IfOk result (λ p. octets.entry.now ≡ p.octets.now ++ p.rest.now) }
{
    let len = match body_len(after) {
        Ok(len) => len,
        Err(_) => return Err(Refusal::NotBer),
    };
    let (body, rest) = after.split_at(len);
    if len < 2 {
        return Err(Refusal::NotBer);
    }
    let (contents, ending) = body.split_at(len - 2);
    if !is_ending(ending) {
        return Err(Refusal::NotBer);
    }
    Ok(Piece {
        header,
        contents,
        octets: &octets[..octets.len() - rest.len()],
        rest,
    })
}

// Whether octets are the end-of-contents octets.
fn is_ending(octets: &[u8]) -> bool
    ensures { IsTrue result ↔ (octets.now ≡ end_of_contents) }
{
    octets == [0u8, 0].as_slice()
}
