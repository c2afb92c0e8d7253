//! Writes elements.
ghost use Rattle.std.specs.Prelude.{◌≡◌, ◌+◌, true, IfOk};
ghost use Rattle.ber.specs.declared.length.Length.TheVariants.{Definite};
ghost use Rattle.schema_write.specs.Same.{IsElementOf};

use crate::refusal::Refusal;
use ber::{Header, Length};
use der_base::Class;
use schema_read::walking::front_header;
use std::alloc::{AllocError, Global};

/// Writes an element with the class and the tag number of `header`, and with these contents. It has
/// the constructed form if `constructed` is true. Its length is definite, in the fewest octets.
pub(crate) fn element(
    alloc: Global,
    header: Header,
    constructed: bool,
    contents: &[u8],
) -> Result<Vec<u8>, Refusal>
    ensures { IfOk result (λ w. IsElementOf header constructed contents.now w.items) }
{
    let mut out = Vec::with_capacity(alloc, contents.len().saturating_add(12))?;
    put_identifier(&mut out, header.class, constructed, header.number)?;
    put_length(&mut out, contents.len())?;
    out.extend_from_slice(contents)?;
    let octets = out.as_slice();
    let written = match front_header(octets, 1) {
        Ok(written) => written,
        Err(_) => return Err(Refusal::Unwritable),
    };
    if is_header_of(written, header, constructed, contents.len(), octets.len()) {
        return Ok(out);
    }
    Err(Refusal::Unwritable)
}

// Whether a header is one of DER with this tag, before so many contents octets, which end octets of this number.
fn is_header_of(
    written: Header,
    header: Header,
    constructed: bool,
    count: usize,
    all: usize,
) -> bool
    ensures class { result ≡ true → written.class ≡ header.class }
    ensures number { result ≡ true → written.number ≡ header.number }
    ensures form { result ≡ true → written.constructed ≡ constructed }
    ensures minimal { result ≡ true → written.minimal ≡ true }
    ensures length { result ≡ true → written.length ≡ Definite count }
    ensures all { result ≡ true → all ≡ written.header_len + count }
{
    if written.class != header.class || written.number != header.number {
        return false;
    }
    if written.constructed != constructed || !written.minimal {
        return false;
    }
    if !has_length(written.length, count) || all < count {
        return false;
    }
    all - count == written.header_len
}

fn has_length(length: Length, count: usize) -> bool
    ensures { result ≡ true → length ≡ Definite count }
{
    match length {
        Length::Definite(length) => length as usize == count,
        Length::Indefinite => false,
    }
}

// Appends identifier octets (X.690 8.1.2).
fn put_identifier(
    out: &mut Vec<u8>,
    class: Class,
    constructed: bool,
    number: u32,
) -> Result<(), AllocError> {
    let leading = class.bits() | if constructed { 0x20 } else { 0 };
    if number < 31 {
        out.push(leading | (number % 32) as u8)?;
        return Ok(());
    }
    out.push(leading | 31)?;
    for place in [4u32, 3, 2, 1] {
        let above = number >> (7 * place);
        if above > 0 {
            out.push(0x80 + (above % 128) as u8)?;
        }
    }
    out.push((number % 128) as u8)?;
    Ok(())
}

// Appends length octets, as few as possible (X.690 10.1).
fn put_length(out: &mut Vec<u8>, length: usize) -> Result<(), AllocError> {
    if length < 128 {
        out.push((length % 128) as u8)?;
        return Ok(());
    }
    let octets = length.to_be_bytes();
    let mut zeros = 0usize;
    'zeros: while zeros < 7 && octets[zeros] == 0 {
        zeros += 1;
    }
    out.push(0x80 + ((8 - zeros) % 128) as u8)?;
    out.extend_from_slice(&octets[zeros..])
}
