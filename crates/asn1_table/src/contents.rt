//! Contents octets of values that are not made of other values.

use crate::identifiers::oid_octets;
use crate::integers::integer_octets;
use crate::library::Library;
use crate::limits::known_number;
use crate::values::{Words, WordsForm};
use asn1_check::Constant;
use asn1_syntax::{Endpoint, Item, ItemKind, NamedNumber, SimpleType};
use std::alloc::{AllocError, Global};

/// The contents octets of a value of a built-in type that is not made of other types. `None` if the
/// compiler does not know how to encode the value.
pub fn simple_contents(
    alloc: Global,
    library: &Library<'_>,
    simple: SimpleType,
    words: &Words<'_>,
) -> Result<Option<Vec<u8>>, AllocError> {
    match (simple, words.item()) {
        (SimpleType::Boolean, _) => match truth(library, words) {
            Some(true) => Ok(Some(vec![in alloc; 255u8]?)),
            Some(false) => Ok(Some(vec![in alloc; 0u8]?)),
            None => Ok(None),
        },
        (SimpleType::Null, Some(item)) if item.is("NULL") => Ok(Some(Vec::new(alloc))),
        (SimpleType::ObjectIdentifier, Some(item)) => identifier(alloc, library, item),
        (SimpleType::OctetString, Some(item)) => match digits_of(alloc, item)? {
            Some((octets, _)) => Ok(Some(octets)),
            None => Ok(None),
        },
        (_, Some(item)) if item.kind == ItemKind::CharacterString => text(alloc, simple, item),
        _ => Ok(None),
    }
}

fn truth(library: &Library<'_>, words: &Words<'_>) -> Option<bool> {
    let item = words.item()?;
    match item.text {
        "TRUE" => return Some(true),
        "FALSE" => return Some(false),
        _ => {}
    }
    match library.module.constants.find(item.text)? {
        Constant::Boolean(is_true) => Some(*is_true),
        _ => None,
    }
}

fn identifier(
    alloc: Global,
    library: &Library<'_>,
    item: Item<'_>,
) -> Result<Option<Vec<u8>>, AllocError> {
    match library.module.constants.find(item.text) {
        Some(Constant::ObjectIdentifier(arcs)) => Ok(Some(oid_octets(alloc, arcs)?)),
        _ => Ok(None),
    }
}

// The octets of a text without quotation marks in it, whose characters have one octet each.
fn text(alloc: Global, simple: SimpleType, item: Item<'_>) -> Result<Option<Vec<u8>>, AllocError> {
    let inside = item
        .text
        .get(1..item.text.len().saturating_sub(1))
        .unwrap_or("");
    let is_wide = matches!(simple, SimpleType::BmpString | SimpleType::Unknown(28));
    if is_wide || !inside.is_ascii() || inside.contains('"') || inside.contains('\n') {
        return Ok(None);
    }
    let mut octets = Vec::new(alloc);
    octets.extend_from_slice(inside.as_bytes())?;
    Ok(Some(octets))
}

/// The contents octets of a value of an INTEGER or an ENUMERATED. `names` are the named numbers of
/// the type. `None` if the compiler does not know the number.
pub fn number_contents<'a>(
    alloc: Global,
    library: &Library<'a>,
    names: &Vec<NamedNumber<'a>>,
    words: &Words<'a>,
) -> Result<Option<Vec<u8>>, AllocError> {
    match number_of(library, names, words) {
        Some(number) => Ok(Some(integer_octets(alloc, number)?)),
        None => Ok(None),
    }
}

fn number_of<'a>(
    library: &Library<'a>,
    names: &Vec<NamedNumber<'a>>,
    words: &Words<'a>,
) -> Option<Endpoint<'a>> {
    if let WordsForm::Negative(number) = words.form {
        return Some(Endpoint::Negative(number));
    }
    let item = words.item()?;
    if item.kind == ItemKind::Number {
        return match item.text.parse::<u64>() {
            Ok(number) => Some(Endpoint::Number(number)),
            Err(_) => None,
        };
    }
    for named in names.iter() {
        if named.name.text == item.text {
            return named.number;
        }
    }
    library.module.constants.find(item.text)?.number()
}

/// The contents octets of a value of a BIT STRING. `names` are the named bits of the type. `None`
/// if the compiler does not know how to encode the value.
pub fn bit_contents(
    alloc: Global,
    names: &Vec<NamedNumber<'_>>,
    words: &Words<'_>,
) -> Result<Option<Vec<u8>>, AllocError> {
    if let Some(item) = words.item() {
        let Some((octets, unused)) = digits_of(alloc, item)? else {
            return Ok(None);
        };
        let mut contents = vec![in alloc; unused]?;
        contents.extend_from_slice(octets.as_slice())?;
        return Ok(Some(contents));
    }
    match words.form {
        WordsForm::Braces => named_bits(alloc, names, &words.items),
        _ => Ok(None),
    }
}

// The contents of the bits with these names, without zero bits at the end (X.690, 11.2.2).
fn named_bits(
    alloc: Global,
    names: &Vec<NamedNumber<'_>>,
    items: &Vec<Item<'_>>,
) -> Result<Option<Vec<u8>>, AllocError> {
    let mut octets: Vec<u8> = Vec::new(alloc);
    let mut highest = 7u64;
    for item in items.iter() {
        if item.is(",") {
            continue;
        }
        let Some(bit) = bit_named(names, *item) else {
            return Ok(None);
        };
        highest = highest.max(bit).min(65535);
        set_bit(&mut octets, bit)?;
    }
    let unused = if octets.is_empty() {
        0
    } else {
        7 - (highest % 8) as u8
    };
    let mut contents = vec![in alloc; unused]?;
    contents.extend_from_slice(octets.as_slice())?;
    Ok(Some(contents))
}

// The number of the bit with this name, if it is below 65536.
fn bit_named(names: &Vec<NamedNumber<'_>>, item: Item<'_>) -> Option<u64> {
    for named in names.iter() {
        if named.name.text == item.text {
            let number = u64::try_from(known_number(named.number?)?).unwrap_or(u64::MAX);
            return if number < 65536 { Some(number) } else { None };
        }
    }
    None
}

// Sets a bit, with octets up to it.
fn set_bit(octets: &mut Vec<u8>, bit: u64) -> Result<(), AllocError> {
    let index = (bit / 8) as usize;
    for _ in octets.len()..=index {
        octets.push(0)?;
    }
    if let Some(octet) = octets.get_mut(index) {
        *octet |= 128 >> (bit % 8);
    }
    Ok(())
}

// The octets of a string of digits, and how many bits of the last one are not used.
fn digits_of(alloc: Global, item: Item<'_>) -> Result<Option<(Vec<u8>, u8)>, AllocError> {
    let width = match item.kind {
        ItemKind::BinaryString => 1u64,
        ItemKind::HexString => 4,
        _ => return Ok(None),
    };
    let mut octets: Vec<u8> = Vec::new(alloc);
    let mut bits = 0u64;
    for octet in item
        .text
        .get(1..item.text.len().saturating_sub(2))
        .unwrap_or("")
        .as_bytes()
    {
        if let Some(digit) = digit_of(*octet) {
            push_digit(&mut octets, bits, width, digit)?;
            bits = bits.saturating_add(width);
        }
    }
    Ok(Some((octets, ((8 - bits % 8) % 8) as u8)))
}

fn digit_of(octet: u8) -> Option<u8> {
    match octet {
        b'0'..=b'9' => Some(octet - b'0'),
        b'A'..=b'F' => Some(octet - b'A' + 10),
        _ => None,
    }
}

// Adds a digit of so many bits after so many bits.
fn push_digit(octets: &mut Vec<u8>, bits: u64, width: u64, digit: u8) -> Result<(), AllocError> {
    if bits % 8 == 0 {
        octets.push(0)?;
    }
    if let Some(octet) = octets.last_mut() {
        let shift = 8u64.saturating_sub(width).saturating_sub(bits % 8) % 8;
        *octet |= digit << shift;
    }
    Ok(())
}
