//! Checks of one attribute of a name (RFC 5280, 4.1.2.4 and A.1).
ghost use Rattle.std.specs.Prelude.{◌≡◌, ◌⊎◌, ◌↔◌, ◌<◌, ℕ, IfSome, IfNone, count_by, IsTrue};
ghost use Rattle.x509_lint.specs.AttributeChecks.{AreCharactersOf, HasCharactersOfTag, HasLengthOfType, HasTypeOfAttribute, IsWithin};
ghost use Rattle.x509_lint.specs.AttributeChecks.{allows_tag, begins_character, bounds_of, character_count, domain_component, email_address, id_at, is_directory_tag, is_ia5_tag, is_printable_tag};

use crate::checks::identifiers::is;
use der::Tag;
use der_asn1::{
    BmpStringRef, Ia5StringRef, NumericStringRef, PrintableStringRef, Utf8StringRef,
    VisibleStringRef,
};
use x509::AttributeTypeAndValue;
use x509::values::{id_domain_component, id_email_address};

/// Whether the number of characters of the value is within the bounds of RFC 5280, A.1, for the
/// type of the attribute. True if A.1 has no bounds for the type. Decoding does not check this.
pub fn has_length_of_type(attribute: &AttributeTypeAndValue<'_>) -> bool
    ensures { IsTrue result ↔ HasLengthOfType attribute.now }
{
    let count = character_count(attribute.value.tag, attribute.value.contents);
    let id = attribute.oid.octets();
    match arc_of(id) {
        Some(arc) => is_within(bounds_of(arc), count),
        None => !is(id, &id_email_address()) || is_within(Some((1, 255)), count),
    }
}

/// Whether all characters of the value belong to the string type that its tag names (X.680 41).
/// Also true if the value is not a string. Decoding does not check this.
pub fn has_characters_of_tag(attribute: &AttributeTypeAndValue<'_>) -> bool
    ensures { IsTrue result ↔ HasCharactersOfTag attribute.now }
{
    are_characters_of(attribute.value.tag, attribute.value.contents)
}

/// Whether the value has a string type that RFC 5280, A.1, allows for the type of the attribute.
/// Decoding does not check this.
pub fn has_type_of_attribute(attribute: &AttributeTypeAndValue<'_>) -> bool
    ensures { IsTrue result ↔ HasTypeOfAttribute attribute.now }
{
    let id = attribute.oid.octets();
    match arc_of(id) {
        Some(arc) => allows_tag(arc, attribute.value.tag),
        None => !is_ia5_type(id) || is_ia5_tag(attribute.value.tag),
    }
}

fn is_ia5_type(id: &[u8]) -> bool
    ensures { IsTrue result ↔ ((id.now ≡ email_address) ⊎ (id.now ≡ domain_component)) }
{
    is(id, &id_email_address()) || is(id, &id_domain_component())
}

// Whether an attribute 2.5.4 and this arc may have a value with this tag.
fn allows_tag(arc: u8, tag: Tag) -> bool
    ensures { result ≡ allows_tag arc tag }
{
    match arc {
        5 | 6 | 46 => is_printable_tag(tag),
        3 | 4 | 7 | 8 | 10 | 11 | 12 | 41 | 42 | 43 | 44 | 65 => is_directory_tag(tag),
        _ => true,
    }
}

fn is_printable_tag(tag: Tag) -> bool
    ensures { result ≡ is_printable_tag tag }
{
    matches!(tag, Tag::PrintableString)
}

fn is_directory_tag(tag: Tag) -> bool
    ensures { result ≡ is_directory_tag tag }
{
    matches!(
        tag,
        Tag::TeletexString | Tag::PrintableString | Tag::Utf8String | Tag::BmpString
    )
}

fn is_ia5_tag(tag: Tag) -> bool
    ensures { result ≡ is_ia5_tag tag }
{
    matches!(tag, Tag::Ia5String)
}

fn are_characters_of(tag: Tag, octets: &[u8]) -> bool
    ensures { IsTrue result ↔ AreCharactersOf tag octets.now }
{
    match tag {
        Tag::PrintableString => PrintableStringRef::new(octets).is_some(),
        Tag::Ia5String => Ia5StringRef::new(octets).is_some(),
        Tag::NumericString => NumericStringRef::new(octets).is_some(),
        Tag::VisibleString => VisibleStringRef::new(octets).is_some(),
        Tag::BmpString => BmpStringRef::new(octets).is_some(),
        Tag::Utf8String => Utf8StringRef::new(octets).is_some(),
        _ => true,
    }
}

// The last arc of the identifier 2.5.4 and an arc below 128.
fn arc_of(id: &[u8]) -> Option<u8>
    ensures some { IfSome result (λ n. (n < 128) × (id.now ≡ id_at n)) }
    ensures none { IfNone result ((n : ℕ) → n < 128 → id.now ≡ id_at n → ⊥) }
{
    match id {
        [0x55, 0x04, arc] if *arc < 128 => Some(*arc),
        _ => None,
    }
}

// The least and the most characters of an attribute 2.5.4 and this arc.
fn bounds_of(arc: u8) -> Option<(usize, usize)>
    ensures { result ≡ bounds_of arc }
{
    match arc {
        3 | 5 | 10 | 11 | 12 => Some((1, 64)),
        7 | 8 | 65 => Some((1, 128)),
        4 | 41 | 42 | 43 | 44 => Some((1, 32768)),
        6 => Some((2, 2)),
        _ => None,
    }
}

fn is_within(bounds: Option<(usize, usize)>, count: usize) -> bool
    ensures { IsTrue result ↔ IsWithin bounds count }
{
    match bounds {
        Some((least, most)) => least <= count && count <= most,
        None => true,
    }
}

// The number of characters of a text with this tag.
pub(crate) fn character_count(tag: Tag, octets: &[u8]) -> usize
    ensures { result ≡ character_count tag octets.now }
{
    match tag {
        Tag::Utf8String => count_of_characters(octets),
        Tag::BmpString => octets.len() / 2,
        _ => octets.len(),
    }
}

// The number of characters of a text in UTF-8.
fn count_of_characters(octets: &[u8]) -> usize
    ensures { result ≡ count_by begins_character octets.now }
{
    octets.iter().filter(|octet| is_first(**octet)).count()
}

// Whether the octet begins a character in UTF-8.
fn is_first(octet: u8) -> bool
    ensures { result ≡ begins_character octet }
{
    octet < 128 || 191 < octet
}
