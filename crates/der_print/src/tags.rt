//! Prints tags.

use crate::text::{Output, Target};
use ber::{Header, Universal};
use der::Tag;
use der_base::Class;

/// Prints the tag of `header`. For a universal type, prints its name; for any other tag, the class
/// and the number.
pub fn put_header_tag<T: Target>(out: &mut Output<T>, header: Header) {
    if let Some(universal) = header.universal() {
        out.put(universal.name());
        return;
    }
    out.put(match header.class {
        Class::Universal => "UNIVERSAL [",
        Class::Application => "APPLICATION [",
        Class::ContextSpecific => "CONTEXT-SPECIFIC [",
        Class::Private => "PRIVATE [",
    });
    out.put_number(u64::from(header.number));
    out.put(if header.constructed {
        "] (constructed)"
    } else {
        "] (primitive)"
    });
}

/// The [`Tag`] of a universal type. `None` if the crate `der` has no such tag.
pub fn tag_of_universal(universal: Universal) -> Option<Tag> {
    match universal {
        Universal::Boolean => Some(Tag::Boolean),
        Universal::Integer => Some(Tag::Integer),
        Universal::BitString => Some(Tag::BitString),
        Universal::OctetString => Some(Tag::OctetString),
        Universal::Null => Some(Tag::Null),
        Universal::ObjectIdentifier => Some(Tag::ObjectIdentifier),
        Universal::Enumerated => Some(Tag::Enumerated),
        Universal::Sequence => Some(Tag::Sequence),
        Universal::Set => Some(Tag::Set),
        Universal::Utf8String => Some(Tag::Utf8String),
        other => tag_of_text(other),
    }
}

fn tag_of_text(universal: Universal) -> Option<Tag> {
    match universal {
        Universal::NumericString => Some(Tag::NumericString),
        Universal::PrintableString => Some(Tag::PrintableString),
        Universal::TeletexString => Some(Tag::TeletexString),
        Universal::VideotexString => Some(Tag::VideotexString),
        Universal::Ia5String => Some(Tag::Ia5String),
        Universal::UtcTime => Some(Tag::UtcTime),
        Universal::GeneralizedTime => Some(Tag::GeneralizedTime),
        Universal::VisibleString => Some(Tag::VisibleString),
        Universal::GeneralString => Some(Tag::GeneralString),
        Universal::BmpString => Some(Tag::BmpString),
        _ => None,
    }
}
