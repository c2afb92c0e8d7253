//! The struct for an element of any tag, without its header.
ghost use Rattle.der_c_x509.specs.Fields.{IsAnyOf, IsOptionalAnyOf};

use der_asn1::AnyRef;
use der_c_core::{DerSpan, word_of};

/// An element of any tag, without its header.
#[repr(C)]
#[derive(Clone, Copy)]
pub struct DerAny<'a> {
    /// The contents octets, borrowed from the input. They are not checked.
    pub contents: DerSpan<'a>,
    /// The tag word, `der_tag` in C: the first octet of the identifier, plus 256 times the tag
    /// number if the number is 31 or more. It is 0 if there is no element.
    pub tag: u64,
}

impl DerAny<'_> {
    /// The value for an absent element: the tag is 0, and there are no contents.
    pub const EMPTY: DerAny<'static> = DerAny {
        contents: DerSpan::EMPTY,
        tag: 0,
    };
}

// An element as a struct of C.
pub(crate) fn any_of<'a>(value: &AnyRef<'a>) -> DerAny<'a>
    ensures { IsAnyOf value.now result }
{
    DerAny {
        contents: DerSpan {
            octets: value.contents,
        },
        tag: word_of(value.tag),
    }
}

// An element that may be absent.
pub(crate) fn optional_any_of<'a>(value: &Option<AnyRef<'a>>) -> DerAny<'a>
    ensures { IsOptionalAnyOf value.now result }
{
    match value {
        Some(value) => any_of(value),
        None => DerAny::EMPTY,
    }
}
