//! The result of finding an extension whose value is a list, or a string of octets.
ghost use Rattle.der_c_x509.specs.Known.{IsFoundOf};

use crate::strings::span_of;
use der_asn1::{Checked, ContentsGrammar, Item, SequenceOf};
use der_c_core::DerSpan;
use x509::Known;

/// The result of looking for an extension of a certain type. The value of the extension is a list,
/// or a string of octets.
#[repr(C)]
#[derive(Clone, Copy)]
pub struct DerFound<'a> {
    /// The contents octets of the value of the extension. Empty if the extension is absent.
    pub contents: DerSpan<'a>,
    /// Whether the list of extensions contains this extension.
    pub present: bool,
    /// Whether the extension is critical. False if the extension is absent.
    pub critical: bool,
}

impl DerFound<'_> {
    /// The value for an absent extension: all fields are empty, 0 or false.
    pub const EMPTY: DerFound<'static> = DerFound {
        contents: DerSpan::EMPTY,
        present: false,
        critical: false,
    };
}

// An extension whose value is a list.
pub(crate) fn found_list<'a, T: Item>(found: &Option<Known<SequenceOf<'a, T>>>) -> DerFound<'a>
    ensures { IsFoundOf (λ v. v.octets.now) found.now result }
{
    match found {
        Some(known) => DerFound {
            contents: DerSpan {
                octets: known.value.octets(),
            },
            present: true,
            critical: known.critical,
        },
        None => DerFound::EMPTY,
    }
}

// An extension whose value is a string.
pub(crate) fn found_string<'a, F: ContentsGrammar>(
    found: &Option<Known<Checked<'a, F>>>,
) -> DerFound<'a>
    ensures { IsFoundOf (λ v. v.octets.now) found.now result }
{
    match found {
        Some(known) => DerFound {
            contents: span_of(&known.value),
            present: true,
            critical: known.critical,
        },
        None => DerFound::EMPTY,
    }
}
