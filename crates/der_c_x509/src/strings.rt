//! Converting decoded strings to structs of C.
ghost use Rattle.std.specs.Prelude.{◌≡◌};
ghost use Rattle.der_c_x509.specs.Fields.{IsBitsOf, IsOptionalSpanOf};

use der_asn1::{BitStringRef, Checked, ContentsGrammar, Implicit, Optional, SequenceOf};
use der_c_core::{DerBits, DerSpan};
use x509::GeneralName;

// The contents octets of a value.
#[inline(always)]
pub(crate) fn span_of<'a, F: ContentsGrammar>(value: &Checked<'a, F>) -> DerSpan<'a>
    ensures { result.octets.now ≡ value.now.octets.now }
{
    DerSpan {
        octets: value.octets(),
    }
}

// The bits of a BIT STRING.
pub(crate) fn bits_of<'a>(value: &BitStringRef<'a>) -> DerBits<'a>
    ensures { IsBitsOf value.now.octets.now result }
{
    match value.octets() {
        [unused, octets @ ..] => DerBits {
            octets,
            unused: *unused,
        },
        [] => DerBits::EMPTY,
    }
}

// The contents octets of a value with an implicit tag, or no octets.
pub(crate) fn optional_span_of<'a, F: ContentsGrammar, const N: u32>(
    value: &Optional<Implicit<Checked<'a, F>, N>>,
) -> DerSpan<'a>
    ensures { IsOptionalSpanOf (λ v. v.0.octets.now) value.now.0 result }
{
    match &value.0 {
        Some(value) => span_of(&value.0),
        None => DerSpan::EMPTY,
    }
}

// The contents octets of a list of names with an implicit tag, or no octets.
pub(crate) fn optional_names_of<'a, const N: u32>(
    value: &Optional<Implicit<SequenceOf<'a, GeneralName<'a>>, N>>,
) -> DerSpan<'a>
    ensures { IsOptionalSpanOf (λ v. v.0.octets.now) value.now.0 result }
{
    match &value.0 {
        Some(value) => DerSpan {
            octets: value.0.octets(),
        },
        None => DerSpan::EMPTY,
    }
}
