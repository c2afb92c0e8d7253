//! An OCTET STRING with an IMPLICIT tag as a field.
ghost use Rattle.der_asn1.specs.Meaning.{choice_of};
ghost use Rattle.der_segments.specs.ImplicitSegmented.{implicit_segmented};

use crate::implicit_segmented::ImplicitSegmented;
use der_asn1::DescribedChoice;

impl<'a, const N: u32> DescribedChoice for ImplicitSegmented<'a, N> {
    ghost alternative = { choice_of (implicit_segmented N) (λ v. v.0) };
}
