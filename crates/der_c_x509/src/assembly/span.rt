//! Making spans of octets.
ghost use Rattle.std.specs.Prelude.{◌≡◌};

use der_c_core::DerSpan;

/// Returns `octets` as a [`DerSpan`], which is a pointer and a length in C.
#[inline(always)]
pub(crate) fn span(octets: &[u8]) -> DerSpan<'_>
    ensures { result.octets.now ≡ octets.now }
{
    DerSpan { octets }
}
