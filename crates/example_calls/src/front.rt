//! An example that reads the header at the front of octets.
ghost use Rattle.std.specs.Prelude.{◌≡◌, ℕ, drop, IfOk};
ghost use Rattle.der.specs.Prelude.{HeadNext, Der, head_of};

use der::{DecodeBytes, Error, Header};
use std::alloc::Global;

/// Reads the header at the front of `octets`. Returns the header, and all octets after it.
pub fn first_header(alloc: Global, octets: &[u8]) -> Result<(Header, &[u8]), Error>
    ensures { IfOk result (λ p. (m : ℕ) × HeadNext (head_of p.0) Der octets.now m
        × (p.1.now ≡ drop m octets.now)) }
{
    Header::from_der_partial(alloc, octets)
}
