//! Types that open types may be.
ghost use Rattle.std.specs.Prelude.{◌≡◌, ◌+◌, ◌≤◌, length, IfOk, IfErr};
ghost use Rattle.schema_types.specs.OpenType.{open_type_at, IsOpenTypeRow, IsOpenTypeFault};

use crate::counts::Counts;
use crate::fault::Fault;
use crate::fault_kind::FaultKind;
use crate::numbers::number_at;
use crate::span::Span;

/// A type that an open type may be, with the OBJECT IDENTIFIER that chooses it.
#[derive(Debug, Clone, Copy, PartialEq, Eq)]
pub struct OpenType {
    /// The contents octets of the OBJECT IDENTIFIER (X.690 8.19), as a range of the pool.
    pub identifier: Span,
    /// The index of the node that is the type.
    pub node: u32,
}

impl OpenType {
    // The type in the 12 octets from `at` on.
    #[inline(always)]
    pub(crate) fn read(octets: &[u8], at: usize) -> Self
        requires { at + 12 ≤ length octets.now }
        ensures { result ≡ open_type_at octets.now at }
    {
        OpenType {
            identifier: Span::read(octets, at),
            node: number_at(octets, at + 8),
        }
    }

    // Whether the 12 octets from `at` on are such a type.
    pub(crate) fn check(octets: &[u8], at: usize, counts: Counts, pool: &[u8]) -> Result<(), Fault>
        requires { at + 12 ≤ length octets.now }
        ensures ok { IfOk result (λ _. IsOpenTypeRow counts pool.now octets.now at) }
        ensures fault { IfErr result (λ f. IsOpenTypeFault counts pool.now octets.now at f) }
    {
        if !Span::read(octets, at).is_within(pool.len()) {
            return Err(Fault::new(FaultKind::Identifier, at));
        }
        if number_at(octets, at + 8) >= counts.nodes {
            return Err(Fault::new(FaultKind::Node, at + 8));
        }
        Ok(())
    }
}
