//! The struct for an algorithm with its parameters.
ghost use Rattle.der_c_x509.specs.Fields.{IsAlgorithmOf};

use crate::any::{DerAny, optional_any_of};
use crate::strings::span_of;
use der_c_core::DerSpan;
use spki::AlgorithmIdentifierRef;

/// An AlgorithmIdentifier (RFC 5280, 4.1.1.2): an algorithm with its parameters.
#[repr(C)]
#[derive(Clone, Copy)]
pub struct DerAlgorithm<'a> {
    /// The contents octets of the algorithm's OBJECT IDENTIFIER.
    pub identifier: DerSpan<'a>,
    /// The parameters of the algorithm. If they are absent, the tag is 0.
    pub parameters: DerAny<'a>,
}

impl DerAlgorithm<'_> {
    /// The value of an algorithm before it is read: it has no octets, and the parameters are
    /// absent.
    pub const EMPTY: DerAlgorithm<'static> = DerAlgorithm {
        identifier: DerSpan::EMPTY,
        parameters: DerAny::EMPTY,
    };
}

// An algorithm as a struct of C.
pub(crate) fn algorithm_of<'a>(value: &AlgorithmIdentifierRef<'a>) -> DerAlgorithm<'a>
    ensures { IsAlgorithmOf value.now result }
{
    DerAlgorithm {
        identifier: span_of(&value.oid),
        parameters: optional_any_of(&value.parameters.0),
    }
}
