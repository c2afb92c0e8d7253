//! Faults of a header.
ghost use Rattle.std.specs.Prelude.{◌≡◌};

use crate::fault_kind::FaultKind;

/// Why octets do not begin with a header, and where.
#[derive(Debug, Clone, Copy, PartialEq, Eq)]
pub struct Fault {
    /// What is wrong.
    pub kind: FaultKind,
    /// The offset of the octet at fault, in octets from the start of the header. For
    /// [`FaultKind::Truncated`] it is the number of octets given.
    pub offset: usize,
}

impl Fault {
    ghost use Rattle.ber.specs.Fault.{fault_at, truncated_at};

    pub(crate) fn new(kind: FaultKind, offset: usize) -> Self
        ensures { result ≡ fault_at kind offset }
    {
        Fault { kind, offset }
    }

    pub(crate) fn truncated(offset: usize, needed: usize) -> Self
        ensures { result ≡ truncated_at offset needed }
    {
        Fault::new(FaultKind::Truncated { needed }, offset)
    }
}
