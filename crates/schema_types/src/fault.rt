//! Faults of tables.
ghost use Rattle.std.specs.Prelude.{◌≡◌};

use crate::fault_kind::FaultKind;

/// Why octets are not a well-formed table of types, and where.
#[derive(Debug, Clone, Copy, PartialEq, Eq)]
pub struct Fault {
    /// What is wrong.
    pub kind: FaultKind,
    /// The offset of the number or the octet at fault, in octets from the start of the table. For
    /// [`FaultKind::TooShort`] and [`FaultKind::Size`] it is the number of octets given.
    pub offset: usize,
}

impl Fault {
    ghost use Rattle.schema_types.specs.Fault.{fault_at};

    pub(crate) fn new(kind: FaultKind, offset: usize) -> Self
        ensures { result ≡ fault_at kind offset }
    {
        Fault { kind, offset }
    }
}
