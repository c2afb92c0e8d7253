//! Limits.
ghost use Rattle.std.specs.Prelude.{◌≡◌, ◌+◌, ◌≤◌, length, IfOk, IfErr};
ghost use Rattle.schema_types.specs.Limit.{limit_at, IsLimitRow, IsLimitFault};

use crate::fault::Fault;
use crate::fault_kind::FaultKind;
use crate::limit_kind::LimitKind;
use crate::numbers::{number_at, signed_at};

/// A range of numbers in a constraint on the values of a type. A node may have several limits of
/// one kind. A value then need only be within one of them.
#[derive(Debug, Clone, Copy, PartialEq, Eq)]
pub struct Limit {
    /// What the range limits: a value, a size, or the characters of a string.
    pub kind: LimitKind,
    /// The lowest number allowed; -9223372036854775808 for MIN.
    pub low: i64,
    /// The highest number allowed. 9223372036854775807 stands for MAX and for each number above it.
    pub high: i64,
}

impl Limit {
    ghost use Rattle.std.specs.Prelude.{◌↔◌, IsTrue};
    ghost use Rattle.schema_types.specs.Allowed.{IsBetween};

    // The limit in the 20 octets from `at` on.
    #[inline(always)]
    pub(crate) fn read(octets: &[u8], at: usize) -> Self
        requires { at + 20 ≤ length octets.now }
        ensures { result ≡ limit_at octets.now at }
    {
        Limit {
            kind: LimitKind::from_number(number_at(octets, at)).unwrap_or(LimitKind::Value),
            low: signed_at(octets, at + 4),
            high: signed_at(octets, at + 12),
        }
    }

    // Whether the 20 octets from `at` on are a limit.
    pub(crate) fn check(octets: &[u8], at: usize) -> Result<(), Fault>
        requires { at + 20 ≤ length octets.now }
        ensures ok { IfOk result (λ _. IsLimitRow octets.now at) }
        ensures fault { IfErr result (λ f. IsLimitFault octets.now at f) }
    {
        match LimitKind::from_number(number_at(octets, at)) {
            Some(_) => Ok(()),
            None => Err(Fault::new(FaultKind::Limit, at)),
        }
    }

    // Whether it is of a kind.
    #[inline(always)]
    pub(crate) fn is_of(self, kind: LimitKind) -> bool
        ensures { IsTrue result ↔ (self.kind ≡ kind) }
    {
        self.kind == kind
    }

    // Whether a number is between the lowest and the highest.
    #[inline(always)]
    pub(crate) fn allows(self, number: i64) -> bool
        ensures { IsTrue result ↔ IsBetween self number }
    {
        self.low <= number && number <= self.high
    }
}
