//! Names of numbers and of bits.
ghost use Rattle.std.specs.Prelude.{◌≡◌, ◌+◌, ◌≤◌, length, IfOk, IfErr};
ghost use Rattle.schema_types.specs.Name.{name_at, IsNameRow, IsNameFault};

use crate::fault::Fault;
use crate::fault_kind::FaultKind;
use crate::numbers::signed_at;
use crate::pool::is_text;
use crate::span::Span;

/// A name of a number of an INTEGER, of an item of an ENUMERATED or of a bit of a BIT STRING, with
/// the number that it stands for.
#[derive(Debug, Clone, Copy, PartialEq, Eq)]
pub struct Name {
    /// The number of an INTEGER or an ENUMERATED, or the index of the bit, from 0.
    pub number: i64,
    /// The octets of the name, as a range of the pool.
    pub name: Span,
}

impl Name {
    // The name in the 16 octets from `at` on.
    #[inline(always)]
    pub(crate) fn read(octets: &[u8], at: usize) -> Self
        requires { at + 16 ≤ length octets.now }
        ensures { result ≡ name_at octets.now at }
    {
        Name {
            number: signed_at(octets, at),
            name: Span::read(octets, at + 8),
        }
    }

    // Whether the 16 octets from `at` on are a name.
    pub(crate) fn check(octets: &[u8], at: usize, pool: &[u8]) -> Result<(), Fault>
        requires { at + 16 ≤ length octets.now }
        ensures ok { IfOk result (λ _. IsNameRow pool.now octets.now at) }
        ensures fault { IfErr result (λ f. IsNameFault pool.now octets.now at f) }
    {
        if !is_text(pool, Span::read(octets, at + 8)) {
            return Err(Fault::new(FaultKind::Name, at + 8));
        }
        Ok(())
    }
}
