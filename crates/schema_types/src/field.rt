//! Fields.
ghost use Rattle.std.specs.Prelude.{◌≡◌, ◌+◌, ◌≤◌, length, IfOk, IfErr};
ghost use Rattle.schema_types.specs.Field.{field_at, IsFieldRow, IsFieldFault};

use crate::counts::Counts;
use crate::fault::Fault;
use crate::fault_kind::FaultKind;
use crate::numbers::number_at;
use crate::pool::is_text;
use crate::presence::Presence;
use crate::span::Span;

/// A component of a SEQUENCE or a SET, or an alternative of a CHOICE.
#[derive(Debug, Clone, Copy, PartialEq, Eq)]
pub struct Field {
    /// Whether the component may be absent.
    pub presence: Presence,
    /// 0 if the component is in the extension root. Otherwise the number, counted from 1, of the
    /// extension addition to which it belongs (X.680 25.1).
    pub addition: u32,
    /// The octets of the name, as a range of the pool.
    pub name: Span,
    /// The index of the node that is the type of the component.
    pub node: u32,
    /// The DER encoding of the DEFAULT value, as a range of octets of the pool.
    pub default: Span,
}

impl Field {
    // The field in the 28 octets from `at` on.
    #[inline(always)]
    pub(crate) fn read(octets: &[u8], at: usize) -> Self
        requires { at + 28 ≤ length octets.now }
        ensures { result ≡ field_at octets.now at }
    {
        Field {
            presence: Presence::from_number(number_at(octets, at)).unwrap_or(Presence::Required),
            addition: number_at(octets, at + 4),
            name: Span::read(octets, at + 8),
            node: number_at(octets, at + 16),
            default: Span::read(octets, at + 20),
        }
    }

    // Whether the 28 octets from `at` on are a field.
    pub(crate) fn check(octets: &[u8], at: usize, counts: Counts, pool: &[u8]) -> Result<(), Fault>
        requires { at + 28 ≤ length octets.now }
        ensures ok { IfOk result (λ _. IsFieldRow counts pool.now octets.now at) }
        ensures fault { IfErr result (λ f. IsFieldFault counts pool.now octets.now at f) }
    {
        if Presence::from_number(number_at(octets, at)).is_none() {
            return Err(Fault::new(FaultKind::Presence, at));
        }
        let field = Field::read(octets, at);
        if !is_text(pool, field.name) {
            return Err(Fault::new(FaultKind::Name, at + 8));
        }
        if field.node >= counts.nodes {
            return Err(Fault::new(FaultKind::Node, at + 16));
        }
        if !field
            .default
            .is_within(field.presence.default_room(pool.len()))
        {
            return Err(Fault::new(FaultKind::Default, at + 20));
        }
        Ok(())
    }
}
