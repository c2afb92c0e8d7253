//! The struct for what `der_tree_read` finds.
ghost use Rattle.std.specs.Prelude.{◌≡◌, ◌↔◌, ◌≤◌, true};
ghost use Rattle.der_base.specs.declared.encoding_rules.EncodingRules.TheVariants.{Der, Ber};
ghost use Rattle.schema_read.specs.Verdict.{holds};

use schema_read::Verdict;

/// What `der_tree_read` found, apart from the elements themselves. A departure is a place at which
/// the octets break a rule of DER.
#[repr(C)]
#[derive(Clone, Copy)]
pub struct DerTreeFound {
    /// The number of elements of the tree.
    pub entries: usize,
    /// The number of departures in the list of departures. It is at most 1000.
    pub departures: usize,
    /// The number of departures that the list has no room for.
    pub lost: usize,
    /// The number of octets of the list of departures in JSON. It is `SIZE_MAX` if the list did not
    /// fit.
    pub listed: usize,
    /// What the octets are:
    ///
    /// - 0: a DER encoding of a value of the type;
    /// - 1: a BER encoding of a value of the type, but not a DER encoding;
    /// - 2: neither.
    pub verdict: u32,
}

impl DerTreeFound {
    /// The value before a read: no element, no departure, and 2 as the verdict.
    pub const EMPTY: DerTreeFound = DerTreeFound {
        entries: 0,
        departures: 0,
        lost: 0,
        listed: 0,
        verdict: 2,
    };
}

/// The number that C gets for `verdict`: 0 for DER, 1 for BER that is not DER, and 2 for neither.
pub(crate) fn number_of(verdict: Verdict) -> u32
    ensures der { (result ≡ 0) ↔ (holds Der verdict ≡ true) }
    ensures ber { (result ≤ 1) ↔ (holds Ber verdict ≡ true) }
{
    match verdict {
        Verdict::Der => 0,
        Verdict::Ber => 1,
        Verdict::Neither => 2,
    }
}
