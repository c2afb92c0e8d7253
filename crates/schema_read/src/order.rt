//! The order of a SET OF.
ghost use Rattle.std.specs.Prelude.{◌≡◌, ◌↔◌, true};
ghost use Rattle.der_base.specs.declared.encoding_rules.EncodingRules.{EncodingRules};
ghost use Rattle.schema_read.specs.Verdict.{holds};
ghost use Rattle.schema_read.specs.Rule.{verdict_of_option};
ghost use Rattle.schema_read.specs.Items.{not_after, IsInOrder};

use crate::rule::Rule;

/// Checks the order of two items of a SET OF. `octets` is the encoding of an item, and `before` is
/// the encoding of the item directly before it. Returns [`Rule::SetOrder`] if DER requires another
/// order. `None` if the order is right, or if the list need not be sorted (if `sorted` is false).
pub(crate) fn order_rule(sorted: bool, before: &[u8], octets: &[u8]) -> Option<Rule>
    ensures { (rules : EncodingRules) → (holds rules (verdict_of_option result) ≡ true)
        ↔ IsInOrder rules sorted before.now octets.now }
{
    if !sorted {
        return None;
    }
    if is_not_after(before, octets) {
        return None;
    }
    Some(Rule::SetOrder)
}

/// Whether `a` is less than or equal to `b` in the order of DER (X.690 11.6). The octets are
/// compared one by one. The shorter one of `a` and `b` is padded at its end with octets 0.
fn is_not_after(a: &[u8], b: &[u8]) -> bool
    ensures { result ≡ not_after a.now b.now }
{
    for (i, x) in a.iter().enumerate() {
        let other = if i < b.len() { b[i] } else { 0 };
        if *x != other {
            return *x < other;
        }
    }
    true
}
