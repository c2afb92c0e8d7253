//! Finds the first rule that contents octets break.
ghost use Rattle.std.specs.Prelude.{◌↔◌, IsTrue, IfSome, IfNone};
ghost use Rattle.der_base.specs.declared.encoding_rules.EncodingRules.{EncodingRules};
ghost use Rattle.schema_rules.specs.Contents.{IsContents, IsNamedBits, Breaks, BreaksNamedBits};
ghost use Rattle.schema_rules.specs.Contents.{KeepsAll, BreaksFirst};
ghost use Rattle.schema_rules.specs.Rules.{allows};

use crate::contents_rule::ContentsRule;
use crate::rules::{named_bits_rules, rules_of};
use ber::Universal;

/// Returns the first rule that the contents octets of a primitive encoding break. `None` means that
/// they are DER. Rules of the Basic Encoding Rules are checked before the rules that only DER has.
/// So the contents are BER if [`ContentsRule::is_ber`] is true for the returned rule.
pub fn broken_rule(universal: Universal, contents: &[u8]) -> Option<ContentsRule>
    ensures allowed { (rules : EncodingRules)
        → IsTrue (allows rules result) ↔ IsContents rules universal contents.now }
    ensures found { IfSome result (λ r. Breaks r universal contents.now) }
{
    first_broken(rules_of(universal), contents)
}

/// Returns the first rule that the contents octets of a BIT STRING with named bits break. The rules
/// are those of [`broken_rule`] for a BIT STRING, and one more that only DER has: there must be no
/// trailing zero bits.
pub fn named_bits_rule(contents: &[u8]) -> Option<ContentsRule>
    ensures allowed { (rules : EncodingRules)
        → IsTrue (allows rules result) ↔ IsNamedBits rules contents.now }
    ensures found { IfSome result (λ r. BreaksNamedBits r contents.now) }
{
    first_broken(named_bits_rules(), contents)
}

// The first of these rules that contents break.
fn first_broken(rules: &[ContentsRule], contents: &[u8]) -> Option<ContentsRule>
    ensures none { IfNone result (KeepsAll rules.now contents.now) }
    ensures found { IfSome result (λ r. BreaksFirst rules.now r contents.now) }
{
    for rule in rules {
        if !rule.is_kept(contents) {
            return Some(*rule);
        }
    }
    None
}
