//! The order of the components of a SET.
ghost use Rattle.std.specs.Prelude.{◌≡◌, ◌↔◌, true, IsTrue};
ghost use Rattle.der_base.specs.Class.{class_number};
ghost use Rattle.der_base.specs.declared.encoding_rules.EncodingRules.{EncodingRules};
ghost use Rattle.schema_read.specs.Members.{IsTagBefore, IsTagAfter};
ghost use Rattle.schema_read.specs.Rule.{verdict_of_option};
ghost use Rattle.schema_read.specs.Verdict.{holds};

use crate::rule::Rule;
use ber::{Header, read_header};
use der_base::Class;

/// Checks the order of two components of a SET. `octets` is the encoding of a component, and
/// `before` is the encoding of the component directly before it. Returns [`Rule::ComponentOrder`]
/// if DER requires another order.
pub(crate) fn tag_order_rule(before: &[u8], octets: &[u8]) -> Option<Rule>
    ensures { (rules : EncodingRules) → (holds rules (verdict_of_option result) ≡ true)
        ↔ IsTagAfter rules before.now octets.now }
{
    match read_header(before) {
        Ok(first) => match read_header(octets) {
            Ok(second) => {
                if is_tag_before(first, second) {
                    None
                } else {
                    Some(Rule::ComponentOrder)
                }
            }
            Err(_) => None,
        },
        Err(_) => None,
    }
}

fn is_tag_before(first: Header, second: Header) -> bool
    ensures { IsTrue result ↔ IsTagBefore first second }
{
    let a = number_of(first.class);
    let b = number_of(second.class);
    a < b || a == b && first.number < second.number
}

fn number_of(class: Class) -> u8
    ensures { result ≡ class_number class }
{
    match class {
        Class::Universal => 0,
        Class::Application => 1,
        Class::ContextSpecific => 2,
        Class::Private => 3,
    }
}
