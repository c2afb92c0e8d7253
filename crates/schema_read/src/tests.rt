//! Checks of DEFAULT values and of the form of encodings.
ghost use Rattle.std.specs.Prelude.{◌≡◌, ◌↔◌, true, IsTrue};
ghost use Rattle.der_base.specs.declared.encoding_rules.EncodingRules.{EncodingRules};
ghost use Rattle.schema_read.specs.Types.{types_in};
ghost use Rattle.schema_types.specs.Field.{IsField};
ghost use Rattle.schema_types.specs.Distinct.{may_be_missing};
ghost use Rattle.schema_types.specs.declared.node_kind.NodeKind.TheVariants.{Universal as Universally};
ghost use Rattle.ber.specs.declared.universal.Universal.TheVariants.{Sequence};
ghost use Rattle.schema_read.specs.Verdict.{holds};
ghost use Rattle.schema_read.specs.Rule.{verdict_of_option};
ghost use Rattle.schema_rules.specs.Contents.{IsContents};
ghost use Rattle.schema_read.specs.Components.{IsNoDefault};
ghost use Rattle.schema_read.specs.Value.{MayBeConstructed, IsPrimitive};

use crate::rule::Rule;
use crate::types::default_of;
use ber::{Form, Universal};
use schema_rules::broken_rule;
use schema_types::{Field, Presence, Schema};

/// Returns [`Rule::DefaultEncoded`] if `octets` are the encoding of the DEFAULT value of the field.
pub(crate) fn default_rule(schema: &Schema<'_>, field: Field, octets: &[u8]) -> Option<Rule>
    requires { IsField schema.now.counts schema.now.pool.now field }
    ensures { (rules : EncodingRules) → (holds rules (verdict_of_option result) ≡ true)
        ↔ IsNoDefault rules (types_in schema.now.octets.now) field octets.now }
{
    match field.presence {
        Presence::Default => {
            if is_same(octets, default_of(schema, field)) {
                Some(Rule::DefaultEncoded)
            } else {
                None
            }
        }
        _ => None,
    }
}

fn is_same(a: &[u8], b: &[u8]) -> bool
    ensures { IsTrue result ↔ (a.now ≡ b.now) }
{
    a == b
}

/// Returns [`Rule::Form`] if encodings of this universal type must not be constructed.
pub(crate) fn form_rule(universal: Option<Universal>) -> Option<Rule>
    ensures { (rules : EncodingRules) → (holds rules (verdict_of_option result) ≡ true)
        ↔ MayBeConstructed universal }
{
    match universal {
        Some(universal) => match universal.form() {
            Form::Constructed => None,
            _ => Some(Rule::Form),
        },
        None => None,
    }
}

/// Returns the rule that the contents octets of a primitive encoding of this universal type break.
/// It is [`Rule::Form`] if encodings of the type must be constructed. `None` if no rule is broken.
pub(crate) fn primitive_rule(universal: Option<Universal>, contents: &[u8]) -> Option<Rule>
    ensures { (rules : EncodingRules) → (holds rules (verdict_of_option result) ≡ true)
        ↔ IsPrimitive rules universal contents.now }
{
    match universal {
        Some(universal) => {
            if universal.form().allows(false) {
                contents_rule(universal, contents)
            } else {
                Some(Rule::Form)
            }
        }
        None => None,
    }
}

/// Whether a component of a SEQUENCE may be absent. It may be absent if it is OPTIONAL, has a
/// DEFAULT, or is an extension addition.
pub(crate) fn may_be_absent(field: Field) -> bool
    ensures { result ≡ may_be_missing (Universally Sequence) field }
{
    match field.presence {
        Presence::Required => field.addition != 0,
        _ => true,
    }
}

/// Returns the rule that the contents octets of a primitive encoding of this universal type break.
/// `None` if no rule is broken.
pub(crate) fn contents_rule(universal: Universal, contents: &[u8]) -> Option<Rule>
    ensures { (rules : EncodingRules) → (holds rules (verdict_of_option result) ≡ true)
        ↔ IsContents rules universal contents.now }
{
    match broken_rule(universal, contents) {
        Some(rule) => Some(Rule::Contents(rule)),
        None => None,
    }
}
