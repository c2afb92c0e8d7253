//! Strings in the constructed form, and the constraints of their types.
ghost use Rattle.std.specs.Prelude.{◌≡◌, ◌+◌, ◌≤◌, length, IfOk, OnOk};
ghost use Rattle.schema_types.specs.Node.{IsNode as IsRow};
ghost use Rattle.schema_types.specs.Span.{IsWithin as IsRange};
ghost use Rattle.schema_read.specs.Constraints.{bound_of};
ghost use Rattle.schema_read.specs.declared.bound.Bound.TheVariants.{Items};
ghost use Rattle.schema_read.specs.Types.{types_in};
ghost use Rattle.schema_read.specs.Value.{IsJoinedText, is_joined, is_string};
ghost use Rattle.schema_read.specs.Reading.{Body, Finds, Logs};

use crate::constraints::constraint_rule;
use crate::full::Full;
use crate::notes::Notes;
use crate::opened::Opened;
use crate::outcome::Outcome;
use crate::role::LEVELS;
use crate::strings::joined;
use crate::tests::contents_rule;
use ber::{Form, Universal};
use schema_types::{Node, Schema};

/// Whether an encoding is a string in the constructed form: the encoding is constructed, and its
/// universal type is a string type.
pub fn is_joined(constructed: bool, universal: Universal) -> bool
    ensures { result ≡ is_joined constructed universal }
{
    constructed && is_string(universal.form())
}

fn is_string(form: Form) -> bool
    ensures { result ≡ is_string form }
{
    match form {
        Form::Either => true,
        Form::Primitive => false,
        Form::Constructed => false,
    }
}

/// Reads a string in the constructed form, and checks the rules and the constraints of its type.
pub(crate) fn joined_text<'a>(
    notes: &mut Notes<'_>,
    room: &mut [u8],
    schema: &Schema<'_>,
    node: Node,
    universal: Universal,
    at: usize,
    opened: Opened<'a>,
) -> Result<Outcome<'a>, Full>
    requires fits { IsRow schema.now.counts schema.now.pool.now node }
    requires names { bound_of universal ≡ Items → IsRange node.parts schema.now.counts.names }
    requires inside { opened.inside.end ≤ notes.old.end }
    ensures finds { IfOk result (λ o. Finds (λ rules. Body opened.entry.marked opened.entry.beyond.now
        (IsJoinedText rules (types_in schema.now.octets.now) node universal)
        opened.entry.inside.octets.now) o.verdict o.rest.now) }
    ensures shorter { IfOk result (λ o. length o.rest.now
        ≤ length opened.entry.inside.octets.now + length opened.entry.beyond.now) }
    ensures log { IfOk result (λ o. Logs o.verdict notes.old notes.new) }
    ensures end { OnOk result (notes.new.end ≡ notes.old.end) }
{
    let read = joined(notes, room, LEVELS, universal, at, opened)?;
    let text = read.text.as_slice();
    let whole = notes.judge(contents_rule(universal, text), opened.start, at)?;
    let rule = constraint_rule(schema, node, universal, text);
    let kept = notes.judge(rule, opened.start, at)?;
    Ok(Outcome {
        verdict: read.verdict.and(whole.and(kept)),
        rest: read.rest,
    })
}
