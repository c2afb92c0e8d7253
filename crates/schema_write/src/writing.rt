//! Rewrites values from BER to DER.
ghost use Rattle.std.specs.Prelude.{◌≡◌, ◌≢◌, ◌↔◌, ◌<◌, ◌⊎◌, true, None, IfOk, IfErr};
ghost use Rattle.der_base.specs.declared.encoding_rules.EncodingRules.{EncodingRules};
ghost use Rattle.der_base.specs.declared.encoding_rules.EncodingRules.TheVariants.{Der, Ber};
ghost use Rattle.schema_types.specs.Table.{table_in};
ghost use Rattle.schema_read.specs.Value.{IsValue};
ghost use Rattle.schema_read.specs.Verdict.{holds};
ghost use Rattle.schema_read.specs.Encoding.{IsBer, IsDer};
ghost use Rattle.schema_read.specs.Types.{types_in};
ghost use Rattle.schema_write.specs.Same.{IsCopy, IsSame};
ghost use Rattle.schema_write.specs.declared.refusal.Refusal.TheVariants.{NotBer, OutOfMemory};

use crate::piece::front;
use crate::refusal::Refusal;
use crate::value::value;
use crate::written::Written;
use schema_read::walking::LEVELS;
use schema_read::{Verdict, verdict_on};
use schema_types::Schema;
use std::alloc::Global;

/// Rewrites a value from BER to DER. `octets` are a BER encoding of a value of the node `node` of a
/// table. Octets that are DER already are copied. The caller must ensure that the table has a node
/// with the index `node`.
///
/// # Errors
///
/// - `NotBer`, if the octets are not a BER encoding of a value of the node.
///   [`read`](schema_read::read) lists why.
/// - `Unwritable`, if the value cannot be written in DER, as [`Refusal::Unwritable`] says.
/// - `OutOfMemory`, if there is not enough memory.
pub fn to_der(
    alloc: Global,
    schema: &Schema<'_>,
    node: u32,
    octets: &[u8],
) -> Result<Written, Refusal>
    requires { node < schema.now.counts.nodes }
    ensures read { IfOk result (λ _. IsBer (table_in schema.now.octets.now) node octets.now) }
    ensures written { IfOk result (λ w. IsBer (table_in schema.now.octets.now) node w.octets.items) }
    ensures der { IfOk result (λ w. (w.is_der ≡ true)
        ↔ IsDer (table_in schema.now.octets.now) node w.octets.items) }
    ensures same { IfOk result (λ w. IsCopy (table_in schema.now.octets.now) node octets.now w.octets.items
        ⊎ IsSame (types_in schema.now.octets.now) 64 None node octets.now w.octets.items) }
    ensures copied { IsDer (table_in schema.now.octets.now) node octets.now
        → IfOk result (λ w. w.octets.items ≡ octets.now) }
    ensures refused { IfErr result (λ e. e ≡ NotBer
        → IsBer (table_in schema.now.octets.now) node octets.now → ⊥) }
{
    match verdict_on(alloc, schema, node, octets) {
        Ok(verdict) => by_verdict(alloc, schema, node, octets, verdict),
        Err(_) => Err(Refusal::OutOfMemory),
    }
}

// Writes the value of a node, of which octets are an encoding by this verdict.
fn by_verdict(
    alloc: Global,
    schema: &Schema<'_>,
    node: u32,
    octets: &[u8],
    verdict: Verdict,
) -> Result<Written, Refusal>
    requires there { node < schema.now.counts.nodes }
    requires verdict { (rules : EncodingRules) → (holds rules verdict ≡ true)
        ↔ IsValue (types_in schema.now.octets.now) 64 rules None node octets.now }
    ensures read { IfOk result (λ _. IsBer (table_in schema.now.octets.now) node octets.now) }
    ensures written { IfOk result (λ w. IsBer (table_in schema.now.octets.now) node w.octets.items) }
    ensures der { IfOk result (λ w. (w.is_der ≡ true)
        ↔ IsDer (table_in schema.now.octets.now) node w.octets.items) }
    ensures same { IfOk result (λ w. IsCopy (table_in schema.now.octets.now) node octets.now w.octets.items
        ⊎ IsSame (types_in schema.now.octets.now) 64 None node octets.now w.octets.items) }
    ensures copied { IsDer (table_in schema.now.octets.now) node octets.now
        → IfOk result (λ w. w.octets.items ≡ octets.now) }
    ensures refused { IfErr result (λ e. e ≡ NotBer
        → IsBer (table_in schema.now.octets.now) node octets.now → ⊥) }
{
    match verdict {
        Verdict::Der => copied(alloc, octets),
        Verdict::Ber => converted(alloc, schema, node, octets),
        Verdict::Neither => Err(Refusal::NotBer),
    }
}

// Octets that are DER.
fn copied(alloc: Global, octets: &[u8]) -> Result<Written, Refusal>
    ensures copy { IfOk result (λ w. (w.octets.items ≡ octets.now) × (w.is_der ≡ true)) }
    ensures error { IfErr result (λ e. e ≡ OutOfMemory) }
{
    match octets.to_vec(alloc) {
        Ok(octets) => Ok(Written {
            octets,
            is_der: true,
        }),
        Err(_) => Err(Refusal::OutOfMemory),
    }
}

// Writes the value of a node in DER, and judges what was written.
fn converted(
    alloc: Global,
    schema: &Schema<'_>,
    node: u32,
    octets: &[u8],
) -> Result<Written, Refusal>
    requires { node < schema.now.counts.nodes }
    ensures written { IfOk result (λ w. IsBer (table_in schema.now.octets.now) node w.octets.items) }
    ensures der { IfOk result (λ w. (w.is_der ≡ true)
        ↔ IsDer (table_in schema.now.octets.now) node w.octets.items) }
    ensures same { IfOk result (λ w. IsSame (types_in schema.now.octets.now) 64 None node octets.now
        w.octets.items) }
    ensures error { IfErr result (λ e. e ≢ NotBer) }
{
    match whole(alloc, schema, node, octets) {
        Ok(written) => judged(alloc, schema, node, written),
        Err(Refusal::OutOfMemory) => Err(Refusal::OutOfMemory),
        Err(_) => Err(Refusal::Unwritable),
    }
}

// Writes the value of a node, of which all octets are an encoding.
fn whole(alloc: Global, schema: &Schema<'_>, node: u32, octets: &[u8]) -> Result<Vec<u8>, Refusal>
    requires { node < schema.now.counts.nodes }
    ensures { IfOk result (λ w. IsSame (types_in schema.now.octets.now) 64 None node octets.now w.items) }
{
    let piece = front(octets, LEVELS)?;
    if !piece.rest.is_empty() {
        return Err(Refusal::NotBer);
    }
    value(alloc, schema, LEVELS, None, node, piece)
}

// Judges what was written.
fn judged(
    alloc: Global,
    schema: &Schema<'_>,
    node: u32,
    written: Vec<u8>,
) -> Result<Written, Refusal>
    requires { node < schema.now.counts.nodes }
    ensures octets { IfOk result (λ w. w.octets.items ≡ written.items) }
    ensures written { IfOk result (λ w. IsBer (table_in schema.now.octets.now) node w.octets.items) }
    ensures der { IfOk result (λ w. (w.is_der ≡ true)
        ↔ IsDer (table_in schema.now.octets.now) node w.octets.items) }
    ensures error { IfErr result (λ e. e ≢ NotBer) }
{
    match verdict_on(alloc, schema, node, written.as_slice()) {
        Ok(verdict) => with_verdict(written, verdict),
        Err(_) => Err(Refusal::OutOfMemory),
    }
}

// What was written, by this verdict.
fn with_verdict(written: Vec<u8>, verdict: Verdict) -> Result<Written, Refusal>
    ensures ok { IfOk result (λ w. (w.octets.items ≡ written.items) × (holds Ber verdict ≡ true)
        × (w.is_der ≡ holds Der verdict)) }
    ensures error { IfErr result (λ e. e ≢ NotBer) }
{
    if !verdict.is_ber() {
        return Err(Refusal::Unwritable);
    }
    Ok(Written {
        octets: written,
        is_der: verdict.is_der(),
    })
}
