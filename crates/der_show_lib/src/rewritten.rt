//! Rewrites values from BER to DER.

use schema_types::Schema;
use schema_write::{Refusal, Written, to_der};
use std::alloc::Global;

/// Returns the DER encoding of a value. `octets` are a BER encoding of the value. `node` is the
/// index of its type in `schema`. Fails if there is no such type, if `octets` are not a BER
/// encoding of a value of this type, or if the value cannot be written in DER.
pub fn rewritten(
    alloc: Global,
    schema: &Schema<'_>,
    node: u32,
    octets: &[u8],
) -> Result<Written, Refusal> {
    if node >= schema.counts().nodes {
        return Err(Refusal::NotBer);
    }
    to_der(alloc, schema, node, octets)
}
