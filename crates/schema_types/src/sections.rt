//! Checks of the rows of each section.
ghost use Rattle.std.specs.Prelude.{◌≡◌, ◌≤◌, length, IfOk, IfErr};
ghost use Rattle.schema_types.specs.Counts.{nodes_at, fields_at, limits_at, names_at, opens_at, pool_at};
ghost use Rattle.schema_types.specs.Node.{IsNodeRow};
ghost use Rattle.schema_types.specs.Field.{IsFieldRow};
ghost use Rattle.schema_types.specs.Limit.{IsLimitRow};
ghost use Rattle.schema_types.specs.Name.{IsNameRow};
ghost use Rattle.schema_types.specs.OpenType.{IsOpenTypeRow};
ghost use Rattle.schema_types.specs.Pool.{pool_in};
ghost use Rattle.schema_types.specs.Table.{EachRow, AreRows, AreAscending};
ghost use Rattle.schema_types.specs.Schema.{IsRowFault};

use crate::counts::Counts;
use crate::fault::Fault;
use crate::field::Field;
use crate::limit::Limit;
use crate::name::Name;
use crate::node::Node;
use crate::open_type::OpenType;
use crate::order::check_order;

// Whether each row is well-formed.
pub(crate) fn check_rows(octets: &[u8], counts: Counts, pool: &[u8]) -> Result<(), Fault>
    requires room { pool_at counts ≤ length octets.now }
    requires pooled { pool.now ≡ pool_in counts octets.now }
    ensures ok { IfOk result (λ _. AreRows counts octets.now) }
    ensures ascending { IfOk result (λ _. AreAscending counts octets.now) }
    ensures fault { IfErr result (λ f. IsRowFault counts octets.now f) }
{
    check_nodes(octets, counts, pool)?;
    check_fields(octets, counts, pool)?;
    check_limits(octets, counts)?;
    check_names(octets, counts, pool)?;
    check_open_types(octets, counts, pool)?;
    check_order(octets, counts, pool)?;
    Ok(())
}

fn check_nodes(octets: &[u8], counts: Counts, pool: &[u8]) -> Result<(), Fault>
    requires room { pool_at counts ≤ length octets.now }
    requires pooled { pool.now ≡ pool_in counts octets.now }
    ensures ok { IfOk result
        (λ _. EachRow (IsNodeRow counts pool.now octets.now) 40 nodes_at counts.nodes) }
    ensures fault { IfErr result (λ f. IsRowFault counts octets.now f) }
{
    for i in 0..counts.nodes as usize {
        Node::check(octets, 32 + 40 * i, counts, pool)?;
    }
    Ok(())
}

fn check_fields(octets: &[u8], counts: Counts, pool: &[u8]) -> Result<(), Fault>
    requires room { pool_at counts ≤ length octets.now }
    requires pooled { pool.now ≡ pool_in counts octets.now }
    ensures ok { IfOk result
        (λ _. EachRow (IsFieldRow counts pool.now octets.now) 28 (fields_at counts) counts.fields) }
    ensures fault { IfErr result (λ f. IsRowFault counts octets.now f) }
{
    let start = counts.fields_at();
    for i in 0..counts.fields as usize {
        Field::check(octets, start + 28 * i, counts, pool)?;
    }
    Ok(())
}

fn check_limits(octets: &[u8], counts: Counts) -> Result<(), Fault>
    requires { pool_at counts ≤ length octets.now }
    ensures ok { IfOk result
        (λ _. EachRow (IsLimitRow octets.now) 20 (limits_at counts) counts.limits) }
    ensures fault { IfErr result (λ f. IsRowFault counts octets.now f) }
{
    let start = counts.limits_at();
    for i in 0..counts.limits as usize {
        Limit::check(octets, start + 20 * i)?;
    }
    Ok(())
}

fn check_names(octets: &[u8], counts: Counts, pool: &[u8]) -> Result<(), Fault>
    requires room { pool_at counts ≤ length octets.now }
    requires pooled { pool.now ≡ pool_in counts octets.now }
    ensures ok { IfOk result
        (λ _. EachRow (IsNameRow pool.now octets.now) 16 (names_at counts) counts.names) }
    ensures fault { IfErr result (λ f. IsRowFault counts octets.now f) }
{
    let start = counts.names_at();
    for i in 0..counts.names as usize {
        Name::check(octets, start + 16 * i, pool)?;
    }
    Ok(())
}

fn check_open_types(octets: &[u8], counts: Counts, pool: &[u8]) -> Result<(), Fault>
    requires room { pool_at counts ≤ length octets.now }
    requires pooled { pool.now ≡ pool_in counts octets.now }
    ensures ok { IfOk result
        (λ _. EachRow (IsOpenTypeRow counts pool.now octets.now) 12 (opens_at counts) counts.opens) }
    ensures fault { IfErr result (λ f. IsRowFault counts octets.now f) }
{
    let start = counts.opens_at();
    for i in 0..counts.opens as usize {
        OpenType::check(octets, start + 12 * i, counts, pool)?;
    }
    Ok(())
}
