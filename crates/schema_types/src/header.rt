//! Headers of tables.
ghost use Rattle.std.specs.Prelude.{◌≡◌, IfOk, IfErr};
ghost use Rattle.schema_types.specs.Counts.{counts_in};
ghost use Rattle.schema_types.specs.Schema.{IsHeader, IsHeaderFault};

use crate::counts::Counts;
use crate::fault::Fault;
use crate::fault_kind::FaultKind;
use crate::numbers::number_at;

// The number of the first four octets, `YSCH`.
const MAGIC: u32 = 0x59534348;

// The number of the next four octets.
const VERSION: u32 = 1;

// The counts in the header, if the octets are as many as they ask for.
pub(crate) fn read_header(octets: &[u8]) -> Result<Counts, Fault>
    ensures ok { IfOk result (λ c. IsHeader octets.now × (c ≡ counts_in octets.now)) }
    ensures fault { IfErr result (λ f. IsHeaderFault octets.now f) }
{
    if octets.len() < 32 {
        return Err(Fault::new(FaultKind::TooShort, octets.len()));
    }
    if number_at(octets, 0) != MAGIC {
        return Err(Fault::new(FaultKind::Magic, 0));
    }
    if number_at(octets, 4) != VERSION {
        return Err(Fault::new(FaultKind::Version, 4));
    }
    let counts = Counts::read(octets);
    if counts.size() != octets.len() {
        return Err(Fault::new(FaultKind::Size, octets.len()));
    }
    Ok(counts)
}
