//! Reading of numbers from octets.
ghost use Rattle.std.specs.Prelude.{◌≡◌, ◌+◌, ◌≤◌, length};
ghost use Rattle.schema_types.specs.Numbers.{number_at, signed_at};

// The number in the four octets from `at` on, of which the first counts most.
#[inline(always)]
#[tactic(auto, unfolding(crate::specs::Numbers::number_at))]
pub(crate) fn number_at(octets: &[u8], at: usize) -> u32
    requires { at + 4 ≤ length octets.now }
    ensures { result ≡ number_at octets.now at }
{
    octets[at] as u32 * 0x100_0000
        + octets[at + 1] as u32 * 0x1_0000
        + octets[at + 2] as u32 * 0x100
        + octets[at + 3] as u32
}

// The signed number in the eight octets from `at` on, in two's complement.
#[inline(always)]
pub(crate) fn signed_at(octets: &[u8], at: usize) -> i64
    requires { at + 8 ≤ length octets.now }
    ensures { result ≡ signed_at octets.now at }
{
    let high = number_at(octets, at) as u64;
    let low = number_at(octets, at + 4) as u64;
    (high * 0x1_0000_0000 + low).cast_signed()
}
