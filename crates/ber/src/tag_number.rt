//! Tag numbers in more than one octet (X.690 8.1.2.4).
ghost use Rattle.std.specs.Prelude.{IfOk, IfErr};
ghost use Rattle.ber.specs.Identifier.{IsTagNumber};
ghost use Rattle.ber.specs.Fault.{IsNumberFault};

use crate::fault::Fault;
use crate::fault_kind::FaultKind;

// The tag number after a first octet whose five low bits are set, and how many octets it has.
pub(crate) fn tag_number(octets: &[u8]) -> Result<(u32, usize), Fault>
    ensures found { IfOk result (λ n. IsTagNumber n.0 n.1 octets.now) }
    ensures fault { IfErr result (λ f. IsNumberFault octets.now f) }
{
    let mut number = 0u32;
    for (i, octet) in octets.iter().enumerate() {
        if number == 0 && *octet == 0x80 {
            return Err(Fault::new(FaultKind::TagNumberPadded, 1));
        }
        let next = number * 128 + (*octet % 128) as u32;
        if *octet < 128 {
            if next < 31 {
                return Err(Fault::new(FaultKind::TagNumberTooSmall, 1));
            }
            return Ok((next, i + 1));
        }
        if next >= 1 << 25 {
            return Err(Fault::new(FaultKind::TagNumberTooLarge, i + 1));
        }
        number = next;
    }
    Err(Fault::truncated(octets.len() + 1, octets.len() + 3))
}
