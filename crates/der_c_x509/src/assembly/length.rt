//! Making the length octets of elements.
ghost use Rattle.std.specs.Prelude.{◌≡◌, ◌^◌, ◌<◌, ◌≤◌, None, IfSome, length};
ghost use Rattle.der_base.specs.Length.{length_octets};
ghost use Rattle.der_c_core.specs.CWriter.{KeepsOpen, writer_state};
ghost use Rattle.der_c_core.specs.WriterCalls.{RefusesBy};
ghost use Rattle.der_base.specs.declared.error.ErrorKind.TheVariants.{Overflow};

use der_base::{ErrorKind, Length};
use der_c_core::{DerError, DerSpan, DerWriter, c_error};
use der_c_values::refuse_write;
use der_core::Encode;

/// Makes the length octets of an element with `count` octets of contents. They are written into
/// `space`. Returns `None` if `count` is more than 4294967295.
pub(crate) fn length_span<'b>(count: usize, space: &'b mut [u8; 5]) -> Option<DerSpan<'b>>
    ensures some { IfSome result (λ s. s.octets.now ≡ length_octets count) }
    ensures few { IfSome result (λ s. length s.octets.now ≤ 5) }
    ensures counted { IfSome result (λ _. count < 2 ^ 32) }
    ensures none { result ≡ None → 2 ^ 32 ≤ count }
{
    if count > u32::MAX as usize {
        return None;
    }
    match Length::new(count as u32).encode_to_slice(space) {
        Ok(octets) => Some(DerSpan { octets }),
        Err(_) => None,
    }
}

/// Makes `writer` fail because an element has more than 4294967295 octets of contents. Returns
/// `Overflow` without a position. Returns `Failed` instead if `writer` had already failed.
#[cold]
pub(crate) fn refuse_length(writer: &mut DerWriter<'_>) -> DerError
    ensures refuses { RefusesBy Overflow (writer_state writer.old) result (writer_state writer.new) }
    ensures keeps_open { KeepsOpen writer.old writer.new }
{
    refuse_write(writer, c_error(ErrorKind::Overflow.to_error()))
}
