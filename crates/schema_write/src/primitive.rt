//! Writes the contents octets of primitive encodings.
ghost use Rattle.std.specs.Prelude.{IfOk};
ghost use Rattle.schema_read.specs.Strings.{AreSegments};
ghost use Rattle.schema_write.specs.Rewriting.{IsRewritten, IsTruth, rewriting_of};

use crate::bits::put_bits;
use crate::generalized_time::generalized_time;
use crate::refusal::Refusal;
use crate::rewriting::Rewriting;
use crate::utc_time::utc_time;
use ber::Universal;
use schema_read::join_segments;
use std::alloc::{AllocError, Global};

/// Rewrites a string from the constructed form to the primitive form. `contents` are its contents
/// octets in the constructed form. Returns its contents octets in the primitive form.
///
/// # Errors
///
/// - `NotBer`, if `contents` are not segments of a string of this type.
/// - `OutOfMemory`, if there is not enough memory.
pub(crate) fn joined_text(
    alloc: Global,
    universal: Universal,
    contents: &[u8],
) -> Result<Vec<u8>, Refusal>
    ensures { IfOk result (λ text. AreSegments 64 universal contents.now text.items) }
{
    let mut room = vec![in alloc; 0u8; contents.len().saturating_add(1)]?;
    match join_segments(universal, contents, room.as_mut_slice())? {
        Some(text) => Ok(text.as_slice().to_vec(alloc)?),
        None => Err(Refusal::NotBer),
    }
}

/// Rewrites the contents octets of a value of a universal type from BER to DER. For a BIT STRING,
/// `names` is the number of names of bits.
pub(crate) fn rewritten(
    alloc: Global,
    universal: Universal,
    names: u32,
    contents: &[u8],
) -> Result<Vec<u8>, AllocError>
    ensures { IfOk result (λ v. IsRewritten (rewriting_of universal) names contents.now v.items) }
{
    match Rewriting::of(universal) {
        Rewriting::Boolean => boolean(alloc, contents),
        Rewriting::Bits => put_bits(alloc, names, contents),
        Rewriting::UtcTime => utc_time(alloc, contents),
        Rewriting::GeneralizedTime => generalized_time(alloc, contents),
        Rewriting::Same => contents.to_vec(alloc),
    }
}

// TRUE is one octet FF (X.690 11.1).
fn boolean(alloc: Global, contents: &[u8]) -> Result<Vec<u8>, AllocError>
    ensures { IfOk result (λ v. IsTruth contents.now v.items) }
{
    match contents {
        [0] => contents.to_vec(alloc),
        [_] => [0xffu8].to_vec(alloc),
        _ => contents.to_vec(alloc),
    }
}
