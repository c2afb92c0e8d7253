//! Parts of octets.
ghost use Rattle.std.specs.Prelude.{◌≡◌};
ghost use Rattle.schema_cursor.specs.Cursor.{part_of};

/// The `len` octets from the index `start` on. Empty if `octets` does not have all of them.
pub(crate) fn part_of(octets: &[u8], start: usize, len: usize) -> &[u8]
    ensures { result.now ≡ part_of octets.now start len }
{
    if start <= octets.len() && len <= octets.len() - start {
        &octets[start..start + len]
    } else {
        &[]
    }
}
