//! Ending a text with a zero octet, for C.
ghost use Rattle.std.specs.Prelude.{◌≡◌, ◌<◌, ◌^◌, ◌-◌, length};

use crate::answer::NO_ROOM;

/// Writes a zero octet after the first `count` octets of `text`. Returns `count`, or [`NO_ROOM`] if
/// there is no space for the zero octet.
pub(crate) fn ended(text: &mut [u8], count: usize) -> usize
    ensures size { length text.new ≡ length text.old }
{
    if count >= text.len() {
        return NO_ROOM;
    }
    text[count] = 0;
    count
}
