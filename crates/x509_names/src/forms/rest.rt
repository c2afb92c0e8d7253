//! Parts of octets.
ghost use Rattle.std.specs.Prelude.{◌≡◌, ◌≤◌, drop, length, take};

// The octets from a place on; none, if there are fewer.
pub(crate) fn rest<'a>(octets: &'a [u8], from: usize) -> &'a [u8]
    ensures { result.now ≡ drop from octets.now }
{
    if from <= octets.len() {
        &octets[from..]
    } else {
        &octets[octets.len()..]
    }
}

// The octets before a place.
pub(crate) fn front<'a>(octets: &'a [u8], end: usize) -> &'a [u8]
    requires { end ≤ length octets.now }
    ensures { result.now ≡ take end octets.now }
{
    &octets[..end]
}
