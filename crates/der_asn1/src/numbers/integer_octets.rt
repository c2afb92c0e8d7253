//! Contents of an INTEGER, computed from a number.
ghost use Rattle.std.specs.Prelude.{◌≡◌, ◌≤◌, drop};
ghost use Rattle.der_asn1.specs.Integer.{integer_octets, turned, has_sign};

/// The contents of an INTEGER of at most 65 bits, in the fewest octets (X.690 8.3.2).
#[derive(Drop)]
pub struct IntegerOctets {
    octets: [u8; 9],
    start: usize,
    ghost inside: { start ≤ 9 },
}

impl IntegerOctets {
    // The contents of `magnitude`, or of -1 - `magnitude` if `negative`.
    pub(crate) fn new(negative: bool, magnitude: u64) -> Self
        ensures { drop result.start result.octets ≡ integer_octets negative magnitude }
    {
        let mut octets = [0; 9];
        let mut start = 9;
        let mut left = magnitude;
        'digits: while left > 0 {
            start -= 1;
            octets[start] = turned_octet(negative, (left % 256) as u8);
            left /= 256;
        }
        if is_signed(negative, &octets[start..]) {
            return IntegerOctets { octets, start };
        }
        start -= 1;
        octets[start] = turned_octet(negative, 0);
        IntegerOctets { octets, start }
    }

    /// The contents octets, as a slice.
    pub fn as_slice(&self) -> &[u8]
        ensures { result.now ≡ drop self.now.start self.now.octets }
    {
        &self.octets[self.start..]
    }
}

// The octet, with all bits inverted if `negative`.
pub(crate) fn turned_octet(negative: bool, octet: u8) -> u8
    ensures { result ≡ turned negative octet }
{
    if negative { 255 - octet } else { octet }
}

// Whether the first bit of the octets is the sign bit of `negative`; false without octets.
fn is_signed(negative: bool, octets: &[u8]) -> bool
    ensures { result ≡ has_sign negative octets.now }
{
    match octets {
        [] => false,
        [first, ..] => (*first < 0x80) != negative,
    }
}
