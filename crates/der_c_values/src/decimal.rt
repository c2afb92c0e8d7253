//! Numbers in decimal.
ghost use Rattle.std.specs.Prelude.{◌≡◌, ◌≤◌, ◌+◌, ◌%◌, drop};
ghost use Rattle.der_c_values.specs.Dotted.{decimal_text};

/// A number in decimal, without leading zeros.
#[derive(Drop)]
pub(crate) struct Decimal {
    octets: [u8; 39],
    start: usize,
    ghost inside: { start ≤ 39 },
}

impl Decimal {
    /// Makes the decimal digits of `number`.
    pub(crate) fn new(number: u128) -> Self
        ensures { drop result.start result.octets ≡ decimal_text number }
    {
        if number == 0 {
            return Decimal {
                octets: [b'0'; 39],
                start: 38,
            };
        }
        let mut octets = [0; 39];
        let mut start = 39;
        let mut left = number;
        'digits: while left > 0 {
            start -= 1;
            octets[start] = digit_of(left);
            left /= 10;
        }
        Decimal { octets, start }
    }

    /// The digits, as a slice.
    pub(crate) fn as_slice(&self) -> &[u8]
        ensures { result.now ≡ drop self.now.start self.now.octets }
    {
        &self.octets[self.start..]
    }
}

// The last digit of a number, as a character.
fn digit_of(number: u128) -> u8
    ensures { result ≡ 48 + number % 10 }
{
    b'0' + (number % 10) as u8
}
