//! A month in one octet.
ghost use Rattle.std.specs.Prelude.{◌≡◌, ◌↔◌, ◌<◌, IsSome, IfSome};

mod der;

/// A month, given by its number from 0 to 11. It is encoded as an OCTET STRING of one octet.
#[derive(Clone, Copy, Debug, PartialEq, Eq)]
pub struct MyByteMonth {
    number: u8,
    ghost is_month: { number < 12 },
}

impl MyByteMonth {
    /// The month whose number is `number`; `None` if `number` is 12 or more.
    pub fn new(number: u8) -> Option<Self>
        ensures number { IfSome result (λ m. m.number ≡ number) }
        ensures some { IsSome result ↔ (number < 12) }
    {
        if number < 12 {
            Some(MyByteMonth { number })
        } else {
            None
        }
    }

    /// The number of the month, from 0 to 11.
    pub fn month(&self) -> u8
        ensures { result ≡ self.now.number }
    {
        self.number
    }
}
