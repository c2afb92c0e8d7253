//! Octets with their offset in the input.
ghost use Rattle.std.specs.Prelude.{◌≡◌, ◌-◌, ◌≤◌, length};

/// A part of the input: its octets, and the offset of its end from the start of the input.
#[derive(Clone, Copy)]
pub(crate) struct Place<'a> {
    pub octets: &'a [u8],
    pub end: usize,
    ghost inside: { length octets.now ≤ end },
}

impl<'a> Place<'a> {
    /// The offset at which the octets begin, from the start of the input.
    #[inline(always)]
    pub fn offset(self) -> usize
        ensures { result ≡ self.entry.end - length self.entry.octets.now }
    {
        self.end - self.octets.len()
    }

    /// The part of the input that consists of `rest`. The octets of this part must end with `rest`.
    #[inline(always)]
    pub fn at(self, rest: &'a [u8]) -> Self
        requires { length rest.now ≤ length self.octets.now }
        ensures octets { result.octets.now ≡ rest.now }
        ensures end { result.end ≡ self.entry.end }
    {
        Place {
            octets: rest,
            end: self.end,
        }
    }
}
