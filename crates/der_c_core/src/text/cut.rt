//! The buffer for a text. A text that is too long is truncated.
ghost use Rattle.std.specs.Prelude.{◌≤◌, length};

/// A buffer into which a text is written. The first `count` octets of the buffer `octets` are the
/// text written so far.
#[derive(Drop)]
pub(crate) struct Text<'a> {
    pub(crate) octets: &'a mut [u8],
    pub(crate) count: usize,
    ghost within: { count ≤ length octets.now },
}

impl Text<'_> {
    ghost use Rattle.der_c_core.specs.ErrorText.{AppendsText};

    // appends a text, as far as there is space
    pub(crate) fn append(&mut self, s: &str)
        ensures { AppendsText self.old s.now self.new }
    {
        let bytes = s.as_bytes();
        let space = self.octets.len() - self.count;
        let taken = bytes.len().min(space);
        let following = self.count + taken;
        self.octets[self.count..following].copy_from_slice(&bytes[..taken]);
        self.count = following;
    }
}
