//! The joined contents of a string in the constructed form.
ghost use Rattle.std.specs.Prelude.{◌≡◌, ◌++◌, ◌∷◌, ◌<◌, ◌≤◌, ℕ, List, [], if◌then◌else◌, length, is_ok};

use crate::full::Full;

/// The contents octets of the segments of a string in the constructed form, joined in memory of the
/// caller.
#[derive(Drop)]
pub struct Text<'t> {
    octets: &'t mut [u8],
    count: usize,
    ghost within: { count ≤ length octets.now },
}

impl<'t> Text<'t> {
    ghost use Rattle.schema_read.specs.Text.{text_of};

    /// An empty text, with `octets` as its memory.
    pub fn new(octets: &'t mut [u8]) -> Self
        ensures none { text_of result ≡ [] }
    {
        Text { octets, count: 0 }
    }

    /// The octets of the text.
    pub fn as_slice(&self) -> &[u8]
        ensures value { result.now ≡ text_of self.now }
    {
        &self.octets[..self.count]
    }

    /// Appends octets. Fails if there is no room.
    pub fn extend(&mut self, more: &[u8]) -> Result<(), Full>
        ensures items { text_of self.new
            ≡ (if is_ok result then text_of self.old ++ more.now else text_of self.old) }
    {
        if more.len() > self.octets.len() - self.count {
            return Err(Full);
        }
        let end = self.count + more.len();
        self.octets[self.count..end].copy_from_slice(more);
        self.count = end;
        Ok(())
    }

    /// The first octet. The caller must ensure that there is one.
    pub fn first(&self) -> u8
        requires { 0 < length (text_of self.now) }
        ensures { (x : ℕ) (xs : List ℕ) → text_of self.now ≡ x ∷ xs → result ≡ x }
    {
        self.octets[0]
    }

    /// Replaces the first octet. The caller must ensure that there is one.
    pub fn set_first(&mut self, octet: u8)
        requires { 0 < length (text_of self.old) }
        ensures { (x : ℕ) (xs : List ℕ) → text_of self.old ≡ x ∷ xs → text_of self.new ≡ octet ∷ xs }
    {
        self.octets[0] = octet;
    }
}
