//! A hasher that records the octets that are passed to it.
ghost use Rattle.std.specs.Prelude.{◌+◌, ◌*◌, ◌%◌, ◌^◌, fold};

use std::hash::{Hash, Hasher};

/// A hasher that records the octets that are passed to it as one number. The number has the digits
/// 1 and then the octets in base 256, the most significant digit first. There is room for 15
/// octets. If there are more, the first digits are lost.
#[derive(Drop)]
struct Recorder(u128);

impl Hasher for Recorder {
    ghost write = { λ s octets. record { 0 = fold (λ n o. ((n * 256) % 2 ^ 128 + o) % 2 ^ 128) s.0 octets } };

    ghost finish = { λ _. 0 };

    fn finish(&self) -> u64 {
        0
    }

    fn write(&mut self, bytes: &[u8]) {
        for octet in bytes {
            self.0 = self.0.wrapping_mul(256).wrapping_add(u128::from(*octet));
        }
    }
}

/// Returns the octets that `value` passes to a hasher, as one number. The number has the digits 1
/// and then the octets in base 256, the most significant digit first. There is room for 15 octets.
/// If there are more, the first digits are lost.
pub fn recorded<T: Hash>(value: &T) -> u128 {
    let mut recorder = Recorder(1);
    value.hash(&mut recorder);
    recorder.0
}
