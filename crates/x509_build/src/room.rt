//! The path of a chain in a room of the caller.
ghost use Rattle.std.specs.Prelude.{◌≡◌, ◌+◌, ◌<◌, ◌≤◌, ◌∷◌, ◌++◌, [], length, take};
ghost use Rattle.x509_build.specs.Pools.{path_of};

use crate::issuing::subject_at;
use crate::link::last_of;
use crate::pool::Pool;
use std::slice;
use x509_path::PathCertificate;

// Copies the certificates of a chain to the front of the room, in the order of a path.
pub(crate) fn put_path<'a>(pool: &Pool<'_, 'a>, chain: &[usize], room: &mut [PathCertificate<'a>])
    requires ends { 0 < length chain.now }
    requires fits { length chain.now ≤ length room.old }
    ensures { take (length chain.now) room.new ≡ path_of pool.now chain.now }
{
    for at in 0..chain.len() {
        let last = last_of(&chain[..chain.len() - 1 - at]);
        put_one(room, at, subject_at(pool, last));
    }
}

// Copies a certificate to a place of the room.
fn put_one<'a>(room: &mut [PathCertificate<'a>], at: usize, certificate: &PathCertificate<'a>)
    requires { at < length room.old }
    ensures { take (at + 1) room.new ≡ take at room.old ++ certificate.now ∷ [] }
{
    put(room, at, slice::from_ref(certificate));
}

fn put<'a>(room: &mut [PathCertificate<'a>], at: usize, certificates: &[PathCertificate<'a>])
    requires { at + length certificates.now ≤ length room.old }
    ensures { take (at + length certificates.now) room.new ≡ take at room.old ++ certificates.now }
{
    let end = at + certificates.len();
    room[at..end].copy_from_slice(certificates);
}
